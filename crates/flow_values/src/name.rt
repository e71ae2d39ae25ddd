//! String interning over a fixed table, sorted by length. `LENGTH_STARTS` bounds the few names to
//! compare. A name is interned only if it equals its table entry, so `as_str` always returns the
//! text it was made from.

ghost use Rattle.std.specs.Prelude.{◌≡◌, IfOk, IfSome, map, unwrap_or, slice_get, []};
ghost use Rattle.flow_values.specs.inner.StandardNames.{standard_names};

use crate::{NoMemory, Text};
use std::alloc::Global;
use std::marker::Model;

/// The name of a property or of an object type. Its value in contracts is the list of its bytes.
///
/// Interned: a name of the STIX 2.1 or TAXII 2.1 standard is an index into a static table and
/// allocates nothing. Any other name owns a copy of its text.
#[derive(Debug, Drop)]
pub struct Name {
    form: NameForm,
}

#[derive(Debug, Drop)]
enum NameForm {
    /// The index of a standard name in `STANDARD_NAMES`.
    Given(u8),
    Own(Box<Text>),
}

impl Model for Name {
    ghost use Rattle.std.specs.Prelude.{List, ℕ};
    ghost use Rattle.flow_values.specs.inner.StandardNames.{text_of_name};

    ghost Value = { List ℕ };

    ghost view = { λ name. text_of_name name.form };
}

impl Name {
    /// The name with this text. Searches only the standard names of the same length. `NoMemory`
    /// only if the name is not a standard one.
    pub fn from_text(alloc: Global, text: &str) -> Result<Name, NoMemory>
        ensures { IfOk result (λ name. name ≡ text.now) }
    {
        let form = match index_of(text) {
            Some(index) => NameForm::Given(index),
            None => NameForm::Own(Box::new(alloc, Text::from_text(alloc, text)?)?),
        };
        Ok(Name { form })
    }

    /// Borrows the name as text.
    pub fn as_str(&self) -> &str
        ensures { result.now ≡ self.now }
    {
        match &self.form {
            NameForm::Given(index) => standard_name_at(*index),
            NameForm::Own(text) => text.as_str(),
        }
    }
}

/// The standard name at an index, or the empty text past the end of the table.
fn standard_name_at(index: u8) -> &'static str
    ensures { result.now ≡ unwrap_or (slice_get standard_names index) [] }
{
    match given().get(usize::from(index)) {
        Some(name) => *name,
        None => "",
    }
}

/// The index of a text among the standard names, if it is one. Scans the names of its length, which
/// are adjacent in the table.
fn index_of(text: &str) -> Option<u8>
    ensures { IfSome result (λ index. unwrap_or (slice_get standard_names index) [] ≡ text.now) }
{
    let first = *LENGTH_STARTS.get(text.len())?;
    let end = *LENGTH_STARTS.get(text.len() + 1)?;
    for index in first..end {
        if standard_name_at(index) == text {
            return Some(index);
        }
    }
    None
}

/// The table of all standard names.
fn given() -> &'static [&'static str]
    ensures { map (λ name. name.now) result.now ≡ standard_names }
{
    STANDARD_NAMES
}

/// The property names of STIX 2.1 objects and TAXII 2.1 resources, and the STIX 2.1 object types
/// (sections 3.2 and 4 to 7). Sorted by length; within one length, property names and frequent
/// names come first.
const STANDARD_NAMES: &[&str] = &[
    "id",
    "pid",
    "url",
    "key",
    "cwd",
    "type",
    "name",
    "lang",
    "path",
    "size",
    "body",
    "more",
    "next",
    "date",
    "file",
    "note",
    "tool",
    "value",
    "roles",
    "title",
    "mutex",
    "labels",
    "hashes",
    "number",
    "region",
    "report",
    "bundle",
    "objects",
    "created",
    "revoked",
    "pattern",
    "to_refs",
    "src_ref",
    "dst_ref",
    "user_id",
    "content",
    "version",
    "subject",
    "malware",
    "opinion",
    "process",
    "modified",
    "defanged",
    "src_port",
    "dst_port",
    "from_ref",
    "path_enc",
    "identity",
    "campaign",
    "grouping",
    "incident",
    "location",
    "sighting",
    "artifact",
    "mac-addr",
    "software",
    "last_seen",
    "protocols",
    "mime_type",
    "is_active",
    "is_hidden",
    "image_ref",
    "indicator",
    "ipv4-addr",
    "directory",
    "ipv6-addr",
    "confidence",
    "extensions",
    "first_seen",
    "valid_from",
    "source_ref",
    "target_ref",
    "parent_ref",
    "date_added",
    "media_type",
    "phase_name",
    "email-addr",
    "object_refs",
    "description",
    "valid_until",
    "source_name",
    "external_id",
    "domain-name",
    "spec_version",
    "pattern_type",
    "command_line",
    "created_time",
    "display_name",
    "account_type",
    "is_multipart",
    "relationship",
    "threat-actor",
    "user-account",
    "account_login",
    "last_observed",
    "observed-data",
    "intrusion-set",
    "vulnerability",
    "email-message",
    "created_by_ref",
    "first_observed",
    "attack-pattern",
    "infrastructure",
    "number_observed",
    "kill_chain_name",
    "indicator_types",
    "network-traffic",
    "resolves_to_refs",
    "course-of-action",
    "malware-analysis",
    "x509-certificate",
    "language-content",
    "kill_chain_phases",
    "relationship_type",
    "granular_markings",
    "autonomous-system",
    "marking-definition",
    "external_references",
    "object_marking_refs",
    "parent_directory_ref",
    "windows-registry-key",
    "extension-definition",
    "opened_connection_refs",
];

/// `LENGTH_STARTS[n]` is the index of the first name of `n` bytes; `LENGTH_STARTS[n + 1]` is one
/// past the last.
const LENGTH_STARTS: &[u8] = &[
    0, 0, 0, 1, 5, 17, 21, 27, 41, 56, 66, 77, 83, 93, 99, 103, 107, 112, 116, 117, 119, 122, 122,
    123,
];
