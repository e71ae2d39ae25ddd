ghost use Rattle.std.specs.Prelude.{◌≡◌, ◌≢◌, IsOkAnd, IfOk, IfErr, IfSome, IfNone};
ghost use Rattle.stix_ids.specs.declared.refusal.IdRefusal.TheVariants.{NoMemory as OutOfMemory};
ghost use Rattle.stix_ids.specs.declared.id.Id.{Id as Identifier};
ghost use Rattle.stix_ids.specs.Identifier.{IsSplitId, HasSeparator, IsTextOfId};
ghost use Rattle.stix_ids.specs.Reading.{IsRefusedId};
ghost use Rattle.stix_ids.specs.PartsOf.{id_of};

use crate::hyphenated::read_number;
use crate::kind::read_kind;
use crate::{Id, IdRefusal};
use flow_values::{Name, NoMemory};
use std::alloc::Global;

/// The length of `--` and a UUID, in bytes.
pub(crate) const SUFFIX_LENGTH: usize = 38;

/// An identifier borrowed from a text: its kind, and the number of its UUID.
#[derive(Clone, Copy, Debug, PartialEq, Eq)]
pub struct IdRef<'a> {
    pub kind: &'a str,
    pub number: u128,
}

impl<'a> IdRef<'a> {
    /// Reads an identifier without an allocation, so it never returns `NoMemory`.
    pub fn read(text: &'a str) -> Result<IdRef<'a>, IdRefusal>
        ensures ok { IfOk result (λ parts. IsTextOfId text.now (id_of parts)) }
        ensures err { IfErr result (λ refusal. (refusal ≢ OutOfMemory)
            × IsRefusedId text.now refusal) }
        ensures named { (id : Identifier) → IsTextOfId text.now id
            → IsOkAnd result (λ parts. id_of parts ≡ id) }
    {
        let Some((kind, last)) = split_at_separator(text) else {
            return Err(IdRefusal::NoSeparator);
        };
        let Some(number) = read_number(last) else {
            return Err(IdRefusal::BadUuid);
        };
        match read_kind(kind) {
            Ok(()) => Ok(IdRef { kind, number }),
            Err(at) => Err(IdRefusal::BadKind { at }),
        }
    }

    /// The identifier, owned.
    pub fn to_id(self, alloc: Global) -> Result<Id, NoMemory>
        ensures { IfOk result (λ id. id ≡ id_of self.entry) }
    {
        let kind = Name::from_text(alloc, self.kind)?;
        Ok(Id {
            kind,
            number: self.number,
        })
    }
}

/// Splits a text into what precedes the `--` and the last 36 bytes, which follow it.
fn split_at_separator(text: &str) -> Option<(&str, &[u8])>
    ensures some { IfSome result (λ cut. IsSplitId text.now cut.0.now cut.1.now) }
    ensures none { IfNone result (¬ HasSeparator text.now) }
{
    let at = text.len().checked_sub(SUFFIX_LENGTH)?;
    let bytes = text.as_bytes();
    if bytes[at] != b'-' || bytes[at + 1] != b'-' {
        return None;
    }
    Some((&text[..at], &bytes[at + 2..]))
}
