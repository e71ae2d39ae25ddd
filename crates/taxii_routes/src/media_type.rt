ghost use Rattle.std.specs.Prelude.{◌≡◌, ◌↔◌, ◌⊎◌, IsTrue, All};
ghost use Rattle.std.specs.List.{slice_split};
ghost use Rattle.taxii_routes.specs.MediaType.{is_semicolon, IsTaxii, IsWildcard};
ghost use Rattle.taxii_routes.specs.MediaType.{IsMediaTypeVersion};
ghost use Rattle.taxii_routes.specs.MediaType.{NamesNoOtherVersion, Accepts};
ghost use Rattle.taxii_routes.specs.MediaType as spec;

use crate::whitespace::{is_named, trimmed};

/// Whether an Accept value allows TAXII 2.1: it lists TAXII's media type, `application/*` or `*/*`.
/// Weights are ignored. Allocates nothing.
pub fn accepts(header: &str) -> bool
    ensures { IsTrue result ↔ Accepts header.now }
{
    header.split(',').any(|member| is_taken(member))
}

/// Whether one member of an Accept value allows TAXII's media type.
fn is_taken(member: &str) -> bool
    ensures { IsTrue result ↔ (IsTaxii member.now ⊎ IsWildcard member.now) }
{
    is_taxii(member) || is_wildcard(member)
}

/// Whether a Content-Type value is `application/taxii+json`, without a version or with version 2.1.
/// Allocates nothing.
pub fn is_taxii(header: &str) -> bool
    ensures { IsTrue result ↔ IsTaxii header.now }
{
    match header.split_once(';') {
        Some((range, parameters)) => {
            is_named(range, "application/taxii+json") && names_no_other_version(parameters)
        }
        None => is_named(header, "application/taxii+json"),
    }
}

/// Whether no parameter names another version.
fn names_no_other_version(parameters: &str) -> bool
    ensures { IsTrue result ↔ All NamesNoOtherVersion (slice_split is_semicolon parameters.now) }
{
    parameters
        .split(';')
        .all(|parameter| is_version_2_1_or_absent(parameter))
}

/// Whether this parameter is not a version other than 2.1.
fn is_version_2_1_or_absent(parameter: &str) -> bool
    ensures { IsTrue result ↔ NamesNoOtherVersion parameter.now }
{
    match parameter.split_once('=') {
        Some((name, value)) => !is_named(name, "version") || is_version(value),
        None => !is_named(parameter, "version"),
    }
}

/// Whether the value is the version 2.1, quoted or not.
fn is_version(value: &str) -> bool
    ensures { IsTrue result ↔ IsMediaTypeVersion value.now }
{
    let value = trimmed(value);
    value == b"2.1".as_slice() || value == b"\"2.1\"".as_slice()
}

/// Whether the media range is a wildcard that includes TAXII's type.
fn is_wildcard(member: &str) -> bool
    ensures { IsTrue result ↔ IsWildcard member.now }
{
    let range = range_of(member);
    is_named(range, "*/*") || is_named(range, "application/*")
}

/// The media type without its parameters.
fn range_of(text: &str) -> &str
    ensures { result.now ≡ spec.range_of text.now }
{
    match text.split_once(';') {
        Some((range, _)) => range,
        None => text,
    }
}
