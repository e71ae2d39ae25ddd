ghost use Rattle.std.specs.Prelude.{◌≡◌, reverse};
ghost use Rattle.std.specs.List.{list_any};
ghost use Rattle.httparse.specs.Grammar.{skip_ows};
ghost use Rattle.http_messages.specs.Fields.{asks_to_close, is_close};

use crate::ascii::same_name;

/// Whether any Connection value has the option `close` (RFC 9110, section 7.6.1).
pub(crate) fn any_asks_to_close(values: &[&[u8]]) -> bool
    ensures { result ≡ list_any (λ value. asks_to_close value.now) values.now }
{
    values.iter().any(|value| asks_to_close(value))
}

/// Whether this Connection value has the option `close`.
fn asks_to_close(value: &[u8]) -> bool
    ensures { result ≡ asks_to_close value.now }
{
    value
        .split(|byte| *byte == b',')
        .any(|member| is_close(member))
}

/// Whether a list member is `close`, ignoring ASCII case and surrounding blanks.
fn is_close(member: &[u8]) -> bool
    ensures { result ≡ is_close member.now }
{
    same_name(trim_end(trim_start(member)), b"close")
}

/// The bytes without leading spaces and tabs.
fn trim_start(bytes: &[u8]) -> &[u8]
    ensures { result.now ≡ skip_ows bytes.now }
{
    let mut rest = bytes;
    while let [b' ' | b'\t', more @ ..] = rest {
        rest = more;
    }
    rest
}

/// The bytes without trailing spaces and tabs.
fn trim_end(bytes: &[u8]) -> &[u8]
    ensures { reverse result.now ≡ skip_ows (reverse bytes.now) }
{
    let mut rest = bytes;
    while let [more @ .., b' ' | b'\t'] = rest {
        rest = more;
    }
    rest
}
