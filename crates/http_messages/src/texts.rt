ghost use Rattle.std.specs.Prelude.{◌≡◌, true, map, IfOk};
ghost use Rattle.std.specs.List.{list_all};
ghost use Rattle.std.specs.Str.{is_utf8};
ghost use Rattle.http_messages.specs.Fields.{joined_values, first_field_value};

use flow_values::{NoMemory, Text};
use std::alloc::Global;
use std::str::from_utf8;

/// Whether each of the values is UTF-8.
pub(crate) fn are_texts(values: &[&[u8]]) -> bool
    ensures { result ≡ list_all (λ value. is_utf8 value.now) values.now }
{
    values.iter().all(|value| is_text(value))
}

/// Whether a value is UTF-8.
fn is_text(value: &[u8]) -> bool
    ensures { result ≡ is_utf8 value.now }
{
    from_utf8(value).is_ok()
}

/// The value as a `str`.
pub(crate) fn text_of(value: &[u8]) -> &str
    requires { is_utf8 value.now ≡ true }
    ensures { result.now ≡ value.now }
{
    match from_utf8(value) {
        Ok(text) => text,
        Err(_) => "",
    }
}

/// The values joined by `, ` (RFC 9110, section 5.3), or `None` if there are none.
pub(crate) fn joined(alloc: Global, values: &[&[u8]]) -> Result<Option<Text>, NoMemory>
    requires { list_all (λ value. is_utf8 value.now) values.now ≡ true }
    ensures { IfOk result (λ text. text ≡ joined_values (map (λ value. value.now) values.now)) }
{
    let Some((first, others)) = values.split_first() else {
        return Ok(None);
    };
    let mut text = Text::from_text(alloc, text_of(first))?;
    for value in others {
        text.push(", ")?;
        text.push(text_of(value))?;
    }
    Ok(Some(text))
}

/// The first value as text, if any.
pub(crate) fn first_text(alloc: Global, values: &[&[u8]]) -> Result<Option<Text>, NoMemory>
    requires { list_all (λ value. is_utf8 value.now) values.now ≡ true }
    ensures { IfOk result (λ text. text ≡ first_field_value (map (λ value. value.now) values.now)) }
{
    match values.first() {
        Some(value) => {
            let text = Text::from_text(alloc, text_of(value))?;
            Ok(Some(text))
        }
        None => Ok(None),
    }
}
