ghost use Rattle.std.specs.Prelude.{◌≡◌, ◌++◌, None, IfOk, OnOk, map, string_bytes};
ghost use Rattle.json.specs.Tree.{json_tokens, items_tokens, members_tokens};
ghost use Rattle.serde_json.specs.Written.{outline, items_outline, members_outline, compact_text};
ghost use Rattle.serde_json.specs.View.{items_of};
ghost use Rattle.stix_json.specs.DataOf.{data_of, field_data, members_of};
ghost use Rattle.stix_json.specs.Ordered.{IsOrdered};
ghost use Rattle.stix_json.specs.Refusal.{data_refusal};
ghost use Rattle.stix_json.specs.Reading.{IsJsonOf};

use crate::{Field, Json};
use flow_values::{NoMemory, Text};
use json::Writer;
use std::alloc::{AllocError, Global};

/// The compact JSON text of an ordered value, with names in byte order. If the value has no error,
/// the text reads back as the same value. `NoMemory` is the only error.
pub fn write_json(alloc: Global, value: &Json) -> Result<Text, NoMemory>
    requires { IsOrdered (data_of value.now) }
    ensures text { IfOk result (λ text. text ≡ compact_text (data_of value.now)) }
    ensures reads_back { IfOk result (λ text. data_refusal (data_of value.now) ≡ None
        → IsJsonOf text value.now) }
{
    write_json_with_capacity(alloc, value, 0)
}

/// Writes compact JSON with an initial capacity of `room` bytes, for texts of known length.
pub fn write_json_with_capacity(
    alloc: Global,
    value: &Json,
    capacity: usize,
) -> Result<Text, NoMemory>
    requires { IsOrdered (data_of value.now) }
    ensures text { IfOk result (λ text. text ≡ compact_text (data_of value.now)) }
    ensures reads_back { IfOk result (λ text. data_refusal (data_of value.now) ≡ None
        → IsJsonOf text value.now) }
{
    let mut out = Writer::new(Vec::with_capacity(alloc, capacity)?);
    write_value(value, &mut out)?;
    match String::from_utf8(out.into_inner()) {
        Ok(text) => Ok(Text::from_string(without_slack(text))),
        Err(_) => Err(NoMemory),
    }
}

/// The text without spare capacity, since a store keeps it for long.
fn without_slack(text: String) -> String
    ensures { string_bytes result ≡ string_bytes text }
{
    let mut text = text;
    text.shrink_to_fit();
    text
}

#[cycle(write)]
fn write_value(value: &Json, out: &mut Writer) -> Result<(), AllocError>
    ensures ok { OnOk result (out.new.tokens
        ≡ out.old.tokens ++ json_tokens (outline (data_of value.now))) }
    ensures before { out.new.before ≡ out.old.before }
{
    match value {
        Json::Bool(truth) => out.boolean(*truth),
        Json::Integer(whole) => out.i64(*whole),
        Json::String(words) => out.string(words.as_str()),
        Json::Array(items) => {
            out.begin_array()?;
            write_items(items.as_slice(), out)
        }
        Json::Object(fields) => {
            out.begin_object()?;
            write_fields(fields.as_slice(), out)
        }
    }
}

/// The items and the closing bracket.
#[cycle(write)]
fn write_items(items: &[Json], out: &mut Writer) -> Result<(), AllocError>
    ensures ok { OnOk result (out.new.tokens
        ≡ out.old.tokens ++ items_tokens (items_outline (items_of (map data_of items.now)))) }
    ensures before { out.new.before ≡ out.old.before }
{
    for item in items {
        write_value(item, out)?;
    }
    out.end_array()
}

/// The fields and the closing brace.
#[cycle(write)]
fn write_fields(fields: &[Field], out: &mut Writer) -> Result<(), AllocError>
    ensures ok { OnOk result (out.new.tokens
        ≡ out.old.tokens ++ members_tokens
        (members_outline (members_of (map field_data fields.now)))) }
    ensures before { out.new.before ≡ out.old.before }
{
    for field in fields {
        out.key(field.name.as_str())?;
        write_value(&field.value, out)?;
    }
    out.end_object()
}
