ghost use Rattle.std.specs.Prelude.{◌≡◌, ◌++◌, codes, decimal, option_map, IfOk, OnOk};
ghost use Rattle.form_urlencoded.specs.Form.{byte_serialize};
ghost use Rattle.http_messages.specs.Lines.{field_line};
ghost use Rattle.taxii_client.specs.Requests.{request_of, request_line, objects_path, query_of};
ghost use Rattle.taxii_client.specs.Requests.{behind};
ghost use Rattle.taxii_client.specs.Requests.{since_pair, next_pair, host_of};

use crate::Target;
use flow_values::{NoMemory, Text};
use form_urlencoded::byte_serialize;
use itoa::Buffer;
use std::alloc::Global;
use stix_ids::write_uuid;

/// The text of the request for the first page of the target, or for the page after the cursor
/// `next`.
pub fn request_text(alloc: Global, target: &Target, next: Option<&str>) -> Result<Text, NoMemory>
    ensures { IfOk result
        (λ text. text ≡ request_of target.now (option_map (λ next. next.now) next.entry)) }
{
    let mut text = Text::new(alloc);
    push_request_line(&mut text, target, next)?;
    push_host(&mut text, target)?;
    push_field(&mut text, "Accept", "application/taxii+json;version=2.1")?;
    push_field(&mut text, "Connection", "close")?;
    text.push("\r\n")?;
    Ok(text)
}

/// Appends the request line.
fn push_request_line(text: &mut Text, target: &Target, next: Option<&str>) -> Result<(), NoMemory>
    ensures { OnOk result
        (text.new ≡ text.old
        ++ request_line target.now (option_map (λ next. next.now) next.entry)) }
{
    text.push("GET ")?;
    push_path(text, target)?;
    push_query(text, target, next)?;
    text.push(" HTTP/1.1")?;
    text.push("\r\n")?;
    Ok(())
}

/// Appends the path of the collection's objects.
fn push_path(text: &mut Text, target: &Target) -> Result<(), NoMemory>
    ensures { OnOk result (text.new ≡ text.old ++ objects_path target.now) }
{
    let mut buffer = [0; 36];
    text.push(target.root.as_str())?;
    text.push("collections/")?;
    text.push(write_uuid(target.collection, &mut buffer))?;
    text.push("/objects/")?;
    Ok(())
}

/// Appends the query.
fn push_query(text: &mut Text, target: &Target, next: Option<&str>) -> Result<(), NoMemory>
    ensures { OnOk result
        (text.new ≡ text.old
        ++ query_of target.now.limit target.now.since (option_map (λ next. next.now) next.entry)) }
{
    text.push("?limit=")?;
    text.push(Buffer::new().format(target.limit))?;
    text.push("&match%5Bversion%5D=all")?;
    push_behind(text, target, next)?;
    Ok(())
}

/// Appends `added_after` and `next`. Both are sent, since a server may require the original filters
/// together with `next`.
fn push_behind(text: &mut Text, target: &Target, next: Option<&str>) -> Result<(), NoMemory>
    ensures { OnOk result
        (text.new ≡ text.old
        ++ behind target.now.since (option_map (λ next. next.now) next.entry)) }
{
    push_since(text, target)?;
    push_next(text, next)?;
    Ok(())
}

/// Appends `added_after`, if the target has a time.
fn push_since(text: &mut Text, target: &Target) -> Result<(), NoMemory>
    ensures { OnOk result (text.new ≡ text.old ++ since_pair target.now.since) }
{
    match &target.since {
        Some(time) => push_pair(text, "&added_after=", time.as_str()),
        None => Ok(()),
    }
}

/// Appends `next`, if there is a cursor.
fn push_next(text: &mut Text, next: Option<&str>) -> Result<(), NoMemory>
    ensures { OnOk result
        (text.new ≡ text.old ++ next_pair (option_map (λ next. next.now) next.entry)) }
{
    match next {
        Some(next) => push_pair(text, "&next=", next),
        None => Ok(()),
    }
}

/// Appends a parameter: its literal name, and its value percent-encoded.
fn push_pair(text: &mut Text, name: &str, value: &str) -> Result<(), NoMemory>
    ensures { OnOk result (text.new ≡ text.old ++ (name.now ++ byte_serialize value.now)) }
{
    text.push(name)?;
    for piece in byte_serialize(value.as_bytes()) {
        text.push(piece)?;
    }
    Ok(())
}

/// Appends the Host field.
fn push_host(text: &mut Text, target: &Target) -> Result<(), NoMemory>
    ensures { OnOk result (text.new ≡ text.old ++ field_line (codes "Host") (host_of target.now)) }
{
    text.push("Host: ")?;
    text.push(target.host.as_str())?;
    text.push(":")?;
    text.push(Buffer::new().format(target.port))?;
    text.push("\r\n")
}

/// Appends a header field.
fn push_field(text: &mut Text, name: &str, value: &str) -> Result<(), NoMemory>
    ensures { OnOk result (text.new ≡ text.old ++ field_line name.now value.now) }
{
    text.push(name)?;
    text.push(": ")?;
    text.push(value)?;
    text.push("\r\n")
}
