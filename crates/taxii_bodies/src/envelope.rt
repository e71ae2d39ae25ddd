ghost use Rattle.std.specs.Prelude.{◌≡◌, ◌∷◌, ◌++◌, None, IfOk, OnOk, map};
ghost use Rattle.std.specs.List.{last_or, flat_map};
ghost use Rattle.taxii_rows.specs.StoreState.{dates_of};
ghost use Rattle.taxii_bodies.specs.Envelope.{next_of as next_date, next_text, head_text};
ghost use Rattle.taxii_bodies.specs.Envelope.{objects_text, envelope_text};

use flow_values::{NoMemory, Text};
use std::alloc::Global;
use taxii_rows::StoredRow;

/// The maximum number of bytes of an envelope outside the objects.
const ENVELOPE_OVERHEAD: usize = 64;

/// The envelope of a page of objects (section 3.7): whether more follow, the cursor `next`, and the
/// stored text of each object. An empty page has `more` false. O(n) in the size of the objects,
/// with one allocation.
pub fn envelope_body(alloc: Global, rows: &[&StoredRow], more: bool) -> Result<Text, NoMemory>
    ensures { IfOk result (λ text. text ≡ envelope_text (map (λ row. row.now) rows.now) more) }
{
    let room = rows.iter().fold(ENVELOPE_OVERHEAD, |room, row| {
        room.saturating_add(row.body.len()).saturating_add(1)
    });
    let mut text = Text::from_string(String::with_capacity(alloc, room)?);
    push_head(alloc, next_of(rows, more), &mut text)?;
    push_objects(rows, &mut text)?;
    text.push("}")?;
    Ok(text)
}

/// The cursor of the next page: the date of the last row, if more rows follow.
fn next_of(rows: &[&StoredRow], more: bool) -> Option<u64>
    ensures { result ≡ next_date (map (λ row. row.now) rows.now) more }
{
    if more { last_date(rows) } else { None }
}

/// The date of the last row, if any. Allocates nothing.
pub fn last_date(rows: &[&StoredRow]) -> Option<u64>
    ensures { result ≡ last_or None (dates_of (map (λ row. row.now) rows.now)) }
{
    let last = rows.last()?;
    Some(last.date)
}

/// Appends the opening brace, `more`, and `next` if more rows follow.
fn push_head(alloc: Global, next: Option<u64>, text: &mut Text) -> Result<(), NoMemory>
    ensures { OnOk result (text.new ≡ text.old ++ head_text next) }
{
    match next {
        Some(date) => push_next(alloc, date, text),
        None => text.push("{\"more\":false"),
    }
}

fn push_next(alloc: Global, date: u64, text: &mut Text) -> Result<(), NoMemory>
    ensures { OnOk result (text.new ≡ text.old ++ head_text (Some date)) }
{
    let digits = next_digits(alloc, date)?;
    text.push("{\"more\":true,\"next\":\"")?;
    text.push(digits.as_str())?;
    text.push("\"")?;
    Ok(())
}

/// The date as 16 hexadecimal digits, as `read_next` of `taxii_routes` parses it.
fn next_digits(alloc: Global, date: u64) -> Result<Text, NoMemory>
    ensures { IfOk result (λ digits. digits ≡ next_text date) }
{
    let digits = hex::encode(alloc, date.to_be_bytes())?;
    Ok(Text::from_string(digits))
}

/// Appends the list of objects, if it is not empty.
fn push_objects(rows: &[&StoredRow], text: &mut Text) -> Result<(), NoMemory>
    ensures { OnOk result
        (text.new ≡ text.old
        ++ objects_text (map (λ row. row.body) (map (λ row. row.now) rows.now))) }
{
    match rows.split_first() {
        Some((first, others)) => push_list(first, others, text),
        None => Ok(()),
    }
}

/// Appends the list of these objects.
fn push_list(first: &StoredRow, others: &[&StoredRow], text: &mut Text) -> Result<(), NoMemory>
    ensures { OnOk result
        (text.new ≡ text.old
        ++ objects_text (first.now.body ∷ map (λ row. row.body)
        (map (λ row. row.now) others.now))) }
{
    text.push(",\"objects\":[")?;
    text.push(first.body.as_str())?;
    push_others(others, text)?;
    text.push("]")?;
    Ok(())
}

/// Appends the bodies of the rows after the first one.
fn push_others(rows: &[&StoredRow], text: &mut Text) -> Result<(), NoMemory>
    ensures { OnOk result (text.new ≡ text.old ++ flat_map (λ row. 44 ∷ row.now.body) rows.now) }
{
    for row in rows {
        text.push(",")?;
        text.push(row.body.as_str())?;
    }
    Ok(())
}
