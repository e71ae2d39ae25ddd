//! A recursive-descent parser from tokens to checked values, in one pass and without an
//! intermediate tree. The tokenizer is the one below `serde_json`.
//!
//! A value with an error is still parsed to its end. This is needed because a syntax error takes
//! precedence over all others, and because of members with one name the last counts.

ghost use Rattle.std.specs.Prelude.{◌≡◌, ◌<◌, ◌∷◌, ◌+◌, suc, Some, IfOk, IfErr, OnOk, length};
ghost use Rattle.json.specs.Json.{value, items, members};
ghost use Rattle.json.specs.Reads.{token_of};
ghost use Rattle.serde_json.specs.Data.{Data, Items as DataItems, Members, array, object};
ghost use Rattle.serde_json.specs.Data.{no_members};
ghost use Rattle.serde_json.specs.Read.{of_json, of_items, of_members, converted};
ghost use Rattle.stix_json.specs.inner.Checking.{IsCheckedAs, IsReadError};

use crate::checked::Checked;
use crate::elements::Elements;
use crate::fields::check_members;
use crate::first_error::FirstError;
use crate::number::check_number;
use crate::raw_members::{no_members_yet, order_members, push_member};
use crate::read_error::ReadError;
use crate::value_error::Reason;
use crate::{Json, JsonText};
use flow_values::{Name, Text};
use json::{Reader, Token};
use std::alloc::Global;
use std::rc::Rc;

/// Parses and checks the next value. It is a syntax error past `left` levels of nesting, and an
/// error of the value past `levels`.
#[cycle(take)]
pub(crate) fn take_value(
    alloc: Global,
    whole: &Rc<Text>,
    reader: &mut Reader<'_>,
    left: usize,
    levels: usize,
) -> Result<Checked, ReadError>
    ensures ok { IfOk result (λ checked. («data» : Data)
        × (converted of_json (value left reader.old) ≡ Some («data», reader.new))
        × IsCheckedAs levels «data» checked) }
    ensures err { IfErr result
        (λ read_error. IsReadError (converted of_json (value left reader.old)) read_error) }
    ensures shorter { OnOk result (length reader.new < length reader.old) }
{
    let location = reader.offset();
    match reader.next() {
        Some(token) => check_token(alloc, whole, reader, location, token, left, levels),
        None => Err(ReadError::NotJson),
    }
}

/// Parses and checks the value that begins with this token, which was read at byte `location`.
#[cycle(take)]
pub(crate) fn check_token(
    alloc: Global,
    whole: &Rc<Text>,
    reader: &mut Reader<'_>,
    location: usize,
    token: Token<'_>,
    left: usize,
    levels: usize,
) -> Result<Checked, ReadError>
    ensures ok { IfOk result (λ checked. («data» : Data)
        × (converted of_json (value left (token_of token.entry ∷ reader.old))
        ≡ Some («data», reader.new))
        × IsCheckedAs levels «data» checked) }
    ensures err { IfErr result
        (λ read_error. IsReadError
        (converted of_json (value left (token_of token.entry ∷ reader.old))) read_error) }
    // The value consumes at least its first token, which bounds the recursion and the loops.
    ensures shorter { OnOk result (length reader.new < length reader.old + 1) }
{
    match token {
        Token::String(text) => {
            let text = JsonText::within(alloc, whole, location.saturating_add(1), text)?;
            Ok(Checked::Good(Json::String(text)))
        }
        Token::Number(text) => check_number(text),
        Token::Bool(truth) => Ok(Checked::Good(Json::Bool(truth))),
        Token::Null => Ok(Checked::Bad(FirstError::here(Reason::Null))),
        Token::BeginArray => {
            if left == 0 {
                return Err(ReadError::NotJson);
            }
            let checked = take_items(alloc, whole, reader, left - 1, levels.saturating_sub(1))?;
            Ok(checked.within(levels))
        }
        Token::BeginObject => {
            if left == 0 {
                return Err(ReadError::NotJson);
            }
            let checked = take_members(alloc, whole, reader, left - 1, levels.saturating_sub(1))?;
            Ok(checked.within(levels))
        }
        Token::EndObject | Token::EndArray | Token::Key(_) | Token::Bad => Err(ReadError::NotJson),
    }
}

/// Parses and checks the items of a list, up to its closing bracket.
#[cycle(take)]
fn take_items(
    alloc: Global,
    whole: &Rc<Text>,
    reader: &mut Reader<'_>,
    left: usize,
    levels: usize,
) -> Result<Checked, ReadError>
    ensures ok { IfOk result (λ checked. (ds : DataItems)
        × (converted of_items (items (value left) (length reader.old) reader.old)
        ≡ Some (ds, reader.new))
        × IsCheckedAs (suc levels) (array ds) checked) }
    ensures err { IfErr result
        (λ read_error. IsReadError
        (converted of_items (items (value left) (length reader.old) reader.old)) read_error) }
    ensures shorter { OnOk result (length reader.new < length reader.old) }
{
    let mut elements = Elements::new(alloc)?;
    'items: while !reader.take_end_array() {
        let checked = take_value(alloc, whole, reader, left, levels)?;
        elements.push(alloc, checked)?;
    }
    Ok(elements.into_checked(alloc)?)
}

/// Parses and checks the members of an object, up to its closing brace.
#[cycle(take)]
fn take_members(
    alloc: Global,
    whole: &Rc<Text>,
    reader: &mut Reader<'_>,
    left: usize,
    levels: usize,
) -> Result<Checked, ReadError>
    ensures ok { IfOk result (λ checked. (ms : Members)
        × (converted (λ found. of_members found no_members)
        (members (value left) (length reader.old) reader.old) ≡ Some (ms, reader.new))
        × IsCheckedAs (suc levels) (object ms) checked) }
    ensures err { IfErr result
        (λ read_error. IsReadError
        (converted (λ found. of_members found no_members)
        (members (value left) (length reader.old) reader.old)) read_error) }
    ensures shorter { OnOk result (length reader.new < length reader.old) }
{
    let mut raw_members = no_members_yet(alloc)?;
    'members: while let Some(name) = reader.next_key()? {
        let name = Name::from_text(alloc, name)?;
        let checked = take_value(alloc, whole, reader, left, levels)?;
        push_member(&mut raw_members, name, checked)?;
    }
    let ordered = order_members(alloc, raw_members)?;
    Ok(check_members(alloc, ordered)?)
}
