ghost use Rattle.std.specs.Prelude.{◌≡◌, IfOk, IfErr};
ghost use Rattle.serde_json.specs.Data.{Data};
ghost use Rattle.stix_json.specs.Reading.{IsValueOf, IsJsonOf, IsJsonRefusedAs};
ghost use Rattle.stix_json.specs.inner.Checking.{IsCheckedAs, IsNoText};
ghost use Rattle.stix_json.specs.declared.limits.TheConstants.{MAX_LEVELS as LEVELS};

use crate::checked::Checked;
use crate::limits::MAX_TEXT_LEVELS;
use crate::read_error::ReadError;
use crate::tokens::take_value;
use crate::{Json, JsonRefusal, MAX_LEVELS};
use flow_values::{Items, NoMemory, Text};
use json::{Reader, Scratch};
use std::alloc::Global;
use std::rc::Rc;

/// Reads a JSON value and checks it. The value is ordered: the names of each object are sorted, and
/// unique.
///
/// `NotJson` if the bytes aren't JSON. Otherwise `TooDeep`, with the path of the first list or
/// object nested too deep. Otherwise `NotWhole`, `Null` or `OutOfRange`, with the path of the first
/// value that `Json` can't represent. Never `NotList`.
pub fn read_json(alloc: Global, bytes: &[u8]) -> Result<Json, JsonRefusal>
    ensures ok { IfOk result (λ json. IsJsonOf bytes.now json) }
    ensures err { IfErr result (λ refusal. IsJsonRefusedAs bytes.now refusal) }
{
    let mut scratch = Scratch::new(alloc);
    read_with(alloc, &mut scratch, bytes)
}

/// Reads a JSON value with working memory that may have served other texts.
pub(crate) fn read_with(
    alloc: Global,
    scratch: &mut Scratch,
    bytes: &[u8],
) -> Result<Json, JsonRefusal>
    ensures ok { IfOk result (λ json. IsJsonOf bytes.now json) }
    ensures err { IfErr result (λ refusal. IsJsonRefusedAs bytes.now refusal) }
{
    let whole = whole_text(alloc, bytes)?;
    read_whole(alloc, scratch, &whole)
}

/// Reads a JSON value from bytes that it takes over. Strings are slices of these bytes, where
/// `read_json` copies the text first.
pub fn read_owned(alloc: Global, bytes: Items<u8>) -> Result<Json, JsonRefusal>
    ensures ok { IfOk result (λ json. IsJsonOf bytes json) }
    ensures err { IfErr result (λ refusal. IsJsonRefusedAs bytes refusal) }
{
    let Ok(text) = String::from_utf8(bytes.into_vec()) else {
        return Err(JsonRefusal::NotJson);
    };
    match Rc::new(alloc, Text::from_string(text)) {
        Ok(whole) => {
            let mut scratch = Scratch::new(alloc);
            read_whole(alloc, &mut scratch, &whole)
        }
        Err(_) => Err(JsonRefusal::NoMemory),
    }
}

/// The bytes as a shared text, which the strings of its value refer to.
pub(crate) fn whole_text(alloc: Global, bytes: &[u8]) -> Result<Rc<Text>, ReadError>
    ensures ok { IfOk result (λ whole. whole.value ≡ bytes.now) }
    ensures err { IfErr result (λ read_error. IsNoText bytes.now read_error) }
{
    let Ok(text) = std::str::from_utf8(bytes) else {
        return Err(ReadError::NotJson);
    };
    let text = Text::from_text(alloc, text)?;
    match Rc::new(alloc, text) {
        Ok(whole) => Ok(whole),
        Err(_) => Err(ReadError::NoMemory),
    }
}

/// Reads the JSON value of a whole text.
fn read_whole(alloc: Global, scratch: &mut Scratch, whole: &Rc<Text>) -> Result<Json, JsonRefusal>
    ensures ok { IfOk result (λ json. IsJsonOf whole.now.value json) }
    ensures err { IfErr result (λ refusal. IsJsonRefusedAs whole.now.value refusal) }
{
    match check_whole(alloc, scratch, whole)? {
        Checked::Good(json) => Ok(json),
        Checked::Bad(first_error) => Err(first_error.into_refusal(alloc)),
    }
}

/// Checks the value of a whole text.
fn check_whole(alloc: Global, scratch: &mut Scratch, whole: &Rc<Text>) -> Result<Checked, ReadError>
    ensures ok { IfOk result (λ checked. («data» : Data) × IsValueOf whole.now.value «data»
        × IsCheckedAs LEVELS «data» checked) }
    ensures err { IfErr result (λ read_error. IsNoText whole.now.value read_error) }
{
    let mut reader = match Reader::new(whole.as_str(), scratch) {
        Ok(reader) => reader,
        Err(_) => return Err(ReadError::NoMemory),
    };
    let checked = take_value(alloc, whole, &mut reader, MAX_TEXT_LEVELS, MAX_LEVELS)?;
    if reader.next().is_some() {
        drop(checked);
        return Err(ReadError::NotJson);
    }
    Ok(checked)
}
