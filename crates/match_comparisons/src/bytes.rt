//! Values as bytes: by the suffix of their property's name, `_hex` or `_bin`.

ghost use Rattle.std.specs.Prelude.{◌≡◌, ◌↔◌, List, ℕ, Some, Ok, IfOk, option_map};
ghost use Rattle.hex.specs.Hex.{decode_of};
ghost use Rattle.base64.specs.Engines.{standard};
ghost use Rattle.base64.specs.GeneralPurpose.{encode_of, IsBytes};
ghost use Rattle.stix_json.specs.DataOf.{data_of};
ghost use Rattle.match_comparisons.specs.Tests.{IsBytesOf};
ghost use Rattle.match_comparisons.specs.inner.Bytes.{EncodesBytes};

use crate::ends_in;
use base64::DecodeAllocError;
use base64::engine::general_purpose::STANDARD;
use flow_values::{Items, NoMemory};
use hex::FromHexError;
use std::alloc::Global;
use stix_json::{Json, text_of};

/// The bytes that a value encodes, by the name of its property. None where it isn't an encoding of
/// bytes.
pub(crate) fn bytes_in(
    alloc: Global,
    last: Option<&str>,
    value: &Json,
) -> Result<Option<Items<u8>>, NoMemory>
    ensures { IfOk result (EncodesBytes (option_map (λ name. name.now) last.entry)
        (data_of value.now)) }
{
    match text_of(value) {
        Some(text) => bytes_of(alloc, last, text),
        None => Ok(None),
    }
}

/// The bytes that a text encodes.
fn bytes_of(alloc: Global, last: Option<&str>, text: &str) -> Result<Option<Items<u8>>, NoMemory>
    ensures { IfOk result (λ found. (bytes : List ℕ)
        → IsBytesOf (option_map (λ name. name.now) last.entry) text.now bytes
        ↔ (found ≡ Some bytes)) }
{
    let Some(name) = last else {
        return Ok(None);
    };
    if ends_in(name, "_hex") {
        hex_of(alloc, text)
    } else if ends_in(name, "_bin") {
        binary_of(alloc, text)
    } else {
        Ok(None)
    }
}

/// The bytes of a hexadecimal text.
fn hex_of(alloc: Global, text: &str) -> Result<Option<Items<u8>>, NoMemory>
    ensures { IfOk result (λ found. (bytes : List ℕ) → (decode_of text.now ≡ Ok bytes)
        ↔ (found ≡ Some bytes)) }
{
    match hex::decode(alloc, text) {
        Ok(bytes) => Ok(Some(Items::from_vec(bytes))),
        Err(FromHexError::OutOfMemory) => Err(NoMemory),
        Err(_) => Ok(None),
    }
}

/// The bytes of a padded base64 text.
fn binary_of(alloc: Global, text: &str) -> Result<Option<Items<u8>>, NoMemory>
    ensures { IfOk result (λ found. (bytes : List ℕ)
        → (IsBytes bytes × (text.now ≡ encode_of standard bytes)) ↔ (found ≡ Some bytes)) }
{
    match STANDARD.decode(alloc, text.as_bytes()) {
        Ok(bytes) => Ok(Some(Items::from_vec(bytes))),
        Err(DecodeAllocError::OutOfMemory) => Err(NoMemory),
        Err(DecodeAllocError::DecodeError(_)) => Ok(None),
    }
}
