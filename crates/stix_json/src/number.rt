//! Checks a JSON number: only integers in range are valid.

ghost use Rattle.std.specs.Prelude.{◌≡◌, ◌==◌, ◌<◌, ℕ, true, false, None, Some, IfOk, IfErr};
ghost use Rattle.std.specs.Prelude.{IsTrue, length, slice_index, option_map};
ghost use Rattle.serde_json.specs.Data.{Num, number as number_data};
ghost use Rattle.serde_json.specs.Find.{of_integer};
ghost use Rattle.serde_json.specs.Read.{number_of as number_text_of, number_from, float_of};
ghost use Rattle.serde_json.specs.View.{number_view};
ghost use Rattle.stix_json.specs.inner.ValueErrors.{number_value_error};
ghost use Rattle.stix_json.specs.inner.Checking.{IsCheckedAs, IsReadError};

use crate::checked::Checked;
use crate::first_error::FirstError;
use crate::read_error::ReadError;
use crate::value_error::Reason;
use crate::{Json, MAX_SAFE_INTEGER};
use fast_float::Numeral;
use serde_json::Number;

/// Checks a number. `NotJson` if it is too large for a double.
pub(crate) fn check_number(text: &str) -> Result<Checked, ReadError>
    ensures ok { IfOk result (λ checked. (n : Num) × (number_text_of text.now ≡ Some n)
        × ((levels : ℕ) → IsCheckedAs levels (number_data n) checked)) }
    ensures err { IfErr result (λ read_error. IsReadError (number_text_of text.now) read_error) }
{
    let number = number_of(text).ok_or(ReadError::NotJson)?;
    match whole_of(number) {
        Ok(whole) => Ok(Checked::Good(Json::Integer(whole))),
        Err(reason) => Ok(Checked::Bad(FirstError::here(reason))),
    }
}

/// The integer of a number, or why it has none in range.
fn whole_of(number: Number) -> Result<i64, Reason>
    ensures ok { IfOk result
        (λ whole. (number_value_error (number_view number) ≡ None)
        × (of_integer whole ≡ number_view number)) }
    ensures err { IfErr result (λ reason. number_value_error (number_view number) ≡ Some reason) }
{
    if number.is_f64() {
        return Err(Reason::NotWhole);
    }
    let Some(whole) = number.as_i64() else {
        return Err(Reason::OutOfRange);
    };
    if whole.unsigned_abs() > MAX_SAFE_INTEGER {
        return Err(Reason::OutOfRange);
    }
    Ok(whole)
}

/// The number that `serde_json` reads in a text.
fn number_of(text: &str) -> Option<Number>
    ensures { option_map number_view result ≡ number_text_of text.now }
{
    let bytes = text.as_bytes();
    if has_minus(bytes) {
        below_zero(&Numeral::scan(&bytes[1..]))
    } else {
        not_below_zero(&Numeral::scan(bytes))
    }
}

fn has_minus(bytes: &[u8]) -> bool
    ensures value { result ≡ (slice_index bytes.now 0 == 45) }
    ensures some { IsTrue result → 0 < length bytes.now }
{
    !bytes.is_empty() && bytes[0] == b'-'
}

/// The number of a minus and this numeral. `-0` is a double, not an integer.
fn below_zero(numeral: &Numeral<'_>) -> Option<Number>
    ensures { option_map number_view result ≡ number_from true numeral.now }
{
    if let Some(whole) = numeral.to_i64(true) {
        if whole < 0 {
            return Number::from_i128(i128::from(whole));
        }
    }
    nearest(true, numeral)
}

fn not_below_zero(numeral: &Numeral<'_>) -> Option<Number>
    ensures { option_map number_view result ≡ number_from false numeral.now }
{
    match numeral.to_u64() {
        Some(whole) => Number::from_u128(u128::from(whole)),
        None => nearest(false, numeral),
    }
}

/// The nearest double. `None` if it would be infinite.
fn nearest(negative: bool, numeral: &Numeral<'_>) -> Option<Number>
    ensures { option_map number_view result ≡ float_of negative numeral.now }
{
    Number::from_f64(numeral.to_float::<f64>(negative))
}
