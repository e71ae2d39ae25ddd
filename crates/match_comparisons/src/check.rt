//! Whether a value meets the check of a comparison, operator by operator (STIX 2.1, section 9.6.1).

ghost use Rattle.std.specs.Prelude.{◌↔◌, ◌⊎◌, List, ℕ, Option, IfOk, IsTrue, option_map};
ghost use Rattle.std.specs.declared.cmp.Ordering.TheVariants.{Equal};
ghost use Rattle.stix_json.specs.DataOf.{data_of};
ghost use Rattle.pattern_types.specs.declared.check.Check.TheVariants.{Among, Like};
ghost use Rattle.pattern_types.specs.Soundness.{IsSoundCheck};
ghost use Rattle.match_comparisons.specs.Tests.{Compares, MeetsCheck, NegatedIf};
ghost use Rattle.match_comparisons.specs.inner.Bytes.{EncodesBytes};

use crate::block::{holds_block, lies_in};
use crate::bytes::bytes_in;
use crate::compare::compared;
use crate::like;
use flow_values::{Items, NoMemory};
use pattern_types::{Check, Constant};
use std::alloc::Global;
use std::cmp::Ordering;
use stix_json::{Json, text_of};

/// Whether a value meets a check, or, where `negated`, doesn't. `last` is the last property name
/// before the value.
pub(crate) fn meets_unless_negated(
    alloc: Global,
    last: Option<&str>,
    value: &Json,
    check: &Check,
    negated: bool,
) -> Result<bool, NoMemory>
    requires { IsSoundCheck check.now }
    ensures { IfOk result (λ met. IsTrue met
        ↔ NegatedIf negated (MeetsCheck (option_map (λ name. name.now) last.entry)
        (data_of value.now) check.now)) }
{
    let met = meets(alloc, last, value, check)?;
    if negated { Ok(!met) } else { Ok(met) }
}

/// Whether a value meets a check. `last` is the last property name before the value.
fn meets(alloc: Global, last: Option<&str>, value: &Json, check: &Check) -> Result<bool, NoMemory>
    requires { IsSoundCheck check.now }
    ensures { IfOk result (λ met. IsTrue met
        ↔ MeetsCheck (option_map (λ name. name.now) last.entry) (data_of value.now) check.now) }
{
    match check {
        Check::Equal(constant) => compares(alloc, last, value, constant, Ordering::Equal),
        Check::Differ(constant) => Ok(!compares(alloc, last, value, constant, Ordering::Equal)?),
        Check::Less(constant) => compares(alloc, last, value, constant, Ordering::Less),
        Check::LessEqual(constant) => compares_or_equals(
            alloc,
            last,
            value,
            constant,
            Ordering::Less,
        ),
        Check::Greater(constant) => compares(alloc, last, value, constant, Ordering::Greater),
        Check::GreaterEqual(constant) => compares_or_equals(
            alloc,
            last,
            value,
            constant,
            Ordering::Greater,
        ),
        Check::Among(constants) => equals_some(alloc, last, value, constants.as_slice()),
        Check::Like(pattern) => Ok(is_like(value, pattern.as_str())),
        Check::Subset(address) => Ok(lies_in(value, &address.block)),
        Check::Superset(address) => Ok(holds_block(value, &address.block)),
        Check::Exists => Ok(true),
    }
}

/// Whether a value has the expected order to the constant.
fn compares(
    alloc: Global,
    last: Option<&str>,
    value: &Json,
    constant: &Constant,
    expected: Ordering,
) -> Result<bool, NoMemory>
    ensures { IfOk result (λ so. IsTrue so
        ↔ Compares (option_map (λ name. name.now) last.entry) (data_of value.now) constant.now
        expected) }
{
    let own = bytes_in(alloc, last, value)?;
    Ok(compares_so(value, &own, constant, expected))
}

/// Whether it does, given the bytes that the value encodes.
fn compares_so(
    value: &Json,
    own: &Option<Items<u8>>,
    constant: &Constant,
    expected: Ordering,
) -> bool
    ensures { (last : Option (List ℕ)) → EncodesBytes last (data_of value.now) own.now
        → IsTrue result ↔ Compares last (data_of value.now) constant.now expected }
{
    compared(value, own, constant) == Some(expected)
}

/// Whether a value has the expected order to the constant, or equals it.
fn compares_or_equals(
    alloc: Global,
    last: Option<&str>,
    value: &Json,
    constant: &Constant,
    expected: Ordering,
) -> Result<bool, NoMemory>
    ensures { IfOk result (λ so. IsTrue so
        ↔ Compares (option_map (λ name. name.now) last.entry) (data_of value.now) constant.now
        expected
        ⊎ Compares (option_map (λ name. name.now) last.entry) (data_of value.now) constant.now
        Equal) }
{
    let own = bytes_in(alloc, last, value)?;
    let found = compared(value, &own, constant);
    Ok(found == Some(expected) || found == Some(Ordering::Equal))
}

/// Whether a value equals one of the constants. Its bytes are decoded once for all of them.
fn equals_some(
    alloc: Global,
    last: Option<&str>,
    value: &Json,
    constants: &[Constant],
) -> Result<bool, NoMemory>
    ensures { IfOk result (λ met. IsTrue met
        ↔ MeetsCheck (option_map (λ name. name.now) last.entry) (data_of value.now)
        (Among constants.now)) }
{
    let own = bytes_in(alloc, last, value)?;
    Ok(is_among(value, &own, constants))
}

/// Whether it does, given the bytes that the value encodes.
fn is_among(value: &Json, own: &Option<Items<u8>>, constants: &[Constant]) -> bool
    ensures { (last : Option (List ℕ)) → EncodesBytes last (data_of value.now) own.now
        → IsTrue result ↔ MeetsCheck last (data_of value.now) (Among constants.now) }
{
    for constant in constants {
        if compares_so(value, own, constant, Ordering::Equal) {
            return true;
        }
    }
    false
}

/// Whether a value is a text that matches the LIKE pattern.
fn is_like(value: &Json, pattern: &str) -> bool
    ensures { (last : Option (List ℕ)) → IsTrue result
        ↔ MeetsCheck last (data_of value.now) (Like pattern.now) }
{
    match text_of(value) {
        Some(text) => like(text, pattern),
        None => false,
    }
}
