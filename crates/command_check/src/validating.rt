ghost use Rattle.std.specs.Prelude.{◌≡◌, ◌≢◌, IfOk};
ghost use Rattle.stix_json.specs.declared.refusal.JsonRefusal.TheVariants as json_refusal;
ghost use Rattle.stix_bundles.specs.Objects.{data_in};
ghost use Rattle.stix_json.specs.DataOf.{data_of};
ghost use Rattle.stix_json.specs.Ordered.{IsOrdered};
ghost use Rattle.command_check.specs.Verdicts.{IsValidated, IsBundleValidated, AreValidated};

use crate::verdict::Verdict;
use flow_values::{Items, NoMemory};
use match_input::InputRule;
use std::alloc::Global;
use stix_bundles::{Bundle, BundleRefusal, read_bundle};
use stix_json::{Json, JsonRefusal, read_owned};
use stix_versions::{marking_breaks, version_breaks};

/// Validates bytes as a bundle. They are moved in, since the texts of the objects borrow from them.
pub(crate) fn validate(alloc: Global, bytes: Items<u8>) -> Result<Verdict, NoMemory>
    ensures { IfOk result (IsValidated bytes) }
{
    match read_owned(alloc, bytes) {
        Ok(value) => validate_value(alloc, value),
        Err(refusal) => refuse(refusal),
    }
}

/// The verdict on bytes that are no acceptable JSON.
fn refuse(refusal: JsonRefusal) -> Result<Verdict, NoMemory>
    ensures { IfOk result (λ verdict. (refusal ≢ json_refusal.NoMemory)
        × (verdict ≡ Verdict.Refused (InputRule.Json refusal))) }
{
    match &refusal {
        JsonRefusal::NoMemory => Err(NoMemory),
        JsonRefusal::NotJson
        | JsonRefusal::TooDeep { .. }
        | JsonRefusal::NotWhole { .. }
        | JsonRefusal::Null { .. }
        | JsonRefusal::OutOfRange { .. }
        | JsonRefusal::NotList => Ok(Verdict::Refused(InputRule::Json(refusal))),
    }
}

/// Validates a JSON value as a bundle.
fn validate_value(alloc: Global, value: Json) -> Result<Verdict, NoMemory>
    requires { IsOrdered (data_of value) }
    ensures { IfOk result (IsBundleValidated (data_of value)) }
{
    match read_bundle(alloc, value) {
        Ok(bundle) => validate_bundle(alloc, &bundle),
        Err(BundleRefusal::Breaks(breaks)) => Ok(Verdict::Broken(breaks)),
        Err(BundleRefusal::NotBundle { path }) => {
            let refusal = BundleRefusal::NotBundle { path };
            Ok(Verdict::Refused(InputRule::Bundle(refusal)))
        }
        Err(BundleRefusal::NoMemory) => Err(NoMemory),
    }
}

/// Validates the versions and granular markings of objects that meet the rules of their types.
fn validate_bundle(alloc: Global, bundle: &Bundle) -> Result<Verdict, NoMemory>
    ensures { IfOk result (AreValidated (data_in bundle.now)) }
{
    let versions = version_breaks(alloc, bundle)?;
    let markings = marking_breaks(alloc, bundle)?;
    if versions.is_empty() && markings.is_empty() {
        return Ok(Verdict::Sound {
            objects: bundle.len(),
        });
    }
    Ok(Verdict::Unfit { versions, markings })
}
