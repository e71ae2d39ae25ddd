//! Theorems about the definitions. Each `ensures` states one; the functions have no effect.

ghost use Rattle.std.specs.Prelude.{◌≡◌, ℕ, List};
ghost use Rattle.command_check.specs.declared.verdict.Verdict.{Verdict};
ghost use Rattle.command_check.specs.Verdicts.{IsValidated};

use stix_bundles::laws::one_reading;

/// The verdict on a byte string is unique. So the output and the exit status are functions of the
/// input.
pub fn one_verdict()
    ensures { (bytes : List ℕ) (first second : Verdict) → IsValidated bytes first
        → IsValidated bytes second → first ≡ second }
{
    stix_versions::laws::one_list();
    one_reading();
}
