//! Theorems about the definitions of this crate. The contracts state them; the functions do nothing
//! at run time.

ghost use Rattle.std.specs.Prelude.{ℕ, ◌*◌, ◌<◌};
ghost use Rattle.stix_times.specs.Reading.{IsTextOfInstant};
ghost use Rattle.stix_times.specs.Writing.{IsCanonicalTextOf};
ghost use Rattle.match_generator.specs.GeneratedLog.{time_text, instant_after};

use stix_times::laws::written_reads_back;

/// For the first 31 days of the log, the text of a time is the canonical text of its instant, and
/// parses to it.
pub fn times_are_canonical()
    ensures canonical { (seconds : ℕ) → seconds < 31 * 86_400
        → IsCanonicalTextOf (time_text seconds) (instant_after seconds) }
    ensures reads { (seconds : ℕ) → seconds < 31 * 86_400
        → IsTextOfInstant (time_text seconds) (instant_after seconds) }
{
    written_reads_back();
}
