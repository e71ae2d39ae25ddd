ghost use Rattle.std.specs.Prelude.{◌≡◌, ℤ, Result, IfOk, IfErr};
ghost use Rattle.stix_times.specs.declared.refusal.TimeRefusal.{TimeRefusal};
ghost use Rattle.stix_times.specs.Reading.{IsTextOfInstant, IsRefusedTimestamp, ReadsTimestamp};
ghost use Rattle.stix_times.specs.Reading.{IsMillisTextOf};
ghost use Rattle.stix_times.specs.Reading.{IsRefusedMillis, ReadsMillis};

use crate::parts::Parts;
use crate::{Instant, TimeRefusal};

/// The instant of a timestamp with at most nine fraction digits.
pub fn read(text: &str) -> Result<Instant, TimeRefusal>
    ensures ok { IfOk result (IsTextOfInstant text.now) }
    ensures err { IfErr result (IsRefusedTimestamp text.now) }
    ensures only { (other : Result ℤ TimeRefusal) → ReadsTimestamp text.now other → other ≡ result }
{
    let parts = Parts::read(text.as_bytes())?;
    parts.instant()
}

/// The instant of a timestamp with three to six fraction digits, as `created` and `modified` have
/// (STIX 2.1, section 3.2).
pub fn read_millis(text: &str) -> Result<Instant, TimeRefusal>
    ensures ok { IfOk result (IsMillisTextOf text.now) }
    ensures err { IfErr result (IsRefusedMillis text.now) }
    ensures only { (other : Result ℤ TimeRefusal) → ReadsMillis text.now other → other ≡ result }
{
    let parts = Parts::read(text.as_bytes())?;
    let instant = parts.instant()?;
    if !parts.has_millis() {
        return Err(TimeRefusal::NotMillis);
    }
    Ok(instant)
}
