ghost use Rattle.std.specs.Prelude.{◌≡◌, ◌+◌, ◌<◌, ◌^◌, OnOk, Err, length};
ghost use Rattle.match_pruning.specs.declared.stop.Stop.TheVariants as stop;
ghost use Rattle.match_pruning.specs.inner.PartialMatches.{partial_match_trees};
ghost use Rattle.match_pruning.specs.inner.Steps.{kept};

use match_pruning::Window;
use match_pruning::partial_match::PartialMatch;
use match_pruning::stop::Stop;
use match_pruning::store::is_retained;
use stix_times::Instant;

/// How many more partial matches the matcher may hold at this row before it exceeds its limit.
#[derive(Drop)]
pub(crate) struct Budget {
    pub left: u64,
}

impl Budget {
    /// Charges this many partial matches. `Stop::OverLimit` where the budget has fewer left.
    pub fn take(&mut self, partial_matches: usize) -> Result<(), Stop>
        ensures taken { OnOk result (self.new.left + partial_matches ≡ self.old.left) }
        ensures over_limit { result ≡ Err stop.OverLimit → self.old.left < partial_matches }
    {
        match self.left.checked_sub(partial_matches as u64) {
            Some(left) => {
                self.left = left;
                Ok(())
            }
            None => Err(Stop::OverLimit),
        }
    }

    /// Charges the new partial matches that a store with this window retains.
    #[inline(never)]
    pub fn take_admitted(
        &mut self,
        new: &[PartialMatch],
        window: &Window,
        now: Instant,
    ) -> Result<(), Stop>
        ensures taken { OnOk result (self.new.left
            + length (kept window.now now (partial_match_trees new.now)) ≡ self.old.left) }
        ensures over_limit { result ≡ Err stop.OverLimit
            → self.old.left < length (kept window.now now (partial_match_trees new.now)) }
    {
        for partial_match in new {
            if is_retained(window, partial_match.earliest, now) {
                self.take(1)?;
            }
        }
        Ok(())
    }

    /// Refunds this many partial matches.
    pub fn give_back(&mut self, partial_matches: usize)
        requires { self.old.left + partial_matches < 2 ^ 64 }
        ensures { self.new.left ≡ self.old.left + partial_matches }
    {
        self.left += partial_matches as u64;
    }
}
