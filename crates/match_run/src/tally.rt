ghost use Rattle.std.specs.Prelude.{◌≡◌, ◌+◌, ◌<◌, ◌^◌};
ghost use Rattle.match_run.specs.inner.Rows.{no_tally, with_bindings};

use crate::MatchEnd;

/// Counts of a run: how many observations and bindings there were, and the greatest number of the
/// last binding, or 0.
#[derive(Clone, Copy)]
pub(crate) struct Tally {
    pub(crate) observations: u64,
    pub(crate) bindings: u128,
    pub(crate) last: u64,
}

impl Tally {
    /// All zero.
    pub(crate) fn new() -> Tally
        ensures { result ≡ no_tally }
    {
        Tally {
            observations: 0,
            bindings: 0,
            last: 0,
        }
    }

    /// Counts the observation of this number, at which `bindings` bindings end.
    pub(crate) fn count(&mut self, number: u64, bindings: usize)
        requires observations { self.old.observations + 1 < 2 ^ 64 }
        requires bindings { self.old.bindings + bindings < 2 ^ 128 }
        ensures { self.new ≡ with_bindings self.old number bindings }
    {
        self.observations += 1;
        if bindings > 0 {
            self.bindings += bindings as u128;
            self.last = number;
        }
    }

    /// The end of a run that read its whole input.
    pub(crate) fn done(self) -> MatchEnd
        ensures { result ≡ MatchEnd.Done self.observations self.bindings self.last }
    {
        MatchEnd::Done {
            observations: self.observations,
            bindings: self.bindings,
            last: self.last,
        }
    }
}
