ghost use Rattle.std.specs.Prelude.{ℕ, Option};
ghost use Rattle.flow_links.specs.Moments.{IsNext, Continues};

/// The time of day.
pub trait Clock {
    /// The times that the clock will return, the next one at index 0, if they are observable.
    ghost moments: { Self → ℕ → Option ℕ };

    /// The time now, in microseconds since 1970-01-01T00:00:00Z.
    fn now(&mut self) -> u64
        ensures next { IsNext (moments self.old) result }
        ensures continues { Continues (moments self.old) (moments self.new) };
}
