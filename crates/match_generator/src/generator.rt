ghost use Rattle.std.specs.Prelude.{◌≡◌};
ghost use Rattle.match_generator.specs.GeneratedLog.{next_state, drawn_number};

/// A linear congruential generator: each state is computed from the one before, and each number
/// from its state.
#[derive(Clone, Copy)]
pub(crate) struct Generator {
    pub(crate) state: u32,
}

impl Generator {
    /// Draws the next number.
    pub(crate) fn draw(&mut self) -> u32
        ensures state { self.new.state ≡ next_state self.old.state }
        ensures number { result ≡ drawn_number self.new.state }
    {
        let state = (1_103_515_245 * u64::from(self.state) + 12_345) % (1 << 31);
        self.state = state as u32;
        self.state / 65_536
    }
}
