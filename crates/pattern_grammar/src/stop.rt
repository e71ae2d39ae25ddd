ghost use Rattle.std.specs.Prelude.{◌≡◌};
ghost use Rattle.pattern_grammar.specs.declared.stop.Stop.TheVariants.{Memory};

use flow_values::NoMemory;
use pattern_lexer::Token;

/// Why the parser stopped.
#[derive(Clone, Copy, Debug)]
pub enum Stop<'a> {
    /// Out of memory.
    Memory,
    /// The first of these tokens doesn't fit, or, if there are none, the tokens end too early.
    Syntax(&'a [Token]),
}

impl<'a> From<NoMemory> for Stop<'a> {
    ghost from_gives = { λ _ e. e ≡ Memory };

    fn from(_error: NoMemory) -> Stop<'a> {
        Stop::Memory
    }
}
