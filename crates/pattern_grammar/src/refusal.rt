ghost use Rattle.std.specs.Prelude.{◌≡◌};
ghost use Rattle.pattern_grammar.specs.SyntaxRefusal.{syntax_refusal_name, syntax_refusal_offset};

/// Why the tokens of a text aren't a pattern. `at` is a byte offset, from 0.
#[derive(Clone, Copy, Debug, PartialEq, Eq, Hash)]
pub enum SyntaxRefusal {
    /// The tokens before this one are a viable prefix, and with this one they aren't.
    Syntax { at: usize },
    /// This token opens the 65th nested parenthesis, or begins the 65th qualifier.
    TooDeep { at: usize },
}

impl SyntaxRefusal {
    /// The refusal's name.
    pub fn name(self) -> &'static str
        ensures { result.now ≡ syntax_refusal_name self }
    {
        match self {
            SyntaxRefusal::Syntax { .. } => "Syntax",
            SyntaxRefusal::TooDeep { .. } => "TooDeep",
        }
    }

    /// The byte offset of the refusal.
    pub fn at(self) -> usize
        ensures { result ≡ syntax_refusal_offset self }
    {
        match self {
            SyntaxRefusal::Syntax { at } | SyntaxRefusal::TooDeep { at } => at,
        }
    }
}
