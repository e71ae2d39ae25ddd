ghost use Rattle.std.specs.Prelude.{◌≡◌};
ghost use Rattle.pattern_reader.specs.ValueRefusal.{value_refusal_name, value_refusal_offset};

/// Why a syntax tree doesn't mean a pattern: a value that isn't allowed. `at` is a byte offset,
/// from 0.
#[derive(Clone, Copy, Debug, PartialEq, Eq, Hash)]
pub enum ValueRefusal {
    /// The number of `WITHIN` or `REPEATS`, or of a list index, is out of range.
    BadCount { at: usize },
    /// The path has more than `MAX_STEPS` steps.
    LongPath { at: usize },
    /// The operand of `ISSUBSET` or `ISSUPERSET` isn't an address block.
    BadAddress { at: usize },
    /// The start of a time span isn't before its end.
    EmptySpan { at: usize },
    /// Comparisons joined by `AND` have no object type in common.
    NoCommonRoot { at: usize },
    /// The text doesn't have the value of the token. It never occurs for tokens of this text.
    NoValue { at: usize },
}

impl ValueRefusal {
    /// The refusal's name, as `BadCount`.
    pub fn name(self) -> &'static str
        ensures { result.now ≡ value_refusal_name self }
    {
        match self {
            ValueRefusal::BadCount { .. } => "BadCount",
            ValueRefusal::LongPath { .. } => "LongPath",
            ValueRefusal::BadAddress { .. } => "BadAddress",
            ValueRefusal::EmptySpan { .. } => "EmptySpan",
            ValueRefusal::NoCommonRoot { .. } => "NoCommonRoot",
            ValueRefusal::NoValue { .. } => "NoValue",
        }
    }

    /// The byte offset of the refusal.
    pub fn at(self) -> usize
        ensures { result ≡ value_refusal_offset self }
    {
        match self {
            ValueRefusal::BadCount { at }
            | ValueRefusal::LongPath { at }
            | ValueRefusal::BadAddress { at }
            | ValueRefusal::EmptySpan { at }
            | ValueRefusal::NoCommonRoot { at }
            | ValueRefusal::NoValue { at } => at,
        }
    }
}
