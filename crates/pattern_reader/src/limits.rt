ghost use Rattle.std.specs.Prelude.{◌≡◌};
ghost use Rattle.flow_values.specs.Answers.{FindsExactly};
ghost use Rattle.pattern_reader.specs.Refusals.{IsSoundLimitOf, limit_refusal};
ghost use Rattle.pattern_types.specs.declared.limit.Limit.{Limit};

use crate::ValueRefusal;
use pattern_grammar::Qualifier;
use pattern_lexer::{Token, count_at, one_meaning, timestamp_at};
use pattern_types::Limit;
use stix_times::laws::is_before;

/// The time span between two times. `None` if the first isn't earlier.
fn span_of(text: &str, start: Token, from: Token, to: Token) -> Option<Limit>
    ensures { FindsExactly (IsSoundLimitOf text.now (Qualifier.Between start from to)) result }
{
    one_meaning();
    let Some(begins) = timestamp_at(text, from) else {
        return None;
    };
    let Some(ends) = timestamp_at(text, to) else {
        return None;
    };
    if is_before(begins, ends) {
        return Some(Limit::Between(begins, ends));
    }
    None
}

/// The limit of a qualifier. `None` if a number is out of range, or the time span is empty.
pub(crate) fn limit_of(text: &str, qualifier: Qualifier) -> Option<Limit>
    ensures { FindsExactly (IsSoundLimitOf text.now qualifier) result }
{
    match qualifier {
        Qualifier::Within(number) => count_at(text, number).map(|seconds| Limit::Within(seconds)),
        Qualifier::Repeats(number) => count_at(text, number).map(|times| Limit::Repeats(times)),
        Qualifier::Between { start, from, to } => span_of(text, start, from, to),
    }
}

/// The refusal of a qualifier without a limit.
pub(crate) fn limit_refusal(qualifier: Qualifier) -> ValueRefusal
    ensures { result ≡ limit_refusal qualifier }
{
    match qualifier {
        Qualifier::Within(number) | Qualifier::Repeats(number) => {
            ValueRefusal::BadCount { at: number.from }
        }
        Qualifier::Between { start, .. } => ValueRefusal::EmptySpan { at: start.from },
    }
}
