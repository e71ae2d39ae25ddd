ghost use Rattle.std.specs.Prelude.{◌≡◌, ◌++◌, ◌∷◌, [], ◌⊎◌, IfSome, IfNone, IfOk, IfErr, IsOkAnd};
ghost use Rattle.std.specs.Prelude.{IsErrAnd, MatchBool};
ghost use Rattle.pattern_grammar.specs.inner.Machine.{BeginsLine, LacksTokenClass};
ghost use Rattle.pattern_grammar.specs.declared.stop.Stop.TheVariants.{Memory};

use crate::{Stop, TokenClass};
use flow_values::Items;
use pattern_lexer::Token;

/// Splits off the first token, if it is of the class.
pub(crate) fn eat<'a>(tokens: &'a [Token], class: TokenClass) -> Option<(Token, &'a [Token])>
    ensures some { IfSome result (λ x. BeginsLine class x.0 tokens.now x.1.now) }
    ensures none { IfNone result (LacksTokenClass class tokens.now) }
{
    match tokens {
        [first, rest @ ..] if class.holds(first.kind) => Some((*first, rest)),
        _ => None,
    }
}

/// Adds a parsed value to the list, and returns the tokens after it.
pub(crate) fn add<'a, T: Drop>(
    list: &mut Items<T>,
    parsed: Result<(T, &'a [Token]), Stop<'a>>,
) -> Result<&'a [Token], Stop<'a>>
    ensures ok { IfOk result
        (λ rest. IsOkAnd parsed.entry (λ x. (list.new ≡ list.old ++ x.0 ∷ []) × (rest ≡ x.1))) }
    ensures err { IfErr result (λ e. (e ≡ Memory) ⊎ IsErrAnd parsed.entry (λ y. y ≡ e)) }
{
    let (item, rest) = parsed?;
    list.push(item)?;
    Ok(rest)
}
