ghost use Rattle.std.specs.Prelude.{◌≡◌, ◌≤◌, ◌⊎◌, [], length, IfOk};
ghost use Rattle.flow_values.specs.Answers.{FindsExactly};
ghost use Rattle.pattern_lexer.specs.Spans.{At, IsItself};
ghost use Rattle.pattern_types.specs.declared.path.TheConstants.{MAX_STEPS};
ghost use Rattle.pattern_reader.specs.declared.value_refusal.ValueRefusal.TheVariants.{NoValue};
ghost use Rattle.pattern_reader.specs.Meaning.{IsNameOf, IsStepOf, IsPathOf};
ghost use Rattle.std.specs.List.{AllZip};
ghost use Rattle.pattern_reader.specs.Refusals.{Lacks, IsLongPath, step_refusal, RefusalOfSteps};
ghost use Rattle.pattern_reader.specs.Refusals.{RefusalOfPath};
ghost use Rattle.pattern_reader.specs.inner.Analysis.{IsOutcome};

use crate::ValueRefusal;
use crate::outcomes::{both, with_next};
use flow_values::{Items, NoMemory, Text};
use pattern_grammar::{PathTree, StepTree};
use pattern_lexer::{Token, TokenKind, index_at, string_at, text_of};
use pattern_types::{MAX_STEPS, Path, Step};
use std::alloc::Global;

/// The name of a token.
fn name_of(alloc: Global, text: &str, token: Token) -> Result<Option<Text>, NoMemory>
    ensures { IfOk result (FindsExactly (IsNameOf text.now token)) }
{
    if token.kind == TokenKind::String {
        return string_at(alloc, text, token);
    }
    match text_of(text, token) {
        Some(part) => {
            let name = Text::from_text(alloc, part)?;
            Ok(Some(name))
        }
        None => Ok(None),
    }
}

/// The step in brackets of a token.
fn place_of(text: &str, token: Token) -> Option<Step>
    ensures { FindsExactly (IsStepOf text.now (StepTree.Index token)) result }
{
    match token.kind {
        TokenKind::Number => match index_at(text, token) {
            Some(place) => Some(Step::Place(place)),
            None => None,
        },
        TokenKind::Star => Some(Step::Each),
        _ => None,
    }
}

/// The meaning of a step.
fn step_of(alloc: Global, text: &str, step: StepTree) -> Result<Option<Step>, NoMemory>
    ensures { IfOk result (FindsExactly (IsStepOf text.now step)) }
{
    match step {
        StepTree::Name(token) => match name_of(alloc, text, token)? {
            Some(name) => Ok(Some(Step::Name(name))),
            None => Ok(None),
        },
        StepTree::Index(token) => Ok(place_of(text, token)),
    }
}

/// The refusal of a step without a meaning.
fn refusal_of(step: StepTree) -> ValueRefusal
    ensures { result ≡ step_refusal step }
{
    match step {
        StepTree::Name(token) => ValueRefusal::NoValue { at: token.from },
        StepTree::Index(token) => ValueRefusal::BadCount { at: token.from },
    }
}

/// An empty list of steps, with a check of the path's length. `LongPath` if it has too many steps.
fn no_steps(alloc: Global, path: &PathTree) -> Result<Items<Step>, ValueRefusal>
    ensures { IsOutcome (λ steps. (steps ≡ []) × (length path.now.steps ≤ MAX_STEPS))
        (IsLongPath path.now) result }
{
    if path.steps.len() > MAX_STEPS {
        return Err(ValueRefusal::LongPath { at: path.root.from });
    }
    Ok(Items::new(alloc))
}

/// The meaning of the steps of a path.
fn steps_of(
    alloc: Global,
    text: &str,
    path: &PathTree,
) -> Result<Result<Items<Step>, ValueRefusal>, NoMemory>
    ensures { IfOk result (IsOutcome (λ steps. AllZip (IsStepOf text.now) path.now.steps steps
        × (length path.now.steps ≤ MAX_STEPS))
        (λ refusal. IsLongPath path.now refusal ⊎ RefusalOfSteps text.now path.now.steps refusal)) }
{
    let mut found = no_steps(alloc, path);
    for step in path.steps.as_slice() {
        let next = step_of(alloc, text, *step)?.ok_or(refusal_of(*step));
        found = with_next(found, next)?;
    }
    Ok(found)
}

/// The object type of a path.
fn kind_of(alloc: Global, text: &str, root: Token) -> Result<Result<Text, ValueRefusal>, NoMemory>
    ensures { IfOk result (IsOutcome (At IsItself text.now root)
        (Lacks (At IsItself text.now root) (NoValue root.from))) }
{
    match text_of(text, root) {
        Some(part) => {
            let kind = Text::from_text(alloc, part)?;
            Ok(Ok(kind))
        }
        None => Ok(Err(ValueRefusal::NoValue { at: root.from })),
    }
}

/// The meaning of a path.
pub(crate) fn path_of(
    alloc: Global,
    text: &str,
    path: &PathTree,
) -> Result<Result<Path, ValueRefusal>, NoMemory>
    ensures { IfOk result (IsOutcome (λ found. IsPathOf text.now path.now found
        × (length found.steps ≤ MAX_STEPS)) (RefusalOfPath text.now path.now)) }
{
    let kind = kind_of(alloc, text, path.root)?;
    let steps = steps_of(alloc, text, path)?;
    match both(kind, steps) {
        Ok((kind, steps)) => Ok(Ok(Path { kind, steps })),
        Err(refusal) => Ok(Err(refusal)),
    }
}
