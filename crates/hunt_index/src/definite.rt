//! Definite brackets: those that hold wherever one of their index keys is found, so that a
//! candidate needs no evaluation.

ghost use Rattle.std.specs.Prelude.{◌↔◌, IsTrue, All};
ghost use Rattle.pattern_types.specs.PlainLeaf.{plain_leaf, leaves_of_list};
ghost use Rattle.hunt_index.specs.Definite.{IsDefiniteConstant, IsDefiniteCheck, IsPlain, ArePlain};
ghost use Rattle.hunt_index.specs.Definite.{IsDefiniteTest, IsDefinite, AreDefinite};

use pattern_types::{Check, Constant, Leaf, Step, Test};

/// Whether a bracket is an equality (or `IN`) on a path without `[*]`, or several joined by `OR`.
/// Then it holds wherever it is a candidate.
#[cycle(leaves)]
pub fn is_definite(leaf: &Leaf) -> bool
    ensures { IsTrue result ↔ IsDefinite (plain_leaf leaf.now) }
{
    match leaf {
        Leaf::Test(test) => is_definite_test(test),
        Leaf::All(_) => false,
        Leaf::Any(parts) => are_definite(parts.as_slice()),
    }
}

/// Whether each of some parts is definite.
#[cycle(leaves)]
fn are_definite(parts: &[Leaf]) -> bool
    ensures { IsTrue result ↔ AreDefinite (leaves_of_list parts.now) }
{
    for part in parts {
        if !is_definite(part) {
            return false;
        }
    }
    true
}

/// Whether one comparison is definite.
fn is_definite_test(test: &Test) -> bool
    ensures { IsTrue result ↔ IsDefiniteTest test.now }
{
    !test.negated && is_definite_check(&test.check) && are_plain(test.path.steps.as_slice())
}

/// Whether a check is met by exactly the values that it lists.
fn is_definite_check(check: &Check) -> bool
    ensures { IsTrue result ↔ IsDefiniteCheck check.now }
{
    match check {
        Check::Equal(constant) => is_definite_constant(constant),
        Check::Among(constants) => are_definite_constants(constants.as_slice()),
        Check::Differ(_)
        | Check::Less(_)
        | Check::LessEqual(_)
        | Check::Greater(_)
        | Check::GreaterEqual(_)
        | Check::Like(_)
        | Check::Subset(_)
        | Check::Superset(_)
        | Check::Exists => false,
    }
}

/// Whether each of some constants equals one value only.
fn are_definite_constants(constants: &[Constant]) -> bool
    ensures { IsTrue result ↔ All IsDefiniteConstant constants.now }
{
    constants.iter().all(is_definite_constant)
}

/// Whether a constant equals one value only. Others don't: a timestamp, for example, has several
/// spellings.
fn is_definite_constant(constant: &Constant) -> bool
    ensures { IsTrue result ↔ IsDefiniteConstant constant.now }
{
    matches!(constant, Constant::Integer(_) | Constant::String(_))
}

/// Whether no step is `[*]`.
fn are_plain(steps: &[Step]) -> bool
    ensures { IsTrue result ↔ ArePlain steps.now }
{
    steps.iter().all(is_plain)
}

/// Whether a step isn't `[*]`.
fn is_plain(step: &Step) -> bool
    ensures { IsTrue result ↔ IsPlain step.now }
{
    !matches!(step, Step::Each)
}
