//! A precedence-based printer: an operand is written in parentheses exactly if its precedence is
//! below the one that its position requires. So the text has no unneeded parentheses, and it parses
//! back to the same tree.

ghost use Rattle.std.specs.Prelude.{◌≡◌, ◌+◌, ◌<◌, OnOk, IfOk, codes};
ghost use Rattle.pattern_types.specs.PlainPattern.{plain_pattern};
ghost use Rattle.pattern_writer.specs.Parts.{AreSides, IsBetween, IsParenthesizedBelow};
ghost use Rattle.pattern_writer.specs.Parts.{AppendsText};
ghost use Rattle.pattern_writer.specs.Leaf.{IsFormulaText};
ghost use Rattle.pattern_writer.specs.Canonical.{precedence_level, IsCanonical};
ghost use Rattle.pattern_types.specs.PlainLeaf.{plain_leaf};

use crate::leaves::write_leaf;
use crate::limits::{write_seconds, write_span, write_times};
use flow_values::{NoMemory, Text};
use pattern_types::{Leaf, Pattern};
use std::alloc::Global;

/// The precedence of the text of a pattern. Higher binds tighter. Allocates nothing.
fn precedence(pattern: &Pattern) -> u8
    ensures { result ≡ precedence_level (plain_pattern pattern.now) }
{
    match pattern {
        Pattern::Leaf(_)
        | Pattern::Within(_, _)
        | Pattern::Between(_, _, _)
        | Pattern::Repeats(_, _) => 3,
        Pattern::Both(_, _) => 2,
        Pattern::Either(_, _) => 1,
        Pattern::Then(_, _) => 0,
    }
}

/// Writes a leaf in its brackets.
fn write_brackets(alloc: Global, leaf: &Leaf, out: &mut Text) -> Result<(), NoMemory>
    ensures { OnOk result (AppendsText
        (IsBetween (codes "[") (codes "]") (IsFormulaText (plain_leaf leaf.now))) out.old out.new) }
{
    out.push("[")?;
    write_leaf(alloc, leaf, out)?;
    out.push("]")
}

/// Writes a pattern, in parentheses if its precedence is below `least`.
#[cycle(patterns)]
fn write_part(alloc: Global, least: u8, pattern: &Pattern, out: &mut Text) -> Result<(), NoMemory>
    ensures { OnOk result (AppendsText
        (IsParenthesizedBelow least (precedence_level (plain_pattern pattern.now))
        (IsCanonical (plain_pattern pattern.now))) out.old out.new) }
{
    if least <= precedence(pattern) {
        return write(alloc, pattern, out);
    }
    out.push("(")?;
    write(alloc, pattern, out)?;
    out.push(")")
}

/// Writes two patterns with a left-associative operator of this precedence between them.
#[cycle(patterns)]
fn write_sides(
    alloc: Global,
    binds: u8,
    left: &Pattern,
    operator: &str,
    right: &Pattern,
    out: &mut Text,
) -> Result<(), NoMemory>
    requires { binds < 3 }
    ensures { OnOk result (AppendsText
        (AreSides (IsParenthesizedBelow binds (precedence_level (plain_pattern left.now))
        (IsCanonical (plain_pattern left.now))) operator.now
        (IsParenthesizedBelow (binds + 1) (precedence_level (plain_pattern right.now))
        (IsCanonical (plain_pattern right.now)))) out.old out.new) }
{
    write_part(alloc, binds, left, out)?;
    out.push(operator)?;
    write_part(alloc, binds + 1, right, out)
}

/// Writes a pattern.
#[cycle(patterns)]
fn write(alloc: Global, pattern: &Pattern, out: &mut Text) -> Result<(), NoMemory>
    ensures { OnOk result (AppendsText (IsCanonical (plain_pattern pattern.now)) out.old out.new) }
{
    match pattern {
        Pattern::Leaf(leaf) => write_brackets(alloc, leaf, out),
        Pattern::Both(left, right) => write_sides(alloc, 2, left, " AND ", right, out),
        Pattern::Either(left, right) => write_sides(alloc, 1, left, " OR ", right, out),
        Pattern::Then(left, right) => write_sides(alloc, 0, left, " FOLLOWEDBY ", right, out),
        Pattern::Within(part, seconds) => {
            write_part(alloc, 3, part, out)?;
            out.push(" ")?;
            write_seconds(*seconds, out)
        }
        Pattern::Between(part, begins, ends) => {
            write_part(alloc, 3, part, out)?;
            out.push(" ")?;
            write_span(*begins, *ends, out)
        }
        Pattern::Repeats(part, times) => {
            write_part(alloc, 3, part, out)?;
            out.push(" ")?;
            write_times(*times, out)
        }
    }
}

/// The canonical text of a pattern. Linear in its length. `NoMemory` is the only error.
pub fn write_pattern(alloc: Global, pattern: &Pattern) -> Result<Text, NoMemory>
    ensures { IfOk result (λ text. IsCanonical (plain_pattern pattern.now) text) }
{
    let mut text = Text::new(alloc);
    write(alloc, pattern, &mut text)?;
    Ok(text)
}
