ghost use Rattle.std.specs.Prelude.{◌≡◌, OnOk};
ghost use Rattle.pattern_types.specs.PlainLeaf.{plain_leaf, leaves_of_list};
ghost use Rattle.pattern_writer.specs.Parts.{IsParenthesizedBelow, AppendsText};
ghost use Rattle.pattern_writer.specs.Leaf.{binds, IsFormulaText, AreJoinedOperands};

use crate::checks::write_test;
use crate::parts::write_between;
use flow_values::{NoMemory, Text};
use pattern_types::Leaf;
use std::alloc::Global;

/// The precedence of the text of a leaf. Higher binds tighter. Allocates nothing.
fn precedence(leaf: &Leaf) -> u8
    ensures { result ≡ binds (plain_leaf leaf.now) }
{
    match leaf {
        Leaf::Test(_) => 2,
        Leaf::All(_) => 1,
        Leaf::Any(_) => 0,
    }
}

/// Writes a leaf, in parentheses if its precedence is below `least`.
#[cycle(leaves)]
fn write_part(alloc: Global, least: u8, leaf: &Leaf, out: &mut Text) -> Result<(), NoMemory>
    ensures { OnOk result (AppendsText
        (IsParenthesizedBelow least (binds (plain_leaf leaf.now)) (IsFormulaText
        (plain_leaf leaf.now))) out.old
        out.new) }
{
    if least <= precedence(leaf) {
        return write_leaf(alloc, leaf, out);
    }
    out.push("(")?;
    write_leaf(alloc, leaf, out)?;
    out.push(")")
}

/// Writes leaves with a separator between them.
#[cycle(leaves)]
fn write_parts(
    alloc: Global,
    least: u8,
    between: &str,
    parts: &[Leaf],
    out: &mut Text,
) -> Result<(), NoMemory>
    ensures { OnOk result (AppendsText (AreJoinedOperands least between.now
        (leaves_of_list parts.now)) out.old out.new) }
{
    for (index, part) in parts.iter().enumerate() {
        write_between(index, between, out)?;
        write_part(alloc, least, part, out)?;
    }
    Ok(())
}

/// Writes the comparison expression in the brackets of a pattern.
#[cycle(leaves)]
pub(crate) fn write_leaf(alloc: Global, leaf: &Leaf, out: &mut Text) -> Result<(), NoMemory>
    ensures { OnOk result (AppendsText (IsFormulaText (plain_leaf leaf.now)) out.old out.new) }
{
    match leaf {
        Leaf::Test(test) => write_test(alloc, test, out),
        Leaf::All(parts) => write_parts(alloc, 2, " AND ", parts.as_slice(), out),
        Leaf::Any(parts) => write_parts(alloc, 1, " OR ", parts.as_slice(), out),
    }
}
