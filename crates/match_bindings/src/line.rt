ghost use Rattle.std.specs.Prelude.{◌≡◌, ◌+◌, ◌++◌, IfOk, OnOk, map, string_bytes, codes, decimal};
ghost use Rattle.std.specs.List.{repeat};
ghost use Rattle.match_bindings.specs.BindTree.{tree_of, many_of};
ghost use Rattle.match_bindings.specs.Line.{entries_text, line_text};

use crate::Bind;
use crate::numbers::greatest_number;
use flow_values::{NoMemory, Text};
use std::alloc::Global;

/// The line of a binding: its greatest number, `:`, and its numbers from left to right, with `L`
/// before those of a `First` and `R` before those of a `Second`.
pub fn line_of(alloc: Global, bind: &Bind) -> Result<Text, NoMemory>
    ensures { IfOk result (λ line. line ≡ line_text (tree_of bind.now)) }
{
    let mut line = String::new(alloc);
    push_line(bind, &mut line)?;
    Ok(Text::from_string(line))
}

/// Appends the line of a binding.
fn push_line(bind: &Bind, line: &mut String) -> Result<(), NoMemory>
    ensures { OnOk result (string_bytes line.new ≡ string_bytes line.old
        ++ line_text (tree_of bind.now)) }
{
    push_number(greatest_number(bind), line)?;
    line.push_str(":")?;
    push_entries(bind, line)?;
    line.push_str("\n")?;
    Ok(())
}

/// Appends the entries of a binding, a space before each.
#[cycle(entries)]
fn push_entries(bind: &Bind, line: &mut String) -> Result<(), NoMemory>
    ensures { OnOk result (string_bytes line.new ≡ string_bytes line.old
        ++ entries_text (tree_of bind.now)) }
{
    match bind {
        Bind::One(number) => {
            line.push_str(" ")?;
            push_number(*number, line)?;
        }
        Bind::Both(sides) => {
            push_entries(&sides.0, line)?;
            push_entries(&sides.1, line)?;
        }
        Bind::First(more, part) => {
            push_letters(*more, line)?;
            push_entries(part, line)?;
        }
        Bind::Second(part) => {
            line.push_str(" R")?;
            push_entries(part, line)?;
        }
        Bind::Many(parts) => push_all_entries(parts.as_slice(), line)?,
    }
    Ok(())
}

/// Appends the letters of a `First`, a space before each.
fn push_letters(more: u32, line: &mut String) -> Result<(), NoMemory>
    ensures { OnOk result (string_bytes line.new ≡ string_bytes line.old
        ++ repeat (more + 1) (codes " L")) }
{
    line.push_str(" L")?;
    for _ in 0..more {
        line.push_str(" L")?;
    }
    Ok(())
}

/// Appends the entries of bindings.
#[cycle(entries)]
fn push_all_entries(binds: &[Bind], line: &mut String) -> Result<(), NoMemory>
    ensures { OnOk result (string_bytes line.new ≡ string_bytes line.old
        ++ entries_text (many_of (map tree_of binds.now))) }
{
    for bind in binds {
        push_entries(bind, line)?;
    }
    Ok(())
}

/// Appends a number in decimal.
fn push_number(number: u64, line: &mut String) -> Result<(), NoMemory>
    ensures { OnOk result (string_bytes line.new ≡ string_bytes line.old ++ decimal number) }
{
    line.push_str(itoa::Buffer::new().format(number))?;
    Ok(())
}
