ghost use Rattle.std.specs.Prelude.{◌↔◌, IsTrue, OnOk, []};
ghost use Rattle.pattern_writer.specs.Parts.{AppendsText, AreJoined};
ghost use Rattle.pattern_writer.specs.Path.{IsBare, IsNameText, IsStepText, IsFirstText};
ghost use Rattle.pattern_writer.specs.Path.{IsPathText};

use crate::words::write_words;
use flow_values::{NoMemory, Text};
use pattern_lexer::is_word;
use pattern_types::{Path, Step};

/// Whether the name needs no quotes. Allocates nothing.
fn is_bare(name: &str) -> bool
    ensures { IsTrue result ↔ IsBare name.now }
{
    is_word(name) && name != "MATCHES"
}

/// Writes a name, in quotes if it needs them.
fn write_name(name: &str, out: &mut Text) -> Result<(), NoMemory>
    ensures { OnOk result (AppendsText (IsNameText name.now) out.old out.new) }
{
    if is_bare(name) {
        return out.push(name);
    }
    write_words(name, out)
}

/// Writes a list index in brackets.
fn write_place(place: u32, out: &mut Text) -> Result<(), NoMemory>
    ensures { OnOk result (AppendsText (IsStepText (Step.Place place)) out.old out.new) }
{
    out.push("[")?;
    out.push(itoa::Buffer::new().format(place))?;
    out.push("]")
}

/// Writes a step after another one.
fn write_step(step: &Step, out: &mut Text) -> Result<(), NoMemory>
    ensures { OnOk result (AppendsText (IsStepText step.now) out.old out.new) }
{
    match step {
        Step::Name(name) => {
            out.push(".")?;
            write_name(name.as_str(), out)
        }
        Step::Place(place) => write_place(*place, out),
        Step::Each => out.push("[*]"),
    }
}

/// Writes the first step, after the colon.
fn write_first(step: &Step, out: &mut Text) -> Result<(), NoMemory>
    ensures { OnOk result (AppendsText (IsFirstText step.now) out.old out.new) }
{
    match step {
        Step::Name(name) => write_name(name.as_str(), out),
        Step::Place(_) | Step::Each => write_step(step, out),
    }
}

/// Writes steps one after another.
fn write_steps(steps: &[Step], out: &mut Text) -> Result<(), NoMemory>
    ensures { OnOk result (AppendsText (AreJoined [] IsStepText steps.now) out.old out.new) }
{
    for step in steps {
        write_step(step, out)?;
    }
    Ok(())
}

/// Writes an object path.
pub(crate) fn write_path(path: &Path, out: &mut Text) -> Result<(), NoMemory>
    ensures { OnOk result (AppendsText (IsPathText path.now) out.old out.new) }
{
    out.push(path.kind.as_str())?;
    out.push(":")?;
    match path.steps.as_slice() {
        [first, others @ ..] => {
            write_first(first, out)?;
            write_steps(others, out)
        }
        [] => Ok(()),
    }
}
