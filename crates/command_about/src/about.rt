ghost use Rattle.std.specs.Prelude.{◌≡◌, ◌↔◌, codes, None, Some, IfNone, IfSome};
ghost use Rattle.flow_edges.specs.Faults.{Counted};
ghost use Rattle.command_line.specs.CommandLines.{argument_texts};
ghost use Rattle.command_reasons.specs.Reasons.{WritesReason};
ghost use Rattle.command_about.specs.About.{AsksAbout, AsksNothing, IsAnsweredAbout};

use command_reasons::write_write_fault;
use flow_edges::{Sink, write_whole};
use flow_values::Fault;

/// The answers of a program to `--help` and `--version`.
#[derive(Clone, Copy)]
pub struct About<'a> {
    /// The lines that `--help` writes.
    pub help: &'a str,
    /// The line that `--version` writes.
    pub version: &'a str,
}

/// Writes the help for `--help` and the version for `--version`, each alone, and returns the exit
/// status: 0, or 6 if the output failed. `None` if the arguments are anything else; then nothing
/// was written.
pub fn answer_about<O: Sink, E: Sink>(
    arguments: &[String],
    about: &About<'_>,
    output: &mut O,
    faults: &mut E,
) -> Option<u8>
    ensures nothing { (result ≡ None) ↔ AsksNothing (argument_texts arguments.now) }
    ensures untouched { result ≡ None → (output.new ≡ output.old) × (faults.new ≡ faults.old) }
    // status 0 means that the text was written, 6 that a prefix of it was
    ensures written { IfSome result (λ status. IsAnsweredAbout about.now
        (argument_texts arguments.now) status
        (O.written output.old) (O.written output.new)) }
    ensures output { Counted (result ≡ Some 6) (O.faults output.old) (O.faults output.new) }
    ensures reason { result ≡ Some 6
        → WritesReason (codes "write fault\n") (E.written faults.old) (E.written faults.new)
        (E.faults faults.old) (E.faults faults.new) }
    ensures silent { result ≡ Some 0 → faults.new ≡ faults.old }
{
    let text = about_text(arguments, about)?;
    match write_whole(output, text.as_bytes()) {
        Ok(()) => Some(0),
        Err(Fault) => {
            let _ = write_write_fault(faults);
            Some(6)
        }
    }
}

/// The text that the arguments ask for.
fn about_text<'a>(arguments: &[String], about: &About<'a>) -> Option<&'a str>
    ensures some { IfSome result (λ text. AsksAbout about.now
        (argument_texts arguments.now) text.now) }
    ensures none { IfNone result (AsksNothing (argument_texts arguments.now)) }
{
    let [argument] = arguments else {
        return None;
    };
    match argument.as_str() {
        "--help" => Some(about.help),
        "--version" => Some(about.version),
        _ => None,
    }
}
