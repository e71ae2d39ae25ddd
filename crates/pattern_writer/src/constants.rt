ghost use Rattle.std.specs.Prelude.{◌≡◌, ℕ, ◌++◌, List, OnOk, codes};
ghost use Rattle.hex.specs.Hex.{encode_lower};
ghost use Rattle.base64.specs.Engines.{standard};
ghost use Rattle.base64.specs.GeneralPurpose.{encode_of};
ghost use Rattle.pattern_lexer.specs.Values.{quoted};
ghost use Rattle.pattern_writer.specs.Parts.{AppendsText, AreJoined};
ghost use Rattle.pattern_writer.specs.Constant.{IsTimeText, IsConstantText};
ghost use Rattle.pattern_writer.specs.Check.{IsSetLiteralText};

use crate::parts::write_between;
use crate::words::write_words;
use base64::engine::general_purpose::STANDARD;
use flow_values::{NoMemory, Text};
use pattern_types::Constant;
use std::alloc::Global;
use stix_times::Instant;

/// Writes a quoted literal with an optional prefix letter.
fn write_quoted(letter: &str, inside: &str, out: &mut Text) -> Result<(), NoMemory>
    ensures { OnOk result (out.new ≡ out.old ++ quoted letter.now inside.now) }
{
    out.push(letter)?;
    out.push("'")?;
    out.push(inside)?;
    out.push("'")
}

/// Writes a timestamp literal.
pub(crate) fn write_time(instant: Instant, out: &mut Text) -> Result<(), NoMemory>
    ensures { OnOk result (AppendsText (IsTimeText instant) out.old out.new) }
{
    let mut buffer = [0; 32];
    let length = stix_times::write(instant, &mut buffer);
    let time = std::str::from_utf8(&buffer[..length]).unwrap();
    write_quoted("t", time, out)
}

/// Writes `true` or `false`.
fn write_truth(truth: bool, out: &mut Text) -> Result<(), NoMemory>
    ensures { OnOk result (AppendsText (IsConstantText (Constant.Boolean truth)) out.old out.new) }
{
    out.push(if truth { "true" } else { "false" })
}

/// Writes bytes in hexadecimal digits.
fn write_hex(alloc: Global, bytes: &[u8], out: &mut Text) -> Result<(), NoMemory>
    ensures { OnOk result (out.new ≡ out.old ++ quoted (codes "h") (encode_lower bytes.now)) }
{
    let digits = hex::encode(alloc, bytes)?;
    write_quoted("h", digits.as_str(), out)
}

/// Writes bytes in base64.
fn write_base64(alloc: Global, bytes: &[u8], out: &mut Text) -> Result<(), NoMemory>
    ensures { OnOk result (out.new ≡ out.old ++ quoted (codes "b") (encode_of standard bytes.now)) }
{
    let symbols = STANDARD.encode(alloc, bytes)?;
    write_quoted("b", symbols.as_str(), out)
}

/// Writes a constant.
pub(crate) fn write_constant(
    alloc: Global,
    constant: &Constant,
    out: &mut Text,
) -> Result<(), NoMemory>
    ensures { OnOk result (AppendsText (IsConstantText constant.now) out.old out.new) }
{
    match constant {
        Constant::Integer(whole) => out.push(itoa::Buffer::new().format(*whole)),
        Constant::String(words) => write_words(words.as_str(), out),
        Constant::Boolean(truth) => write_truth(*truth, out),
        Constant::Hex(bytes) => write_hex(alloc, bytes.as_slice(), out),
        Constant::Binary(bytes) => write_base64(alloc, bytes.as_slice(), out),
        Constant::Timestamp(instant) => write_time(*instant, out),
    }
}

/// Writes constants with commas between them.
fn write_constants(alloc: Global, constants: &[Constant], out: &mut Text) -> Result<(), NoMemory>
    ensures { OnOk result (AppendsText (AreJoined (codes ", ") IsConstantText constants.now) out.old
        out.new) }
{
    for (index, constant) in constants.iter().enumerate() {
        write_between(index, ", ", out)?;
        write_constant(alloc, constant, out)?;
    }
    Ok(())
}

/// Writes a list of constants.
pub(crate) fn write_list(
    alloc: Global,
    constants: &[Constant],
    out: &mut Text,
) -> Result<(), NoMemory>
    ensures { OnOk result (AppendsText (IsSetLiteralText constants.now) out.old out.new) }
{
    out.push("(")?;
    write_constants(alloc, constants, out)?;
    out.push(")")
}
