ghost use Rattle.std.specs.Prelude.{◌≡◌, ◌++◌, OnOk, flat_map};
ghost use Rattle.std.specs.Char.{encode_utf8};
ghost use Rattle.pattern_lexer.specs.Values.{escaped, IsStringText};
ghost use Rattle.pattern_writer.specs.Parts.{AppendsText};
ghost use Rattle.pattern_writer.specs.Check.{AreWords};

use flow_values::{NoMemory, Text};

/// Writes a character of a string literal, and escapes `'` and `\`.
fn write_character(character: char, out: &mut Text) -> Result<(), NoMemory>
    ensures { OnOk result (out.new ≡ out.old ++ flat_map escaped (encode_utf8 character)) }
{
    if character == '\'' {
        return out.push("\\'");
    }
    if character == '\\' {
        return out.push("\\\\");
    }
    out.push(character.encode_utf8(&mut [0; 4]))
}

/// Writes the characters of a string literal.
fn write_characters(words: &str, out: &mut Text) -> Result<(), NoMemory>
    ensures { OnOk result (out.new ≡ out.old ++ flat_map escaped words.now) }
{
    for character in words.chars() {
        write_character(character, out)?;
    }
    Ok(())
}

/// Writes a string literal.
pub(crate) fn write_words(words: &str, out: &mut Text) -> Result<(), NoMemory>
    ensures { OnOk result (AppendsText (AreWords words.now) out.old out.new) }
{
    out.push("'")?;
    write_characters(words, out)?;
    out.push("'")
}
