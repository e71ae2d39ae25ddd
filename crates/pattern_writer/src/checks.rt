ghost use Rattle.std.specs.Prelude.{◌≡◌, ◌++◌, OnOk, codes};
ghost use Rattle.pattern_writer.specs.Parts.{IsAfterText, AppendsText};
ghost use Rattle.pattern_writer.specs.Path.{IsPathText};
ghost use Rattle.pattern_writer.specs.Constant.{IsConstantText};
ghost use Rattle.pattern_writer.specs.Check.{not_text, operator_text, IsComparisonText};
ghost use Rattle.pattern_writer.specs.Check.{IsSetLiteralText, AreWords};
ghost use Rattle.pattern_writer.specs.Check.{IsTestText};

use crate::constants::{write_constant, write_list};
use crate::paths::write_path;
use crate::words::write_words;
use flow_values::{NoMemory, Text};
use pattern_types::{Check, Constant, Test};
use std::alloc::Global;

/// `NOT ` for a negated test, else nothing.
fn not_word(negated: bool) -> &'static str
    ensures { result.now ≡ not_text negated }
{
    if negated { "NOT " } else { "" }
}

/// Writes an operator, with NOT before it for a negated test.
fn write_operator(negated: bool, operator: &str, out: &mut Text) -> Result<(), NoMemory>
    ensures { OnOk result (out.new ≡ out.old ++ operator_text negated operator.now) }
{
    out.push(" ")?;
    out.push(not_word(negated))?;
    out.push(operator)?;
    out.push(" ")
}

/// Writes a comparison with a constant.
fn write_comparison(
    alloc: Global,
    test: &Test,
    operator: &str,
    value: &Constant,
    out: &mut Text,
) -> Result<(), NoMemory>
    ensures { OnOk result (AppendsText
        (IsComparisonText test.now.path test.now.negated operator.now
        (IsConstantText value.now)) out.old
        out.new) }
{
    write_path(&test.path, out)?;
    write_operator(test.negated, operator, out)?;
    write_constant(alloc, value, out)
}

/// Writes `IN` with the constants of a list.
fn write_among(
    alloc: Global,
    test: &Test,
    values: &[Constant],
    out: &mut Text,
) -> Result<(), NoMemory>
    ensures { OnOk result (AppendsText
        (IsComparisonText test.now.path test.now.negated (codes "IN")
        (IsSetLiteralText values.now)) out.old
        out.new) }
{
    write_path(&test.path, out)?;
    write_operator(test.negated, "IN", out)?;
    write_list(alloc, values, out)
}

/// Writes a comparison with a string.
fn write_textual(test: &Test, operator: &str, words: &str, out: &mut Text) -> Result<(), NoMemory>
    ensures { OnOk result (AppendsText
        (IsComparisonText test.now.path test.now.negated operator.now (AreWords words.now)) out.old
        out.new) }
{
    write_path(&test.path, out)?;
    write_operator(test.negated, operator, out)?;
    write_words(words, out)
}

/// Writes EXISTS, with NOT before it for a negated test.
fn write_existence(test: &Test, out: &mut Text) -> Result<(), NoMemory>
    ensures { OnOk result (AppendsText
        (IsAfterText (not_text test.now.negated ++ codes "EXISTS ")
        (IsPathText test.now.path)) out.old
        out.new) }
{
    out.push(not_word(test.negated))?;
    out.push("EXISTS ")?;
    write_path(&test.path, out)
}

/// Writes a test.
pub(crate) fn write_test(alloc: Global, test: &Test, out: &mut Text) -> Result<(), NoMemory>
    ensures { OnOk result (AppendsText (IsTestText test.now) out.old out.new) }
{
    match &test.check {
        Check::Equal(value) => write_comparison(alloc, test, "=", value, out),
        Check::Differ(value) => write_comparison(alloc, test, "!=", value, out),
        Check::Less(value) => write_comparison(alloc, test, "<", value, out),
        Check::LessEqual(value) => write_comparison(alloc, test, "<=", value, out),
        Check::Greater(value) => write_comparison(alloc, test, ">", value, out),
        Check::GreaterEqual(value) => write_comparison(alloc, test, ">=", value, out),
        Check::Among(values) => write_among(alloc, test, values.as_slice(), out),
        Check::Like(words) => write_textual(test, "LIKE", words.as_str(), out),
        Check::Subset(address) => write_textual(test, "ISSUBSET", address.text.as_str(), out),
        Check::Superset(address) => write_textual(test, "ISSUPERSET", address.text.as_str(), out),
        Check::Exists => write_existence(test, out),
    }
}
