ghost use Rattle.std.specs.Prelude.{◌≡◌, ◌++◌, IfOk, codes, decimal};
ghost use Rattle.std.specs.List.{flat_map};
ghost use Rattle.command_check.specs.CheckEndings.{break_line, version_line, marking_line};
ghost use Rattle.command_check.specs.CheckEndings.{verdict_text as text_of_verdict};

use crate::verdict::Verdict;
use flow_values::{NoMemory, Text};
use std::alloc::Global;
use stix_bundles::ObjectBreak;
use stix_versions::{MarkingBreak, VersionBreak};

/// The output for a verdict.
pub(crate) fn verdict_text(alloc: Global, verdict: &Verdict) -> Result<Text, NoMemory>
    ensures { IfOk result (λ text. text ≡ text_of_verdict verdict.now) }
{
    match verdict {
        Verdict::Sound { objects } => sound_text(alloc, *objects),
        Verdict::Broken(breaks) => breaks_text(alloc, breaks.as_slice()),
        Verdict::Unfit { versions, markings } => {
            unfit_text(alloc, versions.as_slice(), markings.as_slice())
        }
        Verdict::Refused(_) => Ok(Text::new(alloc)),
    }
}

fn sound_text(alloc: Global, objects: usize) -> Result<Text, NoMemory>
    ensures { IfOk result (λ text. text ≡ text_of_verdict (Verdict.Sound objects)) }
{
    let text = format!(in alloc; "ok {objects} objects\n")?;
    Ok(Text::from_string(text))
}

fn breaks_text(alloc: Global, breaks: &[ObjectBreak]) -> Result<Text, NoMemory>
    ensures { IfOk result (λ text. text ≡ flat_map break_line breaks.now) }
{
    let mut text = Text::new(alloc);
    for broken in breaks {
        let line = break_text(alloc, broken)?;
        text.push(line.as_str())?;
    }
    Ok(text)
}

/// The line of a violation.
fn break_text(alloc: Global, broken: &ObjectBreak) -> Result<Text, NoMemory>
    ensures { IfOk result (λ text. text ≡ break_line broken.now) }
{
    let object = broken.object;
    let rule = broken.found.rule.name();
    let path = broken.found.path.as_str();
    if path.is_empty() {
        return plain_line(alloc, object, rule);
    }
    placed_line(alloc, object, rule, path)
}

/// The line of a violation by the whole object.
fn plain_line(alloc: Global, object: u32, rule: &str) -> Result<Text, NoMemory>
    ensures { IfOk result
        (λ text. text ≡ codes "object "
        ++ (decimal object ++ (codes ": " ++ (rule.now ++ codes "\n")))) }
{
    let text = format!(in alloc; "object {object}: {rule}\n")?;
    Ok(Text::from_string(text))
}

/// The line of a violation at a path.
fn placed_line(alloc: Global, object: u32, rule: &str, path: &str) -> Result<Text, NoMemory>
    ensures { IfOk result
        (λ text. text ≡ codes "object "
        ++ (decimal object
        ++ (codes ": " ++ (rule.now ++ (codes " at " ++ (path.now ++ codes "\n")))))) }
{
    let text = format!(in alloc; "object {object}: {rule} at {path}\n")?;
    Ok(Text::from_string(text))
}

fn unfit_text(
    alloc: Global,
    versions: &[VersionBreak],
    markings: &[MarkingBreak],
) -> Result<Text, NoMemory>
    ensures { IfOk result
        (λ text. text ≡ flat_map version_line versions.now ++ flat_map marking_line markings.now) }
{
    let mut text = versions_text(alloc, versions)?;
    let rest = markings_text(alloc, markings)?;
    text.push(rest.as_str())?;
    Ok(text)
}

fn versions_text(alloc: Global, versions: &[VersionBreak]) -> Result<Text, NoMemory>
    ensures { IfOk result (λ text. text ≡ flat_map version_line versions.now) }
{
    let mut text = Text::new(alloc);
    for broken in versions {
        let line = version_text(alloc, *broken)?;
        text.push(line.as_str())?;
    }
    Ok(text)
}

fn markings_text(alloc: Global, markings: &[MarkingBreak]) -> Result<Text, NoMemory>
    ensures { IfOk result (λ text. text ≡ flat_map marking_line markings.now) }
{
    let mut text = Text::new(alloc);
    for broken in markings {
        let line = marking_text(alloc, *broken)?;
        text.push(line.as_str())?;
    }
    Ok(text)
}

/// The line of a violation of a version rule.
fn version_text(alloc: Global, broken: VersionBreak) -> Result<Text, NoMemory>
    ensures { IfOk result (λ text. text ≡ version_line broken) }
{
    let object = broken.object;
    let rule = broken.rule.name();
    let text = format!(in alloc; "object {object}: {rule}\n")?;
    Ok(Text::from_string(text))
}

/// The line of a violation of a marking rule.
fn marking_text(alloc: Global, broken: MarkingBreak) -> Result<Text, NoMemory>
    ensures { IfOk result (λ text. text ≡ marking_line broken) }
{
    let object = broken.object;
    let marking = broken.marking;
    let rule = broken.rule.name();
    let text = format!(in alloc; "object {object}: marking {marking}: {rule}\n")?;
    Ok(Text::from_string(text))
}
