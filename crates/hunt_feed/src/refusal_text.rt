//! The texts of refused lines of a feed.

ghost use Rattle.std.specs.Prelude.{◌≡◌, ◌++◌, codes, IsErr};
ghost use Rattle.flow_edges.specs.Faults.{Counted};
ghost use Rattle.flow_edges.specs.Flow.{WritesWhole};
ghost use Rattle.match_input.specs.Texts.{text_at_path, json_text, line_of_text};
ghost use Rattle.hunt_feed.specs.Texts.{first_rule_break_text, rule_text, feed_refusal_text};
ghost use Rattle.hunt_feed.specs.inner.Reasons.{feed_reason_text};
ghost use Rattle.match_input.specs.inner.Reason.{path_lead};

use crate::FeedRule;
use flow_edges::{Sink, write_all_vectored};
use flow_values::Fault;
use itoa::Buffer;
use stix_json::JsonRefusal;
use stix_objects::Break;

/// The parts of a refusal's text: a name, the rule that is broken, and a path. The last two may be
/// empty.
#[derive(Clone, Copy, Debug)]
pub(crate) struct Reason<'a> {
    pub(crate) name: &'static str,
    pub(crate) rule: &'static str,
    pub(crate) path: &'a str,
}

/// Writes why a line of a feed is refused, such as `indicators line 2 refused: Breaks Missing at
/// pattern` and a line feed. After a `Fault` a prefix of the text was written. Takes no memory.
pub fn write_feed_refusal<S: Sink>(line: u64, rule: &FeedRule, sink: &mut S) -> Result<(), Fault>
    ensures text { WritesWhole (feed_refusal_text line rule.now) (S.written sink.old)
        (S.written sink.new) result }
    ensures causes { Counted (IsErr result) (S.faults sink.old) (S.faults sink.new) }
{
    let reason = reason_of(rule);
    let mut buffer = Buffer::new();
    let line = buffer.format(line);
    write_reason(line, reason, sink)
}

/// The parts for a rule.
fn reason_of<'a>(rule: &'a FeedRule) -> Reason<'a>
    ensures { feed_reason_text result ≡ rule_text rule.now }
{
    match rule {
        FeedRule::LineTooLong => name_alone("LineTooLong"),
        FeedRule::InputTooLong => name_alone("InputTooLong"),
        FeedRule::Json(refusal) => reason_of_json(refusal),
        FeedRule::Breaks(breaks) => reason_of_breaks(breaks.as_slice()),
    }
}

/// A name alone.
fn name_alone<'a>(name: &'static str) -> Reason<'a>
    ensures { feed_reason_text result ≡ name.now }
{
    Reason {
        name,
        rule: "",
        path: "",
    }
}

/// A name and a path.
fn name_at<'a>(name: &'static str, path: &'a str) -> Reason<'a>
    ensures { feed_reason_text result ≡ text_at_path name.now path.now }
{
    Reason {
        name,
        rule: "",
        path,
    }
}

/// The parts for bytes that are no JSON.
fn reason_of_json<'a>(refusal: &'a JsonRefusal) -> Reason<'a>
    ensures { feed_reason_text result ≡ json_text refusal.now }
{
    match refusal {
        JsonRefusal::NotJson => name_alone("NotJson"),
        JsonRefusal::TooDeep { path } => name_at("TooDeep", path.as_str()),
        JsonRefusal::NotWhole { path } => name_at("NotWhole", path.as_str()),
        JsonRefusal::Null { path } => name_at("Null", path.as_str()),
        JsonRefusal::OutOfRange { path } => name_at("OutOfRange", path.as_str()),
        JsonRefusal::NotList => name_alone("NotList"),
        JsonRefusal::NoMemory => name_alone("out of memory"),
    }
}

/// The parts for broken rules: the first one.
fn reason_of_breaks<'a>(breaks: &'a [Break]) -> Reason<'a>
    ensures { feed_reason_text result ≡ first_rule_break_text breaks.now }
{
    match breaks {
        [first, ..] => Reason {
            name: "Breaks ",
            rule: first.rule.name(),
            path: first.path.as_str(),
        },
        [] => name_alone("Breaks"),
    }
}

/// Writes the line of a refusal.
fn write_reason<S: Sink>(line: &str, reason: Reason<'_>, sink: &mut S) -> Result<(), Fault>
    ensures text { WritesWhole (codes "indicators "
        ++ line_of_text line.now (feed_reason_text reason.entry)) (S.written sink.old)
        (S.written sink.new) result }
    ensures causes { Counted (IsErr result) (S.faults sink.old) (S.faults sink.new) }
{
    write_parts(line, reason.name, reason.rule, reason.path, sink)
}

/// Writes the line, given its parts.
fn write_parts<'a, S: Sink>(
    line: &'a str,
    name: &'a str,
    rule: &'a str,
    path: &'a str,
    sink: &mut S,
) -> Result<(), Fault>
    ensures text { WritesWhole (codes "indicators "
        ++ line_of_text line.now (text_at_path (name.now ++ rule.now) path.now))
        (S.written sink.old)
        (S.written sink.new) result }
    ensures causes { Counted (IsErr result) (S.faults sink.old) (S.faults sink.new) }
{
    let at = lead_of(path);
    write_all_vectored(
        sink,
        &[
            b"indicators line ",
            line.as_bytes(),
            b" refused: ",
            name.as_bytes(),
            rule.as_bytes(),
            at.as_bytes(),
            path.as_bytes(),
            b"\n",
        ],
    )
}

/// The text before a path.
fn lead_of<'a>(path: &'a str) -> &'a str
    ensures { result.now ≡ path_lead path.now }
{
    if path.is_empty() { "" } else { " at " }
}
