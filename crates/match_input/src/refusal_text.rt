//! The texts of refused lines.

ghost use Rattle.std.specs.Prelude.{◌≡◌, ◌++◌, List, ℕ, codes, decimal, IsErr, OnErr};
ghost use Rattle.flow_edges.specs.Faults.{Counted};
ghost use Rattle.flow_edges.specs.Flow.{WritesWhole, WritesPart};
ghost use Rattle.stix_times.specs.Writing.{IsCanonicalTextOf};
ghost use Rattle.match_input.specs.inner.Reason.{broken_words, line_reason_text, path_lead};
ghost use Rattle.match_input.specs.Texts.{text_at_path, line_of_text, refused_line_text};
ghost use Rattle.match_input.specs.Texts.{IsInputRefusalText};

use crate::InputRule;
use crate::reason::Reason;
use flow_edges::{Sink, write_all_vectored};
use flow_values::Fault;
use itoa::Buffer;
use stix_times::Instant;

/// Writes why a line is refused, such as `line 2 refused: NotBundle at type` and a line feed. After
/// a `Fault` a prefix of the text was written. Takes no memory.
pub fn write_input_refusal<S: Sink>(line: u64, rule: &InputRule, sink: &mut S) -> Result<(), Fault>
    ensures text { (text : List ℕ) × IsInputRefusalText line rule.now text
        × WritesWhole text (S.written sink.old) (S.written sink.new) result }
    ensures part { OnErr result ((text : List ℕ) × IsInputRefusalText line rule.now text
        × WritesPart text (S.written sink.old) (S.written sink.new)) }
    ensures causes { Counted (IsErr result) (S.faults sink.old) (S.faults sink.new) }
{
    match rule {
        InputRule::LineTooLong => write_reason(line, Reason::at("LineTooLong", ""), sink),
        InputRule::InputTooLong => write_reason(line, Reason::at("InputTooLong", ""), sink),
        InputRule::Json(refusal) => write_reason(line, Reason::of_json(refusal), sink),
        InputRule::Bundle(refusal) => write_reason(line, Reason::of_bundle(refusal), sink),
        InputRule::Embedded { object } => write_embedded(line, *object, sink),
        InputRule::OutOfOrder { last, now } => write_out_of_order(line, *last, *now, sink),
    }
}

/// Writes the line for an observed-data that embeds its objects.
fn write_embedded<S: Sink>(line: u64, object: u32, sink: &mut S) -> Result<(), Fault>
    ensures text { WritesWhole (refused_line_text line (codes "EmbeddedObjects object "
        ++ decimal object))
        (S.written sink.old) (S.written sink.new) result }
    ensures part { OnErr result (WritesPart
        (refused_line_text line (codes "EmbeddedObjects object " ++ decimal object))
        (S.written sink.old) (S.written sink.new)) }
    ensures causes { Counted (IsErr result) (S.faults sink.old) (S.faults sink.new) }
{
    let mut buffer = Buffer::new();
    let line = buffer.format(line);
    let mut buffer = Buffer::new();
    let object = buffer.format(object);
    write_object(line, object, sink)
}

/// Writes this line, given the texts of both numbers.
fn write_object<'a, S: Sink>(line: &'a str, object: &'a str, sink: &mut S) -> Result<(), Fault>
    ensures text { WritesWhole (line_of_text line.now (codes "EmbeddedObjects object "
        ++ object.now)) (S.written sink.old) (S.written sink.new) result }
    ensures part { OnErr result (WritesPart
        (line_of_text line.now (codes "EmbeddedObjects object " ++ object.now))
        (S.written sink.old) (S.written sink.new)) }
    ensures causes { Counted (IsErr result) (S.faults sink.old) (S.faults sink.new) }
{
    write_all_vectored(
        sink,
        &[
            b"line ",
            line.as_bytes(),
            b" refused: EmbeddedObjects object ",
            object.as_bytes(),
            b"\n",
        ],
    )
}

/// Writes the line for an observation that is out of order.
fn write_out_of_order<S: Sink>(
    line: u64,
    last: Instant,
    now: Instant,
    sink: &mut S,
) -> Result<(), Fault>
    ensures text { (text : List ℕ) × IsInputRefusalText line (InputRule.OutOfOrder last now) text
        × WritesWhole text (S.written sink.old) (S.written sink.new) result }
    ensures part { OnErr result ((text : List ℕ)
        × IsInputRefusalText line (InputRule.OutOfOrder last now) text
        × WritesPart text (S.written sink.old) (S.written sink.new)) }
    ensures causes { Counted (IsErr result) (S.faults sink.old) (S.faults sink.new) }
{
    let mut buffer = Buffer::new();
    let line = buffer.format(line);
    let mut last_text = [0u8; 32];
    let last_length = stix_times::write(last, &mut last_text);
    let mut now_text = [0u8; 32];
    let now_length = stix_times::write(now, &mut now_text);
    write_times(
        line,
        &last_text[..last_length],
        &now_text[..now_length],
        sink,
    )
}

/// Writes this line, given the texts of the number and of both times.
fn write_times<'a, S: Sink>(
    line: &'a str,
    last: &'a [u8],
    now: &'a [u8],
    sink: &mut S,
) -> Result<(), Fault>
    ensures text { WritesWhole (line_of_text line.now (codes "OutOfOrder last "
        ++ (last.now ++ (codes " now " ++ now.now))))
        (S.written sink.old) (S.written sink.new) result }
    ensures part { OnErr result (WritesPart
        (line_of_text line.now (codes "OutOfOrder last "
        ++ (last.now ++ (codes " now " ++ now.now)))) (S.written sink.old) (S.written sink.new)) }
    ensures causes { Counted (IsErr result) (S.faults sink.old) (S.faults sink.new) }
{
    write_all_vectored(
        sink,
        &[
            b"line ",
            line.as_bytes(),
            b" refused: OutOfOrder last ",
            last,
            b" now ",
            now,
            b"\n",
        ],
    )
}

/// Writes the line of a reason.
fn write_reason<S: Sink>(line: u64, said: Reason<'_>, sink: &mut S) -> Result<(), Fault>
    ensures text { WritesWhole (refused_line_text line (line_reason_text said.entry))
        (S.written sink.old) (S.written sink.new) result }
    ensures part { OnErr result (WritesPart (refused_line_text line (line_reason_text said.entry))
        (S.written sink.old) (S.written sink.new)) }
    ensures causes { Counted (IsErr result) (S.faults sink.old) (S.faults sink.new) }
{
    let mut buffer = Buffer::new();
    let line = buffer.format(line);
    match said.broken {
        None => write_at(line, said.name, said.path, sink),
        Some(broken) => {
            let mut buffer = Buffer::new();
            let object = buffer.format(broken.object);
            write_broken(line, said.name, object, broken.rule.name(), said.path, sink)
        }
    }
}

/// Writes the line for a name and a path.
fn write_at<'a, S: Sink>(
    line: &'a str,
    name: &'a str,
    path: &'a str,
    sink: &mut S,
) -> Result<(), Fault>
    ensures text { WritesWhole (line_of_text line.now (text_at_path name.now path.now))
        (S.written sink.old) (S.written sink.new) result }
    ensures part { OnErr result (WritesPart (line_of_text line.now (text_at_path name.now path.now))
        (S.written sink.old) (S.written sink.new)) }
    ensures causes { Counted (IsErr result) (S.faults sink.old) (S.faults sink.new) }
{
    let at = lead_of(path);
    write_all_vectored(
        sink,
        &[
            b"line ",
            line.as_bytes(),
            b" refused: ",
            name.as_bytes(),
            at.as_bytes(),
            path.as_bytes(),
            b"\n",
        ],
    )
}

/// Writes the line for a name, a broken object and a path in it.
fn write_broken<'a, S: Sink>(
    line: &'a str,
    name: &'a str,
    object: &'a str,
    rule: &'a str,
    path: &'a str,
    sink: &mut S,
) -> Result<(), Fault>
    ensures text { WritesWhole (line_of_text line.now
        (text_at_path (name.now ++ broken_words object.now rule.now) path.now)) (S.written sink.old)
        (S.written sink.new) result }
    ensures part { OnErr result (WritesPart
        (line_of_text line.now (text_at_path
        (name.now ++ broken_words object.now rule.now) path.now))
        (S.written sink.old) (S.written sink.new)) }
    ensures causes { Counted (IsErr result) (S.faults sink.old) (S.faults sink.new) }
{
    let at = lead_of(path);
    write_all_vectored(
        sink,
        &[
            b"line ",
            line.as_bytes(),
            b" refused: ",
            name.as_bytes(),
            b" object ",
            object.as_bytes(),
            b": ",
            rule.as_bytes(),
            at.as_bytes(),
            path.as_bytes(),
            b"\n",
        ],
    )
}

/// The text before a path.
fn lead_of<'a>(path: &'a str) -> &'a str
    ensures { result.now ≡ path_lead path.now }
{
    if path.is_empty() { "" } else { " at " }
}
