ghost use Rattle.std.specs.Prelude.{◌≡◌, ◌++◌, true, OnErr, IsErr};
ghost use Rattle.flow_edges.specs.Faults.{Counted};
ghost use Rattle.flow_edges.specs.Flow.{WritesWhole, WritesPart};
ghost use Rattle.taxii_exchange.specs.Answers.{HasDates, WritesAnswer, no_memory_answer};

use crate::Answer;
use crate::head_text::HeadText;
use flow_edges::{Sink, write_all_vectored, write_whole};
use flow_values::Fault;

/// The bytes of the 503 response for out of memory.
const NO_MEMORY: &[u8] =
    b"HTTP/1.1 503 Service Unavailable\r\nContent-Type: application/taxii+json;version=2.1\r\nContent-Length: 25\r\nConnection: close\r\n\r\n{\"title\":\"out of memory\"}";

/// Writes a response; `close` adds `Connection: close`. After a `Fault` a prefix of it was written.
/// Allocates nothing.
///
/// The dates of the response must be before the year 10000.
pub fn write_answer<S: Sink>(answer: &Answer, close: bool, sink: &mut S) -> Result<(), Fault>
    requires dates { HasDates answer.now }
    ensures text { WritesAnswer answer.now close (S.written sink.old) (S.written sink.new) result }
    ensures causes { Counted (IsErr result) (S.faults sink.old) (S.faults sink.new) }
    // nothing is read from the link
    ensures unread { S.other sink.new ≡ S.other sink.old }
{
    let head = HeadText::of(answer, close);
    match &answer.body {
        Some(body) => write_with_body(head, body.as_str().as_bytes(), sink),
        None => write_whole(sink, head.as_slice()),
    }
}

/// Writes a head and its body, in one write if both fit the buffer.
fn write_with_body<S: Sink>(head: HeadText, body: &[u8], sink: &mut S) -> Result<(), Fault>
    ensures text { WritesWhole (head ++ body.now) (S.written sink.old) (S.written sink.new) result }
    ensures part { OnErr result
        (WritesPart (head ++ body.now) (S.written sink.old) (S.written sink.new)) }
    ensures causes { Counted (IsErr result) (S.faults sink.old) (S.faults sink.new) }
    ensures unread { S.other sink.new ≡ S.other sink.old }
{
    let mut text = head;
    if body.len() > text.room() {
        return write_all_vectored(sink, &[text.as_slice(), body]);
    }
    text.push(body);
    write_whole(sink, text.as_slice())
}

/// Writes the 503 response for out of memory, after which the connection ends. After a `Fault` a
/// prefix of it was written. Allocates nothing.
pub fn write_no_memory<S: Sink>(sink: &mut S) -> Result<(), Fault>
    ensures text { WritesAnswer no_memory_answer true (S.written sink.old)
        (S.written sink.new) result }
    ensures causes { Counted (IsErr result) (S.faults sink.old) (S.faults sink.new) }
    ensures unread { S.other sink.new ≡ S.other sink.old }
{
    write_whole(sink, NO_MEMORY)
}
