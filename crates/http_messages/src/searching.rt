ghost use Rattle.std.specs.Prelude.{◌≡◌, ◌≤◌, ◌<◌, ◌++◌, ℕ, List, length, Err, true};
ghost use Rattle.flow_edges.specs.declared.source.TheConstants.{MAX_READ};
ghost use Rattle.flow_edges.specs.Faults.{Counted};
ghost use Rattle.http_messages.specs.ReplyHeads.{HoldNoHead};
ghost use Rattle.http_messages.specs.inner.Reading.{ReadsHead};

use crate::{HeadRefusal, MAX_HEAD, ReplyEnd, last_line_end};
use flow_edges::Source;

/// Reads a head into the front of the buffer, and returns its length. Each read asks for at most
/// the bytes that the head must still have, so that none after it is read.
pub(crate) fn read_head<S: Source>(link: &mut S, buffer: &mut [u8]) -> Result<usize, ReplyEnd>
    requires room { length buffer.now ≡ MAX_READ }
    ensures reads { ReadsHead buffer.new (S.left link.old) (S.left link.new) result }
    ensures causes { Counted (result ≡ Err ReplyEnd.Fault) (S.faults link.old) (S.faults link.new) }
    ensures unwritten { S.other link.new ≡ S.other link.old }
{
    let mut end = 0;
    while end < MAX_HEAD {
        let needed = lacking(&buffer[..end]).min(MAX_HEAD - end);
        let count = link.read(&mut buffer[end..end + needed])?;
        if count == 0 {
            return Err(ReplyEnd::Cut);
        }
        let searched = end.saturating_sub(2);
        end += count;
        if last_line_end(&buffer[..end], searched).is_some() {
            return Ok(end);
        }
    }
    Err(ReplyEnd::Refused(HeadRefusal::BadHead))
}

/// A lower bound of 1 or 2 on the bytes that a head beginning with these must still have.
fn lacking(bytes: &[u8]) -> usize
    ensures some { 1 ≤ result }
    ensures few { result ≤ 2 }
    // fewer than `result` more bytes cannot complete the head
    ensures lacks { (more : List ℕ) → length more < result → HoldNoHead bytes.now
        → HoldNoHead (bytes.now ++ more) }
{
    if bytes.ends_with(b"\n") || bytes.ends_with(b"\n\r") {
        1
    } else {
        2
    }
}
