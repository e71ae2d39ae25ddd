ghost use Rattle.std.specs.Prelude.{◌≡◌, Err, IfOk, length};
ghost use Rattle.flow_edges.specs.Faults.{Counted};
ghost use Rattle.flow_edges.specs.declared.source.TheConstants.{MAX_READ};
ghost use Rattle.http_messages.specs.Replies.{ReadsReply};

use crate::ReplyEnd;
use crate::reply_body::read_body;
use crate::reply_checking::{Checked, check};
use crate::searching::read_head;
use flow_edges::{MAX_READ, Source};
use flow_values::{Items, NoMemory};
use std::alloc::Global;

/// Reads one response from a link, and returns its body. Each read asks for at most the bytes that
/// must still arrive, so no byte after the response is read. The body's memory grows with the bytes
/// received, whatever length the head announces.
pub fn read_reply<S: Source>(alloc: Global, link: &mut S) -> Result<Items<u8>, ReplyEnd>
    ensures reads { ReadsReply (S.left link.old) (S.left link.new) result }
    // the link counts a fault exactly if the result is `Fault`
    ensures causes { Counted (result ≡ Err ReplyEnd.Fault) (S.faults link.old) (S.faults link.new) }
    // nothing is written to the link
    ensures unwritten { S.other link.new ≡ S.other link.old }
{
    let mut buffer = room(alloc)?;
    let end = read_head(link, &mut buffer)?;
    match check(alloc, &buffer[..end])? {
        Checked::Announces(count) => read_body(alloc, link, count, &mut buffer),
        Checked::Refused(refusal) => Err(ReplyEnd::Refused(refusal)),
    }
}

/// A zeroed read buffer, large enough for a head.
fn room(alloc: Global) -> Result<Vec<u8>, NoMemory>
    ensures { IfOk result (λ buffer. length buffer.items ≡ MAX_READ) }
{
    Ok(vec![in alloc; 0u8; MAX_READ]?)
}
