ghost use Rattle.std.specs.Prelude.{◌≡◌, ◌++◌, Err, length, OnOk};
ghost use Rattle.flow_edges.specs.declared.source.TheConstants.{MAX_READ};
ghost use Rattle.flow_edges.specs.Faults.{Counted};
ghost use Rattle.http_messages.specs.inner.Reading.{ReadsBody};

use crate::ReplyEnd;
use flow_edges::{MAX_READ, Source};
use flow_values::{Items, NoMemory};
use std::alloc::Global;

/// Reads `count` bytes through the buffer into a vector that grows with the bytes received.
pub(crate) fn read_body<S: Source>(
    alloc: Global,
    link: &mut S,
    count: usize,
    buffer: &mut [u8],
) -> Result<Items<u8>, ReplyEnd>
    requires room { length buffer.now ≡ MAX_READ }
    ensures reads { ReadsBody count (S.left link.old) (S.left link.new) result }
    ensures causes { Counted (result ≡ Err ReplyEnd.Fault) (S.faults link.old) (S.faults link.new) }
    ensures unwritten { S.other link.new ≡ S.other link.old }
{
    let mut body = Vec::new(alloc);
    while body.len() < count {
        let needed = (count - body.len()).min(MAX_READ);
        let taken = link.read(&mut buffer[..needed])?;
        if taken == 0 {
            return Err(ReplyEnd::Cut);
        }
        add(&mut body, &buffer[..taken])?;
    }
    Ok(Items::from_vec(body))
}

/// Appends bytes.
fn add(bytes: &mut Vec<u8>, more: &[u8]) -> Result<(), NoMemory>
    ensures { OnOk result (bytes.new.items ≡ bytes.old.items ++ more.now) }
{
    bytes.extend_from_slice(more)?;
    Ok(())
}
