ghost use Rattle.std.specs.Prelude.{◌≡◌, ◌≤◌, length, map, IfOk};
ghost use Rattle.http_messages.specs.declared.frame.TheConstants.{MAX_HEAD};
ghost use Rattle.http_messages.specs.ReplyHeads.{IsHead, state_no_length};
ghost use Rattle.http_messages.specs.inner.Reading.{ChecksHead, refusal_or_length};

use crate::reply_grammar::{MAX_FIELDS, parse};
use crate::reply_head::Head;
use crate::{HeadRefusal, MAX_REPLY, all_state, first_length};
use flow_values::NoMemory;
use httparse::spans::EMPTY_HEADER_SPAN;
use std::alloc::Global;

/// The result of checking a response head.
pub(crate) enum Checked {
    /// Accepted: the body has this many bytes.
    Announces(usize),
    /// Refused.
    Refused(HeadRefusal),
}

/// Parses and checks a head.
pub(crate) fn check(alloc: Global, head: &[u8]) -> Result<Checked, NoMemory>
    requires head { IsHead head.now }
    requires size { length head.now ≤ MAX_HEAD }
    ensures { IfOk result (ChecksHead head.now) }
{
    let mut spans = vec![in alloc; EMPTY_HEADER_SPAN; MAX_FIELDS]?;
    match parse(head, &mut spans) {
        Some(read) => Head::new(head, &spans, read).checked(alloc),
        None => Ok(Checked::Refused(HeadRefusal::BadHead)),
    }
}

impl<'a> Head<'a> {
    /// The first reason to refuse the head, or the length of the body.
    fn checked(&self, alloc: Global) -> Result<Checked, NoMemory>
        ensures { IfOk result (λ checked. checked ≡ refusal_or_length self.now) }
    {
        if self.status() != 200 {
            return Ok(Checked::Refused(HeadRefusal::Status {
                code: self.status(),
            }));
        }
        if self.values(alloc, b"transfer-encoding")?.len() > 0 {
            return Ok(Checked::Refused(HeadRefusal::Coding));
        }
        let lengths = self.values(alloc, b"content-length")?;
        if state_no_length(&lengths) {
            return Ok(Checked::Refused(HeadRefusal::NoLength));
        }
        let count = first_length(&lengths);
        if count > MAX_REPLY {
            return Ok(Checked::Refused(HeadRefusal::TooLarge));
        }
        Ok(Checked::Announces(count as usize))
    }
}

/// Whether these values do not agree on exactly one length.
fn state_no_length(values: &[&[u8]]) -> bool
    ensures { result ≡ state_no_length (map (λ value. value.now) values.now) }
{
    values.is_empty() || !all_state(values, first_length(values))
}
