//! The arguments `HOST PORT ROOT COLLECTION [LIMIT]`.

ghost use Rattle.std.specs.Prelude.{◌≡◌, ℕ, IfNone, IfOk, IfSome};
ghost use Rattle.command_line.specs.CommandLines.{argument_texts};
ghost use Rattle.command_pull.specs.Arguments.{AskForPull, AskForNoPull, IsPageLimit, pull_target};

use command_peer::{PeerArguments, number_to};
use flow_values::NoMemory;
use std::alloc::Global;
use taxii_client::Target;

/// The largest page size that may be requested, and the default.
pub const MAX_LIMIT: u32 = 100;

/// The request: the objects of a peer's collection, with a page size.
#[derive(Clone, Copy)]
pub(crate) struct PullRequest<'a> {
    pub(crate) peer: PeerArguments<'a>,
    pub(crate) limit: u32,
}

impl<'a> PullRequest<'a> {
    /// The target of the pull.
    pub(crate) fn target(&self, alloc: Global) -> Result<Target, NoMemory>
        ensures { IfOk result (λ target. target ≡ pull_target self.now) }
    {
        self.peer.target(alloc, u64::from(self.limit), None)
    }
}

/// Parses the arguments after the program's name; `None` if they are no command line.
pub(crate) fn read_request<'a>(arguments: &'a [String]) -> Option<PullRequest<'a>>
    ensures some { IfSome result
        (λ request. AskForPull (argument_texts arguments.entry.now) (pull_target request)) }
    ensures none { IfNone result (AskForNoPull (argument_texts arguments.entry.now)) }
{
    let [host, port, root, collection, more @ ..] = arguments else {
        return None;
    };
    let limit = limit_of(more)?;
    let peer = PeerArguments::read(
        host.as_str(),
        port.as_str(),
        root.as_str(),
        collection.as_str(),
    )?;
    Some(PullRequest { peer, limit })
}

/// Parses the optional LIMIT.
fn limit_of(more: &[String]) -> Option<u32>
    ensures some { IfSome result (IsPageLimit (argument_texts more.now)) }
    ensures none { IfNone result ((limit : ℕ) → ¬ IsPageLimit (argument_texts more.now) limit) }
{
    match more {
        [] => Some(MAX_LIMIT),
        [limit] => number_to(limit.as_str(), MAX_LIMIT),
        _ => None,
    }
}
