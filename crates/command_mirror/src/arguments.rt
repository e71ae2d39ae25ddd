//! The arguments `HOST PORT ROOT COLLECTION FILE TRIES [--since TIME]`.

ghost use Rattle.std.specs.Prelude.{◌≡◌, ◌≢◌, ◌↔◌, ℕ, List, Option, [], ◌∷◌, option_map, IfNone};
ghost use Rattle.std.specs.Prelude.{IfOk, IfSome, IsTrue};
ghost use Rattle.command_line.specs.CommandLines.{argument_texts};
ghost use Rattle.command_mirror.specs.Arguments.{AskForCopy, AskForNoCopy, AreStoreArguments};
ghost use Rattle.command_mirror.specs.Arguments.{IsSinceOf, IsInstantText, copying_of};

use command_peer::{PeerArguments, number_to};
use flow_values::NoMemory;
use std::alloc::Global;
use stix_times::read;
use taxii_client::Target;

/// The page size that is requested.
pub const LIMIT: u64 = 100;

/// The largest number of lost fetches that may be allowed.
pub const MAX_TRIES: u32 = 100;

/// The request: a copy of a peer's collection, or of what was added to it after a time, into the
/// store of a file. It ends after this many lost fetches.
#[derive(Clone, Copy)]
pub(crate) struct MirrorRequest<'a> {
    pub(crate) peer: PeerArguments<'a>,
    pub(crate) store: StoreArguments<'a>,
}

/// The store to copy to, the number of lost fetches that ends the copy, and the optional start
/// time.
#[derive(Clone, Copy)]
pub(crate) struct StoreArguments<'a> {
    pub(crate) file: &'a str,
    pub(crate) tries: u32,
    pub(crate) since: Option<&'a str>,
}

impl<'a> MirrorRequest<'a> {
    /// The target of the pull.
    pub(crate) fn target(&self, alloc: Global) -> Result<Target, NoMemory>
        ensures { IfOk result (λ target. target ≡ (copying_of self.now).target) }
    {
        self.peer.target(alloc, LIMIT, self.store.since)
    }
}

/// Parses the arguments after the program's name; `None` if they are no command line.
pub(crate) fn read_request<'a>(arguments: &'a [String]) -> Option<MirrorRequest<'a>>
    ensures some { IfSome result
        (λ request. AskForCopy (argument_texts arguments.entry.now) (copying_of request)) }
    ensures none { IfNone result (AskForNoCopy (argument_texts arguments.entry.now)) }
{
    let [host, port, root, collection, more @ ..] = arguments else {
        return None;
    };
    let store = store_of(more)?;
    let peer = PeerArguments::read(
        host.as_str(),
        port.as_str(),
        root.as_str(),
        collection.as_str(),
    )?;
    Some(MirrorRequest { peer, store })
}

/// Parses the arguments after the first four.
fn store_of<'a>(more: &'a [String]) -> Option<StoreArguments<'a>>
    ensures some { IfSome result
        (λ store. AreStoreArguments (argument_texts more.entry.now) store.file.now store.tries
        (option_map (λ time. time.now) store.since)) }
    ensures none { IfNone result ((file : List ℕ) (tries : ℕ) (since : Option (List ℕ))
        → ¬ AreStoreArguments (argument_texts more.entry.now) file tries since) }
{
    let [file, tries, last @ ..] = more else {
        return None;
    };
    let since = since_of(last)?;
    let tries = number_to(tries.as_str(), MAX_TRIES)?;
    let file = file_of(file.as_str())?;
    Some(StoreArguments { file, tries, since })
}

/// Checks a file name, which must not be empty.
fn file_of<'a>(text: &'a str) -> Option<&'a str>
    ensures some { IfSome result (λ file. (file.now ≡ text.entry.now) × (text.entry.now ≢ [])) }
    ensures none { IfNone result (text.entry.now ≡ []) }
{
    if text.is_empty() { None } else { Some(text) }
}

/// Parses the optional `--since TIME`.
fn since_of<'a>(last: &'a [String]) -> Option<Option<&'a str>>
    ensures some { IfSome result
        (λ since. IsSinceOf (argument_texts last.entry.now) (option_map (λ time. time.now) since)) }
    ensures none { IfNone result ((since : Option (List ℕ))
        → ¬ IsSinceOf (argument_texts last.entry.now) since) }
{
    match last {
        [] => Some(None),
        [flag, time] => time_behind(flag.as_str(), time.as_str()),
        _ => None,
    }
}

/// Parses the flag and its timestamp.
fn time_behind<'a>(flag: &str, time: &'a str) -> Option<Option<&'a str>>
    ensures some { IfSome result
        (λ since. IsSinceOf (flag.entry.now ∷ time.entry.now ∷ [])
        (option_map (λ time. time.now) since)) }
    ensures none { IfNone result ((since : Option (List ℕ))
        → ¬ IsSinceOf (flag.entry.now ∷ time.entry.now ∷ []) since) }
{
    if flag == "--since" && is_timestamp(time) {
        Some(Some(time))
    } else {
        None
    }
}

/// Whether the text is a timestamp.
fn is_timestamp(text: &str) -> bool
    ensures { IsTrue result ↔ IsInstantText text.now }
{
    read(text).is_ok()
}
