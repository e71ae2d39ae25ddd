//! The arguments `HOST PORT ROOT COLLECTION`.

ghost use Rattle.std.specs.Prelude.{◌≡◌, ℕ, List, Option, IfNone, IfOk, IfSome, option_map};
ghost use Rattle.command_line.specs.CommandLines.{IsNumberIn};
ghost use Rattle.command_line.specs.declared.numbers.TheConstants.{MAX_PORT};
ghost use Rattle.taxii_client.specs.declared.target.Target.{Target};
ghost use Rattle.command_peer.specs.Arguments.{IsPeerTarget, peer_target};

use crate::forms::{is_host, is_root};
use command_line::{MAX_PORT, number_in};
use flow_values::{NoMemory, Text};
use std::alloc::Global;
use stix_ids::read_uuid;
use taxii_client::Target;

/// A collection of a peer, borrowed from the arguments.
#[derive(Clone, Copy)]
pub struct PeerArguments<'a> {
    /// The peer's host name or address.
    pub host: &'a str,
    pub port: u16,
    /// The path of the API root, with a slash at both ends.
    pub root: &'a str,
    /// The collection's UUID as a number.
    pub collection: u128,
}

impl<'a> PeerArguments<'a> {
    /// Parses the four arguments; `None` if one is malformed.
    pub fn read(
        host: &'a str,
        port: &'a str,
        root: &'a str,
        collection: &'a str,
    ) -> Option<PeerArguments<'a>>
        ensures some { IfSome result (λ peer. (limit : ℕ) (since : Option (List ℕ))
            → IsPeerTarget host.entry.now port.entry.now root.entry.now collection.entry.now
            (peer_target peer limit since)) }
        ensures none { IfNone result ((target : Target)
            → ¬ IsPeerTarget host.entry.now port.entry.now root.entry.now collection.entry.now
            target) }
    {
        if !is_host(host) || !is_root(root) {
            return None;
        }
        let port = port_of(port)?;
        let collection = read_uuid(collection)?;
        Some(PeerArguments {
            host,
            port,
            root,
            collection,
        })
    }

    /// The target of a pull: this collection with `limit` objects per page, and only objects added
    /// after `since`, if given.
    pub fn target(&self, alloc: Global, limit: u64, since: Option<&str>) -> Result<Target, NoMemory>
        ensures { IfOk result
            (λ target. target
            ≡ peer_target self.now limit (option_map (λ time. time.now) since.entry)) }
    {
        Ok(Target {
            host: Text::from_text(alloc, self.host)?,
            port: self.port,
            root: Text::from_text(alloc, self.root)?,
            collection: self.collection,
            limit,
            since: owned(alloc, since)?,
        })
    }
}

/// An owned copy of the text, if any.
fn owned(alloc: Global, text: Option<&str>) -> Result<Option<Text>, NoMemory>
    ensures { IfOk result (λ own. own ≡ option_map (λ text. text.now) text.entry) }
{
    match text {
        Some(text) => Ok(Some(Text::from_text(alloc, text)?)),
        None => Ok(None),
    }
}

/// Parses a port.
fn port_of(text: &str) -> Option<u16>
    ensures some { IfSome result (IsNumberIn 1 MAX_PORT text.now) }
    ensures none { IfNone result ((port : ℕ) → ¬ IsNumberIn 1 MAX_PORT text.now port) }
{
    let number = number_to(text, MAX_PORT)?;
    Some(number as u16)
}

/// Parses a number from 1 to `most`.
pub fn number_to(text: &str, most: u32) -> Option<u32>
    ensures some { IfSome result (IsNumberIn 1 most text.now) }
    ensures none { IfNone result ((number : ℕ) → ¬ IsNumberIn 1 most text.now number) }
{
    number_in(text, 1, most)
}
