//! The syntax of a host and of an API root.

ghost use Rattle.std.specs.Prelude.{◌≡◌, ◌↔◌, ◌++◌, List, ℕ, All, IsTrue, codes};
ghost use Rattle.command_peer.specs.Arguments.{IsHost, IsHostByte, IsApiRoot, IsRootByte};

use flow_links::MAX_HOST;

/// The maximum length of a root in bytes.
pub const MAX_ROOT: usize = 256;

/// Whether the text is a host name or address.
pub(crate) fn is_host(text: &str) -> bool
    ensures { IsTrue result ↔ IsHost text.now }
{
    !text.is_empty()
        && text.len() <= MAX_HOST
        && text.as_bytes().iter().all(|byte| is_host_byte(*byte))
}

/// Whether the text is the path of an API root.
pub(crate) fn is_root(text: &str) -> bool
    ensures { IsTrue result ↔ IsApiRoot text.now }
{
    begins_with_slash(text) && ends_in_slash(text) && text.len() <= MAX_ROOT && are_root_bytes(text)
}

fn is_host_byte(byte: u8) -> bool
    ensures { IsTrue result ↔ IsHostByte byte }
{
    byte.is_ascii_alphanumeric() || byte == b'.' || byte == b'-'
}

fn is_root_byte(byte: u8) -> bool
    ensures { IsTrue result ↔ IsRootByte byte }
{
    byte.is_ascii_alphanumeric() || matches!(byte, b'-' | b'_' | b'.' | b'/')
}

fn are_root_bytes(text: &str) -> bool
    ensures { IsTrue result ↔ All IsRootByte text.now }
{
    text.as_bytes().iter().all(|byte| is_root_byte(*byte))
}

fn begins_with_slash(text: &str) -> bool
    ensures { IsTrue result ↔ ((rest : List ℕ) × (text.now ≡ codes "/" ++ rest)) }
{
    text.starts_with("/")
}

fn ends_in_slash(text: &str) -> bool
    ensures { IsTrue result ↔ ((front : List ℕ) × (text.now ≡ front ++ codes "/")) }
{
    text.ends_with("/")
}
