//! Parses a block.
ghost use Rattle.std.specs.Prelude.{◌≡◌, ℕ, ◌≤◌, ◌↔◌, IfSome};
ghost use Rattle.std.specs.Net.Addr.{ipv4_bits, ipv6_bits};
ghost use Rattle.pattern_types.specs.Block.{IsValidBlock, masked};
ghost use Rattle.pattern_types.specs.BlockText.{IsBlockText};
ghost use Rattle.pattern_types.specs.Slash.{CutsAtSlash};

use crate::block::Block;
use crate::leading_bits::zeroed;
use crate::prefix_length::read_length;
use std::net::{IpAddr, Ipv4Addr, Ipv6Addr};

/// Parses a block: an IPv4 or IPv6 address, optionally with `/` and a prefix length in decimal
/// without leading zeros. Without a prefix length, the block is the one address. Host bits are set
/// to zero. `None` for any other text.
pub fn read_block(text: &str) -> Option<Block>
    ensures exact { (block : Block) → (result ≡ Some block) ↔ IsBlockText text.now block }
    ensures valid { IfSome result IsValidBlock }
{
    let (address, length) = cut_at_slash(text);
    match address.parse().ok()? {
        IpAddr::V4(address) => Some(v4_block(address, read_length(length, 32)?)),
        IpAddr::V6(address) => Some(v6_block(address, read_length(length, 128)?)),
    }
}

/// Splits a text at the first `/`, if any.
fn cut_at_slash(text: &str) -> (&str, Option<&str>)
    ensures { CutsAtSlash text.now result.0.now result.1 }
{
    match text.split_once('/') {
        Some((address, length)) => (address, Some(length)),
        None => (text, None),
    }
}

/// The block of an IPv4 address and a prefix length.
fn v4_block(address: Ipv4Addr, bits: u8) -> Block
    requires { bits ≤ 32 }
    ensures { result ≡ Block.V4 (masked 32 bits (ipv4_bits address)) bits }
{
    let net = zeroed(address.to_bits().into(), 32 - bits) as u32;
    Block::V4 { net, bits }
}

/// The block of an IPv6 address and a prefix length.
fn v6_block(address: Ipv6Addr, bits: u8) -> Block
    requires { bits ≤ 128 }
    ensures { result ≡ Block.V6 (masked 128 bits (ipv6_bits address)) bits }
{
    let net = zeroed(address.to_bits(), 128 - bits);
    Block::V6 { net, bits }
}
