//! A CIDR block.
ghost use Rattle.std.specs.Prelude.{◌≡◌, ◌^◌, ◌<◌};
ghost use Rattle.pattern_types.specs.Block.{width_of, net_of, bits_of};

use crate::prefix::Prefix;

/// A CIDR block: the addresses of one family whose first `bits` bits are those of `net`.
///
/// `bits` is at most 32 for IPv4 and at most 128 for IPv6. `read_block` sets the host bits of `net`
/// to zero.
#[derive(Clone, Copy, Debug, PartialEq, Eq)]
pub enum Block {
    V4 { net: u32, bits: u8 },
    V6 { net: u128, bits: u8 },
}

impl Block {
    /// The number of bits of an address of this family.
    pub(crate) fn width(&self) -> u8
        ensures { result ≡ width_of self.now }
    {
        match self {
            Block::V4 { .. } => 32,
            Block::V6 { .. } => 128,
        }
    }

    /// The network prefix of the block.
    pub(crate) fn prefix(&self) -> Prefix
        ensures net { result.net ≡ net_of self.now }
        ensures bits { result.bits ≡ bits_of self.now }
        ensures fits { result.net < 2 ^ width_of self.now }
    {
        match self {
            Block::V4 { net, bits } => Prefix {
                net: u128::from(*net),
                bits: *bits,
            },
            Block::V6 { net, bits } => Prefix {
                net: *net,
                bits: *bits,
            },
        }
    }
}
