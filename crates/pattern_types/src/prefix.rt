//! The network prefix of a block, in either family.
ghost use Rattle.std.specs.Prelude.{◌^◌, ◌<◌, ◌≤◌, ◌↔◌, IsTrue};
ghost use Rattle.pattern_types.specs.Block.{IsNarrower};

use crate::leading_bits::cut_off;

/// The first `bits` bits of the number `net`.
#[derive(Clone, Copy)]
pub(crate) struct Prefix {
    pub(crate) net: u128,
    pub(crate) bits: u8,
}

impl Prefix {
    /// Whether each number of `width` bits with this prefix has the outer prefix.
    pub(crate) fn is_narrower(self, outer: Prefix, width: u8) -> bool
        requires width { width ≤ 128 }
        requires net { self.net < 2 ^ width }
        requires bits { self.bits ≤ width }
        requires outer_bits { outer.bits ≤ width }
        ensures { IsTrue result ↔ IsNarrower width self.net self.bits outer.net outer.bits }
    {
        let host_bits = width - outer.bits;
        outer.bits <= self.bits && cut_off(self.net, host_bits) == cut_off(outer.net, host_bits)
    }
}
