//! Inclusion of CIDR blocks.
ghost use Rattle.std.specs.Prelude.{◌↔◌, IsTrue};
ghost use Rattle.pattern_types.specs.Block.{IsValidBlock, IsWithin};

use crate::block::Block;

/// Whether both blocks are of one family, and each address of `inner` is an address of `outer`.
pub fn within(inner: &Block, outer: &Block) -> bool
    requires inner_valid { IsValidBlock inner.now }
    requires outer_valid { IsValidBlock outer.now }
    ensures { IsTrue result ↔ IsWithin inner.now outer.now }
{
    inner.width() == outer.width() && inner.prefix().is_narrower(outer.prefix(), outer.width())
}
