//! CIDR blocks, for `ISSUBSET` and `ISSUPERSET` (STIX 2.1, section 9.6.1).

ghost use Rattle.std.specs.Prelude.{◌≡◌, ◌↔◌, Some, IfSome, IsTrue};
ghost use Rattle.pattern_types.specs.Block.{IsValidBlock, IsWithin};
ghost use Rattle.pattern_types.specs.declared.block.Block.{Block};
ghost use Rattle.stix_json.specs.DataOf.{data_of};
ghost use Rattle.match_comparisons.specs.Tests.{IsBlockOf};

use pattern_types::{Block, read_block, within};
use stix_json::{Json, text_of};

/// The block that a value spells, if it does.
fn block_of(value: &Json) -> Option<Block>
    ensures exact { (block : Block) → (result ≡ Some block) ↔ IsBlockOf (data_of value.now) block }
    ensures valid { IfSome result IsValidBlock }
{
    match text_of(value) {
        Some(text) => read_block(text),
        None => None,
    }
}

/// Whether a value spells a block that lies in `outer`.
pub(crate) fn lies_in(value: &Json, outer: &Block) -> bool
    requires { IsValidBlock outer.now }
    ensures { IsTrue result ↔ ((block : Block) × IsBlockOf (data_of value.now) block
        × IsWithin block outer.now) }
{
    match block_of(value) {
        Some(block) => within(&block, outer),
        None => false,
    }
}

/// Whether a value spells a block in which `inner` lies.
pub(crate) fn holds_block(value: &Json, inner: &Block) -> bool
    requires { IsValidBlock inner.now }
    ensures { IsTrue result ↔ ((block : Block) × IsBlockOf (data_of value.now) block
        × IsWithin inner.now block) }
{
    match block_of(value) {
        Some(block) => within(inner, &block),
        None => false,
    }
}
