//! Consequences of the definitions: each contract is a theorem, and its function does nothing.

ghost use Rattle.std.specs.Prelude.{◌≡◌, ℕ, List};
ghost use Rattle.pattern_types.specs.declared.block.Block.{Block};
ghost use Rattle.pattern_types.specs.Block.{IsValidBlock};
ghost use Rattle.pattern_types.specs.BlockText.{IsBlockText};

/// A text names at most one block.
pub fn one_block()
    ensures { (text : List ℕ) (first second : Block) → IsBlockText text first
        → IsBlockText text second → first ≡ second }
{}

/// A block named by a text has a prefix no longer than an address.
pub fn valid_block()
    ensures { (text : List ℕ) (block : Block) → IsBlockText text block → IsValidBlock block }
{}
