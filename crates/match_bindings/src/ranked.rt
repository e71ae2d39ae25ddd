ghost use Rattle.std.specs.Prelude.{◌≡◌};
ghost use Rattle.match_bindings.specs.BindTree.{tree_of};
ghost use Rattle.match_bindings.specs.Flat.{rank};

use crate::Bind;

/// A binding with its sort key: its greatest number, then its flat list.
#[derive(Drop)]
pub(crate) struct Ranked {
    pub key: Vec<u64>,
    pub bind: Bind,
    ghost right: { key.items ≡ rank (tree_of bind) },
}
