ghost use Rattle.std.specs.Prelude.{◌≡◌, ◌-◌, ◌≤◌, [], length};

use match_pruning::Window;
use match_pruning::store::Store;
use std::alloc::Global;

/// The stores of a `REPEATS n`: index j - 1 holds sets of j parts. A store is created with its
/// first set, so levels beyond the list are empty.
#[derive(Drop)]
pub(crate) struct Levels {
    pub window: Window,
    pub count: u32,
    pub stores: Vec<Store>,
    ghost few: { length stores.items ≤ count - 1 },
}

impl Levels {
    /// The levels of a `REPEATS count`, all empty. Takes no memory.
    pub fn new(alloc: Global, count: u32, window: Window) -> Levels
        ensures stores { result.stores.items ≡ [] }
        ensures count { result.count ≡ count }
        ensures window { result.window ≡ window }
    {
        Levels {
            window,
            count,
            stores: Vec::new(alloc),
        }
    }
}
