ghost use Rattle.std.specs.Prelude.{◌≡◌, ◌<◌, ◌^◌, map, length, IfOk};
ghost use Rattle.stix_bundles.specs.Objects.{data_in};
ghost use Rattle.pattern_types.specs.PlainLeaf.{plain_leaf};
ghost use Rattle.hunt_index.specs.Candidates.{AreCandidates};

use crate::finder::Finder;
use crate::sorting::sort_dedup;
use flow_values::{Items, NoMemory};
use pattern_types::Leaf;
use std::alloc::Global;
use std::marker::Model;
use stix_bundles::Bundle;

/// An inverted index of brackets. Contracts observe the list of brackets.
#[derive(Drop)]
pub struct Index<'p> {
    alloc: Global,
    brackets: Vec<&'p Leaf>,
    finder: Finder<'p>,
}

impl<'p> Model for Index<'p> {
    ghost use Rattle.std.specs.Prelude.{List, map};
    ghost use Rattle.std.specs.Coded.{codes, coded_list};
    ghost use Rattle.pattern_types.specs.declared.leaf.Leaf.{Leaf};
    ghost use Rattle.pattern_types.specs.contracts.leaf.Leaf as held;

    ghost Value = { List Leaf };

    ghost coded = { coded_list (Prim.hlevel (codes, held.the_row.coded)) };

    ghost view = { λ index. map (λ leaf. leaf.now) index.brackets.items };

    ghost use Rattle.hunt_index.specs.inner.Indexed.{IsFinderOf};

    ghost invariant = { λ index. IsFinderOf (map
        (λ leaf. leaf.now) index.brackets.items) index.finder };
}

impl<'p> Index<'p> {
    /// Builds the index. O(n log n) for n comparisons, and some 70 bytes for each besides the
    /// texts, which it borrows.
    pub fn new(alloc: Global, brackets: &[&'p Leaf]) -> Result<Index<'p>, NoMemory>
        requires { length brackets.now < 2 ^ 32 }
        ensures { IfOk result (λ index. index ≡ map (λ leaf. leaf.now) brackets.now) }
    {
        let finder = Finder::new(alloc, brackets)?;
        let brackets = Vec::from_slice(alloc, brackets)?;
        Ok(Index {
            alloc,
            brackets,
            finder,
        })
    }

    /// The candidates for an observation with these roots: indices of brackets, ascending, each
    /// once. All brackets that hold are among them, and most others aren't.
    ///
    /// Costs a walk for each root and each path that brackets have for its type, O(log n) for each
    /// value found, and the candidates themselves.
    pub fn candidates(&self, roots: &[u32], bundle: &Bundle) -> Result<Items<u32>, NoMemory>
        ensures { IfOk result (AreCandidates (data_in bundle.now) roots.now
            (map plain_leaf self.now)) }
    {
        let roots = Vec::from_slice(self.alloc, roots)?;
        let roots = sort_dedup(roots);
        let brackets_found = self
            .finder
            .candidates_for(self.alloc, bundle, roots.as_slice())?;
        Ok(Items::from_vec(sort_dedup(brackets_found)))
    }
}
