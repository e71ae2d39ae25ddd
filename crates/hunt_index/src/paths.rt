//! Numbers the distinct paths of all index keys, and groups the brackets by path number and key.

ghost use Rattle.std.specs.Prelude.{◌≡◌, length, IfOk, OnOk};
ghost use Rattle.std.specs.declared.cmp.Ordering.TheVariants.{Equal};
ghost use Rattle.hunt_index.specs.inner.Paths.{AreOnePath, IsNumber, KeepsPaths, AddsPosting};
ghost use Rattle.hunt_index.specs.inner.Paths.{AreGrouped, AreAllGrouped};

use crate::index_key::IndexKey;
use crate::key::Key;
use crate::postings::Posting;
use flow_values::NoMemory;
use pattern_types::Step;
use std::alloc::Global;
use std::cmp::Ordering;

/// A look-up: the number of a path, and the key of the value there.
#[derive(Clone, Copy, PartialEq, Eq, PartialOrd, Ord)]
pub(crate) struct Lookup<'p> {
    pub(crate) path: usize,
    pub(crate) key: Key<'p>,
}

/// The numbered paths, and the entries of the posting lists.
#[derive(Drop)]
pub(crate) struct PathTable<'p> {
    /// For each path number an index key with this path.
    pub(crate) paths: Vec<IndexKey<'p>>,
    pub(crate) entries: Vec<(Lookup<'p>, u32)>,
}

/// Groups postings by path. Sorts them by path first, so that equal paths are adjacent and get one
/// number.
pub(crate) fn group_by_path<'p>(
    alloc: Global,
    mut postings: Vec<Posting<'p>>,
) -> Result<PathTable<'p>, NoMemory>
    ensures { IfOk result (AreAllGrouped postings.entry.items) }
{
    postings.sort_unstable_by(|one, other| path_order(&one.index_key, &other.index_key));
    let mut path_table = PathTable {
        paths: Vec::new(alloc),
        entries: Vec::with_capacity(alloc, postings.len())?,
    };
    path_table.add_each(postings.as_slice())?;
    Ok(path_table)
}

impl<'p> PathTable<'p> {
    /// Adds postings, in order.
    fn add_each(&mut self, postings: &[Posting<'p>]) -> Result<(), NoMemory>
        requires { AreGrouped postings.now 0 self.old }
        ensures { OnOk result (AreGrouped postings.now (length postings.now) self.new) }
    {
        for posting in postings {
            self.add(posting)?;
        }
        Ok(())
    }

    /// Adds a posting.
    fn add(&mut self, posting: &Posting<'p>) -> Result<(), NoMemory>
        ensures { OnOk result (AddsPosting posting.now self.old self.new) }
    {
        let path = self.number_of(&posting.index_key)?;
        let lookup = Lookup {
            path,
            key: posting.index_key.key,
        };
        self.entries.push((lookup, posting.bracket))?;
        Ok(())
    }

    /// The number of an index key's path: the last one, where it is the same path, or a new one.
    fn number_of(&mut self, index_key: &IndexKey<'p>) -> Result<usize, NoMemory>
        ensures entries { self.new.entries ≡ self.old.entries }
        ensures kept { KeepsPaths self.old.paths.items self.new.paths.items }
        ensures numbered { IfOk result
            (λ number. IsNumber self.new.paths.items number index_key.now) }
    {
        let count = self.paths.len();
        if count > 0 && path_order(&self.paths[count - 1], index_key) == Ordering::Equal {
            return Ok(count - 1);
        }
        self.paths.push(*index_key)?;
        Ok(count)
    }
}

/// Orders index keys by type, then by steps. Equal only for the same path.
fn path_order(one: &IndexKey<'_>, other: &IndexKey<'_>) -> Ordering
    // Only equality matters: the order itself may be any.
    ensures { result ≡ Equal → AreOnePath one.now other.now }
{
    match one.kind.cmp(other.kind) {
        Ordering::Equal => steps_order(one.steps, other.steps),
        order => order,
    }
}

/// Orders step lists lexicographically, a prefix first.
fn steps_order(one: &[Step], other: &[Step]) -> Ordering
    ensures { result ≡ Equal → one.now ≡ other.now }
{
    match (one.split_first(), other.split_first()) {
        (Some((step, steps)), Some((second, others))) => match step_order(step, second) {
            Ordering::Equal => steps_order(steps, others),
            order => order,
        },
        (Some(_), None) => Ordering::Greater,
        (None, Some(_)) => Ordering::Less,
        (None, None) => Ordering::Equal,
    }
}

/// Orders steps: names by their bytes, then list indices, then `[*]`.
fn step_order(one: &Step, other: &Step) -> Ordering
    ensures { result ≡ Equal → one.now ≡ other.now }
{
    match (one, other) {
        (Step::Name(name), Step::Name(second)) => name.as_str().cmp(second.as_str()),
        (Step::Place(at), Step::Place(second)) => at.cmp(second),
        (Step::Each, Step::Each) => Ordering::Equal,
        (Step::Name(_), Step::Place(_) | Step::Each) | (Step::Place(_), Step::Each) => {
            Ordering::Less
        }
        (Step::Place(_) | Step::Each, Step::Name(_)) | (Step::Each, Step::Place(_)) => {
            Ordering::Greater
        }
    }
}
