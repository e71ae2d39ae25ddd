//! The postings of many brackets: each index key with its bracket.

ghost use Rattle.std.specs.Prelude.{◌≡◌, ◌++◌, ◌<◌, ◌^◌, map, length, IfOk, OnOk};
ghost use Rattle.hunt_index.specs.inner.Postings.{ArePostingsOf, AddsBracket};

use crate::index_key::IndexKey;
use crate::key_selection::index_keys_of;
use flow_values::NoMemory;
use pattern_types::Leaf;
use std::alloc::Global;

/// An index key, and the index of its bracket.
#[derive(Clone, Copy)]
pub(crate) struct Posting<'p> {
    pub(crate) index_key: IndexKey<'p>,
    pub(crate) bracket: u32,
}

/// The postings of some brackets, and the brackets without index keys.
#[derive(Drop)]
pub(crate) struct Postings<'p> {
    pub(crate) indexed: Vec<Posting<'p>>,
    pub(crate) unindexed: Vec<u32>,
}

/// The postings of these brackets.
pub(crate) fn postings_of<'p>(
    alloc: Global,
    brackets: &[&'p Leaf],
) -> Result<Postings<'p>, NoMemory>
    requires { length brackets.now < 2 ^ 32 }
    ensures { IfOk result (ArePostingsOf (map (λ leaf. leaf.now) brackets.now)
        (length brackets.now)) }
{
    let mut postings = Postings {
        indexed: Vec::with_capacity(alloc, brackets.len())?,
        unindexed: Vec::new(alloc),
    };
    for (bracket, leaf) in brackets.iter().enumerate() {
        postings.add(alloc, leaf, bracket as u32)?;
    }
    Ok(postings)
}

impl<'p> Postings<'p> {
    /// Adds the postings of one bracket.
    fn add(&mut self, alloc: Global, leaf: &'p Leaf, bracket: u32) -> Result<(), NoMemory>
        ensures { OnOk result (AddsBracket leaf.now bracket self.old self.new) }
    {
        match index_keys_of(alloc, leaf) {
            Ok(Some(index_keys)) => self.add_index_keys(index_keys.as_slice(), bracket),
            Ok(None) => {
                self.unindexed.push(bracket)?;
                Ok(())
            }
            Err(error) => Err(error),
        }
    }

    /// Adds a posting for each of its index keys.
    fn add_index_keys(&mut self, index_keys: &[IndexKey<'p>], bracket: u32) -> Result<(), NoMemory>
        ensures indexed { OnOk result (self.new.indexed.items ≡ self.old.indexed.items
            ++ map (λ index_key. record { index_key = index_key; bracket = bracket })
            index_keys.now) }
        ensures unindexed { self.new.unindexed ≡ self.old.unindexed }
    {
        for index_key in index_keys {
            self.indexed.push(Posting {
                index_key: *index_key,
                bracket,
            })?;
        }
        Ok(())
    }
}
