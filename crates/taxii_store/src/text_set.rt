ghost use Rattle.std.specs.Prelude.{ℕ, List, ◌↔◌, IsTrue, IfOk};
ghost use Rattle.std.specs.List.{Contains};
ghost use Rattle.taxii_store.specs.inner.Asking.{IsSetOf};

use flow_values::{NoMemory, Text};
use std::alloc::Global;

/// A set of texts as a vector sorted by length, then by bytes, for lookups by binary search. Most
/// texts that are not in the set are rejected by their length alone. A B-tree would compare a whole
/// node's texts per level, and untrusted texts may be long with a long common prefix.
#[derive(Drop)]
pub(crate) struct TextSet<'a> {
    /// Each text with its length.
    texts: Vec<(usize, &'a str)>,
    /// The last text that was looked up and is missing, though a text of its length is next to its
    /// place. Consecutive rows often have the same type.
    missed: Option<&'a str>,
}

impl<'a> TextSet<'a> {
    /// The set of the texts of a list.
    pub(crate) fn of(alloc: Global, texts: &'a [Text]) -> Result<TextSet<'a>, NoMemory>
        ensures { IfOk result (IsSetOf texts.now) }
    {
        let mut row = Vec::with_capacity(alloc, texts.len())?;
        for text in texts {
            row.push((text.len(), text.as_str()))?;
        }
        row.sort()?;
        row.dedup();
        Ok(TextSet {
            texts: row,
            missed: None,
        })
    }

    /// Whether the set contains the text. O(log n); allocates nothing.
    pub(crate) fn has(&mut self, text: &'a str) -> bool
        ensures has { (texts : List (List ℕ)) → IsSetOf texts self.old
            → IsTrue result ↔ Contains texts text.now }
        ensures same { (texts : List (List ℕ)) → IsSetOf texts self.old → IsSetOf texts self.new }
    {
        if self.has_missed(text) {
            return false;
        }
        match self.texts.binary_search(&(text.len(), text)) {
            Ok(_) => true,
            Err(at) => {
                if self.is_near(at, text.len()) {
                    self.missed = Some(text);
                }
                false
            }
        }
    }

    /// Whether this is the text that was missing at the last lookup.
    fn has_missed(&self, text: &str) -> bool
        ensures { (texts : List (List ℕ)) → IsSetOf texts self.now → IsTrue result
            → ¬ (Contains texts text.now) }
    {
        match self.missed {
            Some(missed) => missed == text,
            None => false,
        }
    }

    /// Whether the text at the position, or right before it, has this length. Otherwise a missing
    /// text was rejected by its length alone, and is not worth caching.
    fn is_near(&self, at: usize, length: usize) -> bool {
        self.is_at(at, length) || (at > 0 && self.is_at(at - 1, length))
    }

    /// Whether the text at the position, if any, has this length.
    fn is_at(&self, place: usize, length: usize) -> bool {
        match self.texts.get(place) {
            Some(text) => text.0 == length,
            None => false,
        }
    }
}
