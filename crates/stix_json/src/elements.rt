ghost use Rattle.std.specs.Prelude.{◌≡◌, [], ◌∷◌, ◌++◌, suc, ℕ, List, None, Some, IfOk, OnOk};
ghost use Rattle.serde_json.specs.Data.{Data, array};
ghost use Rattle.serde_json.specs.View.{items_of};
ghost use Rattle.stix_json.specs.Walk.{index_part};
ghost use Rattle.stix_json.specs.inner.FirstErrors.{first_error_under, deciding_error};

use crate::Json;
use crate::checked::Checked;
use crate::first_error::FirstError;
use flow_values::{Items, NoMemory};
use std::alloc::Global;

/// The number of items for which spare capacity is kept.
const MAX_SPARE: usize = 3;

/// Collects the items of a list, until one has an error.
#[derive(Drop)]
pub(crate) struct Elements {
    pub items: Vec<Json>,
    pub first_error: Option<FirstError>,
    /// The number of items so far.
    pub len: usize,
}

impl Elements {
    ghost use Rattle.stix_json.specs.inner.Checking.{IsCheckedAs, AreElements};

    /// No items yet.
    pub fn new(alloc: Global) -> Result<Elements, NoMemory>
        ensures { IfOk result (λ elements. (levels : ℕ) → AreElements levels [] elements) }
    {
        // Lists nest, and most have one item: without this each would allocate room for four.
        let items = Vec::with_capacity(alloc, 1)?;
        Ok(Elements {
            items,
            first_error: None,
            len: 0,
        })
    }

    /// Adds the next item.
    pub fn push(&mut self, alloc: Global, checked: Checked) -> Result<(), NoMemory>
        ensures { OnOk result ((levels : ℕ) (done : List Data) («data» : Data)
            → AreElements levels done self.old → IsCheckedAs levels «data» checked
            → AreElements levels (done ++ «data» ∷ []) self.new) }
    {
        let at = self.len;
        self.len = at.checked_add(1).ok_or(NoMemory)?;
        match checked {
            Checked::Good(item) => self.add(item),
            Checked::Bad(first_error) => self.note(alloc, at, first_error),
        }
    }

    /// Adds an item, unless there was an error.
    fn add(&mut self, item: Json) -> Result<(), NoMemory>
        ensures first_error { self.new.first_error ≡ self.old.first_error }
        ensures len { self.new.len ≡ self.old.len }
        ensures items { OnOk result (self.old.first_error ≡ None
            → self.new.items.items ≡ self.old.items.items ++ item ∷ []) }
    {
        if self.first_error.is_some() {
            return Ok(());
        }
        self.items.push(item)?;
        Ok(())
    }

    /// Records the error of the item at index `at`, if it overrides the first one so far.
    fn note(&mut self, alloc: Global, at: usize, first_error: FirstError) -> Result<(), NoMemory>
        ensures first_error { OnOk result (self.new.first_error
            ≡ deciding_error self.old.first_error
            (Some (first_error_under (index_part at) first_error))) }
        ensures len { self.new.len ≡ self.old.len }
    {
        if first_error.overrides(&self.first_error) {
            self.first_error = Some(first_error.below_item(alloc, at)?);
        }
        Ok(())
    }

    /// The outcome for the whole list.
    pub fn into_checked(self, alloc: Global) -> Result<Checked, NoMemory>
        ensures { IfOk result (λ checked. (levels : ℕ) (done : List Data)
            → AreElements levels done self
            → IsCheckedAs (suc levels) (array (items_of done)) checked) }
    {
        let Elements {
            items,
            first_error,
            ..
        } = self;
        match first_error {
            Some(first_error) => Ok(Checked::Bad(first_error)),
            None => Ok(Checked::Good(Json::Array(shrunk(alloc, items)?))),
        }
    }
}

/// The items, in a smaller allocation if more than `MAX_SPARE` would stay unused. Values are kept
/// for long, and lists take most of their memory. A copy costs less than a `realloc`.
fn shrunk(alloc: Global, items: Vec<Json>) -> Result<Items<Json>, NoMemory>
    ensures { IfOk result (λ copy. copy ≡ items.items) }
{
    if items.capacity() - items.len() <= MAX_SPARE {
        return Ok(Items::from_vec(items));
    }
    let mut items = items;
    let mut copy = Vec::with_capacity(alloc, items.len())?;
    copy.append(&mut items)?;
    Ok(Items::from_vec(copy))
}
