//! Theorems about the definitions of this crate. The contracts state them; the functions do nothing
//! at run time.

ghost use Rattle.std.specs.Prelude.{◌≡◌, ◌↔◌, ℕ, List, Option, Some, None, Contains, slice_get};
ghost use Rattle.std.specs.Borrow.{Bor};
ghost use Rattle.std.specs.Iterator.{Yields, Drains};
ghost use Rattle.serde_json.specs.Data.{Data};
ghost use Rattle.stix_json.specs.declared.value.Json.{Json};
ghost use Rattle.stix_bundles.specs.Lookup.{ResolvesTo};
ghost use Rattle.pattern_types.specs.declared.path.Path.{Path};
ghost use Rattle.match_comparisons.specs.declared.path_values.PathValues.{PathValues};
ghost use Rattle.match_comparisons.specs.Selection.{RefersTo, LeadsTo, Selects, IsSelected};
ghost use Rattle.match_comparisons.specs.Remaining.{Left, Gives, taken_data, FollowsTaken};

use stix_bundles::laws::one_meaning;

/// A path selects exactly one list of values from an object, provided that each reference names one
/// object or none.
pub fn one_selection()
    ensures one { (objects : List Data) (root : ℕ) (path : Path) (first second : List Data)
        → Selects objects root path first → Selects objects root path second → first ≡ second }
    ensures some { (objects : List Data)
        → ((text : List ℕ) → (meant : Option ℕ) × ResolvesTo objects text meant)
        → (root : ℕ) (path : Path) → (values : List Data) × Selects objects root path values }
{
    one_meaning();
}

/// The values that a path selects are those that its steps reach.
pub fn selected()
    ensures { (objects : List Data) (root : ℕ) (path : Path) (values : List Data)
        → Selects objects root path values
        → (value : Data) → Contains values value ↔ IsSelected objects root path value }
{
    one_meaning();
}

/// A name leads from a reference to what it leads to from the referenced object.
pub fn same_lead()
    ensures { (objects : List Data) (last : Option (List ℕ)) (value object : Data) (at : ℕ)
        (name : List ℕ)
        → RefersTo objects last value at → slice_get objects at ≡ Some object
        → (found : Data) → LeadsTo objects last name value found
        ↔ LeadsTo objects None name object found }
{
    one_meaning();
}

/// The values returned by `next`, followed by those left, are those left before; all of them once
/// `next` returns None.
pub fn taken_first()
    ensures before { (before after : PathValues) (taken : List (Bor Json))
        → Yields Gives before taken after
        → (values : List Data) → Left before values
        ↔ FollowsTaken (taken_data taken) (Left after) values }
    ensures whole { (before : PathValues) (taken : List (Bor Json)) → Drains Gives before taken
        → Left before (taken_data taken) }
{}
