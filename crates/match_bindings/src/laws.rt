//! Theorems about the definitions of this crate. The contracts state them; the functions do nothing
//! at run time.

ghost use Rattle.std.specs.Prelude.{◌≡◌, ◌≤◌, ◌<◌, ◌↔◌, ◌∷◌, ◌++◌, true, List};
ghost use Rattle.std.specs.List.Sorted.{IsSortedBy};
ghost use Rattle.match_bindings.specs.declared.log_entry.LogEntry.{LogEntry};
ghost use Rattle.match_bindings.specs.NumberedPattern.{NumberedPattern};
ghost use Rattle.match_bindings.specs.BindTree.{BindTree};
ghost use Rattle.match_bindings.specs.Log.{Observed, observed_in};
ghost use Rattle.match_bindings.specs.Binding.{IsBinding};
ghost use Rattle.match_bindings.specs.Test.{is_binding};
ghost use Rattle.match_bindings.specs.Once.{bit, count, Exactly};
ghost use Rattle.match_bindings.specs.Flat.{flat, comes_before, Ascends};
ghost use Rattle.match_bindings.specs.Listing.{IsListing};

/// The test `is_binding` decides the relation `IsBinding`.
pub fn test_is_the_rule()
    ensures { (o : Observed) (p : NumberedPattern) (x : BindTree) → (is_binding o p x ≡ true)
        ↔ IsBinding o p x }
{}

/// A listing has what passes the test, each once, in order.
pub fn listing_is_by_the_test()
    ensures { (o : Observed) (p : NumberedPattern) (xs : List BindTree) → IsListing o p xs
        ↔ (Exactly (is_binding o p) xs × Ascends xs) }
{}

/// The listing of a log is unique.
pub fn one_listing()
    ensures { (o : Observed) (p : NumberedPattern) (xs ys : List BindTree) → IsListing o p xs
        → IsListing o p ys → xs ≡ ys }
{}

/// Different bindings of a pattern have different flat lists.
pub fn flat_lists_are_unique()
    ensures { (o : Observed) (p : NumberedPattern) (x y : BindTree) → IsBinding o p x
        → IsBinding o p y → flat x ≡ flat y → x ≡ y }
{}

/// A binding over a log is one over every longer log.
pub fn bindings_persist()
    ensures { (log more : List LogEntry) (p : NumberedPattern) (x : BindTree)
        → IsBinding (observed_in log) p x
        → IsBinding (observed_in (log ++ more)) p x }
{}

/// A sorted list of distinct bindings of one pattern is strictly ascending.
pub fn sorted_bindings_ascend()
    ensures { (o : Observed) (p : NumberedPattern) (xs : List BindTree)
        → ((x : BindTree) → count x xs ≤ bit (is_binding o p x))
        → IsSortedBy comes_before xs → Ascends xs }
{}

/// Every log has a listing.
pub fn listings_exist()
    ensures { (log : List LogEntry) (p : NumberedPattern)
        → (xs : List BindTree) × IsListing (observed_in log) p xs }
{}

/// In an ascending list each tree comes before all later ones.
pub fn ascending_lists_are_ordered()
    ensures { (x : BindTree) (xs : List BindTree) → Ascends (x ∷ xs) → (y : BindTree)
        → 0 < count y xs → comes_before x y ≡ true }
{}
