//! Theorems about the definitions. Each `ensures` states one; the functions have no effect.

ghost use Rattle.std.specs.Prelude.{◌≡◌, [], ◌∷◌, ◌++◌, ℕ, List};
ghost use Rattle.std.specs.List.{Contains};
ghost use Rattle.stix_json.specs.declared.entry.Entry.{Entry};
ghost use Rattle.taxii_rows.specs.declared.described.Described.{Described};
ghost use Rattle.taxii_rows.specs.StoreState.{StoreState};
ghost use Rattle.taxii_client.specs.Absorbing.{Absorbed, Absorbs, IsKeptEntry};
ghost use Rattle.taxii_client.specs.Mirrored.{Mirrored};
ghost use Rattle.taxii_client.specs.Standing.{IsStored, GrowsOnce};

use stix_objects::laws::one_id;
use taxii_rows::laws::one_version;

/// A further page extends the pages absorbed before.
pub fn pages_continue()
    ensures first { (collection : ℕ) (state : StoreState) → Mirrored collection state [] state }
    ensures next { (collection : ℕ) (state before after : StoreState) (pages : List Absorbed)
        (page : Absorbed)
        → Mirrored collection state pages before → Absorbs collection page before after
        → Mirrored collection state (pages ++ page ∷ []) after }
{}

/// A page with the entries of an earlier page leaves the store unchanged (`stays`), so it can be
/// removed from the sequence (`taken_out`).
pub fn repeats_change_nothing()
    ensures stays { (collection : ℕ) (state before after : StoreState) (pages : List Absorbed)
        (page again : Absorbed)
        → Mirrored collection state pages before → Contains pages page
        → again.entries ≡ page.entries
        → Absorbs collection again before after → after ≡ before }
    ensures taken_out { (collection : ℕ) (state last : StoreState) (pages rest : List Absorbed)
        (page again : Absorbed)
        → Contains pages page → again.entries ≡ page.entries
        → Mirrored collection state (pages ++ again ∷ rest) last
        → Mirrored collection state (pages ++ rest) last }
{
    one_id();
    one_version();
}

/// The last state has a row for every valid entry of the pages (`present`), and no row that they
/// added is duplicated (`once`).
pub fn pages_are_stored_once()
    ensures present { (collection : ℕ) (state last : StoreState) (pages : List Absorbed)
        (page : Absorbed) (entry : Entry) (object : Described)
        → Mirrored collection state pages last → Contains pages page → Contains page.entries entry
        → IsKeptEntry entry object
        → IsStored collection object last.rows }
    ensures once { (collection : ℕ) (state last : StoreState) (pages : List Absorbed)
        → Mirrored collection state pages last → GrowsOnce state.rows last.rows }
{
    one_id();
    one_version();
}
