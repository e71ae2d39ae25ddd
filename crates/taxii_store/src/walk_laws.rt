//! Theorems about the definitions. Each `ensures` states one; the functions have no effect.

ghost use Rattle.std.specs.Prelude.{◌≡◌, ℕ, List, Bool, Option, All};
ghost use Rattle.std.specs.List.{Contains};
ghost use Rattle.taxii_rows.specs.declared.stored_row.StoredRow.{StoredRow};
ghost use Rattle.taxii_rows.specs.StoreState.{dates_of, AscendFrom};
ghost use Rattle.stix_ids.specs.declared.id.Id.{Id};
ghost use Rattle.taxii_routes.specs.declared.query.Query.{Query};
ghost use Rattle.taxii_store.specs.Page.{IsPage};
ghost use Rattle.taxii_store.specs.Walk.{Stop, Wanted, IsWalk, IsWanted, rows_given, last_state};

/// The page of a query is unique, and so is whether more follows.
pub fn one_page()
    ensures page { (rows : List StoredRow) (collection : ℕ) (only : Option Id) (query : Query)
        (first second : List StoredRow)
        (left more : Bool) → IsPage rows collection only query first left
        → IsPage rows collection only query second more
        → first ≡ second }
    ensures more { (rows : List StoredRow) (collection : ℕ) (only : Option Id) (query : Query)
        (first second : List StoredRow)
        (left more : Bool) → IsPage rows collection only query first left
        → IsPage rows collection only query second more
        → left ≡ more }
{}

/// A walk that follows `next` with all versions gives each row once, in the order of dates
/// (`once`). It gives only rows that were requested (`asked`). It gives every requested row that is
/// still stored at the last page (`whole`), whatever is added and deleted between the pages.
pub fn walks_skip_no_row()
    ensures once { (wanted : Wanted) (first : Stop) (others : List Stop)
        → IsWalk wanted first others
        → AscendFrom 1 (dates_of (rows_given first others)) }
    ensures asked { (wanted : Wanted) (first : Stop) (others : List Stop)
        → IsWalk wanted first others
        → All (IsWanted wanted) (rows_given first others) }
    ensures whole { (wanted : Wanted) (first : Stop) (others : List Stop)
        → IsWalk wanted first others
        → (row : StoredRow) → Contains (last_state first others).rows row → IsWanted wanted row
        → Contains (rows_given first others) row }
{}
