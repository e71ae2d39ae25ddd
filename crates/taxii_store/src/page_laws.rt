//! Theorems about the definition of a page. Each `ensures` states one; the functions have no
//! effect.

ghost use Rattle.std.specs.Prelude.{ℕ, List, Bool, Option, All};
ghost use Rattle.std.specs.List.{Contains};
ghost use Rattle.taxii_rows.specs.declared.stored_row.StoredRow.{StoredRow};
ghost use Rattle.taxii_rows.specs.StoreState.{StoreState};
ghost use Rattle.taxii_rows.specs.SoundRow.{IsSoundRow, IsSoundState};
ghost use Rattle.stix_ids.specs.declared.id.Id.{Id};
ghost use Rattle.taxii_routes.specs.declared.query.Query.{Query};
ghost use Rattle.taxii_store.specs.Page.{IsPage};

/// The rows of a page are rows of the store, and sound if those are.
pub fn rows_of_pages()
    ensures stored { (rows : List StoredRow) (collection : ℕ) (only : Option Id) (query : Query)
        (page : List StoredRow) (more : Bool)
        → IsPage rows collection only query page more → All (Contains rows) page }
    ensures sound { (state : StoreState) (collection : ℕ) (only : Option Id) (query : Query)
        (page : List StoredRow) (more : Bool)
        → IsSoundState state → IsPage state.rows collection only query page more
        → All IsSoundRow page }
{}
