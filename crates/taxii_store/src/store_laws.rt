//! Theorems about the definitions. Each `ensures` states one; the functions have no effect.

ghost use Rattle.std.specs.Prelude.{◌≡◌, ◌++◌, ℕ, List, All};
ghost use Rattle.std.specs.List.{Contains};
ghost use Rattle.taxii_rows.specs.declared.stored_row.StoredRow.{StoredRow};
ghost use Rattle.taxii_rows.specs.declared.described.Described.{Described};
ghost use Rattle.taxii_rows.specs.StoreState.{StoreState};
ghost use Rattle.taxii_store.specs.declared.add_outcome.AddOutcome.{AddOutcome};
ghost use Rattle.taxii_store.specs.Addition.{IsAddition, date_in};

/// The date in an outcome is that of a row, stored or new.
pub fn outcomes_have_rows()
    ensures { (state : StoreState) (collection moment : ℕ) (objects : List Described)
        (outcomes : List AddOutcome) (new : List StoredRow)
        → IsAddition state collection moment objects outcomes new
        → All (λ outcome. (row : StoredRow) × Contains (state.rows ++ new) row
        × (row.date ≡ date_in outcome)) outcomes }
{}
