//! Theorems about the definitions. Each `ensures` states one; the functions have no effect.

ghost use Rattle.std.specs.Prelude.{◌≡◌, ◌↔◌, ◌+◌, ◌≤◌, ℕ, ℤ, List, All};
ghost use Rattle.serde_json.specs.Data.{Data};
ghost use Rattle.taxii_rows.specs.declared.stored_row.StoredRow.{StoredRow};
ghost use Rattle.taxii_rows.specs.declared.stored_row.TheConstants.{LAST_DATE};
ghost use Rattle.taxii_rows.specs.declared.type_set.TypeSet.{TypeSet};
ghost use Rattle.taxii_rows.specs.StoreState.{StoreState, dates_of, AscendFrom};
ghost use Rattle.taxii_rows.specs.Version.{HasVersion, IsUndated};
ghost use Rattle.taxii_rows.specs.SoundRow.{IsSoundRow, IsSoundState};
ghost use Rattle.taxii_rows.specs.Keeper.{CanAppend, with_rows, without};

use stix_objects::laws::one_timestamp;

/// The version of an object is unique, and an object is undated exactly if it has none.
pub fn one_version()
    ensures only { (set : TypeSet) (object : Data) (first second : ℤ) → HasVersion set object first
        → HasVersion set object second → first ≡ second }
    ensures undated { (set : TypeSet) (object : Data)
        → IsUndated set object ↔ ((version : ℤ) → ¬ HasVersion set object version) }
{
    one_timestamp();
}

/// Rows with ascending dates after the watermark of a sound state may be appended to it.
pub fn later_rows()
    ensures { (state : StoreState) (rows : List StoredRow) (watermark : ℕ) → IsSoundState state
        → AscendFrom (state.watermark + 1) (dates_of rows) → All (λ row. row.date ≤ watermark) rows
        → CanAppend rows watermark state }
{}

/// Appending sound rows with a later watermark, and removing rows, preserve soundness.
pub fn sound_states()
    ensures added { (state : StoreState) (rows : List StoredRow) (watermark : ℕ)
        → IsSoundState state
        → CanAppend rows watermark state → All IsSoundRow rows → state.watermark ≤ watermark
        → watermark ≤ LAST_DATE
        → IsSoundState (with_rows rows watermark state) }
    ensures removed { (state : StoreState) (dates : List ℕ) → IsSoundState state
        → IsSoundState (without dates state) }
{}
