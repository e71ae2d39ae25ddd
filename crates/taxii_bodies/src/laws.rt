//! Theorems about the definitions. Each `ensures` states one; the functions have no effect.

ghost use Rattle.std.specs.Prelude.{◌≡◌, ◌^◌, ◌<◌, ◌≤◌, ℕ, All, List, Bool};
ghost use Rattle.std.specs.List.{AllZip};
ghost use Rattle.serde_json.specs.Data.{Data};
ghost use Rattle.serde_json.specs.Written.{compact_text};
ghost use Rattle.taxii_routes.specs.Value.{IsNextCursor};
ghost use Rattle.taxii_rows.specs.declared.stored_row.StoredRow.{StoredRow};
ghost use Rattle.taxii_rows.specs.SoundRow.{IsRowOf, IsSoundRow, IsSoundState};
ghost use Rattle.taxii_rows.specs.StoreState.{StoreState};
ghost use Rattle.taxii_bodies.specs.Envelope.{next_of, next_text, envelope_text, envelope_data};
ghost use Rattle.taxii_bodies.specs.Times.{IsWritable};

use taxii_rows::LAST_DATE;

/// Each row of a sound store can be written: its identifier, date and version have texts.
pub fn sound_rows_are_writable()
    ensures row { (row : StoredRow) → IsSoundRow row → row.date ≤ LAST_DATE → IsWritable row }
    ensures state { (state : StoreState) → IsSoundState state → All IsWritable state.rows }
{}

/// An envelope is the compact text of a JSON value, though none of its objects is parsed.
pub fn envelopes_are_json()
    ensures { (rows : List StoredRow) (more : Bool) (objects : List Data)
        → AllZip IsRowOf rows objects
        → envelope_text rows more ≡ compact_text (envelope_data (next_of rows more) objects) }
{}

/// A cursor is parsed from a query as the date it was written for.
pub fn nexts_read_back()
    ensures { (date : ℕ) → date < 2 ^ 64 → IsNextCursor (next_text date) date }
{}
