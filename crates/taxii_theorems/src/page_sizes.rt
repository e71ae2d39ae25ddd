//! A theorem about the size of a page. Its `ensures` states it; the function has no effect.

ghost use Rattle.std.specs.Prelude.{◌⊎◌, ◌≤◌, ℕ, Bool, List, Option, length};
ghost use Rattle.stix_ids.specs.declared.id.Id.{Id};
ghost use Rattle.taxii_bodies.specs.Envelope.{envelope_text};
ghost use Rattle.taxii_routes.specs.declared.query.Query.{Query};
ghost use Rattle.taxii_rows.specs.declared.stored_row.StoredRow.{StoredRow};
ghost use Rattle.taxii_store.specs.Page.{IsPage};

/// A page of several objects takes at most 67,108,864 bytes, the largest response that a client of
/// Belkasim accepts.
pub fn pages_are_bounded()
    ensures { (rows : List StoredRow) (collection : ℕ) (only : Option Id) (query : Query)
        (page : List StoredRow) (more : Bool)
        → IsPage rows collection only query page more
        → (length page ≤ 1) ⊎ (length (envelope_text page more) ≤ 67108864) }
{}
