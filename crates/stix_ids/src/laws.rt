//! Consequences of the definitions: each contract is a theorem, and its function does nothing.

ghost use Rattle.std.specs.Prelude.{◌≡◌, ℕ, List};
ghost use Rattle.stix_ids.specs.declared.id.Id.{Id};
ghost use Rattle.stix_ids.specs.Identifier.{IsTextOfId, IsCanonicalIdText};
ghost use Rattle.stix_ids.specs.Uuid.{IsUuidOf};

/// A text is the UUID of at most one number.
pub fn one_uuid()
    ensures { (text : List ℕ) (first second : ℕ) → IsUuidOf text first → IsUuidOf text second
        → first ≡ second }
{}

/// A text names at most one identifier.
pub fn one_identifier()
    ensures { (text : List ℕ) (first second : Id) → IsTextOfId text first → IsTextOfId text second
        → first ≡ second }
{}

/// An identifier has at most one canonical text.
pub fn one_canonical_text()
    ensures { (id : Id) (first second : List ℕ) → IsCanonicalIdText first id
        → IsCanonicalIdText second id → first ≡ second }
{}

/// The canonical text of an identifier reads as that identifier.
pub fn written_reads_back()
    ensures { (id : Id) (text : List ℕ) → IsCanonicalIdText text id → IsTextOfId text id }
{}
