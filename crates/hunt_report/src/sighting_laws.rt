//! Theorems about the definitions of this crate. The contracts state them; the functions do nothing
//! at run time.

ghost use Rattle.std.specs.Prelude.{◌≡◌, ℕ, List, [], ◌∷◌, ◌++◌, map, codes};
ghost use Rattle.serde_json.specs.Data.{Data};
ghost use Rattle.serde_json.specs.Written.{compact_text};
ghost use Rattle.hunt_report.specs.Envelope.{opened, sightings_text, sightings_data};

/// One more text in an envelope: the first one as it is, each other one after a comma.
pub fn one_text_more()
    ensures first { (text : List ℕ) → opened (text ∷ []) ≡ opened [] ++ text }
    ensures other { (before text : List ℕ) (texts : List (List ℕ))
        → opened (before ∷ texts ++ text ∷ []) ≡ opened (before ∷ texts) ++ (codes "," ++ text) }
{}

/// The envelope of the texts of some objects is the text of the object whose `objects` they are.
pub fn envelope_is_an_object()
    ensures { (objects : List Data)
        → sightings_text (map compact_text objects) ≡ compact_text (sightings_data objects) }
{}
