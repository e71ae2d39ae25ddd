//! Consequences of the definitions: each contract is a theorem, and its function does nothing.
//! Existence is stated weakly: as "not every candidate fails".

ghost use Rattle.std.specs.Prelude.{◌≡◌, ◌⊎◌, ℕ, ℤ, List, [], Option, None, slice_get, Some, All};
ghost use Rattle.std.specs.Prelude.{◌≤ℤ◌};
ghost use Rattle.serde_json.specs.Data.{Data};
ghost use Rattle.stix_ids.specs.declared.id.Id.{Id};
ghost use Rattle.stix_ids.specs.Identifier.{IsTextOfId};
ghost use Rattle.stix_bundles.specs.declared.refusal.BundleRefusal.{BundleRefusal};
ghost use Rattle.stix_bundles.specs.Bundle.{AreAllBreaks, IsBundle, IsBundleRefused};
ghost use Rattle.stix_bundles.specs.declared.observation.Observation.{Observation};
ghost use Rattle.stix_bundles.specs.Observations.{AreObservations, NoneEmbeds, IsFirstEmbedding};
ghost use Rattle.stix_bundles.specs.Lookup.{IsModified, IsOf, ResolvesTo};

use stix_ids::laws::one_identifier;
use stix_objects::laws::{no_breaks, one_id, one_list, one_timestamp, some_list};

/// An object has at most one `modified` time.
pub fn one_modified()
    ensures { (object : Data) (first second : Option ℤ) → IsModified object first
        → IsModified object second → first ≡ second }
{
    one_timestamp();
}

/// A text resolves to at most one position, and all texts of one identifier resolve to the same
/// one. The text of an object's own identifier resolves to some position.
pub fn one_meaning()
    ensures one { (objects : List Data) (text : List ℕ) (first second : Option ℕ)
        → ResolvesTo objects text first → ResolvesTo objects text second → first ≡ second }
    ensures same { (objects : List Data) (id : Id) (text other : List ℕ) (resolved : Option ℕ)
        → IsTextOfId text id → IsTextOfId other id → ResolvesTo objects text resolved
        → ResolvesTo objects other resolved }
    ensures own { (objects : List Data) (id : Id) (at : ℕ) (text : List ℕ) → IsOf objects id at
        → IsTextOfId text id → ¬ ResolvesTo objects text None }
{
    one_identifier();
    one_modified();
}

/// Every text resolves to a position or to none.
pub fn some_meaning()
    ensures { (objects : List Data) (text : List ℕ)
        → ¬ ((resolved : Option ℕ) → ¬ ResolvesTo objects text resolved) }
{
    one_identifier();
    one_modified();
}

/// Some first observed-data embeds its objects, or none does.
pub fn first_embedding_or_none()
    ensures { (objects : List Data)
        → NoneEmbeds objects ⊎ ((at : ℕ) × IsFirstEmbedding objects at) }
{}

/// Objects without violations have a list of observations, from any first number on.
pub fn some_observations()
    ensures { (objects : List Data) (number : ℕ) → AreAllBreaks 0 objects []
        → ¬ ((observations : List Observation) → ¬ AreObservations objects number observations) }
{
    no_breaks();
    some_meaning();
}

/// Objects have at most one list of observations from a first number on.
pub fn one_list_of_observations()
    ensures { (objects : List Data) (number : ℕ) (first second : List Observation)
        → AreObservations objects number first
        → AreObservations objects number second → first ≡ second }
{
    one_id();
    one_timestamp();
    one_meaning();
}

/// Without violations, no observation ends before it begins.
pub fn observations_are_spans()
    ensures { (objects : List Data) (number : ℕ) (observations : List Observation)
        → AreAllBreaks 0 objects []
        → AreObservations objects number observations
        → All (λ observation. observation.first ≤ℤ observation.last) observations }
{
    no_breaks();
    one_timestamp();
}

/// Reading is deterministic: a value is one bundle, or is refused for one cause.
pub fn one_reading()
    ensures bundle { (value : Data) (first second : List Data) → IsBundle value first
        → IsBundle value second → first ≡ second }
    ensures refusal { (value : Data) (first second : BundleRefusal) → IsBundleRefused value first
        → IsBundleRefused value second
        → first ≡ second }
    ensures either { (value : Data) (objects : List Data) (refusal : BundleRefusal)
        → IsBundle value objects → ¬ IsBundleRefused value refusal }
{
    one_list();
}

/// Every value is a bundle or is refused.
pub fn bundle_or_refusal()
    ensures { (value : Data) → ¬ (((objects : List Data) → ¬ IsBundle value objects)
        × ((refusal : BundleRefusal) → ¬ IsBundleRefused value refusal)) }
{
    some_list();
}
