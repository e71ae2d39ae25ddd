//! Consequences of the definitions: each contract is a theorem, and its function does nothing.

ghost use Rattle.std.specs.Prelude.{◌≡◌, ◌≢◌, ◌⊎◌, ℕ, List, Some, All};
ghost use Rattle.serde_json.specs.Data.{Data, Items};
ghost use Rattle.serde_json.specs.Find.{get, as_array};
ghost use Rattle.serde_json.specs.View.{items_of};
ghost use Rattle.stix_json.specs.DataOf.{data_of};
ghost use Rattle.stix_json.specs.Ordered.{IsOrdered, ItemsAreOrdered};
ghost use Rattle.stix_json.specs.Reading.{IsJsonOf, IsJsonRefusedAs};
ghost use Rattle.stix_json.specs.declared.refusal.JsonRefusal.{JsonRefusal};
ghost use Rattle.stix_json.specs.declared.refusal.JsonRefusal.TheVariants.{NoMemory};
ghost use Rattle.stix_json.specs.declared.value.Json.{Json};

/// The parts of an ordered value are ordered: the value of each property, and each item of a list.
pub fn ordered_parts()
    ensures property { (object value : Data) (name : List ℕ) → IsOrdered object
        → get name object ≡ Some value → IsOrdered value }
    ensures list { (value : Data) (items : Items) → IsOrdered value → as_array value ≡ Some items
        → ItemsAreOrdered items }
    ensures items { (items : List Data) → ItemsAreOrdered (items_of items) → All IsOrdered items }
{}

/// All bytes have a value or a refusal.
pub fn value_or_refusal()
    ensures { (bytes : List ℕ) → ((value : Json) × IsJsonOf bytes value)
        ⊎ ((refusal : JsonRefusal) × (refusal ≢ NoMemory) × IsJsonRefusedAs bytes refusal) }
{}

/// Reading is deterministic: bytes have one value or one refusal, and not both.
pub fn one_json()
    ensures value { (bytes : List ℕ) (first second : Json) → IsJsonOf bytes first
        → IsJsonOf bytes second → data_of first ≡ data_of second }
    ensures refusal { (bytes : List ℕ) (first second : JsonRefusal) → first ≢ NoMemory
        → second ≢ NoMemory
        → IsJsonRefusedAs bytes first → IsJsonRefusedAs bytes second → first ≡ second }
    ensures either { (bytes : List ℕ) (refusal : JsonRefusal) (value : Json) → refusal ≢ NoMemory
        → IsJsonRefusedAs bytes refusal → ¬ IsJsonOf bytes value }
{}
