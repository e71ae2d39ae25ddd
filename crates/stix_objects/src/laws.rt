//! Consequences of the definitions: each contract is a theorem, and its function does nothing.
//! Existence is stated weakly: as "not every candidate fails".

ghost use Rattle.std.specs.Prelude.{◌≡◌, ℕ, ℤ, List, [], Some, codes};
ghost use Rattle.serde_json.specs.Data.{Data};
ghost use Rattle.stix_ids.specs.declared.id.Id.{Id};
ghost use Rattle.stix_objects.specs.declared.form.Precision.{Precision};
ghost use Rattle.stix_objects.specs.declared.rule_break.Break.{Break};
ghost use Rattle.stix_objects.specs.Breaks.{AreBreaksOf, rows_for, type_of};
ghost use Rattle.stix_json.specs.Properties.{property_text};
ghost use Rattle.stix_objects.specs.Properties.{IsTimestampAt, HasId};
ghost use Rattle.stix_objects.specs.Sound.{MeetsAll, IsNamed, IsTimed};

use stix_ids::laws::one_identifier;
use stix_times::laws::one_instant;

/// A value has at most one list of violations.
pub fn one_list()
    ensures { (value : Data) (first second : List Break) → AreBreaksOf value first
        → AreBreaksOf value second → first ≡ second }
{}

/// Every value has a list of violations.
pub fn some_list()
    ensures { (value : Data) → ¬ ((breaks : List Break) → ¬ AreBreaksOf value breaks) }
{}

/// An object has at most one identifier.
pub fn one_id()
    ensures { (object : Data) (first second : Id) → HasId object first → HasId object second
        → first ≡ second }
{
    one_identifier();
}

/// A property is a timestamp of at most one instant.
pub fn one_timestamp()
    ensures { (precision : Precision) (name : List ℕ) (object : Data) (first second : ℤ)
        → IsTimestampAt precision name object first
        → IsTimestampAt precision name object second → first ≡ second }
{
    one_instant();
}

/// Facts about a value without violations. It meets all the rows of its type, and has a type and an
/// identifier of that type. An observed-data has its two times in order.
pub fn no_breaks()
    ensures rows { (value : Data) → AreBreaksOf value []
        → MeetsAll (rows_for (type_of value)) value }
    ensures named { (value : Data) → AreBreaksOf value [] → IsNamed value }
    ensures observed { (value : Data) → AreBreaksOf value []
        → property_text (codes "type") value ≡ Some (codes "observed-data")
        → IsTimed (codes "first_observed") (codes "last_observed") value }
{}
