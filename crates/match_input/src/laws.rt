//! Theorems about the definitions of this crate. The contracts state them; the functions do nothing
//! at run time. Existence is stated as "not none".

ghost use Rattle.std.specs.Prelude.{◌≡◌, ℕ, ◌+◌, ℤ, List, ◌∷◌, ◌++◌, length, Option};
ghost use Rattle.serde_json.specs.Data.{Data};
ghost use Rattle.flow_lines.specs.Lines.{LineStream, line_then, AreWholeLines};
ghost use Rattle.stix_bundles.specs.declared.observation.Observation.{Observation};
ghost use Rattle.match_input.specs.declared.mode.Mode.{Mode};
ghost use Rattle.match_input.specs.declared.mode.Mode.TheVariants.{Lines};
ghost use Rattle.match_input.specs.declared.rule.InputRule.{InputRule};
ghost use Rattle.match_input.specs.Line.{IsBundleLine, last_after};
ghost use Rattle.match_input.specs.Reading.{BundleOf, InputEnd, Whole, Refused, ReadsInputLines};
ghost use Rattle.match_input.specs.Reading.{Reading};

use flow_lines::laws::lines_continue;
use stix_bundles::laws::{
    bundle_or_refusal, first_embedding_or_none, one_list_of_observations,
    one_reading as one_bundle, some_observations,
};
use stix_json::laws::{one_json, value_or_refusal};

/// Every input has a reading.
pub fn some_reading()
    ensures { (mode : Mode) (bytes : List ℕ)
        → ¬ ((bundles : List BundleOf) (end : InputEnd) → ¬ Reading mode bytes bundles end) }
{
    value_or_refusal();
    bundle_or_refusal();
    first_embedding_or_none();
    some_observations();
}

/// The reading of an input is unique: its bytes have one list of bundles with their observations,
/// and one end. So a line is refused exactly where it is reported, for one cause.
pub fn one_reading()
    ensures { (mode : Mode) (bytes : List ℕ) (bundles others : List BundleOf) (end other : InputEnd)
        → Reading mode bytes bundles end → Reading mode bytes others other
        → (bundles ≡ others) × (end ≡ other) }
{
    one_json();
    one_bundle();
    one_list_of_observations();
}

/// Where the next line is a bundle, the input is read as this bundle followed by the reading of the
/// rest.
pub fn continues()
    ensures { (last : Option ℤ) (next number : ℕ) (bytes : List ℕ) (later : LineStream)
        (objects : List Data) (observations : List Observation)
        (all : List BundleOf) (end : InputEnd) → IsBundleLine last next bytes objects observations
        → ReadsInputLines last next (line_then number bytes later) all end
        → (rest : List BundleOf) × (all
        ≡ record { line = number; objects = objects; observations = observations } ∷ rest)
        × ReadsInputLines (last_after last observations)
        (next + length observations) later rest end }
{
    one_json();
    one_bundle();
    one_list_of_observations();
}

/// The reading of a prefix that ends at a line feed is a prefix of the reading of the whole. Its
/// bundles come first, and its refused line, if any, is the refused line of the whole.
pub fn readings_continue()
    ensures whole { (bytes more : List ℕ) (bundles all : List BundleOf) (end : InputEnd)
        → AreWholeLines bytes → Reading Lines bytes bundles Whole
        → Reading Lines (bytes ++ more) all end → (rest : List BundleOf) × (all ≡ bundles ++ rest) }
    ensures refused { (bytes more : List ℕ) (bundles : List BundleOf) (line : ℕ) (why : InputRule)
        → AreWholeLines bytes
        → Reading Lines bytes bundles (Refused line why)
        → Reading Lines (bytes ++ more) bundles (Refused line why) }
{
    lines_continue();
    continues();
}
