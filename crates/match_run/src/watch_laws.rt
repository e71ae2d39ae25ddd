//! Theorems about the definitions of this crate. The contracts state them; the functions do nothing
//! at run time.

ghost use Rattle.std.specs.Prelude.{◌≡◌, ℕ, ◌+◌, ℤ, List, [], ◌++◌, Option, Some, slice_get};
ghost use Rattle.flow_edges.specs.Flow.{WritesPrefix};
ghost use Rattle.stix_bundles.specs.declared.observation.Observation.{Observation};
ghost use Rattle.match_input.specs.declared.mode.Mode.TheVariants.{Lines};
ghost use Rattle.match_input.specs.Reading.{BundleOf};
ghost use Rattle.match_input.specs.Ahead.{InputReaderState, reader_start};
ghost use Rattle.match_run.specs.Matching.{HasPrefix};
ghost use Rattle.match_run.specs.Buffered.{IsBuffered};
ghost use Rattle.match_run.specs.Reading.{HasRead, MayFollow};

/// A new reader has read no bundles of any input.
pub fn begins_with_none()
    ensures { (first began : Option (List ℕ)) → HasRead first (reader_start Lines) first began [] }
{}

/// The bundles read of an input are a prefix of its reading.
pub fn read_bundles_come_first()
    ensures { (first left began : Option (List ℕ)) (reader : InputReaderState)
        (bundles : List BundleOf)
        → HasRead first reader left began bundles
        → HasPrefix Lines first bundles }
{}

/// Observations that may follow have the next numbers.
pub fn numbers_follow()
    ensures { (last : Option ℤ) (next k : ℕ) (observations : List Observation)
        (observation : Observation) → MayFollow last next observations
        → slice_get observations k ≡ Some observation → observation.number ≡ next + k }
{}

/// Of a buffered text a prefix is written; with an empty buffer the whole text is.
pub fn parts_are_buffered()
    ensures none { (written : Option (List ℕ)) → IsBuffered [] [] written written }
    ensures prefix { (text pending more : List ℕ) (before now : Option (List ℕ))
        → IsBuffered text pending before now
        → WritesPrefix (text ++ more) before now }
{}
