//! Theorems about the definitions of this crate. The contracts state them; the functions do nothing
//! at run time.

ghost use Rattle.std.specs.Prelude.{List, [], All, ℤ};
ghost use Rattle.serde_json.specs.Data.{Data};
ghost use Rattle.stix_ids.specs.Kind.{IsKind};
ghost use Rattle.stix_objects.specs.Breaks.{AreBreaksOf};
ghost use Rattle.pattern_types.specs.declared.pattern.Pattern.{Pattern};
ghost use Rattle.hunt_feed.specs.declared.hunted.Hunt.{Hunt};
ghost use Rattle.hunt_feed.specs.Indicators.{IsHuntOf};
ghost use Rattle.hunt_engine.specs.declared.found.Hit.{Hit};
ghost use Rattle.hunt_engine.specs.EngineLog.{ObservationRow};
ghost use Rattle.hunt_report.specs.Hits.{AnswerRows, AreHits};
ghost use Rattle.hunt_report.specs.Hunting.{IsHuntable};

use hunt_engine::laws::one_log;
use match_stream::laws::answers_are_the_listing;
use pattern_types::leaf_laws::leaves_are_brackets;
use stix_objects::laws::{no_breaks, one_id};
use stix_times::laws::millis_are_whole;

/// The answers to the rows of a log, concatenated, are its hits.
pub fn answers_are_the_hits()
    ensures { (patterns : List Pattern) (rows : List ObservationRow) (hits : List Hit)
        → AnswerRows patterns [] rows hits → AreHits patterns rows hits }
{
    answers_are_the_listing();
    one_log();
}

/// Each hunted indicator satisfies what the hunter and its sightings require.
pub fn hunted_are_huntable()
    ensures { (objects : List Data) (moment : ℤ) (hunt : Hunt)
        → All (λ object. AreBreaksOf object []) objects
        → IsHuntOf objects moment hunt → All IsHuntable hunt.hunted }
{
    no_breaks();
    one_id();
    millis_are_whole();
    leaves_are_brackets();
}

/// Each skipped indicator has a line: its identifier is valid.
pub fn skipped_have_lines()
    ensures { (objects : List Data) (moment : ℤ) (hunt : Hunt)
        → All (λ object. AreBreaksOf object []) objects
        → IsHuntOf objects moment hunt → All (λ s. IsKind s.id.kind) hunt.skipped }
{
    no_breaks();
    one_id();
}
