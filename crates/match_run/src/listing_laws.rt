//! Theorems about the definitions of this crate. The contracts state them; the functions do nothing
//! at run time.

ghost use Rattle.std.specs.Prelude.{◌≡◌, ℕ, List};
ghost use Rattle.pattern_types.specs.declared.pattern.Pattern.{Pattern};
ghost use Rattle.pattern_types.specs.PlainPattern.{PlainPattern};
ghost use Rattle.match_bindings.specs.declared.log_entry.LogEntry.{LogEntry};
ghost use Rattle.match_input.specs.declared.mode.Mode.{Mode};
ghost use Rattle.match_input.specs.Reading.{BundleOf};
ghost use Rattle.match_run.specs.Entries.{AreEntries};
ghost use Rattle.match_run.specs.Output.{IsOutputOf};

use match_bindings::laws::one_listing;
use match_input::laws::one_reading;

/// The log of an input for a pattern is unique.
pub fn one_log()
    ensures { (p : PlainPattern) (bundles : List BundleOf) (log other : List LogEntry)
        → AreEntries p bundles log → AreEntries p bundles other → log ≡ other }
{}

/// The output of an input for a pattern is unique: what is written is a function of the bytes.
pub fn one_output()
    ensures { (mode : Mode) (p : Pattern) (bytes text other : List ℕ)
        → IsOutputOf mode p bytes text → IsOutputOf mode p bytes other → text ≡ other }
{
    one_log();
    one_reading();
    one_listing();
}
