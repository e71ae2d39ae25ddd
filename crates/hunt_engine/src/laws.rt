//! Theorems about the definitions of this crate. The contracts state them; the functions do nothing
//! at run time.

ghost use Rattle.std.specs.Prelude.{◌≡◌, ℕ, List};
ghost use Rattle.pattern_types.specs.declared.pattern.Pattern.{Pattern};
ghost use Rattle.pattern_types.specs.PlainPattern.{PlainPattern};
ghost use Rattle.match_bindings.specs.declared.log_entry.LogEntry.{LogEntry};
ghost use Rattle.match_stream.specs.MatcherState.{MatcherState, MatcherRepresents};
ghost use Rattle.hunt_engine.specs.EngineLog.{ObservationRow, IsLogOf};
ghost use Rattle.hunt_engine.specs.LazyMatcherState.{LazyMatcherState, Follows};

/// The log of a pattern over some rows is unique.
pub fn one_log()
    ensures { (p : PlainPattern) (rows : List ObservationRow) (log other : List LogEntry)
        → IsLogOf p rows log
        → IsLogOf p rows other → log ≡ other }
{}

/// A lazily updated pattern has a matcher state that represents its whole log. Where its own
/// matcher lags, this is the state after it passes the rows that it missed.
pub fn lazy_matchers_represent_logs()
    ensures { (p : Pattern) (retained_limit : ℕ) (log : List LogEntry)
        (lazy_matcher : LazyMatcherState) → Follows p retained_limit log lazy_matcher
        → (matcher : MatcherState) × (matcher.pattern ≡ p)
        × (matcher.retained_limit ≡ retained_limit) × MatcherRepresents matcher log }
{}
