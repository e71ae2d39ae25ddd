//! Theorems about the definitions of this crate. The contracts state them; the functions do nothing
//! at run time.

ghost use Rattle.std.specs.Prelude.{◌≤◌, ◌↔◌, ◌++◌, ℕ, List, length};
ghost use Rattle.match_bindings.specs.declared.log_entry.LogEntry.{LogEntry};
ghost use Rattle.alert_window.specs.Alert.{IsAlert};

/// Every alert is a row of the log.
pub fn alerts_are_rows()
    ensures { (n x number : ℕ) (log : List LogEntry) → IsAlert n x log number
        → (1 ≤ number) × (number ≤ length log) }
{}

/// Later rows don't change whether a row is an alert.
pub fn alerts_persist()
    ensures { (n x number : ℕ) (log more : List LogEntry) → number ≤ length log
        → IsAlert n x (log ++ more) number ↔ IsAlert n x log number }
{}
