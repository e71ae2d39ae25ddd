//! Consequences of the definitions: each contract is a theorem, and its function does nothing.

ghost use Rattle.std.specs.Prelude.{◌≡◌, ℕ, List, ◌++◌};
ghost use Rattle.flow_lines.specs.Lines.{AreWholeLines, raw_lines};

/// If a text ends at a line feed, its lines are the first lines of any longer text.
pub fn lines_continue()
    ensures { (bytes more : List ℕ) → AreWholeLines bytes
        → raw_lines (bytes ++ more) ≡ raw_lines bytes ++ raw_lines more }
{}
