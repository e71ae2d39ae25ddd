//! Theorems about the definitions. Each `ensures` states one; the functions have no effect.

ghost use Rattle.std.specs.Prelude.{◌≡◌, ℕ, List};
ghost use Rattle.command_line.specs.CommandLines.{PlainRequest, IsCommandLine};

/// The request of a command line is unique.
pub fn one_request()
    ensures { (arguments : List (List ℕ)) (first second : PlainRequest)
        → IsCommandLine arguments first → IsCommandLine arguments second → first ≡ second }
{}
