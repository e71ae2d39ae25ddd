//! Consequences of the definitions: each contract is a theorem, and its function does nothing.

ghost use Rattle.std.specs.Prelude.{◌≡◌};
ghost use Rattle.pattern_types.specs.declared.pattern.Pattern.{Pattern};
ghost use Rattle.pattern_types.specs.PlainPattern.{plain_pattern};
ghost use Rattle.pattern_types.specs.Leaves.{leaves};
ghost use Rattle.pattern_types.specs.Width.{brackets};

/// The number of leaves equals that of pairs of brackets, as the width limits count them.
pub fn leaves_are_brackets()
    ensures { (pattern : Pattern) → leaves pattern ≡ brackets (plain_pattern pattern) }
{}
