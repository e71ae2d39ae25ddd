ghost use Rattle.std.specs.Prelude.{◌≡◌, ◌↔◌, IsTrue, option_map};
ghost use Rattle.match_comparisons.specs.Selection.{EndsIn, IsReference, last_name};

use pattern_types::Step;

/// Whether a name ends in this suffix.
pub fn ends_in(name: &str, suffix: &str) -> bool
    ensures { IsTrue result ↔ EndsIn suffix.now name.now }
{
    name.as_bytes().ends_with(suffix.as_bytes())
}

/// Whether a property name is one of a reference, or of a list of references.
pub(crate) fn is_reference(last: Option<&str>) -> bool
    ensures { IsTrue result ↔ IsReference (option_map (λ name. name.now) last.entry) }
{
    match last {
        Some(name) => ends_in(name, "_ref") || ends_in(name, "_refs"),
        None => false,
    }
}

/// The last property name after a step.
pub fn name_after<'a>(last: Option<&'a str>, step: &'a Step) -> Option<&'a str>
    ensures { option_map (λ name. name.now) result
        ≡ last_name (option_map (λ name. name.now) last.entry) step.now }
{
    match step {
        Step::Name(name) => Some(name.as_str()),
        Step::Place(_) | Step::Each => last,
    }
}
