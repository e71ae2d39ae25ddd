ghost use Rattle.std.specs.Prelude.{◌≡◌, ◌++◌, codes};
ghost use Rattle.match_input.specs.Texts.{text_at_path, json_text, bundle_text};
ghost use Rattle.match_input.specs.Texts.{first_object_break_text};
ghost use Rattle.match_input.specs.inner.Reason.{line_reason_text};

use stix_bundles::{BundleRefusal, ObjectBreak};
use stix_json::JsonRefusal;
use stix_objects::Rule;

/// An object of a bundle, and a rule that it breaks.
#[derive(Clone, Copy, Debug)]
pub(crate) struct Breaking {
    pub(crate) object: u32,
    pub(crate) rule: Rule,
}

/// The parts of a refusal's text: its name, the object that breaks a rule, and a path in it.
#[derive(Clone, Copy, Debug)]
pub(crate) struct Reason<'a> {
    pub(crate) name: &'static str,
    pub(crate) broken: Option<Breaking>,
    pub(crate) path: &'a str,
}

impl<'a> Reason<'a> {
    /// A name with a path.
    pub(crate) fn at(name: &'static str, path: &'a str) -> Reason<'a>
        ensures { line_reason_text result ≡ text_at_path name.now path.now }
    {
        Reason {
            name,
            broken: None,
            path,
        }
    }

    /// The text for bytes that are no JSON.
    pub(crate) fn of_json(refusal: &'a JsonRefusal) -> Reason<'a>
        ensures { line_reason_text result ≡ json_text refusal.now }
    {
        match refusal {
            JsonRefusal::NotJson => Reason::at("NotJson", ""),
            JsonRefusal::TooDeep { path } => Reason::at("TooDeep", path.as_str()),
            JsonRefusal::NotWhole { path } => Reason::at("NotWhole", path.as_str()),
            JsonRefusal::Null { path } => Reason::at("Null", path.as_str()),
            JsonRefusal::OutOfRange { path } => Reason::at("OutOfRange", path.as_str()),
            JsonRefusal::NotList => Reason::at("NotList", ""),
            JsonRefusal::NoMemory => Reason::at("out of memory", ""),
        }
    }

    /// The text for a JSON value that is no bundle.
    pub(crate) fn of_bundle(refusal: &'a BundleRefusal) -> Reason<'a>
        ensures { line_reason_text result ≡ bundle_text refusal.now }
    {
        match refusal {
            BundleRefusal::NotBundle { path } => Reason::at("NotBundle", path.as_str()),
            BundleRefusal::Breaks(breaks) => Reason::of_first(breaks.as_slice()),
            BundleRefusal::NoMemory => Reason::at("out of memory", ""),
        }
    }

    /// The text for the first of some broken rules.
    fn of_first(breaks: &'a [ObjectBreak]) -> Reason<'a>
        ensures { line_reason_text result ≡ codes "Breaks" ++ first_object_break_text breaks.now }
    {
        match breaks {
            [first, ..] => Reason {
                name: "Breaks",
                broken: Some(Breaking {
                    object: first.object,
                    rule: first.found.rule,
                }),
                path: first.found.path.as_str(),
            },
            [] => Reason::at("Breaks", ""),
        }
    }
}
