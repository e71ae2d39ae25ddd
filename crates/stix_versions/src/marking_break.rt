ghost use Rattle.std.specs.Prelude.{◌≡◌};
ghost use Rattle.stix_versions.specs.Names.{marking_rule_name};

/// The rules of a granular marking (STIX 2.1, section 7.2.3), by how they are broken.
#[derive(Clone, Copy, Debug, PartialEq, Eq)]
pub enum MarkingRule {
    /// It has both of `marking_ref` and `lang`, or none.
    MarkingOrLang,
    /// `marking_ref` isn't the identifier of a marking-definition.
    BadMarkingRef,
    /// `selectors` isn't a list of one or more selectors.
    BadSelector,
    /// A selector selects nothing in the object.
    SelectorMissing,
}

impl MarkingRule {
    /// The rule's name, as it is printed.
    pub fn name(self) -> &'static str
        ensures { result.now ≡ marking_rule_name self }
    {
        match self {
            MarkingRule::MarkingOrLang => "MarkingOrLang",
            MarkingRule::BadMarkingRef => "BadMarkingRef",
            MarkingRule::BadSelector => "BadSelector",
            MarkingRule::SelectorMissing => "SelectorMissing",
        }
    }
}

/// A violation by a granular marking: the position of the object in its bundle, and of the marking
/// in the object, both counted from 0.
#[derive(Clone, Copy, Debug, PartialEq, Eq)]
pub struct MarkingBreak {
    pub object: u32,
    pub marking: u64,
    pub rule: MarkingRule,
}
