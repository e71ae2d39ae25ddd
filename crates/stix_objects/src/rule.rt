ghost use Rattle.std.specs.Prelude.{◌≡◌};
ghost use Rattle.stix_objects.specs.RuleName.{rule_name};

use std::fmt;

/// A rule of STIX 2.1 for objects, by how it is broken.
#[derive(Clone, Copy, Debug, PartialEq, Eq)]
pub enum Rule {
    /// The value isn't an object.
    NotObject,
    /// A required property is absent.
    Missing,
    /// The value has another JSON type than its property requires.
    WrongKind,
    /// The text isn't an identifier, or not one of the object's own type.
    BadId,
    /// The text isn't a timestamp.
    BadTime,
    /// The timestamp doesn't have three to six fraction digits.
    NotMillis,
    /// The number is outside its range.
    OutOfRange,
    /// The list or the object of hashes is empty.
    EmptyList,
    /// The second of two timestamps is too early.
    BadOrder,
    /// The identifier is of a kind that isn't allowed here.
    BadReference,
    /// None of several properties is present, of which one is required.
    NeedsOneOf,
    /// The property isn't allowed beside another one.
    Excludes,
    /// The text isn't one of those allowed here.
    BadWord,
    /// `spec_version` isn't `2.1`.
    BadSpec,
}

impl Rule {
    /// The rule's name, as it is printed.
    pub fn name(self) -> &'static str
        ensures { result.now ≡ rule_name self }
    {
        match self {
            Rule::NotObject => "NotObject",
            Rule::Missing => "Missing",
            Rule::WrongKind => "WrongKind",
            Rule::BadId => "BadId",
            Rule::BadTime => "BadTime",
            Rule::NotMillis => "NotMillis",
            Rule::OutOfRange => "OutOfRange",
            Rule::EmptyList => "EmptyList",
            Rule::BadOrder => "BadOrder",
            Rule::BadReference => "BadReference",
            Rule::NeedsOneOf => "NeedsOneOf",
            Rule::Excludes => "Excludes",
            Rule::BadWord => "BadWord",
            Rule::BadSpec => "BadSpec",
        }
    }
}

impl fmt::Display for Rule {
    ghost use Rattle.std.specs.Prelude.{Some};
    ghost use Rattle.stix_objects.specs.RuleName.{rule_name};

    ghost output = { λ rule. Some (rule_name rule) };

    fn fmt<W: fmt::Write>(&self, f: &mut fmt::Formatter<W>) -> fmt::Result {
        write!(f, "{}", self.name())
    }
}
