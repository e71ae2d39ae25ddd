/// The fraction digits that a timestamp may have (STIX 2.1, sections 2.16 and 3.2).
#[derive(Clone, Copy, Debug, PartialEq, Eq)]
pub enum Precision {
    /// Up to nine fraction digits.
    Any,
    /// Three to six fraction digits.
    Millis,
}

/// The type of one value.
#[derive(Clone, Copy)]
pub(crate) enum Single {
    Text,
    /// A kind: the name of an object type.
    Kind,
    /// The text `2.1`.
    Version,
    /// One of these texts.
    Word(&'static [&'static str]),
    /// A timestamp.
    Timestamp(Precision),
    /// An identifier.
    AnyRef,
    /// An identifier of one of these kinds.
    Ref(&'static [&'static str]),
    /// True or false.
    Boolean,
    /// An integer from the first bound to the second, inclusive.
    Integer(i64, i64),
    /// An object.
    Object,
    /// An object with one or more members, all of them texts.
    Hashes,
}

/// A requirement on the objects of a list.
#[derive(Clone, Copy)]
pub(crate) enum Part {
    /// The property is required, with this type.
    Must(&'static str, Single),
    /// The property is optional, with this type.
    May(&'static str, Single),
    /// At least one of the properties is required.
    SomeOf(&'static [&'static str]),
}

/// The type of a property.
#[derive(Clone, Copy)]
pub(crate) enum Form {
    One(Single),
    /// A list of one or more values of this type.
    List(Single),
    /// A list of one or more objects that meet these requirements.
    Records(&'static [Part]),
}

pub(crate) const TEXT: Form = Form::One(Single::Text);

pub(crate) const KIND: Form = Form::One(Single::Kind);

pub(crate) const VERSION: Form = Form::One(Single::Version);

pub(crate) const BOOLEAN: Form = Form::One(Single::Boolean);

pub(crate) const TIME: Form = Form::One(Single::Timestamp(Precision::Any));

pub(crate) const MILLIS: Form = Form::One(Single::Timestamp(Precision::Millis));

pub(crate) const REF_ANY: Form = Form::One(Single::AnyRef);

pub(crate) const REFS_ANY: Form = Form::List(Single::AnyRef);

pub(crate) const TEXTS: Form = Form::List(Single::Text);

pub(crate) const FIELDS: Form = Form::One(Single::Object);

pub(crate) const HASHES: Form = Form::One(Single::Hashes);

pub(crate) const LISTED: Form = Form::List(Single::Object);

/// External references (STIX 2.1, section 2.5).
pub(crate) const EXTERNAL: Form = Form::Records(&[
    Part::Must("source_name", Single::Text),
    Part::May("description", Single::Text),
    Part::May("url", Single::Text),
    Part::May("external_id", Single::Text),
    Part::May("hashes", Single::Hashes),
    Part::SomeOf(&["description", "url", "external_id"]),
]);

/// Kill chain phases (STIX 2.1, section 2.11).
pub(crate) const PHASES: Form = Form::Records(&[
    Part::Must("kill_chain_name", Single::Text),
    Part::Must("phase_name", Single::Text),
]);
