//! The common rows, in order (STIX 2.1, sections 3.2 and 6).

ghost use Rattle.std.specs.Prelude.{◌≡◌, map};
ghost use Rattle.stix_objects.specs.CommonRows.{common_rows as shared_rows};
ghost use Rattle.stix_objects.specs.inner.Views.{common_view};

use crate::form::{
    BOOLEAN, EXTERNAL, FIELDS, Form, KIND, LISTED, MILLIS, Precision, Single, TEXT, TEXTS, VERSION,
};
use crate::groups::Groups;
use crate::row::{CommonRow, Row};

const ALL: Groups = Groups {
    domain: true,
    marking: true,
    observable: true,
    other: true,
};

const DOMAIN: Groups = Groups {
    domain: true,
    marking: false,
    observable: false,
    other: false,
};

const DOMAIN_AND_MARKING: Groups = Groups {
    domain: true,
    marking: true,
    observable: false,
    other: false,
};

const DOMAIN_AND_OTHER: Groups = Groups {
    domain: true,
    marking: false,
    observable: false,
    other: true,
};

const ALL_BUT_OBSERVABLE: Groups = Groups {
    domain: true,
    marking: true,
    observable: false,
    other: true,
};

const OBSERVABLE: Groups = Groups {
    domain: false,
    marking: false,
    observable: true,
    other: false,
};

const OBSERVABLE_AND_OTHER: Groups = Groups {
    domain: false,
    marking: false,
    observable: true,
    other: true,
};

const OTHER: Groups = Groups {
    domain: false,
    marking: false,
    observable: false,
    other: true,
};

const COMMON_ROWS: &[CommonRow] = &[
    CommonRow::For(ALL, Row::Required("type", KIND)),
    CommonRow::For(DOMAIN_AND_MARKING, Row::Required("spec_version", VERSION)),
    CommonRow::For(OBSERVABLE_AND_OTHER, Row::Optional("spec_version", VERSION)),
    CommonRow::For(ALL, Row::OwnId),
    CommonRow::For(
        ALL_BUT_OBSERVABLE,
        Row::Optional("created_by_ref", Form::One(Single::Ref(&["identity"]))),
    ),
    CommonRow::For(DOMAIN_AND_MARKING, Row::Required("created", MILLIS)),
    CommonRow::For(OTHER, Row::Optional("created", MILLIS)),
    CommonRow::For(DOMAIN, Row::Required("modified", MILLIS)),
    CommonRow::For(OTHER, Row::Optional("modified", MILLIS)),
    CommonRow::For(
        DOMAIN_AND_OTHER,
        Row::Order(Precision::Millis, "created", "modified"),
    ),
    CommonRow::For(DOMAIN_AND_OTHER, Row::Optional("revoked", BOOLEAN)),
    CommonRow::For(DOMAIN_AND_OTHER, Row::Optional("labels", TEXTS)),
    CommonRow::For(
        DOMAIN_AND_OTHER,
        Row::Optional("confidence", Form::One(Single::Integer(0, 100))),
    ),
    CommonRow::For(DOMAIN_AND_OTHER, Row::Optional("lang", TEXT)),
    CommonRow::For(
        ALL_BUT_OBSERVABLE,
        Row::Optional("external_references", EXTERNAL),
    ),
    CommonRow::For(
        ALL,
        Row::Optional(
            "object_marking_refs",
            Form::List(Single::Ref(&["marking-definition"])),
        ),
    ),
    CommonRow::For(ALL, Row::Optional("granular_markings", LISTED)),
    CommonRow::For(ALL, Row::Optional("extensions", FIELDS)),
    CommonRow::For(OBSERVABLE, Row::Optional("defanged", BOOLEAN)),
    CommonRow::UnlessOwn(DOMAIN, "name", Row::Optional("name", TEXT)),
    CommonRow::For(DOMAIN, Row::Optional("description", TEXT)),
];

/// The common rows, each with the groups to which it applies.
pub(crate) fn common_rows() -> &'static [CommonRow]
    ensures { map common_view result.now ≡ shared_rows }
{
    COMMON_ROWS
}
