//! The own rows of the domain objects, the relationship objects and the marking-definition
//! (STIX 2.1, sections 4, 5 and 7.2).

use crate::form::{
    BOOLEAN, FIELDS, Form, PHASES, Precision, REF_ANY, REFS_ANY, Single, TEXT, TEXTS, TIME,
};
use crate::row::{Condition, Row};

/// Only a name: course-of-action (section 4.3), identity (4.5) and vulnerability (4.19).
pub(crate) const NAMED: &[Row] = &[Row::Required("name", TEXT)];

/// A name and phases: attack-pattern (section 4.1) and tool (4.18).
pub(crate) const NAMED_IN_PHASES: &[Row] = &[
    Row::Required("name", TEXT),
    Row::Optional("kill_chain_phases", PHASES),
];

/// A name and when it was seen: campaign (section 4.2), intrusion-set (4.9), threat-actor (4.17).
pub(crate) const NAMED_AND_SEEN: &[Row] = &[
    Row::Required("name", TEXT),
    Row::Optional("first_seen", TIME),
    Row::Optional("last_seen", TIME),
    Row::Order(Precision::Any, "first_seen", "last_seen"),
];

/// Section 4.4: grouping.
pub(crate) const GROUPING: &[Row] = &[
    Row::Required("context", TEXT),
    Row::Required("object_refs", REFS_ANY),
];

/// Section 4.7: indicator.
pub(crate) const INDICATOR: &[Row] = &[
    Row::Required("pattern", TEXT),
    Row::Required("pattern_type", TEXT),
    Row::Required("valid_from", TIME),
    Row::Optional("valid_until", TIME),
    Row::StrictOrder(Precision::Any, "valid_from", "valid_until"),
    Row::Optional("kill_chain_phases", PHASES),
];

/// Section 4.8: infrastructure.
pub(crate) const INFRASTRUCTURE: &[Row] = &[
    Row::Required("name", TEXT),
    Row::Optional("kill_chain_phases", PHASES),
    Row::Optional("first_seen", TIME),
    Row::Optional("last_seen", TIME),
    Row::Order(Precision::Any, "first_seen", "last_seen"),
];

/// Section 4.11: malware.
pub(crate) const MALWARE: &[Row] = &[
    Row::Required("is_family", BOOLEAN),
    Row::RequiredWhere("name", TEXT, Condition::IsTrue("is_family")),
    Row::Optional("kill_chain_phases", PHASES),
    Row::Optional("first_seen", TIME),
    Row::Optional("last_seen", TIME),
    Row::Order(Precision::Any, "first_seen", "last_seen"),
];

/// Section 4.12: malware-analysis.
pub(crate) const MALWARE_ANALYSIS: &[Row] = &[
    Row::Required("product", TEXT),
    Row::Optional("version", TEXT),
    Row::Optional("host_vm_ref", Form::One(Single::Ref(&["software"]))),
    Row::Optional(
        "operating_system_ref",
        Form::One(Single::Ref(&["software"])),
    ),
    Row::Optional(
        "installed_software_refs",
        Form::List(Single::Ref(&["software"])),
    ),
    Row::Optional("configuration_version", TEXT),
    Row::Optional("modules", TEXTS),
    Row::Optional("analysis_engine_version", TEXT),
    Row::Optional("analysis_definition_version", TEXT),
    Row::Optional("submitted", TIME),
    Row::Optional("analysis_started", TIME),
    Row::Optional("analysis_ended", TIME),
    Row::Optional("result_name", TEXT),
    Row::Optional("result", TEXT),
    Row::Optional("analysis_sco_refs", REFS_ANY),
    Row::Optional("sample_ref", REF_ANY),
    Row::NeedsOneOf(Some("result"), &["result", "analysis_sco_refs"]),
];

/// Section 4.13: note.
pub(crate) const NOTE: &[Row] = &[
    Row::Required("content", TEXT),
    Row::Required("object_refs", REFS_ANY),
];

/// Section 4.14: observed-data.
pub(crate) const OBSERVED_DATA: &[Row] = &[
    Row::Required("first_observed", TIME),
    Row::Required("last_observed", TIME),
    Row::Order(Precision::Any, "first_observed", "last_observed"),
    Row::Required(
        "number_observed",
        Form::One(Single::Integer(1, 999_999_999)),
    ),
    Row::Optional("objects", FIELDS),
    Row::Optional("object_refs", REFS_ANY),
    Row::NeedsOneOf(Some("object_refs"), &["objects", "object_refs"]),
    Row::Excludes(
        "objects",
        &[
            Condition::Meets("objects", FIELDS),
            Condition::Meets("object_refs", REFS_ANY),
        ],
    ),
];

/// Section 4.15: opinion, with the values of opinion-enum.
pub(crate) const OPINION: &[Row] = &[
    Row::Required(
        "opinion",
        Form::One(Single::Word(&[
            "strongly-disagree",
            "disagree",
            "neutral",
            "agree",
            "strongly-agree",
        ])),
    ),
    Row::Required("object_refs", REFS_ANY),
];

/// Section 4.16: report.
pub(crate) const REPORT: &[Row] = &[
    Row::Required("name", TEXT),
    Row::Required("published", TIME),
    Row::Required("object_refs", REFS_ANY),
];

/// Section 5.1: relationship.
pub(crate) const RELATIONSHIP: &[Row] = &[
    Row::Required("relationship_type", TEXT),
    Row::Required("source_ref", REF_ANY),
    Row::Required("target_ref", REF_ANY),
    Row::Optional("start_time", TIME),
    Row::Optional("stop_time", TIME),
    Row::StrictOrder(Precision::Any, "start_time", "stop_time"),
];

/// Section 5.2: sighting.
pub(crate) const SIGHTING: &[Row] = &[
    Row::Required("sighting_of_ref", REF_ANY),
    Row::Optional("count", Form::One(Single::Integer(0, 999_999_999))),
    Row::Optional("first_seen", TIME),
    Row::Optional("last_seen", TIME),
    Row::Order(Precision::Any, "first_seen", "last_seen"),
    Row::Optional(
        "observed_data_refs",
        Form::List(Single::Ref(&["observed-data"])),
    ),
    Row::Optional(
        "where_sighted_refs",
        Form::List(Single::Ref(&["identity", "location"])),
    ),
    Row::Optional("summary", BOOLEAN),
];

/// Section 7.2.1: marking-definition, with its statement (7.2.1.3) and its colours (7.2.1.4).
pub(crate) const MARKING_DEFINITION: &[Row] = &[
    Row::Optional("definition_type", TEXT),
    Row::Optional("definition", FIELDS),
    Row::Statement,
    Row::Colour,
    Row::ColourId,
];
