//! The object types with their own rows (STIX 2.1, sections 4 to 7).

ghost use Rattle.std.specs.Prelude.{◌≡◌, ◌++◌, map};
ghost use Rattle.std.specs.List.{flat_map};
ghost use Rattle.stix_objects.specs.Types.{domain_types, observable_types};
ghost use Rattle.stix_objects.specs.inner.Views.{type_view};

use crate::Group;
use crate::object_type::ObjectType;
use crate::tables::{domain, observable};

/// All types, in several short tables: the proof of a constant takes more than linear time in its
/// length.
pub(crate) fn type_tables() -> [&'static [ObjectType]; 9]
    ensures { flat_map (λ types. map type_view types.now) result
        ≡ domain_types ++ observable_types }
{
    [
        FROM_ATTACK_PATTERN,
        FROM_MALWARE,
        FROM_OBSERVED_DATA,
        FROM_RELATIONSHIP,
        FROM_ARTIFACT,
        FROM_EMAIL_ADDR,
        FROM_FILE,
        FROM_NETWORK_TRAFFIC,
        FROM_SOFTWARE,
    ]
}

/// The domain objects (section 4), from attack-pattern on.
const FROM_ATTACK_PATTERN: &[ObjectType] = &[
    ObjectType {
        name: "attack-pattern",
        group: Group::Domain,
        rows: domain::NAMED_IN_PHASES,
    },
    ObjectType {
        name: "campaign",
        group: Group::Domain,
        rows: domain::NAMED_AND_SEEN,
    },
    ObjectType {
        name: "course-of-action",
        group: Group::Domain,
        rows: domain::NAMED,
    },
    ObjectType {
        name: "grouping",
        group: Group::Domain,
        rows: domain::GROUPING,
    },
    ObjectType {
        name: "identity",
        group: Group::Domain,
        rows: domain::NAMED,
    },
    ObjectType {
        name: "indicator",
        group: Group::Domain,
        rows: domain::INDICATOR,
    },
    ObjectType {
        name: "infrastructure",
        group: Group::Domain,
        rows: domain::INFRASTRUCTURE,
    },
    ObjectType {
        name: "intrusion-set",
        group: Group::Domain,
        rows: domain::NAMED_AND_SEEN,
    },
];

const FROM_MALWARE: &[ObjectType] = &[
    ObjectType {
        name: "malware",
        group: Group::Domain,
        rows: domain::MALWARE,
    },
    ObjectType {
        name: "malware-analysis",
        group: Group::Domain,
        rows: domain::MALWARE_ANALYSIS,
    },
    ObjectType {
        name: "note",
        group: Group::Domain,
        rows: domain::NOTE,
    },
];

const FROM_OBSERVED_DATA: &[ObjectType] = &[
    ObjectType {
        name: "observed-data",
        group: Group::Domain,
        rows: domain::OBSERVED_DATA,
    },
    ObjectType {
        name: "opinion",
        group: Group::Domain,
        rows: domain::OPINION,
    },
    ObjectType {
        name: "report",
        group: Group::Domain,
        rows: domain::REPORT,
    },
    ObjectType {
        name: "threat-actor",
        group: Group::Domain,
        rows: domain::NAMED_AND_SEEN,
    },
    ObjectType {
        name: "tool",
        group: Group::Domain,
        rows: domain::NAMED_IN_PHASES,
    },
    ObjectType {
        name: "vulnerability",
        group: Group::Domain,
        rows: domain::NAMED,
    },
];

/// The relationship objects (section 5) and the marking-definition (section 7.2.1).
const FROM_RELATIONSHIP: &[ObjectType] = &[
    ObjectType {
        name: "relationship",
        group: Group::Domain,
        rows: domain::RELATIONSHIP,
    },
    ObjectType {
        name: "sighting",
        group: Group::Domain,
        rows: domain::SIGHTING,
    },
    ObjectType {
        name: "marking-definition",
        group: Group::Marking,
        rows: domain::MARKING_DEFINITION,
    },
];

/// The observables (section 6), from artifact on.
const FROM_ARTIFACT: &[ObjectType] = &[
    ObjectType {
        name: "artifact",
        group: Group::Observable,
        rows: observable::ARTIFACT,
    },
    ObjectType {
        name: "autonomous-system",
        group: Group::Observable,
        rows: observable::AUTONOMOUS_SYSTEM,
    },
    ObjectType {
        name: "directory",
        group: Group::Observable,
        rows: observable::DIRECTORY,
    },
    ObjectType {
        name: "domain-name",
        group: Group::Observable,
        rows: observable::DOMAIN_NAME,
    },
];

const FROM_EMAIL_ADDR: &[ObjectType] = &[
    ObjectType {
        name: "email-addr",
        group: Group::Observable,
        rows: observable::EMAIL_ADDR,
    },
    ObjectType {
        name: "email-message",
        group: Group::Observable,
        rows: observable::EMAIL_MESSAGE,
    },
];

const FROM_FILE: &[ObjectType] = &[
    ObjectType {
        name: "file",
        group: Group::Observable,
        rows: observable::FILE,
    },
    ObjectType {
        name: "ipv4-addr",
        group: Group::Observable,
        rows: observable::ADDRESS,
    },
    ObjectType {
        name: "ipv6-addr",
        group: Group::Observable,
        rows: observable::ADDRESS,
    },
    ObjectType {
        name: "mac-addr",
        group: Group::Observable,
        rows: observable::VALUED,
    },
    ObjectType {
        name: "mutex",
        group: Group::Observable,
        rows: observable::MUTEX,
    },
];

const FROM_NETWORK_TRAFFIC: &[ObjectType] = &[
    ObjectType {
        name: "network-traffic",
        group: Group::Observable,
        rows: observable::NETWORK_TRAFFIC,
    },
    ObjectType {
        name: "process",
        group: Group::Observable,
        rows: observable::PROCESS,
    },
];

const FROM_SOFTWARE: &[ObjectType] = &[
    ObjectType {
        name: "software",
        group: Group::Observable,
        rows: observable::SOFTWARE,
    },
    ObjectType {
        name: "url",
        group: Group::Observable,
        rows: observable::VALUED,
    },
    ObjectType {
        name: "user-account",
        group: Group::Observable,
        rows: observable::USER_ACCOUNT,
    },
    ObjectType {
        name: "windows-registry-key",
        group: Group::Observable,
        rows: observable::WINDOWS_REGISTRY_KEY,
    },
    ObjectType {
        name: "x509-certificate",
        group: Group::Observable,
        rows: observable::X509_CERTIFICATE,
    },
];
