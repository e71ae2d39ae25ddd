//! The own rows of the observables (STIX 2.1, section 6).

use crate::form::{BOOLEAN, FIELDS, Form, HASHES, LISTED, Precision, Single, TEXT, TEXTS, TIME};
use crate::row::{Condition, Row};

/// The kinds of the source and the destination of network traffic.
const ENDPOINTS: Form = Form::One(Single::Ref(&[
    "ipv4-addr",
    "ipv6-addr",
    "mac-addr",
    "domain-name",
]));

/// Only a value: mac-addr (section 6.10) and url (6.15).
pub(crate) const VALUED: &[Row] = &[Row::Required("value", TEXT)];

/// Section 6.1: artifact.
pub(crate) const ARTIFACT: &[Row] = &[
    Row::Optional("mime_type", TEXT),
    Row::Optional("payload_bin", TEXT),
    Row::Optional("url", TEXT),
    Row::RequiredWhere("hashes", HASHES, Condition::Meets("url", TEXT)),
    Row::Optional("encryption_algorithm", TEXT),
    Row::Optional("decryption_key", TEXT),
    Row::NeedsOneOf(Some("payload_bin"), &["payload_bin", "url"]),
    Row::Excludes(
        "url",
        &[
            Condition::Meets("payload_bin", TEXT),
            Condition::Meets("url", TEXT),
        ],
    ),
    Row::Excludes(
        "decryption_key",
        &[
            Condition::Meets("decryption_key", TEXT),
            Condition::Absent("encryption_algorithm"),
        ],
    ),
];

/// Section 6.2: autonomous-system.
pub(crate) const AUTONOMOUS_SYSTEM: &[Row] = &[
    Row::Required("number", Form::One(Single::Integer(0, 4_294_967_295))),
    Row::Optional("name", TEXT),
    Row::Optional("rir", TEXT),
];

/// Section 6.3: directory.
pub(crate) const DIRECTORY: &[Row] = &[
    Row::Required("path", TEXT),
    Row::Optional("path_enc", TEXT),
    Row::Optional("ctime", TIME),
    Row::Optional("mtime", TIME),
    Row::Optional("atime", TIME),
    Row::Optional(
        "contains_refs",
        Form::List(Single::Ref(&["file", "directory"])),
    ),
];

/// Section 6.4: domain-name.
pub(crate) const DOMAIN_NAME: &[Row] = &[
    Row::Required("value", TEXT),
    Row::Optional(
        "resolves_to_refs",
        Form::List(Single::Ref(&["ipv4-addr", "ipv6-addr", "domain-name"])),
    ),
];

/// Section 6.5: email-addr.
pub(crate) const EMAIL_ADDR: &[Row] = &[
    Row::Required("value", TEXT),
    Row::Optional("display_name", TEXT),
    Row::Optional("belongs_to_ref", Form::One(Single::Ref(&["user-account"]))),
];

/// Section 6.6: email-message.
pub(crate) const EMAIL_MESSAGE: &[Row] = &[
    Row::Required("is_multipart", BOOLEAN),
    Row::Optional("date", TIME),
    Row::Optional("content_type", TEXT),
    Row::Optional("from_ref", Form::One(Single::Ref(&["email-addr"]))),
    Row::Optional("sender_ref", Form::One(Single::Ref(&["email-addr"]))),
    Row::Optional("to_refs", Form::List(Single::Ref(&["email-addr"]))),
    Row::Optional("cc_refs", Form::List(Single::Ref(&["email-addr"]))),
    Row::Optional("bcc_refs", Form::List(Single::Ref(&["email-addr"]))),
    Row::Optional("message_id", TEXT),
    Row::Optional("subject", TEXT),
    Row::Optional("received_lines", TEXTS),
    Row::Optional("additional_header_fields", FIELDS),
    Row::Optional("body", TEXT),
    Row::Optional("body_multipart", LISTED),
    Row::Optional("raw_email_ref", Form::One(Single::Ref(&["artifact"]))),
    Row::Excludes(
        "body",
        &[
            Condition::IsTrue("is_multipart"),
            Condition::Meets("body", TEXT),
        ],
    ),
    Row::Excludes(
        "body_multipart",
        &[
            Condition::IsFalse("is_multipart"),
            Condition::Meets("body_multipart", LISTED),
        ],
    ),
];

/// Section 6.7: file.
pub(crate) const FILE: &[Row] = &[
    Row::Optional("hashes", HASHES),
    Row::Optional("size", Form::One(Single::Integer(0, 9_007_199_254_740_991))),
    Row::Optional("name", TEXT),
    Row::Optional("ctime", TIME),
    Row::Optional("mtime", TIME),
    Row::Optional("atime", TIME),
    Row::Optional(
        "parent_directory_ref",
        Form::One(Single::Ref(&["directory"])),
    ),
    Row::NeedsOneOf(Some("name"), &["hashes", "name"]),
];

/// Sections 6.8 and 6.9: ipv4-addr and ipv6-addr.
pub(crate) const ADDRESS: &[Row] = &[
    Row::Required("value", TEXT),
    Row::Optional("resolves_to_refs", Form::List(Single::Ref(&["mac-addr"]))),
    Row::Optional(
        "belongs_to_refs",
        Form::List(Single::Ref(&["autonomous-system"])),
    ),
];

/// Section 6.11: mutex.
pub(crate) const MUTEX: &[Row] = &[Row::Required("name", TEXT)];

/// Section 6.12: network-traffic.
pub(crate) const NETWORK_TRAFFIC: &[Row] = &[
    Row::Optional("start", TIME),
    Row::Optional("end", TIME),
    Row::Optional("is_active", BOOLEAN),
    Row::Optional("src_ref", ENDPOINTS),
    Row::Optional("dst_ref", ENDPOINTS),
    Row::Optional("src_port", Form::One(Single::Integer(0, 65_535))),
    Row::Optional("dst_port", Form::One(Single::Integer(0, 65_535))),
    Row::Required("protocols", TEXTS),
    Row::Order(Precision::Any, "start", "end"),
    Row::NeedsOneOf(Some("src_ref"), &["src_ref", "dst_ref"]),
    Row::Excludes(
        "end",
        &[
            Condition::IsTrue("is_active"),
            Condition::Meets("end", TIME),
        ],
    ),
];

/// Section 6.13: process.
pub(crate) const PROCESS: &[Row] = &[
    Row::Optional("is_hidden", BOOLEAN),
    Row::Optional("pid", Form::One(Single::Integer(0, 9_007_199_254_740_991))),
    Row::Optional("created_time", TIME),
    Row::Optional("cwd", TEXT),
    Row::Optional("command_line", TEXT),
    Row::Optional("environment_variables", FIELDS),
    Row::Optional(
        "opened_connection_refs",
        Form::List(Single::Ref(&["network-traffic"])),
    ),
    Row::Optional(
        "creator_user_ref",
        Form::One(Single::Ref(&["user-account"])),
    ),
    Row::Optional("image_ref", Form::One(Single::Ref(&["file"]))),
    Row::Optional("parent_ref", Form::One(Single::Ref(&["process"]))),
    Row::Optional("child_refs", Form::List(Single::Ref(&["process"]))),
    Row::NeedsOneOf(
        None,
        &[
            "is_hidden",
            "pid",
            "created_time",
            "cwd",
            "command_line",
            "environment_variables",
            "opened_connection_refs",
            "creator_user_ref",
            "image_ref",
            "parent_ref",
            "child_refs",
            "extensions",
        ],
    ),
];

/// Section 6.14: software.
pub(crate) const SOFTWARE: &[Row] = &[
    Row::Required("name", TEXT),
    Row::Optional("cpe", TEXT),
    Row::Optional("swid", TEXT),
    Row::Optional("languages", TEXTS),
    Row::Optional("vendor", TEXT),
    Row::Optional("version", TEXT),
];

/// Section 6.16: user-account.
pub(crate) const USER_ACCOUNT: &[Row] = &[
    Row::Optional("user_id", TEXT),
    Row::Optional("credential", TEXT),
    Row::Optional("account_login", TEXT),
    Row::Optional("account_type", TEXT),
    Row::Optional("display_name", TEXT),
    Row::Optional("is_service_account", BOOLEAN),
    Row::Optional("is_privileged", BOOLEAN),
    Row::Optional("can_escalate_privs", BOOLEAN),
    Row::Optional("is_disabled", BOOLEAN),
    Row::Optional("account_created", TIME),
    Row::Optional("account_expires", TIME),
    Row::Optional("credential_last_changed", TIME),
    Row::Optional("account_first_login", TIME),
    Row::Optional("account_last_login", TIME),
];

/// Section 6.17: windows-registry-key.
pub(crate) const WINDOWS_REGISTRY_KEY: &[Row] = &[
    Row::Optional("key", TEXT),
    Row::Optional("values", LISTED),
    Row::Optional("modified_time", TIME),
    Row::Optional(
        "creator_user_ref",
        Form::One(Single::Ref(&["user-account"])),
    ),
    Row::Optional(
        "number_of_subkeys",
        Form::One(Single::Integer(0, 9_007_199_254_740_991)),
    ),
];

/// Section 6.18: x509-certificate.
pub(crate) const X509_CERTIFICATE: &[Row] = &[
    Row::Optional("is_self_signed", BOOLEAN),
    Row::Optional("hashes", HASHES),
    Row::Optional("version", TEXT),
    Row::Optional("serial_number", TEXT),
    Row::Optional("signature_algorithm", TEXT),
    Row::Optional("issuer", TEXT),
    Row::Optional("validity_not_before", TIME),
    Row::Optional("validity_not_after", TIME),
    Row::Optional("subject", TEXT),
    Row::Optional("subject_public_key_algorithm", TEXT),
    Row::Optional("subject_public_key_modulus", TEXT),
    Row::Optional(
        "subject_public_key_exponent",
        Form::One(Single::Integer(-9_007_199_254_740_991, 9_007_199_254_740_991)),
    ),
    Row::Optional("x509_v3_extensions", FIELDS),
    Row::NeedsOneOf(
        None,
        &[
            "is_self_signed",
            "hashes",
            "version",
            "serial_number",
            "signature_algorithm",
            "issuer",
            "validity_not_before",
            "validity_not_after",
            "subject",
            "subject_public_key_algorithm",
            "subject_public_key_modulus",
            "subject_public_key_exponent",
            "x509_v3_extensions",
        ],
    ),
];
