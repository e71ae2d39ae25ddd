use flow_values::{Items, Text};
use stix_times::Instant;

/// A constant of a pattern (STIX 2.1, section 9.2).
#[derive(Debug, Drop)]
pub enum Constant {
    /// An integer, as `5`.
    Integer(i64),
    /// A string, as `'a'`: its characters, without the quotes and with escapes resolved.
    String(Text),
    /// `true` or `false`.
    Boolean(bool),
    /// The bytes of a hexadecimal text, as `h'ff00'`.
    Hex(Items<u8>),
    /// The bytes of a base64 text, as `b'/w=='`.
    Binary(Items<u8>),
    /// A timestamp, as `t'2026-01-01T00:00:00Z'`.
    Timestamp(Instant),
}
