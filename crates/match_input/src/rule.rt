use stix_bundles::BundleRefusal;
use stix_json::JsonRefusal;
use stix_times::Instant;

/// Why a line of an input is refused. Where a line has several causes, the first of this list is
/// reported.
#[derive(Debug, Drop)]
pub enum InputRule {
    /// It has more than 8,388,608 bytes before its line feed.
    LineTooLong,
    /// With it the input has more than 1,099,511,627,776 bytes, or more than 67,108,864 in
    /// `Mode::Whole`.
    InputTooLong,
    /// It is no JSON value, or has a fraction or a null in it.
    Json(JsonRefusal),
    /// The value is no bundle, or one of its objects breaks a rule.
    Bundle(BundleRefusal),
    /// The observed-data at this position embeds its objects (deprecated property `objects`).
    Embedded { object: u32 },
    /// Its first observation was last observed before the last one of the lines before.
    OutOfOrder { last: Instant, now: Instant },
}
