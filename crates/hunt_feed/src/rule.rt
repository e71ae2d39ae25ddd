use flow_values::Items;
use stix_json::JsonRefusal;
use stix_objects::Break;

/// Why a line of a feed is refused. Where a line has several causes, the first of this list is
/// reported.
#[derive(Debug, Drop)]
pub enum FeedRule {
    /// It has more than 8,388,608 bytes before its line feed.
    LineTooLong,
    /// With it the feed has more than 1,099,511,627,776 bytes.
    InputTooLong,
    /// It is no JSON value, or has a fraction or a null in it.
    Json(JsonRefusal),
    /// The value is no object, or breaks rules of its type: all of these.
    Breaks(Items<Break>),
}
