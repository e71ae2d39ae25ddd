ghost use Rattle.hunt_feed.specs.inner.Adding.{DropsAt};

use flow_values::Text;
use stix_times::Instant;

/// The data that a hunt needs of an indicator that may be hunted. The order of the fields leaves
/// the least padding, since there is one for each indicator of a feed.
#[derive(Debug, Drop)]
pub(crate) struct Kept {
    /// Its UUID as a number.
    pub(crate) number: u128,
    /// When it was created.
    pub(crate) created: Instant,
    /// `valid_from`.
    pub(crate) from: Instant,
    /// `valid_until`, if it has one.
    pub(crate) until: Option<Instant>,
    /// Its pattern.
    pub(crate) pattern: KeptPattern,
    /// Its position among the objects, counted from 0.
    pub(crate) at: u32,
}

/// The data that is kept of a pattern.
#[derive(Debug, Drop)]
pub(crate) enum KeptPattern {
    /// The text, of at most 65,536 bytes.
    Unread(Text),
    /// The text is longer, so a hunt refuses it.
    TooLong,
    /// The text was dropped: the indicator has a later version, or a revoked one.
    Dropped,
}

/// Drops the pattern of the indicator at a position among the objects, if it is kept. Binary
/// search: the indicators are ordered by position. Takes no memory.
pub(crate) fn drop_pattern(kept: &mut [Kept], at: u32)
    ensures { DropsAt at kept.old kept.new }
{
    let place = kept.partition_point(|indicator| indicator.at < at);
    if place < kept.len() && kept[place].at == at {
        kept[place].pattern = KeptPattern::Dropped;
    }
}
