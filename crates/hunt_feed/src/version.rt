ghost use Rattle.std.specs.Prelude.{◌≡◌};
ghost use Rattle.hunt_feed.specs.inner.Adding.{IsNextVersion};

use stix_times::Instant;
use stix_times::laws::is_before;

/// A summary of the versions of an indicator. The order of the fields leaves the least padding.
#[derive(Clone, Copy, Debug)]
pub(crate) struct Version {
    /// When the latest version was modified.
    pub(crate) modified: Instant,
    /// The position of the latest version.
    pub(crate) at: u32,
    /// Whether some version is revoked.
    pub(crate) revoked: bool,
}

/// Includes one more version.
pub(crate) fn with_version(known: &Option<Version>, next: Version) -> Version
    ensures { IsNextVersion known.now next result }
{
    let Some(known) = known else {
        return next;
    };
    let revoked = known.revoked || next.revoked;
    if is_before(next.modified, known.modified) {
        Version { revoked, ..*known }
    } else {
        Version { revoked, ..next }
    }
}
