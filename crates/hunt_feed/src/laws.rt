//! Theorems about the definitions of this crate. The contracts state them; the functions do nothing
//! at run time.

ghost use Rattle.std.specs.Prelude.{◌≡◌, ℕ, List, Some};
ghost use Rattle.serde_json.specs.Data.{Data};
ghost use Rattle.hunt_feed.specs.Feeds.{FeedClose, ReadsFeed};

use stix_json::laws::one_json;
use stix_objects::laws::one_list;

/// The reading of a feed is unique: its bytes have one list of objects and one end. So a line is
/// refused exactly where it is reported, for one cause.
pub fn one_reading()
    ensures { (bytes : List ℕ) (objects others : List Data) (close other : FeedClose)
        → ReadsFeed (Some bytes) objects close
        → ReadsFeed (Some bytes) others other → (objects ≡ others) × (close ≡ other) }
{
    one_json();
    one_list();
}
