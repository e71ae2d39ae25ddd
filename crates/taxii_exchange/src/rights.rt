ghost use Rattle.std.specs.Prelude.{◌≡◌};
ghost use Rattle.taxii_exchange.specs.Checking.{permits as may};
ghost use Rattle.taxii_exchange.specs.Config.{rights_of as rights_in};

use http_messages::Method;
use taxii_bodies::CollectionInfo;

/// The rights of clients on a resource.
#[derive(Clone, Copy, Debug, PartialEq, Eq)]
pub struct Rights {
    pub read: bool,
    pub write: bool,
}

impl Rights {
    /// All rights.
    pub const ALL: Rights = Rights {
        read: true,
        write: true,
    };

    /// The rights on a collection.
    pub fn of(info: &CollectionInfo) -> Rights
        ensures { result ≡ rights_in info.now }
    {
        Rights {
            read: info.can_read,
            write: info.can_write,
        }
    }

    /// Whether the rights permit the method: GET needs read, POST write, and DELETE both.
    pub fn permit(self, method: Method) -> bool
        ensures { result ≡ may self method }
    {
        match method {
            Method::Get => self.read,
            Method::Post => self.write,
            Method::Delete => self.read && self.write,
            Method::Head | Method::Other => false,
        }
    }
}
