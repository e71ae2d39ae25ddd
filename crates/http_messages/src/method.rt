ghost use Rattle.std.specs.Prelude.{◌≡◌};
ghost use Rattle.http_messages.specs.Fields.{method_of, is_post};

use http::Method as AnyMethod;
use std::alloc::Global;

/// The longest method name that `http` parses without allocating. No method that a resource allows
/// is longer.
const MAX_NAME: usize = 15;

/// A request method (RFC 9110, section 9): those that a resource of this server may allow.
#[derive(Clone, Copy, Debug, PartialEq, Eq, Hash)]
pub enum Method {
    Get,
    Head,
    Post,
    Delete,
    /// Any other method, which no resource allows.
    Other,
}

impl Method {
    /// The method with this name. Names are case-sensitive. Allocates nothing.
    pub(crate) fn of(alloc: Global, name: &[u8]) -> Method
        ensures { result ≡ method_of name.now }
    {
        if name.len() > MAX_NAME {
            return Method::Other;
        }
        match AnyMethod::from_bytes(alloc, name) {
            Ok(method) => Method::named(method.as_str()),
            Err(_) => Method::Other,
        }
    }

    /// The method with this name, given as a `str`.
    fn named(name: &str) -> Method
        ensures { result ≡ method_of name.now }
    {
        match name {
            "GET" => Method::Get,
            "HEAD" => Method::Head,
            "POST" => Method::Post,
            "DELETE" => Method::Delete,
            _ => Method::Other,
        }
    }

    /// Whether it is POST.
    pub(crate) fn is_post(self) -> bool
        ensures { result ≡ is_post self }
    {
        match self {
            Method::Post => true,
            Method::Get | Method::Head | Method::Delete | Method::Other => false,
        }
    }
}
