ghost use Rattle.std.specs.Prelude.{◌≡◌};

use crate::buffer::Buffer;
use std::fmt;
use std::marker::Model;

/// The body of a request. It may own the vector that the connection's bytes were read into, which
/// also holds the head; its model is the bytes of the body alone.
#[derive(Drop)]
pub struct Body {
    bytes: Buffer,
}

impl Model for Body {
    ghost use Rattle.std.specs.Prelude.{ℕ, List};

    ghost Value = { List ℕ };

    ghost view = { λ body. body.bytes };
}

impl Body {
    /// The body made of these bytes.
    pub(crate) fn new(bytes: Buffer) -> Body
        ensures { result ≡ bytes }
    {
        Body { bytes }
    }

    /// The bytes, borrowed.
    pub fn as_slice(&self) -> &[u8]
        ensures { result.now ≡ self.now }
    {
        self.bytes.as_slice()
    }
}

impl fmt::Debug for Body {
    // Not derived: the derived form would print the bytes before the body, too.
    fn fmt<W: fmt::Write>(&self, f: &mut fmt::Formatter<W>) -> fmt::Result {
        write!(f, "{:?}", self.as_slice())
    }
}
