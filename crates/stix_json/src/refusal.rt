use flow_values::{NoMemory, Text};
use std::error::Error;
use std::fmt;

/// Why bytes yield no JSON value. A path joins names and indices `[n]`, counted from 0, by dots.
/// The path of the whole value is empty.
#[derive(Debug, Drop)]
pub enum JsonRefusal {
    /// The bytes aren't UTF-8, aren't JSON, or nest more than 127 levels.
    NotJson,
    /// The first list or object at level 65.
    TooDeep { path: Text },
    /// The first invalid value is a number that isn't an integer: it has a fraction or an exponent,
    /// is `-0`, or is outside 64 bits.
    NotWhole { path: Text },
    /// The first invalid value is null.
    Null { path: Text },
    /// The first invalid value is an integer outside -`MAX_SAFE_INTEGER` to `MAX_SAFE_INTEGER`.
    OutOfRange { path: Text },
    /// The property isn't a list, or the value isn't an object.
    NotList,
    /// Out of memory.
    NoMemory,
}

impl From<NoMemory> for JsonRefusal {
    ghost use Rattle.std.specs.Prelude.{◌≡◌};
    ghost use Rattle.stix_json.specs.declared.refusal.JsonRefusal.TheVariants.{NoMemory as OutOfMemory};

    ghost from_gives = { λ _ refusal. refusal ≡ OutOfMemory };

    fn from(_error: NoMemory) -> JsonRefusal {
        JsonRefusal::NoMemory
    }
}

impl fmt::Display for JsonRefusal {
    fn fmt<W: fmt::Write>(&self, f: &mut fmt::Formatter<W>) -> fmt::Result {
        match self {
            JsonRefusal::NotJson => write!(f, "NotJson"),
            JsonRefusal::TooDeep { path } => write_at(f, "TooDeep", path.as_str()),
            JsonRefusal::NotWhole { path } => write_at(f, "NotWhole", path.as_str()),
            JsonRefusal::Null { path } => write_at(f, "Null", path.as_str()),
            JsonRefusal::OutOfRange { path } => write_at(f, "OutOfRange", path.as_str()),
            JsonRefusal::NotList => write!(f, "NotList"),
            JsonRefusal::NoMemory => write!(f, "out of memory"),
        }
    }
}

/// Writes a refusal's name, and the path unless it is empty.
fn write_at<W: fmt::Write>(f: &mut fmt::Formatter<W>, rule: &str, path: &str) -> fmt::Result {
    if path.is_empty() {
        write!(f, "{rule}")
    } else {
        write!(f, "{rule} at {path}")
    }
}

impl Error for JsonRefusal {}
