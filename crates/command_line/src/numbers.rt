//! Numeric arguments: one to ten decimal digits, within a range.

ghost use Rattle.std.specs.Prelude.{◌≡◌, ◌↔◌, ℕ, Some};
ghost use Rattle.command_line.specs.CommandLines.{IsNumberIn};

/// The default limit on the partial matches that a match retains.
pub const DEFAULT_RETAINED_LIMIT: u32 = 200_000;

/// The largest limit that `--cap` accepts.
pub const MAX_RETAINED_LIMIT: u32 = 1_000_000;

/// The largest port.
pub const MAX_PORT: u32 = 65_535;

/// The largest number of connections.
pub const MAX_CONNECTIONS: u32 = 4_294_967_295;

/// Parses a number within a range.
pub fn number_in(text: &str, least: u32, most: u32) -> Option<u32>
    ensures { (number : ℕ) → (result ≡ Some number) ↔ IsNumberIn least most text.now number }
{
    if text.len() > 10 || text.as_bytes().first() == Some(&b'+') {
        return None;
    }
    let Ok(number) = text.parse::<u32>() else {
        return None;
    };
    if least <= number && number <= most {
        Some(number)
    } else {
        None
    }
}
