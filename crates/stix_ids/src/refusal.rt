use flow_values::NoMemory;
use thiserror::Error;

/// Why a text isn't an identifier.
#[derive(Clone, Copy, Debug, PartialEq, Eq, Error)]
pub enum IdRefusal {
    /// The last 36 bytes don't follow a `--`, or the text has fewer than 38 bytes.
    #[error("no `--` before the last 36 bytes")]
    NoSeparator,
    /// The last 36 bytes aren't a UUID in hyphenated form.
    #[error("the last 36 bytes are no UUID")]
    BadUuid,
    /// What precedes the `--` isn't a kind. Its longest prefix that begins some kind has `at`
    /// bytes.
    #[error("not a kind after {at} bytes")]
    BadKind { at: usize },
    /// The text is an identifier, and memory ran out.
    #[error("out of memory")]
    NoMemory,
}

impl From<NoMemory> for IdRefusal {
    ghost use Rattle.std.specs.Prelude.{◌≡◌};
    ghost use Rattle.stix_ids.specs.declared.refusal.IdRefusal.TheVariants as IdRefusal;

    ghost from_gives = { λ _ refusal. refusal ≡ IdRefusal.NoMemory };

    fn from(_error: NoMemory) -> IdRefusal {
        IdRefusal::NoMemory
    }
}
