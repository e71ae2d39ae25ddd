use thiserror::Error;

/// Why a text names no instant.
#[derive(Clone, Copy, Debug, PartialEq, Eq, Error)]
pub enum TimeRefusal {
    /// The text isn't `YYYY-MM-DDTHH:mm:ssZ`, with or without a `.` and digits before the `Z`. Its
    /// longest prefix that begins some timestamp has `at` bytes.
    #[error("not a timestamp after {at} bytes")]
    Shape { at: usize },
    /// The month doesn't have this day.
    #[error("the month lacks the day")]
    NoSuchDay,
    /// The fraction has more than nine digits.
    #[error("more than nine digits of a second")]
    TooFine,
    /// The fraction has fewer than three or more than six digits.
    #[error("not three to six digits of a second")]
    NotMillis,
}
