ghost use Rattle.std.specs.Prelude.{◌≡◌, ◌+◌, ◌<◌, ◌≤◌, length, slice_index, pos, neg_ℤ, ◌↔◌, IfOk};
ghost use Rattle.std.specs.Prelude.{IfErr, IsSome, IfSome, IsTrue};
ghost use Rattle.std.specs.Char.{IsAsciiDigit};
ghost use Rattle.jiff_core.specs.Calendar.{IsBetween};
ghost use Rattle.stix_times.specs.Offsets.{pair_at, parts_at, AreDigits};
ghost use Rattle.stix_times.specs.Timestamp.{IsShaped, Spells, HasDay, day_number, nanos_of_day};
ghost use Rattle.stix_times.specs.Reading.{IsRefusedTimestamp, HasMillis};
ghost use Rattle.stix_times.specs.Parts.{timestamp_of, IsTimestampRefusal, NamesInstant};

use crate::fraction::nanos_of_fraction;
use crate::instant::NANOS_PER_SECOND;
use crate::offsets::longest_prefix_length;
use crate::{Instant, TimeRefusal};
use jiff_core::civil::Date;

const NANOS_PER_DAY: i128 = 86_400_000_000_000;

/// The parts of a text in the form of a timestamp. The month may lack the day.
#[derive(Clone, Copy)]
pub(crate) struct Parts<'a> {
    pub(crate) year: u16,
    pub(crate) month: u8,
    pub(crate) day: u8,
    pub(crate) hour: u8,
    pub(crate) minute: u8,
    pub(crate) second: u8,
    pub(crate) fraction: &'a [u8],
}

impl<'a> Parts<'a> {
    /// Splits a text in the form of a timestamp. `Shape` with the offset of the first bad byte.
    pub(crate) fn read(text: &'a [u8]) -> Result<Parts<'a>, TimeRefusal>
        ensures ok { IfOk result (λ p. Spells (timestamp_of p) text.now) }
        ensures err { IfErr result (IsRefusedTimestamp text.now) }
    {
        let at = longest_prefix_length(text);
        if at < text.len() || text.len() < 20 || text[text.len() - 1] != b'Z' {
            return Err(TimeRefusal::Shape { at });
        }
        Ok(Parts::at_offsets(text))
    }

    /// The instant of the parts. `NoSuchDay` or `TooFine` if they name none.
    #[tactic(auto, unfolding(crate::specs::Parts::timestamp_of))]
    pub(crate) fn instant(&self) -> Result<Instant, TimeRefusal>
        requires { IsShaped (timestamp_of self.now) }
        ensures ok { IfOk result (NamesInstant (timestamp_of self.now)) }
        ensures err { IfErr result (IsTimestampRefusal (timestamp_of self.now)) }
    {
        let Some(day) = self.day_number() else {
            return Err(TimeRefusal::NoSuchDay);
        };
        if self.fraction.len() > 9 {
            return Err(TimeRefusal::TooFine);
        }
        let nanos = i128::from(self.nanos_of_day());
        Ok(Instant::new(i128::from(day) * NANOS_PER_DAY + nanos))
    }

    /// The days from 1970-01-01 to this day. `None` if the month lacks it.
    #[tactic(auto, unfolding(crate::specs::Parts::timestamp_of))]
    fn day_number(&self) -> Option<i32>
        requires { IsShaped (timestamp_of self.now) }
        ensures some { IsSome result ↔ HasDay (timestamp_of self.now) }
        ensures value { IfSome result (λ day. day ≡ day_number (timestamp_of self.now)) }
        ensures bound { IfSome result (λ day. IsBetween (neg_ℤ (pos 719_528)) (pos 2_932_896) day) }
    {
        match Date::new(self.year as i16, self.month as i8, self.day as i8) {
            Ok(date) => Some(date.to_unix_epoch_day()),
            Err(_) => None,
        }
    }

    /// The nanoseconds since midnight.
    #[tactic(auto, unfolding(crate::specs::Parts::timestamp_of))]
    fn nanos_of_day(&self) -> u64
        requires shaped { IsShaped (timestamp_of self.now) }
        requires fine { length (timestamp_of self.now).fraction ≤ 9 }
        ensures value { result ≡ nanos_of_day (timestamp_of self.now) }
        ensures bound { result < 86_400_000_000_000 }
    {
        let minutes = 60 * u64::from(self.hour) + u64::from(self.minute);
        let seconds = 60 * minutes + u64::from(self.second);
        seconds * NANOS_PER_SECOND + nanos_of_fraction(self.fraction)
    }

    /// Whether the fraction has three to six digits.
    #[tactic(auto, unfolding(crate::specs::Parts::timestamp_of))]
    pub(crate) fn has_millis(&self) -> bool
        ensures { IsTrue result ↔ HasMillis (timestamp_of self.now) }
    {
        (3..=6).contains(&self.fraction.len())
    }

    /// The parts at their fixed offsets.
    #[tactic(auto, unfolding(crate::specs::Offsets::parts_at, crate::specs::Parts::timestamp_of))]
    fn at_offsets(text: &'a [u8]) -> Parts<'a>
        requires long { 20 ≤ length text.now }
        requires digits { AreDigits text.now }
        ensures { timestamp_of result ≡ parts_at text.now }
    {
        Parts {
            year: 100 * u16::from(pair(text, 0)) + u16::from(pair(text, 2)),
            month: pair(text, 5),
            day: pair(text, 8),
            hour: pair(text, 11),
            minute: pair(text, 14),
            second: pair(text, 17),
            fraction: &text[20..(text.len() - 1).max(20)],
        }
    }
}

/// The number written by the two digits at an offset.
fn pair(text: &[u8], at: usize) -> u8
    requires within { at + 1 < length text.now }
    requires first { IsAsciiDigit (slice_index text.now at) }
    requires second { IsAsciiDigit (slice_index text.now (at + 1)) }
    ensures value { result ≡ pair_at text.now at }
    ensures bound { result ≤ 99 }
{
    10 * (text[at] - b'0') + (text[at + 1] - b'0')
}
