//! From an instant to a civil date and time: division by the length of a day, and the calendar of
//! `jiff_core` for the days.

ghost use Rattle.std.specs.Prelude.{◌≡◌, ◌<◌, ◌≤◌, ◌≤ℤ◌, ◌+ℤ◌, ◌*ℤ◌, pos, [], ◌++◌, length, take};
ghost use Rattle.std.specs.Prelude.{drop};
ghost use Rattle.jiff_core.specs.Date.{epoch_day};
ghost use Rattle.stix_times.specs.Timestamp.{IsShaped, date_text, time_text, text_of};
ghost use Rattle.stix_times.specs.Civil.{IsCivilOf, timestamp_with, digits_of_fraction};

use crate::fraction::Fraction;
use crate::instant::{Instant, NANOS_PER_SECOND, nanos};
use crate::line::Line;
use jiff_core::civil::Date;

const NANOS_PER_DAY: u128 = 86_400_000_000_000;

/// The nanoseconds from 0000-01-01 to 1970-01-01.
const NANOS_BEFORE_EPOCH: i128 = 62_167_219_200_000_000_000;

/// The days from -9999-01-01 to 0000-01-01.
const DAYS_BEFORE_ZERO: u32 = 3_652_059;

/// A civil date and time of day, in UTC.
#[derive(Clone, Copy)]
pub(crate) struct Civil {
    pub(crate) year: u16,
    pub(crate) month: u8,
    pub(crate) day: u8,
    pub(crate) hour: u8,
    pub(crate) minute: u8,
    pub(crate) second: u8,
    pub(crate) nanosecond: u32,
}

impl Civil {
    /// The date and the time of day of the instant.
    pub(crate) fn of(instant: Instant) -> Civil
        ensures { IsCivilOf result instant }
    {
        let since_zero = (nanos(instant) + NANOS_BEFORE_EPOCH) as u128;
        let days = (since_zero / NANOS_PER_DAY) as u32;
        let date = Date::from_days_since_min(DAYS_BEFORE_ZERO + days);
        Civil::new(date, (since_zero % NANOS_PER_DAY) as u64)
    }

    /// The date, and the time of day `nanos` nanoseconds after midnight.
    fn new(date: Date, nanos: u64) -> Civil
        requires from_zero { pos 0 ≤ℤ date.year }
        requires within { nanos < 86_400_000_000_000 }
        ensures { IsCivilOf result (epoch_day date *ℤ pos 86_400_000_000_000 +ℤ pos nanos) }
    {
        let seconds = nanos / NANOS_PER_SECOND;
        Civil {
            year: date.year as u16,
            month: date.month,
            day: date.day,
            hour: (seconds / 3600) as u8,
            minute: (seconds / 60 % 60) as u8,
            second: (seconds % 60) as u8,
            nanosecond: (nanos % NANOS_PER_SECOND) as u32,
        }
    }

    /// Writes the timestamp to the start of `out`, with this fraction of a second, and returns its
    /// length.
    pub(crate) fn write(&self, fraction: Fraction, out: &mut [u8; 32]) -> usize
        requires { IsShaped (timestamp_with self.now []) }
        ensures text { take result out.new
            ≡ text_of (timestamp_with self.now (digits_of_fraction fraction)) }
        ensures length { result ≡ length (take result out.new) }
        ensures behind { drop result out.new ≡ drop result out.old }
    {
        let mut line = Line::new();
        self.push_date(&mut line);
        line.push(b'T');
        self.push_time(&mut line);
        line.push_fraction(fraction);
        line.push(b'Z');
        line.copy_to(out)
    }

    /// Appends `YYYY-MM-DD`.
    #[tactic(auto, unfolding(crate::specs::Civil::timestamp_with))]
    fn push_date(&self, line: &mut Line)
        requires shaped { IsShaped (timestamp_with self.now []) }
        requires empty { line.old ≡ [] }
        ensures { line.new ≡ date_text (timestamp_with self.now []) }
    {
        line.push_pair((self.year / 100) as u8);
        line.push_pair((self.year % 100) as u8);
        line.push(b'-');
        line.push_pair(self.month);
        line.push(b'-');
        line.push_pair(self.day);
    }

    /// Appends `HH:mm:ss`.
    #[tactic(auto, unfolding(crate::specs::Civil::timestamp_with))]
    fn push_time(&self, line: &mut Line)
        requires shaped { IsShaped (timestamp_with self.now []) }
        requires room { length line.old ≤ 20 }
        ensures { line.new ≡ line.old ++ time_text (timestamp_with self.now []) }
    {
        line.push_pair(self.hour);
        line.push(b':');
        line.push_pair(self.minute);
        line.push(b':');
        line.push_pair(self.second);
    }
}
