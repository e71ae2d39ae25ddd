ghost use Rattle.std.specs.Prelude.{◌≡◌, take, drop};
ghost use Rattle.std.specs.Int.{IsInRange};
ghost use Rattle.stix_times.specs.Writing.{IsCanonicalTextOf, IsTextOfDigits, IsWhole};

use crate::Instant;
use crate::civil::Civil;
use crate::fraction::Fraction;

/// Writes the instant to the start of `out` with the fewest fraction digits, and returns the length
/// in bytes.
pub fn write(instant: Instant, out: &mut [u8; 32]) -> usize
    ensures text { IsCanonicalTextOf (take result out.new) instant }
    ensures length { IsInRange 20 30 result }
    ensures behind { drop result out.new ≡ drop result out.old }
{
    let civil = Civil::of(instant);
    civil.write(Fraction::shortest(civil.nanosecond), out)
}

/// Writes an instant of whole milliseconds with three fraction digits, and returns the length in
/// bytes.
pub fn write_millis(instant: Instant, out: &mut [u8; 32]) -> usize
    requires { IsWhole 1_000_000 instant }
    ensures text { IsTextOfDigits 3 (take result out.new) instant }
    ensures length { result ≡ 24 }
    ensures behind { drop result out.new ≡ drop result out.old }
{
    let civil = Civil::of(instant);
    civil.write(Fraction::new(civil.nanosecond / 1_000_000, 3), out)
}

/// Writes an instant of whole microseconds with six fraction digits, and returns the length in
/// bytes.
pub fn write_micros(instant: Instant, out: &mut [u8; 32]) -> usize
    requires { IsWhole 1000 instant }
    ensures text { IsTextOfDigits 6 (take result out.new) instant }
    ensures length { result ≡ 27 }
    ensures behind { drop result out.new ≡ drop result out.old }
{
    let civil = Civil::of(instant);
    civil.write(Fraction::new(civil.nanosecond / 1000, 6), out)
}
