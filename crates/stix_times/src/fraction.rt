ghost use Rattle.std.specs.Prelude.{◌≡◌, ◌%◌, ◌^◌, ◌<◌, ◌≤◌, length, All};
ghost use Rattle.std.specs.Char.{IsAsciiDigit};
ghost use Rattle.stix_times.specs.Timestamp.{fraction_nanos};

/// The digits after the dot as nanoseconds: the first digit counts tenths of a second.
pub(crate) fn nanos_of_fraction(digits: &[u8]) -> u64
    requires fine { length digits.now ≤ 9 }
    requires digits { All IsAsciiDigit digits.now }
    ensures value { result ≡ fraction_nanos digits.now }
    ensures bound { result < 1_000_000_000 }
{
    let mut value = 0;
    for digit in digits {
        value = 10 * value + u64::from(*digit - b'0');
    }
    value * 10u64.pow(9 - digits.len() as u32)
}

/// A fraction to write: `value` in `digits` decimal digits, padded with leading zeros.
#[derive(Clone, Copy)]
pub(crate) struct Fraction {
    pub(crate) value: u32,
    pub(crate) digits: usize,
    ghost few: { digits ≤ 9 },
    ghost fits: { value < 10 ^ digits },
}

impl Fraction {
    ghost use Rattle.std.specs.Prelude.{◌*◌, ◌-◌, ◌≢◌};

    /// The fraction with this value and number of digits.
    pub(crate) fn new(value: u32, digits: usize) -> Fraction
        requires few { digits ≤ 9 }
        requires fits { value < 10 ^ digits }
        ensures value { result.value ≡ value }
        ensures digits { result.digits ≡ digits }
    {
        Fraction { value, digits }
    }

    /// The fraction with the fewest digits that equals this number of nanoseconds.
    pub(crate) fn shortest(nanosecond: u32) -> Fraction
        requires { nanosecond < 1_000_000_000 }
        ensures value { result.value * 10 ^ (9 - result.digits) ≡ nanosecond }
        ensures shortest { 0 < result.digits → result.value % 10 ≢ 0 }
    {
        let mut value = nanosecond;
        let mut digits = 9;
        while digits > 0 && value % 10 == 0 {
            value /= 10;
            digits -= 1;
        }
        Fraction { value, digits }
    }
}
