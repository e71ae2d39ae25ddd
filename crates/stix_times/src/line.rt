ghost use Rattle.std.specs.Prelude.{◌≡◌, ◌+◌, ◌<◌, ◌≤◌, [], ◌∷◌, ◌++◌, length, take, drop};
ghost use Rattle.stix_times.specs.Timestamp.{two_digits, fraction_text};
ghost use Rattle.stix_times.specs.Civil.{digits_of_fraction};

use crate::fraction::Fraction;
use std::marker::Model;

/// A text buffer of 32 bytes, inline.
#[derive(Drop)]
pub(crate) struct Line {
    bytes: [u8; 32],
    end: usize,
}

impl Model for Line {
    ghost use Rattle.std.specs.Prelude.{ℕ, List, take, ◌≤◌};

    ghost Value = { List ℕ };

    ghost view = { λ l. take l.end l.bytes };

    ghost invariant = { λ l. l.end ≤ 32 };
}

impl Line {
    /// The empty text.
    pub(crate) fn new() -> Line
        ensures { result ≡ [] }
    {
        Line {
            bytes: [0; 32],
            end: 0,
        }
    }

    /// Appends a byte.
    pub(crate) fn push(&mut self, byte: u8)
        requires { length self.old < 32 }
        ensures { self.new ≡ self.old ++ byte ∷ [] }
    {
        self.bytes[self.end] = byte;
        self.end += 1;
    }

    /// Appends the two digits of a number below 100.
    pub(crate) fn push_pair(&mut self, number: u8)
        requires small { number < 100 }
        requires room { length self.old + 2 ≤ 32 }
        ensures { self.new ≡ self.old ++ two_digits number }
    {
        self.push(b'0' + number / 10);
        self.push(b'0' + number % 10);
    }

    /// Appends a dot and the digits of a fraction, or nothing if it has no digits.
    pub(crate) fn push_fraction(&mut self, fraction: Fraction)
        requires { length self.old + fraction.digits < 32 }
        ensures text { self.new ≡ self.old ++ fraction_text (digits_of_fraction fraction) }
        ensures length { length self.new ≤ length self.old + fraction.digits + 1 }
    {
        if fraction.digits > 0 {
            self.push(b'.');
            self.push_digits(fraction);
        }
    }

    /// Appends the digits of a fraction.
    fn push_digits(&mut self, fraction: Fraction)
        requires { length self.old + fraction.digits ≤ 32 }
        ensures { self.new ≡ self.old ++ digits_of_fraction fraction }
    {
        let mut rest = fraction.value;
        let mut scale = 10u32.pow(fraction.digits as u32);
        for _offset in 0..fraction.digits {
            scale /= 10;
            self.push(b'0' + (rest / scale) as u8);
            rest %= scale;
        }
    }

    /// Copies the text to the start of `out`, and returns its length. The rest of `out` is
    /// unchanged.
    pub(crate) fn copy_to(self, out: &mut [u8; 32]) -> usize
        ensures text { take result out.new ≡ self }
        ensures length { result ≡ length self }
        ensures behind { drop result out.new ≡ drop result out.old }
    {
        let end = self.end;
        let bytes = self.bytes;
        out[..end].copy_from_slice(&bytes[..end]);
        end
    }
}
