//! A table-driven recognizer for the form of a timestamp: for each offset, the least and the
//! greatest byte. The longest prefix of fitting bytes is the longest viable prefix, since each
//! fitting byte leaves a valid continuation.

ghost use Rattle.std.specs.Prelude.{◌≡◌, ◌+◌, ◌<◌, ◌≤◌, IsTrue, length};
ghost use Rattle.stix_times.specs.Offsets.{bounds_at, fits_fraction, fits, fitting_end, end_from};

/// The length of the longest prefix that some timestamp begins with.
///
/// Nearly every input is a valid timestamp. So the 19 bytes before the fraction are first checked
/// without a loop: with constant offsets, each check is a comparison or two. Only if one fails, a
/// loop finds the first bad byte.
#[tactic(auto, using(crate::proofs::OffsetLemmas::end_from_start))]
pub(crate) fn longest_prefix_length(bytes: &[u8]) -> usize
    ensures { result ≡ fitting_end 0 0 bytes.now }
{
    if bytes.len() >= 20 && date_fits(bytes) && time_fits(bytes) {
        fraction_end(bytes)
    } else {
        first_mismatch(bytes)
    }
}

/// Whether the bytes may be those of `YYYY-MM-DD`.
fn date_fits(bytes: &[u8]) -> bool
    requires { 20 ≤ length bytes.now }
    ensures { IsTrue result → end_from bytes.now 0 ≡ end_from bytes.now 10 }
{
    pair_fits(bytes, 0)
        && pair_fits(bytes, 2)
        && byte_fits(bytes, 4)
        && pair_fits(bytes, 5)
        && byte_fits(bytes, 7)
        && pair_fits(bytes, 8)
}

/// Whether the bytes may be those of `THH:mm:ss` and one more.
fn time_fits(bytes: &[u8]) -> bool
    requires { 20 ≤ length bytes.now }
    ensures { IsTrue result → end_from bytes.now 10 ≡ end_from bytes.now 20 }
{
    byte_fits(bytes, 10)
        && pair_fits(bytes, 11)
        && byte_fits(bytes, 13)
        && pair_fits(bytes, 14)
        && byte_fits(bytes, 16)
        && pair_fits(bytes, 17)
        && byte_fits(bytes, 19)
}

/// Whether the two bytes at this offset may stand there.
fn pair_fits(bytes: &[u8], at: usize) -> bool
    requires { at + 1 < length bytes.now }
    ensures { IsTrue result → end_from bytes.now at ≡ end_from bytes.now (at + 2) }
{
    byte_fits(bytes, at) && byte_fits(bytes, at + 1)
}

/// Whether the byte at this offset may stand there.
fn byte_fits(bytes: &[u8], at: usize) -> bool
    requires { at < length bytes.now }
    ensures { IsTrue result → end_from bytes.now at ≡ end_from bytes.now (at + 1) }
{
    fits(at, bytes[at.saturating_sub(1)], bytes[at])
}

/// The offset of the first byte that can't be a part of the fraction, or the end.
#[tactic(auto, unfolding(crate::specs::Offsets::fits))]
fn fraction_end(bytes: &[u8]) -> usize
    requires { 20 ≤ length bytes.now }
    ensures { result ≡ end_from bytes.now 20 }
{
    let mut before = bytes[19];
    for at in 20..bytes.len() {
        if !fits_fraction(before, bytes[at]) {
            return at;
        }
        before = bytes[at];
    }
    bytes.len()
}

/// The offset of the first byte that may not stand there, or the end. Linear in the length.
fn first_mismatch(bytes: &[u8]) -> usize
    ensures { result ≡ fitting_end 0 0 bytes.now }
{
    let mut before = 0;
    for (at, byte) in bytes.iter().enumerate() {
        if !fits(at, before, *byte) {
            return at;
        }
        before = *byte;
    }
    bytes.len()
}

/// Whether `byte` may stand at offset `at`, after the byte `before`.
#[tactic(auto, unfolding(crate::specs::Offsets::fits))]
fn fits(at: usize, before: u8, byte: u8) -> bool
    ensures { result ≡ fits at before byte }
{
    if at < 19 {
        let (least, greatest) = bounds(at, before);
        least <= byte && byte <= greatest
    } else if at == 19 {
        byte == b'.' || byte == b'Z'
    } else {
        fits_fraction(before, byte)
    }
}

/// The least and the greatest byte at an offset before the fraction. The first digit of a pair
/// bounds the second, as in `1x` for a month.
#[tactic(auto, unfolding(crate::specs::Offsets::bounds_at))]
fn bounds(at: usize, before: u8) -> (u8, u8)
    ensures { result ≡ bounds_at at before }
{
    match (at, before) {
        (4 | 7, _) => (b'-', b'-'),
        (5, _) => (b'0', b'1'),
        (6, b'0') => (b'1', b'9'),
        (6, _) => (b'0', b'2'),
        (8, _) => (b'0', b'3'),
        (9, b'0') => (b'1', b'9'),
        (9, b'3') => (b'0', b'1'),
        (10, _) => (b'T', b'T'),
        (11, _) => (b'0', b'2'),
        (12, b'2') => (b'0', b'3'),
        (13 | 16, _) => (b':', b':'),
        (14 | 17, _) => (b'0', b'5'),
        _ => (b'0', b'9'),
    }
}

/// Whether the byte may follow the first byte of a fraction: as a digit, or as the final `Z`.
#[tactic(auto, unfolding(crate::specs::Offsets::fits_fraction))]
fn fits_fraction(before: u8, byte: u8) -> bool
    ensures { result ≡ fits_fraction before byte }
{
    match before {
        b'Z' => false,
        b'.' => byte.is_ascii_digit(),
        _ => byte.is_ascii_digit() || byte == b'Z',
    }
}
