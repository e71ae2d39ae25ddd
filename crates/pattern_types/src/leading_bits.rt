//! The leading bits of a number: shifted down, or masked.
ghost use Rattle.std.specs.Prelude.{◌≡◌, ◌*◌, ◌/◌, ◌^◌, ◌≤◌};

/// The number shifted right by `host_bits` bits. Also right for a shift of all 128 bits.
pub(crate) fn cut_off(number: u128, host_bits: u8) -> u128
    requires { host_bits ≤ 128 }
    ensures { result ≡ number / 2 ^ host_bits }
{
    number.checked_shr(u32::from(host_bits)).unwrap_or(0)
}

/// The number with its last `host_bits` bits set to zero.
pub(crate) fn zeroed(number: u128, host_bits: u8) -> u128
    requires { host_bits ≤ 128 }
    ensures { result ≡ number / 2 ^ host_bits * 2 ^ host_bits }
{
    cut_off(number, host_bits)
        .checked_shl(u32::from(host_bits))
        .unwrap_or(0)
}
