//! A scanner for kinds with one byte of state, the previous byte. Every prefix that it accepts can
//! be extended to a kind, so the offset where it stops is the longest viable prefix.

ghost use Rattle.std.specs.Prelude.{◌≡◌, ◌≢◌, ◌↔◌, IsTrue, IsOk, IfErr};
ghost use Rattle.stix_ids.specs.Kind.{IsKind, IsKindByte, IsLongestKindPrefix};

const LEAST_LENGTH: usize = 3;

const GREATEST_LENGTH: usize = 250;

/// Checks a kind, the name of an object type (STIX 2.1, section 3.1). The error is the length of
/// the longest prefix that some kind begins with.
pub fn read_kind(text: &str) -> Result<(), usize>
    ensures ok { IsOk result ↔ IsKind text.now }
    ensures err { IfErr result (IsLongestKindPrefix text.now) }
{
    check_kind(text.as_bytes())
}

/// Checks a kind given as bytes, which needn't be UTF-8.
fn check_kind(bytes: &[u8]) -> Result<(), usize>
    ensures ok { IsOk result ↔ IsKind bytes.now }
    ensures err { IfErr result (IsLongestKindPrefix bytes.now) }
{
    let at = longest_prefix_length(bytes);
    if at < bytes.len() || at < LEAST_LENGTH {
        return Err(at);
    }
    Ok(())
}

/// The length of the longest prefix that some kind begins with.
fn longest_prefix_length(bytes: &[u8]) -> usize
    ensures { IsLongestKindPrefix bytes.now result }
{
    let end = bytes.len().min(GREATEST_LENGTH);
    let mut before = 0;
    for at in 0..end {
        let byte = bytes[at];
        if !may_follow(before, byte) {
            return at;
        }
        before = byte;
    }
    end
}

/// Whether `byte` may follow the byte `before` in a kind. Tests for letters first, since most bytes
/// are letters.
fn may_follow(before: u8, byte: u8) -> bool
    ensures { IsTrue result ↔ (IsKindByte byte × (before ≡ 45 → byte ≢ 45)) }
{
    if byte.is_ascii_lowercase() {
        true
    } else if byte == b'-' {
        before != b'-'
    } else {
        byte.is_ascii_digit()
    }
}
