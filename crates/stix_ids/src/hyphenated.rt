ghost use Rattle.std.specs.Prelude.{◌≡◌, length, IfSome, IfNone};
ghost use Rattle.stix_ids.specs.Uuid.{IsUuidOf, IsUuid, uuid_text};

use uuid::Uuid;

/// The length of a UUID in hyphenated form, in bytes.
const UUID_LENGTH: usize = 36;

/// The number of a UUID in hyphenated form (RFC 4122, section 3), with digits of either case. Any
/// version of UUID is accepted. Allocates nothing.
pub fn read_uuid(text: &str) -> Option<u128>
    ensures some { IfSome result (IsUuidOf text.now) }
    ensures none { IfNone result (¬ IsUuid text.now) }
{
    let bytes = text.as_bytes();
    if bytes.len() == UUID_LENGTH {
        read_number(bytes)
    } else {
        None
    }
}

/// The number of a UUID in hyphenated form of 36 bytes, with digits of either case.
pub(crate) fn read_number(bytes: &[u8]) -> Option<u128>
    requires { length bytes.now ≡ 36 }
    ensures some { IfSome result (IsUuidOf bytes.now) }
    ensures none { IfNone result (¬ IsUuid bytes.now) }
{
    match Uuid::try_parse_ascii(bytes) {
        Ok(uuid) => Some(uuid.as_u128()),
        Err(_) => None,
    }
}

/// Writes a number as a UUID in hyphenated form, with lower-case digits.
pub fn write_uuid<'b>(number: u128, buffer: &'b mut [u8; 36]) -> &'b str
    ensures { result.now ≡ uuid_text number }
{
    Uuid::from_u128(number)
        .hyphenated()
        .encode_lower(buffer.as_mut_slice())
}
