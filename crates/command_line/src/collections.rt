//! The collections of a command line.

ghost use Rattle.std.specs.Prelude.{◌≡◌, ◌≢◌, ◌++◌, ℕ, List, Bool, IfNone, IfSome, codes, length};
ghost use Rattle.command_line.specs.CommandLines.{PlainCollection, AreRights, IsCollectionOf};
ghost use Rattle.command_line.specs.Request.{plain_collection};
ghost use Rattle.command_line.specs.declared.collections.TheConstants.{UUID_LENGTH};

use crate::request::CollectionRequest;
use stix_ids::read_uuid;

/// The maximum number of collections.
pub const MAX_COLLECTIONS: usize = 64;

/// The maximum length of a title in bytes.
pub const MAX_TITLE: usize = 256;

/// The length of a UUID in bytes.
const UUID_LENGTH: usize = 36;

/// Parses a COLLECTION argument.
pub(crate) fn collection_of(argument: &str) -> Option<CollectionRequest<'_>>
    ensures some { IfSome result (λ asked. IsCollectionOf argument.now (plain_collection asked)) }
    ensures none { IfNone result ((collection : PlainCollection)
        → ¬ IsCollectionOf argument.now collection) }
{
    let (uuid, rest) = cut_behind_uuid(argument)?;
    let id = read_uuid(uuid)?;
    let (rights, title) = rest.split_once(':')?;
    let (can_read, can_write) = rights_of(rights)?;
    if title.is_empty() || title.len() > MAX_TITLE {
        return None;
    }
    Some(CollectionRequest {
        id,
        can_read,
        can_write,
        title,
    })
}

/// Splits the argument at the colon after its UUID.
fn cut_behind_uuid(argument: &str) -> Option<(&str, &str)>
    ensures some { IfSome result (λ cut. argument.now ≡ cut.0.now ++ (codes ":" ++ cut.1.now)) }
    ensures long { IfSome result (λ cut. length cut.0.now ≡ UUID_LENGTH) }
    ensures none { IfNone result ((front back : List ℕ) → length front ≡ UUID_LENGTH
        → argument.now ≢ front ++ (codes ":" ++ back)) }
{
    let (uuid, behind) = argument.split_at_checked(UUID_LENGTH)?;
    let rest = behind.strip_prefix(':')?;
    Some((uuid, rest))
}

/// Parses the rights: whether clients may read, and whether they may add.
fn rights_of(text: &str) -> Option<(bool, bool)>
    ensures some { IfSome result (λ both. AreRights text.now both.0 both.1) }
    ensures none { IfNone result ((can_read can_write : Bool)
        → ¬ AreRights text.now can_read can_write) }
{
    match text {
        "r" => Some((true, false)),
        "w" => Some((false, true)),
        "rw" => Some((true, true)),
        _ => None,
    }
}
