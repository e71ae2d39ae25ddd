//! Names: keyed hashes (std's `DefaultHasher`) of objects and of object texts. The secret is hashed
//! first, so clients cannot construct collisions.

ghost use Rattle.std.specs.Prelude.{◌≡◌};
ghost use Rattle.taxii_index.specs.Names.{id_of_number, fed_with, name_of, text_name_of};

use std::hash::{DefaultHasher, Hasher};
use stix_ids::Id;

/// The hash of an object in a collection.
pub(crate) fn object_name(secret: u128, collection: u128, id: &Id) -> u64
    ensures { result ≡ name_of secret collection id.now }
{
    object_hasher(secret, collection, id).finish()
}

/// The hash of the object with this UUID and type in the collection.
pub(crate) fn parts_name(secret: u128, collection: u128, number: u128, kind: &str) -> u64
    ensures { result ≡ name_of secret collection (id_of_number number kind.now) }
{
    parts_hasher(secret, collection, number, kind).finish()
}

/// The hash of one text of an object. No type contains a zero byte, so type and text are separated.
pub(crate) fn text_name(secret: u128, collection: u128, id: &Id, body: &str) -> u64
    ensures { result ≡ text_name_of secret collection id.now body.now }
{
    let mut hasher = object_hasher(secret, collection, id);
    hasher.write(&[0]);
    hasher.write(body.as_bytes());
    hasher.finish()
}

/// A hasher that has read the secret, the collection and the object's identifier.
fn object_hasher(secret: u128, collection: u128, id: &Id) -> DefaultHasher
    ensures { result ≡ fed_with secret collection id.now }
{
    parts_hasher(secret, collection, id.number, id.kind.as_str())
}

fn parts_hasher(secret: u128, collection: u128, number: u128, kind: &str) -> DefaultHasher
    ensures { result ≡ fed_with secret collection (id_of_number number kind.now) }
{
    let mut hasher = DefaultHasher::new();
    hasher.write(&secret.to_le_bytes());
    hasher.write(&collection.to_le_bytes());
    hasher.write(&number.to_le_bytes());
    hasher.write(kind.as_bytes());
    hasher
}
