//! The request of a `serve`, from the values that `clap` found.

ghost use Rattle.std.specs.Prelude.{◌≡◌, ◌↔◌, ℕ, List, Option, Some, true, codes, map, nat_eq};
ghost use Rattle.std.specs.Prelude.{IfNone, IfOk, IfSome, option_copied, option_map};
ghost use Rattle.std.specs.List.{IsDistinct, list_any};
ghost use Rattle.clap.specs.Words.{first_of};
ghost use Rattle.command_line.specs.CommandLines.{AreCollectionsOf, IsBase, IsFile};
ghost use Rattle.command_line.specs.CommandLines.{PlainCollection, PlainService};
ghost use Rattle.command_line.specs.Request.{plain_collection, plain_service};
ghost use Rattle.command_line.specs.declared.numbers.TheConstants.{MAX_PORT};
ghost use Rattle.command_line.specs.inner.Rows.{IsPresentNumberText, IsServeIn, IsTextOrNone};
ghost use Rattle.command_line.specs.inner.Rows.{parsed_rows};
ghost use Rattle.command_line.specs.inner.Rows.{arguments_at};

use crate::base::is_base;
use crate::collections::collection_of;
use crate::numbers::{MAX_CONNECTIONS, MAX_PORT};
use crate::read::{number_of, value_of};
use crate::request::{CollectionRequest, ServeRequest};
use clap::ArgMatches;
use flow_values::{Items, NoMemory};
use std::alloc::Global;

/// The names of the positional arguments of a `serve`.
pub(crate) const COLLECTION_NAMES: [&str; 64] = [
    "1", "2", "3", "4", "5", "6", "7", "8", "9", "10", "11", "12", "13", "14", "15", "16", "17",
    "18", "19", "20", "21", "22", "23", "24", "25", "26", "27", "28", "29", "30", "31", "32", "33",
    "34", "35", "36", "37", "38", "39", "40", "41", "42", "43", "44", "45", "46", "47", "48", "49",
    "50", "51", "52", "53", "54", "55", "56", "57", "58", "59", "60", "61", "62", "63", "64",
];

/// The request of a `serve`, if its values are valid.
pub(crate) fn serve_in<'a>(
    alloc: Global,
    values: &ArgMatches<'a>,
) -> Result<Option<ServeRequest<'a>>, NoMemory>
    ensures some { IfOk result (λ found. IfSome found
        (λ asked. IsServeIn (parsed_rows values.now) (plain_service asked))) }
    ensures none { IfOk result (λ found. IfNone found
        ((service : PlainService) → ¬ IsServeIn (parsed_rows values.now) service)) }
{
    let Some(port) = port_in(values) else {
        return Ok(None);
    };
    let Some(connections) = number_of(values, "connections", 1, MAX_CONNECTIONS) else {
        return Ok(None);
    };
    let Some(store) = file_in(value_of(values, "store")) else {
        return Ok(None);
    };
    let Some(base) = base_in(value_of(values, "base")) else {
        return Ok(None);
    };
    let Some(collections) = collections_in(alloc, values, &COLLECTION_NAMES)? else {
        return Ok(None);
    };
    if collections.is_empty() || !do_all_differ(collections.as_slice()) {
        return Ok(None);
    }
    Ok(Some(ServeRequest {
        port,
        connections,
        store,
        base,
        collections,
    }))
}

/// The port.
fn port_in(values: &ArgMatches<'_>) -> Option<u16>
    ensures { (port : ℕ) → (result ≡ Some port)
        ↔ IsPresentNumberText 1 MAX_PORT (first_of (codes "port") (parsed_rows values.now)) port }
{
    let port = number_of(values, "port", 1, MAX_PORT)?;
    Some(port as u16)
}

/// Checks a file name; an absent option is valid, an empty name is not.
fn file_in(text: Option<&str>) -> Option<Option<&str>>
    ensures { (given : Option (List ℕ))
        → (option_map (option_map (λ name. name.now)) result ≡ Some given)
        ↔ IsTextOrNone IsFile (option_copied text.entry) given }
{
    match text {
        Some("") => None,
        _ => Some(text),
    }
}

/// Checks a base URL; an absent option is valid.
fn base_in(text: Option<&str>) -> Option<Option<&str>>
    ensures { (given : Option (List ℕ))
        → (option_map (option_map (λ url. url.now)) result ≡ Some given)
        ↔ IsTextOrNone IsBase (option_copied text.entry) given }
{
    match text {
        Some(url) if !is_base(url) => None,
        _ => Some(text),
    }
}

/// Parses the collections at these positional arguments, in order.
fn collections_in<'a>(
    alloc: Global,
    values: &ArgMatches<'a>,
    names: &[&str],
) -> Result<Option<Items<CollectionRequest<'a>>>, NoMemory>
    ensures some { IfOk result (λ found. IfSome found (λ asked. AreCollectionsOf
        (arguments_at (map (λ name. name.now) names.now) (parsed_rows values.now))
        (map plain_collection asked))) }
    ensures none { IfOk result (λ found. IfNone found ((collections : List PlainCollection)
        → ¬ AreCollectionsOf (arguments_at (map (λ name. name.now) names.now)
        (parsed_rows values.now))
        collections)) }
{
    let mut collections = Items::new(alloc);
    for name in names {
        let Some(argument) = value_of(values, name) else {
            continue;
        };
        let Some(collection) = collection_of(argument) else {
            return Ok(None);
        };
        collections.push(collection)?;
    }
    Ok(Some(collections))
}

/// Whether all identifiers are distinct. O(n²) for at most 64 collections.
fn do_all_differ(collections: &[CollectionRequest<'_>]) -> bool
    ensures { (result ≡ true) ↔ IsDistinct nat_eq (map (λ asked. asked.id) collections.now) }
{
    for place in 0..collections.len() {
        if has_id(&collections[place + 1..], collections[place].id) {
            return false;
        }
    }
    true
}

/// Whether one of the collections has the identifier.
fn has_id(collections: &[CollectionRequest<'_>], id: u128) -> bool
    ensures { result ≡ list_any (λ asked. nat_eq id asked.id) collections.now }
{
    collections.iter().any(|asked| asked.id == id)
}
