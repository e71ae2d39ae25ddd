//! Cursor pagination: a page starts after the date in `next`, found by binary search, and scans
//! until it is full.

ghost use Rattle.std.specs.Prelude.{◌≡◌, ◌↔◌, ◌⊎◌, ◌<◌, ◌≤◌, ◌+◌, ◌-◌, ◌^◌, IsTrue, length, min};
ghost use Rattle.std.specs.Prelude.{map, IfOk, option_map, Some};
ghost use Rattle.taxii_store.specs.Page.{page_size as size_of, IsPage};

use crate::Library;
use crate::asked::RowFilter;
use crate::candidates::{asks_for_version, candidates};
use crate::cursor::cursor;
use flow_values::NoMemory;
use std::alloc::Global;
use stix_ids::Id;
use taxii_routes::Query;
use taxii_rows::StoredRow;

/// A page of rows (TAXII 2.1, section 3.4).
#[derive(Drop)]
pub struct Page<'a> {
    /// The rows, by date.
    pub rows: Vec<&'a StoredRow>,
    /// Whether more matching rows follow.
    pub more: bool,
}

/// The maximum number of rows of a page.
const MOST_ROWS: u64 = 100;

/// The maximum number of bytes of a page of several objects. With what an envelope adds it is less
/// than the 67,108,864 that a client of Belkasim accepts.
const MOST_BYTES: usize = 67_000_000;

/// The page of a query: the first matching rows of a collection, by date, and of one object only if
/// `only` names it. It has at most 100 rows, or the query's `limit` if that is less, and ends
/// before the row that would bring it past 67,000,000 bytes.
///
/// The first page of one object takes O(k log n) for its k rows. Any other page scans from its
/// cursor until it is full, so all pages of a walk together scan each row once.
pub fn page_of<'a>(
    alloc: Global,
    library: &'a Library,
    collection: u128,
    only: Option<&'a Id>,
    query: &'a Query,
) -> Result<Page<'a>, NoMemory>
    ensures { IfOk result
        (λ page. IsPage library.now.rows collection
        (option_map (λ id. id.now) only.entry) query.now
        (map (λ row. row.now) page.rows.items) page.more) }
{
    match (only, query.next) {
        (Some(id), None) => page_of_object(alloc, library, collection, id, query),
        _ => page_of_all(alloc, library, collection, only, query),
    }
}

/// The page, by a scan from the cursor until it is full.
fn page_of_all<'a>(
    alloc: Global,
    library: &'a Library,
    collection: u128,
    only: Option<&'a Id>,
    query: &'a Query,
) -> Result<Page<'a>, NoMemory>
    ensures { IfOk result
        (λ page. IsPage library.now.rows collection
        (option_map (λ id. id.now) only.entry) query.now
        (map (λ row. row.now) page.rows.items) page.more) }
{
    let size = page_size(query);
    let mut asked = RowFilter::of(alloc, collection, only, query)?;
    let later = candidates(library, query);
    let mut place = library.rows().len().saturating_sub(later.len());
    let mut rows = Vec::new(alloc);
    let mut bytes = 0;
    for row in later {
        if asked.meets(library, place, row) {
            let taken = bytes_with(bytes, row);
            if !has_room(rows.len(), size, taken) {
                return Ok(Page { rows, more: true });
            }
            rows.push(row)?;
            bytes = taken;
        }
        place = place.saturating_add(1);
    }
    Ok(Page { rows, more: false })
}

/// The page of one object, whose rows the index finds.
fn page_of_object<'a>(
    alloc: Global,
    library: &'a Library,
    collection: u128,
    id: &'a Id,
    query: &'a Query,
) -> Result<Page<'a>, NoMemory>
    ensures { IfOk result
        (λ page. IsPage library.now.rows collection (Some id.now) query.now
        (map (λ row. row.now) page.rows.items) page.more) }
{
    let mut rows = Vec::new(alloc);
    if !asks_for_version(query) {
        return Ok(Page { rows, more: false });
    }
    let size = page_size(query);
    let after = cursor(query);
    let mut asked = RowFilter::of(alloc, collection, Some(id), query)?;
    let own = library.rows_of(collection, id)?;
    let mut bytes = 0;
    for row in own.as_slice() {
        if row.date > after && asked.meets(library, library.position_of(row.date), row) {
            let taken = bytes_with(bytes, row);
            if !has_room(rows.len(), size, taken) {
                return Ok(Page { rows, more: true });
            }
            rows.push(*row)?;
            bytes = taken;
        }
    }
    Ok(Page { rows, more: false })
}

/// The maximum number of rows of the query's page.
fn page_size(query: &Query) -> usize
    ensures { result ≡ size_of query.now }
{
    query.limit.unwrap_or(MOST_ROWS).min(MOST_ROWS) as usize
}

/// The bytes that a page takes with one more row, or `usize::MAX` if they are more.
fn bytes_with(bytes: usize, row: &StoredRow) -> usize
    ensures { result ≡ min (bytes + length row.now.body + 1) (2 ^ 64 - 1) }
{
    bytes.saturating_add(row.body.len()).saturating_add(1)
}

/// Whether a page with this number of rows has room for one that brings it to `bytes`.
fn has_room(rows: usize, size: usize, bytes: usize) -> bool
    ensures { IsTrue result ↔ ((rows < size) × ((rows ≡ 0) ⊎ (bytes ≤ 67000000))) }
{
    rows < size && (rows == 0 || bytes <= MOST_BYTES)
}
