ghost use Rattle.std.specs.Prelude.{◌↔◌, IsTrue, IfSome, codes};
ghost use Rattle.std.specs.List.{Contains};
ghost use Rattle.taxii_rows.specs.StoreState.{dates_of, AscendFrom};
ghost use Rattle.taxii_store.specs.inner.Candidates.{AreCandidateRows, IsCutAt};

use crate::Library;
use crate::cursor::cursor;
use flow_values::{Items, Text};
use taxii_routes::Query;
use taxii_rows::StoredRow;

/// The rows whose date can match the query, found by binary search; none if `match[spec_version]`
/// excludes 2.1, the version of all rows.
pub(crate) fn candidates<'a>(library: &'a Library, query: &Query) -> &'a [StoredRow]
    ensures ascend { AscendFrom 1 (dates_of library.now.rows) }
    ensures candidates { AreCandidateRows query.now library.now.rows result.now }
{
    let rows = library.rows();
    if asks_for_version(query) {
        rows_after(rows, cursor(query))
    } else {
        &rows[rows.len()..]
    }
}

/// Whether `match[spec_version]` allows 2.1.
pub(crate) fn asks_for_version(query: &Query) -> bool
    ensures { IsTrue result ↔ IfSome query.now.specs (λ specs. Contains specs (codes "2.1")) }
{
    names_text(&query.specs, "2.1")
}

/// The rows added later than the date. Binary search.
fn rows_after(rows: &[StoredRow], date: u64) -> &[StoredRow]
    requires { AscendFrom 1 (dates_of rows.now) }
    ensures { IsCutAt date rows.now result.now }
{
    let first = rows.partition_point(|row| row.date <= date);
    &rows[first..]
}

/// Whether the list contains the text; without a list, any text matches.
fn names_text(texts: &Option<Items<Text>>, text: &str) -> bool
    ensures { IsTrue result ↔ IfSome texts.now (λ texts. Contains texts text.now) }
{
    match texts {
        Some(texts) => texts.as_slice().iter().any(|one| one.as_str() == text),
        None => true,
    }
}
