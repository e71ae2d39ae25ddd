//! The tables and statements of a store. A connection caches the plans of its last 64 statement
//! texts, so each of these is compiled once.

/// The layout version of the tables below.
pub(crate) const VERSION: i64 = 2;

/// The previous version. It has these tables, too, but each addition wrote the watermark even if
/// its last row had that date.
pub(crate) const VERSION_BEFORE: i64 = 1;

/// The table of the rows, as SQLite's schema table lists it.
pub(crate) const ROW_TABLE: &str =
    "CREATE TABLE stix_row (date INTEGER PRIMARY KEY, collection BLOB NOT NULL, kind TEXT NOT NULL, number BLOB NOT NULL, version INTEGER NOT NULL, dated INTEGER NOT NULL, body TEXT NOT NULL) STRICT";

/// The table of the watermark, likewise.
pub(crate) const WATERMARK_TABLE: &str =
    "CREATE TABLE stix_mark (one INTEGER PRIMARY KEY CHECK (one = 1), date INTEGER NOT NULL) STRICT";

/// The table of the layout version, likewise.
pub(crate) const LAYOUT_TABLE: &str =
    "CREATE TABLE stix_store (one INTEGER PRIMARY KEY CHECK (one = 1), version INTEGER NOT NULL) STRICT";

/// The watermark of a store without rows.
pub(crate) const FIRST_WATERMARK: &str = "INSERT INTO stix_mark (one, date) VALUES (1, 0)";

/// Records this layout version.
pub(crate) const NAME_LAYOUT: &str = "REPLACE INTO stix_store (one, version) VALUES (1, 2)";

/// Counts the schema objects that SQLite itself did not create: all, those that are the tables of
/// rows and watermark, and those that are the table of the layout version.
pub(crate) const COUNT_TABLES: &str =
    "SELECT count(*), count(CASE WHEN replace(sql, 'IF NOT EXISTS ', '') IN (?1, ?2) THEN 1 END), count(CASE WHEN replace(sql, 'IF NOT EXISTS ', '') = ?3 THEN 1 END) FROM sqlite_schema WHERE name NOT LIKE 'sqlite%'";

/// Reads the layout version.
pub(crate) const READ_VERSION: &str = "SELECT version FROM stix_store WHERE one = 1";

/// Counts the rows with dates up to 0, which `NEXT_ROW` never returns.
pub(crate) const COUNT_EARLY_ROWS: &str = "SELECT count(*) FROM stix_row WHERE date <= 0";

/// The first row later than a date.
pub(crate) const NEXT_ROW: &str =
    "SELECT date, collection, kind, number, version, dated, body FROM stix_row WHERE date > ?1 ORDER BY date LIMIT 1";

/// Adds a row, its columns in the order of the table.
pub(crate) const INSERT_ROW: &str =
    "INSERT INTO stix_row (date, collection, kind, number, version, dated, body) VALUES (?1, ?2, ?3, ?4, ?5, ?6, ?7)";

/// Removes the row of a date.
pub(crate) const DELETE_ROW: &str = "DELETE FROM stix_row WHERE date = ?1";

/// The watermark: the later of the stored one and the date of the last row. The engine scans a
/// table for a subquery in an expression, but not for a joined one.
pub(crate) const READ_WATERMARK: &str =
    "SELECT max(mark.date, ifnull(newest.date, mark.date)) FROM stix_mark AS mark LEFT JOIN (SELECT date FROM stix_row ORDER BY date DESC LIMIT 1) AS newest ON 1 WHERE mark.one = 1";

/// Stores the watermark as `READ_WATERMARK` returns it.
pub(crate) const KEEP_WATERMARK: &str =
    "REPLACE INTO stix_mark (one, date) SELECT 1, max(mark.date, ifnull(newest.date, mark.date)) FROM stix_mark AS mark LEFT JOIN (SELECT date FROM stix_row ORDER BY date DESC LIMIT 1) AS newest ON 1 WHERE mark.one = 1";

/// Stores a date as the watermark.
pub(crate) const WRITE_WATERMARK: &str = "REPLACE INTO stix_mark (one, date) VALUES (1, ?1)";
