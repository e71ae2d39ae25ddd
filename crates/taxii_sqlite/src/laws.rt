//! Theorems about the definitions. Each `ensures` states one; the functions have no effect.

ghost use Rattle.std.specs.Prelude.{ℕ, List, Option};
ghost use Rattle.taxii_rows.specs.declared.stored_row.StoredRow.{StoredRow as Row};
ghost use Rattle.taxii_sqlite.specs.declared.connection.Database.{Database as Held};
ghost use Rattle.taxii_sqlite.specs.Databases.{FindsNext, FindsWatermark, Appends, Removes};
ghost use Rattle.taxii_sqlite.specs.Databases.{IsClosedByDisk, IsClean};

use sqlite_disk::Disk;

/// A file that a disk failure has closed answers no call: nothing is changed, and no row or
/// watermark is returned.
pub fn closed_by_disk_answers_nothing<D: Disk + Drop>()
    ensures next { (before after : Held D D.Disk) (date : ℕ) (found : Option Row)
        → IsClosedByDisk before → IsClean after → ¬ FindsNext date before after found }
    ensures watermark { (before after : Held D D.Disk) (watermark : ℕ) → IsClosedByDisk before
        → IsClean after → ¬ FindsWatermark before after watermark }
    ensures added { (before after : Held D D.Disk) (rows : List Row) (watermark : ℕ)
        → IsClosedByDisk before → IsClean after → ¬ Appends rows watermark before after }
    ensures removed { (before after : Held D D.Disk) (dates : List ℕ) → IsClosedByDisk before
        → IsClean after → ¬ Removes dates before after }
{}
