ghost use Rattle.std.specs.Prelude.{◌≡◌, ◌<◌, ◌+◌, ◌^◌};
ghost use Rattle.taxii_client.specs.Totals.{with_tally};

use crate::Tally;

/// The outcome of the entries of all absorbed pages.
#[derive(Clone, Copy, Debug, PartialEq, Eq)]
pub struct Totals {
    pub pages: u64,
    /// The number of objects that became rows.
    pub added: u128,
    /// The number of objects that were already present.
    pub present: u128,
    /// The number of entries that are no JSON value or violate a rule.
    pub skipped: u128,
}

impl Totals {
    /// No pages.
    pub(crate) fn new() -> Totals
        ensures { result ≡ record { pages = 0; added = 0; present = 0; skipped = 0 } }
    {
        Totals {
            pages: 0,
            added: 0,
            present: 0,
            skipped: 0,
        }
    }

    /// Adds a page.
    pub(crate) fn add(&mut self, tally: &Tally)
        requires pages { self.old.pages < 2 ^ 63 }
        requires added { self.old.added < 2 ^ 127 }
        requires present { self.old.present < 2 ^ 127 }
        requires skipped { self.old.skipped < 2 ^ 127 }
        ensures sums { self.new ≡ with_tally tally.now self.old }
        ensures few_added { self.new.added < self.old.added + 2 ^ 64 }
        ensures few_present { self.new.present < self.old.present + 2 ^ 64 }
        ensures few_skipped { self.new.skipped < self.old.skipped + 2 ^ 64 }
    {
        self.pages += 1;
        self.added += u128::from(tally.added);
        self.present += u128::from(tally.present);
        self.skipped += u128::from(tally.skipped);
    }
}
