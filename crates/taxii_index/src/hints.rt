ghost use Rattle.std.specs.Prelude.{◌≡◌, ◌≢◌, ℕ, [], List, true, map, nat_le};
ghost use Rattle.taxii_rows.specs.declared.stored_row.StoredRow.{StoredRow as Row};
ghost use Rattle.taxii_rows.specs.StoreState.{AscendFrom};
ghost use Rattle.taxii_rows.specs.Keeper.{is_date_in};
ghost use Rattle.taxii_index.specs.Hints.{ComesBefore, AreTrueOf, forgotten as forgotten_hint};
ghost use Rattle.taxii_index.specs.Hints.{hints_without};

use crate::dates::is_among;
use flow_values::NoMemory;
use std::alloc::Global;
use taxii_rows::StoredRow;

/// The hint of a row: the dates of a later and of an earlier version of its object, or 0 if
/// unknown.
#[derive(Clone, Copy, Debug, PartialEq, Eq)]
pub(crate) struct Hint {
    pub(crate) date: u64,
    pub(crate) later: u64,
    pub(crate) earlier: u64,
}

/// The hints of rows, by date. What they state is true; what they leave out may be true, too.
#[derive(Drop)]
pub(crate) struct Hints {
    hints: Vec<Hint>,
}

impl Hints {
    /// No hints. Allocates nothing.
    pub(crate) fn new(alloc: Global) -> Hints
        ensures { result.hints.items ≡ [] }
    {
        Hints {
            hints: Vec::new(alloc),
        }
    }

    /// Appends an empty hint for a date later than all others.
    pub(crate) fn push(&mut self, date: u64) -> Result<(), NoMemory>
        ensures { (rows : List Row) → AreTrueOf rows self.old.hints.items
            → AreTrueOf rows self.new.hints.items }
    {
        self.hints.push(Hint {
            date,
            later: 0,
            earlier: 0,
        })?;
        Ok(())
    }

    /// Appends empty hints for the dates of some rows, which are later than all others.
    pub(crate) fn push_all(&mut self, rows: &[StoredRow]) -> Result<(), NoMemory>
        ensures { (all : List Row) → AreTrueOf all self.old.hints.items
            → AreTrueOf all self.new.hints.items }
    {
        self.hints.reserve(rows.len())?;
        for row in rows {
            self.push(row.date)?;
        }
        Ok(())
    }

    /// The hint of a date. Binary search. Allocates nothing; nor do the calls below.
    pub(crate) fn of(&self, date: u64) -> Option<Hint> {
        let at = self.hints.partition_point(|hint| hint.date < date);
        let hint = self.hints.get(at)?;
        if hint.date == date { Some(*hint) } else { None }
    }

    /// Records that the row of the second date is a later version than that of the first, if their
    /// hints are at these positions.
    pub(crate) fn note(&mut self, position: usize, first: u64, following: usize, second: u64)
        ensures { (rows : List Row) → ComesBefore rows first second
            → AreTrueOf rows self.old.hints.items → AreTrueOf rows self.new.hints.items }
    {
        self.note_later(position, first, second);
        self.note_earlier(following, second, first);
    }

    fn note_later(&mut self, at: usize, date: u64, later: u64)
        ensures { (rows : List Row) → ComesBefore rows date later
            → AreTrueOf rows self.old.hints.items → AreTrueOf rows self.new.hints.items }
    {
        if at < self.hints.len() {
            let hint = self.hints[at];
            if hint.date == date {
                self.hints[at] = Hint {
                    date,
                    later,
                    earlier: hint.earlier,
                };
            }
        }
    }

    fn note_earlier(&mut self, at: usize, date: u64, earlier: u64)
        ensures { (rows : List Row) → ComesBefore rows earlier date
            → AreTrueOf rows self.old.hints.items → AreTrueOf rows self.new.hints.items }
    {
        if at < self.hints.len() {
            let hint = self.hints[at];
            if hint.date == date {
                self.hints[at] = Hint {
                    date,
                    later: hint.later,
                    earlier,
                };
            }
        }
    }

    /// Whether a later version of the row of this date is known, if its hint is at this position.
    pub(crate) fn knows_later(&self, position: usize, date: u64) -> bool
        ensures { (rows : List Row) → AreTrueOf rows self.now.hints.items → result ≡ true
            → (later : ℕ) × ComesBefore rows date later }
    {
        match self.hints.get(position) {
            Some(hint) => hint.later != 0 && hint.date == date,
            None => false,
        }
    }

    /// Whether an earlier version of the row of this date is known, if its hint is at this
    /// position.
    pub(crate) fn knows_earlier(&self, position: usize, date: u64) -> bool
        ensures { (rows : List Row) → AreTrueOf rows self.now.hints.items → result ≡ true
            → (earlier : ℕ) × ComesBefore rows earlier date }
    {
        match self.hints.get(position) {
            Some(hint) => hint.earlier != 0 && hint.date == date,
            None => false,
        }
    }

    /// Removes the hints of these dates, and all references to them.
    pub(crate) fn forget(&mut self, dates: &[u64])
        requires { AscendFrom 0 dates.now }
        ensures { self.new.hints.items ≡ hints_without (is_date_in dates.now) self.old.hints.items }
    {
        self.hints.retain(|hint| !is_among(dates, hint.date));
        forget_rows(&mut self.hints, dates);
    }

    /// Removes the hints from a date on, and all references to them.
    pub(crate) fn forget_from(&mut self, date: u64)
        ensures { self.new.hints.items
            ≡ hints_without (λ other. nat_le date other) self.old.hints.items }
    {
        self.hints.retain(|hint| hint.date < date);
        forget_rows_from(&mut self.hints, date);
    }
}

fn forget_rows(hints: &mut Vec<Hint>, dates: &[u64])
    requires { AscendFrom 0 dates.now }
    ensures { hints.new.items ≡ map (forgotten_hint (is_date_in dates.now)) hints.old.items }
{
    for hint in hints.iter_mut() {
        forget_among(hint, dates);
    }
}

fn forget_rows_from(hints: &mut Vec<Hint>, date: u64)
    ensures { hints.new.items ≡ map (forgotten_hint (λ other. nat_le date other)) hints.old.items }
{
    for hint in hints.iter_mut() {
        forget_later(hint, date);
    }
}

fn forget_among(hint: &mut Hint, dates: &[u64])
    requires { AscendFrom 0 dates.now }
    ensures { hint.new ≡ forgotten_hint (is_date_in dates.now) hint.old }
{
    if is_among(dates, hint.later) {
        hint.later = 0;
    }
    if is_among(dates, hint.earlier) {
        hint.earlier = 0;
    }
}

fn forget_later(hint: &mut Hint, date: u64)
    ensures { hint.new ≡ forgotten_hint (λ other. nat_le date other) hint.old }
{
    if date <= hint.later {
        hint.later = 0;
    }
    if date <= hint.earlier {
        hint.earlier = 0;
    }
}
