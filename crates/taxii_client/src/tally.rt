ghost use Rattle.std.specs.Prelude.{◌≡◌, not, count_by};
ghost use Rattle.taxii_client.specs.Absorbing.{is_added};

use taxii_store::AddOutcome;

/// The outcome of a page's entries.
#[derive(Clone, Copy, Debug, PartialEq, Eq)]
pub struct Tally {
    /// The number of objects that became rows.
    pub added: u64,
    /// The number of objects that were already present.
    pub present: u64,
    /// The number of entries that are no JSON value or violate a rule.
    pub skipped: u64,
}

impl Tally {
    /// The tally of an addition with these outcomes, and of the entries skipped besides.
    pub(crate) fn of(outcomes: &[AddOutcome], skipped: u64) -> Tally
        ensures added { result.added ≡ count_by is_added outcomes.now }
        ensures present { result.present
            ≡ count_by (λ outcome. not (is_added outcome)) outcomes.now }
        ensures skipped { result.skipped ≡ skipped }
    {
        Tally {
            added: count_added(outcomes) as u64,
            present: count_present(outcomes) as u64,
            skipped,
        }
    }
}

fn count_added(outcomes: &[AddOutcome]) -> usize
    ensures { result ≡ count_by is_added outcomes.now }
{
    outcomes
        .iter()
        .filter(|outcome| matches!(outcome, AddOutcome::Added { .. }))
        .count()
}

fn count_present(outcomes: &[AddOutcome]) -> usize
    ensures { result ≡ count_by (λ outcome. not (is_added outcome)) outcomes.now }
{
    outcomes
        .iter()
        .filter(|outcome| matches!(outcome, AddOutcome::Present { .. }))
        .count()
}
