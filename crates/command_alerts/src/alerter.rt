ghost use Rattle.std.specs.Prelude.{◌≡◌, ◌+◌, ◌≤ℤ◌, [], ◌∷◌, Err, length, IfOk, OnOk, OnErr};
ghost use Rattle.flow_edges.specs.Faults.{Counted};
ghost use Rattle.stix_bundles.specs.Objects.{data_in};
ghost use Rattle.pattern_types.specs.PlainPattern.{plain_pattern};
ghost use Rattle.match_stream.specs.MatcherState.{Falls};
ghost use Rattle.match_run.specs.Reading.{MayFollow};
ghost use Rattle.command_alerts.specs.inner.Seeing.{IsReadyAlerter, TakesLogRows};
ghost use Rattle.command_alerts.specs.inner.Seeing.{AlerterSeesBundle, SeesFirstOfBundle};
ghost use Rattle.command_alerts.specs.inner.Seeing.{SeesSoFar, SeesPart, alert_row};

use crate::alert_line::line_of;
use alert_window::laws::alerts_persist;
use alert_window::{Watch, WatchRefusal};
use flow_edges::Sink;
use flow_values::NoMemory;
use match_comparisons::leaf_truths;
use match_input::Batch;
use match_run::watch_laws::parts_are_buffered;
use match_run::{CutShort, Pending, SeeEnd, Watcher};
use pattern_types::Pattern;
use std::alloc::Global;
use std::convert::Infallible;
use std::marker::Model;
use stix_bundles::Observation;

/// The alert generator for a log: a pattern, which is one observation expression, and the sliding
/// window of its matches.
#[derive(Drop)]
pub(crate) struct Alerter<'p> {
    alloc: Global,
    pattern: &'p Pattern,
    watch: Watch,
}

impl<'p> Model for Alerter<'p> {
    ghost use Rattle.std.specs.Coded.{codes};
    ghost use Rattle.pattern_types.specs.contracts.pattern.Pattern as held;
    ghost use Rattle.command_alerts.specs.inner.Seeing.{AlerterState};

    ghost Value = { AlerterState };

    ghost coded = { Prim.hlevel (codes, held.the_row.coded) };

    ghost view = { λ alerter. record { pattern = alerter.pattern.now; watch = alerter.watch } };
}

impl<'p> Alerter<'p> {
    /// A generator that has read no observation.
    pub(crate) fn new(alloc: Global, pattern: &'p Pattern, watch: Watch) -> Alerter<'p>
        ensures { result ≡ record { pattern = pattern.now; watch = watch } }
    {
        Alerter {
            alloc,
            pattern,
            watch,
        }
    }

    /// Processes the observations of a bundle in order, and adds their alerts to the pending
    /// output.
    fn report_all<O: Sink>(
        &mut self,
        batch: &Batch,
        pending: &mut Pending,
        output: &mut O,
    ) -> Result<(), CutShort>
        requires ready { IsReadyAlerter self.old }
        requires follow { MayFollow self.old.watch.last
            (self.old.watch.rows + 1) batch.now.observations }
        requires empty { pending.old ≡ [] }
        ensures sees { OnOk result
            (SeesSoFar (data_in batch.now.bundle) batch.now.observations self.old self.new
            pending.new (O.written output.old) (O.written output.new)) }
        ensures part { OnErr result
            (SeesPart (data_in batch.now.bundle) batch.now.observations self.old
            (O.written output.old) (O.written output.new)) }
        ensures causes { Counted (result ≡ Err CutShort.WriteFault) (O.faults output.old)
            (O.faults output.new) }
    {
        alerts_persist();
        parts_are_buffered();
        let observations = batch.observations.as_slice();
        let truths = leaf_truths(self.alloc, self.pattern, observations, &batch.bundle)?;
        let rows = truths.as_slice();
        for at in 0..observations.len() {
            let observation = &observations[at];
            let holds = holds_alone(rows[at].as_slice());
            let text = self.reported_of(observation, holds)?;
            pending.add(&text, output)?;
        }
        Ok(())
    }

    /// Processes the next observation, for which `holds` says whether the expression matches.
    /// Returns its line if it is an alert, else nothing.
    fn reported_of(&mut self, observation: &Observation, holds: bool) -> Result<Vec<u8>, NoMemory>
        requires ready { IsReadyAlerter self.old }
        requires span { observation.now.first ≤ℤ observation.now.last }
        requires number { observation.now.number ≡ self.old.watch.rows + 1 }
        requires order { ¬ (Falls self.old.watch.last observation.now.last) }
        ensures { IfOk result
            (λ text. TakesLogRows (alert_row observation.now holds ∷ []) self.old self.new
            text.items) }
    {
        let number = observation.number;
        match self.watch.take(observation.first, observation.last, holds) {
            Ok(true) => line_of(self.alloc, number, observation.last),
            Ok(false) => Ok(Vec::new(self.alloc)),
            Err(WatchRefusal::NoMemory) => Err(NoMemory),
            Err(WatchRefusal::OutOfOrder { .. }) => unreachable!(),
        }
    }
}

/// Whether the pattern's one observation expression matches.
fn holds_alone(truths: &[bool]) -> bool
    requires { length truths.now ≡ 1 }
    ensures { truths.now ≡ result ∷ [] }
{
    truths[0]
}

impl<'p> Watcher for Alerter<'p> {
    type Stop = Infallible;

    ghost ready = { IsReadyAlerter };

    ghost seen = { λ alerter. alerter.watch.rows };

    ghost last = { λ alerter. alerter.watch.last };

    ghost sees = { AlerterSeesBundle };

    ghost stops = { λ _ _ _ _. ⊥ };

    ghost begins = { SeesFirstOfBundle };

    fn see<O: Sink>(&mut self, batch: &Batch, output: &mut O) -> Result<(), SeeEnd<Infallible>> {
        let mut pending = Pending::new(self.alloc);
        self.report_all(batch, &mut pending, output)?;
        pending.write(output)?;
        Ok(())
    }
}
