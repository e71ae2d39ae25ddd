ghost use Rattle.std.specs.Prelude.{◌≡◌, ◌≢◌, ◌↔◌, ◌+◌, ◌∷◌, ◌<◌, ◌≤ℤ◌, [], List, All, Err, IsTrue};
ghost use Rattle.std.specs.Prelude.{length, IfOk, IfErr, OnOk};
ghost use Rattle.flow_edges.specs.Faults.{Counted};
ghost use Rattle.stix_bundles.specs.Objects.{data_in};
ghost use Rattle.match_stream.specs.MatcherState.{Falls};
ghost use Rattle.match_run.specs.Reading.{MayFollow};
ghost use Rattle.hunt_engine.specs.EngineLog.{engine_row};
ghost use Rattle.hunt_engine.specs.Memo.{brackets_of, IsSoundMemo};
ghost use Rattle.hunt_engine.specs.declared.refusal.EngineRefusal.TheVariants.{Ended};
ghost use Rattle.hunt_report.specs.Hunting.{patterns_of, IsHuntable, HuntsOver, IsReadyHunter};
ghost use Rattle.hunt_report.specs.Hunting.{HunterSeesBundle, BeginsBundle, StopsInBundle};
ghost use Rattle.hunt_report.specs.inner.Noting.{noted, all_noted, AreBefore};
ghost use Rattle.hunt_report.specs.inner.HitReporting.{TakesHuntRow, end_of_engine};
ghost use Rattle.hunt_report.specs.inner.HitReporting.{EndsAtHuntedRow};
ghost use Rattle.hunt_report.specs.inner.HitReporting.{TakesSoFar, EndsAmongHits, HasCutHitLines};

use crate::hit_line::add_hits;
use crate::hit_summary::hit_summary_after;
use crate::{HitSummary, OverLimit};
use flow_edges::Sink;
use flow_values::{Items, NoMemory};
use hunt_engine::laws::one_log;
use hunt_engine::{Engine, EngineRefusal, Hit, Memo};
use hunt_feed::Hunted;
use match_input::Batch;
use match_run::watch_laws::parts_are_buffered;
use match_run::{Pending, SeeEnd, Watcher};
use std::alloc::Global;
use std::marker::Model;
use stix_bundles::{Bundle, Observation};
use stix_times::Instant;

/// No log has an observation of this number.
const TOO_MANY: u64 = 1 << 63;

/// The hunter: writes the hits of a log as they end, and counts them for each indicator. Contracts
/// observe the hunted list, the engine and the counts. `HuntsOver` relates them to the rows taken
/// and their hits.
#[derive(Drop)]
pub struct Hunter<'p> {
    alloc: Global,
    pub(crate) hunted: &'p [Hunted],
    engine: Engine<'p>,
    pub(crate) hit_summaries: Vec<Option<HitSummary>>,
}

impl<'p> Model for Hunter<'p> {
    ghost use Rattle.std.specs.Coded.{codes};
    ghost use Rattle.pattern_types.specs.contracts.pattern.Pattern as held;
    ghost use Rattle.match_stream.specs.inner.TreeCode.{tree_code};
    ghost use Rattle.hunt_report.specs.Hunting.{HunterState};

    ghost Value = { HunterState };

    ghost coded = { Prim.hlevel (codes, held.the_row.coded, tree_code) };

    ghost use Rattle.hunt_report.specs.inner.Built.{IsBuiltHunter};

    ghost view = { λ hunter. record {
      hunted = hunter.hunted.now;
      engine = hunter.engine;
      hit_summaries = hunter.hit_summaries.items;
    } };

    ghost invariant = { IsBuiltHunter };
}

impl<'p> Hunter<'p> {
    /// A hunter for the indicators of a hunt that took no row yet. No pattern may retain more than
    /// `retained_limit`.
    pub fn new(
        alloc: Global,
        hunted: &'p [Hunted],
        retained_limit: u64,
    ) -> Result<Hunter<'p>, NoMemory>
        requires { All IsHuntable hunted.now }
        ensures hunts { IfOk result (λ hunter. HuntsOver hunter [] []) }
        ensures hunted { IfOk result (λ hunter. hunter.hunted ≡ hunted.now) }
        ensures retained_limit { IfOk result (λ hunter. hunter.engine.retained_limit
            ≡ retained_limit) }
    {
        if u32::try_from(hunted.len()).is_err() {
            return Err(NoMemory);
        }
        let engine = Engine::new(alloc, hunted, retained_limit)?;
        let hit_summaries = vec![in alloc; None; hunted.len()]?;
        Ok(Hunter {
            alloc,
            hunted,
            engine,
            hit_summaries,
        })
    }

    /// Writes the hits at each observation of a bundle, in turn.
    fn report_all<O: Sink>(
        &mut self,
        batch: &Batch,
        pending: &mut Pending,
        output: &mut O,
    ) -> Result<(), SeeEnd<OverLimit>>
        requires ready { IsReadyHunter self.old }
        requires follow { MayFollow self.old.engine.last (self.old.engine.rows
            + 1) batch.now.observations }
        requires empty { pending.old ≡ [] }
        ensures sees { OnOk result (TakesSoFar (data_in batch.now.bundle) batch.now.observations
            self.old self.new pending.new (O.written output.old) (O.written output.new)) }
        ensures end { IfErr result (EndsAmongHits (data_in batch.now.bundle) batch.now.observations
            self.old pending.new (O.written output.old) (O.written output.new)) }
        ensures causes { Counted (result ≡ Err SeeEnd.WriteFault) (O.faults output.old)
            (O.faults output.new) }
    {
        parts_are_buffered();
        let observations = batch.observations.as_slice();
        let mut memo = Memo::of(self.alloc, observations)?;
        for observation in observations {
            let hits = match self.take(observation, &batch.bundle, &mut memo) {
                Ok(hits) => hits,
                Err(end) => return Err(end),
            };
            add_hits(self.alloc, self.hunted, hits.as_slice(), pending, output)?;
        }
        Ok(())
    }

    /// Takes the next observation of a bundle with the bundle's memo, and counts the hits that end
    /// there.
    fn take(
        &mut self,
        observation: &Observation,
        bundle: &Bundle,
        memo: &mut Memo,
    ) -> Result<Items<Hit>, SeeEnd<OverLimit>>
        requires ready { IsReadyHunter self.old }
        requires right { IsSoundMemo (data_in bundle.now)
            (brackets_of (patterns_of self.old.hunted)) memo.old }
        requires span { observation.now.first ≤ℤ observation.now.last }
        requires number { observation.now.number ≡ self.old.engine.rows + 1 }
        requires order { ¬ (Falls self.old.engine.last observation.now.last) }
        ensures row { IfOk result (TakesHuntRow (engine_row observation.now
            (data_in bundle.now)) self.old
            self.new) }
        ensures end { IfErr result (EndsAtHuntedRow (engine_row observation.now
            (data_in bundle.now))
            self.old) }
        ensures right { OnOk result (IsSoundMemo (data_in bundle.now)
            (brackets_of (patterns_of self.old.hunted)) memo.new) }
    {
        one_log();
        if observation.number >= TOO_MANY {
            return Err(SeeEnd::NoMemory);
        }
        let hits = match self.engine.take(observation, bundle, memo) {
            Ok(hits) => hits,
            Err(refusal) => return Err(end_of(refusal)),
        };
        self.count_all(hits.as_slice(), observation.last);
        Ok(hits)
    }

    /// Counts hits that end at an observation with this last time.
    fn count_all(&mut self, hits: &[Hit], last: Instant)
        requires inside { All (λ hit. hit.hunted < length self.old.hit_summaries) hits.now }
        requires order { AreBefore last self.old.hit_summaries }
        ensures { self.new ≡ record self.old
            { hit_summaries = all_noted last hits.now self.old.hit_summaries } }
    {
        for hit in hits {
            self.note(hit, last);
        }
    }

    /// Counts one hit.
    fn note(&mut self, hit: &Hit, last: Instant)
        requires inside { hit.now.hunted < length self.old.hit_summaries }
        requires order { AreBefore last self.old.hit_summaries }
        ensures { self.new ≡ record self.old
            { hit_summaries = noted last hit.now self.old.hit_summaries } }
    {
        let place = hit.hunted as usize;
        let hit_summary = hit_summary_after(self.hit_summaries[place], last);
        self.hit_summaries[place] = Some(hit_summary);
    }
}

/// How a hunter ends where its engine does.
fn end_of(refusal: EngineRefusal) -> SeeEnd<OverLimit>
    requires { refusal ≢ Ended }
    ensures { result ≡ end_of_engine refusal }
{
    match refusal {
        EngineRefusal::OverLimit {
            hunted,
            number,
            retained_limit,
        } => SeeEnd::Stopped(OverLimit {
            hunted,
            number,
            retained_limit,
        }),
        EngineRefusal::NoMemory => SeeEnd::NoMemory,
        EngineRefusal::Ended => unreachable!(),
    }
}

/// Whether an end comes in the middle of lines: out of memory, or a failed write.
fn has_cut_lines(ended: &Result<(), SeeEnd<OverLimit>>) -> bool
    ensures { IsTrue result ↔ HasCutHitLines ended.now }
{
    matches!(ended, Err(SeeEnd::NoMemory | SeeEnd::WriteFault))
}

impl<'p> Watcher for Hunter<'p> {
    type Stop = OverLimit;

    ghost ready = { IsReadyHunter };

    ghost seen = { λ hunter. hunter.engine.rows };

    ghost last = { λ hunter. hunter.engine.last };

    ghost sees = { HunterSeesBundle };

    ghost stops = { StopsInBundle };

    ghost begins = { BeginsBundle };

    fn see<O: Sink>(&mut self, batch: &Batch, output: &mut O) -> Result<(), SeeEnd<OverLimit>> {
        let mut pending = Pending::new(self.alloc);
        let told = self.report_all(batch, &mut pending, output);
        if has_cut_lines(&told) {
            return told;
        }
        pending.write(output)?;
        told
    }
}
