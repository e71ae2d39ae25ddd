ghost use Rattle.std.specs.Prelude.{◌≡◌, ◌≤ℤ◌, ◌<◌, ◌+◌, ◌^◌, ◌++◌, ◌∷◌, ◌↔◌, ℕ, [], List, All};
ghost use Rattle.std.specs.Prelude.{true, Some, Err, length, map, slice_get, IfOk, OnOk, OnErr};
ghost use Rattle.stix_bundles.specs.Objects.{data_in};
ghost use Rattle.pattern_types.specs.Leaves.{leaves};
ghost use Rattle.pattern_types.specs.PlainPattern.{plain_pattern};
ghost use Rattle.pattern_types.specs.Soundness.{IsSoundLeaf, IsSoundPattern};
ghost use Rattle.match_stream.specs.MatcherState.{Falls};
ghost use Rattle.hunt_engine.specs.declared.refusal.EngineRefusal.TheVariants as refusal;
ghost use Rattle.pattern_types.specs.declared.pattern.Pattern.{Pattern};
ghost use Rattle.pattern_types.specs.PlainLeaf.{plain_leaf};
ghost use Rattle.hunt_engine.specs.EngineLog.{ObservationRow, engine_row};
ghost use Rattle.hunt_engine.specs.Memo.{brackets_of, IsSoundMemo};
ghost use Rattle.hunt_engine.specs.LazyMatcherState.{LazyMatcherState, Follows};
ghost use Rattle.hunt_engine.specs.inner.Table.{IsTable};
ghost use Rattle.hunt_engine.specs.EngineState.{EngineRepresents, IsReadyEngine};
ghost use Rattle.hunt_engine.specs.EngineAnswer.{ReportsRow, IsFirstOverLimit};

use crate::brackets::Brackets;
use crate::evaluation::{clear, evaluate};
use crate::lazy_matcher::LazyMatcher;
use crate::lazy_matchers::{sweep, take_all};
use crate::next_row::NextRow;
use crate::{EngineRefusal, Hit, Memo};
use flow_values::{Items, NoMemory};
use hunt_feed::Hunted;
use hunt_index::Index;
use match_bindings::laws::test_is_the_rule;
use std::alloc::Global;
use std::marker::Model;
use stix_bundles::{Bundle, Observation};
use stix_times::Instant;

/// Many patterns over one log. Contracts observe the patterns of the hunted list, the limit for
/// each, and the state of each. They also observe how many rows it took, the end of the last row,
/// and whether it has ended. `EngineRepresents` relates them to the rows taken.
///
/// Cost of a row: what the index finds for roots that aren't in the memo, the brackets that hold at
/// the others, and one sweep step. The sweep visits the matchers in turn, one at each row, and
/// drops what has expired there. A pattern of one bracket takes some 40 bytes besides its entry in
/// the index.
#[derive(Drop)]
pub struct Engine<'p> {
    alloc: Global,
    hunted: &'p [Hunted],
    retained_limit: u64,
    brackets: Brackets<'p>,
    index: Index<'p>,
    marks: Vec<bool>,
    lazy_matchers: Vec<LazyMatcher<'p>>,
    /// The indices of the patterns that have a matcher, in the order of the sweep, and which of
    /// them is next.
    sweep_order: Vec<u32>,
    sweep_position: usize,
    rows: u64,
    last: Option<Instant>,
    ended: bool,
}

impl<'p> Model for Engine<'p> {
    ghost use Rattle.std.specs.Prelude.{map};
    ghost use Rattle.std.specs.Coded.{codes};
    ghost use Rattle.pattern_types.specs.contracts.pattern.Pattern as matching;
    ghost use Rattle.match_stream.specs.inner.TreeCode.{tree_code};
    ghost use Rattle.hunt_engine.specs.EngineState.{EngineState};
    ghost use Rattle.hunt_engine.specs.inner.Built.{IsBuiltEngine};

    ghost Value = { EngineState };

    ghost coded = { Prim.hlevel (codes, matching.the_row.coded, tree_code) };

    ghost view = { λ engine. record {
      patterns = map (λ h. h.pattern) engine.hunted.now;
      retained_limit = engine.retained_limit;
      rows = engine.rows;
      last = engine.last;
      ended = engine.ended;
      lazy_matchers = engine.lazy_matchers.items;
    } };

    ghost invariant = { IsBuiltEngine };
}

impl<'p> Engine<'p> {
    /// An engine for the patterns of a hunted list that took no row yet. No pattern may retain more
    /// than `retained_limit`. Out of memory also where there are more brackets than a u32 can
    /// count.
    pub fn new(
        alloc: Global,
        hunted: &'p [Hunted],
        retained_limit: u64,
    ) -> Result<Engine<'p>, NoMemory>
        requires few { length hunted.now < 2 ^ 32 }
        requires sound { All (λ h. IsSoundPattern (plain_pattern h.pattern)) hunted.now }
        requires narrow { All (λ h. leaves h.pattern < 2 ^ 32) hunted.now }
        ensures represents { IfOk result (λ engine. EngineRepresents engine []) }
        ensures patterns { IfOk result (λ engine. engine.patterns
            ≡ map (λ h. h.pattern) hunted.now) }
        ensures retained_limit { IfOk result (λ engine. engine.retained_limit ≡ retained_limit) }
    {
        let lazy_matchers = lazy_matchers_of(alloc, hunted, retained_limit)?;
        let sweep_order = sweep_order_of(alloc, lazy_matchers.as_slice())?;
        let brackets = brackets_of(alloc, hunted)?;
        let marks = vec![in alloc; false; brackets.leaves.len()]?;
        let index = Index::new(alloc, brackets.leaves.as_slice())?;
        Ok(Engine {
            alloc,
            hunted,
            retained_limit,
            brackets,
            index,
            marks,
            lazy_matchers,
            sweep_order,
            sweep_position: 0,
            rows: 0,
            last: None,
            ended: false,
        })
    }

    /// Takes the next observation of a log, with its bundle and the memo of that bundle. Answers
    /// all bindings that end there, each once: by the pattern's index in the hunted list, and for
    /// one pattern in the order of flat lists.
    ///
    /// Errors: `OverLimit` where a pattern would retain more than the limit, `NoMemory` where
    /// memory runs out, `Ended` where it had ended before. After an error the engine has ended.
    pub fn take(
        &mut self,
        observation: &Observation,
        bundle: &Bundle,
        memo: &mut Memo,
    ) -> Result<Items<Hit>, EngineRefusal>
        requires ready { IsReadyEngine self.old }
        // The memo belongs to this bundle: each of its entries is correct.
        requires right { IsSoundMemo (data_in bundle.now) (brackets_of self.old.patterns) memo.old }
        requires span { observation.now.first ≤ℤ observation.now.last }
        requires number { observation.now.number ≡ self.old.rows + 1 }
        requires room { observation.now.number < 2 ^ 63 }
        // Rows come in the order of their ends.
        requires order { ¬ (Falls self.old.last observation.now.last) }
        ensures represents { (rows : List ObservationRow) → EngineRepresents self.old rows
            → OnOk result (EngineRepresents self.new
            (rows ++ engine_row observation.now (data_in bundle.now) ∷ [])) }
        ensures reports { (rows : List ObservationRow) → EngineRepresents self.old rows
            → IfOk result (ReportsRow self.old.patterns
            (rows ++ engine_row observation.now (data_in bundle.now) ∷ [])) }
        // The first pattern over the limit is reported: no earlier one in the list exceeds it.
        ensures over_limit { (rows : List ObservationRow) → EngineRepresents self.old rows
            → (position number retained_limit : ℕ)
            → result ≡ Err (refusal.OverLimit position number retained_limit)
            → IsFirstOverLimit self.old.patterns self.old.retained_limit
            (rows ++ engine_row observation.now (data_in bundle.now) ∷ []) position number
            retained_limit }
        ensures ended { (result ≡ Err refusal.Ended) ↔ (self.old.ended ≡ true) }
        ensures ends { OnErr result (self.new.ended ≡ true) }
        // An engine that has ended stays as it is.
        ensures unchanged { self.old.ended ≡ true → self.new ≡ self.old }
        ensures kept { (self.new.patterns ≡ self.old.patterns)
            × (self.new.retained_limit ≡ self.old.retained_limit) }
        // The memo stays correct, so it serves the next observation of the bundle.
        ensures right { OnOk result (IsSoundMemo (data_in bundle.now)
            (brackets_of self.old.patterns) memo.new) }
    {
        test_is_the_rule();
        if self.ended {
            return Err(EngineRefusal::Ended);
        }
        // an early return on an error leaves the engine ended
        self.ended = true;
        let row = NextRow {
            rows: self.rows,
            before: self.last,
            first: observation.first,
            last: observation.last,
        };
        let lazy_matchers = self.lazy_matchers.as_mut_slice();
        self.sweep_position = sweep(
            lazy_matchers,
            self.sweep_order.as_slice(),
            self.sweep_position,
            &row,
            self.retained_limit,
        )?;
        let row_brackets = evaluate(
            self.alloc,
            &self.brackets,
            &self.index,
            observation.roots.as_slice(),
            bundle,
            memo,
            self.marks.as_mut_slice(),
        )?;
        let found = match take_all(
            self.alloc,
            self.lazy_matchers.as_mut_slice(),
            &self.brackets,
            self.marks.as_slice(),
            row_brackets.affected.as_slice(),
            &row,
            self.retained_limit,
        ) {
            Ok(found) => found,
            Err(refusal) => return Err(refusal),
        };
        clear(row_brackets.matching.as_slice(), self.marks.as_mut_slice());
        self.rows = row.rows + 1;
        self.last = Some(row.last);
        self.ended = false;
        Ok(found)
    }
}

/// The brackets of the patterns of a hunted list.
fn brackets_of<'p>(alloc: Global, hunted: &'p [Hunted]) -> Result<Brackets<'p>, NoMemory>
    requires few { length hunted.now < 2 ^ 32 }
    requires sound { All (λ h. IsSoundPattern (plain_pattern h.pattern)) hunted.now }
    ensures table { IfOk result (λ brackets. IsTable
        (map plain_pattern (map (λ h. h.pattern) hunted.now))
        (map plain_leaf (map (λ leaf. leaf.now) brackets.leaves.items))
        brackets.owners.items brackets.bracket_ranges.items) }
    ensures sound { IfOk result (λ brackets. All IsSoundLeaf
        (map plain_leaf (map (λ leaf. leaf.now) brackets.leaves.items))) }
    ensures leaves { IfOk result (λ brackets. map plain_leaf
        (map (λ leaf. leaf.now) brackets.leaves.items)
        ≡ brackets_of (map (λ h. h.pattern) hunted.now)) }
    ensures few { IfOk result (λ brackets. length brackets.leaves.items < 2 ^ 32) }
{
    let mut brackets = Brackets::new(alloc);
    for indicator in hunted {
        brackets.add(&indicator.pattern)?;
    }
    Ok(brackets)
}

/// The initial state of each pattern of a hunted list.
fn lazy_matchers_of<'p>(
    alloc: Global,
    hunted: &'p [Hunted],
    retained_limit: u64,
) -> Result<Vec<LazyMatcher<'p>>, NoMemory>
    requires narrow { All (λ h. leaves h.pattern < 2 ^ 32) hunted.now }
    ensures count { IfOk result (λ lazy_matchers. length lazy_matchers.items ≡ length hunted.now) }
    ensures each { IfOk result (λ lazy_matchers. (position : ℕ) (p : Pattern)
        (lazy_matcher : LazyMatcherState) → slice_get (map (λ h. h.pattern) hunted.now) position
        ≡ Some p
        → slice_get lazy_matchers.items position ≡ Some lazy_matcher
        → Follows p retained_limit [] lazy_matcher) }
{
    let mut lazy_matchers = Vec::new(alloc);
    for indicator in hunted {
        let lazy_matcher = LazyMatcher::new(alloc, &indicator.pattern, retained_limit)?;
        lazy_matchers.push(lazy_matcher)?;
    }
    Ok(lazy_matchers)
}

/// The indices of the patterns that have a matcher. No contract: the sweep only frees memory, so
/// its order affects no answer.
fn sweep_order_of(alloc: Global, lazy_matchers: &[LazyMatcher<'_>]) -> Result<Vec<u32>, NoMemory>
    requires { length lazy_matchers.now < 2 ^ 32 }
{
    let mut sweep_order = Vec::new(alloc);
    for (position, lazy_matcher) in lazy_matchers.iter().enumerate() {
        if lazy_matcher.has_matcher() {
            sweep_order.push(position as u32)?;
        }
    }
    Ok(sweep_order)
}
