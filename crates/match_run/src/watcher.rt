ghost use Rattle.std.specs.Prelude.{◌≡◌, ⊤, ℕ, ℤ, ◌+◌, List, Option, Err, IfErr, OnOk, length};
ghost use Rattle.flow_edges.specs.Faults.{Counted};
ghost use Rattle.match_input.specs.Line.{last_after};
ghost use Rattle.match_input.specs.Reading.{BundleOf};
ghost use Rattle.match_run.specs.Reading.{bundle_of, MayFollow};
ghost use Rattle.match_run.specs.Watching.{Says, EndsSeeing};

use crate::SeeEnd;
use flow_edges::Sink;
use match_input::Batch;

/// A consumer of an input: it sees the bundles in turn, and writes a text about each.
pub trait Watcher {
    /// Its own reasons to stop.
    type Stop;

    /// It is ready for the next bundle.
    ghost ready: { Self → Type 0 } = { λ _. ⊤ };

    /// How many observations it has seen.
    ghost seen: { Self → ℕ };

    /// When the last of them was last observed.
    ghost last: { Self → Option ℤ };

    /// The watcher before a bundle, the bundle, the watcher after it, and the text that it writes
    /// about it.
    ghost sees: { Self → BundleOf → Self → List ℕ → Type 0 };

    /// It stops within a bundle for this reason, after it wrote this text about it.
    ghost stops: { Self → BundleOf → Self.Stop → List ℕ → Type 0 };

    /// The text that it writes about the first observations of a bundle.
    ghost begins: { Self → BundleOf → List ℕ → Type 0 };

    /// Sees the next bundle, in order, and writes its text.
    fn see<O: Sink>(&mut self, batch: &Batch, output: &mut O) -> Result<(), SeeEnd<Self::Stop>>
        requires ready { ready self.old }
        requires follow { MayFollow (last self.old) (seen self.old + 1) batch.now.observations }
        ensures sees { OnOk result (Says (sees self.old (bundle_of batch.now) self.new)
            (O.written output.old) (O.written output.new)) }
        ensures ready { OnOk result (ready self.new) }
        ensures seen { OnOk result (seen self.new ≡ seen self.old + length batch.now.observations) }
        ensures last { OnOk result (last self.new
            ≡ last_after (last self.old) batch.now.observations) }
        ensures end { IfErr result (EndsSeeing (stops self.old (bundle_of batch.now))
            (begins self.old (bundle_of batch.now))
            (O.written output.old) (O.written output.new)) }
        ensures causes { Counted (result ≡ Err SeeEnd.WriteFault) (O.faults output.old)
            (O.faults output.new) };
}
