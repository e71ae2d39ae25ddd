ghost use Rattle.std.specs.Prelude.{◌≡◌, Ok, Err, None, List, Option, ℕ, IfErr};
ghost use Rattle.flow_edges.specs.Faults.{Counted};
ghost use Rattle.match_input.specs.Reading.{BundleOf};
ghost use Rattle.match_input.specs.Ahead.{IsOpen};
ghost use Rattle.match_run.specs.Reading.{HasRead, NextAnswers};

use flow_edges::Source;
use match_input::laws::continues;
use match_input::{Batch, ReadEnd, Reader, Stage};
use stix_bundles::laws::observations_are_spans;

/// The next bundle of an input that is cut into lines, with its observations; none at the end of
/// the input, and at each later call. It reads no more than the bundle's line asks for. After a
/// `ReadEnd` each later call answers `Ended`, without reading.
pub fn next_bundle<I: Source>(reader: &mut Reader, input: &mut I) -> Result<Option<Batch>, ReadEnd>
    ensures next { (first : Option (List ℕ)) (earlier : List BundleOf)
        → HasRead first reader.old (I.left input.old) (I.began input.old) earlier
        → NextAnswers first earlier reader.old reader.new (I.left input.new)
        (I.began input.new) result }
    ensures at_end { reader.old.stage ≡ Stage.AtEnd
        → (result ≡ Ok None) × (reader.new ≡ reader.old) × (input.new ≡ input.old) }
    ensures ended { reader.old.stage ≡ Stage.Ended
        → (result ≡ Err ReadEnd.Ended) × (reader.new ≡ reader.old) × (input.new ≡ input.old) }
    ensures ends { IfErr result (λ _. reader.new.stage ≡ Stage.Ended) }
    ensures causes { Counted (IsOpen reader.old.stage × (result ≡ Err ReadEnd.ReadFault))
        (I.faults input.old) (I.faults input.new) }
{
    continues();
    observations_are_spans();
    reader.next(input)
}
