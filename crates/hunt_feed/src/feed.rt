//! Reads a feed line by line.

ghost use Rattle.std.specs.Prelude.{◌≡◌, ◌∷◌, ◌++◌, ℕ, [], List, Err, None, IfOk, IfSome, OnOk};
ghost use Rattle.flow_edges.specs.Faults.{Counted};
ghost use Rattle.flow_lines.specs.Lines.{lines_remaining};
ghost use Rattle.serde_json.specs.Data.{Data};
ghost use Rattle.stix_json.specs.DataOf.{data_of};
ghost use Rattle.stix_objects.specs.Breaks.{AreBreaksOf};
ghost use Rattle.hunt_feed.specs.Gathering.{GathersFor};
ghost use Rattle.hunt_feed.specs.declared.rule.FeedRule.{FeedRule};
ghost use Rattle.hunt_feed.specs.declared.end.FeedEnd.TheVariants as end;
ghost use Rattle.hunt_feed.specs.Feeds.{Refused, ReadsFeed, GathersFeed};
ghost use Rattle.hunt_feed.specs.inner.Ends.{AnswersObject, MovesOn};

use crate::feed_object::read_object;
use crate::{FeedEnd, Gathering};
use flow_edges::Source;
use flow_lines::Lines;
use flow_values::NoMemory;
use std::alloc::Global;
use stix_json::Json;

/// Reads a feed with one object per line to its end, and keeps what a hunt needs of its indicators.
/// Of an indicator that isn't hunted, it keeps at most a summary of its versions. Out of memory
/// also where the feed has more objects than a u32 can count.
pub fn gather<S: Source>(alloc: Global, source: &mut S) -> Result<Gathering, FeedEnd>
    ensures whole { IfOk result (λ gathering. (objects : List Data)
        × GathersFeed (S.left source.old) gathering objects) }
    ensures refused { (line : ℕ) (why : FeedRule) → result ≡ Err (end.Refused line why)
        → (objects : List Data) × ReadsFeed (S.left source.old) objects (Refused line why) }
    ensures causes { Counted (result ≡ Err end.Fault) (S.faults source.old) (S.faults source.new) }
{
    let mut lines = Lines::new(alloc)?;
    let mut gathering = Gathering::new(alloc);
    'objects: loop {
        let Some(object) = next_object(alloc, &mut lines, source)? else {
            return Ok(gathering);
        };
        let added = add(&mut gathering, &object);
        drop(object);
        added?;
    }
}

/// The object of the next line that isn't blank. None at the end of the feed.
fn next_object<S: Source>(
    alloc: Global,
    lines: &mut Lines,
    source: &mut S,
) -> Result<Option<Json>, FeedEnd>
    requires unrefused { lines.old.refusal ≡ None }
    ensures next { AnswersObject (lines_remaining lines.old (S.left source.old))
        (lines_remaining lines.new (S.left source.new)) result }
    ensures moves { IfOk result (λ found. IfSome found (λ _. MovesOn lines.old lines.new)) }
    ensures causes { Counted (result ≡ Err end.Fault) (S.faults source.old) (S.faults source.new) }
{
    let Some(line) = lines.next_line(source)? else {
        return Ok(None);
    };
    match read_object(alloc, line.bytes.as_slice())? {
        Ok(object) => Ok(Some(object)),
        Err(rule) => Err(FeedEnd::Refused {
            line: line.number,
            rule,
        }),
    }
}

/// Adds an object, unless there would be more than a u32 can count.
fn add(gathering: &mut Gathering, object: &Json) -> Result<(), NoMemory>
    requires unbroken { AreBreaksOf (data_of object.now) [] }
    ensures { (objects : List Data) → GathersFor gathering.old objects
        → OnOk result (GathersFor gathering.new (objects ++ data_of object.now ∷ [])) }
{
    if gathering.is_full() {
        return Err(NoMemory);
    }
    gathering.add(object)
}
