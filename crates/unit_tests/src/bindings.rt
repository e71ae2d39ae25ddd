//! Calls of the binding engine that no command reaches, on one pattern and log.

ghost use Rattle.std.specs.Prelude.{◌≡◌, IfOk};
ghost use Rattle.pattern_types.specs.Leaves.{leaves};

use flow_values::{Items, NoMemory};
use match_bindings::{Bind, Log, check_binding, flat, listing};
use match_pruning::windows;
use pattern_types::{Leaf, Pattern};
use std::alloc::Global;
use std::process::Abort;
use std::test::Fail;
use stix_times::{Instant, from_nanos};

/// Two brackets joined by AND.
fn both(alloc: Global) -> Result<Pattern, NoMemory>
    ensures { IfOk result (λ pattern. leaves pattern ≡ 2) }
{
    let left = Pattern::Leaf(Leaf::All(Items::new(alloc)));
    let right = Pattern::Leaf(Leaf::All(Items::new(alloc)));
    Ok(Pattern::Both(Box::new(alloc, left)?, Box::new(alloc, right)?))
}

/// The truth values of both brackets.
fn both_hold(alloc: Global) -> Result<Items<bool>, NoMemory> {
    let mut truths = Items::new(alloc);
    truths.push(true)?;
    truths.push(true)?;
    Ok(truths)
}

/// A log of two observations at one time, for which both brackets hold.
fn log(alloc: Global, time: Instant) -> Result<Log, NoMemory> {
    let mut log = Log::new(alloc);
    log.push(time, time, both_hold(alloc)?)?;
    log.push(time, time, both_hold(alloc)?)?;
    Ok(log)
}

/// The listing of the pattern.
fn listed(alloc: Global, log: &Log) -> Result<Items<Bind>, NoMemory> {
    let pattern = both(alloc)?;
    let binds = listing(alloc, &pattern, log);
    drop(pattern);
    binds
}

/// The number of windows that the pattern's stores have.
fn window_count(alloc: Global) -> Result<usize, NoMemory> {
    let pattern = both(alloc)?;
    let windows = windows(alloc, &pattern);
    drop(pattern);
    Ok(windows?.len())
}

/// Whether a clone of a bind binds the pattern, and how many numbers it has.
fn numbers(alloc: Global, log: &Log, bind: &Bind) -> Result<usize, NoMemory> {
    let clone = bind.clone()?;
    let pattern = both(alloc)?;
    let is_binding = check_binding(&pattern, log, &clone);
    drop(pattern);
    if is_binding {
        Ok(flat(alloc, &clone)?.len())
    } else {
        Ok(0)
    }
}

#[test]
fn lists_each_binding(rt: HostRuntime) -> Result<(), Fail> {
    let alloc = rt.alloc();
    let log = log(alloc, from_nanos(0).expect(&rt, "an instant"))?;
    let binds = listed(alloc, &log)?;
    assert_eq!(rt; binds.len(), 2);
    assert_eq!(rt; window_count(alloc)?, 2);
    for bind in binds.as_slice() {
        assert_eq!(rt; numbers(alloc, &log, bind)?, 2);
    }
    Ok(())
}
