ghost use Rattle.std.specs.Prelude.{◌≡◌, ◌≤◌, ◌+◌, ◌<◌, ◌↔◌, ◌||◌, [], Some, true, length, nat_eq};
ghost use Rattle.std.specs.Prelude.{IsErr, IfOk, OnErr, IfSome};
ghost use Rattle.flow_edges.specs.Faults.{counted, Counted};
ghost use Rattle.flow_links.specs.declared.dial.TheConstants.{MAX_HOST};
ghost use Rattle.flow_links.specs.Dials.{DialStays, Connects, FinishesDialedLink};
ghost use Rattle.flow_memory.specs.Streams.{is_failing};

use crate::{Endpoint, MemoryLink};
use flow_edges::counted_fault;
use flow_links::Dial;
use flow_values::{Fault, Items, NoMemory};
use std::alloc::Global;
use std::marker::Model;

/// A dial over links in memory, with chosen failures. It gives the next link whatever endpoint is
/// asked for.
#[derive(Drop)]
pub struct MemoryDial {
    /// The links to come, the next one last.
    coming: Vec<MemoryLink>,
    finished: Vec<MemoryLink>,
    dials: Vec<Endpoint>,
    given: usize,
    failing: Items<u64>,
    calls: u64,
    faults: u64,
}

impl Model for MemoryDial {
    ghost use Rattle.std.specs.Prelude.{◌≤◌, ◌+◌, vec_len, vec_capacity, reverse};
    ghost use Rattle.flow_memory.specs.Links.{MemoryDialState};

    ghost Value = { MemoryDialState };

    ghost view = { λ dial. record {
      links = record {
        coming = reverse dial.coming.items;
        finished = dial.finished.items;
        dials = dial.dials.items;
        given = dial.given;
      };
      failing = dial.failing;
      calls = dial.calls;
      faults = dial.faults;
    } };

    ghost invariant = { λ dial.
        (vec_len dial.coming + dial.given + vec_len dial.finished ≤ vec_capacity dial.finished)
        × (vec_len dial.coming + vec_len dial.dials ≤ vec_capacity dial.dials) };
}

impl MemoryDial {
    /// A dial that gives these links, in order. The calls of `dial` numbered in `failing`, from 1,
    /// fail. A call with no link left fails too.
    pub fn new(
        alloc: Global,
        links: Items<MemoryLink>,
        failing: Items<u64>,
    ) -> Result<MemoryDial, NoMemory>
        ensures { IfOk result (λ dial. dial ≡ record {
          links = record { coming = links; finished = []; dials = []; given = 0 };
          failing = failing;
          calls = 0;
          faults = 0;
        }) }
    {
        let mut coming = links.into_vec();
        let finished = Vec::with_capacity(alloc, coming.len())?;
        let dials = Vec::with_capacity(alloc, coming.len())?;
        coming.reverse();
        Ok(MemoryDial {
            coming,
            finished,
            dials,
            given: 0,
            failing,
            calls: 0,
            faults: 0,
        })
    }

    /// The finished links, in order.
    pub fn finished(&self) -> &[MemoryLink]
        ensures { result.now ≡ self.now.links.finished }
    {
        self.finished.as_slice()
    }

    /// The endpoint of each link opened, in order.
    pub fn dials(&self) -> &[Endpoint]
        ensures { result.now ≡ self.now.links.dials }
    {
        self.dials.as_slice()
    }
}

impl Dial for MemoryDial {
    type Link = MemoryLink;

    ghost observable = { λ dial. Some dial.links };

    ghost faults = { λ dial. dial.faults };

    fn dial(&mut self, host: &str, port: u16) -> Result<MemoryLink, Fault>
        requires short { length host.now ≤ MAX_HOST }
        ensures ok { IfOk result
            (λ link. Connects link host.now port (Some self.old.links) (Some self.new.links)) }
        ensures err { OnErr result (DialStays (Some self.old.links) (Some self.new.links)) }
        ensures causes { Counted (IsErr result) self.old.faults self.new.faults }

        ensures fails { IsErr result
            ↔ (is_failing self.old.failing self.old.calls || nat_eq (length self.old.links.coming) 0
            ≡ true) }
        ensures counted { OnErr result (self.new.faults ≡ counted self.old.faults) }
        ensures calls { self.new.calls ≡ counted self.old.calls }
        ensures stays { self.new.failing ≡ self.old.failing }
    {
        self.calls = self.calls.saturating_add(1);
        if self.failing.as_slice().contains(&self.calls) {
            return Err(counted_fault(&mut self.faults));
        }
        let Some(link) = self.coming.pop() else {
            return Err(counted_fault(&mut self.faults));
        };
        self.dials.push(Endpoint::new(host, port)).unwrap();
        self.given += 1;
        Ok(link)
    }

    fn finish(&mut self, link: MemoryLink)
        requires given { IfSome (Some self.now.links) (λ state. 1 ≤ state.given) }
        ensures back { FinishesDialedLink link (Some self.old.links) (Some self.new.links) }
        ensures quiet { self.new.faults ≡ self.old.faults }

        ensures stays { (self.new.failing ≡ self.old.failing) × (self.new.calls ≡ self.old.calls) }
    {
        self.given -= 1;
        self.finished.push(link).unwrap();
    }
}
