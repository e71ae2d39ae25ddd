ghost use Rattle.std.specs.Prelude.{◌≡◌, ◌≤◌, ◌+◌, ◌<◌, ◌↔◌, [], None, Some, true, length, IsErr};
ghost use Rattle.std.specs.Prelude.{IfOk, OnErr, IfSome};
ghost use Rattle.flow_edges.specs.Faults.{counted, Counted};
ghost use Rattle.flow_memory.specs.Streams.{is_failing};
ghost use Rattle.flow_links.specs.Doors.{DoorStays, Listens, GivesNext, Finishes};

use crate::MemoryLink;
use flow_links::Door;
use flow_values::{Fault, Items, NoMemory};
use std::alloc::Global;
use std::marker::Model;

/// A door over links in memory, with chosen failures.
#[derive(Drop)]
pub struct MemoryDoor {
    /// The links to come, the next one last.
    coming: Vec<MemoryLink>,
    finished: Vec<MemoryLink>,
    opened: u64,
    port: Option<u16>,
    given: usize,
    failing: Items<u64>,
    calls: u64,
    faults: u64,
}

impl Model for MemoryDoor {
    ghost use Rattle.std.specs.Prelude.{◌≤◌, ◌+◌, vec_len, vec_capacity, reverse};
    ghost use Rattle.flow_memory.specs.Links.{MemoryDoorState};

    ghost Value = { MemoryDoorState };

    ghost view = { λ door. record {
      links = record {
        coming = reverse door.coming.items;
        finished = door.finished.items;
        opened = door.opened;
        port = door.port;
        given = door.given;
      };
      failing = door.failing;
      calls = door.calls;
      faults = door.faults;
    } };

    ghost invariant = { λ door. vec_len door.coming + door.given + vec_len door.finished
        ≤ vec_capacity door.finished };
}

impl MemoryDoor {
    /// A door that accepts these links, in order. `listen` and `next` share one count of calls,
    /// from 1: the calls numbered in `failing` fail.
    pub fn new(
        alloc: Global,
        links: Items<MemoryLink>,
        failing: Items<u64>,
    ) -> Result<MemoryDoor, NoMemory>
        ensures { IfOk result (λ door. door ≡ record {
          links = record { coming = links; finished = []; opened = 0; port = None; given = 0 };
          failing = failing;
          calls = 0;
          faults = 0;
        }) }
    {
        let mut coming = links.into_vec();
        let finished = Vec::with_capacity(alloc, coming.len())?;
        coming.reverse();
        Ok(MemoryDoor {
            coming,
            finished,
            opened: 0,
            port: None,
            given: 0,
            failing,
            calls: 0,
            faults: 0,
        })
    }

    /// The finished links, in order.
    pub fn finished(&self) -> &[MemoryLink]
        ensures { result.now ≡ self.now.links.finished }
    {
        self.finished.as_slice()
    }

    /// Counts a call, and fails if its number is in `failing`.
    fn begin(&mut self) -> Result<(), Fault>
        ensures fails { IsErr result ↔ (is_failing self.old.failing self.old.calls ≡ true) }
        ensures counted { OnErr result (self.new.faults ≡ counted self.old.faults) }
        ensures causes { Counted (IsErr result) self.old.faults self.new.faults }
        ensures calls { self.new.calls ≡ counted self.old.calls }
        ensures links { self.new.links ≡ self.old.links }
        ensures stays { self.new.failing ≡ self.old.failing }
    {
        self.calls = self.calls.saturating_add(1);
        if self.failing.as_slice().contains(&self.calls) {
            self.faults = self.faults.saturating_add(1);
            return Err(Fault);
        }
        Ok(())
    }
}

impl Door for MemoryDoor {
    type Link = MemoryLink;

    ghost observable = { λ door. Some door.links };

    ghost faults = { λ door. door.faults };

    fn listen(&mut self, port: u16) -> Result<(), Fault>
        ensures ok { IfOk result (λ _. Listens port (Some self.old.links) (Some self.new.links)) }
        ensures err { OnErr result (DoorStays (Some self.old.links) (Some self.new.links)) }
        ensures causes { Counted (IsErr result) self.old.faults self.new.faults }

        ensures fails { IsErr result ↔ (is_failing self.old.failing self.old.calls ≡ true) }
        ensures calls { self.new.calls ≡ counted self.old.calls }
        ensures stays { self.new.failing ≡ self.old.failing }
    {
        self.begin()?;
        self.opened = self.opened.saturating_add(1);
        self.port = Some(port);
        Ok(())
    }

    fn next(&mut self) -> Result<Option<MemoryLink>, Fault>
        ensures ok { IfOk result
            (λ link. GivesNext link (Some self.old.links) (Some self.new.links)) }
        ensures err { OnErr result (DoorStays (Some self.old.links) (Some self.new.links)) }
        ensures causes { Counted (IsErr result) self.old.faults self.new.faults }

        ensures fails { IsErr result ↔ (is_failing self.old.failing self.old.calls ≡ true) }
        ensures calls { self.new.calls ≡ counted self.old.calls }
        ensures stays { self.new.failing ≡ self.old.failing }
    {
        self.begin()?;
        let link = self.coming.pop();
        if link.is_some() {
            self.given += 1;
        }
        Ok(link)
    }

    fn finish(&mut self, link: MemoryLink)
        requires given { IfSome (Some self.now.links) (λ state. 1 ≤ state.given) }
        ensures back { Finishes link (Some self.old.links) (Some self.new.links) }
        ensures quiet { self.new.faults ≡ self.old.faults }

        ensures stays { (self.new.failing ≡ self.old.failing) × (self.new.calls ≡ self.old.calls) }
    {
        self.given -= 1;
        self.finished.push(link).unwrap();
    }
}
