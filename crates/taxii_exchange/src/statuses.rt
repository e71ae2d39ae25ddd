ghost use Rattle.std.specs.Prelude.{◌≡◌, IfOk, option_map};
ghost use Rattle.taxii_bodies.specs.Status.{status_id_of};
ghost use Rattle.taxii_exchange.specs.Statuses.{no_statuses, next_number, kept_status_body};
ghost use Rattle.taxii_exchange.specs.Statuses.{with_status};

use crate::KeptStatus;
use circular_buffer::HeapCircularBuffer;
use flow_values::{NoMemory, Text};
use std::alloc::Global;
use std::marker::Model;
use taxii_bodies::status_id;

/// The number of statuses that are kept.
pub const MAX_KEPT: usize = 1024;

/// The number of distinct status numbers, after which they wrap around.
const NUMBERS: u64 = 1 << 48;

/// The latest statuses in a ring buffer, and the number of the last one.
#[derive(Drop)]
pub struct Statuses {
    alloc: Global,
    count: u64,
    kept: HeapCircularBuffer<KeptStatus>,
}

impl Model for Statuses {
    ghost use Rattle.std.specs.Prelude.{◌≡◌, ◌<◌, ◌^◌};
    ghost use Rattle.taxii_exchange.specs.Statuses.{StatusesState};

    ghost Value = { StatusesState };

    ghost view = { λ statuses. record { count = statuses.count; kept = statuses.kept.items } };

    ghost invariant = { λ statuses. (statuses.count < 2 ^ 48) × (statuses.kept.capacity ≡ 1024) };
}

impl Statuses {
    /// No statuses, with all memory allocated.
    pub fn new(alloc: Global) -> Result<Statuses, NoMemory>
        ensures { IfOk result (λ statuses. statuses ≡ no_statuses) }
    {
        let kept = HeapCircularBuffer::with_capacity(alloc, MAX_KEPT)?;
        Ok(Statuses {
            alloc,
            count: 0,
            kept,
        })
    }

    /// The body of the status with this identifier, if it is still kept. A linear search of at most
    /// 1024 statuses; allocates nothing.
    pub fn find(&self, id: &str) -> Option<&Text>
        ensures { option_map (λ body. body.now) result ≡ kept_status_body id.now self.now }
    {
        self.kept
            .iter()
            .find(|status| status.id.as_str() == id)
            .map(|status| &status.body)
    }

    /// The number of the next status.
    pub fn next_number(&self) -> u64
        ensures { result ≡ next_number self.now }
    {
        (self.count + 1) % NUMBERS
    }

    /// Prepares the next status: its body under the identifier of the next number.
    pub fn prepare(&self, body: Text) -> Result<KeptStatus, NoMemory>
        ensures { IfOk result
            (λ status. status ≡ record { id = status_id_of (next_number self.now); body = body }) }
    {
        let id = status_id(self.alloc, self.next_number())?;
        Ok(KeptStatus { id, body })
    }

    /// Adds the latest status, dropping the oldest if the buffer is full. Allocates nothing.
    pub fn add(&mut self, status: KeptStatus)
        ensures { self.new ≡ with_status status self.old }
    {
        self.count = self.next_number();
        self.kept.push_back(status);
    }
}
