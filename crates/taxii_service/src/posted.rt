ghost use Rattle.std.specs.Prelude.{◌≡◌, ◌+◌, ◌<◌, ◌^◌, [], OnOk, IsTrue};
ghost use Rattle.stix_json.specs.DataOf.{data_of};
ghost use Rattle.stix_json.specs.declared.entry.Entry.TheVariants.{Good, Bad};
ghost use Rattle.stix_objects.specs.Breaks.{AreBreaksOf};
ghost use Rattle.taxii_service.specs.Posted.{BreaksFirst};
ghost use Rattle.taxii_service.specs.inner.Posting.{IsTakenEntry, AddsEntry, AddsObject};
ghost use Rattle.taxii_service.specs.inner.Posting.{AddsFailure};

use flow_values::{Items, NoMemory};
use std::alloc::Global;
use stix_json::{Entry, Json, JsonRefusal};
use stix_objects::laws::{no_breaks, one_list};
use stix_objects::{Break, breaks, object_id};
use taxii_bodies::{Detail, failure_detail, refused_detail};
use taxii_rows::{Described, describe};

/// The maximum number of failures with details.
pub const MAX_DETAILS: usize = 100;

/// The entries of a POST: objects and failures.
#[derive(Drop)]
pub struct Posted {
    /// The objects without violations, as a store keeps them, in order.
    pub objects: Vec<Described>,
    /// The details of the first `MAX_DETAILS` failures.
    pub failures: Items<Detail>,
    /// The number of failures.
    pub failure_count: u64,
}

impl Posted {
    /// No entries. Allocates nothing.
    pub(crate) fn empty(alloc: Global) -> Posted
        ensures objects { result.objects.items ≡ [] }
        ensures failures { result.failures ≡ [] }
        ensures count { result.failure_count ≡ 0 }
    {
        Posted {
            objects: Vec::new(alloc),
            failures: Items::new(alloc),
            failure_count: 0,
        }
    }

    /// Adds an entry of a request that arrived at `moment`.
    pub(crate) fn add(&mut self, alloc: Global, entry: Entry, moment: u64) -> Result<(), NoMemory>
        requires taken { IsTakenEntry entry }
        requires room { self.old.failure_count < 2 ^ 63 }
        ensures { OnOk result (AddsEntry moment entry self.old self.new) }
    {
        match entry {
            Entry::Good(value) => self.add_value(alloc, &value, moment),
            Entry::Bad(refusal) => self.add_refused(alloc, &refusal, moment),
        }
    }

    /// Adds a value: an object, or a failure if it violates a rule. Once `MAX_DETAILS` failures
    /// have details, values without an identifier are counted without checking the rules: untrusted
    /// clients may send millions of them.
    fn add_value(&mut self, alloc: Global, value: &Json, moment: u64) -> Result<(), NoMemory>
        requires taken { IsTakenEntry (Good value.now) }
        requires room { self.old.failure_count < 2 ^ 63 }
        ensures { OnOk result (AddsEntry moment (Good value.now) self.old self.new) }
    {
        if self.failures.len() >= MAX_DETAILS && has_no_id(value) {
            self.failure_count += 1;
            return Ok(());
        }
        let found = breaks(alloc, value)?;
        match found.as_slice().first() {
            Some(first) => self.add_broken(alloc, value, first, moment),
            None => self.add_object(alloc, value),
        }
    }

    /// Adds an object.
    fn add_object(&mut self, alloc: Global, object: &Json) -> Result<(), NoMemory>
        requires taken { IsTakenEntry (Good object.now) }
        requires unbroken { AreBreaksOf (data_of object.now) [] }
        ensures { OnOk result (AddsObject (Good object.now) self.old self.new) }
    {
        no_breaks();
        let Some(described) = describe(alloc, object)? else {
            unreachable!();
        };
        self.objects.push(described)?;
        Ok(())
    }

    /// Adds a failure: a value that violates a rule.
    fn add_broken(
        &mut self,
        alloc: Global,
        value: &Json,
        first: &Break,
        moment: u64,
    ) -> Result<(), NoMemory>
        requires first { BreaksFirst (data_of value.now) first.now }
        requires room { self.old.failure_count < 2 ^ 63 }
        ensures { OnOk result (AddsFailure moment (Good value.now) self.old self.new) }
    {
        one_list();
        self.failure_count += 1;
        if self.failures.len() >= MAX_DETAILS {
            return Ok(());
        }
        let detail = failure_detail(alloc, value, first, moment)?;
        self.failures.push(detail)?;
        Ok(())
    }

    /// Adds a failure: an entry that is no JSON value.
    fn add_refused(
        &mut self,
        alloc: Global,
        refusal: &JsonRefusal,
        moment: u64,
    ) -> Result<(), NoMemory>
        requires room { self.old.failure_count < 2 ^ 63 }
        ensures { OnOk result (AddsFailure moment (Bad refusal.now) self.old self.new) }
    {
        self.failure_count += 1;
        if self.failures.len() >= MAX_DETAILS {
            return Ok(());
        }
        let detail = refused_detail(alloc, refusal, moment)?;
        self.failures.push(detail)?;
        Ok(())
    }
}

/// Whether the value has no identifier, which violates a rule.
fn has_no_id(value: &Json) -> bool
    ensures { IsTrue result → ¬ AreBreaksOf (data_of value.now) [] }
{
    no_breaks();
    match object_id(value) {
        Some(_) => false,
        None => true,
    }
}
