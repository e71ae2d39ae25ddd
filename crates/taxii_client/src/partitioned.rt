ghost use Rattle.std.specs.Prelude.{◌<◌, ◌^◌, [], All, IfOk, OnOk};
ghost use Rattle.stix_json.specs.DataOf.{data_of};
ghost use Rattle.stix_json.specs.declared.entry.Entry.TheVariants.{Good};
ghost use Rattle.stix_objects.specs.Breaks.{AreBreaksOf};
ghost use Rattle.taxii_store.specs.Planned.{IsSound};
ghost use Rattle.taxii_client.specs.Absorbing.{IsReadable};
ghost use Rattle.taxii_client.specs.inner.Sorting.{Partitions, PartitionsOne, KeepsObject};

use flow_values::NoMemory;
use std::alloc::Global;
use stix_json::{Entry, Json};
use stix_objects::breaks;
use stix_objects::laws::{no_breaks, one_list};
use taxii_rows::{Described, describe};

/// The entries of a page, split into objects to add and entries to skip.
#[derive(Drop)]
pub(crate) struct Partitioned {
    /// The valid objects, as a store keeps them, in order.
    pub(crate) objects: Vec<Described>,
    /// The number of entries that are no JSON value or violate a rule.
    pub(crate) skipped: u64,
}

impl Partitioned {
    /// Splits the entries of a page. Each is dropped after its check.
    pub(crate) fn of(alloc: Global, entries: Vec<Entry>) -> Result<Partitioned, NoMemory>
        requires { All IsReadable entries.items }
        ensures partitions { IfOk result (Partitions entries.items) }
        ensures sound { IfOk result (λ partitioned. All IsSound partitioned.objects.items) }
    {
        let mut partitioned = Partitioned {
            objects: Vec::new(alloc),
            skipped: 0,
        };
        for entry in entries {
            partitioned.add(alloc, entry)?;
        }
        Ok(partitioned)
    }

    /// Adds an entry.
    fn add(&mut self, alloc: Global, entry: Entry) -> Result<(), NoMemory>
        requires readable { IsReadable entry }
        requires room { self.old.skipped < 2 ^ 63 }
        ensures { OnOk result (PartitionsOne entry self.old self.new) }
    {
        match entry {
            Entry::Good(value) => self.add_value(alloc, &value),
            Entry::Bad(_) => {
                self.skipped += 1;
                Ok(())
            }
        }
    }

    /// Adds a value: an object, or skipped if it violates a rule.
    fn add_value(&mut self, alloc: Global, value: &Json) -> Result<(), NoMemory>
        requires readable { IsReadable (Good value.now) }
        requires room { self.old.skipped < 2 ^ 63 }
        ensures { OnOk result (PartitionsOne (Good value.now) self.old self.new) }
    {
        one_list();
        let found = breaks(alloc, value)?;
        if found.is_empty() {
            self.add_object(alloc, value)
        } else {
            self.skipped += 1;
            Ok(())
        }
    }

    /// Adds an object.
    fn add_object(&mut self, alloc: Global, object: &Json) -> Result<(), NoMemory>
        requires readable { IsReadable (Good object.now) }
        requires unbroken { AreBreaksOf (data_of object.now) [] }
        ensures { OnOk result (KeepsObject (Good object.now) self.old self.new) }
    {
        no_breaks();
        let Some(described) = describe(alloc, object)? else {
            unreachable!();
        };
        self.objects.push(described)?;
        Ok(())
    }
}
