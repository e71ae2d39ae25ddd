//! Builds the properties of a sighting one by one.

ghost use Rattle.std.specs.Prelude.{◌≡◌, ℕ, ◌<◌, ◌^◌, [], ◌++◌, ◌∷◌, List, OnOk, map, pos};
ghost use Rattle.serde_json.specs.Data.{number as whole, object};
ghost use Rattle.serde_json.specs.Find.{of_integer};
ghost use Rattle.stix_json.specs.DataOf.{data_of, field_data, members_of};
ghost use Rattle.stix_ids.specs.Kind.{IsKind};
ghost use Rattle.stix_ids.specs.Identifier.{IsCanonicalIdText as IsCanonicalIdOf};
ghost use Rattle.stix_times.specs.Writing.{IsCanonicalTextOf, IsWhole};
ghost use Rattle.hunt_report.specs.Sightings.{IsVersionInstantText, text_member};
ghost use Rattle.hunt_report.specs.inner.Adding.{AddsText};

use crate::times::{time_text, version_text};
use flow_values::{Items, Name, NoMemory, Text};
use std::alloc::Global;
use stix_ids::{Id, write_id};
use stix_json::{Field, Json, JsonText};
use stix_times::Instant;

/// The properties so far.
#[derive(Drop)]
pub(crate) struct Fields {
    pub(crate) fields: Vec<Field>,
}

impl Fields {
    /// No properties.
    pub(crate) fn new(alloc: Global) -> Fields
        ensures { map field_data result.fields.items ≡ [] }
    {
        Fields {
            fields: Vec::new(alloc),
        }
    }

    /// The object with these properties.
    pub(crate) fn into_object(self) -> Json
        ensures { data_of result ≡ object (members_of (map field_data self.fields.items)) }
    {
        Json::Object(Items::from_vec(self.fields))
    }

    /// Adds a property.
    fn add(&mut self, alloc: Global, name: &str, value: Json) -> Result<(), NoMemory>
        ensures { OnOk result (map field_data self.new.fields.items
            ≡ map field_data self.old.fields.items
            ++ record { name = name.now; value = data_of value } ∷ []) }
    {
        let name = Name::from_text(alloc, name)?;
        self.fields.push(Field { name, value })?;
        Ok(())
    }

    /// Adds a property with an integer.
    pub(crate) fn add_count(
        &mut self,
        alloc: Global,
        name: &str,
        count: u32,
    ) -> Result<(), NoMemory>
        ensures { OnOk result (map field_data self.new.fields.items
            ≡ map field_data self.old.fields.items
            ++ record { name = name.now; value = whole (of_integer (pos count)) } ∷ []) }
    {
        self.add(alloc, name, Json::Integer(i64::from(count)))
    }

    /// Adds a property with a text.
    fn add_text(&mut self, alloc: Global, name: &str, text: Text) -> Result<(), NoMemory>
        ensures { OnOk result (map field_data self.new.fields.items
            ≡ map field_data self.old.fields.items ++ text_member name.now text ∷ []) }
    {
        let text = JsonText::from_text(alloc, text)?;
        self.add(alloc, name, Json::String(text))
    }

    /// Adds a property with a constant text.
    pub(crate) fn add_word(&mut self, alloc: Global, name: &str, word: &str) -> Result<(), NoMemory>
        ensures { OnOk result (map field_data self.new.fields.items
            ≡ map field_data self.old.fields.items ++ text_member name.now word.now ∷ []) }
    {
        let text = Text::from_text(alloc, word)?;
        self.add_text(alloc, name, text)
    }

    /// Adds a property with an identifier.
    pub(crate) fn add_id(&mut self, alloc: Global, name: &str, id: &Id) -> Result<(), NoMemory>
        requires { IsKind id.now.kind }
        ensures { OnOk result (AddsText (λ text. IsCanonicalIdOf text id.now) name.now
            (map field_data self.old.fields.items) (map field_data self.new.fields.items)) }
    {
        let text = write_id(alloc, id)?;
        self.add_text(alloc, name, text)
    }

    /// Adds a property with the time of a version.
    pub(crate) fn add_version(
        &mut self,
        alloc: Global,
        name: &str,
        instant: Instant,
    ) -> Result<(), NoMemory>
        requires { IsWhole 1000 instant }
        ensures { OnOk result (AddsText (IsVersionInstantText instant) name.now
            (map field_data self.old.fields.items) (map field_data self.new.fields.items)) }
    {
        let text = version_text(alloc, instant)?;
        self.add_text(alloc, name, text)
    }

    /// Adds a property with a time.
    pub(crate) fn add_time(
        &mut self,
        alloc: Global,
        name: &str,
        instant: Instant,
    ) -> Result<(), NoMemory>
        ensures { OnOk result (AddsText (λ text. IsCanonicalTextOf text instant) name.now
            (map field_data self.old.fields.items) (map field_data self.new.fields.items)) }
    {
        let text = time_text(alloc, instant)?;
        self.add_text(alloc, name, text)
    }
}
