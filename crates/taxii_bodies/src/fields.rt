ghost use Rattle.std.specs.Prelude.{◌≡◌, ◌^◌, ◌<◌, ◌∷◌, ◌++◌, [], IfOk, OnOk, map};
ghost use Rattle.serde_json.specs.Data.{boolean, unsigned, number as whole, string, array, object};
ghost use Rattle.serde_json.specs.Data.{item, no_items};
ghost use Rattle.serde_json.specs.View.{items_of};
ghost use Rattle.serde_json.specs.Written.{compact_text};
ghost use Rattle.stix_json.specs.DataOf.{data_of, members_of};
ghost use Rattle.stix_json.specs.Ordered.{MembersAreOrdered};
ghost use Rattle.taxii_bodies.specs.inner.Members.{members_in, list_member};

use flow_values::{Items, Name, NoMemory, Text};
use std::alloc::Global;
use stix_json::{Field, Json, JsonText, write_json};

/// A builder of a JSON object: its fields, in order of insertion.
#[derive(Drop)]
pub(crate) struct Fields {
    alloc: Global,
    fields: Vec<Field>,
}

impl Fields {
    /// No fields. Allocates nothing.
    pub(crate) fn new(alloc: Global) -> Fields
        ensures { members_in result ≡ [] }
    {
        Fields {
            alloc,
            fields: Vec::new(alloc),
        }
    }

    /// Adds a field with any value.
    pub(crate) fn add(&mut self, name: &str, value: Json) -> Result<(), NoMemory>
        ensures { OnOk result
            (members_in self.new
            ≡ members_in self.old ++ record { name = name.now; value = data_of value } ∷ []) }
    {
        match Name::from_text(self.alloc, name) {
            Ok(name) => Ok(self.fields.push(Field { name, value })?),
            Err(NoMemory) => {
                drop(value);
                Err(NoMemory)
            }
        }
    }

    /// Adds a Boolean field.
    pub(crate) fn add_truth(&mut self, name: &str, truth: bool) -> Result<(), NoMemory>
        ensures { OnOk result
            (members_in self.new
            ≡ members_in self.old ++ record { name = name.now; value = boolean truth } ∷ []) }
    {
        self.add(name, Json::Bool(truth))
    }

    /// Adds a numeric field.
    pub(crate) fn add_number(&mut self, name: &str, number: u64) -> Result<(), NoMemory>
        requires { number < 2 ^ 63 }
        ensures { OnOk result
            (members_in self.new
            ≡ members_in self.old
            ++ record { name = name.now; value = whole (unsigned number) } ∷ []) }
    {
        self.add(name, Json::Integer(number as i64))
    }

    /// Adds a string field.
    pub(crate) fn add_text(&mut self, name: &str, text: &str) -> Result<(), NoMemory>
        ensures { OnOk result
            (members_in self.new
            ≡ members_in self.old ++ record { name = name.now; value = string text.now } ∷ []) }
    {
        self.add(name, text_value(self.alloc, text)?)
    }

    /// Adds a field whose value is an array of one string.
    pub(crate) fn add_one_text(&mut self, name: &str, text: &str) -> Result<(), NoMemory>
        ensures { OnOk result
            (members_in self.new
            ≡ members_in self.old
            ++ record { name = name.now; value = array (item (string text.now) no_items) } ∷ []) }
    {
        let mut texts = Items::new(self.alloc);
        texts.push(text_value(self.alloc, text)?)?;
        self.add_list(name, texts)
    }

    /// Adds an array field.
    pub(crate) fn add_list(&mut self, name: &str, values: Items<Json>) -> Result<(), NoMemory>
        ensures { OnOk result
            (members_in self.new
            ≡ members_in self.old
            ++ record { name = name.now; value = array (items_of (map data_of values)) } ∷ []) }
    {
        self.add(name, Json::Array(values))
    }

    /// Adds an array field, unless the array is empty.
    pub(crate) fn add_some(&mut self, name: &str, values: Items<Json>) -> Result<(), NoMemory>
        ensures { OnOk result
            (members_in self.new
            ≡ members_in self.old ++ list_member name.now (map data_of values)) }
    {
        if values.is_empty() {
            return Ok(());
        }
        self.add_list(name, values)
    }

    /// The object with these fields.
    pub(crate) fn into_object(self) -> Json
        ensures { data_of result ≡ object (members_of (members_in self)) }
    {
        Json::Object(Items::from_vec(self.fields))
    }

    /// The compact text of the object. The names must be in byte order.
    pub(crate) fn into_text(self) -> Result<Text, NoMemory>
        requires { MembersAreOrdered (members_of (members_in self)) }
        ensures { IfOk result
            (λ text. text ≡ compact_text (object (members_of (members_in self)))) }
    {
        let alloc = self.alloc;
        write_json(alloc, &self.into_object())
    }
}

/// A text as a JSON string.
pub(crate) fn text_value(alloc: Global, text: &str) -> Result<Json, NoMemory>
    ensures { IfOk result (λ value. data_of value ≡ string text.now) }
{
    let text = Text::from_text(alloc, text)?;
    Ok(Json::String(JsonText::from_text(alloc, text)?))
}
