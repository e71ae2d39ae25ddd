ghost use Rattle.std.specs.Prelude.{◌≡◌, [], ◌∷◌, ◌++◌, suc, ℕ, List, None, Some, IfOk, OnOk};
ghost use Rattle.serde_json.specs.Data.{Data, Members, object};
ghost use Rattle.stix_json.specs.DataOf.{Member, members_of};
ghost use Rattle.stix_json.specs.inner.FirstErrors.{first_error_under, deciding_error};
ghost use Rattle.stix_json.specs.inner.Checking.{IsCheckedAs, AreRawMembers};

use crate::checked::Checked;
use crate::first_error::FirstError;
use crate::raw_members::RawMember;
use crate::{Field, Json};
use flow_values::{Items, NoMemory};
use std::alloc::Global;

/// Collects the fields of an object, until one has an error in its value.
#[derive(Drop)]
pub(crate) struct Fields {
    pub fields: Vec<Field>,
    pub first_error: Option<FirstError>,
}

impl Fields {
    ghost use Rattle.stix_json.specs.inner.Checking.{AreFields};

    /// Adds the next field.
    fn push(&mut self, alloc: Global, member: RawMember) -> Result<(), NoMemory>
        ensures { OnOk result ((levels : ℕ) (done : List Member) («data» : Data)
            → AreFields levels done self.old → IsCheckedAs levels «data» member.checked
            → AreFields levels (done
            ++ record { name = member.name; value = «data» } ∷ []) self.new) }
    {
        let RawMember { name, checked } = member;
        match checked {
            Checked::Good(value) => self.add(Field { name, value }),
            Checked::Bad(first_error) => self.note(alloc, name.as_str(), first_error),
        }
    }

    /// Adds a field, unless there was an error.
    fn add(&mut self, field: Field) -> Result<(), NoMemory>
        ensures first_error { self.new.first_error ≡ self.old.first_error }
        ensures fields { OnOk result (self.old.first_error ≡ None
            → self.new.fields.items ≡ self.old.fields.items ++ field ∷ []) }
    {
        if self.first_error.is_some() {
            return Ok(());
        }
        self.fields.push(field)?;
        Ok(())
    }

    /// Records the error of the value of this name, if it overrides the first one so far.
    fn note(&mut self, alloc: Global, name: &str, first_error: FirstError) -> Result<(), NoMemory>
        ensures { OnOk result (self.new.first_error
            ≡ deciding_error self.old.first_error (Some (first_error_under name.now first_error))) }
    {
        if first_error.overrides(&self.first_error) {
            self.first_error = Some(first_error.below(alloc, name)?);
        }
        Ok(())
    }

    /// The outcome for the whole object.
    fn into_checked(self) -> Checked
        ensures { (levels : ℕ) (done : List Member) → AreFields levels done self
            → IsCheckedAs (suc levels) (object (members_of done)) result }
    {
        let Fields {
            fields,
            first_error,
        } = self;
        match first_error {
            Some(first_error) => Checked::Bad(first_error),
            None => Checked::Good(Json::Object(Items::from_vec(fields))),
        }
    }
}

/// The outcome for the object with these members.
pub(crate) fn check_members(alloc: Global, members: Vec<RawMember>) -> Result<Checked, NoMemory>
    ensures { IfOk result (λ checked. (levels : ℕ) (ms : Members)
        → AreRawMembers levels ms members.items → IsCheckedAs (suc levels) (object ms) checked) }
{
    let mut fields = Fields {
        fields: Vec::with_capacity(alloc, members.len())?,
        first_error: None,
    };
    for member in members {
        fields.push(alloc, member)?;
    }
    Ok(fields.into_checked())
}
