//! The members of an object: collected in source order, then stably sorted by name. Of members with
//! one name, the last counts, as in `serde_json`.

ghost use Rattle.std.specs.Prelude.{◌≡◌, [], ◌∷◌, ◌++◌, IsTrue, IfOk, OnOk};
ghost use Rattle.stix_json.specs.inner.Insertion.{insert_all, ends_with, NamesAscend};
ghost use Rattle.stix_json.specs.inner.Insertion.{NamesAreSorted};
ghost use Rattle.stix_json.specs.inner.Checking.{member_name};

use crate::checked::Checked;
use flow_values::{Name, NoMemory};
use std::alloc::Global;

/// A member of an object, in source order: its name, and its checked value.
#[derive(Drop)]
pub(crate) struct RawMember {
    pub name: Name,
    pub checked: Checked,
}

/// The initial capacity for members, which few objects exceed.
const USUAL_MEMBERS: usize = 12;

/// No members yet.
pub(crate) fn no_members_yet(alloc: Global) -> Result<Vec<RawMember>, NoMemory>
    ensures { IfOk result (λ members. members.items ≡ []) }
{
    Ok(Vec::with_capacity(alloc, USUAL_MEMBERS)?)
}

/// Appends a member.
pub(crate) fn push_member(
    members: &mut Vec<RawMember>,
    name: Name,
    checked: Checked,
) -> Result<(), NoMemory>
    ensures { OnOk result (members.new.items
        ≡ members.old.items ++ record { name = name; checked = checked } ∷ []) }
{
    members.push(RawMember { name, checked })?;
    Ok(())
}

/// The members sorted by name; of those with one name, only the last.
pub(crate) fn order_members(
    alloc: Global,
    members: Vec<RawMember>,
) -> Result<Vec<RawMember>, NoMemory>
    ensures { IfOk result (λ ordered. ordered.items ≡ insert_all member_name members.items []) }
{
    if names_ascend(&members) {
        return Ok(members);
    }
    let mut members = members;
    sort_by_name(&mut members)?;
    if names_ascend(&members) {
        return Ok(members);
    }
    keep_last(alloc, members)
}

/// Sorts members by name. The sort is stable.
fn sort_by_name(members: &mut Vec<RawMember>) -> Result<(), NoMemory>
    ensures ascends { OnOk result (NamesAreSorted member_name members.new.items) }
    ensures same { insert_all member_name members.new.items []
        ≡ insert_all member_name members.old.items [] }
{
    members.sort_by(|one, other| one.name.as_str().cmp(other.name.as_str()))?;
    Ok(())
}

/// Whether the names are strictly ascending.
fn names_ascend(members: &[RawMember]) -> bool
    ensures { IsTrue result → NamesAscend member_name members.now }
{
    members.is_sorted_by(|one, next| one.name.as_str() < next.name.as_str())
}

/// Drops all but the last member of each name. The members are sorted by name.
fn keep_last(alloc: Global, members: Vec<RawMember>) -> Result<Vec<RawMember>, NoMemory>
    requires { NamesAreSorted member_name members.items }
    ensures { IfOk result (λ kept. kept.items ≡ insert_all member_name members.items []) }
{
    let mut kept = Vec::new(alloc);
    for member in members {
        if ends_with_name(&kept, &member) {
            drop(kept.pop());
        }
        push(&mut kept, member)?;
    }
    Ok(kept)
}

/// Whether the last of the members has the name of `next`.
fn ends_with_name(members: &[RawMember], next: &RawMember) -> bool
    ensures { result ≡ ends_with member_name next.now.name members.now }
{
    match members.last() {
        Some(last) => last.name.as_str() == next.name.as_str(),
        None => false,
    }
}

/// Appends a member.
fn push(members: &mut Vec<RawMember>, member: RawMember) -> Result<(), NoMemory>
    ensures { OnOk result (members.new.items ≡ members.old.items ++ member ∷ []) }
{
    members.push(member)?;
    Ok(())
}
