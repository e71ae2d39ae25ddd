ghost use Rattle.std.specs.Prelude.{◌≡◌, IfOk, map};
ghost use Rattle.std.specs.List.{AllZip};
ghost use Rattle.flow_values.specs.Answers.{FindsExactly};
ghost use Rattle.stix_ids.specs.Identifier.{IsTextOfId};
ghost use Rattle.taxii_routes.specs.Value.{AreValueTexts, IsPickText};
ghost use Rattle.taxii_routes.specs.Value as spec;

use crate::value::read_pick;
use flow_values::{Items, NoMemory, Text};
use std::alloc::{AllocError, Global};
use stix_ids::{Id, IdRefusal, Pick, read_id};

/// The comma-separated members of a list, borrowed.
fn members(alloc: Global, value: &str) -> Result<Vec<&str>, AllocError>
    ensures { IfOk result (λ texts. map (λ text. text.now) texts.items
        ≡ spec.value_members value.now) }
{
    value.split(',').collect(alloc)
}

/// The members of a list as owned texts, or `None` if one is empty.
pub(crate) fn read_texts(alloc: Global, value: &str) -> Result<Option<Items<Text>>, NoMemory>
    ensures { IfOk result (FindsExactly (AreValueTexts value.now)) }
{
    let members = members(alloc, value)?;
    let mut texts = Items::new(alloc);
    for member in &members {
        if member.is_empty() {
            return Ok(None);
        }
        texts.push(Text::from_text(alloc, member)?)?;
    }
    Ok(Some(texts))
}

/// The members of a list as STIX identifiers, or `None` if one is malformed.
pub(crate) fn read_ids(alloc: Global, value: &str) -> Result<Option<Items<Id>>, NoMemory>
    ensures { IfOk result (FindsExactly (AllZip IsTextOfId (spec.value_members value.now))) }
{
    let members = members(alloc, value)?;
    let mut ids = Items::new(alloc);
    for member in &members {
        let Some(id) = identifier(alloc, member)? else {
            return Ok(None);
        };
        ids.push(id)?;
    }
    Ok(Some(ids))
}

/// The member as a STIX identifier, if it is one.
fn identifier(alloc: Global, member: &str) -> Result<Option<Id>, NoMemory>
    ensures { IfOk result (FindsExactly (IsTextOfId member.now)) }
{
    match read_id(alloc, member) {
        Ok(id) => Ok(Some(id)),
        Err(IdRefusal::NoMemory) => Err(NoMemory),
        Err(IdRefusal::NoSeparator) => Ok(None),
        Err(IdRefusal::BadUuid) => Ok(None),
        Err(IdRefusal::BadKind { .. }) => Ok(None),
    }
}

/// The members of a `match[version]` value, or `None` if one is malformed.
pub(crate) fn read_picks(alloc: Global, value: &str) -> Result<Option<Items<Pick>>, NoMemory>
    ensures { IfOk result (FindsExactly (AllZip IsPickText (spec.value_members value.now))) }
{
    let members = members(alloc, value)?;
    let mut picks = Items::new(alloc);
    for member in &members {
        let Some(pick) = read_pick(member) else {
            return Ok(None);
        };
        picks.push(pick)?;
    }
    Ok(Some(picks))
}
