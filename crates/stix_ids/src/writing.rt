ghost use Rattle.std.specs.Prelude.{IfOk};
ghost use Rattle.stix_ids.specs.Kind.{IsKind};
ghost use Rattle.stix_ids.specs.Identifier.{IsCanonicalIdText};

use crate::Id;
use crate::hyphenated::write_uuid;
use crate::parts::SUFFIX_LENGTH;
use flow_values::{NoMemory, Text};
use std::alloc::Global;

/// The canonical text of the identifier, with lower-case digits. Allocates once.
pub fn write_id(alloc: Global, id: &Id) -> Result<Text, NoMemory>
    requires { IsKind id.now.kind }
    ensures { IfOk result (λ text. IsCanonicalIdText text id.now) }
{
    let kind = id.kind.as_str();
    let mut buffer = [0; 36];
    let uuid = write_uuid(id.number, &mut buffer);
    let mut text = String::with_capacity(alloc, kind.len() + SUFFIX_LENGTH)?;
    text.push_str(kind)?;
    text.push_str("--")?;
    text.push_str(uuid)?;
    Ok(Text::from_string(text))
}
