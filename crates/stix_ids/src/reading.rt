ghost use Rattle.std.specs.Prelude.{◌≡◌, ◌≢◌, ◌⊎◌, ◌↔◌, Result, Ok, Err, IsTrue, IfOk, IfErr};
ghost use Rattle.stix_ids.specs.declared.id.Id.{Id};
ghost use Rattle.stix_ids.specs.declared.refusal.IdRefusal.{IdRefusal};
ghost use Rattle.stix_ids.specs.declared.refusal.IdRefusal.TheVariants.{NoMemory};
ghost use Rattle.stix_ids.specs.Identifier.{IsTextOfId, IsOfKind};
ghost use Rattle.stix_ids.specs.Reading.{IsRefusedId};

use crate::parts::IdRef;
use crate::{Id, IdRefusal};
use std::alloc::Global;

/// Reads an identifier: a kind, `--` and a UUID in hyphenated form, with hex digits of either case.
/// `NoMemory` only if the text is an identifier: a bad text is reported as such even without
/// memory.
pub fn read_id(alloc: Global, text: &str) -> Result<Id, IdRefusal>
    ensures ok { IfOk result (IsTextOfId text.now) }
    ensures err { IfErr result (IsRefusedId text.now) }
    // Completeness: every identifier is accepted, unless memory runs out.
    ensures named { (id : Id) → IsTextOfId text.now id → (result ≡ Ok id)
        ⊎ (result ≡ Err NoMemory) }
    // The refusal is exact: a refusal that applies to the text is the one returned.
    ensures refused { (refusal : IdRefusal) → refusal ≢ NoMemory → IsRefusedId text.now refusal
        → result ≡ Err refusal }
{
    let parts = IdRef::read(text)?;
    let id = parts.to_id(alloc)?;
    Ok(id)
}

/// Whether the text is an identifier of the kind. Allocates nothing.
pub fn is_of_kind(text: &str, kind: &str) -> bool
    ensures { IsTrue result ↔ IsOfKind text.now kind.now }
{
    match IdRef::read(text) {
        Ok(parts) => parts.kind == kind,
        Err(_) => false,
    }
}

/// Whether the text is this identifier. Allocates nothing.
pub fn is_text_of(id: &Id, text: &str) -> bool
    ensures { IsTrue result ↔ IsTextOfId text.now id.now }
{
    match IdRef::read(text) {
        Ok(parts) => parts.number == id.number && parts.kind == id.kind.as_str(),
        Err(_) => false,
    }
}
