ghost use Rattle.std.specs.Prelude.{◌≡◌, ◌+◌, ◌++◌, IfOk, OnOk, map, replicate};
ghost use Rattle.match_bindings.specs.BindTree.{tree_of, many_of};
ghost use Rattle.match_bindings.specs.Flat.{flat};

use crate::Bind;
use flow_values::{Items, NoMemory};
use std::alloc::Global;

/// The flat list of a binding: its numbers from left to right, with 0 before those of a `First`,
/// and 18446744073709551615 (u64::MAX) before those of a `Second`.
pub fn flat(alloc: Global, bind: &Bind) -> Result<Items<u64>, NoMemory>
    ensures { IfOk result (λ entries. entries ≡ flat (tree_of bind.now)) }
{
    let mut entries = Vec::new(alloc);
    push_flat(bind, &mut entries)?;
    Ok(Items::from_vec(entries))
}

/// Appends the flat list of a binding.
#[cycle(flat)]
pub(crate) fn push_flat(bind: &Bind, out: &mut Vec<u64>) -> Result<(), NoMemory>
    ensures { OnOk result (out.new.items ≡ out.old.items ++ flat (tree_of bind.now)) }
{
    match bind {
        Bind::One(number) => out.push(*number)?,
        Bind::Both(sides) => {
            push_flat(&sides.0, out)?;
            push_flat(&sides.1, out)?;
        }
        Bind::First(more, part) => {
            push_zeros(*more, out)?;
            push_flat(part, out)?;
        }
        Bind::Second(part) => {
            out.push(u64::MAX)?;
            push_flat(part, out)?;
        }
        Bind::Many(parts) => push_flats(parts.as_slice(), out)?,
    }
    Ok(())
}

/// Appends the zeros of a `First`.
fn push_zeros(more: u32, out: &mut Vec<u64>) -> Result<(), NoMemory>
    ensures { OnOk result (out.new.items ≡ out.old.items ++ replicate (more + 1) 0) }
{
    let zeros = more as usize + 1;
    out.resize(out.len() + zeros, 0)?;
    Ok(())
}

/// Appends the flat lists of bindings.
#[cycle(flat)]
fn push_flats(binds: &[Bind], out: &mut Vec<u64>) -> Result<(), NoMemory>
    ensures { OnOk result (out.new.items ≡ out.old.items
        ++ flat (many_of (map tree_of binds.now))) }
{
    for bind in binds {
        push_flat(bind, out)?;
    }
    Ok(())
}
