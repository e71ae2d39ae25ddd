ghost use Rattle.std.specs.Prelude.{◌≡◌, ◌++◌, ◌==◌, OnOk, [], if◌then◌else◌};

use flow_values::{NoMemory, Text};

/// Writes the separator before each part but the first.
pub(crate) fn write_between(index: usize, between: &str, out: &mut Text) -> Result<(), NoMemory>
    ensures { OnOk result (out.new ≡ out.old ++ (if index == 0 then [] else between.now)) }
{
    if index == 0 {
        return Ok(());
    }
    out.push(between)
}
