ghost use Rattle.std.specs.Prelude.{◌≡◌, IfOk};
ghost use Rattle.serde_json.specs.Written.{compact_text};
ghost use Rattle.taxii_bodies.specs.Title.{title_data};

use crate::fields::Fields;
use flow_values::{NoMemory, Text};
use std::alloc::Global;

/// An error message with a title (section 3.6.1).
pub fn title_body(alloc: Global, title: &str) -> Result<Text, NoMemory>
    ensures { IfOk result (λ text. text ≡ compact_text (title_data title.now)) }
{
    let mut fields = Fields::new(alloc);
    fields.add_text("title", title)?;
    fields.into_text()
}
