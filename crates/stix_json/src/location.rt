ghost use Rattle.std.specs.Prelude.{◌≡◌, IfOk};
ghost use Rattle.stix_json.specs.inner.ValueErrors.{location_under, location_path};

use flow_values::{NoMemory, Text};
use std::alloc::Global;

/// The location of a value inside another one.
#[derive(Debug, Drop)]
pub(crate) enum Location {
    /// The value itself.
    Here,
    /// The value at this path.
    Below(Text),
}

impl Location {
    // Paths are built only for errors. Kept out of line, they cost the common case no stack.

    /// The location as seen from a value that has this one at `part`.
    #[inline(never)]
    pub fn below(self, alloc: Global, part: &str) -> Result<Location, NoMemory>
        ensures { IfOk result (λ location. location ≡ location_under part.now self) }
    {
        let mut path = Text::from_text(alloc, part)?;
        if let Location::Below(rest) = self {
            path.push(".")?;
            path.push(rest.as_str())?;
        }
        Ok(Location::Below(path))
    }

    /// The path, which is empty for the value itself.
    pub fn into_path(self, alloc: Global) -> Text
        ensures { result ≡ location_path self }
    {
        match self {
            Location::Here => Text::new(alloc),
            Location::Below(path) => path,
        }
    }
}
