ghost use Rattle.std.specs.Prelude.{◌≡◌, option_map};
ghost use Rattle.taxii_exchange.specs.Config.{collection_named};

use flow_values::{Items, Text};
use std::alloc::Global;
use taxii_bodies::CollectionInfo;
use taxii_routes::Routes;

/// The configuration of a server.
#[derive(Drop)]
pub struct Config {
    pub alloc: Global,
    /// The base URL of the server, if known.
    pub base: Option<Text>,
    /// The collections, with distinct identifiers.
    pub collections: Items<CollectionInfo>,
    pub routes: Routes,
}

impl Config {
    /// The collection that a path segment names, if any.
    pub fn collection(&self, text: &str) -> Option<&CollectionInfo>
        ensures { option_map (λ info. info.now) result
            ≡ collection_named text.now self.now.collections }
    {
        self.collections
            .as_slice()
            .iter()
            .find(|info| info.is_named(text))
    }
}
