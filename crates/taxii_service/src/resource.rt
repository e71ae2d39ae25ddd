ghost use Rattle.std.specs.Prelude.{◌≡◌, option_map};
ghost use Rattle.flow_values.specs.Answers.{FindsExactly};
ghost use Rattle.taxii_service.specs.Finding.{IsResource, NamesObject};
ghost use Rattle.taxii_service.specs.Resource as spec;
ghost use Rattle.stix_ids.specs.PartsOf.{id_of};

use crate::State;
use stix_ids::IdRef;
use taxii_bodies::CollectionInfo;
use taxii_exchange::{Allow, Config, Rights};
use taxii_routes::Route;
use taxii_store::Library;

/// A resource that a route leads to (TAXII 2.1, sections 4 and 5). It borrows the configuration and
/// the path, but not the state, which a request may change.
#[derive(Clone, Copy)]
pub enum Resource<'a> {
    /// The server's discovery.
    Discovery,
    /// The API root.
    Root,
    /// The status report with this identifier.
    Status(&'a str),
    /// The list of collections.
    Collections,
    /// A collection's description.
    Collection(&'a CollectionInfo),
    /// A collection's manifest.
    Manifest(&'a CollectionInfo),
    /// A collection's objects.
    Objects(&'a CollectionInfo),
    /// An object of a collection.
    Object(&'a CollectionInfo, IdRef<'a>),
    /// The versions of an object.
    Versions(&'a CollectionInfo, IdRef<'a>),
}

impl<'a> Resource<'a> {
    /// The resource of a route, if it exists: a status that is kept, a collection of the
    /// configuration, an object with a row in its collection. Allocates nothing.
    pub fn find(config: &'a Config, state: &State, route: &'a Route) -> Option<Resource<'a>>
        ensures { FindsExactly (IsResource config.now.collections state.now route.now)
            (option_map spec.resource_of result) }
    {
        match route {
            Route::Discovery => Some(Resource::Discovery),
            Route::Root => Some(Resource::Root),
            Route::Status(id) => {
                state.statuses.find(id.as_str())?;
                Some(Resource::Status(id.as_str()))
            }
            Route::Collections => Some(Resource::Collections),
            Route::Collection(name) => {
                Some(Resource::Collection(config.collection(name.as_str())?))
            }
            Route::Manifest(name) => Some(Resource::Manifest(config.collection(name.as_str())?)),
            Route::Objects(name) => Some(Resource::Objects(config.collection(name.as_str())?)),
            Route::Object { collection, object } => {
                let info = config.collection(collection.as_str())?;
                let id = stored_id(&state.library, info, object.as_str())?;
                Some(Resource::Object(info, id))
            }
            Route::Versions { collection, object } => {
                let info = config.collection(collection.as_str())?;
                let id = stored_id(&state.library, info, object.as_str())?;
                Some(Resource::Versions(info, id))
            }
            Route::None => None,
        }
    }

    /// The methods that the resource allows.
    pub fn allow(self) -> Allow
        ensures { result ≡ spec.allowed (spec.resource_of self.entry) }
    {
        match self {
            Resource::Objects(_) => Allow::GetPost,
            Resource::Object(_, _) => Allow::GetDelete,
            Resource::Discovery
            | Resource::Root
            | Resource::Status(_)
            | Resource::Collections
            | Resource::Collection(_)
            | Resource::Manifest(_)
            | Resource::Versions(_, _) => Allow::Get,
        }
    }

    /// The client's rights on the resource.
    pub fn rights(self) -> Rights
        ensures { result ≡ spec.rights_to (spec.resource_of self.entry) }
    {
        match self {
            Resource::Discovery
            | Resource::Root
            | Resource::Status(_)
            | Resource::Collections
            | Resource::Collection(_) => Rights::ALL,
            Resource::Manifest(info)
            | Resource::Objects(info)
            | Resource::Object(info, _)
            | Resource::Versions(info, _) => Rights::of(info),
        }
    }
}

/// The identifier that the text is, if the collection has a row of that object.
fn stored_id<'a>(library: &Library, info: &CollectionInfo, text: &'a str) -> Option<IdRef<'a>>
    ensures { FindsExactly (NamesObject text.now info.now library.now.rows)
        (option_map id_of result) }
{
    let Ok(id) = IdRef::read(text) else {
        return None;
    };
    if library.has_object(info.id, id.number, id.kind) {
        Some(id)
    } else {
        None
    }
}
