ghost use Rattle.std.specs.Prelude.{◌≡◌, ◌≢◌, ℕ, List, [], ◌∷◌, Some, None, IfOk};
ghost use Rattle.stix_ids.specs.declared.pick.Pick.TheVariants.{All as PickAll};
ghost use Rattle.stix_ids.specs.PartsOf.{id_of};
ghost use Rattle.taxii_bodies.specs.Discovery.{discovery_data};
ghost use Rattle.taxii_bodies.specs.Versions.{AreVersions};
ghost use Rattle.taxii_exchange.specs.Statuses.{kept_status_body};
ghost use Rattle.serde_json.specs.Written.{compact_text};
ghost use Rattle.taxii_service.specs.Resource.{resource_of};
ghost use Rattle.taxii_service.specs.Reading.{HasBody, IsPageOf, IsEnvelope};
ghost use Rattle.taxii_service.specs.Reading.{object_query, versions_query, IsGetAnswer};
ghost use Rattle.taxii_service.specs.inner.Performing.{HasStatus};

use crate::listing::{list_manifest, list_objects, list_versions};
use crate::{Resource, State};
use flow_values::{Items, NoMemory, Text};
use http_messages::Status;
use std::alloc::Global;
use stix_ids::{IdRef, Pick};
use taxii_bodies::{collection_body, collections_body, discovery_body, root_body};
use taxii_exchange::{Answer, Config, Statuses, body_answer};
use taxii_routes::Query;
use taxii_store::Library;

/// The response to a GET of a resource. A status that it reads is kept.
pub(crate) fn read(
    config: &Config,
    state: &State,
    resource: Resource<'_>,
    query: Query,
) -> Result<Answer, NoMemory>
    requires status { HasStatus state.now (resource_of resource) }
    ensures { IfOk result (IsGetAnswer config.now state.now (resource_of resource.entry) query) }
{
    let alloc = config.alloc;
    let library = &state.library;
    match resource {
        Resource::Discovery => read_discovery(config),
        Resource::Root => Ok(okay(root_body(alloc)?)),
        Resource::Status(id) => read_status(alloc, &state.statuses, id),
        Resource::Collections => Ok(okay(collections_body(alloc, config.collections.as_slice())?)),
        Resource::Collection(info) => Ok(okay(collection_body(alloc, info)?)),
        Resource::Manifest(info) => list_manifest(alloc, library, info.id, &query),
        Resource::Objects(info) => list_objects(alloc, library, info.id, None, &query),
        Resource::Object(info, id) => read_object(alloc, library, info.id, id, query),
        Resource::Versions(info, id) => read_versions(alloc, library, info.id, id, query),
    }
}

/// A 200 response with a body.
fn okay(body: Text) -> Answer
    ensures { HasBody body result }
{
    body_answer(Status::Okay, body)
}

fn read_discovery(config: &Config) -> Result<Answer, NoMemory>
    ensures { IfOk result (HasBody (compact_text (discovery_data config.now.base))) }
{
    let body = match &config.base {
        Some(base) => discovery_body(config.alloc, Some(base.as_str()))?,
        None => discovery_body(config.alloc, None)?,
    };
    Ok(okay(body))
}

fn read_status(alloc: Global, statuses: &Statuses, id: &str) -> Result<Answer, NoMemory>
    requires { kept_status_body id.now statuses.now ≢ None }
    ensures { IfOk result (λ answer. (body : List ℕ)
        × (kept_status_body id.now statuses.now ≡ Some body)
        × HasBody body answer) }
{
    match statuses.find(id) {
        Some(body) => Ok(okay(Text::from_text(alloc, body.as_str())?)),
        None => unreachable!(),
    }
}

fn read_object(
    alloc: Global,
    library: &Library,
    collection: u128,
    id: IdRef<'_>,
    query: Query,
) -> Result<Answer, NoMemory>
    ensures { IfOk result (IsPageOf library.now.rows collection (Some (id_of id.entry))
        (object_query query) IsEnvelope) }
{
    let id = id.to_id(alloc)?;
    let asked = Query {
        ids: None,
        kinds: None,
        ..query
    };
    list_objects(alloc, library, collection, Some(&id), &asked)
}

fn read_versions(
    alloc: Global,
    library: &Library,
    collection: u128,
    id: IdRef<'_>,
    query: Query,
) -> Result<Answer, NoMemory>
    ensures { IfOk result (IsPageOf library.now.rows collection (Some (id_of id.entry))
        (versions_query query) AreVersions) }
{
    let id = id.to_id(alloc)?;
    let asked = Query {
        ids: None,
        kinds: None,
        picks: Some(all_versions(alloc)?),
        ..query
    };
    list_versions(alloc, library, collection, Some(&id), &asked)
}

/// The filter for all versions.
fn all_versions(alloc: Global) -> Result<Items<Pick>, NoMemory>
    ensures { IfOk result (λ picks. picks ≡ PickAll ∷ []) }
{
    let mut picks = Items::new(alloc);
    picks.push(Pick::All)?;
    Ok(picks)
}
