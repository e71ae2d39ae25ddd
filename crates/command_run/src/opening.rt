ghost use Rattle.std.specs.Prelude.{◌≡◌, ℕ, Err, map, IfOk, IfErr, IfSome};
ghost use Rattle.flow_edges.specs.Faults.{Counted};
ghost use Rattle.taxii_store.specs.Loading.{IsBadAfter};
ghost use Rattle.taxii_store.specs.declared.load_refusal.LoadRefusal.TheVariants as Refused;
ghost use Rattle.command_line.specs.Request.{plain_collection, plain_service};
ghost use Rattle.command_run.specs.Services.{info_of, IsConfigOf, store_name, Begins};

use command_line::{CollectionRequest, ServeRequest};
use flow_values::{Items, NoMemory, Text};
use std::alloc::Global;
use taxii_bodies::CollectionInfo;
use taxii_exchange::{Config, Statuses};
use taxii_routes::Routes;
use taxii_rows::Keeper;
use taxii_server::Server;
use taxii_service::State;
use taxii_store::{Library, LoadRefusal};

/// Creates the requested server with the rows of the keeper. The keeper's rows and its watermark
/// stay.
pub(crate) fn open<K: Keeper>(
    alloc: Global,
    request: &ServeRequest<'_>,
    keeper: &mut K,
) -> Result<Server, LoadRefusal>
    ensures ok { IfOk result (Begins (plain_service request.now) (K.kept keeper.new)) }
    ensures bad { IfErr result (λ refusal. (after : ℕ) → refusal ≡ Refused.BadRow after
        → IfSome (K.kept keeper.old).observable (λ state. IsBadAfter state after)) }
    ensures observable { (K.kept keeper.new).observable ≡ (K.kept keeper.old).observable }
    ensures causes { Counted (result ≡ Err Refused.KeeperFault) (K.faults keeper.old)
        (K.faults keeper.new) }
{
    let config = config_of(alloc, request)?;
    let statuses = Statuses::new(alloc)?;
    let library = Library::load(alloc, keeper, store_of(request))?;
    let state = State { library, statuses };
    Ok(Server { config, state })
}

/// The name of the store; empty if it is in memory.
fn store_of<'a>(request: &ServeRequest<'a>) -> &'a str
    ensures { result.now ≡ store_name (plain_service request.now).store }
{
    request.store.unwrap_or("")
}

/// The configuration of the server.
fn config_of(alloc: Global, request: &ServeRequest<'_>) -> Result<Config, NoMemory>
    ensures { IfOk result (IsConfigOf (plain_service request.now)) }
{
    let base = base_of(alloc, request)?;
    let collections = infos_of(alloc, request.collections.as_slice())?;
    let routes = Routes::new(alloc)?;
    Ok(Config {
        alloc,
        base,
        collections,
        routes,
    })
}

/// The base URL of the server, if any.
fn base_of(alloc: Global, request: &ServeRequest<'_>) -> Result<Option<Text>, NoMemory>
    ensures { IfOk result (λ base. base ≡ (plain_service request.now).base) }
{
    match request.base {
        Some(url) => Ok(Some(Text::from_text(alloc, url)?)),
        None => Ok(None),
    }
}

fn infos_of(
    alloc: Global,
    asked: &[CollectionRequest<'_>],
) -> Result<Items<CollectionInfo>, NoMemory>
    ensures { IfOk result (λ infos. infos ≡ map info_of (map plain_collection asked.now)) }
{
    let mut infos = Items::with_capacity(alloc, asked.len())?;
    for collection in asked {
        infos.push(collection_info(alloc, collection)?)?;
    }
    Ok(infos)
}

fn collection_info(alloc: Global, asked: &CollectionRequest<'_>) -> Result<CollectionInfo, NoMemory>
    ensures { IfOk result (λ info. info ≡ info_of (plain_collection asked.now)) }
{
    Ok(CollectionInfo {
        id: asked.id,
        title: Text::from_text(alloc, asked.title)?,
        can_read: asked.can_read,
        can_write: asked.can_write,
    })
}
