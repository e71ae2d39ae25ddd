//! The routing table: a radix-tree router (`matchit`) over the paths of TAXII 2.1.

ghost use Rattle.std.specs.Prelude.{◌≡◌, ◌≢◌, ℕ, List, [], Ok, IfOk, OnOk, OnErr};
ghost use Rattle.taxii_routes.specs.declared.route.Route.{Route};
ghost use Rattle.taxii_routes.specs.declared.route.Route.TheVariants as Route;
ghost use Rattle.taxii_routes.specs.Route.{IsRoutePath};
ghost use Rattle.taxii_routes.specs.inner.Found.{taken, RepresentsParameter, Found};
ghost use Rattle.taxii_routes.specs.inner.Table.{table};

use crate::Route;
use crate::endpoint::Endpoint;
use flow_values::{NoMemory, Text};
use matchit::{InsertError, Params, Router};
use std::alloc::Global;

/// The routing table.
#[derive(Drop)]
pub struct Routes {
    alloc: Global,
    router: Router<Endpoint>,
    ghost whole: { router ≡ table },
}

impl Routes {
    /// The routing table of a TAXII server with one API root, `/api/`.
    pub fn new(alloc: Global) -> Result<Routes, NoMemory> {
        match router(alloc) {
            Ok(router) => Ok(Routes { alloc, router }),
            Err(_) => Err(NoMemory),
        }
    }

    /// The route of a path, without the query. Segments are not decoded. `Err` means that a path
    /// has a route but its segments could not be copied, so a wrong path is reported even when out
    /// of memory.
    pub fn route(&self, path: &str) -> Result<Route, NoMemory>
        ensures found { IfOk result (λ route. route ≢ Route.None → IsRoutePath path.now route) }
        ensures none { result ≡ Ok Route.None → (route : Route) → ¬ IsRoutePath path.now route }
        ensures err { OnErr result ((route : Route) × IsRoutePath path.now route) }
    {
        match self.router.at(path) {
            Ok(found) => self.named(*found.value, &found.params),
            Err(_) => Ok(Route::None),
        }
    }

    /// The route of an endpoint with its path parameters.
    fn named(&self, endpoint: Endpoint, params: &Params<'_, '_>) -> Result<Route, NoMemory>
        ensures { (path : List ℕ) → Found endpoint path (taken params.now)
            → IfOk result (λ route. (route ≢ Route.None) × IsRoutePath path route) }
    {
        match endpoint {
            Endpoint::Discovery => Ok(Route::Discovery),
            Endpoint::Root => Ok(Route::Root),
            Endpoint::Status => Ok(Route::Status(self.text(params, "id")?)),
            Endpoint::Collections => Ok(Route::Collections),
            Endpoint::Collection => Ok(Route::Collection(self.text(params, "id")?)),
            Endpoint::Manifest => Ok(Route::Manifest(self.text(params, "id")?)),
            Endpoint::Objects => Ok(Route::Objects(self.text(params, "id")?)),
            Endpoint::Object => {
                let collection = self.text(params, "id")?;
                let object = self.text(params, "object")?;
                Ok(Route::Object { collection, object })
            }
            Endpoint::Versions => {
                let collection = self.text(params, "id")?;
                let object = self.text(params, "object")?;
                Ok(Route::Versions { collection, object })
            }
        }
    }

    /// The path parameter with this name.
    fn text(&self, params: &Params<'_, '_>, name: &str) -> Result<Text, NoMemory>
        ensures { (value : List ℕ) → RepresentsParameter (taken params.now) name.now value
            → IfOk result (λ text. text ≡ value) }
    {
        match params.get(name) {
            Some(text) => Text::from_text(self.alloc, text),
            None => Ok(Text::new(self.alloc)),
        }
    }
}

/// A router with all paths.
fn router(alloc: Global) -> Result<Router<Endpoint>, InsertError>
    ensures { IfOk result (λ router. router ≡ table) }
{
    let mut router = Router::new(alloc);
    insert_routes(&mut router)?;
    Ok(router)
}

/// Inserts all paths into an empty router.
fn insert_routes(router: &mut Router<Endpoint>) -> Result<(), InsertError>
    requires { router.old ≡ [] }
    ensures { OnOk result (router.new ≡ table) }
{
    router.insert("/taxii2/", Endpoint::Discovery)?;
    router.insert("/api/", Endpoint::Root)?;
    router.insert("/api/status/{id}/", Endpoint::Status)?;
    router.insert("/api/collections/", Endpoint::Collections)?;
    router.insert("/api/collections/{id}/", Endpoint::Collection)?;
    router.insert("/api/collections/{id}/manifest/", Endpoint::Manifest)?;
    router.insert("/api/collections/{id}/objects/", Endpoint::Objects)?;
    router.insert("/api/collections/{id}/objects/{object}/", Endpoint::Object)?;
    router.insert(
        "/api/collections/{id}/objects/{object}/versions/",
        Endpoint::Versions,
    )?;
    Ok(())
}
