ghost use Rattle.std.specs.Prelude.{◌≡◌, ◌⊎◌, ◌↔◌, IsTrue, IfOk, IfErr};
ghost use Rattle.taxii_routes.specs.Query.{pairs_of, IsQueryOf};
ghost use Rattle.taxii_exchange.specs.Checking.{allows as allow_it, IsAccepted, IsTyped, IsFit};
ghost use Rattle.taxii_exchange.specs.Checking.{IsRefusedByCheck};
ghost use Rattle.taxii_exchange.specs.declared.refusal.Refusal.TheVariants as Refused;

use crate::{Allow, Refusal, Rights};
use http_messages::{Method, Request};
use std::alloc::Global;
use taxii_bodies::Problem;
use taxii_routes::{Query, QueryRefusal, accepts, is_taxii, read_query};

/// Parses the query of a request, or returns the first reason against the request. The order is:
/// method, Accept, rights, Content-Type, query.
pub fn check(
    alloc: Global,
    request: &Request,
    query: &str,
    allow: Allow,
    rights: Rights,
) -> Result<Query, Refusal>
    ensures fit { IfOk result (λ asked. IsFit allow rights request.now) }
    ensures query { IfOk result (IsQueryOf (pairs_of query.now)) }
    ensures err { IfErr result (λ refusal. (refusal ≡ Refused.NoMemory)
        ⊎ IsRefusedByCheck allow rights request.now query.now refusal) }
{
    if !allows(allow, request.method) {
        return Err(Refusal::NotAllowed(allow));
    }
    if !is_accepted(request) {
        return Err(Refusal::Problem(Problem::NotAcceptable));
    }
    if !rights.permit(request.method) {
        return Err(Refusal::Problem(Problem::Forbidden));
    }
    if !is_typed(request) {
        return Err(Refusal::Problem(Problem::UnsupportedMediaType));
    }
    match read_query(alloc, query) {
        Ok(asked) => Ok(asked),
        Err(QueryRefusal::BadValue { name }) => Err(Refusal::Problem(Problem::BadValue(name))),
        Err(QueryRefusal::Repeated { name }) => Err(Refusal::Problem(Problem::Repeated(name))),
        Err(QueryRefusal::NoMemory) => Err(Refusal::NoMemory),
    }
}

/// Whether the resource allows the method.
fn allows(allow: Allow, method: Method) -> bool
    ensures { result ≡ allow_it allow method }
{
    match method {
        Method::Get => true,
        Method::Post => allow == Allow::GetPost,
        Method::Delete => allow == Allow::GetDelete,
        Method::Head | Method::Other => false,
    }
}

/// Whether the client accepts TAXII's media type, or has no Accept field.
fn is_accepted(request: &Request) -> bool
    ensures { IsTrue result ↔ IsAccepted request.now }
{
    match &request.accept {
        Some(accept) => accepts(accept.as_str()),
        None => true,
    }
}

/// Whether the body of a POST has TAXII's media type.
fn is_typed(request: &Request) -> bool
    ensures { IsTrue result ↔ IsTyped request.now }
{
    match (request.method, &request.content_type) {
        (Method::Post, Some(content_type)) => is_taxii(content_type.as_str()),
        (Method::Post, None) => false,
        (Method::Get | Method::Head | Method::Delete | Method::Other, _) => true,
    }
}
