ghost use Rattle.std.specs.Prelude.{None, IfOk, option_map};
ghost use Rattle.taxii_bodies.specs.Manifest.{IsManifest};
ghost use Rattle.taxii_bodies.specs.Versions.{AreVersions};
ghost use Rattle.taxii_service.specs.Reading.{IsPageOf, IsEnvelope};

use flow_values::NoMemory;
use std::alloc::Global;
use stix_ids::Id;
use taxii_bodies::laws::sound_rows_are_writable;
use taxii_bodies::{envelope_body, manifest_body, versions_body};
use taxii_exchange::{Answer, page_answer};
use taxii_routes::Query;
use taxii_store::page_laws::rows_of_pages;
use taxii_store::{Library, page_of};

/// The response with a page of objects.
pub(crate) fn list_objects<'a>(
    alloc: Global,
    library: &'a Library,
    collection: u128,
    only: Option<&'a Id>,
    query: &'a Query,
) -> Result<Answer, NoMemory>
    ensures { IfOk result
        (IsPageOf library.now.rows collection
        (option_map (λ id. id.now) only.entry) query.now IsEnvelope) }
{
    let page = page_of(alloc, library, collection, only, query)?;
    let body = envelope_body(alloc, &page.rows, page.more)?;
    Ok(page_answer(&page.rows, body))
}

/// The response with a page of a manifest.
pub(crate) fn list_manifest<'a>(
    alloc: Global,
    library: &'a Library,
    collection: u128,
    query: &'a Query,
) -> Result<Answer, NoMemory>
    ensures { IfOk result (IsPageOf library.now.rows collection None query.now IsManifest) }
{
    rows_of_pages();
    sound_rows_are_writable();
    library.rows();
    let page = page_of(alloc, library, collection, None, query)?;
    let body = manifest_body(alloc, &page.rows, page.more)?;
    Ok(page_answer(&page.rows, body))
}

/// The response with a page of an object's versions.
pub(crate) fn list_versions<'a>(
    alloc: Global,
    library: &'a Library,
    collection: u128,
    only: Option<&'a Id>,
    query: &'a Query,
) -> Result<Answer, NoMemory>
    ensures { IfOk result
        (IsPageOf library.now.rows collection
        (option_map (λ id. id.now) only.entry) query.now AreVersions) }
{
    rows_of_pages();
    sound_rows_are_writable();
    library.rows();
    let page = page_of(alloc, library, collection, only, query)?;
    let body = versions_body(alloc, &page.rows, page.more)?;
    Ok(page_answer(&page.rows, body))
}
