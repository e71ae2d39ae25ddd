ghost use Rattle.std.specs.Prelude.{◌≡◌, IfOk, option_map};
ghost use Rattle.serde_json.specs.Written.{compact_text};
ghost use Rattle.taxii_bodies.specs.Discovery.{discovery_data, root_data, root_url as url_under};

use crate::fields::Fields;
use crate::title_body;
use flow_values::{NoMemory, Text};
use std::alloc::Global;

/// The media type of TAXII 2.1.
const TAXII_MEDIA_TYPE: &str = "application/taxii+json;version=2.1";

const SERVER_TITLE: &str = "STIX pattern and TAXII server";

/// The maximum size of a request body in bytes.
const MAX_CONTENT_LENGTH: u64 = 8_388_608;

/// The body of the discovery resource (section 4.1.1): the server's title, and the URL of its one
/// API root if the base URL is known.
pub fn discovery_body(alloc: Global, base: Option<&str>) -> Result<Text, NoMemory>
    ensures { IfOk result
        (λ text. text ≡ compact_text (discovery_data (option_map (λ url. url.now) base.entry))) }
{
    match base {
        Some(base) => based_body(alloc, base),
        None => title_body(alloc, SERVER_TITLE),
    }
}

/// The discovery body for a known base URL.
fn based_body(alloc: Global, base: &str) -> Result<Text, NoMemory>
    ensures { IfOk result (λ text. text ≡ compact_text (discovery_data (Some base.now))) }
{
    let url = root_url(alloc, base)?;
    let mut discovery = Fields::new(alloc);
    discovery.add_one_text("api_roots", url.as_str())?;
    discovery.add_text("default", url.as_str())?;
    discovery.add_text("title", SERVER_TITLE)?;
    discovery.into_text()
}

/// The URL of the API root under a base URL.
fn root_url(alloc: Global, base: &str) -> Result<Text, NoMemory>
    ensures { IfOk result (λ url. url ≡ url_under base.now) }
{
    let mut url = Text::from_text(alloc, base)?;
    url.push("/api/")?;
    Ok(url)
}

/// The body of the API root resource (section 4.2.1).
pub fn root_body(alloc: Global) -> Result<Text, NoMemory>
    ensures { IfOk result (λ text. text ≡ compact_text root_data) }
{
    let mut root = Fields::new(alloc);
    root.add_number("max_content_length", MAX_CONTENT_LENGTH)?;
    root.add_text("title", "API root")?;
    root.add_one_text("versions", TAXII_MEDIA_TYPE)?;
    root.into_text()
}
