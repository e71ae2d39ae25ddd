ghost use Rattle.std.specs.Prelude.{◌≡◌, ◌≤◌, length};
ghost use Rattle.flow_links.specs.declared.dial.TheConstants.{MAX_HOST};

use flow_links::MAX_HOST;
use std::marker::Model;

/// The endpoint of a link in memory: a host of up to `MAX_HOST` bytes, held inline, and a port.
#[derive(Drop)]
pub struct Endpoint {
    bytes: [u8; MAX_HOST],
    len: usize,
    port: u16,
}

impl Model for Endpoint {
    ghost use Rattle.std.specs.Prelude.{◌≤◌, take, length};
    ghost use Rattle.flow_links.specs.Dials.{Endpoint};

    ghost Value = { Endpoint };

    ghost view = { λ endpoint.
        record { host = take endpoint.len endpoint.bytes; port = endpoint.port } };

    ghost invariant = { λ endpoint. endpoint.len ≤ length endpoint.bytes };
}

impl Endpoint {
    /// The endpoint of this host and port. Allocates nothing.
    pub(crate) fn new(host: &str, port: u16) -> Endpoint
        requires short { length host.now ≤ MAX_HOST }
        ensures { result ≡ record { host = host.now; port = port } }
    {
        let len = host.len();
        let mut bytes = [0u8; MAX_HOST];
        bytes[..len].copy_from_slice(host.as_bytes());
        Endpoint { bytes, len, port }
    }

    /// The bytes of the host's name or address.
    pub fn host(&self) -> &[u8]
        ensures { result.now ≡ self.now.host }
    {
        &self.bytes[..self.len]
    }

    /// The port.
    pub fn port(&self) -> u16
        ensures { result ≡ self.now.port }
    {
        self.port
    }
}
