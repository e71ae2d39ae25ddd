ghost use Rattle.std.specs.Prelude.{◌≡◌, MatchResult};
ghost use Rattle.taxii_server.specs.declared.link_end.LinkEnd.TheVariants as End;
ghost use Rattle.taxii_server.specs.Connections.{requests_of};

use flow_values::Fault;

/// How a connection ended, and how many requests were answered, at least in part.
#[derive(Clone, Copy, Debug, PartialEq, Eq, Hash)]
pub enum LinkEnd {
    /// By a response that says so, or at the end of the client's bytes.
    Closed { requests: u64 },
    /// A read or a write failed; the link has counted it.
    LinkFault { requests: u64 },
}

impl LinkEnd {
    /// The number of requests that were answered, at least in part.
    pub fn requests(self) -> u64
        ensures { result ≡ requests_of self }
    {
        match self {
            LinkEnd::Closed { requests } => requests,
            LinkEnd::LinkFault { requests } => requests,
        }
    }

    /// The end after the result of the last write.
    pub(crate) fn after(last: Result<(), Fault>, requests: u64) -> LinkEnd
        ensures { MatchResult last (λ _. result ≡ End.Closed requests)
            (λ _. result ≡ End.LinkFault requests) }
    {
        match last {
            Ok(()) => LinkEnd::Closed { requests },
            Err(Fault) => LinkEnd::LinkFault { requests },
        }
    }
}
