ghost use Rattle.std.specs.Prelude.{◌++◌, codes, OnErr, IsErr};
ghost use Rattle.flow_edges.specs.Faults.{Counted};
ghost use Rattle.flow_edges.specs.Flow.{WritesWhole, WritesPart};
ghost use Rattle.command_run.specs.ServeEndings.{serve_summary};

use flow_edges::{Sink, write_all_vectored};
use flow_values::Fault;
use itoa::Buffer;
use taxii_server::Served;

/// Writes what a server did, as `connections 2 requests 5` and a line feed.
pub(crate) fn write_summary<O: Sink>(served: Served, output: &mut O) -> Result<(), Fault>
    ensures text { WritesWhole (serve_summary served) (O.written output.old)
        (O.written output.new) result }
    ensures part { OnErr result
        (WritesPart (serve_summary served) (O.written output.old) (O.written output.new)) }
    ensures causes { Counted (IsErr result) (O.faults output.old) (O.faults output.new) }
{
    let mut buffer = Buffer::new();
    let connections = buffer.format(served.connections);
    let mut buffer = Buffer::new();
    let requests = buffer.format(served.requests);
    write_counts(connections, requests, output)
}

/// Writes the summary with the formatted counts.
fn write_counts<O: Sink>(connections: &str, requests: &str, output: &mut O) -> Result<(), Fault>
    ensures text { WritesWhole
        (codes "connections "
        ++ (connections.now ++ (codes " requests " ++ (requests.now ++ codes "\n"))))
        (O.written output.old) (O.written output.new) result }
    ensures part { OnErr result
        (WritesPart (codes "connections "
        ++ (connections.now ++ (codes " requests " ++ (requests.now ++ codes "\n"))))
        (O.written output.old) (O.written output.new)) }
    ensures causes { Counted (IsErr result) (O.faults output.old) (O.faults output.new) }
{
    write_all_vectored(
        output,
        &[
            b"connections ",
            connections.as_bytes(),
            b" requests ",
            requests.as_bytes(),
            b"\n",
        ],
    )
}
