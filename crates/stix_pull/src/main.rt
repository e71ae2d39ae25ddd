//! The program `stix_pull`: fetches all objects of a collection of a TAXII 2.1 server page by page,
//! and writes them as lines. Each page is written before the next one is requested.
#![tactic(auto)]

use command_about::{About, answer_about};
use command_line::program_arguments;
use command_pull::run_pull;
use command_reasons::write_no_memory;
use flow_edges::WriteSink;
use flow_links::TcpDial;
use flow_values::NoMemory;
use std::process::ExitCode;

/// The answers to `--help` and `--version`.
const ABOUT: About<'static> = About {
    help: "\
usage: stix_pull HOST PORT ROOT COLLECTION [LIMIT]\n\
\n\
Fetches all objects of a collection over TAXII 2.1, in all versions. Writes\n\
them to standard output, one a line.\n\
\n\
\x20 HOST PORT   the peer\n\
\x20 ROOT        the path of its API root, as /api/\n\
\x20 COLLECTION  a UUID\n\
\x20 LIMIT       objects a page: 1 to 100, 100\n\
\x20 --help      writes this text; alone\n\
\x20 --version   writes the version; alone\n\
\n\
Exit status: 0 all fetched, 1 out of memory, 2 usage, 5 link fault,\n\
6 write fault, 11 reply refused, 12 reply cut, 13 too many pages.\n",
    version: "stix_pull 0.2.0\n",
};

fn main(rt: HostRuntime) -> ExitCode {
    let mut output = WriteSink::new(rt.stdout());
    let mut faults = WriteSink::new(rt.stderr());
    let arguments = match program_arguments(&rt) {
        Ok(arguments) => arguments,
        Err(NoMemory) => {
            let _ = write_no_memory(&mut faults);
            return ExitCode::from(1);
        }
    };
    if let Some(status) = answer_about(&arguments, &ABOUT, &mut output, &mut faults) {
        return ExitCode::from(status);
    }
    let mut dial = TcpDial::new(&rt);
    let status = run_pull(rt.alloc(), &arguments, &mut dial, &mut output, &mut faults);
    ExitCode::from(status)
}
