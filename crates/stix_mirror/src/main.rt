//! The program `stix_mirror`: copies a collection of a TAXII 2.1 server page by page into a
//! database file.
#![tactic(auto)]

use command_about::{About, answer_about};
use command_line::program_arguments;
use command_mirror::run_mirror;
use command_reasons::write_no_memory;
use flow_edges::WriteSink;
use flow_links::{SystemClock, TcpDial};
use flow_values::NoMemory;
use std::process::ExitCode;
use taxii_sqlite::{SqliteKeeper, Start, Unknown};

/// The answers to `--help` and `--version`.
const ABOUT: About<'static> = About {
    help: "\
usage: stix_mirror HOST PORT ROOT COLLECTION FILE TRIES [--since TIME]\n\
\n\
Copies a collection over TAXII 2.1 into a store in FILE, which\n\
stix_command serve --store FILE then serves.\n\
\n\
\x20 HOST PORT     the peer\n\
\x20 ROOT          the path of its API root, as /api/\n\
\x20 COLLECTION    a UUID\n\
\x20 FILE          the store\n\
\x20 TRIES         failed fetches that end the run: 1 to 100\n\
\x20 --since TIME  only what was added after TIME, as 2021-06-10T00:00:00Z\n\
\x20 --help        writes this text; alone\n\
\x20 --version     writes the version; alone\n\
\n\
Exit status: 0 all copied, 1 out of memory, 2 usage, 5 link lost,\n\
6 write fault, 9 store fault, 10 store refused, 11 reply refused,\n\
13 too many pages, 14 date range used up.\n",
    version: "stix_mirror 0.2.0\n",
};

fn main(rt: HostRuntime) -> ExitCode {
    let mut output = WriteSink::new(rt.stdout());
    let mut faults = WriteSink::new(rt.stderr());
    let arguments = match program_arguments(&rt) {
        Ok(arguments) => arguments,
        Err(NoMemory) => {
            let _ = write_no_memory(&mut faults);
            return ExitCode::from(1);
        }
    };
    if let Some(status) = answer_about(&arguments, &ABOUT, &mut output, &mut faults) {
        return ExitCode::from(status);
    }
    ExitCode::from(mirror(rt, &arguments, Unknown))
}

/// Executes the arguments over a database file, and returns the exit status. `S` represents the
/// earlier contents of the file.
fn mirror<S: Start>(rt: HostRuntime, arguments: &[String], start: S) -> u8 {
    let mut keeper = SqliteKeeper::new(rt, start);
    let status = run_mirror(
        rt.alloc(),
        arguments,
        &mut TcpDial::new(&rt),
        &mut keeper,
        &mut SystemClock::new(&rt),
        &mut WriteSink::new(rt.stdout()),
        &mut WriteSink::new(rt.stderr()),
    );
    // All that was absorbed is in the file and its log. If the log cannot be copied into the file,
    // both remain.
    let _ = keeper.close();
    status
}
