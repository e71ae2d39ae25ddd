//! The program `stix_command`: matches STIX 2.1 patterns over observed data, validates bundles, and
//! serves TAXII 2.1. See `command_line` for its arguments.
#![tactic(auto)]

use command_line::program_arguments;
use command_reasons::write_no_memory;
use command_run::run;
use flow_edges::{ReadSource, WriteSink};
use flow_links::{SystemClock, TcpDoor};
use flow_values::NoMemory;
use std::process::ExitCode;
use taxii_sqlite::{SqliteKeeper, Start, Unknown};

fn main(rt: HostRuntime) -> ExitCode {
    match program_arguments(&rt) {
        Ok(arguments) => ExitCode::from(run_over(rt, &arguments, Unknown)),
        Err(NoMemory) => {
            let _ = write_no_memory(&mut WriteSink::new(rt.stderr()));
            ExitCode::from(1)
        }
    }
}

/// Runs the program with the system's streams, network and clock, and returns its exit status. `S`
/// represents the earlier contents of the database file.
fn run_over<S: Start>(rt: HostRuntime, arguments: &[String], start: S) -> u8 {
    let mut keeper = SqliteKeeper::new(rt, start);
    let status = run(
        rt.alloc(),
        arguments,
        &mut ReadSource::new(rt.stdin()),
        &mut WriteSink::new(rt.stdout()),
        &mut WriteSink::new(rt.stderr()),
        &mut TcpDoor::new(&rt),
        &mut keeper,
        &mut SystemClock::new(&rt),
    );
    // All that was answered is in the file and its log. If the log cannot be copied into the file,
    // both remain.
    let _ = keeper.close();
    status
}
