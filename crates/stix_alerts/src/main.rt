//! The program `stix_alerts`: reports each observation of a log at which at least n matches of one
//! observation expression lie within x seconds, before the next line is read.
#![tactic(auto)]

use command_about::{About, answer_about};
use command_alerts::run_alerts;
use command_line::program_arguments;
use command_reasons::write_no_memory;
use flow_edges::{ReadSource, WriteSink};
use flow_values::NoMemory;
use std::process::ExitCode;

/// The answers to `--help` and `--version`.
const ABOUT: About<'static> = About {
    help: "\
usage: stix_alerts PATTERN N SECONDS\n\
\n\
Reports each observation of a log at which at least N matches of PATTERN lie\n\
within SECONDS. The log is read from standard input, a STIX bundle a line.\n\
\n\
\x20 PATTERN    one bracket, as \"[ipv4-addr:value = '192.0.2.7']\"\n\
\x20 N          1 to 10000\n\
\x20 SECONDS    1 to 4294967295\n\
\x20 --help     writes this text; alone\n\
\x20 --version  writes the version; alone\n\
\n\
Exit status: 0 read to the end, 1 out of memory, 2 usage, 3 pattern refused,\n\
4 line refused, 5 read fault, 6 write fault.\n",
    version: "stix_alerts 0.2.0\n",
};

fn main(rt: HostRuntime) -> ExitCode {
    let mut input = ReadSource::new(rt.stdin());
    let mut output = WriteSink::new(rt.stdout());
    let mut faults = WriteSink::new(rt.stderr());
    let arguments = match program_arguments(&rt) {
        Ok(arguments) => arguments,
        Err(NoMemory) => {
            let _ = write_no_memory(&mut faults);
            return ExitCode::from(1);
        }
    };
    if let Some(status) = answer_about(&arguments, &ABOUT, &mut output, &mut faults) {
        return ExitCode::from(status);
    }
    let status = run_alerts(rt.alloc(), &arguments, &mut input, &mut output, &mut faults);
    ExitCode::from(status)
}
