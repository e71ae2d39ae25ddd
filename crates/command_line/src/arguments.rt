//! The arguments that the program was started with.

use flow_values::NoMemory;
use std::rt::HostRuntime;
use std::{env, io};

/// The arguments after the program's name. If one is not UTF-8, the result is empty, which is no
/// command line either.
pub fn program_arguments(rt: &HostRuntime) -> Result<Vec<String>, NoMemory> {
    match arguments(rt) {
        Ok(arguments) => Ok(arguments),
        Err(error) if error.kind() == io::ErrorKind::OutOfMemory => Err(NoMemory),
        Err(_) => Ok(Vec::new(rt.alloc())),
    }
}

/// The arguments after the program's name.
fn arguments(rt: &HostRuntime) -> io::Result<Vec<String>> {
    let mut arguments = Vec::new(rt.alloc());
    for argument in env::args(rt)?.skip(1) {
        arguments.push(argument)?;
    }
    Ok(arguments)
}
