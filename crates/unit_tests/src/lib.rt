//! Unit tests of all crates: public calls that no command reaches, and whole matches whose streams
//! fail at each call. They have a separate crate, since a crate with tests is proved twice.
#![tactic(auto)]

#[cfg(test)]
mod bindings;
#[cfg(test)]
mod failing_streams;
#[cfg(test)]
mod frames;
#[cfg(test)]
mod generated_log;
#[cfg(test)]
mod lines;
#[cfg(test)]
mod lists;
#[cfg(test)]
mod paths;
#[cfg(test)]
mod timed_streams;
#[cfg(test)]
mod times;
