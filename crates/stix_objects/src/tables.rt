//! The tables of the rules: the common rows, the own rows of each type, and the types.

pub(crate) mod common;
mod domain;
mod observable;
pub(crate) mod types;
