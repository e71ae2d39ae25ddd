//! End-to-end theorems about the TAXII 2.1 server and client (TAXII 2.1, sections 3.4 and 5.4).
//! None of these functions does anything: each `ensures` is a theorem over the definitions of both
//! sides.
//!
//! - `unique_answer`: a request has one response and one next state, determined by the
//! configuration, the state, the time and the request.
//! - `runs`: a client that follows `next` receives every row it requested, over several runs of the
//! server and with changing configurations.
//! - `agreement`: each side parses what the other writes, so a complete pull writes every row of a
//! walk.
//! - `page_sizes`: a page of several objects is no larger than what a client accepts.
#![tactic(auto)]

pub mod agreement;
pub mod page_sizes;
pub mod runs;
pub mod unique_answer;
