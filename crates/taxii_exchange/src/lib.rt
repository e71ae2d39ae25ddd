//! The parts of a TAXII 2.1 exchange that do not depend on the endpoint (sections 1.6.8, 3.2, 3.4,
//! 4.3 and 5.1). These are the checks of a request, the configuration, the responses with their
//! header fields, and the statuses that are kept.
//!
//! A request is checked in one order, and the first reason against it counts: method, Accept,
//! rights, Content-Type, query. The bytes of a response are a function of its parts, and are
//! written without allocating. The latest statuses are kept in a ring buffer that is allocated at
//! the start, so keeping one cannot fail.
//!
//! ```text
//! let query = check(alloc, &request, query, Allow::GetPost, Rights::of(info))?;
//! let answer = page_answer(&page.rows, body);
//! write_answer(&answer, request.close, &mut link)?;
//! ```
#![tactic(auto)]

mod answer;
mod answers;
mod checking;
mod config;
mod head_text;
mod kept_status;
pub mod laws;
mod refusal;
mod rights;
mod statuses;
mod writing;

pub use answer::{Allow, Answer, MAX_DATE, refusal_answer};
pub use answers::{answer_to_problem, bare_answer, body_answer, page_answer, problem_answer};
pub use checking::check;
pub use config::Config;
pub use kept_status::KeptStatus;
pub use refusal::Refusal;
pub use rights::Rights;
pub use statuses::{MAX_KEPT, Statuses};
pub use writing::{write_answer, write_no_memory};
