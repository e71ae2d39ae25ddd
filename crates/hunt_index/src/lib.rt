//! An inverted index of brackets (observation expressions of STIX patterns, STIX 2.1, section 9.5):
//! which of many can hold for an observation?
//!
//! A feed has a great many indicators, nearly all of one comparison, and few of them concern an
//! observation. An `Index` finds these few by the values of the observation, without a look at the
//! others. It promises that every bracket that holds is among the candidates, and that a definite
//! candidate (`is_definite`) holds.
//!
//! ```text
//! let index = Index::new(alloc, &brackets)?;
//! let candidates = index.candidates(&roots, &bundle)?; // indices into `brackets`
//! let holds = is_definite(bracket); // of a candidate: it holds; any other has to be evaluated
//! ```
#![tactic(auto)]

mod definite;
mod finder;
mod index;
mod index_key;
mod key;
mod key_selection;
mod paths;
mod postings;
mod sorting;
mod table;
mod walk;

pub use definite::is_definite;
pub use index::Index;
