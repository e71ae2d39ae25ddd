//! Evaluates the comparison expressions of STIX patterns on the objects of a bundle (STIX 2.1,
//! sections 9.5 to 9.7).
//!
//! - `leaf_truths`, `leaf_holds`, `leaf_roots` and `holds`: whether a bracket (observation
//!   expression), or one comparison of it, holds for an observation or at an object (section 9.6).
//! - `values`, `root_of`, `selected` and `reference`: what an object path selects (section 9.7), by
//!   a depth-first walk that takes no memory.
//! - `like`: the operator LIKE (section 9.6.1), exact and without memory or recursion. Characters
//!   are Unicode code points, and nothing is normalized.
//!
//! A search stops at the first value that meets its test, and memoizes what it found at each
//! referenced object. So one test costs at most the size of the bundle for each step of its path.
//! Neither `[*]` and references nor the number of observations that share an object change this.
//!
//! ```text
//! let truths = leaf_truths(alloc, &pattern, &observations, &bundle)?; // a row per observation
//! let matches = like("cmd.exe", "%.e_e"); // true
//! for value in values(&bundle, root, &path) { .. }
//! ```
#![tactic(auto)]

mod block;
mod bytes;
mod characters;
mod check;
mod compare;
mod frame;
mod last;
pub mod laws;
mod leaf;
mod matching;
mod memo;
mod met;
mod name;
mod object;
mod path_values;
mod places;
mod position_set;
mod root;
mod roots;
mod rows;
mod search;
mod segment;
mod split;
mod step;
mod truths;
mod visit_set;
mod walk;
mod wildcards;

pub use leaf::{leaf_holds, leaf_roots};
pub use matching::like;
pub use met::holds;
pub use name::{ends_in, name_after};
pub use object::object_at;
pub use path_values::{PathValues, values};
pub use root::root_of;
pub use step::{reference, selected};
pub use truths::leaf_truths;
