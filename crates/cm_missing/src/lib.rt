//! What is missing of feature files after all runs: the files that the parser refuses, and the scenarios that ran in no run.
//!
//! ```
//! use cm_missing::Missing;
//! use cm_stream::Conditions;
//! use std::alloc::{AllocError, Global};
//! use std::hash::RandomState;
//!
//! /// What is missing of a file of which the first scenario ran, and no other one.
//! fn lines(
//!     alloc: Global,
//!     seed: RandomState,
//!     text: &str,
//!     conditions: &Conditions<'_>,
//! ) -> Result<String, AllocError> {
//!     let mut missing = Missing::new(alloc);
//!     missing.add_file(alloc, seed, "a.feature", Some(text), conditions, &[true])?;
//!     let mut lines = String::new(alloc);
//!     missing.add_lines(&mut lines)?;
//!     Ok(lines)
//! }
//! ```
//!
//! A file has one line where it is refused, else one for each pickle that its text compiles to, that did not run and that may
//! not be left out. `specs/Missing` says which lines these are, over the list of all files; `specs/PickleLines` says in which
//! line of its text a pickle stands, and `specs/Laws` what it means that there is no line.
#![tactic(auto)]

mod laws;
mod missing;

pub use laws::{counts_are_determined, each_pickle_has_a_line, missing_lines_are_determined};
pub use missing::Missing;
