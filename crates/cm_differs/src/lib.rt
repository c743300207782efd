//! In what a stream of Cucumber Messages differs from what its sources compile to.
//!
//! ```
//! use cm_differs::{Difference, pickle_difference};
//! use cm_envelope::{NodeId, Pickle};
//! use gk_pickle::Pickle as DuePickle;
//! use std::alloc::{AllocError, Global};
//!
//! /// What the pickles at one place differ in, where the document's nodes have these ids.
//! fn at_one_place(
//!     alloc: Global,
//!     ids: &[NodeId],
//!     due: &DuePickle,
//!     found: &Pickle,
//! ) -> Result<Difference, AllocError> {
//!     pickle_difference(alloc, ids, Some(due), found)
//! }
//! ```
//!
//! What is due and what is found are written alike, so that their texts differ in what is wrong: of documents the first part
//! that differs, without the parts within it. `specs/Differences` says what differs, `specs/DuePickles` which pickle is due, and
//! `specs/PickleData` and `PartData` how pickles and parts are written.
#![tactic(auto)]

mod difference;

pub use difference::{Difference, due_is_equal, pickle_difference, tree_difference};
