//! The parts of a document in the order of its tree, and the first part in which two documents
//! differ.
//!
//! ```
//! use gk_document::Document;
//! use gk_parts::first_difference;
//! use std::alloc::{AllocError, Global};
//!
//! fn are_alike(alloc: Global, a: &Document, b: &Document) -> Result<bool, AllocError> {
//!     let difference = first_difference(alloc, a, b)?;
//!     Ok(difference.is_none())
//! }
//! ```
#![tactic(auto)]

mod listing;

pub use listing::{FirstDifference, Part, difference_law, first_difference, parts, parts_law};
