//! A plain program of the grammar of feature files, for small texts: by all cuts of the lines. It witnesses the grammar, and the
//! parser is compared with it: beside the lines and their tokens (`gk_line`) the two share nothing.
//!
//! ```
//! use gk_plain::has_document;
//! use std::alloc::{AllocError, Global};
//!
//! fn is_small_feature_file(alloc: Global, text: &str) -> Result<bool, AllocError> {
//!     if text.len() > 100 {
//!         return Ok(false);
//!     }
//!     has_document(alloc, text)
//! }
//! ```
#![tactic(auto)]

mod plain;

pub use plain::{PlainFault, fault, has_document};
