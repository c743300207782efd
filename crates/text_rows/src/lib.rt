//! Texts in order, and rows of texts, packed into a few buffers: four bytes beside each text, and sixteen beside each row.
//!
//! ```
//! use std::alloc::{AllocError, Global};
//! use text_rows::{TextRows, Texts};
//!
//! fn one_row(alloc: Global) -> Result<TextRows, AllocError> {
//!     let mut row = Texts::new(alloc);
//!     row.add("a")?;
//!     row.add("b")?;
//!     let mut rows = TextRows::new(alloc);
//!     rows.push(&row)?;
//!     Ok(rows)
//! }
//! ```
#![tactic(auto)]

mod rows;
mod texts;

pub use rows::{RowIter, TextRows};
pub use texts::{TextIter, Texts};
