//! Texts that stay for long, as keys of a map: short ones take no piece of memory of their own.
//!
//! ```
//! use indexmap::IndexSet;
//! use kept_texts::KeptText;
//! use std::alloc::{AllocError, Global};
//! use std::hash::RandomState;
//!
//! fn one_of(alloc: Global, seed: RandomState) -> Result<bool, AllocError> {
//!     let mut ids = IndexSet::with_hasher(alloc, seed);
//!     ids.insert(KeptText::copy_of(alloc, "a")?)?;
//!     Ok(ids.contains("a"))
//! }
//! ```
#![tactic(auto)]

mod kept_text;

pub use kept_text::KeptText;
