//! What a stream of messages has declared so far: sources and documents by their uris, and by their ids step definitions,
//! hooks, run hooks, and pickles with the ids of their steps.
//!
//! ```
//! use cm_refs::{Declared, RefFault};
//! use std::alloc::Global;
//! use std::hash::RandomState;
//!
//! fn has_first_step(alloc: Global, seed: RandomState, steps: Vec<String>) -> Result<bool, RefFault> {
//!     let mut declared = Declared::new(alloc, seed);
//!     declared.declare_source("a.feature")?;
//!     declared.declare_pickle(String::from_str(alloc, "pickle-1")?, steps)?;
//!     Ok(declared.has_source("a.feature") && declared.has_step("pickle-1", "step-1"))
//! }
//! ```
//!
//! What is declared twice for one kind is refused, and `Declared` is then as it was. `distinct_texts` finds equal ids in a
//! list.
#![tactic(auto)]

mod declared;
mod fault;

pub use declared::{Declared, Names, StepIds, distinct_texts};
pub use fault::RefFault;
