//! Which scenarios of some texts ran, by runs of which each may be a part.
//!
//! ```
//! use cm_ran::Marks;
//! use cm_reasons::Trail;
//! use std::alloc::{AllocError, Global};
//! use std::hash::RandomState;
//!
//! /// Whether the first scenario of the text ran in one of the runs that these trails are of.
//! fn first_ran(
//!     alloc: Global,
//!     seed: RandomState,
//!     text: &str,
//!     trails: &[Trail],
//! ) -> Result<bool, AllocError> {
//!     let mut marks = Marks::new(alloc, seed);
//!     marks.add(alloc, text)?;
//!     for trail in trails {
//!         marks.mark(alloc, seed, trail)?;
//!     }
//!     Ok(marks.has_run(text, 0))
//! }
//! ```
//!
//! A scenario of a text is told by its place, from 0, among the pickles that the text compiles to. It ran in a stream where a
//! source has exactly this text, and a test case names the pickle at the same place of the source's (`specs/RunAt`). `Marks` keeps
//! a flag of each that ran, over any number of streams, and nothing else of them (`specs/Marks`).
#![tactic(auto)]

mod laws;
mod marks;

pub use laws::run_scenarios_ran;
pub use marks::Marks;
