//! Why the run of a stream of Cucumber Messages isn't successful.
//!
//! ```
//! use cm_attempt::{Policy, Track};
//! use cm_causes::add_causes;
//! use cm_reasons::Trail;
//! use std::alloc::{AllocError, Global};
//! use std::hash::RandomState;
//!
//! /// The causes of a run that ended without an exception, by what was kept of its stream.
//! fn causes(
//!     alloc: Global,
//!     seed: RandomState,
//!     trail: &Trail,
//!     track: &Track,
//! ) -> Result<String, AllocError> {
//!     let mut text = String::new(alloc);
//!     add_causes(alloc, seed, &mut text, trail, track, Policy::Strict, false)?;
//!     Ok(text)
//! }
//! ```
//!
//! `add_causes` writes a line for each test case, run hook and source by which not all is well, and for an exception, a hundred
//! of each kind at most. `add_truth` writes the same, or that nothing failed. What the lines say is defined over the whole list
//! of envelopes, in `specs/Causes`; `laws` says that there is one exactly where not all is well.
#![tactic(auto)]

mod causes;
mod laws;

pub use causes::{add_causes, add_truth};
pub use laws::{
    each_has_its_line, faultless_are_known, good_without_success_has_cause, kept_results,
    no_cause_is_all_well, nothing_failed_is_all_well, the_end_has_the_exception,
};
