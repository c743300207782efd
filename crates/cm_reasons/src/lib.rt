//! The lines that say why a stream of Cucumber Messages isn't released.
//!
//! ```
//! use cm_envelope::Envelope;
//! use cm_reasons::{Trail, unrun_text};
//! use std::alloc::{AllocError, Global};
//! use std::hash::RandomState;
//!
//! /// A line for each of these pickles.
//! fn lines(
//!     alloc: Global,
//!     seed: RandomState,
//!     envelopes: &[Envelope],
//!     ids: &[&str],
//! ) -> Result<String, AllocError> {
//!     let mut trail = Trail::new(alloc);
//!     for envelope in envelopes {
//!         trail.note(alloc, envelope)?;
//!     }
//!     unrun_text(alloc, seed, &trail, ids)
//! }
//! ```
//!
//! `Trail` keeps what the lines name, envelope by envelope; its `RunListing` what those of sources and run hooks name. The
//! functions write the lines of what is held, of sources that are refused and of run hooks, a hundred of each kind at most, and
//! `add_limited` writes those of any other kind in the same way. What the lines say is defined over the whole list of envelopes,
//! in `specs/Reasons` and `specs/RunReasons`; `specs/Words` has the words of statuses and of faults.
#![tactic(auto)]

mod laws;
mod reasons;
mod refused;
mod run_hooks;
mod run_listing;
mod trail;

pub use laws::{
    hook_causes_are_of_bad_hooks, refused_lines_are_determined, undefined_steps_are_told,
};
pub use reasons::{
    AddLine, CaseStep, MOST_LINES, add_limited, add_more, kind_label, retried_text, skipped_text,
    status_word, stepless_text, undefined_text, unrun_text,
};
pub use refused::{add_refused, add_refused_of};
pub use run_hooks::{add_hook_causes, add_open_hooks, add_run_hook};
pub use run_listing::RunListing;
pub use trail::Trail;
