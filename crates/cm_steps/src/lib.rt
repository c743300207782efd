//! The steps and attempts of a stream of Cucumber Messages: where a step stands, what a test step is told as, which attempts
//! are open, and which step of an attempt has a status.
//!
//! ```
//! use cm_envelope::Envelope;
//! use cm_steps::StepListing;
//! use std::alloc::{AllocError, Global};
//!
//! /// A test step: `URI:LINE TEXT` of its pickle's step, or `hook ID`.
//! fn step_text(
//!     alloc: Global,
//!     envelopes: &[Envelope],
//!     case: &str,
//!     step: &str,
//! ) -> Result<String, AllocError> {
//!     let mut listing = StepListing::new(alloc);
//!     for envelope in envelopes {
//!         listing.note(alloc, envelope)?;
//!     }
//!     let mut text = String::new(alloc);
//!     listing.add_step(&mut text, case, step)?;
//!     Ok(text)
//! }
//! ```
//!
//! `StepListing` keeps what is told, envelope by envelope. A look-up scans what is kept, but for `open_cases`, which goes once
//! over all attempts. What is told is defined over the whole list of envelopes, in `specs/Steps` and `specs/Attempts`.
#![tactic(auto)]

mod listing;

pub use listing::{Started, StepListing, is_quiet};
