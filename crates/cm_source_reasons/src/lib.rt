//! What is told of a line at which a stream of Cucumber Messages isn't what its sources compile to.
//!
//! ```
//! use cm_judge::State;
//! use cm_envelope::Envelope;
//! use cm_reasons::Trail;
//! use cm_source_reasons::add_source_reasons;
//! use cm_stream::StreamFault;
//! use std::alloc::{AllocError, Global};
//! use std::hash::RandomState;
//!
//! /// The lines of a pickle that isn't the next one of its source.
//! fn pickle_reasons(
//!     alloc: Global,
//!     seed: RandomState,
//!     state: &State,
//!     trail: &Trail,
//!     pickle: &Envelope,
//! ) -> Result<String, AllocError> {
//!     let mut text = String::new(alloc);
//!     let fault = StreamFault::PickleDiffers;
//!     add_source_reasons(alloc, seed, &mut text, state, trail, pickle, fault)?;
//!     Ok(text)
//! }
//! ```
//!
//! `add_source_reasons` tells it by what an audit keeps of the lines before. What it tells is defined over the whole list of
//! envelopes, in `specs/SourceReasons`.
#![tactic(auto)]

mod source_reasons;

pub use source_reasons::add_source_reasons;
