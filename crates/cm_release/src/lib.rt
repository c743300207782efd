//! What is counted of a stream of Cucumber Messages for its release, and why a good run isn't to be released.
//!
//! ```
//! use cm_attempt::{Settings, Track};
//! use cm_envelope::Envelope;
//! use cm_release::{Judgement, Tally};
//! use cm_stream::{Audited, Conditions, Verdict};
//! use std::alloc::{AllocError, Global};
//! use std::hash::RandomState;
//!
//! /// The judgement of a stream that was audited, if it is good.
//! fn judged(
//!     alloc: Global,
//!     seed: RandomState,
//!     conditions: &Conditions<'_>,
//!     settings: Settings,
//!     envelopes: &[Envelope],
//!     track: &Track,
//!     audited: Audited,
//! ) -> Result<Option<Judgement>, AllocError> {
//!     let Verdict::Good(counts) = audited.verdict else {
//!         return Ok(None);
//!     };
//!     let mut tally = Tally::new(alloc, seed);
//!     for envelope in envelopes {
//!         tally.note(alloc, envelope)?;
//!     }
//!     let success = audited.success;
//!     Judgement::of(alloc, seed, conditions, settings, &tally, track, success, counts).map(Some)
//! }
//! ```
//!
//! `Tally` keeps lists of what the envelopes name (`specs/Kept`), and what the lines name that say why a run is held; `Judgement`
//! counts the lists by maps (`specs/Counts`). The lists are functions of all envelopes, and what is counted of those of a good
//! stream is what `cm_stream` says of its envelopes for a release.
#![tactic(auto)]

mod counts;
mod judgement;
mod keys;
mod tally;
mod text_set;
mod undefined_steps;

pub use judgement::Judgement;
pub use tally::Tally;
