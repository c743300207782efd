//! Reading the envelope of a line of a stream of Cucumber Messages.
//!
//! ```
//! use cm_envelope::{Envelope, EnvelopeFault};
//! use cm_reading::read_envelope;
//! use std::alloc::Global;
//!
//! fn is_hook(alloc: Global, line: &[u8]) -> Result<bool, EnvelopeFault> {
//!     Ok(matches!(read_envelope(alloc, line)?, Envelope::Hook(_)))
//! }
//! ```
//!
//! What the envelope of a line is, is defined in `cm_envelope` (`envelope_of_line`). It is in a crate of its own, since all that
//! speaks of envelopes needs that definition, and only the audit and `results` read lines.
#![tactic(auto)]

mod fault;
mod member;
mod read_documents;
mod read_envelopes;
mod read_pickles;

pub use read_envelopes::read_envelope;
