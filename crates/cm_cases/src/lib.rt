//! The cases and pickles of a stream of Cucumber Messages, each with the place of its scenario.
//!
//! ```
//! use cm_cases::{Listing, Places};
//! use cm_envelope::Envelope;
//! use std::alloc::{AllocError, Global};
//! use std::hash::RandomState;
//!
//! /// One line for each pickle that no test case names.
//! fn unrun_lines(
//!     alloc: Global,
//!     seed: RandomState,
//!     envelopes: &[Envelope],
//! ) -> Result<String, AllocError> {
//!     let mut listing = Listing::new(alloc);
//!     for envelope in envelopes {
//!         listing.note(alloc, envelope)?;
//!     }
//!     let mut text = String::new(alloc);
//!     Places::of(alloc, seed, &listing)?.add_unrun(&mut text)?;
//!     Ok(text)
//! }
//! ```
//!
//! `Listing` keeps what the lines name, envelope by envelope; `Places` writes them, and `JsonLines` as JSON. `add_shown` and
//! `add_shown_json` write texts so that they keep to their line. What they say is defined over the whole list of envelopes and
//! over whole texts, in `specs/Places`, `specs/JsonLines` and `specs/Shown`. `firsts_of` and `add_first` find values by their
//! texts, with a `Key` for each kind.
#![tactic(auto)]

mod json_lines;
mod listing;
mod places;
mod shown;

pub use json_lines::JsonLines;
pub use listing::{Listing, tag_names};
pub use places::{ByText, CaseId, CasePickle, Key, PickleId, Places, Whole, add_first, firsts_of};
pub use shown::{add_shown, add_shown_json};
