//! How each envelope of a stream of Cucumber Messages is judged, by what is kept of those before it.
//!
//! ```
//! use cm_attempt::Settings;
//! use cm_envelope::Envelope;
//! use cm_judge::{State, Stop, judge, judged_as};
//!
//! fn take(state: &mut State, envelope: Envelope, settings: Settings) -> Result<(), Stop> {
//!     let envelope = judged_as(state, envelope, settings);
//!     judge(state, envelope, settings)
//! }
//! ```
//!
//! `State` is what is kept of the envelopes so far, its `KeptSource`s with the pickles that are still due among it. `judge` takes
//! an envelope, or says by a `Stop` why it ends the stream; `judged_as` is what one that is declared again is judged as. `track`
//! takes an envelope into a record of attempts alone.
#![tactic(auto)]

mod due;
mod judging;
mod kept_sources;
mod record;
mod state;
mod stop;

pub use due::DuePickles;
pub use judging::{judge, judged_as};
pub use kept_sources::{AcceptedSource, KeptSource, Sources};
pub use record::track;
pub use state::State;
pub use stop::Stop;
