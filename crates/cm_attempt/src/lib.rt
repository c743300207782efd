//! Test cases, their attempts, and the statuses that the attempts gave.
//!
//! ```
//! use cm_attempt::{Status, Track, TrackFault};
//! use std::alloc::Global;
//! use std::hash::RandomState;
//!
//! fn run_once(
//!     alloc: Global,
//!     seed: RandomState,
//!     steps: Vec<String>,
//! ) -> Result<Option<Status>, TrackFault> {
//!     let mut track = Track::new(alloc, seed);
//!     track.add_case(String::from_str(alloc, "case-1")?, steps)?;
//!     track.start("attempt-1", "case-1", 0)?;
//!     track.step_started("attempt-1", "step-1")?;
//!     track.step_finished("attempt-1", "step-1", Status::Passed)?;
//!     track.finish("attempt-1", false)?;
//!     Ok(track.reported("case-1"))
//! }
//! ```
//!
//! A call out of order is refused, and the `Track` is then as it was. `Policy` says which statuses are good, and `worst`
//! which of some statuses is reported. The other functions are laws of the calls: they do nothing, and their contracts say
//! what holds of each run whose calls were accepted.
#![tactic(auto)]

mod fault;
mod laws;
mod status;
mod track;

pub use fault::TrackFault;
pub use laws::{
    accepted_is_in_order, attempts_are_numbered, attempts_never_overlap,
    calls_are_refused_for_faults, final_attempts_are_reported, finished_attempts_are_whole,
    open_attempts_are_counted, steps_come_in_order,
};
pub use status::{Policy, Settings, Status, worst, worst_with};
pub use track::{CaseResult, DueStep, Track};
