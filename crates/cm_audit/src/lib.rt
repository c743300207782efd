//! The audit of a stream of Cucumber Messages, read line by line from a source of bytes.
//!
//! ```
//! use cm_audit::{Policy, Settings, Verdict, audit_run};
//! use cm_envelope::{Reader, Trouble};
//! use std::alloc::Global;
//! use std::hash::RandomState;
//! use std::io::Read;
//!
//! fn has_succeeded<R: Read + Drop>(
//!     alloc: Global,
//!     seed: RandomState,
//!     report: R,
//! ) -> Result<bool, Trouble> {
//!     let settings = Settings::from(Policy::Strict);
//!     let audited = audit_run(alloc, seed, &mut Reader::new(report), settings)?;
//!     Ok(matches!(audited.verdict, Verdict::Good(_)) && audited.success)
//! }
//! ```
//!
//! `audit_run` is the audit, by settings; `audit_with` and `audit` give its verdict alone, by a policy and by the strict one.
//! `audit_watched` is the same audit, which a `Watch` goes along with: it is told of each envelope before that is judged. What is
//! kept of the lines (`State` of `cm_judge`) is handed out with the watch at the end. `take_lines` reads a stream line by line for
//! anything that takes lines (`TakeLines`), as an audit does; a line ends the reading by a `Stop`.
#![tactic(auto)]

mod auditing;

pub use auditing::{
    TakeLines, Watch, WatchedAudit, audit, audit_run, audit_watched, audit_with, take_lines,
};
pub use cm_attempt::{Policy, Settings};
pub use cm_stream::{Audited, Counts, Reason, StreamFault, Verdict};
