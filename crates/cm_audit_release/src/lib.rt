//! The audit of a stream of Cucumber Messages, with what is counted of it for a release.
//!
//! ```
//! use cm_attempt::{Policy, Settings};
//! use cm_audit_release::audit_release;
//! use cm_envelope::{Reader, Trouble};
//! use cm_stream::{Conditions, Verdict};
//! use std::alloc::Global;
//! use std::hash::RandomState;
//! use std::io::Read;
//!
//! fn misses_none<R: Read + Drop>(
//!     alloc: Global,
//!     seed: RandomState,
//!     report: R,
//!     conditions: &Conditions<'_>,
//! ) -> Result<bool, Trouble> {
//!     let settings = Settings::from(Policy::Strict);
//!     let release = audit_release(alloc, seed, &mut Reader::new(report), settings, conditions)?;
//!     let is_good = matches!(release.audited.verdict, Verdict::Good(_));
//!     Ok(is_good && release.found.missed == 0)
//! }
//! ```
//!
//! `audit_release` is `audit_watched` of `cm_audit`, with a watch that keeps the `Tally` of `cm_release`; after the audit of a good
//! stream this is judged, and of another stream `cm_fault_reasons` tells what is wrong with the line that decides. `audit_part` does
//! the same, and marks which scenarios of some texts ran, by `Marks` of `cm_ran`.
#![tactic(auto)]

mod audited_release;

pub use audited_release::{AuditedRelease, audit_part, audit_release};
