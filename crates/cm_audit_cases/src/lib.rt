//! The audit of a stream of Cucumber Messages, with what its cases say.
//!
//! ```
//! use cm_attempt::Settings;
//! use cm_audit::{Policy, Verdict};
//! use cm_audit_cases::audit_cases;
//! use cm_envelope::{Reader, Trouble};
//! use std::alloc::Global;
//! use std::hash::RandomState;
//! use std::io::Read;
//!
//! fn prints_good<R: Read + Drop>(
//!     alloc: Global,
//!     seed: RandomState,
//!     report: R,
//! ) -> Result<bool, Trouble> {
//!     let settings = Settings::from(Policy::Strict);
//!     let cases = audit_cases(alloc, seed, &mut Reader::new(report), settings)?;
//!     Ok(matches!(cases.audited.verdict, Verdict::Good(_)))
//! }
//! ```
//!
//! `audit_cases` is `audit_watched` of `cm_audit`, with a watch that lists what the lines of the cases name.
#![tactic(auto)]

mod audited_cases;

pub use audited_cases::{AuditedCases, audit_cases};
