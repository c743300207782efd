//! The commands of `cukecheck`: each reads Cucumber Messages or a feature file from a source, and prints what it finds to a
//! sink.
//!
//! ```
//! // The line of `cukecheck audit` on a stream, and whether the stream is good.
//! fn is_good<S: ByteSource, T: ByteSink>(
//!     alloc: Global,
//!     seed: RandomState,
//!     report: &mut S,
//!     out: &mut T,
//! ) -> bool {
//!     run(alloc, seed, &["audit"], report, out) == ExitStatus::Done.code()
//! }
//! ```
//!
//! `run` is the program with its words, a source in place of standard input, and a sink in place of standard output;
//! `run_over` is the same over a reader and a writer of std, as the program calls it. `ExitStatus` has the codes that they give. `read_text` reads a source as a text.
#![tactic(auto)]

mod command_cases;
mod command_feature;
mod command_gate;
mod command_gate_features;
mod command_results;
mod commands;
mod laws;
mod report;
mod text_input;
mod verdict_report;

pub use commands::{Ended, run, run_over, run_with};
pub use laws::{
    gate_releases_exactly, runs_come_in_any_order, shown_bytes_are_heard, strict_features_passed,
};
pub use report::ExitStatus;
pub use text_input::{TextFault, read_text};
