//! The command line of `cukecheck`: what the words after the program's name ask for, and what `--help` says.
//!
//! ```
//! use ck_command_line::{Choice, choose};
//! use std::alloc::Global;
//!
//! /// Whether the words ask what a feature file is.
//! fn asks_for_a_parse(alloc: Global, words: &[&str]) -> bool {
//!     matches!(choose(alloc, words), Ok(Choice::Parse))
//! }
//! ```
#![tactic(auto)]

mod command_line;
mod help;
mod laws;

pub use command_line::{CaseForm, Choice, Refusal, choose};
pub use laws::words_ask_for_their_command;
