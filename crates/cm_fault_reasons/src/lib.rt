//! What is said under the answer of a stream that is bad, or isn't judged: the first thing on the line that decides which isn't as
//! it has to be, its test case, attempt, step or run hook, and what is due in its place.
#![tactic(auto)]

mod at_line;
mod duplicate;
mod open_cases;
mod scenario;
mod steps;
mod unknown;

pub use at_line::verdict_told;
