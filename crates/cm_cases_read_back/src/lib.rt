//! What `cases --json` and a difference show of JSON is read back: a value that is shown within a line is still that value.
#![tactic(auto)]

mod laws;

pub use laws::{cases_are_read_back, shown_values_have_lines};
