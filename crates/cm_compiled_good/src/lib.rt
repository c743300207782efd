//! What a text compiles to is a good stream.
#![tactic(auto)]

mod laws;

pub use laws::compiled_streams_are_good;
