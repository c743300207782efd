//! The lines of a feature file as Cucumber Messages, and the writing of them.
#![tactic(auto)]

mod compiled;
mod fault;

pub use compiled::write_compiled;
pub use fault::CompileFault;
