//! The scenarios and pickles of a feature file.
//!
//! ```
//! use gk_document::Document;
//! use gk_pickle::compile;
//! use std::alloc::{AllocError, Global};
//! use std::hash::RandomState;
//!
//! fn pickle_count(
//!     alloc: Global,
//!     seed: RandomState,
//!     document: &Document,
//! ) -> Result<usize, AllocError> {
//!     let pickles = compile(alloc, seed, document)?;
//!     Ok(pickles.len())
//! }
//! ```
#![tactic(auto)]

mod filling;
mod laws;
mod next_pickles;
mod pickles;

pub use filling::fill;
pub use laws::{alike_law, characters_law, counting_law, order_law, replacing_law, scenarios_law};
pub use next_pickles::{PicklePlace, next_pickle, next_title, pass_pickle};
pub use pickles::{
    Pickle, PickleArgument, PickleDocString, PickleStep, PickleTag, PickleTitle, ScenarioInFeature,
    StepType, compile, compile_scenario, scenarios,
};
