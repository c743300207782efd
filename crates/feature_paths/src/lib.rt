//! The feature files that stand under paths: each path is a file, or a folder with files below it.
//!
//! ```
//! use feature_paths::{PathTrouble, feature_paths};
//! use files::Files;
//! use std::alloc::Global;
//! use std::hash::RandomState;
//!
//! /// How many feature files there are in two folders.
//! fn count<F: Files>(alloc: Global, seed: RandomState, files: &mut F) -> Result<usize, PathTrouble> {
//!     let found = feature_paths(alloc, seed, files, &["features", "more/features"])?;
//!     Ok(found.len())
//! }
//! ```
//!
//! What a look at a path shows is in `specs/Shown`, what is answered of all paths in `specs/FeaturePaths`, and what these definitions
//! come to in `specs/Laws`.
#![tactic(auto)]

mod laws;
mod paths;

pub use laws::{each_text_is_there_once, no_fault_is_passed_over, the_first_fault_is_first};
pub use paths::{Fault, FaultyPath, PathTrouble, feature_paths};
