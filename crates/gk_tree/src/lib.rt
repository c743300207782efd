//! The parser of feature files: it takes exactly the texts of the grammar, and makes their one document.
//!
//! ```
//! use gk_tree::{ParseFault, parse};
//! use std::alloc::Global;
//!
//! fn scenario_count(alloc: Global, text: &str) -> Result<usize, ParseFault> {
//!     let document = parse(alloc, text)?;
//!     match &document.feature {
//!         Some(feature) => Ok(feature.scenarios.len()),
//!         None => Ok(0),
//!     }
//! }
//! ```
#![tactic(auto)]

mod assemble;
mod blocks;
mod comments;
mod description;
mod doc_string;
mod fault;
mod line_tokens;
mod parser;
mod rows;
mod steps;
mod tags;
mod token;

pub use fault::ParseFault;
pub use gk_document::{
    Argument, Background, Comment, DocString, Document, ExampleTable, Examples, Feature, Location,
    Row, Rule, Scenario, Step, Tag, same_skeleton,
};
pub use gk_grammar::FaultKind;
pub use parser::parse;
