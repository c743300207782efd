//! Sources, documents and pickles as JSON values, in the layout of Cucumber Messages.
//!
//! ```
//! use gk_document::Document;
//! use gk_values::document_value;
//! use std::alloc::{AllocError, Global};
//!
//! /// The message of a document, as the text of its JSON.
//! fn message(alloc: Global, uri: &str, document: &Document) -> Result<String, AllocError> {
//!     let value = document_value(alloc, uri, document)?;
//!     value.to_string(alloc)
//! }
//! ```
#![tactic(auto)]

mod json;

pub use json::{document_value, pickle_value, source_value};
