//! The grammar of feature files: which texts are of it, and of which tree. `specs/Documents.antt` has the definitions that
//! contracts cite, as `IsDocumentOf text document`, and the functions here are laws of them.
//!
//! ```
//! ghost use Rattle.gk_grammar.specs.Laws.{OneDocument};
//!
//! use gk_grammar::one_document;
//!
//! /// Whatever reads a text, it can find one document only.
//! pub fn readers_agree()
//!     ensures { OneDocument }
//! {
//!     one_document()
//! }
//! ```
#![tactic(auto)]

mod fault;
mod laws;

pub use fault::FaultKind;
pub use laws::{
    document_or_fault, no_document_with_fault, no_more_nodes_than_bytes,
    nodes_are_numbered_in_order, one_document, one_fault,
};
