//! The types of a feature file's tree: what a parser makes, and what is compiled and compared; the texts and sequences that
//! they hold; and whether two documents, or two parts of them, have one skeleton.
//!
//! ```
//! use gk_document::{Location, Sequence, Tag, Text};
//! use std::alloc::{AllocError, Global};
//!
//! fn one_tag(alloc: Global) -> Result<Sequence<Tag>, AllocError> {
//!     let mut tags = Sequence::new(alloc);
//!     let location = Location { line: 1, column: 1 };
//!     let name = Text::copy_of(alloc, "@slow")?;
//!     tags.push(Tag { node: 0, location, name })?;
//!     Ok(tags)
//! }
//! ```
#![tactic(auto)]

mod sequence;
mod skeleton;
mod text;
mod tree;

pub use sequence::Sequence;
pub use skeleton::{Bare, are_like, both_like, same_skeleton};
pub use text::Text;
pub use tree::{
    Argument, Background, Cell, Comment, DocString, Document, ExampleTable, Examples, Feature,
    Fence, KeywordType, Location, Row, Rule, Scenario, Step, Tag, media_type,
};
