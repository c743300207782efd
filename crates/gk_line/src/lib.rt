//! The lines of a feature file, and what each of them reads as by itself: blank, comment, tags, row, title, step, fence or
//! language line, with its texts and their columns.
//!
//! ```
//! use gk_line::{FEATURE_LIMIT, lines, step};
//!
//! /// The number of the first line that is a step.
//! fn first_step(text: &str) -> Option<u32> {
//!     if text.len() > FEATURE_LIMIT {
//!         return None;
//!     }
//!     for line in lines(text) {
//!         if step(line).is_some() {
//!             return Some(line.number);
//!         }
//!     }
//!     None
//! }
//! ```
#![tactic(auto)]

mod doc_strings;
mod keyword_lines;
mod laws;
mod limit;
mod line_ends;
mod rows;
mod tags_and_comments;
mod texts;
mod tokens;

pub use doc_strings::{doc_line, fence, push_doc_line};
pub use gk_document::{Cell, Fence, KeywordType, Sequence, Text};
pub use keyword_lines::{block_title, language, step, title};
pub use laws::{columns_rise, kinds_exclude, lines_are_cut};
pub use limit::FEATURE_LIMIT;
pub use line_ends::Lines;
pub use rows::{cells, is_row};
pub use tags_and_comments::{TagFault, TagText, is_comment, is_tags, tags};
pub use texts::{indent, is_blank, lines};
pub use tokens::{Block, FenceLine, Line, StepLine, Title};
