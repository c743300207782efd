//! Laws of feature files: what the definitions of lines, documents and pickles come to.
//!
//! Each public function is a law: its contract says the law, and it does nothing. No other crate is built on this one.
//!
//! ```
//! ghost use Rattle.gk_laws.specs.Documents.{OneDocumentOfLines};
//!
//! use gk_laws::one_document_of_lines;
//!
//! /// Whatever reads lines, it can find one document only.
//! pub fn readers_agree()
//!     ensures { OneDocumentOfLines }
//! {
//!     one_document_of_lines()
//! }
//! ```
#![tactic(auto)]

mod laws;

pub use laws::{
    bars_cut_rows, comments_stand_outside_doc_strings, document_or_fault_of_lines,
    each_text_has_one_answer, escaped_fences_cut_lines, faults_stay, fronts_are_shown,
    keyword_lines_have_parts, language_lines_have_parts, marks_cut_tag_lines,
    no_document_with_fault_of_lines, one_document_of_lines, one_fault_of_lines,
    parts_come_in_order, parts_stand_at_their_places, pickles_are_made, pickles_name_rows,
    texts_are_lines, tokens_read_lines, units_write_rows,
};
