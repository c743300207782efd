//! Laws of what is shown within a line: what a reader of the answers may rest on.
//!
//! Each public function is a law: its contract says the law, and it does nothing. No other crate is built on this one.
#![tactic(auto)]

mod laws;

pub use laws::{
    pickles_are_told_apart, scenarios_are_found, shown_json_is_plain, shown_texts_are_plain,
    trees_are_told_apart, unlike_parts_are_shown_unlike, unlike_pickles_are_shown_unlike,
    unlike_texts_are_shown_unlike, unlike_values_are_shown_unlike, what_is_read_is_plain,
};
