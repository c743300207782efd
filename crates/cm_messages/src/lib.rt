//! The messages of a feature file, as JSON that is written straight from its tree and its pickles.
//!
//! ```
//! use cm_messages::source_text;
//! use std::alloc::{AllocError, Global};
//!
//! /// How many bytes the message of a source takes.
//! fn message_len(alloc: Global, uri: &str, text: &str) -> Result<usize, AllocError> {
//!     let message = source_text(alloc, uri, text)?;
//!     Ok(message.len())
//! }
//! ```
#![tactic(auto)]

mod document_message;
mod message_text;
mod pickle_message;
mod send;

pub use document_message::{keyword_type_name, place_of_table};
pub use message_text::{document_text, pickle_text, source_text};
pub use pickle_message::step_type_name;
pub use send::{
    MessageLayout, SendJson, json_text, one_if, send_list, send_list_member, send_member,
    send_number, send_only, send_only_list, send_optional, send_str, send_text,
};
