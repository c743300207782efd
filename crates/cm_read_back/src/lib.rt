//! What is compiled is read back: the envelopes that are written of a source, its document and its pickles are read as these.
#![tactic(auto)]

mod laws;

pub use laws::{
    document_is_read_back, pickle_is_read_back, plain_values_have_lines, source_is_read_back,
};
