//! Why the envelope of a line is not given.
use thiserror::Error;

/// What is wrong with a line that has no envelope.
#[derive(Clone, Copy, Debug, Drop, Error, PartialEq, Eq)]
pub enum LineFault {
    /// The line isn't one JSON value (RFC 8259), isn't UTF-8, or nests deeper than 127.
    #[error("not a JSON value")]
    NotJson,
    /// The value is no object, has two or more judged kinds, or one whose value is neither an object nor null.
    #[error("not an object with at most one judged kind")]
    Shape,
    /// A judged kind and its first bad member in the order of its members, both by their names in JSON.
    #[error("bad member {0}.{1}")]
    Field(&'static str, &'static str),
}

/// Why the envelope of a line is not given.
#[derive(Debug, Drop, Error)]
pub enum EnvelopeFault {
    /// The line has none.
    #[error("{0}")]
    Line(LineFault),
    /// There is no memory for it.
    #[error("out of memory")]
    Memory,
}
