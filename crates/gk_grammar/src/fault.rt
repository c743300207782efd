//! Where and why a text isn't a feature file.

/// What is wrong at the place of a fault.
#[derive(Clone, Copy, Debug, PartialEq, Eq)]
pub enum FaultKind {
    /// A line that is not allowed where it is.
    Unexpected,
    /// A tag line with white space in a tag.
    TagSpace,
    /// A row whose cell count differs from that of its table's first row.
    CellCount,
    /// A language line that names another language than English.
    UnsupportedLanguage,
    /// The text ends where more must come.
    UnexpectedEnd,
    /// The text has more bytes or lines than the limits allow.
    TooLong,
    /// There is no memory.
    Memory,
}
