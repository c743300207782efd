//! What the grammar asks of a line.
ghost use Rattle.std.specs.Prelude.{◌≡◌, ◌≤◌, length, ◌+◌, vec_len};
ghost use Rattle.gk_line.specs.declared.limit.TheConstants.{FEATURE_LIMIT};

use gk_document::{Cell, Location, Sequence};
use gk_line::{Block, FenceLine, Line, StepLine, TagText, Title};

/// A line with its indent.
#[derive(Clone, Copy)]
pub(crate) struct IndentedLine<'a> {
    pub line: Line<'a>,
    pub indent: u32,
    ghost short: { length line.text.now ≤ FEATURE_LIMIT },
    ghost bound: { indent ≤ FEATURE_LIMIT },
}

/// The place of a line's first character after its indent.
pub(crate) fn location(at: IndentedLine<'_>) -> Location
    ensures { result ≡ record { line = at.entry.line.number; column = at.entry.indent + 1 } }
{
    Location {
        line: at.line.number,
        column: at.indent + 1,
    }
}

/// The indent of a line, and the first character after it.
#[derive(Clone, Copy)]
pub(crate) struct Head {
    pub indent: u32,
    pub first: Option<char>,
}

/// The tags of a tag line.
#[derive(Drop)]
pub(crate) struct TagLine<'a> {
    pub words: Vec<TagText<'a>>,
    ghost few: { vec_len words ≤ FEATURE_LIMIT },
}

/// What a line is read as, after its indent.
#[derive(Drop)]
pub(crate) enum Token<'a> {
    Blank,
    Comment,
    /// The word of a language line.
    Language(&'a str),
    Tags(TagLine<'a>),
    /// A tag line with white space in the tag at this column.
    SpacedTag(u32),
    Title(Block, Title<'a>),
    Step(StepLine<'a>),
    Row(Sequence<Cell>),
    Fenced(FenceLine<'a>),
    Other,
}
