//! The fault of a text that is no feature file, and the faults of lines.
ghost use Rattle.std.specs.Prelude.{◌≡◌, ◌+◌};
ghost use Rattle.gk_grammar.specs.declared.fault.FaultKind.TheVariants as kinds;

use crate::token::{IndentedLine, location};
use gk_document::Location;
use gk_grammar::FaultKind;
use std::alloc::{AllocError, AllocFailed};
use thiserror::Error;

/// Why and where a text isn't a feature file. Lines and columns count from 1, columns in Unicode scalar values;
/// of a text that is too long, and where there is no memory, both are 0.
#[derive(Clone, Copy, Debug, PartialEq, Eq, Error)]
#[error("{kind:?} at line {line}, column {column}")]
pub struct ParseFault {
    pub kind: FaultKind,
    pub line: u32,
    pub column: u32,
}

impl From<AllocError> for ParseFault {
    ghost from_gives = { λ _ fault. fault ≡ record { kind = kinds.Memory; line = 0; column = 0 } };

    fn from(_: AllocError) -> ParseFault {
        ParseFault {
            kind: FaultKind::Memory,
            line: 0,
            column: 0,
        }
    }
}

impl<T: Drop> From<AllocFailed<T>> for ParseFault {
    ghost from_gives = { λ _ fault. fault ≡ record { kind = kinds.Memory; line = 0; column = 0 } };

    fn from(_: AllocFailed<T>) -> ParseFault {
        ParseFault {
            kind: FaultKind::Memory,
            line: 0,
            column: 0,
        }
    }
}

/// The fault of this kind there.
pub(crate) fn fault(kind: FaultKind, location: Location) -> ParseFault
    ensures { result ≡ record { kind = kind; line = location.line; column = location.column } }
{
    ParseFault {
        kind,
        line: location.line,
        column: location.column,
    }
}

/// The fault of a line that is not allowed where it is.
pub(crate) fn unexpected_line_fault(at: IndentedLine<'_>) -> ParseFault
    ensures { result ≡ record {
      kind = kinds.Unexpected;
      line = at.entry.line.number;
      column = at.entry.indent + 1;
    } }
{
    fault(FaultKind::Unexpected, location(at))
}

/// The fault of a tag line with white space in the tag at this column.
pub(crate) fn spaced_tag_fault(at: IndentedLine<'_>, column: u32) -> ParseFault
    ensures { result ≡ record {
      kind = kinds.TagSpace;
      line = at.entry.line.number;
      column = column;
    } }
{
    ParseFault {
        kind: FaultKind::TagSpace,
        line: at.line.number,
        column,
    }
}

/// The fault of a text that ends where it may not, at the line after the last one.
pub(crate) fn early_end_fault(end_line: u32) -> ParseFault
    ensures { result ≡ record { kind = kinds.UnexpectedEnd; line = end_line; column = 1 } }
{
    ParseFault {
        kind: FaultKind::UnexpectedEnd,
        line: end_line,
        column: 1,
    }
}
