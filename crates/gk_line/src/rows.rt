//! Table rows and their cells.
ghost use Rattle.std.specs.Prelude.{◌≡◌, ◌==◌, ◌≤◌, ◌<◌, ◌+◌, ◌∷◌, ◌++◌, ◌^◌, map, length, IfOk, IfSome, OnOk, MatchOption, [], if◌then◌else◌, codes, IsTrue};
ghost use Rattle.std.specs.List.{AllByRecursion};
ghost use Rattle.std.specs.Str.{chars, IsUtf8, NonePass};
ghost use Rattle.std.specs.String.{string_bytes};
ghost use Rattle.gk_line.specs.declared.limit.TheConstants.{FEATURE_LIMIT};
ghost use Rattle.gk_line.specs.Characters.{backslash, vertical_bar};
ghost use Rattle.gk_line.specs.Cells.{units, escape_meaning, cells_of, cell_at, meanings, IsCutAtBar, NoBar};
ghost use Rattle.gk_line.specs.Tokens.{begins_by};
ghost use Rattle.gk_line.specs.Views.{line_chars, cell_text};

use crate::texts::{
    after_first, begins, column, indent, leading_space, strip, trim, trim_start, width,
};
use crate::tokens::Line;
use gk_document::{Cell, Text};
use memchr::memchr2;
use std::alloc::{AllocError, Global};

/// The cells of a row, in order: what is between two bars, without white space at both ends.
///
/// `\|` is a bar, `\\` a backslash and `\n` a line feed; any other backslash is itself. An escaped bar closes no cell,
/// what follows the last bar is no cell, and a line feed written as `\n` is no white space. Takes time linear in the
/// line.
///
/// # Errors
/// Only where there is no memory for the cells.
///
/// Source: Gherkin reference, "Data Tables" and "Table Cell Escaping".
pub fn cells(alloc: Global, line: Line<'_>) -> Result<Vec<Cell>, AllocError>
    requires row { IsTrue (begins_by (codes "|") (line_chars line)) }
    requires short { length line.text.now ≤ FEATURE_LIMIT }
    ensures value { IfOk result
        (λ cells. map cell_text cells.items ≡ cells_of (line_chars line.entry)) }
    ensures utf8 { IfOk result (λ cells. AllByRecursion (λ cell. IsUtf8 cell.value) cells.items) }
{
    let mut cells = Vec::new(alloc);
    let mut column = column(line) + 1;
    let Some(mut rest) = strip(trim_start(line.text), "|") else {
        return Ok(cells);
    };
    let is_ascii = rest.is_ascii();
    while let Some((part, next, plain)) = cut_at_bar(rest) {
        cells.push(cell(alloc, part, plain, column)?)?;
        column += width(part, is_ascii) + 1;
        rest = next;
    }
    Ok(cells)
}

/// The cell that is written as this text from this column on, where a plain text has no backslash.
fn cell(alloc: Global, part: &str, plain: bool, column: u32) -> Result<Cell, AllocError>
    requires short { column + length part.now < 2 ^ 32 }
    requires plain { IsTrue plain → NonePass (λ c. c == backslash) (chars part.now) }
    ensures value { IfOk result
        (λ cell. cell_text cell ≡ cell_at column (units (chars part.now))) }
    ensures utf8 { IfOk result (λ cell. IsUtf8 cell.value) }
{
    Ok(Cell {
        value: Text::from(unescape_cell(alloc, trim(part), plain)?),
        column: column + leading_space(part),
    })
}

/// The text that a cell's units mean: its own characters, where it has no backslash.
fn unescape_cell(alloc: Global, text: &str, plain: bool) -> Result<String, AllocError>
    requires { IsTrue plain → NonePass (λ c. c == backslash) (chars text.now) }
    ensures { IfOk result (λ value. chars (string_bytes value)
        ≡ meanings (units (chars text.now))) }
{
    if !plain {
        return unescape_cell_units(alloc, text);
    }
    let value = String::from_str(alloc, text)?;
    Ok(value)
}

/// The text that a cell's units mean, one character after another.
fn unescape_cell_units(alloc: Global, text: &str) -> Result<String, AllocError>
    ensures { IfOk result (λ value. chars (string_bytes value)
        ≡ meanings (units (chars text.now))) }
{
    let mut value = String::with_capacity(alloc, text.len())?;
    let mut escaped = false;
    for c in text.chars() {
        if !escaped && c == '\\' {
            escaped = true;
        } else {
            push_unit(&mut value, escaped, c)?;
            escaped = false;
        }
    }
    if !escaped {
        return Ok(value);
    }
    value.push('\\')?;
    Ok(value)
}

/// Adds what a character means, by itself or after a backslash.
fn push_unit(value: &mut String, escaped: bool, c: char) -> Result<(), AllocError>
    ensures { OnOk result (chars (string_bytes value.new)
        ≡ chars (string_bytes value.old)
        ++ meanings (units (if escaped then backslash ∷ c ∷ [] else c ∷ []))) }
{
    if !escaped {
        return value.push(c);
    }
    if let Some(meant) = unescaped_cell(c) {
        return value.push(meant);
    }
    value.push('\\')?;
    value.push(c)
}

/// What a backslash and this character mean, where they are a pair.
fn unescaped_cell(c: char) -> Option<char>
    ensures { result ≡ escape_meaning c }
{
    match c {
        '|' | '\\' => Some(c),
        'n' => Some('\n'),
        _ => None,
    }
}

/// The text before the first bar that no backslash escapes, the text after that bar, and whether the text before it is
/// known to have no backslash.
fn cut_at_bar(text: &str) -> Option<(&str, &str, bool)>
    ensures lengths { IfSome result
        (λ parts. length parts.0.now + length parts.1.now + 1 ≡ length text.now) }
    ensures place { MatchOption result (NoBar (units (chars text.now)))
        (λ parts. IsCutAtBar (units (chars text.now))
        (units (chars parts.0.now)) (units (chars parts.1.now))) }
    ensures bytes { IfSome result
        (λ parts. text.now ≡ parts.0.now ++ vertical_bar ∷ parts.1.now) }
    ensures utf8 { IfSome result (λ parts. IsUtf8 parts.1.now) }
    ensures plain { IfSome result (λ parts. IsTrue parts.2
        → NonePass (λ c. c == backslash) (chars parts.0.now)) }
{
    let mut plain = true;
    let mut rest = text;
    while let Some(place) = memchr2(b'|', b'\\', rest.as_bytes()) {
        let next = &rest[place + 1..];
        if rest.as_bytes()[place] == b'|' {
            return Some((&text[..text.len() - next.len() - 1], next, plain));
        }
        plain = false;
        rest = after_first(next)?;
    }
    None
}

/// Whether the line is a row of a table: after its indent it begins with `|`.
///
/// Source: Gherkin reference, "Data Tables"; `gherkin.berp`, `TableRow`.
pub fn is_row(line: Line<'_>) -> bool
    ensures value { result ≡ begins_by (codes "|") (line_chars line.entry) }
{
    begins(line, b'|')
}
