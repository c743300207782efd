//! The lines of a text.
ghost use Rattle.std.specs.Prelude.{◌≡◌, ◌≤◌, ◌<◌, ◌+◌, ◌∷◌, length, ⊤};
ghost use Rattle.std.specs.Iterator.{item_count};
ghost use Rattle.std.specs.Str.{chars, IsUtf8};
ghost use Rattle.std.specs.Str.Lines.{lines, strip_carriage_return};
ghost use Rattle.gk_line.specs.declared.limit.TheConstants.{FEATURE_LIMIT};

use crate::tokens::Line;
use memchr::memchr;
use std::alloc::AllocError;

/// The lines of a text that are left, as an iterator that takes no memory. Each step is linear in its line.
#[derive(Drop)]
pub struct Lines<'a> {
    rest: &'a str,
    number: u32,
    ghost counted: { 1 ≤ number },
    ghost in_range: { number + length rest.now ≤ FEATURE_LIMIT + 1 },
}

impl<'a> Lines<'a> {
    ghost use Rattle.gk_line.specs.Lines.{lines_of};
    ghost use Rattle.gk_line.specs.LinesLeft.{lines_left};

    /// All lines of the text.
    pub(crate) fn new(text: &'a str) -> Lines<'a>
        requires { length text.now ≤ FEATURE_LIMIT }
        ensures { lines_left result ≡ lines_of (chars text.now) }
    {
        Lines {
            rest: text.strip_prefix('\u{FEFF}').unwrap_or(text),
            number: 1,
        }
    }
}

impl<'a> Clone for Lines<'a> {
    ghost use Rattle.gk_line.specs.LinesLeft.{lines_left};

    ghost is_clone = { λ lines copy. lines_left copy ≡ lines_left lines };

    ghost is_infallible = { λ _. ⊤ };

    fn clone(&self) -> Result<Lines<'a>, AllocError> {
        Ok(Lines {
            rest: self.rest,
            number: self.number,
        })
    }
}

impl<'a> Iterator for Lines<'a> {
    ghost use Rattle.gk_line.specs.LinesLeft.{lines_left, GivesLine};

    type Item = Line<'a>;

    ghost next_gives = { GivesLine };

    ghost remaining = { item_count lines_left };

    #[inline(always)]
    fn next(&mut self) -> Option<Line<'a>> {
        if self.rest.is_empty() {
            return None;
        }
        let (text, rest) = first_line(self.rest);
        let line = Line {
            number: self.number,
            text,
        };
        self.number += 1;
        self.rest = rest;
        Some(line)
    }
}

/// The first line of a text that is not empty, and what follows its line end.
#[inline(always)]
fn first_line(text: &str) -> (&str, &str)
    requires { 0 < length text.now }
    ensures value { lines (chars text.now) ≡ chars result.0.now ∷ lines (chars result.1.now) }
    ensures shorter { length result.0.now + length result.1.now ≤ length text.now }
    ensures ends { length result.1.now < length text.now }
    ensures utf8 { IsUtf8 result.0.now }
{
    match memchr(b'\n', text.as_bytes()) {
        Some(end) => (without_return(&text[..end]), &text[end + 1..]),
        None => (text, ""),
    }
}

/// The text without one carriage return at its end.
fn without_return(text: &str) -> &str
    ensures value { chars result.now ≡ strip_carriage_return (chars text.now) }
    ensures bound { length result.now ≤ length text.now }
{
    text.strip_suffix('\r').unwrap_or(text)
}
