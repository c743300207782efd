//! The text functions that the readings of a line use, by characters.
ghost use Rattle.std.specs.Prelude.{◌≡◌, ◌≤◌, ◌+◌, ◌-◌, false, [], ◌<◌, ◌==◌, ◌∷◌, ◌++◌, IsTrue, IfSome, MatchOption, length, drop};
ghost use Rattle.std.specs.Prelude.{slice_index, is_some, ◌^◌, ◌&&◌, ℕ, List, None};
ghost use Rattle.std.specs.Char.{is_ascii, is_whitespace};
ghost use Rattle.std.specs.List.{list_all, prefix_len};
ghost use Rattle.std.specs.Option.{option_map};
ghost use Rattle.std.specs.Str.{chars, drop_trailing_whitespace, NonePass, IsUtf8, IsAscii};
ghost use Rattle.gk_line.specs.Texts.{text_after_indent, trimmed_text, after, is_ascii_space, TakesFirst, IsCutAt, is_visible_ascii};
ghost use Rattle.std.specs.Str.Lines.{lines};
ghost use Rattle.gk_line.specs.declared.limit.TheConstants.{FEATURE_LIMIT};
ghost use Rattle.gk_line.specs.Lines.{lines_of};
ghost use Rattle.gk_line.specs.LinesLeft.{lines_left};
ghost use Rattle.gk_line.specs.Tokens.{indent_of, begins_by, is_blank_line};
ghost use Rattle.gk_line.specs.Views.{line_chars};

use crate::line_ends::Lines;
use crate::tokens::Line;
use memchr::memchr;

/// The text without the white space at its start.
#[inline(always)]
pub(crate) fn trim_start(text: &str) -> &str
    ensures value { chars result.now ≡ text_after_indent (chars text.now) }
    ensures bound { length result.now ≤ length text.now }
{
    let rest = past_ascii_spaces(text);
    if begins_in_ascii(rest) {
        return rest;
    }
    trim_start_by_characters(rest)
}

/// The same, one character after another.
#[cold]
#[inline(never)]
fn trim_start_by_characters(text: &str) -> &str
    ensures value { chars result.now ≡ text_after_indent (chars text.now) }
    ensures bound { length result.now ≤ length text.now }
{
    text.trim_start()
}

/// The text without the ASCII white space at its start.
#[inline(always)]
fn past_ascii_spaces(text: &str) -> &str
    ensures value { result.now ≡ drop (prefix_len is_ascii_space text.now) text.now }
    ensures bound { length result.now ≤ length text.now }
{
    &text[ascii_spaces(text)..]
}

/// How many ASCII white space characters the text begins with.
///
/// Not inlined, so that its calls on one line become one.
#[inline(never)]
pub(crate) fn ascii_spaces(text: &str) -> usize
    ensures value { result ≡ prefix_len is_ascii_space text.now }
    ensures bound { result ≤ length text.now }
{
    text.bytes().take_while(|b| is_ascii_space(*b)).count()
}

/// Whether the byte is ASCII white space.
fn is_ascii_space(byte: u8) -> bool
    ensures { result ≡ is_ascii_space byte }
{
    byte == b' ' || (byte > 8 && byte < 14)
}

/// Whether the text is empty or begins with an ASCII character.
fn begins_in_ascii(text: &str) -> bool
    ensures { result ≡ is_ascii (slice_index text.now 0) }
{
    first_byte(text) < 128
}

/// The text without the white space at both its ends.
#[inline(always)]
pub(crate) fn trim(text: &str) -> &str
    ensures { chars result.now ≡ trimmed_text (chars text.now) }
{
    trim_end(trim_start(text))
}

/// The text without the white space at its end.
fn trim_end(text: &str) -> &str
    ensures { chars result.now ≡ drop_trailing_whitespace (chars text.now) }
{
    let front = before_ascii_spaces(text);
    if ends_in_ascii(front) {
        return front;
    }
    trim_end_by_characters(front)
}

/// The same, one character after another.
#[cold]
#[inline(never)]
fn trim_end_by_characters(text: &str) -> &str
    ensures { chars result.now ≡ drop_trailing_whitespace (chars text.now) }
{
    text.trim_end()
}

/// The text without the ASCII white space at its end.
fn before_ascii_spaces(text: &str) -> &str
    ensures value { drop_trailing_whitespace (chars result.now)
        ≡ drop_trailing_whitespace (chars text.now) }
    ensures last { is_ascii_space (slice_index result.now (length result.now - 1)) ≡ false }
{
    let mut end = text.len();
    while end > 0 && is_ascii_space(text.as_bytes()[end - 1]) {
        end -= 1;
    }
    &text[..end]
}

/// Whether the text is empty or ends in an ASCII character.
fn ends_in_ascii(text: &str) -> bool
    ensures { result ≡ is_ascii (slice_index text.now (length text.now - 1)) }
{
    text.is_empty() || text.as_bytes()[text.len() - 1] < 128
}

/// What follows an ASCII front, where the text begins with it.
pub(crate) fn strip<'a>(text: &'a str, front: &str) -> Option<&'a str>
    requires { IsTrue (list_all is_ascii front.now) }
    ensures value { option_map (λ rest. chars rest.now) result
        ≡ after front.now (chars text.now) }
    ensures bound { IfSome result
        (λ rest. length rest.now + length front.now ≡ length text.now) }
    ensures utf8 { IfSome result (λ rest. IsUtf8 rest.now) }
{
    text.strip_prefix(front)
}

/// Whether the text begins with this ASCII character.
fn begins_with(text: &str, first: u8) -> bool
    requires { first < 128 }
    ensures { result ≡ is_some (after (first ∷ []) (chars text.now)) }
{
    !text.is_empty() && first_byte(text) == first
}

/// The first byte, and 0 where there is none.
pub(crate) fn first_byte(text: &str) -> u8
    ensures { result ≡ slice_index text.now 0 }
{
    if text.is_empty() {
        return 0;
    }
    text.as_bytes()[0]
}

/// The text before the first place of an ASCII character, and the text after it.
pub(crate) fn cut(text: &str, at: u8) -> Option<(&str, &str)>
    requires { at < 128 }
    ensures place { MatchOption result (NonePass (λ c. c == at) (chars text.now))
        (λ parts. IsCutAt at (chars text.now) (chars parts.0.now) (chars parts.1.now)) }
    ensures bytes { IfSome result (λ parts. text.now ≡ parts.0.now ++ at ∷ parts.1.now) }
    ensures utf8 { IfSome result (λ parts. IsUtf8 parts.0.now) }
    ensures rest_utf8 { IfSome result (λ parts. IsUtf8 parts.1.now) }
{
    let place = memchr(at, text.as_bytes())?;
    Some((&text[..place], &text[place + 1..]))
}

/// What follows the first character.
pub(crate) fn after_first(text: &str) -> Option<&str>
    ensures { MatchOption result (text.now ≡ []) (λ rest. TakesFirst text.now rest.now) }
{
    let mut rest = text.chars();
    rest.next()?;
    Some(rest.as_str())
}

/// How many white space characters the text begins with.
#[inline(always)]
pub(crate) fn leading_space(text: &str) -> u32
    requires { length text.now < 2 ^ 32 }
    ensures value { result ≡ prefix_len is_whitespace (chars text.now) }
    ensures bound { result ≤ length text.now }
{
    let rest = past_ascii_spaces(text);
    let spaces = text.len() - rest.len();
    if begins_in_ascii(rest) {
        return spaces as u32;
    }
    spaces as u32 + leading_characters(rest)
}

/// The same, one character after another.
#[cold]
#[inline(never)]
fn leading_characters(text: &str) -> u32
    requires { length text.now < 2 ^ 32 }
    ensures value { result ≡ prefix_len is_whitespace (chars text.now) }
    ensures bound { result ≤ length text.now }
{
    text.chars().take_while(|c| c.is_whitespace()).count() as u32
}

/// How many characters the text has.
pub(crate) fn count(text: &str) -> u32
    requires { length text.now < 2 ^ 32 }
    ensures value { result ≡ length (chars text.now) }
    ensures bound { result ≤ length text.now }
{
    if text.is_ascii() {
        return text.len() as u32;
    }
    text.chars().count() as u32
}

/// Whether each character is ASCII, and past the space.
pub(crate) fn is_visible_ascii(word: &str) -> bool
    ensures { result ≡ list_all is_visible_ascii word.now }
{
    word.bytes().all(|b| b > b' ' && b < 128)
}

/// Whether the text begins with white space.
pub(crate) fn begins_with_space(text: &str) -> bool
    ensures { (c : ℕ) (rest : List ℕ)
        → chars text.now ≡ c ∷ rest → result ≡ is_whitespace c }
{
    match text.chars().next() {
        Some(c) => c.is_whitespace(),
        None => false,
    }
}

/// What follows the first characters, where `count` says how many.
pub(crate) fn skip(text: &str, count: u32) -> &str
    ensures { chars result.now ≡ drop count (chars text.now) }
{
    let mut rest = text;
    for i in 0..count {
        match after_first(rest) {
            Some(next) => rest = next,
            None => return rest,
        }
    }
    rest
}

/// How many characters the text has, where it is known whether it is ASCII.
#[inline(always)]
pub(crate) fn width(text: &str, is_ascii: bool) -> u32
    requires short { length text.now < 2 ^ 32 }
    requires ascii { IsTrue is_ascii → IsAscii text.now }
    ensures value { result ≡ length (chars text.now) }
    ensures bound { result ≤ length text.now }
{
    if is_ascii {
        text.len() as u32
    } else {
        count(text)
    }
}

/// The lines of a text, numbered from 1.
///
/// A line ends at a line feed, or at a carriage return and a line feed; a carriage return elsewhere is text. An end of
/// line at the end of the text begins no further line. One byte order mark at the front is passed over and has no
/// column. The text has at most [`FEATURE_LIMIT`](crate::FEATURE_LIMIT) bytes. Takes no memory, and time linear in the text.
///
/// Source: Gherkin reference, "Line-oriented"; the treatment of line ends is this profile's.
pub fn lines(text: &str) -> Lines<'_>
    requires { length text.now ≤ FEATURE_LIMIT }
    ensures { lines_left result ≡ lines_of (chars text.now) }
{
    Lines::new(text)
}

/// How many white space characters the line begins with.
///
/// White space is what Unicode's White_Space property says, as for `char::is_whitespace`.
#[tactic(auto, unfolding(crate::specs::Tokens::indent_of))]
pub fn indent(line: Line<'_>) -> u32
    requires { length line.text.now ≤ FEATURE_LIMIT }
    ensures value { result ≡ indent_of (line_chars line.entry) }
    ensures bound { result ≤ FEATURE_LIMIT }
{
    leading_space(line.text)
}

/// The column of the first character after the indent.
pub(crate) fn column(line: Line<'_>) -> u32
    requires { length line.text.now ≤ FEATURE_LIMIT }
    ensures value { result ≡ indent_of (line_chars line.entry) + 1 }
    ensures bound { result ≤ FEATURE_LIMIT + 1 }
{
    indent(line) + 1
}

/// Whether this ASCII character comes first after the indent.
#[tactic(auto, unfolding(crate::specs::Tokens::begins_by))]
pub(crate) fn begins(line: Line<'_>, first: u8) -> bool
    requires { first < 128 }
    ensures { result ≡ begins_by (first ∷ []) (line_chars line.entry) }
{
    begins_with(trim_start(line.text), first)
}

/// Whether the line is white space alone.
#[tactic(auto, unfolding(crate::specs::Tokens::is_blank_line))]
pub fn is_blank(line: Line<'_>) -> bool
    ensures value { result ≡ is_blank_line (line_chars line.entry) }
{
    trim_start(line.text).is_empty()
}
