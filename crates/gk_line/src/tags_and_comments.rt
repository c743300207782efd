//! Tag lines and comments, and the tags of a tag line.
ghost use Rattle.std.specs.Prelude.{◌≡◌, ◌≤◌, ◌∷◌, ◌++◌, [], ◌&&◌, ℕ, List, length, map, filter, find, false, codes, is_some, None, IfOk};
ghost use Rattle.std.specs.Prelude.{OnOk, IfErr, IsTrue, ◌<◌};
ghost use Rattle.std.specs.Char.{is_whitespace};
ghost use Rattle.std.specs.List.{list_any, AllByRecursion};
ghost use Rattle.std.specs.Str.{chars, IsUtf8};
ghost use Rattle.gk_line.specs.declared.limit.TheConstants.{FEATURE_LIMIT};
ghost use Rattle.gk_line.specs.Places.{IsAtColumn};
ghost use Rattle.gk_line.specs.Tags.{uncommented_line, tags_of, spaced_piece, is_tag, has_space, piece_at};
ghost use Rattle.gk_line.specs.Texts.{after, is_visible_ascii};
ghost use Rattle.gk_line.specs.Tokens.{begins_by};
ghost use Rattle.gk_line.specs.Views.{line_chars, tag_word, IsTagFault};

use crate::texts::{
    after_first, begins, begins_with_space, column, count, cut, indent, is_visible_ascii,
    leading_space, strip, trim, trim_start,
};
use crate::tokens::Line;
use std::alloc::{AllocError, Global};
use thiserror::Error;

/// The tags of a tag line, in order.
///
/// From the first white space that `#` follows at once, the line is a comment. The rest is cut at each `@`; white space
/// at both ends of a piece is dropped, and an empty piece is no tag. Takes time linear in the line.
///
/// # Errors
/// `TagSpace` exactly where a piece has white space in it, with the column of the first such piece's `@`; `Memory`
/// where there is no memory for the tags.
///
/// Source: Gherkin reference, "Tags"; the cut and the column are this profile's.
pub fn tags<'a>(alloc: Global, line: Line<'a>) -> Result<Vec<TagText<'a>>, TagFault>
    requires tags { IsTrue (begins_by (codes "@") (line_chars line)) }
    requires short { length line.text.now ≤ FEATURE_LIMIT }
    ensures value { IfOk result
        (λ tags. map tag_word tags.items ≡ tags_of (line_chars line.entry)) }
    ensures place { IfOk result (λ tags. AllByRecursion
        (λ tag. IsAtColumn (line_chars line.entry) (codes "@") (chars tag.word.now) tag.column)
        tags.items) }
    ensures utf8 { IfOk result (λ tags. AllByRecursion (λ tag. IsUtf8 tag.word.now) tags.items) }
    ensures plain { OnOk result (spaced_piece (line_chars line.entry) ≡ None) }
    ensures fault { IfErr result
        (λ fault. IsTagFault fault (spaced_piece (line_chars line.entry))) }
{
    let mut tags = Vec::new(alloc);
    let text = without_comment(line.text);
    let mut column = leading_space(text) + 1;
    let Some(mut rest) = strip(trim_start(text), "@") else {
        return Ok(tags);
    };
    while let Some((piece, next)) = cut(rest, b'@') {
        add_piece(&mut tags, piece, column)?;
        column += count(piece) + 1;
        rest = next;
    }
    add_piece(&mut tags, rest, column)?;
    Ok(tags)
}

/// Adds the tag that the text after an `@` holds, if it holds one.
fn add_piece<'a>(tags: &mut Vec<TagText<'a>>, piece: &'a str, column: u32) -> Result<(), TagFault>
    ensures value { OnOk result (map tag_word tags.new.items
        ≡ map tag_word tags.old.items
        ++ filter is_tag (piece_at column (chars piece.now) ∷ [])) }
    ensures plain { OnOk result (has_space (piece_at column (chars piece.now)) ≡ false) }
    ensures utf8 { OnOk result (AllByRecursion (λ tag. IsUtf8 tag.word.now) tags.old.items
        → AllByRecursion (λ tag. IsUtf8 tag.word.now) tags.new.items) }
    ensures fault { IfErr result (λ fault. IsTagFault fault
        (find has_space (piece_at column (chars piece.now) ∷ []))) }
{
    let word = trim(piece);
    if has_white_space(word) {
        return Err(TagFault::TagSpace(column));
    }
    if !word.is_empty() {
        push_tag(tags, TagText { word, column })?;
    }
    Ok(())
}

/// Adds the tag.
fn push_tag<'a>(tags: &mut Vec<TagText<'a>>, tag: TagText<'a>) -> Result<(), AllocError>
    ensures { OnOk result (tags.new.items ≡ tags.old.items ++ tag.entry ∷ []) }
{
    tags.push(tag)?;
    Ok(())
}

/// Whether there is white space in the word.
fn has_white_space(word: &str) -> bool
    ensures { result ≡ list_any is_whitespace (chars word.now) }
{
    !is_visible_ascii(word) && word.chars().any(|c| c.is_whitespace())
}

/// The text up to the first white space that `#` follows.
fn without_comment(text: &str) -> &str
    ensures value { chars result.now ≡ uncommented_line (chars text.now) }
    ensures bound { length result.now ≤ length text.now }
{
    match cut(text, b'#') {
        Some(_) => before_comment(text),
        None => text,
    }
}

/// The same, one character after another.
fn before_comment(text: &str) -> &str
    ensures value { chars result.now ≡ uncommented_line (chars text.now) }
    ensures bound { length result.now ≤ length text.now }
{
    let mut rest = text;
    while let Some(next) = after_first(rest) {
        if begins_comment(rest, next) {
            return &text[..text.len() - rest.len()];
        }
        rest = next;
    }
    text
}

/// Whether a text begins with white space, and `#` follows that.
fn begins_comment(text: &str, next: &str) -> bool
    ensures { (c : ℕ) (rest : List ℕ) → chars text.now ≡ c ∷ rest
        → result ≡ (is_whitespace c && is_some (after (codes "#") (chars next.now))) }
{
    begins_with_space(text) && strip(next, "#").is_some()
}

/// Whether the line is a tag line: after its indent it begins with `@`.
///
/// Source: Gherkin reference, "Tags"; `gherkin.berp`, `TagLine`.
pub fn is_tags(line: Line<'_>) -> bool
    ensures value { result ≡ begins_by (codes "@") (line_chars line.entry) }
{
    begins(line, b'@')
}

/// Whether the line is a comment: after its indent it begins with `#`. Its text is the whole line, from column 1.
///
/// Source: Gherkin reference, "Comments".
pub fn is_comment(line: Line<'_>) -> bool
    ensures value { result ≡ begins_by (codes "#") (line_chars line.entry) }
{
    begins(line, b'#')
}

/// Why a tag line has no tags.
#[derive(Clone, Copy, PartialEq, Eq, Debug, Error)]
pub enum TagFault {
    /// There is white space in the tag whose `@` is at this column.
    #[error("white space in the tag at column {0}")]
    TagSpace(u32),
    /// There is no memory for the tags.
    #[error("out of memory")]
    Memory,
}

/// A tag of a tag line.
#[derive(Clone, Copy)]
pub struct TagText<'a> {
    /// The tag without its `@`.
    pub word: &'a str,
    /// The column of the `@`.
    pub column: u32,
}

impl From<AllocError> for TagFault {
    ghost use Rattle.gk_line.specs.declared.tags_and_comments.TagFault.TheVariants.{Memory};

    ghost from_gives = { λ _ fault. fault ≡ Memory };

    fn from(_: AllocError) -> TagFault {
        TagFault::Memory
    }
}
