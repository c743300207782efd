//! What a line is read as.
ghost use Rattle.std.specs.Prelude.{◌≡◌, ◌≤◌, length, codes, IfOk, IsTrue};
ghost use Rattle.gk_line.specs.declared.limit.TheConstants.{FEATURE_LIMIT};
ghost use Rattle.std.specs.Str.{chars};
ghost use Rattle.std.specs.Option.{option_map};
ghost use Rattle.gk_line.specs.Texts.{text_after_indent, first_some};
ghost use Rattle.gk_line.specs.Tokens.{indent_of, title_of, step_of, fence_of, begins_by, language_of, blocks};
ghost use Rattle.gk_line.specs.Tags.{spaced_piece, tags_of};
ghost use Rattle.gk_line.specs.Views.{line_chars};
ghost use Rattle.gk_grammar.specs.Token as read;
ghost use Rattle.gk_grammar.specs.Token.{token_of, comment_token as comment_or_language, title_token as titled};
ghost use Rattle.gk_grammar.specs.Token.{step_token as stepped, fence_token as fenced, tag_list, word_token as by_word};
ghost use Rattle.gk_grammar.specs.Token.{token_or_other};
ghost use Rattle.gk_tree.specs.Read.{first_character};
ghost use Rattle.gk_tree.specs.Views.{token_view, text_of};

use crate::rows::row_cells;
use crate::token::{Head, TagLine, Token};
use gk_document::Text;
use gk_line::{Line, TagFault, block_title, fence, language, step, tags};
use std::alloc::{AllocError, Global};

/// The indent of a line with this text, and the first character after it.
pub(crate) fn line_head(text: &str) -> Head
    requires { length text.now ≤ FEATURE_LIMIT }
    ensures indent { result.indent ≡ indent_of (chars text.now) }
    ensures bound { result.indent ≤ FEATURE_LIMIT }
    ensures first { result.first ≡ first_character (text_after_indent (chars text.now)) }
{
    let mut indent = 0;
    for c in text.chars() {
        if !c.is_whitespace() {
            return Head {
                indent,
                first: Some(c),
            };
        }
        indent += 1;
    }
    Head {
        indent,
        first: None,
    }
}

/// What the line is read as, where this is the first character after its indent.
#[inline(never)]
pub(crate) fn line_token(
    alloc: Global,
    line: Line<'_>,
    first: Option<char>,
) -> Result<Token<'_>, AllocError>
    requires short { length line.text.now ≤ FEATURE_LIMIT }
    requires first { first ≡ first_character (text_after_indent (line_chars line)) }
    ensures { IfOk result (λ t. token_view t ≡ token_of (line_chars line.entry)) }
{
    match first {
        None => Ok(Token::Blank),
        Some('#') => Ok(comment_token(line)),
        Some('@') => tag_token(alloc, line),
        Some('|') => Ok(Token::Row(row_cells(alloc, line)?)),
        Some(_) => Ok(word_token(line)),
    }
}

/// The comment that the line is, or its language.
fn comment_token(line: Line<'_>) -> Token<'_>
    ensures { token_view result ≡ comment_or_language (language_of (line_chars line.entry)) }
{
    match language(line) {
        Some(word) => Token::Language(word),
        None => Token::Comment,
    }
}

/// The tags of a tag line.
fn tag_token(alloc: Global, line: Line<'_>) -> Result<Token<'_>, AllocError>
    requires tags { IsTrue (begins_by (codes "@") (line_chars line)) }
    requires short { length line.text.now ≤ FEATURE_LIMIT }
    ensures { IfOk result (λ t. token_view t ≡ read.Tags
        (tag_list (spaced_piece (line_chars line.entry)) (tags_of (line_chars line.entry)))) }
{
    match tags(alloc, line) {
        Ok(words) => Ok(Token::Tags(TagLine { words })),
        Err(TagFault::TagSpace(column)) => Ok(Token::SpacedTag(column)),
        Err(TagFault::Memory) => Err(AllocError),
    }
}

/// A line that begins with a keyword or a fence, or any other one.
fn word_token(line: Line<'_>) -> Token<'_>
    requires { length line.text.now ≤ FEATURE_LIMIT }
    ensures { token_view result ≡ token_or_other (by_word (line_chars line.entry)) }
{
    if let Some(token) = step_token(line) {
        return token;
    }
    if let Some(token) = fence_token(line) {
        return token;
    }
    match title_token(line) {
        Some(token) => token,
        None => Token::Other,
    }
}

/// The step that the line is.
fn step_token(line: Line<'_>) -> Option<Token<'_>>
    requires { length line.text.now ≤ FEATURE_LIMIT }
    ensures { option_map token_view result
        ≡ option_map stepped (step_of (line_chars line.entry)) }
{
    Some(Token::Step(step(line)?))
}

/// The fence that the line is.
fn fence_token(line: Line<'_>) -> Option<Token<'_>>
    requires { length line.text.now ≤ FEATURE_LIMIT }
    ensures { option_map token_view result
        ≡ option_map fenced (fence_of (line_chars line.entry)) }
{
    Some(Token::Fenced(fence(line)?))
}

/// The title that the line is.
fn title_token(line: Line<'_>) -> Option<Token<'_>>
    requires { length line.text.now ≤ FEATURE_LIMIT }
    ensures { option_map token_view result
        ≡ first_some (λ b. option_map (titled b) (title_of b (line_chars line.entry))) blocks }
{
    let (block, title) = block_title(line)?;
    Some(Token::Title(block, title))
}

/// A text of its own with these characters.
pub(crate) fn copied(alloc: Global, text: &str) -> Result<Text, AllocError>
    ensures { IfOk result (λ t. t ≡ text_of text.now) }
{
    Text::copy_of(alloc, text)
}
