//! The lines of a doc string: its fences and what stands between them.
ghost use Rattle.std.specs.Prelude.{◌≡◌, ◌≤◌, ◌∷◌, ◌+◌, ◌++◌, length, IfOk, IsOk, OnErr, OnOk, IsTrue, codes, nat_eq, IfSome};
ghost use Rattle.std.specs.Char.{is_ascii};
ghost use Rattle.std.specs.List.{list_all, list_any};
ghost use Rattle.std.specs.Str.{chars, IsUtf8};
ghost use Rattle.std.specs.String.{string_bytes, string_capacity, string_len};
ghost use Rattle.gk_line.specs.declared.limit.TheConstants.{FEATURE_LIMIT};
ghost use Rattle.gk_document.specs.Fences.{fence_characters, fence_mark};
ghost use Rattle.gk_line.specs.DocStrings.{doc_line_of, outdented_line, fences_unescaped, escaped_mark};
ghost use Rattle.gk_line.specs.Characters.{backslash};
ghost use Rattle.gk_line.specs.Views.{line_chars, fence_text};
ghost use Rattle.std.specs.Option.{option_map};
ghost use Rattle.gk_line.specs.Places.{IsAtColumn};
ghost use Rattle.gk_line.specs.Tokens.{fence_of};

use crate::texts::{
    ascii_spaces, column, cut, first_byte, leading_space, skip, strip, trim, trim_start,
};
use crate::tokens::{FenceLine, Line};
use gk_document::Fence;
use std::alloc::{AllocError, Global};

/// What a line inside a doc string says, where the opening line has this fence and this indent (in characters).
///
/// The line loses as many leading characters as the indent has, or its own indent where that is less. Then each
/// fence that is written with a backslash before each of its characters is read as the fence. Takes time linear in
/// the line.
///
/// # Errors
/// Only where there is no memory for the text.
///
/// Source: Gherkin reference, "Doc Strings".
pub fn doc_line(
    alloc: Global,
    line: Line<'_>,
    fence: Fence,
    indent: u32,
) -> Result<String, AllocError>
    requires { length line.text.now ≤ FEATURE_LIMIT }
    ensures value { IfOk result (λ text. chars (string_bytes text)
        ≡ doc_line_of fence indent (line_chars line.entry)) }
    ensures utf8 { IfOk result (λ text. IsUtf8 (string_bytes text)) }
{
    let mut text = String::new(alloc);
    push_doc_line(&mut text, line, fence, indent)?;
    Ok(text)
}

/// Adds what a line inside a doc string says, as [`doc_line`] gives it, to the end of a text.
///
/// # Errors
/// Only where there is no memory for the text, which is then as it was: room is made first, and what the line says is no
/// longer than the line.
///
/// Source: Gherkin reference, "Doc Strings".
#[tactic(auto, unfolding(crate::specs::DocStrings::doc_line_of))]
pub fn push_doc_line(
    text: &mut String,
    line: Line<'_>,
    fence: Fence,
    indent: u32,
) -> Result<(), AllocError>
    requires { length line.text.now ≤ FEATURE_LIMIT }
    ensures ok { OnOk result (chars (string_bytes text.new)
        ≡ chars (string_bytes text.old) ++ doc_line_of fence indent (line_chars line.entry)) }
    ensures err { OnErr result (string_bytes text.new ≡ string_bytes text.old) }
{
    let said = outdent(line.text, indent);
    text.reserve(said.len())?;
    push_unescaped(text, said, fence)
}

/// Adds the text with a fence in place of each escaped one. There is room for the text.
fn push_unescaped(value: &mut String, text: &str, fence: Fence) -> Result<(), AllocError>
    requires room { string_len value.old + length text.now ≤ string_capacity value.old }
    ensures fits { IsOk result }
    ensures value { OnOk result (chars (string_bytes value.new)
        ≡ chars (string_bytes value.old)
        ++ fences_unescaped (fence_mark fence) 0 (chars text.now)) }
{
    let mut rest = text;
    while let Some((front, next)) = cut(rest, b'\\') {
        value.push_str(front)?;
        if let Some(after) = strip(next, fence_after_backslash(fence)) {
            value.push_str(fence.characters())?;
            rest = after;
        } else {
            value.push('\\')?;
            rest = next;
        }
    }
    value.push_str(rest)?;
    Ok(())
}

/// What follows the first backslash of a fence with a backslash before each character.
fn fence_after_backslash(fence: Fence) -> &'static str
    ensures value { backslash ∷ result.now ≡ escaped_mark (fence_mark fence) }
    ensures ascii { IsTrue (list_all is_ascii result.now) }
{
    match fence {
        Fence::Quotes => "\"\\\"\\\"",
        Fence::Backticks => "`\\`\\`",
    }
}

/// The text without as many leading characters, or without its indent where that is shorter.
#[tactic(auto, unfolding(crate::specs::DocStrings::outdented_line, crate::specs::Tokens::indent_of))]
fn outdent(text: &str, indent: u32) -> &str
    requires { length text.now ≤ FEATURE_LIMIT }
    ensures { chars result.now ≡ outdented_line indent (chars text.now) }
{
    if indent as usize <= ascii_spaces(text) {
        &text[indent as usize..]
    } else if leading_space(text) < indent {
        trim_start(text)
    } else {
        skip(text, indent)
    }
}

/// The fence that the line reads as: after its indent three quotation marks or three backticks, and the media type.
///
/// Source: Gherkin reference, "Doc Strings"; `gherkin.berp`, `DocStringSeparator`.
#[tactic(auto, unfolding(crate::specs::Tokens::fence_of, crate::specs::Texts::first_some))]
pub fn fence<'a>(line: Line<'a>) -> Option<FenceLine<'a>>
    requires { length line.text.now ≤ FEATURE_LIMIT }
    ensures value { option_map fence_text result ≡ fence_of (line_chars line.entry) }
    ensures place { IfSome result (λ fence. IsAtColumn (line_chars line.entry)
        (fence_characters fence.fence) (chars fence.media.now) fence.column) }
    ensures utf8 { IfSome result (λ fence. IsUtf8 fence.media.now) }
{
    let body = trim_start(line.text);
    if !begins_fence(first_byte(body)) {
        return None;
    }
    if let Some(rest) = strip(body, "\"\"\"") {
        return Some(FenceLine {
            fence: Fence::Quotes,
            media: trim(rest),
            column: column(line),
        });
    }
    let rest = strip(body, "```")?;
    Some(FenceLine {
        fence: Fence::Backticks,
        media: trim(rest),
        column: column(line),
    })
}

/// Whether a fence begins with this byte.
fn begins_fence(byte: u8) -> bool
    ensures { result ≡ list_any (nat_eq byte) (codes "\"`") }
{
    byte == b'"' || byte == b'`'
}
