//! The doc string of a step: the fence that opens it, its lines, and the fence that closes it.
ghost use Rattle.std.specs.Prelude.{◌≡◌, ◌∷◌, map, IfOk, OnOk, ◌+◌, [], if◌then◌else◌, ◌++◌};
ghost use Rattle.gk_tree.specs.Views.{flat_block_of, state_in, Gives, text_of, state_so_far, kept_line, open_doc_string_of};
ghost use Rattle.gk_grammar.specs.Machine as machine;
ghost use Rattle.gk_grammar.specs.Grammar.{content_line};
ghost use Rattle.std.specs.String.{string_bytes};
ghost use Rattle.std.specs.List.{join_with_byte};
ghost use Rattle.gk_line.specs.Characters.{line_feed};
ghost use Rattle.gk_document.specs.MediaType.{unless_empty};
ghost use Rattle.gk_grammar.specs.Token.{step_token as stepped};
ghost use Rattle.gk_grammar.specs.Grammar as grammar;
ghost use Rattle.gk_tree.specs.declared.parser.Progress.{Progress as SomeProgress};

use crate::fault::{ParseFault, unexpected_line_fault};
use crate::line_tokens::copied;
use crate::parser::Phase;
use crate::steps::BlockWithSteps;
use crate::token::{IndentedLine, location};
use gk_document::{Argument, DocString, Fence, Location, Text, media_type};
use gk_line::{FenceLine, fence, push_doc_line};
use std::alloc::{AllocError, Global};

/// An open doc string.
#[derive(Clone, Copy)]
pub(crate) struct OpenDocString<'a> {
    pub location: Location,
    pub fence: Fence,
    pub media: &'a str,
    pub indent: u32,
}

/// A fence after a step.
pub(crate) fn open_doc_string<'a>(
    alloc: Global,
    stepped: Box<BlockWithSteps>,
    at: IndentedLine<'a>,
    line: FenceLine<'a>,
) -> Result<Phase<'a>, ParseFault>
    ensures { (p : SomeProgress) → Gives (state_in p) result
        (machine.step_fence (state_so_far p) (flat_block_of stepped.value.flat_block)
        stepped.value.before stepped.value.last stepped.value.last.argument
        at.entry.line.number at.entry.indent line.entry.fence
        (text_of line.entry.media.now)) }
{
    if stepped.last.argument.is_some() {
        return Err(unexpected_line_fault(at));
    }
    let opening = OpenDocString {
        location: location(at),
        fence: line.fence,
        media: line.media,
        indent: at.indent,
    };
    Ok(Phase::InDocString(stepped, opening, Vec::new(alloc)))
}

/// Whether the line closes a doc string that this fence opened.
fn closes(opened: Fence, at: IndentedLine<'_>) -> bool
    ensures { result ≡ grammar.is_fence opened (kept_line at.entry) }
{
    match fence(at.line) {
        Some(line) => line.fence == opened,
        None => false,
    }
}

/// A line in a doc string, or the one that closes it.
pub(crate) fn in_doc_string<'a>(
    alloc: Global,
    mut stepped: Box<BlockWithSteps>,
    opening: OpenDocString<'a>,
    mut lines: Vec<IndentedLine<'a>>,
    at: IndentedLine<'a>,
) -> Result<Phase<'a>, ParseFault>
    ensures { (p : SomeProgress) → Gives (state_in p) result (machine.at_phase (state_so_far p)
        (machine.InDocString (flat_block_of stepped.value.flat_block) stepped.value.before
        stepped.value.last (open_doc_string_of opening.entry) (map kept_line lines.entry.items))
        (kept_line at.entry)) }
{
    if closes(opening.fence, at) {
        let text = doc_string(alloc, opening, &lines)?;
        stepped.last.argument = Some(Argument::Text(text));
        return Ok(Phase::AfterStep(stepped));
    }
    lines.push(at)?;
    Ok(Phase::InDocString(stepped, opening, lines))
}

/// The doc string of these lines.
pub(crate) fn doc_string(
    alloc: Global,
    opening: OpenDocString<'_>,
    lines: &[IndentedLine<'_>],
) -> Result<DocString, AllocError>
    ensures { IfOk result (λ d. d ≡ machine.doc_string (open_doc_string_of opening.entry)
        (map kept_line lines.now)) }
{
    Ok(DocString {
        location: opening.location,
        media: copied_media(alloc, opening.media)?,
        content: doc_string_content(alloc, lines, opening.fence, opening.indent)?,
        fence: opening.fence,
    })
}

/// A copy of the media type, where there is one.
fn copied_media(alloc: Global, media: &str) -> Result<Option<Text>, AllocError>
    ensures { IfOk result (λ m. m ≡ unless_empty (text_of media.now)) }
{
    Ok(media_type(copied(alloc, media)?))
}

/// The content of a doc string of these lines.
fn doc_string_content(
    alloc: Global,
    lines: &[IndentedLine<'_>],
    fence: Fence,
    indent: u32,
) -> Result<Text, AllocError>
    ensures { IfOk result (λ t. t ≡ join_with_byte line_feed
        (map (content_line fence indent) (map kept_line lines.now))) }
{
    let mut text = String::new(alloc);
    for (i, line) in lines.iter().enumerate() {
        push_content_line(&mut text, i == 0, *line, fence, indent)?;
    }
    Ok(Text::from(text))
}

/// Adds what a line says inside a doc string, after a line feed if it isn't the first.
fn push_content_line(
    text: &mut String,
    is_first: bool,
    line: IndentedLine<'_>,
    fence: Fence,
    indent: u32,
) -> Result<(), AllocError>
    ensures { OnOk result (string_bytes text.new
        ≡ (if is_first then string_bytes text.old
        ++ content_line fence indent (kept_line line.entry)
        else (string_bytes text.old ++ line_feed ∷ [])
        ++ content_line fence indent (kept_line line.entry))) }
{
    if is_first {
        return push_doc_line(text, line.line, fence, indent);
    }
    text.push('\n')?;
    push_doc_line(text, line.line, fence, indent)
}
