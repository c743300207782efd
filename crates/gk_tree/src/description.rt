//! The lines of a description, and the text that they make.
ghost use Rattle.std.specs.Prelude.{◌≡◌, ◌<◌, ◌^◌, [], ◌∷◌, ◌++◌, map, ℕ, List, OnOk, IfOk, filter, not, reverse};
ghost use Rattle.std.specs.Prelude.{if◌then◌else◌};
ghost use Rattle.gk_grammar.specs.Machine as machine;
ghost use Rattle.gk_tree.specs.Views.{line_at, state_in, Gives, flat_block_of, state_so_far, token_view, kept_line};
ghost use Rattle.gk_tree.specs.Views.{text_of};
ghost use Rattle.gk_tree.specs.Read.{IsRead};
ghost use Rattle.gk_grammar.specs.Token as read;
ghost use Rattle.gk_grammar.specs.Grammar as grammar;
ghost use Rattle.gk_grammar.specs.Grammar.{comments_of, description_of, from_text};
ghost use Rattle.gk_grammar.specs.Token.{bytes};
ghost use Rattle.std.specs.String.{string_bytes};
ghost use Rattle.std.specs.List.{join_with_byte};
ghost use Rattle.gk_line.specs.Characters.{line_feed};

use crate::blocks::{FlatBlock, close_block, follows};
use crate::comments::keep_if_comment;
use crate::fault::ParseFault;
use crate::parser::{Phase, Progress};
use crate::rows::first_row;
use crate::steps::first_step;
use crate::token::{IndentedLine, Token};
use gk_document::Text;
use gk_line::{Block, is_blank, is_comment};
use std::alloc::{AllocError, Global};

/// A line in or after a description.
pub(crate) fn in_description<'a>(
    alloc: Global,
    progress: &mut Progress,
    flat_block: Box<FlatBlock>,
    mut lines: Vec<IndentedLine<'a>>,
    at: IndentedLine<'a>,
    token: Token<'a>,
) -> Result<Phase<'a>, ParseFault>
    requires room { progress.old.nodes < 2 ^ 63 }
    requires read { IsRead at token }
    ensures { Gives (state_in progress.new) result (machine.at_phase (state_so_far progress.old)
        (machine.InDescription (flat_block_of flat_block.value) (map kept_line lines.entry.items))
        (line_at at.entry token.entry)) }
{
    if stops(flat_block.block, &token) {
        let flat_block = with_description(alloc, flat_block, lines)?;
        return after_description(alloc, progress, flat_block, at, token);
    }
    keep_line(alloc, progress, &mut lines, at, &token)?;
    Ok(Phase::InDescription(flat_block, lines))
}

/// Keeps a line of a description, also as a comment if it is one.
fn keep_line<'a>(
    alloc: Global,
    progress: &mut Progress,
    lines: &mut Vec<IndentedLine<'a>>,
    at: IndentedLine<'a>,
    token: &Token<'a>,
) -> Result<(), AllocError>
    ensures comments { OnOk result (progress.new ≡ record progress.old {
      comments = progress.old.comments ++ comments_of (line_at at.entry token.now ∷ []);
    }) }
    ensures lines { OnOk result (lines.new.items ≡ lines.old.items ++ at.entry ∷ []) }
{
    keep_if_comment(alloc, progress, at, token)?;
    Ok(lines.push(at)?)
}

/// Whether the line ends a description of the block.
fn stops(block: Block, token: &Token<'_>) -> bool
    ensures { (n : ℕ) (text : List ℕ) (i : ℕ) → result
        ≡ grammar.stops block (read.line n text i (token_view token.now)) }
{
    match token {
        Token::Tags(_) | Token::SpacedTag(_) => true,
        Token::Title(title, _) => follows(Some(block), *title),
        Token::Step(_) => block == Block::Background || block == Block::Scenario,
        Token::Row(_) => block == Block::Examples,
        _ => false,
    }
}

/// The first line after a description.
pub(crate) fn after_description<'a>(
    alloc: Global,
    progress: &mut Progress,
    flat_block: Box<FlatBlock>,
    at: IndentedLine<'a>,
    token: Token<'a>,
) -> Result<Phase<'a>, ParseFault>
    requires room { progress.old.nodes < 2 ^ 63 }
    ensures { Gives (state_in progress.new) result
        (machine.after_description (state_so_far progress.old) (flat_block_of flat_block.value)
        (line_at at.entry token.entry)) }
{
    match token {
        Token::Step(line) => first_step(alloc, progress, flat_block, at, line),
        Token::Row(cells) => first_row(alloc, progress, flat_block, at, cells),
        token => close_block(alloc, progress, Box::into_inner(flat_block), at, token),
    }
}

/// The text of a description of these lines.
fn description(alloc: Global, lines: &[IndentedLine<'_>]) -> Result<Text, AllocError>
    ensures { IfOk result (λ t. t ≡ description_of (map kept_line lines.now)) }
{
    let kept = without_comments(alloc, lines)?;
    joined(alloc, without_last_blanks(without_first_blanks(&kept)))
}

/// The lines that are no comments.
fn without_comments<'a>(
    alloc: Global,
    lines: &[IndentedLine<'a>],
) -> Result<Vec<IndentedLine<'a>>, AllocError>
    ensures { IfOk result (λ v. map kept_line v.items
        ≡ filter (λ l. not (read.is_comment l)) (map kept_line lines.now)) }
{
    let mut kept = Vec::new(alloc);
    for line in lines {
        if !is_comment(line.line) {
            kept.push(*line)?;
        }
    }
    Ok(kept)
}

/// The lines from the first one on that is not blank.
fn without_first_blanks<'a, 'l>(lines: &'l [IndentedLine<'a>]) -> &'l [IndentedLine<'a>]
    ensures { map kept_line result.now ≡ from_text (map kept_line lines.now) }
{
    for (i, line) in lines.iter().enumerate() {
        if !is_blank(line.line) {
            return &lines[i..];
        }
    }
    &lines[lines.len()..]
}

/// The lines up to the last one that is not blank.
fn without_last_blanks<'a, 'l>(lines: &'l [IndentedLine<'a>]) -> &'l [IndentedLine<'a>]
    ensures { map kept_line result.now ≡ reverse (from_text (reverse (map kept_line lines.now))) }
{
    let mut end = lines.len();
    while end > 0 {
        if !is_blank(lines[end - 1].line) {
            return &lines[..end];
        }
        end -= 1;
    }
    &lines[..0]
}

/// The lines with a line feed between them.
fn joined(alloc: Global, lines: &[IndentedLine<'_>]) -> Result<Text, AllocError>
    ensures { IfOk result (λ t. t ≡ join_with_byte line_feed
        (map bytes (map kept_line lines.now))) }
{
    let mut text = String::new(alloc);
    for (i, line) in lines.iter().enumerate() {
        push_line(&mut text, i == 0, line.line.text)?;
    }
    Ok(Text::from(text))
}

/// Adds a line, after a line feed if it isn't the first.
#[tactic(auto, using(crate::proofs::TextLemmas::text_same))]
fn push_line(text: &mut String, is_first: bool, line: &str) -> Result<(), AllocError>
    ensures { OnOk result (string_bytes text.new
        ≡ (if is_first then string_bytes text.old ++ text_of line.now
        else (string_bytes text.old ++ line_feed ∷ []) ++ text_of line.now)) }
{
    if is_first {
        text.push_str(line)?;
        return Ok(());
    }
    text.push('\n')?;
    text.push_str(line)?;
    Ok(())
}

/// The block with the description that these lines are.
pub(crate) fn with_description(
    alloc: Global,
    mut flat_block: Box<FlatBlock>,
    lines: Vec<IndentedLine<'_>>,
) -> Result<Box<FlatBlock>, AllocError>
    ensures { IfOk result (λ c. flat_block_of c.value
        ≡ machine.with_description (flat_block_of flat_block.value)
        (map kept_line lines.entry.items)) }
{
    flat_block.description = description(alloc, &lines)?;
    Ok(flat_block)
}
