//! The comments that are kept.
ghost use Rattle.std.specs.Prelude.{◌≡◌, ◌++◌, ℕ, List, ◌+◌, Ok, [], ◌∷◌, OnOk};
ghost use Rattle.gk_line.specs.Views.{line_chars};
ghost use Rattle.gk_grammar.specs.Token as read;
ghost use Rattle.gk_tree.specs.Views.{token_view, line_at, state_in, Gives, state_so_far, phase_of};
ghost use Rattle.gk_grammar.specs.Machine as machine;
ghost use Rattle.gk_grammar.specs.Grammar.{comments_of, comment_of};

use crate::fault::ParseFault;
use crate::line_tokens::copied;
use crate::parser::{Phase, Progress};
use crate::token::{IndentedLine, Token};
use gk_document::{Comment, Location};
use std::alloc::{AllocError, Global};

/// Whether the line is a comment, also a language line.
fn is_comment_token(token: &Token<'_>) -> bool
    ensures { (n : ℕ) (text : List ℕ) (i : ℕ) → result
        ≡ read.is_comment (read.line n text i (token_view token.now)) }
{
    match token {
        Token::Comment | Token::Language(_) => true,
        Token::Blank
        | Token::Tags(_)
        | Token::SpacedTag(_)
        | Token::Title(_, _)
        | Token::Step(_)
        | Token::Row(_)
        | Token::Fenced(_)
        | Token::Other => false,
    }
}

/// Keeps the line if it is a comment.
pub(crate) fn keep_if_comment(
    alloc: Global,
    progress: &mut Progress,
    at: IndentedLine<'_>,
    token: &Token<'_>,
) -> Result<(), AllocError>
    ensures { OnOk result (progress.new ≡ record progress.old {
      comments = progress.old.comments
          ++ comments_of (line_at at.entry token.now ∷ []);
    }) }
{
    if !is_comment_token(token) {
        return Ok(());
    }
    keep_comment(alloc, progress, at)
}

/// Keeps the line, which is a comment.
fn keep_comment(
    alloc: Global,
    progress: &mut Progress,
    at: IndentedLine<'_>,
) -> Result<(), AllocError>
    ensures { OnOk result (progress.new ≡ record progress.old {
      comments
          = progress.old.comments ++ comment_of
          (read.line at.entry.line.number (line_chars at.entry.line) at.entry.indent read.Comment)
          ∷ [];
    }) }
{
    let comment = Comment {
        location: Location {
            line: at.line.number,
            column: 1,
        },
        text: copied(alloc, at.line.text)?,
    };
    progress.comments.push(comment)
}

/// Keeps the line, which is a comment, and stays in the phase.
pub(crate) fn keep_comment_and_stay<'a>(
    alloc: Global,
    progress: &mut Progress,
    phase: Phase<'a>,
    at: IndentedLine<'a>,
) -> Result<Phase<'a>, ParseFault>
    ensures { Gives (state_in progress.new) result
        (Ok (machine.pass_over (state_so_far progress.old) (phase_of phase.entry)
        (read.line at.entry.line.number (line_chars at.entry.line) at.entry.indent read.Comment))) }
{
    keep_comment(alloc, progress, at)?;
    Ok(phase)
}
