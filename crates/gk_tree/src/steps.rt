//! The steps of a block, and the lines after them.
ghost use Rattle.std.specs.Prelude.{◌≡◌, ◌∷◌, IfOk, ◌<◌, ◌+◌, ◌^◌, [], ◌++◌, None};
ghost use Rattle.gk_tree.specs.Views.{flat_block_of, state_in, Gives, text_of, state_so_far, line_at};
ghost use Rattle.gk_line.specs.Views.{line_chars, step_text};
ghost use Rattle.gk_grammar.specs.Machine as machine;
ghost use Rattle.gk_grammar.specs.Token as read;
ghost use Rattle.gk_grammar.specs.Token.{step_token as stepped};
ghost use Rattle.gk_grammar.specs.Grammar as grammar;
ghost use Rattle.gk_grammar.specs.declared.fault.FaultKind.TheVariants as kind;

use crate::blocks::{Body, FlatBlock, close_block};
use crate::comments::keep_comment_and_stay;
use crate::doc_string::open_doc_string;
use crate::fault::ParseFault;
use crate::line_tokens::copied;
use crate::parser::{Phase, Progress};
use crate::rows::row_line;
use crate::token::{IndentedLine, Token, location};
use gk_document::{Sequence, Step};
use gk_line::StepLine;
use std::alloc::{AllocError, Global};
use std::mem::replace;

/// A block with the steps below it, of which there is a last one.
#[derive(Drop)]
pub(crate) struct BlockWithSteps {
    pub flat_block: FlatBlock,
    pub before: Sequence<Step>,
    pub last: Step,
}

/// The step that the line is.
fn step_at(
    alloc: Global,
    node: u64,
    at: IndentedLine<'_>,
    line: StepLine<'_>,
) -> Result<Step, AllocError>
    ensures { IfOk result (λ s. s ≡ record {
      node = node;
      location = grammar.at at.entry.line.number (at.entry.indent + 1);
      keyword = text_of line.entry.keyword.now;
      kind = line.entry.kind;
      text = text_of line.entry.text.now;
      argument = None;
    }) }
{
    Ok(Step {
        node,
        location: location(at),
        keyword: copied(alloc, line.keyword)?,
        kind: line.kind,
        text: copied(alloc, line.text)?,
        argument: None,
    })
}

/// The first step of a block.
pub(crate) fn first_step<'a>(
    alloc: Global,
    progress: &mut Progress,
    flat_block: Box<FlatBlock>,
    at: IndentedLine<'a>,
    line: StepLine<'a>,
) -> Result<Phase<'a>, ParseFault>
    requires room { progress.old.nodes < 2 ^ 63 }
    ensures { Gives (state_in progress.new) result
        (machine.after_description (state_so_far progress.old) (flat_block_of flat_block.value)
        (read.line at.entry.line.number (line_chars at.entry.line) at.entry.indent
        (read.step_token (step_text line.entry)))) }
{
    let last = step_at(alloc, progress.nodes, at, line)?;
    progress.nodes += 1;
    let stepped = BlockWithSteps {
        flat_block: Box::into_inner(flat_block),
        before: Sequence::new(alloc),
        last,
    };
    Ok(Phase::AfterStep(Box::new(alloc, stepped)?))
}

/// A line after steps.
pub(crate) fn after_step<'a>(
    alloc: Global,
    progress: &mut Progress,
    stepped: Box<BlockWithSteps>,
    at: IndentedLine<'a>,
    token: Token<'a>,
) -> Result<Phase<'a>, ParseFault>
    requires room { progress.old.nodes < 2 ^ 63 }
    ensures { Gives (state_in progress.new) result
        (machine.after_step (state_so_far progress.old)
        (flat_block_of stepped.value.flat_block) stepped.value.before stepped.value.last
        (line_at at.entry token.entry)) }
{
    match token {
        Token::Step(line) => step_line(alloc, progress, stepped, at, line),
        Token::Row(cells) => row_line(alloc, progress, stepped, at, cells),
        Token::Fenced(line) => open_doc_string(alloc, stepped, at, line),
        Token::Blank => Ok(Phase::AfterStep(stepped)),
        Token::Comment | Token::Language(_) => {
            keep_comment_and_stay(alloc, progress, Phase::AfterStep(stepped), at)
        }
        token => close_stepped_block(alloc, progress, stepped, at, token),
    }
}

/// A step line after steps.
fn step_line<'a>(
    alloc: Global,
    progress: &mut Progress,
    mut stepped: Box<BlockWithSteps>,
    at: IndentedLine<'a>,
    line: StepLine<'a>,
) -> Result<Phase<'a>, ParseFault>
    requires room { progress.old.nodes < 2 ^ 63 }
    ensures { Gives (state_in progress.new) result
        (machine.after_step (state_so_far progress.old)
        (flat_block_of stepped.value.flat_block) stepped.value.before stepped.value.last
        (read.line at.entry.line.number (line_chars at.entry.line) at.entry.indent
        (read.step_token (step_text line.entry)))) }
{
    let step = step_at(alloc, progress.nodes, at, line)?;
    let last = replace(&mut stepped.last, step);
    stepped.before.push(last)?;
    progress.nodes += 1;
    Ok(Phase::AfterStep(stepped))
}

/// The steps of a block, in no more memory than they take.
fn all_steps(before: Sequence<Step>, last: Step) -> Result<Sequence<Step>, AllocError>
    ensures { IfOk result (λ steps. steps ≡ before ++ last ∷ []) }
{
    let mut steps = before.into_vec();
    steps.push(last)?;
    steps.shrink_to_fit();
    Ok(Sequence::from(steps))
}

/// The block with its steps below it, in no more memory than they take.
pub(crate) fn with_steps(stepped: Box<BlockWithSteps>) -> Result<FlatBlock, AllocError>
    ensures { IfOk result (λ c. flat_block_of c
        ≡ machine.with_steps (flat_block_of stepped.value.flat_block)
        (stepped.value.before ++ stepped.value.last ∷ [])) }
{
    let BlockWithSteps {
        mut flat_block,
        before,
        last,
    } = Box::into_inner(stepped);
    flat_block.body = Body::Steps(all_steps(before, last)?);
    Ok(flat_block)
}

/// A line after a whole block with steps, which isn't part of it.
fn close_stepped_block<'a>(
    alloc: Global,
    progress: &mut Progress,
    stepped: Box<BlockWithSteps>,
    at: IndentedLine<'a>,
    token: Token<'a>,
) -> Result<Phase<'a>, ParseFault>
    requires room { progress.old.nodes < 2 ^ 63 }
    ensures { Gives (state_in progress.new) result (machine.close_block (state_so_far progress.old)
        (machine.with_steps (flat_block_of stepped.value.flat_block)
        (stepped.value.before ++ stepped.value.last ∷ [])) (line_at at.entry token.entry)) }
{
    let flat_block = with_steps(stepped)?;
    close_block(alloc, progress, flat_block, at, token)
}
