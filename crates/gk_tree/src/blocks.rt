//! The blocks of a feature file, one after another: where each opens and where it is closed.
ghost use Rattle.std.specs.Prelude.{◌≡◌, IfOk, ◌≤◌, ◌<◌, ◌+◌, ◌^◌, Ok, [], if◌then◌else◌, Err};
ghost use Rattle.gk_line.specs.declared.tokens.Block.TheVariants as block;
ghost use Rattle.gk_tree.specs.Views.{flat_block_of, body_of, state_in, Gives, text_of, state_so_far, line_at};
ghost use Rattle.gk_grammar.specs.Machine as machine;
ghost use Rattle.gk_grammar.specs.declared.fault.FaultKind.TheVariants as kind;

use crate::fault::{ParseFault, spaced_tag_fault, unexpected_line_fault};
use crate::line_tokens::copied;
use crate::parser::{Phase, Progress};
use crate::tags::add_tags;
use crate::token::{IndentedLine, Token, location};
use gk_document::{Location, Row, Sequence, Step, Tag, Text};
use gk_line::{Block, Title};
use std::alloc::{AllocError, Global};

/// What is below the description of a block.
#[derive(Drop)]
pub(crate) enum Body {
    Bare,
    Steps(Sequence<Step>),
    Rows(Sequence<Row>),
}

/// A block without the blocks below it. A feature has the number of the next node.
#[derive(Drop)]
pub(crate) struct FlatBlock {
    pub block: Block,
    pub node: u64,
    pub location: Location,
    pub tags: Sequence<Tag>,
    pub keyword: Text,
    pub name: Text,
    pub description: Text,
    pub body: Body,
}

/// What a block has below its description at first.
fn empty_body(alloc: Global, block: Block) -> Body
    ensures { body_of result ≡ machine.empty_body block }
{
    match block {
        Block::Feature | Block::Rule => Body::Bare,
        Block::Background | Block::Scenario => Body::Steps(Sequence::new(alloc)),
        Block::Examples => Body::Rows(Sequence::new(alloc)),
    }
}

/// Whether the block may come after the other one, or be the first.
pub(crate) fn follows(before: Option<Block>, block: Block) -> bool
    ensures { result ≡ machine.follows before block }
{
    let Some(before) = before else {
        return block == Block::Feature;
    };
    match block {
        Block::Feature => false,
        Block::Rule | Block::Scenario => true,
        Block::Background => before == Block::Feature || before == Block::Rule,
        Block::Examples => before == Block::Scenario || before == Block::Examples,
    }
}

/// A title line after a block or before all, without tags.
pub(crate) fn title_line<'a>(
    alloc: Global,
    progress: &mut Progress,
    before: Option<Block>,
    next: Block,
    at: IndentedLine<'a>,
    title: Title<'a>,
) -> Result<Phase<'a>, ParseFault>
    requires room { progress.old.nodes < 2 ^ 63 }
    ensures { Gives (state_in progress.new) result (if machine.follows before next
        then Ok (machine.open_block (state_so_far progress.old) next [] at.entry.line.number
        at.entry.indent (text_of title.entry.keyword.now) (text_of title.entry.name.now))
        else Err (record {
          kind = kind.Unexpected;
          line = at.entry.line.number;
          column = at.entry.indent + 1;
        })) }
{
    if follows(before, next) {
        open_block(alloc, progress, next, Sequence::new(alloc), at, title)
    } else {
        Err(unexpected_line_fault(at))
    }
}

/// A title line after these tags.
pub(crate) fn open_block<'a>(
    alloc: Global,
    progress: &mut Progress,
    block: Block,
    tags: Sequence<Tag>,
    at: IndentedLine<'a>,
    title: Title<'a>,
) -> Result<Phase<'a>, ParseFault>
    requires room { progress.old.nodes < 2 ^ 63 }
    ensures { Gives (state_in progress.new) result
        (Ok (machine.open_block (state_so_far progress.old) block tags
        at.entry.line.number at.entry.indent
        (text_of title.entry.keyword.now) (text_of title.entry.name.now))) }
{
    let flat_block = new_block(alloc, progress.nodes, block, tags, at, title)?;
    progress.nodes += title_node_count(block);
    Ok(Phase::InDescription(Box::new(alloc, flat_block)?, Vec::new(alloc)))
}

/// The block of a title line, without its description and what is below it.
fn new_block(
    alloc: Global,
    node: u64,
    block: Block,
    tags: Sequence<Tag>,
    at: IndentedLine<'_>,
    title: Title<'_>,
) -> Result<FlatBlock, AllocError>
    ensures { IfOk result (λ c. flat_block_of c
        ≡ machine.new_block node block tags at.entry.line.number at.entry.indent
        (text_of title.entry.keyword.now) (text_of title.entry.name.now)) }
{
    let keyword = copied(alloc, title.keyword)?;
    let name = copied(alloc, title.name)?;
    Ok(FlatBlock {
        block,
        node,
        location: location(at),
        tags,
        keyword,
        name,
        description: Text::from(String::new(alloc)),
        body: empty_body(alloc, block),
    })
}

/// How many nodes the title line of a block is.
fn title_node_count(block: Block) -> u64
    ensures value { result ≡ machine.title_node_count block }
    ensures bound { result ≤ 1 }
{
    match block {
        Block::Feature => 0,
        Block::Rule | Block::Background | Block::Scenario | Block::Examples => 1,
    }
}

/// A line after a whole block, which isn't part of it.
pub(crate) fn close_block<'a>(
    alloc: Global,
    progress: &mut Progress,
    flat_block: FlatBlock,
    at: IndentedLine<'a>,
    token: Token<'a>,
) -> Result<Phase<'a>, ParseFault>
    requires room { progress.old.nodes < 2 ^ 63 }
    ensures { Gives (state_in progress.new) result
        (machine.close_block (state_so_far progress.old) (flat_block_of flat_block)
        (line_at at.entry token.entry)) }
{
    let block = flat_block.block;
    progress.flat_blocks.push(flat_block)?;
    after_block(alloc, progress, block, at, token)
}

/// A line after a whole block, which is added.
fn after_block<'a>(
    alloc: Global,
    progress: &mut Progress,
    block: Block,
    at: IndentedLine<'a>,
    token: Token<'a>,
) -> Result<Phase<'a>, ParseFault>
    requires room { progress.old.nodes < 2 ^ 63 }
    ensures { (s : machine.State) (c : machine.FlatBlock)
        → state_so_far progress.old ≡ machine.add_block s c → block ≡ c.block
        → Gives (state_in progress.new) result
        (machine.close_block s c (line_at at.entry token.entry)) }
{
    match token {
        Token::Tags(line) => {
            add_tags(alloc, progress, Some(block), Sequence::new(alloc), at, line)
        }
        Token::SpacedTag(column) => Err(spaced_tag_fault(at, column)),
        Token::Title(next, title) => title_line(alloc, progress, Some(block), next, at, title),
        _ => Err(unexpected_line_fault(at)),
    }
}
