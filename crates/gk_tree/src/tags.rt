//! Tag lines, and what may come after them.
ghost use Rattle.std.specs.Prelude.{◌≡◌, map, IfOk, ◌<◌, ◌+◌, ◌^◌, Ok, ◌++◌, length, codes};
ghost use Rattle.gk_line.specs.declared.tokens.Block.TheVariants as block;
ghost use Rattle.gk_tree.specs.Views.{state_in, Gives, text_of, state_so_far, word_of, line_at};
ghost use Rattle.gk_line.specs.Views.{line_chars, title_text};
ghost use Rattle.gk_grammar.specs.Machine as machine;
ghost use Rattle.gk_grammar.specs.Token as read;

use crate::blocks::{follows, open_block};
use crate::comments::keep_comment_and_stay;
use crate::fault::{ParseFault, spaced_tag_fault, unexpected_line_fault};
use crate::parser::{Phase, Progress};
use crate::token::{IndentedLine, TagLine, Token};
use gk_document::{Location, Sequence, Tag, Text};
use gk_line::{Block, TagText, Title, tags};
use std::alloc::{AllocError, Global};

/// The name of a tag.
fn tag_name(alloc: Global, word: &str) -> Result<Text, AllocError>
    ensures { IfOk result (λ t. t ≡ codes "@" ++ text_of word.now) }
{
    let mut name = String::with_capacity(alloc, word.len() + 1)?;
    name.push('@')?;
    name.push_str(word)?;
    Ok(Text::from(name))
}

/// The tags with those of a line after them, numbered from `node` on.
fn with_tags(
    alloc: Global,
    tags: Sequence<Tag>,
    node: u64,
    number: u32,
    words: &[TagText<'_>],
) -> Result<Sequence<Tag>, AllocError>
    requires { node + length words.now < 2 ^ 64 }
    ensures { IfOk result (λ all. all ≡ tags ++ machine.tags_from number node
        (map word_of words.now)) }
{
    let mut all = tags;
    let mut next = node;
    for word in words {
        all.push(Tag {
            node: next,
            location: Location {
                line: number,
                column: word.column,
            },
            name: tag_name(alloc, word.word)?,
        })?;
        next += 1;
    }
    Ok(all)
}

/// A tag line after these tags.
pub(crate) fn add_tags<'a>(
    alloc: Global,
    progress: &mut Progress,
    before: Option<Block>,
    tags: Sequence<Tag>,
    at: IndentedLine<'a>,
    line: TagLine<'a>,
) -> Result<Phase<'a>, ParseFault>
    requires room { progress.old.nodes < 2 ^ 63 }
    ensures { Gives (state_in progress.new) result
        (Ok (machine.add_tags (state_so_far progress.old) before tags at.entry.line.number
        (map word_of line.entry.words.items))) }
{
    let tags = with_tags(alloc, tags, progress.nodes, at.line.number, &line.words)?;
    progress.nodes += line.words.len() as u64;
    Ok(Phase::AfterTags(before, tags))
}

/// A line after tag lines.
pub(crate) fn after_tags<'a>(
    alloc: Global,
    progress: &mut Progress,
    before: Option<Block>,
    tags: Sequence<Tag>,
    at: IndentedLine<'a>,
    token: Token<'a>,
) -> Result<Phase<'a>, ParseFault>
    requires room { progress.old.nodes < 2 ^ 63 }
    ensures { Gives (state_in progress.new) result
        (machine.after_tags (state_so_far progress.old) before tags
        (line_at at.entry token.entry)) }
{
    match token {
        Token::Blank => Ok(Phase::AfterTags(before, tags)),
        Token::Comment | Token::Language(_) => {
            keep_comment_and_stay(alloc, progress, Phase::AfterTags(before, tags), at)
        }
        Token::Tags(line) => add_tags(alloc, progress, before, tags, at, line),
        Token::SpacedTag(column) => Err(spaced_tag_fault(at, column)),
        Token::Title(block, title) => {
            title_after_tags(alloc, progress, before, block, tags, at, title)
        }
        _ => Err(unexpected_line_fault(at)),
    }
}

/// A title line after tag lines.
fn title_after_tags<'a>(
    alloc: Global,
    progress: &mut Progress,
    before: Option<Block>,
    block: Block,
    tags: Sequence<Tag>,
    at: IndentedLine<'a>,
    title: Title<'a>,
) -> Result<Phase<'a>, ParseFault>
    requires room { progress.old.nodes < 2 ^ 63 }
    ensures { Gives (state_in progress.new) result
        (machine.after_tags (state_so_far progress.old) before tags
        (read.line at.entry.line.number (line_chars at.entry.line) at.entry.indent
        (read.title_token block (title_text title.entry)))) }
{
    if follows(before, block) && block != Block::Background {
        open_block(alloc, progress, block, tags, at, title)
    } else {
        Err(unexpected_line_fault(at))
    }
}
