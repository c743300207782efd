//! The parser: one pass over the lines of a text, phase by phase.
ghost use Rattle.std.specs.Prelude.{◌≡◌, ◌≢◌, ◌≤◌, ◌<◌, ◌+◌, ◌^◌, ◌↔◌, None, Err, length, IfOk, IfErr, IfSome};
ghost use Rattle.std.specs.Str.{chars};
ghost use Rattle.gk_line.specs.declared.limit.TheConstants.{FEATURE_LIMIT};
ghost use Rattle.gk_line.specs.Lines.{lines_of};
ghost use Rattle.gk_line.specs.Views.{numbered_line};
ghost use Rattle.gk_grammar.specs.declared.fault.FaultKind.TheVariants as kind;
ghost use Rattle.gk_grammar.specs.Documents.{lines_read, IsDocumentOf, HasFault, IsTooLong, max_bytes, max_lines};
ghost use Rattle.gk_grammar.specs.Token.{line_of};
ghost use Rattle.gk_grammar.specs.Machine as machine;
ghost use Rattle.gk_tree.specs.Views.{line_at, state_of, state_in, Gives, out_of_memory, too_long, text_of, state_so_far};
ghost use Rattle.gk_tree.specs.Views.{phase_of, head_of};
ghost use Rattle.gk_tree.specs.Read.{IsRead};
ghost use Rattle.gk_tree.specs.Ends.{document_at, Answers, last_blocks};
ghost use Rattle.gk_tree.specs.EndViews.{last_as_list};
ghost use Rattle.gk_grammar.specs.Grammar.{english};

use crate::assemble::build_feature;
use crate::blocks::{FlatBlock, title_line};
use crate::comments::keep_comment_and_stay;
use crate::description::{in_description, with_description};
use crate::doc_string::{OpenDocString, in_doc_string};
use crate::fault::{ParseFault, early_end_fault, fault, spaced_tag_fault, unexpected_line_fault};
use crate::line_tokens::{line_head, line_token};
use crate::rows::{after_rows, with_rows};
use crate::steps::{BlockWithSteps, after_step, with_steps};
use crate::tags::{add_tags, after_tags};
use crate::token::{Head, IndentedLine, Token, location};
use gk_document::{Comment, Document, Row, Sequence, Tag};
use gk_grammar::FaultKind;
use gk_line::{Block, FEATURE_LIMIT, Line, lines};
use memchr::memchr;
use std::alloc::Global;

/// The most lines of a text.
const MAX_LINES: u32 = 1_000_000;

/// The document of a feature file.
///
/// # Errors
/// The fault of a text that is no feature file. A text of more than 16,777,216 bytes or 1,000,000 lines is too long,
/// whatever else is wrong with it, and no memory is taken for it.
pub fn parse(alloc: Global, text: &str) -> Result<Document, ParseFault>
    ensures ok { IfOk result (λ d. IsDocumentOf text.now d) }
    ensures fault { IfErr result (λ f. f.kind ≢ kind.Memory → f.kind ≢ kind.TooLong
        → HasFault text.now f.kind f.line f.column) }
    ensures too_long { (result ≡ Err too_long) ↔ IsTooLong text.now }
    ensures at_limits { IfErr result (λ f. f.kind ≡ kind.TooLong → f ≡ too_long) }
    ensures memory { IfErr result (λ f. f.kind ≡ kind.Memory → f ≡ out_of_memory) }
{
    let Some(count) = line_count(text) else {
        return Err(ParseFault {
            kind: FaultKind::TooLong,
            line: 0,
            column: 0,
        });
    };
    within_limits(alloc, text, count + 1)
}

/// How many lines the text has, if it isn't too long.
#[tactic(auto, unfolding(gk_grammar::specs::Documents::lines_read))]
fn line_count(text: &str) -> Option<u32>
    ensures some { IfSome result (λ count. (count ≡ length (lines_read text.now))
        × (count ≤ max_lines) × (length text.now ≤ max_bytes)) }
    ensures none { (result ≡ None) ↔ IsTooLong text.now }
{
    if text.len() > FEATURE_LIMIT {
        return None;
    }
    let count = count_lines(text);
    if count > MAX_LINES {
        return None;
    }
    Some(count)
}

/// How many lines a text has.
fn count_lines(text: &str) -> u32
    requires { length text.now ≤ FEATURE_LIMIT }
    ensures { result ≡ length (lines_of (chars text.now)) }
{
    let mut rest = text.strip_prefix('\u{FEFF}').unwrap_or(text);
    let mut count = 0;
    while let Some(end) = memchr(b'\n', rest.as_bytes()) {
        count += 1;
        rest = &rest[end + 1..];
    }
    if rest.is_empty() { count } else { count + 1 }
}

/// The document of a text within the limits, whose last line is before `end_line`.
fn within_limits(alloc: Global, text: &str, end_line: u32) -> Result<Document, ParseFault>
    requires short { length text.now ≤ max_bytes }
    requires few { length (lines_read text.now) ≤ max_lines }
    requires end_line { end_line ≡ length (lines_read text.now) + 1 }
    ensures { Answers text.now result }
{
    let parser = read_lines(alloc, text)?;
    finish(alloc, parser, end_line)
}

/// Reads all lines.
#[tactic(auto, unfolding(gk_grammar::specs::Documents::lines_read))]
fn read_lines<'a>(alloc: Global, text: &'a str) -> Result<Parser<'a>, ParseFault>
    requires short { length text.now ≤ max_bytes }
    requires few { length (lines_read text.now) ≤ max_lines }
    ensures { Gives state_of result (machine.run machine.initial_state (lines_read text.now)) }
{
    let mut progress = Progress {
        comments: Sequence::new(alloc),
        nodes: 0,
        flat_blocks: Sequence::new(alloc),
    };
    let mut phase = Phase::Start;
    for line in lines(text) {
        phase = read_line(alloc, &mut progress, phase, line)?;
    }
    Ok(Parser { progress, phase })
}

/// Reads one line, and gives the phase after it. Inside a doc string it matters only whether the line is a fence.
fn read_line<'a>(
    alloc: Global,
    progress: &mut Progress,
    phase: Phase<'a>,
    line: Line<'a>,
) -> Result<Phase<'a>, ParseFault>
    requires short { length line.text.now ≤ FEATURE_LIMIT }
    requires room { progress.old.nodes < 2 ^ 63 }
    ensures { Gives (state_in progress.new) result
        (machine.next (state_in progress.old phase.entry) (line_of (numbered_line line.entry))) }
{
    let Head { indent, first } = line_head(line.text);
    let at = IndentedLine { line, indent };
    match phase {
        Phase::InDocString(stepped, opening, lines) => {
            in_doc_string(alloc, stepped, opening, lines, at)
        }
        phase => next_phase(alloc, progress, phase, at, line_token(alloc, line, first)?),
    }
}

/// One line, read as this token.
fn next_phase<'a>(
    alloc: Global,
    progress: &mut Progress,
    phase: Phase<'a>,
    at: IndentedLine<'a>,
    token: Token<'a>,
) -> Result<Phase<'a>, ParseFault>
    requires room { progress.old.nodes < 2 ^ 63 }
    requires read { IsRead at token }
    ensures { Gives (state_in progress.new) result
        (machine.next (state_in progress.old phase.entry) (line_at at.entry token.entry)) }
{
    match phase {
        Phase::Start => at_start(alloc, progress, at, token),
        Phase::AfterLanguage => after_language(alloc, progress, at, token),
        Phase::AfterTags(before, tags) => after_tags(alloc, progress, before, tags, at, token),
        Phase::InDescription(flat_block, lines) => in_description(
            alloc, progress, flat_block, lines, at, token,
        ),
        Phase::AfterStep(stepped) => after_step(alloc, progress, stepped, at, token),
        Phase::InDocString(stepped, opening, lines) => {
            in_doc_string(alloc, stepped, opening, lines, at)
        }
        Phase::InExamplesTable(flat_block, rows) => after_rows(
            alloc, progress, flat_block, rows, at, token,
        ),
    }
}

/// The document, where the text may end there.
fn finish(alloc: Global, parser: Parser<'_>, end_line: u32) -> Result<Document, ParseFault>
    ensures { Gives (λ d. d) result (document_at end_line (state_of parser.entry)) }
{
    let Parser { progress, phase } = parser;
    let Progress {
        comments,
        nodes,
        mut flat_blocks,
    } = progress;
    if let Some(flat_block) = last_block(alloc, phase, end_line)? {
        flat_blocks.push(flat_block)?;
    }
    Ok(Document {
        feature: build_feature(alloc, flat_blocks)?,
        comments,
        nodes,
    })
}

/// What was made of the lines so far.
#[derive(Drop)]
pub(crate) struct Progress {
    pub comments: Sequence<Comment>,
    pub nodes: u64,
    pub flat_blocks: Sequence<FlatBlock>,
}

/// Where the pass is.
#[derive(Drop)]
pub(crate) enum Phase<'a> {
    /// Before the first tag line or feature line; no language line yet.
    Start,
    /// After the language line, before the first tag line or feature line.
    AfterLanguage,
    /// After tag lines, and the block before them.
    AfterTags(Option<Block>, Sequence<Tag>),
    /// In the description of a block, with its lines so far.
    InDescription(Box<FlatBlock>, Vec<IndentedLine<'a>>),
    /// After steps.
    AfterStep(Box<BlockWithSteps>),
    /// In the doc string of the last step, with its lines so far.
    InDocString(Box<BlockWithSteps>, OpenDocString<'a>, Vec<IndentedLine<'a>>),
    /// After rows of an examples table.
    InExamplesTable(Box<FlatBlock>, Sequence<Row>),
}

/// Between two lines: what was made of those before, and where the pass is.
#[derive(Drop)]
pub(crate) struct Parser<'a> {
    pub progress: Progress,
    pub phase: Phase<'a>,
}

/// Before the first block, after the language line or not.
fn head_phase<'a>(has_language: bool) -> Phase<'a>
    ensures { phase_of result ≡ head_of has_language }
{
    if has_language {
        Phase::AfterLanguage
    } else {
        Phase::Start
    }
}

/// A line before the first tag line or feature line.
fn before_first_block<'a>(
    alloc: Global,
    progress: &mut Progress,
    has_language: bool,
    at: IndentedLine<'a>,
    token: Token<'a>,
) -> Result<Phase<'a>, ParseFault>
    requires room { progress.old.nodes < 2 ^ 63 }
    ensures { Gives (state_in progress.new) result
        (machine.before_first_block (state_so_far progress.old) (head_of has_language)
        (line_at at.entry token.entry)) }
{
    match token {
        Token::Blank => Ok(head_phase(has_language)),
        Token::Comment => keep_comment_and_stay(alloc, progress, head_phase(has_language), at),
        Token::Tags(line) => add_tags(alloc, progress, None, Sequence::new(alloc), at, line),
        Token::SpacedTag(column) => Err(spaced_tag_fault(at, column)),
        Token::Title(block, title) => title_line(alloc, progress, None, block, at, title),
        _ => Err(unexpected_line_fault(at)),
    }
}

/// A line before the first tag line, feature line or language line.
fn at_start<'a>(
    alloc: Global,
    progress: &mut Progress,
    at: IndentedLine<'a>,
    token: Token<'a>,
) -> Result<Phase<'a>, ParseFault>
    requires room { progress.old.nodes < 2 ^ 63 }
    ensures { Gives (state_in progress.new) result
        (machine.at_start (state_so_far progress.old) (line_at at.entry token.entry)) }
{
    if let Token::Language(word) = token {
        if !is_english(word) {
            return Err(fault(FaultKind::UnsupportedLanguage, location(at)));
        }
        return Ok(Phase::AfterLanguage);
    }
    before_first_block(alloc, progress, false, at, token)
}

/// A line after the language line, before the first tag line or feature line.
fn after_language<'a>(
    alloc: Global,
    progress: &mut Progress,
    at: IndentedLine<'a>,
    token: Token<'a>,
) -> Result<Phase<'a>, ParseFault>
    requires room { progress.old.nodes < 2 ^ 63 }
    ensures { Gives (state_in progress.new) result
        (machine.after_language (state_so_far progress.old) (line_at at.entry token.entry)) }
{
    if let Token::Language(_) = token {
        return keep_comment_and_stay(alloc, progress, Phase::AfterLanguage, at);
    }
    before_first_block(alloc, progress, true, at, token)
}

/// The last block, where the text may end at this phase. Elsewhere the fault is at the line after the last one.
fn last_block(
    alloc: Global,
    phase: Phase<'_>,
    end_line: u32,
) -> Result<Option<FlatBlock>, ParseFault>
    ensures { Gives last_as_list result
        (last_blocks end_line (machine.blocks_at_end (phase_of phase.entry))) }
{
    match phase {
        Phase::Start => Ok(None),
        Phase::InDescription(flat_block, lines) => {
            let flat_block = with_description(alloc, flat_block, lines)?;
            Ok(Some(Box::into_inner(flat_block)))
        }
        Phase::AfterStep(stepped) => Ok(Some(with_steps(stepped)?)),
        Phase::InExamplesTable(flat_block, rows) => {
            Ok(Some(with_rows(Box::into_inner(flat_block), rows)))
        }
        _ => Err(early_end_fault(end_line)),
    }
}

/// Whether the word of a language line is `en`.
fn is_english(word: &str) -> bool
    ensures { result ≡ machine.same_text (text_of word.now) english }
{
    word == "en"
}
