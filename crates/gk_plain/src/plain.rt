//! The plain recogniser: the kinds of lines, which lines are a text of the grammar, and where the first fault is.
ghost use Rattle.std.specs.Prelude.{◌≡◌, ◌≤◌, ◌+◌, ◌↔◌, ◌⊎◌, ◌++◌, ◌∷◌, [], List, map, length, IfOk, IfSome, IsTrue, None, codes, ◌<◌, ℕ};
ghost use Rattle.gk_grammar.specs.Token.{Line as SomeLine};
ghost use Rattle.gk_grammar.specs.Tree.{Document};
ghost use Rattle.gk_grammar.specs.Place.{IsText, IsFront, IsFirstBad, IsOpenAtEnd, IsFaultWithin};
ghost use Rattle.gk_grammar.specs.Documents.{IsDocumentOf, max_bytes, lines_read, HasFault};
ghost use Rattle.gk_plain.specs.Plain.{kind_of, Is, kind_of_token, rule_of};
ghost use Rattle.std.specs.Option.{option_map};
ghost use Rattle.std.specs.Str.{chars, encode_utf8_all};
ghost use Rattle.gk_line.specs.Cells.{cells_of};
ghost use Rattle.gk_line.specs.Tags.{spaced_piece, tags_of};
ghost use Rattle.gk_line.specs.Texts.{first_some};
ghost use Rattle.gk_line.specs.Tokens.{begins_by, language_of, title_of, blocks};
ghost use Rattle.gk_line.specs.Views.{line_chars, numbered_line};
ghost use Rattle.gk_grammar.specs.Grammar.{english};
ghost use Rattle.gk_grammar.specs.Machine.{same_text};
ghost use Rattle.gk_grammar.specs.Token as read;
ghost use Rattle.gk_plain.specs.declared.plain.Kind.TheVariants as kind;
ghost use Rattle.std.specs.List.{list_all};
ghost use Rattle.gk_plain.specs.PlainLines as spec;
ghost use Rattle.gk_plain.specs.PlainFaults as fault_spec;
ghost use Rattle.gk_plain.specs.PlainFaults.{first_column};

use self::Production::{Both, Either, EqualRows, Lines, Many, Maybe};
use gk_document::Fence;
use gk_grammar::FaultKind;
use gk_line::{
    Block, Line, TagFault, cells, fence, indent, is_blank, is_comment, is_row, is_tags, language,
    lines, step, tags, title,
};
use std::alloc::{AllocError, Global};

/// Whether the lines are those of the part.
fn belongs(part: Part, lines: &[Kind]) -> bool
    ensures { (ls : List SomeLine) → map kind_of ls ≡ lines.now → IsTrue result ↔ Is part ls }
{
    let (first, second, least) = match rule_of(part) {
        Production::Lines => return are_lines(part, lines),
        Production::Either(one, other) => return belongs(one, lines) || belongs(other, lines),
        Production::Maybe(one) => return lines.is_empty() || belongs(one, lines),
        Production::EqualRows => {
            return match row_count(lines) {
                Some(count) => belongs(Part::Rows(count), lines),
                None => false,
            };
        }
        Production::Both(first, second) => (first, second, 0),
        Production::Many(one) => {
            if lines.is_empty() {
                return true;
            }
            (one, part, 1)
        }
    };
    for cut in least..=lines.len() {
        let (front, back) = lines.split_at(cut);
        if belongs(first, front) && belongs(second, back) {
            return true;
        }
    }
    false
}

/// Whether the lines are a text of the grammar.
fn is_feature_file(lines: &[Kind]) -> bool
    ensures { (ls : List SomeLine) → map kind_of ls ≡ lines.now → IsTrue result ↔ IsText ls }
{
    belongs(Part::PlainGap, lines) || belongs(Part::FeatureText, lines)
}

/// Whether the lines, and then this one, are a text of the grammar.
fn completes(alloc: Global, lines: &[Kind], last: Kind) -> Result<bool, AllocError>
    ensures { IfOk result (λ answer. (ls : List SomeLine)
        → map kind_of ls ≡ lines.now ++ last ∷ [] → IsTrue answer ↔ IsText ls) }
{
    let mut all = lines.to_vec(alloc)?;
    all.push(last)?;
    Ok(is_feature_file(&all))
}

/// Whether the lines are the front of a text: by themselves, or with one of four lines after them.
fn is_front(alloc: Global, lines: &[Kind]) -> Result<bool, AllocError>
    ensures { IfOk result (λ answer. (ls : List SomeLine) → map kind_of ls ≡ lines.now
        → IsTrue answer ↔ IsFront ls) }
{
    if is_feature_file(lines) {
        return Ok(true);
    }
    if completes(alloc, lines, Kind::Title(Block::Feature))? {
        return Ok(true);
    }
    if completes(alloc, lines, Kind::Title(Block::Scenario))? {
        return Ok(true);
    }
    if completes(alloc, lines, Kind::Fenced(Fence::Quotes))? {
        return Ok(true);
    }
    Ok(completes(alloc, lines, Kind::Fenced(Fence::Backticks))?)
}

/// The number of the first line up to which the lines are no front of a text, or of the line after the last one where they
/// are a front and no text, or none where they are a text.
fn first_bad(alloc: Global, lines: &[Kind]) -> Result<Option<usize>, AllocError>
    ensures none { IfOk result (λ n. n ≡ None → (ls : List SomeLine)
        → map kind_of ls ≡ lines.now → IsText ls) }
    ensures some { IfOk result (λ n. IfSome n (λ n. (ls : List SomeLine)
        → map kind_of ls ≡ lines.now → IsFirstBad ls n ⊎ IsOpenAtEnd ls n)) }
    ensures bound { IfOk result (λ n. IfSome n (λ n. n ≤ length lines.now + 1)) }
{
    for before in 0..lines.len() {
        let (front, _) = lines.split_at(before + 1);
        if !is_front(alloc, front)? {
            return Ok(Some(before + 1));
        }
    }
    if is_feature_file(lines) {
        return Ok(None);
    }
    Ok(Some(lines.len() + 1))
}

/// Whether some document belongs to the text by the grammar. It takes all cuts of the lines, and is slow.
///
/// # Errors
/// There is no memory for the kinds of the lines.
pub fn has_document(alloc: Global, text: &str) -> Result<bool, AllocError>
    requires short { length text.now ≤ max_bytes }
    ensures { IfOk result
        (λ answer. IsTrue answer ↔ ((d : Document) × IsDocumentOf text.now d)) }
{
    let kinds = kinds(alloc, text)?;
    Ok(is_feature_file(&kinds))
}

/// What a line is.
#[derive(Clone, Copy)]
pub(crate) enum Kind {
    Blank,
    Comment,
    /// A language line that names English.
    English,
    OtherLanguage,
    Tags,
    /// A tag line with white space in the tag at this column.
    SpacedTag(u32),
    Title(Block),
    Step,
    /// A row of so many cells.
    Row(usize),
    Fenced(Fence),
    Other,
}

/// Whether the word of a language line is `en`.
fn is_english(word: &str) -> bool
    ensures { result ≡ same_text (encode_utf8_all (chars word.now)) english }
{
    word == "en"
}

/// A comment, or a language line.
fn comment_kind(line: Line<'_>) -> Kind
    ensures { result ≡ kind_of_token (read.comment_token (language_of (line_chars line.entry))) }
{
    match language(line) {
        Some(word) => {
            if is_english(word) {
                Kind::English
            } else {
                Kind::OtherLanguage
            }
        }
        None => Kind::Comment,
    }
}

/// The kind of a tag line.
fn tag_kind(alloc: Global, line: Line<'_>) -> Result<Kind, AllocError>
    requires tags { IsTrue (begins_by (codes "@") (line_chars line)) }
    requires short { length line.text.now ≤ max_bytes }
    ensures { IfOk result (λ k. k ≡ kind_of_token (read.Tags (read.tag_list
        (spaced_piece (line_chars line.entry)) (tags_of (line_chars line.entry))))) }
{
    match tags(alloc, line) {
        Ok(_) => Ok(Kind::Tags),
        Err(TagFault::TagSpace(column)) => Ok(Kind::SpacedTag(column)),
        Err(TagFault::Memory) => Err(AllocError),
    }
}

/// The kind of a row.
fn row_kind(alloc: Global, line: Line<'_>) -> Result<Kind, AllocError>
    requires row { IsTrue (begins_by (codes "|") (line_chars line)) }
    requires short { length line.text.now ≤ max_bytes }
    ensures { IfOk result (λ k.
        k ≡ kind_of_token (read.Row (map read.cell (cells_of (line_chars line.entry))))) }
{
    let cells = cells(alloc, line)?;
    Ok(Kind::Row(cells.len()))
}

/// The block whose title line the line is.
#[tactic(auto, unfolding(gk_line::specs::Texts::first_some))]
fn titled(line: Line<'_>) -> Option<Block>
    requires { length line.text.now ≤ max_bytes }
    ensures { option_map kind.Title result ≡ option_map kind_of_token (first_some
        (λ b. option_map (read.title_token b) (title_of b (line_chars line.entry))) blocks) }
{
    if title(line, Block::Feature).is_some() {
        return Some(Block::Feature);
    }
    if title(line, Block::Rule).is_some() {
        return Some(Block::Rule);
    }
    if title(line, Block::Background).is_some() {
        return Some(Block::Background);
    }
    if title(line, Block::Scenario).is_some() {
        return Some(Block::Scenario);
    }
    title(line, Block::Examples)?;
    Some(Block::Examples)
}

/// A line that begins with a keyword or a fence, or any other one.
fn word_kind(line: Line<'_>) -> Kind
    requires { length line.text.now ≤ max_bytes }
    ensures { result
        ≡ kind_of_token (read.token_or_other (read.word_token (line_chars line.entry))) }
{
    if let Some(block) = titled(line) {
        return Kind::Title(block);
    }
    if step(line).is_some() {
        return Kind::Step;
    }
    match fence(line) {
        Some(fence) => Kind::Fenced(fence.fence),
        None => Kind::Other,
    }
}

#[tactic(auto, unfolding(gk_grammar::specs::Token::token_of))]
/// The kind of the line.
fn kind_of_line(alloc: Global, line: Line<'_>) -> Result<Kind, AllocError>
    requires { length line.text.now ≤ max_bytes }
    ensures { IfOk result (λ k. k ≡ kind_of (read.line_of (numbered_line line.entry))) }
{
    if is_blank(line) {
        return Ok(Kind::Blank);
    }
    if is_comment(line) {
        return Ok(comment_kind(line));
    }
    if is_tags(line) {
        return tag_kind(alloc, line);
    }
    if is_row(line) {
        return row_kind(alloc, line);
    }
    Ok(word_kind(line))
}

/// The kinds of the lines of a text.
#[tactic(auto, unfolding(gk_grammar::specs::Documents::lines_read))]
fn kinds(alloc: Global, text: &str) -> Result<Vec<Kind>, AllocError>
    requires short { length text.now ≤ max_bytes }
    ensures value { IfOk result (λ all. all.items ≡ map kind_of (lines_read text.now)) }
    ensures few { IfOk result (λ all. length all.items ≤ max_bytes + 1) }
{
    let mut all = Vec::new(alloc);
    for line in lines(text) {
        all.push(kind_of_line(alloc, line)?)?;
    }
    Ok(all)
}

/// A part of a text.
#[derive(Clone, Copy)]
pub(crate) enum Part {
    /// Comments and blank lines, no language line among them.
    PlainGap,
    /// A language line that names English. This line and each other one has its gap after it.
    EnglishLine,
    TagLine,
    StepLine,
    /// A row of so many cells.
    Row(usize),
    /// A title line and the description after it.
    Heading(Block),
    DocString,
    Rows(usize),
    Table,
    Argument,
    MaybeArgument,
    Step,
    Steps,
    TagLines,
    MaybeTable,
    UntaggedExamples,
    Examples,
    ExamplesBlocks,
    BelowScenario,
    UntaggedScenario,
    Scenario,
    Scenarios,
    Background,
    MaybeBackground,
    BelowRule,
    UntaggedRule,
    Rule,
    Rules,
    ScenariosAndRules,
    BelowFeature,
    UntaggedFeature,
    Feature,
    SpokenGap,
    Opening,
    FeatureText,
}

/// How the lines of a part are cut.
#[derive(Clone, Copy)]
pub(crate) enum Production {
    /// They aren't: the lines themselves say it.
    Lines,
    /// The one part or the other.
    Either(Part, Part),
    /// No line, or the part.
    Maybe(Part),
    /// The one part, and then the other.
    Both(Part, Part),
    /// The part so many times.
    Many(Part),
    /// Rows, all with the cell count of the first line.
    EqualRows,
}

/// The rule of a part.
fn rule_of(part: Part) -> Production
    ensures { result ≡ rule_of part }
{
    match part {
        Part::PlainGap
        | Part::EnglishLine
        | Part::TagLine
        | Part::StepLine
        | Part::Row(_)
        | Part::Heading(_)
        | Part::DocString => Lines,
        Part::Rows(count) => Many(Part::Row(count)),
        Part::Table => EqualRows,
        Part::Argument => Either(Part::Table, Part::DocString),
        Part::MaybeArgument => Maybe(Part::Argument),
        Part::Step => Both(Part::StepLine, Part::MaybeArgument),
        Part::Steps => Many(Part::Step),
        Part::TagLines => Many(Part::TagLine),
        Part::MaybeTable => Maybe(Part::Table),
        Part::UntaggedExamples => Both(Part::Heading(Block::Examples), Part::MaybeTable),
        Part::Examples => Both(Part::TagLines, Part::UntaggedExamples),
        Part::ExamplesBlocks => Many(Part::Examples),
        Part::BelowScenario => Both(Part::Steps, Part::ExamplesBlocks),
        Part::UntaggedScenario => Both(Part::Heading(Block::Scenario), Part::BelowScenario),
        Part::Scenario => Both(Part::TagLines, Part::UntaggedScenario),
        Part::Scenarios => Many(Part::Scenario),
        Part::Background => Both(Part::Heading(Block::Background), Part::Steps),
        Part::MaybeBackground => Maybe(Part::Background),
        Part::BelowRule => Both(Part::MaybeBackground, Part::Scenarios),
        Part::UntaggedRule => Both(Part::Heading(Block::Rule), Part::BelowRule),
        Part::Rule => Both(Part::TagLines, Part::UntaggedRule),
        Part::Rules => Many(Part::Rule),
        Part::ScenariosAndRules => Both(Part::Scenarios, Part::Rules),
        Part::BelowFeature => Both(Part::MaybeBackground, Part::ScenariosAndRules),
        Part::UntaggedFeature => Both(Part::Heading(Block::Feature), Part::BelowFeature),
        Part::Feature => Both(Part::TagLines, Part::UntaggedFeature),
        Part::SpokenGap => Both(Part::PlainGap, Part::EnglishLine),
        Part::Opening => Either(Part::PlainGap, Part::SpokenGap),
        Part::FeatureText => Both(Part::Opening, Part::Feature),
    }
}

/// Whether the line is a comment or blank.
fn is_gap(kind: Kind) -> bool
    ensures { result ≡ spec.is_gap_kind kind }
{
    match kind {
        Kind::Blank | Kind::Comment | Kind::English | Kind::OtherLanguage => true,
        _ => false,
    }
}

/// Whether the lines are comments and blank lines.
fn are_gap(lines: &[Kind]) -> bool
    ensures { result ≡ list_all spec.is_gap_kind lines.now }
{
    lines.iter().all(|kind| is_gap(*kind))
}

/// Whether a line of the kind is a comment or a blank line, but no language line.
fn is_plain(kind: Kind) -> bool
    ensures { result ≡ spec.is_plain kind }
{
    match kind {
        Kind::Blank | Kind::Comment => true,
        _ => false,
    }
}

/// Whether these are comments and blank lines, without a language line.
fn are_plain(lines: &[Kind]) -> bool
    ensures { result ≡ list_all spec.is_plain lines.now }
{
    lines.iter().all(|kind| is_plain(*kind))
}

/// Whether the line ends a description of the block.
fn stops(block: Block, kind: Kind) -> bool
    ensures { result ≡ spec.kind_stops block kind }
{
    match kind {
        Kind::Tags | Kind::SpacedTag(_) => true,
        Kind::Title(Block::Rule | Block::Scenario) => true,
        Kind::Title(Block::Background) => block == Block::Feature || block == Block::Rule,
        Kind::Title(Block::Examples) => block == Block::Scenario || block == Block::Examples,
        Kind::Step => block == Block::Background || block == Block::Scenario,
        Kind::Row(_) => block == Block::Examples,
        _ => false,
    }
}

/// Whether no line ends a description of the block.
fn are_text(block: Block, lines: &[Kind]) -> bool
    ensures { result ≡ list_all (spec.is_text block) lines.now }
{
    lines.iter().all(|kind| !stops(block, *kind))
}

/// Whether a line of the kind is a title line of the block.
fn is_title(block: Block, kind: Kind) -> bool
    ensures { result ≡ spec.is_title block kind }
{
    match kind {
        Kind::Title(other) => other == block,
        _ => false,
    }
}

/// Whether the lines are a title line of the block and a description.
fn is_heading(block: Block, lines: &[Kind]) -> bool
    ensures { result ≡ spec.is_heading block lines.now }
{
    match lines {
        [] => false,
        [first, rest @ ..] => is_title(block, *first) && are_text(block, rest),
    }
}

/// Whether a part of one line, with the gap after it, begins with the line.
fn begins(part: Part, kind: Kind) -> bool
    ensures { result ≡ spec.begins part kind }
{
    match (part, kind) {
        (Part::EnglishLine, Kind::English)
        | (Part::TagLine, Kind::Tags)
        | (Part::StepLine, Kind::Step) => true,
        (Part::Row(count), Kind::Row(other)) => other == count,
        _ => false,
    }
}

/// Whether the lines are the one line of the part, and the gap after it.
fn is_line(part: Part, lines: &[Kind]) -> bool
    ensures { result ≡ spec.is_line part lines.now }
{
    match lines {
        [] => false,
        [first, rest @ ..] => begins(part, *first) && are_gap(rest),
    }
}

/// Whether a line of the kind begins with the fence.
fn is_fence(fence: Fence, kind: Kind) -> bool
    ensures { result ≡ spec.is_fence_kind fence kind }
{
    match kind {
        Kind::Fenced(other) => other == fence,
        _ => false,
    }
}

/// Whether the lines are the content of a doc string, the line that closes it, and a gap.
fn closes(fence: Fence, lines: &[Kind]) -> bool
    ensures { result ≡ spec.closes fence lines.now }
{
    match lines {
        [] => false,
        [first, rest @ ..] => {
            if is_fence(fence, *first) {
                are_gap(rest)
            } else {
                closes(fence, rest)
            }
        }
    }
}

/// Whether the lines are an opening fence, content and the fence that closes it, and the gap after it.
fn is_doc_string(lines: &[Kind]) -> bool
    ensures { result ≡ spec.is_doc_string lines.now }
{
    match lines {
        [Kind::Fenced(fence), rest @ ..] => closes(*fence, rest),
        _ => false,
    }
}

/// Whether the lines are those of a part that is cut no further.
fn are_lines(part: Part, lines: &[Kind]) -> bool
    ensures { result ≡ spec.are_lines part lines.now }
{
    match part {
        Part::PlainGap => are_plain(lines),
        Part::DocString => is_doc_string(lines),
        Part::Heading(block) => is_heading(block, lines),
        _ => is_line(part, lines),
    }
}

/// How many cells the first line has, if it is a row.
fn row_count(lines: &[Kind]) -> Option<usize>
    ensures { result ≡ spec.row_count lines.now }
{
    match lines {
        [Kind::Row(count), ..] => Some(*count),
        _ => None,
    }
}

/// Why and where a text is no feature file. Lines and columns count from 1, columns in Unicode scalar values.
#[derive(Clone, Copy, Debug, PartialEq, Eq)]
pub struct PlainFault {
    pub kind: FaultKind,
    pub line: u32,
    pub column: u32,
}

/// Whether a line of the kind is a row, a comment or a blank line.
fn is_row_or_gap(kind: Kind) -> bool
    ensures { result ≡ fault_spec.is_row_or_gap_kind kind }
{
    match kind {
        Kind::Row(_) => true,
        _ => is_gap(kind),
    }
}

/// Whether the lines are rows, comments and blank lines alone.
fn are_rows_and_gaps(lines: &[Kind]) -> bool
    ensures { result ≡ list_all fault_spec.is_row_or_gap_kind lines.now }
{
    lines.iter().all(|kind| is_row_or_gap(*kind))
}

/// Whether a line of the kind is a row with another count of cells.
fn is_other_row(count: usize, kind: Kind) -> bool
    ensures { result ≡ fault_spec.is_other_row count kind }
{
    match kind {
        Kind::Row(other) => other != count,
        _ => false,
    }
}

/// Whether a row with another count is among the lines, with nothing but rows, comments and blank lines after it.
fn differs(count: usize, lines: &[Kind]) -> bool
    ensures { result ≡ fault_spec.differs count lines.now }
{
    match lines {
        [] => false,
        [first, rest @ ..] => {
            if is_other_row(count, *first) && are_rows_and_gaps(rest) {
                true
            } else {
                differs(count, rest)
            }
        }
    }
}

/// The kind of the fault at a line of this kind.
fn fault_kind(before: &[Kind], at: Kind) -> FaultKind
    ensures { result ≡ fault_spec.fault_kind before.now at }
{
    match at {
        Kind::SpacedTag(_) => FaultKind::TagSpace,
        Kind::English | Kind::OtherLanguage => FaultKind::UnsupportedLanguage,
        Kind::Row(count) => row_fault(before, count),
        _ => FaultKind::Unexpected,
    }
}

/// The kind of the fault at a row with so many cells.
fn row_fault(before: &[Kind], count: usize) -> FaultKind
    ensures { result ≡ fault_spec.row_fault before.now count }
{
    if differs(count, before) {
        FaultKind::CellCount
    } else {
        FaultKind::Unexpected
    }
}

/// The column of the fault at a line of this kind, whose first character after the indent is at the first column.
fn fault_column(at: Kind, first: u32) -> u32
    ensures { result ≡ fault_spec.fault_column at first }
{
    match at {
        Kind::SpacedTag(column) => column,
        _ => first,
    }
}

/// The columns of the first characters after the indents of the lines.
#[tactic(auto, unfolding(gk_grammar::specs::Documents::lines_read))]
fn first_columns(alloc: Global, text: &str) -> Result<Vec<u32>, AllocError>
    requires short { length text.now ≤ max_bytes }
    ensures { IfOk result (λ all. all.items ≡ map first_column (lines_read text.now)) }
{
    let mut all = Vec::new(alloc);
    for line in lines(text) {
        all.push(indent(line) + 1)?;
    }
    Ok(all)
}

/// The fault at the line that is the first up to which the lines are no front of a text, so many lines before it.
fn fault_at(kinds: &[Kind], columns: &[u32], before: usize) -> PlainFault
    requires within { before < length kinds.now }
    requires columns { before < length columns.now }
    requires few { length kinds.now ≤ max_bytes + 1 }
    ensures { (text : List ℕ) → map kind_of (lines_read text) ≡ kinds.now
        → map first_column (lines_read text) ≡ columns.now
        → IsFirstBad (lines_read text) (before + 1)
        → IsFaultWithin (lines_read text) result.kind result.line result.column }
{
    let at = kinds[before];
    let (front, _) = kinds.split_at(before);
    PlainFault {
        kind: fault_kind(front, at),
        line: before as u32 + 1,
        column: fault_column(at, columns[before]),
    }
}

/// The fault of the text, and none where it has a document. It tries all fronts of the lines with each completion, and is
/// slow.
///
/// # Errors
/// There is no memory for the kinds or the columns of the lines.
pub fn fault(alloc: Global, text: &str) -> Result<Option<PlainFault>, AllocError>
    requires short { length text.now ≤ max_bytes }
    ensures none { IfOk result (λ f. f ≡ None → IsText (lines_read text.now)) }
    ensures some { IfOk result (λ f. IfSome f (λ f. HasFault text.now f.kind f.line f.column)) }
{
    let kinds = kinds(alloc, text)?;
    let Some(place) = first_bad(alloc, &kinds)? else {
        return Ok(None);
    };
    if place > kinds.len() {
        return Ok(Some(PlainFault {
            kind: FaultKind::UnexpectedEnd,
            line: place as u32,
            column: 1,
        }));
    }
    let columns = first_columns(alloc, text)?;
    Ok(Some(fault_at(&kinds, &columns, place - 1)))
}
