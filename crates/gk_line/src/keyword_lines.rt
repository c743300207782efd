//! The lines that begin with a keyword, titles and steps, and language lines.
ghost use Rattle.std.specs.Prelude.{◌≡◌, ◌≤◌, ◌++◌, ℕ, length, find, codes, nat_eq, IfSome};
ghost use Rattle.std.specs.List.{list_any, list_all};
ghost use Rattle.std.specs.Str.{chars, bytes_eq, IsUtf8};
ghost use Rattle.std.specs.Option.{option_map};
ghost use Rattle.gk_line.specs.declared.limit.TheConstants.{FEATURE_LIMIT};
ghost use Rattle.gk_line.specs.Places.{IsAtColumn};
ghost use Rattle.gk_line.specs.Tokens.{title_of, block_title_of, blocks, step_of, language_of, title_keywords, step_words, is_language_word, is_word_character};
ghost use Rattle.gk_line.specs.Views.{line_chars, title_text, step_text};

use crate::texts::{column, cut, first_byte, strip, trim, trim_start};
use crate::tokens::{Block, Line, StepLine, Title};
use gk_document::KeywordType;

/// The block that the line is the title of, and that title: after its indent one of the block's keywords, at once a
/// colon, and the name. No line is the title of two blocks.
///
/// Source: Gherkin reference, "Keywords"; `gherkin.berp`, `FeatureLine` to `ExamplesLine`.
pub fn block_title<'a>(line: Line<'a>) -> Option<(Block, Title<'a>)>
    requires { length line.text.now ≤ FEATURE_LIMIT }
    ensures value { option_map (λ (block, title). (block, title_text title)) result
        ≡ block_title_of (line_chars line.entry) }
    ensures place { IfSome result (λ (block, title). IsAtColumn (line_chars line.entry)
        (chars title.keyword.now ++ codes ":") (chars title.name.now) title.column) }
    ensures utf8 { IfSome result (λ (block, title). IsUtf8 title.keyword.now
        × IsUtf8 title.name.now) }
{
    let body = trim_start(line.text);
    if !begins_title(first_byte(body)) {
        return None;
    }
    let (keyword, rest) = cut(body, b':')?;
    let block = block_of(keyword)?;
    let title = Title {
        keyword,
        name: trim(rest),
        column: column(line),
    };
    Some((block, title))
}

/// The title of this block that the line reads as: after its indent one of the block's keywords, at once a colon, and
/// the name.
///
/// Source: Gherkin reference, "Keywords"; `gherkin.berp`, `FeatureLine` to `ExamplesLine`.
pub fn title<'a>(line: Line<'a>, block: Block) -> Option<Title<'a>>
    requires { length line.text.now ≤ FEATURE_LIMIT }
    ensures value { option_map title_text result ≡ title_of block (line_chars line.entry) }
    ensures place { IfSome result (λ title. IsAtColumn (line_chars line.entry)
        (chars title.keyword.now ++ codes ":") (chars title.name.now) title.column) }
    ensures utf8 { IfSome result (λ title. IsUtf8 title.keyword.now × IsUtf8 title.name.now) }
{
    let (found, title) = block_title(line)?;
    if found == block { Some(title) } else { None }
}

/// Whether a keyword of a block begins with this byte.
fn begins_title(byte: u8) -> bool
    ensures { result ≡ list_any (nat_eq byte) (codes "ABEFRS") }
{
    matches!(byte, b'A' | b'B' | b'E' | b'F' | b'R' | b'S')
}

/// The block that the word is a keyword of.
fn block_of(word: &str) -> Option<Block>
    ensures { result ≡ find (λ block. list_any (bytes_eq word.now) (title_keywords block)) blocks }
{
    if is_keyword(Block::Feature, word) {
        Some(Block::Feature)
    } else if is_keyword(Block::Rule, word) {
        Some(Block::Rule)
    } else if is_keyword(Block::Background, word) {
        Some(Block::Background)
    } else if is_keyword(Block::Scenario, word) {
        Some(Block::Scenario)
    } else if is_keyword(Block::Examples, word) {
        Some(Block::Examples)
    } else {
        None
    }
}

/// Whether the word is one of the keywords of the block.
fn is_keyword(block: Block, word: &str) -> bool
    ensures { result ≡ list_any (bytes_eq word.now) (title_keywords block) }
{
    match block {
        Block::Feature => word == "Feature" || word == "Business Need" || word == "Ability",
        Block::Rule => word == "Rule",
        Block::Background => word == "Background",
        Block::Scenario => {
            word == "Example"
                || word == "Scenario"
                || word == "Scenario Outline"
                || word == "Scenario Template"
        }
        Block::Examples => word == "Examples" || word == "Scenarios",
    }
}

/// The step that the line reads as: after its indent a keyword, one space, and the text. A keyword at the end of the
/// line, without its space, is no step.
///
/// Source: Gherkin reference, "Steps"; `gherkin.berp`, `StepLine`.
pub fn step<'a>(line: Line<'a>) -> Option<StepLine<'a>>
    requires { length line.text.now ≤ FEATURE_LIMIT }
    ensures value { option_map step_text result ≡ step_of (line_chars line.entry) }
    ensures place { IfSome result (λ step. IsAtColumn (line_chars line.entry)
        (chars step.keyword.now) (chars step.text.now) step.column) }
    ensures utf8 { IfSome result (λ step. IsUtf8 step.keyword.now × IsUtf8 step.text.now) }
{
    let body = trim_start(line.text);
    if !begins_step(first_byte(body)) {
        return None;
    }
    let (word, text) = cut(body, b' ')?;
    let kind = keyword_type(word)?;
    Some(StepLine {
        keyword: &body[..word.len() + 1],
        kind,
        text: trim(text),
        column: column(line),
    })
}

/// Whether a keyword of a step begins with this byte.
fn begins_step(byte: u8) -> bool
    ensures { result ≡ list_any (nat_eq byte) (codes "*ABGTW") }
{
    matches!(byte, b'*' | b'A' | b'B' | b'G' | b'T' | b'W')
}

/// The type of the step keyword that is this word and a space.
fn keyword_type(word: &str) -> Option<KeywordType>
    ensures { result
        ≡ option_map (λ entry. entry.1) (find (λ entry. bytes_eq word.now entry.0) step_words) }
{
    if word == "*" {
        Some(KeywordType::Unknown)
    } else if word == "Given" {
        Some(KeywordType::Context)
    } else if word == "When" {
        Some(KeywordType::Action)
    } else if word == "Then" {
        Some(KeywordType::Outcome)
    } else if word == "And" || word == "But" {
        Some(KeywordType::Conjunction)
    } else {
        None
    }
}

/// The word of the language line that the line reads as: `#`, `language`, `:` and one or more ASCII letters, `-` or
/// `_`, with any white space before, between and after them. Such a line is also a comment.
///
/// Source: Gherkin reference, "Spoken Languages"; `gherkin.berp`, `Language`.
#[tactic(auto, unfolding(crate::specs::Tokens::language_of))]
pub fn language<'a>(line: Line<'a>) -> Option<&'a str>
    ensures value { option_map (λ word. chars word.now) result
        ≡ language_of (line_chars line.entry) }
    ensures place { IfSome result (λ word. (column : ℕ) × IsAtColumn (line_chars line.entry)
        (codes ":") (chars word.now) column) }
    ensures utf8 { IfSome result (λ word. IsUtf8 word.now) }
{
    let mark = strip(trim_start(line.text), "#")?;
    let name = strip(trim_start(mark), "language")?;
    let word = trim(strip(trim_start(name), ":")?);
    if is_language(word) { Some(word) } else { None }
}

/// Whether the text is one or more ASCII letters, `-` or `_`.
fn is_language(text: &str) -> bool
    ensures { result ≡ is_language_word (chars text.now) }
{
    !text.is_empty() && has_language_characters_alone(text)
}

/// Whether each character of the text is an ASCII letter, `-` or `_`.
fn has_language_characters_alone(text: &str) -> bool
    ensures { result ≡ list_all is_word_character (chars text.now) }
{
    text.chars()
        .all(|c| c.is_ascii_alphabetic() || c == '-' || c == '_')
}
