//! Examples of the profile's rules, and each public call once.
ghost use Rattle.std.specs.Prelude.{◌≤◌, length, IfOk};
ghost use Rattle.gk_line.specs.declared.limit.TheConstants.{FEATURE_LIMIT};

use gk_line::*;
use std::alloc::{AllocError, Global};
use std::process::Abort;
use std::test::Fail;

fn line(text: &str) -> Result<Line<'_>, &'static str>
    ensures { IfOk result (λ line. length line.text.now ≤ FEATURE_LIMIT) }
{
    if text.len() > FEATURE_LIMIT {
        return Err("too long");
    }
    Ok(Line { number: 1, text })
}

/// The line of a short text.
fn short_line<'a>(rt: &impl Abort, text: &'a str) -> Line<'a>
    ensures { length result.text.now ≤ FEATURE_LIMIT }
{
    assert!(rt; text.len() <= FEATURE_LIMIT);
    Line { number: 1, text }
}

/// The cells of a row.
pub(crate) fn cells_of(alloc: Global, text: &str) -> Result<Vec<Cell>, &'static str> {
    let line = line(text)?;
    if !is_row(line) {
        return Err("no row");
    }
    cells(alloc, line).map_err(|_| "no memory")
}

/// The tags of a tag line.
fn tag_line<'a>(alloc: Global, text: &'a str) -> Result<Vec<TagText<'a>>, Fail> {
    let line = line(text)?;
    if !is_tags(line) {
        return Err(Fail::from("no tag line"));
    }
    match tags(alloc, line) {
        Ok(tags) => Ok(tags),
        Err(TagFault::TagSpace(_)) => Err(Fail::from("white space in a tag")),
        Err(TagFault::Memory) => Err(Fail::from("no memory")),
    }
}

/// A line of a doc string.
fn content(alloc: Global, text: &str, fence: Fence, indent: u32) -> Result<String, &'static str> {
    let line = line(text)?;
    doc_line(alloc, line, fence, indent).map_err(|_| "no memory")
}

/// The cells, each as its column, a colon, its text and a semicolon.
fn told_cells(alloc: Global, cells: &[Cell]) -> Result<String, AllocError> {
    let mut told = String::new(alloc);
    for cell in cells {
        let column = cell.column;
        let value = cell.value.as_str();
        write!(told, "{column}:{value};")?;
    }
    Ok(told)
}

fn check_row(rt: &impl Abort, alloc: Global, text: &str, wanted: &str) -> Result<(), Fail> {
    let cells = cells_of(alloc, text)?;
    let told = told_cells(alloc, cells.as_slice())?;
    assert_eq!(rt; told.as_str(), wanted);
    Ok(())
}

#[test]
fn escaped_cells_and_their_columns(rt: HostRuntime) -> Result<(), Fail> {
    let text = r"| a\|b | \\ | \n | \x |";
    check_row(&rt, rt.alloc(), text, "3:a|b;10:\\;15:\n;20:\\x;")
}

#[test]
fn an_escaped_bar_closes_no_cell(rt: HostRuntime) -> Result<(), Fail> {
    check_row(&rt, rt.alloc(), r"| a \|", "")
}

#[test]
fn wide_characters_are_one_column(rt: HostRuntime) -> Result<(), Fail> {
    check_row(&rt, rt.alloc(), "| é | b |", "3:é;7:b;")
}

#[test]
fn rows_of_bars_alone(rt: HostRuntime) -> Result<(), Fail> {
    check_row(&rt, rt.alloc(), "|", "")?;
    check_row(&rt, rt.alloc(), "||", "2:;")
}

/// The lines of a text, each as its number, a colon, its characters and a semicolon.
fn told_lines(alloc: Global, text: &str) -> Result<String, Fail> {
    if text.len() > FEATURE_LIMIT {
        return Err(Fail::from("too long"));
    }
    let mut told = String::new(alloc);
    for line in lines(text) {
        let Line { number, text } = line;
        write!(told, "{number}:{text};")?;
    }
    Ok(told)
}

fn check_lines(rt: &impl Abort, alloc: Global, text: &str, wanted: &str) -> Result<(), Fail> {
    let told = told_lines(alloc, text)?;
    assert_eq!(rt; told.as_str(), wanted);
    Ok(())
}

#[test]
fn a_mark_line_ends_and_a_lone_return(rt: HostRuntime) -> Result<(), Fail> {
    check_lines(&rt, rt.alloc(), "\u{FEFF}a\r\nb\rc\n", "1:a;2:b\rc;")
}

#[test]
fn empty_lines_and_texts(rt: HostRuntime) -> Result<(), Fail> {
    let alloc = rt.alloc();
    check_lines(&rt, alloc, "\n", "1:;")?;
    check_lines(&rt, alloc, "", "")?;
    check_lines(&rt, alloc, "\u{FEFF}", "")?;
    check_lines(&rt, alloc, "a\r", "1:a\r;")?;
    check_lines(&rt, alloc, "a\r\r\n", "1:a\r;")
}

#[test]
fn each_line_of_a_text_can_be_read(rt: HostRuntime) -> Result<(), Fail> {
    let mut deepest = 0;
    for line in lines("  a\n b\n").clone()? {
        deepest = deepest.max(indent(line));
    }
    assert_eq!(rt; deepest, 2);
    Ok(())
}

/// The tags, each as its column, a colon, its word and a semicolon.
fn told_tags(alloc: Global, tags: &[TagText<'_>]) -> Result<String, AllocError> {
    let mut told = String::new(alloc);
    for tag in tags {
        let column = tag.column;
        let word = tag.word;
        write!(told, "{column}:{word};")?;
    }
    Ok(told)
}

fn check_tags(rt: &impl Abort, alloc: Global, text: &str, wanted: &str) -> Result<(), Fail> {
    let tags = tag_line(alloc, text)?;
    let told = told_tags(alloc, tags.as_slice())?;
    assert_eq!(rt; told.as_str(), wanted);
    Ok(())
}

#[test]
fn tags_of_a_line(rt: HostRuntime) -> Result<(), Fail> {
    check_tags(&rt, rt.alloc(), "@a@b  @c#d #e", "1:a;3:b;7:c#d;")
}

#[test]
fn white_space_before_the_word_of_a_tag(rt: HostRuntime) -> Result<(), Fail> {
    check_tags(&rt, rt.alloc(), "@ a@\u{3000} b\t@c", "1:a;4:b;9:c;")
}

#[test]
fn white_space_in_a_tag(rt: HostRuntime) -> Result<(), Fail> {
    let line = line("  @a b")?;
    if !is_tags(line) {
        return Err(Fail::from("no tag line"));
    }
    assert!(rt; matches!(&tags(rt.alloc(), line), Err(TagFault::TagSpace(3))));
    check_tags(&rt, rt.alloc(), "@ #c", "")
}

fn check_content(
    rt: &impl Abort,
    alloc: Global,
    line: (&str, Fence, u32),
    wanted: &str,
) -> Result<(), Fail> {
    let (text, fence, indent) = line;
    let found = content(alloc, text, fence, indent)?;
    assert_eq!(rt; found.as_str(), wanted);
    Ok(())
}

#[test]
fn lines_of_a_doc_string(rt: HostRuntime) -> Result<(), Fail> {
    let alloc = rt.alloc();
    let quoted = ("    y \\\"\\\"\\\" z", Fence::Quotes, 4);
    check_content(&rt, alloc, quoted, "y \"\"\" z")?;
    let ticked = ("y \\`\\`\\` z", Fence::Backticks, 0);
    check_content(&rt, alloc, ticked, "y ``` z")?;
    let other = ("\\`\\`\\`", Fence::Quotes, 0);
    check_content(&rt, alloc, other, "\\`\\`\\`")?;
    check_content(&rt, alloc, ("  x", Fence::Quotes, 4), "x")?;
    check_content(&rt, alloc, ("      w", Fence::Quotes, 4), "  w")
}

fn push(all: &mut String, text: &str, indent: u32) -> Result<(), Fail> {
    Ok(push_doc_line(all, line(text)?, Fence::Quotes, indent)?)
}

#[test]
fn lines_of_a_doc_string_are_added_at_the_end(rt: HostRuntime) -> Result<(), Fail> {
    let mut text = String::new(rt.alloc());
    push(&mut text, "    y \\\"\\\"\\\" z", 4)?;
    push(&mut text, "  é", 1)?;
    assert_eq!(rt; text.as_str(), "y \"\"\" z é");
    Ok(())
}

fn check_fence(rt: &impl Abort, text: &str, wanted: FenceLine<'_>) {
    let found = fence(short_line(rt, text));
    assert!(rt;
        matches!(found, Some(line) if line.fence == wanted.fence
        && line.media == wanted.media && line.column == wanted.column)
    );
}

#[test]
fn lines_that_open_a_doc_string(rt: HostRuntime) {
    let quotes = FenceLine {
        fence: Fence::Quotes,
        media: "json",
        column: 5,
    };
    check_fence(&rt, "    \"\"\" json ", quotes);
    let ticks = FenceLine {
        fence: Fence::Backticks,
        media: "",
        column: 1,
    };
    check_fence(&rt, "```", ticks);
    assert!(rt; fence(short_line(&rt, "``")).is_none());
}

/// Whether two titles are the same.
fn is_title(title: Title<'_>, wanted: Title<'_>) -> bool {
    title.keyword == wanted.keyword && title.name == wanted.name && title.column == wanted.column
}

fn check_title(rt: &impl Abort, block: Block, text: &str, wanted: Title<'_>) {
    let found = title(short_line(rt, text), block);
    assert!(rt; matches!(found, Some(title) if is_title(title, wanted)));
    let found = block_title(short_line(rt, text));
    assert!(rt; matches!(found, Some((of, title)) if of == block && is_title(title, wanted)));
}

/// Checks titles of the name x at column 2. A line has the title line, a semicolon, and the keyword.
fn check_titles(rt: &impl Abort, block: Block, titles: &str) {
    for told in titles.lines() {
        let (text, keyword) = told.split_once(';').unwrap_or((told, ""));
        let wanted = Title {
            keyword,
            name: "x",
            column: 2,
        };
        check_title(rt, block, text, wanted);
    }
}

const FEATURE_TITLES: &str = " Feature: x ;Feature
 Business Need: x ;Business Need
 Ability: x ;Ability";

const SCENARIO_TITLES: &str = " Example: x ;Example
 Scenario: x ;Scenario
 Scenario Outline: x ;Scenario Outline
 Scenario Template: x ;Scenario Template";

const EXAMPLES_TITLES: &str = " Examples: x ;Examples
 Scenarios: x ;Scenarios";

#[test]
fn every_title_keyword(rt: HostRuntime) {
    check_titles(&rt, Block::Feature, FEATURE_TITLES);
    check_titles(&rt, Block::Rule, " Rule: x ;Rule");
    check_titles(&rt, Block::Background, " Background: x ;Background");
    check_titles(&rt, Block::Scenario, SCENARIO_TITLES);
    check_titles(&rt, Block::Examples, EXAMPLES_TITLES);
}

#[test]
fn titles_with_white_space(rt: HostRuntime) {
    let spaced = short_line(&rt, "Scenario : x");
    assert!(rt; title(spaced, Block::Scenario).is_none());
    assert!(rt; block_title(spaced).is_none());
    let wanted = Title {
        keyword: "Scenario Outline",
        name: "o",
        column: 1,
    };
    check_title(&rt, Block::Scenario, "Scenario Outline: o", wanted);
}

/// Checks a step of the text x at column 3.
fn check_step(rt: &impl Abort, text: &str, keyword: &str, kind: KeywordType) {
    let wanted = StepLine {
        keyword,
        kind,
        text: "x",
        column: 3,
    };
    let found = step(short_line(rt, text));
    assert!(rt;
        matches!(found, Some(line) if line.keyword == wanted.keyword
        && line.kind == wanted.kind && line.text == wanted.text && line.column == wanted.column)
    );
}

#[test]
fn every_step_keyword(rt: HostRuntime) {
    check_step(&rt, "  * x ", "* ", KeywordType::Unknown);
    check_step(&rt, "  Given x ", "Given ", KeywordType::Context);
    check_step(&rt, "  When x ", "When ", KeywordType::Action);
    check_step(&rt, "  Then x ", "Then ", KeywordType::Outcome);
    check_step(&rt, "  And x ", "And ", KeywordType::Conjunction);
    check_step(&rt, "  But x ", "But ", KeywordType::Conjunction);
    assert!(rt; step(short_line(&rt, "Given")).is_none());
}

const LANGUAGE_LINES: &str = "#language:en
\t#\u{3000}language \t:\u{85}en\u{20}
# language: en";

const NO_LANGUAGE_LINES: &str = "#language:
# language: e n
# language en
# Language: en";

#[test]
fn language_lines(rt: HostRuntime) {
    for text in LANGUAGE_LINES.lines() {
        assert!(rt; language(short_line(&rt, text)) == Some("en"));
    }
}

#[test]
fn other_comments_are_no_language_lines(rt: HostRuntime) {
    for text in NO_LANGUAGE_LINES.lines() {
        let line = short_line(&rt, text);
        assert!(rt; language(line).is_none());
        assert!(rt; is_comment(line));
    }
}

#[test]
fn white_space_is_that_of_unicode(rt: HostRuntime) {
    assert!(rt; is_blank(short_line(&rt, "\u{85}\u{2028}\u{3000}")));
    assert!(rt; is_blank(short_line(&rt, "")));
    assert!(rt; !is_blank(short_line(&rt, "\u{1C}")));
    assert!(rt; !is_blank(short_line(&rt, "\0")));
}

fn check_indent(rt: &impl Abort, text: &str, wanted: u32) {
    assert_eq!(rt; indent(short_line(rt, text)), wanted);
}

#[test]
fn indents_are_white_space_of_unicode(rt: HostRuntime) {
    check_indent(&rt, "\r\u{85}\u{2028}\u{3000}x", 4);
    check_indent(&rt, "\u{1C} x", 0);
}

fn check_text(rt: &impl Abort, text: &Text) {
    assert_eq!(rt; text.as_str(), "é|");
    assert_eq!(rt; text.len(), 3);
    assert!(rt; !text.is_empty());
}

#[test]
fn a_text_is_its_characters(rt: HostRuntime) -> Result<(), Fail> {
    let text = Text::copy_of(rt.alloc(), "é|")?;
    check_text(&rt, &text);
    assert_eq!(rt; text.into_string().as_str(), "é|");
    Ok(())
}

fn equals(text: &Text, other: Result<Text, AllocError>) -> Result<bool, AllocError> {
    Ok(*text == other?)
}

#[test]
fn texts_are_compared(rt: HostRuntime) -> Result<(), Fail> {
    let text = Text::copy_of(rt.alloc(), "é|")?;
    assert!(rt; equals(&text, text.clone())?);
    assert!(rt; !equals(&text, Text::copy_of(rt.alloc(), "é"))?);
    Ok(())
}

fn four_and_seven(alloc: Global) -> Result<Sequence<u32>, AllocError> {
    let mut numbers = Sequence::new(alloc);
    numbers.push(4u32)?;
    numbers.push(7u32)?;
    Ok(numbers)
}

fn check_four_and_seven(rt: &impl Abort, numbers: &[u32]) {
    assert_eq!(rt; numbers, &[4u32, 7u32][..]);
}

#[test]
fn a_sequence_is_its_values(rt: HostRuntime) -> Result<(), Fail> {
    assert!(rt; Sequence::<u32>::new(rt.alloc()).is_empty());
    let numbers = four_and_seven(rt.alloc())?;
    assert_eq!(rt; numbers.len(), 2);
    check_four_and_seven(&rt, numbers.as_slice());
    check_four_and_seven(&rt, numbers.into_vec().as_slice());
    Ok(())
}

#[test]
fn a_sequence_is_its_copy(rt: HostRuntime) -> Result<(), Fail> {
    let numbers = four_and_seven(rt.alloc())?;
    assert!(rt; numbers == numbers.clone()?);
    Ok(())
}
