//! Lines, documents and pickles in want of memory.
ghost use Rattle.std.specs.Prelude.{◌≤◌, length, IfSome};

use crate::tests::meeting::{Came, SMALL, meet_alone, right_if};
use gk_line::{
    Cell, Fence, Line, TagFault, TagText, cells, doc_line, is_row, is_tags, push_doc_line, tags,
};
use gk_pickle::{
    Pickle, PicklePlace, PickleStep, ScenarioInFeature, StepType, compile, compile_scenario, fill,
    next_pickle, scenarios,
};
use gk_tree::{Document, FaultKind, ParseFault, parse};
use scarce::{Shortage, check};
use seeds::fixed_seed;
use std::alloc::{AllocError, Global};
use std::hash::RandomState;
use std::test::Fail;

// The text as a line, where it is short enough for one.
fn line(text: &str) -> Option<Line<'_>>
    ensures { IfSome result (λ line. length line.text.now ≤ 16_777_216) }
{
    if text.len() > 16_777_216 {
        return None;
    }
    Some(Line { number: 1, text })
}

fn is_tag(tag: &TagText<'_>, word: &str, column: u32) -> bool {
    tag.word == word && tag.column == column
}

fn are_tags(found: &[TagText<'_>]) -> bool {
    match found {
        [a, b, c] => is_tag(a, "a", 1) && is_tag(b, "b", 3) && is_tag(c, "c#d", 7),
        _ => false,
    }
}

fn read_tags(alloc: Global) -> Came {
    let Some(line) = line("@a@b  @c#d #e") else {
        return Came::Wrong;
    };
    if !is_tags(line) {
        return Came::Wrong;
    }
    match tags(alloc, line) {
        Ok(found) => right_if(are_tags(found.as_slice())),
        Err(TagFault::Memory) => Came::Refused,
        Err(TagFault::TagSpace(_)) => Came::Wrong,
    }
}

fn is_cell(cell: &Cell, value: &str, column: u32) -> bool {
    cell.value.as_str() == value && cell.column == column
}

fn are_cells(found: &[Cell]) -> bool {
    match found {
        [a, b, c, d] => {
            is_cell(a, "a|b", 3)
                && is_cell(b, "\\", 10)
                && is_cell(c, "\n", 15)
                && is_cell(d, "\\x", 20)
        }
        _ => false,
    }
}

fn read_cells(alloc: Global) -> Came {
    let Some(line) = line(r"| a\|b | \\ | \n | \x |") else {
        return Came::Wrong;
    };
    if !is_row(line) {
        return Came::Wrong;
    }
    match cells(alloc, line) {
        Ok(found) => right_if(are_cells(found.as_slice())),
        Err(AllocError) => Came::Refused,
    }
}

const QUOTED: &str = r#"    y \"\"\" z"#;

fn read_doc_line(alloc: Global) -> Came {
    let Some(line) = line(QUOTED) else {
        return Came::Wrong;
    };
    match doc_line(alloc, line, Fence::Quotes, 4) {
        Ok(text) => right_if(text.as_str() == r#"y """ z"#),
        Err(AllocError) => Came::Refused,
    }
}

#[test]
fn tags_of_a_line(rt: HostRuntime) -> Result<(), Fail> {
    meet_alone(rt.alloc(), SMALL, read_tags)
}

#[test]
fn cells_of_a_row(rt: HostRuntime) -> Result<(), Fail> {
    meet_alone(rt.alloc(), SMALL, read_cells)
}

#[test]
fn a_line_of_a_doc_string(rt: HostRuntime) -> Result<(), Fail> {
    meet_alone(rt.alloc(), SMALL, read_doc_line)
}

// A line whose text is longer than the smallest block.
const LONG_QUOTED: &str = r#"    y \"\"\" z, and more than a small block holds of it"#;

// Adds the line to the text with this room. Answers whether it was refused: then the text is as it was.
fn is_push_refused(
    text: &mut String,
    alloc: Global,
    shortage: &mut Shortage,
    room: usize,
) -> Result<bool, Fail> {
    let line = line(LONG_QUOTED).ok_or("no line")?;
    shortage.leave(alloc, room)?;
    let is_refused = push_doc_line(text, line, Fence::Quotes, 4).is_err();
    shortage.relax(alloc);
    let wanted = if is_refused {
        "x"
    } else {
        r#"xy """ z, and more than a small block holds of it"#
    };
    check(text.as_str() == wanted, "another text")?;
    Ok(is_refused)
}

fn meet_push(text: &mut String, alloc: Global, shortage: &mut Shortage) -> Result<(), Fail> {
    let is_refused = is_push_refused(text, alloc, shortage, 0)?;
    check(is_refused, "never refused")?;
    let is_refused = is_push_refused(text, alloc, shortage, 1024)?;
    check(!is_refused, "never answered")
}

fn meet_text(text: &mut String, alloc: Global) -> Result<(), Fail> {
    let mut shortage = Shortage::new(alloc)?;
    let met = meet_push(text, alloc, &mut shortage);
    drop(shortage);
    met
}

#[test]
fn a_line_after_a_text(rt: HostRuntime) -> Result<(), Fail> {
    let mut text = String::from_str(rt.alloc(), "x")?;
    meet_text(&mut text, rt.alloc())
}

const RULED_TEXT: &str =
    "@f\nFeature: f\n  Rule: r\n    Background:\n      Given b\n    @s @s\n    Scenario Outline: <n> o\n      And c\n      @e\n      Examples:\n        | n |\n        | 1 |";

fn parse_ruled(alloc: Global) -> Came {
    match parse(alloc, RULED_TEXT) {
        Ok(document) => right_if(document.nodes == 12),
        Err(
            ParseFault {
                kind: FaultKind::Memory,
                line: 0,
                column: 0,
            },
        ) => Came::Refused,
        Err(_) => Came::Wrong,
    }
}

fn is_step(step: &PickleStep, text: &str, nodes: &[u64]) -> bool {
    step.text.as_str() == text && step.nodes.as_slice() == nodes
}

fn are_ruled_steps(steps: &[PickleStep]) -> bool {
    match steps {
        [b, c] => {
            is_step(b, "b", &[3]) && is_step(c, "c", &[7, 11]) && c.kind == StepType::Context
        }
        _ => false,
    }
}

fn is_ruled_pickle(pickle: &Pickle) -> bool {
    pickle.name.as_str() == "1 o"
        && pickle.nodes.as_slice() == [6, 11].as_slice()
        && pickle.tags.len() == 4
        && are_ruled_steps(pickle.steps.as_slice())
}

fn are_ruled_pickles(pickles: &[Pickle]) -> bool {
    match pickles {
        [pickle] => is_ruled_pickle(pickle),
        _ => false,
    }
}

fn right_if_ruled(pickles: Result<Vec<Pickle>, AllocError>) -> Came {
    match pickles {
        Ok(pickles) => right_if(are_ruled_pickles(pickles.as_slice())),
        Err(AllocError) => Came::Refused,
    }
}

fn are_ruled_names(feature: &str, rule: &str, scenario: &str) -> bool {
    feature == "f" && rule == "r" && scenario == "<n> o"
}

fn is_ruled_scenario(found: &ScenarioInFeature<'_>) -> bool {
    let feature = found.feature.name.as_str();
    let scenario = found.scenario.name.as_str();
    match found.rule {
        Some(rule) => are_ruled_names(feature, rule.name.as_str(), scenario),
        None => false,
    }
}

fn are_ruled_scenarios(found: &[ScenarioInFeature<'_>]) -> bool {
    match found {
        [scenario] => is_ruled_scenario(scenario),
        _ => false,
    }
}

fn find_ruled(alloc: Global, document: &Document) -> Came {
    match scenarios(alloc, document) {
        Ok(scenarios) => right_if(are_ruled_scenarios(scenarios.as_slice())),
        Err(AllocError) => Came::Refused,
    }
}

#[test]
fn documents(rt: HostRuntime) -> Result<(), Fail> {
    meet_alone(rt.alloc(), SMALL, parse_ruled)
}

#[test]
fn pickles(rt: HostRuntime) -> Result<(), Fail> {
    let seed = fixed_seed().expect(&rt, "a seed");
    let alloc = rt.alloc();
    let document = parse(alloc, RULED_TEXT)?;
    let met = meet_alone(
        alloc,
        SMALL,
        |alloc| right_if_ruled(compile(alloc, seed, &document)),
    );
    drop(document);
    met
}

#[test]
fn scenarios_of_a_document(rt: HostRuntime) -> Result<(), Fail> {
    let alloc = rt.alloc();
    let document = parse(alloc, RULED_TEXT)?;
    let met = meet_alone(alloc, SMALL, |alloc| find_ruled(alloc, &document));
    drop(document);
    met
}

fn meet_scenario(alloc: Global, scenarios: &[ScenarioInFeature<'_>]) -> Result<(), Fail> {
    let seed = fixed_seed()?;
    let scenario = scenarios.first().ok_or("no scenario")?;
    meet_alone(
        alloc,
        SMALL,
        |alloc| right_if_ruled(compile_scenario(alloc, seed, scenario)),
    )
}

fn meet_scenarios(alloc: Global, document: &Document) -> Result<(), Fail> {
    let scenarios = scenarios(alloc, document)?;
    meet_scenario(alloc, scenarios.as_slice())
}

#[test]
fn pickles_of_a_scenario(rt: HostRuntime) -> Result<(), Fail> {
    let alloc = rt.alloc();
    let document = parse(alloc, RULED_TEXT)?;
    let met = meet_scenarios(alloc, &document);
    drop(document);
    met
}

fn next_ruled(alloc: Global, seed: RandomState, document: &Document) -> Came {
    let mut place = PicklePlace::first();
    match next_pickle(alloc, seed, document, &mut place) {
        Ok(Some(pickle)) => right_if(are_ruled_pickles(&[pickle])),
        Ok(None) => Came::Wrong,
        Err(AllocError) => Came::Refused,
    }
}

#[test]
fn the_next_pickle(rt: HostRuntime) -> Result<(), Fail> {
    let seed = fixed_seed().expect(&rt, "a seed");
    let document = parse(rt.alloc(), RULED_TEXT)?;
    let met = meet_alone(
        rt.alloc(),
        SMALL,
        |alloc| next_ruled(alloc, seed, &document),
    );
    drop(document);
    met
}

fn cells_of(alloc: Global, text: &str) -> Result<Vec<Cell>, Fail> {
    let line = line(text).ok_or("no line")?;
    if !is_row(line) {
        return Err(Fail::from("no row"));
    }
    Ok(cells(alloc, line)?)
}

fn fill_text(alloc: Global, header: &[Cell], row: &[Cell]) -> Came {
    let Ok(seed) = fixed_seed() else {
        return Came::Wrong;
    };
    if header.len() != row.len() {
        return Came::Wrong;
    }
    match fill(alloc, seed, "<a><b>", header, row) {
        Ok(text) => right_if(text.as_str() == "11"),
        Err(AllocError) => Came::Refused,
    }
}

// Fills the cells with this room. Answers whether it was refused.
fn is_fill_refused(
    alloc: Global,
    shortage: &mut Shortage,
    room: usize,
    header: &[Cell],
    row: &[Cell],
) -> Result<bool, Fail> {
    shortage.leave(alloc, room)?;
    let came = fill_text(alloc, header, row);
    shortage.relax(alloc);
    check(came != Came::Wrong, "another text")?;
    Ok(came == Came::Refused)
}

// Fills the cells with ever more room, until they are filled.
fn meet_fill(
    alloc: Global,
    shortage: &mut Shortage,
    header: &[Cell],
    row: &[Cell],
) -> Result<(), Fail> {
    let is_refused = is_fill_refused(alloc, shortage, 0, header, row)?;
    check(is_refused, "never refused")?;
    for step in 1..512usize {
        if !is_fill_refused(alloc, shortage, 16 * step, header, row)? {
            return Ok(());
        }
    }
    check(false, "never answered")
}

fn meet_cells(alloc: Global, header: &[Cell], row: &[Cell]) -> Result<(), Fail> {
    let mut shortage = Shortage::new(alloc)?;
    let met = meet_fill(alloc, &mut shortage, header, row);
    drop(shortage);
    met
}

fn meet_row(alloc: Global, header: &[Cell]) -> Result<(), Fail> {
    let row = cells_of(alloc, "|<b>|1|")?;
    meet_cells(alloc, header, row.as_slice())
}

#[test]
fn filled_texts(rt: HostRuntime) -> Result<(), Fail> {
    let header = cells_of(rt.alloc(), "|a|b|")?;
    meet_row(rt.alloc(), header.as_slice())
}

// So many spaces.
fn spaces(alloc: Global, count: usize) -> Result<String, Fail> {
    let mut bytes = Vec::new(alloc);
    bytes.resize(count, b' ')?;
    match String::from_utf8(bytes) {
        Ok(text) => Ok(text),
        Err(_) => Err(Fail::from("no text")),
    }
}

fn is_too_long(alloc: Global, text: &str) -> bool {
    match parse(alloc, text) {
        Ok(_) => false,
        Err(fault) => fault.kind == FaultKind::TooLong,
    }
}

fn check_long(alloc: Global, shortage: &mut Shortage, text: &str) -> Result<(), Fail> {
    shortage.leave(alloc, 0)?;
    let is_told = is_too_long(alloc, text);
    let is_short = parse_ruled(alloc) == Came::Refused;
    shortage.relax(alloc);
    check(is_told, "another answer")?;
    check(is_short, "memory was there")
}

fn meet_long(alloc: Global, text: &str) -> Result<(), Fail> {
    let mut shortage = Shortage::new(alloc)?;
    let met = check_long(alloc, &mut shortage, text);
    drop(shortage);
    met
}

#[test]
fn a_text_beyond_the_limit_without_room(rt: HostRuntime) -> Result<(), Fail> {
    let text = spaces(rt.alloc(), 16_777_217)?;
    meet_long(rt.alloc(), text.as_str())
}
