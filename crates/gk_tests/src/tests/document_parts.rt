//! The parts of texts that are parsed, and where two texts first differ.
use gk_parts::{FirstDifference, Part, first_difference, parts};
use gk_tree::{Document, parse};
use std::alloc::{AllocError, Global};
use std::process::Abort;
use std::test::Fail;

const TEXT: &str = concat!(
    "Feature: f\n  Background:\n    Given b\n  @t\n  Scenario Outline: s\n    When <a>\n",
    "      \"\"\"\n      x\n      \"\"\"\n    Examples: e\n      | a |\n      | 1 |\n",
    "    Examples:\n  Rule: r\n    Background:\n      Given c\n    Example: n\n",
    "      Then d\n        | y |",
);

const PARTS: &str = concat!(
    "feature:1, background:2, step:3, scenario:5, step:6, examples:10, header:11, row:12, ",
    "examples:13, rule:14, background:15, step:16, scenario:17, step:18, ",
);

/// What a part is, and its line.
fn place(part: &Part<'_>) -> (&'static str, u32) {
    match part {
        Part::Feature(feature) => ("feature", feature.location.line),
        Part::Rule(rule) => ("rule", rule.location.line),
        Part::Background(background) => ("background", background.location.line),
        Part::Scenario(scenario) => ("scenario", scenario.location.line),
        Part::Step(step) => ("step", step.location.line),
        Part::Examples(examples) => ("examples", examples.location.line),
        Part::Header(row) => ("header", row.location.line),
        Part::Row(row) => ("row", row.location.line),
    }
}

fn told_part(alloc: Global, part: &Part<'_>) -> Result<String, AllocError> {
    let (kind, line) = place(part);
    format!(in alloc; "{kind}:{line}, ")
}

fn told(alloc: Global, part: &Option<Part<'_>>) -> Result<String, AllocError> {
    match part {
        Some(part) => told_part(alloc, part),
        None => String::from_str(alloc, "nothing, "),
    }
}

fn push_part(text: &mut String, alloc: Global, part: &Part<'_>) -> Result<(), AllocError> {
    let part = told_part(alloc, part)?;
    text.push_str(part.as_str())
}

fn told_all(alloc: Global, parts: &[Part<'_>]) -> Result<String, AllocError> {
    let mut text = String::new(alloc);
    for part in parts {
        push_part(&mut text, alloc, part)?;
    }
    Ok(text)
}

fn told_parts(alloc: Global, document: &Document) -> Result<String, AllocError> {
    let parts = parts(alloc, document)?;
    let told = told_all(alloc, parts.as_slice());
    drop(parts);
    told
}

fn told_first(
    alloc: Global,
    difference: &Option<FirstDifference<'_>>,
) -> Result<String, AllocError> {
    match difference {
        Some(difference) => {
            let mut text = told(alloc, &difference.expected)?;
            let found = told(alloc, &difference.found)?;
            text.push_str(found.as_str())?;
            Ok(text)
        }
        None => String::from_str(alloc, "alike"),
    }
}

fn told_text(alloc: Global, text: &str) -> Result<String, Fail> {
    let document = parse(alloc, text)?;
    let told = told_parts(alloc, &document);
    drop(document);
    Ok(told?)
}

#[test]
fn parts_in_the_order_of_the_file(rt: HostRuntime) -> Result<(), Fail> {
    let told = told_text(rt.alloc(), TEXT)?;
    assert_eq!(rt; told.as_str(), PARTS);
    Ok(())
}

fn told_difference(
    alloc: Global,
    expected: &Document,
    found: &Document,
) -> Result<String, AllocError> {
    let difference = first_difference(alloc, expected, found)?;
    told_first(alloc, &difference)
}

/// Where the text's document first differs from the expected one.
fn told_found(alloc: Global, expected: &Document, text: &str) -> Result<String, Fail> {
    let found = parse(alloc, text)?;
    let told = told_difference(alloc, expected, &found);
    drop(found);
    Ok(told?)
}

/// Where the text first differs from the whole one.
fn told_other(alloc: Global, other: &str) -> Result<String, Fail> {
    let expected = parse(alloc, TEXT)?;
    let told = told_found(alloc, &expected, other);
    drop(expected);
    told
}

/// Checks where the text first differs from itself with `new` in the place of `old`.
fn check_difference(
    rt: &impl Abort,
    alloc: Global,
    old: &str,
    new: &str,
    wanted: &str,
) -> Result<(), Fail> {
    let other = TEXT.replace(alloc, old, new)?;
    let told = told_other(alloc, other.as_str())?;
    assert_eq!(rt; told.as_str(), wanted);
    Ok(())
}

#[test]
fn the_first_difference(rt: HostRuntime) -> Result<(), Fail> {
    let alloc = rt.alloc();
    check_difference(&rt, alloc, "| 1 |", "|   1 |", "alike")?;
    check_difference(&rt, alloc, "| 1 |", "| 2 |", "row:12, row:12, ")?;
    check_difference(&rt, alloc, "| 1 |", "", "row:12, examples:13, ")?;
    check_difference(&rt, alloc, "y", "z", "step:18, step:18, ")?;
    check_difference(&rt, alloc, "      x", "      z", "step:6, step:6, ")?;
    check_difference(&rt, alloc, "@t", "@u", "scenario:5, scenario:5, ")?;
    check_difference(
        &rt,
        alloc,
        "\n      Then d\n        | y |",
        "",
        "step:18, nothing, ",
    )?;
    check_difference(
        &rt,
        alloc,
        "| y |",
        "| y |\n      And d",
        "nothing, step:20, ",
    )
}
