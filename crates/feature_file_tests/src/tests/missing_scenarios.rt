//! What is missing of files, worked out by hand.
use cm_missing::Missing;
use cm_stream::Conditions;
use seeds::fixed_seed;
use std::alloc::{AllocError, Global};
use std::process::Abort;
use std::test::Fail;

// Its pickles stand in the lines 6, 7, 11 and 12.
const OUTLINE: &str = concat!(
    "Feature: f\n  Scenario Outline: o <n>\n    Given a <n>\n    Examples:\n      | n |\n",
    "      | 1 |\n      | 2 |\n    @later\n    Examples:\n      | n |\n      | 3 |\n",
    "  Scenario: s\n    Given b\n",
);

// They stand in the lines 4 and 9.
const RULE: &str = concat!(
    "Feature: f\n  Background:\n    Given a\n  Scenario: s\n    Given b\n  Rule: r\n",
    "    Background:\n      Given c\n    Example: t\n      Given d\n",
);

const ONE: &str = "Feature: f\n  Scenario: s\n    Given a\n";

// What lets the scenarios with these tags be left out.
fn allowing<'a>(alloc: Global, tags: &[&'a str]) -> Result<Conditions<'a>, AllocError> {
    let mut allowed_tags = Vec::new(alloc);
    for tag in tags {
        allowed_tags.push(*tag)?;
    }
    Ok(Conditions {
        is_part: true,
        allows_unrun: false,
        allowed_tags,
        no_retries: false,
        no_skips: false,
        no_stepless: false,
        no_undefined: false,
    })
}

// The files so far are told so.
fn expect(
    rt: &impl Abort,
    alloc: Global,
    missing: &Missing,
    lines: &str,
    scenarios: u64,
    unrun: u64,
) -> Result<(), Fail> {
    let mut text = String::new(alloc);
    missing.add_lines(&mut text)?;
    assert_eq!(rt; text.as_str(), lines);
    assert_eq!(rt; missing.is_none(), lines.is_empty());
    assert_eq!(rt; missing.scenarios(), scenarios);
    assert_eq!(rt; missing.unrun(), unrun);
    Ok(())
}

#[test]
fn the_rows_of_two_blocks(rt: HostRuntime) -> Result<(), Fail> {
    let alloc = rt.alloc();
    let seed = fixed_seed()?;
    let mut missing = Missing::new(alloc);
    expect(&rt, alloc, &missing, "", 0, 0)?;
    let strict = allowing(alloc, &[])?;
    let flags = [false, true];
    missing.add_file(alloc, seed, "a.feature", Some(OUTLINE), &strict, &flags)?;
    let lines = concat!(
        "MISSING a.feature:6 o 1\n",
        "MISSING a.feature:11 o 3\n",
        "MISSING a.feature:12 s\n",
    );
    expect(&rt, alloc, &missing, lines, 4, 0)
}

#[test]
fn a_block_with_an_allowed_tag(rt: HostRuntime) -> Result<(), Fail> {
    let alloc = rt.alloc();
    let seed = fixed_seed()?;
    let mut missing = Missing::new(alloc);
    let conditions = allowing(alloc, &["@other", "@later"])?;
    missing.add_file(
        alloc,
        seed,
        "a.feature",
        Some(OUTLINE),
        &conditions,
        &[true, false],
    )?;
    let lines = "MISSING a.feature:7 o 2\nMISSING a.feature:12 s\n";
    expect(&rt, alloc, &missing, lines, 4, 1)?;
    let flags = [true, true, true, true, false];
    missing.add_file(alloc, seed, "b.feature", Some(OUTLINE), &conditions, &flags)?;
    expect(&rt, alloc, &missing, lines, 8, 1)
}

#[test]
fn nothing_is_missing(rt: HostRuntime) -> Result<(), Fail> {
    let alloc = rt.alloc();
    let seed = fixed_seed()?;
    let mut missing = Missing::new(alloc);
    let mut conditions = allowing(alloc, &[])?;
    missing.add_file(alloc, seed, "a.feature", Some(ONE), &conditions, &[true])?;
    missing.add_file(
        alloc,
        seed,
        "b.feature",
        Some("# nothing\n"),
        &conditions,
        &[],
    )?;
    expect(&rt, alloc, &missing, "", 1, 0)?;
    conditions.allows_unrun = true;
    missing.add_file(alloc, seed, "c.feature", Some(RULE), &conditions, &[])?;
    expect(&rt, alloc, &missing, "", 3, 2)
}

#[test]
fn files_all_of_whose_scenarios_ran(rt: HostRuntime) -> Result<(), Fail> {
    let alloc = rt.alloc();
    let seed = fixed_seed()?;
    let mut missing = Missing::new(alloc);
    let strict = allowing(alloc, &[])?;
    missing.add_whole(3)?;
    missing.add_file(alloc, seed, "a.feature", Some(ONE), &strict, &[])?;
    missing.add_whole(2)?;
    expect(&rt, alloc, &missing, "MISSING a.feature:2 s\n", 6, 0)
}

#[test]
fn more_scenarios_than_64_bits_hold(rt: HostRuntime) -> Result<(), Fail> {
    let alloc = rt.alloc();
    let mut missing = Missing::new(alloc);
    missing.add_whole(usize::MAX)?;
    assert!(rt; missing.add_whole(1).is_err());
    expect(&rt, alloc, &missing, "", u64::MAX, 0)
}

#[test]
fn a_rule_with_a_background(rt: HostRuntime) -> Result<(), Fail> {
    let alloc = rt.alloc();
    let seed = fixed_seed()?;
    let mut missing = Missing::new(alloc);
    let strict = allowing(alloc, &[])?;
    missing.add_file(
        alloc,
        seed,
        "r.feature",
        Some(RULE),
        &strict,
        &[true, false],
    )?;
    expect(&rt, alloc, &missing, "MISSING r.feature:9 t\n", 2, 0)
}

#[test]
fn texts_that_are_refused(rt: HostRuntime) -> Result<(), Fail> {
    let alloc = rt.alloc();
    let seed = fixed_seed()?;
    let mut missing = Missing::new(alloc);
    let strict = allowing(alloc, &[])?;
    let foreign = "# language: de\nFunktion: f\n";
    missing.add_file(alloc, seed, "a.feature", Some("Feature: f\n"), &strict, &[])?;
    missing.add_file(
        alloc,
        seed,
        "b.feature",
        Some("\n  Given a\n"),
        &strict,
        &[true],
    )?;
    missing.add_file(alloc, seed, "c.feature", None, &strict, &[true])?;
    missing.add_file(alloc, seed, "d.feature", Some(ONE), &strict, &[])?;
    missing.add_file(alloc, seed, "e.feature", Some(foreign), &strict, &[])?;
    let lines = concat!(
        "REFUSED b.feature:2:3 1 Unexpected\n",
        "REFUSED c.feature:0:0 6 TooLong\n",
        "MISSING d.feature:2 s\n",
        "REFUSED e.feature:1:1 4 UnsupportedLanguage\n",
    );
    expect(&rt, alloc, &missing, lines, 1, 0)
}

#[test]
fn a_path_with_a_line_feed(rt: HostRuntime) -> Result<(), Fail> {
    let alloc = rt.alloc();
    let seed = fixed_seed()?;
    let mut missing = Missing::new(alloc);
    let strict = allowing(alloc, &[])?;
    missing.add_file(alloc, seed, "a\nb\\c.feature", Some(ONE), &strict, &[])?;
    missing.add_file(alloc, seed, "\u{202e}d", Some("x\n"), &strict, &[])?;
    let lines = "MISSING a\\nb\\\\c.feature:2 s\nREFUSED \\u202ed:1:1 1 Unexpected\n";
    expect(&rt, alloc, &missing, lines, 1, 0)
}

// A feature with so many scenarios, the first of them in line 2, and the lines that tell the first hundred.
fn many(alloc: Global, count: u32) -> Result<(String, String), Fail> {
    let mut text = String::from_str(alloc, "Feature: f\n")?;
    let mut lines = String::new(alloc);
    for number in 0..count {
        text.push_str("Scenario: s\n")?;
        if number < 100 {
            let line = u64::from(number) + 2;
            write!(lines, "MISSING a.feature:{line} s\n")?;
        }
    }
    Ok((text, lines))
}

#[test]
fn a_hundred_scenarios_and_more(rt: HostRuntime) -> Result<(), Fail> {
    let alloc = rt.alloc();
    let seed = fixed_seed()?;
    let strict = allowing(alloc, &[])?;
    for (count, more) in [(100, ""), (101, "and 1 more\n"), (112, "and 12 more\n")] {
        let (text, mut lines) = many(alloc, count)?;
        lines.push_str(more)?;
        let mut missing = Missing::new(alloc);
        missing.add_file(alloc, seed, "a.feature", Some(text.as_str()), &strict, &[])?;
        expect(&rt, alloc, &missing, lines.as_str(), u64::from(count), 0)?;
    }
    Ok(())
}
