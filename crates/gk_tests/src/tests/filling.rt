//! Outside examples of filling and of sources. Texts that are parsed are compiled in the tests of the crate above.
use crate::tests::lines::cells_of;
use gk_pickle::fill;
use gk_values::source_value;
use seeds::fixed_seed;
use std::alloc::{AllocError, Global};
use std::process::Abort;
use std::test::Fail;

const EMPTY_SOURCE: &str =
    r#"{"source":{"data":"","mediaType":"text/x.cucumber.gherkin+plain","uri":"e.feature"}}"#;

const PLAIN_TEXT: &str = "Feature: f\n\n  Scenario: s\n    Given a\n";

const PLAIN_SOURCE: &str = concat!(
    r#"{"source":{"data":"Feature: f\n\n  Scenario: s\n    Given a\n","#,
    r#""mediaType":"text/x.cucumber.gherkin+plain","uri":"a.feature"}}"#,
);

/// Fills a text by the cells of two rows.
fn filled(alloc: Global, text: &str, header: &str, row: &str) -> Result<String, Fail> {
    let seed = fixed_seed()?;
    let header = cells_of(alloc, header)?;
    let row = cells_of(alloc, row)?;
    Ok(fill(alloc, seed, text, header.as_slice(), row.as_slice())?)
}

fn check_fill(rt: &impl Abort, alloc: Global, rows: &str, wanted: &str) -> Result<(), Fail> {
    let (text, rows) = rows.split_once(' ').unwrap_or((rows, ""));
    let (header, row) = rows.split_once(' ').unwrap_or((rows, ""));
    let filled = filled(alloc, text, header, row)?;
    assert_eq!(rt; filled.as_str(), wanted);
    Ok(())
}

// A text, the header row, the row, and the text that is filled.
const FILLINGS: &str = "<a><b> |a|b| |<b>|1| = 11
<<a>> |a|b| |b|1| = 1
<> || |x| = x
é<é>é<é> |é| |ü| = éüéü
<<a> |a|<a| |y|z| = <y
<a><a><a> |a><a| |x| = x<a>
<a><b> |a|b| |1| = 1<b>
<<b>> |a|b| |1|a| = <a>
<<b>> |b|a| |a|1| = 1
<<<a>>> |a|b|c| |b|c|1| = 1
<<a>b> |a|xb| |x|2| = 2
<a><a> |a|a| |x|y| = xx
<<a>> |a|a|a| |a|a|x| = a
<a |a| |1| = <a
a><a>> |a| |1| = a>1>
<ä><<ä>> |ä|é| |é|ü| = éü
<a> | | = <a>
<a>b> |a|b| |<|y| = y
<a>b> |b|a| |1|<| = <b>
<a>c> |a|b|c| |x<b>|<|y| = xy
<b<a> |a|b| |>|2| = 2
<b<a> |b|a| |2|>| = <b>
<a>> |a|b| |x<b|y| = xy
<a> |a|b| |<b><b>|1| = 11
<a> |a|b|c| |<b><b>|<c><c>|1| = 1111
<b> |a|b| |1|<a>| = <a>
<a> |a|a| |<a>|1| = 1
<<a>> |a|b| |b>|1| = 1>
<<a>> |b|a| |1|<b| = <<b>
<<a>c> |a|b|c| |b><|1|2| = 12
<a>é |a|é| |é<é>|ü| = éüé
<a><c> |a>b|c| |x|<a>| = <a><a>
<a>b> |a>b|c| |<c>|1| = 1";

#[test]
fn texts_are_filled_column_by_column(rt: HostRuntime) -> Result<(), Fail> {
    for told in FILLINGS.lines() {
        let (rows, wanted) = told.split_once(" = ").unwrap_or((told, ""));
        check_fill(&rt, rt.alloc(), rows, wanted)?;
    }
    Ok(())
}

fn source_line(alloc: Global, uri: &str, text: &str) -> Result<String, AllocError> {
    source_value(alloc, uri, text)?.to_string(alloc)
}

fn check_source(
    rt: &impl Abort,
    alloc: Global,
    uri: &str,
    text: &str,
    wanted: &str,
) -> Result<(), AllocError> {
    let line = source_line(alloc, uri, text)?;
    assert_eq!(rt; line.as_str(), wanted);
    Ok(())
}

#[test]
fn sources_are_lines(rt: HostRuntime) -> Result<(), AllocError> {
    check_source(&rt, rt.alloc(), "e.feature", "", EMPTY_SOURCE)?;
    check_source(&rt, rt.alloc(), "a.feature", PLAIN_TEXT, PLAIN_SOURCE)
}
