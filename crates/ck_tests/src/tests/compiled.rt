//! Feature files by the command `compile`.
use crate::tests::running::expect_run;
use ck_commands::run;
use devices::{FailedWrite, Failing, Pieces, Store};
use seeds::fixed_seed;
use std::alloc::Global;
use std::process::Abort;
use std::test::Fail;

const NO_LINES: &str =
    r#"{"source":{"data":"","mediaType":"text/x.cucumber.gherkin+plain","uri":"e.feature"}}
{"gherkinDocument":{"comments":[],"uri":"e.feature"}}
"#;

pub(crate) const TEXT: &str = "Feature: f\n\n  Scenario: s\n    Given a\n";

pub(crate) const LINES: &str =
    r#"{"source":{"data":"Feature: f\n\n  Scenario: s\n    Given a\n","mediaType":"text/x.cucumber.gherkin+plain","uri":"a.feature"}}
{"gherkinDocument":{"comments":[],"feature":{"children":[{"scenario":{"description":"","examples":[],"id":"0","keyword":"Scenario","location":{"column":3,"line":3},"name":"s","steps":[{"id":"1","keyword":"Given ","keywordType":"Context","location":{"column":5,"line":4},"text":"a"}],"tags":[]}}],"description":"","keyword":"Feature","language":"en","location":{"column":1,"line":1},"name":"f","tags":[]},"uri":"a.feature"}}
{"pickle":{"astNodeIds":["0"],"id":"3","language":"en","name":"s","steps":[{"astNodeIds":["1"],"id":"2","text":"a","type":"Context"}],"tags":[],"uri":"a.feature"}}
"#;

fn expect_lines(
    rt: &impl Abort,
    alloc: Global,
    words: &[&str],
    text: &str,
    told: &str,
    status: u8,
) {
    let mut source = Pieces::whole(text.as_bytes());
    let mut sink = Store::new(alloc, 7);
    expect_run(rt, alloc, words, &mut source, &mut sink, told, status);
}

#[test]
fn the_lines_of_features(rt: HostRuntime) {
    let alloc = rt.alloc();
    expect_lines(
        &rt,
        alloc,
        &["compile", "--uri", "e.feature"],
        "",
        NO_LINES,
        0,
    );
    expect_lines(&rt, alloc, &["compile", "--uri=a.feature"], TEXT, LINES, 0);
}

#[test]
fn nothing_else_of_a_refused_text(rt: HostRuntime) {
    let words = ["compile", "--uri", "u"];
    expect_lines(
        &rt,
        rt.alloc(),
        &words,
        "Given x\nFeature: f",
        "refused 1:1 1 Unexpected\n",
        1,
    );
    expect_lines(
        &rt,
        rt.alloc(),
        &words,
        "# language: en",
        "refused 2:1 5 UnexpectedEnd\n",
        1,
    );
}

#[test]
fn a_read_that_fails_before_any_line(rt: HostRuntime) {
    let mut source = Pieces::whole(b"Feature: f\n  Scenari").failing_at_end();
    let mut sink = Store::new(rt.alloc(), 7);
    let words = ["compile", "--uri", "u"];
    let told = "trouble ReadFailed\n";
    expect_run(&rt, rt.alloc(), &words, &mut source, &mut sink, told, 3);
}

#[test]
fn a_write_that_fails_after_100_bytes(rt: HostRuntime) {
    let seed = fixed_seed().expect(&rt, "a seed");
    for failed in [FailedWrite::Refuses, FailedWrite::TakesNone] {
        let mut source = Pieces::whole(TEXT.as_bytes());
        let mut sink = Store::new(rt.alloc(), 100)
            .failing_writes(Failing::Once(2))
            .failing_by(failed);
        let words = ["compile", "--uri", "a.feature"];
        assert_eq!(rt; run(rt.alloc(), seed, &words, &mut source, &mut sink), 3);
        assert_eq!(rt; sink.failed_calls(), 1);
        let taken = sink.bytes();
        assert!(rt; taken.starts_with(&LINES.as_bytes()[..100]));
        assert!(rt; taken.ends_with(b"trouble WriteFailed\n"));
        assert_eq!(rt; taken.len(), 120);
    }
}

#[test]
fn lines_whose_flush_fails(rt: HostRuntime) {
    let mut source = Pieces::whole(TEXT.as_bytes());
    let mut sink = Store::new(rt.alloc(), 7).failing_flushes(Failing::EverSince(1));
    let words = ["compile", "--uri", "a.feature"];
    expect_run(&rt, rt.alloc(), &words, &mut source, &mut sink, LINES, 3);
}

// The lines of an empty feature file whose uri is given by one word.
fn expect_uri(rt: &impl Abort, alloc: Global, word: &str, uri: &str) -> Result<(), Fail> {
    let lines = NO_LINES.replace(alloc, "e.feature", uri)?;
    expect_lines(rt, alloc, &["compile", word], "", lines.as_str(), 0);
    Ok(())
}

#[test]
fn an_empty_uri_and_one_like_an_option(rt: HostRuntime) -> Result<(), Fail> {
    expect_uri(&rt, rt.alloc(), "--uri=", "")?;
    expect_uri(&rt, rt.alloc(), "--uri=-x", "-x")
}
