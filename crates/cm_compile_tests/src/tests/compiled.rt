//! Feature files written to sinks in memory, some of which fail.
use cm_compile::{CompileFault, write_compiled};
use cm_envelope::{DeviceFailed, write_all};
use devices::{FailedWrite, Failing, Store};
use gk_tree::{FaultKind, ParseFault};
use seeds::fixed_seed;
use std::alloc::Global;
use std::process::Abort;
use std::test::Fail;

const EMPTY_LINES: &str =
    r#"{"source":{"data":"","mediaType":"text/x.cucumber.gherkin+plain","uri":"e.feature"}}
{"gherkinDocument":{"comments":[],"uri":"e.feature"}}
"#;

pub(crate) const PLAIN_TEXT: &str = "Feature: f\n\n  Scenario: s\n    Given a\n";

pub(crate) const PLAIN_LINES: &str =
    r#"{"source":{"data":"Feature: f\n\n  Scenario: s\n    Given a\n","mediaType":"text/x.cucumber.gherkin+plain","uri":"a.feature"}}
{"gherkinDocument":{"comments":[],"feature":{"children":[{"scenario":{"description":"","examples":[],"id":"0","keyword":"Scenario","location":{"column":3,"line":3},"name":"s","steps":[{"id":"1","keyword":"Given ","keywordType":"Context","location":{"column":5,"line":4},"text":"a"}],"tags":[]}}],"description":"","keyword":"Feature","language":"en","location":{"column":1,"line":1},"name":"f","tags":[]},"uri":"a.feature"}}
{"pickle":{"astNodeIds":["0"],"id":"3","language":"en","name":"s","steps":[{"astNodeIds":["1"],"id":"2","text":"a","type":"Context"}],"tags":[],"uri":"a.feature"}}
"#;

const OUTLINE_TEXT: &str =
    "Feature: f\n  Scenario: s\n    Given <a>\n    Examples:\n      | a |\n      | x |\n      | x |\n      | y |\n";

const OUTLINE_LINES: &str =
    r#"{"source":{"data":"Feature: f\n  Scenario: s\n    Given <a>\n    Examples:\n      | a |\n      | x |\n      | x |\n      | y |\n","mediaType":"text/x.cucumber.gherkin+plain","uri":"o.feature"}}
{"gherkinDocument":{"comments":[],"feature":{"children":[{"scenario":{"description":"","examples":[{"description":"","id":"2","keyword":"Examples","location":{"column":5,"line":4},"name":"","tableBody":[{"cells":[{"location":{"column":9,"line":6},"value":"x"}],"id":"4","location":{"column":7,"line":6}},{"cells":[{"location":{"column":9,"line":7},"value":"x"}],"id":"5","location":{"column":7,"line":7}},{"cells":[{"location":{"column":9,"line":8},"value":"y"}],"id":"6","location":{"column":7,"line":8}}],"tableHeader":{"cells":[{"location":{"column":9,"line":5},"value":"a"}],"id":"3","location":{"column":7,"line":5}},"tags":[]}],"id":"0","keyword":"Scenario","location":{"column":3,"line":2},"name":"s","steps":[{"id":"1","keyword":"Given ","keywordType":"Context","location":{"column":5,"line":3},"text":"<a>"}],"tags":[]}}],"description":"","keyword":"Feature","language":"en","location":{"column":1,"line":1},"name":"f","tags":[]},"uri":"o.feature"}}
{"pickle":{"astNodeIds":["0","4"],"id":"8","language":"en","name":"s","steps":[{"astNodeIds":["1","4"],"id":"7","text":"x","type":"Context"}],"tags":[],"uri":"o.feature"}}
{"pickle":{"astNodeIds":["0","5"],"id":"10","language":"en","name":"s","steps":[{"astNodeIds":["1","5"],"id":"9","text":"x","type":"Context"}],"tags":[],"uri":"o.feature"}}
{"pickle":{"astNodeIds":["0","6"],"id":"12","language":"en","name":"s","steps":[{"astNodeIds":["1","6"],"id":"11","text":"y","type":"Context"}],"tags":[],"uri":"o.feature"}}
"#;

const FULL_URI: &str = "ü/\"u\".feature";

pub(crate) const FULL_TEXT: &str =
    "# \u{1}\u{8}\u{c}\u{1f}\u{1F600}\\\n@f @g\nFeature: F \u{1F600}\n  Words \"q\" \\\n  # in\n  more\n\n  Background: b\n    When x\n      | a\\|b |  |\n\n  Rule: r\n    @s\n    Scenario Outline: <n> o\n      And <n>\n        \"\"\"json <n>\n        tab\tq\n         \\\"\\\"\\\"\n        \"\"\"\n      @e\n      Examples: E\n        d\n        | n |\n        | \u{1D11E} |\n        |  |\n";

const FULL_LINES: &str =
    r##"{"source":{"data":"# \u0001\b\f\u001f😀\\\n@f @g\nFeature: F 😀\n  Words \"q\" \\\n  # in\n  more\n\n  Background: b\n    When x\n      | a\\|b |  |\n\n  Rule: r\n    @s\n    Scenario Outline: <n> o\n      And <n>\n        \"\"\"json <n>\n        tab\tq\n         \\\"\\\"\\\"\n        \"\"\"\n      @e\n      Examples: E\n        d\n        | n |\n        | 𝄞 |\n        |  |\n","mediaType":"text/x.cucumber.gherkin+plain","uri":"ü/\"u\".feature"}}
{"gherkinDocument":{"comments":[{"location":{"column":1,"line":1},"text":"# \u0001\b\f\u001f😀\\"},{"location":{"column":1,"line":5},"text":"  # in"}],"feature":{"children":[{"background":{"description":"","id":"2","keyword":"Background","location":{"column":3,"line":8},"name":"b","steps":[{"dataTable":{"location":{"column":7,"line":10},"rows":[{"cells":[{"location":{"column":9,"line":10},"value":"a|b"},{"location":{"column":17,"line":10},"value":""}],"id":"4","location":{"column":7,"line":10}}]},"id":"3","keyword":"When ","keywordType":"Action","location":{"column":5,"line":9},"text":"x"}]}},{"rule":{"children":[{"scenario":{"description":"","examples":[{"description":"        d","id":"10","keyword":"Examples","location":{"column":7,"line":21},"name":"E","tableBody":[{"cells":[{"location":{"column":11,"line":24},"value":"𝄞"}],"id":"12","location":{"column":9,"line":24}},{"cells":[{"location":{"column":12,"line":25},"value":""}],"id":"13","location":{"column":9,"line":25}}],"tableHeader":{"cells":[{"location":{"column":11,"line":23},"value":"n"}],"id":"11","location":{"column":9,"line":23}},"tags":[{"id":"9","location":{"column":7,"line":20},"name":"@e"}]}],"id":"7","keyword":"Scenario Outline","location":{"column":5,"line":14},"name":"<n> o","steps":[{"docString":{"content":"tab\tq\n \"\"\"","delimiter":"\"\"\"","location":{"column":9,"line":16},"mediaType":"json <n>"},"id":"8","keyword":"And ","keywordType":"Conjunction","location":{"column":7,"line":15},"text":"<n>"}],"tags":[{"id":"6","location":{"column":5,"line":13},"name":"@s"}]}}],"description":"","id":"5","keyword":"Rule","location":{"column":3,"line":12},"name":"r","tags":[]}}],"description":"  Words \"q\" \\\n  more","keyword":"Feature","language":"en","location":{"column":1,"line":3},"name":"F 😀","tags":[{"id":"0","location":{"column":1,"line":2},"name":"@f"},{"id":"1","location":{"column":4,"line":2},"name":"@g"}]},"uri":"ü/\"u\".feature"}}
{"pickle":{"astNodeIds":["7","12"],"id":"16","language":"en","name":"𝄞 o","steps":[{"argument":{"dataTable":{"rows":[{"cells":[{"value":"a|b"},{"value":""}]}]}},"astNodeIds":["3"],"id":"14","text":"x","type":"Action"},{"argument":{"docString":{"content":"tab\tq\n \"\"\"","mediaType":"json 𝄞"}},"astNodeIds":["8","12"],"id":"15","text":"𝄞","type":"Action"}],"tags":[{"astNodeId":"0","name":"@f"},{"astNodeId":"1","name":"@g"},{"astNodeId":"6","name":"@s"},{"astNodeId":"9","name":"@e"}],"uri":"ü/\"u\".feature"}}
{"pickle":{"astNodeIds":["7","13"],"id":"19","language":"en","name":" o","steps":[{"argument":{"dataTable":{"rows":[{"cells":[{"value":"a|b"},{"value":""}]}]}},"astNodeIds":["3"],"id":"17","text":"x","type":"Action"},{"argument":{"docString":{"content":"tab\tq\n \"\"\"","mediaType":"json "}},"astNodeIds":["8","13"],"id":"18","text":"","type":"Action"}],"tags":[{"astNodeId":"0","name":"@f"},{"astNodeId":"1","name":"@g"},{"astNodeId":"6","name":"@s"},{"astNodeId":"9","name":"@e"}],"uri":"ü/\"u\".feature"}}
"##;

/// A sink that takes all: the lines are the wanted ones.
fn check_lines(rt: &impl Abort, alloc: Global, uri: &str, text: &str, wanted: &str) {
    let seed = fixed_seed().expect(rt, "a seed");
    let mut sink = Store::new(alloc, usize::MAX);
    assert_eq!(rt; write_compiled(alloc, seed, uri, text, &mut sink), Ok(()));
    assert!(rt; sink.bytes() == wanted.as_bytes());
    assert_eq!(rt; sink.failed_calls(), 0);
}

#[test]
fn an_empty_text_has_two_lines(rt: HostRuntime) -> Result<(), Fail> {
    check_lines(&rt, rt.alloc(), "e.feature", "", EMPTY_LINES);
    Ok(())
}

#[test]
fn a_scenario_has_three_lines(rt: HostRuntime) -> Result<(), Fail> {
    check_lines(&rt, rt.alloc(), "a.feature", PLAIN_TEXT, PLAIN_LINES);
    Ok(())
}

#[test]
fn all_that_a_feature_may_have(rt: HostRuntime) -> Result<(), Fail> {
    check_lines(&rt, rt.alloc(), FULL_URI, FULL_TEXT, FULL_LINES);
    Ok(())
}

#[test]
fn ids_go_on_from_pickle_to_pickle(rt: HostRuntime) -> Result<(), Fail> {
    check_lines(&rt, rt.alloc(), "o.feature", OUTLINE_TEXT, OUTLINE_LINES);
    Ok(())
}

fn check_refused(rt: &impl Abort, alloc: Global, text: &str, fault: ParseFault) {
    let seed = fixed_seed().expect(rt, "a seed");
    let mut sink = Store::new(alloc, usize::MAX);
    let done = write_compiled(alloc, seed, "u", text, &mut sink);
    assert_eq!(rt; done, Err(CompileFault::Parse(fault)));
    assert_eq!(rt; sink.writes(), 0);
}

#[test]
fn nothing_is_written_of_a_refused_text(rt: HostRuntime) -> Result<(), Fail> {
    let alloc = rt.alloc();
    let unexpected = ParseFault {
        kind: FaultKind::Unexpected,
        line: 1,
        column: 1,
    };
    check_refused(&rt, alloc, "Given x\nFeature: f", unexpected);
    let unfinished = ParseFault {
        kind: FaultKind::UnexpectedEnd,
        line: 2,
        column: 1,
    };
    check_refused(&rt, alloc, "# language: en", unfinished);
    Ok(())
}

#[test]
fn the_bytes_before_a_failed_write_are_written(rt: HostRuntime) -> Result<(), Fail> {
    let seed = fixed_seed().expect(&rt, "a seed");
    let alloc = rt.alloc();
    let mut sink = Store::new(alloc, usize::MAX).with_room(100);
    let done = write_compiled(alloc, seed, "a.feature", PLAIN_TEXT, &mut sink);
    assert_eq!(rt; done, Err(CompileFault::WriteFailed));
    assert_eq!(rt; sink.bytes().len(), 100);
    assert!(rt; PLAIN_LINES.as_bytes().starts_with(sink.bytes()));
    assert_eq!(rt; sink.failed_calls(), 1);
    Ok(())
}

/// One byte a write, and the write after `room` bytes fails or takes nothing: it isn't repeated.
fn check_failed(rt: &impl Abort, alloc: Global, room: usize, sink: Store) {
    let seed = fixed_seed().expect(rt, "a seed");
    let mut sink = sink;
    let done = write_compiled(alloc, seed, "a.feature", PLAIN_TEXT, &mut sink);
    assert_eq!(rt; done, Err(CompileFault::WriteFailed));
    assert!(rt; sink.bytes().len() == room);
    assert!(rt; PLAIN_LINES.as_bytes().starts_with(sink.bytes()));
    assert!(rt; (room as u64).checked_add(1) == Some(sink.writes()));
    assert_eq!(rt; sink.failed_calls(), 1);
}

#[test]
fn each_write_may_fail(rt: HostRuntime) -> Result<(), Fail> {
    let seed = fixed_seed().expect(&rt, "a seed");
    let alloc = rt.alloc();
    for room in 0..PLAIN_LINES.len() {
        for failed in [FailedWrite::Refuses, FailedWrite::TakesNone] {
            let full = Store::new(alloc, 1).with_room(room).failing_by(failed);
            check_failed(&rt, alloc, room, full);
            let once = Failing::Once(room as u64 + 1);
            let broken = Store::new(alloc, 1).failing_writes(once).failing_by(failed);
            check_failed(&rt, alloc, room, broken);
        }
    }
    let mut whole = Store::new(alloc, 1).with_room(PLAIN_LINES.len());
    let done = write_compiled(alloc, seed, "a.feature", PLAIN_TEXT, &mut whole);
    assert_eq!(rt; done, Ok(()));
    Ok(())
}

#[test]
fn all_bytes_are_written_in_turn(rt: HostRuntime) {
    let mut sink = Store::new(rt.alloc(), 2).with_room(3);
    assert_eq!(rt; write_all(&mut sink, b"abc"), Ok(()));
    assert!(rt; sink.bytes() == b"abc".as_slice());
    assert_eq!(rt; sink.writes(), 2);
    assert_eq!(rt; write_all(&mut sink, b"d"), Err(DeviceFailed));
    assert!(rt; sink.bytes() == b"abc".as_slice());
    assert_eq!(rt; sink.failed_calls(), 1);
}
