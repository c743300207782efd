//! Texts that are read, and commands, in want of memory.
use crate::tests::meeting::{Came, RUNS, meet_alone, right_if};
use crate::tests::streams::{INTERLEAVED, PLAIN_LINES, PLAIN_TEXT};
use ck_commands::{ExitStatus, TextFault, read_text, run};
use devices::{Compared, Pieces};
use seeds::fixed_seed;
use std::alloc::Global;
use std::test::Fail;

const PASSED: &str =
    r#"{"testCase":{"id":"c1","pickleId":"3","testSteps":[{"id":"t1","pickleStepId":"2"}]}}
{"testCaseStarted":{"id":"a1","testCaseId":"c1","attempt":0}}
{"testStepStarted":{"testCaseStartedId":"a1","testStepId":"t1"}}
{"testStepFinished":{"testCaseStartedId":"a1","testStepId":"t1","testStepResult":{"status":"PASSED"}}}
{"testCaseFinished":{"testCaseStartedId":"a1","willBeRetried":false}}
"#;

// A stream without its pickle, and what is said of it.
const INCOMPLETE: &str =
    r#"{"source":{"data":"Feature: f\n\n  Scenario: s\n    Given a\n","mediaType":"text/x.cucumber.gherkin+plain","uri":"a.feature"}}
{"gherkinDocument":{"comments":[],"feature":{"children":[{"scenario":{"description":"","examples":[],"id":"0","keyword":"Scenario","location":{"column":3,"line":3},"name":"s","steps":[{"id":"1","keyword":"Given ","keywordType":"Context","location":{"column":5,"line":4},"text":"a"}],"tags":[]}}],"description":"","keyword":"Feature","language":"en","location":{"column":1,"line":1},"name":"f","tags":[]},"uri":"a.feature"}}
{"testRunStarted":{}}
{"testRunFinished":{"success":true}}
"#;

const MISSING: &str = "bad line 4: 20 SourceIncomplete
uri a.feature
missing a.feature:3 s
";

// A stream whose document has a step in another line, and what is said of it.
const MOVED: &str =
    r#"{"source":{"data":"Feature: f\n\n  Scenario: s\n    Given a\n","mediaType":"text/x.cucumber.gherkin+plain","uri":"a.feature"}}
{"gherkinDocument":{"comments":[],"feature":{"children":[{"scenario":{"description":"","examples":[],"id":"0","keyword":"Scenario","location":{"column":3,"line":3},"name":"s","steps":[{"id":"1","keyword":"Given ","keywordType":"Context","location":{"column":5,"line":5},"text":"a"}],"tags":[]}}],"description":"","keyword":"Feature","language":"en","location":{"column":1,"line":1},"name":"f","tags":[]},"uri":"a.feature"}}
"#;

const DIFFERENCE: &str = r#"bad line 2: 8 TreeDiffers
uri a.feature
expected {"step":{"keyword":"Given ","location":{"line":4},"text":"a"}}
found {"step":{"keyword":"Given ","location":{"line":5},"text":"a"}}
"#;

// A run that failed in each way, and what is said of it.
const FAILED: &str =
    r#"{"source":{"data":"Feature: f\n\n  Scenario: s\n    Given a\n","mediaType":"text/x.cucumber.gherkin+plain","uri":"a.feature"}}
{"gherkinDocument":{"comments":[],"feature":{"children":[{"scenario":{"description":"","examples":[],"id":"0","keyword":"Scenario","location":{"column":3,"line":3},"name":"s","steps":[{"id":"1","keyword":"Given ","keywordType":"Context","location":{"column":5,"line":4},"text":"a"}],"tags":[]}}],"description":"","keyword":"Feature","language":"en","location":{"column":1,"line":1},"name":"f","tags":[]},"uri":"a.feature"}}
{"pickle":{"astNodeIds":["0"],"id":"3","language":"en","name":"s","steps":[{"astNodeIds":["1"],"id":"2","text":"a","type":"Context"}],"tags":[],"uri":"a.feature"}}
{"source":{"data":"Given x","mediaType":"text/x.cucumber.gherkin+plain","uri":"b.feature"}}
{"hook":{"id":"h"}}
{"testRunStarted":{}}
{"testRunHookStarted":{"id":"r1","hookId":"h"}}
{"testRunHookFinished":{"testRunHookStartedId":"r1","result":{"status":"FAILED"}}}
{"testCase":{"id":"c1","pickleId":"3","testSteps":[{"id":"t1","pickleStepId":"2"}]}}
{"testCase":{"id":"c2","pickleId":"3","testSteps":[{"id":"t1","pickleStepId":"2"}]}}
{"testCaseStarted":{"id":"a1","testCaseId":"c1","attempt":0}}
{"testStepStarted":{"testCaseStartedId":"a1","testStepId":"t1"}}
{"testStepFinished":{"testCaseStartedId":"a1","testStepId":"t1","testStepResult":{"status":"FAILED"}}}
{"testCaseFinished":{"testCaseStartedId":"a1","willBeRetried":false}}
{"testRunFinished":{"success":false,"exception":{"type":"E"}}}
"#;

const CAUSES: &str = "good sources=2 pickles=1 cases=2 attempts=1
stop NotSuccessful
FAILED a.feature:3 s step a.feature:4 a
NONE a.feature:3 s
RUNHOOK FAILED hook h
refused b.feature:1:1 1 Unexpected
exception
";

// The start of an attempt whose step ends before it starts, and what is said of it.
const NOT_DUE: &str =
    r#"{"source":{"data":"Feature: f\n\n  Scenario: s\n    Given a\n","mediaType":"text/x.cucumber.gherkin+plain","uri":"a.feature"}}
{"gherkinDocument":{"comments":[],"feature":{"children":[{"scenario":{"description":"","examples":[],"id":"0","keyword":"Scenario","location":{"column":3,"line":3},"name":"s","steps":[{"id":"1","keyword":"Given ","keywordType":"Context","location":{"column":5,"line":4},"text":"a"}],"tags":[]}}],"description":"","keyword":"Feature","language":"en","location":{"column":1,"line":1},"name":"f","tags":[]},"uri":"a.feature"}}
{"pickle":{"astNodeIds":["0"],"id":"3","language":"en","name":"s","steps":[{"astNodeIds":["1"],"id":"2","text":"a","type":"Context"}],"tags":[],"uri":"a.feature"}}
{"testRunStarted":{}}
{"testCase":{"id":"c1","pickleId":"3","testSteps":[{"id":"t1","pickleStepId":"2"}]}}
{"testCaseStarted":{"id":"a1","testCaseId":"c1","attempt":0}}
{"testStepFinished":{"testCaseStartedId":"a1","testStepId":"t1","testStepResult":{"status":"PASSED"}}}
"#;

const DUE: &str = "bad line 7: 14 StepOrder
case a.feature:3 s
attempt 0
due start a.feature:4 a
found finish a.feature:4 a
";

// A pickle that isn't the next one of its source, and what is said of it.
const OTHER_PICKLE: &str =
    r#"{"source":{"data":"Feature: f\n\n  Scenario: s\n    Given a\n","mediaType":"text/x.cucumber.gherkin+plain","uri":"a.feature"}}
{"gherkinDocument":{"comments":[],"feature":{"children":[{"scenario":{"description":"","examples":[],"id":"0","keyword":"Scenario","location":{"column":3,"line":3},"name":"s","steps":[{"id":"1","keyword":"Given ","keywordType":"Context","location":{"column":5,"line":4},"text":"a"}],"tags":[]}}],"description":"","keyword":"Feature","language":"en","location":{"column":1,"line":1},"name":"f","tags":[]},"uri":"a.feature"}}
{"pickle":{"astNodeIds":["0"],"id":"3","language":"en","name":"s","steps":[{"astNodeIds":["1"],"id":"2","text":"b","type":"Context"}],"tags":[],"uri":"a.feature"}}
"#;

const DUE_PICKLE: &str = r#"bad line 3: 9 PickleDiffers
due a.feature:3 s
expected {"pickle":{"astNodeIds":["0"],"language":"en","name":"s","steps":[{"astNodeIds":["1"],"text":"a","type":"Context"}],"tags":[],"uri":"a.feature"}}
found {"pickle":{"astNodeIds":["0"],"language":"en","name":"s","steps":[{"astNodeIds":["1"],"text":"b","type":"Context"}],"tags":[],"uri":"a.feature"}}
"#;

// A run that ends within an attempt, beside a source that is refused, and what is said of it.
const CUT_OFF: &str =
    r#"{"source":{"data":"Feature: f\n\n  Scenario: s\n    Given a\n","mediaType":"text/x.cucumber.gherkin+plain","uri":"a.feature"}}
{"gherkinDocument":{"comments":[],"feature":{"children":[{"scenario":{"description":"","examples":[],"id":"0","keyword":"Scenario","location":{"column":3,"line":3},"name":"s","steps":[{"id":"1","keyword":"Given ","keywordType":"Context","location":{"column":5,"line":4},"text":"a"}],"tags":[]}}],"description":"","keyword":"Feature","language":"en","location":{"column":1,"line":1},"name":"f","tags":[]},"uri":"a.feature"}}
{"pickle":{"astNodeIds":["0"],"id":"3","language":"en","name":"s","steps":[{"astNodeIds":["1"],"id":"2","text":"a","type":"Context"}],"tags":[],"uri":"a.feature"}}
{"source":{"data":"Given x","mediaType":"text/x.cucumber.gherkin+plain","uri":"b.feature"}}
{"testRunStarted":{}}
{"testCase":{"id":"c1","pickleId":"3","testSteps":[{"id":"t1","pickleStepId":"2"}]}}
{"testCaseStarted":{"id":"a1","testCaseId":"c1","attempt":0}}
"#;

const OPEN: &str = "bad line 8: 22 NoRunFinished
refused b.feature:1:1 1 Unexpected
case a.feature:3 s
";

const OUTLINE_TEXT: &str =
    "Feature: f\n  Scenario: s\n    Given <a>\n    Examples:\n      | a |\n      | x |\n      | x |\n      | y |\n";

fn read_outline(alloc: Global) -> Came {
    match read_text(alloc, &mut Pieces::new(OUTLINE_TEXT.as_bytes(), 7)) {
        Ok(text) => right_if(text.as_str() == OUTLINE_TEXT),
        Err(TextFault::Memory) => Came::Refused,
        Err(_) => Came::Wrong,
    }
}

#[test]
fn texts(rt: HostRuntime) -> Result<(), Fail> {
    meet_alone(rt.alloc(), RUNS, read_outline)
}

// What a run prints that is refused memory.
pub(crate) const NO_MEMORY: &str = "trouble Memory\n";

// A run that is refused memory says so, or nothing, and its status is that of a trouble.
fn came_of_run(status: u8, wanted: ExitStatus, sink: &Compared<'_>) -> Came {
    if status == wanted.code() {
        right_if(sink.has_wanted())
    } else if status == ExitStatus::Trouble.code() && (sink.has_none() || sink.has_other()) {
        Came::Refused
    } else {
        Came::Wrong
    }
}

fn came_of_words(
    alloc: Global,
    words: &[&str],
    input: &str,
    output: &str,
    wanted: ExitStatus,
) -> Came {
    let Ok(seed) = fixed_seed() else {
        return Came::Wrong;
    };
    let mut sink = Compared::new(output, NO_MEMORY);
    let status = run(
        alloc,
        seed,
        words,
        &mut Pieces::whole(input.as_bytes()),
        &mut sink,
    );
    came_of_run(status, wanted, &sink)
}

fn run_results(alloc: Global) -> Came {
    let told = "c1 PASSED\n";
    came_of_words(alloc, &["results"], PASSED, told, ExitStatus::Done)
}

fn run_audit(alloc: Global) -> Came {
    let good = "good sources=1 pickles=1 cases=2 attempts=2\n";
    came_of_words(alloc, &["audit"], INTERLEAVED, good, ExitStatus::Done)
}

fn run_compile(alloc: Global) -> Came {
    let words = ["compile", "--uri", "a.feature"];
    came_of_words(alloc, &words, PLAIN_TEXT, PLAIN_LINES, ExitStatus::Done)
}

fn run_cases(alloc: Global) -> Came {
    let told = "PASSED a.feature:3 s\nSKIPPED a.feature:3 s\n";
    came_of_words(alloc, &["cases"], INTERLEAVED, told, ExitStatus::Done)
}

fn run_cases_json(alloc: Global) -> Came {
    let told = r#"{"attempts":1,"line":3,"name":"s","status":"PASSED","tags":[],"uri":"a.feature"}
{"attempts":1,"line":3,"name":"s","status":"SKIPPED","tags":[],"uri":"a.feature"}
"#;
    let words = ["cases", "--json"];
    came_of_words(alloc, &words, INTERLEAVED, told, ExitStatus::Done)
}

fn run_gate(alloc: Global) -> Came {
    let released =
        "good sources=1 pickles=1 cases=2 attempts=2\nrelease retried=1 skipped=1 unrun=0\n";
    came_of_words(alloc, &["gate"], INTERLEAVED, released, ExitStatus::Done)
}

fn run_gate_held(alloc: Global) -> Came {
    let held = "good sources=1 pickles=1 cases=2 attempts=2\nstop Retried\nRETRIED a.feature:3 s\n";
    let words = ["gate", "--no-retries"];
    came_of_words(alloc, &words, INTERLEAVED, held, ExitStatus::Held)
}

const HOOK_AGAIN: &str = "{\"hook\":{\"id\":\"h\"}}\n{\"hook\":{\"id\":\"h\"}}\n";

fn run_gate_told(alloc: Global) -> Came {
    let told = "bad line 2: 4 DuplicateId\nid h\n";
    came_of_words(alloc, &["gate"], HOOK_AGAIN, told, ExitStatus::Refused)
}

fn run_parse(alloc: Global) -> Came {
    let told = "ok nodes=2 comments=0\n";
    came_of_words(alloc, &["parse"], PLAIN_TEXT, told, ExitStatus::Done)
}

fn run_gate_missing(alloc: Global) -> Came {
    came_of_words(alloc, &["gate"], INCOMPLETE, MISSING, ExitStatus::Refused)
}

fn run_gate_difference(alloc: Global) -> Came {
    came_of_words(alloc, &["gate"], MOVED, DIFFERENCE, ExitStatus::Refused)
}

fn run_gate_causes(alloc: Global) -> Came {
    came_of_words(alloc, &["gate"], FAILED, CAUSES, ExitStatus::Held)
}

fn run_gate_due(alloc: Global) -> Came {
    came_of_words(alloc, &["gate"], NOT_DUE, DUE, ExitStatus::Refused)
}

fn run_gate_skipped(alloc: Global) -> Came {
    let held = "good sources=1 pickles=1 cases=2 attempts=2\nstop Skipped\nSKIPPED a.feature:3 s\n";
    let words = ["gate", "--no-skips"];
    came_of_words(alloc, &words, INTERLEAVED, held, ExitStatus::Held)
}

fn run_gate_undefined(alloc: Global) -> Came {
    let held =
        "good sources=1 pickles=1 cases=2 attempts=2\nstop Undefined\nUNDEFINED a.feature:3 s step a.feature:4 a\n";
    let words = ["gate", "--no-undefined"];
    came_of_words(alloc, &words, INTERLEAVED, held, ExitStatus::Held)
}

fn run_gate_pickle(alloc: Global) -> Came {
    let told = ExitStatus::Refused;
    came_of_words(alloc, &["gate"], OTHER_PICKLE, DUE_PICKLE, told)
}

fn run_gate_open(alloc: Global) -> Came {
    came_of_words(alloc, &["gate"], CUT_OFF, OPEN, ExitStatus::Refused)
}

#[test]
fn runs_of_results(rt: HostRuntime) -> Result<(), Fail> {
    meet_alone(rt.alloc(), RUNS, run_results)
}

#[test]
fn runs_of_audit(rt: HostRuntime) -> Result<(), Fail> {
    meet_alone(rt.alloc(), RUNS, run_audit)
}

#[test]
fn runs_of_compile(rt: HostRuntime) -> Result<(), Fail> {
    meet_alone(rt.alloc(), RUNS, run_compile)
}

#[test]
fn runs_of_gate(rt: HostRuntime) -> Result<(), Fail> {
    meet_alone(rt.alloc(), RUNS, run_gate)
}

#[test]
fn runs_of_gate_that_are_held(rt: HostRuntime) -> Result<(), Fail> {
    meet_alone(rt.alloc(), RUNS, run_gate_held)
}

#[test]
fn runs_of_gate_that_tell_of_a_line(rt: HostRuntime) -> Result<(), Fail> {
    meet_alone(rt.alloc(), RUNS, run_gate_told)
}

#[test]
fn runs_of_gate_that_tell_what_is_missing(rt: HostRuntime) -> Result<(), Fail> {
    meet_alone(rt.alloc(), RUNS, run_gate_missing)
}

#[test]
fn runs_of_gate_that_tell_a_difference(rt: HostRuntime) -> Result<(), Fail> {
    meet_alone(rt.alloc(), RUNS, run_gate_difference)
}

#[test]
fn runs_of_gate_that_tell_causes(rt: HostRuntime) -> Result<(), Fail> {
    meet_alone(rt.alloc(), RUNS, run_gate_causes)
}

#[test]
fn runs_of_gate_that_tell_what_is_due(rt: HostRuntime) -> Result<(), Fail> {
    meet_alone(rt.alloc(), RUNS, run_gate_due)
}

#[test]
fn runs_of_gate_that_tell_of_skipped_cases(rt: HostRuntime) -> Result<(), Fail> {
    meet_alone(rt.alloc(), RUNS, run_gate_skipped)
}

#[test]
fn runs_of_gate_that_tell_of_undefined_steps(rt: HostRuntime) -> Result<(), Fail> {
    meet_alone(rt.alloc(), RUNS, run_gate_undefined)
}

#[test]
fn runs_of_gate_that_tell_of_a_pickle(rt: HostRuntime) -> Result<(), Fail> {
    meet_alone(rt.alloc(), RUNS, run_gate_pickle)
}

#[test]
fn runs_of_gate_that_tell_what_is_open(rt: HostRuntime) -> Result<(), Fail> {
    meet_alone(rt.alloc(), RUNS, run_gate_open)
}

#[test]
fn runs_of_parse(rt: HostRuntime) -> Result<(), Fail> {
    meet_alone(rt.alloc(), RUNS, run_parse)
}

#[test]
fn runs_of_cases(rt: HostRuntime) -> Result<(), Fail> {
    meet_alone(rt.alloc(), RUNS, run_cases)
}

#[test]
fn runs_of_cases_as_json(rt: HostRuntime) -> Result<(), Fail> {
    meet_alone(rt.alloc(), RUNS, run_cases_json)
}
