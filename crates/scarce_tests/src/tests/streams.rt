//! Envelopes, audits and written features in want of memory.
use crate::tests::meeting::{Came, PIECES, SMALL, meet_alone, right_if};
use cm_audit::{Counts, Verdict, audit};
use cm_compile::{CompileFault, write_compiled};
use cm_envelope::{Envelope, EnvelopeFault, NodeId, Trouble};
use cm_reading::read_envelope;
use devices::{Compared, Pieces};
use seeds::fixed_seed;
use std::alloc::Global;
use std::test::Fail;

pub(crate) const PLAIN_TEXT: &str = "Feature: f\n\n  Scenario: s\n    Given a\n";

const SOURCE: &str =
    r#"{"source":{"data":"Feature: f\n\n  Scenario: s\n    Given a\n","mediaType":"text/x.cucumber.gherkin+plain","uri":"a.feature"}}"#;

const DOCUMENT: &str =
    r#"{"gherkinDocument":{"comments":[],"feature":{"children":[{"scenario":{"description":"","examples":[],"id":"0","keyword":"Scenario","location":{"column":3,"line":3},"name":"s","steps":[{"id":"1","keyword":"Given ","keywordType":"Context","location":{"column":5,"line":4},"text":"a"}],"tags":[]}}],"description":"","keyword":"Feature","language":"en","location":{"column":1,"line":1},"name":"f","tags":[]},"uri":"a.feature"}}"#;

const PICKLE: &str =
    r#"{"pickle":{"astNodeIds":["0"],"id":"3","language":"en","name":"s","steps":[{"astNodeIds":["1"],"id":"2","text":"a","type":"Context"}],"tags":[],"uri":"a.feature"}}"#;

// The lines that `compile` writes of the plain text.
pub(crate) const PLAIN_LINES: &str =
    r#"{"source":{"data":"Feature: f\n\n  Scenario: s\n    Given a\n","mediaType":"text/x.cucumber.gherkin+plain","uri":"a.feature"}}
{"gherkinDocument":{"comments":[],"feature":{"children":[{"scenario":{"description":"","examples":[],"id":"0","keyword":"Scenario","location":{"column":3,"line":3},"name":"s","steps":[{"id":"1","keyword":"Given ","keywordType":"Context","location":{"column":5,"line":4},"text":"a"}],"tags":[]}}],"description":"","keyword":"Feature","language":"en","location":{"column":1,"line":1},"name":"f","tags":[]},"uri":"a.feature"}}
{"pickle":{"astNodeIds":["0"],"id":"3","language":"en","name":"s","steps":[{"astNodeIds":["1"],"id":"2","text":"a","type":"Context"}],"tags":[],"uri":"a.feature"}}
"#;

// The plain text's lines, and a run of two cases whose attempts are interleaved.
pub(crate) const INTERLEAVED: &str =
    r#"{"source":{"data":"Feature: f\n\n  Scenario: s\n    Given a\n","mediaType":"text/x.cucumber.gherkin+plain","uri":"a.feature"}}
{"gherkinDocument":{"comments":[],"feature":{"children":[{"scenario":{"description":"","examples":[],"id":"0","keyword":"Scenario","location":{"column":3,"line":3},"name":"s","steps":[{"id":"1","keyword":"Given ","keywordType":"Context","location":{"column":5,"line":4},"text":"a"}],"tags":[]}}],"description":"","keyword":"Feature","language":"en","location":{"column":1,"line":1},"name":"f","tags":[]},"uri":"a.feature"}}
{"pickle":{"astNodeIds":["0"],"id":"3","language":"en","name":"s","steps":[{"astNodeIds":["1"],"id":"2","text":"a","type":"Context"}],"tags":[],"uri":"a.feature"}}
{"testRunStarted":{}}
{"testCase":{"id":"c1","pickleId":"3","testSteps":[{"id":"t1","pickleStepId":"2"}]}}
{"testCase":{"id":"c2","pickleId":"3","testSteps":[{"id":"t1","pickleStepId":"2"}]}}
{"testCaseStarted":{"id":"a1","testCaseId":"c1","attempt":0}}
{"testCaseStarted":{"id":"b1","testCaseId":"c2","attempt":0}}
{"testStepStarted":{"testCaseStartedId":"a1","testStepId":"t1"}}
{"testStepStarted":{"testCaseStartedId":"b1","testStepId":"t1"}}
{"testStepFinished":{"testCaseStartedId":"a1","testStepId":"t1","testStepResult":{"status":"PASSED"}}}
{"testStepFinished":{"testCaseStartedId":"b1","testStepId":"t1","testStepResult":{"status":"SKIPPED"}}}
{"testCaseFinished":{"testCaseStartedId":"b1","willBeRetried":false}}
{"testCaseFinished":{"testCaseStartedId":"a1","willBeRetried":false}}
{"testRunFinished":{"success":true}}
"#;

fn came_of(read: &Result<Envelope, EnvelopeFault>, is_wanted: bool) -> Came {
    match read {
        Ok(_) => right_if(is_wanted),
        Err(EnvelopeFault::Memory) => Came::Refused,
        Err(_) => Came::Wrong,
    }
}

fn is_source(read: &Result<Envelope, EnvelopeFault>) -> bool {
    match read {
        Ok(Envelope::Source(source)) => {
            source.uri.as_str() == "a.feature" && source.content.as_str() == PLAIN_TEXT
        }
        _ => false,
    }
}

fn are_ids(ids: &[NodeId]) -> bool {
    match ids {
        [scenario, step] => scenario.as_str() == "0" && step.as_str() == "1",
        _ => false,
    }
}

fn is_document(read: &Result<Envelope, EnvelopeFault>) -> bool {
    match read {
        Ok(Envelope::GherkinDocument(tree)) => are_ids(tree.ids.as_slice()),
        _ => false,
    }
}

fn is_pickle(read: &Result<Envelope, EnvelopeFault>) -> bool {
    match read {
        Ok(Envelope::Pickle(pickle)) => pickle.id.as_str() == "3" && pickle.steps.len() == 1,
        _ => false,
    }
}

fn read_source(alloc: Global) -> Came {
    let read = read_envelope(alloc, SOURCE.as_bytes());
    let came = came_of(&read, is_source(&read));
    drop(read);
    came
}

fn read_document(alloc: Global) -> Came {
    let read = read_envelope(alloc, DOCUMENT.as_bytes());
    let came = came_of(&read, is_document(&read));
    drop(read);
    came
}

fn read_pickle(alloc: Global) -> Came {
    let read = read_envelope(alloc, PICKLE.as_bytes());
    let came = came_of(&read, is_pickle(&read));
    drop(read);
    came
}

#[test]
fn a_source(rt: HostRuntime) -> Result<(), Fail> {
    meet_alone(rt.alloc(), SMALL, read_source)
}

#[test]
fn a_document(rt: HostRuntime) -> Result<(), Fail> {
    meet_alone(rt.alloc(), SMALL, read_document)
}

#[test]
fn a_pickle(rt: HostRuntime) -> Result<(), Fail> {
    meet_alone(rt.alloc(), SMALL, read_pickle)
}

fn audit_interleaved(alloc: Global) -> Came {
    let Ok(seed) = fixed_seed() else {
        return Came::Wrong;
    };
    match audit(alloc, seed, &mut Pieces::whole(INTERLEAVED.as_bytes())) {
        Ok(verdict) => right_if(
            verdict
                == Verdict::Good(Counts {
                    sources: 1,
                    pickles: 1,
                    cases: 2,
                    attempts: 2,
                    unrun: 0,
                }),
        ),
        Err(Trouble::Memory) => Came::Refused,
        Err(_) => Came::Wrong,
    }
}

#[test]
fn audits(rt: HostRuntime) -> Result<(), Fail> {
    meet_alone(rt.alloc(), PIECES, audit_interleaved)
}

// A refused call has written nothing.
fn write_plain(alloc: Global) -> Came {
    let Ok(seed) = fixed_seed() else {
        return Came::Wrong;
    };
    let mut sink = Compared::new(PLAIN_LINES, "");
    match write_compiled(alloc, seed, "a.feature", PLAIN_TEXT, &mut sink) {
        Ok(()) => right_if(sink.has_wanted()),
        Err(CompileFault::Memory) => if sink.has_none() {
            Came::Refused
        } else {
            Came::Wrong
        },
        Err(_) => Came::Wrong,
    }
}

#[test]
fn written_lines(rt: HostRuntime) -> Result<(), Fail> {
    meet_alone(rt.alloc(), SMALL, write_plain)
}
