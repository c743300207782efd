//! A stream in which each call finds something to tell: a feature file with two scenarios, of which the first failed and the second
//! has no test case, another that is refused, a run hook that failed, one that isn't finished, and an exception.
use cm_envelope::{Envelope, EnvelopeFault};
use cm_reading::read_envelope;
use cm_reasons::Trail;
use std::alloc::Global;
use std::test::Fail;

pub(crate) const TEXT: &str =
    "Feature: f\n  Scenario: one\n    Given x\n  Scenario: two\n    Given y\n";

// A feature file with its document.
pub(crate) const FEATURE: &str =
    r#"{"source":{"data":"Feature: f\n  Scenario: one\n    Given x\n  Scenario: two\n    Given y\n","mediaType":"text/x.cucumber.gherkin+plain","uri":"a.feature"}}
{"gherkinDocument":{"comments":[],"feature":{"children":[{"scenario":{"description":"","examples":[],"id":"s1","keyword":"Scenario","location":{"column":3,"line":2},"name":"one","steps":[{"id":"n1","keyword":"Given ","keywordType":"Context","location":{"column":5,"line":3},"text":"x"}],"tags":[]}},{"scenario":{"description":"","examples":[],"id":"s2","keyword":"Scenario","location":{"column":3,"line":4},"name":"two","steps":[{"id":"n2","keyword":"Given ","keywordType":"Context","location":{"column":5,"line":5},"text":"y"}],"tags":[]}}],"description":"","keyword":"Feature","language":"en","location":{"column":1,"line":1},"name":"f","tags":[]},"uri":"a.feature"}}
"#;

pub(crate) const FIRST_PICKLE: &str =
    r#"{"pickle":{"astNodeIds":["s1"],"id":"p1","language":"en","name":"one","steps":[{"astNodeIds":["n1"],"id":"q1","text":"x","type":"Context"}],"tags":[],"uri":"a.feature"}}
"#;

pub(crate) const SECOND_PICKLE: &str =
    r#"{"pickle":{"astNodeIds":["s2"],"id":"p2","language":"en","name":"two","steps":[{"astNodeIds":["n2"],"id":"q2","text":"y","type":"Context"}],"tags":[],"uri":"a.feature"}}
"#;

// A feature file that is refused.
pub(crate) const REFUSED: &str =
    r#"{"source":{"data":"Given x\nFeature: f\n","mediaType":"text/x.cucumber.gherkin+plain","uri":"b.feature"}}
"#;

// Two hooks, and the run: the first hook failed, the second isn't finished.
pub(crate) const HOOKS: &str = r#"{"hook":{"id":"early"}}
{"hook":{"id":"late"}}
{"testRunStarted":{}}
{"testRunHookStarted":{"id":"k1","hookId":"early"}}
{"testRunHookFinished":{"testRunHookStartedId":"k1","result":{"status":"FAILED"}}}
{"testRunHookStarted":{"id":"k2","hookId":"late"}}
"#;

// A test case of the first pickle, with an attempt whose step failed and that isn't finished.
pub(crate) const ATTEMPT: &str =
    r#"{"testCase":{"id":"c1","pickleId":"p1","testSteps":[{"id":"t1","pickleStepId":"q1"}]}}
{"testCaseStarted":{"id":"a1","testCaseId":"c1","attempt":0}}
{"testStepStarted":{"testCaseStartedId":"a1","testStepId":"t1"}}
{"testStepFinished":{"testCaseStartedId":"a1","testStepId":"t1","testStepResult":{"status":"FAILED"}}}
"#;

pub(crate) const END_OF_ATTEMPT: &str =
    r#"{"testCaseFinished":{"testCaseStartedId":"a1","willBeRetried":false}}
"#;

pub(crate) const UNSUCCESSFUL: &str = r#"{"testRunFinished":{"success":false}}
"#;

// All of them, in this order.
const PARTS: [&str; 7] = [
    FEATURE,
    FIRST_PICKLE,
    SECOND_PICKLE,
    REFUSED,
    HOOKS,
    ATTEMPT,
    END_OF_ATTEMPT,
];

/// The parts of a stream one after another.
pub(crate) fn joined(alloc: Global, parts: &[&str]) -> Result<String, Fail> {
    let mut text = String::new(alloc);
    for part in parts {
        text.push_str(part)?;
    }
    Ok(text)
}

/// The stream, to the end of the attempt.
pub(crate) fn whole(alloc: Global) -> Result<String, Fail> {
    joined(alloc, &PARTS)
}

/// The envelope of a line.
pub(crate) fn envelope_of(alloc: Global, line: &str) -> Result<Envelope, Fail> {
    match read_envelope(alloc, line.as_bytes()) {
        Ok(envelope) => Ok(envelope),
        Err(EnvelopeFault::Memory) => Err(Fail::from("no memory")),
        Err(EnvelopeFault::Line(_)) => Err(Fail::from("no envelope")),
    }
}

fn note_line(alloc: Global, trail: &mut Trail, line: &str) -> Result<(), Fail> {
    let envelope = envelope_of(alloc, line)?;
    let noted = trail.note(alloc, &envelope);
    drop(envelope);
    Ok(noted?)
}

/// What the lines of reasons name of these lines.
pub(crate) fn trail_of(alloc: Global, lines: &str) -> Result<Trail, Fail> {
    let mut trail = Trail::new(alloc);
    for line in lines.lines() {
        note_line(alloc, &mut trail, line)?;
    }
    Ok(trail)
}

/// What they name of the whole stream.
pub(crate) fn whole_trail(alloc: Global) -> Result<Trail, Fail> {
    let stream = whole(alloc)?;
    let trail = trail_of(alloc, stream.as_str());
    drop(stream);
    trail
}
