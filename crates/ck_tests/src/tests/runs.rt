//! Runs of `results`, and of other commands over devices that fail.
use crate::tests::lines::{RETRIED, stream_of};
use crate::tests::running::{expect_results, expect_run};
use devices::{FailedWrite, Failing, Pieces, Store};
use std::alloc::{AllocError, Global};
use std::process::Abort;
use std::test::Fail;

const CASE_1: &str =
    r#"{"testCase":{"id":"c1","pickleId":"3","testSteps":[{"id":"t1","pickleStepId":"2"}]}}"#;

const CASE_2: &str =
    r#"{"testCase":{"id":"c2","pickleId":"3","testSteps":[{"id":"t1","pickleStepId":"2"}]}}"#;

const START_1: &str = r#"{"testCaseStarted":{"id":"a1","testCaseId":"c1","attempt":0}}"#;

const START_2: &str = r#"{"testCaseStarted":{"id":"a2","testCaseId":"c1","attempt":1}}"#;

const START_2_AS_2: &str = r#"{"testCaseStarted":{"id":"a2","testCaseId":"c1","attempt":2}}"#;

const STEP_1: &str = r#"{"testStepStarted":{"testCaseStartedId":"a1","testStepId":"t1"}}"#;

const STEP_2: &str = r#"{"testStepStarted":{"testCaseStartedId":"a2","testStepId":"t1"}}"#;

const STEP_9: &str = r#"{"testStepStarted":{"testCaseStartedId":"a1","testStepId":"t9"}}"#;

const PASSED_1: &str =
    r#"{"testStepFinished":{"testCaseStartedId":"a1","testStepId":"t1","testStepResult":{"status":"PASSED"}}}"#;

const FAILED_1: &str =
    r#"{"testStepFinished":{"testCaseStartedId":"a1","testStepId":"t1","testStepResult":{"status":"FAILED"}}}"#;

const SKIPPED_2: &str =
    r#"{"testStepFinished":{"testCaseStartedId":"a2","testStepId":"t1","testStepResult":{"status":"SKIPPED"}}}"#;

const END_1: &str = r#"{"testCaseFinished":{"testCaseStartedId":"a1","willBeRetried":false}}"#;

const RETRY_1: &str = r#"{"testCaseFinished":{"testCaseStartedId":"a1","willBeRetried":true}}"#;

const END_2: &str = r#"{"testCaseFinished":{"testCaseStartedId":"a2","willBeRetried":false}}"#;

// The lines, each with its LF.
fn stream(alloc: Global, lines: &[&str]) -> Result<String, AllocError> {
    let mut text = String::new(alloc);
    for line in lines {
        text.push_str(line)?;
        text.push_str("\n")?;
    }
    Ok(text)
}

fn expect_lines(
    rt: &impl Abort,
    alloc: Global,
    lines: &[&str],
    text: &str,
    status: u8,
) -> Result<(), Fail> {
    let bytes = stream(alloc, lines)?;
    expect_results(rt, alloc, bytes.as_bytes(), text, status);
    Ok(())
}

// A stream whose last line has no LF.
fn expect_without_line_feed(
    rt: &impl Abort,
    alloc: Global,
    lines: &[&str],
    text: &str,
) -> Result<(), Fail> {
    let bytes = stream(alloc, lines)?;
    let without_line_feed = bytes.as_str().trim_end().as_bytes();
    expect_results(rt, alloc, without_line_feed, text, 0);
    Ok(())
}

#[test]
fn tables_at_the_end_of_a_stream(rt: HostRuntime) -> Result<(), Fail> {
    let passed = [CASE_1, START_1, STEP_1, PASSED_1, END_1];
    expect_lines(&rt, rt.alloc(), &passed, "c1 PASSED\n", 0)?;
    expect_without_line_feed(&rt, rt.alloc(), &passed, "c1 PASSED\n")?;
    expect_lines(
        &rt,
        rt.alloc(),
        &[CASE_1, START_1, STEP_1, PASSED_1, END_1, CASE_2],
        "c1 PASSED\nc2 NONE\n",
        0,
    )?;
    expect_lines(
        &rt,
        rt.alloc(),
        &[CASE_1, START_1, STEP_1, FAILED_1, RETRY_1],
        "c1 NONE\n",
        0,
    )?;
    expect_lines(
        &rt,
        rt.alloc(),
        &[
            CASE_2, CASE_1, START_1, STEP_1, FAILED_1, RETRY_1, START_2, STEP_2, SKIPPED_2, END_2,
        ],
        "c2 NONE\nc1 SKIPPED\n",
        0,
    )?;
    expect_results(&rt, rt.alloc(), b"", "", 0);
    Ok(())
}

#[test]
fn each_fault_at_its_line(rt: HostRuntime) -> Result<(), Fail> {
    expect_lines(
        &rt,
        rt.alloc(),
        &[CASE_1, "{"],
        "bad line 2: 1 NotJson\n",
        1,
    )?;
    expect_lines(
        &rt,
        rt.alloc(),
        &["", " \t\r", "[]"],
        "bad line 3: 2 Shape\n",
        1,
    )?;
    expect_lines(
        &rt,
        rt.alloc(),
        &[r#"{"testCase":{"id":"c1"}}"#],
        "bad line 1: 3 Field testCase.pickleId\n",
        1,
    )?;
    expect_lines(
        &rt,
        rt.alloc(),
        &[CASE_1, CASE_1],
        "bad line 2: 4 DuplicateId\n",
        1,
    )?;
    expect_lines(
        &rt,
        rt.alloc(),
        &[START_1],
        "bad line 1: 6 UnknownReference\n",
        1,
    )?;
    expect_lines(
        &rt,
        rt.alloc(),
        &[CASE_1, STEP_1],
        "bad line 2: 6 UnknownReference\n",
        1,
    )?;
    expect_lines(
        &rt,
        rt.alloc(),
        &[CASE_1, START_1, STEP_9],
        "bad line 3: 6 UnknownReference\n",
        1,
    )?;
    expect_lines(
        &rt,
        rt.alloc(),
        &[CASE_1, START_1, STEP_1, FAILED_1, RETRY_1, START_2_AS_2],
        "bad line 6: 12 AttemptNumber\n",
        1,
    )?;
    expect_lines(
        &rt,
        rt.alloc(),
        &[CASE_1, START_1, START_2],
        "bad line 3: 13 AttemptOverlap\n",
        1,
    )?;
    expect_lines(
        &rt,
        rt.alloc(),
        &[CASE_1, START_1, PASSED_1],
        "bad line 3: 14 StepOrder\n",
        1,
    )?;
    expect_lines(
        &rt,
        rt.alloc(),
        &[CASE_1, START_1, END_1],
        "bad line 3: 15 FinishedEarly\n",
        1,
    )
}

#[test]
fn a_read_that_fails_after_20_bytes(rt: HostRuntime) -> Result<(), Fail> {
    let stream = stream_of(rt.alloc(), RETRIED)?;
    let bytes = stream.as_bytes();
    assert!(rt; bytes.len() >= 20);
    for word in ["audit", "parse", "results"] {
        let mut source = Pieces::whole(&bytes[..20]).failing_at_end();
        let mut sink = Store::new(rt.alloc(), 7);
        let told = "trouble ReadFailed\n";
        expect_run(&rt, rt.alloc(), &[word], &mut source, &mut sink, told, 3);
        assert_eq!(rt; source.failed_reads(), 1);
    }
    Ok(())
}

#[test]
fn writes_that_fail_or_take_nothing(rt: HostRuntime) {
    for failed in [FailedWrite::Refuses, FailedWrite::TakesNone] {
        let mut source = Pieces::whole(CASE_1.as_bytes());
        let mut sink = Store::new(rt.alloc(), 3)
            .failing_writes(Failing::Once(2))
            .failing_by(failed);
        let told = "c1 trouble WriteFailed\n";
        expect_run(
            &rt,
            rt.alloc(),
            &["results"],
            &mut source,
            &mut sink,
            told,
            3,
        );
        assert_eq!(rt; sink.failed_calls(), 1);
    }
}

#[test]
fn a_flush_that_fails(rt: HostRuntime) -> Result<(), Fail> {
    let stream = stream_of(rt.alloc(), RETRIED)?;
    let good = "good sources=1 pickles=1 cases=1 attempts=2\n";
    for (word, told) in [("audit", good), ("results", "c1 PASSED\n")] {
        let mut source = Pieces::whole(stream.as_bytes());
        let mut sink = Store::new(rt.alloc(), 3).failing_flushes(Failing::EverSince(1));
        expect_run(&rt, rt.alloc(), &[word], &mut source, &mut sink, told, 3);
    }
    Ok(())
}
