//! The envelopes of single lines.
use cm_envelope::{Envelope, EnvelopeFault, LineFault, Status, TestCase};
use cm_reading::read_envelope;
use std::alloc::{AllocError, Global};
use std::process::Abort;
use std::test::Fail;

// The names of a fault and of its field.
fn names_of(fault: &EnvelopeFault) -> (&'static str, &'static str) {
    match fault {
        EnvelopeFault::Line(LineFault::NotJson) => ("NotJson", ""),
        EnvelopeFault::Line(LineFault::Shape) => ("Shape", ""),
        EnvelopeFault::Line(LineFault::Field(kind, field)) => (kind, field),
        EnvelopeFault::Memory => ("Memory", ""),
    }
}

fn expect_fault(rt: &impl Abort, read: &Result<Envelope, EnvelopeFault>, kind: &str, field: &str) {
    match read {
        Err(fault) => {
            let (found_kind, found_field) = names_of(fault);
            assert!(rt; found_kind == kind);
            assert!(rt; found_field == field);
        }
        Ok(_) => assert!(rt; false, "no fault"),
    }
}

// What a line is to give.
#[derive(Clone, Copy)]
enum Wanted<'a> {
    Fault(&'a str, &'a str),
    Good,
    Other,
    Attempt(&'a str),
    Case,
    Status(&'a str),
}

fn expect_read(rt: &impl Abort, read: &Result<Envelope, EnvelopeFault>, wanted: Wanted<'_>) {
    match wanted {
        Wanted::Fault(kind, field) => expect_fault(rt, read, kind, field),
        Wanted::Good => assert!(rt; read.is_ok()),
        Wanted::Other => assert!(rt; matches!(read, Ok(Envelope::Other))),
        Wanted::Attempt(number) => expect_attempt(rt, read, number),
        Wanted::Case => expect_case_read(rt, read),
        Wanted::Status(word) => expect_status(rt, read, word),
    }
}

// A line gives what is wanted.
fn expect(rt: &impl Abort, alloc: Global, line: &[u8], wanted: Wanted<'_>) {
    let read = read_envelope(alloc, line);
    expect_read(rt, &read, wanted);
    drop(read);
}

pub(crate) fn refuses(rt: &impl Abort, alloc: Global, line: &[u8], kind: &str, field: &str) {
    expect(rt, alloc, line, Wanted::Fault(kind, field));
}

pub(crate) fn accepts(rt: &impl Abort, alloc: Global, line: &[u8]) {
    expect(rt, alloc, line, Wanted::Good);
}

// Each line of the table is a field, and the text between front and end for which the field is at fault.
pub(crate) fn refuses_each(
    rt: &impl Abort,
    alloc: Global,
    kind: &str,
    front: &str,
    table: &str,
    end: &str,
) -> Result<(), Fail> {
    for told in table.lines() {
        let (field, members) = told.split_once(' ').ok_or("no field")?;
        let line = format!(in alloc; "{front}{members}{end}")?;
        refuses(rt, alloc, line.as_bytes(), kind, field);
    }
    Ok(())
}

// The kind and the field of each fault (`-` for none), and the line that has it.
const FAULTS: &str = r#"Shape - []
testCase id {"testCase":{}}
Shape - {"testCase":[]}
Shape - {"testCase":{},"testStepStarted":{}}
NotJson - {} {}
testCase pickleId {"testCase":{"testSteps":5,"id":"c"}}
testCase testSteps {"testCase":{"testSteps":5,"id":"c","pickleId":"p"}}
testCase testSteps {"testCase":{"testSteps":[{}],"id":"c","pickleId":"p"}}
testCase id {"testCase":{"testSteps":[{"hookId":5}],"id":"c","pickleId":"p"}}
testCase stepDefinitionIds {"testCase":{"testSteps":[{"id":"t","hookId":"h","stepDefinitionIds":[1]}],"id":"c","pickleId":"p"}}
testStepFinished testStepResult {"testStepFinished":{"testCaseStartedId":"a","testStepId":"t"}}
testStepFinished status {"testStepFinished":{"testCaseStartedId":"a","testStepId":"t","testStepResult":{"status":"passed"}}}
testRunHookFinished testRunHookStartedId {"testRunHookFinished":{"result":{}}}
testRunHookFinished status {"testRunHookFinished":{"testRunHookStartedId":"r","result":{}}}
testRunHookFinished status {"testRunHookFinished":{"testRunHookStartedId":"r","result":{"status":null}}}
testRunHookFinished status {"testRunHookFinished":{"testRunHookStartedId":"r","result":{"status":1}}}
testRunHookFinished status {"testRunHookFinished":{"testRunHookStartedId":"r","result":{"status":"passed"}}}
parseError uri {"parseError":{"source":{}}}
parseError uri {"parseError":{"source":{"uri":null}}}
parseError uri {"parseError":{"source":{"uri":["a.feature"]}}}"#;

#[test]
fn faults_of_lines(rt: HostRuntime) -> Result<(), Fail> {
    let alloc = rt.alloc();
    for told in FAULTS.lines() {
        let (kind, rest) = told.split_once(' ').ok_or("no kind")?;
        let (field, line) = rest.split_once(' ').ok_or("no field")?;
        let field = if field == "-" { "" } else { field };
        refuses(&rt, alloc, line.as_bytes(), kind, field);
    }
    Ok(())
}

#[test]
fn lines_without_a_value(rt: HostRuntime) {
    for line in [
        b"".as_slice(),
        b"\xff".as_slice(),
        b"\xef\xbb\xbf{}".as_slice(),
    ] {
        refuses(&rt, rt.alloc(), line, "NotJson", "");
    }
}

#[test]
fn white_space_around_a_value(rt: HostRuntime) {
    let alloc = rt.alloc();
    expect(&rt, alloc, b"{\"meta\":{}}\r", Wanted::Other);
    expect(&rt, alloc, b" \t{ \"meta\" : {} }\r", Wanted::Other);
}

fn push_times(line: &mut Vec<u8>, byte: u8, times: usize) -> Result<(), AllocError> {
    for _ in 0..times {
        line.push(byte)?;
    }
    Ok(())
}

#[test]
fn nesting(rt: HostRuntime) -> Result<(), Fail> {
    let alloc = rt.alloc();
    let mut line = Vec::new(alloc);
    for depth in 1..201 {
        line.clear();
        push_times(&mut line, b'[', depth)?;
        push_times(&mut line, b']', depth)?;
        let expected = if depth <= 127 { "Shape" } else { "NotJson" };
        refuses(&rt, alloc, line.as_slice(), expected, "");
    }
    Ok(())
}

// The text of the member, and the number that is read, or `-` where the line is refused.
const ATTEMPTS: &str = r#"0 0
18446744073709551615 18446744073709551615
null 0
-1 -
"0" -
1.0 -
1e2 -
-0 -
18446744073709551616 -"#;

fn expect_attempt(rt: &impl Abort, read: &Result<Envelope, EnvelopeFault>, wanted: &str) {
    match read {
        Ok(Envelope::TestCaseStarted(started)) => {
            assert!(rt; wanted.parse::<u64>() == Ok(started.attempt));
            assert!(rt; started.id.as_str() == "a1");
        }
        Ok(_) => assert!(rt; false, "another kind"),
        Err(_) => {
            assert!(rt; wanted == "-");
            expect_fault(rt, read, "testCaseStarted", "attempt");
        }
    }
}

#[test]
fn attempts(rt: HostRuntime) -> Result<(), Fail> {
    let alloc = rt.alloc();
    for told in ATTEMPTS.lines() {
        let (text, wanted) = told.split_once(' ').ok_or("no number")?;
        let line = format!(in alloc;
            "{{\"testCaseStarted\":{{\"id\":\"a1\",\"testCaseId\":\"c1\",\"attempt\":{text}}}}}"
        )?;
        expect(&rt, alloc, line.as_bytes(), Wanted::Attempt(wanted));
    }
    Ok(())
}

fn expect_case(rt: &impl Abort, case: &TestCase) {
    assert!(rt; case.id.as_str() == "c1" && case.pickle_id.as_str() == "3");
    let steps = case.test_steps.as_slice();
    assert_eq!(rt; steps.len(), 1);
    assert!(rt; steps[0].id.as_str() == "t1");
    assert!(rt; steps[0].hook_id.is_none());
}

fn expect_case_read(rt: &impl Abort, read: &Result<Envelope, EnvelopeFault>) {
    match read {
        Ok(Envelope::TestCase(case)) => expect_case(rt, case),
        _ => assert!(rt; false, "no test case"),
    }
}

#[test]
fn a_test_case(rt: HostRuntime) {
    let line =
        r#"{"testCase":{"id":"c1","pickleId":"3","testSteps":[{"id":"t1","pickleStepId":"2"}]}}"#;
    expect(&rt, rt.alloc(), line.as_bytes(), Wanted::Case);
}

pub(crate) fn word_of(status: Status) -> &'static str {
    match status {
        Status::Unknown => "UNKNOWN",
        Status::Passed => "PASSED",
        Status::Skipped => "SKIPPED",
        Status::Pending => "PENDING",
        Status::Undefined => "UNDEFINED",
        Status::Ambiguous => "AMBIGUOUS",
        Status::Failed => "FAILED",
    }
}

fn expect_status(rt: &impl Abort, read: &Result<Envelope, EnvelopeFault>, word: &str) {
    match read {
        Ok(Envelope::TestStepFinished(step)) => {
            assert!(rt; word_of(step.test_step_result.status) == word);
        }
        _ => assert!(rt; false, "no finished step"),
    }
}

const STATUSES: &str = "UNKNOWN\nPASSED\nSKIPPED\nPENDING\nUNDEFINED\nAMBIGUOUS\nFAILED";

#[test]
fn each_status(rt: HostRuntime) -> Result<(), Fail> {
    let alloc = rt.alloc();
    for word in STATUSES.lines() {
        let line = format!(in alloc;
            "{{\"testStepFinished\":{{\"testCaseStartedId\":\"a\",\"testStepId\":\"t\",\"testStepResult\":{{\"status\":\"{word}\"}}}}}}"
        )?;
        expect(&rt, alloc, line.as_bytes(), Wanted::Status(word));
    }
    Ok(())
}

#[test]
fn values_that_are_not_json(rt: HostRuntime) {
    let alloc = rt.alloc();
    // A lone surrogate, a number past every float, a control character, a leading zero.
    refuses(&rt, alloc, b"{\"a\":\"\\ud800\"}", "NotJson", "");
    refuses(&rt, alloc, b"{\"a\":1e999}", "NotJson", "");
    refuses(&rt, alloc, b"{\"a\":\"\x01\"}", "NotJson", "");
    refuses(&rt, alloc, b"{\"a\":01}", "NotJson", "");
    // The last of repeated members counts.
    expect(
        &rt,
        alloc,
        b"{\"testCase\":{},\"testCase\":null}",
        Wanted::Other,
    );
}
