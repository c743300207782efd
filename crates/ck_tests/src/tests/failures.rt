//! Each command where a read, a write or a flush fails: the status is 3, and no call is made again.
use crate::tests::compiled::{LINES, TEXT};
use crate::tests::lines::{RETRIED, stream_of};
use crate::tests::running::{Runner, WithoutFiles, expect_run_by};
use ck_commands::run;
use devices::{FailedWrite, Failing, Pieces, Store};
use seeds::fixed_seed;
use std::alloc::Global;
use std::process::Abort;
use std::test::Fail;

// A command, what it reads, and what it prints of that with this status.
#[derive(Clone, Copy)]
pub(crate) struct Case<'a, R> {
    pub(crate) runner: R,
    pub(crate) words: &'a [&'a str],
    pub(crate) input: &'a str,
    pub(crate) text: &'a str,
    pub(crate) status: u8,
}

// The most bytes of a read, and of a write.
const READ: usize = 40;

const WRITE: usize = 7;

const READ_FAILED: &str = "trouble ReadFailed\n";

const WRITE_FAILED: &str = "trouble WriteFailed\n";

// With this source and this sink the command prints this text, and ends with status 3.
fn expect_trouble<R: Runner>(
    rt: &impl Abort,
    alloc: Global,
    case: &Case<'_, R>,
    source: &mut Pieces<'_>,
    sink: &mut Store,
    text: &str,
) {
    expect_run_by(rt, alloc, &case.runner, case.words, source, sink, text, 3);
}

// Where no call fails, what is wanted is printed. Gives how many reads that takes.
fn expect_whole<R: Runner>(rt: &impl Abort, alloc: Global, case: &Case<'_, R>) -> u64 {
    let mut source = Pieces::new(case.input.as_bytes(), READ);
    let mut sink = Store::new(alloc, WRITE);
    expect_run_by(
        rt,
        alloc,
        &case.runner,
        case.words,
        &mut source,
        &mut sink,
        case.text,
        case.status,
    );
    assert_eq!(rt; sink.flushes(), 1);
    source.reads()
}

// The read of this number fails, and the write that says so may fail too.
fn expect_failed_read<R: Runner>(rt: &impl Abort, alloc: Global, case: &Case<'_, R>, number: u64) {
    for (writes, text) in [
        (Failing::Never, READ_FAILED),
        (Failing::Once(1), WRITE_FAILED),
        (Failing::EverSince(1), ""),
    ] {
        let pieces = Pieces::new(case.input.as_bytes(), READ);
        let mut source = pieces.failing_reads(Failing::Once(number));
        let mut sink = Store::new(alloc, WRITE).failing_writes(writes);
        expect_trouble(rt, alloc, case, &mut source, &mut sink, text);
        assert_eq!(rt; source.reads(), number);
        assert_eq!(rt; source.failed_reads(), 1);
    }
}

// The sink has taken so many bytes of the text, and then this.
fn expect_front(rt: &impl Abort, taken: &[u8], text: &str, front: usize, told: &str) {
    assert!(rt; taken.len() == front.saturating_add(told.len()));
    assert!(rt; front <= taken.len());
    assert!(rt; text.as_bytes().starts_with(&taken[..front]));
    assert!(rt; taken.ends_with(told.as_bytes()));
}

// These writes fail, the first of them after so many bytes. After it nothing but the trouble is written, as far as it goes.
fn expect_failed_write<R: Runner>(
    rt: &impl Abort,
    alloc: Global,
    case: &Case<'_, R>,
    sink: Store,
    front: usize,
    told: &str,
) {
    let mut source = Pieces::whole(case.input.as_bytes());
    let mut sink = sink;
    let status = case.runner.run(alloc, case.words, &mut source, &mut sink);
    assert_eq!(rt; status, 3);
    expect_front(rt, sink.bytes(), case.text, front, told);
}

// The write of this number fails, which comes after so many bytes: alone, or with each after it.
fn expect_broken<R: Runner>(
    rt: &impl Abort,
    alloc: Global,
    case: &Case<'_, R>,
    number: u64,
    front: usize,
) {
    for failed in [FailedWrite::Refuses, FailedWrite::TakesNone] {
        let sink = Store::new(alloc, WRITE).failing_by(failed);
        let once = sink.failing_writes(Failing::Once(number));
        expect_failed_write(rt, alloc, case, once, front, WRITE_FAILED);
        let sink = Store::new(alloc, WRITE).failing_by(failed);
        let ever = sink.failing_writes(Failing::EverSince(number));
        expect_failed_write(rt, alloc, case, ever, front, "");
    }
}

// Each write of the text fails in turn.
fn expect_failed_writes<R: Runner>(rt: &impl Abort, alloc: Global, case: &Case<'_, R>) {
    let mut number = 1u64;
    let mut front = 0usize;
    for piece in case.text.as_bytes().chunks(WRITE) {
        expect_broken(rt, alloc, case, number, front);
        number = number.saturating_add(1);
        front = front.saturating_add(piece.len());
    }
}

// The flush fails: after the whole text, or after the trouble of a failed write.
fn expect_failed_flush<R: Runner>(rt: &impl Abort, alloc: Global, case: &Case<'_, R>) {
    for (writes, text) in [
        (Failing::Never, case.text),
        (Failing::Once(1), WRITE_FAILED),
    ] {
        let mut source = Pieces::whole(case.input.as_bytes());
        let sink = Store::new(alloc, WRITE).failing_flushes(Failing::EverSince(1));
        let mut sink = sink.failing_writes(writes);
        expect_trouble(rt, alloc, case, &mut source, &mut sink, text);
        assert_eq!(rt; sink.flushes(), 1);
    }
}

pub(crate) fn expect_failures<R: Runner>(rt: &impl Abort, alloc: Global, case: &Case<'_, R>) {
    let reads = expect_whole(rt, alloc, case);
    for number in 1..=reads {
        expect_failed_read(rt, alloc, case, number);
    }
    expect_failed_writes(rt, alloc, case);
    expect_failed_flush(rt, alloc, case);
}

// The same of a command over no files.
fn expect_failures_of(
    rt: &impl Abort,
    alloc: Global,
    words: &[&str],
    input: &str,
    text: &str,
    status: u8,
) {
    let seed = fixed_seed().expect(rt, "a seed");
    let runner = WithoutFiles { seed };
    let case = Case {
        runner,
        words,
        input,
        text,
        status,
    };
    expect_failures(rt, alloc, &case);
}

// The same of a stream of these lines.
fn expect_stream(
    rt: &impl Abort,
    alloc: Global,
    word: &str,
    lines: &str,
    text: &str,
    status: u8,
) -> Result<(), Fail> {
    let stream = stream_of(alloc, lines)?;
    expect_failures_of(rt, alloc, &[word], stream.as_str(), text, status);
    Ok(())
}

#[test]
fn failures_of_parse(rt: HostRuntime) {
    let text = "ok nodes=2 comments=0\n";
    expect_failures_of(&rt, rt.alloc(), &["parse"], TEXT, text, 0);
}

#[test]
fn failures_of_compile(rt: HostRuntime) {
    let words = ["compile", "--uri", "a.feature"];
    expect_failures_of(&rt, rt.alloc(), &words, TEXT, LINES, 0);
}

#[test]
fn failures_with_a_refused_text(rt: HostRuntime) {
    let input = "Feature: f\n  Scenario: s\n    Given a\n  Background:\n";
    let text = "refused 4:3 1 Unexpected\n";
    expect_failures_of(&rt, rt.alloc(), &["parse"], input, text, 1);
    let words = ["compile", "--uri", "a.feature"];
    expect_failures_of(&rt, rt.alloc(), &words, input, text, 1);
}

#[test]
fn failures_of_the_version(rt: HostRuntime) {
    let text = "cukecheck 0.1.0\n";
    expect_failures_of(&rt, rt.alloc(), &["--version"], "[]", text, 0);
}

// What the words print where no call fails, of which the rest is told where one does.
fn expect_words_to_fail(
    rt: &impl Abort,
    alloc: Global,
    words: &[&str],
    status: u8,
) -> Result<(), Fail> {
    let seed = fixed_seed().expect(rt, "a seed");
    let mut sink = Store::new(alloc, usize::MAX);
    let code = run(alloc, seed, words, &mut Pieces::whole(b""), &mut sink);
    assert_eq!(rt; code, status);
    let text = std::str::from_utf8(sink.bytes())?;
    assert!(rt; !text.is_empty());
    expect_failures_of(rt, alloc, words, "[]", text, status);
    Ok(())
}

#[test]
fn failures_of_help_and_of_mistakes(rt: HostRuntime) -> Result<(), Fail> {
    expect_words_to_fail(&rt, rt.alloc(), &["help", "parse"], 0)?;
    expect_words_to_fail(&rt, rt.alloc(), &["parse", "x"], 2)
}

const GOOD: &str = "good sources=1 pickles=1 cases=1 attempts=2\n";

const HELD: &str = "good sources=0 pickles=0 cases=0 attempts=0\nstop Empty\n";

const MOVED: &str = r#"bad line 2: 8 TreeDiffers
uri a.feature
expected {"step":{"keyword":"Given ","location":{"line":4},"text":"a"}}
found {"step":{"keyword":"Given ","location":{"line":5},"text":"a"}}
"#;

const NEVER_RAN: &str =
    "good sources=1 pickles=1 cases=1 attempts=0\nstop NotSuccessful\nNONE a.feature:3 s\n";

#[test]
fn failures_of_audit(rt: HostRuntime) -> Result<(), Fail> {
    expect_stream(&rt, rt.alloc(), "audit", RETRIED, GOOD, 0)?;
    let text = "unsupported line 1: 1 Language\n";
    expect_stream(&rt, rt.alloc(), "audit", "french", text, 4)
}

const NO_OBJECT: &str = "bad line 1: 2 Shape\n";

#[test]
fn failures_with_a_bad_stream(rt: HostRuntime) -> Result<(), Fail> {
    expect_stream(&rt, rt.alloc(), "audit", "array", NO_OBJECT, 1)?;
    expect_stream(&rt, rt.alloc(), "gate", "array", NO_OBJECT, 1)?;
    expect_stream(&rt, rt.alloc(), "results", "array", NO_OBJECT, 1)?;
    expect_stream(&rt, rt.alloc(), "cases", "array", NO_OBJECT, 1)
}

#[test]
fn failures_of_gate(rt: HostRuntime) -> Result<(), Fail> {
    let text = format!(in rt.alloc(); "{GOOD}release retried=1 skipped=0 unrun=0\n")?;
    expect_stream(&rt, rt.alloc(), "gate", RETRIED, text.as_str(), 0)?;
    expect_stream(&rt, rt.alloc(), "gate", "run well", HELD, 5)
}

#[test]
fn failures_of_a_gate_that_says_why(rt: HostRuntime) -> Result<(), Fail> {
    let lines = "source document_moved";
    expect_stream(&rt, rt.alloc(), "gate", lines, MOVED, 1)?;
    let lines = "source document pickle run case:c1:t1 unwell";
    expect_stream(&rt, rt.alloc(), "gate", lines, NEVER_RAN, 5)
}

#[test]
fn failures_of_results(rt: HostRuntime) -> Result<(), Fail> {
    expect_stream(&rt, rt.alloc(), "results", RETRIED, "c1 PASSED\n", 0)
}

#[test]
fn failures_of_cases(rt: HostRuntime) -> Result<(), Fail> {
    let text = "PASSED a.feature:3 s\n";
    expect_stream(&rt, rt.alloc(), "cases", RETRIED, text, 0)
}

#[test]
fn failures_of_cases_as_json(rt: HostRuntime) -> Result<(), Fail> {
    let stream = stream_of(rt.alloc(), RETRIED)?;
    let words = ["cases", "--json"];
    let text = r#"{"attempts":2,"line":3,"name":"s","status":"PASSED","tags":[],"uri":"a.feature"}
"#;
    expect_failures_of(&rt, rt.alloc(), &words, stream.as_str(), text, 0);
    Ok(())
}
