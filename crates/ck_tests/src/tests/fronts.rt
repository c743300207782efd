//! Verdicts on streams that are cut, that come in other ways, or that are long.
use crate::tests::lines::{RETRIED, repeated, stream_of};
use crate::tests::running::expect_told;
use devices::Pieces;
use std::alloc::Global;
use std::process::Abort;
use std::test::Fail;

// What is reported of a front with so many whole lines, by whether it ends with one of them, and whether its last line is whole.
fn told_of_front(
    alloc: Global,
    lines: u64,
    is_at_start: bool,
    is_whole: bool,
) -> Result<String, Fail> {
    let next = lines.saturating_add(1);
    if is_at_start {
        return Ok(format!(in alloc; "bad line {next}: 22 NoRunFinished\n")?);
    }
    if !is_whole {
        return Ok(format!(in alloc; "bad line {next}: 1 NotJson\n")?);
    }
    if next == 14 {
        return Ok(String::from_str(alloc, "good sources=1 pickles=1 cases=1 attempts=2\n")?);
    }
    let later = next.saturating_add(1);
    Ok(format!(in alloc; "bad line {later}: 22 NoRunFinished\n")?)
}

// How far a front has come: the number of its whole lines, and whether it ends with one of them.
#[derive(Clone, Copy)]
struct Front {
    lines: u64,
    is_at_start: bool,
}

// The front's bytes, and whether its last line is whole.
fn expect_front(
    rt: &impl Abort,
    alloc: Global,
    bytes: &[u8],
    front: Front,
    is_whole: bool,
) -> Result<(), Fail> {
    let told = told_of_front(alloc, front.lines, front.is_at_start, is_whole)?;
    let is_good = !front.is_at_start && is_whole && front.lines == 13;
    let status = if is_good { 0 } else { 1 };
    expect_told(
        rt,
        alloc,
        "audit",
        Pieces::whole(bytes),
        told.as_str(),
        status,
    );
    Ok(())
}

fn expect_fronts(rt: &impl Abort, alloc: Global, bytes: &[u8]) -> Result<(), Fail> {
    let mut front = Front {
        lines: 0,
        is_at_start: true,
    };
    for (size, byte) in bytes.iter().enumerate() {
        let is_whole = *byte == b'\n';
        expect_front(rt, alloc, &bytes[..size], front, is_whole)?;
        front.is_at_start = is_whole;
        if is_whole {
            front.lines = front.lines.saturating_add(1);
        }
    }
    Ok(())
}

#[test]
fn fronts_of_a_good_stream(rt: HostRuntime) -> Result<(), Fail> {
    let stream = stream_of(rt.alloc(), RETRIED)?;
    expect_fronts(&rt, rt.alloc(), stream.as_bytes())
}

// The read after these bytes fails: in single bytes, and after all of them at once.
fn expect_failed(rt: &impl Abort, alloc: Global, bytes: &[u8]) {
    for most in [1, usize::MAX] {
        let source = Pieces::new(bytes, most).failing_at_end();
        expect_told(rt, alloc, "audit", source, "trouble ReadFailed\n", 3);
    }
}

#[test]
fn a_read_that_fails_after_each_byte(rt: HostRuntime) -> Result<(), Fail> {
    let stream = stream_of(rt.alloc(), RETRIED)?;
    let bytes = stream.as_bytes();
    for (size, _) in bytes.iter().enumerate() {
        expect_failed(&rt, rt.alloc(), &bytes[..size]);
    }
    expect_failed(&rt, rt.alloc(), bytes);
    Ok(())
}

#[test]
fn a_good_stream_in_pieces(rt: HostRuntime) -> Result<(), Fail> {
    let stream = stream_of(rt.alloc(), RETRIED)?;
    for most in [1, 3] {
        let source = Pieces::new(stream.as_bytes(), most);
        let told = "good sources=1 pickles=1 cases=1 attempts=2\n";
        expect_told(&rt, rt.alloc(), "audit", source, told, 0);
    }
    Ok(())
}

#[test]
fn lines_that_end_in_two_characters(rt: HostRuntime) -> Result<(), Fail> {
    let alloc = rt.alloc();
    let stream = stream_of(alloc, RETRIED)?;
    let other = stream.as_str().replace(alloc, "\n", "\r\n")?;
    let told = "good sources=1 pickles=1 cases=1 attempts=2\n";
    expect_told(
        &rt,
        alloc,
        "audit",
        Pieces::whole(other.as_bytes()),
        told,
        0,
    );
    Ok(())
}

fn push_lines(stream: &mut String, alloc: Global, words: &str) -> Result<(), Fail> {
    let lines = stream_of(alloc, words)?;
    Ok(stream.push_str(lines.as_str())?)
}

fn push_case(stream: &mut String, alloc: Global, i: i32) -> Result<(), Fail> {
    let words = format!(in alloc;
        "case:c{i}:t1 start:a{i}:c{i}:0 step:a{i}:t1 end:a{i}:t1:PASSED done:a{i}:false"
    )?;
    push_lines(stream, alloc, words.as_str())
}

fn push_cases(stream: &mut String, alloc: Global) -> Result<(), Fail> {
    push_lines(stream, alloc, "source document pickle run")?;
    for i in 0..1000 {
        push_case(stream, alloc, i)?;
    }
    push_lines(stream, alloc, "well")
}

#[test]
fn a_thousand_cases(rt: HostRuntime) -> Result<(), Fail> {
    let mut stream = String::new(rt.alloc());
    push_cases(&mut stream, rt.alloc())?;
    let told = "good sources=1 pickles=1 cases=1000 attempts=1000\n";
    expect_told(
        &rt,
        rt.alloc(),
        "audit",
        Pieces::whole(stream.as_bytes()),
        told,
        0,
    );
    Ok(())
}

// What `audit` answers for a source with this text, whose characters are written as `unit`, so many times.
fn expect_too_long(rt: &impl Abort, alloc: Global, unit: &str, times: u32) -> Result<(), Fail> {
    let mut line = String::from_str(alloc, "{\"source\":{\"data\":\"")?;
    line.push_str(repeated(alloc, unit, times)?.as_str())?;
    line.push_str(
        "\",\"mediaType\":\"text/x.cucumber.gherkin+plain\",\"uri\":\"l.feature\"}}\n[]\n",
    )?;
    let told = "unsupported line 1: 5 SourceTooLong\n";
    expect_told(rt, alloc, "audit", Pieces::whole(line.as_bytes()), told, 4);
    Ok(())
}

#[test]
fn sources_that_are_too_long(rt: HostRuntime) -> Result<(), Fail> {
    let alloc = rt.alloc();
    expect_too_long(&rt, alloc, " ", 16_777_217)?;
    expect_too_long(&rt, alloc, "\\n", 1_000_001)
}
