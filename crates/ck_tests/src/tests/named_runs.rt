//! The gate over named runs: files in memory, and standard input.
use crate::tests::lines::stream_of;
use crate::tests::memory_files::{A_RUN, BAD_RUN, expect_gate};
use ck_commands::{run, run_with};
use devices::{Failing, Pieces, Store};
use files::{NoOpener, OpenedFiles};
use seeds::fixed_seed;
use std::test::Fail;

#[test]
fn each_run_is_told_after_its_name(rt: HostRuntime) -> Result<(), Fail> {
    let text = "a: good sources=1 pickles=1 cases=1 attempts=1
a: release retried=0 skipped=0 unrun=0
failed: good sources=1 pickles=1 cases=1 attempts=1
failed: stop NotSuccessful
failed: FAILED a.feature:3 s step a.feature:4 a
bad: bad line 2: 16 SecondRunStarted
";
    let words = ["gate", "a", "failed", "bad"];
    expect_gate(&rt, rt.alloc(), &words, BAD_RUN, text, 5)
}

#[test]
fn the_status_is_that_of_the_first_run_that_is_not_released(rt: HostRuntime) -> Result<(), Fail> {
    let good = "a: good sources=1 pickles=1 cases=1 attempts=1
a: release retried=0 skipped=0 unrun=0
";
    expect_gate(&rt, rt.alloc(), &["gate", "a"], BAD_RUN, good, 0)?;
    let twice = "a: good sources=1 pickles=1 cases=1 attempts=1
a: release retried=0 skipped=0 unrun=0
a: good sources=1 pickles=1 cases=1 attempts=1
a: release retried=0 skipped=0 unrun=0
";
    let words = ["gate", "a", "a"];
    expect_gate(&rt, rt.alloc(), &words, BAD_RUN, twice, 0)?;
    let bad_first = "bad: bad line 2: 16 SecondRunStarted
a: good sources=1 pickles=1 cases=1 attempts=1
a: release retried=0 skipped=0 unrun=0
";
    expect_gate(
        &rt,
        rt.alloc(),
        &["gate", "bad", "a"],
        BAD_RUN,
        bad_first,
        1,
    )
}

#[test]
fn a_run_that_cannot_be_opened_keeps_none_back(rt: HostRuntime) -> Result<(), Fail> {
    let text = "missing: trouble ReadFailed
a: good sources=1 pickles=1 cases=1 attempts=1
a: release retried=0 skipped=0 unrun=0
";
    let words = ["gate", "missing", "a"];
    expect_gate(&rt, rt.alloc(), &words, BAD_RUN, text, 3)
}

#[test]
fn standard_input_is_a_run_where_it_is_named(rt: HostRuntime) -> Result<(), Fail> {
    let text = "a: good sources=1 pickles=1 cases=1 attempts=1
a: release retried=0 skipped=0 unrun=0
-: bad line 2: 16 SecondRunStarted
";
    expect_gate(&rt, rt.alloc(), &["gate", "a", "-"], BAD_RUN, text, 1)?;
    let alone = "-: good sources=1 pickles=1 cases=1 attempts=1
-: release retried=0 skipped=0 unrun=0
";
    expect_gate(&rt, rt.alloc(), &["gate", "-"], A_RUN, alone, 0)?;
    let unnamed = "good sources=1 pickles=1 cases=1 attempts=1
release retried=0 skipped=0 unrun=0
";
    expect_gate(&rt, rt.alloc(), &["gate"], A_RUN, unnamed, 0)
}

#[test]
fn names_are_shown_within_a_line(rt: HostRuntime) -> Result<(), Fail> {
    let text = "a\\nb\\u202e: good sources=1 pickles=1 cases=1 attempts=1
a\\nb\\u202e: release retried=0 skipped=0 unrun=0
";
    expect_gate(&rt, rt.alloc(), &["gate", "a\nb\u{202e}"], BAD_RUN, text, 0)
}

#[test]
fn options_are_asked_of_each_run(rt: HostRuntime) -> Result<(), Fail> {
    let text = "a: bad line 6: 12 AttemptNumber
a: case a.feature:3 s
a: attempt 0
a: due 1
";
    let words = ["gate", "--attempts-from", "1", "a"];
    expect_gate(&rt, rt.alloc(), &words, BAD_RUN, text, 1)
}

#[test]
fn without_files_none_can_be_opened(rt: HostRuntime) -> Result<(), Fail> {
    let seed = fixed_seed().expect(&rt, "a seed");
    let stream = stream_of(rt.alloc(), A_RUN)?;
    let mut source = Pieces::whole(stream.as_bytes());
    let mut sink = Store::new(rt.alloc(), 7);
    let words = ["gate", "a", "-"];
    let code = run(rt.alloc(), seed, &words, &mut source, &mut sink);
    let text = "a: trouble ReadFailed
-: good sources=1 pickles=1 cases=1 attempts=1
-: release retried=0 skipped=0 unrun=0
";
    assert_eq!(rt; sink.bytes(), text.as_bytes());
    assert_eq!(rt; code, 3);
    Ok(())
}

#[test]
fn a_failed_read_of_standard_input_is_told_of_it_alone(rt: HostRuntime) -> Result<(), Fail> {
    let seed = fixed_seed().expect(&rt, "a seed");
    let stream = stream_of(rt.alloc(), A_RUN)?;
    let mut source = Pieces::whole(stream.as_bytes()).failing_reads(Failing::Once(1));
    let mut sink = Store::new(rt.alloc(), 7);
    let mut files = OpenedFiles::new(rt.alloc(), NoOpener);
    let words = ["gate", "-"];
    let code = run_with(rt.alloc(), seed, &words, &mut files, &mut source, &mut sink);
    assert_eq!(rt; sink.bytes(), b"-: trouble ReadFailed\n".as_slice());
    assert_eq!(rt; code, 3);
    Ok(())
}

#[test]
fn no_line_is_printed_where_a_write_fails(rt: HostRuntime) -> Result<(), Fail> {
    let seed = fixed_seed().expect(&rt, "a seed");
    let mut source = Pieces::whole(b"");
    let mut sink = Store::new(rt.alloc(), 7).failing_writes(Failing::EverSince(1));
    let words = ["gate", "missing"];
    let code = run(rt.alloc(), seed, &words, &mut source, &mut sink);
    assert_eq!(rt; sink.bytes(), b"".as_slice());
    assert_eq!(rt; code, 3);
    Ok(())
}
