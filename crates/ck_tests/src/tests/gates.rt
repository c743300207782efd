//! Which runs the gate releases, and streams whose attempts are numbered from 1.
use crate::tests::lines::{expect_rows, stream_of};
use crate::tests::running::{expect_run, expect_words};
use devices::{FailedWrite, Failing, Pieces, Store};
use std::alloc::Global;
use std::process::Abort;
use std::test::Fail;

const PLAIN: &str =
    "good sources=1 pickles=1 cases=1 attempts=1/release retried=0 skipped=0 unrun=0/ 0 = source document pickle run case:c1:t1 start:a1:c1:0 step:a1:t1 end:a1:t1:PASSED done:a1:false well
good sources=1 pickles=1 cases=1 attempts=1/release retried=0 skipped=1 unrun=0/ 0 = source document pickle run case:c1:t1 start:a1:c1:0 step:a1:t1 end:a1:t1:SKIPPED done:a1:false well
good sources=1 pickles=1 cases=1 attempts=1/release retried=0 skipped=0 unrun=0/ 0 = stepless stepless_document stepless_pickle run stepless_case start:a1:c1:0 done:a1:false well
good sources=1 pickles=1 cases=1 attempts=2/release retried=1 skipped=0 unrun=0/ 0 = source document pickle run case:c1:t1 start:a1:c1:0 step:a1:t1 end:a1:t1:FAILED done:a1:true start:a2:c1:1 step:a2:t1 end:a2:t1:PASSED done:a2:false well
good sources=1 pickles=1 cases=1 attempts=1/stop NotSuccessful/FAILED a.feature:3 s step a.feature:4 a/ 5 = source document pickle run case:c1:t1 start:a1:c1:0 step:a1:t1 end:a1:t1:FAILED done:a1:false unwell
good sources=1 pickles=1 cases=1 attempts=0/stop NotSuccessful/NONE a.feature:3 s/ 5 = source document pickle run case:c1:t1 unwell
good sources=1 pickles=0 cases=0 attempts=0/stop NotSuccessful/refused b.feature:1:1 1 Unexpected/ 5 = refused refused_error run unwell
good sources=2 pickles=2 cases=1 attempts=1 unrun=1/stop NotSuccessful/FAILED a.feature:3 s step a.feature:4 a/ 5 = source document pickle source_b document_b pickle_b run case:c1:t1 start:a1:c1:0 step:a1:t1 end:a1:t1:FAILED done:a1:false unwell
good sources=0 pickles=0 cases=0 attempts=0/stop Empty/ 5 = run well
good sources=1 pickles=1 cases=0 attempts=0 unrun=1/stop Empty/ 5 = source document pickle run well
good sources=2 pickles=2 cases=1 attempts=1 unrun=1/stop Unrun/UNRUN b.feature:3 t/ 5 = source document pickle source_b document_b pickle_b run case:c1:t1 start:a1:c1:0 step:a1:t1 end:a1:t1:PASSED done:a1:false well
bad line 10: 21 SuccessDiffers/PENDING a.feature:3 s step a.feature:4 a/ 1 = source document pickle run case:c1:t1 start:a1:c1:0 step:a1:t1 end:a1:t1:PENDING done:a1:false well
good sources=1 pickles=1 cases=1 attempts=1/stop NotSuccessful/PENDING a.feature:3 s step a.feature:4 a/ 5 = source document pickle run case:c1:t1 start:a1:c1:0 step:a1:t1 end:a1:t1:PENDING done:a1:false unwell
bad line 6: 12 AttemptNumber/case a.feature:3 s/attempt 1/due 0/ 1 = source document pickle run case:c1:t1 start:a1:c1:1 step:a1:t1 end:a1:t1:PASSED done:a1:false well
bad line 1: 17 OutsideRun/ 1 = well
unsupported line 1: 1 Language/uri f.feature/ 4 = french";

#[test]
fn runs_that_are_released_and_runs_that_are_not(rt: HostRuntime) -> Result<(), Fail> {
    expect_rows(&rt, rt.alloc(), &["gate"], PLAIN)
}

// What the gate tells of the line that decides.
const TOLD: &str = "bad line 2: 4 DuplicateId/id h/ 1 = null_source null_source
bad line 6: 4 DuplicateId/id c1/ 1 = source document pickle run case:c1:t1 case:c1:t1
bad line 7: 4 DuplicateId/id a1/ 1 = source document pickle run case:c1:t1 start:a1:c1:0 start:a1:c1:1
bad line 7: 4 DuplicateId/id r1/ 1 = source document pickle hook run hook_start hook_start
bad line 2: 4 DuplicateId/id d/ 1 = definition definition
bad line 2: 4 DuplicateId/id 0/ 1 = source document_with_one_id
bad line 3: 4 DuplicateId/id 21/ 1 = background background_document background_pickle_with_one_id
bad line 6: 4 DuplicateId/id 3/ 1 = source document pickle source_b document_b pickle_b_with_id_3
bad line 6: 4 DuplicateId/id t1/ 1 = source document pickle hook run case_with_one_id
bad line 2: 5 DuplicateUri/uri a.feature/ 1 = source source
bad line 1: 6 UnknownReference/uri a.feature/ 1 = document
bad line 2: 6 UnknownReference/uri a.feature/ 1 = source pickle
bad line 3: 6 UnknownReference/id 3/ 1 = source document case:c1:t1
bad line 5: 6 UnknownReference/id d/ 1 = source document pickle run matched_case
bad line 6: 6 UnknownReference/id d/ 1 = source document pickle hook run hooked_case
bad line 6: 6 UnknownReference/id d/ 1 = source document pickle definition run case_hooked_by_d
bad line 6: 6 UnknownReference/id c2/ 1 = source document pickle run case:c1:t1 start:a1:c2:0
bad line 7: 6 UnknownReference/id t9/ 1 = source document pickle run case:c1:t1 start:a1:c1:0 step:a1:t9
bad line 7: 6 UnknownReference/id a9/ 1 = source document pickle run case:c1:t1 start:a1:c1:0 step:a9:t9
bad line 2: 6 UnknownReference/id h/ 1 = run hook_start
bad line 3: 6 UnknownReference/id r1/ 1 = hook run hook_passed
bad line 4: 10 ParseErrorOfGoodSource/uri a.feature/ 1 = source document pickle error
bad line 5: 11 CaseStepsDiffer/case a.feature:3 s/ 1 = source document pickle run case_without_steps
bad line 7: 13 AttemptOverlap/case a.feature:3 s/attempt 1/ 1 = source document pickle run case:c1:t1 start:a1:c1:0 start:a2:c1:1
bad line 12: 13 AttemptOverlap/case b.feature:3 t/attempt 1/ 1 = source document pickle source_b document_b pickle_b run case:c1:t1 case_b start:a1:c1:0 start:b1:c2:0 start:b2:c2:1
bad line 2: 16 SecondRunStarted/ 1 = run run
bad line 1: 1 NotJson/ 1 = brackets:200
unsupported line 1: 2 MediaType/uri m.feature/ 4 = markdown";

#[test]
fn what_is_wrong_with_a_line(rt: HostRuntime) -> Result<(), Fail> {
    expect_rows(&rt, rt.alloc(), &["gate"], TOLD)
}

const WITH_UNRUN: &str =
    "good sources=2 pickles=2 cases=1 attempts=1 unrun=1/release retried=0 skipped=0 unrun=1/ 0 = source document pickle source_b document_b pickle_b run case:c1:t1 start:a1:c1:0 step:a1:t1 end:a1:t1:PASSED done:a1:false well
good sources=2 pickles=2 cases=1 attempts=1 unrun=1/stop NotSuccessful/FAILED a.feature:3 s step a.feature:4 a/ 5 = source document pickle source_b document_b pickle_b run case:c1:t1 start:a1:c1:0 step:a1:t1 end:a1:t1:FAILED done:a1:false unwell
good sources=1 pickles=1 cases=0 attempts=0 unrun=1/stop Empty/ 5 = source document pickle run well
good sources=0 pickles=0 cases=0 attempts=0/stop Empty/ 5 = run well";

#[test]
fn pickles_without_a_case_that_are_allowed(rt: HostRuntime) -> Result<(), Fail> {
    expect_rows(&rt, rt.alloc(), &["gate", "--allow-unrun"], WITH_UNRUN)
}

const WITH_PENDING: &str =
    "good sources=1 pickles=1 cases=1 attempts=1/release retried=0 skipped=0 unrun=0/ 0 = source document pickle run case:c1:t1 start:a1:c1:0 step:a1:t1 end:a1:t1:PENDING done:a1:false well
bad line 10: 21 SuccessDiffers/nothing failed/ 1 = source document pickle run case:c1:t1 start:a1:c1:0 step:a1:t1 end:a1:t1:PENDING done:a1:false unwell
good sources=1 pickles=1 cases=1 attempts=1/stop NotSuccessful/UNDEFINED a.feature:3 s step a.feature:4 a/ 5 = source document pickle run case:c1:t1 start:a1:c1:0 step:a1:t1 end:a1:t1:UNDEFINED done:a1:false unwell
good sources=1 pickles=1 cases=0 attempts=0 unrun=1/stop Empty/ 5 = source document pickle hook run hook_start hook_pending well";

#[test]
fn gates_where_pending_passes(rt: HostRuntime) -> Result<(), Fail> {
    expect_rows(&rt, rt.alloc(), &["gate", "--pending-passes"], WITH_PENDING)
}

// What `audit` says of attempts from 1, and what `gate` says of the same streams.
const AUDITED_FROM_ONE: &str =
    "good sources=1 pickles=1 cases=1 attempts=1/ 0 = source document pickle run case:c1:t1 start:a1:c1:1 step:a1:t1 end:a1:t1:PASSED done:a1:false well
good sources=1 pickles=1 cases=1 attempts=2/ 0 = source document pickle run case:c1:t1 start:a1:c1:1 step:a1:t1 end:a1:t1:FAILED done:a1:true start:a2:c1:2 step:a2:t1 end:a2:t1:PASSED done:a2:false well
good sources=2 pickles=2 cases=2 attempts=2/ 0 = source document pickle source_b document_b pickle_b run case:c1:t1 case_b start:a1:c1:1 step:a1:t1 end:a1:t1:PASSED done:a1:false start:b1:c2:1 step:b1:t1 end:b1:t1:PASSED done:b1:false well";

const RELEASED_FROM_ONE: &str =
    "good sources=1 pickles=1 cases=1 attempts=1/release retried=0 skipped=0 unrun=0/ 0 = source document pickle run case:c1:t1 start:a1:c1:1 step:a1:t1 end:a1:t1:PASSED done:a1:false well
good sources=1 pickles=1 cases=1 attempts=2/release retried=1 skipped=0 unrun=0/ 0 = source document pickle run case:c1:t1 start:a1:c1:1 step:a1:t1 end:a1:t1:FAILED done:a1:true start:a2:c1:2 step:a2:t1 end:a2:t1:PASSED done:a2:false well
good sources=2 pickles=2 cases=2 attempts=2/release retried=0 skipped=0 unrun=0/ 0 = source document pickle source_b document_b pickle_b run case:c1:t1 case_b start:a1:c1:1 step:a1:t1 end:a1:t1:PASSED done:a1:false start:b1:c2:1 step:b1:t1 end:b1:t1:PASSED done:b1:false well";

// Numbers that aren't due, by `audit` and by `gate`.
const BAD_FROM_ONE: &str =
    "bad line 6: 12 AttemptNumber/ 1 = source document pickle run case:c1:t1 start:a1:c1:0
bad line 6: 12 AttemptNumber/ 1 = source document pickle run case:c1:t1 start:a1:c1:2
bad line 6: 12 AttemptNumber/ 1 = source document pickle run case:c1:t1 start_without_number
bad line 10: 12 AttemptNumber/ 1 = source document pickle run case:c1:t1 start:a1:c1:1 step:a1:t1 end:a1:t1:FAILED done:a1:true start:a2:c1:1
bad line 10: 12 AttemptNumber/ 1 = source document pickle run case:c1:t1 start:a1:c1:1 step:a1:t1 end:a1:t1:FAILED done:a1:true start:a2:c1:3
bad line 13: 12 AttemptNumber/ 1 = source document pickle source_b document_b pickle_b run case:c1:t1 case_b start:a1:c1:1 step:a1:t1 end:a1:t1:PASSED start:b1:c2:0";

const TOLD_FROM_ONE: &str =
    "bad line 6: 12 AttemptNumber/case a.feature:3 s/attempt 0/due 1/ 1 = source document pickle run case:c1:t1 start:a1:c1:0
bad line 6: 12 AttemptNumber/case a.feature:3 s/attempt 2/due 1/ 1 = source document pickle run case:c1:t1 start:a1:c1:2
bad line 6: 12 AttemptNumber/case a.feature:3 s/attempt 0/due 1/ 1 = source document pickle run case:c1:t1 start_without_number
bad line 10: 12 AttemptNumber/case a.feature:3 s/attempt 1/due 2/ 1 = source document pickle run case:c1:t1 start:a1:c1:1 step:a1:t1 end:a1:t1:FAILED done:a1:true start:a2:c1:1
bad line 10: 12 AttemptNumber/case a.feature:3 s/attempt 3/due 2/ 1 = source document pickle run case:c1:t1 start:a1:c1:1 step:a1:t1 end:a1:t1:FAILED done:a1:true start:a2:c1:3
bad line 13: 12 AttemptNumber/case b.feature:3 t/attempt 0/due 1/ 1 = source document pickle source_b document_b pickle_b run case:c1:t1 case_b start:a1:c1:1 step:a1:t1 end:a1:t1:PASSED start:b1:c2:0";

// What `results` says of attempts from 1.
const RESULTS_FROM_ONE: &str =
    "c1 PASSED/ 0 = case:c1:t1 start:a1:c1:1 step:a1:t1 end:a1:t1:FAILED done:a1:true start:a2:c1:2 step:a2:t1 end:a2:t1:PASSED done:a2:false
c1 NONE/c2 SKIPPED/ 0 = case:c1:t1 case:c2:t1 start:a1:c1:1 start:b1:c2:1 step:b1:t1 end:b1:t1:SKIPPED done:b1:false
bad line 2: 12 AttemptNumber/ 1 = case:c1:t1 start:a1:c1:0
bad line 2: 12 AttemptNumber/ 1 = case:c1:t1 start_without_number";

#[test]
fn attempts_that_are_numbered_from_one(rt: HostRuntime) -> Result<(), Fail> {
    for (command, good, bad) in [
        ("audit", AUDITED_FROM_ONE, BAD_FROM_ONE),
        ("gate", RELEASED_FROM_ONE, TOLD_FROM_ONE),
    ] {
        let words = [command, "--attempts-from", "1"];
        expect_rows(&rt, rt.alloc(), &words, good)?;
        expect_rows(&rt, rt.alloc(), &words, bad)?;
        expect_rows(&rt, rt.alloc(), &[command, "--attempts-from=1"], good)?;
    }
    let words = ["results", "--attempts-from", "1"];
    expect_rows(&rt, rt.alloc(), &words, RESULTS_FROM_ONE)
}

// The first number is 0 where the words say so, or say nothing, and an attempt without a number has 0.
const AUDITED_FROM_ZERO: &str =
    "good sources=1 pickles=1 cases=1 attempts=1/ 0 = source document pickle run case:c1:t1 start_without_number step:a1:t1 end:a1:t1:PASSED done:a1:false well";

const RELEASED_FROM_ZERO: &str =
    "good sources=1 pickles=1 cases=1 attempts=1/release retried=0 skipped=0 unrun=0/ 0 = source document pickle run case:c1:t1 start_without_number step:a1:t1 end:a1:t1:PASSED done:a1:false well";

const BAD_FROM_ZERO: &str =
    "bad line 6: 12 AttemptNumber/ 1 = source document pickle run case:c1:t1 start:a1:c1:1";

const TOLD_FROM_ZERO: &str =
    "bad line 6: 12 AttemptNumber/case a.feature:3 s/attempt 1/due 0/ 1 = source document pickle run case:c1:t1 start:a1:c1:1";

#[test]
fn attempts_that_are_numbered_from_zero(rt: HostRuntime) -> Result<(), Fail> {
    for (command, good, bad) in [
        ("audit", AUDITED_FROM_ZERO, BAD_FROM_ZERO),
        ("gate", RELEASED_FROM_ZERO, TOLD_FROM_ZERO),
    ] {
        expect_rows(&rt, rt.alloc(), &[command], good)?;
        expect_rows(&rt, rt.alloc(), &[command], bad)?;
        let words = [command, "--attempts-from", "0"];
        expect_rows(&rt, rt.alloc(), &words, good)?;
        expect_rows(&rt, rt.alloc(), &words, bad)?;
    }
    let bad = "bad line 2: 12 AttemptNumber/ 1 = case:c1:t1 start:a1:c1:1";
    expect_rows(&rt, rt.alloc(), &["results"], bad)?;
    expect_rows(&rt, rt.alloc(), &["results", "--attempts-from", "0"], bad)
}

#[test]
fn all_options_of_the_gate(rt: HostRuntime) -> Result<(), Fail> {
    let rows =
        "good sources=2 pickles=2 cases=1 attempts=1 unrun=1/release retried=0 skipped=0 unrun=1/ 0 = source document pickle source_b document_b pickle_b run case:c1:t1 start:a1:c1:1 step:a1:t1 end:a1:t1:PENDING done:a1:false well";
    let words = [
        "gate",
        "--attempts-from=1",
        "--allow-unrun",
        "--pending-passes",
    ];
    expect_rows(&rt, rt.alloc(), &words, rows)?;
    let words = [
        "gate",
        "--pending-passes",
        "--allow-unrun",
        "--attempts-from",
        "1",
    ];
    expect_rows(&rt, rt.alloc(), &words, rows)
}

const EMPTY: &str = "good sources=0 pickles=0 cases=0 attempts=0\n";

#[test]
fn a_gate_whose_read_fails(rt: HostRuntime) -> Result<(), Fail> {
    let stream = stream_of(rt.alloc(), "run well")?;
    let source = Pieces::whole(stream.as_bytes()).failing_at_end();
    expect_words(
        &rt,
        rt.alloc(),
        &["gate"],
        source,
        "trouble ReadFailed\n",
        3,
    );
    Ok(())
}

// A run of the gate over an empty run, whose answer has status 5 where the sink takes it.
fn expect_failure(rt: &impl Abort, alloc: Global, sink: Store, text: &str) -> Result<(), Fail> {
    let stream = stream_of(alloc, "run well")?;
    let mut source = Pieces::whole(stream.as_bytes());
    let mut sink = sink;
    expect_run(rt, alloc, &["gate"], &mut source, &mut sink, text, 3);
    assert_eq!(rt; sink.failed_calls(), 1);
    Ok(())
}

#[test]
fn a_gate_whose_write_or_flush_fails(rt: HostRuntime) -> Result<(), Fail> {
    let alloc = rt.alloc();
    for failed in [FailedWrite::Refuses, FailedWrite::TakesNone] {
        let sink = Store::new(alloc, EMPTY.len())
            .failing_writes(Failing::Once(1))
            .failing_by(failed);
        expect_failure(&rt, alloc, sink, "trouble WriteFailed\n")?;
        let sink = Store::new(alloc, EMPTY.len())
            .failing_writes(Failing::Once(2))
            .failing_by(failed);
        let text = format!(in alloc; "{EMPTY}trouble WriteFailed\n")?;
        expect_failure(&rt, alloc, sink, text.as_str())?;
    }
    let sink = Store::new(alloc, 7).failing_flushes(Failing::EverSince(1));
    let text = format!(in alloc; "{EMPTY}stop Empty\n")?;
    expect_failure(&rt, alloc, sink, text.as_str())
}
