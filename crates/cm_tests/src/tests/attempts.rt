//! Cases, attempts and policies: the answers to calls in and out of order.
use crate::tests::words::{cut, texts};
use cm_attempt::{Policy, Settings, Status, Track, TrackFault, worst};
use seeds::fixed_seed;
use std::alloc::Global;
use std::process::Abort;

fn name_of(status: Status) -> &'static str {
    match status {
        Status::Unknown => "Unknown",
        Status::Passed => "Passed",
        Status::Skipped => "Skipped",
        Status::Pending => "Pending",
        Status::Undefined => "Undefined",
        Status::Ambiguous => "Ambiguous",
        Status::Failed => "Failed",
    }
}

fn status_of(word: &str) -> Option<Status> {
    match word {
        "Unknown" => Some(Status::Unknown),
        "Passed" => Some(Status::Passed),
        "Skipped" => Some(Status::Skipped),
        "Pending" => Some(Status::Pending),
        "Undefined" => Some(Status::Undefined),
        "Failed" => Some(Status::Failed),
        _ => None,
    }
}

fn add_case(track: &mut Track, alloc: Global, id: &str, steps: &str) -> Result<(), TrackFault> {
    let steps = texts(alloc, steps)?;
    track.add_case(String::from_str(alloc, id)?, steps)
}

fn start(track: &mut Track, id: &str, case: &str, number: &str) -> Result<(), TrackFault> {
    match number.parse::<u64>() {
        Ok(number) => track.start(id, case, number),
        Err(_) => Err(TrackFault::Memory),
    }
}

fn finish_step(
    track: &mut Track,
    attempt: &str,
    step: &str,
    status: &str,
) -> Result<(), TrackFault> {
    match status_of(status) {
        Some(status) => track.step_finished(attempt, step, status),
        None => Err(TrackFault::Memory),
    }
}

// The answer to the call that a line names; a line with no call gives `Memory`, which no table wants.
fn answer(track: &mut Track, alloc: Global, told: &str) -> Result<(), TrackFault> {
    let (call, rest) = cut(told);
    let (id, steps) = cut(rest);
    let (step, end) = cut(steps);
    match call {
        "case" => add_case(track, alloc, id, steps),
        "start" => start(track, id, step, end),
        "step" => track.step_started(id, step),
        "stepped" => finish_step(track, id, step, end),
        "final" => track.finish(id, false),
        "retried" => track.finish(id, true),
        _ => Err(TrackFault::Memory),
    }
}

fn answer_name(answer: Result<(), TrackFault>) -> &'static str {
    match answer {
        Ok(()) => "ok",
        Err(TrackFault::UnknownCase) => "UnknownCase",
        Err(TrackFault::UnknownAttempt) => "UnknownAttempt",
        Err(TrackFault::AttemptNumber) => "AttemptNumber",
        Err(TrackFault::AttemptOverlap) => "AttemptOverlap",
        Err(TrackFault::StepOrder) => "StepOrder",
        Err(TrackFault::FinishedEarly) => "FinishedEarly",
        Err(TrackFault::DuplicateId) => "DuplicateId",
        Err(TrackFault::Memory) => "Memory",
        Err(TrackFault::UnknownStep) => "UnknownStep",
    }
}

// Each line: the answer that is wanted, and a call.
fn expect_answers(rt: &impl Abort, track: &mut Track, alloc: Global, table: &str) {
    for told in table.lines() {
        let (wanted, call) = cut(told);
        assert!(rt; answer_name(answer(track, alloc, call)) == wanted);
    }
}

// A track that counts from this number, after calls that have these answers.
fn track_of(rt: &impl Abort, alloc: Global, first: u64, table: &str) -> Track {
    let seed = fixed_seed().expect(rt, "a seed");
    let mut track = Track::counting_from(alloc, seed, first);
    expect_answers(rt, &mut track, alloc, table);
    track
}

// What is reported of a case, or `none`.
fn reported(track: &Track, case: &str) -> &'static str {
    match track.reported(case) {
        Some(status) => name_of(status),
        None => "none",
    }
}

#[test]
fn picks_the_worst(rt: HostRuntime) {
    assert!(rt; worst(&[]) == Status::Passed);
    assert!(rt; worst(&[Status::Unknown, Status::Passed]) == Status::Passed);
    assert!(rt; worst(&[Status::Failed, Status::Ambiguous]) == Status::Failed);
    assert!(rt; worst(&[Status::Unknown]) == Status::Unknown);
}

const REFUSED: &str = "DuplicateId case c t t
DuplicateId case c t u t
UnknownCase start a c 0
ok case c
DuplicateId case c
AttemptNumber start a c 1
ok start a c 0
DuplicateId start a c 1
AttemptOverlap start b c 1
UnknownAttempt step b t
UnknownStep step a t
UnknownAttempt final b
ok final a
StepOrder final a
AttemptOverlap start b c 1";

#[test]
fn refuses_duplicates_and_unknown_ids(rt: HostRuntime) {
    let track = track_of(&rt, rt.alloc(), 0, REFUSED);
    assert!(rt; reported(&track, "c") == "Passed");
    assert!(rt; track.all_good());
    assert!(rt; track.has_attempt("a") && !track.has_attempt("b"));
    assert!(rt; track.has_case("c") && !track.has_case("a"));
    drop(track);
}

// Whether this step is due, and running or not.
fn is_due(track: &Track, attempt: &str, step: &str, is_running: bool) -> bool {
    match track.due_step(attempt) {
        Some(due) => due.step == step && due.is_running == is_running,
        None => false,
    }
}

#[test]
fn the_step_that_is_due(rt: HostRuntime) {
    let alloc = rt.alloc();
    let mut track = track_of(&rt, alloc, 0, "ok case c t u");
    assert!(rt; track.due_step("a").is_none());
    expect_answers(&rt, &mut track, alloc, "ok start a c 0");
    assert!(rt; is_due(&track, "a", "t", false));
    expect_answers(&rt, &mut track, alloc, "ok step a t");
    assert!(rt; is_due(&track, "a", "t", true));
    expect_answers(&rt, &mut track, alloc, "ok stepped a t Passed");
    assert!(rt; is_due(&track, "a", "u", false));
    expect_answers(&rt, &mut track, alloc, "ok step a u\nok stepped a u Passed");
    assert!(rt; track.due_step("a").is_none());
    expect_answers(&rt, &mut track, alloc, "ok final a");
    assert!(rt; track.due_step("a").is_none());
    drop(track);
}

const ONCE: &str = "ok case c t u
ok start a c 0
ok step a t
ok stepped a t Passed
StepOrder step a t
StepOrder stepped a t Passed
FinishedEarly final a";

#[test]
fn a_step_finishes_once(rt: HostRuntime) {
    let track = track_of(&rt, rt.alloc(), 0, ONCE);
    assert!(rt; track.open_attempts() == 1);
    assert!(rt; reported(&track, "c") == "none");
    assert!(rt; track.has_step("a", "u") && !track.has_step("a", "v"));
    assert!(rt; !track.all_good());
    drop(track);
}

// What is reported of the case after each call.
const RETRIED: &str = "none case c s
none start a c 0
none step a s
none stepped a s Passed
none retried a
none start b c 1
none step b s
none stepped b s Unknown
Unknown final b";

fn expect_reports(rt: &impl Abort, track: &mut Track, alloc: Global, table: &str) {
    for told in table.lines() {
        let (wanted, call) = cut(told);
        assert!(rt; answer_name(answer(track, alloc, call)) == "ok");
        assert!(rt; reported(track, "c") == wanted);
    }
}

#[test]
fn a_retried_attempt_alone_reports_none(rt: HostRuntime) {
    let alloc = rt.alloc();
    let mut track = track_of(&rt, alloc, 0, "");
    expect_reports(&rt, &mut track, alloc, RETRIED);
    assert!(rt; !track.all_good());
    drop(track);
}

const INTERLEAVED: &str = "ok case c s t
ok case d s t
ok start a c 0
ok start b d 0
ok step a s
StepOrder step b t
ok step b s
ok stepped b s Failed
ok step b t
ok stepped a s Passed
ok stepped b t Skipped
ok final b";

#[test]
fn attempts_of_two_cases_interleave(rt: HostRuntime) {
    let track = track_of(&rt, rt.alloc(), 0, INTERLEAVED);
    assert!(rt; reported(&track, "d") == "Failed");
    assert!(rt; reported(&track, "c") == "none");
    assert!(rt; track.open_attempts() == 1);
    drop(track);
}

const FROM_ONE: &str = "ok case c s
AttemptNumber start a c 0
AttemptNumber start a c 2
ok start a c 1
ok step a s
ok stepped a s Failed
ok retried a
AttemptNumber start b c 1
ok start b c 2
ok step b s
ok stepped b s Passed
ok final b
ok case d
AttemptNumber start e d 0
ok start e d 1
ok final e";

#[test]
fn attempts_are_counted_from_one(rt: HostRuntime) {
    let track = track_of(&rt, rt.alloc(), 1, FROM_ONE);
    assert!(rt; reported(&track, "c") == "Passed");
    assert!(rt; track.all_good());
    drop(track);
}

// After the greatest number no other attempt of the case can come.
const FROM_THE_GREATEST: &str = "ok case c
AttemptNumber start a c 0
AttemptNumber start a c 18446744073709551614
ok start a c 18446744073709551615
ok retried a
AttemptNumber start b c 0
AttemptNumber start b c 18446744073709551615
ok case d
ok start e d 18446744073709551615";

#[test]
fn attempts_are_counted_from_the_greatest_number(rt: HostRuntime) {
    let track = track_of(&rt, rt.alloc(), u64::MAX, FROM_THE_GREATEST);
    assert!(rt; track.open_attempts() == 1);
    drop(track);
}

#[test]
fn settings_of_a_policy_count_from_zero(rt: HostRuntime) {
    for policy in [Policy::Strict, Policy::PendingPasses] {
        let settings = Settings::from(policy);
        assert!(rt; settings.policy == policy);
        assert!(rt; settings.first_attempt == 0);
    }
}

const PENDING: &str = "ok case c s
ok start a c 0
ok step a s
ok stepped a s Pending
ok final a";

#[test]
fn a_pending_case_is_good_where_pending_passes(rt: HostRuntime) {
    let track = track_of(&rt, rt.alloc(), 0, PENDING);
    assert!(rt; reported(&track, "c") == "Pending");
    assert!(rt; !track.all_good());
    assert!(rt; !track.all_good_with(Policy::Strict));
    assert!(rt; track.all_good_with(Policy::PendingPasses));
    drop(track);
}

const UNDEFINED: &str = "ok case c s
ok start a c 0
ok step a s
ok stepped a s Undefined
ok final a";

#[test]
fn an_undefined_case_is_good_by_no_policy(rt: HostRuntime) {
    let track = track_of(&rt, rt.alloc(), 0, UNDEFINED);
    assert!(rt; reported(&track, "c") == "Undefined");
    assert!(rt; !track.all_good_with(Policy::Strict));
    assert!(rt; !track.all_good_with(Policy::PendingPasses));
    drop(track);
}

// Each line: a status, whether it is good by the strict policy, and whether it is where pending passes.
const GOOD_STATUSES: [(Status, bool, bool); 7] = [
    (Status::Unknown, false, false),
    (Status::Passed, true, true),
    (Status::Skipped, true, true),
    (Status::Pending, false, true),
    (Status::Undefined, false, false),
    (Status::Ambiguous, false, false),
    (Status::Failed, false, false),
];

#[test]
fn a_policy_says_which_statuses_are_good(rt: HostRuntime) {
    for (status, strict, pending_passes) in GOOD_STATUSES {
        assert!(rt; Policy::Strict.is_good(status) == strict);
        assert!(rt; Policy::PendingPasses.is_good(status) == pending_passes);
    }
}
