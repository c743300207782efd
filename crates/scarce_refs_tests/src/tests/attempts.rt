//! Cases and attempts in want of memory.
use crate::tests::owned_texts::texts;
use cm_attempt::{Status, Track, TrackFault};
use scarce::{Shortage, check};
use seeds::fixed_seed;
use std::alloc::Global;
use std::test::Fail;

// Cases that are there before the call that is met, each with an attempt of the same id.
const NAMES: [&str; 9] = ["a", "b", "c", "d", "e", "f", "g", "h", "i"];

// It is too long to lie in a map itself.
const NEW: &str = "an id of more than thirty-six bytes, in a piece of memory";

const STEPS: [&str; 2] = ["t", "u"];

// The answers of all look-ups: those of a case and an attempt that are there, if any, and of new ones.
#[derive(Clone, Copy, PartialEq, Eq)]
struct LookUps {
    reported: (Option<Status>, Option<Status>),
    has_attempt: (bool, bool),
    has_step: (bool, bool, bool),
    open_attempts: u64,
    is_all_good: bool,
}

fn look_ups(track: &Track) -> LookUps {
    LookUps {
        reported: (track.reported("a"), track.reported(NEW)),
        has_attempt: (track.has_attempt("a"), track.has_attempt(NEW)),
        has_step: (
            track.has_step("a", "t"),
            track.has_step("a", "u"),
            track.has_step(NEW, "t"),
        ),
        open_attempts: track.open_attempts(),
        is_all_good: track.all_good(),
    }
}

// Adds a case with these steps and an open attempt of the same id.
fn add_started(track: &mut Track, alloc: Global, name: &str) -> Result<(), Fail> {
    let id = String::from_str(alloc, name)?;
    let steps = texts(alloc, &STEPS)?;
    track.add_case(id, steps)?;
    track.start(name, name, 0)?;
    Ok(())
}

// Adds so many cases with an open attempt each.
fn add_cases(track: &mut Track, alloc: Global, count: usize) -> Result<(), Fail> {
    for name in NAMES.iter().take(count) {
        add_started(track, alloc, name)?;
    }
    Ok(())
}

// What came of a call that was met: its answer, the look-ups before and after it, and the answer of the start of an attempt
// that takes no memory.
#[derive(Clone, Copy)]
struct Met {
    answer: Result<(), TrackFault>,
    before: LookUps,
    after: LookUps,
    start: Result<(), TrackFault>,
}

// The call has given this answer, and the look-ups before it were these.
fn met_after(track: &mut Track, before: LookUps, answer: Result<(), TrackFault>) -> Met {
    let after = look_ups(track);
    let start = track.start("x", NEW, 1);
    Met {
        answer,
        before,
        after,
        start,
    }
}

// Adds a case of these steps with this room, beside its id and its steps. Its attempt with the number 1 isn't started.
fn add_with_room(
    track: &mut Track,
    alloc: Global,
    shortage: &mut Shortage,
    room: usize,
    steps: &[&str],
) -> Result<Met, Fail> {
    let before = look_ups(track);
    let id = String::from_str(alloc, NEW)?;
    let steps = texts(alloc, steps)?;
    shortage.leave(alloc, room)?;
    let answer = track.add_case(id, steps);
    let met = met_after(track, before, answer);
    shortage.relax(alloc);
    Ok(met)
}

// Whether the case was refused: then it isn't there, and each look-up answers as before.
fn is_case_refused(met: Met, wanted: Result<(), TrackFault>) -> Result<bool, Fail> {
    let is_refused = met.answer == Err(TrackFault::Memory);
    let is_case = met.start != Err(TrackFault::UnknownCase);
    check(is_refused || met.answer == wanted, "another fault")?;
    check(is_case == met.answer.is_ok(), "a case is lost or there")?;
    check(is_case || met.after == met.before, "a look-up is wrong")?;
    Ok(is_refused)
}

// Adds a case with ever more room, until the call gives this answer.
fn meet_case(
    track: &mut Track,
    alloc: Global,
    shortage: &mut Shortage,
    steps: &[&str],
    wanted: Result<(), TrackFault>,
) -> Result<(), Fail> {
    let first = add_with_room(track, alloc, shortage, 0, steps)?;
    check(is_case_refused(first, wanted)?, "never refused")?;
    for step in 1..512usize {
        let met = add_with_room(track, alloc, shortage, 16 * step, steps)?;
        if !is_case_refused(met, wanted)? {
            return Ok(());
        }
    }
    check(false, "never answered")
}

// Starts an attempt of the new case with this room. Another one with the number 1 isn't started.
fn start_with_room(
    track: &mut Track,
    alloc: Global,
    shortage: &mut Shortage,
    room: usize,
) -> Result<Met, Fail> {
    let before = look_ups(track);
    shortage.leave(alloc, room)?;
    let answer = track.start(NEW, NEW, 0);
    let met = met_after(track, before, answer);
    shortage.relax(alloc);
    Ok(met)
}

// Whether the start was refused: then no attempt is counted, and each look-up answers as before.
fn is_start_refused(met: Met) -> Result<bool, Fail> {
    let is_refused = met.answer == Err(TrackFault::Memory);
    let is_uncounted = met.start == Err(TrackFault::AttemptNumber);
    check(is_refused || met.answer.is_ok(), "another fault")?;
    check(
        is_refused == (met.after == met.before),
        "a look-up is wrong",
    )?;
    check(is_refused == is_uncounted, "an attempt is counted")?;
    Ok(is_refused)
}

fn meet_start(track: &mut Track, alloc: Global, shortage: &mut Shortage) -> Result<(), Fail> {
    let first = start_with_room(track, alloc, shortage, 0)?;
    check(is_start_refused(first)?, "never refused")?;
    for step in 1..512usize {
        let met = start_with_room(track, alloc, shortage, 16 * step)?;
        if !is_start_refused(met)? {
            return Ok(());
        }
    }
    check(false, "never answered")
}

// A call that takes no memory.
#[derive(Clone, Copy)]
enum Call {
    Start(&'static str, &'static str, u64),
    StartStep(&'static str, &'static str),
    FinishStep(&'static str, &'static str, Status),
    Finish(&'static str),
}

fn answer_of(track: &mut Track, call: Call) -> Result<(), TrackFault> {
    match call {
        Call::Start(id, case, number) => track.start(id, case, number),
        Call::StartStep(attempt, step) => track.step_started(attempt, step),
        Call::FinishStep(attempt, step, status) => track.step_finished(attempt, step, status),
        Call::Finish(attempt) => track.finish(attempt, false),
    }
}

const REFUSED: [(Call, TrackFault); 10] = [
    (Call::Start("x", "x", 0), TrackFault::UnknownCase),
    (Call::Start(NEW, NEW, 1), TrackFault::DuplicateId),
    (Call::Start("x", NEW, 0), TrackFault::AttemptNumber),
    (Call::Start("x", NEW, 1), TrackFault::AttemptOverlap),
    (Call::StartStep("x", "t"), TrackFault::UnknownAttempt),
    (Call::StartStep(NEW, "v"), TrackFault::UnknownStep),
    (Call::StartStep(NEW, "u"), TrackFault::StepOrder),
    (
        Call::FinishStep(NEW, "t", Status::Passed),
        TrackFault::StepOrder,
    ),
    (Call::Finish("x"), TrackFault::UnknownAttempt),
    (Call::Finish(NEW), TrackFault::FinishedEarly),
];

const TAKEN: [Call; 5] = [
    Call::StartStep(NEW, "t"),
    Call::FinishStep(NEW, "t", Status::Passed),
    Call::StartStep(NEW, "u"),
    Call::FinishStep(NEW, "u", Status::Skipped),
    Call::Finish(NEW),
];

// Refusals are reported without memory.
fn refuses_without_memory(track: &mut Track) -> bool {
    for (call, fault) in REFUSED {
        if answer_of(track, call) != Err(fault) {
            return false;
        }
    }
    true
}

// The new attempt goes to its end without memory.
fn ends_without_memory(track: &mut Track) -> bool {
    for call in TAKEN {
        if answer_of(track, call).is_err() {
            return false;
        }
    }
    true
}

// What is answered with no room.
#[derive(Clone, Copy)]
struct Answers {
    are_refused: bool,
    are_done: bool,
    again: Result<(), TrackFault>,
    reported: Option<Status>,
    twice: Result<(), TrackFault>,
}

fn reported(track: &Track) -> Option<Status> {
    track.reported(NEW)
}

fn answers_without_room(
    track: &mut Track,
    alloc: Global,
    shortage: &mut Shortage,
) -> Result<Answers, Fail> {
    let id = String::from_str(alloc, NEW)?;
    let steps = texts(alloc, &STEPS)?;
    shortage.leave(alloc, 0)?;
    // The case comes last, since its id and its steps leave room.
    let answers = Answers {
        are_refused: refuses_without_memory(track),
        are_done: ends_without_memory(track),
        again: answer_of(track, Call::Finish(NEW)),
        reported: reported(track),
        twice: track.add_case(id, steps),
    };
    shortage.relax(alloc);
    Ok(answers)
}

fn check_answers(answers: Answers) -> Result<(), Fail> {
    check(
        answers.twice == Err(TrackFault::DuplicateId),
        "a case is added twice",
    )?;
    check(answers.are_refused, "another refusal")?;
    check(answers.are_done, "the attempt isn't done")?;
    check(
        answers.again == Err(TrackFault::StepOrder),
        "the attempt ends twice",
    )?;
    check(answers.reported == Some(Status::Skipped), "another result")
}

// A case with equal steps.
fn meet_equal_steps(track: &mut Track, alloc: Global, shortage: &mut Shortage) -> Result<(), Fail> {
    let fault = Err(TrackFault::DuplicateId);
    meet_case(track, alloc, shortage, &["t", "t"], fault)
}

// A case, its attempt, and with no room the rest, where so many cases and attempts are there.
fn meet_calls(
    track: &mut Track,
    alloc: Global,
    shortage: &mut Shortage,
    count: usize,
) -> Result<(), Fail> {
    add_cases(track, alloc, count)?;
    meet_equal_steps(track, alloc, shortage)?;
    meet_case(track, alloc, shortage, &STEPS, Ok(()))?;
    meet_start(track, alloc, shortage)?;
    check_answers(answers_without_room(track, alloc, shortage)?)
}

fn meet_cases(alloc: Global, shortage: &mut Shortage, count: usize) -> Result<(), Fail> {
    let seed = fixed_seed()?;
    let mut track = Track::new(alloc, seed);
    let met = meet_calls(&mut track, alloc, shortage, count);
    drop(track);
    met
}

#[test]
fn new_cases_and_attempts(rt: HostRuntime) -> Result<(), Fail> {
    let alloc = rt.alloc();
    let mut shortage = Shortage::new(alloc)?;
    for count in 0..9usize {
        meet_cases(alloc, &mut shortage, count)?;
    }
    drop(shortage);
    Ok(())
}
