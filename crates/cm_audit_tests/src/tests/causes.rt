//! Why a run isn't successful.
use crate::tests::stream::{envelope_of, trail_of, whole, whole_trail};
use cm_attempt::{Policy, Status, Track};
use cm_causes::{add_causes, add_truth};
use cm_judge::track;
use cm_reasons::Trail;
use seeds::fixed_seed;
use std::alloc::{AllocError, Global};
use std::hash::RandomState;
use std::test::Fail;

fn track_line(alloc: Global, attempts: &mut Track, line: &str) -> Result<(), Fail> {
    let envelope = envelope_of(alloc, line)?;
    match track(alloc, attempts, envelope) {
        Ok(()) => Ok(()),
        Err(_) => Err(Fail::from("a refused call")),
    }
}

/// The record of the attempts of these lines.
fn attempts_of(alloc: Global, lines: &str) -> Result<Track, Fail> {
    let mut attempts = Track::new(alloc, fixed_seed()?);
    for line in lines.lines() {
        track_line(alloc, &mut attempts, line)?;
    }
    Ok(attempts)
}

/// That of the stream.
fn whole_attempts(alloc: Global) -> Result<Track, Fail> {
    let stream = whole(alloc)?;
    let attempts = attempts_of(alloc, stream.as_str());
    drop(stream);
    attempts
}

/// Whether the one case failed.
fn is_one_failed(attempts: &Track) -> Result<bool, AllocError> {
    let results = attempts.results()?;
    Ok(match results.as_slice() {
        [result] => result.id == "c1" && result.status == Some(Status::Failed),
        _ => false,
    })
}

fn has_failed(alloc: Global) -> Result<bool, Fail> {
    let attempts = whole_attempts(alloc)?;
    let is_failed = is_one_failed(&attempts);
    drop(attempts);
    Ok(is_failed?)
}

#[test]
fn the_result_of_a_case(rt: HostRuntime) -> Result<(), Fail> {
    assert!(rt; has_failed(rt.alloc())?);
    Ok(())
}

/// The causes of a run, or what is said where there may be none.
fn causes_in(
    alloc: Global,
    seed: RandomState,
    trail: &Trail,
    attempts: &Track,
    may_be_none: bool,
    has_exception: bool,
) -> Result<String, AllocError> {
    let mut text = String::new(alloc);
    let policy = Policy::Strict;
    let added = if may_be_none {
        add_truth(
            alloc,
            seed,
            &mut text,
            trail,
            attempts,
            policy,
            has_exception,
        )
    } else {
        add_causes(
            alloc,
            seed,
            &mut text,
            trail,
            attempts,
            policy,
            has_exception,
        )
    };
    added?;
    Ok(text)
}

fn causes_by_trail(
    alloc: Global,
    seed: RandomState,
    trail: &Trail,
    may_be_none: bool,
) -> Result<String, Fail> {
    let attempts = whole_attempts(alloc)?;
    let text = causes_in(alloc, seed, trail, &attempts, may_be_none, true);
    drop(attempts);
    Ok(text?)
}

/// The causes of the stream, which ends with an exception.
fn causes(alloc: Global, may_be_none: bool) -> Result<String, Fail> {
    let seed = fixed_seed()?;
    let trail = whole_trail(alloc)?;
    let text = causes_by_trail(alloc, seed, &trail, may_be_none);
    drop(trail);
    text
}

const CAUSES: &str =
    "FAILED a.feature:2 one step a.feature:3 x\nRUNHOOK FAILED hook early\nrefused b.feature:1:1 1 Unexpected\nexception\n";

#[test]
fn a_case_a_run_hook_a_source_and_an_exception(rt: HostRuntime) -> Result<(), Fail> {
    let text = causes(rt.alloc(), false)?;
    assert!(rt; text.as_str() == CAUSES);
    Ok(())
}

#[test]
fn the_causes_are_what_is_true(rt: HostRuntime) -> Result<(), Fail> {
    let text = causes(rt.alloc(), true)?;
    assert!(rt; text.as_str() == CAUSES);
    Ok(())
}

fn truth_by_trail(alloc: Global, seed: RandomState, trail: &Trail) -> Result<String, AllocError> {
    let none = Track::new(alloc, seed);
    let text = causes_in(alloc, seed, trail, &none, true, false);
    drop(none);
    text
}

/// What is said of no line.
fn truth_of_nothing(alloc: Global) -> Result<String, Fail> {
    let seed = fixed_seed()?;
    let trail = trail_of(alloc, "")?;
    let text = truth_by_trail(alloc, seed, &trail);
    drop(trail);
    Ok(text?)
}

#[test]
fn nothing_failed(rt: HostRuntime) -> Result<(), Fail> {
    let text = truth_of_nothing(rt.alloc())?;
    assert!(rt; text.as_str() == "nothing failed\n");
    Ok(())
}
