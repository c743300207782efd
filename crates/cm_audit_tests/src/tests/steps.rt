//! Steps and attempts that are told.
use crate::tests::stream::{ATTEMPT, END_OF_ATTEMPT, FEATURE, FIRST_PICKLE, joined, trail_of};
use cm_reasons::Trail;
use seeds::fixed_seed;
use std::alloc::{AllocError, Global};
use std::hash::RandomState;
use std::test::Fail;

/// What these lines leave.
fn trail(alloc: Global, parts: &[&str]) -> Result<Trail, Fail> {
    let lines = joined(alloc, parts)?;
    let trail = trail_of(alloc, lines.as_str());
    drop(lines);
    trail
}

/// A step, and after a comma the step by its name.
fn step_twice(alloc: Global, trail: &Trail) -> Result<String, AllocError> {
    let mut text = String::new(alloc);
    trail.steps().add_step(&mut text, "c1", "t1")?;
    text.push_str(", ")?;
    trail.steps().add_named_step(&mut text, "c1", "t1")?;
    Ok(text)
}

fn told_twice(alloc: Global) -> Result<String, Fail> {
    let trail = trail(alloc, &[FEATURE, FIRST_PICKLE, ATTEMPT])?;
    let text = step_twice(alloc, &trail);
    drop(trail);
    Ok(text?)
}

#[test]
fn a_step_and_a_step_by_name(rt: HostRuntime) -> Result<(), Fail> {
    let text = told_twice(rt.alloc())?;
    assert!(rt; text.as_str() == "a.feature:3 x, step a.feature:3 x");
    Ok(())
}

/// Whether the one case is open, and whether none is.
fn open(alloc: Global, seed: RandomState, trail: &Trail) -> Result<(bool, bool), AllocError> {
    let cases = trail.steps().open_cases(alloc, seed)?;
    Ok((cases.as_slice() == ["c1"].as_slice(), cases.is_empty()))
}

fn open_after(alloc: Global, parts: &[&str]) -> Result<(bool, bool), Fail> {
    let seed = fixed_seed()?;
    let trail = trail(alloc, parts)?;
    let open = open(alloc, seed, &trail);
    drop(trail);
    Ok(open?)
}

#[test]
fn a_case_is_open_until_its_attempt_ends(rt: HostRuntime) -> Result<(), Fail> {
    let (is_open, _) = open_after(rt.alloc(), &[ATTEMPT])?;
    assert!(rt; is_open);
    let (_, is_none_open) = open_after(rt.alloc(), &[ATTEMPT, END_OF_ATTEMPT])?;
    assert!(rt; is_none_open);
    Ok(())
}
