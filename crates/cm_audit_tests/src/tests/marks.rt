//! Which scenarios of a text ran.
use crate::tests::stream::{FEATURE, FIRST_PICKLE, SECOND_PICKLE, TEXT, joined, whole_trail};
use cm_attempt::{Policy, Settings};
use cm_audit_release::{AuditedRelease, audit_part};
use cm_ran::Marks;
use cm_reasons::Trail;
use cm_stream::Conditions;
use devices::Pieces;
use seeds::fixed_seed;
use std::alloc::{AllocError, Global};
use std::hash::RandomState;
use std::test::Fail;

/// Which of the two scenarios are marked.
fn both(marks: &Marks<'_>) -> (bool, bool) {
    (marks.has_run(TEXT, 0), marks.has_run(TEXT, 1))
}

fn marked_by(alloc: Global, seed: RandomState, trail: &Trail) -> Result<(bool, bool), AllocError> {
    let mut marks = Marks::new(alloc, seed);
    marks.add(alloc, TEXT)?;
    marks.mark(alloc, seed, trail)?;
    Ok(both(&marks))
}

fn marked(alloc: Global) -> Result<(bool, bool), Fail> {
    let seed = fixed_seed()?;
    let trail = whole_trail(alloc)?;
    let marked = marked_by(alloc, seed, &trail);
    drop(trail);
    Ok(marked?)
}

#[test]
fn the_scenario_that_a_case_names_ran(rt: HostRuntime) -> Result<(), Fail> {
    let marked = marked(rt.alloc())?;
    assert!(rt; marked == (true, false));
    Ok(())
}

// A run of the second scenario alone.
const SECOND_RAN: &str = r#"{"testRunStarted":{}}
{"testCase":{"id":"c2","pickleId":"p2","testSteps":[{"id":"t2","pickleStepId":"q2"}]}}
{"testCaseStarted":{"id":"a2","testCaseId":"c2","attempt":0}}
{"testStepStarted":{"testCaseStartedId":"a2","testStepId":"t2"}}
{"testStepFinished":{"testCaseStartedId":"a2","testStepId":"t2","testStepResult":{"status":"PASSED"}}}
{"testCaseFinished":{"testCaseStartedId":"a2","willBeRetried":false}}
{"testRunFinished":{"success":true}}
"#;

/// Those of a part, which may leave pickles out.
fn conditions<'a>(alloc: Global) -> Conditions<'a> {
    Conditions {
        is_part: true,
        allows_unrun: false,
        allowed_tags: Vec::new(alloc),
        no_retries: false,
        no_skips: false,
        no_stepless: false,
        no_undefined: false,
    }
}

fn is_released(part: &AuditedRelease) -> bool {
    part.is_released() && part.found.missed == 0
}

/// Whether the part is released.
fn part_is_released(
    alloc: Global,
    seed: RandomState,
    bytes: &[u8],
    conditions: &Conditions<'_>,
    marks: &mut Marks<'_>,
) -> bool {
    let settings = Settings::from(Policy::Strict);
    match audit_part(
        alloc,
        seed,
        &mut Pieces::whole(bytes),
        settings,
        conditions,
        marks,
    ) {
        Ok(part) => is_released(&part),
        Err(_) => false,
    }
}

/// Which scenarios are marked by a part that is released.
fn marked_by_part(
    alloc: Global,
    seed: RandomState,
    bytes: &[u8],
    conditions: &Conditions<'_>,
) -> Result<(bool, bool), AllocError> {
    let mut marks = Marks::new(alloc, seed);
    marks.add(alloc, TEXT)?;
    let is_released = part_is_released(alloc, seed, bytes, conditions, &mut marks);
    let (first, second) = both(&marks);
    Ok((is_released && first, is_released && second))
}

fn part_marked(alloc: Global, bytes: &[u8]) -> Result<(bool, bool), Fail> {
    let seed = fixed_seed()?;
    let conditions = conditions(alloc);
    let marked = marked_by_part(alloc, seed, bytes, &conditions);
    drop(conditions);
    Ok(marked?)
}

#[test]
fn a_part_marks_what_ran_in_it(rt: HostRuntime) -> Result<(), Fail> {
    let parts = [FEATURE, FIRST_PICKLE, SECOND_PICKLE, SECOND_RAN];
    let stream = joined(rt.alloc(), &parts)?;
    let marked = part_marked(rt.alloc(), stream.as_bytes());
    drop(stream);
    assert!(rt; marked? == (false, true));
    Ok(())
}
