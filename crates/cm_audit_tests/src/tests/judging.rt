//! Envelopes that are judged one by one.
use crate::tests::stream::envelope_of;
use cm_attempt::{Policy, Settings};
use cm_judge::{State, Stop, judge, judged_as};
use cm_stream::StreamFault;
use seeds::fixed_seed;
use std::alloc::Global;
use std::test::Fail;

/// What came of some lines: the answer to the last one that was judged, whether the run is over, and whether it says success.
#[derive(Drop)]
struct Outcome {
    answer: Result<(), Stop>,
    is_finished: bool,
    says_success: bool,
}

/// Judges the envelopes of the lines, up to the first that is refused.
fn take(
    alloc: Global,
    state: &mut State,
    lines: &[&str],
    settings: Settings,
) -> Result<Result<(), Stop>, Fail> {
    for line in lines {
        let envelope = judged_as(state, envelope_of(alloc, line)?, settings);
        let answer = judge(state, envelope, settings);
        if answer.is_err() {
            return Ok(answer);
        }
    }
    Ok(Ok(()))
}

/// What comes of the lines of a stream.
fn outcome_of(alloc: Global, lines: &[&str], settings: Settings) -> Result<Outcome, Fail> {
    let seed = fixed_seed()?;
    let mut state = State::new(alloc, seed, 0);
    let answer = take(alloc, &mut state, lines, settings);
    let is_finished = state.is_finished();
    let says_success = state.says_success();
    drop(state);
    Ok(Outcome {
        answer: answer?,
        is_finished,
        says_success,
    })
}

const START: &str = r#"{"testRunStarted":{}}"#;

const END: &str = r#"{"testRunFinished":{"success":true}}"#;

const HOOK: &str = r#"{"hook":{"id":"h"}}"#;

// A run without test cases is over, and says success, once its end came.
#[test]
fn a_run_is_over_at_its_end(rt: HostRuntime) -> Result<(), Fail> {
    let strict = Settings::from(Policy::Strict);
    let begun = outcome_of(rt.alloc(), &[START], strict)?;
    assert!(rt; begun.answer.is_ok() && !begun.is_finished && !begun.says_success);
    let over = outcome_of(rt.alloc(), &[START, END], strict)?;
    assert!(rt; over.answer.is_ok() && over.is_finished && over.says_success);
    let late = outcome_of(rt.alloc(), &[START, END, START], strict)?;
    assert!(rt; matches!(late.answer, Err(Stop::Bad(StreamFault::AfterRunFinished))));
    Ok(())
}

// A hook that is declared again is a fault, unless the settings allow it.
#[test]
fn a_hook_may_come_again_where_it_is_allowed(rt: HostRuntime) -> Result<(), Fail> {
    let strict = Settings::from(Policy::Strict);
    let again = outcome_of(rt.alloc(), &[HOOK, HOOK], strict)?;
    assert!(rt; matches!(again.answer, Err(Stop::Bad(StreamFault::DuplicateId))));
    let lenient = Settings {
        policy: Policy::Strict,
        first_attempt: 0,
        allows_redeclared: true,
    };
    assert!(rt;
        outcome_of(rt.alloc(), &[HOOK, HOOK], lenient)?
            .answer
            .is_ok()
    );
    Ok(())
}
