//! The step of an attempt that is due, and the one that a line is about.
ghost use Rattle.std.specs.Prelude.{◌≡◌, ◌++◌, ◌∷◌, [], List, OnOk, codes, option_map, string_bytes};
ghost use Rattle.std.specs.Option.{option_map_or};
ghost use Rattle.cm_attempt.specs.Due.{due_step, due_view};
ghost use Rattle.cm_judge.specs.State.{summary_of};
ghost use Rattle.cm_envelope.specs.Lines.{line_feed};
ghost use Rattle.cm_envelope.specs.declared.envelope.Envelope.{Envelope as SomeEnvelope};
ghost use Rattle.cm_reasons.specs.Trail.{trail_of};
ghost use Rattle.cm_steps.specs.Attempts.{start_of};
ghost use Rattle.cm_fault_reasons.specs.AttemptLines.{move_word, order_at, order_lines, status_lines, status_of_step, step_line, step_lines};

use crate::scenario::add_scenario_start;
use cm_attempt::DueStep;
use cm_envelope::Envelope;
use cm_judge::State;
use cm_reasons::{Trail, add_run_hook};
use std::alloc::{AllocError, Global};
use std::hash::RandomState;

/// By whether a step is running.
fn step_move_word(is_running: bool) -> &'static str
    ensures { result.now ≡ move_word is_running }
{
    if is_running { " finish " } else { " start " }
}

/// Adds a word and `start STEP`, or `finish STEP` where the step is running.
fn add_step(
    text: &mut String,
    trail: &Trail,
    word: &str,
    case: &str,
    step: &DueStep<'_>,
) -> Result<(), AllocError>
    ensures { OnOk result ((es : List SomeEnvelope) → trail.now ≡ trail_of es
        → string_bytes text.new
        ≡ string_bytes text.old ++ step_line word.now es case.now (due_view step.now)) }
{
    text.push_str(word)?;
    text.push_str(step_move_word(step.is_running))?;
    trail.steps().add_step(text, case, step.step)?;
    text.push_str("\n")?;
    Ok(())
}

/// Adds that, where there is a step.
fn add_step_if_any(
    text: &mut String,
    trail: &Trail,
    word: &str,
    case: &str,
    step: &Option<DueStep<'_>>,
) -> Result<(), AllocError>
    ensures { OnOk result ((es : List SomeEnvelope) → trail.now ≡ trail_of es
        → string_bytes text.new ≡ string_bytes text.old
        ++ step_lines word.now es case.now (option_map due_view step.now)) }
{
    match step {
        Some(step) => add_step(text, trail, word, case, step),
        None => Ok(()),
    }
}

/// Adds the test case and the attempt, the step that is due, and the one that is found.
fn add_step_order_at(
    alloc: Global,
    seed: RandomState,
    text: &mut String,
    trail: &Trail,
    attempt: &str,
    due: &Option<DueStep<'_>>,
    found: &Option<DueStep<'_>>,
) -> Result<(), AllocError>
    ensures { OnOk result ((es : List SomeEnvelope) → trail.now ≡ trail_of es
        → string_bytes text.new ≡ string_bytes text.old
        ++ order_at (λ a. option_map due_view due.now) es (option_map due_view found.now)
        attempt.now) }
{
    let Some(start) = trail.steps().start(attempt) else {
        return Ok(());
    };
    add_scenario_start(alloc, seed, text, trail, start.case_id, start.number)?;
    add_step_if_any(text, trail, "due", start.case_id, due)?;
    add_step_if_any(text, trail, "found", start.case_id, found)
}

/// The step that a line is about.
fn found_step(step: &str, is_running: bool) -> Option<DueStep<'_>>
    ensures { option_map due_view result
        ≡ Some (record { step = step.now; is_running = is_running }) }
{
    Some(DueStep { step, is_running })
}

/// Adds the test case and the attempt, the step that is due of the attempt, and the one that is found.
fn add_order_of(
    alloc: Global,
    seed: RandomState,
    text: &mut String,
    state: &State,
    trail: &Trail,
    attempt: &str,
    found: Option<DueStep<'_>>,
) -> Result<(), AllocError>
    ensures { OnOk result ((es : List SomeEnvelope) → trail.now ≡ trail_of es
        → string_bytes text.new ≡ string_bytes text.old
        ++ order_at (due_step (summary_of state.now).table) es (option_map due_view found.entry)
        attempt.now) }
{
    let due = state.attempts().due_step(attempt);
    add_step_order_at(alloc, seed, text, trail, attempt, &due, &found)
}

/// Adds the test case and the attempt that a line names, the step that is due of the attempt, and the one that the line is about.
///
/// # Errors
/// Only where there is no memory for it.
pub(crate) fn add_order(
    alloc: Global,
    seed: RandomState,
    text: &mut String,
    state: &State,
    trail: &Trail,
    envelope: &Envelope,
) -> Result<(), AllocError>
    ensures { OnOk result ((es : List SomeEnvelope) → trail.now ≡ trail_of es
        → string_bytes text.new ≡ string_bytes text.old
        ++ order_lines (due_step (summary_of state.now).table) es envelope.now) }
{
    match envelope {
        Envelope::TestStepStarted(step) => {
            let found = found_step(step.test_step_id.as_str(), false);
            let attempt = step.test_case_started_id.as_str();
            add_order_of(alloc, seed, text, state, trail, attempt, found)
        }
        Envelope::TestStepFinished(step) => {
            let found = found_step(step.test_step_id.as_str(), true);
            let attempt = step.test_case_started_id.as_str();
            add_order_of(alloc, seed, text, state, trail, attempt, found)
        }
        Envelope::TestCaseFinished(end) => {
            let attempt = end.test_case_started_id.as_str();
            add_order_of(alloc, seed, text, state, trail, attempt, None)
        }
        _ => Ok(()),
    }
}

/// Adds the test case and the attempt, and a step of it.
fn add_status_of(
    alloc: Global,
    seed: RandomState,
    text: &mut String,
    trail: &Trail,
    attempt: &str,
    step: &str,
) -> Result<(), AllocError>
    ensures { OnOk result ((es : List SomeEnvelope) → trail.now ≡ trail_of es
        → string_bytes text.new ≡ string_bytes text.old
        ++ option_map_or (status_of_step es step.now) (start_of attempt.now es) []) }
{
    let Some(start) = trail.steps().start(attempt) else {
        return Ok(());
    };
    add_scenario_start(alloc, seed, text, trail, start.case_id, start.number)?;
    trail.steps().add_named_step(text, start.case_id, step)?;
    text.push_str("\n")?;
    Ok(())
}

/// Adds the test case, the attempt and the step whose status a line has, or the hook that ran.
///
/// # Errors
/// Only where there is no memory for it.
pub(crate) fn add_step_status(
    alloc: Global,
    seed: RandomState,
    text: &mut String,
    trail: &Trail,
    envelope: &Envelope,
) -> Result<(), AllocError>
    ensures { OnOk result ((es : List SomeEnvelope) → trail.now ≡ trail_of es
        → string_bytes text.new ≡ string_bytes text.old ++ status_lines es envelope.now) }
{
    match envelope {
        Envelope::TestStepFinished(step) => {
            let attempt = step.test_case_started_id.as_str();
            add_status_of(
                alloc,
                seed,
                text,
                trail,
                attempt,
                step.test_step_id.as_str(),
            )
        }
        Envelope::TestRunHookFinished(end) => {
            add_run_hook(text, trail, end.test_run_hook_started_id.as_str())
        }
        _ => Ok(()),
    }
}
