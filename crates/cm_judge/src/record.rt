//! The record of attempts: which envelopes it takes, and how.
ghost use Rattle.std.specs.Prelude.{◌≡◌, OnOk, OnErr, map};
ghost use Rattle.cm_refs.specs.Due.{RefusesUnless};
ghost use Rattle.cm_attempt.specs.Table.{add_case_fault, with_case};
ghost use Rattle.cm_stream.specs.CallFaults.{call_fault_of_envelope};
ghost use Rattle.cm_stream.specs.Record.{table_after_envelope};
ghost use Rattle.cm_judge.specs.Record.{AnswersRefusal};

use crate::state::step_ids;
use cm_attempt::{Track, TrackFault};
use cm_envelope::{
    Envelope, TestCase, TestCaseFinished, TestCaseStarted, TestStep, TestStepFinished,
    TestStepStarted,
};
use cm_stream::kept_status;
use gk_document::{Sequence, Text};
use std::alloc::Global;

/// Takes an envelope into the record of attempts: a test case, or the start or the end of an attempt or of one of its steps.
/// An envelope of any other kind changes nothing.
///
/// # Errors
/// Why the record refuses it, or `Memory`. The record is then as it was.
pub fn track(alloc: Global, attempts: &mut Track, envelope: Envelope) -> Result<(), TrackFault>
    ensures answer { AnswersRefusal envelope (call_fault_of_envelope attempts.old envelope) result }
    ensures ok { OnOk result (attempts.new ≡ table_after_envelope attempts.old envelope) }
    ensures err { OnErr result (attempts.new ≡ attempts.old) }
{
    match envelope {
        Envelope::TestCase(case) => {
            let TestCase { id, test_steps, .. } = case;
            add_case(alloc, attempts, id, test_steps)
        }
        Envelope::TestCaseStarted(started) => start_attempt(attempts, &started),
        Envelope::TestStepStarted(started) => start_step(attempts, &started),
        Envelope::TestStepFinished(finished) => finish_step(attempts, &finished),
        Envelope::TestCaseFinished(finished) => finish_attempt(attempts, &finished),
        other => {
            drop(other);
            Ok(())
        }
    }
}

/// A test case is declared with its steps, in order.
///
/// # Errors
/// Those of `Track::add_case`.
pub(crate) fn add_case(
    alloc: Global,
    attempts: &mut Track,
    id: Text,
    steps: Sequence<TestStep>,
) -> Result<(), TrackFault>
    ensures answer { RefusesUnless
        (add_case_fault attempts.old id (map (λ step. step.id) steps)) result TrackFault.Memory }
    ensures ok { OnOk result (attempts.new
        ≡ with_case id (map (λ step. step.id) steps) attempts.old) }
    ensures err { OnErr result (attempts.new ≡ attempts.old) }
{
    let steps = step_ids(alloc, steps)?;
    attempts.add_case(id.into_string(), steps)
}

/// An attempt starts.
///
/// # Errors
/// Those of `Track::start`.
pub(crate) fn start_attempt(
    attempts: &mut Track,
    started: &TestCaseStarted,
) -> Result<(), TrackFault>
    ensures answer { AnswersRefusal (Envelope.TestCaseStarted started.now)
        (call_fault_of_envelope attempts.old (Envelope.TestCaseStarted started.now)) result }
    ensures ok { OnOk result (attempts.new
        ≡ table_after_envelope attempts.old (Envelope.TestCaseStarted started.now)) }
    ensures err { OnErr result (attempts.new ≡ attempts.old) }
{
    let case = started.test_case_id.as_str();
    attempts.start(started.id.as_str(), case, started.attempt)
}

/// A step of an attempt starts.
///
/// # Errors
/// Those of `Track::step_started`.
pub(crate) fn start_step(attempts: &mut Track, started: &TestStepStarted) -> Result<(), TrackFault>
    ensures answer { AnswersRefusal (Envelope.TestStepStarted started.now)
        (call_fault_of_envelope attempts.old (Envelope.TestStepStarted started.now)) result }
    ensures ok { OnOk result (attempts.new
        ≡ table_after_envelope attempts.old (Envelope.TestStepStarted started.now)) }
    ensures err { OnErr result (attempts.new ≡ attempts.old) }
{
    let attempt = started.test_case_started_id.as_str();
    attempts.step_started(attempt, started.test_step_id.as_str())
}

/// A step of an attempt finishes, and its status is kept.
///
/// # Errors
/// Those of `Track::step_finished`.
pub(crate) fn finish_step(
    attempts: &mut Track,
    finished: &TestStepFinished,
) -> Result<(), TrackFault>
    ensures answer { AnswersRefusal (Envelope.TestStepFinished finished.now)
        (call_fault_of_envelope attempts.old (Envelope.TestStepFinished finished.now)) result }
    ensures ok { OnOk result (attempts.new
        ≡ table_after_envelope attempts.old (Envelope.TestStepFinished finished.now)) }
    ensures err { OnErr result (attempts.new ≡ attempts.old) }
{
    let attempt = finished.test_case_started_id.as_str();
    let step = finished.test_step_id.as_str();
    let status = kept_status(finished.test_step_result.status);
    attempts.step_finished(attempt, step, status)
}

/// An attempt finishes.
///
/// # Errors
/// Those of `Track::finish`.
pub(crate) fn finish_attempt(
    attempts: &mut Track,
    finished: &TestCaseFinished,
) -> Result<(), TrackFault>
    ensures answer { AnswersRefusal (Envelope.TestCaseFinished finished.now)
        (call_fault_of_envelope attempts.old (Envelope.TestCaseFinished finished.now)) result }
    ensures ok { OnOk result (attempts.new
        ≡ table_after_envelope attempts.old (Envelope.TestCaseFinished finished.now)) }
    ensures err { OnErr result (attempts.new ≡ attempts.old) }
{
    let attempt = finished.test_case_started_id.as_str();
    attempts.finish(attempt, finished.will_be_retried)
}
