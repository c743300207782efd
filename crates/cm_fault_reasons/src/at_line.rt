//! What is told of the line of a stream that decides, under the answer.
ghost use Rattle.std.specs.Prelude.{◌≡◌, [], IfOk, IsSomeAnd, List, OnOk, string_bytes, ◌++◌, option_map};
ghost use Rattle.cm_judge.specs.State.{summary_of};
ghost use Rattle.cm_envelope.specs.declared.envelope.Envelope.{Envelope as SomeEnvelope};
ghost use Rattle.cm_stream.specs.Findings.{IsBad, stream_fault_named};
ghost use Rattle.cm_fault_reasons.specs.Added.{Adds};
ghost use Rattle.cm_reasons.specs.Trail.{trail_of};
ghost use Rattle.cm_source_reasons.specs.Deciding.{IsDeciding};
ghost use Rattle.cm_fault_reasons.specs.AtLine.{TellsFault, TellsOf, TellsReason, TellsWith};
ghost use Rattle.cm_fault_reasons.specs.RunLines.{IsToldAtEnd, IsRefusedAt, IsTruthAt, ended_hook_lines};
ghost use Rattle.cm_fault_reasons.specs.ToldAt.{IsTold, reason_lines, told_uri_of};
ghost use Rattle.cm_fault_reasons.specs.ToldKept.{is_of_refused, is_of_source, is_of_success, lines_by, told_by};
ghost use Rattle.cm_fault_reasons.specs.ToldKept.{HasResults};
ghost use Rattle.cm_fault_reasons.specs.Unknown.{told_id, told_line, told_lines};
ghost use Rattle.cm_fault_reasons.specs.UnknownKept.{told_view};

use crate::duplicate::first_duplicate;
use crate::open_cases::add_open_cases;
use crate::scenario::{add_declared_scenario, add_misnumbered, add_started};
use crate::steps::{add_order, add_step_status};
use crate::unknown::{ToldName, first_unknown};
use cm_attempt::{Policy, Settings};
use cm_cases::add_shown;
use cm_causes::add_truth;
use cm_envelope::Envelope;
use cm_judge::State;
use cm_reasons::{Trail, add_open_hooks, add_refused, add_refused_of, add_run_hook};
use cm_source_reasons::add_source_reasons;
use cm_stream::{Reason, StreamFault, Verdict};
use std::alloc::{AllocError, Global};
use std::hash::RandomState;

/// Whether a source isn't what it compiles to.
fn is_of_source(fault: StreamFault) -> bool
    ensures { result ≡ is_of_source fault }
{
    matches!(
        fault,
        StreamFault::TreeDiffers | StreamFault::PickleDiffers | StreamFault::SourceIncomplete
    )
}

/// Whether the end of the run says of its success what isn't so.
fn is_of_success(fault: StreamFault) -> bool
    ensures { result ≡ is_of_success fault }
{
    matches!(fault, StreamFault::SuccessDiffers)
}

/// Whether the source of a document is refused.
fn is_of_refused(fault: StreamFault) -> bool
    ensures { result ≡ is_of_refused fault }
{
    matches!(fault, StreamFault::DocumentOfRefusedSource)
}

/// Adds what is told of an envelope that has the fault, after the lines of which this is kept, and of which with it this is the
/// trail.
fn add_fault(
    alloc: Global,
    seed: RandomState,
    text: &mut String,
    settings: Settings,
    state: &State,
    trail: &Trail,
    envelope: &Envelope,
    fault: StreamFault,
) -> Result<(), AllocError>
    ensures { OnOk result ((before : List SomeEnvelope)
        → (d : IsDeciding settings (summary_of state.now) trail.now before envelope.now
        (IsBad (stream_fault_named fault)))
        → Adds (string_bytes text.old) (string_bytes text.new)
        (IsTold d.read settings before envelope.now (IsBad (stream_fault_named fault)))) }
{
    if is_of_source(fault) {
        add_source_reasons(alloc, seed, text, state, trail, envelope, fault)
    } else if is_of_success(fault) {
        add_run_truth_at(alloc, seed, text, settings.policy, state, trail, envelope)
    } else if is_of_refused(fault) {
        add_refused_run_at(alloc, text, trail, envelope)
    } else {
        add_lines(alloc, seed, text, settings, state, trail, envelope, fault)
    }
}

/// What is told of an envelope that has the fault.
fn envelope_text(
    alloc: Global,
    seed: RandomState,
    settings: Settings,
    state: &State,
    trail: &Trail,
    envelope: &Envelope,
    fault: StreamFault,
) -> Result<String, AllocError>
    ensures { IfOk result (λ text. (before : List SomeEnvelope)
        → (d : IsDeciding settings (summary_of state.now) trail.now before envelope.now
        (IsBad (stream_fault_named fault)))
        → IsTold d.read settings before envelope.now (IsBad (stream_fault_named fault))
        (string_bytes text)) }
{
    let mut text = String::new(alloc);
    add_fault(
        alloc, seed, &mut text, settings, state, trail, envelope, fault,
    )?;
    Ok(text)
}

/// What is told of the last envelope, which has the fault.
fn deciding_line_text(
    alloc: Global,
    seed: RandomState,
    settings: Settings,
    state: &State,
    trail: &Trail,
    last: &Option<Envelope>,
    fault: StreamFault,
) -> Result<String, AllocError>
    ensures { IfOk result (λ text. TellsOf settings (summary_of state.now) trail.now last.now
        (IsBad (stream_fault_named fault)) (string_bytes text)) }
{
    match last {
        Some(envelope) => envelope_text(alloc, seed, settings, state, trail, envelope, fault),
        None => Err(AllocError),
    }
}

/// What is told of a run that doesn't end.
fn end_text(alloc: Global, seed: RandomState, trail: &Trail) -> Result<String, AllocError>
    ensures { IfOk result (λ text. (es : List SomeEnvelope) → trail.now ≡ trail_of es
        → IsToldAtEnd es (string_bytes text)) }
{
    let mut text = String::new(alloc);
    add_at_end(alloc, seed, &mut text, trail)?;
    Ok(text)
}

/// Nothing is told of an envelope after the end of the run.
fn line_after_end_text(alloc: Global, last: &Option<Envelope>) -> Result<String, AllocError>
    ensures { IfOk result (λ text. IsSomeAnd last.now (λ e. string_bytes text ≡ [])) }
{
    match last {
        Some(_) => Ok(String::new(alloc)),
        None => Err(AllocError),
    }
}

/// What is told of a fault.
fn fault_text(
    alloc: Global,
    seed: RandomState,
    settings: Settings,
    state: &State,
    trail: &Trail,
    last: &Option<Envelope>,
    fault: StreamFault,
) -> Result<String, AllocError>
    ensures { IfOk result (λ text. TellsFault settings (summary_of state.now) trail.now last.now
        fault (string_bytes text)) }
{
    match fault {
        StreamFault::NoEnvelope(_) => Ok(String::new(alloc)),
        StreamFault::AfterRunFinished => line_after_end_text(alloc, last),
        StreamFault::NoRunFinished => end_text(alloc, seed, trail),
        _ => deciding_line_text(alloc, seed, settings, state, trail, last, fault),
    }
}

/// What is told of the line that shows why the stream isn't judged.
fn reason_text(
    alloc: Global,
    seed: RandomState,
    trail: &Trail,
    last: &Option<Envelope>,
    reason: Reason,
) -> Result<String, AllocError>
    ensures { IfOk result
        (λ text. TellsReason trail.now last.now reason (string_bytes text)) }
{
    let mut text = String::new(alloc);
    let Some(envelope) = last else {
        return Err(AllocError);
    };
    add_reason(alloc, seed, &mut text, trail, envelope, reason)?;
    Ok(text)
}

/// What is told of the line that decides, where a stream is judged by these settings, by what is kept of the lines before it, the
/// trail of the lines up to it, and its envelope, read once more.
///
/// # Errors
/// Only where there is no memory for it, or there was none to read the envelope.
pub fn verdict_told(
    alloc: Global,
    seed: RandomState,
    settings: Settings,
    state: &State,
    trail: &Trail,
    last: &Option<Envelope>,
    verdict: Verdict,
) -> Result<String, AllocError>
    ensures { IfOk result (λ text. TellsWith settings (summary_of state.now) trail.now last.now
        verdict (string_bytes text)) }
{
    match verdict {
        Verdict::Good(_) => Ok(String::new(alloc)),
        Verdict::Bad { fault, .. } => fault_text(alloc, seed, settings, state, trail, last, fault),
        Verdict::Unsupported { reason, .. } => reason_text(alloc, seed, trail, last, reason),
    }
}

/// The uri of the feature file that an envelope is of.
fn told_uri(envelope: &Envelope) -> Option<ToldName<'_>>
    ensures { option_map told_view result ≡ told_uri_of envelope.now }
{
    let uri = match envelope {
        Envelope::Source(source) => source.uri.as_str(),
        Envelope::GherkinDocument(document) => document.uri.as_str(),
        Envelope::ParseError(error) => error.source.uri.as_str(),
        Envelope::Pickle(pickle) => pickle.uri.as_str(),
        _ => return None,
    };
    Some(ToldName {
        is_uri: true,
        text: uri,
    })
}

/// The id, where there is one, to be told.
fn told_id(id: Option<&str>) -> Option<ToldName<'_>>
    ensures { option_map told_view result ≡ option_map told_id (option_map (λ t. t.now) id.entry) }
{
    let text = id?;
    Some(ToldName {
        is_uri: false,
        text,
    })
}

/// The uri or the id that is told of an envelope that has the fault.
fn told_at_fault<'a>(
    alloc: Global,
    seed: RandomState,
    state: &State,
    envelope: &'a Envelope,
    fault: StreamFault,
) -> Result<Option<ToldName<'a>>, AllocError>
    ensures { IfOk result (λ told. option_map told_view told
        ≡ told_by (summary_of state.now) envelope.now (IsBad (stream_fault_named fault))) }
{
    match fault {
        StreamFault::DuplicateUri | StreamFault::ParseErrorOfGoodSource => Ok(told_uri(envelope)),
        StreamFault::UnknownReference => Ok(first_unknown(state, envelope)),
        StreamFault::DuplicateId => Ok(told_id(first_duplicate(alloc, seed, state, envelope)?)),
        _ => Ok(None),
    }
}

/// Adds `uri URI` or `id ID` on a line.
fn add_line(text: &mut String, told: &ToldName<'_>) -> Result<(), AllocError>
    ensures { OnOk result (string_bytes text.new
        ≡ string_bytes text.old ++ told_line (told_view told.now)) }
{
    text.push_str(if told.is_uri { "uri " } else { "id " })?;
    add_shown(text, told.text)?;
    text.push_str("\n")
}

/// Adds the line of what is told, where something is.
fn add_told(text: &mut String, told: &Option<ToldName<'_>>) -> Result<(), AllocError>
    ensures { OnOk result (string_bytes text.new
        ≡ string_bytes text.old ++ told_lines (option_map told_view told.now)) }
{
    match told {
        Some(told) => add_line(text, told),
        None => Ok(()),
    }
}

/// Adds the lines of an envelope that has the fault, after the lines of which this is kept, and of which with it this is the
/// trail: of its test case, attempt, steps or run hooks, or else its uri or id.
///
/// # Errors
/// Only where there is no memory for them.
fn add_lines(
    alloc: Global,
    seed: RandomState,
    text: &mut String,
    settings: Settings,
    state: &State,
    trail: &Trail,
    envelope: &Envelope,
    fault: StreamFault,
) -> Result<(), AllocError>
    ensures { OnOk result ((es : List SomeEnvelope) → trail.now ≡ trail_of es
        → string_bytes text.new ≡ string_bytes text.old
        ++ lines_by settings (summary_of state.now) es envelope.now
        (IsBad (stream_fault_named fault))) }
{
    let first = settings.first_attempt;
    match fault {
        StreamFault::CaseStepsDiffer => add_declared_scenario(alloc, seed, text, trail, envelope),
        StreamFault::AttemptNumber => add_misnumbered(alloc, seed, text, first, trail, envelope),
        StreamFault::AttemptOverlap => add_started(alloc, seed, text, trail, envelope),
        StreamFault::StepOrder => add_order(alloc, seed, text, state, trail, envelope),
        StreamFault::FinishedEarly => add_order(alloc, seed, text, state, trail, envelope),
        StreamFault::AttemptOpen => add_open_cases(alloc, seed, text, trail),
        StreamFault::RunHookOpen => add_open_hooks(alloc, seed, text, trail),
        StreamFault::RunHookTwice => add_ended_hook(text, trail, envelope),
        _ => {
            let told = told_at_fault(alloc, seed, state, envelope, fault)?;
            add_told(text, &told)
        }
    }
}

/// Adds what is told of an envelope that shows why the stream isn't judged, of which with the lines before it this is the trail.
///
/// # Errors
/// Only where there is no memory for it.
fn add_reason(
    alloc: Global,
    seed: RandomState,
    text: &mut String,
    trail: &Trail,
    envelope: &Envelope,
    reason: Reason,
) -> Result<(), AllocError>
    ensures { OnOk result ((es : List SomeEnvelope) → trail.now ≡ trail_of es
        → string_bytes text.new
        ≡ string_bytes text.old ++ reason_lines reason es envelope.now) }
{
    match reason {
        Reason::UnknownStatus => add_step_status(alloc, seed, text, trail, envelope),
        _ => add_told(text, &told_uri(envelope)),
    }
}

/// Adds the hook of the run hook whose end a line is.
///
/// # Errors
/// Only where there is no memory for it.
fn add_ended_hook(text: &mut String, trail: &Trail, envelope: &Envelope) -> Result<(), AllocError>
    ensures { OnOk result ((es : List SomeEnvelope) → trail.now ≡ trail_of es
        → string_bytes text.new ≡ string_bytes text.old ++ ended_hook_lines es envelope.now) }
{
    match envelope {
        Envelope::TestRunHookFinished(end) => {
            add_run_hook(text, trail, end.test_run_hook_started_id.as_str())
        }
        _ => Ok(()),
    }
}

/// Adds the line of a document's source, where it is refused.
///
/// # Errors
/// Only where there is no memory for it.
fn add_refused_run_at(
    alloc: Global,
    text: &mut String,
    trail: &Trail,
    envelope: &Envelope,
) -> Result<(), AllocError>
    ensures { OnOk result ((es : List SomeEnvelope) → trail.now ≡ trail_of es
        → Adds (string_bytes text.old) (string_bytes text.new) (IsRefusedAt es envelope.now)) }
{
    match envelope {
        Envelope::GherkinDocument(document) => {
            add_refused_of(alloc, text, trail, document.uri.as_str())
        }
        _ => Ok(()),
    }
}

/// Adds why the run whose end a line is isn't successful by the policy, or that nothing failed.
///
/// # Errors
/// Only where there is no memory for it.
fn add_run_truth_at(
    alloc: Global,
    seed: RandomState,
    text: &mut String,
    policy: Policy,
    state: &State,
    trail: &Trail,
    envelope: &Envelope,
) -> Result<(), AllocError>
    ensures { OnOk result ((es : List SomeEnvelope) → trail.now ≡ trail_of es
        → HasResults (summary_of state.now) es envelope.now
        → Adds (string_bytes text.old) (string_bytes text.new)
        (IsTruthAt policy es envelope.now)) }
{
    match envelope {
        Envelope::TestRunFinished(end) => {
            let track = state.attempts();
            add_truth(alloc, seed, text, trail, track, policy, end.has_exception)
        }
        _ => Ok(()),
    }
}

/// Adds the lines of a run that doesn't end: of the sources that are refused, and of the test cases with an open attempt.
///
/// # Errors
/// Only where there is no memory for them.
fn add_at_end(
    alloc: Global,
    seed: RandomState,
    text: &mut String,
    trail: &Trail,
) -> Result<(), AllocError>
    ensures { OnOk result ((es : List SomeEnvelope) → trail.now ≡ trail_of es
        → Adds (string_bytes text.old) (string_bytes text.new) (IsToldAtEnd es)) }
{
    add_refused(alloc, text, trail)?;
    add_open_cases(alloc, seed, text, trail)
}
