//! How an envelope of each kind is judged.
ghost use Rattle.std.specs.Prelude.{◌≡◌, false, slice_get, OnOk, ◌&&◌, not, unwrap_or, IfErr, true, is_some, IfOk};
ghost use Rattle.cm_stream.specs.References.{is_judged, pickle_step_ids};
ghost use Rattle.cm_stream.specs.Redeclared.{passed_over};
ghost use Rattle.cm_state.specs.StateChecks.{is_redeclared_by, judged_by, knows_case, knows_place, is_well, knows_run_hook};
ghost use Rattle.cm_state.specs.StateChecks.{lacks_by, is_next_by, is_among, knows_step, knows_run};
ghost use Rattle.cm_judge.specs.State.{JudgesBy, Takes, summary_of, Judges, Checks};
ghost use Rattle.std.specs.Option.{option_map_or};
ghost use Rattle.std.specs.Str.{bytes_eq};
ghost use Rattle.cm_refs.specs.Declarations.{find_pickle, steps_of};
ghost use Rattle.cm_refs.specs.StepIds.{ids_in};
ghost use Rattle.cm_stream.specs.Texts.{same_texts};
ghost use Rattle.cm_attempt.specs.Table.{is_good_status, has_text, has_repeat};
ghost use Rattle.std.specs.List.{list_any, list_all};
ghost use Rattle.cm_stream.specs.Checks.{same_flag};
ghost use Rattle.cm_state.specs.ByOnePass.{plain_finding};
ghost use Rattle.cm_judge.specs.Kept.{IsAcceptedAt, kept_rows};
ghost use Rattle.cm_judge.specs.Stops.{StopsFor};

use crate::kept_sources::{
    KeptSource, are_accepted, count_pickle, find_source, kept_source, lack_some, set_ids,
};
use crate::record::{add_case, finish_attempt, finish_step, start_attempt, start_step};
use crate::state::{State, add_name, step_ids};
use crate::stop::Stop;
use cm_attempt::{Policy, Settings, Status, worst_with};
use cm_envelope::{
    Attachment, Envelope, GherkinDocument, Hook, NodeId, ParseError, Pickle, PickleStep, Source,
    StepDefinition, TestCase, TestCaseFinished, TestCaseStarted, TestRunFinished,
    TestRunHookFinished, TestRunHookStarted, TestRunStarted, TestStep, TestStepFinished,
    TestStepStarted,
};
use cm_refs::{Declared, StepIds};
use cm_stream::{Reason, StreamFault, kept_status};
use gk_document::{Sequence, Text};
use indexmap::IndexSet;
use kept_texts::KeptText;
use std::alloc::{AllocError, Global};
use std::hash::RandomState;

/// Judges an envelope of which no check comes after the end of the run, and takes it where it has no fault.
fn judge_inside(state: &mut State, envelope: Envelope, policy: Policy) -> Result<(), Stop>
    ensures { JudgesBy policy state.old state.new envelope result }
{
    match envelope {
        Envelope::Source(source) => judge_source(state, source),
        Envelope::GherkinDocument(document) => judge_document(state, document),
        Envelope::ParseError(error) => judge_parse_error(state, &error),
        Envelope::Pickle(pickle) => judge_pickle(state, pickle),
        Envelope::StepDefinition(definition) => judge_definition(state, &definition),
        Envelope::Hook(hook) => judge_hook(state, &hook),
        Envelope::TestCase(case) => judge_case(state, case),
        Envelope::TestRunStarted(run) => judge_run_started(state, run),
        Envelope::TestCaseStarted(started) => judge_attempt_started(state, &started),
        Envelope::TestStepStarted(started) => judge_step_started(state, &started),
        Envelope::TestStepFinished(finished) => judge_step_finished(state, &finished),
        Envelope::TestCaseFinished(finished) => judge_attempt_finished(state, &finished),
        Envelope::TestRunFinished(finished) => judge_run_finished(state, &finished, policy),
        Envelope::Attachment(attachment) => judge_attachment(state, &attachment),
        Envelope::TestRunHookStarted(started) => judge_run_hook_started(state, &started),
        Envelope::TestRunHookFinished(finished) => judge_run_hook_finished(state, &finished),
        Envelope::Other => Ok(()),
    }
}

/// Whether an envelope is a hook or a step definition of an id that is kept already.
fn is_redeclared(state: &State, envelope: &Envelope) -> bool
    ensures { result ≡ is_redeclared_by (summary_of state.now) envelope.now }
{
    match envelope {
        Envelope::Hook(hook) => state.declared.has_hook(hook.id.as_str()),
        Envelope::StepDefinition(definition) => {
            state.declared.has_definition(definition.id.as_str())
        }
        _ => false,
    }
}

/// An attachment that names nothing.
fn passed_over() -> Envelope
    ensures { result ≡ passed_over }
{
    Envelope::Attachment(Attachment {
        test_case_started_id: None,
        test_step_id: None,
    })
}

/// What an envelope is judged as: one that is declared again is passed over, where the settings allow it.
pub fn judged_as(state: &State, envelope: Envelope, settings: Settings) -> Envelope
    ensures { result ≡ judged_by settings (summary_of state.now) envelope }
{
    if settings.allows_redeclared && is_redeclared(state, &envelope) {
        drop(envelope);
        return passed_over();
    }
    envelope
}

/// Whether an envelope is of a kind that is judged.
fn is_judged(envelope: &Envelope) -> bool
    ensures { result ≡ is_judged envelope.now }
{
    !matches!(envelope, Envelope::Other)
}

/// Judges an envelope after the lines so far, and takes it where it has no fault.
///
/// # Errors
/// Why the stream ends to be judged at this line: its fault, the reason why it isn't judged, or that there is no memory.
pub fn judge(state: &mut State, envelope: Envelope, settings: Settings) -> Result<(), Stop>
    ensures { Takes settings state.old state.new envelope result }
{
    if state.is_finished && is_judged(&envelope) {
        drop(envelope);
        return Err(Stop::Bad(StreamFault::AfterRunFinished));
    }
    judge_inside(state, envelope, settings.policy)
}

/// Whether the step at an index has this id.
fn is_step_at(steps: &StepIds, at: usize, id: &str) -> bool
    ensures { result ≡ option_map_or (λ step. bytes_eq step id.now)
        (slice_get (ids_in steps.now) at) false }
{
    match steps.get(at) {
        Some(step) => step == id,
        None => false,
    }
}

/// Whether the pickle steps of a case are these, in order.
fn has_steps(case: &TestCase, steps: &StepIds) -> bool
    ensures { result ≡ same_texts (ids_in steps.now) (pickle_step_ids case.now) }
{
    let count = steps.len();
    let mut next = 0;
    for step in case.test_steps.as_slice() {
        if let Some(id) = &step.pickle_step_id {
            if !is_step_at(steps, next, id.as_str()) {
                return false;
            }
            next += 1;
        }
    }
    next == count
}

/// Whether the case has the steps of its pickle.
fn has_steps_of_pickle(declared: &Declared, case: &TestCase) -> bool
    ensures { result ≡ option_map_or (λ p. same_texts p.steps (pickle_step_ids case.now))
        (find_pickle declared.now case.now.pickle_id) false }
{
    match declared.pickle(case.pickle_id.as_str()) {
        Some(steps) => has_steps(case, steps),
        None => false,
    }
}

/// A test case names what is declared, and has the steps of its pickle in order.
fn judge_case(state: &mut State, case: TestCase) -> Result<(), Stop>
    ensures { Judges state.old state.new (Envelope.TestCase case) result }
{
    if !knows_case(state, &case) {
        return Err(Stop::Bad(StreamFault::UnknownReference));
    }
    if !has_steps_of_pickle(&state.declared, &case) {
        return Err(Stop::Bad(StreamFault::CaseStepsDiffer));
    }
    let TestCase {
        id,
        pickle_id,
        test_steps,
        ..
    } = case;
    state.named.reserve(1)?;
    add_case(state.alloc, &mut state.track, id, test_steps)?;
    add_name(&mut state.named, pickle_id.into_string())?;
    Ok(())
}

/// An attempt starts within the run, as the record of attempts lets it.
fn judge_attempt_started(state: &mut State, started: &TestCaseStarted) -> Result<(), Stop>
    ensures { Judges state.old state.new (Envelope.TestCaseStarted started.now) result }
{
    if state.run.is_none() {
        return Err(Stop::Bad(StreamFault::OutsideRun));
    }
    start_attempt(&mut state.track, started)?;
    Ok(())
}

/// A step starts as the record of attempts lets it.
fn judge_step_started(state: &mut State, started: &TestStepStarted) -> Result<(), Stop>
    ensures { Judges state.old state.new (Envelope.TestStepStarted started.now) result }
{
    start_step(&mut state.track, started)?;
    Ok(())
}

/// A step finishes as the record of attempts lets it, and with a status that is judged.
fn judge_step_finished(state: &mut State, finished: &TestStepFinished) -> Result<(), Stop>
    ensures { Judges state.old state.new (Envelope.TestStepFinished finished.now) result }
{
    finish_step(&mut state.track, finished)?;
    if kept_status(finished.test_step_result.status) == Status::Unknown {
        return Err(Stop::Unsupported(Reason::UnknownStatus));
    }
    Ok(())
}

/// An attempt finishes as the record of attempts lets it.
fn judge_attempt_finished(state: &mut State, finished: &TestCaseFinished) -> Result<(), Stop>
    ensures { Judges state.old state.new (Envelope.TestCaseFinished finished.now) result }
{
    finish_attempt(&mut state.track, finished)?;
    Ok(())
}

/// An attachment names a place that is known.
fn judge_attachment(state: &State, attachment: &Attachment) -> Result<(), Stop>
    ensures { Judges state.now state.now (Envelope.Attachment attachment.now) result }
{
    if knows_place(state, attachment) {
        Ok(())
    } else {
        Err(Stop::Bad(StreamFault::UnknownReference))
    }
}

/// A run starts once.
fn judge_run_started(state: &mut State, run: TestRunStarted) -> Result<(), Stop>
    ensures { Judges state.old state.new (Envelope.TestRunStarted run) result }
{
    if state.run.is_some() {
        return Err(Stop::Bad(StreamFault::SecondRunStarted));
    }
    state.run = Some(run);
    Ok(())
}

/// A run hook starts within the run, of a declared hook, and its id is new.
fn judge_run_hook_started(state: &mut State, started: &TestRunHookStarted) -> Result<(), Stop>
    ensures { Judges state.old state.new (Envelope.TestRunHookStarted started.now) result }
{
    if state.run.is_none() {
        return Err(Stop::Bad(StreamFault::OutsideRun));
    }
    if !knows_run_hook(state, started) {
        return Err(Stop::Bad(StreamFault::UnknownReference));
    }
    state.declared.start_run_hook(started.id.as_str())?;
    Ok(())
}

/// A run hook that started finishes once, and with a status that is judged.
fn judge_run_hook_finished(state: &mut State, finished: &TestRunHookFinished) -> Result<(), Stop>
    ensures { Judges state.old state.new (Envelope.TestRunHookFinished finished.now) result }
{
    let status = kept_status(finished.result.status);
    state
        .declared
        .finish_run_hook(finished.test_run_hook_started_id.as_str())?;
    if status == Status::Unknown {
        return Err(Stop::Unsupported(Reason::UnknownStatus));
    }
    state.hooks_worst = Some(worst_with(state.hooks_worst, status));
    Ok(())
}

/// Whether a document or a pickle of a source is still to come.
fn is_incomplete(state: &State) -> bool
    ensures { result ≡ list_any lacks_by (summary_of state.now).sources }
{
    lack_some(&state.sources)
}

/// Whether the worst status of the run hooks, if any is finished, is good.
fn are_hooks_good(worst: Option<Status>, policy: Policy) -> bool
    ensures { result ≡ is_good_status policy (unwrap_or worst Status.Passed) }
{
    policy.is_good(worst.unwrap_or(Status::Passed))
}

/// Whether each case has a final attempt at worst of a good status, each run hook is at worst of one, and no source is refused.
fn is_well(state: &State, policy: Policy) -> bool
    ensures { result ≡ is_well policy (summary_of state.now) }
{
    state.track.all_good_with(policy)
        && are_hooks_good(state.hooks_worst, policy)
        && are_accepted(&state.sources)
}

/// Whether the run's end reports its success as it is.
fn reports_success(state: &State, finished: &TestRunFinished, policy: Policy) -> bool
    ensures { result ≡ same_flag finished.now.success
        (is_well policy (summary_of state.now) && not finished.now.has_exception) }
{
    finished.success == (is_well(state, policy) && !finished.has_exception)
}

/// A run that started finishes with nothing open or lacking, and reports its success as it is.
fn judge_run_finished(
    state: &mut State,
    finished: &TestRunFinished,
    policy: Policy,
) -> Result<(), Stop>
    ensures { JudgesBy policy state.old state.new (Envelope.TestRunFinished finished.now) result }
{
    if state.run.is_none() {
        return Err(Stop::Bad(StreamFault::OutsideRun));
    }
    if !knows_run(state, &finished.test_run_started_id) {
        return Err(Stop::Bad(StreamFault::UnknownReference));
    }
    if state.track.open_attempts() != 0 {
        return Err(Stop::Bad(StreamFault::AttemptOpen));
    }
    if state.declared.open_run_hooks() != 0 {
        return Err(Stop::Bad(StreamFault::RunHookOpen));
    }
    if is_incomplete(state) {
        return Err(Stop::Bad(StreamFault::SourceIncomplete));
    }
    if !reports_success(state, finished, policy) {
        return Err(Stop::Bad(StreamFault::SuccessDiffers));
    }
    state.is_finished = true;
    state.success = finished.success;
    Ok(())
}

/// The id of a step definition is new.
fn judge_definition(state: &mut State, definition: &StepDefinition) -> Result<(), Stop>
    ensures { Judges state.old state.new (Envelope.StepDefinition definition.now) result }
{
    state.declared.declare_definition(definition.id.as_str())?;
    Ok(())
}

/// The id of a hook is new.
fn judge_hook(state: &mut State, hook: &Hook) -> Result<(), Stop>
    ensures { Judges state.old state.new (Envelope.Hook hook.now) result }
{
    state.declared.declare_hook(hook.id.as_str())?;
    Ok(())
}

/// The media type of plain Gherkin.
const PLAIN: &str = "text/x.cucumber.gherkin+plain";

/// A source has a uri of its own and holds plain Gherkin, and what its text is read as is kept.
fn judge_source(state: &mut State, source: Source) -> Result<(), Stop>
    ensures { Judges state.old state.new (Envelope.Source source) result }
{
    let Source {
        uri,
        content,
        media_type,
    } = source;
    if state.sources.contains_key(uri.as_str()) {
        return Err(Stop::Bad(StreamFault::DuplicateUri));
    }
    if media_type.as_str() != PLAIN {
        return Err(Stop::Unsupported(Reason::MediaType));
    }
    let kept = kept_source(state.alloc, content.as_str())?;
    let uri = KeptText::from(uri.into_string());
    drop(state.sources.insert(uri, kept)?);
    Ok(())
}

/// Whether the stream's document is the one of its source.
fn check_document(state: &State, document: &GherkinDocument) -> Result<(), Stop>
    ensures found { Checks state.now (Envelope.GherkinDocument document.now) result }
    ensures first { OnOk result (has_text document.now.uri state.now.declared.documents ≡ false) }
    ensures accepted { OnOk result (IsAcceptedAt document.now.uri
        (kept_rows state.now.sources.entries)) }
{
    let uri = document.uri.as_str();
    let kept = match find_source(&state.sources, uri) {
        Some(kept) => kept,
        None => return Err(Stop::Bad(StreamFault::UnknownReference)),
    };
    if state.declared.has_document(uri) {
        return Err(Stop::Bad(StreamFault::DuplicateUri));
    }
    let accepted = match kept {
        KeptSource::Accepted(accepted) => accepted,
        KeptSource::Refused => return Err(Stop::Bad(StreamFault::DocumentOfRefusedSource)),
    };
    if !accepted.is_awaited(&document.document) {
        return Err(Stop::Bad(StreamFault::TreeDiffers));
    }
    if have_repeat(state.alloc, state.seed, document.ids.as_slice())? {
        return Err(Stop::Bad(StreamFault::DuplicateId));
    }
    Ok(())
}

/// A document is the first of an accepted source, has its skeleton, and its ids are all different.
fn judge_document(state: &mut State, document: GherkinDocument) -> Result<(), Stop>
    ensures { Judges state.old state.new (Envelope.GherkinDocument document) result }
{
    let checked = check_document(state, &document);
    // The tree isn't kept, whatever was found.
    let GherkinDocument { uri, document, ids } = document;
    drop(document);
    checked?;
    state.declared.declare_document(uri.as_str())?;
    set_ids(&mut state.sources, uri.as_str(), ids);
    Ok(())
}

/// A parse error is reported of a source that is refused.
fn judge_parse_error(state: &State, error: &ParseError) -> Result<(), Stop>
    ensures { Judges state.now state.now (Envelope.ParseError error.now) result }
{
    match find_source(&state.sources, error.source.uri.as_str()) {
        None => Err(Stop::Bad(StreamFault::UnknownReference)),
        Some(KeptSource::Accepted(_)) => Err(Stop::Bad(StreamFault::ParseErrorOfGoodSource)),
        Some(KeptSource::Refused) => Ok(()),
    }
}

/// Whether the pickle is the next one of its source. Its ids aren't looked at.
fn check_pickle(state: &State, pickle: &Pickle) -> Result<(), Stop>
    ensures err { IfErr result (λ why. StopsFor
        (plain_finding (summary_of state.now) (Envelope.Pickle pickle.now)) why) }
    ensures known { OnOk result ((has_text pickle.now.uri (summary_of state.now).declared.sources
        && has_text pickle.now.uri (summary_of state.now).declared.documents) ≡ true) }
    ensures next { OnOk result (is_next_by (summary_of state.now) pickle.now ≡ true) }
{
    let uri = pickle.uri.as_str();
    let kept = match find_source(&state.sources, uri) {
        Some(kept) => kept,
        None => return Err(Stop::Bad(StreamFault::UnknownReference)),
    };
    if !state.declared.has_document(uri) {
        return Err(Stop::Bad(StreamFault::UnknownReference));
    }
    let is_next = kept.is_next(state.alloc, state.seed, pickle)?;
    if !is_next {
        return Err(Stop::Bad(StreamFault::PickleDiffers));
    }
    Ok(())
}

/// The id, the uri and the steps of a pickle, without a copy.
fn id_uri_steps(pickle: Pickle) -> (Text, Text, Sequence<PickleStep>)
    ensures { result ≡ (pickle.id, pickle.uri, pickle.steps) }
{
    let Pickle { id, uri, steps, .. } = pickle;
    (id, uri, steps)
}

/// A pickle is the next one of its source, after the document, and its ids are new.
fn judge_pickle(state: &mut State, pickle: Pickle) -> Result<(), Stop>
    ensures { Judges state.old state.new (Envelope.Pickle pickle) result }
{
    check_pickle(state, &pickle)?;
    let (id, uri, steps) = id_uri_steps(pickle);
    let steps = step_ids(state.alloc, steps)?;
    state.declared.declare_pickle(id.into_string(), steps)?;
    count_pickle(&mut state.sources, uri.as_str());
    Ok(())
}

/// Whether the step names no hook, or a declared one.
fn knows_hook(declared: &Declared, step: &TestStep) -> bool
    ensures { result ≡ is_among declared.now.hooks step.now.hook_id }
{
    match &step.hook_id {
        Some(id) => declared.has_hook(id.as_str()),
        None => true,
    }
}

/// Whether the step names no pickle step, or one of the pickle's.
fn knows_pickle_step(declared: &Declared, pickle: &str, step: &TestStep) -> bool
    ensures { result ≡ is_among (steps_of declared.now pickle.now) step.now.pickle_step_id }
{
    match &step.pickle_step_id {
        Some(id) => declared.has_step(pickle, id.as_str()),
        None => true,
    }
}

/// Whether the step definitions are declared.
fn knows_definitions(declared: &Declared, ids: &[Text]) -> bool
    ensures { result ≡ list_all (λ id. has_text id declared.now.definitions) ids.now }
{
    ids.iter().all(|id| declared.has_definition(id.as_str()))
}

/// Whether what a step names is known.
fn knows_step(state: &State, pickle: &str, step: &TestStep) -> bool
    ensures { result ≡ knows_step (summary_of state.now) pickle.now step.now }
{
    let declared = &state.declared;
    knows_hook(declared, step)
        && knows_pickle_step(declared, pickle, step)
        && knows_definitions(declared, step.step_definition_ids.as_slice())
}

/// Whether what the steps name is known.
fn knows_steps(state: &State, pickle: &str, steps: &[TestStep]) -> bool
    ensures { result ≡ list_all (knows_step (summary_of state.now) pickle.now) steps.now }
{
    steps.iter().all(|step| knows_step(state, pickle, step))
}

/// Whether the pickle is declared.
fn knows_pickle(declared: &Declared, id: &str) -> bool
    ensures { result ≡ is_some (find_pickle declared.now id.now) }
{
    declared.pickle(id).is_some()
}

/// Whether the run, the pickle and what the steps name are known.
fn knows_case(state: &State, case: &TestCase) -> bool
    ensures { result ≡ knows_case (summary_of state.now) case.now }
{
    let pickle = case.pickle_id.as_str();
    knows_run(state, &case.test_run_started_id)
        && knows_pickle(&state.declared, pickle)
        && knows_steps(state, pickle, case.test_steps.as_slice())
}

/// Whether the hook is declared, and the run is the one that started, where one is named.
fn knows_run_hook(state: &State, started: &TestRunHookStarted) -> bool
    ensures { result ≡ knows_run_hook (summary_of state.now) started.now }
{
    knows_run(state, &started.test_run_started_id)
        && state.declared.has_hook(started.hook_id.as_str())
}

/// Whether no attempt is named, or one that was started, with no step or one of its case's.
fn knows_place(state: &State, attachment: &Attachment) -> bool
    ensures { result
        ≡ knows_place
        (summary_of state.now) attachment.now.test_case_started_id attachment.now.test_step_id }
{
    match (&attachment.test_case_started_id, &attachment.test_step_id) {
        (None, _) => true,
        (Some(attempt), None) => state.track.has_attempt(attempt.as_str()),
        (Some(attempt), Some(step)) => state.track.has_step(attempt.as_str(), step.as_str()),
    }
}

/// Whether no run is named, or the one that started.
fn knows_run(state: &State, id: &Option<Text>) -> bool
    ensures { result ≡ knows_run (summary_of state.now) id.now }
{
    match (id, &state.run) {
        (None, _) => true,
        (Some(_), None) => false,
        (Some(id), Some(run)) => match &run.id {
            Some(started) => id == started,
            None => false,
        },
    }
}

/// Whether two of the texts are equal.
fn have_repeat(alloc: Global, seed: RandomState, texts: &[NodeId]) -> Result<bool, AllocError>
    ensures { IfOk result (λ found. found ≡ has_repeat texts.now) }
{
    let mut set = IndexSet::with_capacity_and_hasher(alloc, texts.len(), seed)?;
    for text in texts {
        let is_new = set.insert(text.as_str())?;
        if !is_new {
            return Ok(true);
        }
    }
    Ok(false)
}
