//! The first reference of an envelope that isn't declared.
ghost use Rattle.std.specs.Prelude.{◌≡◌, ◌∷◌, ◌++◌, [], None, Some, find, if◌then◌else◌, map, not, option_map};
ghost use Rattle.std.specs.List.{flat_map};
ghost use Rattle.cm_judge.specs.State.{summary_of};
ghost use Rattle.cm_attempt.specs.Table.{has_text};
ghost use Rattle.cm_state.specs.StateChecks.{knows_run};
ghost use Rattle.cm_stream.specs.References.{Definition, HookNamed, PickleNamed, PickleStep, Run, SourceOf, DocumentOf, if_any, test_step_names};
ghost use Rattle.cm_fault_reasons.specs.Unknown.{told_id, told_uri};
ghost use Rattle.cm_fault_reasons.specs.UnknownKept.{attachment_names_by, first_unknown_by, place_names, refers_of_case, told_view, unknown_among};

use cm_envelope::{Attachment, Envelope, Pickle, TestCase, TestRunHookStarted, TestStep};
use cm_judge::State;
use gk_document::Text;

/// A text of a line, and whether it is a uri; otherwise it is an id.
#[derive(Clone, Copy)]
pub(crate) struct ToldName<'a> {
    pub(crate) is_uri: bool,
    pub(crate) text: &'a str,
}

/// The uri, unless it is known.
fn uri_unless(is_known: bool, uri: &str) -> Option<ToldName<'_>>
    ensures { option_map told_view result
        ≡ (if is_known then None else Some (told_uri uri.now)) }
{
    if is_known {
        return None;
    }
    Some(ToldName {
        is_uri: true,
        text: uri,
    })
}

/// The id, unless it is known.
fn id_unless(is_known: bool, id: &str) -> Option<ToldName<'_>>
    ensures { option_map told_view result
        ≡ (if is_known then None else Some (told_id id.now)) }
{
    if is_known {
        return None;
    }
    Some(ToldName {
        is_uri: false,
        text: id,
    })
}

/// Whether the run that started has the id.
fn knows_run(state: &State, id: &Text) -> bool
    ensures { result ≡ knows_run (summary_of state.now) (Some id.now) }
{
    match state.run() {
        Some(run) => match &run.id {
            Some(started) => id == started,
            None => false,
        },
        None => false,
    }
}

/// The run that is named, unless it is the one that started.
fn unknown_run<'a>(state: &State, id: &'a Option<Text>) -> Option<ToldName<'a>>
    ensures { option_map told_view result
        ≡ unknown_among (summary_of state.now) (map Run (if_any id.now)) }
{
    match id {
        Some(id) => id_unless(knows_run(state, id), id.as_str()),
        None => None,
    }
}

/// The source, unless it is declared.
fn unknown_source<'a>(state: &State, uri: &'a str) -> Option<ToldName<'a>>
    ensures { option_map told_view result
        ≡ unknown_among (summary_of state.now) (SourceOf uri.now ∷ []) }
{
    uri_unless(state.find_source(uri).is_some(), uri)
}

/// The source or the document of a pickle.
fn unknown_of_pickle<'a>(state: &State, pickle: &'a Pickle) -> Option<ToldName<'a>>
    ensures { option_map told_view result
        ≡ unknown_among (summary_of state.now)
        (SourceOf pickle.now.uri ∷ DocumentOf pickle.now.uri ∷ []) }
{
    let uri = pickle.uri.as_str();
    let has_source = state.find_source(uri).is_some();
    if !has_source {
        return uri_unless(false, uri);
    }
    uri_unless(state.declared().has_document(uri), uri)
}

/// The hook of a test step, unless it is declared.
fn unknown_hook<'a>(state: &State, step: &'a TestStep) -> Option<ToldName<'a>>
    ensures { option_map told_view result
        ≡ unknown_among (summary_of state.now) (map HookNamed (if_any step.now.hook_id)) }
{
    match &step.hook_id {
        Some(id) => id_unless(state.declared().has_hook(id.as_str()), id.as_str()),
        None => None,
    }
}

/// The pickle step of a test step, unless it is one of the pickle.
fn unknown_pickle_step<'a>(state: &State, pickle: &str, step: &'a TestStep) -> Option<ToldName<'a>>
    ensures { option_map told_view result
        ≡ unknown_among (summary_of state.now)
        (map (PickleStep pickle.now) (if_any step.now.pickle_step_id)) }
{
    match &step.pickle_step_id {
        Some(id) => id_unless(state.declared().has_step(pickle, id.as_str()), id.as_str()),
        None => None,
    }
}

/// The first of the step definitions that isn't declared, by its id.
fn undeclared<'a>(state: &State, ids: &'a [Text]) -> Option<&'a Text>
    ensures { option_map (λ id. id.now) result
        ≡ find (λ id. not (has_text id (summary_of state.now).declared.definitions)) ids.now }
{
    let declared = state.declared();
    ids.iter().find(|id| !declared.has_definition(id.as_str()))
}

/// The first of the step definitions that isn't declared.
fn unknown_definition<'a>(state: &State, ids: &'a [Text]) -> Option<ToldName<'a>>
    ensures { option_map told_view result
        ≡ unknown_among (summary_of state.now) (map Definition ids.now) }
{
    match undeclared(state, ids) {
        Some(id) => id_unless(false, id.as_str()),
        None => None,
    }
}

/// The first thing that a test step names and that isn't declared.
fn unknown_of_step<'a>(state: &State, pickle: &str, step: &'a TestStep) -> Option<ToldName<'a>>
    ensures { option_map told_view result
        ≡ unknown_among (summary_of state.now) (test_step_names pickle.now step.now) }
{
    if let Some(told) = unknown_hook(state, step) {
        return Some(told);
    }
    if let Some(told) = unknown_pickle_step(state, pickle, step) {
        return Some(told);
    }
    unknown_definition(state, step.step_definition_ids.as_slice())
}

/// The first thing that the test steps name and that isn't declared.
fn unknown_of_steps<'a>(state: &State, pickle: &str, steps: &'a [TestStep]) -> Option<ToldName<'a>>
    ensures { option_map told_view result
        ≡ unknown_among (summary_of state.now) (flat_map (test_step_names pickle.now) steps.now) }
{
    for step in steps {
        if let Some(told) = unknown_of_step(state, pickle, step) {
            return Some(told);
        }
    }
    None
}

/// The first thing that a test case names and that isn't declared.
fn unknown_of_case<'a>(state: &State, case: &'a TestCase) -> Option<ToldName<'a>>
    ensures { option_map told_view result
        ≡ unknown_among (summary_of state.now) (refers_of_case case.now) }
{
    if let Some(told) = unknown_run(state, &case.test_run_started_id) {
        return Some(told);
    }
    let pickle = case.pickle_id.as_str();
    if state.declared().pickle(pickle).is_none() {
        return id_unless(false, pickle);
    }
    unknown_of_steps(state, pickle, case.test_steps.as_slice())
}

/// The attempt, or the step of its case, that isn't declared.
fn unknown_place<'a>(state: &State, attempt: &'a str, step: &'a str) -> Option<ToldName<'a>>
    ensures { option_map told_view result
        ≡ unknown_among (summary_of state.now) (place_names (summary_of state.now) attempt.now
        step.now) }
{
    if !state.attempts().has_attempt(attempt) {
        return id_unless(false, attempt);
    }
    id_unless(state.attempts().has_step(attempt, step), step)
}

/// What an attachment names and that isn't declared.
fn unknown_of_attachment<'a>(state: &State, attachment: &'a Attachment) -> Option<ToldName<'a>>
    ensures { option_map told_view result
        ≡ unknown_among (summary_of state.now) (attachment_names_by (summary_of state.now)
        attachment.now.test_case_started_id attachment.now.test_step_id) }
{
    match (&attachment.test_case_started_id, &attachment.test_step_id) {
        (None, _) => None,
        (Some(attempt), None) => {
            let attempt = attempt.as_str();
            id_unless(state.attempts().has_attempt(attempt), attempt)
        }
        (Some(attempt), Some(step)) => unknown_place(state, attempt.as_str(), step.as_str()),
    }
}

/// The run or the hook of a run hook that isn't declared.
fn unknown_of_run_hook<'a>(state: &State, started: &'a TestRunHookStarted) -> Option<ToldName<'a>>
    ensures { option_map told_view result
        ≡ unknown_among (summary_of state.now) (map Run (if_any started.now.test_run_started_id)
        ++ HookNamed started.now.hook_id ∷ []) }
{
    if let Some(told) = unknown_run(state, &started.test_run_started_id) {
        return Some(told);
    }
    let hook = started.hook_id.as_str();
    id_unless(state.declared().has_hook(hook), hook)
}

/// The first reference of an envelope that isn't declared. What refers to one thing alone is told without being looked up, since
/// it is asked only of an envelope with an unknown reference.
pub(crate) fn first_unknown<'a>(state: &State, envelope: &'a Envelope) -> Option<ToldName<'a>>
    ensures { option_map told_view result ≡ first_unknown_by (summary_of state.now) envelope.now }
{
    match envelope {
        Envelope::GherkinDocument(document) => unknown_source(state, document.uri.as_str()),
        Envelope::ParseError(error) => unknown_source(state, error.source.uri.as_str()),
        Envelope::Pickle(pickle) => unknown_of_pickle(state, pickle),
        Envelope::TestCase(case) => unknown_of_case(state, case),
        Envelope::TestCaseStarted(started) => {
            let case = started.test_case_id.as_str();
            id_unless(state.attempts().has_case(case), case)
        }
        Envelope::TestStepStarted(started) => unknown_place(
            state,
            started.test_case_started_id.as_str(),
            started.test_step_id.as_str(),
        ),
        Envelope::TestStepFinished(finished) => unknown_place(
            state,
            finished.test_case_started_id.as_str(),
            finished.test_step_id.as_str(),
        ),
        Envelope::TestCaseFinished(finished) => {
            let attempt = finished.test_case_started_id.as_str();
            id_unless(state.attempts().has_attempt(attempt), attempt)
        }
        Envelope::TestRunFinished(finished) => unknown_run(state, &finished.test_run_started_id),
        Envelope::TestRunHookStarted(started) => unknown_of_run_hook(state, started),
        Envelope::TestRunHookFinished(finished) => {
            let hook = finished.test_run_hook_started_id.as_str();
            id_unless(state.declared().has_run_hook(hook), hook)
        }
        Envelope::Attachment(attachment) => unknown_of_attachment(state, attachment),
        Envelope::Source(_)
        | Envelope::StepDefinition(_)
        | Envelope::Hook(_)
        | Envelope::TestRunStarted(_)
        | Envelope::Other => None,
    }
}
