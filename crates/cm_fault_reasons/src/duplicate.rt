//! The id that makes an envelope a second declaration.
ghost use Rattle.std.specs.Prelude.{◌≡◌, [], IfOk, map, option_map};
ghost use Rattle.cm_judge.specs.State.{summary_of};
ghost use Rattle.cm_fault_reasons.specs.Duplicate.{first_repeat};
ghost use Rattle.cm_fault_reasons.specs.DuplicateKept.{duplicate_by};

use cm_envelope::{Envelope, NodeId, Pickle, PickleStep, TestCase, TestStep};
use cm_judge::State;
use indexmap::IndexSet;
use std::alloc::{AllocError, Global};
use std::hash::RandomState;

/// The first of the ids that stands before in the list.
fn first_repeat<'a>(
    alloc: Global,
    seed: RandomState,
    ids: &[&'a str],
) -> Result<Option<&'a str>, AllocError>
    ensures { IfOk result (λ id. option_map (λ t. t.now) id
        ≡ first_repeat (map (λ t. t.now) ids.now)) }
{
    let mut seen = IndexSet::with_capacity_and_hasher(alloc, ids.len(), seed)?;
    for id in ids {
        let is_new = seen.insert(*id)?;
        if !is_new {
            return Ok(Some(*id));
        }
    }
    Ok(None)
}

/// The ids of a document's nodes.
fn node_ids<'a>(alloc: Global, ids: &'a [NodeId]) -> Result<Vec<&'a str>, AllocError>
    ensures { IfOk result (λ texts. map (λ t. t.now) texts.items ≡ ids.now) }
{
    let mut texts = Vec::new(alloc);
    for id in ids {
        texts.push(id.as_str())?;
    }
    Ok(texts)
}

/// The ids of a pickle's steps.
fn pickle_step_ids<'a>(alloc: Global, steps: &'a [PickleStep]) -> Result<Vec<&'a str>, AllocError>
    ensures { IfOk result (λ texts. map (λ t. t.now) texts.items ≡ map (λ s. s.id) steps.now) }
{
    let mut texts = Vec::new(alloc);
    for step in steps {
        texts.push(step.id.as_str())?;
    }
    Ok(texts)
}

/// The ids of a test case's steps.
fn test_step_ids<'a>(alloc: Global, steps: &'a [TestStep]) -> Result<Vec<&'a str>, AllocError>
    ensures { IfOk result (λ texts. map (λ t. t.now) texts.items ≡ map (λ s. s.id) steps.now) }
{
    let mut texts = Vec::new(alloc);
    for step in steps {
        texts.push(step.id.as_str())?;
    }
    Ok(texts)
}

/// The id of a pickle, or else the first repeated one of its steps.
fn duplicate_of_pickle<'a>(
    alloc: Global,
    seed: RandomState,
    state: &State,
    pickle: &'a Pickle,
) -> Result<Option<&'a str>, AllocError>
    ensures { IfOk result (λ id. option_map (λ t. t.now) id
        ≡ duplicate_by (summary_of state.now) (Envelope.Pickle pickle.now)) }
{
    let id = pickle.id.as_str();
    if state.declared().pickle(id).is_some() {
        return Ok(Some(id));
    }
    let ids = pickle_step_ids(alloc, pickle.steps.as_slice())?;
    first_repeat(alloc, seed, ids.as_slice())
}

/// The id of a test case, or else the first repeated one of its steps.
fn duplicate_of_case<'a>(
    alloc: Global,
    seed: RandomState,
    state: &State,
    case: &'a TestCase,
) -> Result<Option<&'a str>, AllocError>
    ensures { IfOk result (λ id. option_map (λ t. t.now) id
        ≡ duplicate_by (summary_of state.now) (Envelope.TestCase case.now)) }
{
    let id = case.id.as_str();
    if state.attempts().has_case(id) {
        return Ok(Some(id));
    }
    let ids = test_step_ids(alloc, case.test_steps.as_slice())?;
    first_repeat(alloc, seed, ids.as_slice())
}

/// The id that makes an envelope a second declaration. What has one id alone is told by it without a look, since it is asked only
/// of an envelope that declares something again.
///
/// # Errors
/// Only where there is no memory for the ids.
pub(crate) fn first_duplicate<'a>(
    alloc: Global,
    seed: RandomState,
    state: &State,
    envelope: &'a Envelope,
) -> Result<Option<&'a str>, AllocError>
    ensures { IfOk result (λ id. option_map (λ t. t.now) id
        ≡ duplicate_by (summary_of state.now) envelope.now) }
{
    match envelope {
        Envelope::GherkinDocument(document) => {
            let ids = node_ids(alloc, document.ids.as_slice())?;
            first_repeat(alloc, seed, ids.as_slice())
        }
        Envelope::Pickle(pickle) => duplicate_of_pickle(alloc, seed, state, pickle),
        Envelope::TestCase(case) => duplicate_of_case(alloc, seed, state, case),
        Envelope::StepDefinition(definition) => Ok(Some(definition.id.as_str())),
        Envelope::Hook(hook) => Ok(Some(hook.id.as_str())),
        Envelope::TestCaseStarted(started) => Ok(Some(started.id.as_str())),
        Envelope::TestRunHookStarted(started) => Ok(Some(started.id.as_str())),
        _ => Ok(None),
    }
}
