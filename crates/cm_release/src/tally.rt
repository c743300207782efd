//! What is kept of a run for its release, envelope by envelope.
ghost use Rattle.std.specs.Prelude.{◌≡◌, List, IfOk, string_bytes, ℕ, map, ◌++◌, ◌∷◌, [], OnOk};
ghost use Rattle.cm_envelope.specs.declared.envelope.Envelope.{Envelope as SomeEnvelope};
ghost use Rattle.cm_stream.specs.Release.{is_unmatched};
ghost use Rattle.cm_release.specs.Tallied.{IsTallyOf};
ghost use Rattle.cm_release.specs.Kept.{unmatched_ids, case_entry, kept_nothing, pickle_entry, start_entry, HasUnmatched};
ghost use Rattle.cm_release.specs.Kept.{Keeps, finish_among, pass_among, skip_of};
ghost use Rattle.cm_attempt.specs.Table.{has_text};

use cm_cases::tag_names;
use cm_envelope::{
    Envelope, Pickle, Status, TestCase, TestCaseStarted, TestStep, TestStepFinished,
};
use cm_reasons::Trail;
use gk_document::{Sequence, Text};
use indexmap::IndexSet;
use std::alloc::{AllocError, Global};
use std::hash::RandomState;

/// Whether the step is of a pickle's step, and no step definition matches it.
fn is_unmatched(step: &TestStep) -> bool
    ensures { result ≡ is_unmatched step.now }
{
    step.pickle_step_id.is_some() && step.step_definition_ids.len() == 0
}

/// The ids of the steps that are of a pickle and that no step definition matches.
fn unmatched_entry(alloc: Global, steps: &[TestStep]) -> Result<Sequence<Text>, AllocError>
    ensures { IfOk result (λ ids. ids ≡ unmatched_ids steps.now) }
{
    let mut ids = Sequence::new(alloc);
    for step in steps {
        if is_unmatched(step) {
            ids.push(Text::copy_of(alloc, step.id.as_str())?)?;
        }
    }
    Ok(ids)
}

/// What a release is judged by, and what its reasons name, kept envelope by envelope.
#[derive(Drop)]
pub struct Tally {
    pub(crate) keeping: Keeping,
    pub(crate) trail: Trail,
}

impl Tally {
    /// That of no envelope. It takes no memory.
    pub fn new(alloc: Global, seed: RandomState) -> Tally
        ensures { IsTallyOf result [] }
    {
        Tally {
            keeping: Keeping::new(alloc, seed),
            trail: Trail::new(alloc),
        }
    }

    /// Keeps what a release is judged by, and what its reasons name, of one envelope more.
    ///
    /// # Errors
    /// Only where there is no memory for it.
    pub fn note(&mut self, alloc: Global, envelope: &Envelope) -> Result<(), AllocError>
        ensures { OnOk result ((es : List SomeEnvelope) → IsTallyOf self.old es
            → IsTallyOf self.new (es ++ envelope.now ∷ [])) }
    {
        self.trail.note(alloc, envelope)?;
        self.keeping.note(alloc, envelope)
    }

    /// What the reasons name.
    pub fn trail(&self) -> &Trail
        ensures { result.now ≡ self.now.trail }
    {
        &self.trail
    }
}

/// A pickle, with the names of its tags.
#[derive(Drop)]
pub(crate) struct PickleEntry {
    pub(crate) id: Text,
    pub(crate) tags: Sequence<Text>,
    pub(crate) is_stepless: bool,
}

/// A test case, by the pickle that it names, with the ids of those of its steps that are of a pickle and that no step
/// definition matches.
#[derive(Drop)]
pub(crate) struct CaseEntry {
    pub(crate) id: Text,
    pub(crate) pickle_id: Text,
    pub(crate) unmatched: Sequence<Text>,
}

/// The start of an attempt at a case.
#[derive(Drop)]
pub(crate) struct StartEntry {
    pub(crate) id: Text,
    pub(crate) case_id: Text,
}

/// The end of a step of an attempt that passed, or that is pending.
#[derive(Drop)]
pub(crate) struct FinishEntry {
    pub(crate) attempt_id: Text,
    pub(crate) step_id: Text,
    pub(crate) is_pending: bool,
}

/// What is kept of a stream's envelopes for its release. `skips` are the attempts of the steps that were skipped.
#[derive(Drop)]
pub(crate) struct Kept {
    pub(crate) pickles: Sequence<PickleEntry>,
    pub(crate) cases: Sequence<CaseEntry>,
    pub(crate) starts: Sequence<StartEntry>,
    pub(crate) skips: Sequence<Text>,
    pub(crate) finishes: Sequence<FinishEntry>,
}

impl Kept {
    /// What is kept of no envelope. It takes no memory.
    pub(crate) fn new(alloc: Global) -> Kept
        ensures { result ≡ kept_nothing }
    {
        Kept {
            pickles: Sequence::new(alloc),
            cases: Sequence::new(alloc),
            starts: Sequence::new(alloc),
            skips: Sequence::new(alloc),
            finishes: Sequence::new(alloc),
        }
    }
}

/// What is kept of a pickle.
fn pickle_entry(alloc: Global, pickle: &Pickle) -> Result<PickleEntry, AllocError>
    ensures { IfOk result (λ entry. entry ≡ pickle_entry pickle.now) }
{
    Ok(PickleEntry {
        id: Text::copy_of(alloc, pickle.id.as_str())?,
        tags: tag_names(alloc, pickle.tags.as_slice())?,
        is_stepless: pickle.steps.len() == 0,
    })
}

/// What is kept of a case.
fn case_entry(alloc: Global, case: &TestCase) -> Result<CaseEntry, AllocError>
    ensures { IfOk result (λ entry. entry ≡ case_entry case.now) }
{
    Ok(CaseEntry {
        id: Text::copy_of(alloc, case.id.as_str())?,
        pickle_id: Text::copy_of(alloc, case.pickle_id.as_str())?,
        unmatched: unmatched_entry(alloc, case.test_steps.as_slice())?,
    })
}

/// What is kept of the start of an attempt.
fn start_entry(alloc: Global, start: &TestCaseStarted) -> Result<StartEntry, AllocError>
    ensures { IfOk result (λ entry. entry ≡ start_entry start.now) }
{
    Ok(StartEntry {
        id: Text::copy_of(alloc, start.id.as_str())?,
        case_id: Text::copy_of(alloc, start.test_case_id.as_str())?,
    })
}

/// What is kept of the envelopes so far, and the ids of the unmatched steps among them.
#[derive(Drop)]
pub(crate) struct Keeping {
    pub(crate) kept: Kept,
    pub(crate) unmatched: IndexSet<String, RandomState>,
}

/// Adds an id, where it isn't there yet.
fn add_id(
    ids: &mut IndexSet<String, RandomState>,
    alloc: Global,
    id: &Text,
) -> Result<(), AllocError>
    ensures { OnOk result ((text : List ℕ) → has_text text (map string_bytes ids.new.keys)
        ≡ has_text text (map string_bytes ids.old.keys ++ id.now ∷ [])) }
{
    let owned = String::from_str(alloc, id.as_str())?;
    ids.insert(owned)?;
    Ok(())
}

/// Adds ids, each where it isn't there yet.
fn add_ids(
    ids: &mut IndexSet<String, RandomState>,
    alloc: Global,
    added: &[Text],
) -> Result<(), AllocError>
    ensures { OnOk result ((text : List ℕ) → has_text text (map string_bytes ids.new.keys)
        ≡ has_text text (map string_bytes ids.old.keys ++ added.now)) }
{
    for id in added {
        add_id(ids, alloc, id)?;
    }
    Ok(())
}

impl Keeping {
    /// That of no envelope. It takes no memory.
    pub(crate) fn new(alloc: Global, seed: RandomState) -> Keeping
        ensures { Keeps result.kept result.unmatched [] }
    {
        Keeping {
            kept: Kept::new(alloc),
            unmatched: IndexSet::with_hasher(alloc, seed),
        }
    }

    /// Keeps a case and the ids of its unmatched steps.
    fn note_case(&mut self, alloc: Global, case: &TestCase) -> Result<(), AllocError>
        ensures kept { OnOk result (self.new.kept
            ≡ record self.old.kept { cases = self.old.kept.cases ++ case_entry case.now ∷ [] }) }
        ensures unmatched { OnOk result (HasUnmatched self.old.unmatched self.old.kept.cases
            → HasUnmatched self.new.unmatched self.new.kept.cases) }
    {
        let entry = case_entry(alloc, case)?;
        add_ids(&mut self.unmatched, alloc, entry.unmatched.as_slice())?;
        self.kept.cases.push(entry)
    }
}

/// Whether the id is among these. In an empty set nothing is looked up.
fn has_id(ids: &IndexSet<String, RandomState>, id: &str) -> bool
    ensures { result ≡ has_text id.now (map string_bytes ids.now.keys) }
{
    !ids.is_empty() && ids.contains(id)
}

/// Keeps the end of a step that passed or is pending, where it has the id of an unmatched step.
fn note_pass(
    alloc: Global,
    kept: &mut Kept,
    unmatched: &IndexSet<String, RandomState>,
    finish: &TestStepFinished,
    is_pending: bool,
) -> Result<(), AllocError>
    ensures { OnOk result (kept.new ≡ record kept.old {
      finishes = kept.old.finishes
          ++ pass_among (map string_bytes unmatched.now.keys) finish.now is_pending;
    }) }
{
    if !has_id(unmatched, finish.test_step_id.as_str()) {
        return Ok(());
    }
    kept.finishes.push(FinishEntry {
        attempt_id: Text::copy_of(alloc, finish.test_case_started_id.as_str())?,
        step_id: Text::copy_of(alloc, finish.test_step_id.as_str())?,
        is_pending,
    })
}

/// Keeps what the end of a step comes to.
fn note_finish(
    alloc: Global,
    kept: &mut Kept,
    unmatched: &IndexSet<String, RandomState>,
    finish: &TestStepFinished,
) -> Result<(), AllocError>
    ensures { OnOk result (kept.new ≡ record kept.old {
      skips = kept.old.skips ++ skip_of finish.now finish.now.test_step_result.status;
      finishes = kept.old.finishes
          ++ finish_among (map string_bytes unmatched.now.keys) finish.now
          finish.now.test_step_result.status;
    }) }
{
    match finish.test_step_result.status {
        Status::Skipped => {
            let attempt = Text::copy_of(alloc, finish.test_case_started_id.as_str())?;
            kept.skips.push(attempt)
        }
        Status::Passed => note_pass(alloc, kept, unmatched, finish, false),
        Status::Pending => note_pass(alloc, kept, unmatched, finish, true),
        _ => Ok(()),
    }
}

impl Keeping {
    /// Keeps what is counted of one envelope more.
    pub(crate) fn note(&mut self, alloc: Global, envelope: &Envelope) -> Result<(), AllocError>
        ensures { OnOk result ((es : List SomeEnvelope)
            → Keeps self.old.kept self.old.unmatched es
            → Keeps self.new.kept self.new.unmatched (es ++ envelope.now ∷ [])) }
    {
        match envelope {
            Envelope::Pickle(pickle) => self.kept.pickles.push(pickle_entry(alloc, pickle)?),
            Envelope::TestCase(case) => self.note_case(alloc, case),
            Envelope::TestCaseStarted(start) => self.kept.starts.push(start_entry(alloc, start)?),
            Envelope::TestStepFinished(finish) => {
                note_finish(alloc, &mut self.kept, &self.unmatched, finish)
            }
            _ => Ok(()),
        }
    }
}
