//! What an audit keeps of the lines so far.
ghost use Rattle.std.specs.Prelude.{◌≡◌, option_map, OnOk, ℕ, List, IfOk, map, ◌<◌, IsOk};
ghost use Rattle.cm_state.specs.StateChecks.{find_source};
ghost use Rattle.cm_state.specs.Summary.{counts_in, empty_summary, with_name};
ghost use Rattle.cm_judge.specs.Kept.{kept_row, kept_rows};
ghost use Rattle.cm_judge.specs.State.{summary_of, with_uris};
ghost use Rattle.std.specs.String.{string_bytes};
ghost use Rattle.indexmap.specs.IndexSet.{spare};
ghost use Rattle.kept_texts.specs.Kept.{bytes_of};

use crate::kept_sources::{KeptSource, Sources, find_source};
use cm_attempt::{Status, Track};
use cm_envelope::{PickleStep, TestRunStarted, TestStep};
use cm_refs::Declared;
use cm_stream::Counts;
use gk_document::{Sequence, Text};
use indexmap::{IndexMap, IndexSet};
use kept_texts::KeptText;
use std::alloc::{AllocError, AllocFailed, Global};
use std::hash::RandomState;

/// The ids of pickles that test cases name, each once.
pub(crate) type Names = IndexSet<KeptText, RandomState>;

/// What an audit keeps: each source by its uri, what else was declared, the record of attempts, the pickles that cases name,
/// what the run's envelopes said, its success among it, and the worst status of its hooks.
#[derive(Drop)]
pub struct State {
    pub(crate) declared: Declared,
    pub(crate) track: Track,
    pub(crate) sources: Sources,
    pub(crate) named: Names,
    pub(crate) run: Option<TestRunStarted>,
    pub(crate) is_finished: bool,
    pub(crate) success: bool,
    pub(crate) hooks_worst: Option<Status>,
    pub(crate) alloc: Global,
    pub(crate) seed: RandomState,
}

impl State {
    /// Nothing was seen yet, and the attempts of a case will be numbered from `first`. It takes no memory.
    pub fn new(alloc: Global, seed: RandomState, first: u64) -> State
        ensures { summary_of result ≡ empty_summary first }
    {
        State {
            declared: Declared::new(alloc, seed),
            track: Track::counting_from(alloc, seed, first),
            sources: IndexMap::with_hasher(alloc, seed),
            named: IndexSet::with_hasher(alloc, seed),
            run: None,
            is_finished: false,
            success: false,
            hooks_worst: None,
            alloc,
            seed,
        }
    }

    /// What was declared, but for the sources: `sources` has these.
    pub fn declared(&self) -> &Declared
        ensures { with_uris (summary_of self.now).sources result.now
            ≡ (summary_of self.now).declared }
    {
        &self.declared
    }

    /// The record of attempts.
    pub fn attempts(&self) -> &Track
        ensures { result.now ≡ (summary_of self.now).table }
    {
        &self.track
    }

    /// The sources, in the order of the stream.
    pub fn sources(&self) -> &Sources
        ensures { kept_rows result.now.entries ≡ (summary_of self.now).sources }
    {
        &self.sources
    }

    /// What is kept of the source of this uri, if there is one.
    pub fn find_source(&self, uri: &str) -> Option<&KeptSource>
        ensures { option_map (λ k. kept_row uri.now k.now) result
            ≡ find_source (summary_of self.now) uri.now }
    {
        find_source(&self.sources, uri)
    }

    /// The start of the run, once it came.
    pub fn run(&self) -> Option<&TestRunStarted>
        ensures { option_map (λ r. r.now) result ≡ (summary_of self.now).run }
    {
        self.run.as_ref()
    }

    /// Whether the run's end came.
    pub fn is_finished(&self) -> bool
        ensures { result ≡ (summary_of self.now).is_finished }
    {
        self.is_finished
    }

    /// Whether the run's end said success.
    pub fn says_success(&self) -> bool
        ensures { result ≡ (summary_of self.now).success }
    {
        self.success
    }

    /// How much of each is kept.
    pub fn counts(&self) -> Counts
        ensures { result ≡ counts_in (summary_of self.now) }
    {
        let pickles = self.declared.pickle_count();
        Counts {
            sources: self.sources.len() as u64,
            pickles,
            cases: self.track.case_count(),
            attempts: self.track.attempt_count(),
            unrun: pickles.saturating_sub(self.named.len() as u64),
        }
    }

    /// The record of attempts alone.
    pub fn into_track(self) -> Track
        ensures { result ≡ (summary_of self).table }
    {
        let State {
            declared,
            track,
            sources,
            named,
            run,
            ..
        } = self;
        drop(declared);
        drop(sources);
        drop(named);
        drop(run);
        track
    }
}

/// What has an id of its own.
pub(crate) trait HasId: Drop {
    ghost id: { Self → List ℕ };

    /// The id, without a copy.
    fn into_id(self) -> Text
        ensures { result ≡ id self };
}

impl HasId for PickleStep {
    ghost id = { λ step. step.id };

    fn into_id(self) -> Text {
        self.id
    }
}

impl HasId for TestStep {
    ghost id = { λ step. step.id };

    fn into_id(self) -> Text {
        self.id
    }
}

/// The ids of the steps, without a copy.
pub(crate) fn step_ids<Step: HasId>(
    alloc: Global,
    steps: Sequence<Step>,
) -> Result<Vec<String>, AllocError>
    ensures { IfOk result (λ ids. map string_bytes ids.items ≡ map Step.id steps) }
{
    let mut ids = Vec::with_capacity(alloc, steps.len())?;
    for step in steps.into_vec() {
        ids.push(step.into_id().into_string())?;
    }
    Ok(ids)
}

/// Adds the pickle that a case names, unless another case named it.
pub(crate) fn add_name(named: &mut Names, pickle: String) -> Result<(), AllocFailed<KeptText>>
    ensures named { OnOk result (map bytes_of named.new.keys
        ≡ with_name (map bytes_of named.old.keys) (string_bytes pickle)) }
    ensures room { 0 < spare named.old → IsOk result }
{
    named.insert(KeptText::from(pickle))?;
    Ok(())
}
