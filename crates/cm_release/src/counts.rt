//! What is counted of a good run for its release: pickles that are missed, retried, skipped or without steps.
ghost use Rattle.std.specs.Prelude.{◌≡◌, List, IfOk, ◌&&◌, ℕ, Some, false, not, filter, is_some, map, option_map};
ghost use Rattle.std.specs.Prelude.{OnOk, if◌then◌else◌};
ghost use Rattle.cm_stream.specs.Release.{conditions_of, Conditions as SomeConditions};
ghost use Rattle.std.specs.List.{list_any};
ghost use Rattle.std.specs.Option.{option_map_or};
ghost use Rattle.std.specs.Str.{bytes_eq};
ghost use Rattle.cm_attempt.specs.declared.status.Policy.{Policy as SomePolicy};
ghost use Rattle.cm_cases.specs.Firsts.{value_at};
ghost use Rattle.cm_release.specs.Counts.{attempts_in, counts_in, last_start, some_or_more, missed_in, retried_in};
ghost use Rattle.cm_release.specs.Counts.{skipped_in, stepless_in, texts_of};
ghost use Rattle.cm_release.specs.Found.{IsFoundIn};
ghost use Rattle.cm_release.specs.declared.tally.Kept.{Kept as SomeKept};

use crate::tally::{CaseEntry, Kept, PickleEntry, StartEntry};
use crate::text_set::TextSet;
use crate::undefined_steps::Undefined;
use cm_attempt::Policy;
use cm_cases::{ByText, CaseId, CasePickle, PickleId, Whole, firsts_of};
use cm_reasons::CaseStep;
use cm_stream::{Conditions, ReleaseCounts};
use gk_document::Text;
use indexmap::IndexMap;
use std::alloc::{AllocError, Global};
use std::hash::RandomState;

// ---- missed

/// Whether one of the tags is allowed.
fn is_allowed(allowed: &ByText<'_, &&str>, tags: &[Text]) -> bool
    ensures { result ≡ list_any (λ t. is_some (value_at allowed.now t)) tags.now }
{
    tags.iter().any(|tag| allowed.contains_key(tag.as_str()))
}

/// Whether no case names the pickle, and it has no allowed tag.
fn is_unnamed(
    named: &ByText<'_, &CaseEntry>,
    allowed: &ByText<'_, &&str>,
    pickle: &PickleEntry,
) -> bool
    ensures { result ≡ (not (is_some (value_at named.now pickle.now.id))
        && not (list_any (λ t. is_some (value_at allowed.now t)) pickle.now.tags)) }
{
    !named.contains_key(pickle.id.as_str()) && !is_allowed(allowed, pickle.tags.as_slice())
}

/// The ids of the pickles that no case names, and that have no allowed tag.
fn unnamed_of<'a>(
    alloc: Global,
    named: &ByText<'_, &CaseEntry>,
    allowed: &ByText<'_, &&str>,
    pickles: &'a [PickleEntry],
) -> Result<Vec<&'a str>, AllocError>
    ensures { IfOk result (λ ids. texts_of ids.items
        ≡ map (λ p. p.id) (filter (λ p. not (is_some (value_at named.now p.id))
        && not (list_any (λ t. is_some (value_at allowed.now t)) p.tags)) pickles.now)) }
{
    let mut ids = Vec::new(alloc);
    for pickle in pickles {
        if is_unnamed(named, allowed, pickle) {
            ids.push(pickle.id.as_str())?;
        }
    }
    Ok(ids)
}

/// The ids of the pickles that are missed. Of a part none is.
fn missed_of<'a>(
    alloc: Global,
    seed: RandomState,
    conditions: &Conditions<'_>,
    kept: &'a Kept,
) -> Result<Vec<&'a str>, AllocError>
    ensures { IfOk result (λ ids. texts_of ids.items
        ≡ missed_in (conditions_of conditions.now) kept.now) }
{
    if conditions.is_part || conditions.allows_unrun {
        return Ok(Vec::new(alloc));
    }
    let named = firsts_of::<CasePickle, CaseEntry>(alloc, seed, kept.cases.as_slice())?;
    let allowed = firsts_of::<Whole, &str>(alloc, seed, conditions.allowed_tags.as_slice())?;
    unnamed_of(alloc, &named, &allowed, kept.pickles.as_slice())
}

// ---- retried

/// Notes a text: of each that was noted, whether it was so more than once.
fn count_again<'a>(seen: &mut ByText<'a, bool>, text: &'a str) -> Result<(), AllocError>
    ensures { OnOk result ((other : List ℕ) → value_at seen.new other
        ≡ (if bytes_eq other text.now then Some (is_some (value_at seen.old other))
        else value_at seen.old other)) }
{
    let again = seen.contains_key(text);
    seen.insert(text, again)?;
    Ok(())
}

/// Of each pickle with an attempt, whether it has more than one.
fn attempts_of<'a>(
    alloc: Global,
    seed: RandomState,
    kept: &'a Kept,
) -> Result<ByText<'a, bool>, AllocError>
    ensures { IfOk result (λ seen. (pickle : List ℕ) → value_at seen pickle
        ≡ some_or_more (attempts_in kept.now.cases pickle kept.now.starts)) }
{
    let cases = firsts_of::<CaseId, CaseEntry>(alloc, seed, kept.cases.as_slice())?;
    let mut seen = IndexMap::with_hasher(alloc, seed);
    for start in kept.starts.as_slice() {
        if let Some(case) = cases.get(start.case_id.as_str()) {
            count_again(&mut seen, case.pickle_id.as_str())?;
        }
    }
    Ok(seen)
}

/// Whether the pickle was noted more than once.
fn is_again(seen: &ByText<'_, bool>, pickle: &str) -> bool
    ensures { result ≡ option_map_or (λ again. again) (value_at seen.now pickle.now) false }
{
    match seen.get(pickle) {
        Some(again) => *again,
        None => false,
    }
}

/// The ids of the pickles that were noted more than once.
fn again_of<'a>(
    alloc: Global,
    seen: &ByText<'_, bool>,
    pickles: &'a [PickleEntry],
) -> Result<Vec<&'a str>, AllocError>
    ensures { IfOk result (λ ids. texts_of ids.items ≡ map (λ p. p.id)
        (filter (λ p. option_map_or (λ again. again) (value_at seen.now p.id) false) pickles.now)) }
{
    let mut ids = Vec::new(alloc);
    for pickle in pickles {
        if is_again(seen, pickle.id.as_str()) {
            ids.push(pickle.id.as_str())?;
        }
    }
    Ok(ids)
}

/// The ids of the pickles that have more than one attempt.
fn retried_of<'a>(
    alloc: Global,
    seed: RandomState,
    kept: &'a Kept,
) -> Result<Vec<&'a str>, AllocError>
    ensures { IfOk result (λ ids. texts_of ids.items ≡ retried_in kept.now) }
{
    let seen = attempts_of(alloc, seed, kept)?;
    again_of(alloc, &seen, kept.pickles.as_slice())
}

// ---- skipped

/// The last attempt of each case.
fn lasts_of<'a>(
    alloc: Global,
    seed: RandomState,
    starts: &'a [StartEntry],
) -> Result<ByText<'a, &'a StartEntry>, AllocError>
    ensures { IfOk result (λ lasts. (case : List ℕ)
        → option_map (λ s. s.now) (value_at lasts case) ≡ last_start starts.now case) }
{
    let mut lasts = IndexMap::with_hasher(alloc, seed);
    for start in starts {
        lasts.insert(start.case_id.as_str(), start)?;
    }
    Ok(lasts)
}

/// Whether the last attempt of the case is one of these.
fn is_last_among(lasts: &ByText<'_, &StartEntry>, attempts: &TextSet<'_>, case: &str) -> bool
    ensures { result ≡ option_map_or (λ s. list_any (bytes_eq s.now.id) attempts.now)
        (value_at lasts.now case.now) false }
{
    match lasts.get(case) {
        Some(start) => attempts.contains(start.id.as_str()),
        None => false,
    }
}

/// The ids of the cases that have a last attempt among these.
fn last_among<'a>(
    alloc: Global,
    lasts: &ByText<'_, &StartEntry>,
    attempts: &TextSet<'_>,
    cases: &'a [CaseEntry],
) -> Result<Vec<&'a str>, AllocError>
    ensures { IfOk result (λ ids. texts_of ids.items ≡ map (λ c. c.id)
        (filter (λ c. option_map_or (λ s. list_any (bytes_eq s.now.id) attempts.now)
        (value_at lasts.now c.id) false) cases.now)) }
{
    let mut ids = Vec::new(alloc);
    for case in cases {
        if is_last_among(lasts, attempts, case.id.as_str()) {
            ids.push(case.id.as_str())?;
        }
    }
    Ok(ids)
}

/// The ids of the cases that have a skipped step in their last attempt.
fn skipped_of<'a>(
    alloc: Global,
    seed: RandomState,
    kept: &'a Kept,
) -> Result<Vec<&'a str>, AllocError>
    ensures { IfOk result (λ ids. texts_of ids.items ≡ skipped_in kept.now) }
{
    let lasts = lasts_of(alloc, seed, kept.starts.as_slice())?;
    let skips = TextSet::of(alloc, seed, kept.skips.as_slice())?;
    last_among(alloc, &lasts, &skips, kept.cases.as_slice())
}

// ---- stepless

/// Whether the pickle has no steps.
fn is_stepless(pickles: &ByText<'_, &PickleEntry>, pickle: &str) -> bool
    ensures { result
        ≡ option_map_or (λ p. p.now.is_stepless) (value_at pickles.now pickle.now) false }
{
    match pickles.get(pickle) {
        Some(pickle) => pickle.is_stepless,
        None => false,
    }
}

/// The ids of those of the cases that are of a pickle without steps.
fn of_stepless<'a>(
    alloc: Global,
    pickles: &ByText<'_, &PickleEntry>,
    cases: &'a [CaseEntry],
) -> Result<Vec<&'a str>, AllocError>
    ensures { IfOk result (λ ids. texts_of ids.items ≡ map (λ c. c.id) (filter
        (λ c. option_map_or (λ p. p.now.is_stepless) (value_at pickles.now c.pickle_id) false)
        cases.now)) }
{
    let mut ids = Vec::new(alloc);
    for case in cases {
        if is_stepless(pickles, case.pickle_id.as_str()) {
            ids.push(case.id.as_str())?;
        }
    }
    Ok(ids)
}

/// The ids of the cases that are of a pickle without steps.
fn stepless_of<'a>(
    alloc: Global,
    seed: RandomState,
    kept: &'a Kept,
) -> Result<Vec<&'a str>, AllocError>
    ensures { IfOk result (λ ids. texts_of ids.items ≡ stepless_in kept.now) }
{
    let pickles = firsts_of::<PickleId, PickleEntry>(alloc, seed, kept.pickles.as_slice())?;
    of_stepless(alloc, &pickles, kept.cases.as_slice())
}

// ---- all

/// What a release may be refused for: the ids of pickles and of cases, how many steps, and which steps of each case.
#[derive(Drop)]
pub(crate) struct Found<'a> {
    pub(crate) missed: Vec<&'a str>,
    pub(crate) retried: Vec<&'a str>,
    pub(crate) skipped: Vec<&'a str>,
    pub(crate) stepless: Vec<&'a str>,
    pub(crate) undefined: u64,
    pub(crate) undefined_steps: Vec<CaseStep<'a>>,
}

impl<'a> Found<'a> {
    /// What is found in what was kept.
    pub(crate) fn of(
        alloc: Global,
        seed: RandomState,
        conditions: &Conditions<'_>,
        policy: Policy,
        kept: &'a Kept,
    ) -> Result<Found<'a>, AllocError>
        ensures { IfOk result (IsFoundIn (conditions_of conditions.now) policy kept.now) }
    {
        let Undefined { count, steps } = Undefined::of(alloc, seed, policy, kept)?;
        Ok(Found {
            missed: missed_of(alloc, seed, conditions, kept)?,
            retried: retried_of(alloc, seed, kept)?,
            skipped: skipped_of(alloc, seed, kept)?,
            stepless: stepless_of(alloc, seed, kept)?,
            undefined: count,
            undefined_steps: steps,
        })
    }

    /// How many there are of each.
    pub(crate) fn counts(&self) -> ReleaseCounts
        ensures { (asked : SomeConditions) (policy : SomePolicy) (kept : SomeKept)
            → IsFoundIn asked policy kept self.now → result ≡ counts_in asked policy kept }
    {
        ReleaseCounts {
            missed: self.missed.len() as u64,
            retried: self.retried.len() as u64,
            skipped: self.skipped.len() as u64,
            stepless: self.stepless.len() as u64,
            undefined: self.undefined,
        }
    }
}
