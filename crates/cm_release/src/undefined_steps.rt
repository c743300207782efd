//! The steps of pickles that passed though no step definition matches them.
ghost use Rattle.std.specs.Prelude.{◌≡◌, List, IfOk, ◌&&◌, ℕ, false, map, ◌||◌, count_by, ◌++◌, OnOk};
ghost use Rattle.std.specs.List.{list_any, flat_map};
ghost use Rattle.std.specs.Option.{option_map_or, option_and_then};
ghost use Rattle.std.specs.Str.{bytes_eq};
ghost use Rattle.cm_cases.specs.Firsts.{value_at, HasFirsts};
ghost use Rattle.cm_release.specs.Counts.{is_undefined_by, is_undefined_in, passes_in, undefined_steps_in, has_step};
ghost use Rattle.cm_release.specs.Counts.{is_end_by, steps_passing};
ghost use Rattle.cm_reasons.specs.Reasons.{step_ids};

use crate::keys::StartId;
use crate::tally::{CaseEntry, FinishEntry, Kept, StartEntry};
use crate::text_set::TextSet;
use cm_attempt::Policy;
use cm_cases::{ByText, add_first, firsts_of};
use cm_reasons::CaseStep;
use indexmap::{IndexMap, IndexSet};
use std::alloc::{AllocError, Global};
use std::hash::RandomState;

/// The unmatched steps of each case.
fn unmatched_by_case<'a>(
    alloc: Global,
    seed: RandomState,
    cases: &'a [CaseEntry],
) -> Result<ByText<'a, TextSet<'a>>, AllocError>
    ensures { IfOk result (λ m. HasFirsts (λ s. s) (λ c. c.unmatched) (λ c. c.id) cases.now m) }
{
    let mut map = IndexMap::with_hasher(alloc, seed);
    for case in cases {
        let unmatched = TextSet::of(alloc, seed, case.unmatched.as_slice())?;
        add_first(&mut map, case.id.as_str(), unmatched)?;
    }
    Ok(map)
}

/// Whether a step that came to this end passed.
fn step_passes(policy: Policy, finish: &FinishEntry) -> bool
    ensures { result ≡ passes_in policy finish.now }
{
    !finish.is_pending || policy == Policy::PendingPasses
}

/// Whether the step is an unmatched one of the case.
fn has_unmatched(cases: &ByText<'_, TextSet<'_>>, case: &str, step: &str) -> bool
    ensures { result ≡ option_map_or (list_any (bytes_eq step.now)) (value_at cases.now case.now)
        false }
{
    match cases.get(case) {
        Some(steps) => steps.contains(step),
        None => false,
    }
}

/// Whether the step is an unmatched one of the case of the attempt.
fn is_of_attempt(
    starts: &ByText<'_, &StartEntry>,
    cases: &ByText<'_, TextSet<'_>>,
    finish: &FinishEntry,
) -> bool
    ensures { result ≡ option_map_or (list_any (bytes_eq finish.now.step_id))
        (option_and_then (λ s. value_at cases.now s.now.case_id)
        (value_at starts.now finish.now.attempt_id)) false }
{
    match starts.get(finish.attempt_id.as_str()) {
        Some(start) => has_unmatched(cases, start.case_id.as_str(), finish.step_id.as_str()),
        None => false,
    }
}

/// Whether the step passed, and is an unmatched one of the case of its attempt.
fn is_undefined(
    starts: &ByText<'_, &StartEntry>,
    cases: &ByText<'_, TextSet<'_>>,
    policy: Policy,
    finish: &FinishEntry,
) -> bool
    ensures { result ≡ is_undefined_by starts.now cases.now policy finish.now }
{
    step_passes(policy, finish) && is_of_attempt(starts, cases, finish)
}

/// How many of the steps passed, and are unmatched ones of the cases of their attempts.
fn undefined_count(
    starts: &ByText<'_, &StartEntry>,
    cases: &ByText<'_, TextSet<'_>>,
    policy: Policy,
    finishes: &[FinishEntry],
) -> u64
    ensures { result ≡ count_by (is_undefined_by starts.now cases.now policy) finishes.now }
{
    finishes
        .iter()
        .filter(|finish| is_undefined(starts, cases, policy, finish))
        .count() as u64
}

/// Steps of cases, each once.
pub(crate) type CaseSteps<'a> = IndexSet<CaseStep<'a>, RandomState>;

/// Adds a step of a case, where it isn't there yet.
fn add_step<'a>(steps: &mut CaseSteps<'a>, case: &'a str, step: &'a str) -> Result<(), AllocError>
    ensures { OnOk result ((test_case id : List ℕ) → has_step steps.new.keys test_case id
        ≡ (has_step steps.old.keys test_case id
        || (bytes_eq id step.now && bytes_eq test_case case.now))) }
{
    steps.insert(CaseStep { case, step })?;
    Ok(())
}

/// Adds the step that ended, in the case of its attempt.
fn add_ended_step<'a>(
    steps: &mut CaseSteps<'a>,
    starts: &ByText<'_, &'a StartEntry>,
    finish: &'a FinishEntry,
) -> Result<(), AllocError>
    ensures { OnOk result ((test_case id : List ℕ) → has_step steps.new.keys test_case id
        ≡ (has_step steps.old.keys test_case id
        || is_end_by starts.now test_case id finish.now)) }
{
    match starts.get(finish.attempt_id.as_str()) {
        Some(start) => add_step(steps, start.case_id.as_str(), finish.step_id.as_str()),
        None => Ok(()),
    }
}

/// The steps that passed, and are unmatched ones of the cases of their attempts.
fn passed_steps<'a>(
    alloc: Global,
    seed: RandomState,
    starts: &ByText<'_, &'a StartEntry>,
    cases: &ByText<'_, TextSet<'_>>,
    policy: Policy,
    finishes: &'a [FinishEntry],
) -> Result<CaseSteps<'a>, AllocError>
    ensures { IfOk result (λ steps. (test_case id : List ℕ) → has_step steps.keys test_case id
        ≡ list_any (λ f. is_undefined_by starts.now cases.now policy f
        && is_end_by starts.now test_case id f) finishes.now) }
{
    let mut steps = IndexSet::with_hasher(alloc, seed);
    for finish in finishes {
        if is_undefined(starts, cases, policy, finish) {
            add_ended_step(&mut steps, starts, finish)?;
        }
    }
    Ok(steps)
}

/// Whether the step of the case is among these.
fn has_step(steps: &CaseSteps<'_>, case: &str, step: &str) -> bool
    ensures { result ≡ has_step steps.now.keys case.now step.now }
{
    steps.contains(&CaseStep { case, step })
}

/// Adds those of a case's unmatched steps that are among these.
fn add_of_case<'a>(
    found: &mut Vec<CaseStep<'a>>,
    steps: &CaseSteps<'_>,
    case: &'a CaseEntry,
) -> Result<(), AllocError>
    ensures { OnOk result (map step_ids found.new.items
        ≡ map step_ids found.old.items ++ steps_passing (has_step steps.now.keys) case.now) }
{
    for step in case.unmatched.as_slice() {
        if has_step(steps, case.id.as_str(), step.as_str()) {
            found.push(CaseStep {
                case: case.id.as_str(),
                step: step.as_str(),
            })?;
        }
    }
    Ok(())
}

/// Those of the cases' unmatched steps that are among these.
fn steps_of_cases<'a>(
    alloc: Global,
    steps: &CaseSteps<'_>,
    cases: &'a [CaseEntry],
) -> Result<Vec<CaseStep<'a>>, AllocError>
    ensures { IfOk result (λ found. map step_ids found.items
        ≡ flat_map (steps_passing (has_step steps.now.keys)) cases.now) }
{
    let mut found = Vec::new(alloc);
    for case in cases {
        add_of_case(&mut found, steps, case)?;
    }
    Ok(found)
}

/// The steps of pickles that passed and that no step definition matches: how many times one did, and which of each case.
#[derive(Drop)]
pub(crate) struct Undefined<'a> {
    pub(crate) count: u64,
    pub(crate) steps: Vec<CaseStep<'a>>,
}

impl<'a> Undefined<'a> {
    /// Those of what was kept.
    pub(crate) fn of(
        alloc: Global,
        seed: RandomState,
        policy: Policy,
        kept: &'a Kept,
    ) -> Result<Undefined<'a>, AllocError>
        ensures count { IfOk result (λ undefined.
            undefined.count ≡ count_by (is_undefined_in policy kept.now) kept.now.finishes) }
        ensures steps { IfOk result (λ undefined.
            map step_ids undefined.steps.items ≡ undefined_steps_in policy kept.now) }
    {
        if kept.finishes.is_empty() {
            return Ok(Undefined {
                count: 0,
                steps: Vec::new(alloc),
            });
        }
        let starts = firsts_of::<StartId, StartEntry>(alloc, seed, kept.starts.as_slice())?;
        let undefined = Undefined::by_starts(alloc, seed, policy, kept, &starts);
        drop(starts);
        undefined
    }

    /// Those of what was kept, by the attempts of these ids.
    fn by_starts(
        alloc: Global,
        seed: RandomState,
        policy: Policy,
        kept: &'a Kept,
        starts: &ByText<'_, &'a StartEntry>,
    ) -> Result<Undefined<'a>, AllocError>
        requires { HasFirsts (λ s. s.now) (λ s. s) (λ s. s.id) kept.now.starts starts.now }
        ensures count { IfOk result (λ undefined.
            undefined.count ≡ count_by (is_undefined_in policy kept.now) kept.now.finishes) }
        ensures steps { IfOk result (λ undefined.
            map step_ids undefined.steps.items ≡ undefined_steps_in policy kept.now) }
    {
        let cases = unmatched_by_case(alloc, seed, kept.cases.as_slice())?;
        let undefined = Undefined::by_maps(alloc, seed, policy, kept, starts, &cases);
        drop(cases);
        undefined
    }

    /// Those of what was kept, by the attempts of these ids and the unmatched steps of these cases.
    fn by_maps(
        alloc: Global,
        seed: RandomState,
        policy: Policy,
        kept: &'a Kept,
        starts: &ByText<'_, &'a StartEntry>,
        cases: &ByText<'_, TextSet<'_>>,
    ) -> Result<Undefined<'a>, AllocError>
        requires starts { HasFirsts (λ s. s.now) (λ s. s) (λ s. s.id) kept.now.starts starts.now }
        requires cases { HasFirsts (λ s. s) (λ c. c.unmatched) (λ c. c.id) kept.now.cases
            cases.now }
        ensures count { IfOk result (λ undefined.
            undefined.count ≡ count_by (is_undefined_in policy kept.now) kept.now.finishes) }
        ensures steps { IfOk result (λ undefined.
            map step_ids undefined.steps.items ≡ undefined_steps_in policy kept.now) }
    {
        let finishes = kept.finishes.as_slice();
        let count = undefined_count(starts, cases, policy, finishes);
        let passed = passed_steps(alloc, seed, starts, cases, policy, finishes)?;
        let steps = steps_of_cases(alloc, &passed, kept.cases.as_slice());
        drop(passed);
        Ok(Undefined {
            count,
            steps: steps?,
        })
    }
}
