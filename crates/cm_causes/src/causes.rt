//! Why a run isn't successful.
ghost use Rattle.std.specs.Prelude.{◌≡◌, ◌++◌, List, OnOk, string_bytes, codes, false, Some, IfOk, filter, map};
ghost use Rattle.cm_attempt.specs.Results.{case_results, result_view};
ghost use Rattle.cm_envelope.specs.declared.envelope.Envelope.{Envelope as SomeEnvelope};
ghost use Rattle.cm_stream.specs.Results.{results_of};
ghost use Rattle.cm_reasons.specs.Trail.{trail_of};
ghost use Rattle.cm_causes.specs.Causes.{exception_line, case_causes, last_step_cause};
ghost use Rattle.cm_causes.specs.Told.{AddsCauses, AddsTruth, told_result, is_bad};
ghost use Rattle.cm_cases.specs.Listed.{listing_of};
ghost use Rattle.cm_cases.specs.Places.{case_scenario};
ghost use Rattle.cm_steps.specs.Attempts.{is_quiet};
ghost use Rattle.cm_steps.specs.Kept.{step_listing_of};
ghost use Rattle.cm_reasons.specs.Lines.{limited_text};
ghost use Rattle.cm_reasons.specs.Words.{status_word};

use cm_attempt::{CaseResult, Policy, Status, Track};
use cm_cases::Places;
use cm_reasons::{AddLine, Trail, add_hook_causes, add_limited, add_refused, status_word};
use cm_steps::{StepListing, is_quiet};
use std::alloc::{AllocError, Global};
use std::hash::RandomState;

/// Adds the line of an exception, where there is one.
fn add_exception(text: &mut String, has_exception: bool) -> Result<(), AllocError>
    ensures { OnOk result
        (string_bytes text.new ≡ string_bytes text.old ++ exception_line has_exception) }
{
    if has_exception {
        text.push_str("exception\n")?;
    }
    Ok(())
}

/// Adds the causes for which a run isn't successful, by what was kept of its stream and the table of its attempts: a line for
/// each test case that isn't good by the policy, for each run hook, for each source that is refused, and for an exception at the
/// end of the run. Of each kind there are a hundred lines at most, and how many more there are.
///
/// # Errors
/// Only where there is no memory for them.
pub fn add_causes(
    alloc: Global,
    seed: RandomState,
    text: &mut String,
    trail: &Trail,
    track: &Track,
    policy: Policy,
    has_exception: bool,
) -> Result<(), AllocError>
    ensures { OnOk result ((es : List SomeEnvelope) → trail.now ≡ trail_of es
        → case_results track.now ≡ results_of es
        → AddsCauses policy es has_exception (string_bytes text.old) (string_bytes text.new)) }
{
    add_case_causes(alloc, seed, text, trail, track, policy)?;
    add_hook_causes(alloc, seed, text, trail, policy)?;
    add_refused(alloc, text, trail)?;
    add_exception(text, has_exception)
}

/// Adds the causes, or that nothing failed where there is none.
///
/// # Errors
/// Only where there is no memory for them.
pub fn add_truth(
    alloc: Global,
    seed: RandomState,
    text: &mut String,
    trail: &Trail,
    track: &Track,
    policy: Policy,
    has_exception: bool,
) -> Result<(), AllocError>
    ensures { OnOk result ((es : List SomeEnvelope) → trail.now ≡ trail_of es
        → case_results track.now ≡ results_of es
        → AddsTruth policy es has_exception (string_bytes text.old) (string_bytes text.new)) }
{
    let mut causes = String::new(alloc);
    add_causes(
        alloc,
        seed,
        &mut causes,
        trail,
        track,
        policy,
        has_exception,
    )?;
    let causes = causes.as_str();
    if causes.is_empty() {
        return text.push_str("nothing failed\n");
    }
    text.push_str(causes)
}

/// Adds the first step of the last attempt of a test case that has the status, with a word before it.
fn add_last_step(
    text: &mut String,
    steps: &StepListing,
    case: &str,
    status: Status,
) -> Result<(), AllocError>
    ensures { OnOk result ((es : List SomeEnvelope) → steps.now ≡ step_listing_of es
        → is_quiet status ≡ false
        → string_bytes text.new ≡ string_bytes text.old ++ last_step_cause es case.now status) }
{
    let Some(attempt) = steps.last_attempt(case) else {
        return Ok(());
    };
    let Some(step) = steps.step_with(attempt, status) else {
        return Ok(());
    };
    text.push_str(" ")?;
    steps.add_named_step(text, case, step)
}

/// Lines of the results of test cases.
#[derive(Drop)]
struct ResultLines<'a, 'p> {
    places: &'a Places<'p>,
    steps: &'a StepListing,
}

impl<'a, 'p> ResultLines<'a, 'p> {
    /// That of a test case whose final attempt has the status at worst.
    fn add_status(&self, text: &mut String, case: &str, status: Status) -> Result<(), AllocError>
        ensures { OnOk result ((es : List SomeEnvelope) → self.now.places.now ≡ listing_of es
            → self.now.steps.now ≡ step_listing_of es
            → string_bytes text.new
            ≡ string_bytes text.old ++ told_result es case.now (Some status)) }
    {
        text.push_str(status_word(status))?;
        self.places.add_case_scenario(text, case)?;
        if !is_quiet(status) {
            add_last_step(text, self.steps, case, status)?;
        }
        Ok(())
    }

    /// That of a test case without a final attempt.
    fn add_none(&self, text: &mut String, case: &str) -> Result<(), AllocError>
        ensures { OnOk result ((es : List SomeEnvelope) → self.now.places.now ≡ listing_of es
            → string_bytes text.new
            ≡ string_bytes text.old ++ codes "NONE" ++ case_scenario es case.now) }
    {
        text.push_str("NONE")?;
        self.places.add_case_scenario(text, case)
    }
}

impl<'a, 'b, 'p> AddLine<CaseResult<'b>> for ResultLines<'a, 'p> {
    ghost of = { λ s es. (s.places.now ≡ listing_of es) × (s.steps.now ≡ step_listing_of es) };

    ghost line = { λ s es r. told_result es r.id.now r.status };

    fn add(&self, text: &mut String, item: &CaseResult<'b>) -> Result<(), AllocError> {
        match item.status {
            Some(status) => self.add_status(text, item.id, status),
            None => self.add_none(text, item.id),
        }
    }
}

/// Adds the lines of results, a hundred at most.
fn add_result_lines(
    alloc: Global,
    seed: RandomState,
    text: &mut String,
    trail: &Trail,
    results: &[CaseResult<'_>],
) -> Result<(), AllocError>
    ensures { OnOk result ((es : List SomeEnvelope) → trail.now ≡ trail_of es
        → string_bytes text.new ≡ string_bytes text.old
        ++ limited_text (map (λ r. told_result es r.id.now r.status) results.now)) }
{
    let places = trail.places(alloc, seed)?;
    let lines = ResultLines {
        places: &places,
        steps: trail.steps(),
    };
    let added = add_limited(text, &lines, results);
    drop(places);
    added
}

/// Adds the line of each test case that isn't good, a hundred at most.
///
/// # Errors
/// Only where there is no memory for them.
fn add_case_causes(
    alloc: Global,
    seed: RandomState,
    text: &mut String,
    trail: &Trail,
    track: &Track,
    policy: Policy,
) -> Result<(), AllocError>
    ensures { OnOk result ((es : List SomeEnvelope) → trail.now ≡ trail_of es
        → case_results track.now ≡ results_of es
        → string_bytes text.new ≡ string_bytes text.old ++ limited_text (case_causes policy es)) }
{
    let bad = bad_results(alloc, track, policy)?;
    let added = add_result_lines(alloc, seed, text, trail, bad.as_slice());
    drop(bad);
    added
}

/// Whether a result isn't good by the policy, as none isn't.
fn is_bad(policy: Policy, status: Option<Status>) -> bool
    ensures { result ≡ is_bad policy status }
{
    match status {
        Some(status) => !policy.is_good(status),
        None => true,
    }
}

/// The results that aren't good, in order of declaration.
///
/// # Errors
/// Only where there is no memory for the list.
fn bad_results<'a>(
    alloc: Global,
    track: &'a Track,
    policy: Policy,
) -> Result<Vec<CaseResult<'a>>, AllocError>
    ensures { IfOk result (λ bad. map result_view bad.items
        ≡ filter (λ r. is_bad policy r.1) (case_results track.now)) }
{
    let all = track.results()?;
    let mut bad = Vec::new(alloc);
    for case in all.as_slice() {
        if is_bad(policy, case.status) {
            bad.push(*case)?;
        }
    }
    Ok(bad)
}
