//! What is kept of a run for its release, and what is said of a good one.
ghost use Rattle.std.specs.Prelude.{◌≡◌, List, None, IfOk, string_bytes};
ghost use Rattle.cm_envelope.specs.declared.envelope.Envelope.{Envelope as SomeEnvelope};
ghost use Rattle.cm_attempt.specs.Results.{case_results};
ghost use Rattle.cm_reasons.specs.Trail.{trail_of, has_exception};
ghost use Rattle.cm_stream.specs.Good.{Good};
ghost use Rattle.cm_stream.specs.Release.{conditions_of, hold_of};
ghost use Rattle.cm_stream.specs.Results.{results_of};
ghost use Rattle.cm_causes.specs.Causes.{IsCauses};
ghost use Rattle.cm_release.specs.Judged.{AreReasonsIn, IsJudged, nothing_counted};
ghost use Rattle.cm_release.specs.Tallied.{IsTallyOf};

use crate::counts::Found;
use crate::tally::Tally;
use cm_attempt::{Policy, Settings, Track};
use cm_causes::add_causes;
use cm_reasons::{Trail, retried_text, skipped_text, stepless_text, undefined_text, unrun_text};
use cm_stream::{Conditions, Counts, Hold, ReleaseCounts};
use std::alloc::{AllocError, Global};
use std::hash::RandomState;

/// What is counted of a good run for its release, why it isn't to be released, and the lines below that; of a stream that isn't
/// good the lines alone.
#[derive(Drop)]
pub struct Judgement {
    pub found: ReleaseCounts,
    pub hold: Option<Hold>,
    pub reasons: String,
}

/// Why a good run with these counts isn't to be released, the first reason that holds.
fn hold_of(
    conditions: &Conditions<'_>,
    success: bool,
    counts: Counts,
    found: ReleaseCounts,
) -> Option<Hold>
    ensures { result ≡ hold_of (conditions_of conditions.now) success counts found }
{
    if !success {
        return Some(Hold::NotSuccessful);
    }
    if !conditions.is_part && counts.cases == 0 {
        return Some(Hold::Empty);
    }
    if found.missed != 0 {
        return Some(Hold::Unrun);
    }
    if conditions.no_retries && found.retried != 0 {
        return Some(Hold::Retried);
    }
    if conditions.no_skips && found.skipped != 0 {
        return Some(Hold::Skipped);
    }
    if conditions.no_stepless && found.stepless != 0 {
        return Some(Hold::Stepless);
    }
    if conditions.no_undefined && found.undefined != 0 {
        return Some(Hold::Undefined);
    }
    None
}

/// Why a run isn't successful.
fn causes_of(
    alloc: Global,
    seed: RandomState,
    trail: &Trail,
    track: &Track,
    policy: Policy,
) -> Result<String, AllocError>
    ensures { IfOk result (λ text. (es : List SomeEnvelope) → trail.now ≡ trail_of es
        → case_results track.now ≡ results_of es
        → IsCauses policy es (has_exception es) (string_bytes text)) }
{
    let mut text = String::new(alloc);
    let has_exception = trail.has_exception();
    add_causes(alloc, seed, &mut text, trail, track, policy, has_exception)?;
    Ok(text)
}

/// The lines below that of a hold.
fn reasons_of(
    alloc: Global,
    seed: RandomState,
    trail: &Trail,
    track: &Track,
    policy: Policy,
    found: &Found<'_>,
    hold: Option<Hold>,
) -> Result<String, AllocError>
    ensures { IfOk result (λ text. AreReasonsIn policy trail.now track.now found.now hold
        (string_bytes text)) }
{
    match hold {
        Some(Hold::NotSuccessful) => causes_of(alloc, seed, trail, track, policy),
        Some(Hold::Unrun) => unrun_text(alloc, seed, trail, found.missed.as_slice()),
        Some(Hold::Retried) => retried_text(alloc, seed, trail, found.retried.as_slice()),
        Some(Hold::Skipped) => skipped_text(alloc, seed, trail, found.skipped.as_slice()),
        Some(Hold::Stepless) => stepless_text(alloc, seed, trail, found.stepless.as_slice()),
        Some(Hold::Undefined) => undefined_text(
            alloc,
            seed,
            trail,
            found.undefined_steps.as_slice(),
        ),
        Some(Hold::Empty) | None => Ok(String::new(alloc)),
    }
}

impl Judgement {
    /// That of the run of a good stream of which this was kept, with the table of its attempts, whether the run says success,
    /// and how many pickles and test cases the stream has.
    ///
    /// # Errors
    /// Only where there is no memory for the maps by which it is counted, or for the lines.
    pub fn of(
        alloc: Global,
        seed: RandomState,
        conditions: &Conditions<'_>,
        settings: Settings,
        tally: &Tally,
        track: &Track,
        success: bool,
        counts: Counts,
    ) -> Result<Judgement, AllocError>
        ensures { IfOk result (λ judgement. (es : List SomeEnvelope) → IsTallyOf tally.now es
            → Good settings es → case_results track.now ≡ results_of es
            → IsJudged settings (conditions_of conditions.now) es success counts
            judgement.found judgement.hold (string_bytes judgement.reasons)) }
    {
        let found = Found::of(
            alloc,
            seed,
            conditions,
            settings.policy,
            &tally.keeping.kept,
        )?;
        let counted = found.counts();
        let hold = hold_of(conditions, success, counts, counted);
        let trail = &tally.trail;
        let reasons = reasons_of(alloc, seed, trail, track, settings.policy, &found, hold)?;
        Ok(Judgement {
            found: counted,
            hold,
            reasons,
        })
    }

    /// That of a stream that isn't good, of which these lines are told: nothing is counted, and nothing is held.
    pub fn told(reasons: String) -> Judgement
        ensures { result ≡ record { found = nothing_counted; hold = None; reasons = reasons } }
    {
        Judgement {
            found: ReleaseCounts {
                missed: 0,
                retried: 0,
                skipped: 0,
                stepless: 0,
                undefined: 0,
            },
            hold: None,
            reasons,
        }
    }
}
