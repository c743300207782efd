//! The scenario of the test case that a line is about, and the number of its attempt.
ghost use Rattle.std.specs.Prelude.{◌≡◌, ◌+◌, ◌-◌, ◌++◌, List, OnOk, length, string_bytes};
ghost use Rattle.cm_envelope.specs.declared.envelope.Envelope.{Envelope as SomeEnvelope};
ghost use Rattle.cm_reasons.specs.Trail.{trail_of};
ghost use Rattle.cm_cases.specs.Listed.{listing_of};
ghost use Rattle.cm_cases.specs.Places.{case_scenario, pickle_scenario};
ghost use Rattle.cm_fault_reasons.specs.AttemptLines.{attempt_line, case_line, declared_lines, number_line, number_lines, started_lines};
ghost use Rattle.cm_fault_reasons.specs.ToldKept.{last_number};

use cm_cases::Places;
use cm_envelope::Envelope;
use cm_reasons::Trail;
use std::alloc::{AllocError, Global};
use std::hash::RandomState;

/// Adds `case URI:LINE NAME` of the pickle of an id, which has this place.
fn add_pickle_line(text: &mut String, places: &Places<'_>, pickle: &str) -> Result<(), AllocError>
    ensures { OnOk result ((es : List SomeEnvelope) → places.now ≡ listing_of es
        → string_bytes text.new
        ≡ string_bytes text.old ++ case_line (pickle_scenario es pickle.now)) }
{
    text.push_str("case")?;
    places.add_pickle_scenario(text, pickle)?;
    text.push_str("\n")?;
    Ok(())
}

/// Adds `case URI:LINE NAME` of the test case of an id, whose pickle has this place.
fn add_case_line(text: &mut String, places: &Places<'_>, case: &str) -> Result<(), AllocError>
    ensures { OnOk result ((es : List SomeEnvelope) → places.now ≡ listing_of es
        → string_bytes text.new
        ≡ string_bytes text.old ++ case_line (case_scenario es case.now)) }
{
    text.push_str("case")?;
    places.add_case_scenario(text, case)?;
    text.push_str("\n")?;
    Ok(())
}

/// Adds `case URI:LINE NAME` of the pickle of an id.
fn add_of_pickle(
    alloc: Global,
    seed: RandomState,
    text: &mut String,
    trail: &Trail,
    pickle: &str,
) -> Result<(), AllocError>
    ensures { OnOk result ((es : List SomeEnvelope) → trail.now ≡ trail_of es
        → string_bytes text.new
        ≡ string_bytes text.old ++ case_line (pickle_scenario es pickle.now)) }
{
    let places = trail.places(alloc, seed)?;
    let added = add_pickle_line(text, &places, pickle);
    drop(places);
    added
}

/// Adds `case URI:LINE NAME` of the test case of an id.
fn add_of_case(
    alloc: Global,
    seed: RandomState,
    text: &mut String,
    trail: &Trail,
    case: &str,
) -> Result<(), AllocError>
    ensures { OnOk result ((es : List SomeEnvelope) → trail.now ≡ trail_of es
        → string_bytes text.new
        ≡ string_bytes text.old ++ case_line (case_scenario es case.now)) }
{
    let places = trail.places(alloc, seed)?;
    let added = add_case_line(text, &places, case);
    drop(places);
    added
}

/// Adds `attempt N`.
fn add_attempt(text: &mut String, number: u64) -> Result<(), AllocError>
    ensures { OnOk result (string_bytes text.new ≡ string_bytes text.old ++ attempt_line number) }
{
    write!(text, "attempt {number}\n")
}

/// Adds the scenario of a test case and the number of its attempt.
///
/// # Errors
/// Only where there is no memory for it.
pub(crate) fn add_scenario_start(
    alloc: Global,
    seed: RandomState,
    text: &mut String,
    trail: &Trail,
    case: &str,
    number: u64,
) -> Result<(), AllocError>
    ensures { OnOk result ((es : List SomeEnvelope) → trail.now ≡ trail_of es
        → string_bytes text.new
        ≡ string_bytes text.old ++ case_line (case_scenario es case.now) ++ attempt_line number) }
{
    add_of_case(alloc, seed, text, trail, case)?;
    add_attempt(text, number)
}

/// Adds the scenario of the pickle that a test case names.
///
/// # Errors
/// Only where there is no memory for it.
pub(crate) fn add_declared_scenario(
    alloc: Global,
    seed: RandomState,
    text: &mut String,
    trail: &Trail,
    envelope: &Envelope,
) -> Result<(), AllocError>
    ensures { OnOk result ((es : List SomeEnvelope) → trail.now ≡ trail_of es
        → string_bytes text.new ≡ string_bytes text.old ++ declared_lines es envelope.now) }
{
    match envelope {
        Envelope::TestCase(case) => add_of_pickle(
            alloc,
            seed,
            text,
            trail,
            case.pickle_id.as_str(),
        ),
        _ => Ok(()),
    }
}

/// Adds the scenario of the test case at which an attempt starts, and the number of the attempt.
///
/// # Errors
/// Only where there is no memory for it.
pub(crate) fn add_started(
    alloc: Global,
    seed: RandomState,
    text: &mut String,
    trail: &Trail,
    envelope: &Envelope,
) -> Result<(), AllocError>
    ensures { OnOk result ((es : List SomeEnvelope) → trail.now ≡ trail_of es
        → string_bytes text.new ≡ string_bytes text.old ++ started_lines es envelope.now) }
{
    match envelope {
        Envelope::TestCaseStarted(started) => {
            let case = started.test_case_id.as_str();
            add_scenario_start(alloc, seed, text, trail, case, started.attempt)
        }
        _ => Ok(()),
    }
}

/// Adds `due M`, the number of an attempt before which there are as many others, where the first has this number.
fn add_scenario_number(text: &mut String, first: u64, others: usize) -> Result<(), AllocError>
    ensures { OnOk result
        (string_bytes text.new ≡ string_bytes text.old ++ number_line (first + others)) }
{
    let due = first as u128 + others as u128;
    write!(text, "due {due}\n")
}

/// Adds the scenario of the test case at which an attempt starts, the number of the attempt, and the number that is due, where
/// the first attempt of each test case has this number.
///
/// # Errors
/// Only where there is no memory for it.
pub(crate) fn add_misnumbered(
    alloc: Global,
    seed: RandomState,
    text: &mut String,
    first: u64,
    trail: &Trail,
    envelope: &Envelope,
) -> Result<(), AllocError>
    ensures { OnOk result ((es : List SomeEnvelope) → trail.now ≡ trail_of es
        → string_bytes text.new
        ≡ string_bytes text.old ++ number_lines (last_number first es) es envelope.now) }
{
    match envelope {
        Envelope::TestCaseStarted(start) => {
            let case = start.test_case_id.as_str();
            add_scenario_start(alloc, seed, text, trail, case, start.attempt)?;
            let attempts = trail.steps().attempt_count(case);
            add_scenario_number(text, first, attempts.saturating_sub(1))
        }
        _ => Ok(()),
    }
}
