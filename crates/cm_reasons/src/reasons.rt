//! What is kept of a stream's envelopes for its reasons, and the lines that say them.
ghost use Rattle.std.specs.Prelude.{◌≡◌, ◌++◌, IfOk, List, OnOk, map, ℕ, string_bytes, ◌≢◌, codes};
ghost use Rattle.cm_cases.specs.Listed.{listing_of};
ghost use Rattle.cm_stream.specs.References.{cases, pickles};
ghost use Rattle.cm_envelope.specs.declared.envelope.Envelope.{Envelope as SomeEnvelope};
ghost use Rattle.cm_reasons.specs.Trail.{trail_of};
ghost use Rattle.cm_reasons.specs.Lines.{text_of_lines, limited_text, more_text};
ghost use Rattle.cm_reasons.specs.Words.{kind_label, status_word};
ghost use Rattle.cm_cases.specs.Places.{case_scenario, pickle_scenario};
ghost use Rattle.cm_reasons.specs.Reasons.{case_lines, pickle_lines, step_ids, undefined_line, undefined_lines};
ghost use Rattle.cm_steps.specs.Kept.{step_listing_of};

use crate::trail::Trail;
use cm_attempt::Status;
use cm_cases::Places;
use cm_steps::StepListing;
use gk_grammar::FaultKind;
use std::alloc::{AllocError, Global};
use std::hash::RandomState;

/// How many lines of a kind are shown.
pub const MOST_LINES: u64 = 100;

/// Writes a line for an item, by what it keeps of a stream's envelopes.
pub trait AddLine<T> {
    /// Whether it is of these envelopes.
    ghost of: { Self → List SomeEnvelope → Type 0 };

    /// The line of an item.
    ghost line: { Self → List SomeEnvelope → T → List ℕ };

    /// Adds the line, without its end.
    ///
    /// # Errors
    /// Only where there is no memory for it.
    fn add(&self, text: &mut String, item: &T) -> Result<(), AllocError>
        ensures { OnOk result ((es : List SomeEnvelope) → of self.now es
            → string_bytes text.new ≡ string_bytes text.old ++ line self.now es item.now) };
}

/// Adds the line of each item.
fn add_each<T, L: AddLine<T>>(text: &mut String, lines: &L, items: &[T]) -> Result<(), AllocError>
    ensures { OnOk result ((es : List SomeEnvelope) → L.of lines.now es → string_bytes text.new
        ≡ string_bytes text.old ++ text_of_lines (map (L.line lines.now es) items.now)) }
{
    for item in items {
        lines.add(text, item)?;
        text.push_str("\n")?;
    }
    Ok(())
}

/// Adds how many lines more there are.
///
/// # Errors
/// Only where there is no memory for it.
pub fn add_more(text: &mut String, count: u64) -> Result<(), AllocError>
    requires { count ≢ 0 }
    ensures { OnOk result
        (string_bytes text.new ≡ string_bytes text.old ++ more_text count) }
{
    write!(text, "and {count} more\n")
}

/// Adds the lines of the first hundred items, and how many more there are.
///
/// # Errors
/// Only where there is no memory for them.
pub fn add_limited<T, L: AddLine<T>>(
    text: &mut String,
    lines: &L,
    items: &[T],
) -> Result<(), AllocError>
    ensures { OnOk result ((es : List SomeEnvelope) → L.of lines.now es → string_bytes text.new
        ≡ string_bytes text.old ++ limited_text (map (L.line lines.now es) items.now)) }
{
    let count = items.len() as u64;
    if count <= MOST_LINES {
        return add_each(text, lines, items);
    }
    add_each(text, lines, &items[..MOST_LINES as usize])?;
    add_more(text, count - MOST_LINES)
}

/// The lines of the first hundred items, and how many more there are.
///
/// # Errors
/// Only where there is no memory for them.
fn limited_text<T, L: AddLine<T>>(
    alloc: Global,
    lines: &L,
    items: &[T],
) -> Result<String, AllocError>
    ensures { IfOk result (λ text. (es : List SomeEnvelope) → L.of lines.now es
        → string_bytes text ≡ limited_text (map (L.line lines.now es) items.now)) }
{
    let mut text = String::new(alloc);
    add_limited(&mut text, lines, items)?;
    Ok(text)
}

/// The word of a status, as the Cucumber Messages have it.
pub fn status_word(status: Status) -> &'static str
    ensures { result.now ≡ status_word status }
{
    match status {
        Status::Unknown => "UNKNOWN",
        Status::Passed => "PASSED",
        Status::Skipped => "SKIPPED",
        Status::Pending => "PENDING",
        Status::Undefined => "UNDEFINED",
        Status::Ambiguous => "AMBIGUOUS",
        Status::Failed => "FAILED",
    }
}

/// The number and the name of a kind of fault.
pub fn kind_label(kind: FaultKind) -> &'static str
    ensures { result.now ≡ kind_label kind }
{
    match kind {
        FaultKind::Unexpected => "1 Unexpected",
        FaultKind::TagSpace => "2 TagSpace",
        FaultKind::CellCount => "3 CellCount",
        FaultKind::UnsupportedLanguage => "4 UnsupportedLanguage",
        FaultKind::UnexpectedEnd => "5 UnexpectedEnd",
        FaultKind::TooLong => "6 TooLong",
        FaultKind::Memory => "7 Memory",
    }
}

/// Lines of pickles.
#[derive(Drop)]
struct PickleLines<'a, 'p> {
    word: &'a str,
    places: &'a Places<'p>,
}

impl<'a, 'b, 'p> AddLine<&'b str> for PickleLines<'a, 'p> {
    ghost of = { λ s es. s.places.now ≡ listing_of es };

    ghost line = { λ s es id. s.word.now ++ pickle_scenario es id.now };

    fn add(&self, text: &mut String, item: &&'b str) -> Result<(), AllocError> {
        text.push_str(self.word)?;
        self.places.add_pickle_scenario(text, item)
    }
}

/// Lines of test cases.
#[derive(Drop)]
struct CaseLines<'a, 'p> {
    word: &'a str,
    places: &'a Places<'p>,
}

impl<'a, 'b, 'p> AddLine<&'b str> for CaseLines<'a, 'p> {
    ghost of = { λ s es. s.places.now ≡ listing_of es };

    ghost line = { λ s es id. s.word.now ++ case_scenario es id.now };

    fn add(&self, text: &mut String, item: &&'b str) -> Result<(), AllocError> {
        text.push_str(self.word)?;
        self.places.add_case_scenario(text, item)
    }
}

/// The lines of pickles, after a word.
fn pickle_lines(
    alloc: Global,
    seed: RandomState,
    trail: &Trail,
    word: &str,
    ids: &[&str],
) -> Result<String, AllocError>
    ensures { IfOk result (λ text. (es : List SomeEnvelope) → trail.now ≡ trail_of es
        → string_bytes text
        ≡ limited_text (pickle_lines word.now es (map (λ id. id.now) ids.now))) }
{
    let places = Places::of(alloc, seed, &trail.listing)?;
    let lines = PickleLines {
        word,
        places: &places,
    };
    let text = limited_text(alloc, &lines, ids);
    drop(places);
    text
}

/// The lines of test cases, after a word.
fn case_lines(
    alloc: Global,
    seed: RandomState,
    trail: &Trail,
    word: &str,
    ids: &[&str],
) -> Result<String, AllocError>
    ensures { IfOk result (λ text. (es : List SomeEnvelope) → trail.now ≡ trail_of es
        → string_bytes text ≡ limited_text (case_lines word.now es (map (λ id. id.now) ids.now))) }
{
    let places = Places::of(alloc, seed, &trail.listing)?;
    let lines = CaseLines {
        word,
        places: &places,
    };
    let text = limited_text(alloc, &lines, ids);
    drop(places);
    text
}

/// The lines of pickles that may not be without a test case.
///
/// # Errors
/// Only where there is no memory.
pub fn unrun_text(
    alloc: Global,
    seed: RandomState,
    trail: &Trail,
    ids: &[&str],
) -> Result<String, AllocError>
    ensures { IfOk result (λ text. (es : List SomeEnvelope) → trail.now ≡ trail_of es
        → string_bytes text
        ≡ limited_text (pickle_lines (codes "UNRUN") es (map (λ id. id.now) ids.now))) }
{
    pickle_lines(alloc, seed, trail, "UNRUN", ids)
}

/// The lines of pickles that have more than one attempt.
///
/// # Errors
/// Only where there is no memory.
pub fn retried_text(
    alloc: Global,
    seed: RandomState,
    trail: &Trail,
    ids: &[&str],
) -> Result<String, AllocError>
    ensures { IfOk result (λ text. (es : List SomeEnvelope) → trail.now ≡ trail_of es
        → string_bytes text
        ≡ limited_text (pickle_lines (codes "RETRIED") es (map (λ id. id.now) ids.now))) }
{
    pickle_lines(alloc, seed, trail, "RETRIED", ids)
}

/// The lines of test cases whose last attempt has a skipped step.
///
/// # Errors
/// Only where there is no memory.
pub fn skipped_text(
    alloc: Global,
    seed: RandomState,
    trail: &Trail,
    ids: &[&str],
) -> Result<String, AllocError>
    ensures { IfOk result (λ text. (es : List SomeEnvelope) → trail.now ≡ trail_of es
        → string_bytes text
        ≡ limited_text (case_lines (codes "SKIPPED") es (map (λ id. id.now) ids.now))) }
{
    case_lines(alloc, seed, trail, "SKIPPED", ids)
}

/// The lines of test cases whose pickle has no steps.
///
/// # Errors
/// Only where there is no memory.
pub fn stepless_text(
    alloc: Global,
    seed: RandomState,
    trail: &Trail,
    ids: &[&str],
) -> Result<String, AllocError>
    ensures { IfOk result (λ text. (es : List SomeEnvelope) → trail.now ≡ trail_of es
        → string_bytes text
        ≡ limited_text (case_lines (codes "STEPLESS") es (map (λ id. id.now) ids.now))) }
{
    case_lines(alloc, seed, trail, "STEPLESS", ids)
}

/// A step of a test case, by the ids of both.
#[derive(Clone, Copy, PartialEq, Eq, Hash, Drop)]
pub struct CaseStep<'a> {
    pub case: &'a str,
    pub step: &'a str,
}

/// Adds the line of a step that no step definition matches, without its end.
fn add_undefined(
    text: &mut String,
    places: &Places<'_>,
    steps: &StepListing,
    case: &str,
    step: &str,
) -> Result<(), AllocError>
    ensures { OnOk result ((es : List SomeEnvelope) → places.now ≡ listing_of es
        → steps.now ≡ step_listing_of es → string_bytes text.new ≡ string_bytes text.old
        ++ undefined_line es (record { test_case = case.now; step = step.now })) }
{
    text.push_str("UNDEFINED")?;
    places.add_case_scenario(text, case)?;
    text.push_str(" ")?;
    steps.add_named_step(text, case, step)
}

/// Lines of steps that no step definition matches.
#[derive(Drop)]
struct UndefinedLines<'a, 'p> {
    places: &'a Places<'p>,
    steps: &'a StepListing,
}

impl<'a, 'b, 'p> AddLine<CaseStep<'b>> for UndefinedLines<'a, 'p> {
    ghost of = { λ s es. (s.places.now ≡ listing_of es) × (s.steps.now ≡ step_listing_of es) };

    ghost line = { λ s es step. undefined_line es (step_ids step) };

    fn add(&self, text: &mut String, item: &CaseStep<'b>) -> Result<(), AllocError> {
        add_undefined(text, self.places, self.steps, item.case, item.step)
    }
}

/// The lines of steps that no step definition matches and that passed.
///
/// # Errors
/// Only where there is no memory.
pub fn undefined_text(
    alloc: Global,
    seed: RandomState,
    trail: &Trail,
    steps: &[CaseStep<'_>],
) -> Result<String, AllocError>
    ensures { IfOk result (λ text. (es : List SomeEnvelope) → trail.now ≡ trail_of es
        → string_bytes text ≡ limited_text (undefined_lines es (map step_ids steps.now))) }
{
    let places = Places::of(alloc, seed, &trail.listing)?;
    let lines = UndefinedLines {
        places: &places,
        steps: &trail.steps,
    };
    let text = limited_text(alloc, &lines, steps);
    drop(places);
    text
}
