//! What is kept of a stream's envelopes for its steps and attempts.
ghost use Rattle.std.specs.Prelude.{◌≡◌, ◌++◌, ◌∷◌, [], List, IfOk, OnOk, ◌&&◌, ℕ, find, is_some, map, not, option_map, false, count_by, length, string_bytes, slice_get, unwrap_or};
ghost use Rattle.cm_envelope.specs.declared.envelope.Envelope.{Envelope as SomeEnvelope};
ghost use Rattle.cm_steps.specs.Attempts.{is_quiet, is_status, last_attempt, open_cases, start_facts, start_of, started_facts, step_with};
ghost use Rattle.cm_steps.specs.Kept.{document_row, finish_entry, pickle_row, plan_row, start_entry, step_listing_of, place_texts, plan_texts, source_id, source_kind, step_texts};
ghost use Rattle.std.specs.List.{filter, list_any, flat_map};
ghost use Rattle.std.specs.Str.{bytes_eq};
ghost use Rattle.cm_attempt.specs.Calls.{last_of};
ghost use Rattle.cm_cases.specs.Firsts.{value_at};
ghost use Rattle.cm_stream.specs.References.{starts_of};
ghost use Rattle.cm_steps.specs.Entries.{ids_of, last_in, step_in, step_entry_text, step_entry_text_of, find_line, find_step, line_in, row_step, step_of_row, told_entry, told_in};
ghost use Rattle.cm_steps.specs.Steps.{case_step_text, named_case_step, steps_of_feature, steps_within};
ghost use Rattle.std.specs.Option.{option_map_or};
ghost use Rattle.cm_cases.specs.Places.{place};

use cm_attempt::Status;
use cm_cases::{ByText, add_first, add_shown};
use cm_envelope::{
    Envelope, GherkinDocument, NodeId, Pickle, PickleStep, TestCase, TestCaseStarted, TestStep,
    TestStepFinished, id_of,
};
use cm_stream::kept_status;
use gk_document::{Background, Feature, Rule, Scenario, Sequence, Step, Text};
use indexmap::IndexMap;
use itoa::Buffer;
use std::alloc::{AllocError, Global};
use std::hash::RandomState;
use text_rows::{TextIter, TextRows, Texts};

/// What a test step is of, beside its id: a hook, a step of its pickle, or neither.
const HOOK: &str = "h";

const PICKLE_STEP: &str = "s";

/// An attempt, by its test case and its number.
#[derive(Drop)]
struct StartEntry {
    id: Text,
    case_id: Text,
    number: u64,
}

/// The end of a step in an attempt.
#[derive(Drop)]
struct FinishEntry {
    attempt: Text,
    step: Text,
    status: Status,
}

/// What is told of a stream's steps and attempts, kept envelope by envelope.
#[derive(Drop)]
pub struct StepListing {
    /// Of each test case its id and its pickle's, and of each step its id, what it is of, and the id of that.
    plans: TextRows,
    /// Of each pickle its id and its uri, and of each step its id, its text, and the step node that it is made of.
    pickles: TextRows,
    /// Of each document its uri, and of each step its node and its line.
    documents: TextRows,
    starts: Sequence<StartEntry>,
    /// The attempts that are finished.
    ends: Texts,
    /// The ends of steps, but for those that passed or were skipped.
    finishes: Sequence<FinishEntry>,
}

/// What is kept of the start of an attempt.
fn start_entry(alloc: Global, start: &TestCaseStarted) -> Result<StartEntry, AllocError>
    ensures { IfOk result (λ entry. entry ≡ start_entry start.now) }
{
    Ok(StartEntry {
        id: Text::copy_of(alloc, start.id.as_str())?,
        case_id: Text::copy_of(alloc, start.test_case_id.as_str())?,
        number: start.attempt,
    })
}

/// Whether the status holds nothing up, whatever the policy.
pub fn is_quiet(status: Status) -> bool
    ensures { result ≡ is_quiet status }
{
    matches!(status, Status::Passed | Status::Skipped)
}

/// What is kept of the end of a step.
fn finish_entry(alloc: Global, finish: &TestStepFinished) -> Result<FinishEntry, AllocError>
    ensures { IfOk result (λ entry. entry ≡ finish_entry finish.now) }
{
    Ok(FinishEntry {
        attempt: Text::copy_of(alloc, finish.test_case_started_id.as_str())?,
        step: Text::copy_of(alloc, finish.test_step_id.as_str())?,
        status: kept_status(finish.test_step_result.status),
    })
}

impl StepListing {
    /// That of no envelope. It takes no memory.
    pub fn new(alloc: Global) -> StepListing
        ensures { result ≡ step_listing_of [] }
    {
        StepListing {
            plans: TextRows::new(alloc),
            pickles: TextRows::new(alloc),
            documents: TextRows::new(alloc),
            starts: Sequence::new(alloc),
            ends: Texts::new(alloc),
            finishes: Sequence::new(alloc),
        }
    }

    /// Keeps the end of a step, unless it holds nothing up.
    fn note_finish(&mut self, alloc: Global, finish: &TestStepFinished) -> Result<(), AllocError>
        ensures { OnOk result ((es : List SomeEnvelope) → self.old ≡ step_listing_of es
            → self.new ≡ step_listing_of (es ++ SomeEnvelope.TestStepFinished finish.now ∷ [])) }
    {
        if is_quiet(kept_status(finish.test_step_result.status)) {
            return Ok(());
        }
        self.finishes.push(finish_entry(alloc, finish)?)
    }

    /// Keeps what is told of one envelope more.
    ///
    /// # Errors
    /// Only where there is no memory for it, or where a text of it takes 4 GiB or more.
    pub fn note(&mut self, alloc: Global, envelope: &Envelope) -> Result<(), AllocError>
        ensures { OnOk result ((es : List SomeEnvelope) → self.old ≡ step_listing_of es
            → self.new ≡ step_listing_of (es ++ envelope.now ∷ [])) }
    {
        match envelope {
            Envelope::TestCase(case) => self.plans.push(&plan_row(alloc, case)?),
            Envelope::Pickle(pickle) => self.pickles.push(&pickle_row(alloc, pickle)?),
            Envelope::GherkinDocument(document) => {
                self.documents.push(&document_row(alloc, document)?)
            }
            Envelope::TestCaseStarted(start) => self.starts.push(start_entry(alloc, start)?),
            Envelope::TestCaseFinished(end) => self.ends.add(end.test_case_started_id.as_str()),
            Envelope::TestStepFinished(finish) => self.note_finish(alloc, finish),
            _ => Ok(()),
        }
    }
}

/// The start of an attempt: its test case, and its number from 0.
#[derive(Clone, Copy)]
pub struct Started<'a> {
    pub case_id: &'a str,
    pub number: u64,
}

/// The first start of an attempt that has this id.
fn started_as<'a>(starts: &'a [StartEntry], attempt: &str) -> Option<&'a StartEntry>
    ensures { option_map (λ s. s.now) result ≡ find (λ s. bytes_eq attempt.now s.id) starts.now }
{
    starts.iter().find(|start| attempt == start.id.as_str())
}

/// The ids of the attempts that are finished.
fn ended_of<'a>(
    alloc: Global,
    seed: RandomState,
    ends: &'a Texts,
) -> Result<ByText<'a, ()>, AllocError>
    ensures { IfOk result (λ m. (id : List ℕ) → is_some (value_at m id)
        ≡ list_any (bytes_eq id) ends.now) }
{
    let mut ended = IndexMap::with_hasher(alloc, seed);
    for id in ends.iter() {
        add_first(&mut ended, id, ())?;
    }
    Ok(ended)
}

/// The first attempt of each test case that isn't finished.
fn open_of<'a>(
    alloc: Global,
    seed: RandomState,
    starts: &'a [StartEntry],
    ended: &ByText<'_, ()>,
) -> Result<ByText<'a, &'a StartEntry>, AllocError>
    ensures { IfOk result (λ m. (case : List ℕ) → is_some (value_at m case)
        ≡ list_any (λ s. not (is_some (value_at ended.now s.id)) && bytes_eq case s.case_id)
        starts.now) }
{
    let mut open = IndexMap::with_hasher(alloc, seed);
    for start in starts {
        if !ended.contains_key(start.id.as_str()) {
            add_first(&mut open, start.case_id.as_str(), start)?;
        }
    }
    Ok(open)
}

/// The ids that rows begin with and that are in the map, in order.
fn plans_in<'a>(
    alloc: Global,
    plans: &'a TextRows,
    open_cases: &ByText<'_, &StartEntry>,
) -> Result<Vec<&'a str>, AllocError>
    ensures { IfOk result (λ ids. map (λ t. t.now) ids.items
        ≡ filter (λ id. is_some (value_at open_cases.now id)) (ids_of plans.now)) }
{
    let mut ids = Vec::new(alloc);
    for plan in plans.iter() {
        let Some(id) = plan.first() else {
            continue;
        };
        if open_cases.contains_key(id) {
            ids.push(id)?;
        }
    }
    Ok(ids)
}

/// The attempt of a test case that started last.
fn last_of<'a>(starts: &'a [StartEntry], case: &str) -> Option<&'a str>
    ensures { option_map (λ t. t.now) result
        ≡ option_map (λ s. s.id)
        (last_of (filter (λ s. bytes_eq case.now s.case_id) starts.now)) }
{
    let mut last = None;
    for start in starts {
        if case == start.case_id.as_str() {
            last = Some(start.id.as_str());
        }
    }
    last
}

/// How many of these attempts are of the test case.
fn count_of(starts: &[StartEntry], case: &str) -> usize
    ensures { result ≡ count_by (λ s. bytes_eq case.now s.case_id) starts.now }
{
    let all = starts.iter();
    all.filter(|start| case == start.case_id.as_str()).count()
}

/// Whether the two are one status.
fn is_status(a: Status, b: Status) -> bool
    ensures { result ≡ is_status a b }
{
    (a as u8) == (b as u8)
}

/// The first end of a step in the attempt with the status.
fn finish_with<'a>(
    finishes: &'a [FinishEntry],
    attempt: &str,
    status: Status,
) -> Option<&'a FinishEntry>
    ensures { option_map (λ f. f.now) result
        ≡ find (λ f. bytes_eq attempt.now f.attempt && is_status status f.status) finishes.now }
{
    finishes.iter().find(|finish| attempt == finish.attempt.as_str()
        && is_status(status, finish.status))
}

impl StepListing {
    /// The start of an attempt.
    pub fn start(&self, attempt: &str) -> Option<Started<'_>>
        ensures { (es : List SomeEnvelope) → self.now ≡ step_listing_of es
            → option_map started_facts result ≡ option_map start_facts (start_of attempt.now es) }
    {
        let start = started_as(self.starts.as_slice(), attempt)?;
        Some(Started {
            case_id: start.case_id.as_str(),
            number: start.number,
        })
    }

    /// The ids of the test cases that have an attempt that isn't finished, in order of declaration.
    ///
    /// # Errors
    /// Only where there is no memory for them.
    pub fn open_cases(&self, alloc: Global, seed: RandomState) -> Result<Vec<&str>, AllocError>
        ensures { IfOk result (λ ids. (es : List SomeEnvelope) → self.now ≡ step_listing_of es
            → map (λ t. t.now) ids.items ≡ open_cases es) }
    {
        let ended = ended_of(alloc, seed, &self.ends)?;
        let open = open_of(alloc, seed, self.starts.as_slice(), &ended)?;
        plans_in(alloc, &self.plans, &open)
    }

    /// How many attempts of a test case started.
    pub fn attempt_count(&self, case: &str) -> usize
        ensures { (es : List SomeEnvelope) → self.now ≡ step_listing_of es
            → result ≡ length (starts_of case.now es) }
    {
        count_of(self.starts.as_slice(), case)
    }

    /// The id of the attempt of a test case that started last.
    pub fn last_attempt(&self, case: &str) -> Option<&str>
        ensures { (es : List SomeEnvelope) → self.now ≡ step_listing_of es
            → option_map (λ t. t.now) result ≡ last_attempt case.now es }
    {
        last_of(self.starts.as_slice(), case)
    }

    /// The test step of the first end of a step in the attempt with the status, which may not be passed or skipped.
    pub fn step_with(&self, attempt: &str, status: Status) -> Option<&str>
        ensures { (es : List SomeEnvelope) → self.now ≡ step_listing_of es → is_quiet status ≡ false
            → option_map (λ t. t.now) result ≡ step_with attempt.now status es }
    {
        let finish = finish_with(self.finishes.as_slice(), attempt, status)?;
        Some(finish.step.as_str())
    }
}

/// The two texts that stand beside a step's id, of three texts of each step.
fn find_step<'a>(steps: TextIter<'a>, id: &str) -> Option<(&'a str, &'a str)>
    ensures { option_map (λ s. (s.0.now, s.1.now)) result ≡ find_step id.now steps.entry }
{
    let mut texts = steps;
    while let Some(step) = texts.next() {
        let one = texts.next()?;
        let two = texts.next()?;
        if id == step {
            return Some((one, two));
        }
    }
    None
}

/// The second text of a row, and the two that stand beside a step's id.
fn step_of_row<'a>(row: TextIter<'a>, id: &str) -> Option<(&'a str, &'a str, &'a str)>
    ensures { option_map (λ s. (s.0.now, s.1.now, s.2.now)) result ≡ step_of_row id.now row.entry }
{
    let mut texts = row;
    texts.next()?;
    let of = texts.next()?;
    let (one, two) = find_step(texts, id)?;
    Some((of, one, two))
}

/// The same of the first row of an id.
fn row_step<'a>(rows: &'a TextRows, id: &str, step: &str) -> Option<(&'a str, &'a str, &'a str)>
    ensures { option_map (λ s. (s.0.now, s.1.now, s.2.now)) result
        ≡ row_step rows.now id.now step.now }
{
    step_of_row(rows.find(id)?, step)
}

/// The line that stands beside a node, and 0 where the node is not there.
fn find_line<'a>(places: TextIter<'a>, node: &str) -> &'a str
    ensures { result.now ≡ find_line node.now places.entry }
{
    let mut texts = places;
    while let Some(id) = texts.next() {
        let Some(line) = texts.next() else {
            return "0";
        };
        if node == id {
            return line;
        }
    }
    "0"
}

impl StepListing {
    /// The line of the step, and 0 where no document has it.
    fn line(&self, uri: &str, node: &str) -> &str
        ensures { result.now ≡ line_in self.now uri.now node.now }
    {
        let Some(mut row) = self.documents.find(uri) else {
            return "0";
        };
        row.next();
        find_line(row, node)
    }

    /// Adds a step of a pickle, by its uri, its text and its node.
    fn add_entry(&self, text: &mut String, step: (&str, &str, &str)) -> Result<(), AllocError>
        ensures { OnOk result (string_bytes text.new
            ≡ string_bytes text.old ++ step_entry_text self.now
            (step.entry.0.now, step.entry.1.now, step.entry.2.now)) }
    {
        let (uri, words, node) = step;
        add_shown(text, uri)?;
        text.push_str(":")?;
        text.push_str(self.line(uri, node))?;
        text.push_str(" ")?;
        add_shown(text, words)
    }

    /// Adds the step of an id of a pickle.
    fn add_pickle_step(&self, text: &mut String, pickle: &str, step: &str) -> Result<(), AllocError>
        ensures { OnOk result (string_bytes text.new
            ≡ string_bytes text.old ++ step_entry_text_of self.now pickle.now step.now) }
    {
        match row_step(&self.pickles, pickle, step) {
            Some(step) => self.add_entry(text, step),
            None => Ok(()),
        }
    }

    /// Adds the hook of a test step, or else the word and the step of the pickle.
    fn add_planned(
        &self,
        text: &mut String,
        word: &str,
        step: (&str, &str, &str),
    ) -> Result<(), AllocError>
        ensures { OnOk result (string_bytes text.new
            ≡ string_bytes text.old
            ++ told_entry word.now self.now
            (step.entry.0.now, step.entry.1.now, step.entry.2.now)) }
    {
        let (pickle, kind, id) = step;
        if kind == HOOK {
            text.push_str("hook ")?;
            return add_shown(text, id);
        }
        if kind == PICKLE_STEP {
            text.push_str(word)?;
            return self.add_pickle_step(text, pickle, id);
        }
        Ok(())
    }

    /// Adds the test step of an id of a test case, after the word where it is a pickle's step.
    fn add_told(
        &self,
        text: &mut String,
        word: &str,
        case: &str,
        step: &str,
    ) -> Result<(), AllocError>
        ensures { OnOk result (string_bytes text.new
            ≡ string_bytes text.old ++ told_in word.now self.now case.now step.now) }
    {
        match row_step(&self.plans, case, step) {
            Some(step) => self.add_planned(text, word, step),
            None => Ok(()),
        }
    }

    /// Adds a test step of a test case: `URI:LINE TEXT` of its pickle's step, or `hook ID`.
    ///
    /// # Errors
    /// Only where there is no memory for it.
    pub fn add_step(&self, text: &mut String, case: &str, step: &str) -> Result<(), AllocError>
        ensures { OnOk result ((es : List SomeEnvelope) → self.now ≡ step_listing_of es
            → string_bytes text.new
            ≡ string_bytes text.old ++ case_step_text es case.now step.now) }
    {
        self.add_told(text, "", case, step)
    }

    /// Adds a test step of a test case: `step URI:LINE TEXT` of its pickle's step, or `hook ID`.
    ///
    /// # Errors
    /// Only where there is no memory for it.
    pub fn add_named_step(
        &self,
        text: &mut String,
        case: &str,
        step: &str,
    ) -> Result<(), AllocError>
        ensures { OnOk result ((es : List SomeEnvelope) → self.now ≡ step_listing_of es
            → string_bytes text.new
            ≡ string_bytes text.old ++ named_case_step es case.now step.now) }
    {
        self.add_told(text, "step ", case, step)
    }
}

/// Adds of each step the id of its node and its line.
fn add_steps(row: &mut Texts, ids: &[NodeId], steps: &[Step]) -> Result<(), AllocError>
    ensures { OnOk result (row.new ≡ row.old
        ++ flat_map (λ s. place_texts (place ids.now s.node s.location)) steps.now) }
{
    for step in steps {
        row.add(id_of(ids, step.node))?;
        row.add(Buffer::new().format(step.location.line))?;
    }
    Ok(())
}

/// Adds the steps of a background, if there is one.
fn add_background(
    row: &mut Texts,
    ids: &[NodeId],
    background: &Option<Background>,
) -> Result<(), AllocError>
    ensures { OnOk result (row.new ≡ row.old
        ++ flat_map (λ s. place_texts (place ids.now s.node s.location))
        (option_map_or (λ b. b.steps) background.now [])) }
{
    match background {
        Some(background) => add_steps(row, ids, background.steps.as_slice()),
        None => Ok(()),
    }
}

/// Adds the steps of the scenarios.
fn add_scenarios(row: &mut Texts, ids: &[NodeId], scenarios: &[Scenario]) -> Result<(), AllocError>
    ensures { OnOk result (row.new ≡ row.old
        ++ flat_map (λ s. place_texts (place ids.now s.node s.location))
        (flat_map (λ s. s.steps) scenarios.now)) }
{
    for scenario in scenarios {
        add_steps(row, ids, scenario.steps.as_slice())?;
    }
    Ok(())
}

/// Adds the steps of the background and the scenarios of a feature or a rule.
fn add_within(
    row: &mut Texts,
    ids: &[NodeId],
    background: &Option<Background>,
    scenarios: &[Scenario],
) -> Result<(), AllocError>
    ensures { OnOk result (row.new ≡ row.old
        ++ flat_map (λ s. place_texts (place ids.now s.node s.location))
        (steps_within background.now scenarios.now)) }
{
    add_background(row, ids, background)?;
    add_scenarios(row, ids, scenarios)
}

/// Adds the steps of the rules.
fn add_rules(row: &mut Texts, ids: &[NodeId], rules: &[Rule]) -> Result<(), AllocError>
    ensures { OnOk result (row.new ≡ row.old
        ++ flat_map (λ s. place_texts (place ids.now s.node s.location))
        (flat_map (λ r. steps_within r.background r.scenarios) rules.now)) }
{
    for rule in rules {
        add_within(row, ids, &rule.background, rule.scenarios.as_slice())?;
    }
    Ok(())
}

/// Adds the steps of a feature, those of its rules last.
fn add_feature(row: &mut Texts, ids: &[NodeId], feature: &Feature) -> Result<(), AllocError>
    ensures { OnOk result (row.new ≡ row.old
        ++ flat_map (λ s. place_texts (place ids.now s.node s.location))
        (steps_of_feature feature.now)) }
{
    add_within(row, ids, &feature.background, feature.scenarios.as_slice())?;
    add_rules(row, ids, feature.rules.as_slice())
}

/// What is kept of a document.
fn document_row(alloc: Global, document: &GherkinDocument) -> Result<Texts, AllocError>
    ensures { IfOk result (λ row. row ≡ document_row document.now) }
{
    let mut row = Texts::new(alloc);
    row.add(document.uri.as_str())?;
    let Some(feature) = &document.document.feature else {
        return Ok(row);
    };
    add_feature(&mut row, document.ids.as_slice(), feature)?;
    Ok(row)
}

/// The first of the texts, and an empty one where there is none.
fn first_text(texts: &[Text]) -> &str
    ensures { result.now ≡ unwrap_or (slice_get texts.now 0) [] }
{
    match texts.first() {
        Some(text) => text.as_str(),
        None => "",
    }
}

/// Adds of each step its id, its text, and the id of the step node that it is made of.
fn add_pickle_steps(row: &mut Texts, steps: &[PickleStep]) -> Result<(), AllocError>
    ensures { OnOk result (row.new ≡ row.old ++ flat_map step_texts steps.now) }
{
    for step in steps {
        row.add(step.id.as_str())?;
        row.add(step.text.as_str())?;
        row.add(first_text(step.ast_node_ids.as_slice()))?;
    }
    Ok(())
}

/// What is kept of a pickle.
fn pickle_row(alloc: Global, pickle: &Pickle) -> Result<Texts, AllocError>
    ensures { IfOk result (λ row. row ≡ pickle_row pickle.now) }
{
    let mut row = Texts::new(alloc);
    row.add(pickle.id.as_str())?;
    row.add(pickle.uri.as_str())?;
    add_pickle_steps(&mut row, pickle.steps.as_slice())?;
    Ok(row)
}

/// Adds what a test step is of: its hook, or else its pickle's step.
fn add_source(row: &mut Texts, hook: &Option<Text>, step: &Option<Text>) -> Result<(), AllocError>
    ensures { OnOk result (row.new ≡ row.old
        ++ source_kind hook.now step.now ∷ source_id hook.now step.now ∷ []) }
{
    if let Some(id) = hook {
        row.add(HOOK)?;
        return row.add(id.as_str());
    }
    if let Some(id) = step {
        row.add(PICKLE_STEP)?;
        return row.add(id.as_str());
    }
    row.add("")?;
    row.add("")
}

/// Adds of each test step its id, and what it is of.
fn add_plan_steps(row: &mut Texts, steps: &[TestStep]) -> Result<(), AllocError>
    ensures { OnOk result (row.new ≡ row.old ++ flat_map plan_texts steps.now) }
{
    for step in steps {
        row.add(step.id.as_str())?;
        add_source(row, &step.hook_id, &step.pickle_step_id)?;
    }
    Ok(())
}

/// What is kept of a test case.
fn plan_row(alloc: Global, case: &TestCase) -> Result<Texts, AllocError>
    ensures { IfOk result (λ row. row ≡ plan_row case.now) }
{
    let mut row = Texts::new(alloc);
    row.add(case.id.as_str())?;
    row.add(case.pickle_id.as_str())?;
    add_plan_steps(&mut row, case.test_steps.as_slice())?;
    Ok(row)
}
