//! The envelopes of a stream of Cucumber Messages, with the members that are judged.
use crate::node_id::NodeId;
use crate::pickle::Pickle;
use gk_document::{Document, Sequence, Text};

/// What a line of a stream says, as the schema `Envelope` of the Cucumber Messages has it.
#[derive(Drop)]
pub enum Envelope {
    Source(Source),
    GherkinDocument(GherkinDocument),
    ParseError(ParseError),
    Pickle(Pickle),
    StepDefinition(StepDefinition),
    Hook(Hook),
    TestCase(TestCase),
    TestRunStarted(TestRunStarted),
    TestCaseStarted(TestCaseStarted),
    TestStepStarted(TestStepStarted),
    TestStepFinished(TestStepFinished),
    TestCaseFinished(TestCaseFinished),
    TestRunFinished(TestRunFinished),
    Attachment(Attachment),
    TestRunHookStarted(TestRunHookStarted),
    TestRunHookFinished(TestRunHookFinished),
    /// An object without one of these kinds.
    Other,
}

/// The text of a feature file.
#[derive(Drop)]
pub struct Source {
    pub uri: Text,
    /// The member `data`.
    pub content: Text,
    pub media_type: Text,
}

/// The tree of a feature file. Only what is judged of it is read: columns are 0, descriptions empty, comments none, fences
/// `Quotes` and keyword types `Unknown`.
#[derive(Drop)]
pub struct GherkinDocument {
    pub uri: Text,
    pub document: Document,
    /// The id of each node, in the order of their numbers.
    pub ids: Sequence<NodeId>,
}

/// A feature file that the producer could not parse.
#[derive(Drop)]
pub struct ParseError {
    pub source: SourceReference,
}

/// The feature file that a parse error is of.
#[derive(Drop)]
pub struct SourceReference {
    pub uri: Text,
}

/// Code that a step may run.
#[derive(Drop)]
pub struct StepDefinition {
    pub id: Text,
}

/// Code that runs around steps, cases or the run.
#[derive(Drop)]
pub struct Hook {
    pub id: Text,
}

/// A pickle that is prepared to be run.
#[derive(Drop)]
pub struct TestCase {
    pub id: Text,
    pub pickle_id: Text,
    pub test_run_started_id: Option<Text>,
    pub test_steps: Sequence<TestStep>,
}

/// A step of a test case. It has exactly one of `hook_id` and `pickle_step_id`.
#[derive(Drop)]
pub struct TestStep {
    pub id: Text,
    pub hook_id: Option<Text>,
    pub pickle_step_id: Option<Text>,
    pub step_definition_ids: Sequence<Text>,
}

/// The start of the run.
#[derive(Drop)]
pub struct TestRunStarted {
    pub id: Option<Text>,
}

/// The start of an attempt at a test case.
#[derive(Drop)]
pub struct TestCaseStarted {
    pub id: Text,
    pub test_case_id: Text,
    /// The number of the attempt, from 0.
    pub attempt: u64,
}

/// The start of a test step in an attempt.
#[derive(Drop)]
pub struct TestStepStarted {
    pub test_case_started_id: Text,
    pub test_step_id: Text,
}

/// The end of a test step in an attempt.
#[derive(Drop)]
pub struct TestStepFinished {
    pub test_case_started_id: Text,
    pub test_step_id: Text,
    pub test_step_result: TestStepResult,
}

/// What came of a test step, or of a run hook.
#[derive(Clone, Copy, Drop)]
pub struct TestStepResult {
    pub status: Status,
}

/// The end of an attempt at a test case.
#[derive(Drop)]
pub struct TestCaseFinished {
    pub test_case_started_id: Text,
    pub will_be_retried: bool,
}

/// The start of a hook that runs around the run.
#[derive(Drop)]
pub struct TestRunHookStarted {
    pub id: Text,
    pub test_run_started_id: Option<Text>,
    pub hook_id: Text,
}

/// The end of a hook that runs around the run.
#[derive(Drop)]
pub struct TestRunHookFinished {
    pub test_run_hook_started_id: Text,
    pub result: TestStepResult,
}

/// The end of the run.
#[derive(Drop)]
pub struct TestRunFinished {
    pub test_run_started_id: Option<Text>,
    pub success: bool,
    /// Whether the member `exception` is present, whatever its value.
    pub has_exception: bool,
}

/// Data that a test step, an attempt or the run leaves.
#[derive(Drop)]
pub struct Attachment {
    pub test_case_started_id: Option<Text>,
    pub test_step_id: Option<Text>,
}

/// The status of a test step, as the schema `TestStepResultStatus` has it.
#[derive(Clone, Copy, Debug, PartialEq, Eq, Drop)]
pub enum Status {
    Unknown,
    Passed,
    Skipped,
    Pending,
    Undefined,
    Ambiguous,
    Failed,
}
