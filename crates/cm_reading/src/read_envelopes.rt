//! How a line is read as an envelope, member by member.
ghost use Rattle.std.specs.Prelude.{◌≡◌, codes, option_map, option_and_then};
ghost use Rattle.serde_json.specs.Find.{as_str};
ghost use Rattle.serde_json.specs.View.{view, members_view};
ghost use Rattle.cm_envelope.specs.Member.{required_in, has_one_of as has_one_member, each_item_in, unless_null};
ghost use Rattle.cm_reading.specs.Giving.{GivesMember};
ghost use Rattle.cm_reading.specs.Members.{value_of};
ghost use Rattle.cm_envelope.specs.Envelopes.{source, source_reference, parse_error, step_definition, hook, test_run_started};
ghost use Rattle.cm_envelope.specs.Envelopes.{test_run_finished, attachment, status_of, as_status, test_step, test_case, test_case_started};
ghost use Rattle.cm_envelope.specs.Envelopes.{test_step_started, test_step_result, test_step_finished, test_case_finished};
ghost use Rattle.cm_envelope.specs.Envelopes.{test_run_hook_started, test_run_hook_finished};
ghost use Rattle.serde_json.specs.Data.{object as json_object};
ghost use Rattle.cm_envelope.specs.Reading.{members as members_of_kind, kind_named, judged_kinds_of, the_one, kind_and_data, envelope_in};
ghost use Rattle.cm_envelope.specs.Reading.{envelope_of as envelope_of_value, json_of_line as json_of, envelope_of_line, GivesEnvelope};
ghost use Rattle.cm_envelope.specs.Reading.{GivesLineValue};

use crate::fault::MemberFault;
use crate::member::{
    Member, ReadObject, all_have_one_of, four_members, look_up, three_members, two_members,
};
use cm_envelope::{
    Attachment, Envelope, EnvelopeFault, Hook, Kind, LineFault, ParseError, Source,
    SourceReference, Status, StepDefinition, TestCase, TestCaseFinished, TestCaseStarted,
    TestRunFinished, TestRunHookFinished, TestRunHookStarted, TestRunStarted, TestStep,
    TestStepFinished, TestStepResult, TestStepStarted,
};
use serde_json::{Map, Value};
use std::alloc::Global;

/// The status that a word stands for.
fn status_of(word: &str) -> Option<Status>
    ensures { result ≡ status_of word.now }
{
    match word {
        "UNKNOWN" => Some(Status::Unknown),
        "PASSED" => Some(Status::Passed),
        "SKIPPED" => Some(Status::Skipped),
        "PENDING" => Some(Status::Pending),
        "UNDEFINED" => Some(Status::Undefined),
        "AMBIGUOUS" => Some(Status::Ambiguous),
        "FAILED" => Some(Status::Failed),
        _ => None,
    }
}

/// The status that the member has to be the word of.
fn status(member: Member<'_>) -> Result<Status, MemberFault>
    ensures { GivesMember result
        (required_in as_status member.entry.name.now (value_of member.entry)) }
{
    match member.value.and_then(Value::as_str) {
        Some(word) => status_of(word).ok_or(MemberFault::Bad(member.name)),
        None => Err(MemberFault::Bad(member.name)),
    }
}

/// Whether each step of a case is of a hook or of a step of its pickle, and not of both.
fn steps_have_one_origin(steps: Member<'_>) -> bool
    ensures { result ≡ each_item_in (has_one_member (codes "hookId") (codes "pickleStepId"))
        (value_of steps.entry) }
{
    match steps.value.and_then(Value::as_array) {
        Some(steps) => all_have_one_of(steps, "hookId", "pickleStepId"),
        None => true,
    }
}

impl ReadObject for Source {
    ghost reads = { source };

    #[inline(never)]
    fn read(alloc: Global, object: &Value) -> Result<Source, MemberFault> {
        let (uri, content, media_type) = three_members(object, "uri", "data", "mediaType");
        Ok(Source {
            uri: uri.text(alloc)?,
            content: content.text(alloc)?,
            media_type: media_type.text(alloc)?,
        })
    }
}

impl ReadObject for SourceReference {
    ghost reads = { source_reference };

    fn read(alloc: Global, object: &Value) -> Result<SourceReference, MemberFault> {
        Ok(SourceReference {
            uri: look_up(object, "uri").text(alloc)?,
        })
    }
}

impl ReadObject for ParseError {
    ghost reads = { parse_error };

    #[inline(never)]
    fn read(alloc: Global, object: &Value) -> Result<ParseError, MemberFault> {
        Ok(ParseError {
            source: look_up(object, "source").nested(alloc)?,
        })
    }
}

impl ReadObject for StepDefinition {
    ghost reads = { step_definition };

    #[inline(never)]
    fn read(alloc: Global, object: &Value) -> Result<StepDefinition, MemberFault> {
        Ok(StepDefinition {
            id: look_up(object, "id").text(alloc)?,
        })
    }
}

impl ReadObject for Hook {
    ghost reads = { hook };

    #[inline(never)]
    fn read(alloc: Global, object: &Value) -> Result<Hook, MemberFault> {
        Ok(Hook {
            id: look_up(object, "id").text(alloc)?,
        })
    }
}

impl ReadObject for TestRunStarted {
    ghost reads = { test_run_started };

    #[inline(never)]
    fn read(alloc: Global, object: &Value) -> Result<TestRunStarted, MemberFault> {
        Ok(TestRunStarted {
            id: look_up(object, "id").optional_text(alloc)?,
        })
    }
}

impl ReadObject for TestRunFinished {
    ghost reads = { test_run_finished };

    #[inline(never)]
    fn read(alloc: Global, object: &Value) -> Result<TestRunFinished, MemberFault> {
        let (test_run_started_id, success, exception) = three_members(
            object,
            "testRunStartedId",
            "success",
            "exception",
        );
        Ok(TestRunFinished {
            test_run_started_id: test_run_started_id.optional_text(alloc)?,
            success: success.flag()?,
            has_exception: exception.is_present(),
        })
    }
}

impl ReadObject for Attachment {
    ghost reads = { attachment };

    #[inline(never)]
    fn read(alloc: Global, object: &Value) -> Result<Attachment, MemberFault> {
        let (test_case_started_id, test_step_id) = two_members(
            object,
            "testCaseStartedId",
            "testStepId",
        );
        Ok(Attachment {
            test_case_started_id: test_case_started_id.optional_text(alloc)?,
            test_step_id: test_step_id.optional_text(alloc)?,
        })
    }
}

impl ReadObject for TestStep {
    ghost reads = { test_step };

    fn read(alloc: Global, object: &Value) -> Result<TestStep, MemberFault> {
        let (id, hook_id, pickle_step_id, step_definition_ids) = four_members(
            object,
            "id",
            "hookId",
            "pickleStepId",
            "stepDefinitionIds",
        );
        Ok(TestStep {
            id: id.text(alloc)?,
            hook_id: hook_id.optional_text(alloc)?,
            pickle_step_id: pickle_step_id.optional_text(alloc)?,
            step_definition_ids: step_definition_ids.texts(alloc)?,
        })
    }
}

impl ReadObject for TestCase {
    ghost reads = { test_case };

    #[inline(never)]
    fn read(alloc: Global, object: &Value) -> Result<TestCase, MemberFault> {
        let (id, pickle_id, test_run_started_id, test_steps) = four_members(
            object,
            "id",
            "pickleId",
            "testRunStartedId",
            "testSteps",
        );
        let id = id.text(alloc)?;
        let pickle_id = pickle_id.text(alloc)?;
        let test_run_started_id = test_run_started_id.optional_text(alloc)?;
        if !steps_have_one_origin(test_steps) {
            return Err(MemberFault::Bad("testSteps"));
        }
        Ok(TestCase {
            id,
            pickle_id,
            test_run_started_id,
            test_steps: test_steps.list_of(alloc)?,
        })
    }
}

impl ReadObject for TestCaseStarted {
    ghost reads = { test_case_started };

    #[inline(never)]
    fn read(alloc: Global, object: &Value) -> Result<TestCaseStarted, MemberFault> {
        let (id, test_case_id, attempt) = three_members(object, "id", "testCaseId", "attempt");
        Ok(TestCaseStarted {
            id: id.text(alloc)?,
            test_case_id: test_case_id.text(alloc)?,
            attempt: attempt.whole_number_or(0)?,
        })
    }
}

impl ReadObject for TestStepStarted {
    ghost reads = { test_step_started };

    #[inline(never)]
    fn read(alloc: Global, object: &Value) -> Result<TestStepStarted, MemberFault> {
        let (test_case_started_id, test_step_id) = two_members(
            object,
            "testCaseStartedId",
            "testStepId",
        );
        Ok(TestStepStarted {
            test_case_started_id: test_case_started_id.text(alloc)?,
            test_step_id: test_step_id.text(alloc)?,
        })
    }
}

impl ReadObject for TestStepResult {
    ghost reads = { test_step_result };

    fn read(_alloc: Global, object: &Value) -> Result<TestStepResult, MemberFault> {
        Ok(TestStepResult {
            status: status(look_up(object, "status"))?,
        })
    }
}

impl ReadObject for TestStepFinished {
    ghost reads = { test_step_finished };

    #[inline(never)]
    fn read(alloc: Global, object: &Value) -> Result<TestStepFinished, MemberFault> {
        let (test_case_started_id, test_step_id, test_step_result) = three_members(
            object,
            "testCaseStartedId",
            "testStepId",
            "testStepResult",
        );
        Ok(TestStepFinished {
            test_case_started_id: test_case_started_id.text(alloc)?,
            test_step_id: test_step_id.text(alloc)?,
            test_step_result: test_step_result.nested(alloc)?,
        })
    }
}

impl ReadObject for TestCaseFinished {
    ghost reads = { test_case_finished };

    #[inline(never)]
    fn read(alloc: Global, object: &Value) -> Result<TestCaseFinished, MemberFault> {
        let (test_case_started_id, will_be_retried) = two_members(
            object,
            "testCaseStartedId",
            "willBeRetried",
        );
        Ok(TestCaseFinished {
            test_case_started_id: test_case_started_id.text(alloc)?,
            will_be_retried: will_be_retried.flag_or(false)?,
        })
    }
}

impl ReadObject for TestRunHookStarted {
    ghost reads = { test_run_hook_started };

    #[inline(never)]
    fn read(alloc: Global, object: &Value) -> Result<TestRunHookStarted, MemberFault> {
        let (id, test_run_started_id, hook_id) = three_members(
            object,
            "id",
            "testRunStartedId",
            "hookId",
        );
        Ok(TestRunHookStarted {
            id: id.text(alloc)?,
            test_run_started_id: test_run_started_id.optional_text(alloc)?,
            hook_id: hook_id.text(alloc)?,
        })
    }
}

impl ReadObject for TestRunHookFinished {
    ghost reads = { test_run_hook_finished };

    #[inline(never)]
    fn read(alloc: Global, object: &Value) -> Result<TestRunHookFinished, MemberFault> {
        let (test_run_hook_started_id, result) = two_members(
            object,
            "testRunHookStartedId",
            "result",
        );
        Ok(TestRunHookFinished {
            test_run_hook_started_id: test_run_hook_started_id.text(alloc)?,
            result: result.nested(alloc)?,
        })
    }
}

/// The envelope of this kind, read from the members of its object.
fn line_members(alloc: Global, kind: Kind, object: &Value) -> Result<Envelope, MemberFault>
    ensures { GivesMember result (members_of_kind kind (view object.now)) }
{
    match kind {
        Kind::Source => Ok(Envelope::Source(ReadObject::read(alloc, object)?)),
        Kind::GherkinDocument => Ok(Envelope::GherkinDocument(ReadObject::read(alloc, object)?)),
        Kind::ParseError => Ok(Envelope::ParseError(ReadObject::read(alloc, object)?)),
        Kind::Pickle => Ok(Envelope::Pickle(ReadObject::read(alloc, object)?)),
        Kind::StepDefinition => Ok(Envelope::StepDefinition(ReadObject::read(alloc, object)?)),
        Kind::Hook => Ok(Envelope::Hook(ReadObject::read(alloc, object)?)),
        Kind::TestCase => Ok(Envelope::TestCase(ReadObject::read(alloc, object)?)),
        Kind::TestRunStarted => Ok(Envelope::TestRunStarted(ReadObject::read(alloc, object)?)),
        Kind::TestCaseStarted => Ok(Envelope::TestCaseStarted(ReadObject::read(alloc, object)?)),
        Kind::TestStepStarted => Ok(Envelope::TestStepStarted(ReadObject::read(alloc, object)?)),
        Kind::TestStepFinished => Ok(Envelope::TestStepFinished(ReadObject::read(alloc, object)?)),
        Kind::TestCaseFinished => Ok(Envelope::TestCaseFinished(ReadObject::read(alloc, object)?)),
        Kind::TestRunFinished => Ok(Envelope::TestRunFinished(ReadObject::read(alloc, object)?)),
        Kind::Attachment => Ok(Envelope::Attachment(ReadObject::read(alloc, object)?)),
        Kind::TestRunHookStarted => Ok(Envelope::TestRunHookStarted(ReadObject::read(
            alloc, object,
        )?)),
        Kind::TestRunHookFinished => Ok(Envelope::TestRunHookFinished(ReadObject::read(
            alloc, object,
        )?)),
    }
}

/// The judged kind that a member is of. A null member is of none.
fn judged_kind(name: &str, value: &Value) -> Option<Kind>
    ensures { result ≡ option_and_then (λ v. kind_named name.now)
        (unless_null (view value.now)) }
{
    if value.is_null() {
        return None;
    }
    Kind::named(name)
}

/// The one judged kind that the object has, with its value.
fn judged_of(members: &Map<String, Value>) -> Result<Option<(Kind, &Value)>, EnvelopeFault>
    ensures { GivesLineValue (option_map kind_and_data) result
        (the_one (judged_kinds_of (json_object (members_view members.now.entries)))) }
{
    let mut found = None;
    for (name, value) in members.iter() {
        if let Some(kind) = judged_kind(name.as_str(), value) {
            if found.is_some() {
                return Err(EnvelopeFault::Line(LineFault::Shape));
            }
            found = Some((kind, value));
        }
    }
    Ok(found)
}

/// The envelope of this kind, whose value has to be an object.
fn judged_envelope(alloc: Global, kind: Kind, value: &Value) -> Result<Envelope, EnvelopeFault>
    ensures { GivesEnvelope result (envelope_in kind (view value.now)) }
{
    if !value.is_object() {
        return Err(EnvelopeFault::Line(LineFault::Shape));
    }
    match line_members(alloc, kind, value) {
        Ok(envelope) => Ok(envelope),
        Err(MemberFault::Bad(field)) => Err(EnvelopeFault::Line(LineFault::Field(
            kind.name(),
            field,
        ))),
        Err(MemberFault::Memory) => Err(EnvelopeFault::Memory),
    }
}

/// The envelope of a line's value, which has to be an object with at most one judged kind.
fn envelope_of(alloc: Global, value: &Value) -> Result<Envelope, EnvelopeFault>
    ensures { GivesEnvelope result (envelope_of_value (view value.now)) }
{
    let Some(members) = value.as_object() else {
        return Err(EnvelopeFault::Line(LineFault::Shape));
    };
    match judged_of(members)? {
        Some((kind, value)) => judged_envelope(alloc, kind, value),
        None => Ok(Envelope::Other),
    }
}

/// The JSON value that a line has to be.
#[tactic(auto, using(cm_envelope::proofs::Json::json_read, cm_envelope::proofs::Json::json_refused))]
fn json_of_line(alloc: Global, line: &[u8]) -> Result<Value, EnvelopeFault>
    ensures { GivesLineValue view result (json_of line.now) }
{
    match Value::from_slice(alloc, line) {
        Ok(value) => Ok(value),
        Err(fault) => {
            if fault.is_memory() {
                return Err(EnvelopeFault::Memory);
            }
            Err(EnvelopeFault::Line(LineFault::NotJson))
        }
    }
}

/// The envelope of a line, by the members of its judged kind. Null is absence, and unknown members and kinds are ignored.
/// It takes time and memory in proportion to the line.
///
/// # Errors
/// The line is no JSON value, or no object with at most one judged kind, or has a bad member: one that is required and
/// absent, or of another type. The first in the order of the kind's members is reported. Or there is no memory.
pub fn read_envelope(alloc: Global, line: &[u8]) -> Result<Envelope, EnvelopeFault>
    ensures { GivesEnvelope result (envelope_of_line line.now) }
{
    let value = json_of_line(alloc, line)?;
    envelope_of(alloc, &value)
}
