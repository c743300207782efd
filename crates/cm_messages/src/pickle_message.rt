//! The envelope of a pickle.
ghost use Rattle.std.specs.Prelude.{◌≡◌, ◌+◌, ◌<◌, ◌^◌, ◌∷◌, [], codes, length, OnOk};
ghost use Rattle.serde.specs.Event.{WritesEach};
ghost use Rattle.serde_json.specs.Data.{array, string};
ghost use Rattle.serde_json.specs.View.{items_of};
ghost use Rattle.serde_json.specs.Events.{SendsValue};
ghost use Rattle.cm_messages.specs.Sending.{SendsMember};
ghost use Rattle.cm_messages.specs.Layout.{object_of, list_data, id_data};
ghost use Rattle.cm_messages.specs.PickleLayout.{type_word, pickle_tag_data, pickle_row_data, pickle_doc_string_data, argument_data};
ghost use Rattle.cm_messages.specs.PickleLayout.{pickle_step_data, pickle_steps_data, pickle_data};

use crate::send::{
    MessageLayout, SendJson, media_of, one_if, send_list_member, send_media, send_member,
    send_only, send_only_list, send_optional, send_str, send_text,
};
use gk_document::{Sequence, Text};
use gk_pickle::{Pickle, PickleArgument, PickleDocString, PickleStep, PickleTag, StepType};
use serde::Serializer;

impl SendJson<MessageLayout> for PickleTag {
    ghost json = { pickle_tag_data };

    fn send<S: Serializer>(&self, out: &mut S) -> Result<(), S::Error> {
        out.begin_map(Some(2))?;
        send_member("astNodeId", &self.node, out)?;
        send_text("name", &self.name, out)?;
        out.end_map()
    }
}

impl SendJson<MessageLayout> for PickleDocString {
    ghost json = { pickle_doc_string_data };

    fn send<S: Serializer>(&self, out: &mut S) -> Result<(), S::Error> {
        let count = one_if(&media_of(&self.media));
        out.begin_map(Some(1 + count))?;
        send_text("content", &self.content, out)?;
        send_media(&self.media, out)?;
        out.end_map()
    }
}

/// The table of a step.
#[derive(Clone, Copy)]
struct PickleTable<'a> {
    rows: &'a Sequence<Sequence<Text>>,
}

impl SendJson<MessageLayout> for PickleTable<'_> {
    ghost json = { λ t. object_of ((codes "rows", list_data pickle_row_data t.rows.now) ∷ []) };

    fn send<S: Serializer>(&self, out: &mut S) -> Result<(), S::Error> {
        send_only_list("rows", self.rows, out)
    }
}

impl SendJson<MessageLayout> for PickleArgument {
    ghost json = { argument_data };

    fn send<S: Serializer>(&self, out: &mut S) -> Result<(), S::Error> {
        match self {
            PickleArgument::Table(rows) => send_only("dataTable", &PickleTable { rows }, out),
            PickleArgument::Text(doc_string) => send_only("docString", doc_string, out),
        }
    }
}

/// How a step's type is written, as the member `type` has it.
pub fn step_type_name(kind: StepType) -> &'static str
    ensures { result.now ≡ type_word kind }
{
    match kind {
        StepType::Unknown => "Unknown",
        StepType::Context => "Context",
        StepType::Action => "Action",
        StepType::Outcome => "Outcome",
    }
}

/// The member `type` of a step.
fn send_step_type<S: Serializer>(kind: StepType, out: &mut S) -> Result<(), S::Error>
    ensures { OnOk result (SendsMember (codes "type") (string (type_word kind))
        (S.written out.old) (S.written out.new)) }
{
    send_str("type", step_type_name(kind), out)
}

/// A step with its id.
fn send_pickle_step<S: Serializer>(step: &PickleStep, id: u64, out: &mut S) -> Result<(), S::Error>
    ensures { OnOk result
        (SendsValue (pickle_step_data id step.now) (S.written out.old) (S.written out.new)) }
{
    let count = one_if(&step.argument);
    out.begin_map(Some(4 + count))?;
    send_optional("argument", &step.argument, out)?;
    send_list_member("astNodeIds", &step.nodes, out)?;
    send_member("id", &id, out)?;
    send_text("text", &step.text, out)?;
    send_step_type(step.kind, out)?;
    out.end_map()
}

/// Steps with the ids from the first one on, one after the other.
fn send_pickle_steps<S: Serializer>(
    steps: &[PickleStep],
    first_id: u64,
    out: &mut S,
) -> Result<(), S::Error>
    requires { first_id + length steps.now < 2 ^ 64 }
    ensures { OnOk result (WritesEach SendsValue (pickle_steps_data first_id steps.now)
        (S.written out.old) (S.written out.new)) }
{
    let mut id = first_id;
    'steps: for step in steps {
        send_pickle_step(step, id, out)?;
        id += 1;
    }
    Ok(())
}

/// Steps with the ids from the first one on, as an array.
fn send_pickle_steps_list<S: Serializer>(
    steps: &[PickleStep],
    first_id: u64,
    out: &mut S,
) -> Result<(), S::Error>
    requires { first_id + length steps.now < 2 ^ 64 }
    ensures { OnOk result (SendsValue (array (items_of (pickle_steps_data first_id steps.now)))
        (S.written out.old) (S.written out.new)) }
{
    let count = steps.len();
    out.begin_seq(Some(count))?;
    send_pickle_steps(steps, first_id, out)?;
    out.end_seq()
}

/// The member `steps` of a pickle.
fn send_pickle_steps_member<S: Serializer>(
    steps: &Sequence<PickleStep>,
    first_id: u64,
    out: &mut S,
) -> Result<(), S::Error>
    requires { first_id + length steps.now < 2 ^ 64 }
    ensures { OnOk result (SendsMember (codes "steps")
        (array (items_of (pickle_steps_data first_id steps.now)))
        (S.written out.old) (S.written out.new)) }
{
    out.key("steps")?;
    send_pickle_steps_list(steps.as_slice(), first_id, out)
}

/// The member `id` of a pickle: the id after those of its steps.
fn send_pickle_id<S: Serializer>(
    steps: &Sequence<PickleStep>,
    first_id: u64,
    out: &mut S,
) -> Result<(), S::Error>
    requires { first_id + length steps.now < 2 ^ 64 }
    ensures { OnOk result (SendsMember (codes "id") (id_data (first_id + length steps.now))
        (S.written out.old) (S.written out.new)) }
{
    let id = first_id + steps.len() as u64;
    send_member("id", &id, out)
}

/// A pickle, written as its envelope: its steps take the ids from `first_id` on, in order, and the pickle the one after
/// them. Its members are those of Cucumber Messages' `Pickle.json`, in the byte order of their names. `argument` and a doc
/// string's `mediaType` are absent where there is none.
#[derive(Clone, Copy)]
pub(crate) struct PickleMessage<'a> {
    pub(crate) uri: &'a str,
    pub(crate) pickle: &'a Pickle,
    pub(crate) first_id: u64,
    ghost in_range: { first_id + length pickle.now.steps < 2 ^ 64 },
}

impl SendJson<MessageLayout> for PickleMessage<'_> {
    ghost json = { λ m. pickle_data m.uri.now m.first_id m.pickle.now };

    fn send<S: Serializer>(&self, out: &mut S) -> Result<(), S::Error> {
        out.begin_map(Some(1))?;
        out.key("pickle")?;
        out.begin_map(Some(7))?;
        send_list_member("astNodeIds", &self.pickle.nodes, out)?;
        send_pickle_id(&self.pickle.steps, self.first_id, out)?;
        send_str("language", "en", out)?;
        send_text("name", &self.pickle.name, out)?;
        send_pickle_steps_member(&self.pickle.steps, self.first_id, out)?;
        send_list_member("tags", &self.pickle.tags, out)?;
        send_str("uri", self.uri, out)?;
        out.end_map()?;
        out.end_map()
    }
}
