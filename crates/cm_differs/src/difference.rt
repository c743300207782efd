//! What is due at a place of a stream and what the stream has there, and both as JSON.
ghost use Rattle.std.specs.Prelude.{◌≡◌, ◌↔◌, IfOk, IfSome, IsNone, option_map, [], map, OnOk, codes, false};
ghost use Rattle.gk_document.specs.Skeleton.{skeleton};
ghost use Rattle.cm_differs.specs.Differences.{IsTreeDifference, pickle_difference};
ghost use Rattle.cm_differs.specs.DuePickles.{due_pickle, argument_of, due_row, due_pickle_step, due_pickle_steps, due_tag, kind_beside};
ghost use Rattle.cm_differs.specs.DuePickles.{step_kind, DueIsEqual};
ghost use Rattle.cm_differs.specs.PickleData.{argument_data, bare_pickle_data, kind_data, pickle_cell_data, pickle_doc_string_data, pickle_members};
ghost use Rattle.cm_differs.specs.PickleData.{pickle_row_data, pickle_step_data, pickle_table_data, pickle_tag_data, pickle_text};
ghost use Rattle.cm_stream.specs.Sources.{english, ids_at};
ghost use Rattle.serde_json.specs.Events.{SendsValue};
ghost use Rattle.gk_parts.specs.Parts.{part_view, part_view_alone};
ghost use Rattle.cm_messages.specs.Layout.{list_data};
ghost use Rattle.cm_messages.specs.Sending.{SendsMember};
ghost use Rattle.cm_differs.specs.PartData.{background_data, cell_data, doc_string_data, examples_data, feature_data, location_data};
ghost use Rattle.cm_differs.specs.PartData.{part_data, part_text, row_data, rule_data, scenario_data, step_data, table_data, tag_data};
ghost use Rattle.cm_differs.specs.PartData.{tagged_data};
ghost use Rattle.cm_differs.specs.Sending.{SendsArgument};
ghost use Rattle.serde_json.specs.Data.{string};
ghost use Rattle.serde_json.specs.Written.{compact_text, has_float};

use cm_envelope::{
    NodeId, Pickle, PickleArgument, PickleCell, PickleDocString, PickleRow, PickleStep,
    PickleTable, PickleTag, StepKind, id_of,
};
use cm_messages::{
    SendJson, json_text, one_if, send_list_member, send_member, send_number, send_only,
    send_only_list, send_optional, send_text,
};
use gk_document::{
    Argument, Background, Cell, DocString, Document, Examples, Feature, Location, Row, Rule,
    Scenario, Sequence, Step, Tag, Text,
};
use gk_parts::{Part, first_difference};
use gk_pickle::{
    Pickle as DuePickle, PickleArgument as DueArgument, PickleStep as DueStep, PickleTag as DueTag,
    StepType,
};
use serde::Serializer;
use std::alloc::{AllocError, Global};

/// What differs in a source's part of a stream, as compact JSON without the ids that are free.
#[derive(Clone, Drop)]
pub struct Difference {
    /// The source.
    pub uri: Text,
    /// What the source's text compiles to at that place, and `None` where nothing is due.
    pub expected: Option<Text>,
    /// What the stream has there, and `None` where it has nothing.
    pub found: Option<Text>,
}

/// The first part in which the document of a source's text and that of the stream differ, each without the parts within it.
/// `None` where both have one skeleton, as [`same_skeleton`](gk_document::same_skeleton) compares them.
///
/// # Errors
/// Where there is no memory for the parts or their texts, as `serde_json` says of these.
pub fn tree_difference(
    alloc: Global,
    uri: &str,
    due: &Document,
    found: &Document,
) -> Result<Option<Difference>, AllocError>
    ensures none { IfOk result (λ d. IsNone d ↔ (skeleton due.now ≡ skeleton found.now)) }
    ensures first { IfOk result
        (λ d. IfSome d (IsTreeDifference uri.now due.now found.now)) }
{
    let Some(first) = first_difference(alloc, due, found)? else {
        return Ok(None);
    };
    Ok(Some(Difference {
        uri: Text::copy_of(alloc, uri)?,
        expected: text_of_some(alloc, &first.expected)?,
        found: text_of_some(alloc, &first.found)?,
    }))
}

/// The text of a pickle that is due, beside steps of the stream.
fn due_text(
    alloc: Global,
    uri: &str,
    ids: &[NodeId],
    beside: &[PickleStep],
    due: &DuePickle,
) -> Result<Text, AllocError>
    ensures { IfOk result (λ t. t
        ≡ pickle_text (due_pickle uri.now ids.now beside.now due.now)) }
{
    let pickle = due_pickle(alloc, uri, ids, beside, due)?;
    pickle_text(alloc, &pickle)
}

/// The same, where a pickle is due.
fn due_text_of_some(
    alloc: Global,
    uri: &str,
    ids: &[NodeId],
    beside: &[PickleStep],
    due: Option<&DuePickle>,
) -> Result<Option<Text>, AllocError>
    ensures { IfOk result (λ t. t ≡ option_map
        (λ d. pickle_text (due_pickle uri.now ids.now beside.now d.now)) due.entry) }
{
    match due {
        Some(due) => Ok(Some(due_text(alloc, uri, ids, beside, due)?)),
        None => Ok(None),
    }
}

/// A pickle of the stream, and the one that is due at its place, if any. `ids` are those that the stream's document gives its
/// nodes, by their numbers. The steps that are due have no type where the stream's steps beside them have none.
///
/// # Errors
/// Where there is no memory for the texts, as `serde_json` says.
pub fn pickle_difference(
    alloc: Global,
    ids: &[NodeId],
    due: Option<&DuePickle>,
    found: &Pickle,
) -> Result<Difference, AllocError>
    ensures { IfOk result
        (λ d. d ≡ pickle_difference ids.now (option_map (λ due. due.now) due.entry) found.now) }
{
    let uri = found.uri.as_str();
    Ok(Difference {
        uri: Text::copy_of(alloc, uri)?,
        expected: due_text_of_some(alloc, uri, ids, found.steps.as_slice(), due)?,
        found: Some(pickle_text(alloc, found)?),
    })
}

/// The language of all pickles.
const ENGLISH: &str = "en";

/// No id, where an id is free.
fn no_id(alloc: Global) -> Text
    ensures { result ≡ [] }
{
    Text::from(String::new(alloc))
}

/// The ids of the nodes.
fn ids_at(alloc: Global, ids: &[NodeId], nodes: &[u64]) -> Result<Sequence<Text>, AllocError>
    ensures { IfOk result (λ texts. texts ≡ ids_at ids.now nodes.now) }
{
    let mut texts = Sequence::new(alloc);
    for node in nodes {
        let id = Text::copy_of(alloc, id_of(ids, *node))?;
        texts.push(id)?;
    }
    Ok(texts)
}

/// A step's type, as messages have it.
fn step_kind(kind: StepType) -> StepKind
    ensures { result ≡ step_kind kind }
{
    match kind {
        StepType::Unknown => StepKind::Unknown,
        StepType::Context => StepKind::Context,
        StepType::Action => StepKind::Action,
        StepType::Outcome => StepKind::Outcome,
    }
}

/// The type that is due beside a step of the stream.
fn kind_beside(beside: Option<&PickleStep>, due: StepType) -> Option<StepKind>
    ensures { result ≡ kind_beside (option_map (λ s. s.now) beside.entry) due }
{
    match beside {
        Some(PickleStep { kind: None, .. }) => None,
        _ => Some(step_kind(due)),
    }
}

/// The row of these cells.
fn due_row(alloc: Global, cells: &[Text]) -> Result<PickleRow, AllocError>
    ensures { IfOk result (λ r. r ≡ due_row cells.now) }
{
    let mut row = Sequence::new(alloc);
    for cell in cells {
        let value = Text::copy_of(alloc, cell.as_str())?;
        row.push(PickleCell { value })?;
    }
    Ok(PickleRow { cells: row })
}

/// The rows of a table.
fn due_rows(alloc: Global, rows: &[Sequence<Text>]) -> Result<Sequence<PickleRow>, AllocError>
    ensures { IfOk result (λ rs. rs ≡ map due_row rows.now) }
{
    let mut table = Sequence::new(alloc);
    for cells in rows {
        let row = due_row(alloc, cells.as_slice())?;
        table.push(row)?;
    }
    Ok(table)
}

/// A copy of a text, where there is one.
fn copy_of_some(alloc: Global, text: &Option<Text>) -> Result<Option<Text>, AllocError>
    ensures { IfOk result (λ t. t ≡ text.now) }
{
    match text {
        Some(text) => Ok(Some(Text::copy_of(alloc, text.as_str())?)),
        None => Ok(None),
    }
}

/// The table or doc string of a step.
fn argument_of(alloc: Global, argument: &DueArgument) -> Result<PickleArgument, AllocError>
    ensures { IfOk result (λ a. a ≡ argument_of argument.now) }
{
    match argument {
        DueArgument::Table(rows) => {
            let rows = due_rows(alloc, rows.as_slice())?;
            Ok(PickleArgument::Table(PickleTable { rows }))
        }
        DueArgument::Text(text) => Ok(PickleArgument::Text(PickleDocString {
            content: Text::copy_of(alloc, text.content.as_str())?,
            media_type: copy_of_some(alloc, &text.media)?,
        })),
    }
}

/// The table or doc string of a step that has one.
fn argument_of_some(
    alloc: Global,
    argument: &Option<DueArgument>,
) -> Result<Option<PickleArgument>, AllocError>
    ensures { IfOk result (λ a. a ≡ option_map argument_of argument.now) }
{
    match argument {
        Some(argument) => Ok(Some(argument_of(alloc, argument)?)),
        None => Ok(None),
    }
}

/// A step that is due, beside a step of the stream.
fn due_pickle_step(
    alloc: Global,
    ids: &[NodeId],
    beside: Option<&PickleStep>,
    due: &DueStep,
) -> Result<PickleStep, AllocError>
    ensures { IfOk result
        (λ s. s ≡ due_pickle_step ids.now (option_map (λ s. s.now) beside.entry) due.now) }
{
    Ok(PickleStep {
        id: no_id(alloc),
        text: Text::copy_of(alloc, due.text.as_str())?,
        kind: kind_beside(beside, due.kind),
        ast_node_ids: ids_at(alloc, ids, due.nodes.as_slice())?,
        argument: argument_of_some(alloc, &due.argument)?,
    })
}

/// The steps that are due, each beside the stream's step at its place.
fn due_pickle_steps(
    alloc: Global,
    ids: &[NodeId],
    beside: &[PickleStep],
    due: &[DueStep],
) -> Result<Sequence<PickleStep>, AllocError>
    ensures { IfOk result (λ ss. ss ≡ due_pickle_steps ids.now beside.now due.now) }
{
    let mut steps = Sequence::new(alloc);
    for (i, step) in due.iter().enumerate() {
        let step = due_pickle_step(alloc, ids, beside.get(i), step)?;
        steps.push(step)?;
    }
    Ok(steps)
}

/// A tag that is due.
fn due_tag(alloc: Global, ids: &[NodeId], due: &DueTag) -> Result<PickleTag, AllocError>
    ensures { IfOk result (λ t. t ≡ due_tag ids.now due.now) }
{
    Ok(PickleTag {
        name: Text::copy_of(alloc, due.name.as_str())?,
        ast_node_id: Text::copy_of(alloc, id_of(ids, due.node))?,
    })
}

/// The tags that are due.
fn due_tags(
    alloc: Global,
    ids: &[NodeId],
    due: &[DueTag],
) -> Result<Sequence<PickleTag>, AllocError>
    ensures { IfOk result (λ ts. ts ≡ map (due_tag ids.now) due.now) }
{
    let mut tags = Sequence::new(alloc);
    for tag in due {
        let tag = due_tag(alloc, ids, tag)?;
        tags.push(tag)?;
    }
    Ok(tags)
}

/// The uri, the name and the language of a pickle that is due.
fn due_texts(alloc: Global, uri: &str, name: &str) -> Result<(Text, Text, Text), AllocError>
    ensures { IfOk result (λ texts. texts ≡ (uri.now, name.now, english)) }
{
    let uri = Text::copy_of(alloc, uri)?;
    let name = Text::copy_of(alloc, name)?;
    let language = Text::copy_of(alloc, ENGLISH)?;
    Ok((uri, name, language))
}

/// The pickle that is due in the stream, beside steps of the stream, where the nodes have these ids.
fn due_pickle(
    alloc: Global,
    uri: &str,
    ids: &[NodeId],
    beside: &[PickleStep],
    due: &DuePickle,
) -> Result<Pickle, AllocError>
    ensures { IfOk result (λ p. p ≡ due_pickle uri.now ids.now beside.now due.now) }
{
    let steps = due_pickle_steps(alloc, ids, beside, due.steps.as_slice())?;
    let tags = due_tags(alloc, ids, due.tags.as_slice())?;
    let ast_node_ids = ids_at(alloc, ids, due.nodes.as_slice())?;
    let (uri, name, language) = due_texts(alloc, uri, due.name.as_str())?;
    Ok(Pickle {
        id: no_id(alloc),
        uri,
        name,
        language,
        ast_node_ids,
        tags,
        steps,
    })
}

/// A pickle of the stream is the one that is due exactly where both are equal without the ids that are free.
pub fn due_is_equal()
    ensures { DueIsEqual }
{}

impl SendJson<DifferenceLayout> for Location {
    ghost json = { location_data };

    fn send<S: Serializer>(&self, out: &mut S) -> Result<(), S::Error> {
        out.begin_map(Some(1))?;
        send_number("line", self.line, out)?;
        out.end_map()
    }
}

/// Sends the member `location`.
fn send_location<S: Serializer>(location: &Location, out: &mut S) -> Result<(), S::Error>
    ensures { OnOk result (SendsMember (codes "location") (location_data location.now)
        (S.written out.old) (S.written out.new)) }
{
    send_member::<DifferenceLayout, _, _>("location", location, out)
}

impl SendJson<DifferenceLayout> for Tag {
    ghost json = { tag_data };

    fn send<S: Serializer>(&self, out: &mut S) -> Result<(), S::Error> {
        out.begin_map(Some(2))?;
        send_location(&self.location, out)?;
        send_text("name", &self.name, out)?;
        out.end_map()
    }
}

/// Sends the member `tags`.
fn send_tags<S: Serializer>(tags: &Sequence<Tag>, out: &mut S) -> Result<(), S::Error>
    ensures { OnOk result (SendsMember (codes "tags") (list_data tag_data tags.now)
        (S.written out.old) (S.written out.new)) }
{
    send_list_member::<DifferenceLayout, _, _>("tags", tags, out)
}

impl SendJson<DifferenceLayout> for Cell {
    ghost json = { cell_data };

    fn send<S: Serializer>(&self, out: &mut S) -> Result<(), S::Error> {
        send_only::<DifferenceLayout, _, _>("value", &self.value, out)
    }
}

impl SendJson<DifferenceLayout> for Row {
    ghost json = { row_data };

    fn send<S: Serializer>(&self, out: &mut S) -> Result<(), S::Error> {
        out.begin_map(Some(2))?;
        send_list_member("cells", &self.cells, out)?;
        send_location(&self.location, out)?;
        out.end_map()
    }
}

/// A data table.
impl SendJson<DifferenceLayout> for Sequence<Row> {
    ghost json = { table_data };

    fn send<S: Serializer>(&self, out: &mut S) -> Result<(), S::Error> {
        send_only_list::<DifferenceLayout, _, _>("rows", self, out)
    }
}

impl SendJson<DifferenceLayout> for DocString {
    ghost json = { doc_string_data };

    fn send<S: Serializer>(&self, out: &mut S) -> Result<(), S::Error> {
        let count = one_if(&self.media);
        out.begin_map(Some(2 + count))?;
        send_text("content", &self.content, out)?;
        send_location(&self.location, out)?;
        send_optional::<DifferenceLayout, _, _>("mediaType", &self.media, out)?;
        out.end_map()
    }
}

/// Sends the data table or doc string of a step, where it has one.
fn send_argument<S: Serializer>(argument: &Option<Argument>, out: &mut S) -> Result<(), S::Error>
    ensures { OnOk result
        (SendsArgument argument.now (S.written out.old) (S.written out.new)) }
{
    match argument {
        Some(Argument::Table(rows)) => send_member("dataTable", rows, out),
        Some(Argument::Text(text)) => {
            send_member::<DifferenceLayout, _, _>("docString", text, out)
        }
        None => Ok(()),
    }
}

impl SendJson<DifferenceLayout> for Step {
    ghost json = { step_data };

    fn send<S: Serializer>(&self, out: &mut S) -> Result<(), S::Error> {
        let count = one_if(&self.argument);
        out.begin_map(Some(3 + count))?;
        send_argument(&self.argument, out)?;
        send_text("keyword", &self.keyword, out)?;
        send_location(&self.location, out)?;
        send_text("text", &self.text, out)?;
        out.end_map()
    }
}

impl SendJson<DifferenceLayout> for Background {
    ghost json = { background_data };

    fn send<S: Serializer>(&self, out: &mut S) -> Result<(), S::Error> {
        out.begin_map(Some(3))?;
        send_text("keyword", &self.keyword, out)?;
        send_location(&self.location, out)?;
        send_text("name", &self.name, out)?;
        out.end_map()
    }
}

/// Sends a node that has tags.
fn send_tagged<S: Serializer>(
    keyword: &Text,
    location: &Location,
    name: &Text,
    tags: &Sequence<Tag>,
    out: &mut S,
) -> Result<(), S::Error>
    ensures { OnOk result
        (SendsValue (tagged_data keyword.now location.now name.now tags.now)
        (S.written out.old) (S.written out.new)) }
{
    out.begin_map(Some(4))?;
    send_text("keyword", keyword, out)?;
    send_location(location, out)?;
    send_text("name", name, out)?;
    send_tags(tags, out)?;
    out.end_map()
}

impl SendJson<DifferenceLayout> for Rule {
    ghost json = { rule_data };

    fn send<S: Serializer>(&self, out: &mut S) -> Result<(), S::Error> {
        send_tagged(&self.keyword, &self.location, &self.name, &self.tags, out)
    }
}

impl SendJson<DifferenceLayout> for Scenario {
    ghost json = { scenario_data };

    fn send<S: Serializer>(&self, out: &mut S) -> Result<(), S::Error> {
        send_tagged(&self.keyword, &self.location, &self.name, &self.tags, out)
    }
}

impl SendJson<DifferenceLayout> for Examples {
    ghost json = { examples_data };

    fn send<S: Serializer>(&self, out: &mut S) -> Result<(), S::Error> {
        send_tagged(&self.keyword, &self.location, &self.name, &self.tags, out)
    }
}

impl SendJson<DifferenceLayout> for Feature {
    ghost json = { feature_data };

    fn send<S: Serializer>(&self, out: &mut S) -> Result<(), S::Error> {
        out.begin_map(Some(5))?;
        send_text("keyword", &self.keyword, out)?;
        send_text("language", &self.language, out)?;
        send_location(&self.location, out)?;
        send_text("name", &self.name, out)?;
        send_tags(&self.tags, out)?;
        out.end_map()
    }
}

impl SendJson<DifferenceLayout> for Part<'_> {
    ghost json = { λ p. part_data (part_view p) };

    fn send<S: Serializer>(&self, out: &mut S) -> Result<(), S::Error> {
        match self {
            Part::Feature(feature) => send_only::<DifferenceLayout, _, _>("feature", *feature, out),
            Part::Rule(rule) => send_only::<DifferenceLayout, _, _>("rule", *rule, out),
            Part::Background(background) => send_only::<DifferenceLayout, _, _>(
                "background",
                *background,
                out,
            ),
            Part::Scenario(scenario) => send_only::<DifferenceLayout, _, _>(
                "scenario", *scenario, out,
            ),
            Part::Step(step) => send_only::<DifferenceLayout, _, _>("step", *step, out),
            Part::Examples(examples) => send_only::<DifferenceLayout, _, _>(
                "examples", *examples, out,
            ),
            Part::Header(row) => send_only::<DifferenceLayout, _, _>("tableHeader", *row, out),
            Part::Row(row) => send_only::<DifferenceLayout, _, _>("tableRow", *row, out),
        }
    }
}

/// A part without the parts within it, as compact JSON.
fn part_text(alloc: Global, part: &Part<'_>) -> Result<Text, AllocError>
    ensures { IfOk result (λ t. t ≡ part_text (part_view_alone part.now)) }
{
    let text = text_of(alloc, part)?;
    Ok(text)
}

/// The same, where there is a part.
fn text_of_some(alloc: Global, part: &Option<Part<'_>>) -> Result<Option<Text>, AllocError>
    ensures { IfOk result (λ t. t ≡ option_map part_text (option_map part_view_alone part.now)) }
{
    match part {
        Some(part) => Ok(Some(part_text(alloc, part)?)),
        None => Ok(None),
    }
}

/// The layout of a difference. Of a document it has what is compared, and of a pickle all but its ids.
#[derive(Clone, Copy)]
pub(crate) struct DifferenceLayout;

impl SendJson<DifferenceLayout> for Text {
    ghost json = { string };

    fn send<S: Serializer>(&self, out: &mut S) -> Result<(), S::Error> {
        out.str(self.as_str())
    }
}

/// The value as compact JSON. Its bytes are checked, since no clause says that they are UTF-8.
fn text_of<T: SendJson<DifferenceLayout>>(alloc: Global, value: &T) -> Result<Text, AllocError>
    ensures { IfOk result (λ t. has_float (T.json value.now) ≡ false
        → t ≡ compact_text (T.json value.now)) }
{
    let bytes = json_text(alloc, value)?;
    match String::from_utf8(bytes) {
        Ok(text) => Ok(Text::from(text)),
        Err(_) => Err(AllocError),
    }
}

impl SendJson<DifferenceLayout> for StepKind {
    ghost json = { kind_data };

    fn send<S: Serializer>(&self, out: &mut S) -> Result<(), S::Error> {
        match self {
            StepKind::Unknown => out.str("Unknown"),
            StepKind::Context => out.str("Context"),
            StepKind::Action => out.str("Action"),
            StepKind::Outcome => out.str("Outcome"),
        }
    }
}

impl SendJson<DifferenceLayout> for PickleCell {
    ghost json = { pickle_cell_data };

    fn send<S: Serializer>(&self, out: &mut S) -> Result<(), S::Error> {
        send_only::<DifferenceLayout, _, _>("value", &self.value, out)
    }
}

impl SendJson<DifferenceLayout> for PickleRow {
    ghost json = { pickle_row_data };

    fn send<S: Serializer>(&self, out: &mut S) -> Result<(), S::Error> {
        send_only_list("cells", &self.cells, out)
    }
}

impl SendJson<DifferenceLayout> for PickleTable {
    ghost json = { pickle_table_data };

    fn send<S: Serializer>(&self, out: &mut S) -> Result<(), S::Error> {
        send_only_list("rows", &self.rows, out)
    }
}

impl SendJson<DifferenceLayout> for PickleDocString {
    ghost json = { pickle_doc_string_data };

    fn send<S: Serializer>(&self, out: &mut S) -> Result<(), S::Error> {
        let count = one_if(&self.media_type);
        out.begin_map(Some(1 + count))?;
        send_text("content", &self.content, out)?;
        send_optional::<DifferenceLayout, _, _>("mediaType", &self.media_type, out)?;
        out.end_map()
    }
}

impl SendJson<DifferenceLayout> for PickleArgument {
    ghost json = { argument_data };

    fn send<S: Serializer>(&self, out: &mut S) -> Result<(), S::Error> {
        match self {
            PickleArgument::Table(table) => send_only("dataTable", table, out),
            PickleArgument::Text(text) => send_only("docString", text, out),
        }
    }
}

impl SendJson<DifferenceLayout> for PickleStep {
    ghost json = { pickle_step_data };

    fn send<S: Serializer>(&self, out: &mut S) -> Result<(), S::Error> {
        let arguments = one_if(&self.argument);
        let kinds = one_if(&self.kind);
        out.begin_map(Some(2 + arguments + kinds))?;
        send_optional("argument", &self.argument, out)?;
        send_list_member::<DifferenceLayout, _, _>("astNodeIds", &self.ast_node_ids, out)?;
        send_text("text", &self.text, out)?;
        send_optional("type", &self.kind, out)?;
        out.end_map()
    }
}

impl SendJson<DifferenceLayout> for PickleTag {
    ghost json = { pickle_tag_data };

    fn send<S: Serializer>(&self, out: &mut S) -> Result<(), S::Error> {
        out.begin_map(Some(2))?;
        send_text("astNodeId", &self.ast_node_id, out)?;
        send_text("name", &self.name, out)?;
        out.end_map()
    }
}

impl SendJson<DifferenceLayout> for Pickle {
    ghost json = { pickle_members };

    fn send<S: Serializer>(&self, out: &mut S) -> Result<(), S::Error> {
        out.begin_map(Some(6))?;
        send_list_member::<DifferenceLayout, _, _>("astNodeIds", &self.ast_node_ids, out)?;
        send_text("language", &self.language, out)?;
        send_text("name", &self.name, out)?;
        send_list_member("steps", &self.steps, out)?;
        send_list_member("tags", &self.tags, out)?;
        send_text("uri", &self.uri, out)?;
        out.end_map()
    }
}

/// A pickle in an envelope.
#[derive(Clone, Copy)]
struct PickleMessage<'a> {
    pickle: &'a Pickle,
}

impl SendJson<DifferenceLayout> for PickleMessage<'_> {
    ghost json = { λ m. bare_pickle_data m.pickle.now };

    fn send<S: Serializer>(&self, out: &mut S) -> Result<(), S::Error> {
        send_only("pickle", self.pickle, out)
    }
}

/// A pickle without its ids, in an envelope, as compact JSON.
fn pickle_text(alloc: Global, pickle: &Pickle) -> Result<Text, AllocError>
    ensures { IfOk result (λ t. t ≡ pickle_text pickle.now) }
{
    let text = text_of(alloc, &PickleMessage { pickle })?;
    Ok(text)
}
