//! Sources, documents and pickles as JSON values, in the layout of Cucumber Messages.
ghost use Rattle.std.specs.Prelude.{◌≡◌, ◌+◌, ◌<◌, ◌^◌, ◌∷◌, [], codes, length, IfOk, OnOk, option_map, ◌++◌, map};
ghost use Rattle.serde_json.specs.Data.{Data, array, string, put as with_member};
ghost use Rattle.serde_json.specs.View.{view, members_view, items_of};
ghost use Rattle.cm_messages.specs.Layout.{object_of, put_some, media_data, id_data, list_data};
ghost use Rattle.cm_messages.specs.PickleLayout.{pickle_tag_data, pickle_cell_data, pickle_row_data, pickle_doc_string_data, argument_data};
ghost use Rattle.cm_messages.specs.PickleLayout.{pickle_step_data, pickle_steps_data, pickle_data};
ghost use Rattle.gk_values.specs.Optional.{with_some};
ghost use Rattle.gk_document.specs.ExampleRows.{table_rows_of};
ghost use Rattle.cm_messages.specs.SourceLayout.{source_data};
ghost use Rattle.cm_messages.specs.DocumentLayout.{location_data, cell_data, row_data, tag_data, comment_data, doc_string_data, table_data};
ghost use Rattle.cm_messages.specs.DocumentLayout.{argument_table, argument_doc_string, step_data, background_data, block_members};
ghost use Rattle.cm_messages.specs.DocumentLayout.{examples_data, scenario_data, background_child as background_child_data};
ghost use Rattle.cm_messages.specs.DocumentLayout.{scenario_child as scenario_child_data, rule_child as rule_child_data, children_data};
ghost use Rattle.cm_messages.specs.DocumentLayout.{rule_data, feature_data, document_data};

use cm_messages::{keyword_type_name, place_of_table, step_type_name};
use gk_document::{
    Argument, Background, Cell, Comment, DocString, Document, ExampleTable, Examples, Feature,
    Location, Row, Rule, Scenario, Sequence, Step, Tag, Text, media_type,
};
use gk_pickle::{Pickle, PickleArgument, PickleDocString, PickleStep, PickleTag};
use serde_json::{Map, Value, put};
use std::alloc::{AllocError, Global};

/// What is written for a value.
pub(crate) trait WriteJson {
    ghost json: { Self → Data };

    /// The value as JSON.
    ///
    /// # Errors
    /// Only where there is no memory.
    fn to_json(&self, alloc: Global) -> Result<Value, AllocError>
        ensures { IfOk result (λ v. view v ≡ json self.now) };
}

/// The values of a list.
fn list_value<T: WriteJson>(alloc: Global, items: &[T]) -> Result<Value, AllocError>
    ensures { IfOk result (λ v. view v ≡ list_data T.json items.now) }
{
    let mut values = Vec::new(alloc);
    for item in items {
        let value = item.to_json(alloc)?;
        values.push(value)?;
    }
    Ok(Value::Array(values))
}

/// An object of one member.
fn one_member(alloc: Global, name: &str, value: Value) -> Result<Value, AllocError>
    ensures { IfOk result (λ v. view v ≡ object_of ((name.now, view value) ∷ [])) }
{
    let mut members = Map::new(alloc);
    put(&mut members, alloc, name, value)?;
    Ok(Value::Object(members))
}

/// Adds a member that holds a text.
fn add_text(
    members: &mut Map<String, Value>,
    alloc: Global,
    name: &str,
    text: &str,
) -> Result<(), AllocError>
    ensures { OnOk result (members_view members.new.entries
        ≡ with_member name.now (string text.now) (members_view members.old.entries)) }
{
    put(members, alloc, name, Value::try_from_str(alloc, text)?)
}

/// Adds a member.
fn add<T: WriteJson>(
    members: &mut Map<String, Value>,
    alloc: Global,
    name: &str,
    value: &T,
) -> Result<(), AllocError>
    ensures { OnOk result (members_view members.new.entries
        ≡ with_member name.now (T.json value.now) (members_view members.old.entries)) }
{
    put(members, alloc, name, value.to_json(alloc)?)
}

/// Adds a member that holds a list.
fn add_list<T: WriteJson>(
    members: &mut Map<String, Value>,
    alloc: Global,
    name: &str,
    items: &[T],
) -> Result<(), AllocError>
    ensures { OnOk result (members_view members.new.entries
        ≡ with_member name.now (list_data T.json items.now) (members_view members.old.entries)) }
{
    put(members, alloc, name, list_value(alloc, items)?)
}

/// Adds the media type of a doc string, where there is one.
fn add_media(
    members: &mut Map<String, Value>,
    alloc: Global,
    media: &Option<Text>,
) -> Result<(), AllocError>
    ensures { OnOk result (members_view members.new.entries
        ≡ put_some (codes "mediaType") (media_data media.now) (members_view members.old.entries)) }
{
    let Some(media) = media else {
        return Ok(());
    };
    match media_type(Text::copy_of(alloc, media.as_str())?) {
        Some(media) => put(
            members,
            alloc,
            "mediaType",
            Value::String(media.into_string()),
        ),
        None => Ok(()),
    }
}

/// Adds a member where there is a value for it.
fn add_optional<T: WriteJson>(
    members: &mut Map<String, Value>,
    alloc: Global,
    name: &str,
    value: &Option<T>,
) -> Result<(), AllocError>
    ensures { OnOk result (members_view members.new.entries
        ≡ put_some name.now (option_map T.json value.now) (members_view members.old.entries)) }
{
    match value {
        Some(value) => put(members, alloc, name, value.to_json(alloc)?),
        None => Ok(()),
    }
}

/// An object with one more member where there is a value for it.
fn with_optional<T: WriteJson>(
    alloc: Global,
    value: Value,
    name: &str,
    member: &Option<T>,
) -> Result<Value, AllocError>
    ensures { IfOk result
        (λ v. view v ≡ with_some name.now (option_map T.json member.now) (view value)) }
{
    match value {
        Value::Object(mut members) => {
            add_optional(&mut members, alloc, name, member)?;
            Ok(Value::Object(members))
        }
        other => Ok(other),
    }
}

/// An id.
impl WriteJson for u64 {
    ghost json = { id_data };

    fn to_json(&self, alloc: Global) -> Result<Value, AllocError> {
        let id = *self;
        Ok(Value::String(format!(in alloc; "{id}")?))
    }
}

impl WriteJson for PickleTag {
    ghost json = { pickle_tag_data };

    fn to_json(&self, alloc: Global) -> Result<Value, AllocError> {
        let mut members = Map::new(alloc);
        add(&mut members, alloc, "astNodeId", &self.node)?;
        add_text(&mut members, alloc, "name", self.name.as_str())?;
        Ok(Value::Object(members))
    }
}

/// A cell of a table.
impl WriteJson for Text {
    ghost json = { pickle_cell_data };

    fn to_json(&self, alloc: Global) -> Result<Value, AllocError> {
        let value = Value::try_from_str(alloc, self.as_str())?;
        one_member(alloc, "value", value)
    }
}

/// A row of a table.
impl WriteJson for Sequence<Text> {
    ghost json = { pickle_row_data };

    fn to_json(&self, alloc: Global) -> Result<Value, AllocError> {
        let cells = list_value(alloc, self.as_slice())?;
        one_member(alloc, "cells", cells)
    }
}

impl WriteJson for PickleDocString {
    ghost json = { pickle_doc_string_data };

    fn to_json(&self, alloc: Global) -> Result<Value, AllocError> {
        let mut members = Map::new(alloc);
        add_text(&mut members, alloc, "content", self.content.as_str())?;
        add_media(&mut members, alloc, &self.media)?;
        Ok(Value::Object(members))
    }
}

/// The rows of a table.
fn table_value(alloc: Global, rows: &[Sequence<Text>]) -> Result<Value, AllocError>
    ensures { IfOk result
        (λ v. view v ≡ object_of ((codes "rows", list_data pickle_row_data rows.now) ∷ [])) }
{
    let rows = list_value(alloc, rows)?;
    one_member(alloc, "rows", rows)
}

impl WriteJson for PickleArgument {
    ghost json = { argument_data };

    fn to_json(&self, alloc: Global) -> Result<Value, AllocError> {
        match self {
            PickleArgument::Table(rows) => {
                let table = table_value(alloc, rows.as_slice())?;
                one_member(alloc, "dataTable", table)
            }
            PickleArgument::Text(doc_string) => {
                let doc_string = doc_string.to_json(alloc)?;
                one_member(alloc, "docString", doc_string)
            }
        }
    }
}

/// A step with its id.
fn step_value(alloc: Global, step: &PickleStep, id: u64) -> Result<Value, AllocError>
    ensures { IfOk result (λ v. view v ≡ pickle_step_data id step.now) }
{
    let mut members = Map::new(alloc);
    add_list(&mut members, alloc, "astNodeIds", step.nodes.as_slice())?;
    add(&mut members, alloc, "id", &id)?;
    add_text(&mut members, alloc, "text", step.text.as_str())?;
    add_text(&mut members, alloc, "type", step_type_name(step.kind))?;
    add_optional(&mut members, alloc, "argument", &step.argument)?;
    Ok(Value::Object(members))
}

/// Steps with the ids from the first one on.
fn steps_value(alloc: Global, steps: &[PickleStep], first_id: u64) -> Result<Value, AllocError>
    requires { first_id + length steps.now < 2 ^ 64 }
    ensures { IfOk result
        (λ v. view v ≡ array (items_of (pickle_steps_data first_id steps.now))) }
{
    let mut values = Vec::new(alloc);
    let mut id = first_id;
    for step in steps {
        let value = step_value(alloc, step, id)?;
        values.push(value)?;
        id += 1;
    }
    Ok(Value::Array(values))
}

/// The envelope of a pickle, whose steps take the ids from `first_id` on, in order, and the pickle the one after them.
/// Its members are those of Cucumber Messages' `Pickle.json`, in the byte order of their names. `argument` and a doc
/// string's `mediaType` are absent where there is none.
///
/// # Errors
/// Only where there is no memory for the value.
#[tactic(auto, unfolding(cm_messages::specs::PickleLayout::pickle_data))]
pub fn pickle_value(
    alloc: Global,
    uri: &str,
    pickle: &Pickle,
    first_id: u64,
) -> Result<Value, AllocError>
    requires { first_id + length pickle.now.steps < 2 ^ 64 }
    ensures { IfOk result (λ v. view v ≡ pickle_data uri.now first_id pickle.now) }
{
    let id = first_id + pickle.steps.len() as u64;
    let mut members = Map::new(alloc);
    add_list(&mut members, alloc, "astNodeIds", pickle.nodes.as_slice())?;
    add(&mut members, alloc, "id", &id)?;
    add_text(&mut members, alloc, "language", "en")?;
    add_text(&mut members, alloc, "name", pickle.name.as_str())?;
    let steps = steps_value(alloc, pickle.steps.as_slice(), first_id)?;
    put(&mut members, alloc, "steps", steps)?;
    add_list(&mut members, alloc, "tags", pickle.tags.as_slice())?;
    add_text(&mut members, alloc, "uri", uri)?;
    one_member(alloc, "pickle", Value::Object(members))
}

impl WriteJson for Location {
    ghost json = { location_data };

    fn to_json(&self, alloc: Global) -> Result<Value, AllocError> {
        let mut members = Map::new(alloc);
        put(&mut members, alloc, "column", Value::from(self.column))?;
        put(&mut members, alloc, "line", Value::from(self.line))?;
        Ok(Value::Object(members))
    }
}

/// A cell of a row on this line.
fn cell_value(alloc: Global, cell: &Cell, line: u32) -> Result<Value, AllocError>
    ensures { IfOk result (λ v. view v ≡ cell_data line cell.now) }
{
    let place = Location {
        line,
        column: cell.column,
    };
    let mut members = Map::new(alloc);
    add(&mut members, alloc, "location", &place)?;
    add_text(&mut members, alloc, "value", cell.value.as_str())?;
    Ok(Value::Object(members))
}

/// The cells of a row on this line.
fn cells_value(alloc: Global, cells: &[Cell], line: u32) -> Result<Value, AllocError>
    ensures { IfOk result (λ v. view v ≡ list_data (cell_data line) cells.now) }
{
    let mut values = Vec::new(alloc);
    for cell in cells {
        let value = cell_value(alloc, cell, line)?;
        values.push(value)?;
    }
    Ok(Value::Array(values))
}

impl WriteJson for Row {
    ghost json = { row_data };

    fn to_json(&self, alloc: Global) -> Result<Value, AllocError> {
        let cells = cells_value(alloc, self.cells.as_slice(), self.location.line)?;
        let mut members = Map::new(alloc);
        put(&mut members, alloc, "cells", cells)?;
        add(&mut members, alloc, "id", &self.node)?;
        add(&mut members, alloc, "location", &self.location)?;
        Ok(Value::Object(members))
    }
}

impl WriteJson for Tag {
    ghost json = { tag_data };

    fn to_json(&self, alloc: Global) -> Result<Value, AllocError> {
        let mut members = Map::new(alloc);
        add(&mut members, alloc, "id", &self.node)?;
        add(&mut members, alloc, "location", &self.location)?;
        add_text(&mut members, alloc, "name", self.name.as_str())?;
        Ok(Value::Object(members))
    }
}

impl WriteJson for Comment {
    ghost json = { comment_data };

    fn to_json(&self, alloc: Global) -> Result<Value, AllocError> {
        let mut members = Map::new(alloc);
        add(&mut members, alloc, "location", &self.location)?;
        add_text(&mut members, alloc, "text", self.text.as_str())?;
        Ok(Value::Object(members))
    }
}

impl WriteJson for DocString {
    ghost json = { doc_string_data };

    fn to_json(&self, alloc: Global) -> Result<Value, AllocError> {
        let mut members = Map::new(alloc);
        add_text(&mut members, alloc, "content", self.content.as_str())?;
        add_text(&mut members, alloc, "delimiter", self.fence.characters())?;
        add(&mut members, alloc, "location", &self.location)?;
        add_media(&mut members, alloc, &self.media)?;
        Ok(Value::Object(members))
    }
}

/// The table of a step.
fn example_table_value(alloc: Global, place: Location, rows: &[Row]) -> Result<Value, AllocError>
    ensures { IfOk result (λ v. view v ≡ table_data place rows.now) }
{
    let location = place_of_table(place, rows);
    let mut members = Map::new(alloc);
    add(&mut members, alloc, "location", &location)?;
    add_list(&mut members, alloc, "rows", rows)?;
    Ok(Value::Object(members))
}

/// Adds what is below a step.
fn add_argument(
    members: &mut Map<String, Value>,
    alloc: Global,
    place: Location,
    argument: &Option<Argument>,
) -> Result<(), AllocError>
    ensures { OnOk result (members_view members.new.entries
        ≡ put_some (codes "docString") (argument_doc_string argument.now)
        (put_some (codes "dataTable") (argument_table place argument.now)
        (members_view members.old.entries))) }
{
    match argument {
        Some(Argument::Table(rows)) => {
            let table = example_table_value(alloc, place, rows.as_slice())?;
            put(members, alloc, "dataTable", table)
        }
        Some(Argument::Text(doc_string)) => {
            let doc_string = doc_string.to_json(alloc)?;
            put(members, alloc, "docString", doc_string)
        }
        None => Ok(()),
    }
}

impl WriteJson for Step {
    ghost json = { step_data };

    fn to_json(&self, alloc: Global) -> Result<Value, AllocError> {
        let mut members = Map::new(alloc);
        add(&mut members, alloc, "id", &self.node)?;
        add_text(&mut members, alloc, "keyword", self.keyword.as_str())?;
        add_text(
            &mut members,
            alloc,
            "keywordType",
            keyword_type_name(self.kind),
        )?;
        add(&mut members, alloc, "location", &self.location)?;
        add_text(&mut members, alloc, "text", self.text.as_str())?;
        add_argument(&mut members, alloc, self.location, &self.argument)?;
        Ok(Value::Object(members))
    }
}

impl WriteJson for Background {
    ghost json = { background_data };

    fn to_json(&self, alloc: Global) -> Result<Value, AllocError> {
        let mut members = Map::new(alloc);
        add_text(
            &mut members,
            alloc,
            "description",
            self.description.as_str(),
        )?;
        add(&mut members, alloc, "id", &self.node)?;
        add_text(&mut members, alloc, "keyword", self.keyword.as_str())?;
        add(&mut members, alloc, "location", &self.location)?;
        add_text(&mut members, alloc, "name", self.name.as_str())?;
        add_list(&mut members, alloc, "steps", self.steps.as_slice())?;
        Ok(Value::Object(members))
    }
}

impl WriteJson for ExampleTable {
    ghost json = { λ t. row_data t.header };

    fn to_json(&self, alloc: Global) -> Result<Value, AllocError> {
        self.header.to_json(alloc)
    }
}

/// The body rows of a block.
fn body_value(alloc: Global, table: &Option<ExampleTable>) -> Result<Value, AllocError>
    ensures { IfOk result (λ v. view v ≡ list_data row_data (table_rows_of table.now)) }
{
    match table {
        Some(table) => list_value(alloc, table.body.as_slice()),
        None => Ok(Value::Array(Vec::new(alloc))),
    }
}

/// An examples block without its header row.
fn block_value(alloc: Global, block: &Examples) -> Result<Value, AllocError>
    ensures { IfOk result (λ v. view v ≡ object_of (block_members block.now)) }
{
    let mut members = Map::new(alloc);
    add_text(
        &mut members,
        alloc,
        "description",
        block.description.as_str(),
    )?;
    add(&mut members, alloc, "id", &block.node)?;
    add_text(&mut members, alloc, "keyword", block.keyword.as_str())?;
    add(&mut members, alloc, "location", &block.location)?;
    add_text(&mut members, alloc, "name", block.name.as_str())?;
    put(
        &mut members,
        alloc,
        "tableBody",
        body_value(alloc, &block.table)?,
    )?;
    add_list(&mut members, alloc, "tags", block.tags.as_slice())?;
    Ok(Value::Object(members))
}

impl WriteJson for Examples {
    ghost json = { examples_data };

    fn to_json(&self, alloc: Global) -> Result<Value, AllocError> {
        let value = block_value(alloc, self)?;
        with_optional(alloc, value, "tableHeader", &self.table)
    }
}

impl WriteJson for Scenario {
    ghost json = { scenario_data };

    fn to_json(&self, alloc: Global) -> Result<Value, AllocError> {
        let mut members = Map::new(alloc);
        add_text(
            &mut members,
            alloc,
            "description",
            self.description.as_str(),
        )?;
        add_list(&mut members, alloc, "examples", self.examples.as_slice())?;
        add(&mut members, alloc, "id", &self.node)?;
        add_text(&mut members, alloc, "keyword", self.keyword.as_str())?;
        add(&mut members, alloc, "location", &self.location)?;
        add_text(&mut members, alloc, "name", self.name.as_str())?;
        add_list(&mut members, alloc, "steps", self.steps.as_slice())?;
        add_list(&mut members, alloc, "tags", self.tags.as_slice())?;
        Ok(Value::Object(members))
    }
}

/// A background among the children of a feature or a rule.
fn background_child(alloc: Global, background: &Background) -> Result<Value, AllocError>
    ensures { IfOk result (λ v. view v ≡ background_child_data background.now) }
{
    let value = background.to_json(alloc)?;
    one_member(alloc, "background", value)
}

/// A scenario among the children of a feature or a rule.
fn scenario_child(alloc: Global, scenario: &Scenario) -> Result<Value, AllocError>
    ensures { IfOk result (λ v. view v ≡ scenario_child_data scenario.now) }
{
    let value = scenario.to_json(alloc)?;
    one_member(alloc, "scenario", value)
}

/// A rule among the children of a feature.
fn rule_child(alloc: Global, rule: &Rule) -> Result<Value, AllocError>
    ensures { IfOk result (λ v. view v ≡ rule_child_data rule.now) }
{
    let value = rule.to_json(alloc)?;
    one_member(alloc, "rule", value)
}

/// A background and the scenarios after it.
fn children(
    alloc: Global,
    background: &Option<Background>,
    scenarios: &[Scenario],
) -> Result<Vec<Value>, AllocError>
    ensures { IfOk result
        (λ values. map view values.items ≡ children_data background.now scenarios.now) }
{
    let mut values = Vec::new(alloc);
    if let Some(background) = background {
        let value = background_child(alloc, background)?;
        values.push(value)?;
    }
    for scenario in scenarios {
        let value = scenario_child(alloc, scenario)?;
        values.push(value)?;
    }
    Ok(values)
}

impl WriteJson for Rule {
    ghost json = { rule_data };

    fn to_json(&self, alloc: Global) -> Result<Value, AllocError> {
        let values = children(alloc, &self.background, self.scenarios.as_slice())?;
        let mut members = Map::new(alloc);
        put(&mut members, alloc, "children", Value::Array(values))?;
        add_text(
            &mut members,
            alloc,
            "description",
            self.description.as_str(),
        )?;
        add(&mut members, alloc, "id", &self.node)?;
        add_text(&mut members, alloc, "keyword", self.keyword.as_str())?;
        add(&mut members, alloc, "location", &self.location)?;
        add_text(&mut members, alloc, "name", self.name.as_str())?;
        add_list(&mut members, alloc, "tags", self.tags.as_slice())?;
        Ok(Value::Object(members))
    }
}

/// Adds the rules of a feature.
fn add_rules(alloc: Global, rules: &[Rule], values: &mut Vec<Value>) -> Result<(), AllocError>
    ensures { OnOk result (map view values.new.items
        ≡ map view values.old.items ++ map rule_child_data rules.now) }
{
    for rule in rules {
        let value = rule_child(alloc, rule)?;
        values.push(value)?;
    }
    Ok(())
}

impl WriteJson for Feature {
    ghost json = { feature_data };

    fn to_json(&self, alloc: Global) -> Result<Value, AllocError> {
        let mut values = children(alloc, &self.background, self.scenarios.as_slice())?;
        add_rules(alloc, self.rules.as_slice(), &mut values)?;
        let mut members = Map::new(alloc);
        put(&mut members, alloc, "children", Value::Array(values))?;
        add_text(
            &mut members,
            alloc,
            "description",
            self.description.as_str(),
        )?;
        add_text(&mut members, alloc, "keyword", self.keyword.as_str())?;
        add_text(&mut members, alloc, "language", self.language.as_str())?;
        add(&mut members, alloc, "location", &self.location)?;
        add_text(&mut members, alloc, "name", self.name.as_str())?;
        add_list(&mut members, alloc, "tags", self.tags.as_slice())?;
        Ok(Value::Object(members))
    }
}

/// The envelope of a document, whose nodes have their numbers as ids. Its members are those of Cucumber Messages'
/// `GherkinDocument.json`, in the byte order of their names. `feature`, `tableHeader`, `dataTable`, `docString` and
/// `mediaType` are absent where there is none.
///
/// # Errors
/// Only where there is no memory for the value.
#[tactic(auto, unfolding(cm_messages::specs::DocumentLayout::document_data))]
pub fn document_value(alloc: Global, uri: &str, document: &Document) -> Result<Value, AllocError>
    ensures { IfOk result (λ v. view v ≡ document_data uri.now document.now) }
{
    let mut members = Map::new(alloc);
    add_list(
        &mut members,
        alloc,
        "comments",
        document.comments.as_slice(),
    )?;
    add_text(&mut members, alloc, "uri", uri)?;
    add_optional(&mut members, alloc, "feature", &document.feature)?;
    one_member(alloc, "gherkinDocument", Value::Object(members))
}

/// The envelope of a source, with the text as given. Its members are those of Cucumber Messages' `Source.json`, in the
/// byte order of their names.
///
/// # Errors
/// Only where there is no memory for the value.
#[tactic(auto, unfolding(cm_messages::specs::SourceLayout::source_data))]
pub fn source_value(alloc: Global, uri: &str, text: &str) -> Result<Value, AllocError>
    ensures { IfOk result (λ v. view v ≡ source_data uri.now text.now) }
{
    let mut members = Map::new(alloc);
    add_text(&mut members, alloc, "data", text)?;
    add_text(
        &mut members,
        alloc,
        "mediaType",
        "text/x.cucumber.gherkin+plain",
    )?;
    add_text(&mut members, alloc, "uri", uri)?;
    one_member(alloc, "source", Value::Object(members))
}
