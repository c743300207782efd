//! The envelope of a document.
ghost use Rattle.std.specs.Prelude.{◌≡◌, ◌+◌, ◌++◌, [], map, codes, OnOk};
ghost use Rattle.serde.specs.Event.{WritesEach};
ghost use Rattle.serde_json.specs.Data.{array, string};
ghost use Rattle.serde_json.specs.View.{items_of};
ghost use Rattle.serde_json.specs.Events.{SendsValue};
ghost use Rattle.gk_document.specs.ExampleRows.{table_rows_of};
ghost use Rattle.cm_messages.specs.Layout.{list_data};
ghost use Rattle.gk_document.specs.Fences.{fence_characters};
ghost use Rattle.cm_messages.specs.DocumentLayout.{location_data, cell_data, row_data, tag_data, comment_data, doc_string_data, table_place, table_data, keyword_word, argument_table, argument_doc_string, step_data, background_data, examples_data, scenario_data, rule_child, children_data, rule_data, feature_data, document_data};
ghost use Rattle.cm_messages.specs.Sending.{SendsMember, SendsOptional};

use crate::send::{
    MessageLayout, SendJson, media_of, one_if, send_each_only, send_list, send_list_member,
    send_media, send_member, send_number, send_only, send_optional, send_str, send_text,
};
use gk_document::{
    Argument, Background, Cell, Comment, DocString, Document, ExampleTable, Examples, Feature,
    Fence, KeywordType, Location, Row, Rule, Scenario, Sequence, Step, Tag,
};
use serde::Serializer;

impl SendJson<MessageLayout> for Location {
    ghost json = { location_data };

    fn send<S: Serializer>(&self, out: &mut S) -> Result<(), S::Error> {
        out.begin_map(Some(2))?;
        send_number("column", self.column, out)?;
        send_number("line", self.line, out)?;
        out.end_map()
    }
}

/// A cell of a row on this line.
fn send_document_cell<S: Serializer>(cell: &Cell, line: u32, out: &mut S) -> Result<(), S::Error>
    ensures { OnOk result (SendsValue (cell_data line cell.now)
        (S.written out.old) (S.written out.new)) }
{
    let column = cell.column;
    let place = Location { line, column };
    out.begin_map(Some(2))?;
    send_member("location", &place, out)?;
    send_text("value", &cell.value, out)?;
    out.end_map()
}

/// The cells of a row on this line, one after the other.
fn send_document_cells<S: Serializer>(
    cells: &[Cell],
    line: u32,
    out: &mut S,
) -> Result<(), S::Error>
    ensures { OnOk result (WritesEach SendsValue (map (cell_data line) cells.now)
        (S.written out.old) (S.written out.new)) }
{
    'cells: for cell in cells {
        send_document_cell(cell, line, out)?;
    }
    Ok(())
}

/// The cells of a row on this line, as an array.
fn send_document_cells_list<S: Serializer>(
    cells: &[Cell],
    line: u32,
    out: &mut S,
) -> Result<(), S::Error>
    ensures { OnOk result (SendsValue (list_data (cell_data line) cells.now)
        (S.written out.old) (S.written out.new)) }
{
    let count = cells.len();
    out.begin_seq(Some(count))?;
    send_document_cells(cells, line, out)?;
    out.end_seq()
}

/// The member `cells` of a row on this line.
fn send_document_cells_member<S: Serializer>(
    cells: &Sequence<Cell>,
    line: u32,
    out: &mut S,
) -> Result<(), S::Error>
    ensures { OnOk result (SendsMember (codes "cells") (list_data (cell_data line) cells.now)
        (S.written out.old) (S.written out.new)) }
{
    out.key("cells")?;
    send_document_cells_list(cells.as_slice(), line, out)
}

impl SendJson<MessageLayout> for Row {
    ghost json = { row_data };

    fn send<S: Serializer>(&self, out: &mut S) -> Result<(), S::Error> {
        out.begin_map(Some(3))?;
        send_document_cells_member(&self.cells, self.location.line, out)?;
        send_member("id", &self.node, out)?;
        send_member("location", &self.location, out)?;
        out.end_map()
    }
}

impl SendJson<MessageLayout> for Tag {
    ghost json = { tag_data };

    fn send<S: Serializer>(&self, out: &mut S) -> Result<(), S::Error> {
        out.begin_map(Some(3))?;
        send_member("id", &self.node, out)?;
        send_member("location", &self.location, out)?;
        send_text("name", &self.name, out)?;
        out.end_map()
    }
}

impl SendJson<MessageLayout> for Comment {
    ghost json = { comment_data };

    fn send<S: Serializer>(&self, out: &mut S) -> Result<(), S::Error> {
        out.begin_map(Some(2))?;
        send_member("location", &self.location, out)?;
        send_text("text", &self.text, out)?;
        out.end_map()
    }
}

/// The member `delimiter` of a doc string.
fn send_delimiter<S: Serializer>(fence: Fence, out: &mut S) -> Result<(), S::Error>
    ensures { OnOk result (SendsMember (codes "delimiter") (string (fence_characters fence))
        (S.written out.old) (S.written out.new)) }
{
    send_str("delimiter", fence.characters(), out)
}

impl SendJson<MessageLayout> for DocString {
    ghost json = { doc_string_data };

    fn send<S: Serializer>(&self, out: &mut S) -> Result<(), S::Error> {
        let count = one_if(&media_of(&self.media));
        out.begin_map(Some(3 + count))?;
        send_text("content", &self.content, out)?;
        send_delimiter(self.fence, out)?;
        send_member("location", &self.location, out)?;
        send_media(&self.media, out)?;
        out.end_map()
    }
}

/// The place of a data table: its first row's, or else its step's.
pub fn place_of_table(place: Location, rows: &[Row]) -> Location
    ensures { result ≡ table_place place rows.now }
{
    match rows {
        [first, ..] => first.location,
        [] => place,
    }
}

/// The member `location` of a table.
fn send_table_place<S: Serializer>(
    place: Location,
    rows: &Sequence<Row>,
    out: &mut S,
) -> Result<(), S::Error>
    ensures { OnOk result
        (SendsMember (codes "location") (location_data (table_place place rows.now))
        (S.written out.old) (S.written out.new)) }
{
    let place = place_of_table(place, rows.as_slice());
    send_member("location", &place, out)
}

/// The table of a step that is at this place.
#[derive(Clone, Copy)]
struct DataTable<'a> {
    place: Location,
    rows: &'a Sequence<Row>,
}

impl SendJson<MessageLayout> for DataTable<'_> {
    ghost json = { λ t. table_data t.place t.rows.now };

    fn send<S: Serializer>(&self, out: &mut S) -> Result<(), S::Error> {
        out.begin_map(Some(2))?;
        send_table_place(self.place, self.rows, out)?;
        send_list_member("rows", self.rows, out)?;
        out.end_map()
    }
}

/// How a keyword's type is written, as the member `keywordType` has it.
pub fn keyword_type_name(kind: KeywordType) -> &'static str
    ensures { result.now ≡ keyword_word kind }
{
    match kind {
        KeywordType::Unknown => "Unknown",
        KeywordType::Context => "Context",
        KeywordType::Action => "Action",
        KeywordType::Outcome => "Outcome",
        KeywordType::Conjunction => "Conjunction",
    }
}

/// The member `keywordType` of a step.
fn send_keyword_type<S: Serializer>(kind: KeywordType, out: &mut S) -> Result<(), S::Error>
    ensures { OnOk result (SendsMember (codes "keywordType") (string (keyword_word kind))
        (S.written out.old) (S.written out.new)) }
{
    send_str("keywordType", keyword_type_name(kind), out)
}

/// The member `dataTable`, where a table is below the step at this place.
fn send_data_table<S: Serializer>(
    place: Location,
    argument: &Option<Argument>,
    out: &mut S,
) -> Result<(), S::Error>
    ensures { OnOk result (SendsOptional (codes "dataTable") (argument_table place argument.now)
        (S.written out.old) (S.written out.new)) }
{
    match argument {
        Some(Argument::Table(rows)) => send_member("dataTable", &DataTable { place, rows }, out),
        Some(Argument::Text(_)) => Ok(()),
        None => Ok(()),
    }
}

/// The member `docString`, where a doc string is below the step.
fn send_doc_string<S: Serializer>(argument: &Option<Argument>, out: &mut S) -> Result<(), S::Error>
    ensures { OnOk result (SendsOptional (codes "docString") (argument_doc_string argument.now)
        (S.written out.old) (S.written out.new)) }
{
    match argument {
        Some(Argument::Text(doc_string)) => send_member("docString", doc_string, out),
        Some(Argument::Table(_)) => Ok(()),
        None => Ok(()),
    }
}

impl SendJson<MessageLayout> for Step {
    ghost json = { step_data };

    fn send<S: Serializer>(&self, out: &mut S) -> Result<(), S::Error> {
        let count = one_if(&self.argument);
        out.begin_map(Some(5 + count))?;
        send_data_table(self.location, &self.argument, out)?;
        send_doc_string(&self.argument, out)?;
        send_member("id", &self.node, out)?;
        send_text("keyword", &self.keyword, out)?;
        send_keyword_type(self.kind, out)?;
        send_member("location", &self.location, out)?;
        send_text("text", &self.text, out)?;
        out.end_map()
    }
}

impl SendJson<MessageLayout> for Background {
    ghost json = { background_data };

    fn send<S: Serializer>(&self, out: &mut S) -> Result<(), S::Error> {
        out.begin_map(Some(6))?;
        send_text("description", &self.description, out)?;
        send_member("id", &self.node, out)?;
        send_text("keyword", &self.keyword, out)?;
        send_member("location", &self.location, out)?;
        send_text("name", &self.name, out)?;
        send_list_member("steps", &self.steps, out)?;
        out.end_map()
    }
}

impl SendJson<MessageLayout> for ExampleTable {
    ghost json = { λ t. row_data t.header };

    fn send<S: Serializer>(&self, out: &mut S) -> Result<(), S::Error> {
        self.header.send(out)
    }
}

/// The member `tableBody` of a block, which has no rows where it has no table.
fn send_body<S: Serializer>(table: &Option<ExampleTable>, out: &mut S) -> Result<(), S::Error>
    ensures { OnOk result (SendsMember (codes "tableBody")
        (list_data row_data (table_rows_of table.now)) (S.written out.old) (S.written out.new)) }
{
    out.key("tableBody")?;
    send_list(body_rows(table), out)
}

/// The body rows of a block.
fn body_rows(table: &Option<ExampleTable>) -> &[Row]
    ensures { result.now ≡ table_rows_of table.now }
{
    match table {
        Some(table) => table.body.as_slice(),
        None => &[],
    }
}

impl SendJson<MessageLayout> for Examples {
    ghost json = { examples_data };

    fn send<S: Serializer>(&self, out: &mut S) -> Result<(), S::Error> {
        let count = one_if(&self.table);
        out.begin_map(Some(7 + count))?;
        send_text("description", &self.description, out)?;
        send_member("id", &self.node, out)?;
        send_text("keyword", &self.keyword, out)?;
        send_member("location", &self.location, out)?;
        send_text("name", &self.name, out)?;
        send_body(&self.table, out)?;
        send_optional("tableHeader", &self.table, out)?;
        send_list_member("tags", &self.tags, out)?;
        out.end_map()
    }
}

impl SendJson<MessageLayout> for Scenario {
    ghost json = { scenario_data };

    fn send<S: Serializer>(&self, out: &mut S) -> Result<(), S::Error> {
        out.begin_map(Some(8))?;
        send_text("description", &self.description, out)?;
        send_list_member("examples", &self.examples, out)?;
        send_member("id", &self.node, out)?;
        send_text("keyword", &self.keyword, out)?;
        send_member("location", &self.location, out)?;
        send_text("name", &self.name, out)?;
        send_list_member("steps", &self.steps, out)?;
        send_list_member("tags", &self.tags, out)?;
        out.end_map()
    }
}

/// A background and the scenarios after it, one after the other.
fn send_children<S: Serializer>(
    background: &Option<Background>,
    scenarios: &[Scenario],
    out: &mut S,
) -> Result<(), S::Error>
    ensures { OnOk result (WritesEach SendsValue (children_data background.now scenarios.now)
        (S.written out.old) (S.written out.new)) }
{
    if let Some(background) = background {
        send_only("background", background, out)?;
    }
    send_each_only("scenario", scenarios, out)
}

/// A background and the scenarios after it, as an array.
fn send_children_list<S: Serializer>(
    background: &Option<Background>,
    scenarios: &[Scenario],
    out: &mut S,
) -> Result<(), S::Error>
    ensures { OnOk result
        (SendsValue (array (items_of (children_data background.now scenarios.now)))
        (S.written out.old) (S.written out.new)) }
{
    let backgrounds = one_if(background);
    let count = scenarios.len();
    out.begin_seq(Some(backgrounds + count))?;
    send_children(background, scenarios, out)?;
    out.end_seq()
}

/// The member `children` of a rule.
fn send_rule_children<S: Serializer>(rule: &Rule, out: &mut S) -> Result<(), S::Error>
    ensures { OnOk result (SendsMember (codes "children")
        (array (items_of (children_data rule.now.background rule.now.scenarios)))
        (S.written out.old) (S.written out.new)) }
{
    out.key("children")?;
    send_children_list(&rule.background, rule.scenarios.as_slice(), out)
}

impl SendJson<MessageLayout> for Rule {
    ghost json = { rule_data };

    fn send<S: Serializer>(&self, out: &mut S) -> Result<(), S::Error> {
        out.begin_map(Some(7))?;
        send_rule_children(self, out)?;
        send_text("description", &self.description, out)?;
        send_member("id", &self.node, out)?;
        send_text("keyword", &self.keyword, out)?;
        send_member("location", &self.location, out)?;
        send_text("name", &self.name, out)?;
        send_list_member("tags", &self.tags, out)?;
        out.end_map()
    }
}

/// A background, the scenarios and the rules after it, as an array.
fn send_all_children<S: Serializer>(
    background: &Option<Background>,
    scenarios: &[Scenario],
    rules: &[Rule],
    out: &mut S,
) -> Result<(), S::Error>
    ensures { OnOk result (SendsValue (array (items_of (children_data background.now scenarios.now
        ++ map rule_child rules.now))) (S.written out.old) (S.written out.new)) }
{
    let backgrounds = one_if(background);
    let count = scenarios.len();
    let rule_count = rules.len();
    out.begin_seq(Some(backgrounds + count + rule_count))?;
    send_children(background, scenarios, out)?;
    send_each_only("rule", rules, out)?;
    out.end_seq()
}

/// The member `children` of a feature.
fn send_feature_children<S: Serializer>(feature: &Feature, out: &mut S) -> Result<(), S::Error>
    ensures { OnOk result (SendsMember (codes "children")
        (array (items_of (children_data feature.now.background feature.now.scenarios
        ++ map rule_child feature.now.rules)))
        (S.written out.old) (S.written out.new)) }
{
    let scenarios = feature.scenarios.as_slice();
    let rules = feature.rules.as_slice();
    out.key("children")?;
    send_all_children(&feature.background, scenarios, rules, out)
}

impl SendJson<MessageLayout> for Feature {
    ghost json = { feature_data };

    fn send<S: Serializer>(&self, out: &mut S) -> Result<(), S::Error> {
        out.begin_map(Some(7))?;
        send_feature_children(self, out)?;
        send_text("description", &self.description, out)?;
        send_text("keyword", &self.keyword, out)?;
        send_text("language", &self.language, out)?;
        send_member("location", &self.location, out)?;
        send_text("name", &self.name, out)?;
        send_list_member("tags", &self.tags, out)?;
        out.end_map()
    }
}

/// A document, written as its envelope, whose nodes have their numbers as ids. Its members are those of Cucumber Messages'
/// `GherkinDocument.json`, in the byte order of their names. `feature`, `tableHeader`, `dataTable`, `docString` and
/// `mediaType` are absent where there is none.
#[derive(Clone, Copy)]
pub(crate) struct DocumentMessage<'a> {
    pub(crate) uri: &'a str,
    pub(crate) document: &'a Document,
}

impl SendJson<MessageLayout> for DocumentMessage<'_> {
    ghost json = { λ m. document_data m.uri.now m.document.now };

    fn send<S: Serializer>(&self, out: &mut S) -> Result<(), S::Error> {
        let count = one_if(&self.document.feature);
        out.begin_map(Some(1))?;
        out.key("gherkinDocument")?;
        out.begin_map(Some(2 + count))?;
        send_list_member("comments", &self.document.comments, out)?;
        send_optional("feature", &self.document.feature, out)?;
        send_str("uri", self.uri, out)?;
        out.end_map()?;
        out.end_map()
    }
}
