//! How a feature's tree is read, member by member, with the ids of its nodes.
ghost use Rattle.std.specs.Prelude.{◌≡◌, [], codes};
ghost use Rattle.serde_json.specs.View.{view, items_view};
ghost use Rattle.cm_envelope.specs.Member.{all_items, required_in};
ghost use Rattle.cm_reading.specs.Giving.{GivesMember, GivesMemberOf};
ghost use Rattle.cm_reading.specs.Members.{value_of, as_named};
ghost use Rattle.cm_envelope.specs.Documents.{node_in, optional_node_in, each_node, children_of, background_in, rank_of as rank_of_child, are_in_order as children_are_in_order, ordered_children, as_line, location, cell, doc_string, mark_in, title_in, tag, row, data_table, argument_of, argument_in, heading_in, step, background, is_empty, is_object, table_of_rows, body_rows_in, example_table_in, tagged_heading_in, examples, scenario, body, rule_node, feature_heading_in, feature_body_in, feature, gherkin_document};
ghost use Rattle.cm_reading.specs.Giving.{GivesNode};

use crate::fault::MemberFault;
use crate::member::{
    Member, ReadNode, ReadObject, four_members, look_up, member_node_number, member_nodes,
    node_in_member, present, three_members, two_members,
};
use cm_envelope::{
    Body, DataTable, FeatureBody, FeatureHeading, GherkinDocument, Heading, Mark, NodeId,
    TaggedHeading, Title,
};
use gk_document::{
    Argument, Background, Cell, DocString, Document, ExampleTable, Examples, Feature, Fence,
    KeywordType, Location, Row, Rule, Scenario, Sequence, Step, Tag, Text,
};
use serde_json::Value;
use std::alloc::Global;

/// The children of one kind.
fn children<T: ReadNode + Drop>(
    alloc: Global,
    values: &[Value],
    name: &'static str,
    ids: &mut Sequence<NodeId>,
) -> Result<Sequence<T>, MemberFault>
    ensures { GivesNode result ids.new
        (each_node (node_in name.now T.reads) ids.old
        (children_of name.now (items_view values.now))) }
{
    let mut nodes = Sequence::new(alloc);
    for value in values {
        if let Some(child) = present(value, name) {
            let node = node_in_member(alloc, child, name, ids)?;
            nodes.push(node)?;
        }
    }
    Ok(nodes)
}

/// The background, which is the first child where there is one.
fn first_background(
    alloc: Global,
    children: &[Value],
    ids: &mut Sequence<NodeId>,
) -> Result<Option<Background>, MemberFault>
    ensures { GivesNode result ids.new
        (optional_node_in background (codes "background") ids.old
        (background_in (items_view children.now))) }
{
    match children {
        [first, ..] => look_up(first, "background").optional_node(alloc, ids),
        [] => Ok(None),
    }
}

/// A child's place in the order of children, where it has exactly one kind.
fn rank_of(child: &Value, in_feature: bool) -> Option<u8>
    ensures { result ≡ rank_of_child in_feature (view child.now) }
{
    let (background, scenario, rule) = three_members(child, "background", "scenario", "rule");
    let is_rule = in_feature && rule.is_present();
    match (background.is_present(), scenario.is_present(), is_rule) {
        (true, false, false) => Some(0),
        (false, true, false) => Some(1),
        (false, false, true) => Some(2),
        _ => None,
    }
}

/// Whether each child has exactly one kind, and a background comes first, rules last.
fn children_are_in_order(children: &[Value], in_feature: bool) -> bool
    ensures { result ≡ children_are_in_order in_feature 0 (items_view children.now) }
{
    let mut least = 0;
    for child in children {
        match rank_of(child, in_feature) {
            Some(rank) if least <= rank => least = rank.max(1),
            _ => return false,
        }
    }
    true
}

/// The children, once each has its kind and they are in order.
fn children_in<'v>(member: Member<'v>, in_feature: bool) -> Result<&'v [Value], MemberFault>
    ensures { GivesMemberOf (λ values. items_view values.now) result
        (ordered_children in_feature (as_named member.entry)) }
{
    let children = member.items()?;
    if !children_are_in_order(children, in_feature) {
        return Err(MemberFault::Bad(member.name));
    }
    Ok(children)
}

/// The line that the member has to be: a whole number from 1 below 2^32.
fn location_line(member: Member<'_>) -> Result<u32, MemberFault>
    ensures { GivesMember result
        (required_in as_line member.entry.name.now (value_of member.entry)) }
{
    match member.value.and_then(Value::as_u64) {
        Some(line) if 0 < line && line < 1 << 32 => Ok(line as u32),
        _ => Err(MemberFault::Bad(member.name)),
    }
}

impl ReadObject for Location {
    ghost reads = { location };

    fn read(_alloc: Global, object: &Value) -> Result<Location, MemberFault> {
        Ok(Location {
            line: location_line(look_up(object, "line"))?,
            column: 0,
        })
    }
}

impl ReadObject for Cell {
    ghost reads = { cell };

    fn read(alloc: Global, object: &Value) -> Result<Cell, MemberFault> {
        Ok(Cell {
            value: look_up(object, "value").text(alloc)?,
            column: 0,
        })
    }
}

impl ReadObject for DocString {
    ghost reads = { doc_string };

    fn read(alloc: Global, object: &Value) -> Result<DocString, MemberFault> {
        let (location, content, media_type) = three_members(
            object,
            "location",
            "content",
            "mediaType",
        );
        let location = location.nested(alloc)?;
        let content = content.text(alloc)?;
        let media = media_type.media_type(alloc)?;
        Ok(DocString {
            location,
            media,
            content,
            fence: Fence::Quotes,
        })
    }
}

/// The id and the location of a node.
fn read_tag_parts(alloc: Global, id: Member<'_>, location: Member<'_>) -> Result<Mark, MemberFault>
    ensures { GivesMember result (mark_in (as_named id.entry) (as_named location.entry)) }
{
    Ok(Mark {
        id: id.node_id(alloc)?,
        location: location.nested(alloc)?,
    })
}

impl ReadNode for Tag {
    ghost reads = { tag };

    fn read(alloc: Global, object: &Value, ids: &mut Sequence<NodeId>) -> Result<Tag, MemberFault> {
        let (id, location, name) = three_members(object, "id", "location", "name");
        let mark = read_tag_parts(alloc, id, location)?;
        let name = name.text(alloc)?;
        Ok(Tag {
            node: member_node_number(mark.id, ids)?,
            location: mark.location,
            name,
        })
    }
}

impl ReadNode for Row {
    ghost reads = { row };

    fn read(alloc: Global, object: &Value, ids: &mut Sequence<NodeId>) -> Result<Row, MemberFault> {
        let (id, location, cells) = three_members(object, "id", "location", "cells");
        let mark = read_tag_parts(alloc, id, location)?;
        let cells = cells.list_of(alloc)?;
        Ok(Row {
            node: member_node_number(mark.id, ids)?,
            location: mark.location,
            cells,
        })
    }
}

/// The keyword of a node, and its name or text.
fn read_title(alloc: Global, keyword: Member<'_>, text: Member<'_>) -> Result<Title, MemberFault>
    ensures { GivesMember result (title_in (as_named keyword.entry) (as_named text.entry)) }
{
    Ok(Title {
        keyword: keyword.text(alloc)?,
        text: text.text(alloc)?,
    })
}

/// What a step or a background begins with; the id is appended.
fn read_heading(
    alloc: Global,
    id: Member<'_>,
    location: Member<'_>,
    keyword: Member<'_>,
    text: Member<'_>,
    ids: &mut Sequence<NodeId>,
) -> Result<Heading, MemberFault>
    ensures { GivesNode result ids.new (heading_in (as_named id.entry) (as_named location.entry)
        (as_named keyword.entry) (as_named text.entry) ids.old) }
{
    let mark = read_tag_parts(alloc, id, location)?;
    let title = read_title(alloc, keyword, text)?;
    Ok(Heading {
        node: member_node_number(mark.id, ids)?,
        location: mark.location,
        title,
    })
}

/// What an examples block, a scenario or a rule begins with; the ids of its tags are appended, then its own.
fn read_tagged_heading(
    alloc: Global,
    id: Member<'_>,
    location: Member<'_>,
    tags: Member<'_>,
    keyword: Member<'_>,
    name: Member<'_>,
    ids: &mut Sequence<NodeId>,
) -> Result<TaggedHeading, MemberFault>
    ensures { GivesNode result ids.new (tagged_heading_in (as_named id.entry)
        (as_named location.entry) (as_named tags.entry) (as_named keyword.entry)
        (as_named name.entry) ids.old) }
{
    let mark = read_tag_parts(alloc, id, location)?;
    let tags = tags.nodes_of(alloc, ids)?;
    let title = read_title(alloc, keyword, name)?;
    Ok(TaggedHeading {
        node: member_node_number(mark.id, ids)?,
        location: mark.location,
        tags,
        title,
    })
}

impl ReadNode for DataTable {
    ghost reads = { data_table };

    fn read(
        alloc: Global,
        object: &Value,
        ids: &mut Sequence<NodeId>,
    ) -> Result<DataTable, MemberFault> {
        Ok(DataTable {
            rows: look_up(object, "rows").nodes_of(alloc, ids)?,
        })
    }
}

/// The argument of a step that has this table, or else this doc string.
fn step_argument_of(table: Option<DataTable>, text: Option<DocString>) -> Option<Argument>
    ensures { result ≡ argument_of table text }
{
    match table {
        Some(table) => Some(Argument::Table(table.rows)),
        None => match text {
            Some(text) => Some(Argument::Text(text)),
            None => None,
        },
    }
}

/// The argument of a step, which can't have both a table and a doc string.
fn read_step_argument(
    alloc: Global,
    data_table: Member<'_>,
    doc_string: Member<'_>,
    ids: &mut Sequence<NodeId>,
) -> Result<Option<Argument>, MemberFault>
    ensures { GivesNode result ids.new
        (argument_in (as_named data_table.entry) (as_named doc_string.entry) ids.old) }
{
    let table = data_table.optional_node(alloc, ids)?;
    if data_table.is_present() && doc_string.is_present() {
        return Err(MemberFault::Bad(doc_string.name));
    }
    let content = doc_string.optional_nested(alloc)?;
    Ok(step_argument_of(table, content))
}

impl ReadNode for Step {
    ghost reads = { step };

    fn read(
        alloc: Global,
        object: &Value,
        ids: &mut Sequence<NodeId>,
    ) -> Result<Step, MemberFault> {
        let (id, location, keyword) = three_members(object, "id", "location", "keyword");
        let (text, data_table, doc_string) = three_members(
            object,
            "text",
            "dataTable",
            "docString",
        );
        let heading = read_heading(alloc, id, location, keyword, text, ids)?;
        let argument = read_step_argument(alloc, data_table, doc_string, ids)?;
        Ok(Step {
            node: heading.node,
            location: heading.location,
            keyword: heading.title.keyword,
            kind: KeywordType::Unknown,
            text: heading.title.text,
            argument,
        })
    }
}

impl ReadNode for Background {
    ghost reads = { background };

    fn read(
        alloc: Global,
        object: &Value,
        ids: &mut Sequence<NodeId>,
    ) -> Result<Background, MemberFault> {
        let (id, location, keyword) = three_members(object, "id", "location", "keyword");
        let (name, steps) = two_members(object, "name", "steps");
        let heading = read_heading(alloc, id, location, keyword, name, ids)?;
        let steps = steps.nodes_of(alloc, ids)?;
        Ok(Background {
            node: heading.node,
            location: heading.location,
            keyword: heading.title.keyword,
            name: heading.title.text,
            description: no_document_text(alloc),
            steps,
        })
    }
}

/// The text of what isn't judged. It takes no memory.
fn no_document_text(alloc: Global) -> Text
    ensures { result ≡ [] }
{
    Text::from(String::new(alloc))
}

/// Whether there is no item.
fn document_is_empty(values: &[Value]) -> bool
    ensures { result ≡ is_empty (items_view values.now) }
{
    match values {
        [] => true,
        [_, ..] => false,
    }
}

/// Whether each item is an object.
fn rows_are_objects(values: &[Value]) -> bool
    ensures { result ≡ all_items is_object (items_view values.now) }
{
    for value in values {
        if !value.is_object() {
            return false;
        }
    }
    true
}

/// The table of a header and a body; none where there is no header.
fn table_of_rows(header: Option<Row>, body: Sequence<Row>) -> Option<ExampleTable>
    ensures { result ≡ table_of_rows header body }
{
    match header {
        Some(header) => Some(ExampleTable { header, body }),
        None => None,
    }
}

/// The rows of a table's body: each is an object, and a body that isn't empty needs a header.
fn body_rows<'v>(member: Member<'v>, has_header: bool) -> Result<&'v [Value], MemberFault>
    ensures { GivesMemberOf (λ values. items_view values.now) result
        (body_rows_in has_header (as_named member.entry)) }
{
    let rows = member.items()?;
    if !rows_are_objects(rows) {
        return Err(MemberFault::Bad(member.name));
    }
    if !has_header && !document_is_empty(rows) {
        return Err(MemberFault::Bad(member.name));
    }
    Ok(rows)
}

/// The table of an examples block, if it has one.
fn example_table(
    alloc: Global,
    header: Member<'_>,
    body: Member<'_>,
    ids: &mut Sequence<NodeId>,
) -> Result<Option<ExampleTable>, MemberFault>
    ensures { GivesNode result ids.new
        (example_table_in (as_named header.entry) (as_named body.entry) ids.old) }
{
    let header = header.optional_node(alloc, ids)?;
    let rows = body_rows(body, header.is_some())?;
    let body = member_nodes(alloc, rows, body.name, ids)?;
    Ok(table_of_rows(header, body))
}

impl ReadNode for Examples {
    ghost reads = { examples };

    fn read(
        alloc: Global,
        object: &Value,
        ids: &mut Sequence<NodeId>,
    ) -> Result<Examples, MemberFault> {
        let (id, location, tags, keyword) = four_members(
            object, "id", "location", "tags", "keyword",
        );
        let (name, header, body) = three_members(object, "name", "tableHeader", "tableBody");
        let heading = read_tagged_heading(alloc, id, location, tags, keyword, name, ids)?;
        let table = example_table(alloc, header, body, ids)?;
        Ok(Examples {
            node: heading.node,
            location: heading.location,
            tags: heading.tags,
            keyword: heading.title.keyword,
            name: heading.title.text,
            description: no_document_text(alloc),
            table,
        })
    }
}

impl ReadNode for Scenario {
    ghost reads = { scenario };

    fn read(
        alloc: Global,
        object: &Value,
        ids: &mut Sequence<NodeId>,
    ) -> Result<Scenario, MemberFault> {
        let (id, location, tags, keyword) = four_members(
            object, "id", "location", "tags", "keyword",
        );
        let (name, steps, examples) = three_members(object, "name", "steps", "examples");
        let heading = read_tagged_heading(alloc, id, location, tags, keyword, name, ids)?;
        let steps = steps.nodes_of(alloc, ids)?;
        let examples = examples.nodes_of(alloc, ids)?;
        Ok(Scenario {
            node: heading.node,
            location: heading.location,
            tags: heading.tags,
            keyword: heading.title.keyword,
            name: heading.title.text,
            description: no_document_text(alloc),
            steps,
            examples,
        })
    }
}

/// The background and the scenarios among the children of a feature or a rule.
fn read_scenario_body(
    alloc: Global,
    members: &[Value],
    ids: &mut Sequence<NodeId>,
) -> Result<Body, MemberFault>
    ensures { GivesNode result ids.new (body ids.old (items_view members.now)) }
{
    Ok(Body {
        background: first_background(alloc, members, ids)?,
        scenarios: children(alloc, members, "scenario", ids)?,
    })
}

impl ReadNode for Rule {
    ghost reads = { rule_node };

    fn read(
        alloc: Global,
        object: &Value,
        ids: &mut Sequence<NodeId>,
    ) -> Result<Rule, MemberFault> {
        let (id, location, tags) = three_members(object, "id", "location", "tags");
        let (keyword, name, children) = three_members(object, "keyword", "name", "children");
        let heading = read_tagged_heading(alloc, id, location, tags, keyword, name, ids)?;
        let children = children_in(children, false)?;
        let body = read_scenario_body(alloc, children, ids)?;
        Ok(Rule {
            node: heading.node,
            location: heading.location,
            tags: heading.tags,
            keyword: heading.title.keyword,
            name: heading.title.text,
            description: no_document_text(alloc),
            background: body.background,
            scenarios: body.scenarios,
        })
    }
}

/// What a feature begins with; the ids of its tags are appended.
fn read_feature_heading(
    alloc: Global,
    location: Member<'_>,
    tags: Member<'_>,
    language: Member<'_>,
    keyword: Member<'_>,
    name: Member<'_>,
    ids: &mut Sequence<NodeId>,
) -> Result<FeatureHeading, MemberFault>
    ensures { GivesNode result ids.new (feature_heading_in (as_named location.entry)
        (as_named tags.entry) (as_named language.entry) (as_named keyword.entry)
        (as_named name.entry) ids.old) }
{
    Ok(FeatureHeading {
        location: location.nested(alloc)?,
        tags: tags.nodes_of(alloc, ids)?,
        language: language.text(alloc)?,
        title: read_title(alloc, keyword, name)?,
    })
}

/// The children of a feature, in the order background, scenarios, rules.
fn read_feature_body(
    alloc: Global,
    member: Member<'_>,
    ids: &mut Sequence<NodeId>,
) -> Result<FeatureBody, MemberFault>
    ensures { GivesNode result ids.new (feature_body_in (as_named member.entry) ids.old) }
{
    let values = children_in(member, true)?;
    Ok(FeatureBody {
        body: read_scenario_body(alloc, values, ids)?,
        rules: children(alloc, values, "rule", ids)?,
    })
}

impl ReadNode for Feature {
    ghost reads = { feature };

    fn read(
        alloc: Global,
        object: &Value,
        ids: &mut Sequence<NodeId>,
    ) -> Result<Feature, MemberFault> {
        let (location, tags, language) = three_members(object, "location", "tags", "language");
        let (keyword, name, children) = three_members(object, "keyword", "name", "children");
        let heading = read_feature_heading(alloc, location, tags, language, keyword, name, ids)?;
        let children = read_feature_body(alloc, children, ids)?;
        Ok(Feature {
            location: heading.location,
            tags: heading.tags,
            language: heading.language,
            keyword: heading.title.keyword,
            name: heading.title.text,
            description: no_document_text(alloc),
            background: children.body.background,
            scenarios: children.body.scenarios,
            rules: children.rules,
        })
    }
}

impl ReadObject for GherkinDocument {
    ghost reads = { gherkin_document };

    #[inline(never)]
    fn read(alloc: Global, object: &Value) -> Result<GherkinDocument, MemberFault> {
        let (uri, feature) = two_members(object, "uri", "feature");
        let uri = uri.text(alloc)?;
        let mut ids = Sequence::new(alloc);
        let feature = feature.optional_node(alloc, &mut ids)?;
        let nodes = ids.len() as u64;
        Ok(GherkinDocument {
            uri,
            document: Document {
                feature,
                comments: Sequence::new(alloc),
                nodes,
            },
            ids,
        })
    }
}
