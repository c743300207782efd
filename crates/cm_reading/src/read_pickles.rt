//! How a pickle is read, member by member.
ghost use Rattle.std.specs.Prelude.{◌≡◌};
ghost use Rattle.cm_envelope.specs.Member.{optional_in};
ghost use Rattle.cm_reading.specs.Giving.{GivesMember};
ghost use Rattle.cm_reading.specs.Members.{value_of, as_named};
ghost use Rattle.cm_envelope.specs.Pickles.{step_kind_of, as_step_kind, texts_in, lists_in, pickle, pickle_tag, pickle_step, pickle_argument, pickle_argument_of, pickle_table, pickle_row, pickle_cell, pickle_doc_string, pickle_argument_in};

use crate::fault::MemberFault;
use crate::member::{Member, ReadObject, four_members, look_up, three_members, two_members};
use cm_envelope::{
    Pickle, PickleArgument, PickleCell, PickleDocString, PickleLists, PickleRow, PickleStep,
    PickleTable, PickleTag, PickleTexts, StepKind,
};
use gk_document::{Sequence, Text};
use serde_json::Value;
use std::alloc::Global;

/// The type of a step that a word stands for.
fn pickle_step_kind_of(word: &str) -> Option<StepKind>
    ensures { result ≡ step_kind_of word.now }
{
    match word {
        "Unknown" => Some(StepKind::Unknown),
        "Context" => Some(StepKind::Context),
        "Action" => Some(StepKind::Action),
        "Outcome" => Some(StepKind::Outcome),
        _ => None,
    }
}

/// The type of a step, which the member has to be the word of where it is present.
fn optional_pickle_step_kind(member: Member<'_>) -> Result<Option<StepKind>, MemberFault>
    ensures { GivesMember result
        (optional_in as_step_kind member.entry.name.now (value_of member.entry)) }
{
    let Some(value) = member.value else {
        return Ok(None);
    };
    match value.as_str().and_then(pickle_step_kind_of) {
        Some(kind) => Ok(Some(kind)),
        None => Err(MemberFault::Bad(member.name)),
    }
}

impl ReadObject for PickleTag {
    ghost reads = { pickle_tag };

    fn read(alloc: Global, object: &Value) -> Result<PickleTag, MemberFault> {
        let (name, ast_node_id) = two_members(object, "name", "astNodeId");
        Ok(PickleTag {
            name: name.text(alloc)?,
            ast_node_id: ast_node_id.text(alloc)?,
        })
    }
}

impl ReadObject for PickleCell {
    ghost reads = { pickle_cell };

    fn read(alloc: Global, object: &Value) -> Result<PickleCell, MemberFault> {
        Ok(PickleCell {
            value: look_up(object, "value").text(alloc)?,
        })
    }
}

impl ReadObject for PickleRow {
    ghost reads = { pickle_row };

    fn read(alloc: Global, object: &Value) -> Result<PickleRow, MemberFault> {
        Ok(PickleRow {
            cells: look_up(object, "cells").list_of(alloc)?,
        })
    }
}

impl ReadObject for PickleTable {
    ghost reads = { pickle_table };

    fn read(alloc: Global, object: &Value) -> Result<PickleTable, MemberFault> {
        Ok(PickleTable {
            rows: look_up(object, "rows").list_of(alloc)?,
        })
    }
}

impl ReadObject for PickleDocString {
    ghost reads = { pickle_doc_string };

    fn read(alloc: Global, object: &Value) -> Result<PickleDocString, MemberFault> {
        let (content, media_type) = two_members(object, "content", "mediaType");
        Ok(PickleDocString {
            content: content.text(alloc)?,
            media_type: media_type.media_type(alloc)?,
        })
    }
}

/// The argument of a step that has this table, or else this doc string.
fn pickle_argument_of(
    table: Option<PickleTable>,
    text: Option<PickleDocString>,
) -> Option<PickleArgument>
    ensures { result ≡ pickle_argument_of table text }
{
    match table {
        Some(table) => Some(PickleArgument::Table(table)),
        None => match text {
            Some(text) => Some(PickleArgument::Text(text)),
            None => None,
        },
    }
}

impl ReadObject for Option<PickleArgument> {
    ghost reads = { pickle_argument };

    fn read(alloc: Global, object: &Value) -> Result<Option<PickleArgument>, MemberFault> {
        let (data_table, doc_string) = two_members(object, "dataTable", "docString");
        let table = data_table.optional_nested(alloc)?;
        if data_table.is_present() && doc_string.is_present() {
            return Err(MemberFault::Bad("docString"));
        }
        let text = doc_string.optional_nested(alloc)?;
        Ok(pickle_argument_of(table, text))
    }
}

/// The argument of a step; none where the member is absent or has neither a table nor a doc string.
fn read_pickle_argument(
    alloc: Global,
    member: Member<'_>,
) -> Result<Option<PickleArgument>, MemberFault>
    ensures { GivesMember result
        (pickle_argument_in member.entry.name.now (value_of member.entry)) }
{
    match member.optional_nested(alloc)? {
        Some(argument) => Ok(argument),
        None => Ok(None),
    }
}

impl ReadObject for PickleStep {
    ghost reads = { pickle_step };

    fn read(alloc: Global, object: &Value) -> Result<PickleStep, MemberFault> {
        let (id, text, kind) = three_members(object, "id", "text", "type");
        let (ast_node_ids, argument) = two_members(object, "astNodeIds", "argument");
        Ok(PickleStep {
            id: id.text(alloc)?,
            text: text.text(alloc)?,
            kind: optional_pickle_step_kind(kind)?,
            ast_node_ids: ast_node_ids.texts(alloc)?,
            argument: read_pickle_argument(alloc, argument)?,
        })
    }
}

/// The texts of a pickle, each of which has to be there.
fn read_pickle_texts(
    alloc: Global,
    id: Member<'_>,
    uri: Member<'_>,
    name: Member<'_>,
    language: Member<'_>,
) -> Result<PickleTexts, MemberFault>
    ensures { GivesMember result
        (texts_in (as_named id.entry) (as_named uri.entry) (as_named name.entry)
        (as_named language.entry)) }
{
    Ok(PickleTexts {
        id: id.text(alloc)?,
        uri: uri.text(alloc)?,
        name: name.text(alloc)?,
        language: language.text(alloc)?,
    })
}

/// The lists of a pickle. An absent list is empty.
fn read_pickle_lists(
    alloc: Global,
    ast_node_ids: Member<'_>,
    tags: Member<'_>,
    steps: Member<'_>,
) -> Result<PickleLists, MemberFault>
    ensures { GivesMember result
        (lists_in (as_named ast_node_ids.entry) (as_named tags.entry) (as_named steps.entry)) }
{
    Ok(PickleLists {
        ast_node_ids: ast_node_ids.texts(alloc)?,
        tags: tags.list_of(alloc)?,
        steps: steps.list_of(alloc)?,
    })
}

impl ReadObject for Pickle {
    ghost reads = { pickle };

    #[inline(never)]
    fn read(alloc: Global, object: &Value) -> Result<Pickle, MemberFault> {
        let (id, uri, name, language) = four_members(object, "id", "uri", "name", "language");
        let (ast_node_ids, tags, steps) = three_members(object, "astNodeIds", "tags", "steps");
        let texts = read_pickle_texts(alloc, id, uri, name, language)?;
        let lists = read_pickle_lists(alloc, ast_node_ids, tags, steps)?;
        Ok(Pickle {
            id: texts.id,
            uri: texts.uri,
            name: texts.name,
            language: texts.language,
            ast_node_ids: lists.ast_node_ids,
            tags: lists.tags,
            steps: lists.steps,
        })
    }
}
