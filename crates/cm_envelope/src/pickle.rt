//! A pickle of the stream (Messages: Pickle and its parts).
use gk_document::{Sequence, Text};

/// A scenario that is ready to be run.
#[derive(Drop)]
pub struct Pickle {
    pub id: Text,
    pub uri: Text,
    pub name: Text,
    pub language: Text,
    /// The scenario, and the examples row where it has one.
    pub ast_node_ids: Sequence<Text>,
    pub tags: Sequence<PickleTag>,
    pub steps: Sequence<PickleStep>,
}

/// A tag of a pickle, its name with the `@`.
#[derive(Drop)]
pub struct PickleTag {
    pub name: Text,
    pub ast_node_id: Text,
}

/// A step of a pickle.
#[derive(Drop)]
pub struct PickleStep {
    pub id: Text,
    pub text: Text,
    /// The member `type`.
    pub kind: Option<StepKind>,
    pub ast_node_ids: Sequence<Text>,
    pub argument: Option<PickleArgument>,
}

/// The type of a step, as the schema `PickleStepType` has it.
#[derive(Clone, Copy, Debug, PartialEq, Eq, Drop)]
pub enum StepKind {
    Unknown,
    Context,
    Action,
    Outcome,
}

/// The data table or doc string below a step.
#[derive(Drop)]
pub enum PickleArgument {
    Table(PickleTable),
    Text(PickleDocString),
}

#[derive(Drop)]
pub struct PickleTable {
    pub rows: Sequence<PickleRow>,
}

#[derive(Drop)]
pub struct PickleRow {
    pub cells: Sequence<PickleCell>,
}

#[derive(Drop)]
pub struct PickleCell {
    pub value: Text,
}

/// A doc string. An empty media type is none.
#[derive(Drop)]
pub struct PickleDocString {
    pub content: Text,
    pub media_type: Option<Text>,
}
