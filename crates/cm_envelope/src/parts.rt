//! What a tree and a pickle are read by: the parts of their objects that are read together.
use crate::node_id::NodeId;
use crate::pickle::{PickleStep, PickleTag};
use gk_document::{Background, Location, Row, Rule, Scenario, Sequence, Tag, Text};

/// What a node that has an id begins with.
#[derive(Drop)]
pub struct Mark {
    pub id: NodeId,
    pub location: Location,
}

/// The words that a node begins with.
#[derive(Drop)]
pub struct Title {
    pub keyword: Text,
    /// A node's name, or a step's text.
    pub text: Text,
}

/// What a step and a background begin with.
#[derive(Drop)]
pub struct Heading {
    pub node: u64,
    pub location: Location,
    pub title: Title,
}

/// What an examples block, a scenario and a rule begin with.
#[derive(Drop)]
pub struct TaggedHeading {
    pub node: u64,
    pub location: Location,
    pub tags: Sequence<Tag>,
    pub title: Title,
}

/// The table of a step.
#[derive(Drop)]
pub struct DataTable {
    pub rows: Sequence<Row>,
}

/// The background and the scenarios of a feature or a rule.
#[derive(Drop)]
pub struct Body {
    pub background: Option<Background>,
    pub scenarios: Sequence<Scenario>,
}

/// What a feature begins with, which has no id.
#[derive(Drop)]
pub struct FeatureHeading {
    pub location: Location,
    pub tags: Sequence<Tag>,
    pub language: Text,
    pub title: Title,
}

/// The children of a feature, by kind.
#[derive(Drop)]
pub struct FeatureBody {
    pub body: Body,
    pub rules: Sequence<Rule>,
}

/// The texts of a pickle.
#[derive(Drop)]
pub struct PickleTexts {
    pub id: Text,
    pub uri: Text,
    pub name: Text,
    pub language: Text,
}

/// The lists of a pickle.
#[derive(Drop)]
pub struct PickleLists {
    pub ast_node_ids: Sequence<Text>,
    pub tags: Sequence<PickleTag>,
    pub steps: Sequence<PickleStep>,
}
