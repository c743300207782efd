//! The tree of a feature file, as `gherkin.berp` and the Messages' `gherkinDocument` have it.
ghost use Rattle.std.specs.Prelude.{◌≡◌};
ghost use Rattle.gk_document.specs.Fences.{fence_characters};
ghost use Rattle.gk_document.specs.MediaType.{unless_empty};

use crate::sequence::Sequence;
use crate::text::Text;

/// Where a node begins: its line from 1, and the column of its keyword, `@`, `|` or fence in Unicode scalar values from 1.
#[derive(Clone, Copy, Debug, PartialEq, Eq)]
pub struct Location {
    pub line: u32,
    pub column: u32,
}

/// A tag, its name with the `@`.
#[derive(Drop)]
pub struct Tag {
    pub node: u64,
    pub location: Location,
    pub name: Text,
}

/// A cell of a table row.
#[derive(Clone, Drop)]
pub struct Cell {
    /// The cell's text, with the characters that its escapes mean.
    pub value: Text,
    /// Where the cell's text begins, or its closing bar where that is empty.
    pub column: u32,
}

/// A row of a data table or of an examples table.
#[derive(Drop)]
pub struct Row {
    pub node: u64,
    pub location: Location,
    pub cells: Sequence<Cell>,
}

/// What encloses a doc string.
#[derive(Clone, Copy, PartialEq, Eq, Debug)]
pub enum Fence {
    /// `"""`.
    Quotes,
    /// Three backticks.
    Backticks,
}

impl Fence {
    /// The three characters of the fence.
    pub fn characters(self) -> &'static str
        ensures { result.now ≡ fence_characters self }
    {
        match self {
            Fence::Quotes => "\"\"\"",
            Fence::Backticks => "```",
        }
    }
}

/// A doc string. An empty media type is none, as [`media_type`] has it.
#[derive(Drop)]
pub struct DocString {
    pub location: Location,
    pub media: Option<Text>,
    pub content: Text,
    pub fence: Fence,
}

/// The media type that a fence or a member gives by this text: none where the text is empty. It takes no memory.
pub fn media_type(text: Text) -> Option<Text>
    ensures { result ≡ unless_empty text }
{
    if text.is_empty() { None } else { Some(text) }
}

/// What is below a step: a data table, or a doc string.
#[derive(Drop)]
pub enum Argument {
    Table(Sequence<Row>),
    Text(DocString),
}

/// What a step keyword says of its step.
///
/// Source: Cucumber Messages, `StepKeywordType`.
#[derive(Clone, Copy, PartialEq, Eq, Debug)]
pub enum KeywordType {
    /// `*`.
    Unknown,
    /// `Given`.
    Context,
    /// `When`.
    Action,
    /// `Then`.
    Outcome,
    /// `And`, `But`.
    Conjunction,
}

/// A step, its keyword with the space that ends it.
#[derive(Drop)]
pub struct Step {
    pub node: u64,
    pub location: Location,
    pub keyword: Text,
    pub kind: KeywordType,
    pub text: Text,
    pub argument: Option<Argument>,
}

/// Steps that are run before those of each scenario.
#[derive(Drop)]
pub struct Background {
    pub node: u64,
    pub location: Location,
    pub keyword: Text,
    pub name: Text,
    pub description: Text,
    pub steps: Sequence<Step>,
}

/// The table of an examples block.
#[derive(Drop)]
pub struct ExampleTable {
    pub header: Row,
    pub body: Sequence<Row>,
}

/// An examples block of a scenario.
#[derive(Drop)]
pub struct Examples {
    pub node: u64,
    pub location: Location,
    pub tags: Sequence<Tag>,
    pub keyword: Text,
    pub name: Text,
    pub description: Text,
    pub table: Option<ExampleTable>,
}

/// A scenario, or a scenario outline where it has examples blocks.
#[derive(Drop)]
pub struct Scenario {
    pub node: u64,
    pub location: Location,
    pub tags: Sequence<Tag>,
    pub keyword: Text,
    pub name: Text,
    pub description: Text,
    pub steps: Sequence<Step>,
    pub examples: Sequence<Examples>,
}

/// A rule with its background and scenarios.
#[derive(Drop)]
pub struct Rule {
    pub node: u64,
    pub location: Location,
    pub tags: Sequence<Tag>,
    pub keyword: Text,
    pub name: Text,
    pub description: Text,
    pub background: Option<Background>,
    pub scenarios: Sequence<Scenario>,
}

/// The feature of a document.
#[derive(Drop)]
pub struct Feature {
    pub location: Location,
    pub tags: Sequence<Tag>,
    pub language: Text,
    pub keyword: Text,
    pub name: Text,
    pub description: Text,
    pub background: Option<Background>,
    pub scenarios: Sequence<Scenario>,
    pub rules: Sequence<Rule>,
}

/// A comment line: the whole line with its indent, at column 1.
#[derive(Drop)]
pub struct Comment {
    pub location: Location,
    pub text: Text,
}

/// The tree of a feature file.
#[derive(Drop)]
pub struct Document {
    /// None where the file has only comments and blank lines.
    pub feature: Option<Feature>,
    /// The comments in the order of their lines.
    pub comments: Sequence<Comment>,
    /// How many nodes have a number: rules, backgrounds, scenarios, examples blocks, steps, rows and tags.
    pub nodes: u64,
}
