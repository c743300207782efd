//! Whether two documents have one skeleton.
ghost use Rattle.std.specs.Prelude.{◌≡◌, ◌↔◌, IsTrue, map, option_map};
ghost use Rattle.gk_document.specs.Skeleton.{bare_argument, bare_background, bare_cell, bare_doc_string};
ghost use Rattle.gk_document.specs.Skeleton.{bare_examples, bare_feature, bare_row, bare_rule, bare_scenario};
ghost use Rattle.gk_document.specs.Skeleton.{bare_step, bare_table, bare_tag, skeleton};

use crate::tree::{
    Argument, Background, Cell, DocString, Document, ExampleTable, Examples, Feature, Row, Rule,
    Scenario, Step, Tag,
};

/// A part of a document that can be compared with another of its kind. Node numbers, columns,
/// descriptions, comments, fences and keyword types are not compared.
pub trait Bare {
    // The part without what is not compared.
    ghost bare: { Self → Self };

    /// Whether both are equal, with all that is inside them, without what is not compared. It
    /// takes no memory.
    fn is_like(&self, other: &Self) -> bool
        ensures { IsTrue result ↔ (bare self.now ≡ bare other.now) };
}

/// Whether two lists have equally many parts, each like the other's at its place. It takes no
/// memory.
pub fn are_like<T: Bare>(a: &[T], b: &[T]) -> bool
    ensures { IsTrue result ↔ (map T.bare a.now ≡ map T.bare b.now) }
{
    if a.len() != b.len() {
        return false;
    }
    for (i, x) in a.iter().enumerate() {
        if !x.is_like(&b[i]) {
            return false;
        }
    }
    true
}

/// Whether there are two parts that are alike, or none. It takes no memory.
pub fn both_like<T: Bare>(a: &Option<T>, b: &Option<T>) -> bool
    ensures { IsTrue result ↔ (option_map T.bare a.now ≡ option_map T.bare b.now) }
{
    match (a, b) {
        (Some(x), Some(y)) => x.is_like(y),
        (None, None) => true,
        _ => false,
    }
}

impl Bare for Tag {
    ghost bare = { bare_tag };

    fn is_like(&self, other: &Tag) -> bool {
        self.location.line == other.location.line && self.name == other.name
    }
}

impl Bare for Cell {
    ghost bare = { bare_cell };

    fn is_like(&self, other: &Cell) -> bool {
        self.value == other.value
    }
}

impl Bare for Row {
    ghost bare = { bare_row };

    fn is_like(&self, other: &Row) -> bool {
        self.location.line == other.location.line
            && are_like(self.cells.as_slice(), other.cells.as_slice())
    }
}

impl Bare for DocString {
    ghost bare = { bare_doc_string };

    fn is_like(&self, other: &DocString) -> bool {
        self.location.line == other.location.line
            && self.media == other.media
            && self.content == other.content
    }
}

impl Bare for Argument {
    ghost bare = { bare_argument };

    fn is_like(&self, other: &Argument) -> bool {
        match (self, other) {
            (Argument::Table(a), Argument::Table(b)) => are_like(a.as_slice(), b.as_slice()),
            (Argument::Text(a), Argument::Text(b)) => a.is_like(b),
            _ => false,
        }
    }
}

impl Bare for Step {
    ghost bare = { bare_step };

    fn is_like(&self, other: &Step) -> bool {
        self.location.line == other.location.line
            && self.keyword == other.keyword
            && self.text == other.text
            && both_like(&self.argument, &other.argument)
    }
}

impl Bare for Background {
    ghost bare = { bare_background };

    fn is_like(&self, other: &Background) -> bool {
        self.location.line == other.location.line
            && self.keyword == other.keyword
            && self.name == other.name
            && are_like(self.steps.as_slice(), other.steps.as_slice())
    }
}

impl Bare for ExampleTable {
    ghost bare = { bare_table };

    fn is_like(&self, other: &ExampleTable) -> bool {
        self.header.is_like(&other.header) && are_like(self.body.as_slice(), other.body.as_slice())
    }
}

impl Bare for Examples {
    ghost bare = { bare_examples };

    fn is_like(&self, other: &Examples) -> bool {
        self.location.line == other.location.line
            && are_like(self.tags.as_slice(), other.tags.as_slice())
            && self.keyword == other.keyword
            && self.name == other.name
            && both_like(&self.table, &other.table)
    }
}

impl Bare for Scenario {
    ghost bare = { bare_scenario };

    fn is_like(&self, other: &Scenario) -> bool {
        self.location.line == other.location.line
            && are_like(self.tags.as_slice(), other.tags.as_slice())
            && self.keyword == other.keyword
            && self.name == other.name
            && are_like(self.steps.as_slice(), other.steps.as_slice())
            && are_like(self.examples.as_slice(), other.examples.as_slice())
    }
}

impl Bare for Rule {
    ghost bare = { bare_rule };

    fn is_like(&self, other: &Rule) -> bool {
        self.location.line == other.location.line
            && are_like(self.tags.as_slice(), other.tags.as_slice())
            && self.keyword == other.keyword
            && self.name == other.name
            && both_like(&self.background, &other.background)
            && are_like(self.scenarios.as_slice(), other.scenarios.as_slice())
    }
}

impl Bare for Feature {
    ghost bare = { bare_feature };

    fn is_like(&self, other: &Feature) -> bool {
        self.location.line == other.location.line
            && are_like(self.tags.as_slice(), other.tags.as_slice())
            && self.language == other.language
            && self.keyword == other.keyword
            && self.name == other.name
            && both_like(&self.background, &other.background)
            && are_like(self.scenarios.as_slice(), other.scenarios.as_slice())
            && are_like(self.rules.as_slice(), other.rules.as_slice())
    }
}

/// Whether two documents have one skeleton: equal shape, and equal lines of the feature, of all
/// nodes and of doc strings, language, keywords, names, step texts, tag names, cell values, doc
/// string contents and media types. It takes no memory.
///
/// Node numbers, columns, descriptions, comments, fences and keyword types are not compared.
pub fn same_skeleton(a: &Document, b: &Document) -> bool
    ensures { IsTrue result ↔ (skeleton a.now ≡ skeleton b.now) }
{
    both_like(&a.feature, &b.feature)
}
