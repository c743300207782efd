//! The types of lines and of what they read as. Columns count Unicode scalar values from 1.

use gk_document::{Fence, KeywordType};

/// A line of a feature file, without its line end.
#[derive(Clone, Copy)]
pub struct Line<'a> {
    /// The line's number, counted from 1.
    pub number: u32,
    /// The characters of the line.
    pub text: &'a str,
}

/// The parts of a feature that begin with a title line.
///
/// Source: `gherkin.berp`, `FeatureLine`, `RuleLine`, `BackgroundLine`, `ScenarioLine` and `ExamplesLine`.
#[derive(Clone, Copy, PartialEq, Eq, Debug)]
pub enum Block {
    /// `Feature`, `Business Need`, `Ability`.
    Feature,
    /// `Rule`.
    Rule,
    /// `Background`.
    Background,
    /// `Example`, `Scenario`, `Scenario Outline`, `Scenario Template`.
    Scenario,
    /// `Examples`, `Scenarios`.
    Examples,
}

/// The title line of a block.
#[derive(Clone, Copy)]
pub struct Title<'a> {
    /// The keyword, without its colon.
    pub keyword: &'a str,
    /// What follows the colon, without white space at both ends.
    pub name: &'a str,
    /// Where the keyword begins.
    pub column: u32,
}

/// The line of a step.
#[derive(Clone, Copy)]
pub struct StepLine<'a> {
    /// The keyword, with the space that ends it.
    pub keyword: &'a str,
    pub kind: KeywordType,
    /// What follows the keyword, without white space at both ends.
    pub text: &'a str,
    /// Where the keyword begins.
    pub column: u32,
}

/// A line that may open or close a doc string.
#[derive(Clone, Copy)]
pub struct FenceLine<'a> {
    pub fence: Fence,
    /// The media type, without white space at both ends; it may be empty.
    pub media: &'a str,
    /// Where the fence begins.
    pub column: u32,
}
