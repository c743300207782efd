//! The parts of a document.
ghost use Rattle.std.specs.Prelude.{◌≡◌, ◌++◌, ◌∷◌, [], map, IfOk, OnOk, ◌↔◌, IsTrue, ◌≤◌, Some, IfSome, MatchOption, length, option_map};
ghost use Rattle.std.specs.Prelude.{take};
ghost use Rattle.std.specs.List.{flat_map};
ghost use Rattle.std.specs.Option.{option_to_list, IsNone};
ghost use Rattle.gk_parts.specs.Parts.{Part as PartSeen, StepPart, RowPart, part_view, background_parts, table_parts, examples_parts};
ghost use Rattle.gk_parts.specs.Parts.{scenario_parts, children_parts, rule_parts, feature_parts, parts as all_parts, part_alone};
ghost use Rattle.gk_parts.specs.Parts.{FeaturePart, RulePart, BackgroundPart, ScenarioPart, ExamplesPart, part_view_alone, parts_alone};
ghost use Rattle.gk_document.specs.Skeleton.{skeleton};
ghost use Rattle.gk_parts.specs.FirstDifference.{HasNext, IsFirstDifference};
ghost use Rattle.gk_parts.specs.Laws.{PartsShowSkeleton, OneFirstDifference, EqualHaveNoDifference};

use gk_document::{
    Background, Bare, Document, ExampleTable, Examples, Feature, Row, Rule, Scenario, Step,
    are_like,
};
use std::alloc::{AllocError, Global};

/// A part of a document, with what is inside it.
#[derive(Clone, Copy)]
pub enum Part<'a> {
    Feature(&'a Feature),
    Rule(&'a Rule),
    Background(&'a Background),
    Scenario(&'a Scenario),
    Step(&'a Step),
    Examples(&'a Examples),
    /// The header of an examples table.
    Header(&'a Row),
    /// A row below the header.
    Row(&'a Row),
}

/// Adds one part.
fn add<'a>(part: Part<'a>, made: &mut Vec<Part<'a>>) -> Result<(), AllocError>
    ensures { OnOk result
        (map part_view made.new.items ≡ map part_view made.old.items ++ part_view part.entry ∷ []) }
{
    Ok(made.push(part)?)
}

/// Adds steps.
fn add_steps<'a>(steps: &'a [Step], made: &mut Vec<Part<'a>>) -> Result<(), AllocError>
    ensures { OnOk result
        (map part_view made.new.items ≡ map part_view made.old.items ++ map StepPart steps.now) }
{
    for step in steps {
        add(Part::Step(step), made)?;
    }
    Ok(())
}

/// Adds the rows below a header.
fn add_rows<'a>(rows: &'a [Row], made: &mut Vec<Part<'a>>) -> Result<(), AllocError>
    ensures { OnOk result
        (map part_view made.new.items ≡ map part_view made.old.items ++ map RowPart rows.now) }
{
    for row in rows {
        add(Part::Row(row), made)?;
    }
    Ok(())
}

/// Adds a background, where there is one, and its steps.
fn add_background<'a>(
    background: &'a Option<Background>,
    made: &mut Vec<Part<'a>>,
) -> Result<(), AllocError>
    ensures { OnOk result
        (map part_view made.new.items
        ≡ map part_view made.old.items
        ++ flat_map background_parts (option_to_list background.now)) }
{
    if let Some(background) = background {
        add(Part::Background(background), made)?;
        add_steps(background.steps.as_slice(), made)?;
    }
    Ok(())
}

/// Adds the rows of an examples table, where there is one.
fn add_table<'a>(
    table: &'a Option<ExampleTable>,
    made: &mut Vec<Part<'a>>,
) -> Result<(), AllocError>
    ensures { OnOk result
        (map part_view made.new.items
        ≡ map part_view made.old.items ++ flat_map table_parts (option_to_list table.now)) }
{
    if let Some(table) = table {
        add(Part::Header(&table.header), made)?;
        add_rows(table.body.as_slice(), made)?;
    }
    Ok(())
}

/// Adds an examples block and its table.
fn add_examples<'a>(examples: &'a Examples, made: &mut Vec<Part<'a>>) -> Result<(), AllocError>
    ensures { OnOk result
        (map part_view made.new.items
        ≡ map part_view made.old.items ++ examples_parts examples.now) }
{
    add(Part::Examples(examples), made)?;
    add_table(&examples.table, made)
}

/// Adds examples blocks.
fn add_blocks<'a>(blocks: &'a [Examples], made: &mut Vec<Part<'a>>) -> Result<(), AllocError>
    ensures { OnOk result
        (map part_view made.new.items
        ≡ map part_view made.old.items ++ flat_map examples_parts blocks.now) }
{
    for block in blocks {
        add_examples(block, made)?;
    }
    Ok(())
}

/// Adds a scenario, its steps and its examples blocks.
fn add_scenario<'a>(scenario: &'a Scenario, made: &mut Vec<Part<'a>>) -> Result<(), AllocError>
    ensures { OnOk result
        (map part_view made.new.items
        ≡ map part_view made.old.items ++ scenario_parts scenario.now) }
{
    add(Part::Scenario(scenario), made)?;
    add_steps(scenario.steps.as_slice(), made)?;
    add_blocks(scenario.examples.as_slice(), made)
}

/// Adds scenarios.
fn add_scenarios<'a>(scenarios: &'a [Scenario], made: &mut Vec<Part<'a>>) -> Result<(), AllocError>
    ensures { OnOk result
        (map part_view made.new.items
        ≡ map part_view made.old.items ++ flat_map scenario_parts scenarios.now) }
{
    for scenario in scenarios {
        add_scenario(scenario, made)?;
    }
    Ok(())
}

/// Adds a rule, its background and its scenarios.
fn add_rule<'a>(rule: &'a Rule, made: &mut Vec<Part<'a>>) -> Result<(), AllocError>
    ensures { OnOk result
        (map part_view made.new.items ≡ map part_view made.old.items ++ rule_parts rule.now) }
{
    add(Part::Rule(rule), made)?;
    add_background(&rule.background, made)?;
    add_scenarios(rule.scenarios.as_slice(), made)
}

/// Adds rules.
fn add_rules<'a>(rules: &'a [Rule], made: &mut Vec<Part<'a>>) -> Result<(), AllocError>
    ensures { OnOk result
        (map part_view made.new.items
        ≡ map part_view made.old.items ++ flat_map rule_parts rules.now) }
{
    for rule in rules {
        add_rule(rule, made)?;
    }
    Ok(())
}

/// Adds a feature, its background, its scenarios and its rules.
fn add_feature<'a>(feature: &'a Feature, made: &mut Vec<Part<'a>>) -> Result<(), AllocError>
    ensures { OnOk result
        (map part_view made.new.items ≡ map part_view made.old.items ++ feature_parts feature.now) }
{
    add(Part::Feature(feature), made)?;
    add_background(&feature.background, made)?;
    add_scenarios(feature.scenarios.as_slice(), made)?;
    add_rules(feature.rules.as_slice(), made)
}

/// The parts of a document in the order of its tree, each before what is inside it: the feature,
/// its background, its scenarios, then its rules. None where there is no feature.
///
/// # Errors
/// Only where there is no memory for the list.
pub fn parts(alloc: Global, document: &Document) -> Result<Vec<Part<'_>>, AllocError>
    ensures { IfOk result (λ made. map part_view made.items ≡ all_parts document.now) }
{
    let mut made = Vec::new(alloc);
    if let Some(feature) = &document.feature {
        add_feature(feature, &mut made)?;
    }
    Ok(made)
}

/// Whether the features are alike, each alone.
fn same_feature(a: &Feature, b: &Feature) -> bool
    ensures { IsTrue result ↔ (part_alone (FeaturePart a.now) ≡ part_alone (FeaturePart b.now)) }
{
    a.location.line == b.location.line
        && are_like(a.tags.as_slice(), b.tags.as_slice())
        && a.language == b.language
        && a.keyword == b.keyword
        && a.name == b.name
}

/// Whether the rules are alike, each alone.
fn same_rule(a: &Rule, b: &Rule) -> bool
    ensures { IsTrue result ↔ (part_alone (RulePart a.now) ≡ part_alone (RulePart b.now)) }
{
    a.location.line == b.location.line
        && are_like(a.tags.as_slice(), b.tags.as_slice())
        && a.keyword == b.keyword
        && a.name == b.name
}

/// Whether the backgrounds are alike, each alone.
fn same_background(a: &Background, b: &Background) -> bool
    ensures { IsTrue result
        ↔ (part_alone (BackgroundPart a.now) ≡ part_alone (BackgroundPart b.now)) }
{
    a.location.line == b.location.line && a.keyword == b.keyword && a.name == b.name
}

/// Whether the scenarios are alike, each alone.
fn same_scenario(a: &Scenario, b: &Scenario) -> bool
    ensures { IsTrue result ↔ (part_alone (ScenarioPart a.now) ≡ part_alone (ScenarioPart b.now)) }
{
    a.location.line == b.location.line
        && are_like(a.tags.as_slice(), b.tags.as_slice())
        && a.keyword == b.keyword
        && a.name == b.name
}

/// Whether the examples blocks are alike, each alone.
fn same_examples(a: &Examples, b: &Examples) -> bool
    ensures { IsTrue result ↔ (part_alone (ExamplesPart a.now) ≡ part_alone (ExamplesPart b.now)) }
{
    a.location.line == b.location.line
        && are_like(a.tags.as_slice(), b.tags.as_slice())
        && a.keyword == b.keyword
        && a.name == b.name
}

impl<'a> Part<'a> {
    /// Whether two parts are alike, each alone: of one kind, with equal lines, languages, keywords,
    /// names, tags, texts, arguments and cells. It takes no memory.
    ///
    /// The parts inside a part are not compared, nor are node numbers, columns, descriptions,
    /// fences and keyword types.
    pub fn is_like(&self, other: &Part<'_>) -> bool
        ensures { IsTrue result
            ↔ (part_alone (part_view self.now) ≡ part_alone (part_view other.now)) }
    {
        match (self, other) {
            (Part::Feature(a), Part::Feature(b)) => same_feature(a, b),
            (Part::Rule(a), Part::Rule(b)) => same_rule(a, b),
            (Part::Background(a), Part::Background(b)) => same_background(a, b),
            (Part::Scenario(a), Part::Scenario(b)) => same_scenario(a, b),
            (Part::Step(a), Part::Step(b)) => a.is_like(b),
            (Part::Examples(a), Part::Examples(b)) => same_examples(a, b),
            (Part::Header(a), Part::Header(b)) => a.is_like(b),
            (Part::Row(a), Part::Row(b)) => a.is_like(b),
            _ => false,
        }
    }
}

/// Where two documents first differ: at most one of the two has no part there.
#[derive(Clone, Copy)]
pub struct FirstDifference<'a> {
    pub expected: Option<Part<'a>>,
    pub found: Option<Part<'a>>,
}

/// The part at a place, or none at the end.
fn part_at<'a>(listed: &[Part<'a>], place: usize) -> Option<Part<'a>>
    requires { place ≤ length listed.now }
    ensures { HasNext (map part_view_alone (take place listed.now)) (map part_view_alone listed.now)
        (option_map part_view_alone result) }
{
    if place < listed.len() {
        Some(listed[place])
    } else {
        None
    }
}

/// Whether there is a part like this one.
fn is_like(part: &Part<'_>, other: &Option<Part<'_>>) -> bool
    ensures { IsTrue result
        ↔ (Some (part_view_alone part.now) ≡ option_map part_view_alone other.now) }
{
    match other {
        Some(other) => part.is_like(other),
        None => false,
    }
}

/// Where two lists of parts first differ.
fn first_unlike<'a>(expected: &[Part<'a>], found: &[Part<'a>]) -> Option<FirstDifference<'a>>
    ensures { MatchOption result (map part_view_alone expected.now ≡ map part_view_alone found.now)
        (λ d. IsFirstDifference (map part_view_alone expected.now) (map part_view_alone found.now)
        (option_map part_view_alone d.expected) (option_map part_view_alone d.found)) }
{
    for (i, part) in expected.iter().enumerate() {
        let other = part_at(found, i);
        if !is_like(part, &other) {
            return Some(FirstDifference {
                expected: Some(*part),
                found: other,
            });
        }
    }
    match part_at(found, expected.len()) {
        Some(part) => Some(FirstDifference {
            expected: None,
            found: Some(part),
        }),
        None => None,
    }
}

/// The first part in which two documents differ, each part alone as [`Part::is_like`] compares it;
/// none where the documents have one skeleton.
///
/// # Errors
/// Only where there is no memory for the lists of their parts.
pub fn first_difference<'a>(
    alloc: Global,
    expected: &'a Document,
    found: &'a Document,
) -> Result<Option<FirstDifference<'a>>, AllocError>
    ensures none { IfOk result
        (λ d. IsNone d ↔ (skeleton expected.now ≡ skeleton found.now)) }
    ensures first { IfOk result
        (λ d. IfSome d (λ d. IsFirstDifference (parts_alone expected.now) (parts_alone found.now)
        (option_map part_view_alone d.expected) (option_map part_view_alone d.found))) }
{
    let expected = parts(alloc, expected)?;
    let found = parts(alloc, found)?;
    Ok(first_unlike(&expected, &found))
}

/// Documents have the same parts, each alone, exactly where they have one skeleton.
pub fn parts_law()
    ensures { PartsShowSkeleton }
{}

/// Two lists of parts first differ at one place, and only where they are not equal.
pub fn difference_law()
    ensures one { OneFirstDifference }
    ensures unequal { EqualHaveNoDifference }
{}
