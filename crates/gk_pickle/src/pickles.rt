//! The pickles of a document: its scenarios, what they inherit, and their steps.
ghost use Rattle.std.specs.Prelude.{◌≡◌, ◌++◌, ◌∷◌, [], map, Some, IfOk, OnOk, option_map, List};
ghost use Rattle.gk_pickle.specs.Pickles.{pickle_of, table_pickles, scenario_pickles, pickles, pickle_tag, in_feature, in_rule};
ghost use Rattle.gk_pickle.specs.Pickles.{background_steps};
ghost use Rattle.gk_pickle.specs.Scenarios.{pickles_of_one, scenarios_of, scenarios_under, inherited_in};
ghost use Rattle.gk_document.specs.declared.tree.KeywordType.{KeywordType};
ghost use Rattle.gk_pickle.specs.Steps.{type_of, filled_argument, filled_step, steps_after, keyword_types, pickle_steps, filled_by};

use crate::filling::{Columns, Filling, filled_doc_string, filled_rows};
use gk_document::{
    Argument, Background, Document, ExampleTable, Feature, KeywordType, Row, Rule, Scenario,
    Sequence, Step, Tag, Text,
};
use std::alloc::{AllocError, Global};
use std::hash::RandomState;
use std::marker::Model;

/// Adds a pickle for each body row of a table.
fn add_rows(
    alloc: Global,
    seed: RandomState,
    inherited: &Inheritance<'_>,
    scenario: &Scenario,
    tags: &[Tag],
    table: &ExampleTable,
    made: &mut Vec<Pickle>,
) -> Result<(), AllocError>
    ensures { OnOk result
        (made.new.items
        ≡ made.old.items ++ table_pickles inherited.now scenario.now tags.now (Some table.now)) }
{
    let columns = Columns::of(alloc, seed, table.header.cells.as_slice())?;
    let rows = table.body.as_slice();
    let added = add_pickles_of_rows(alloc, inherited, scenario, tags, &columns, rows, made);
    drop(columns);
    added
}

/// Adds a pickle for each of these rows, under the columns of their header.
fn add_pickles_of_rows(
    alloc: Global,
    inherited: &Inheritance<'_>,
    scenario: &Scenario,
    tags: &[Tag],
    columns: &Columns<'_>,
    rows: &[Row],
    made: &mut Vec<Pickle>,
) -> Result<(), AllocError>
    ensures { OnOk result (made.new.items ≡ made.old.items
        ++ map (λ row. pickle_of inherited.now scenario.now tags.now
        (record { header = columns.now; cells = row.cells; rows = row.node ∷ [] })) rows.now) }
{
    for row in rows {
        let filling = Filling::of_row(columns, row);
        let pickle = make_pickle(alloc, inherited, scenario, tags, &filling)?;
        made.push(pickle)?;
    }
    Ok(())
}

/// Adds the pickles of a block's table.
fn add_table(
    alloc: Global,
    seed: RandomState,
    inherited: &Inheritance<'_>,
    scenario: &Scenario,
    tags: &[Tag],
    table: &Option<ExampleTable>,
    made: &mut Vec<Pickle>,
) -> Result<(), AllocError>
    ensures { OnOk result
        (made.new.items
        ≡ made.old.items ++ table_pickles inherited.now scenario.now tags.now table.now) }
{
    match table {
        Some(table) => add_rows(alloc, seed, inherited, scenario, tags, table, made),
        None => Ok(()),
    }
}

/// Adds a scenario's pickles.
fn add_scenario(
    alloc: Global,
    seed: RandomState,
    inherited: &Inheritance<'_>,
    scenario: &Scenario,
    made: &mut Vec<Pickle>,
) -> Result<(), AllocError>
    ensures { OnOk result
        (made.new.items ≡ made.old.items ++ scenario_pickles inherited.now scenario.now) }
{
    let examples = scenario.examples.as_slice();
    if examples.is_empty() {
        let pickle = make_pickle(alloc, inherited, scenario, &[], &Filling::none())?;
        made.push(pickle)?;
        return Ok(());
    }
    for block in examples {
        add_table(
            alloc,
            seed,
            inherited,
            scenario,
            block.tags.as_slice(),
            &block.table,
            made,
        )?;
    }
    Ok(())
}

/// Adds the pickles of a scenario in its feature.
#[tactic(auto, unfolding(crate::specs::Scenarios::pickles_of_one))]
fn add_pickles(
    alloc: Global,
    seed: RandomState,
    scenario: &ScenarioInFeature<'_>,
    made: &mut Vec<Pickle>,
) -> Result<(), AllocError>
    ensures { OnOk result (made.new.items ≡ made.old.items ++ pickles_of_one scenario.now) }
{
    add_scenario(
        alloc,
        seed,
        &Inheritance::of(scenario),
        scenario.scenario,
        made,
    )
}

/// The pickles of one scenario, in order: one where it has no examples blocks, else one for each body row.
/// Only the row's columns that the header has too are filled, so no condition is on the tables.
///
/// Source: Cucumber's Gherkin reference on backgrounds, rules, scenario outlines and tag inheritance.
///
/// # Errors
/// Only where there is no memory for the pickles.
pub fn compile_scenario(
    alloc: Global,
    seed: RandomState,
    scenario: &ScenarioInFeature<'_>,
) -> Result<Vec<Pickle>, AllocError>
    ensures { IfOk result (λ made. made.items ≡ pickles_of_one scenario.now) }
{
    let mut made = Vec::new(alloc);
    add_pickles(alloc, seed, scenario, &mut made)?;
    Ok(made)
}

/// The pickles of a document, in order: one for a scenario without examples blocks, any other one for each body row.
/// Only the row's columns that the header has too are filled, so no condition is on the tables.
///
/// Source: Cucumber's Gherkin reference on backgrounds, rules, scenario outlines and tag inheritance.
///
/// # Errors
/// Only where there is no memory for the pickles.
pub fn compile(
    alloc: Global,
    seed: RandomState,
    document: &Document,
) -> Result<Vec<Pickle>, AllocError>
    ensures { IfOk result (λ made. made.items ≡ pickles document.now) }
{
    let scenarios = scenarios(alloc, document)?;
    let mut pickles = Vec::new(alloc);
    for scenario in scenarios.as_slice() {
        add_pickles(alloc, seed, scenario, &mut pickles)?;
    }
    Ok(pickles)
}

/// Adds what pickles take of tags.
fn add_tags(alloc: Global, tags: &[Tag], made: &mut Vec<PickleTag>) -> Result<(), AllocError>
    ensures { OnOk result (made.new.items ≡ made.old.items ++ map pickle_tag tags.now) }
{
    for tag in tags {
        let name = Text::copy_of(alloc, tag.name.as_str())?;
        made.push(PickleTag {
            name,
            node: tag.node,
        })?;
    }
    Ok(())
}

/// What a pickle takes of the tags of its feature, rule, scenario and examples block.
fn pickle_tags(
    alloc: Global,
    inherited: &Inheritance<'_>,
    scenario_tags: &[Tag],
    block_tags: &[Tag],
) -> Result<Sequence<PickleTag>, AllocError>
    ensures { IfOk result
        (λ made. made
        ≡ map pickle_tag (inherited.now.tags ++ scenario_tags.now ++ block_tags.now)) }
{
    let mut made = Vec::new(alloc);
    add_tags(alloc, inherited.feature_tags, &mut made)?;
    add_tags(alloc, inherited.rule_tags, &mut made)?;
    add_tags(alloc, scenario_tags, &mut made)?;
    add_tags(alloc, block_tags, &mut made)?;
    Ok(Sequence::from(made))
}

/// A scenario's pickle, with the tags of its examples and what fills it.
pub(crate) fn make_pickle(
    alloc: Global,
    inherited: &Inheritance<'_>,
    scenario: &Scenario,
    tags: &[Tag],
    filling: &Filling<'_, '_, '_>,
) -> Result<Pickle, AllocError>
    ensures { IfOk result (λ p. p ≡ pickle_of inherited.now scenario.now tags.now filling.now) }
{
    let PickleTitle { name, nodes } = title(alloc, scenario, filling)?;
    let tags = pickle_tags(alloc, inherited, scenario.tags.as_slice(), tags)?;
    let steps = all_steps(
        alloc,
        inherited.feature_steps,
        inherited.rule_steps,
        filling,
        scenario.steps.as_slice(),
    )?;
    Ok(Pickle {
        name,
        nodes,
        tags,
        steps,
    })
}

/// A scenario, its feature, and its rule where it is in one.
#[derive(Drop)]
pub struct ScenarioInFeature<'a> {
    pub feature: &'a Feature,
    pub rule: Option<&'a Rule>,
    pub scenario: &'a Scenario,
}

impl<'a> Model for ScenarioInFeature<'a> {
    ghost use Rattle.std.specs.Prelude.{option_map};
    ghost use Rattle.gk_pickle.specs.InFeature.{ScenarioInFeature as InFeature};

    ghost Value = { InFeature };

    ghost view = { λ s. record {
      feature = s.feature.now;
      rule = option_map (λ r. r.now) s.rule;
      scenario = s.scenario.now;
    } };
}

/// Adds the scenarios of a feature, or of a rule of it.
fn add_scenarios<'a>(
    feature: &'a Feature,
    rule: Option<&'a Rule>,
    scenarios: &'a [Scenario],
    found: &mut Vec<ScenarioInFeature<'a>>,
) -> Result<(), AllocError>
    ensures { OnOk result
        (found.new.items ≡ found.old.items
        ++ scenarios_under feature.now (option_map (λ r. r.now) rule.entry) scenarios.now) }
{
    for scenario in scenarios {
        found.push(ScenarioInFeature {
            feature,
            rule,
            scenario,
        })?;
    }
    Ok(())
}

/// The scenarios of a document, in order: those that are in the feature itself, then those of each rule.
///
/// # Errors
/// Only where there is no memory for the list of them.
#[tactic(auto, unfolding(crate::specs::Scenarios::scenarios_of))]
pub fn scenarios<'a>(
    alloc: Global,
    document: &'a Document,
) -> Result<Vec<ScenarioInFeature<'a>>, AllocError>
    ensures { IfOk result (λ found. found.items ≡ scenarios_of document.now) }
{
    let mut found = Vec::new(alloc);
    if let Some(feature) = &document.feature {
        add_scenarios(feature, None, feature.scenarios.as_slice(), &mut found)?;
        for rule in feature.rules.as_slice() {
            add_scenarios(feature, Some(rule), rule.scenarios.as_slice(), &mut found)?;
        }
    }
    Ok(found)
}

/// The tags of the feature and the rule, and the steps of their backgrounds.
#[derive(Drop)]
pub(crate) struct Inheritance<'a> {
    pub feature_tags: &'a [Tag],
    pub rule_tags: &'a [Tag],
    pub feature_steps: &'a [Step],
    pub rule_steps: &'a [Step],
}

impl<'a> Model for Inheritance<'a> {
    ghost use Rattle.std.specs.Prelude.{◌++◌};
    ghost use Rattle.gk_pickle.specs.Inheritance.{Inheritance as InheritedParts};

    ghost Value = { InheritedParts };

    ghost view = { λ a. record {
      tags = a.feature_tags.now ++ a.rule_tags.now;
      steps = a.feature_steps.now ++ a.rule_steps.now;
    } };
}

impl<'a> Inheritance<'a> {
    /// Of a scenario that is in the feature itself.
    fn in_feature(feature: &'a Feature) -> Inheritance<'a>
        ensures { result ≡ in_feature feature.now }
    {
        Inheritance {
            feature_tags: feature.tags.as_slice(),
            rule_tags: &[],
            feature_steps: steps_of(&feature.background),
            rule_steps: &[],
        }
    }

    /// Of a scenario that is in a rule.
    fn in_rule(feature: &'a Feature, rule: &'a Rule) -> Inheritance<'a>
        ensures { result ≡ in_rule feature.now rule.now }
    {
        Inheritance {
            feature_tags: feature.tags.as_slice(),
            rule_tags: rule.tags.as_slice(),
            feature_steps: steps_of(&feature.background),
            rule_steps: steps_of(&rule.background),
        }
    }

    /// Of a scenario.
    pub(crate) fn of(scenario: &ScenarioInFeature<'a>) -> Inheritance<'a>
        ensures { result ≡ inherited_in scenario.now.feature scenario.now.rule }
    {
        match scenario.rule {
            Some(rule) => Inheritance::in_rule(scenario.feature, rule),
            None => Inheritance::in_feature(scenario.feature),
        }
    }
}

/// The type of a step with this keyword, after a step of type `before`.
fn type_after(keyword: KeywordType, before: StepType) -> StepType
    ensures { (earlier : List KeywordType) → before ≡ type_of earlier
        → result ≡ type_of (earlier ++ keyword ∷ []) }
{
    match keyword {
        KeywordType::Unknown => StepType::Unknown,
        KeywordType::Context => StepType::Context,
        KeywordType::Action => StepType::Action,
        KeywordType::Outcome => StepType::Outcome,
        KeywordType::Conjunction => before,
    }
}

/// What is below a step, filled.
fn argument(
    alloc: Global,
    filling: &Filling<'_, '_, '_>,
    argument: &Option<Argument>,
) -> Result<Option<PickleArgument>, AllocError>
    ensures { IfOk result (λ o. o ≡ option_map (filled_argument filling.now) argument.now) }
{
    match argument {
        None => Ok(None),
        Some(Argument::Table(rows)) => {
            let table = filled_rows(alloc, filling, rows.as_slice())?;
            Ok(Some(PickleArgument::Table(table)))
        }
        Some(Argument::Text(doc_string)) => {
            Ok(Some(filled_doc_string(alloc, filling, doc_string)?))
        }
    }
}

/// A step of a pickle.
fn pickle_step(
    alloc: Global,
    filling: &Filling<'_, '_, '_>,
    kind: StepType,
    step: &Step,
) -> Result<PickleStep, AllocError>
    ensures { IfOk result (λ s. s ≡ filled_step filling.now kind step.now) }
{
    let text = filling.text(alloc, step.text.as_str())?;
    let nodes = filling.nodes(alloc, step.node)?;
    let argument = argument(alloc, filling, &step.argument)?;
    Ok(PickleStep {
        text,
        kind,
        nodes,
        argument,
    })
}

/// Adds steps that come after one of type `before`. Gives the type of the last one.
fn add_steps(
    alloc: Global,
    filling: &Filling<'_, '_, '_>,
    before: StepType,
    steps: &[Step],
    made: &mut Vec<PickleStep>,
) -> Result<StepType, AllocError>
    ensures made { OnOk result ((earlier : List KeywordType) → before ≡ type_of earlier
        → made.new.items ≡ made.old.items ++ steps_after earlier filling.now steps.now) }
    ensures last { IfOk result (λ t. (earlier : List KeywordType) → before ≡ type_of earlier
        → t ≡ type_of (earlier ++ keyword_types steps.now)) }
{
    let mut last = before;
    for step in steps {
        last = type_after(step.kind, last);
        let step = pickle_step(alloc, filling, last, step)?;
        made.push(step)?;
    }
    Ok(last)
}

/// The backgrounds' steps and then the scenario's own; none where the scenario has none.
fn all_steps(
    alloc: Global,
    feature_steps: &[Step],
    rule_steps: &[Step],
    filling: &Filling<'_, '_, '_>,
    steps: &[Step],
) -> Result<Sequence<PickleStep>, AllocError>
    ensures { IfOk result
        (λ made. made ≡ pickle_steps (feature_steps.now ++ rule_steps.now) filling.now steps.now) }
{
    if steps.is_empty() {
        return Ok(Sequence::new(alloc));
    }
    let mut made = Vec::new(alloc);
    let nothing = Filling::none();
    let last = add_steps(alloc, &nothing, StepType::Unknown, feature_steps, &mut made)?;
    let last = add_steps(alloc, &nothing, last, rule_steps, &mut made)?;
    add_steps(alloc, filling, last, steps, &mut made)?;
    Ok(Sequence::from(made))
}

/// The steps of a background, where there is one.
fn steps_of(background: &Option<Background>) -> &[Step]
    ensures { result.now ≡ background_steps background.now }
{
    match background {
        Some(background) => background.steps.as_slice(),
        None => &[],
    }
}

/// The type of a pickle's step. A conjunction has taken that of the step before it.
#[derive(Clone, Copy, Debug, PartialEq, Eq)]
pub enum StepType {
    Unknown,
    Context,
    Action,
    Outcome,
}

/// A tag that a pickle takes from the document, its name with the `@`, and the tag's node.
#[derive(Drop)]
pub struct PickleTag {
    pub name: Text,
    pub node: u64,
}

/// A doc string after filling. An empty media type is none, as [`media_type`](gk_document::media_type) has it.
#[derive(Drop)]
pub struct PickleDocString {
    pub media: Option<Text>,
    pub content: Text,
}

/// What is below a step, after filling: the rows of a table with the values of their cells, or a doc string.
#[derive(Drop)]
pub enum PickleArgument {
    Table(Sequence<Sequence<Text>>),
    Text(PickleDocString),
}

/// A step of a pickle. It names its step, and the row that fills it where it is an outline's own.
#[derive(Drop)]
pub struct PickleStep {
    pub text: Text,
    pub kind: StepType,
    pub nodes: Sequence<u64>,
    pub argument: Option<PickleArgument>,
}

/// What a pickle is called, and the nodes that it is made of: its `name` and its `nodes`.
#[derive(Drop)]
pub struct PickleTitle {
    pub name: Text,
    pub nodes: Sequence<u64>,
}

/// One scenario to run. It names the scenario, and the row that fills it where it is of an outline.
#[derive(Drop)]
pub struct Pickle {
    pub name: Text,
    pub nodes: Sequence<u64>,
    pub tags: Sequence<PickleTag>,
    pub steps: Sequence<PickleStep>,
}

/// What a scenario's pickle is called, and its nodes, with what fills it.
pub(crate) fn title(
    alloc: Global,
    scenario: &Scenario,
    filling: &Filling<'_, '_, '_>,
) -> Result<PickleTitle, AllocError>
    ensures { IfOk result (λ title. title ≡ record {
      name = filled_by filling.now scenario.now.name;
      nodes = scenario.now.node ∷ filling.now.rows;
    }) }
{
    let name = filling.text(alloc, scenario.name.as_str())?;
    let nodes = filling.nodes(alloc, scenario.node)?;
    Ok(PickleTitle { name, nodes })
}
