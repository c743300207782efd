//! Which pickle of a document is next, from a place in the document on.
ghost use Rattle.std.specs.Prelude.{◌≡◌, map, Some, IfOk, ◌<◌, option_map, drop, slice_get, IfSome, length};
ghost use Rattle.std.specs.Prelude.{nat_eq, not};
ghost use Rattle.gk_pickle.specs.Pickles.{pickles};
ghost use Rattle.gk_pickle.specs.Rest.{title_of, IsNext, block_pickles, groups, plain_pickle, rest_in, rest_of, rest_of_blocks};
ghost use Rattle.gk_pickle.specs.Rest.{rest_of_group, rest_of_one, scenarios_at};
ghost use Rattle.gk_pickle.specs.Spot.{spot_of, spot_pickle};
ghost use Rattle.gk_document.specs.declared.tree.Document.{Document as SomeDocument};

use crate::filling::{Columns, Filling};
use crate::pickles::{Inheritance, Pickle, PickleTitle, ScenarioInFeature, make_pickle, title};
use gk_document::{Document, Examples, Feature, Row, Rule, Scenario, Tag};
use std::alloc::{AllocError, Global};
use std::hash::RandomState;
use std::marker::Model;

/// A scenario in its feature, and the tags of its examples and the header and the row of their table, where it has some.
#[derive(Drop)]
pub(crate) struct PickleSpot<'a> {
    pub scenario: ScenarioInFeature<'a>,
    pub tags: &'a [Tag],
    pub row: Option<(&'a Row, &'a Row)>,
}

impl<'a> Model for PickleSpot<'a> {
    ghost use Rattle.std.specs.Prelude.{option_map};
    ghost use Rattle.gk_pickle.specs.Spot.{Spot, spot_of};

    ghost Value = { Spot };

    ghost view = { λ s. spot_of s.scenario s.tags.now
        (option_map (λ r. (r.0.now, r.1.now)) s.row) };
}

impl<'a> PickleSpot<'a> {
    /// Of a scenario, with the tags and the row of its examples.
    pub(crate) fn of(
        scenario: &ScenarioInFeature<'a>,
        tags: &'a [Tag],
        row: Option<(&'a Row, &'a Row)>,
    ) -> PickleSpot<'a>
        ensures { result ≡ spot_of scenario.now tags.now
            (option_map (λ r. (r.0.now, r.1.now)) row.entry) }
    {
        PickleSpot {
            scenario: ScenarioInFeature {
                feature: scenario.feature,
                rule: scenario.rule,
                scenario: scenario.scenario,
            },
            tags,
            row,
        }
    }

    /// The pickle.
    ///
    /// # Errors
    /// Only where there is no memory for it.
    pub(crate) fn pickle(&self, alloc: Global, seed: RandomState) -> Result<Pickle, AllocError>
        ensures { IfOk result (λ p. p ≡ spot_pickle self.now) }
    {
        let inherited = Inheritance::of(&self.scenario);
        let scenario = self.scenario.scenario;
        match self.row {
            Some((header, row)) => {
                let columns = Columns::of(alloc, seed, header.cells.as_slice())?;
                let filling = Filling::of_row(&columns, row);
                let made = make_pickle(alloc, &inherited, scenario, self.tags, &filling);
                drop(columns);
                made
            }
            None => make_pickle(alloc, &inherited, scenario, self.tags, &Filling::none()),
        }
    }

    /// What the pickle is called, and its nodes. It takes no memory for steps and tags.
    ///
    /// # Errors
    /// Only where there is no memory for it.
    pub(crate) fn title(&self, alloc: Global, seed: RandomState) -> Result<PickleTitle, AllocError>
        ensures { IfOk result (λ title. title ≡ title_of (spot_pickle self.now)) }
    {
        let scenario = self.scenario.scenario;
        match self.row {
            Some((header, row)) => {
                let columns = Columns::of(alloc, seed, header.cells.as_slice())?;
                let made = title(alloc, scenario, &Filling::of_row(&columns, row));
                drop(columns);
                made
            }
            None => title(alloc, scenario, &Filling::none()),
        }
    }
}

/// How far the pickles of a document came: how many of its groups of scenarios (those of the feature itself, and of each rule),
/// of the next group's scenarios, of the next scenario's blocks, and of the next block's rows.
#[derive(Clone, Copy)]
pub struct PicklePlace {
    group: usize,
    scenario: usize,
    block: usize,
    row: usize,
}

impl PicklePlace {
    /// Before the first pickle.
    pub fn first() -> PicklePlace
        ensures { (d : SomeDocument) → rest_of d result ≡ pickles d }
    {
        PicklePlace {
            group: 0,
            scenario: 0,
            block: 0,
            row: 0,
        }
    }
}

/// The next spot of a block.
fn next_in_block<'a>(
    scenario: &ScenarioInFeature<'a>,
    block: &'a Examples,
    row: &mut usize,
) -> Option<PickleSpot<'a>>
    ensures { IsNext
        (drop row.old (block_pickles scenario.now block.now))
        (drop row.new (block_pickles scenario.now block.now))
        (option_map spot_pickle result) }
{
    let table = block.table.as_ref()?;
    let rows = table.body.as_slice();
    if *row >= rows.len() {
        return None;
    }
    let found = &rows[*row];
    *row += 1;
    let tags = block.tags.as_slice();
    Some(PickleSpot::of(scenario, tags, Some((&table.header, found))))
}

/// The next spot of some blocks.
fn next_in_blocks<'a>(
    scenario: &ScenarioInFeature<'a>,
    blocks: &'a [Examples],
    block: &mut usize,
    row: &mut usize,
) -> Option<PickleSpot<'a>>
    ensures { IsNext
        (rest_of_blocks scenario.now blocks.now block.old row.old)
        (rest_of_blocks scenario.now blocks.now block.new row.new)
        (option_map spot_pickle result) }
{
    while *block < blocks.len() {
        let found = next_in_block(scenario, &blocks[*block], row);
        if found.is_some() {
            return found;
        }
        *block += 1;
        *row = 0;
    }
    None
}

/// The spot of a scenario without blocks, once.
fn only_pickle_spot<'a>(scenario: &ScenarioInFeature<'a>, row: &mut usize) -> Option<PickleSpot<'a>>
    ensures { IsNext
        (drop row.old (plain_pickle scenario.now))
        (drop row.new (plain_pickle scenario.now))
        (option_map spot_pickle result) }
{
    if *row != 0 {
        return None;
    }
    *row = 1;
    Some(PickleSpot::of(scenario, &[], None))
}

/// The next spot of a scenario.
fn next_in_scenario<'a>(
    scenario: &ScenarioInFeature<'a>,
    block: &mut usize,
    row: &mut usize,
) -> Option<PickleSpot<'a>>
    ensures { IsNext
        (rest_of_one scenario.now block.old row.old)
        (rest_of_one scenario.now block.new row.new)
        (option_map spot_pickle result) }
{
    let blocks = scenario.scenario.examples.as_slice();
    if blocks.is_empty() {
        return only_pickle_spot(scenario, row);
    }
    next_in_blocks(scenario, blocks, block, row)
}

/// A feature itself, or a rule of it.
#[derive(Drop)]
struct Group<'a> {
    feature: &'a Feature,
    rule: Option<&'a Rule>,
}

impl<'a> Model for Group<'a> {
    ghost use Rattle.std.specs.Prelude.{option_map};
    ghost use Rattle.gk_pickle.specs.Spot.{Group as InFeature};

    ghost Value = { InFeature };

    ghost view = { λ g. record {
      feature = g.feature.now;
      rule = option_map (λ r. r.now) g.rule;
    } };
}

/// The scenarios of a feature itself, or of a rule of it.
fn scenarios_at<'a>(group: &Group<'a>) -> &'a [Scenario]
    ensures { result.now ≡ scenarios_at group.now }
{
    match group.rule {
        Some(rule) => rule.scenarios.as_slice(),
        None => group.feature.scenarios.as_slice(),
    }
}

/// The next spot of a feature's own scenarios, or of a rule's.
fn next_in_group<'a>(group: &Group<'a>, place: &mut PicklePlace) -> Option<PickleSpot<'a>>
    ensures next { IsNext
        (rest_of_group group.now place.old.scenario place.old.block place.old.row)
        (rest_of_group group.now place.new.scenario place.new.block place.new.row)
        (option_map spot_pickle result) }
    ensures group { place.new.group ≡ place.old.group }
{
    let scenarios = scenarios_at(group);
    while place.scenario < scenarios.len() {
        let scenario = ScenarioInFeature {
            feature: group.feature,
            rule: group.rule,
            scenario: &scenarios[place.scenario],
        };
        let found = next_in_scenario(&scenario, &mut place.block, &mut place.row);
        if found.is_some() {
            return found;
        }
        place.scenario += 1;
        place.block = 0;
        place.row = 0;
    }
    None
}

/// The feature itself at 0, after it its rules.
fn group_at(feature: &Feature, group: usize) -> Option<Group<'_>>
    ensures found { result ≡ slice_get (groups feature.now) group }
    ensures few { IfSome result (λ _. group < 18446744073709551615) }
{
    if group == 0 {
        return Some(Group {
            feature,
            rule: None,
        });
    }
    let rule = Some(feature.rules.as_slice().get(group - 1)?);
    Some(Group { feature, rule })
}

/// The next spot of a feature.
fn next_in_feature<'a>(feature: &'a Feature, place: &mut PicklePlace) -> Option<PickleSpot<'a>>
    ensures { IsNext
        (rest_in (Some feature.now) place.old)
        (rest_in (Some feature.now) place.new)
        (option_map spot_pickle result) }
{
    while let Some(group) = group_at(feature, place.group) {
        let found = next_in_group(&group, place);
        if found.is_some() {
            return found;
        }
        place.group += 1;
        place.scenario = 0;
        place.block = 0;
        place.row = 0;
    }
    None
}

/// The next spot of a document.
#[tactic(auto, unfolding(crate::specs::Rest::rest_of))]
fn next_spot<'a>(document: &'a Document, place: &mut PicklePlace) -> Option<PickleSpot<'a>>
    ensures { IsNext
        (rest_of document.now place.old)
        (rest_of document.now place.new)
        (option_map spot_pickle result) }
{
    next_in_feature(document.feature.as_ref()?, place)
}

/// The first pickle of a document from a place on, if there is one; the place is then behind it.
///
/// # Errors
/// Only where there is no memory for the pickle.
pub fn next_pickle(
    alloc: Global,
    seed: RandomState,
    document: &Document,
    place: &mut PicklePlace,
) -> Result<Option<Pickle>, AllocError>
    ensures { IfOk result
        (IsNext (rest_of document.now place.old) (rest_of document.now place.new)) }
{
    match next_spot(document, place) {
        Some(spot) => Ok(Some(spot.pickle(alloc, seed)?)),
        None => Ok(None),
    }
}

/// What the first pickle of a document from a place on is called, and its nodes, if there is one; the place is then behind it.
/// Steps and tags aren't made.
///
/// # Errors
/// Only where there is no memory for it.
pub fn next_title(
    alloc: Global,
    seed: RandomState,
    document: &Document,
    place: &mut PicklePlace,
) -> Result<Option<PickleTitle>, AllocError>
    ensures { IfOk result (IsNext
        (map title_of (rest_of document.now place.old))
        (map title_of (rest_of document.now place.new))) }
{
    match next_spot(document, place) {
        Some(spot) => Ok(Some(spot.title(alloc, seed)?)),
        None => Ok(None),
    }
}

/// Moves a place behind the first pickle of a document from it on, and whether there was one. It takes no memory.
pub fn pass_pickle(document: &Document, place: &mut PicklePlace) -> bool
    ensures left { rest_of document.now place.new ≡ drop 1 (rest_of document.now place.old) }
    ensures passed { result ≡ not (nat_eq (length (rest_of document.now place.old)) 0) }
{
    next_spot(document, place).is_some()
}
