//! The tree of a list of blocks, and the texts and tables that their lines make.
ghost use Rattle.std.specs.Prelude.{◌≡◌, ◌∷◌, map, reverse, IfOk, OnOk};
ghost use Rattle.gk_line.specs.declared.tokens.Block.TheVariants as block;
ghost use Rattle.gk_grammar.specs.Assembly as assembly;
ghost use Rattle.gk_grammar.specs.Assembly.{no_parts, with_block, feature_at, rule_at, scenario_at, examples_at, steps_of};
ghost use Rattle.gk_grammar.specs.Assembly.{rows_of, example_table_of};
ghost use Rattle.gk_tree.specs.Views.{flat_block_of, body_of};
ghost use Rattle.gk_tree.specs.Assembling.{parts_view};

use crate::blocks::{Body, FlatBlock};
use gk_document::{
    Background, ExampleTable, Examples, Feature, Row, Rule, Scenario, Sequence, Step, Text,
};
use gk_line::Block;
use std::alloc::{AllocError, Global};
use std::mem::replace;

/// What comes after a block: the examples of a scenario, a background and scenarios of a feature or rule, and
/// further rules. The lists are back to front.
#[derive(Drop)]
struct Parts {
    examples: Vec<Examples>,
    background: Option<Background>,
    scenarios: Vec<Scenario>,
    rules: Vec<Rule>,
}

/// The items front to back, in no more memory than they take.
fn in_order<T>(mut items: Vec<T>) -> Sequence<T>
    ensures { result ≡ reverse items.items }
{
    items.as_mut_slice().reverse();
    items.shrink_to_fit();
    Sequence::from(items)
}

/// Adds an item before the others, which are back to front.
fn put_before<T: Drop>(items: &mut Vec<T>, item: T) -> Result<(), AllocError>
    ensures { OnOk result (reverse items.new.items ≡ item ∷ reverse items.old.items) }
{
    Ok(items.push(item)?)
}

/// The feature whose blocks these are, itself the first.
pub(crate) fn build_feature(
    alloc: Global,
    flat_blocks: Sequence<FlatBlock>,
) -> Result<Option<Feature>, AllocError>
    ensures { IfOk result (λ f. f ≡ assembly.assembled_feature (map flat_block_of flat_blocks)) }
{
    let mut flat_blocks = flat_blocks.into_vec();
    if flat_blocks.is_empty() {
        return Ok(None);
    }
    let language = Text::copy_of(alloc, "en")?;
    let first = flat_blocks.remove(0);
    let parts = parts_of(alloc, flat_blocks)?;
    Ok(Some(feature(language, first, parts)))
}

/// The parts that these blocks make.
fn parts_of(alloc: Global, mut flat_blocks: Vec<FlatBlock>) -> Result<Parts, AllocError>
    ensures { IfOk result (λ p. parts_view p ≡ assembly.parts_of
        (map flat_block_of flat_blocks.items)) }
{
    let mut parts = Parts {
        examples: Vec::new(alloc),
        background: None,
        scenarios: Vec::new(alloc),
        rules: Vec::new(alloc),
    };
    while let Some(flat_block) = flat_blocks.pop() {
        add_flat_block(alloc, &mut parts, flat_block)?;
    }
    Ok(parts)
}

/// The feature in this language.
fn feature(language: Text, flat_block: FlatBlock, parts: Parts) -> Feature
    ensures { result ≡ record (feature_at (flat_block_of flat_block) (parts_view parts)) {
      language = language;
    } }
{
    Feature {
        location: flat_block.location,
        tags: flat_block.tags,
        language,
        keyword: flat_block.keyword,
        name: flat_block.name,
        description: flat_block.description,
        background: parts.background,
        scenarios: in_order(parts.scenarios),
        rules: in_order(parts.rules),
    }
}

/// Adds one block before the parts.
fn add_flat_block(alloc: Global, parts: &mut Parts, flat_block: FlatBlock) -> Result<(), AllocError>
    ensures { OnOk result (parts_view parts.new
        ≡ with_block flat_block.block (flat_block_of flat_block) (parts_view parts.old)) }
{
    match flat_block.block {
        Block::Rule => add_rule(alloc, parts, flat_block),
        Block::Background => {
            add_background(alloc, parts, flat_block);
            Ok(())
        }
        Block::Scenario => add_scenario(alloc, parts, flat_block),
        Block::Examples => put_before(&mut parts.examples, examples(flat_block)),
        Block::Feature => Ok(()),
    }
}

/// Adds a rule, which takes the background and the scenarios after it.
fn add_rule(alloc: Global, parts: &mut Parts, flat_block: FlatBlock) -> Result<(), AllocError>
    ensures { OnOk result (parts_view parts.new
        ≡ with_block block.Rule (flat_block_of flat_block) (parts_view parts.old)) }
{
    let background = parts.background.take();
    let scenarios = replace(&mut parts.scenarios, Vec::new(alloc));
    put_before(&mut parts.rules, rule(flat_block, background, scenarios))
}

/// The rule with this background and these scenarios, which are back to front.
fn rule(flat_block: FlatBlock, background: Option<Background>, scenarios: Vec<Scenario>) -> Rule
    ensures { result ≡ rule_at (flat_block_of flat_block)
        (record no_parts { background = background; scenarios = reverse scenarios.items }) }
{
    Rule {
        node: flat_block.node,
        location: flat_block.location,
        tags: flat_block.tags,
        keyword: flat_block.keyword,
        name: flat_block.name,
        description: flat_block.description,
        background,
        scenarios: in_order(scenarios),
    }
}

/// Adds a background before the parts.
fn add_background(alloc: Global, parts: &mut Parts, flat_block: FlatBlock)
    ensures { parts_view parts.new ≡ with_block block.Background (flat_block_of flat_block)
        (parts_view parts.old) }
{
    parts.background = Some(Background {
        node: flat_block.node,
        location: flat_block.location,
        keyword: flat_block.keyword,
        name: flat_block.name,
        description: flat_block.description,
        steps: build_steps(alloc, flat_block.body),
    });
}

/// Adds a scenario, which takes the examples after it.
fn add_scenario(alloc: Global, parts: &mut Parts, flat_block: FlatBlock) -> Result<(), AllocError>
    ensures { OnOk result (parts_view parts.new
        ≡ with_block block.Scenario (flat_block_of flat_block) (parts_view parts.old)) }
{
    let examples = replace(&mut parts.examples, Vec::new(alloc));
    put_before(&mut parts.scenarios, scenario(alloc, flat_block, examples))
}

/// The scenario with these examples, which are back to front.
fn scenario(alloc: Global, flat_block: FlatBlock, examples: Vec<Examples>) -> Scenario
    ensures { result ≡ scenario_at (flat_block_of flat_block)
        (record no_parts { examples = reverse examples.items }) }
{
    Scenario {
        node: flat_block.node,
        location: flat_block.location,
        tags: flat_block.tags,
        keyword: flat_block.keyword,
        name: flat_block.name,
        description: flat_block.description,
        steps: build_steps(alloc, flat_block.body),
        examples: in_order(examples),
    }
}

/// The examples block.
fn examples(flat_block: FlatBlock) -> Examples
    ensures { result ≡ examples_at (flat_block_of flat_block) }
{
    Examples {
        node: flat_block.node,
        location: flat_block.location,
        tags: flat_block.tags,
        keyword: flat_block.keyword,
        name: flat_block.name,
        description: flat_block.description,
        table: build_table(flat_block.body),
    }
}

/// The steps of a background or a scenario.
fn build_steps(alloc: Global, body: Body) -> Sequence<Step>
    ensures { result ≡ steps_of (body_of body) }
{
    match body {
        Body::Steps(steps) => steps,
        Body::Bare | Body::Rows(_) => Sequence::new(alloc),
    }
}

/// The rows of an examples block as its table, the first one its header.
fn build_table(body: Body) -> Option<ExampleTable>
    ensures { result ≡ example_table_of (rows_of (body_of body)) }
{
    let Body::Rows(rows) = body else {
        return None;
    };
    header_and_body(rows)
}

/// The table whose header is the first of these rows, if there is a row.
fn header_and_body(rows: Sequence<Row>) -> Option<ExampleTable>
    ensures { result ≡ example_table_of rows }
{
    let mut rows = rows.into_vec();
    if rows.is_empty() {
        return None;
    }
    let header = rows.remove(0);
    Some(ExampleTable {
        header,
        body: Sequence::from(rows),
    })
}
