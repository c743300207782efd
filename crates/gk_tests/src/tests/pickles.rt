//! The pickles of texts that are parsed, as lines.
use gk_pickle::{
    Pickle, PicklePlace, ScenarioInFeature, compile, compile_scenario, next_pickle, next_title,
    pass_pickle, scenarios,
};
use gk_tree::{Document, parse};
use gk_values::pickle_value;
use seeds::fixed_seed;
use std::alloc::{AllocError, Global};
use std::process::Abort;
use std::test::Fail;

const STEPLESS_TEXT: &str = "Feature: f\n  Background:\n    Given a\n    And b\n  Scenario: s";

const RULED_TEXT: &str = concat!(
    "@f\nFeature: f\n  Rule: r\n    Background:\n      Given b\n    @s @s\n",
    "    Scenario Outline: <n> o\n      And c\n      @e\n      Examples:\n",
    "        | n |\n        | 1 |",
);

const MIXED_TEXT: &str = concat!(
    "Feature: f\n  Scenario: s\n    * x\n    And y\n  Scenario: h\n    Examples:\n",
    "      | a |\n    Examples:\n  Scenario: q\n    Given d\n      \"\"\"<m>\n",
    "      <n>\n      \"\"\"\n    And <n>\n      | <n> | é |\n    Examples:\n",
    "      | m | n |\n      |  | ü |\n# \u{1}\u{1F600}",
);

const PLACED_TEXT: &str = concat!(
    "Feature: f\n  Background:\n    Given a\n  Scenario: s\n    When b\n",
    "  Rule: r\n    Background:\n      Given c\n    Scenario Outline: <n>\n",
    "      Then d\n      Examples:\n        | n |\n        | 1 |\n        | 2 |",
);

const STEPLESS_PICKLE: &str = concat!(
    r#"{"pickle":{"astNodeIds":["3"],"id":"4","language":"en","name":"s","steps":[],"#,
    r#""tags":[],"uri":"u"}}"#,
    "\n",
);

const RULED_PICKLE: &str = concat!(
    r#"{"pickle":{"astNodeIds":["6","11"],"id":"14","language":"en","name":"1 o","#,
    r#""steps":[{"astNodeIds":["3"],"id":"12","text":"b","type":"Context"},"#,
    r#"{"astNodeIds":["7","11"],"id":"13","text":"c","type":"Context"}],"#,
    r#""tags":[{"astNodeId":"0","name":"@f"},{"astNodeId":"4","name":"@s"},"#,
    r#"{"astNodeId":"5","name":"@s"},{"astNodeId":"8","name":"@e"}],"uri":"r.feature"}}"#,
    "\n",
);

const MIXED_PICKLES: &str = concat!(
    r#"{"pickle":{"astNodeIds":["0"],"id":"16","language":"en","name":"s","#,
    r#""steps":[{"astNodeIds":["1"],"id":"14","text":"x","type":"Unknown"},"#,
    r#"{"astNodeIds":["2"],"id":"15","text":"y","type":"Unknown"}],"tags":[],"#,
    r#""uri":"u"}}"#,
    "\n",
    r#"{"pickle":{"astNodeIds":["7","13"],"id":"19","language":"en","name":"q","#,
    r#""steps":[{"argument":{"docString":{"content":"ü"}},"astNodeIds":["8","13"],"#,
    r#""id":"17","text":"d","type":"Context"},"#,
    r#"{"argument":{"dataTable":{"rows":[{"cells":[{"value":"ü"},{"value":"é"}]}]}},"#,
    r#""astNodeIds":["9","13"],"id":"18","text":"ü","type":"Context"}],"tags":[],"#,
    r#""uri":"u"}}"#,
    "\n",
);

const PICKLE_IN_FEATURE: &str = concat!(
    r#"{"pickle":{"astNodeIds":["2"],"id":"15","language":"en","name":"s","#,
    r#""steps":[{"astNodeIds":["1"],"id":"13","text":"a","type":"Context"},"#,
    r#"{"astNodeIds":["3"],"id":"14","text":"b","type":"Action"}],"tags":[],"#,
    r#""uri":"u"}}"#,
    "\n",
);

const PICKLES_IN_RULE: &str = concat!(
    r#"{"pickle":{"astNodeIds":["7","11"],"id":"19","language":"en","name":"1","#,
    r#""steps":[{"astNodeIds":["1"],"id":"16","text":"a","type":"Context"},"#,
    r#"{"astNodeIds":["6"],"id":"17","text":"c","type":"Context"},"#,
    r#"{"astNodeIds":["8","11"],"id":"18","text":"d","type":"Outcome"}],"tags":[],"#,
    r#""uri":"u"}}"#,
    "\n",
    r#"{"pickle":{"astNodeIds":["7","12"],"id":"23","language":"en","name":"2","#,
    r#""steps":[{"astNodeIds":["1"],"id":"20","text":"a","type":"Context"},"#,
    r#"{"astNodeIds":["6"],"id":"21","text":"c","type":"Context"},"#,
    r#"{"astNodeIds":["8","12"],"id":"22","text":"d","type":"Outcome"}],"tags":[],"#,
    r#""uri":"u"}}"#,
    "\n",
);

/// The pickles as lines, each with the ids that follow those before it.
fn told(alloc: Global, uri: &str, pickles: &[Pickle], first_id: u64) -> Result<String, Fail> {
    let mut told = String::new(alloc);
    let mut id = first_id;
    for pickle in pickles {
        let steps = pickle.steps.len() as u64;
        if id >= 100 || steps >= 100 {
            return Err(Fail::from("many steps"));
        }
        let line = pickle_value(alloc, uri, pickle, id)?.to_string(alloc)?;
        told.push_str(line.as_str())?;
        told.push('\n')?;
        id = id + steps + 1;
    }
    Ok(told)
}

/// The pickles of a document as lines, with the ids that follow those of its nodes.
fn told_pickles(alloc: Global, uri: &str, document: &Document) -> Result<String, Fail> {
    let seed = fixed_seed()?;
    let pickles = compile(alloc, seed, document)?;
    let told = told(alloc, uri, pickles.as_slice(), document.nodes);
    drop(pickles);
    told
}

/// Whether the same pickles follow two places, by their titles, up to the last.
fn same_follow(
    alloc: Global,
    document: &Document,
    one: PicklePlace,
    other: PicklePlace,
) -> Result<bool, Fail> {
    let seed = fixed_seed()?;
    let mut one = one;
    let mut other = other;
    for _ in 0..100 {
        let next = next_title(alloc, seed, document, &mut one)?;
        let wanted = next_title(alloc, seed, document, &mut other)?;
        let is_over = next.is_none();
        let is_same = match (&next, &wanted) {
            (Some(next), Some(wanted)) => next.name == wanted.name && next.nodes == wanted.nodes,
            (None, None) => true,
            _ => false,
        };
        drop(next);
        drop(wanted);
        if is_over || !is_same {
            return Ok(is_same);
        }
    }
    Err(Fail::from("many titles"))
}

/// Whether the pickle at a place is called so and ends at this place, by its title alone and by passing it.
fn lies_there(
    alloc: Global,
    document: &Document,
    pickle: &Pickle,
    from: PicklePlace,
    to: PicklePlace,
) -> Result<bool, Fail> {
    let mut titled = from;
    let mut passed = from;
    let title = next_title(alloc, fixed_seed()?, document, &mut titled)?.ok_or("no title")?;
    let is_passed = pass_pickle(document, &mut passed);
    let is_called_so = title.name == pickle.name && title.nodes == pickle.nodes;
    drop(title);
    let is_titled = same_follow(alloc, document, titled, to)?;
    Ok(is_called_so && is_passed && is_titled && same_follow(alloc, document, passed, to)?)
}

/// The pickles of a document, each made after the one before it.
fn pickles_in_turn(alloc: Global, document: &Document) -> Result<Vec<Pickle>, Fail> {
    let seed = fixed_seed()?;
    let mut place = PicklePlace::first();
    let mut made = Vec::new(alloc);
    for _ in 0..100 {
        let from = place;
        let Some(pickle) = next_pickle(alloc, seed, document, &mut place)? else {
            return Ok(made);
        };
        if !lies_there(alloc, document, &pickle, from, place)? {
            return Err(Fail::from("passed by"));
        }
        made.push(pickle)?;
    }
    Err(Fail::from("many pickles"))
}

/// The same lines of the pickles that are made one after another.
fn told_in_turn(alloc: Global, uri: &str, document: &Document) -> Result<String, Fail> {
    let pickles = pickles_in_turn(alloc, document)?;
    let told = told(alloc, uri, pickles.as_slice(), document.nodes);
    drop(pickles);
    told
}

/// The lines of all pickles of a document, and of those that are made one after another.
fn told_both(alloc: Global, uri: &str, document: &Document) -> Result<(String, String), Fail> {
    let told = told_pickles(alloc, uri, document)?;
    let in_turn = told_in_turn(alloc, uri, document)?;
    Ok((told, in_turn))
}

fn told_text(alloc: Global, uri: &str, text: &str) -> Result<(String, String), Fail> {
    match parse(alloc, text) {
        Ok(document) => {
            let told = told_both(alloc, uri, &document);
            drop(document);
            told
        }
        Err(_) => Err(Fail::from("refused")),
    }
}

fn check_pickles(
    rt: &impl Abort,
    alloc: Global,
    uri: &str,
    text: &str,
    wanted: &str,
) -> Result<(), Fail> {
    let (told, in_turn) = told_text(alloc, uri, text)?;
    assert_eq!(rt; told.as_str(), wanted);
    assert_eq!(rt; in_turn.as_str(), wanted);
    Ok(())
}

#[test]
fn a_scenario_without_steps_has_no_background(rt: HostRuntime) -> Result<(), Fail> {
    check_pickles(&rt, rt.alloc(), "u", STEPLESS_TEXT, STEPLESS_PICKLE)
}

#[test]
fn an_outline_in_a_rule(rt: HostRuntime) -> Result<(), Fail> {
    check_pickles(&rt, rt.alloc(), "r.feature", RULED_TEXT, RULED_PICKLE)
}

#[test]
fn types_tables_and_doc_strings(rt: HostRuntime) -> Result<(), Fail> {
    check_pickles(&rt, rt.alloc(), "u", MIXED_TEXT, MIXED_PICKLES)
}

/// The names of a scenario's feature, of its rule where it is in one, and of the scenario.
fn told_place(alloc: Global, scenario: &ScenarioInFeature<'_>) -> Result<String, AllocError> {
    let feature = scenario.feature.name.as_str();
    let name = scenario.scenario.name.as_str();
    match scenario.rule {
        Some(rule) => format!(in alloc; "{feature}, {}, {name}", rule.name.as_str()),
        None => format!(in alloc; "{feature}, {name}"),
    }
}

fn check_place(
    rt: &impl Abort,
    alloc: Global,
    scenario: &ScenarioInFeature<'_>,
    wanted: &str,
) -> Result<(), Fail> {
    let place = told_place(alloc, scenario)?;
    assert_eq!(rt; place.as_str(), wanted);
    Ok(())
}

/// The pickles of a scenario as lines, with the ids from the first one.
fn told_scenario(
    alloc: Global,
    scenario: &ScenarioInFeature<'_>,
    first_id: u64,
) -> Result<String, Fail> {
    let seed = fixed_seed()?;
    let pickles = compile_scenario(alloc, seed, scenario)?;
    let told = told(alloc, "u", pickles.as_slice(), first_id);
    drop(pickles);
    told
}

fn check_scenario(
    rt: &impl Abort,
    alloc: Global,
    scenario: &ScenarioInFeature<'_>,
    first_id: u64,
    wanted: (&str, &str),
) -> Result<(), Fail> {
    check_place(rt, alloc, scenario, wanted.0)?;
    let told = told_scenario(alloc, scenario, first_id)?;
    assert_eq!(rt; told.as_str(), wanted.1);
    Ok(())
}

fn check_placed(rt: &impl Abort, alloc: Global, document: &Document) -> Result<(), Fail> {
    let scenarios = scenarios(alloc, document)?;
    match scenarios.as_slice() {
        [first, second] => {
            check_scenario(rt, alloc, first, 13, ("f, s", PICKLE_IN_FEATURE))?;
            check_scenario(rt, alloc, second, 16, ("f, r, <n>", PICKLES_IN_RULE))
        }
        _ => Err(Fail::from("another number of scenarios")),
    }
}

#[test]
fn one_scenario_after_another(rt: HostRuntime) -> Result<(), Fail> {
    let alloc = rt.alloc();
    let document = parse(alloc, PLACED_TEXT)?;
    check_placed(&rt, alloc, &document)
}
