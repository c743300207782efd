//! Bad members of gherkin documents, and the rules on children and tables.
use crate::tests::envelopes::refuses_each;
use std::alloc::Global;
use std::process::Abort;
use std::test::Fail;

const FEATURE: &str =
    r#"{"gherkinDocument":{"uri":"u","feature":{"location":{"line":1},"language":"en","keyword":"Feature","name":"f","#;

// Each line of the table is a field, and the members of a feature between front and end that have it at fault.
fn expect_fields(
    rt: &impl Abort,
    alloc: Global,
    front: &str,
    table: &str,
    end: &str,
) -> Result<(), Fail> {
    let front = format!(in alloc; "{FEATURE}{front}")?;
    let end = format!(in alloc; "{end}}}}}}}")?;
    refuses_each(
        rt,
        alloc,
        "gherkinDocument",
        front.as_str(),
        table,
        end.as_str(),
    )
}

const CHILDREN: &str = r#"children {}
children 5
children {"scenario":null}
scenario {"scenario":5}
id {"scenario":{}}
children {"scenario":{},"rule":{}}
children {"scenario":{}},5
children {"scenario":{}},{"background":{}}
children {"background":{}},{"background":{}}
children {"rule":{}},{"scenario":{}}
background {"background":5},{"scenario":6},{"rule":7}
scenario {"scenario":5},{"rule":6}
line {"rule":{"id":"r","location":{"line":0}}}"#;

const RULE: &str =
    r#""children":[{"rule":{"id":"r","location":{"line":2},"keyword":"Rule","name":"","children":["#;

// In a rule's child, `rule` is an unknown member.
const RULE_CHILDREN: &str = r#"children {"rule":{}}
scenario {"rule":5,"scenario":6}
location {"background":{"id":"b"}},{"scenario":6}"#;

#[test]
fn children_have_one_kind_and_an_order(rt: HostRuntime) -> Result<(), Fail> {
    let alloc = rt.alloc();
    expect_fields(&rt, alloc, r#""children":["#, CHILDREN, "]")?;
    expect_fields(&rt, alloc, RULE, RULE_CHILDREN, "]}}]")
}

const TAG: &str = r#""tags":[{"id":"t","#;

const TAGS: &str = r#"location "name":"@t"
location "location":[],"name":"@t"
line "location":{"line":"1"},"name":"@t"
line "location":{"line":4294967296},"name":"@t"
name "location":{"line":4294967295}"#;

const SCENARIO: &str =
    r#""children":[{"scenario":{"id":"s","location":{"line":2},"keyword":"Scenario","name":"n","#;

const SCENARIOS: &str = r#"id "steps":[{"id":1}]
steps "steps":{}
examples "examples":[1]
location "examples":[{"id":"e"}]"#;

const STEP: &str =
    r#""children":[{"background":{"id":"b","location":{"line":2},"keyword":"Background","name":"","steps":[{"id":"p","location":{"line":3},"keyword":"Given ","text":"a","#;

const STEPS: &str = r#"dataTable "dataTable":[]
location "dataTable":{"rows":[{"id":"r"}]}
docString "dataTable":{},"docString":{}
rows "dataTable":{"rows":1},"docString":{}
location "docString":{"content":""}
content "docString":{"location":{"line":3}}"#;

const EXAMPLES: &str =
    r#""examples":[{"id":"e","location":{"line":3},"keyword":"Examples","name":"","#;

const TABLES: &str = r#"tableBody "tableBody":[{"id":"r","location":{"line":4}}]
tableBody "tableBody":[{}]
id "tableHeader":{},"tableBody":[{}]
tableBody "tableHeader":{"id":"r","location":{"line":4}},"tableBody":[{"id":"r","location":{"line":4},"cells":[{}]},5]"#;

#[test]
fn bad_members_of_nodes(rt: HostRuntime) -> Result<(), Fail> {
    let alloc = rt.alloc();
    expect_fields(&rt, alloc, TAG, TAGS, "}]")?;
    expect_fields(&rt, alloc, SCENARIO, SCENARIOS, "}}]")?;
    expect_fields(&rt, alloc, STEP, STEPS, "}]}}]")?;
    let examples = format!(in alloc; "{SCENARIO}{EXAMPLES}")?;
    expect_fields(&rt, alloc, examples.as_str(), TABLES, "}]}}]")
}
