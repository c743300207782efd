//! The members of each kind: missing, null, and of a wrong type.
use crate::tests::envelopes::{accepts, refuses};
use std::alloc::{AllocError, Global};
use std::process::Abort;
use std::test::Fail;

// A member by its name, a good value and one of a wrong type.
#[derive(Clone, Copy)]
struct Member<'a> {
    is_required: bool,
    name: &'a str,
    good: &'a str,
    wrong: &'a str,
}

// A member from a line with these four words.
fn member_of(told: &str) -> Option<Member<'_>> {
    let (need, rest) = told.split_once(' ')?;
    let (name, rest) = rest.split_once(' ')?;
    let (good, wrong) = rest.split_once(' ')?;
    Some(Member {
        is_required: need == "required",
        name,
        good,
        wrong,
    })
}

fn push_member(line: &mut String, name: &str, value: &str) -> Result<(), AllocError> {
    line.push_str(",\"")?;
    line.push_str(name)?;
    line.push_str("\":")?;
    line.push_str(value)
}

// Adds the member. The changed one has another value, or is missing if the value is empty.
fn push_or_change(
    line: &mut String,
    member: &Member<'_>,
    changed: &str,
    value: &str,
) -> Result<(), AllocError> {
    if member.name != changed {
        push_member(line, member.name, member.good)
    } else if !value.is_empty() {
        push_member(line, changed, value)
    } else {
        Ok(())
    }
}

fn push_members(line: &mut String, members: &str, changed: &str, value: &str) -> Result<(), Fail> {
    for told in members.lines() {
        let member = member_of(told).ok_or("no member")?;
        push_or_change(line, &member, changed, value)?;
    }
    Ok(())
}

// The line of an object with all members, where this one has another value, or is missing if the value is empty.
fn line_with(
    alloc: Global,
    kind: &str,
    members: &str,
    changed: &str,
    value: &str,
) -> Result<String, Fail> {
    let mut line = format!(in alloc; "{{\"{kind}\":{{\"unknown\":[1]")?;
    push_members(&mut line, members, changed, value)?;
    line.push_str("}}")?;
    Ok(line)
}

// The line is refused for this member, or has no fault.
fn expect_line(rt: &impl Abort, alloc: Global, line: &str, kind: &str, refused: Option<&str>) {
    match refused {
        Some(name) => refuses(rt, alloc, line.as_bytes(), kind, name),
        None => accepts(rt, alloc, line.as_bytes()),
    }
}

// The line where a member has this value, or is missing if the value is empty, is refused for a member, or has no fault.
fn expect_value(
    rt: &impl Abort,
    alloc: Global,
    kind: &str,
    members: &str,
    name: &str,
    value: &str,
    refused: Option<&str>,
) -> Result<(), Fail> {
    let line = line_with(alloc, kind, members, name, value)?;
    expect_line(rt, alloc, line.as_str(), kind, refused);
    Ok(())
}

fn expect_member(
    rt: &impl Abort,
    alloc: Global,
    kind: &str,
    members: &str,
    member: &Member<'_>,
) -> Result<(), Fail> {
    let name = member.name;
    let needed = if member.is_required { Some(name) } else { None };
    expect_value(rt, alloc, kind, members, name, "", needed)?;
    expect_value(rt, alloc, kind, members, name, "null", needed)?;
    expect_value(rt, alloc, kind, members, name, member.wrong, Some(name))
}

fn expect_members(rt: &impl Abort, alloc: Global, kind: &str, members: &str) -> Result<(), Fail> {
    expect_value(rt, alloc, kind, members, "", "", None)?;
    for told in members.lines() {
        let member = member_of(told).ok_or("no member")?;
        expect_member(rt, alloc, kind, members, &member)?;
    }
    Ok(())
}

// Each line: whether the member is required, its name, a good value and one of a wrong type.
const SOURCE: &str = r#"required uri "a.feature" 1
required data "" {}
required mediaType "text/x.cucumber.gherkin+plain" []"#;

#[test]
fn sources(rt: HostRuntime) -> Result<(), Fail> {
    expect_members(&rt, rt.alloc(), "source", SOURCE)
}

const PARSE_ERROR: &str = r#"required source {"uri":"a.feature"} "a.feature""#;

#[test]
fn parse_errors(rt: HostRuntime) -> Result<(), Fail> {
    expect_members(&rt, rt.alloc(), "parseError", PARSE_ERROR)
}

#[test]
fn step_definitions(rt: HostRuntime) -> Result<(), Fail> {
    expect_members(&rt, rt.alloc(), "stepDefinition", r#"required id "d" 1"#)
}

#[test]
fn hooks(rt: HostRuntime) -> Result<(), Fail> {
    expect_members(&rt, rt.alloc(), "hook", r#"required id "h" false"#)
}

#[test]
fn started_runs(rt: HostRuntime) -> Result<(), Fail> {
    expect_members(&rt, rt.alloc(), "testRunStarted", r#"optional id "r" 1"#)
}

const RUN_FINISHED: &str = r#"optional testRunStartedId "r" 1
required success true "true""#;

#[test]
fn finished_runs(rt: HostRuntime) -> Result<(), Fail> {
    expect_members(&rt, rt.alloc(), "testRunFinished", RUN_FINISHED)
}

const ATTACHMENT: &str = r#"optional testCaseStartedId "a1" 1
optional testStepId "t1" {}"#;

#[test]
fn attachments(rt: HostRuntime) -> Result<(), Fail> {
    expect_members(&rt, rt.alloc(), "attachment", ATTACHMENT)
}

const RUN_HOOK_STARTED: &str = r#"required id "r1" 1
optional testRunStartedId "r" 1
required hookId "h" {}"#;

#[test]
fn started_run_hooks(rt: HostRuntime) -> Result<(), Fail> {
    expect_members(&rt, rt.alloc(), "testRunHookStarted", RUN_HOOK_STARTED)
}

const RUN_HOOK_FINISHED: &str = r#"required testRunHookStartedId "r1" 1
required result {"status":"PASSED"} "PASSED""#;

#[test]
fn finished_run_hooks(rt: HostRuntime) -> Result<(), Fail> {
    expect_members(&rt, rt.alloc(), "testRunHookFinished", RUN_HOOK_FINISHED)
}

const TEST_CASE: &str = r#"required id "c1" 1
required pickleId "3" 3
optional testRunStartedId "r" []
optional testSteps [{"id":"t","hookId":"h"}] {}"#;

#[test]
fn test_cases(rt: HostRuntime) -> Result<(), Fail> {
    expect_members(&rt, rt.alloc(), "testCase", TEST_CASE)
}

const CASE_STARTED: &str = r#"required id "a1" {}
required testCaseId "c1" true
optional attempt 1 "0""#;

#[test]
fn started_attempts(rt: HostRuntime) -> Result<(), Fail> {
    expect_members(&rt, rt.alloc(), "testCaseStarted", CASE_STARTED)
}

const STEP_STARTED: &str = r#"required testCaseStartedId "a1" 1
required testStepId "t1" ["t1"]"#;

#[test]
fn started_steps(rt: HostRuntime) -> Result<(), Fail> {
    expect_members(&rt, rt.alloc(), "testStepStarted", STEP_STARTED)
}

const STEP_FINISHED: &str = r#"required testCaseStartedId "a1" 1
required testStepId "t1" 1
required testStepResult {"status":"PASSED"} "PASSED""#;

#[test]
fn finished_steps(rt: HostRuntime) -> Result<(), Fail> {
    expect_members(&rt, rt.alloc(), "testStepFinished", STEP_FINISHED)
}

const CASE_FINISHED: &str = r#"required testCaseStartedId "a1" 1
optional willBeRetried true "true""#;

#[test]
fn finished_attempts(rt: HostRuntime) -> Result<(), Fail> {
    expect_members(&rt, rt.alloc(), "testCaseFinished", CASE_FINISHED)
}

const PICKLE: &str = r#"required id "3" 3
required uri "a.feature" 1
required name "s" 1
required language "en" 1
optional astNodeIds ["0"] "0"
optional tags [{"name":"@t","astNodeId":"1"}] {}
optional steps [{"id":"2","text":"a","type":"Context","astNodeIds":["1"]}] [1]"#;

#[test]
fn pickles(rt: HostRuntime) -> Result<(), Fail> {
    expect_members(&rt, rt.alloc(), "pickle", PICKLE)
}

const DOCUMENT: &str = r#"required uri "a.feature" 1
optional feature {"location":{"line":1,"column":1},"language":"en","keyword":"Feature","name":"f"} []"#;

#[test]
fn documents(rt: HostRuntime) -> Result<(), Fail> {
    expect_members(&rt, rt.alloc(), "gherkinDocument", DOCUMENT)
}
