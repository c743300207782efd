//! Lines as today's producers write them, with members that aren't judged.
use crate::tests::envelopes::word_of;
use cm_envelope::{
    Envelope, EnvelopeFault, GherkinDocument, NodeId, Pickle, PickleStep, StepKind, TestCase,
    TestRunFinished, TestStep,
};
use cm_reading::read_envelope;
use gk_document::Text;
use std::alloc::{AllocError, Global};
use std::process::Abort;
use std::test::Fail;

fn kind_name(envelope: &Envelope) -> &'static str {
    match envelope {
        Envelope::Source(_) => "source",
        Envelope::GherkinDocument(_) => "gherkinDocument",
        Envelope::ParseError(_) => "parseError",
        Envelope::Pickle(_) => "pickle",
        Envelope::StepDefinition(_) => "stepDefinition",
        Envelope::Hook(_) => "hook",
        Envelope::TestCase(_) => "testCase",
        Envelope::TestRunStarted(_) => "testRunStarted",
        Envelope::TestCaseStarted(_) => "testCaseStarted",
        Envelope::TestStepStarted(_) => "testStepStarted",
        Envelope::TestStepFinished(_) => "testStepFinished",
        Envelope::TestCaseFinished(_) => "testCaseFinished",
        Envelope::TestRunFinished(_) => "testRunFinished",
        Envelope::Attachment(_) => "attachment",
        Envelope::TestRunHookStarted(_) => "testRunHookStarted",
        Envelope::TestRunHookFinished(_) => "testRunHookFinished",
        Envelope::Other => "other",
    }
}

fn add(told: &mut String, text: &str) -> Result<(), AllocError> {
    told.push('|')?;
    told.push_str(text)
}

fn add_all(told: &mut String, texts: &[Text]) -> Result<(), AllocError> {
    for text in texts {
        add(told, text.as_str())?;
    }
    Ok(())
}

fn add_node_ids(told: &mut String, ids: &[NodeId]) -> Result<(), AllocError> {
    for id in ids {
        add(told, id.as_str())?;
    }
    Ok(())
}

// Adds the text, or `-` where there is none.
fn add_optional(told: &mut String, text: &Option<Text>) -> Result<(), AllocError> {
    match text {
        Some(text) => add(told, text.as_str()),
        None => add(told, "-"),
    }
}

fn add_flag(told: &mut String, flag: bool) -> Result<(), AllocError> {
    add(told, if flag { "true" } else { "false" })
}

fn add_document(told: &mut String, document: &GherkinDocument) -> Result<(), AllocError> {
    add(told, document.uri.as_str())?;
    add_node_ids(told, document.ids.as_slice())
}

fn kind_word(kind: Option<StepKind>) -> &'static str {
    match kind {
        Some(StepKind::Unknown) => "Unknown",
        Some(StepKind::Context) => "Context",
        Some(StepKind::Action) => "Action",
        Some(StepKind::Outcome) => "Outcome",
        None => "-",
    }
}

fn add_pickle_step(told: &mut String, step: &PickleStep) -> Result<(), AllocError> {
    add(told, step.id.as_str())?;
    add(told, step.text.as_str())?;
    add(told, kind_word(step.kind))?;
    add_all(told, step.ast_node_ids.as_slice())
}

fn add_pickle(told: &mut String, pickle: &Pickle) -> Result<(), AllocError> {
    add(told, pickle.id.as_str())?;
    add(told, pickle.uri.as_str())?;
    add(told, pickle.name.as_str())?;
    add(told, pickle.language.as_str())?;
    add_all(told, pickle.ast_node_ids.as_slice())?;
    for step in pickle.steps.as_slice() {
        add_pickle_step(told, step)?;
    }
    Ok(())
}

fn add_test_step(told: &mut String, step: &TestStep) -> Result<(), AllocError> {
    add(told, step.id.as_str())?;
    add_optional(told, &step.hook_id)?;
    add_optional(told, &step.pickle_step_id)?;
    add_all(told, step.step_definition_ids.as_slice())
}

fn add_case(told: &mut String, case: &TestCase) -> Result<(), AllocError> {
    add(told, case.id.as_str())?;
    add(told, case.pickle_id.as_str())?;
    add_optional(told, &case.test_run_started_id)?;
    for step in case.test_steps.as_slice() {
        add_test_step(told, step)?;
    }
    Ok(())
}

fn add_run_end(told: &mut String, run: &TestRunFinished) -> Result<(), AllocError> {
    add_optional(told, &run.test_run_started_id)?;
    add_flag(told, run.success)?;
    add_flag(told, run.has_exception)
}

// Adds the members of an envelope of a feature.
fn add_feature(told: &mut String, envelope: &Envelope) -> Result<(), AllocError> {
    match envelope {
        Envelope::Source(source) => {
            add(told, source.uri.as_str())?;
            add(told, source.content.as_str())?;
            add(told, source.media_type.as_str())
        }
        Envelope::GherkinDocument(document) => add_document(told, document),
        Envelope::ParseError(error) => add(told, error.source.uri.as_str()),
        Envelope::Pickle(pickle) => add_pickle(told, pickle),
        Envelope::StepDefinition(definition) => add(told, definition.id.as_str()),
        Envelope::Hook(hook) => add(told, hook.id.as_str()),
        Envelope::TestCase(case) => add_case(told, case),
        _ => Ok(()),
    }
}

// Adds the members of an envelope of a run.
fn add_run(told: &mut String, envelope: &Envelope) -> Result<(), AllocError> {
    match envelope {
        Envelope::TestRunStarted(run) => add_optional(told, &run.id),
        Envelope::TestRunFinished(run) => add_run_end(told, run),
        Envelope::TestRunHookStarted(hook) => {
            add(told, hook.id.as_str())?;
            add_optional(told, &hook.test_run_started_id)?;
            add(told, hook.hook_id.as_str())
        }
        Envelope::TestRunHookFinished(hook) => {
            add(told, hook.test_run_hook_started_id.as_str())?;
            add(told, word_of(hook.result.status))
        }
        _ => Ok(()),
    }
}

// Adds the members of an envelope of an attempt.
fn add_attempt(told: &mut String, envelope: &Envelope) -> Result<(), AllocError> {
    match envelope {
        Envelope::TestCaseStarted(started) => {
            add(told, started.id.as_str())?;
            add(told, started.test_case_id.as_str())?;
            let number = started.attempt;
            write!(told, "|{number}")
        }
        Envelope::TestStepStarted(step) => {
            add(told, step.test_case_started_id.as_str())?;
            add(told, step.test_step_id.as_str())
        }
        Envelope::TestStepFinished(step) => {
            add(told, step.test_case_started_id.as_str())?;
            add(told, step.test_step_id.as_str())?;
            add(told, word_of(step.test_step_result.status))
        }
        Envelope::TestCaseFinished(finished) => {
            add(told, finished.test_case_started_id.as_str())?;
            add_flag(told, finished.will_be_retried)
        }
        Envelope::Attachment(attachment) => {
            add_optional(told, &attachment.test_case_started_id)?;
            add_optional(told, &attachment.test_step_id)
        }
        _ => Ok(()),
    }
}

// The kind and the members, with a slash for each line feed in them.
fn told_of(alloc: Global, envelope: &Envelope) -> Result<String, AllocError> {
    let mut told = String::from_str(alloc, kind_name(envelope))?;
    add_feature(&mut told, envelope)?;
    add_run(&mut told, envelope)?;
    add_attempt(&mut told, envelope)?;
    told.as_str().replace(alloc, "\n", "/")
}

// One line each: the kind and the members that are read, and the line.
const LINES: &str =
    r#"other = {"meta":{"protocolVersion":"27.0.0","implementation":{"name":"cucumber-js","version":"11.0.0"},"os":{"name":"linux"}}}
source|features/cukes.feature|Feature: cukes/|text/x.cucumber.gherkin+plain = {"source":{"uri":"features/cukes.feature","data":"Feature: cukes\n","mediaType":"text/x.cucumber.gherkin+plain"}}
gherkinDocument|features/cukes.feature|1|0 = {"gherkinDocument":{"uri":"features/cukes.feature","feature":{"location":{"line":1,"column":1},"tags":[],"language":"en","keyword":"Feature","name":"cukes","description":"","children":[{"scenario":{"id":"1","location":{"line":3,"column":3},"tags":[],"keyword":"Scenario","name":"eat","description":"","steps":[{"id":"0","location":{"line":4,"column":5},"keyword":"Given ","keywordType":"Context","text":"I have 42 cukes"}],"examples":[]}}]},"comments":[{"location":{"line":2,"column":1},"text":" # c"}]}}
pickle|3|features/cukes.feature|eat|en|1|2|I have 42 cukes|Context|0 = {"pickle":{"id":"3","uri":"features/cukes.feature","location":{"line":3,"column":3},"astNodeIds":["1"],"tags":[],"name":"eat","language":"en","steps":[{"id":"2","text":"I have 42 cukes","type":"Context","astNodeIds":["0"]}]}}
parseError|features/b.feature = {"parseError":{"source":{"uri":"features/b.feature","location":{"line":1,"column":1}},"message":"(1:1): expected: #EOF"}}
stepDefinition|4 = {"stepDefinition":{"id":"4","pattern":{"source":"I have {int} cukes","type":"CUCUMBER_EXPRESSION"},"sourceReference":{"uri":"features/steps.ts","location":{"line":5}}}}
hook|5 = {"hook":{"id":"5","type":"BEFORE_TEST_CASE","name":"clean","tagExpression":"@a","sourceReference":{"uri":"features/hooks.ts","location":{"line":3}}}}
hook|h = {"source":null,"hook":{"id":"h"}}
testCaseFinished|a|false = {"testCase":null,"testCaseFinished":{"testCaseStartedId":"a"}}
testRunStarted|6 = {"testRunStarted":{"id":"6","timestamp":{"seconds":0,"nanos":0}}}
testCase|7|3|6|8|5|-|9|-|2|4 = {"testCase":{"id":"7","pickleId":"3","testRunStartedId":"6","testSteps":[{"id":"8","hookId":"5"},{"id":"9","pickleStepId":"2","stepDefinitionIds":["4"],"stepMatchArgumentsLists":[{"stepMatchArguments":[{"argumentIndex":0,"group":{"start":7,"value":"42","children":[]},"parameterTypeName":"int"}]}]}]}}
testRunHookStarted|10|6|5 = {"testRunHookStarted":{"id":"10","testRunStartedId":"6","hookId":"5","timestamp":{"seconds":0,"nanos":1}}}
testRunHookFinished|10|PASSED = {"testRunHookFinished":{"testRunHookStartedId":"10","result":{"status":"PASSED","duration":{"seconds":0,"nanos":1}},"timestamp":{"seconds":0,"nanos":2}}}
testCaseStarted|11|7|0 = {"testCaseStarted":{"attempt":0,"id":"11","testCaseId":"7","workerId":"worker-1","timestamp":{"seconds":0,"nanos":3}}}
testStepStarted|11|9 = {"testStepStarted":{"testCaseStartedId":"11","testStepId":"9","timestamp":{"seconds":0,"nanos":4}}}
attachment|11|9 = {"attachment":{"testCaseStartedId":"11","testStepId":"9","body":"hi","contentEncoding":"IDENTITY","mediaType":"text/plain"}}
testStepFinished|11|9|FAILED = {"testStepFinished":{"testCaseStartedId":"11","testStepId":"9","testStepResult":{"status":"FAILED","duration":{"seconds":0,"nanos":1},"message":"no","exception":{"type":"Error","message":"no"}},"timestamp":{"seconds":0,"nanos":5}}}
testCaseFinished|11|false = {"testCaseFinished":{"testCaseStartedId":"11","willBeRetried":false,"timestamp":{"seconds":0,"nanos":6}}}
testRunFinished|6|false|true = {"testRunFinished":{"testRunStartedId":"6","success":false,"exception":{"type":"Error"},"timestamp":{"seconds":0,"nanos":7}}}"#;

fn expect_envelope(
    rt: &impl Abort,
    alloc: Global,
    read: &Result<Envelope, EnvelopeFault>,
    wanted: &str,
) -> Result<(), AllocError> {
    match read {
        Ok(envelope) => assert!(rt; told_of(alloc, envelope)?.as_str() == wanted, "{wanted}"),
        Err(_) => assert!(rt; false, "no envelope"),
    }
    Ok(())
}

fn expect_line(
    rt: &impl Abort,
    alloc: Global,
    line: &[u8],
    wanted: &str,
) -> Result<(), AllocError> {
    let read = read_envelope(alloc, line);
    let done = expect_envelope(rt, alloc, &read, wanted);
    drop(read);
    done
}

#[test]
fn lines_of_producers(rt: HostRuntime) -> Result<(), Fail> {
    for told in LINES.lines() {
        let (wanted, line) = told.split_once(" = ").ok_or("no line")?;
        expect_line(&rt, rt.alloc(), line.as_bytes(), wanted)?;
    }
    Ok(())
}
