//! Streams as words. A word means a line: `case:C:T` for a test case with the step T (or two, as `T+U`), `start:A:C:N` for
//! attempt A of case C with the number N, `step:A:T` and `end:A:T:STATUS` for its steps, `done:A:false` for its end, `brackets:N` for N
//! of `[` and as many of `]`, a name for its line of `NAMED_LINES`, and `-` for a line that isn't judged.
use crate::tests::running::expect_words;
use devices::Pieces;
use std::alloc::Global;
use std::process::Abort;
use std::test::Fail;

// A name, and its line.
const NAMED_LINES: &str =
    r##"source = {"source":{"data":"Feature: f\n\n  Scenario: s\n    Given a\n","mediaType":"text/x.cucumber.gherkin+plain","uri":"a.feature"}}
document = {"gherkinDocument":{"comments":[],"feature":{"children":[{"scenario":{"description":"","examples":[],"id":"0","keyword":"Scenario","location":{"column":3,"line":3},"name":"s","steps":[{"id":"1","keyword":"Given ","keywordType":"Context","location":{"column":5,"line":4},"text":"a"}],"tags":[]}}],"description":"","keyword":"Feature","language":"en","location":{"column":1,"line":1},"name":"f","tags":[]},"uri":"a.feature"}}
document_moved = {"gherkinDocument":{"comments":[],"feature":{"children":[{"scenario":{"description":"","examples":[],"id":"0","keyword":"Scenario","location":{"column":3,"line":3},"name":"s","steps":[{"id":"1","keyword":"Given ","keywordType":"Context","location":{"column":5,"line":5},"text":"a"}],"tags":[]}}],"description":"","keyword":"Feature","language":"en","location":{"column":1,"line":1},"name":"f","tags":[]},"uri":"a.feature"}}
document_named = {"gherkinDocument":{"comments":[],"feature":{"children":[{"scenario":{"description":"","examples":[],"id":"x0","keyword":"Scenario","location":{"column":3,"line":3},"name":"s","steps":[{"id":"x1","keyword":"Given ","keywordType":"Context","location":{"column":5,"line":4},"text":"a"}],"tags":[]}}],"description":"","keyword":"Feature","language":"en","location":{"column":1,"line":1},"name":"f","tags":[]},"uri":"a.feature"}}
document_with_one_id = {"gherkinDocument":{"comments":[],"feature":{"children":[{"scenario":{"description":"","examples":[],"id":"0","keyword":"Scenario","location":{"column":3,"line":3},"name":"s","steps":[{"id":"0","keyword":"Given ","keywordType":"Context","location":{"column":5,"line":4},"text":"a"}],"tags":[]}}],"description":"","keyword":"Feature","language":"en","location":{"column":1,"line":1},"name":"f","tags":[]},"uri":"a.feature"}}
pickle = {"pickle":{"astNodeIds":["0"],"id":"3","language":"en","name":"s","steps":[{"astNodeIds":["1"],"id":"2","text":"a","type":"Context"}],"tags":[],"uri":"a.feature"}}
pickle_named = {"pickle":{"astNodeIds":["x0"],"id":"3","language":"en","name":"s","steps":[{"astNodeIds":["x1"],"id":"2","text":"a","type":"Context"}],"tags":[],"uri":"a.feature"}}
outline = {"source":{"data":"Feature: f\n  Scenario: s\n    Given <a>\n    Examples:\n      | a |\n      | x |\n      | x |\n      | y |\n","mediaType":"text/x.cucumber.gherkin+plain","uri":"o.feature"}}
outline_document = {"gherkinDocument":{"comments":[],"feature":{"children":[{"scenario":{"description":"","examples":[{"description":"","id":"2","keyword":"Examples","location":{"column":5,"line":4},"name":"","tableBody":[{"cells":[{"location":{"column":9,"line":6},"value":"x"}],"id":"4","location":{"column":7,"line":6}},{"cells":[{"location":{"column":9,"line":7},"value":"x"}],"id":"5","location":{"column":7,"line":7}},{"cells":[{"location":{"column":9,"line":8},"value":"y"}],"id":"6","location":{"column":7,"line":8}}],"tableHeader":{"cells":[{"location":{"column":9,"line":5},"value":"a"}],"id":"3","location":{"column":7,"line":5}},"tags":[]}],"id":"0","keyword":"Scenario","location":{"column":3,"line":2},"name":"s","steps":[{"id":"1","keyword":"Given ","keywordType":"Context","location":{"column":5,"line":3},"text":"<a>"}],"tags":[]}}],"description":"","keyword":"Feature","language":"en","location":{"column":1,"line":1},"name":"f","tags":[]},"uri":"o.feature"}}
first_row = {"pickle":{"astNodeIds":["0","4"],"id":"8","language":"en","name":"s","steps":[{"astNodeIds":["1","4"],"id":"7","text":"x","type":"Context"}],"tags":[],"uri":"o.feature"}}
second_row = {"pickle":{"astNodeIds":["0","5"],"id":"10","language":"en","name":"s","steps":[{"astNodeIds":["1","5"],"id":"9","text":"x","type":"Context"}],"tags":[],"uri":"o.feature"}}
third_row = {"pickle":{"astNodeIds":["0","6"],"id":"12","language":"en","name":"s","steps":[{"astNodeIds":["1","6"],"id":"11","text":"y","type":"Context"}],"tags":[],"uri":"o.feature"}}
third_row_again = {"pickle":{"astNodeIds":["0","6"],"id":"13","language":"en","name":"s","steps":[{"astNodeIds":["1","6"],"id":"11","text":"y","type":"Context"}],"tags":[],"uri":"o.feature"}}
stepless = {"source":{"data":"Feature: f\n  Background:\n    Given a\n    And b\n  Scenario: s","mediaType":"text/x.cucumber.gherkin+plain","uri":"r.feature"}}
stepless_document = {"gherkinDocument":{"comments":[],"feature":{"children":[{"background":{"description":"","id":"0","keyword":"Background","location":{"column":3,"line":2},"name":"","steps":[{"id":"1","keyword":"Given ","keywordType":"Context","location":{"column":5,"line":3},"text":"a"},{"id":"2","keyword":"And ","keywordType":"Conjunction","location":{"column":5,"line":4},"text":"b"}]}},{"scenario":{"description":"","examples":[],"id":"3","keyword":"Scenario","location":{"column":3,"line":5},"name":"s","steps":[],"tags":[]}}],"description":"","keyword":"Feature","language":"en","location":{"column":1,"line":1},"name":"f","tags":[]},"uri":"r.feature"}}
stepless_pickle = {"pickle":{"astNodeIds":["3"],"id":"4","language":"en","name":"s","steps":[],"tags":[],"uri":"r.feature"}}
stepless_case = {"testCase":{"id":"c1","pickleId":"4","testSteps":[]}}
hooked_stepless_case = {"testCase":{"id":"c1","pickleId":"4","testSteps":[{"id":"h1","hookId":"h"}]}}
background = {"source":{"data":"Feature: f\n  Background:\n    Given b\n  Scenario: s\n    Given a\n","mediaType":"text/x.cucumber.gherkin+plain","uri":"k.feature"}}
background_document = {"gherkinDocument":{"comments":[],"feature":{"children":[{"background":{"description":"","id":"0","keyword":"Background","location":{"column":3,"line":2},"name":"","steps":[{"id":"1","keyword":"Given ","keywordType":"Context","location":{"column":5,"line":3},"text":"b"}]}},{"scenario":{"description":"","examples":[],"id":"2","keyword":"Scenario","location":{"column":3,"line":4},"name":"s","steps":[{"id":"3","keyword":"Given ","keywordType":"Context","location":{"column":5,"line":5},"text":"a"}],"tags":[]}}],"description":"","keyword":"Feature","language":"en","location":{"column":1,"line":1},"name":"f","tags":[]},"uri":"k.feature"}}
background_pickle = {"pickle":{"astNodeIds":["2"],"id":"20","language":"en","name":"s","steps":[{"astNodeIds":["1"],"id":"21","text":"b","type":"Context"},{"astNodeIds":["3"],"id":"22","text":"a","type":"Context"}],"tags":[],"uri":"k.feature"}}
background_pickle_with_one_id = {"pickle":{"astNodeIds":["2"],"id":"20","language":"en","name":"s","steps":[{"astNodeIds":["1"],"id":"21","text":"b","type":"Context"},{"astNodeIds":["3"],"id":"21","text":"a","type":"Context"}],"tags":[],"uri":"k.feature"}}
background_case = {"testCase":{"id":"c1","pickleId":"20","testSteps":[{"id":"t1","pickleStepId":"21"},{"id":"t2","pickleStepId":"22"}]}}
turned = {"source":{"data":"Feature: f\n  Scenario: s\n    Given a\u202eb\\c\n","mediaType":"text/x.cucumber.gherkin+plain","uri":"z.feature"}}
turned_document = {"gherkinDocument":{"comments":[],"feature":{"children":[{"scenario":{"description":"","examples":[],"id":"0","keyword":"Scenario","location":{"column":3,"line":2},"name":"s","steps":[{"id":"1","keyword":"Given ","keywordType":"Context","location":{"column":5,"line":3},"text":"a\u202eb\\c"}],"tags":[]}}],"description":"","keyword":"Feature","language":"en","location":{"column":1,"line":1},"name":"f","tags":[]},"uri":"z.feature"}}
turned_pickle = {"pickle":{"astNodeIds":["0"],"id":"30","language":"en","name":"s","steps":[{"astNodeIds":["1"],"id":"31","text":"a\u202eb\\c","type":"Context"}],"tags":[],"uri":"z.feature"}}
turned_case = {"testCase":{"id":"c1","pickleId":"30","testSteps":[{"id":"t1","pickleStepId":"31"}]}}
tagged = {"source":{"data":"@slow\nFeature: f\n  @wip\n  Scenario: s\n    Given a\n","mediaType":"text/x.cucumber.gherkin+plain","uri":"w.feature"}}
tagged_document = {"gherkinDocument":{"comments":[],"feature":{"children":[{"scenario":{"description":"","examples":[],"id":"s","keyword":"Scenario","location":{"column":3,"line":4},"name":"s","steps":[{"id":"t","keyword":"Given ","keywordType":"Context","location":{"column":5,"line":5},"text":"a"}],"tags":[{"id":"w","location":{"column":3,"line":3},"name":"@wip"}]}}],"description":"","keyword":"Feature","language":"en","location":{"column":1,"line":2},"name":"f","tags":[{"id":"l","location":{"column":1,"line":1},"name":"@slow"}]},"uri":"w.feature"}}
tagged_pickle = {"pickle":{"astNodeIds":["s"],"id":"9","language":"en","name":"s","steps":[{"astNodeIds":["t"],"id":"8","text":"a","type":"Context"}],"tags":[{"astNodeId":"l","name":"@slow"},{"astNodeId":"w","name":"@wip"}],"uri":"w.feature"}}
definition = {"stepDefinition":{"id":"d"}}
matched_case = {"testCase":{"id":"c1","pickleId":"3","testSteps":[{"id":"t1","pickleStepId":"2","stepDefinitionIds":["d"]}]}}
unmatched_case = {"testCase":{"id":"c1","pickleId":"3","testSteps":[{"id":"t1","pickleStepId":"2","stepDefinitionIds":[]}]}}
hooked_case = {"testCase":{"id":"c1","pickleId":"3","testSteps":[{"id":"h1","hookId":"h"},{"id":"t1","pickleStepId":"2","stepDefinitionIds":["d"]}]}}
case_with_one_id = {"testCase":{"id":"c1","pickleId":"3","testSteps":[{"id":"t1","hookId":"h"},{"id":"t1","pickleStepId":"2"}]}}
source_b = {"source":{"data":"Feature: g\n\n  Scenario: t\n    Given b\n","mediaType":"text/x.cucumber.gherkin+plain","uri":"b.feature"}}
document_b = {"gherkinDocument":{"comments":[],"feature":{"children":[{"scenario":{"description":"","examples":[],"id":"0","keyword":"Scenario","location":{"column":3,"line":3},"name":"t","steps":[{"id":"1","keyword":"Given ","keywordType":"Context","location":{"column":5,"line":4},"text":"b"}],"tags":[]}}],"description":"","keyword":"Feature","language":"en","location":{"column":1,"line":1},"name":"g","tags":[]},"uri":"b.feature"}}
pickle_b = {"pickle":{"astNodeIds":["0"],"id":"7","language":"en","name":"t","steps":[{"astNodeIds":["1"],"id":"6","text":"b","type":"Context"}],"tags":[],"uri":"b.feature"}}
pickle_c = {"pickle":{"astNodeIds":["0"],"id":"7","language":"en","name":"t","steps":[{"astNodeIds":["1"],"id":"6","text":"b","type":"Context"}],"tags":[],"uri":"a.feature"}}
pickle_b_with_id_3 = {"pickle":{"astNodeIds":["0"],"id":"3","language":"en","name":"t","steps":[{"astNodeIds":["1"],"id":"6","text":"b","type":"Context"}],"tags":[],"uri":"b.feature"}}
case_b = {"testCase":{"id":"c2","pickleId":"7","testSteps":[{"id":"t1","pickleStepId":"6"}]}}
second_row_case = {"testCase":{"id":"c1","pickleId":"10","testSteps":[{"id":"t1","pickleStepId":"9"}]}}
third_row_case = {"testCase":{"id":"c2","pickleId":"12","testSteps":[{"id":"t1","pickleStepId":"11"}]}}
refused = {"source":{"data":"Given x","mediaType":"text/x.cucumber.gherkin+plain","uri":"b.feature"}}
refused_document = {"gherkinDocument":{"uri":"b.feature"}}
refused_error = {"parseError":{"source":{"uri":"b.feature"},"message":"m"}}
refused_background = {"source":{"data":"Feature: f\n  Scenario: s\n    Given a\n  Background:\n","mediaType":"text/x.cucumber.gherkin+plain","uri":"c.feature"}}
refused_background_document = {"gherkinDocument":{"uri":"c.feature"}}
error = {"parseError":{"source":{"uri":"a.feature"}}}
french = {"source":{"data":"# language: fr\nFeature: x","mediaType":"text/x.cucumber.gherkin+plain","uri":"f.feature"}}
markdown = {"source":{"data":"","mediaType":"text/x.cucumber.gherkin+markdown","uri":"m.feature"}}
hook = {"hook":{"id":"h"}}
null_source = {"source":null,"hook":{"id":"h"}}
hook_named_d = {"hook":{"id":"d"}}
hook_with_more = {"hook":{"id":"h","name":7,"tagExpression":[]}}
hook_without_id = {"hook":{}}
definition_without_id = {"stepDefinition":{"id":0}}
case_hooked_by_d = {"testCase":{"id":"c1","pickleId":"3","testSteps":[{"id":"h1","hookId":"d"},{"id":"t1","pickleStepId":"2","stepDefinitionIds":["d"]}]}}
hook_start = {"testRunHookStarted":{"id":"r1","hookId":"h"}}
hook_passed = {"testRunHookFinished":{"testRunHookStartedId":"r1","result":{"status":"PASSED"}}}
hook_failed = {"testRunHookFinished":{"testRunHookStartedId":"r1","result":{"status":"FAILED"}}}
hook_pending = {"testRunHookFinished":{"testRunHookStartedId":"r1","result":{"status":"PENDING"}}}
hook_unknown = {"testRunHookFinished":{"testRunHookStartedId":"r1","result":{"status":"UNKNOWN"}}}
hook_g = {"hook":{"id":"g"}}
hook_g_start = {"testRunHookStarted":{"id":"r2","hookId":"g"}}
hook_g_undefined = {"testRunHookFinished":{"testRunHookStartedId":"r2","result":{"status":"UNDEFINED"}}}
start_without_number = {"testCaseStarted":{"id":"a1","testCaseId":"c1"}}
case_without_steps = {"testCase":{"id":"c1","pickleId":"3","testSteps":[]}}
run = {"testRunStarted":{}}
array = []
empty_pickle = {"pickle":{}}
well = {"testRunFinished":{"success":true}}
unwell = {"testRunFinished":{"success":false}}
exception = {"testRunFinished":{"success":true,"exception":{"type":"E"}}}
unwell_exception = {"testRunFinished":{"success":false,"exception":{"type":"E"}}}"##;

// A stream whose one case failed, and then passed.
pub(crate) const RETRIED: &str =
    "source document pickle run case:c1:t1 start:a1:c1:0 step:a1:t1 end:a1:t1:FAILED done:a1:true start:a2:c1:1 step:a2:t1 end:a2:t1:PASSED done:a2:false well";

fn step_of(alloc: Global, id: &str) -> Result<String, Fail> {
    Ok(format!(in alloc; "{{\"id\":\"{id}\",\"pickleStepId\":\"2\"}}")?)
}

// The steps of a case, one or two.
fn steps_of(alloc: Global, ids: &str) -> Result<String, Fail> {
    match ids.split_once('+') {
        None => step_of(alloc, ids),
        Some((first, second)) => {
            let (first, second) = (step_of(alloc, first)?, step_of(alloc, second)?);
            let (first, second) = (first.as_str(), second.as_str());
            Ok(format!(in alloc; "{first},{second}")?)
        }
    }
}

fn case_line(alloc: Global, id: &str, steps: &str) -> Result<String, Fail> {
    let steps = steps_of(alloc, steps)?;
    let steps = steps.as_str();
    Ok(format!(in alloc;
        "{{\"testCase\":{{\"id\":\"{id}\",\"pickleId\":\"3\",\"testSteps\":[{steps}]}}}}\n"
    )?)
}

fn start_line(alloc: Global, id: &str, rest: &str) -> Result<String, Fail> {
    let (case, number) = rest.split_once(':').ok_or("no number")?;
    Ok(format!(in alloc;
        "{{\"testCaseStarted\":{{\"id\":\"{id}\",\"testCaseId\":\"{case}\",\"attempt\":{number}}}}}\n"
    )?)
}

fn step_line(alloc: Global, attempt: &str, step: &str) -> Result<String, Fail> {
    Ok(format!(in alloc;
        "{{\"testStepStarted\":{{\"testCaseStartedId\":\"{attempt}\",\"testStepId\":\"{step}\"}}}}\n"
    )?)
}

fn end_line(alloc: Global, attempt: &str, rest: &str) -> Result<String, Fail> {
    let (step, status) = rest.split_once(':').ok_or("no status")?;
    Ok(format!(in alloc;
        "{{\"testStepFinished\":{{\"testCaseStartedId\":\"{attempt}\",\"testStepId\":\"{step}\",\"testStepResult\":{{\"status\":\"{status}\"}}}}}}\n"
    )?)
}

fn done_line(alloc: Global, attempt: &str, is_retried: &str) -> Result<String, Fail> {
    Ok(format!(in alloc;
        "{{\"testCaseFinished\":{{\"testCaseStartedId\":\"{attempt}\",\"willBeRetried\":{is_retried}}}}}\n"
    )?)
}

// The text so many times.
pub(crate) fn repeated(alloc: Global, text: &str, times: u32) -> Result<String, Fail> {
    let mut all = String::new(alloc);
    for _ in 0..times {
        all.push_str(text)?;
    }
    Ok(all)
}

fn brackets_line(alloc: Global, depth: &str) -> Result<String, Fail> {
    let depth: u32 = depth.parse().map_err(|_| "no depth")?;
    let (left, right) = (repeated(alloc, "[", depth)?, repeated(alloc, "]", depth)?);
    let (left, right) = (left.as_str(), right.as_str());
    Ok(format!(in alloc; "{left}{right}\n")?)
}

fn named_line(alloc: Global, name: &str) -> Result<String, Fail> {
    for row in NAMED_LINES.lines() {
        let (known, line) = row.split_once(" = ").ok_or("no line")?;
        if known == name {
            return Ok(format!(in alloc; "{line}\n")?);
        }
    }
    Err(Fail::from("no word"))
}

fn line_of(alloc: Global, word: &str) -> Result<String, Fail> {
    let (kind, rest) = word.split_once(':').unwrap_or((word, ""));
    let (id, more) = rest.split_once(':').unwrap_or((rest, ""));
    match kind {
        "case" => case_line(alloc, id, more),
        "start" => start_line(alloc, id, more),
        "step" => step_line(alloc, id, more),
        "end" => end_line(alloc, id, more),
        "done" => done_line(alloc, id, more),
        "brackets" => brackets_line(alloc, id),
        "-" => Ok(String::from_str(alloc, "{\"meta\":{}}\n")?),
        _ => named_line(alloc, kind),
    }
}

pub(crate) fn stream_of(alloc: Global, words: &str) -> Result<String, Fail> {
    let mut text = String::new(alloc);
    for word in words.split(' ') {
        text.push_str(line_of(alloc, word)?.as_str())?;
    }
    Ok(text)
}

// The lines of a text with a slash between two of them.
fn printed(alloc: Global, told: &str) -> Result<String, Fail> {
    let text = told.replace(alloc, "/", "\n")?;
    let text = text.as_str();
    Ok(format!(in alloc; "{text}\n")?)
}

// What a command prints, and its status, for a stream of these lines.
fn expect_stream(
    rt: &impl Abort,
    alloc: Global,
    words: &[&str],
    lines: &str,
    text: &str,
    status: u8,
) -> Result<(), Fail> {
    let stream = stream_of(alloc, lines)?;
    expect_words(
        rt,
        alloc,
        words,
        Pieces::whole(stream.as_bytes()),
        text,
        status,
    );
    Ok(())
}

// A row has the lines that are printed, each with a slash after it, a space, the status, ` = ` and the stream.
fn expect_row(rt: &impl Abort, alloc: Global, words: &[&str], row: &str) -> Result<(), Fail> {
    let (told, lines) = row.split_once(" = ").ok_or("no stream")?;
    let (text, status) = told.split_once("/ ").ok_or("no status")?;
    let status: u8 = status.parse().map_err(|_| "no status")?;
    let text = printed(alloc, text)?;
    expect_stream(rt, alloc, words, lines, text.as_str(), status)
}

// What a command prints, and its status, for each row of a table.
pub(crate) fn expect_rows(
    rt: &impl Abort,
    alloc: Global,
    words: &[&str],
    table: &str,
) -> Result<(), Fail> {
    for row in table.lines() {
        expect_row(rt, alloc, words, row)?;
    }
    Ok(())
}
