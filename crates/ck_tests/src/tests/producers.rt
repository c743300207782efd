//! A whole stream as the producers of messages write it: with their order of members and of ids, and with members and envelopes that
//! aren't judged. It is laid out as the sample on retries of Cucumber's compatibility kit, and was written down for this test.
use crate::tests::running::expect_told;
use devices::Pieces;
use std::test::Fail;

const STREAM: &str =
    r#"{"meta":{"protocolVersion":"28.0.0","implementation":{"name":"fake-cucumber","version":"18.0.0"},"cpu":{"name":"arm64"},"os":{"name":"darwin","version":"24.5.0"},"runtime":{"name":"Node.js","version":"24.4.1"},"ci":{"name":"GitHub Actions","url":"https://example.org/actions/runs/154666429","buildNumber":"154666429"}}}
{"source":{"data":"Feature: Retry\n  Some Cucumber implementations support a Retry mechanism, where test cases that fail\n  can be retried up to a limited number of attempts in the same test run.\n\n  Scenario: Test cases that pass aren't retried\n    Given a step that always passes\n\n  @second\n  Scenario: Test cases that fail are retried if within the --retry limit\n    Given a step that passes the second time\n      | times | 2 |\n","uri":"samples/retry/retry.feature","mediaType":"text/x.cucumber.gherkin+plain"}}
{"gherkinDocument":{"feature":{"tags":[],"location":{"line":1,"column":1},"language":"en","keyword":"Feature","name":"Retry","description":"  Some Cucumber implementations support a Retry mechanism, where test cases that fail\n  can be retried up to a limited number of attempts in the same test run.","children":[{"scenario":{"id":"1","tags":[],"location":{"line":5,"column":3},"keyword":"Scenario","name":"Test cases that pass aren't retried","description":"","steps":[{"id":"0","location":{"line":6,"column":5},"keyword":"Given ","keywordType":"Context","text":"a step that always passes"}],"examples":[]}},{"scenario":{"id":"5","tags":[{"location":{"line":8,"column":3},"name":"@second","id":"4"}],"location":{"line":9,"column":3},"keyword":"Scenario","name":"Test cases that fail are retried if within the --retry limit","description":"","steps":[{"id":"3","location":{"line":10,"column":5},"keyword":"Given ","keywordType":"Context","text":"a step that passes the second time","dataTable":{"location":{"line":11,"column":7},"rows":[{"id":"2","location":{"line":11,"column":7},"cells":[{"location":{"line":11,"column":9},"value":"times"},{"location":{"line":11,"column":17},"value":"2"}]}]}}],"examples":[]}}]},"comments":[],"uri":"samples/retry/retry.feature"}}
{"pickle":{"id":"7","uri":"samples/retry/retry.feature","location":{"line":5,"column":3},"astNodeIds":["1"],"tags":[],"name":"Test cases that pass aren't retried","language":"en","steps":[{"id":"6","text":"a step that always passes","type":"Context","astNodeIds":["0"]}]}}
{"pickle":{"id":"9","uri":"samples/retry/retry.feature","location":{"line":9,"column":3},"astNodeIds":["5"],"tags":[{"name":"@second","astNodeId":"4"}],"name":"Test cases that fail are retried if within the --retry limit","language":"en","steps":[{"id":"8","text":"a step that passes the second time","type":"Context","argument":{"dataTable":{"rows":[{"cells":[{"value":"times"},{"value":"2"}]}]}},"astNodeIds":["3"]}]}}
{"stepDefinition":{"id":"10","pattern":{"type":"CUCUMBER_EXPRESSION","source":"a step that always passes"},"sourceReference":{"uri":"samples/retry/retry.ts","location":{"line":3}}}}
{"stepDefinition":{"id":"11","pattern":{"type":"CUCUMBER_EXPRESSION","source":"a step that passes the {word} time"},"sourceReference":{"uri":"samples/retry/retry.ts","location":{"line":8}}}}
{"hook":{"id":"12","type":"BEFORE_TEST_CASE","name":"count","sourceReference":{"uri":"samples/retry/retry.ts","location":{"line":1}}}}
{"testRunStarted":{"id":"13","timestamp":{"seconds":0,"nanos":0}}}
{"testCase":{"id":"14","pickleId":"7","testSteps":[{"id":"15","hookId":"12"},{"id":"16","pickleStepId":"6","stepDefinitionIds":["10"],"stepMatchArgumentsLists":[{"stepMatchArguments":[]}]}],"testRunStartedId":"13"}}
{"testCase":{"id":"17","pickleId":"9","testSteps":[{"id":"18","hookId":"12"},{"id":"19","pickleStepId":"8","stepDefinitionIds":["11"],"stepMatchArgumentsLists":[{"stepMatchArguments":[{"group":{"start":19,"value":"second","children":[]},"parameterTypeName":"word"}]}]}],"testRunStartedId":"13"}}
{"testCaseStarted":{"id":"20","testCaseId":"14","timestamp":{"seconds":0,"nanos":1000000},"attempt":0}}
{"testStepStarted":{"testCaseStartedId":"20","testStepId":"15","timestamp":{"seconds":0,"nanos":2000000}}}
{"testStepFinished":{"testCaseStartedId":"20","testStepId":"15","testStepResult":{"status":"PASSED","duration":{"seconds":0,"nanos":1000000}},"timestamp":{"seconds":0,"nanos":3000000}}}
{"testStepStarted":{"testCaseStartedId":"20","testStepId":"16","timestamp":{"seconds":0,"nanos":4000000}}}
{"testStepFinished":{"testCaseStartedId":"20","testStepId":"16","testStepResult":{"status":"PASSED","duration":{"seconds":0,"nanos":1000000}},"timestamp":{"seconds":0,"nanos":5000000}}}
{"testCaseFinished":{"testCaseStartedId":"20","timestamp":{"seconds":0,"nanos":6000000},"willBeRetried":false}}
{"testCaseStarted":{"id":"21","testCaseId":"17","timestamp":{"seconds":0,"nanos":7000000},"attempt":0}}
{"testStepStarted":{"testCaseStartedId":"21","testStepId":"18","timestamp":{"seconds":0,"nanos":8000000}}}
{"testStepFinished":{"testCaseStartedId":"21","testStepId":"18","testStepResult":{"status":"PASSED","duration":{"seconds":0,"nanos":1000000}},"timestamp":{"seconds":0,"nanos":9000000}}}
{"testStepStarted":{"testCaseStartedId":"21","testStepId":"19","timestamp":{"seconds":0,"nanos":10000000}}}
{"attachment":{"testCaseStartedId":"21","testStepId":"19","body":"first time","contentEncoding":"IDENTITY","mediaType":"text/x.cucumber.log+plain","timestamp":{"seconds":0,"nanos":11000000}}}
{"testStepFinished":{"testCaseStartedId":"21","testStepId":"19","testStepResult":{"status":"FAILED","duration":{"seconds":0,"nanos":1000000},"message":"Exception in step\nsamples/retry/retry.feature:10","exception":{"type":"Error","message":"Exception in step","stackTrace":"Error: Exception in step\nsamples/retry/retry.feature:10"}},"timestamp":{"seconds":0,"nanos":12000000}}}
{"testCaseFinished":{"testCaseStartedId":"21","timestamp":{"seconds":0,"nanos":13000000},"willBeRetried":true}}
{"testCaseStarted":{"id":"22","testCaseId":"17","timestamp":{"seconds":0,"nanos":14000000},"attempt":1}}
{"testStepStarted":{"testCaseStartedId":"22","testStepId":"18","timestamp":{"seconds":0,"nanos":15000000}}}
{"testStepFinished":{"testCaseStartedId":"22","testStepId":"18","testStepResult":{"status":"PASSED","duration":{"seconds":0,"nanos":1000000}},"timestamp":{"seconds":0,"nanos":16000000}}}
{"testStepStarted":{"testCaseStartedId":"22","testStepId":"19","timestamp":{"seconds":0,"nanos":17000000}}}
{"testStepFinished":{"testCaseStartedId":"22","testStepId":"19","testStepResult":{"status":"PASSED","duration":{"seconds":0,"nanos":1000000}},"timestamp":{"seconds":0,"nanos":18000000}}}
{"testCaseFinished":{"testCaseStartedId":"22","timestamp":{"seconds":0,"nanos":19000000},"willBeRetried":false}}
{"testRunFinished":{"testRunStartedId":"13","timestamp":{"seconds":0,"nanos":20000000},"success":true}}
"#;

#[test]
fn a_stream_of_a_producer(rt: HostRuntime) -> Result<(), Fail> {
    let alloc = rt.alloc();
    let told = "good sources=1 pickles=2 cases=2 attempts=3\n";
    expect_told(
        &rt,
        alloc,
        "audit",
        Pieces::whole(STREAM.as_bytes()),
        told,
        0,
    );
    let table = "14 PASSED\n17 PASSED\n";
    expect_told(
        &rt,
        alloc,
        "results",
        Pieces::whole(STREAM.as_bytes()),
        table,
        0,
    );
    let from_one = STREAM
        .replace(alloc, "\"attempt\":1", "\"attempt\":2")?
        .as_str()
        .replace(alloc, "\"attempt\":0", "\"attempt\":1")?;
    let told = "bad line 12: 12 AttemptNumber\n";
    expect_told(
        &rt,
        alloc,
        "audit",
        Pieces::whole(from_one.as_bytes()),
        told,
        1,
    );
    Ok(())
}
