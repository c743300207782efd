//! The lines of the cases of good streams, and of the pickles that no case names.
use crate::tests::lines::expect_rows;
use crate::tests::running::{expect_told, expect_words};
use devices::Pieces;
use std::test::Fail;

const CASES: &str =
    "PASSED a.feature:3 s/ 0 = source document pickle run case:c1:t1 start:a1:c1:0 step:a1:t1 end:a1:t1:PASSED done:a1:false well
FAILED a.feature:3 s/ 0 = source document pickle run case:c1:t1 start:a1:c1:0 step:a1:t1 end:a1:t1:FAILED done:a1:false unwell
PASSED a.feature:3 s/ 0 = source document pickle run case:c1:t1 start:a1:c1:0 step:a1:t1 end:a1:t1:FAILED done:a1:true start:a2:c1:1 step:a2:t1 end:a2:t1:PASSED done:a2:false well
NONE a.feature:3 s/ 0 = source document pickle run case:c1:t1 unwell
NONE a.feature:3 s/ 0 = source document pickle run case:c1:t1 start:a1:c1:0 step:a1:t1 end:a1:t1:PASSED done:a1:true unwell
PASSED r.feature:5 s/ 0 = stepless stepless_document stepless_pickle run stepless_case start:a1:c1:0 done:a1:false well
PASSED a.feature:3 s/UNRUN b.feature:3 t/ 0 = source source_b document_b document pickle_b pickle run case:c1:t1 start:a1:c1:0 step:a1:t1 end:a1:t1:PASSED done:a1:false well
SKIPPED b.feature:3 t/UNRUN a.feature:3 s/ 0 = source source_b document document_b pickle pickle_b run case_b start:b1:c2:0 step:b1:t1 end:b1:t1:SKIPPED done:b1:false well
PASSED b.feature:3 t/FAILED a.feature:3 s/ 0 = source document source_b document_b pickle_b pickle run case_b case:c1:t1 start:a1:c1:0 start:b1:c2:0 step:a1:t1 end:a1:t1:FAILED step:b1:t1 end:b1:t1:PASSED done:b1:false done:a1:false unwell
PASSED a.feature:3 s/FAILED a.feature:3 s/ 0 = source document pickle run case:c1:t1 case:c2:u1 start:a1:c1:0 step:a1:t1 end:a1:t1:PASSED done:a1:false start:b1:c2:0 step:b1:u1 end:b1:u1:FAILED done:b1:false unwell
PASSED o.feature:8 s/NONE o.feature:7 s/UNRUN o.feature:6 s/ 0 = outline outline_document first_row second_row third_row run third_row_case second_row_case start:a1:c2:0 step:a1:t1 end:a1:t1:PASSED done:a1:false unwell
UNRUN o.feature:6 s/UNRUN a.feature:3 s/UNRUN o.feature:7 s/UNRUN o.feature:8 s/ 0 = outline outline_document source document first_row pickle second_row third_row run well";

// A good stream without pickles.
const EMPTY: &str = "{\"testRunStarted\":{}}\n{\"testRunFinished\":{\"success\":true}}\n";

#[test]
fn cases_and_pickles_without_one(rt: HostRuntime) -> Result<(), Fail> {
    expect_rows(&rt, rt.alloc(), &["cases"], CASES)?;
    expect_told(
        &rt,
        rt.alloc(),
        "cases",
        Pieces::whole(EMPTY.as_bytes()),
        "",
        0,
    );
    Ok(())
}

// The same as JSON.
const OBJECTS: &str =
    r#"{"attempts":1,"line":3,"name":"s","status":"PASSED","tags":[],"uri":"a.feature"}/ 0 = source document pickle run case:c1:t1 start:a1:c1:0 step:a1:t1 end:a1:t1:PASSED done:a1:false well
{"attempts":2,"line":3,"name":"s","status":"PASSED","tags":[],"uri":"a.feature"}/ 0 = source document pickle run case:c1:t1 start:a1:c1:0 step:a1:t1 end:a1:t1:FAILED done:a1:true start:a2:c1:1 step:a2:t1 end:a2:t1:PASSED done:a2:false well
{"attempts":0,"line":3,"name":"s","status":"NONE","tags":[],"uri":"a.feature"}/ 0 = source document pickle run case:c1:t1 unwell
{"attempts":1,"line":3,"name":"s","status":"NONE","tags":[],"uri":"a.feature"}/ 0 = source document pickle run case:c1:t1 start:a1:c1:0 step:a1:t1 end:a1:t1:PASSED done:a1:true unwell
{"attempts":0,"line":4,"name":"s","status":"UNRUN","tags":["@slow","@wip"],"uri":"w.feature"}/ 0 = tagged tagged_document tagged_pickle run well
{"attempts":1,"line":3,"name":"s","status":"PASSED","tags":[],"uri":"a.feature"}/{"attempts":0,"line":3,"name":"t","status":"UNRUN","tags":[],"uri":"b.feature"}/ 0 = source source_b document_b document pickle_b pickle run case:c1:t1 start:a1:c1:0 step:a1:t1 end:a1:t1:PASSED done:a1:false well
{"attempts":2,"line":3,"name":"s","status":"PASSED","tags":[],"uri":"a.feature"}/{"attempts":1,"line":3,"name":"s","status":"FAILED","tags":[],"uri":"a.feature"}/ 0 = source document pickle run case:c1:t1 case:c2:u1 start:a1:c1:0 step:a1:t1 end:a1:t1:FAILED done:a1:true start:b1:c2:0 step:b1:u1 end:b1:u1:FAILED done:b1:false start:a2:c1:1 step:a2:t1 end:a2:t1:PASSED done:a2:false unwell
{"attempts":1,"line":8,"name":"s","status":"PASSED","tags":[],"uri":"o.feature"}/{"attempts":0,"line":7,"name":"s","status":"NONE","tags":[],"uri":"o.feature"}/{"attempts":0,"line":6,"name":"s","status":"UNRUN","tags":[],"uri":"o.feature"}/ 0 = outline outline_document first_row second_row third_row run third_row_case second_row_case start:a1:c2:0 step:a1:t1 end:a1:t1:PASSED done:a1:false unwell"#;

#[test]
fn objects_of_cases_and_pickles(rt: HostRuntime) -> Result<(), Fail> {
    let words = ["cases", "--json"];
    expect_rows(&rt, rt.alloc(), &words, OBJECTS)?;
    let empty = Pieces::whole(EMPTY.as_bytes());
    expect_words(&rt, rt.alloc(), &words, empty, "", 0);
    Ok(())
}

// `audit` says the same of these.
const OTHERS: &str =
    "bad line 10: 21 SuccessDiffers/ 1 = source document pickle run case:c1:t1 start:a1:c1:0 step:a1:t1 end:a1:t1:PENDING done:a1:false well
bad line 6: 12 AttemptNumber/ 1 = source document pickle run case:c1:t1 start:a1:c1:1 step:a1:t1 end:a1:t1:PASSED done:a1:false well
bad line 9: 22 NoRunFinished/ 1 = source document pickle run case:c1:t1 start:a1:c1:0 step:a1:t1 end:a1:t1:PASSED
bad line 1: 17 OutsideRun/ 1 = well
unsupported line 1: 1 Language/ 4 = french";

#[test]
fn streams_that_are_not_good(rt: HostRuntime) -> Result<(), Fail> {
    expect_rows(&rt, rt.alloc(), &["audit"], OTHERS)?;
    expect_rows(&rt, rt.alloc(), &["cases"], OTHERS)?;
    expect_rows(&rt, rt.alloc(), &["cases", "--json"], OTHERS)
}

const PENDING: &str =
    "PENDING a.feature:3 s/ 0 = source document pickle run case:c1:t1 start:a1:c1:0 step:a1:t1 end:a1:t1:PENDING done:a1:false well
bad line 10: 21 SuccessDiffers/ 1 = source document pickle run case:c1:t1 start:a1:c1:0 step:a1:t1 end:a1:t1:PENDING done:a1:false unwell";

const FROM_ONE: &str =
    "PENDING a.feature:3 s/ 0 = source document pickle run case:c1:t1 start:a1:c1:1 step:a1:t1 end:a1:t1:PENDING done:a1:false well
bad line 6: 12 AttemptNumber/ 1 = source document pickle run case:c1:t1 start:a1:c1:0";

#[test]
fn options_of_cases(rt: HostRuntime) -> Result<(), Fail> {
    expect_rows(&rt, rt.alloc(), &["cases", "--pending-passes"], PENDING)?;
    let words = ["cases", "--attempts-from", "1", "--pending-passes"];
    expect_rows(&rt, rt.alloc(), &words, FROM_ONE)
}

// Pickles whose names and uri have characters that break, turn or hide a line, and an empty name.
pub(crate) const HIDDEN: &str =
    r##"{"source":{"data":"Feature: f\n\n  Scenario: a\tb\"c'\\d\u2028e\u2029f\u202eg\u0001h\u007fi\u0085j\u061ck\u2066l\u00e9m\u200bn\n\n  Scenario:\n\n  Scenario: <n>\n\n    Examples:\n      | n         |\n      | p\\nq\\\\r    |\n      | \u200fs\u206a  |\n\n  Rule: r\n\n    Scenario: in a rule\n","mediaType":"text/x.cucumber.gherkin+plain","uri":"a\nb\\c\u2028.feature"}}
{"gherkinDocument":{"comments":[],"feature":{"children":[{"scenario":{"description":"","examples":[],"id":"0","keyword":"Scenario","location":{"column":3,"line":3},"name":"a\tb\"c'\\d\u2028e\u2029f\u202eg\u0001h\u007fi\u0085j\u061ck\u2066l\u00e9m\u200bn","steps":[],"tags":[]}},{"scenario":{"description":"","examples":[],"id":"1","keyword":"Scenario","location":{"column":3,"line":5},"name":"","steps":[],"tags":[]}},{"scenario":{"description":"","examples":[{"description":"","id":"3","keyword":"Examples","location":{"column":5,"line":9},"name":"","tableBody":[{"cells":[{"location":{"column":9,"line":11},"value":"p\nq\\r"}],"id":"5","location":{"column":7,"line":11}},{"cells":[{"location":{"column":9,"line":12},"value":"\u200fs\u206a"}],"id":"6","location":{"column":7,"line":12}}],"tableHeader":{"cells":[{"location":{"column":9,"line":10},"value":"n"}],"id":"4","location":{"column":7,"line":10}},"tags":[]}],"id":"2","keyword":"Scenario","location":{"column":3,"line":7},"name":"<n>","steps":[],"tags":[]}},{"rule":{"children":[{"scenario":{"description":"","examples":[],"id":"8","keyword":"Scenario","location":{"column":5,"line":16},"name":"in a rule","steps":[],"tags":[]}}],"description":"","id":"7","keyword":"Rule","location":{"column":3,"line":14},"name":"r","tags":[]}}],"description":"","keyword":"Feature","language":"en","location":{"column":1,"line":1},"name":"f","tags":[]},"uri":"a\nb\\c\u2028.feature"}}
{"pickle":{"astNodeIds":["0"],"id":"9","language":"en","name":"a\tb\"c'\\d\u2028e\u2029f\u202eg\u0001h\u007fi\u0085j\u061ck\u2066l\u00e9m\u200bn","steps":[],"tags":[],"uri":"a\nb\\c\u2028.feature"}}
{"pickle":{"astNodeIds":["1"],"id":"10","language":"en","name":"","steps":[],"tags":[],"uri":"a\nb\\c\u2028.feature"}}
{"pickle":{"astNodeIds":["2","5"],"id":"11","language":"en","name":"p\nq\\r","steps":[],"tags":[],"uri":"a\nb\\c\u2028.feature"}}
{"pickle":{"astNodeIds":["2","6"],"id":"12","language":"en","name":"\u200fs\u206a","steps":[],"tags":[],"uri":"a\nb\\c\u2028.feature"}}
{"pickle":{"astNodeIds":["8"],"id":"13","language":"en","name":"in a rule","steps":[],"tags":[],"uri":"a\nb\\c\u2028.feature"}}
{"testRunStarted":{}}
{"testRunFinished":{"success":true}}
"##;

const SHOWN: &str =
    "UNRUN a\\nb\\\\c\\u2028.feature:3 a\\tb\"c'\\\\d\\u2028e\\u2029f\\u202eg\\u0001h\\u007fi\\u0085j\\u061ck\\u2066l\u{e9}m\u{200b}n
UNRUN a\\nb\\\\c\\u2028.feature:5\u{20}
UNRUN a\\nb\\\\c\\u2028.feature:11 p\\nq\\\\r
UNRUN a\\nb\\\\c\\u2028.feature:12 \\u200fs\u{206a}
UNRUN a\\nb\\\\c\\u2028.feature:16 in a rule
";

#[test]
fn texts_that_could_hide_a_line(rt: HostRuntime) -> Result<(), Fail> {
    expect_told(
        &rt,
        rt.alloc(),
        "cases",
        Pieces::whole(HIDDEN.as_bytes()),
        SHOWN,
        0,
    );
    Ok(())
}

const SHOWN_OBJECTS: &str =
    "{\"attempts\":0,\"line\":3,\"name\":\"a\\tb\\\"c'\\\\d\\u2028e\\u2029f\\u202eg\\u0001h\\u007fi\\u0085j\\u061ck\\u2066l\u{e9}m\\u200bn\",\"status\":\"UNRUN\",\"tags\":[],\"uri\":\"a\\nb\\\\c\\u2028.feature\"}
{\"attempts\":0,\"line\":5,\"name\":\"\",\"status\":\"UNRUN\",\"tags\":[],\"uri\":\"a\\nb\\\\c\\u2028.feature\"}
{\"attempts\":0,\"line\":11,\"name\":\"p\\nq\\\\r\",\"status\":\"UNRUN\",\"tags\":[],\"uri\":\"a\\nb\\\\c\\u2028.feature\"}
{\"attempts\":0,\"line\":12,\"name\":\"\\u200fs\u{206a}\",\"status\":\"UNRUN\",\"tags\":[],\"uri\":\"a\\nb\\\\c\\u2028.feature\"}
{\"attempts\":0,\"line\":16,\"name\":\"in a rule\",\"status\":\"UNRUN\",\"tags\":[],\"uri\":\"a\\nb\\\\c\\u2028.feature\"}
";

// A pickle whose name has white space, and characters without width.
const SPACES: &str =
    r#"{"source":{"data":"Feature: f\n\n  Scenario: a b\u00a0c\u1680d\u2000e\u200af\u202fg\u205fh\u3000i\u200bj\u2060k\ufeffl\n","mediaType":"text/x.cucumber.gherkin+plain","uri":"a.feature"}}
{"gherkinDocument":{"comments":[],"feature":{"children":[{"scenario":{"description":"","examples":[],"id":"0","keyword":"Scenario","location":{"column":3,"line":3},"name":"a b\u00a0c\u1680d\u2000e\u200af\u202fg\u205fh\u3000i\u200bj\u2060k\ufeffl","steps":[],"tags":[]}}],"description":"","keyword":"Feature","language":"en","location":{"column":1,"line":1},"name":"f","tags":[]},"uri":"a.feature"}}
{"pickle":{"astNodeIds":["0"],"id":"1","language":"en","name":"a b\u00a0c\u1680d\u2000e\u200af\u202fg\u205fh\u3000i\u200bj\u2060k\ufeffl","steps":[],"tags":[],"uri":"a.feature"}}
{"testRunStarted":{}}
{"testRunFinished":{"success":true}}
"#;

const SHOWN_SPACES: &str =
    r#"{"attempts":0,"line":3,"name":"a b\u00a0c\u1680d\u2000e\u200af\u202fg\u205fh\u3000i\u200bj\u2060k\ufeffl","status":"UNRUN","tags":[],"uri":"a.feature"}
"#;

const PLAIN_SPACES: &str =
    "UNRUN a.feature:3 a b\u{a0}c\u{1680}d\u{2000}e\u{200a}f\u{202f}g\u{205f}h\u{3000}i\u{200b}j\u{2060}k\u{feff}l\n";

#[test]
fn objects_that_could_hide_a_line(rt: HostRuntime) -> Result<(), Fail> {
    let words = ["cases", "--json"];
    let hidden = Pieces::whole(HIDDEN.as_bytes());
    expect_words(&rt, rt.alloc(), &words, hidden, SHOWN_OBJECTS, 0);
    let spaces = Pieces::whole(SPACES.as_bytes());
    expect_words(&rt, rt.alloc(), &words, spaces, SHOWN_SPACES, 0);
    let plain = Pieces::whole(SPACES.as_bytes());
    expect_words(&rt, rt.alloc(), &["cases"], plain, PLAIN_SPACES, 0);
    Ok(())
}

// A stream of cucumber-ruby 12.0.0: two features in random order, of which a filter left out a scenario.
pub(crate) const TWO_FEATURES: &str =
    r##"{"meta":{"protocolVersion":"34.2.1","implementation":{"name":"cucumber-ruby","version":"12.0.0"},"runtime":{"name":"ruby","version":"3.3.8"},"os":{"name":"linux-gnu","version":"#1 SMP PREEMPT_DYNAMIC @0"},"cpu":{"name":"x86_64"}}}
{"stepDefinition":{"id":"f61582f3-893e-47ba-99d7-e2829bc582d2","pattern":{"source":"a thing","type":"CUCUMBER_EXPRESSION"},"sourceReference":{"uri":"steps/common.rb","location":{"line":1}}}}
{"stepDefinition":{"id":"7365f79c-99aa-40e3-86c2-0eb36c4a99d1","pattern":{"source":"it is good","type":"CUCUMBER_EXPRESSION"},"sourceReference":{"uri":"steps/common.rb","location":{"line":2}}}}
{"stepDefinition":{"id":"0ec551c8-484c-400d-aa42-66e5ee655475","pattern":{"source":"it fails","type":"CUCUMBER_EXPRESSION"},"sourceReference":{"uri":"steps/ends.rb","location":{"line":1}}}}
{"stepDefinition":{"id":"4fbbb242-b3cf-4d83-a56c-5609ba2f28e7","pattern":{"source":"it skips","type":"CUCUMBER_EXPRESSION"},"sourceReference":{"uri":"steps/ends.rb","location":{"line":2}}}}
{"source":{"uri":"features/first.feature","data":"Feature: first\n  @wanted\n  Scenario: one\n    Given a thing\n\n  Scenario: left out by a tag\n    Given a thing\n","mediaType":"text/x.cucumber.gherkin+plain"}}
{"source":{"uri":"features/second.feature","data":"@wanted\nFeature: second\n  Scenario: two\n    When it skips\n    Then it is good\n\n  Scenario: three\n    Then it is good\n","mediaType":"text/x.cucumber.gherkin+plain"}}
{"gherkinDocument":{"uri":"features/first.feature","feature":{"location":{"line":1,"column":1},"tags":[],"language":"en","keyword":"Feature","name":"first","description":"","children":[{"scenario":{"location":{"line":3,"column":3},"tags":[{"location":{"line":2,"column":3},"name":"@wanted","id":"b48e5084-a9de-40ec-b00e-e7cdf9a16563"}],"keyword":"Scenario","name":"one","description":"","steps":[{"location":{"line":4,"column":5},"keyword":"Given ","keywordType":"Context","text":"a thing","id":"a2189ae2-332f-438b-bf4d-312eb1f05f20"}],"examples":[],"id":"a494e2cf-22a3-4e60-87b6-07c61ec35cde"}},{"scenario":{"location":{"line":6,"column":3},"tags":[],"keyword":"Scenario","name":"left out by a tag","description":"","steps":[{"location":{"line":7,"column":5},"keyword":"Given ","keywordType":"Context","text":"a thing","id":"22e171ab-2048-4447-b93a-578e5b21819e"}],"examples":[],"id":"424370c4-947a-4c53-a3b1-5ee6c240a40e"}}]},"comments":[]}}
{"pickle":{"id":"a8375a36-3882-4fa7-8191-4fb1911a445e","uri":"features/first.feature","location":{"line":3,"column":3},"name":"one","language":"en","steps":[{"astNodeIds":["a2189ae2-332f-438b-bf4d-312eb1f05f20"],"id":"3e03b49a-a7af-494b-9f93-9bb79d351972","type":"Context","text":"a thing"}],"tags":[{"name":"@wanted","astNodeId":"b48e5084-a9de-40ec-b00e-e7cdf9a16563"}],"astNodeIds":["a494e2cf-22a3-4e60-87b6-07c61ec35cde"]}}
{"pickle":{"id":"820c0b91-8e7a-40a1-b90e-e6100bb940a0","uri":"features/first.feature","location":{"line":6,"column":3},"name":"left out by a tag","language":"en","steps":[{"astNodeIds":["22e171ab-2048-4447-b93a-578e5b21819e"],"id":"87807e8c-5715-45bc-8db3-9766416f6ee5","type":"Context","text":"a thing"}],"tags":[],"astNodeIds":["424370c4-947a-4c53-a3b1-5ee6c240a40e"]}}
{"gherkinDocument":{"uri":"features/second.feature","feature":{"location":{"line":2,"column":1},"tags":[{"location":{"line":1,"column":1},"name":"@wanted","id":"2300b3d0-76f4-40b1-b6b5-798ab130442f"}],"language":"en","keyword":"Feature","name":"second","description":"","children":[{"scenario":{"location":{"line":3,"column":3},"tags":[],"keyword":"Scenario","name":"two","description":"","steps":[{"location":{"line":4,"column":5},"keyword":"When ","keywordType":"Action","text":"it skips","id":"e6000353-328d-4df4-8432-68b92954b05d"},{"location":{"line":5,"column":5},"keyword":"Then ","keywordType":"Outcome","text":"it is good","id":"2101042a-3b41-4e97-86fa-1e63a33dcdd6"}],"examples":[],"id":"fd7bfec6-2b8a-4594-84d3-349d8f370871"}},{"scenario":{"location":{"line":7,"column":3},"tags":[],"keyword":"Scenario","name":"three","description":"","steps":[{"location":{"line":8,"column":5},"keyword":"Then ","keywordType":"Outcome","text":"it is good","id":"6b1700a3-7387-41fc-b6d5-d21a29c9b9e9"}],"examples":[],"id":"1692249c-3841-44e9-b1ad-b887c91b3034"}}]},"comments":[]}}
{"pickle":{"id":"ae2b0f7b-fed7-4936-9e00-b7f4a114258c","uri":"features/second.feature","location":{"line":3,"column":3},"name":"two","language":"en","steps":[{"astNodeIds":["e6000353-328d-4df4-8432-68b92954b05d"],"id":"42b5d02b-6afb-4b51-a7e7-85e2a01b0ba2","type":"Action","text":"it skips"},{"astNodeIds":["2101042a-3b41-4e97-86fa-1e63a33dcdd6"],"id":"112703b7-9c3c-4b39-8645-09fa2a9c7920","type":"Outcome","text":"it is good"}],"tags":[{"name":"@wanted","astNodeId":"2300b3d0-76f4-40b1-b6b5-798ab130442f"}],"astNodeIds":["fd7bfec6-2b8a-4594-84d3-349d8f370871"]}}
{"pickle":{"id":"6392f8c9-37e0-4ddb-992f-05b8db31cf3a","uri":"features/second.feature","location":{"line":7,"column":3},"name":"three","language":"en","steps":[{"astNodeIds":["6b1700a3-7387-41fc-b6d5-d21a29c9b9e9"],"id":"a30a2590-561d-4ecc-bacc-b58ca1701c42","type":"Outcome","text":"it is good"}],"tags":[{"name":"@wanted","astNodeId":"2300b3d0-76f4-40b1-b6b5-798ab130442f"}],"astNodeIds":["1692249c-3841-44e9-b1ad-b887c91b3034"]}}
{"testRunStarted":{"timestamp":{"seconds":1795573254,"nanos":807464119},"id":"40b59734-bac5-421f-9958-c7cd355a3788"}}
{"testCase":{"id":"77495abe-d905-4812-81f0-7eb3d3c6bbb1","pickleId":"6392f8c9-37e0-4ddb-992f-05b8db31cf3a","testSteps":[{"id":"ab9e19f9-772b-4186-8ad5-5120fd96d6fd","pickleStepId":"a30a2590-561d-4ecc-bacc-b58ca1701c42","stepDefinitionIds":["7365f79c-99aa-40e3-86c2-0eb36c4a99d1"],"stepMatchArgumentsLists":[{"stepMatchArguments":[]}]}],"testRunStartedId":"40b59734-bac5-421f-9958-c7cd355a3788"}}
{"testCaseStarted":{"attempt":1,"id":"2075ea72-3739-4302-ab24-4087d1b154d7","testCaseId":"77495abe-d905-4812-81f0-7eb3d3c6bbb1","timestamp":{"seconds":1795573254,"nanos":823365761}}}
{"testStepStarted":{"testCaseStartedId":"2075ea72-3739-4302-ab24-4087d1b154d7","testStepId":"ab9e19f9-772b-4186-8ad5-5120fd96d6fd","timestamp":{"seconds":1795573254,"nanos":823967745}}}
{"testStepFinished":{"testCaseStartedId":"2075ea72-3739-4302-ab24-4087d1b154d7","testStepId":"ab9e19f9-772b-4186-8ad5-5120fd96d6fd","testStepResult":{"duration":{"seconds":0,"nanos":45940},"status":"PASSED"},"timestamp":{"seconds":1795573254,"nanos":824428510}}}
{"testCaseFinished":{"testCaseStartedId":"2075ea72-3739-4302-ab24-4087d1b154d7","timestamp":{"seconds":1795573254,"nanos":824610530},"willBeRetried":false}}
{"testCase":{"id":"3d5a88c3-8321-484c-bc8f-af3647fe9987","pickleId":"ae2b0f7b-fed7-4936-9e00-b7f4a114258c","testSteps":[{"id":"bc578d8c-495a-494b-aa2b-aa56165980ab","pickleStepId":"42b5d02b-6afb-4b51-a7e7-85e2a01b0ba2","stepDefinitionIds":["4fbbb242-b3cf-4d83-a56c-5609ba2f28e7"],"stepMatchArgumentsLists":[{"stepMatchArguments":[]}]},{"id":"a0872d9e-33bf-4a63-beb6-aa80f229acee","pickleStepId":"112703b7-9c3c-4b39-8645-09fa2a9c7920","stepDefinitionIds":["7365f79c-99aa-40e3-86c2-0eb36c4a99d1"],"stepMatchArgumentsLists":[{"stepMatchArguments":[]}]}],"testRunStartedId":"40b59734-bac5-421f-9958-c7cd355a3788"}}
{"testCaseStarted":{"attempt":1,"id":"3879f70c-dd9c-4ede-a7d0-b64af6eb8c12","testCaseId":"3d5a88c3-8321-484c-bc8f-af3647fe9987","timestamp":{"seconds":1795573254,"nanos":825138199}}}
{"testStepStarted":{"testCaseStartedId":"3879f70c-dd9c-4ede-a7d0-b64af6eb8c12","testStepId":"bc578d8c-495a-494b-aa2b-aa56165980ab","timestamp":{"seconds":1795573254,"nanos":834397499}}}
{"testStepFinished":{"testCaseStartedId":"3879f70c-dd9c-4ede-a7d0-b64af6eb8c12","testStepId":"bc578d8c-495a-494b-aa2b-aa56165980ab","testStepResult":{"duration":{"seconds":0,"nanos":229784},"status":"SKIPPED"},"timestamp":{"seconds":1795573254,"nanos":835551333}}}
{"testStepStarted":{"testCaseStartedId":"3879f70c-dd9c-4ede-a7d0-b64af6eb8c12","testStepId":"a0872d9e-33bf-4a63-beb6-aa80f229acee","timestamp":{"seconds":1795573254,"nanos":835893525}}}
{"testStepFinished":{"testCaseStartedId":"3879f70c-dd9c-4ede-a7d0-b64af6eb8c12","testStepId":"a0872d9e-33bf-4a63-beb6-aa80f229acee","testStepResult":{"duration":{"seconds":0,"nanos":0},"status":"SKIPPED"},"timestamp":{"seconds":1795573254,"nanos":836475613}}}
{"testCaseFinished":{"testCaseStartedId":"3879f70c-dd9c-4ede-a7d0-b64af6eb8c12","timestamp":{"seconds":1795573254,"nanos":836840633},"willBeRetried":false}}
{"testCase":{"id":"d4bf2c90-8525-4bf7-b106-7b9917b60306","pickleId":"a8375a36-3882-4fa7-8191-4fb1911a445e","testSteps":[{"id":"d121b1b9-dc74-439e-9e96-e926213d7bac","pickleStepId":"3e03b49a-a7af-494b-9f93-9bb79d351972","stepDefinitionIds":["f61582f3-893e-47ba-99d7-e2829bc582d2"],"stepMatchArgumentsLists":[{"stepMatchArguments":[]}]}],"testRunStartedId":"40b59734-bac5-421f-9958-c7cd355a3788"}}
{"testCaseStarted":{"attempt":1,"id":"a153d41b-16f8-495c-84d8-0cf575147a3c","testCaseId":"d4bf2c90-8525-4bf7-b106-7b9917b60306","timestamp":{"seconds":1795573254,"nanos":842148489}}}
{"testStepStarted":{"testCaseStartedId":"a153d41b-16f8-495c-84d8-0cf575147a3c","testStepId":"d121b1b9-dc74-439e-9e96-e926213d7bac","timestamp":{"seconds":1795573254,"nanos":843059173}}}
{"testStepFinished":{"testCaseStartedId":"a153d41b-16f8-495c-84d8-0cf575147a3c","testStepId":"d121b1b9-dc74-439e-9e96-e926213d7bac","testStepResult":{"duration":{"seconds":0,"nanos":30687},"status":"PASSED"},"timestamp":{"seconds":1795573254,"nanos":843616879}}}
{"testCaseFinished":{"testCaseStartedId":"a153d41b-16f8-495c-84d8-0cf575147a3c","timestamp":{"seconds":1795573254,"nanos":843881046},"willBeRetried":false}}
{"testRunFinished":{"success":true,"timestamp":{"seconds":1795573254,"nanos":844851245},"testRunStartedId":"40b59734-bac5-421f-9958-c7cd355a3788"}}
"##;

#[test]
fn a_stream_with_cases_in_another_order(rt: HostRuntime) -> Result<(), Fail> {
    let text = "PASSED features/second.feature:7 three
SKIPPED features/second.feature:3 two
PASSED features/first.feature:3 one
UNRUN features/first.feature:6 left out by a tag
";
    let words = ["cases", "--attempts-from", "1"];
    let source = Pieces::whole(TWO_FEATURES.as_bytes());
    expect_words(&rt, rt.alloc(), &words, source, text, 0);
    Ok(())
}

#[test]
fn objects_with_tags(rt: HostRuntime) -> Result<(), Fail> {
    let text =
        r#"{"attempts":1,"line":7,"name":"three","status":"PASSED","tags":["@wanted"],"uri":"features/second.feature"}
{"attempts":1,"line":3,"name":"two","status":"SKIPPED","tags":["@wanted"],"uri":"features/second.feature"}
{"attempts":1,"line":3,"name":"one","status":"PASSED","tags":["@wanted"],"uri":"features/first.feature"}
{"attempts":0,"line":6,"name":"left out by a tag","status":"UNRUN","tags":[],"uri":"features/first.feature"}
"#;
    let words = ["cases", "--attempts-from=1", "--json"];
    let source = Pieces::whole(TWO_FEATURES.as_bytes());
    expect_words(&rt, rt.alloc(), &words, source, text, 0);
    Ok(())
}
