//! What the gate tells of a document, a pickle or a source that isn't what the sources compile to.
use crate::tests::cases::{HIDDEN, TWO_FEATURES};
use crate::tests::lines::expect_rows;
use crate::tests::running::{expect_told, expect_words};
use devices::Pieces;
use std::alloc::Global;
use std::process::Abort;
use std::test::Fail;

const DIFFERENT: &str =
    r#"bad line 2: 8 TreeDiffers/uri a.feature/expected {"step":{"keyword":"Given ","location":{"line":4},"text":"a"}}/found {"step":{"keyword":"Given ","location":{"line":5},"text":"a"}}/ 1 = source document_moved
bad line 3: 9 PickleDiffers/due o.feature:6 s/expected {"pickle":{"astNodeIds":["0","4"],"language":"en","name":"s","steps":[{"astNodeIds":["1","4"],"text":"x","type":"Context"}],"tags":[],"uri":"o.feature"}}/found {"pickle":{"astNodeIds":["0","5"],"language":"en","name":"s","steps":[{"astNodeIds":["1","5"],"text":"x","type":"Context"}],"tags":[],"uri":"o.feature"}}/ 1 = outline outline_document second_row first_row third_row run well
bad line 4: 9 PickleDiffers/due o.feature:7 s/expected {"pickle":{"astNodeIds":["0","5"],"language":"en","name":"s","steps":[{"astNodeIds":["1","5"],"text":"x","type":"Context"}],"tags":[],"uri":"o.feature"}}/found {"pickle":{"astNodeIds":["0","6"],"language":"en","name":"s","steps":[{"astNodeIds":["1","6"],"text":"y","type":"Context"}],"tags":[],"uri":"o.feature"}}/ 1 = outline outline_document first_row third_row run well
bad line 6: 9 PickleDiffers/uri o.feature/expected nothing/found {"pickle":{"astNodeIds":["0","6"],"language":"en","name":"s","steps":[{"astNodeIds":["1","6"],"text":"y","type":"Context"}],"tags":[],"uri":"o.feature"}}/ 1 = outline outline_document first_row second_row third_row third_row_again run well
bad line 5: 9 PickleDiffers/due a.feature:3 s/expected {"pickle":{"astNodeIds":["0"],"language":"en","name":"s","steps":[{"astNodeIds":["1"],"text":"a","type":"Context"}],"tags":[],"uri":"a.feature"}}/found {"pickle":{"astNodeIds":["0"],"language":"en","name":"t","steps":[{"astNodeIds":["1"],"text":"b","type":"Context"}],"tags":[],"uri":"a.feature"}}/ 1 = source document source_b document_b pickle_c
bad line 6: 20 SourceIncomplete/uri o.feature/missing o.feature:8 s/ 1 = outline outline_document first_row second_row run well
bad line 5: 20 SourceIncomplete/uri o.feature/missing o.feature:7 s/missing o.feature:8 s/ 1 = outline outline_document first_row run well
bad line 7: 20 SourceIncomplete/uri b.feature/missing b.feature:3 t/ 1 = source document pickle source_b document_b run well
bad line 5: 20 SourceIncomplete/uri a.feature/missing a.feature:3 s/ 1 = source document_named source_b run well
bad line 6: 20 SourceIncomplete/uri b.feature/missing document/ 1 = source document pickle source_b run well
bad line 5: 20 SourceIncomplete/uri a.feature/missing document/ 1 = refused refused_error source run well"#;

#[test]
fn each_of_three_faults(rt: HostRuntime) -> Result<(), Fail> {
    expect_rows(&rt, rt.alloc(), &["gate"], DIFFERENT)
}

// A feature with each kind of node, and its messages.
const SOURCE: &str =
    r##"{"source":{"data":"@f\nFeature: f\n  Background:\n    Given b\n  @s\n  Scenario: s\n    Given a\n      | x | y |\n      | z | w |\n    When d\n      \"\"\"json\n      c\n      \"\"\"\n  Rule: r\n    Background: rb\n      Given c\n    Scenario Outline: o <n>\n      Then <n>\n      @e\n      Examples: es\n        | n |\n        | 1 |\n        | 2 |\n","mediaType":"text/x.cucumber.gherkin+plain","uri":"d.feature"}}"##;

const DOCUMENT: &str =
    r##"{"gherkinDocument":{"comments":[],"feature":{"children":[{"background":{"description":"","id":"n3","keyword":"Background","location":{"column":3,"line":3},"name":"","steps":[{"id":"n4","keyword":"Given ","keywordType":"Context","location":{"column":5,"line":4},"text":"b"}]}},{"scenario":{"description":"","examples":[],"id":"n6","keyword":"Scenario","location":{"column":3,"line":6},"name":"s","steps":[{"dataTable":{"location":{"column":7,"line":8},"rows":[{"cells":[{"location":{"column":9,"line":8},"value":"x"},{"location":{"column":13,"line":8},"value":"y"}],"id":"n8","location":{"column":7,"line":8}},{"cells":[{"location":{"column":9,"line":9},"value":"z"},{"location":{"column":13,"line":9},"value":"w"}],"id":"n9","location":{"column":7,"line":9}}]},"id":"n7","keyword":"Given ","keywordType":"Context","location":{"column":5,"line":7},"text":"a"},{"docString":{"content":"c","delimiter":"\"\"\"","location":{"column":7,"line":11},"mediaType":"json"},"id":"n10","keyword":"When ","keywordType":"Action","location":{"column":5,"line":10},"text":"d"}],"tags":[{"id":"t5","location":{"column":3,"line":5},"name":"@s"}]}},{"rule":{"children":[{"background":{"description":"","id":"n15","keyword":"Background","location":{"column":5,"line":15},"name":"rb","steps":[{"id":"n16","keyword":"Given ","keywordType":"Context","location":{"column":7,"line":16},"text":"c"}]}},{"scenario":{"description":"","examples":[{"description":"","id":"n20","keyword":"Examples","location":{"column":7,"line":20},"name":"es","tableBody":[{"cells":[{"location":{"column":11,"line":22},"value":"1"}],"id":"n22","location":{"column":9,"line":22}},{"cells":[{"location":{"column":11,"line":23},"value":"2"}],"id":"n23","location":{"column":9,"line":23}}],"tableHeader":{"cells":[{"location":{"column":11,"line":21},"value":"n"}],"id":"n21","location":{"column":9,"line":21}},"tags":[{"id":"t19","location":{"column":7,"line":19},"name":"@e"}]}],"id":"n17","keyword":"Scenario Outline","location":{"column":5,"line":17},"name":"o <n>","steps":[{"id":"n18","keyword":"Then ","keywordType":"Outcome","location":{"column":7,"line":18},"text":"<n>"}],"tags":[]}}],"description":"","id":"n14","keyword":"Rule","location":{"column":3,"line":14},"name":"r","tags":[]}}],"description":"","keyword":"Feature","language":"en","location":{"column":1,"line":2},"name":"f","tags":[{"id":"t1","location":{"column":1,"line":1},"name":"@f"}]},"uri":"d.feature"}}"##;

const PICKLES: &str =
    r##"{"pickle":{"astNodeIds":["n6"],"id":"p1","language":"en","name":"s","steps":[{"astNodeIds":["n4"],"id":"p2","text":"b","type":"Context"},{"argument":{"dataTable":{"rows":[{"cells":[{"value":"x"},{"value":"y"}]},{"cells":[{"value":"z"},{"value":"w"}]}]}},"astNodeIds":["n7"],"id":"p3","text":"a","type":"Context"},{"argument":{"docString":{"content":"c","mediaType":"json"}},"astNodeIds":["n10"],"id":"p4","text":"d","type":"Action"}],"tags":[{"astNodeId":"t1","name":"@f"},{"astNodeId":"t5","name":"@s"}],"uri":"d.feature"}}
{"pickle":{"astNodeIds":["n17","n22"],"id":"q1","language":"en","name":"o 1","steps":[{"astNodeIds":["n4"],"id":"q10","text":"b","type":"Context"},{"astNodeIds":["n16"],"id":"q11","text":"c","type":"Context"},{"astNodeIds":["n18","n22"],"id":"q12","text":"1","type":"Outcome"}],"tags":[{"astNodeId":"t1","name":"@f"},{"astNodeId":"t19","name":"@e"}],"uri":"d.feature"}}
{"pickle":{"astNodeIds":["n17","n23"],"id":"q2","language":"en","name":"o 2","steps":[{"astNodeIds":["n4"],"id":"q20","text":"b","type":"Context"},{"astNodeIds":["n16"],"id":"q21","text":"c","type":"Context"},{"astNodeIds":["n18","n23"],"id":"q22","text":"2","type":"Outcome"}],"tags":[{"astNodeId":"t1","name":"@f"},{"astNodeId":"t19","name":"@e"}],"uri":"d.feature"}}"##;

// Of the stream with the change, the verdict with what it is about, and both sides of the difference.
fn expect_difference(
    rt: &impl Abort,
    alloc: Global,
    stream: &str,
    verdict: &str,
    expected: &str,
    found: &str,
) -> Result<(), Fail> {
    let text = format!(in alloc; "bad line {verdict}\nexpected {expected}\nfound {found}\n")?;
    expect_told(
        rt,
        alloc,
        "gate",
        Pieces::whole(stream.as_bytes()),
        text.as_str(),
        1,
    );
    Ok(())
}

// What of the document is changed, to what, and the first node that differs. The stream has that node with the change.
const NODES: [(&str, &str, &str); 10] = [
    (
        r#""name":"f""#,
        r#""name":"g""#,
        r#"{"feature":{"keyword":"Feature","language":"en","location":{"line":2},"name":"f","tags":[{"location":{"line":1},"name":"@f"}]}}"#,
    ),
    (
        r#""text":"b""#,
        r#""text":"b\u202e""#,
        r#"{"step":{"keyword":"Given ","location":{"line":4},"text":"b"}}"#,
    ),
    (
        r#""name":"@s""#,
        r#""name":"@t""#,
        r#"{"scenario":{"keyword":"Scenario","location":{"line":6},"name":"s","tags":[{"location":{"line":5},"name":"@s"}]}}"#,
    ),
    (
        r#""value":"w""#,
        r#""value":"v""#,
        r#"{"step":{"dataTable":{"rows":[{"cells":[{"value":"x"},{"value":"y"}],"location":{"line":8}},{"cells":[{"value":"z"},{"value":"w"}],"location":{"line":9}}]},"keyword":"Given ","location":{"line":7},"text":"a"}}"#,
    ),
    (
        r#""content":"c""#,
        r#""content":"C""#,
        r#"{"step":{"docString":{"content":"c","location":{"line":11},"mediaType":"json"},"keyword":"When ","location":{"line":10},"text":"d"}}"#,
    ),
    (
        r#""name":"r""#,
        r#""name":"q""#,
        r#"{"rule":{"keyword":"Rule","location":{"line":14},"name":"r","tags":[]}}"#,
    ),
    (
        r#""name":"rb""#,
        r#""name":"rc""#,
        r#"{"background":{"keyword":"Background","location":{"line":15},"name":"rb"}}"#,
    ),
    (
        r#""name":"es""#,
        r#""name":"et""#,
        r#"{"examples":{"keyword":"Examples","location":{"line":20},"name":"es","tags":[{"location":{"line":19},"name":"@e"}]}}"#,
    ),
    (
        r#""value":"n""#,
        r#""value":"m""#,
        r#"{"tableHeader":{"cells":[{"value":"n"}],"location":{"line":21}}}"#,
    ),
    (
        r#""value":"2""#,
        r#""value":"3""#,
        r#"{"tableRow":{"cells":[{"value":"2"}],"location":{"line":23}}}"#,
    ),
];

// The stream with the document so changed.
fn with_document(alloc: Global, old: &str, new: &str) -> Result<String, Fail> {
    let document = DOCUMENT.replace(alloc, old, new)?;
    let (source, document) = (SOURCE, document.as_str());
    Ok(format!(in alloc; "{source}\n{document}\n")?)
}

// What is found in the stream has the new text where the old one is expected.
fn expect_changed(
    rt: &impl Abort,
    alloc: Global,
    stream: &str,
    verdict: &str,
    old: &str,
    new: &str,
    expected: &str,
) -> Result<(), Fail> {
    let found = expected.replace(alloc, old, new)?;
    expect_difference(rt, alloc, stream, verdict, expected, found.as_str())
}

#[test]
fn nodes_that_differ(rt: HostRuntime) -> Result<(), Fail> {
    let alloc = rt.alloc();
    let verdict = "2: 8 TreeDiffers\nuri d.feature";
    for (old, new, expected) in NODES {
        let stream = with_document(alloc, old, new)?;
        expect_changed(&rt, alloc, stream.as_str(), verdict, old, new, expected)?;
    }
    Ok(())
}

// The last row of the examples, and one more.
const ROW: &str =
    r#",{"cells":[{"location":{"column":11,"line":23},"value":"2"}],"id":"n23","location":{"column":9,"line":23}}"#;

const ROWS: &str =
    r#",{"cells":[{"location":{"column":11,"line":23},"value":"2"}],"id":"n23","location":{"column":9,"line":23}},{"cells":[{"location":{"column":11,"line":24},"value":"3"}],"id":"n24","location":{"column":9,"line":24}}"#;

// The stream whose last row is so changed.
fn expect_rows_changed(
    rt: &impl Abort,
    alloc: Global,
    rows: &str,
    expected: &str,
    found: &str,
) -> Result<(), Fail> {
    let stream = with_document(alloc, ROW, rows)?;
    let verdict = "2: 8 TreeDiffers\nuri d.feature";
    expect_difference(rt, alloc, stream.as_str(), verdict, expected, found)
}

#[test]
fn nodes_on_one_side(rt: HostRuntime) -> Result<(), Fail> {
    let last = r#"{"tableRow":{"cells":[{"value":"2"}],"location":{"line":23}}}"#;
    expect_rows_changed(&rt, rt.alloc(), "", last, "nothing")?;
    let next = r#"{"tableRow":{"cells":[{"value":"3"}],"location":{"line":24}}}"#;
    expect_rows_changed(&rt, rt.alloc(), ROWS, "nothing", next)
}

// The first pickle and the last one, as they are due.
const FIRST: &str =
    r#"{"pickle":{"astNodeIds":["n6"],"language":"en","name":"s","steps":[{"astNodeIds":["n4"],"text":"b","type":"Context"},{"argument":{"dataTable":{"rows":[{"cells":[{"value":"x"},{"value":"y"}]},{"cells":[{"value":"z"},{"value":"w"}]}]}},"astNodeIds":["n7"],"text":"a","type":"Context"},{"argument":{"docString":{"content":"c","mediaType":"json"}},"astNodeIds":["n10"],"text":"d","type":"Action"}],"tags":[{"astNodeId":"t1","name":"@f"},{"astNodeId":"t5","name":"@s"}],"uri":"d.feature"}}"#;

const LAST: &str =
    r#"{"pickle":{"astNodeIds":["n17","n23"],"language":"en","name":"o 2","steps":[{"astNodeIds":["n4"],"text":"b","type":"Context"},{"astNodeIds":["n16"],"text":"c","type":"Context"},{"astNodeIds":["n18","n23"],"text":"2","type":"Outcome"}],"tags":[{"astNodeId":"t1","name":"@f"},{"astNodeId":"t19","name":"@e"}],"uri":"d.feature"}}"#;

// What of the pickles is changed, to what, the verdict and the pickle that is due. The stream has that one with the change.
const CHANGED: [(&str, &str, &str, &str); 5] = [
    (
        r#""value":"w""#,
        r#""value":"v""#,
        "3: 9 PickleDiffers\ndue d.feature:6 s",
        FIRST,
    ),
    (
        r#""content":"c""#,
        r#""content":"C""#,
        "3: 9 PickleDiffers\ndue d.feature:6 s",
        FIRST,
    ),
    (
        r#""name":"@s""#,
        r#""name":"@t""#,
        "3: 9 PickleDiffers\ndue d.feature:6 s",
        FIRST,
    ),
    (
        r#""text":"2""#,
        r#""text":"2\u2028""#,
        "5: 9 PickleDiffers\ndue d.feature:23 o 2",
        LAST,
    ),
    (
        r#""Outcome""#,
        r#""Action""#,
        "4: 9 PickleDiffers\ndue d.feature:22 o 1",
        r#"{"pickle":{"astNodeIds":["n17","n22"],"language":"en","name":"o 1","steps":[{"astNodeIds":["n4"],"text":"b","type":"Context"},{"astNodeIds":["n16"],"text":"c","type":"Context"},{"astNodeIds":["n18","n22"],"text":"1","type":"Outcome"}],"tags":[{"astNodeId":"t1","name":"@f"},{"astNodeId":"t19","name":"@e"}],"uri":"d.feature"}}"#,
    ),
];

// The stream with the pickles so changed.
fn changed(alloc: Global, old: &str, new: &str) -> Result<String, Fail> {
    let pickles = PICKLES.replace(alloc, old, new)?;
    let (source, document, pickles) = (SOURCE, DOCUMENT, pickles.as_str());
    Ok(format!(in alloc; "{source}\n{document}\n{pickles}\n")?)
}

#[test]
fn pickles_that_differ(rt: HostRuntime) -> Result<(), Fail> {
    let alloc = rt.alloc();
    for (old, new, verdict, expected) in CHANGED {
        let stream = changed(alloc, old, new)?;
        expect_changed(&rt, alloc, stream.as_str(), verdict, old, new, expected)?;
    }
    Ok(())
}

const TYPED: &str = r#""text":"2","type":"Outcome""#;

const UNTYPED: &str = r#""text":"4""#;

// The stream's last pickle has a step without a type.
fn expect_untyped(rt: &impl Abort, alloc: Global, stream: &str) -> Result<(), Fail> {
    let due = LAST.replace(alloc, TYPED, r#""text":"2""#)?;
    let found = LAST.replace(alloc, TYPED, UNTYPED)?;
    let verdict = "5: 9 PickleDiffers\ndue d.feature:23 o 2";
    expect_difference(rt, alloc, stream, verdict, due.as_str(), found.as_str())
}

// Where the stream's step has no type, none is due.
#[test]
fn a_step_without_a_type(rt: HostRuntime) -> Result<(), Fail> {
    let stream = changed(rt.alloc(), TYPED, UNTYPED)?;
    expect_untyped(&rt, rt.alloc(), stream.as_str())
}

// The last pickle of `HIDDEN`, and what is said where it is missing.
const HIDDEN_PICKLE: &str =
    r#"{"pickle":{"astNodeIds":["8"],"id":"13","language":"en","name":"in a rule","steps":[],"tags":[],"uri":"a\nb\\c\u2028.feature"}}
"#;

const HIDDEN_TOLD: &str = r#"bad line 8: 20 SourceIncomplete
uri a\nb\\c\u2028.feature
missing a\nb\\c\u2028.feature:16 in a rule
"#;

#[test]
fn a_uri_that_could_hide_a_line(rt: HostRuntime) -> Result<(), Fail> {
    let stream = HIDDEN.replace(rt.alloc(), HIDDEN_PICKLE, "")?;
    expect_told(
        &rt,
        rt.alloc(),
        "gate",
        Pieces::whole(stream.as_bytes()),
        HIDDEN_TOLD,
        1,
    );
    Ok(())
}

// A pickle of the stream of cucumber-ruby that no case names, and what is said where it is missing.
const LEFT_OUT: &str =
    r#"{"pickle":{"id":"820c0b91-8e7a-40a1-b90e-e6100bb940a0","uri":"features/first.feature","location":{"line":6,"column":3},"name":"left out by a tag","language":"en","steps":[{"astNodeIds":["22e171ab-2048-4447-b93a-578e5b21819e"],"id":"87807e8c-5715-45bc-8db3-9766416f6ee5","type":"Context","text":"a thing"}],"tags":[],"astNodeIds":["424370c4-947a-4c53-a3b1-5ee6c240a40e"]}}
"#;

const LEFT_OUT_TOLD: &str = "bad line 31: 20 SourceIncomplete
uri features/first.feature
missing features/first.feature:6 left out by a tag
";

#[test]
fn a_real_stream_without_a_pickle(rt: HostRuntime) -> Result<(), Fail> {
    let stream = TWO_FEATURES.replace(rt.alloc(), LEFT_OUT, "")?;
    let words = ["gate", "--attempts-from", "1"];
    let source = Pieces::whole(stream.as_bytes());
    expect_words(&rt, rt.alloc(), &words, source, LEFT_OUT_TOLD, 1);
    Ok(())
}
