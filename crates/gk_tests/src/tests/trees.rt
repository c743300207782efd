//! Worked texts.
use gk_tree::*;
use gk_values::document_value;
use std::alloc::{AllocError, Global};
use std::process::Abort;
use std::test::Fail;

/// How many nodes and comments a document has.
fn counts(alloc: Global, document: &Document) -> Result<String, AllocError> {
    let nodes = document.nodes;
    let comments = document.comments.len();
    format!(in alloc; "{nodes} nodes, {comments} comments")
}

/// What is reported of a text: the counts of its document, or its fault.
fn told(alloc: Global, text: &str) -> Result<String, AllocError> {
    match parse(alloc, text) {
        Ok(document) => {
            let counts = counts(alloc, &document);
            drop(document);
            counts
        }
        Err(fault) => fault.to_string(alloc),
    }
}

fn check_told(rt: &impl Abort, alloc: Global, text: &str, wanted: &str) -> Result<(), AllocError> {
    let told = told(alloc, text)?;
    assert_eq!(rt; told.as_str(), wanted);
    Ok(())
}

/// Checks what is reported of texts. A line has what is wanted, a semicolon, and the text with a slash for each line feed.
fn check_cases(rt: &impl Abort, alloc: Global, cases: &str) -> Result<(), Fail> {
    for case in cases.lines() {
        let (wanted, lines) = case.split_once(';').unwrap_or((case, ""));
        let text = lines.replace(alloc, "/", "\n")?;
        check_told(rt, alloc, text.as_str(), wanted)?;
    }
    Ok(())
}

/// The tree of a document as JSON.
fn tree(alloc: Global, document: &Document) -> Result<String, AllocError> {
    document_value(alloc, "u", document)?.to_string(alloc)
}

/// The tree of a text as JSON, or its fault.
fn tree_of(alloc: Global, text: &str) -> Result<String, AllocError> {
    match parse(alloc, text) {
        Ok(document) => {
            let tree = tree(alloc, &document);
            drop(document);
            tree
        }
        Err(fault) => fault.to_string(alloc),
    }
}

fn check_tree(rt: &impl Abort, alloc: Global, text: &str, wanted: &str) -> Result<(), AllocError> {
    let tree = tree_of(alloc, text)?;
    assert_eq!(rt; tree.as_str(), wanted);
    Ok(())
}

const FEATURELESS: &str = "0 nodes, 0 comments;
0 nodes, 2 comments;/ # a/\t/#b\r/";

const COMMENT_TREE: &str = concat!(
    r#"{"gherkinDocument":{"comments":[{"location":{"column":1,"line":2},"#,
    r#""text":"  # a "}],"uri":"u"}}"#,
);

#[test]
fn texts_without_a_feature(rt: HostRuntime) -> Result<(), Fail> {
    check_cases(&rt, rt.alloc(), FEATURELESS)?;
    Ok(check_tree(&rt, rt.alloc(), "\n  # a \r\n", COMMENT_TREE)?)
}

const DESCRIBED_TREE: &str = concat!(
    r#"{"gherkinDocument":{"comments":[],"feature":{"children":[],"#,
    r#""description":"  Given x\n  | a |","keyword":"Feature","language":"en","#,
    r#""location":{"column":1,"line":1},"name":"f","tags":[]},"uri":"u"}}"#,
);

const COMMENTED_TREE: &str = concat!(
    r#"{"gherkinDocument":{"comments":[{"location":{"column":1,"line":4},"#,
    r#""text":" # c"}],"feature":{"children":[],"description":"  Given x\n  | a |","#,
    r#""keyword":"Feature","language":"en","location":{"column":1,"line":1},"name":"f","#,
    r#""tags":[]},"uri":"u"}}"#,
);

#[test]
fn a_description_that_looks_like_steps_and_rows(rt: HostRuntime) -> Result<(), AllocError> {
    let text = "Feature: f\n  Given x\n  | a |";
    check_tree(&rt, rt.alloc(), text, DESCRIBED_TREE)?;
    let text = "Feature: f\n\n  Given x\n # c\n  | a |\n\t\n";
    check_tree(&rt, rt.alloc(), text, COMMENTED_TREE)
}

const BACKGROUND_TREE: &str = concat!(
    r#"{"gherkinDocument":{"comments":[],"#,
    r#""feature":{"children":[{"background":{"description":"","id":"0","#,
    r#""keyword":"Background","location":{"column":3,"line":2},"name":"","#,
    r#""steps":[{"id":"1","keyword":"Given ","keywordType":"Context","#,
    r#""location":{"column":5,"line":3},"text":"a"},{"id":"2","keyword":"And ","#,
    r#""keywordType":"Conjunction","location":{"column":5,"line":4},"text":"b"}]}},"#,
    r#"{"scenario":{"description":"","examples":[],"id":"3","keyword":"Scenario","#,
    r#""location":{"column":3,"line":5},"name":"s","steps":[],"tags":[]}}],"#,
    r#""description":"","keyword":"Feature","language":"en","location":{"column":1,"#,
    r#""line":1},"name":"f","tags":[]},"uri":"u"}}"#,
);

#[test]
fn numbers_with_a_background(rt: HostRuntime) -> Result<(), AllocError> {
    let text = "Feature: f\n  Background:\n    Given a\n    And b\n  Scenario: s";
    check_told(&rt, rt.alloc(), text, "4 nodes, 0 comments")?;
    check_tree(&rt, rt.alloc(), text, BACKGROUND_TREE)
}

const QUOTED_TREE: &str = concat!(
    r#"{"gherkinDocument":{"comments":[],"#,
    r#""feature":{"children":[{"scenario":{"description":"","examples":[],"id":"0","#,
    r#""keyword":"Scenario","location":{"column":3,"line":2},"name":"s","#,
    r#""steps":[{"docString":{"content":"x\ny \"\"\" z\n  w","delimiter":"\"\"\"","#,
    r#""location":{"column":5,"line":4}},"id":"1","keyword":"Given ","#,
    r#""keywordType":"Context","location":{"column":5,"line":3},"text":"d"}],"#,
    r#""tags":[]}}],"description":"","keyword":"Feature","language":"en","#,
    r#""location":{"column":1,"line":1},"name":"f","tags":[]},"uri":"u"}}"#,
);

#[test]
fn the_content_of_a_doc_string(rt: HostRuntime) -> Result<(), AllocError> {
    let text = concat!(
        "Feature: f\n  Scenario: s\n    Given d\n    \"\"\"\n  x\n",
        "    y \\\"\\\"\\\" z\n      w\n    \"\"\"",
    );
    check_tree(&rt, rt.alloc(), text, QUOTED_TREE)
}

const RULE_TREE: &str = concat!(
    r#"{"gherkinDocument":{"comments":[],"#,
    r#""feature":{"children":[{"rule":{"children":[{"background":{"description":"","#,
    r#""id":"2","keyword":"Background","location":{"column":5,"line":4},"name":"","#,
    r#""steps":[{"id":"3","keyword":"Given ","keywordType":"Context","#,
    r#""location":{"column":7,"line":5},"text":"b"}]}},{"scenario":{"description":"","#,
    r#""examples":[{"description":"","id":"9","keyword":"Examples","#,
    r#""location":{"column":7,"line":10},"name":"","#,
    r#""tableBody":[{"cells":[{"location":{"column":11,"line":12},"value":"1"}],"#,
    r#""id":"11","location":{"column":9,"line":12}}],"#,
    r#""tableHeader":{"cells":[{"location":{"column":11,"line":11},"value":"n"}],"#,
    r#""id":"10","location":{"column":9,"line":11}},"tags":[{"id":"8","#,
    r#""location":{"column":7,"line":9},"name":"@e"}]}],"id":"6","#,
    r#""keyword":"Scenario Outline","location":{"column":5,"line":7},"name":"<n> o","#,
    r#""steps":[{"id":"7","keyword":"And ","keywordType":"Conjunction","#,
    r#""location":{"column":7,"line":8},"text":"c"}],"tags":[{"id":"4","#,
    r#""location":{"column":5,"line":6},"name":"@s"},{"id":"5","location":{"column":8,"#,
    r#""line":6},"name":"@s"}]}}],"description":"","id":"1","keyword":"Rule","#,
    r#""location":{"column":3,"line":3},"name":"r","tags":[]}}],"description":"","#,
    r#""keyword":"Feature","language":"en","location":{"column":1,"line":2},"name":"f","#,
    r#""tags":[{"id":"0","location":{"column":1,"line":1},"name":"@f"}]},"uri":"u"}}"#,
);

#[test]
fn a_rule_with_an_outline(rt: HostRuntime) -> Result<(), AllocError> {
    let text = concat!(
        "@f\nFeature: f\n  Rule: r\n    Background:\n      Given b\n    @s @s\n",
        "    Scenario Outline: <n> o\n      And c\n      @e\n      Examples:\n",
        "        | n |\n        | 1 |",
    );
    check_told(&rt, rt.alloc(), text, "12 nodes, 0 comments")?;
    check_tree(&rt, rt.alloc(), text, RULE_TREE)
}

#[test]
fn comments_everywhere(rt: HostRuntime) -> Result<(), AllocError> {
    let text = concat!(
        "#1\n# language: en\n#2\n@t\n#3\nFeature: f\n#4\n  Scenario: s\n#5\n",
        "    Given d\n#6\n    | a |\n#7\n    | b |\n    And e\n    \"\"\"\n#no\n",
        "    \"\"\"\n#8\n  Examples:\n#9\n  | n |\n#10",
    );
    check_told(&rt, rt.alloc(), text, "8 nodes, 10 comments")
}

const AFTER_TAGS: &str = "Unexpected at line 2, column 3;@t/  Background:
Unexpected at line 2, column 2;@t/ Given x
Unexpected at line 2, column 1;@t/| x |
Unexpected at line 2, column 1;@t/```
Unexpected at line 2, column 1;@t/text
Unexpected at line 3, column 1;Feature: f/@t/Feature: g
Unexpected at line 3, column 1;Feature: f/@t/Examples:
Unexpected at line 3, column 1;Feature: f/@t/Background:
UnexpectedEnd at line 4, column 1;Feature: f/Scenario: s/@t
3 nodes, 1 comments;Feature: f/@t/#c//@u/Rule: r
4 nodes, 0 comments;Feature: f/Background:/Given a/@t/Scenario: s";

#[test]
fn lines_after_tags(rt: HostRuntime) -> Result<(), Fail> {
    check_cases(&rt, rt.alloc(), AFTER_TAGS)
}

const AFTER_A_BACKGROUND: &str = "Unexpected at line 4, column 1;Feature: f/Background:/@t/Examples:
Unexpected at line 5, column 1;Feature: f/Background:/Given a/@t/Examples:
Unexpected at line 4, column 1;Feature: f/Background:/Given a/Examples:
1 nodes, 0 comments;Feature: f/Background:/Examples:
1 nodes, 0 comments;Feature: f/Scenario: s/Background:
Unexpected at line 4, column 3;Feature: f/  Scenario: s/    Given a/  Background:
1 nodes, 0 comments;Feature: f/@/Scenario: s
Unexpected at line 3, column 1;Feature: f/@/Background:";

#[test]
fn lines_after_a_background(rt: HostRuntime) -> Result<(), Fail> {
    check_cases(&rt, rt.alloc(), AFTER_A_BACKGROUND)
}

const SPACED_TAGS: &str = "TagSpace at line 1, column 3;  @a b/Feature: f
TagSpace at line 2, column 5;Feature: f/ @a @b c
TagSpace at line 4, column 1;Feature: f/Scenario: s/Given x/@a b
2 nodes, 0 comments;Feature: f/Scenario: s/Given x/```/@a b/```";

#[test]
fn tags_with_white_space(rt: HostRuntime) -> Result<(), Fail> {
    check_cases(&rt, rt.alloc(), SPACED_TAGS)
}

const ARGUMENTS: &str = r#"4 nodes, 1 comments;Feature: f/Scenario: s/Given x/|a|/#c//|b|
CellCount at line 5, column 7;Feature: f/  Scenario: s/    Given t/      | a |/      | a | b |
4 nodes, 0 comments;Feature: f/Scenario: s/Examples:/|a|/ ||
CellCount at line 5, column 2;Feature: f/Scenario: s/Examples:/|a|/ |
Unexpected at line 6, column 1;Feature: f/Scenario: s/Given x/```/```/|a|
Unexpected at line 6, column 1;Feature: f/Scenario: s/Given x/```/```/```
Unexpected at line 5, column 5;Feature: f/  Scenario: s/    Given a/    | x |/    """
UnexpectedEnd at line 8, column 1;Feature: f/Scenario: s/Given x/```/"""/@t/# language: fr"#;

#[test]
fn tables_and_doc_strings(rt: HostRuntime) -> Result<(), Fail> {
    check_cases(&rt, rt.alloc(), ARGUMENTS)
}

const SECOND_FEATURES: &str = "0 nodes, 0 comments;Feature: f/Feature: g
1 nodes, 0 comments;Feature: f/Scenario: s/Feature: g
Unexpected at line 4, column 1;Feature: f/Scenario: s/Given x/Feature: g
Unexpected at line 5, column 1;Feature: f/Scenario: s/Examples:/|a|/Feature: g
Unexpected at line 1, column 1;Given x/Feature: f";

#[test]
fn a_second_feature(rt: HostRuntime) -> Result<(), Fail> {
    check_cases(&rt, rt.alloc(), SECOND_FEATURES)
}

const LANGUAGES: &str = "UnsupportedLanguage at line 1, column 1;# language: fr/Feature: x
UnsupportedLanguage at line 3, column 3;#c//  #language:fr
0 nodes, 1 comments;Feature: x/# language: fr
1 nodes, 1 comments;@t/# language: fr/Feature: f
0 nodes, 1 comments;# language: en/# language: fr/Feature: f
UnexpectedEnd at line 2, column 1;# language: en";

#[test]
fn language_lines(rt: HostRuntime) -> Result<(), Fail> {
    check_cases(&rt, rt.alloc(), LANGUAGES)
}
