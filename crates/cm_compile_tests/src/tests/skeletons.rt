//! Documents of a stream beside the document of a text.
use crate::tests::compiled::PLAIN_TEXT;
use cm_envelope::{Envelope, EnvelopeFault};
use cm_reading::read_envelope;
use gk_document::{Document, same_skeleton};
use gk_tree::parse;
use std::alloc::Global;
use std::process::Abort;
use std::test::Fail;

// Whether the two have the same skeleton, and lines of a document of the plain text.
const DOCUMENTS: &str =
    r#"yes {"gherkinDocument":{"comments":[],"feature":{"children":[{"scenario":{"description":"","examples":[],"id":"0","keyword":"Scenario","location":{"column":3,"line":3},"name":"s","steps":[{"id":"1","keyword":"Given ","keywordType":"Context","location":{"column":5,"line":4},"text":"a"}],"tags":[]}}],"description":"","keyword":"Feature","language":"en","location":{"column":1,"line":1},"name":"f","tags":[]},"uri":"a.feature"}}
yes {"gherkinDocument":{"comments":[],"feature":{"children":[{"scenario":{"description":"","examples":[],"id":"0","keyword":"Scenario","location":{"column":3,"line":3},"name":"s","steps":[{"id":"1","keyword":"Given ","keywordType":"Context","location":{"column":9,"line":4},"text":"a"}],"tags":[]}}],"description":"","keyword":"Feature","language":"en","location":{"column":1,"line":1},"name":"f","tags":[]},"uri":"a.feature"}}
yes {"gherkinDocument":{"comments":[],"feature":{"children":[{"scenario":{"description":"","examples":[],"id":"0","keyword":"Scenario","location":{"column":3,"line":3},"name":"s","steps":[{"id":"1","keyword":"Given ","keywordType":"Context","location":{"line":4},"text":"a"}],"tags":[]}}],"description":"","keyword":"Feature","language":"en","location":{"column":1,"line":1},"name":"f","tags":[]},"uri":"a.feature"}}
yes {"gherkinDocument":{"comments":[],"feature":{"children":[{"scenario":{"description":"","examples":[],"id":"0","keyword":"Scenario","location":{"column":3,"line":3},"name":"s","steps":[{"id":"1","keyword":"Given ","keywordType":"Context","location":{"column":5,"line":4},"text":"a"}],"tags":[]}}],"description":"other","keyword":"Feature","language":"en","location":{"column":1,"line":1},"name":"f","tags":[]},"uri":"a.feature"}}
no {"gherkinDocument":{"comments":[],"feature":{"children":[{"scenario":{"description":"","examples":[],"id":"0","keyword":"Scenario","location":{"column":3,"line":3},"name":"s","steps":[{"id":"1","keyword":"Given ","keywordType":"Context","location":{"column":5,"line":5},"text":"a"}],"tags":[]}}],"description":"","keyword":"Feature","language":"en","location":{"column":1,"line":1},"name":"f","tags":[]},"uri":"a.feature"}}
no {"gherkinDocument":{"comments":[],"feature":{"children":[{"scenario":{"description":"","examples":[],"id":"0","keyword":"Example","location":{"column":3,"line":3},"name":"s","steps":[{"id":"1","keyword":"Given ","keywordType":"Context","location":{"column":5,"line":4},"text":"a"}],"tags":[]}}],"description":"","keyword":"Feature","language":"en","location":{"column":1,"line":1},"name":"f","tags":[]},"uri":"a.feature"}}
no {"gherkinDocument":{"comments":[],"feature":{"children":[{"scenario":{"description":"","examples":[{"id":"2","keyword":"Examples","location":{"line":5},"name":""}],"id":"0","keyword":"Scenario","location":{"column":3,"line":3},"name":"s","steps":[{"id":"1","keyword":"Given ","keywordType":"Context","location":{"column":5,"line":4},"text":"a"}],"tags":[]}}],"description":"","keyword":"Feature","language":"en","location":{"column":1,"line":1},"name":"f","tags":[]},"uri":"a.feature"}}"#;

// Whether a document was read with the skeleton of this one.
fn is_alike(read: &Result<Envelope, EnvelopeFault>, document: &Document) -> Option<bool> {
    match read {
        Ok(Envelope::GherkinDocument(read)) => Some(same_skeleton(document, &read.document)),
        _ => None,
    }
}

fn has_skeleton(alloc: Global, document: &Document, line: &str) -> Option<bool> {
    let read = read_envelope(alloc, line.as_bytes());
    let is_alike = is_alike(&read, document);
    drop(read);
    is_alike
}

fn expect_skeletons(rt: &impl Abort, alloc: Global, document: &Document) -> Result<(), Fail> {
    for told in DOCUMENTS.lines() {
        let (word, line) = told.split_once(' ').ok_or("no word")?;
        let is_same = has_skeleton(alloc, document, line);
        assert!(rt; is_same == Some(word == "yes"));
    }
    Ok(())
}

#[test]
fn skeletons_of_documents(rt: HostRuntime) -> Result<(), Fail> {
    let alloc = rt.alloc();
    let document = parse(alloc, PLAIN_TEXT)?;
    let done = expect_skeletons(&rt, alloc, &document);
    drop(document);
    done
}
