//! What differs of documents and pickles, in want of memory.
use crate::tests::meeting::{Came, SMALL, meet, right_if};
use crate::tests::streams::PLAIN_TEXT;
use cm_differs::{Difference, pickle_difference, tree_difference};
use cm_envelope::{Envelope, EnvelopeFault, Pickle};
use cm_reading::read_envelope;
use gk_document::{Document, Text};
use gk_pickle::{Pickle as DuePickle, compile};
use gk_tree::parse;
use scarce::Shortage;
use seeds::fixed_seed;
use std::alloc::{AllocError, Global};
use std::test::Fail;

const OTHER_TEXT: &str = "Feature: f\n\n  Scenario: s\n    Given b\n";

const DUE_STEP: &str = r#"{"step":{"keyword":"Given ","location":{"line":4},"text":"a"}}"#;

const OTHER_STEP: &str = r#"{"step":{"keyword":"Given ","location":{"line":4},"text":"b"}}"#;

const FOUND_LINE: &str =
    r#"{"pickle":{"uri":"u","id":"3","astNodeIds":["0"],"language":"en","name":"s","steps":[{"id":"2","astNodeIds":["1"],"text":"b"}],"tags":[]}}"#;

const DUE_PICKLE: &str =
    r#"{"pickle":{"astNodeIds":[""],"language":"en","name":"s","steps":[{"astNodeIds":[""],"text":"a"}],"tags":[],"uri":"u"}}"#;

const FOUND_PICKLE: &str =
    r#"{"pickle":{"astNodeIds":["0"],"language":"en","name":"s","steps":[{"astNodeIds":["1"],"text":"b"}],"tags":[],"uri":"u"}}"#;

fn came_of(
    made: &Result<Difference, AllocError>,
    expected: Option<&str>,
    found: Option<&str>,
) -> Came {
    match made {
        Ok(difference) => right_if(
            difference.uri.as_str() == "u"
                && difference.expected.as_ref().map(Text::as_str) == expected
                && difference.found.as_ref().map(Text::as_str) == found,
        ),
        Err(AllocError) => Came::Refused,
    }
}

fn compare_trees(alloc: Global, due: &Document, found: &Document) -> Came {
    match tree_difference(alloc, "u", due, found) {
        Ok(Some(difference)) => came_of(&Ok(difference), Some(DUE_STEP), Some(OTHER_STEP)),
        Ok(None) => Came::Wrong,
        Err(AllocError) => Came::Refused,
    }
}

fn compare_pickles(alloc: Global, due: &DuePickle, found: &Pickle) -> Came {
    let made = pickle_difference(alloc, &[], Some(due), found);
    came_of(&made, Some(DUE_PICKLE), Some(FOUND_PICKLE))
}

fn meet_trees(
    alloc: Global,
    shortage: &mut Shortage,
    due: &Document,
    found: &Document,
) -> Result<(), Fail> {
    meet(
        alloc,
        shortage,
        SMALL,
        |alloc| compare_trees(alloc, due, found),
    )
}

fn meet_documents(alloc: Global, due: &Document, found: &Document) -> Result<(), Fail> {
    let mut shortage = Shortage::new(alloc)?;
    let met = meet_trees(alloc, &mut shortage, due, found);
    drop(shortage);
    met
}

fn meet_other_document(alloc: Global, due: &Document) -> Result<(), Fail> {
    let found = parse(alloc, OTHER_TEXT)?;
    let met = meet_documents(alloc, due, &found);
    drop(found);
    met
}

#[test]
fn documents_that_differ(rt: HostRuntime) -> Result<(), Fail> {
    let alloc = rt.alloc();
    let due = parse(alloc, PLAIN_TEXT)?;
    let met = meet_other_document(alloc, &due);
    drop(due);
    met
}

fn meet_lines(
    alloc: Global,
    shortage: &mut Shortage,
    due: &DuePickle,
    found: &Pickle,
) -> Result<(), Fail> {
    meet(
        alloc,
        shortage,
        SMALL,
        |alloc| compare_pickles(alloc, due, found),
    )
}

fn meet_pickles(alloc: Global, due: &DuePickle, found: &Pickle) -> Result<(), Fail> {
    let mut shortage = Shortage::new(alloc)?;
    let met = meet_lines(alloc, &mut shortage, due, found);
    drop(shortage);
    met
}

fn meet_read(
    alloc: Global,
    due: &DuePickle,
    read: &Result<Envelope, EnvelopeFault>,
) -> Result<(), Fail> {
    match read {
        Ok(Envelope::Pickle(found)) => meet_pickles(alloc, due, found),
        _ => Err(Fail::from("no pickle")),
    }
}

fn meet_found_pickle(alloc: Global, due: &DuePickle) -> Result<(), Fail> {
    let read = read_envelope(alloc, FOUND_LINE.as_bytes());
    let met = meet_read(alloc, due, &read);
    drop(read);
    met
}

fn meet_first_pickle(alloc: Global, pickles: &[DuePickle]) -> Result<(), Fail> {
    match pickles.first() {
        Some(due) => meet_found_pickle(alloc, due),
        None => Err(Fail::from("no pickle")),
    }
}

fn meet_compiled(alloc: Global, document: &Document) -> Result<(), Fail> {
    let seed = fixed_seed()?;
    let pickles = compile(alloc, seed, document)?;
    let met = meet_first_pickle(alloc, pickles.as_slice());
    drop(pickles);
    met
}

#[test]
fn pickles_that_differ(rt: HostRuntime) -> Result<(), Fail> {
    let alloc = rt.alloc();
    let document = parse(alloc, PLAIN_TEXT)?;
    let met = meet_compiled(alloc, &document);
    drop(document);
    met
}
