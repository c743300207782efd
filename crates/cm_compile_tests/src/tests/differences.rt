//! In what streams differ from what their sources' texts compile to.
use crate::tests::compiled::PLAIN_TEXT;
use cm_differs::{Difference, pickle_difference, tree_difference};
use cm_envelope::{Envelope, EnvelopeFault, NodeId, Pickle as FoundPickle};
use cm_reading::read_envelope;
use gk_document::{Document, Text};
use gk_pickle::{Pickle, compile};
use gk_tree::parse;
use seeds::fixed_seed;
use std::alloc::{AllocError, Global};
use std::test::Fail;

const URI: &str = "a.feature";

// Whether the difference is at the URI, with these texts.
fn is_difference(difference: &Difference, expected: Option<&str>, found: Option<&str>) -> bool {
    difference.uri.as_str() == URI
        && difference.expected.as_ref().map(Text::as_str) == expected
        && difference.found.as_ref().map(Text::as_str) == found
}

fn two_ids(alloc: Global) -> Result<Vec<NodeId>, AllocError> {
    let mut ids = Vec::new(alloc);
    ids.push(NodeId::copy_of(alloc, "x0")?)?;
    ids.push(NodeId::copy_of(alloc, "x1")?)?;
    Ok(ids)
}

const UNTYPED_PICKLE: &str =
    r#"{"pickle":{"astNodeIds":["x0"],"language":"en","name":"s","steps":[{"astNodeIds":["x1"],"text":"a"}],"tags":[],"uri":"a.feature"}}"#;

const FOUND_LINE: &str =
    r#"{"pickle":{"uri":"a.feature","id":"9","astNodeIds":["x1"],"language":"de","name":"t","steps":[{"id":"8","astNodeIds":[],"text":"b","argument":{"dataTable":{"rows":[{"cells":[{"value":"\u202e"}]}]}}},{"id":"7","astNodeIds":["x0"],"text":"","type":"Outcome","argument":{"docString":{"content":"c","mediaType":"m"}}}],"tags":[{"name":"@t","astNodeId":"x0"}]}}"#;

const FOUND_PICKLE: &str =
    "{\"pickle\":{\"astNodeIds\":[\"x1\"],\"language\":\"de\",\"name\":\"t\",\"steps\":[{\"argument\":{\"dataTable\":{\"rows\":[{\"cells\":[{\"value\":\"\u{202e}\"}]}]}},\"astNodeIds\":[],\"text\":\"b\"},{\"argument\":{\"docString\":{\"content\":\"c\",\"mediaType\":\"m\"}},\"astNodeIds\":[\"x0\"],\"text\":\"\",\"type\":\"Outcome\"}],\"tags\":[{\"astNodeId\":\"x0\",\"name\":\"@t\"}],\"uri\":\"a.feature\"}}";

// What differs where a pickle is due and another is found, and where nothing is due.
fn beside_differs(
    alloc: Global,
    due: &Pickle,
    ids: &[NodeId],
    found: &FoundPickle,
) -> Result<bool, AllocError> {
    let beside = pickle_difference(alloc, ids, Some(due), found)?;
    Ok(is_difference(&beside, Some(UNTYPED_PICKLE), Some(FOUND_PICKLE)))
}

fn surplus_differs(alloc: Global, ids: &[NodeId], found: &FoundPickle) -> Result<bool, AllocError> {
    let surplus = pickle_difference(alloc, ids, None, found)?;
    Ok(is_difference(&surplus, None, Some(FOUND_PICKLE)))
}

fn pickles_differ(
    alloc: Global,
    due: &Pickle,
    ids: &[NodeId],
    found: &FoundPickle,
) -> Result<bool, AllocError> {
    Ok(beside_differs(alloc, due, ids, found)? && surplus_differs(alloc, ids, found)?)
}

fn read_differs(
    alloc: Global,
    due: &Pickle,
    ids: &[NodeId],
    read: &Result<Envelope, EnvelopeFault>,
) -> Result<bool, AllocError> {
    match read {
        Ok(Envelope::Pickle(found)) => pickles_differ(alloc, due, ids, found),
        _ => Ok(false),
    }
}

fn line_differs(
    alloc: Global,
    due: &Pickle,
    ids: &[NodeId],
    line: &str,
) -> Result<bool, AllocError> {
    let read = read_envelope(alloc, line.as_bytes());
    let differs = read_differs(alloc, due, ids, &read);
    drop(read);
    differs
}

fn is_due(alloc: Global, due: &Pickle, line: &str) -> Result<bool, AllocError> {
    let ids = two_ids(alloc)?;
    line_differs(alloc, due, ids.as_slice(), line)
}

fn differs_from_first(alloc: Global, document: &Document, line: &str) -> Result<bool, Fail> {
    let seed = fixed_seed()?;
    let pickles = compile(alloc, seed, document)?;
    match pickles.first() {
        Some(due) => Ok(is_due(alloc, due, line)?),
        None => Err(Fail::from("no pickle")),
    }
}

#[test]
fn differences_of_pickles(rt: HostRuntime) -> Result<(), Fail> {
    let document = parse(rt.alloc(), PLAIN_TEXT)?;
    let differs = differs_from_first(rt.alloc(), &document, FOUND_LINE);
    drop(document);
    assert!(rt; differs?);
    Ok(())
}

const DUE_STEP: &str = r#"{"step":{"keyword":"Given ","location":{"line":4},"text":"a"}}"#;

const OTHER_TEXT: &str = "Feature: f\n\n  Scenario: s\n    Given b\n  Scenario: t\n";

const OTHER_STEP: &str = r#"{"step":{"keyword":"Given ","location":{"line":4},"text":"b"}}"#;

const LONGER_TEXT: &str = "Feature: f\n\n  Scenario: s\n    Given a\n  Scenario: t\n";

const MORE_SCENARIO: &str =
    r#"{"scenario":{"keyword":"Scenario","location":{"line":5},"name":"t","tags":[]}}"#;

const SAME_TEXT: &str = "Feature: f\n\n Scenario: s\n     Given a\n  # c\n";

// Whether the document of a text differs from the one that is due in these two texts.
fn differs_in(
    alloc: Global,
    due: &Document,
    text: &str,
    expected: Option<&str>,
    seen: Option<&str>,
) -> Result<bool, Fail> {
    let found = parse(alloc, text)?;
    let difference = tree_difference(alloc, URI, due, &found);
    drop(found);
    Ok(match difference? {
        Some(difference) => is_difference(&difference, expected, seen),
        None => false,
    })
}

// Whether a document has the skeleton of the one that is due.
fn is_same(alloc: Global, due: &Document, found: &Document) -> Result<bool, AllocError> {
    Ok(tree_difference(alloc, URI, due, found)?.is_none())
}

fn is_alike(alloc: Global, due: &Document, text: &str) -> Result<bool, Fail> {
    let found = parse(alloc, text)?;
    let is_same = is_same(alloc, due, &found);
    drop(found);
    Ok(is_same?)
}

fn documents_differ(alloc: Global, due: &Document) -> Result<bool, Fail> {
    Ok(
        differs_in(alloc, due, OTHER_TEXT, Some(DUE_STEP), Some(OTHER_STEP))?
            && differs_in(alloc, due, LONGER_TEXT, None, Some(MORE_SCENARIO))?
            && is_alike(alloc, due, SAME_TEXT)?,
    )
}

#[test]
fn differences_of_documents(rt: HostRuntime) -> Result<(), Fail> {
    let due = parse(rt.alloc(), PLAIN_TEXT)?;
    let differ = documents_differ(rt.alloc(), &due);
    drop(due);
    assert!(rt; differ?);
    Ok(())
}
