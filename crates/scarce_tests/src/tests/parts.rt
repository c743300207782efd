//! The parts of documents in want of memory.
use crate::tests::meeting::{Came, SMALL, meet_alone, right_if};
use gk_parts::{FirstDifference, Part, first_difference, parts};
use gk_tree::{Document, parse};
use std::alloc::{AllocError, Global};
use std::test::Fail;

const TEXT: &str =
    "Feature: f\n  Rule: r\n    Scenario Outline: s\n      Given <a>\n      Examples:\n        | a |\n        | 1 |";

const OTHER_TEXT: &str =
    "Feature: f\n  Rule: r\n    Scenario Outline: s\n      Given <a>\n      Examples:\n        | a |\n        | 2 |";

fn list_parts(alloc: Global, document: &Document) -> Came {
    match parts(alloc, document) {
        Ok(listed) => right_if(listed.len() == 7),
        Err(AllocError) => Came::Refused,
    }
}

fn find_difference(alloc: Global, expected: &Document, found: &Document) -> Came {
    match first_difference(alloc, expected, found) {
        Ok(
            Some(
                FirstDifference {
                    expected: Some(Part::Row(row)),
                    found: Some(Part::Row(other)),
                },
            ),
        ) => right_if(row.location.line == 7 && other.location.line == 7),
        Ok(_) => Came::Wrong,
        Err(AllocError) => Came::Refused,
    }
}

#[test]
fn parts_of_a_document(rt: HostRuntime) -> Result<(), Fail> {
    let alloc = rt.alloc();
    let document = parse(alloc, TEXT)?;
    let met = meet_alone(alloc, SMALL, |alloc| list_parts(alloc, &document));
    drop(document);
    met
}

fn meet_difference(alloc: Global, expected: &Document) -> Result<(), Fail> {
    let found = parse(alloc, OTHER_TEXT)?;
    let met = meet_alone(
        alloc,
        SMALL,
        |alloc| find_difference(alloc, expected, &found),
    );
    drop(found);
    met
}

#[test]
fn first_differences(rt: HostRuntime) -> Result<(), Fail> {
    let alloc = rt.alloc();
    let expected = parse(alloc, TEXT)?;
    let met = meet_difference(alloc, &expected);
    drop(expected);
    met
}
