// Skeletons of two small documents. Documents with all their parts are compared where they are read from a stream.
use gk_document::{Document, same_skeleton};
use gk_tree::parse;
use std::alloc::Global;

/// Whether the document has the skeleton of a text's document.
fn is_alike(alloc: Global, document: &Document, text: &str) -> Option<bool> {
    match parse(alloc, text) {
        Ok(other) => {
            let same = same_skeleton(document, &other);
            drop(other);
            Some(same)
        }
        Err(_) => None,
    }
}

/// Whether the documents of two texts have one skeleton.
fn are_alike(alloc: Global, first: &str, second: &str) -> Option<bool> {
    match parse(alloc, first) {
        Ok(document) => {
            let alike = is_alike(alloc, &document, second);
            drop(document);
            alike
        }
        Err(_) => None,
    }
}

#[test]
fn lines_are_compared_and_columns_are_not(rt: HostRuntime) {
    let text = "Feature: f";
    assert!(rt; are_alike(rt.alloc(), text, "        Feature: f") == Some(true));
    assert!(rt; are_alike(rt.alloc(), text, "\nFeature: f") == Some(false));
}
