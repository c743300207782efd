//! Places of scenarios, and the lines of cases and pickles.
use crate::tests::stream::{envelope_of, whole, whole_trail};
use cm_cases::{
    JsonLines, Listing, Places, Whole, add_first, add_shown, add_shown_json, firsts_of, tag_names,
};
use cm_envelope::{Envelope, Pickle};
use cm_reasons::Trail;
use indexmap::IndexMap;
use seeds::fixed_seed;
use std::alloc::{AllocError, Global};
use std::hash::RandomState;
use std::test::Fail;

fn note_line(alloc: Global, listing: &mut Listing, line: &str) -> Result<(), Fail> {
    let envelope = envelope_of(alloc, line)?;
    let noted = listing.note(alloc, &envelope);
    drop(envelope);
    Ok(noted?)
}

fn listing_of(alloc: Global, lines: &str) -> Result<Listing, Fail> {
    let mut listing = Listing::new(alloc);
    for line in lines.lines() {
        note_line(alloc, &mut listing, line)?;
    }
    Ok(listing)
}

/// The listing of the stream.
fn whole_listing(alloc: Global) -> Result<Listing, Fail> {
    let stream = whole(alloc)?;
    let listing = listing_of(alloc, stream.as_str());
    drop(stream);
    listing
}

/// A node by its id, a pickle, a case, and a case that isn't there.
fn add_places(text: &mut String, places: &Places<'_>) -> Result<(), AllocError> {
    places.add_place(text, "a.feature", "named so", "s2")?;
    places.add_pickle_scenario(text, "p2")?;
    places.add_case_scenario(text, "c1")?;
    places.add_case_scenario(text, "c9")
}

fn added_places(alloc: Global, places: &Places<'_>) -> Result<String, AllocError> {
    let mut text = String::new(alloc);
    add_places(&mut text, places)?;
    Ok(text)
}

/// The lines of pickles that no case names.
fn unrun_lines(alloc: Global, places: &Places<'_>) -> Result<String, AllocError> {
    let mut text = String::new(alloc);
    places.add_unrun(&mut text)?;
    Ok(text)
}

/// What is told by the places of the listing: places, or the lines of pickles that no case names.
fn told_by_places(
    alloc: Global,
    seed: RandomState,
    listing: &Listing,
    are_lines: bool,
) -> Result<String, AllocError> {
    let places = Places::of(alloc, seed, listing)?;
    let text = if are_lines {
        unrun_lines(alloc, &places)
    } else {
        added_places(alloc, &places)
    };
    drop(places);
    text
}

fn told(alloc: Global, are_lines: bool) -> Result<String, Fail> {
    let seed = fixed_seed()?;
    let listing = whole_listing(alloc)?;
    let text = told_by_places(alloc, seed, &listing, are_lines);
    drop(listing);
    Ok(text?)
}

#[test]
fn places_by_node_by_pickle_and_by_case(rt: HostRuntime) -> Result<(), Fail> {
    let text = told(rt.alloc(), false)?;
    assert!(rt; text.as_str() == " a.feature:4 named so a.feature:4 two a.feature:2 one");
    Ok(())
}

#[test]
fn pickles_that_no_case_names(rt: HostRuntime) -> Result<(), Fail> {
    let text = told(rt.alloc(), true)?;
    assert!(rt; text.as_str() == "UNRUN a.feature:4 two\n");
    Ok(())
}

fn json_in(alloc: Global, lines: &JsonLines<'_>) -> Result<String, AllocError> {
    let mut json = String::new(alloc);
    lines.add_unrun(alloc, &mut json)?;
    Ok(json)
}

fn json_by_listing(
    alloc: Global,
    seed: RandomState,
    listing: &Listing,
) -> Result<String, AllocError> {
    let lines = JsonLines::of(alloc, seed, listing)?;
    let json = json_in(alloc, &lines);
    drop(lines);
    json
}

fn unrun_json(alloc: Global) -> Result<String, Fail> {
    let seed = fixed_seed()?;
    let listing = whole_listing(alloc)?;
    let json = json_by_listing(alloc, seed, &listing);
    drop(listing);
    Ok(json?)
}

#[test]
fn pickles_that_no_case_names_as_json(rt: HostRuntime) -> Result<(), Fail> {
    let json = unrun_json(rt.alloc())?;
    assert!(rt;
        json.as_str()
            == "{\"attempts\":0,\"line\":4,\"name\":\"two\",\"status\":\"UNRUN\",\"tags\":[],\"uri\":\"a.feature\"}\n"
    );
    Ok(())
}

fn are_two_uris(alloc: Global, listing: &Listing) -> Result<bool, AllocError> {
    let uris = listing.pickle_uris(alloc)?;
    Ok(uris.as_slice() == [("p1", "a.feature"), ("p2", "a.feature")].as_slice())
}

fn is_one_named(alloc: Global, listing: &Listing) -> Result<bool, AllocError> {
    let named = listing.named_pickles(alloc)?;
    Ok(named.as_slice() == ["p1"].as_slice())
}

fn lists_both(alloc: Global) -> Result<(bool, bool), Fail> {
    let listing = whole_listing(alloc)?;
    let (uris, named) = (are_two_uris(alloc, &listing), is_one_named(alloc, &listing));
    drop(listing);
    Ok((uris?, named?))
}

#[test]
fn uris_of_pickles_and_pickles_of_cases(rt: HostRuntime) -> Result<(), Fail> {
    let (are_uris, are_named) = lists_both(rt.alloc())?;
    assert!(rt; are_uris && are_named);
    Ok(())
}

/// How many sources, pickles and named pickles a trail lists, where the last source is the one that is refused.
fn counts(alloc: Global, trail: &Trail) -> Result<(usize, usize, usize), AllocError> {
    let sources = match trail.source_texts(alloc)?.as_slice() {
        [first, ("b.feature", "Given x\nFeature: f\n")] if first.0 == "a.feature" => 2,
        _ => 0,
    };
    let pickles = trail.pickle_uris(alloc)?.len();
    Ok((sources, pickles, trail.named_pickles(alloc)?.len()))
}

fn trail_counts(alloc: Global) -> Result<(usize, usize, usize), Fail> {
    let trail = whole_trail(alloc)?;
    let counts = counts(alloc, &trail);
    drop(trail);
    Ok(counts?)
}

#[test]
fn what_a_trail_lists(rt: HostRuntime) -> Result<(), Fail> {
    let counts = trail_counts(rt.alloc())?;
    assert!(rt; counts == (2, 2, 1));
    Ok(())
}

fn case_in(alloc: Global, places: &Places<'_>) -> Result<String, AllocError> {
    let mut text = String::new(alloc);
    places.add_case(&mut text, "c1")?;
    Ok(text)
}

fn case_by_trail(alloc: Global, seed: RandomState, trail: &Trail) -> Result<String, AllocError> {
    let places = trail.places(alloc, seed)?;
    let text = case_in(alloc, &places);
    drop(places);
    text
}

fn case_of_stream(alloc: Global) -> Result<String, Fail> {
    let seed = fixed_seed()?;
    let trail = whole_trail(alloc)?;
    let text = case_by_trail(alloc, seed, &trail);
    drop(trail);
    Ok(text?)
}

#[test]
fn the_places_of_a_trail(rt: HostRuntime) -> Result<(), Fail> {
    let text = case_of_stream(rt.alloc())?;
    assert!(rt; text.as_str() == " a.feature:2 one\n");
    Ok(())
}

const TAGGED: &str =
    r#"{"pickle":{"astNodeIds":[],"id":"p","language":"en","name":"n","steps":[],"tags":[{"name":"@b","astNodeId":"1"},{"name":"@a","astNodeId":"2"}],"uri":"u"}}"#;

fn has_both_names(alloc: Global, pickle: &Pickle) -> Result<bool, AllocError> {
    let names = tag_names(alloc, pickle.tags.as_slice())?;
    Ok(match names.as_slice() {
        [first, second] => first.as_str() == "@b" && second.as_str() == "@a",
        _ => false,
    })
}

fn are_names(alloc: Global, envelope: &Envelope) -> Result<bool, AllocError> {
    match envelope {
        Envelope::Pickle(pickle) => has_both_names(alloc, pickle),
        _ => Ok(false),
    }
}

fn names_are_read(alloc: Global) -> Result<bool, Fail> {
    let envelope = envelope_of(alloc, TAGGED)?;
    let are_names = are_names(alloc, &envelope);
    drop(envelope);
    Ok(are_names?)
}

#[test]
fn names_of_tags(rt: HostRuntime) -> Result<(), Fail> {
    assert!(rt; names_are_read(rt.alloc())?);
    Ok(())
}

fn is_first_kept(alloc: Global, seed: RandomState) -> Result<bool, AllocError> {
    let mut numbers = IndexMap::with_hasher(alloc, seed);
    add_first(&mut numbers, "a", 1u8)?;
    add_first(&mut numbers, "a", 2u8)?;
    Ok(numbers.get("a").copied() == Some(1))
}

#[test]
fn the_first_of_each_text(rt: HostRuntime) -> Result<(), Fail> {
    let (alloc, seed) = (rt.alloc(), fixed_seed()?);
    assert!(rt; is_first_kept(alloc, seed)?);
    let words = ["b", "a", "b"];
    let firsts = firsts_of::<Whole, &str>(alloc, seed, &words)?;
    assert!(rt; firsts.len() == 2 && firsts.contains_key("a") && firsts.contains_key("b"));
    Ok(())
}

#[test]
fn a_text_that_keeps_to_its_line(rt: HostRuntime) -> Result<(), Fail> {
    let mut text = String::new(rt.alloc());
    add_shown(&mut text, "a\n\\\u{1b}")?;
    assert!(rt; text.as_str() == "a\\n\\\\\\u001b");
    Ok(())
}

#[test]
fn json_that_keeps_to_its_line(rt: HostRuntime) -> Result<(), Fail> {
    let mut json = String::new(rt.alloc());
    add_shown_json(&mut json, "\"\u{202e}\"")?;
    assert!(rt; json.as_str() == "\"\\u202e\"");
    Ok(())
}
