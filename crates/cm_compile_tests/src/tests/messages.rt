//! Messages one by one, and of texts that a serializer might refuse. No clause says which errors it has.
use crate::tests::compiled::{PLAIN_LINES, PLAIN_TEXT};
use cm_messages::{MessageLayout, document_text, json_text, pickle_text, source_text};
use gk_document::Document;
use gk_pickle::{Pickle, compile};
use gk_tree::parse;
use seeds::fixed_seed;
use std::alloc::{AllocError, Global};
use std::process::Abort;
use std::test::Fail;

const START: &str = r#"{"source":{"data":""#;

/// Whether the message of a source that is this character is written.
fn is_written(alloc: Global, character: char) -> Result<bool, AllocError> {
    let mut text = String::new(alloc);
    text.push(character)?;
    let message = source_text(alloc, "c.feature", text.as_str())?;
    Ok(message.starts_with(START.as_bytes()))
}

#[test]
fn no_ascii_character_is_refused(rt: HostRuntime) -> Result<(), Fail> {
    let alloc = rt.alloc();
    for code in 0..128u8 {
        let done = is_written(alloc, char::from(code))?;
        assert!(rt; done);
    }
    Ok(())
}

const URI: &str = "a.feature";

/// The three lines of the compiled file: its source, its document and its pickle.
fn three_lines() -> Option<(&'static str, &'static str, &'static str)> {
    let mut lines = PLAIN_LINES.lines();
    Some((lines.next()?, lines.next()?, lines.next()?))
}

fn is_source_message(alloc: Global, line: &str) -> Result<bool, AllocError> {
    let message = source_text(alloc, URI, PLAIN_TEXT)?;
    Ok(message.as_slice() == line.as_bytes())
}

#[test]
fn the_message_of_a_source_is_the_first_line(rt: HostRuntime) -> Result<(), Fail> {
    let (line, _, _) = three_lines().ok_or("fewer lines")?;
    let is_wanted = is_source_message(rt.alloc(), line)?;
    assert!(rt; is_wanted);
    Ok(())
}

fn is_document_message(alloc: Global, document: &Document, line: &str) -> Result<bool, AllocError> {
    let message = document_text(alloc, URI, document)?;
    Ok(message.as_slice() == line.as_bytes())
}

#[test]
fn the_message_of_a_document_is_the_second_line(rt: HostRuntime) -> Result<(), Fail> {
    let (_, line, _) = three_lines().ok_or("fewer lines")?;
    let document = parse(rt.alloc(), PLAIN_TEXT)?;
    let is_wanted = is_document_message(rt.alloc(), &document, line);
    drop(document);
    assert!(rt; is_wanted?);
    Ok(())
}

/// Whether the line is the message of a pickle with few steps, whose ids begin with 2.
fn is_pickle_message(alloc: Global, pickle: &Pickle, line: &str) -> Result<bool, Fail> {
    if pickle.steps.len() > 1 {
        return Err(Fail::from("more than one step"));
    }
    let message = pickle_text(alloc, URI, pickle, 2)?;
    Ok(message.as_slice() == line.as_bytes())
}

fn is_first_pickle_message(alloc: Global, pickles: &[Pickle], line: &str) -> Result<bool, Fail> {
    match pickles.first() {
        Some(pickle) => is_pickle_message(alloc, pickle, line),
        None => Err(Fail::from("no pickle")),
    }
}

fn is_compiled_message(alloc: Global, document: &Document, line: &str) -> Result<bool, Fail> {
    let pickles = compile(alloc, fixed_seed()?, document)?;
    let is_wanted = is_first_pickle_message(alloc, pickles.as_slice(), line);
    drop(pickles);
    is_wanted
}

#[test]
fn the_message_of_a_pickle_is_the_third_line(rt: HostRuntime) -> Result<(), Fail> {
    let (_, _, line) = three_lines().ok_or("fewer lines")?;
    let document = parse(rt.alloc(), PLAIN_TEXT)?;
    let is_wanted = is_compiled_message(rt.alloc(), &document, line);
    drop(document);
    assert!(rt; is_wanted?);
    Ok(())
}

#[test]
fn an_id_is_the_text_of_its_number(rt: HostRuntime) -> Result<(), Fail> {
    let id = json_text::<MessageLayout, u64>(rt.alloc(), &70)?;
    assert!(rt; id.as_slice() == b"\"70\"".as_slice());
    Ok(())
}
