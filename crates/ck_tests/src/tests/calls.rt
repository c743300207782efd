//! What the commands use, called by itself: the audit of a stream, and the text of a source.
use crate::tests::lines::{RETRIED, stream_of};
use ck_commands::{TextFault, read_text};
use cm_audit::{Counts, Reason, StreamFault, Verdict, audit};
use cm_envelope::{ByteSource, LineFault, Trouble};
use devices::{Pieces, Repeating};
use seeds::fixed_seed;
use std::alloc::Global;
use std::process::Abort;
use std::test::Fail;

fn expect_verdict(
    rt: &impl Abort,
    alloc: Global,
    words: &str,
    wanted: Verdict,
) -> Result<(), Fail> {
    let seed = fixed_seed().expect(rt, "a seed");
    let stream = stream_of(alloc, words)?;
    let found = audit(alloc, seed, &mut Pieces::whole(stream.as_bytes()));
    assert!(rt; found == Ok(wanted), "{words}");
    Ok(())
}

#[test]
fn good_streams_have_their_counts(rt: HostRuntime) -> Result<(), Fail> {
    let retried = Verdict::Good(Counts {
        sources: 1,
        pickles: 1,
        cases: 1,
        attempts: 2,
        unrun: 0,
    });
    expect_verdict(&rt, rt.alloc(), RETRIED, retried)?;
    let unrun = Verdict::Good(Counts {
        sources: 1,
        pickles: 1,
        cases: 0,
        attempts: 0,
        unrun: 1,
    });
    expect_verdict(&rt, rt.alloc(), "source document pickle run well", unrun)
}

#[test]
fn other_streams_have_a_line_and_why(rt: HostRuntime) -> Result<(), Fail> {
    let early = Verdict::Bad {
        line: 3,
        fault: StreamFault::UnknownReference,
    };
    let words = "source document case:c1:t1 pickle run unwell";
    expect_verdict(&rt, rt.alloc(), words, early)?;
    let field = Verdict::Bad {
        line: 1,
        fault: StreamFault::NoEnvelope(LineFault::Field("pickle", "id")),
    };
    expect_verdict(&rt, rt.alloc(), "empty_pickle", field)?;
    let language = Verdict::Unsupported {
        line: 1,
        reason: Reason::Language,
    };
    expect_verdict(&rt, rt.alloc(), "french", language)
}

#[test]
fn a_failed_read_of_a_stream(rt: HostRuntime) {
    let seed = fixed_seed().expect(&rt, "a seed");
    let mut source = Pieces::whole(b"").failing_at_end();
    assert!(rt; audit(rt.alloc(), seed, &mut source) == Err(Trouble::ReadFailed));
}

fn expect_text<S: ByteSource>(
    rt: &impl Abort,
    alloc: Global,
    source: &mut S,
    wanted: Result<&str, TextFault>,
) {
    match (read_text(alloc, source), wanted) {
        (Ok(found), Ok(text)) => assert!(rt; found.as_str() == text),
        (Err(found), Err(fault)) => assert!(rt; found == fault),
        (Ok(_), Err(_)) => assert!(rt; false, "a text"),
        (Err(_), Ok(_)) => assert!(rt; false, "no text"),
    }
}

#[test]
fn the_text_of_a_source(rt: HostRuntime) {
    let text = "Feature: é\n";
    let mut source = Pieces::new(text.as_bytes(), 3);
    expect_text(&rt, rt.alloc(), &mut source, Ok(text));
    expect_text(&rt, rt.alloc(), &mut Pieces::whole(b""), Ok(""));
}

#[test]
fn sources_without_a_text(rt: HostRuntime) {
    let mut endless = Repeating::new(b' ');
    expect_text(&rt, rt.alloc(), &mut endless, Err(TextFault::TooLong));
    let mut other = Pieces::whole(b"\xff");
    expect_text(&rt, rt.alloc(), &mut other, Err(TextFault::NotUtf8));
    let mut failing = Pieces::whole(b"Feature: f").failing_at_end();
    expect_text(&rt, rt.alloc(), &mut failing, Err(TextFault::ReadFailed));
}
