//! The lines that a feed answers, over sources in memory.
use cm_envelope::{ByteSource, Feed, Reader, Trouble, is_blank_line};
use devices::{Failing, Pieces, Repeating};
use std::alloc::Global;
use std::process::Abort;

fn name_of(trouble: Trouble) -> &'static str {
    match trouble {
        Trouble::ReadFailed => "ReadFailed",
        Trouble::LineTooLong => "LineTooLong",
        Trouble::StreamTooLong => "StreamTooLong",
        Trouble::Memory => "Memory",
    }
}

// The answer is the one that is listed: `=` and the line, `end`, or the trouble.
fn expect_answer(rt: &impl Abort, answer: &Result<Option<&[u8]>, Trouble>, told: &str) {
    match answer {
        Ok(Some(line)) => match told.strip_prefix('=') {
            Some(wanted) => assert!(rt; *line == wanted.as_bytes()),
            None => assert!(rt; false, "a line"),
        },
        Ok(None) => assert!(rt; told == "end"),
        Err(trouble) => assert!(rt; told == name_of(*trouble)),
    }
}

fn expect_answers<S: ByteSource>(rt: &impl Abort, feed: &mut Feed, source: &mut S, answers: &str) {
    for told in answers.lines() {
        expect_answer(rt, &feed.next_line(source), told);
    }
}

// A feed of these bytes, with a line of four bytes at most in a stream of ten.
fn expect_small(rt: &impl Abort, alloc: Global, bytes: &[u8], most: usize, answers: &str) {
    let mut feed = Feed::with_limits(alloc, 4, 10);
    expect_answers(rt, &mut feed, &mut Pieces::new(bytes, most), answers);
}

const LONG_LINE: &str = "=ab\n=\nLineTooLong\nLineTooLong";

const LONG_STREAM: &str = "=ab\n=abcd\nStreamTooLong\nStreamTooLong";

const WITHIN: &str = "=ab\n=abcd\n=ab\nend\nend";

fn expect_limits(rt: &impl Abort, alloc: Global, most: usize) {
    expect_small(rt, alloc, b"ab\n\nabcde", most, LONG_LINE);
    expect_small(rt, alloc, b"ab\nabcd\nabc\n", most, LONG_STREAM);
    expect_small(rt, alloc, b"ab\nabcd\nab", most, WITHIN);
}

#[test]
fn lines_within_small_limits(rt: HostRuntime) {
    let alloc = rt.alloc();
    expect_limits(&rt, alloc, 1);
    expect_limits(&rt, alloc, 3);
    expect_limits(&rt, alloc, 100);
}

fn expect_endless(rt: &impl Abort, alloc: Global, byte: u8, answers: &str) {
    let mut feed = Feed::with_limits(alloc, 4, 10);
    expect_answers(rt, &mut feed, &mut Repeating::new(byte), answers);
}

#[test]
fn endless_bytes(rt: HostRuntime) {
    let alloc = rt.alloc();
    expect_endless(&rt, alloc, b'a', "LineTooLong\nLineTooLong");
    let ten_lines = "=\n=\n=\n=\n=\n=\n=\n=\n=\n=\nStreamTooLong\nStreamTooLong";
    expect_endless(&rt, alloc, b'\n', ten_lines);
}

// The read of this number fails: the line before it is given, and then the trouble, for which no other read is made.
fn expect_failed(rt: &impl Abort, alloc: Global, most: usize, number: u64) {
    for reads in [Failing::Once(number), Failing::EverSince(number)] {
        let mut source = Pieces::new(b"ab\ncd", most).failing_reads(reads);
        let mut feed = Feed::new(alloc);
        expect_answers(rt, &mut feed, &mut source, "=ab\nReadFailed\nReadFailed");
        assert_eq!(rt; source.reads(), number);
        assert_eq!(rt; source.failed_reads(), 1);
    }
}

#[test]
fn a_failed_read(rt: HostRuntime) {
    expect_failed(&rt, rt.alloc(), 100, 2);
    expect_failed(&rt, rt.alloc(), 1, 6);
}

#[test]
fn a_reader_of_std(rt: HostRuntime) {
    let mut bytes = b"ab\ncd".as_slice();
    let mut source = Reader::new(&mut bytes);
    let mut feed = Feed::new(rt.alloc());
    expect_answers(&rt, &mut feed, &mut source, "=ab\n=cd\nend");
}

#[test]
fn blank_lines(rt: HostRuntime) {
    assert!(rt; is_blank_line(b""));
    assert!(rt; is_blank_line(b" "));
    assert!(rt; is_blank_line(b"\t"));
    assert!(rt; is_blank_line(b"\r"));
    assert!(rt; is_blank_line(b" \t\r "));
    assert!(rt; !is_blank_line(b"{}"));
    assert!(rt; !is_blank_line(b" {"));
    assert!(rt; !is_blank_line(b"\x0b"));
    assert!(rt; !is_blank_line(b"\x0c"));
    assert!(rt; !is_blank_line(b"\xc2\xa0"));
}
