//! The lines of a feed in want of memory.
use cm_envelope::{Feed, Trouble};
use devices::Pieces;
use scarce::{GREATEST_ROOM, Shortage, check};
use std::alloc::Global;
use std::test::Fail;

// What a feed gives next.
#[derive(Clone, Copy, PartialEq, Eq)]
enum Next {
    Line,
    End,
    Failed(Trouble),
    Another,
}

// What an answer is, where a line is to be the wanted one.
fn next_of(answer: Result<Option<&[u8]>, Trouble>, wanted: &str) -> Next {
    match answer {
        Ok(Some(line)) => if line == wanted.as_bytes() {
            Next::Line
        } else {
            Next::Another
        },
        Ok(None) => Next::End,
        Err(trouble) => Next::Failed(trouble),
    }
}

fn answer_of(feed: &mut Feed, source: &mut Pieces<'_>, wanted: &str) -> Next {
    next_of(feed.next_line(source), wanted)
}

const MEMORY: Next = Next::Failed(Trouble::Memory);

// A stream of two lines and what follows them, with lines of four bytes at most and a stream of ten.
#[derive(Clone, Copy)]
struct Stream {
    text: &'static str,
    lines: [&'static str; 2],
    last: &'static str,
    third: Next,
}

const LONG_LINE: Stream = Stream {
    text: "ab\n\nabcde",
    lines: ["ab", ""],
    last: "",
    third: Next::Failed(Trouble::LineTooLong),
};

const LONG_STREAM: Stream = Stream {
    text: "ab\nabcd\nabc\n",
    lines: ["ab", "abcd"],
    last: "",
    third: Next::Failed(Trouble::StreamTooLong),
};

const WITHIN: Stream = Stream {
    text: "ab\nabcd\nab",
    lines: ["ab", "abcd"],
    last: "ab",
    third: Next::Line,
};

// The first answers, up to the one that is no line.
fn first_answers(feed: &mut Feed, source: &mut Pieces<'_>, stream: Stream) -> [Next; 3] {
    let mut answers = [Next::Another; 3];
    answers[0] = answer_of(feed, source, stream.lines[0]);
    answers[1] = answer_of(feed, source, stream.lines[1]);
    answers[2] = answer_of(feed, source, stream.last);
    answers
}

// From the first refusal on each answer is Memory, and before it each is as it is to be.
fn are_right(answers: [Next; 3], stream: Stream) -> bool {
    let wanted = [Next::Line, Next::Line, stream.third];
    let mut is_over = false;
    for place in 0..3usize {
        is_over = is_over || answers[place] == MEMORY;
        if answers[place] != (if is_over { MEMORY } else { wanted[place] }) {
            return false;
        }
    }
    true
}

// With ample memory the last answer stays, and the source isn't read again.
fn stays(feed: &mut Feed, source: &mut Pieces<'_>, last: Next) -> bool {
    let reads = source.reads();
    match last {
        Next::Failed(_) => answer_of(feed, source, "") == last && source.reads() == reads,
        _ => answer_of(feed, source, "") == Next::End,
    }
}

// The first answers with this room.
fn answers_with_room(
    alloc: Global,
    shortage: &mut Shortage,
    room: usize,
    feed: &mut Feed,
    source: &mut Pieces<'_>,
    stream: Stream,
) -> Result<[Next; 3], Fail> {
    shortage.leave(alloc, room)?;
    let answers = first_answers(feed, source, stream);
    shortage.relax(alloc);
    Ok(answers)
}

// Reads a stream by this feed with this room. Answers whether a growth was refused.
fn is_feed_refused(
    alloc: Global,
    shortage: &mut Shortage,
    room: usize,
    feed: &mut Feed,
    stream: Stream,
    most: usize,
) -> Result<bool, Fail> {
    let mut source = Pieces::new(stream.text.as_bytes(), most);
    let answers = answers_with_room(alloc, shortage, room, feed, &mut source, stream)?;
    check(are_right(answers, stream), "another answer")?;
    check(stays(feed, &mut source, answers[2]), "it answers again")?;
    Ok(answers[2] == MEMORY)
}

fn is_refused(
    alloc: Global,
    shortage: &mut Shortage,
    room: usize,
    stream: Stream,
    most: usize,
) -> Result<bool, Fail> {
    let mut feed = Feed::with_limits(alloc, 4, 10);
    let is_refused = is_feed_refused(alloc, shortage, room, &mut feed, stream, most);
    drop(feed);
    is_refused
}

fn meet_stream(
    alloc: Global,
    shortage: &mut Shortage,
    stream: Stream,
    most: usize,
) -> Result<(), Fail> {
    for step in 0..64usize {
        check(
            is_refused(alloc, shortage, 1024 * step, stream, most)?,
            "never refused",
        )?;
    }
    for step in 64..256usize {
        is_refused(alloc, shortage, 1024 * step, stream, most)?;
    }
    let is_refused = is_refused(alloc, shortage, GREATEST_ROOM, stream, most)?;
    check(!is_refused, "never answered")
}

fn meet_streams(alloc: Global, shortage: &mut Shortage, most: usize) -> Result<(), Fail> {
    meet_stream(alloc, shortage, LONG_LINE, most)?;
    meet_stream(alloc, shortage, LONG_STREAM, most)?;
    meet_stream(alloc, shortage, WITHIN, most)
}

fn meet_pieces(alloc: Global, shortage: &mut Shortage) -> Result<(), Fail> {
    meet_streams(alloc, shortage, 1)?;
    meet_streams(alloc, shortage, 3)?;
    meet_streams(alloc, shortage, 100)
}

#[test]
fn lines_of_streams(rt: HostRuntime) -> Result<(), Fail> {
    let alloc = rt.alloc();
    let mut shortage = Shortage::new(alloc)?;
    let met = meet_pieces(alloc, &mut shortage);
    drop(shortage);
    met
}

// Whether the feed gives this twice with no room at all.
fn gives_twice(
    alloc: Global,
    shortage: &mut Shortage,
    feed: &mut Feed,
    source: &mut Pieces<'_>,
    wanted: Next,
) -> Result<bool, Fail> {
    shortage.leave(alloc, 0)?;
    let first = answer_of(feed, source, "");
    let second = answer_of(feed, source, "");
    shortage.relax(alloc);
    Ok(first == wanted && second == wanted)
}

fn is_given_without_room(
    alloc: Global,
    feed: &mut Feed,
    source: &mut Pieces<'_>,
    wanted: Next,
) -> Result<bool, Fail> {
    let mut shortage = Shortage::new(alloc)?;
    let is_given = gives_twice(alloc, &mut shortage, feed, source, wanted);
    drop(shortage);
    is_given
}

fn meet_end(alloc: Global, feed: &mut Feed) -> Result<(), Fail> {
    let mut source = Pieces::new(b"a", 100);
    let first = answer_of(feed, &mut source, "a");
    check(first == Next::Line, "no line")?;
    check(
        is_given_without_room(alloc, feed, &mut source, Next::End)?,
        "no end",
    )
}

// The end is answered for good with no room at all.
#[test]
fn ends_without_room(rt: HostRuntime) -> Result<(), Fail> {
    let mut feed = Feed::new(rt.alloc());
    let met = meet_end(rt.alloc(), &mut feed);
    drop(feed);
    met
}

fn meet_trouble(alloc: Global, feed: &mut Feed) -> Result<(), Fail> {
    let mut source = Pieces::new(b"abcde", 100);
    let trouble = Next::Failed(Trouble::LineTooLong);
    let first = answer_of(feed, &mut source, "");
    check(first == trouble, "no trouble")?;
    check(
        is_given_without_room(alloc, feed, &mut source, trouble)?,
        "another trouble",
    )
}

// A trouble is answered for good with no room at all.
#[test]
fn troubles_without_room(rt: HostRuntime) -> Result<(), Fail> {
    let mut feed = Feed::with_limits(rt.alloc(), 4, 10);
    let met = meet_trouble(rt.alloc(), &mut feed);
    drop(feed);
    met
}
