//! The lines of a stream, within limits.
ghost use Rattle.std.specs.Prelude.{◌≡◌, ◌≤◌, ◌<◌, ◌-◌, ◌+◌, ◌++◌, ◌&&◌, ℕ, List, length, true, false, [], None, Some, Ok, IfNone, IfSome};
ghost use Rattle.std.specs.Prelude.{is_none};
ghost use Rattle.std.specs.Borrow.{sem};
ghost use Rattle.std.specs.Io.BufRead.{Rests};
ghost use Rattle.cm_envelope.specs.Device.{CountsFailure, Hears, OfInput};
ghost use Rattle.cm_envelope.specs.Feeds.{has_line_feed, new_feed, answer_of, last_answer, feed_left, is_failed_read, NeedsNoRead};
ghost use Rattle.cm_envelope.specs.Feeds.{AnswersFirst, OnLine, IsLineWithin, EndsWithSource, Leaves};
ghost use Rattle.cm_envelope.specs.Held.{items, FindsEnd, JudgesLength, Finds};
ghost use Rattle.cm_envelope.specs.Lines.{max_line_bytes, max_piece_bytes, max_stream_bytes, is_blank};
ghost use Rattle.cm_envelope.specs.contracts.feed.Feed.{the_row};

use crate::device::{ByteSource, DeviceFailed};
use crate::window::Window;
use memchr::memchr;
use std::alloc::Global;
use std::marker::Model;
use thiserror::Error;

/// The greatest limit for a line: bytes without its LF.
pub const LINE_LIMIT: u64 = 67_108_864;

/// The greatest limit for a stream: bytes with the LFs.
pub const STREAM_LIMIT: u64 = 1_073_741_824;

/// Why a feed gives no further line.
#[derive(Clone, Copy, PartialEq, Eq, Debug, Error)]
pub enum Trouble {
    /// A read failed.
    #[error("a read failed")]
    ReadFailed,
    /// A line has more bytes than the limit.
    #[error("a line is too long")]
    LineTooLong,
    /// A byte of a line, or its LF, lies beyond the stream's limit.
    #[error("the stream is too long")]
    StreamTooLong,
    /// There is no memory for the line.
    #[error("out of memory")]
    Memory,
}

/// What a feed answers for good.
#[derive(Clone, Copy)]
pub enum Over {
    Ended,
    Failed(Trouble),
}

/// A line of this length that a LF ends, or that the end of the bytes ends, or no line.
#[derive(Clone, Copy)]
enum Found {
    Whole(usize),
    Last(usize),
    Nothing,
}

/// The lines of a stream, as NDJSON cuts it: the parts between LFs, the part after the last LF only if it isn't empty.
/// A line may have as many bytes as the line's limit, and only the bytes of the stream up to its limit are lines.
#[derive(Drop)]
pub struct Feed {
    line_limit: u64,
    stream_limit: u64,
    given: u64,
    is_ended: bool,
    over: Option<Over>,
    // What was read and not yet given, after the line that was given last.
    window: Window,
}

impl Model for Feed {
    ghost use Rattle.std.specs.Prelude.{◌≡◌, ◌≤◌, [], None, Some, true, length};
    ghost use Rattle.cm_envelope.specs.Feeds.{FeedState};
    ghost use Rattle.cm_envelope.specs.Held.{items};
    ghost use Rattle.cm_envelope.specs.Lines.{max_piece_bytes};
    ghost use Rattle.cm_envelope.specs.declared.feed.Over.TheVariants.{Ended};
    ghost use Rattle.cm_envelope.specs.declared.feed.TheConstants.{LINE_LIMIT, STREAM_LIMIT};

    ghost Value = { FeedState };

    ghost view = { λ a. record {
      line_limit = a.line_limit;
      stream_limit = a.stream_limit;
      held = items a.window;
      given = a.given;
      is_ended = a.is_ended;
      over = a.over;
    } };

    ghost invariant = { λ a. (a.line_limit ≤ LINE_LIMIT) × (a.stream_limit ≤ STREAM_LIMIT)
        × (a.given ≤ a.stream_limit) × (a.over ≡ Some Ended → a.is_ended ≡ true)
        × (a.over ≡ None → (length (items a.window) ≤ max_piece_bytes)
        × (a.is_ended ≡ true → items a.window ≡ [])) };
}

impl Feed {
    /// A feed of a stream's lines of up to `LINE_LIMIT` bytes, within its first `STREAM_LIMIT` bytes.
    pub fn new(alloc: Global) -> Self
        ensures { result ≡ new_feed max_line_bytes max_stream_bytes }
    {
        Feed::with_limits(alloc, LINE_LIMIT, STREAM_LIMIT)
    }

    /// A feed with limits of its own, in bytes: a line's without its LF, the stream's with all LFs.
    pub fn with_limits(alloc: Global, line: u64, stream: u64) -> Self
        requires line { line ≤ LINE_LIMIT }
        requires stream { stream ≤ STREAM_LIMIT }
        ensures { result ≡ new_feed line stream }
    {
        Feed {
            line_limit: line,
            stream_limit: stream,
            given: 0,
            is_ended: false,
            over: None,
            window: Window::new(alloc),
        }
    }

    /// The next line without its LF, or None at the end.
    ///
    /// It reads only while it holds no whole line, at most 65,536 bytes at a time. Lines that it holds come before the
    /// fault of a later read. None, once answered, is answered for good.
    ///
    /// # Errors
    /// A trouble, which is then answered for good. Of a line that is too long for both limits, the limit whose byte comes
    /// first in the stream counts; where it is one byte, the stream's.
    pub fn next_line<S: ByteSource>(&mut self, source: &mut S) -> Result<Option<&[u8]>, Trouble>
        // A feed that is over answers the same again, and any other the first of what is left.
        ensures repeats { IfSome self.old.over (λ over. answer_of result ≡ last_answer over) }
        ensures first { IfNone self.old.over (OfInput (S.input source.old) (S.input source.new)
            (λ bytes. AnswersFirst (feed_left self.old bytes) (answer_of result))) }
        ensures line { OnLine (answer_of result) (IsLineWithin self.old.line_limit) }

        // It reads only where it must, and each failed read is counted and reported.
        ensures unread { NeedsNoRead self.old → source.new ≡ source.old }
        ensures failures { CountsFailure
            (is_none self.old.over && is_failed_read (answer_of result))
            (S.input source.old).failed_calls (S.input source.new).failed_calls }

        // The end is answered once the source's last answer was the end.
        ensures end { EndsWithSource self.old (S.input source.old)
            → answer_of result ≡ Ok None
            → (S.input source.new).is_over ≡ true }

        // What the feed is like once the line is let go.
        ensures* leaves { sem 𝓛 (Rests the_row self.entry (λ new.
            Leaves self.old new (S.input source.old) (S.input source.new) (answer_of result))) }
    {
        match self.over {
            Some(Over::Ended) => return Ok(None),
            Some(Over::Failed(trouble)) => return Err(trouble),
            None => {}
        }
        if self.is_ended {
            self.over = Some(Over::Ended);
            return Ok(None);
        }
        let room = self.stream_limit - self.given;
        match find_line(&mut self.window, source, self.line_limit, room) {
            Ok(Found::Whole(len)) => {
                self.given += len as u64 + 1;
                let start = self.window.start();
                self.window.consume(len + 1);
                Ok(Some(self.window.slice(start, start + len)))
            }
            Ok(Found::Last(len)) => {
                self.is_ended = true;
                self.given += len as u64;
                let start = self.window.start();
                self.window.consume(len);
                Ok(Some(self.window.slice(start, start + len)))
            }
            Ok(Found::Nothing) => {
                self.is_ended = true;
                self.over = Some(Over::Ended);
                Ok(None)
            }
            Err(trouble) => {
                self.over = Some(Over::Failed(trouble));
                Err(trouble)
            }
        }
    }
}

/// Finds the next line in the window, and reads only while it holds no whole line. `room` bytes of the stream are left.
fn find_line<S: ByteSource>(
    window: &mut Window,
    source: &mut S,
    line_limit: u64,
    room: u64,
) -> Result<Found, Trouble>
    requires few { length (items window.old) ≤ max_piece_bytes }
    requires limit { line_limit ≤ LINE_LIMIT }
    ensures reads { (read : List ℕ) × (items window.new ≡ items window.old ++ read)
        × Hears (S.input source.old) (S.input source.new) read
        × Finds line_limit room (items window.new) (S.input source.new).is_over result }
    ensures unread { has_line_feed (items window.old) ≡ true → source.new ≡ source.old }
    ensures failures { CountsFailure (is_failed_read result) (S.input source.old).failed_calls
        (S.input source.new).failed_calls }
{
    let mut searched = 0;
    'pieces: loop {
        let bytes = window.as_slice();
        let len = bytes.len();
        match find_line_feed(&bytes[searched..]) {
            Some(at) => {
                let line = searched + at;
                return match length_trouble(line, true, line_limit, room) {
                    Some(trouble) => Err(trouble),
                    None => Ok(Found::Whole(line)),
                };
            }
            None => {}
        }
        match length_trouble(len, false, line_limit, room) {
            Some(trouble) => return Err(trouble),
            None => {}
        }
        searched = len;
        if window.make_room().is_err() {
            return Err(Trouble::Memory);
        }
        match window.read_from(source) {
            Ok(0) if len == 0 => return Ok(Found::Nothing),
            Ok(0) => return Ok(Found::Last(len)),
            Ok(_) => {}
            Err(DeviceFailed) => return Err(Trouble::ReadFailed),
        }
    }
}

/// Where the first LF is.
fn find_line_feed(bytes: &[u8]) -> Option<usize>
    ensures { FindsEnd bytes.now result }
{
    memchr(b'\n', bytes)
}

/// The trouble of a line of this length, with or without its LF, where `room` bytes of the stream are left.
fn length_trouble(len: usize, has_end: bool, line_limit: u64, room: u64) -> Option<Trouble>
    ensures { JudgesLength line_limit room len has_end result }
{
    let len = len as u64;
    if len > line_limit && line_limit < room {
        Some(Trouble::LineTooLong)
    } else if len > room || (has_end && len == room) {
        Some(Trouble::StreamTooLong)
    } else {
        None
    }
}

/// Whether a line is blank: without any byte, or spaces, tabs and CRs alone. A blank line of a stream has no envelope.
pub fn is_blank_line(line: &[u8]) -> bool
    ensures { result ≡ is_blank line.now }
{
    line.iter()
        .all(|&byte| byte == b' ' || byte == b'\t' || byte == b'\r')
}
