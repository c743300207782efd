//! The bytes of a source that were read and not yet given, and room for more after them.
ghost use Rattle.std.specs.Prelude.{◌≡◌, ℕ, true, ◌+◌, ◌-◌, ◌<◌, ◌≤◌, List, [], ◌++◌, length, vec_len, slice_range, is_err, IfOk, OnOk, OnErr};
ghost use Rattle.cm_envelope.specs.Device.{CountsFailure, Hears};

use crate::device::{ByteSource, DeviceFailed, PIECE_LIMIT};
use std::alloc::{AllocError, Global};

#[derive(Drop)]
pub struct Window {
    bytes: Vec<u8>,
    start: usize,
    end: usize,
    ghost ordered: { start ≤ end },
    ghost within: { end ≤ vec_len bytes },
}

impl Window {
    ghost use Rattle.cm_envelope.specs.Held.{items};

    /// That of no bytes. It takes no memory.
    pub(crate) fn new(alloc: Global) -> Window
        ensures { items result ≡ [] }
    {
        Window {
            bytes: Vec::new(alloc),
            start: 0,
            end: 0,
        }
    }

    /// The bytes that were read and aren't consumed.
    pub(crate) fn as_slice(&self) -> &[u8]
        ensures { result.now ≡ items self.now }
    {
        &self.bytes[self.start..self.end]
    }

    /// The bytes between two places, also of those that were consumed.
    pub(crate) fn slice(&self, from: usize, to: usize) -> &[u8]
        requires order { from ≤ to }
        requires within { to ≤ vec_len self.now.bytes }
        ensures { result.now ≡ slice_range self.now.bytes.items from to }
    {
        &self.bytes[from..to]
    }

    /// Where the bytes begin, among those that are held.
    pub(crate) fn start(&self) -> usize
        ensures { result ≡ self.now.start }
    {
        self.start
    }

    /// Consumes so many bytes. They are held until room is made.
    pub(crate) fn consume(&mut self, count: usize)
        requires { count ≤ length (items self.old) }
        ensures bytes { self.new.bytes ≡ self.old.bytes }
        ensures start { self.new.start ≡ self.old.start + count }
        ensures end { self.new.end ≡ self.old.end }
    {
        self.start += count;
    }

    /// Makes room for a piece.
    pub(crate) fn make_room(&mut self) -> Result<(), AllocError>
        ensures items { items self.new ≡ items self.old }
        ensures room { OnOk result (self.new.end + PIECE_LIMIT ≤ vec_len self.new.bytes) }
    {
        let (start, end) = (self.start, self.end);
        if start > 0 {
            self.bytes.copy_within(start..end, 0);
            self.start = 0;
            self.end = end - start;
        }
        if self.bytes.len() < self.end + PIECE_LIMIT {
            self.bytes.resize(self.end + PIECE_LIMIT, 0)?;
        }
        Ok(())
    }

    /// Reads a piece after the bytes.
    pub(crate) fn read_from<S: ByteSource>(&mut self, source: &mut S) -> Result<usize, DeviceFailed>
        requires { self.old.end + PIECE_LIMIT ≤ vec_len self.old.bytes }
        ensures ok { IfOk result (λ n. (more : List ℕ) × (length more ≡ n)
            × (items self.new ≡ items self.old ++ more)
            × Hears (S.input source.old) (S.input source.new) more × (n ≤ PIECE_LIMIT)) }
        ensures end { IfOk result (λ n. n ≡ 0 → (S.input source.new).is_over ≡ true) }
        ensures err { OnErr result ((items self.new ≡ items self.old)
            × Hears (S.input source.old) (S.input source.new) []) }
        ensures failures { CountsFailure (is_err result) (S.input source.old).failed_calls
            (S.input source.new).failed_calls }
    {
        let end = self.end;
        let count = source.read_some(&mut self.bytes[end..end + PIECE_LIMIT])?;
        self.end = end + count;
        Ok(count)
    }
}
