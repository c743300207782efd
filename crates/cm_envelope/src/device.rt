//! Devices, what they remember of their bytes and of their failed calls, and writing to them.
ghost use Rattle.std.specs.Prelude.{◌≡◌, ◌≤◌, ℕ, [], false, IfOk, is_err, length, List, Option, None, OnErr, OnOk};
ghost use Rattle.std.specs.Io.KnownBytes.{Keeps, ReadConsumes, WriteAppends};
ghost use Rattle.cm_envelope.specs.Reads.{input_with};
ghost use Rattle.cm_envelope.specs.Device.{AddsRead, AddsWrite, CountsFailure, Input, Output, PassesOn, is_failed_write, Writes, count_up};
ghost use Rattle.cm_envelope.specs.Writing.{WritesFront};

use crate::record::{Heard, Taken};
use std::io::{Read, Write};
use thiserror::Error;

/// The most bytes of a source that are read at a time.
pub const PIECE_LIMIT: usize = 65_536;

/// A call of a device failed.
#[derive(Clone, Copy, PartialEq, Eq, Debug, Error)]
#[error("the device failed")]
pub struct DeviceFailed;

/// What bytes are read from. Contracts see what its calls gave so far, and how many of them failed: the count rises by one
/// with each failed call, up to 18446744073709551615, and with nothing else.
pub trait ByteSource {
    /// What its calls left so far.
    ghost input: { Self → Input };

    /// Reads some bytes into the front of `piece`, and gives how many. 0 for a piece that isn't empty is the end.
    ///
    /// # Errors
    /// The read failed. Then no byte was taken from the source.
    fn read_some(&mut self, piece: &mut [u8]) -> Result<usize, DeviceFailed>
        ensures count { IfOk result (λ n. n ≤ length piece.new) }
        ensures heard { AddsRead (input self.old) (input self.new) result piece.new }
        ensures shown { ReadConsumes (input self.old).to_come (input self.new).to_come result
            piece.new }
        ensures failures { CountsFailure (is_err result) (input self.old).failed_calls
            (input self.new).failed_calls };
}

/// What bytes are written to. Contracts see what its calls took so far, and how many of them failed: the count rises by one
/// with each failed call, up to 18446744073709551615, and with nothing else.
pub trait ByteSink {
    /// What its calls left so far.
    ghost output: { Self → Output };

    /// Takes some of the bytes, from the first on, and gives how many. To take none of a slice that isn't empty counts
    /// as a failed call.
    ///
    /// # Errors
    /// The write failed. Then no byte was taken.
    fn write_some(&mut self, bytes: &[u8]) -> Result<usize, DeviceFailed>
        ensures count { IfOk result (λ n. n ≤ length bytes.now) }
        ensures taken { AddsWrite (output self.old) (output self.new) result bytes.now }
        ensures shown { WriteAppends (output self.old).shown (output self.new).shown result
            bytes.now }
        ensures failures { CountsFailure (is_failed_write result bytes.now)
            (output self.old).failed_calls (output self.new).failed_calls };

    /// Passes on what was taken.
    ///
    /// # Errors
    /// The flush failed.
    fn flush(&mut self) -> Result<(), DeviceFailed>
        ensures taken { PassesOn (output self.old) (output self.new) result }
        ensures shown { Keeps (output self.old).shown (output self.new).shown }
        ensures failures { CountsFailure (is_err result) (output self.old).failed_calls
            (output self.new).failed_calls };
}

/// A source over a reader of std. Each error of a read is a failed call; no read is repeated.
#[derive(Drop)]
pub struct Reader<R> {
    inner: R,
    reads: Reads,
}

impl<R: Read> Reader<R> {
    /// A source with the bytes of the reader, of which nothing was heard and no call has failed.
    pub fn new(inner: R) -> Self
        ensures heard { (⟦<Reader<R> as ByteSource>⟧.input result).heard ≡ [] }
        ensures over { (⟦<Reader<R> as ByteSource>⟧.input result).is_over ≡ false }
        ensures shown { (⟦<Reader<R> as ByteSource>⟧.input result).to_come ≡ R.remaining inner }
        ensures failures { (⟦<Reader<R> as ByteSource>⟧.input result).failed_calls ≡ 0 }
    {
        Reader {
            inner,
            reads: Reads::new(),
        }
    }
}

impl<R: Read> ByteSource for Reader<R> {
    ghost input = { λ r. input_with (R.remaining r.inner) r.reads };

    fn read_some(&mut self, piece: &mut [u8]) -> Result<usize, DeviceFailed> {
        self.reads.read(&mut self.inner, piece)
    }
}

/// A sink over a writer of std. No write is repeated.
#[derive(Drop)]
pub struct Writer<W> {
    inner: W,
    failed_calls: u64,
    taken: Taken,
}

impl<W: Write> Writer<W> {
    /// A sink with what the writer has, which has taken nothing and of which no call has failed.
    pub fn new(inner: W) -> Self
        ensures taken { (⟦<Writer<W> as ByteSink>⟧.output result).taken ≡ [] }
        ensures flushed { (⟦<Writer<W> as ByteSink>⟧.output result).flushed ≡ 0 }
        ensures shown { (⟦<Writer<W> as ByteSink>⟧.output result).shown ≡ W.contents inner }
        ensures failures { (⟦<Writer<W> as ByteSink>⟧.output result).failed_calls ≡ 0 }
    {
        Writer {
            inner,
            failed_calls: 0,
            taken: Taken::new(),
        }
    }
}

impl<W: Write> ByteSink for Writer<W> {
    ghost output = { λ w. record {
      taken = w.taken.bytes;
      flushed = w.taken.flushed;
      shown = W.contents w.inner;
      failed_calls = w.failed_calls;
    } };

    fn write_some(&mut self, bytes: &[u8]) -> Result<usize, DeviceFailed> {
        match self.inner.write(bytes) {
            Ok(n) => {
                if n == 0 && !bytes.is_empty() {
                    self.failed_calls = self.failed_calls.saturating_add(1);
                }
                self.taken.note(&bytes[..n]);
                Ok(n)
            }
            Err(_) => {
                self.failed_calls = self.failed_calls.saturating_add(1);
                Err(DeviceFailed)
            }
        }
    }

    fn flush(&mut self) -> Result<(), DeviceFailed> {
        match self.inner.flush() {
            Ok(()) => {
                self.taken.flush();
                Ok(())
            }
            Err(_) => {
                self.failed_calls = self.failed_calls.saturating_add(1);
                Err(DeviceFailed)
            }
        }
    }
}

/// What the reads of a source left so far: each error is a failed call, and no read is repeated. The source itself says what is
/// still to come, if anything does.
#[derive(Drop)]
pub struct Reads {
    heard: Heard,
    failed: u64,
}

impl Reads {
    /// Nothing was heard yet, and no read has failed.
    pub fn new() -> Reads
        ensures heard { (input_with None result).heard ≡ [] }
        ensures over { (input_with None result).is_over ≡ false }
        ensures failures { (input_with None result).failed_calls ≡ 0 }
    {
        Reads {
            heard: Heard::new(),
            failed: 0,
        }
    }

    /// Reads some bytes of the reader into the front of `piece`, and gives how many. 0 for a piece that isn't empty is the end.
    ///
    /// # Errors
    /// The read failed. Then no byte was taken from the reader.
    pub fn read<R: Read>(&mut self, reader: &mut R, piece: &mut [u8]) -> Result<usize, DeviceFailed>
        ensures count { IfOk result (λ n. n ≤ length piece.new) }
        ensures heard { (before after : Option (List ℕ))
            → AddsRead (input_with before self.old) (input_with after self.new) result piece.new }
        ensures shown { ReadConsumes (R.remaining reader.old) (R.remaining reader.new) result
            piece.new }
        ensures failures { CountsFailure (is_err result) (input_with None self.old).failed_calls
            (input_with None self.new).failed_calls }
    {
        match reader.read(piece) {
            Ok(n) => {
                if n == 0 && !piece.is_empty() {
                    self.heard.end();
                } else {
                    self.heard.note(&piece[..n]);
                }
                Ok(n)
            }
            Err(_) => {
                self.heard.note(&piece[..0]);
                self.failed = self.failed.saturating_add(1);
                Err(DeviceFailed)
            }
        }
    }
}

/// Writes all the bytes. No write is repeated, and one that takes nothing has failed.
///
/// # Errors
/// A write failed. Then the sink has taken the bytes before it, and not all.
pub fn write_all<W: ByteSink>(sink: &mut W, bytes: &[u8]) -> Result<(), DeviceFailed>
    ensures taken { OnOk result (Writes (W.output sink.old) (W.output sink.new) bytes.now) }
    ensures ok { OnOk result ((W.output sink.new).failed_calls ≡ (W.output sink.old).failed_calls) }
    ensures front { OnErr result
        (WritesFront (W.output sink.old) (W.output sink.new) bytes.now) }
    ensures err { OnErr result
        ((W.output sink.new).failed_calls ≡ count_up (W.output sink.old).failed_calls) }
{
    let mut rest = bytes;
    'writes: while !rest.is_empty() {
        let taken = sink.write_some(rest)?;
        if taken == 0 {
            return Err(DeviceFailed);
        }
        rest = &rest[taken..];
    }
    Ok(())
}
