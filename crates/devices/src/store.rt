//! A sink that keeps what it takes.
ghost use Rattle.std.specs.Prelude.{Some};

use crate::failing::{FailedWrite, Failing};
use cm_envelope::{ByteSink, DeviceFailed, Taken};
use std::alloc::Global;

/// Keeps the bytes that it takes. A write for which there is no memory fails.
#[derive(Drop)]
pub struct Store {
    bytes: Vec<u8>,
    most: usize,
    room: usize,
    failing_writes: Failing,
    failed_write: FailedWrite,
    failing_flushes: Failing,
    writes: u64,
    flushes: u64,
    failed_calls: u64,
    taken: Taken,
}

impl Store {
    /// Takes at most `most` bytes a write, but at least one. No call fails.
    pub fn new(alloc: Global, most: usize) -> Store {
        Store {
            bytes: Vec::new(alloc),
            most,
            room: usize::MAX,
            failing_writes: Failing::Never,
            failed_write: FailedWrite::Refuses,
            failing_flushes: Failing::Never,
            writes: 0,
            flushes: 0,
            failed_calls: 0,
            taken: Taken::new(),
        }
    }

    /// The same sink with room for so many bytes: once it is full each write fails.
    pub fn with_room(mut self, room: usize) -> Self {
        self.room = room;
        self
    }

    /// The same sink, of which these writes fail. A write of no bytes never does.
    pub fn failing_writes(mut self, writes: Failing) -> Self {
        self.failing_writes = writes;
        self
    }

    /// The same sink, of which a write that fails answers so. It answers an error where nothing else is said.
    pub fn failing_by(mut self, failed_write: FailedWrite) -> Self {
        self.failed_write = failed_write;
        self
    }

    /// The same sink, of which these flushes fail.
    pub fn failing_flushes(mut self, flushes: Failing) -> Self {
        self.failing_flushes = flushes;
        self
    }

    /// The bytes that were taken.
    pub fn bytes(&self) -> &[u8] {
        self.bytes.as_slice()
    }

    /// How many writes there were.
    pub fn writes(&self) -> u64 {
        self.writes
    }

    /// How many flushes there were.
    pub fn flushes(&self) -> u64 {
        self.flushes
    }

    /// How many writes and flushes failed.
    pub fn failed_calls(&self) -> u64 {
        self.failed_calls
    }
}

impl ByteSink for Store {
    ghost output = { λ s. record {
      taken = s.taken.bytes;
      flushed = s.taken.flushed;
      shown = Some s.bytes.items;
      failed_calls = s.failed_calls;
    } };

    fn write_some(&mut self, bytes: &[u8]) -> Result<usize, DeviceFailed> {
        self.writes = self.writes.saturating_add(1);
        if bytes.is_empty() {
            self.taken.note(bytes);
            return Ok(0);
        }
        let count = self.most.max(1).min(bytes.len()).min(self.room);
        if count == 0 || self.failing_writes.includes(self.writes) {
            self.failed_calls = self.failed_calls.saturating_add(1);
            self.taken.note(&bytes[..0]);
            return match self.failed_write {
                FailedWrite::Refuses => Err(DeviceFailed),
                FailedWrite::TakesNone => Ok(0),
            };
        }
        if self.bytes.extend_from_slice(&bytes[..count]).is_err() {
            self.failed_calls = self.failed_calls.saturating_add(1);
            return Err(DeviceFailed);
        }
        self.taken.note(&bytes[..count]);
        self.room -= count;
        Ok(count)
    }

    fn flush(&mut self) -> Result<(), DeviceFailed> {
        self.flushes = self.flushes.saturating_add(1);
        if self.failing_flushes.includes(self.flushes) {
            self.failed_calls = self.failed_calls.saturating_add(1);
            return Err(DeviceFailed);
        }
        self.taken.flush();
        Ok(())
    }
}
