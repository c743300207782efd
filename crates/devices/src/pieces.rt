//! A source of bytes in pieces.
ghost use Rattle.std.specs.Prelude.{Some};

use crate::failing::Failing;
use cm_envelope::{ByteSource, DeviceFailed, Heard};

/// Gives bytes in pieces, and then the end. It takes no memory.
#[derive(Drop)]
pub struct Pieces<'a> {
    bytes: &'a [u8],
    most: usize,
    failing_reads: Failing,
    fails_at_end: bool,
    reads: u64,
    failed_reads: u64,
    heard: Heard,
}

impl<'a> Pieces<'a> {
    /// Gives at most `most` bytes a read, but at least one. No read fails.
    pub fn new(bytes: &'a [u8], most: usize) -> Pieces<'a> {
        Pieces {
            bytes,
            most,
            failing_reads: Failing::Never,
            fails_at_end: false,
            reads: 0,
            failed_reads: 0,
            heard: Heard::new(),
        }
    }

    /// Gives as many bytes a read as there is room for. No read fails.
    pub fn whole(bytes: &'a [u8]) -> Pieces<'a> {
        Pieces::new(bytes, usize::MAX)
    }

    /// The same source, of which these reads fail.
    pub fn failing_reads(mut self, reads: Failing) -> Self {
        self.failing_reads = reads;
        self
    }

    /// The same source, but once it has given all its bytes each read fails.
    pub fn failing_at_end(mut self) -> Self {
        self.fails_at_end = true;
        self
    }

    /// How many reads there were.
    pub fn reads(&self) -> u64 {
        self.reads
    }

    /// How many of them failed.
    pub fn failed_reads(&self) -> u64 {
        self.failed_reads
    }
}

impl ByteSource for Pieces<'_> {
    ghost input = { λ p. record {
      heard = p.heard.bytes;
      is_over = p.heard.is_over;
      to_come = Some p.bytes.now;
      failed_calls = p.failed_reads;
    } };

    fn read_some(&mut self, piece: &mut [u8]) -> Result<usize, DeviceFailed> {
        self.reads = self.reads.saturating_add(1);
        let bytes = self.bytes;
        let is_past_end = self.fails_at_end && bytes.is_empty();
        if is_past_end || self.failing_reads.includes(self.reads) {
            self.failed_reads = self.failed_reads.saturating_add(1);
            self.heard.note(&piece[..0]);
            return Err(DeviceFailed);
        }
        let count = self.most.max(1).min(piece.len()).min(bytes.len());
        piece[..count].copy_from_slice(&bytes[..count]);
        self.bytes = &bytes[count..];
        if count == 0 && !piece.is_empty() {
            self.heard.end();
        } else {
            self.heard.note(&piece[..count]);
        }
        Ok(count)
    }
}
