//! A source that makes up its bytes.
ghost use Rattle.std.specs.Prelude.{None};

use cm_envelope::{ByteSource, DeviceFailed, Heard};

/// Gives one byte again and again, as often as there is room for. It takes no memory, and no read fails.
#[derive(Drop)]
pub struct Repeating {
    byte: u8,
    // The bytes of a line, and those still to come of the line that is being given.
    line_size: usize,
    line_left: usize,
    // All bytes still to come.
    left: usize,
    reads: u64,
    heard: Heard,
}

impl Repeating {
    /// Gives this byte without an end that anyone could live to see: 18,446,744,073,709,551,615 times.
    pub fn new(byte: u8) -> Repeating {
        Repeating {
            byte,
            line_size: usize::MAX,
            line_left: usize::MAX,
            left: usize::MAX,
            reads: 0,
            heard: Heard::new(),
        }
    }

    /// The same source in lines of so many bytes, but at least one. The last byte of each is a line feed, which ends a read.
    pub fn in_lines_of(mut self, bytes: usize) -> Self {
        self.line_size = bytes.max(1);
        self.line_left = self.line_size;
        self
    }

    /// How many reads there were.
    pub fn reads(&self) -> u64 {
        self.reads
    }
}

impl ByteSource for Repeating {
    ghost input = { λ r. record {
      heard = r.heard.bytes;
      is_over = r.heard.is_over;
      to_come = None;
      failed_calls = 0;
    } };

    fn read_some(&mut self, piece: &mut [u8]) -> Result<usize, DeviceFailed> {
        self.reads = self.reads.saturating_add(1);
        let count = piece.len().min(self.line_left).min(self.left);
        piece[..count].fill(self.byte);
        self.line_left -= count;
        self.left -= count;
        if self.line_left == 0 && count > 0 {
            piece[count - 1] = b'\n';
            self.line_left = self.line_size;
        }
        if count == 0 && !piece.is_empty() {
            self.heard.end();
        } else {
            self.heard.note(&piece[..count]);
        }
        Ok(count)
    }
}
