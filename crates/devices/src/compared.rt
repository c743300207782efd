//! A sink that compares what it takes.
ghost use Rattle.std.specs.Prelude.{None};

use cm_envelope::{ByteSink, DeviceFailed, Taken};

/// Compares the bytes that it takes with a text that is wanted, and with another that may come in its place. It takes no
/// memory, and no call fails.
#[derive(Drop)]
pub struct Compared<'a> {
    wanted: &'a str,
    other: &'a str,
    count: usize,
    is_wanted: bool,
    is_other: bool,
    taken: Taken,
}

/// Whether the bytes stand in the text at this place.
fn stands_at(text: &str, place: usize, bytes: &[u8]) -> bool {
    let whole = text.as_bytes();
    place <= whole.len() && whole[place..].starts_with(bytes)
}

impl<'a> Compared<'a> {
    /// Compares with these two texts.
    pub fn new(wanted: &'a str, other: &'a str) -> Compared<'a> {
        Compared {
            wanted,
            other,
            count: 0,
            is_wanted: true,
            is_other: true,
            taken: Taken::new(),
        }
    }

    /// Whether no byte was taken.
    pub fn has_none(&self) -> bool {
        self.count == 0
    }

    /// Whether the bytes that were taken are the text that is wanted.
    pub fn has_wanted(&self) -> bool {
        self.is_wanted && self.count == self.wanted.len()
    }

    /// Whether the bytes that were taken are the other text.
    pub fn has_other(&self) -> bool {
        self.is_other && self.count == self.other.len()
    }
}

impl ByteSink for Compared<'_> {
    ghost output = { λ c. record {
      taken = c.taken.bytes;
      flushed = c.taken.flushed;
      shown = None;
      failed_calls = 0;
    } };

    fn write_some(&mut self, bytes: &[u8]) -> Result<usize, DeviceFailed> {
        self.is_wanted = self.is_wanted && stands_at(self.wanted, self.count, bytes);
        self.is_other = self.is_other && stands_at(self.other, self.count, bytes);
        self.count = self.count.saturating_add(bytes.len());
        self.taken.note(bytes);
        Ok(bytes.len())
    }

    fn flush(&mut self) -> Result<(), DeviceFailed> {
        self.taken.flush();
        Ok(())
    }
}
