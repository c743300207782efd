//! Rows of texts.
ghost use Rattle.std.specs.Prelude.{◌≡◌, [], ◌∷◌, ◌++◌, OnOk, OnErr, find, string_bytes};
ghost use Rattle.std.specs.Iterator.{YieldsFirst, item_count};
ghost use Rattle.text_rows.specs.Rows.{begins_with};

use crate::texts::{TextIter, Texts};
use std::alloc::{AllocError, Global};
use std::marker::Model;

/// How many texts a row has, and how many bytes they take.
#[derive(Clone, Copy)]
pub(crate) struct RowSize {
    pub(crate) texts: usize,
    pub(crate) bytes: usize,
}

/// Rows of texts in order, which contracts see as the list of their lists of texts.
#[derive(Drop)]
pub struct TextRows {
    bytes: String,
    lengths: Vec<u32>,
    sizes: Vec<RowSize>,
}

impl Model for TextRows {
    ghost use Rattle.std.specs.Prelude.{ℕ, List, string_bytes};
    ghost use Rattle.text_rows.specs.Pieces.{AreRows, rows_of};

    ghost Value = { List (List (List ℕ)) };

    ghost view = { λ t. rows_of t.sizes.items t.lengths.items (string_bytes t.bytes) };

    ghost invariant = { λ t. AreRows t.sizes.items t.lengths.items (string_bytes t.bytes) };
}

/// Goes over rows, each as what goes over its texts. Contracts see the list of those that are left.
#[derive(Drop)]
pub struct RowIter<'a> {
    bytes: &'a str,
    lengths: &'a [u32],
    sizes: &'a [RowSize],
}

impl<'a> Model for RowIter<'a> {
    ghost use Rattle.std.specs.Prelude.{ℕ, List};
    ghost use Rattle.text_rows.specs.Pieces.{AreRows, rows_of};

    ghost Value = { List (List (List ℕ)) };

    ghost view = { λ t. rows_of t.sizes.now t.lengths.now t.bytes.now };

    ghost invariant = { λ t. AreRows t.sizes.now t.lengths.now t.bytes.now };
}

/// Adds both after what there is, or neither.
fn append(
    bytes: &mut String,
    lengths: &mut Vec<u32>,
    more_bytes: &str,
    more_lengths: &[u32],
) -> Result<(), AllocError>
    ensures bytes { OnOk result
        (string_bytes bytes.new ≡ string_bytes bytes.old ++ more_bytes.now) }
    ensures lengths { OnOk result (lengths.new.items ≡ lengths.old.items ++ more_lengths.now) }
    ensures err { OnErr result ((string_bytes bytes.new ≡ string_bytes bytes.old)
        × (lengths.new.items ≡ lengths.old.items)) }
{
    let before = lengths.len();
    lengths.extend_from_slice(more_lengths)?;
    match bytes.push_str(more_bytes) {
        Ok(()) => Ok(()),
        Err(error) => {
            lengths.truncate(before);
            Err(error)
        }
    }
}

impl TextRows {
    /// No rows. It takes no memory.
    pub fn new(alloc: Global) -> TextRows
        ensures { result ≡ [] }
    {
        TextRows {
            bytes: String::new(alloc),
            lengths: Vec::new(alloc),
            sizes: Vec::new(alloc),
        }
    }

    /// Adds a row of these texts after the others.
    ///
    /// # Errors
    /// Only where there is no memory for it; then the rows are as before.
    pub fn push(&mut self, row: &Texts) -> Result<(), AllocError>
        ensures ok { OnOk result (self.new ≡ self.old ++ row.now ∷ []) }
        ensures err { OnErr result (self.new ≡ self.old) }
    {
        let bytes = row.bytes.as_str();
        let lengths = row.lengths.as_slice();
        self.sizes.push(RowSize {
            texts: lengths.len(),
            bytes: bytes.len(),
        })?;
        match append(&mut self.bytes, &mut self.lengths, bytes, lengths) {
            Ok(()) => Ok(()),
            Err(error) => {
                self.sizes.pop();
                Err(error)
            }
        }
    }

    /// The rows in order.
    pub fn iter(&self) -> RowIter<'_>
        ensures { result ≡ self.now }
    {
        RowIter {
            bytes: self.bytes.as_str(),
            lengths: self.lengths.as_slice(),
            sizes: self.sizes.as_slice(),
        }
    }

    /// The first row that begins with the text.
    pub fn find(&self, text: &str) -> Option<TextIter<'_>>
        ensures { result ≡ find (begins_with text.now) self.now }
    {
        for row in self.iter() {
            if row.begins_with(text) {
                return Some(row);
            }
        }
        None
    }
}

impl<'a> Iterator for RowIter<'a> {
    type Item = TextIter<'a>;

    ghost next_gives = { YieldsFirst (λ it. it) };

    ghost remaining = { item_count (λ it. it) };

    fn next(&mut self) -> Option<TextIter<'a>> {
        let (size, sizes) = self.sizes.split_first()?;
        let (row_lengths, lengths) = self.lengths.split_at(size.texts);
        let (row_bytes, bytes) = self.bytes.split_at(size.bytes);
        self.sizes = sizes;
        self.lengths = lengths;
        self.bytes = bytes;
        Some(TextIter {
            bytes: row_bytes,
            lengths: row_lengths,
        })
    }
}
