//! Texts in order.
ghost use Rattle.std.specs.Prelude.{◌≡◌, [], ◌∷◌, ◌++◌, length, IfOk, OnOk, OnErr, option_map, slice_get};
ghost use Rattle.std.specs.Iterator.{YieldsFirstRef, item_count};
ghost use Rattle.std.specs.List.{list_any};
ghost use Rattle.std.specs.Str.{bytes_eq};
ghost use Rattle.text_rows.specs.Rows.{begins_with};

use std::alloc::{AllocError, Global};
use std::marker::Model;

/// Texts in order, which contracts see as the list of their UTF-8 bytes.
#[derive(Drop)]
pub struct Texts {
    pub(crate) bytes: String,
    pub(crate) lengths: Vec<u32>,
}

impl Model for Texts {
    ghost use Rattle.std.specs.Prelude.{ℕ, List, string_bytes};
    ghost use Rattle.text_rows.specs.Pieces.{AreTexts, texts_of};

    ghost Value = { List (List ℕ) };

    ghost view = { λ t. texts_of t.lengths.items (string_bytes t.bytes) };

    ghost invariant = { λ t. AreTexts t.lengths.items (string_bytes t.bytes) };
}

/// Goes over texts, each as it was added. Contracts see the list of those that are left.
#[derive(Drop)]
pub struct TextIter<'a> {
    pub(crate) bytes: &'a str,
    pub(crate) lengths: &'a [u32],
}

impl<'a> Model for TextIter<'a> {
    ghost use Rattle.std.specs.Prelude.{ℕ, List};
    ghost use Rattle.text_rows.specs.Pieces.{AreTexts, texts_of};

    ghost Value = { List (List ℕ) };

    ghost view = { λ t. texts_of t.lengths.now t.bytes.now };

    ghost invariant = { λ t. AreTexts t.lengths.now t.bytes.now };
}

/// The length of a text that is shorter than 4 GiB.
fn length_of(text: &str) -> Result<u32, AllocError>
    ensures { IfOk result (λ n. n ≡ length text.now) }
{
    if text.len() > u32::MAX as usize {
        return Err(AllocError);
    }
    Ok(text.len() as u32)
}

impl Texts {
    /// No texts. It takes no memory.
    pub fn new(alloc: Global) -> Texts
        ensures { result ≡ [] }
    {
        Texts {
            bytes: String::new(alloc),
            lengths: Vec::new(alloc),
        }
    }

    /// Adds a text after the others.
    ///
    /// # Errors
    /// Where there is no memory for it, or where it takes 4 GiB or more; then the texts are as before.
    pub fn add(&mut self, text: &str) -> Result<(), AllocError>
        ensures ok { OnOk result (self.new ≡ self.old ++ text.now ∷ []) }
        ensures err { OnErr result (self.new ≡ self.old) }
    {
        self.lengths.push(length_of(text)?)?;
        match self.bytes.push_str(text) {
            Ok(()) => Ok(()),
            Err(error) => {
                self.lengths.pop();
                Err(error)
            }
        }
    }

    /// How many texts there are.
    pub fn len(&self) -> usize
        ensures { result ≡ length self.now }
    {
        self.lengths.as_slice().len()
    }

    /// The text at a place, from 0. The texts before it are passed over.
    pub fn get(&self, place: usize) -> Option<&str>
        ensures { option_map (λ t. t.now) result ≡ slice_get self.now place }
    {
        let mut left = self.iter();
        for _passed in 0..place {
            left.next()?;
        }
        left.next()
    }

    /// Whether one of the texts is this one.
    pub fn contains(&self, text: &str) -> bool
        ensures { result ≡ list_any (bytes_eq text.now) self.now }
    {
        for other in self.iter() {
            if text == other {
                return true;
            }
        }
        false
    }

    /// The texts in order.
    pub fn iter(&self) -> TextIter<'_>
        ensures { result ≡ self.now }
    {
        TextIter {
            bytes: self.bytes.as_str(),
            lengths: self.lengths.as_slice(),
        }
    }
}

impl<'a> TextIter<'a> {
    /// The first text that is left. It stays there.
    pub fn first(&self) -> Option<&'a str>
        ensures { option_map (λ t. t.now) result ≡ slice_get self.now 0 }
    {
        let mut texts = TextIter {
            bytes: self.bytes,
            lengths: self.lengths,
        };
        texts.next()
    }

    /// Whether there is a text left, and the first is this one.
    pub fn begins_with(&self, text: &str) -> bool
        ensures { result ≡ begins_with text.now self.now }
    {
        match self.first() {
            Some(first) => text == first,
            None => false,
        }
    }
}

impl<'a> Iterator for TextIter<'a> {
    type Item = &'a str;

    ghost next_gives = { YieldsFirstRef (λ it. it) };

    ghost remaining = { item_count (λ it. it) };

    fn next(&mut self) -> Option<&'a str> {
        let (length, lengths) = self.lengths.split_first()?;
        let (text, bytes) = self.bytes.split_at(*length as usize);
        self.lengths = lengths;
        self.bytes = bytes;
        Some(text)
    }
}
