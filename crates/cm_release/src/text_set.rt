//! A set of texts.
ghost use Rattle.std.specs.Prelude.{◌≡◌, List, IfOk, ℕ};
ghost use Rattle.std.specs.List.{list_any};
ghost use Rattle.std.specs.Str.{bytes_eq};
ghost use Rattle.cm_cases.specs.Firsts.{HasFirsts};

use cm_cases::{ByText, Whole, firsts_of};
use gk_document::Text;
use std::alloc::{AllocError, Global};
use std::hash::RandomState;
use std::marker::Model;

/// Texts, of which each is found by itself.
#[derive(Drop)]
pub(crate) struct TextSet<'a> {
    texts: &'a [Text],
    by_text: ByText<'a, &'a Text>,
}

impl<'a> Model for TextSet<'a> {
    ghost use Rattle.std.specs.Prelude.{List, ℕ};
    ghost use Rattle.cm_cases.specs.Firsts.{HasFirsts};

    ghost Value = { List (List ℕ) };

    ghost view = { λ s. s.texts.now };

    ghost invariant = { λ s. HasFirsts (λ x. x.now) (λ x. x) (λ x. x) s.texts.now s.by_text };
}

impl<'a> TextSet<'a> {
    /// A set of these.
    pub(crate) fn of(
        alloc: Global,
        seed: RandomState,
        texts: &'a [Text],
    ) -> Result<TextSet<'a>, AllocError>
        ensures { IfOk result (λ set. set ≡ texts.now) }
    {
        let by_text = firsts_of::<Whole, Text>(alloc, seed, texts)?;
        Ok(TextSet { texts, by_text })
    }

    /// Whether it is one of them.
    pub(crate) fn contains(&self, text: &str) -> bool
        ensures { result ≡ list_any (bytes_eq text.now) self.now }
    {
        self.by_text.contains_key(text)
    }
}
