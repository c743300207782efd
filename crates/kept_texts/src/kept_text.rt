//! A text that stays for long.
ghost use Rattle.std.specs.Prelude.{◌≡◌, IfOk};
ghost use Rattle.std.specs.String.{string_bytes};
ghost use Rattle.kept_texts.specs.Kept.{bytes_of};

use arrayvec::ArrayString;
use indexmap::Equivalent;
use std::alloc::{AllocError, Global};
use std::hash::{Hash, Hasher};

/// A text of up to 36 bytes, as most ids are, in its own place, and a longer one in a piece of memory.
#[derive(Drop)]
pub enum KeptText {
    Short(ArrayString<36>),
    Long(String),
}

impl KeptText {
    /// A copy of the text.
    ///
    /// # Errors
    /// Only where there is no memory for it; a text of up to 36 bytes takes none.
    pub fn copy_of(alloc: Global, text: &str) -> Result<KeptText, AllocError>
        ensures { IfOk result (λ kept. bytes_of kept ≡ text.now) }
    {
        match ArrayString::from(text) {
            Ok(short) => Ok(KeptText::Short(short)),
            Err(_) => Ok(KeptText::Long(String::from_str(alloc, text)?)),
        }
    }

    /// The text.
    pub fn as_str(&self) -> &str
        ensures { result.now ≡ bytes_of self.now }
    {
        match self {
            KeptText::Short(text) => text.as_str(),
            KeptText::Long(text) => text.as_str(),
        }
    }
}

impl From<String> for KeptText {
    /// The text itself, which takes no more memory.
    fn from(text: String) -> KeptText
        ensures { bytes_of result ≡ string_bytes text }
    {
        match ArrayString::from(text.as_str()) {
            Ok(short) => KeptText::Short(short),
            Err(_) => KeptText::Long(text),
        }
    }
}

impl PartialEq for KeptText {
    ghost use Rattle.std.specs.Ordering.{on};
    ghost use Rattle.std.specs.Cmp.Rules.{comparing};
    ghost use Rattle.std.proofs.Common.{rules};
    ghost use Rattle.std.specs.Str.{bytes_eq};
    ghost use Rattle.kept_texts.specs.Kept.{bytes_of};

    ghost eq = { on bytes_of bytes_eq };

    ghost laws = { Prim.search (comparing, rules) };

    fn eq(&self, other: &KeptText) -> bool {
        self.as_str() == other.as_str()
    }
}

impl Eq for KeptText {
    ghost use Rattle.std.specs.Cmp.Rules.{comparing};
    ghost use Rattle.std.proofs.Common.{rules};

    ghost laws = { Prim.search (comparing, rules) };
}

impl Hash for KeptText {
    ghost use Rattle.std.specs.Hash as fed;
    ghost use Rattle.std.specs.Cmp.Rules.{hashing};
    ghost use Rattle.std.proofs.Common.{rules};
    ghost use Rattle.kept_texts.specs.Kept.{bytes_of};

    ghost hash_input = { λ kept. fed.str (bytes_of kept) };

    ghost respects_eq = { Prim.search (hashing, rules) };

    fn hash<H: Hasher>(&self, state: &mut H) {
        self.as_str().hash(state);
    }
}

impl Equivalent<KeptText> for &str {
    ghost use Rattle.std.proofs.Common.{ap};
    ghost use Rattle.std.specs.Cmp.Lexicographic.{bytes_decides, nat_list_eq_equiv};
    ghost use Rattle.std.specs.Hash as fed;
    ghost use Rattle.std.specs.Str.{bytes_eq};
    ghost use Rattle.kept_texts.specs.Kept.{bytes_of};

    ghost equivalent = { λ q k. bytes_eq q.now (bytes_of k) };

    ghost respects_hash = { λ q k h. ap fed.str ((bytes_decides q.now (bytes_of k)).0 h) };

    ghost respects_eq = { λ q x y. nat_list_eq_equiv.congr q.now (bytes_of x) (bytes_of y) };

    fn equivalent(&self, key: &KeptText) -> bool {
        *self == key.as_str()
    }
}
