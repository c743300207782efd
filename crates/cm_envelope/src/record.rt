//! What devices remember of their calls, for clauses alone: a value of these types takes no memory, and its calls do nothing
//! when they run.
ghost use Rattle.std.specs.Prelude.{◌≡◌, ℕ, Bool, List, [], ◌++◌, length, true, false};
ghost use Rattle.std.specs.Borrow.{ftrue};

use std::marker::{Model, PhantomData};

/// What a source gave so far.
#[derive(Drop)]
pub struct Heard {
    marker: PhantomData<u8>,
    /// The bytes that its calls gave.
    pub ghost bytes: { List ℕ },
    /// Whether its last answer was the end.
    pub ghost is_over: { Bool },
}

impl Model for Heard {
    ghost also_owns = { λ _. ftrue };
}

impl Heard {
    /// Nothing was given yet.
    #[inline]
    pub fn new() -> Heard
        ensures { (result.bytes ≡ []) × (result.is_over ≡ false) }
    {
        Heard {
            marker: PhantomData,
        }
    }

    /// A call gave these bytes, and they weren't the end.
    #[inline]
    pub fn note(&mut self, _given: &[u8])
        ensures { (self.new.bytes ≡ self.old.bytes ++ _given.now) × (self.new.is_over ≡ false) }
    {}

    /// A call answered the end.
    #[inline]
    pub fn end(&mut self)
        ensures { (self.new.bytes ≡ self.old.bytes) × (self.new.is_over ≡ true) }
    {}
}

/// What a sink took so far.
#[derive(Drop)]
pub struct Taken {
    marker: PhantomData<u8>,
    /// The bytes that its calls took.
    pub ghost bytes: { List ℕ },
    /// How many of them a flush passed on.
    pub ghost flushed: { ℕ },
}

impl Model for Taken {
    ghost also_owns = { λ _. ftrue };
}

impl Taken {
    /// Nothing was taken yet.
    #[inline]
    pub fn new() -> Taken
        ensures { (result.bytes ≡ []) × (result.flushed ≡ 0) }
    {
        Taken {
            marker: PhantomData,
        }
    }

    /// A call took these bytes.
    #[inline]
    pub fn note(&mut self, _taken: &[u8])
        ensures { (self.new.bytes ≡ self.old.bytes ++ _taken.now)
            × (self.new.flushed ≡ self.old.flushed) }
    {}

    /// A flush passed on all that was taken.
    #[inline]
    pub fn flush(&mut self)
        ensures { (self.new.bytes ≡ self.old.bytes) × (self.new.flushed ≡ length self.old.bytes) }
    {}
}
