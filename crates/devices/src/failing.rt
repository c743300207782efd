//! Which calls of a device fail, and how.

/// Which calls of one kind fail. The first has the number 1.
#[derive(Clone, Copy, PartialEq, Eq, Debug)]
pub enum Failing {
    /// None.
    Never,
    /// The call of this number alone.
    Once(u64),
    /// The call of this number, and each after it.
    EverSince(u64),
}

impl Failing {
    /// Whether the call of this number fails.
    pub fn includes(self, call: u64) -> bool {
        match self {
            Failing::Never => false,
            Failing::Once(number) => call == number,
            Failing::EverSince(number) => call >= number,
        }
    }
}

/// What a write that fails answers.
#[derive(Clone, Copy, PartialEq, Eq, Debug)]
pub enum FailedWrite {
    /// An error.
    Refuses,
    /// That it took no byte.
    TakesNone,
}
