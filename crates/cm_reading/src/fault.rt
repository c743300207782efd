//! Why an object is not read.
use std::alloc::{AllocError, AllocFailed};

/// Why an object could not be read: the name of its first bad member, or want of memory.
#[derive(Drop)]
pub(crate) enum MemberFault {
    Bad(&'static str),
    Memory,
}

impl From<AllocError> for MemberFault {
    ghost use Rattle.std.specs.Prelude.{◌≡◌};
    ghost use Rattle.cm_reading.specs.declared.fault.MemberFault.TheVariants.{Memory};

    ghost from_gives = { λ _ e. e ≡ Memory };

    fn from(_refused: AllocError) -> MemberFault {
        MemberFault::Memory
    }
}

impl<T: Drop> From<AllocFailed<T>> for MemberFault {
    ghost use Rattle.std.specs.Prelude.{◌≡◌};
    ghost use Rattle.cm_reading.specs.declared.fault.MemberFault.TheVariants.{Memory};

    ghost from_gives = { λ _ e. e ≡ Memory };

    fn from(_refused: AllocFailed<T>) -> MemberFault {
        MemberFault::Memory
    }
}
