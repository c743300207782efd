//! Why a feature file wasn't written as messages.
ghost use Rattle.std.specs.Prelude.{◌≡◌};
ghost use Rattle.cm_compile.specs.Faults.{compile_fault};

use cm_envelope::DeviceFailed;
use gk_tree::{FaultKind, ParseFault};
use std::alloc::{AllocError, AllocFailed};
use thiserror::Error;

/// Why a feature file wasn't written as messages, or not wholly.
#[derive(Clone, Copy, Debug, PartialEq, Eq, Error)]
pub enum CompileFault {
    /// The text is no feature file. Nothing was written.
    #[error("{0}")]
    Parse(ParseFault),
    /// A write failed, or took nothing. The bytes before it were written.
    #[error("a write failed")]
    WriteFailed,
    /// There is no memory. Nothing was written.
    #[error("out of memory")]
    Memory,
}

impl From<ParseFault> for CompileFault {
    ghost from_gives = { λ f e. e ≡ compile_fault f };

    fn from(fault: ParseFault) -> CompileFault {
        match fault.kind {
            FaultKind::Memory => CompileFault::Memory,
            _ => CompileFault::Parse(fault),
        }
    }
}

impl From<DeviceFailed> for CompileFault {
    ghost use Rattle.cm_compile.specs.declared.fault.CompileFault.TheVariants.{WriteFailed};

    ghost from_gives = { λ _ e. e ≡ WriteFailed };

    fn from(_failed: DeviceFailed) -> CompileFault {
        CompileFault::WriteFailed
    }
}

impl From<AllocError> for CompileFault {
    ghost use Rattle.cm_compile.specs.declared.fault.CompileFault.TheVariants.{Memory};

    ghost from_gives = { λ _ e. e ≡ Memory };

    fn from(_refused: AllocError) -> CompileFault {
        CompileFault::Memory
    }
}

impl<T: Drop> From<AllocFailed<T>> for CompileFault {
    ghost use Rattle.cm_compile.specs.declared.fault.CompileFault.TheVariants.{Memory};

    ghost from_gives = { λ _ e. e ≡ Memory };

    fn from(_refused: AllocFailed<T>) -> CompileFault {
        CompileFault::Memory
    }
}
