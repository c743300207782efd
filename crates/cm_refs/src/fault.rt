//! Why a declaration is refused.
ghost use Rattle.std.specs.Prelude.{◌≡◌};
ghost use Rattle.cm_refs.specs.declared.fault.RefFault.TheVariants as fault;

use std::alloc::AllocError;
use thiserror::Error;

/// Why a declaration, or the finish of a run hook, is refused. `Declared` is then as it was.
#[derive(Clone, Copy, Debug, PartialEq, Eq, Error)]
pub enum RefFault {
    #[error("the id is declared already, or two steps of the pickle have one id")]
    DuplicateId,
    #[error("the uri is declared already")]
    DuplicateUri,
    #[error("out of memory")]
    Memory,
    #[error("no run hook of this id was started")]
    UnknownRunHook,
    #[error("the run hook is finished already")]
    RunHookTwice,
}

impl From<AllocError> for RefFault {
    ghost from_gives = { λ _ e. e ≡ fault.Memory };

    fn from(_error: AllocError) -> RefFault {
        RefFault::Memory
    }
}
