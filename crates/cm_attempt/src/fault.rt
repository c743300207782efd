//! Why a track refuses a call.
ghost use Rattle.std.specs.Prelude.{◌≡◌};
ghost use Rattle.cm_attempt.specs.declared.fault.TrackFault.TheVariants as fault;

use std::alloc::{AllocError, AllocFailed};
use thiserror::Error;

/// Why a call of a `Track` is refused. The track is then as it was.
#[derive(Clone, Copy, Debug, PartialEq, Eq, Error)]
pub enum TrackFault {
    #[error("no case has the id")]
    UnknownCase,
    #[error("no attempt has the id")]
    UnknownAttempt,
    #[error("the attempt's number is not that of its case's next attempt")]
    AttemptNumber,
    #[error("an attempt of the case is open, or its last one is not retried")]
    AttemptOverlap,
    #[error("the step or the end of the attempt is out of order")]
    StepOrder,
    #[error("the attempt has steps that are not finished")]
    FinishedEarly,
    #[error("the id is there already, or two steps of the case are equal")]
    DuplicateId,
    #[error("out of memory")]
    Memory,
    #[error("the attempt's case has no such step")]
    UnknownStep,
}

impl From<AllocError> for TrackFault {
    ghost from_gives = { λ _ e. e ≡ fault.Memory };

    fn from(_error: AllocError) -> TrackFault {
        TrackFault::Memory
    }
}
