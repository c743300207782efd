//! Why an audit ends at a line.
ghost use Rattle.std.specs.Prelude.{◌≡◌};
ghost use Rattle.cm_judge.specs.Stops.{refused_reference, refused_call, unread_line};

use cm_attempt::TrackFault;
use cm_envelope::EnvelopeFault;
use cm_refs::RefFault;
use cm_stream::{Reason, StreamFault};
use std::alloc::{AllocError, AllocFailed};

/// Why the reading of a stream ends at a line.
#[derive(Clone, Copy)]
pub enum Stop {
    /// The line has a fault.
    Bad(StreamFault),
    /// The line shows why the stream is not judged.
    Unsupported(Reason),
    /// Memory was refused.
    Memory,
}

impl From<AllocError> for Stop {
    ghost use Rattle.std.specs.Prelude.{◌≡◌};
    ghost use Rattle.cm_judge.specs.declared.stop.Stop.TheVariants.{Memory};

    ghost from_gives = { λ _ e. e ≡ Memory };

    fn from(_refused: AllocError) -> Stop {
        Stop::Memory
    }
}

impl<T: Drop> From<AllocFailed<T>> for Stop {
    ghost use Rattle.std.specs.Prelude.{◌≡◌};
    ghost use Rattle.cm_judge.specs.declared.stop.Stop.TheVariants.{Memory};

    ghost from_gives = { λ _ e. e ≡ Memory };

    fn from(_refused: AllocFailed<T>) -> Stop {
        Stop::Memory
    }
}

impl From<RefFault> for Stop {
    ghost use Rattle.std.specs.Prelude.{◌≡◌};

    ghost from_gives = { λ f e. e ≡ refused_reference f };

    fn from(fault: RefFault) -> Stop {
        match fault {
            RefFault::DuplicateId => Stop::Bad(StreamFault::DuplicateId),
            RefFault::DuplicateUri => Stop::Bad(StreamFault::DuplicateUri),
            RefFault::UnknownRunHook => Stop::Bad(StreamFault::UnknownReference),
            RefFault::RunHookTwice => Stop::Bad(StreamFault::RunHookTwice),
            RefFault::Memory => Stop::Memory,
        }
    }
}

impl From<TrackFault> for Stop {
    ghost use Rattle.std.specs.Prelude.{◌≡◌};

    ghost from_gives = { λ f e. e ≡ refused_call f };

    fn from(fault: TrackFault) -> Stop {
        match fault {
            TrackFault::UnknownCase | TrackFault::UnknownAttempt | TrackFault::UnknownStep => {
                Stop::Bad(StreamFault::UnknownReference)
            }
            TrackFault::DuplicateId => Stop::Bad(StreamFault::DuplicateId),
            TrackFault::AttemptNumber => Stop::Bad(StreamFault::AttemptNumber),
            TrackFault::AttemptOverlap => Stop::Bad(StreamFault::AttemptOverlap),
            TrackFault::StepOrder => Stop::Bad(StreamFault::StepOrder),
            TrackFault::FinishedEarly => Stop::Bad(StreamFault::FinishedEarly),
            TrackFault::Memory => Stop::Memory,
        }
    }
}

impl From<EnvelopeFault> for Stop {
    ghost use Rattle.std.specs.Prelude.{◌≡◌};

    ghost from_gives = { λ f e. e ≡ unread_line f };

    fn from(fault: EnvelopeFault) -> Stop {
        match fault {
            EnvelopeFault::Line(fault) => Stop::Bad(StreamFault::NoEnvelope(fault)),
            EnvelopeFault::Memory => Stop::Memory,
        }
    }
}
