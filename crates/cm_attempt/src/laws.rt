//! Laws of the calls of a run, for every interleaving of attempts.
ghost use Rattle.cm_attempt.specs.CallFaults.{RefusedForFault};
ghost use Rattle.cm_attempt.specs.CallLaws.{AcceptedComeInOrder, AreNumbered, CountsOpen, FinishedAreWhole, HasCases, IdsDistinct};
ghost use Rattle.cm_attempt.specs.CallLaws.{InOrderAreAccepted, NoneOverlaps, OfTheirTable, ReportsResults, StepsInOrder, WhereAccepted, WhereAcceptedFrom};

/// The attempts of a case are numbered from the first number on, in order of start.
pub fn attempts_are_numbered()
    ensures { WhereAcceptedFrom AreNumbered }
{}

/// Each attempt of a case but the last is finished and will be retried before the next starts.
pub fn attempts_never_overlap()
    ensures { WhereAccepted NoneOverlaps }
{}

/// An attempt starts, starts and finishes each step of its case in order, and finishes; an open one has gone through a
/// front of that.
pub fn steps_come_in_order()
    ensures { WhereAccepted StepsInOrder }
{}

/// An attempt that is finished went through each step of its case, and finished once.
pub fn finished_attempts_are_whole()
    ensures { WhereAccepted FinishedAreWhole }
{}

/// What is reported of a case is the worst status of its final attempt, and none where it has none. The cases are in order
/// of declaration.
pub fn final_attempts_are_reported()
    ensures cases { OfTheirTable HasCases }
    ensures reported { OfTheirTable ReportsResults }
{}

/// The number of open attempts is the number of those that were started and aren't finished.
pub fn open_attempts_are_counted()
    ensures { OfTheirTable CountsOpen }
{}

/// Calls are accepted exactly where they come as they must.
pub fn accepted_is_in_order()
    ensures in_order { AcceptedComeInOrder }
    ensures accepted { InOrderAreAccepted }
    ensures distinct { WhereAccepted IdsDistinct }
{}

/// A call after accepted calls is refused exactly for the first fault that it has by what those calls say.
pub fn calls_are_refused_for_faults()
    ensures { RefusedForFault }
{}
