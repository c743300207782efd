//! What an audit answers and why a run is held, and laws of the definitions.
ghost use Rattle.cm_stream.specs.Laws.{FaultlessAreGood, GoodHaveNoFault};
ghost use Rattle.cm_stream.specs.Readings.{OneReading, SomeReading};
ghost use Rattle.cm_stream.specs.CallFaults.{OwnAreChecks, CallFaultsAreTold};
ghost use Rattle.cm_stream.specs.RedeclaredLaws.{NothingIsPassedOver, ReferencesDeclared};
ghost use Rattle.cm_stream.specs.Release.{FirstFaultReleases, ReleasedExactly, ReleasedIsNotHeld};
ghost use Rattle.cm_stream.specs.ReleasedRuns.{EachRan, NamedRan, ReleasedCasesMeet, ReleasedRan, ReleasedScenariosRan};
ghost use Rattle.cm_stream.specs.ReleasedRuns.{ReleasedStepsMatched, StrictlyRan, StrictlyReleased};
ghost use Rattle.cm_stream.specs.Results.{FaultsAreChecks, FaultsAreExact, FaultsAreFirst, FrontsAreWellOrdered, NoFaultIsExact};
ghost use Rattle.cm_stream.specs.Results.{RefusedForFaults, TablesChange, TablesHaveResults, TroublesAreLast, WellOrderedAreAccepted};
ghost use Rattle.cm_stream.specs.FaultlessLines.{NoneIsRefused, TableSteps, TablesAgree};
ghost use Rattle.cm_stream.specs.StreamLaws.{AnswersAreRight, FoundIsNotGood, GoodIsNoFault, NoFaultIsGood, NoneBeginsSo, OneFirstFault};
ghost use Rattle.cm_stream.specs.Unsupported.{ReasonsAreShown};
ghost use Rattle.std.specs.Prelude.{◌≡◌};
ghost use Rattle.cm_stream.specs.Statuses.{kept_status};

use cm_attempt::Status;
use cm_envelope::{LineFault, Status as LineStatus};

/// Each text is accepted with one document, refused, in another language, or too long, and never two of these.
pub fn each_text_has_one_reading()
    ensures some { SomeReading }
    ensures one { OneReading }
{}

/// A good list of envelopes has no fault at any of its lines and none at its end.
pub fn good_streams_have_no_fault()
    ensures { GoodHaveNoFault }
{}

/// A list of envelopes without a fault at its lines or at its end is good.
pub fn streams_without_fault_are_good()
    ensures { FaultlessAreGood }
{}

/// Of each stream one first fault is reported, where its sources' texts are read by the grammar.
pub fn each_stream_has_one_first_fault()
    ensures { OneFirstFault }
{}

/// Where no fault is reported of a stream, it is good.
pub fn no_fault_is_good()
    ensures { NoFaultIsGood }
{}

/// Of a good stream no fault is reported.
pub fn good_is_no_fault()
    ensures { GoodIsNoFault }
{}

/// Where a fault is reported at a line, no good stream begins with the lines up to it.
pub fn none_begins_so()
    ensures { NoneBeginsSo }
{}

/// A stream of which a fault is reported isn't good, also where the fault is past the last line.
pub fn found_is_not_good()
    ensures { FoundIsNotGood }
{}

/// Where a stream isn't judged for a reason, the line that is reported shows that reason.
pub fn reasons_are_shown()
    ensures { ReasonsAreShown }
{}

/// In a good stream each reference names what exactly one earlier envelope declares; where the settings allow it, a hook or a
/// step definition may be declared by several.
pub fn references_are_declared()
    ensures { ReferencesDeclared }
{}

/// Where the settings don't allow it, no envelope is passed over.
pub fn nothing_is_passed_over()
    ensures { NothingIsPassedOver }
{}

/// An audit that answers what is reported of the stream's bytes is right in both directions.
pub fn answers_are_right()
    ensures { AnswersAreRight }
{}

/// The table of attempts is a function of the lines so far: a line changes it as the call for it changes a table, and after
/// lines without a fault it is the one that their calls leave, none of which is refused.
pub fn table_steps()
    ensures steps { TableSteps }
    ensures accepted { NoneIsRefused }
{}

/// After lines without a fault the table has the attempts that were started, with the steps of their cases; one of them is
/// open exactly where it isn't finished, and the cases are good by their rows exactly where they are good by the lines.
pub fn tables_agree()
    ensures { TablesAgree }
{}

/// After lines without a fault, a call of the record of attempts refuses exactly where the line fails one of the checks
/// that the call makes, and by that fault.
pub fn call_faults_are_told()
    ensures refused { CallFaultsAreTold }
    ensures own { OwnAreChecks }
{}

/// A good run isn't held exactly where its stream is a released one.
pub fn released_is_not_held()
    ensures { ReleasedIsNotHeld }
{}

/// A stream is released exactly where it is good and its run isn't held; and so exactly where no line of it has a fault, and the
/// run of its envelopes isn't held.
pub fn released_exactly()
    ensures streams { ReleasedExactly }
    ensures first { FirstFaultReleases }
{}

/// In a released stream the pickles of each source are those that its text compiles to, and unless the run is a part, each of
/// them ran, or may be without a test case; each test case ran: its last attempt went through each step in order, finished, and
/// is at worst of a good status; each run hook finished once, with a good status; and the run finished once, says success and
/// has no exception.
pub fn released_scenarios_ran()
    ensures all { ReleasedRan }
    ensures each { EachRan }
    // Of a part too: each pickle that a test case names ran.
    ensures named { NamedRan }
    // By the feature files: each scenario of a source's text ran, or may be left out by its tags in the text.
    ensures scenarios { ReleasedScenariosRan }
{}

/// In a released stream each test case is as the release asks: its last attempt is the only one of its pickle, none of its steps
/// was skipped, and its pickle has steps; and each step of a pickle that passed, in whatever attempt, was matched by step
/// definitions that the stream declares.
pub fn released_cases_meet_conditions()
    ensures cases { ReleasedCasesMeet }
    ensures steps { ReleasedStepsMatched }
    // Where all is asked and nothing is allowed: each scenario of the sources has steps, ran exactly once, and each of its steps
    // passed and was matched.
    ensures strict { StrictlyReleased }
    ensures strict_part { StrictlyRan }
{}

/// Where no call for the envelopes is refused, their attempts are well ordered, and the table reports of each case, in order
/// of declaration, the worst status of its final attempt.
pub fn tables_have_results()
    ensures { TablesHaveResults }
{}

/// Where the attempts of the envelopes are well ordered, no call for them is refused.
pub fn well_ordered_are_accepted()
    ensures { WellOrderedAreAccepted }
{}

/// Each front of envelopes whose attempts are well ordered is such a list too.
pub fn fronts_are_well_ordered()
    ensures { FrontsAreWellOrdered }
{}

/// After accepted envelopes an envelope is refused exactly for the fault that it has by what those before it say, and that is
/// the first failed of the checks which the audit leaves to the record of attempts.
pub fn lines_are_refused_for_faults()
    ensures refused { RefusedForFaults }
    ensures checks { FaultsAreChecks }
{}

/// After accepted envelopes one without a fault changes the table as its call does.
pub fn tables_change()
    ensures { TablesChange }
{}

/// After well ordered attempts an envelope has a fault exactly where they aren't well ordered with it.
pub fn faults_are_exact()
    ensures { FaultsAreExact }
{}

/// No fault is reported exactly of streams that are read as envelopes whose attempts are well ordered.
pub fn results_without_fault_are_exact()
    ensures { NoFaultIsExact }
{}

/// A fault that is reported is that of the first line without an envelope, or with which the attempts aren't well ordered.
pub fn results_faults_are_first()
    ensures { FaultsAreFirst }
{}

/// A trouble is reported only where no line has a fault.
pub fn results_troubles_are_last()
    ensures { TroublesAreLast }
{}

/// Why a stream is bad.
#[derive(Clone, Copy, Debug, Drop, PartialEq, Eq)]
pub enum StreamFault {
    /// A line has no envelope.
    NoEnvelope(LineFault),
    DuplicateId,
    DuplicateUri,
    UnknownReference,
    DocumentOfRefusedSource,
    TreeDiffers,
    PickleDiffers,
    ParseErrorOfGoodSource,
    CaseStepsDiffer,
    AttemptNumber,
    AttemptOverlap,
    StepOrder,
    FinishedEarly,
    SecondRunStarted,
    OutsideRun,
    AfterRunFinished,
    AttemptOpen,
    SourceIncomplete,
    SuccessDiffers,
    NoRunFinished,
    RunHookOpen,
    RunHookTwice,
}

/// Why a stream is not judged.
#[derive(Clone, Copy, Debug, Drop, PartialEq, Eq)]
pub enum Reason {
    Language,
    MediaType,
    UnknownStatus,
    SourceTooLong,
}

/// How much a good stream has. `unrun` are the pickles that no test case names.
#[derive(Clone, Copy, Debug, Drop, PartialEq, Eq)]
pub struct Counts {
    pub sources: u64,
    pub pickles: u64,
    pub cases: u64,
    pub attempts: u64,
    pub unrun: u64,
}

/// What an audit answers. Lines count from 1; a fault at the end has the line after the last one.
#[derive(Clone, Copy, Debug, Drop, PartialEq, Eq)]
pub enum Verdict {
    Good(Counts),
    Bad { line: u64, fault: StreamFault },
    Unsupported { line: u64, reason: Reason },
}

/// What an audit answers, and whether the run says success: only a good stream's word counts, of any other it is false.
#[derive(Clone, Copy, Debug, Drop, PartialEq, Eq)]
pub struct Audited {
    pub verdict: Verdict,
    pub success: bool,
}

/// Why a run that was truthfully reported isn't to be released, the first that holds.
#[derive(Clone, Copy, Debug, Drop, PartialEq, Eq)]
pub enum Hold {
    /// The run doesn't say success.
    NotSuccessful,
    /// The run has no test case.
    Empty,
    /// No test case names one of the pickles, which may not be without one.
    Unrun,
    /// A pickle has more than one attempt.
    Retried,
    /// A step of a test case's last attempt was skipped.
    Skipped,
    /// The pickle of a test case has no steps.
    Stepless,
    /// A step passed that no step definition matches.
    Undefined,
}

/// What a release asks of a run beyond a good stream that says success.
#[derive(Drop)]
pub struct Conditions<'a> {
    /// The run is a part of what is asked: whether it has a test case, and which pickles have none, isn't asked of it alone.
    pub is_part: bool,
    /// Any pickle may be without a test case.
    pub allows_unrun: bool,
    /// A pickle with one of these tags may be without a test case. A tag is its whole name, with the `@`.
    pub allowed_tags: Vec<&'a str>,
    /// No pickle may have more than one attempt.
    pub no_retries: bool,
    /// No step of a test case's last attempt may be skipped.
    pub no_skips: bool,
    /// No test case may be of a pickle without steps.
    pub no_stepless: bool,
    /// No step of a pickle may pass whose test step names no step definition.
    pub no_undefined: bool,
}

/// What is counted of a good stream for its release.
#[derive(Clone, Copy, Debug, Drop, PartialEq, Eq)]
pub struct ReleaseCounts {
    /// Pickles that no test case names, and that may not be without one.
    pub missed: u64,
    /// Pickles with more than one attempt.
    pub retried: u64,
    /// Test cases whose last attempt has a skipped step.
    pub skipped: u64,
    /// Test cases of a pickle without steps.
    pub stepless: u64,
    /// Steps of pickles that passed, whose test step names no step definition.
    pub undefined: u64,
}

/// The status that a record of attempts keeps of a line's status.
pub fn kept_status(status: LineStatus) -> Status
    ensures { result ≡ kept_status status }
{
    match status {
        LineStatus::Unknown => Status::Unknown,
        LineStatus::Passed => Status::Passed,
        LineStatus::Skipped => Status::Skipped,
        LineStatus::Pending => Status::Pending,
        LineStatus::Undefined => Status::Undefined,
        LineStatus::Ambiguous => Status::Ambiguous,
        LineStatus::Failed => Status::Failed,
    }
}
