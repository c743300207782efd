//! Laws of the causes.
ghost use Rattle.cm_causes.specs.Laws.{CasesHaveLines, EndsAreKnown, EndsHaveNoResult, ExceptionsHaveLines, FaultlessAreKnown};
ghost use Rattle.cm_causes.specs.Laws.{GoodWithoutSuccessHasCause, HooksHaveLines, KeptResults, NoCauseIsAllWell};
ghost use Rattle.cm_causes.specs.Laws.{NothingFailedIsAllWell, SourcesHaveLines, TheEndHasTheException, TruthIsTold};

/// In lines without a fault each source is accepted or refused, and each run hook that ended was started; the end of the run
/// changes nothing of it.
pub fn faultless_are_known()
    ensures faultless { FaultlessAreKnown }
    ensures ends { EndsAreKnown }
{}

/// There is no cause exactly where all is well.
pub fn no_cause_is_all_well()
    ensures { NoCauseIsAllWell }
{}

/// It is told that nothing failed exactly where all is well; and where a run says of its success what isn't so, exactly where it
/// doesn't say success.
pub fn nothing_failed_is_all_well()
    ensures all { NothingFailedIsAllWell }
    ensures truth { TruthIsTold }
{}

/// A good stream whose run doesn't say success has a cause.
pub fn good_without_success_has_cause()
    ensures { GoodWithoutSuccessHasCause }
{}

/// A run that ends once has an exception, by which its causes are told, exactly where this end has.
pub fn the_end_has_the_exception()
    ensures { TheEndHasTheException }
{}

/// What an audit keeps of lines without a fault has the results by which `add_causes` tells the causes of test cases; the end of the
/// run changes nothing of them.
pub fn kept_results()
    ensures kept { KeptResults }
    ensures ends { EndsHaveNoResult }
{}

/// Each test case that isn't good, each run hook that didn't end so, each refused source and an exception has its line, before
/// the cut at a hundred.
pub fn each_has_its_line()
    ensures cases { CasesHaveLines }
    ensures hooks { HooksHaveLines }
    ensures sources { SourcesHaveLines }
    ensures exceptions { ExceptionsHaveLines }
{}
