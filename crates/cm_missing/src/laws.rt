//! What holds of the lines that tell what is missing.
ghost use Rattle.cm_missing.specs.Laws.{NothingIsMissing, OneMissingList, OneScenarioCount, OneUnrunCount};
ghost use Rattle.cm_missing.specs.PickleLines.{OneLineForEachPickle};

/// A scenario has as many lines as pickles.
pub fn each_pickle_has_a_line()
    ensures { OneLineForEachPickle }
{}

/// Files have one list of lines, and it is empty exactly where nothing is missing.
pub fn missing_lines_are_determined()
    ensures one { OneMissingList }
    ensures none { NothingIsMissing }
{}

/// Files have one count of pickles, and one of those that are left out.
pub fn counts_are_determined()
    ensures scenarios { OneScenarioCount }
    ensures unrun { OneUnrunCount }
{}
