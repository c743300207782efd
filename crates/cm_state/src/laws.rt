//! Laws of the definitions.
ghost use Rattle.cm_state.specs.Laws.{FindingsAreFaults, JudgedIsTold, SummariesStep};

/// After lines without a fault, what is reported of a line by what is kept of them is the line's fault over all of them.
pub fn findings_are_faults()
    ensures { FindingsAreFaults }
{}

/// What is kept of lines without a fault changes by a line as an audit changes it.
pub fn summaries_step()
    ensures { SummariesStep }
{}

/// The answer line by line is the answer for what is reported of the stream over all its lines.
pub fn judged_is_told()
    ensures { JudgedIsTold }
{}
