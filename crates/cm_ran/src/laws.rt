//! Laws of the definitions.
ghost use Rattle.cm_ran.specs.RunAt.{RanAt};

/// In a released stream, be its run a part or not, where a scenario of a text is run by the test cases: a source has the text,
/// and the pickle at its place ran.
pub fn run_scenarios_ran()
    ensures { RanAt }
{}
