//! Laws of the definitions of a run.
ghost use Rattle.ck_commands.specs.Laws.{AnyOrderOfRuns, FeaturesPassed, GateReleasesExactly, ReleasedEndsWell, ShownAreHeard, ShownAreReported};

/// What a source shows to come is what was heard of it and what it shows afterwards, unless its last answer was the end though it
/// shows more. So what is said of the bytes heard, with any that may come after them, holds of the bytes that a source shows.
pub fn shown_bytes_are_heard()
    ensures heard { ShownAreHeard }
    ensures reported { ShownAreReported }
{}

/// What a gate reports of some bytes has status 0 exactly where they are a released stream, and a run of it on such a stream ends
/// with status 0 or with that of trouble.
pub fn gate_releases_exactly()
    ensures exactly { GateReleasesExactly }
    ensures ends { ReleasedEndsWell }
{}

/// By a strict gate over feature files, with no scenario that may be left out, each of their scenarios has steps, ran exactly once in
/// one of the runs, and each of its steps was matched and passed.
pub fn strict_features_passed()
    ensures { FeaturesPassed }
{}

/// In whatever order runs are given, the same scenarios ran in them.
pub fn runs_come_in_any_order()
    ensures { AnyOrderOfRuns }
{}
