//! What a release asks of a run: one stream for each reason to hold it, and streams that have two.
use crate::tests::lines::expect_rows;
use std::test::Fail;

// Each stream is released by `gate` alone, but for the pickles that may not be without a test case.
const UNASKED: &str =
    "good sources=1 pickles=1 cases=1 attempts=2/release retried=1 skipped=0 unrun=0/ 0 = source document pickle run case:c1:t1 start:a1:c1:0 step:a1:t1 end:a1:t1:FAILED done:a1:true start:a2:c1:1 step:a2:t1 end:a2:t1:PASSED done:a2:false well
good sources=1 pickles=1 cases=2 attempts=2/release retried=1 skipped=0 unrun=0/ 0 = source document pickle run case:c1:t1 case:c2:u1 start:a1:c1:0 step:a1:t1 end:a1:t1:PASSED done:a1:false start:b1:c2:0 step:b1:u1 end:b1:u1:PASSED done:b1:false well
good sources=1 pickles=1 cases=1 attempts=1/release retried=0 skipped=1 unrun=0/ 0 = source document pickle run case:c1:t1 start:a1:c1:0 step:a1:t1 end:a1:t1:SKIPPED done:a1:false well
good sources=1 pickles=1 cases=1 attempts=1/release retried=0 skipped=0 unrun=0/ 0 = stepless stepless_document stepless_pickle run stepless_case start:a1:c1:0 done:a1:false well
good sources=1 pickles=1 cases=1 attempts=1/release retried=0 skipped=0 unrun=0/ 0 = source document pickle run unmatched_case start:a1:c1:0 step:a1:t1 end:a1:t1:PASSED done:a1:false well
good sources=2 pickles=2 cases=1 attempts=1 unrun=1/stop Unrun/UNRUN w.feature:4 s/ 5 = source document pickle tagged tagged_document tagged_pickle run case:c1:t1 start:a1:c1:0 step:a1:t1 end:a1:t1:PASSED done:a1:false well";

#[test]
fn nothing_is_asked(rt: HostRuntime) -> Result<(), Fail> {
    expect_rows(&rt, rt.alloc(), &["gate"], UNASKED)
}

// The scenario that didn't run has a tag of its own, and one of its feature.
const TAGGED: &str =
    "good sources=2 pickles=2 cases=1 attempts=1 unrun=1/release retried=0 skipped=0 unrun=1/ 0 = source document pickle tagged tagged_document tagged_pickle run case:c1:t1 start:a1:c1:0 step:a1:t1 end:a1:t1:PASSED done:a1:false well";

const HELD: &str =
    "good sources=2 pickles=2 cases=1 attempts=1 unrun=1/stop Unrun/UNRUN w.feature:4 s/ 5 = source document pickle tagged tagged_document tagged_pickle run case:c1:t1 start:a1:c1:0 step:a1:t1 end:a1:t1:PASSED done:a1:false well";

// Another scenario without a tag didn't run either.
const UNTAGGED: &str =
    "good sources=3 pickles=3 cases=1 attempts=1 unrun=2/stop Unrun/UNRUN b.feature:3 t/ 5 = source document pickle source_b document_b pickle_b tagged tagged_document tagged_pickle run case:c1:t1 start:a1:c1:0 step:a1:t1 end:a1:t1:PASSED done:a1:false well
good sources=1 pickles=1 cases=0 attempts=0 unrun=1/stop Empty/ 5 = tagged tagged_document tagged_pickle run well
good sources=1 pickles=1 cases=0 attempts=0 unrun=1/stop NotSuccessful/RUNHOOK FAILED hook h/ 5 = tagged tagged_document tagged_pickle hook run hook_start hook_failed unwell";

#[test]
fn pickles_that_may_be_unrun_by_their_tags(rt: HostRuntime) -> Result<(), Fail> {
    let alloc = rt.alloc();
    for tag in ["@wip", "@slow"] {
        expect_rows(&rt, alloc, &["gate", "--allow-unrun-tagged", tag], TAGGED)?;
        expect_rows(&rt, alloc, &["gate", "--allow-unrun-tagged", tag], UNTAGGED)?;
    }
    for tag in ["@", "@wi", "@wipe", "@WIP", "@other"] {
        expect_rows(&rt, alloc, &["gate", "--allow-unrun-tagged", tag], HELD)?;
    }
    let first = [
        "gate",
        "--allow-unrun-tagged=@wip",
        "--allow-unrun-tagged=@other",
    ];
    expect_rows(&rt, alloc, &first, TAGGED)?;
    for tag in ["@other", "@wip"] {
        let words = [
            "gate",
            "--allow-unrun-tagged",
            tag,
            "--allow-unrun-tagged",
            "@wip",
        ];
        expect_rows(&rt, alloc, &words, TAGGED)?;
    }
    Ok(())
}

const RETRIED: &str =
    "good sources=1 pickles=1 cases=1 attempts=2/stop Retried/RETRIED a.feature:3 s/ 5 = source document pickle definition run matched_case start:a1:c1:0 step:a1:t1 end:a1:t1:FAILED done:a1:true start:a2:c1:1 step:a2:t1 end:a2:t1:PASSED done:a2:false well
good sources=1 pickles=1 cases=2 attempts=2/stop Retried/RETRIED a.feature:3 s/ 5 = source document pickle run case:c1:t1 case:c2:u1 start:a1:c1:0 step:a1:t1 end:a1:t1:PASSED done:a1:false start:b1:c2:0 step:b1:u1 end:b1:u1:PASSED done:b1:false well
good sources=2 pickles=2 cases=2 attempts=3/stop Retried/RETRIED b.feature:3 t/ 5 = source document pickle source_b document_b pickle_b run case:c1:t1 case_b start:a1:c1:0 step:a1:t1 end:a1:t1:PASSED done:a1:false start:b1:c2:0 step:b1:t1 end:b1:t1:FAILED done:b1:true start:b2:c2:1 step:b2:t1 end:b2:t1:PASSED done:b2:false well
good sources=2 pickles=2 cases=2 attempts=2/release retried=0 skipped=0 unrun=0/ 0 = source document pickle source_b document_b pickle_b run case:c1:t1 case_b start:a1:c1:0 step:a1:t1 end:a1:t1:PASSED done:a1:false start:b1:c2:0 step:b1:t1 end:b1:t1:PASSED done:b1:false well";

#[test]
fn runs_with_a_retry(rt: HostRuntime) -> Result<(), Fail> {
    expect_rows(&rt, rt.alloc(), &["gate", "--no-retries"], RETRIED)
}

// A step of a hook was skipped, one after a pending step, and one of an attempt that was retried.
const SKIPPED: &str =
    "good sources=1 pickles=1 cases=1 attempts=1/stop Skipped/SKIPPED a.feature:3 s/ 5 = source document pickle run case:c1:t1 start:a1:c1:0 step:a1:t1 end:a1:t1:SKIPPED done:a1:false well
good sources=1 pickles=1 cases=1 attempts=1/stop Skipped/SKIPPED a.feature:3 s/ 5 = source document pickle definition hook run hooked_case start:a1:c1:0 step:a1:h1 end:a1:h1:SKIPPED step:a1:t1 end:a1:t1:PASSED done:a1:false well
good sources=1 pickles=1 cases=1 attempts=1/stop Skipped/SKIPPED a.feature:3 s/ 5 = source document pickle definition hook run hooked_case start:a1:c1:0 step:a1:h1 end:a1:h1:PENDING step:a1:t1 end:a1:t1:SKIPPED done:a1:false well
good sources=1 pickles=1 cases=1 attempts=2/release retried=1 skipped=0 unrun=0/ 0 = source document pickle run case:c1:t1 start:a1:c1:0 step:a1:t1 end:a1:t1:SKIPPED done:a1:true start:a2:c1:1 step:a2:t1 end:a2:t1:PASSED done:a2:false well";

#[test]
fn runs_with_a_skipped_step(rt: HostRuntime) -> Result<(), Fail> {
    let words = ["gate", "--no-skips", "--pending-passes"];
    expect_rows(&rt, rt.alloc(), &words, SKIPPED)
}

const STEPLESS: &str =
    "good sources=1 pickles=1 cases=1 attempts=1/stop Stepless/STEPLESS r.feature:5 s/ 5 = stepless stepless_document stepless_pickle run stepless_case start:a1:c1:0 done:a1:false well
good sources=1 pickles=1 cases=1 attempts=1/stop Stepless/STEPLESS r.feature:5 s/ 5 = stepless stepless_document stepless_pickle hook run hooked_stepless_case start:a1:c1:0 step:a1:h1 end:a1:h1:PASSED done:a1:false well
good sources=1 pickles=1 cases=1 attempts=1/release retried=0 skipped=0 unrun=0/ 0 = source document pickle run case:c1:t1 start:a1:c1:0 step:a1:t1 end:a1:t1:PASSED done:a1:false well";

#[test]
fn runs_with_a_scenario_without_steps(rt: HostRuntime) -> Result<(), Fail> {
    expect_rows(&rt, rt.alloc(), &["gate", "--no-stepless"], STEPLESS)
}

// A pickle without steps that may be unrun is not looked at.
#[test]
fn a_scenario_without_steps_that_may_be_unrun(rt: HostRuntime) -> Result<(), Fail> {
    let rows =
        "good sources=2 pickles=2 cases=1 attempts=1 unrun=1/release retried=0 skipped=0 unrun=1/ 0 = source document pickle stepless stepless_document stepless_pickle run case:c1:t1 start:a1:c1:0 step:a1:t1 end:a1:t1:PASSED done:a1:false well";
    let words = ["gate", "--allow-unrun", "--no-stepless"];
    expect_rows(&rt, rt.alloc(), &words, rows)
}

// Definitions are absent, or an empty list; a hook needs none; a step that was skipped needs none.
const UNDEFINED: &str =
    "good sources=1 pickles=1 cases=1 attempts=1/stop Undefined/UNDEFINED a.feature:3 s step a.feature:4 a/ 5 = source document pickle run unmatched_case start:a1:c1:0 step:a1:t1 end:a1:t1:PASSED done:a1:false well
good sources=1 pickles=1 cases=1 attempts=1/stop Undefined/UNDEFINED a.feature:3 s step a.feature:4 a/ 5 = source document pickle run case:c1:t1 start:a1:c1:0 step:a1:t1 end:a1:t1:PASSED done:a1:false well
good sources=1 pickles=1 cases=1 attempts=2/stop Undefined/UNDEFINED a.feature:3 s step a.feature:4 a/ 5 = source document pickle run case:c1:t1 start:a1:c1:0 step:a1:t1 end:a1:t1:PASSED done:a1:true start:a2:c1:1 step:a2:t1 end:a2:t1:SKIPPED done:a2:false well
good sources=1 pickles=1 cases=1 attempts=1/release retried=0 skipped=0 unrun=0/ 0 = source document pickle definition hook run hooked_case start:a1:c1:0 step:a1:h1 end:a1:h1:PASSED step:a1:t1 end:a1:t1:PASSED done:a1:false well
good sources=1 pickles=1 cases=1 attempts=1/stop Undefined/UNDEFINED k.feature:4 s step k.feature:3 b/UNDEFINED k.feature:4 s step k.feature:5 a/ 5 = background background_document background_pickle run background_case start:a1:c1:0 step:a1:t1 end:a1:t1:PASSED step:a1:t2 end:a1:t2:PASSED done:a1:false well
good sources=1 pickles=1 cases=1 attempts=1/stop Undefined/UNDEFINED k.feature:4 s step k.feature:3 b/ 5 = background background_document background_pickle run background_case start:a1:c1:0 step:a1:t1 end:a1:t1:PASSED step:a1:t2 end:a1:t2:SKIPPED done:a1:false well
good sources=2 pickles=2 cases=2 attempts=2/stop Undefined/UNDEFINED b.feature:3 t step b.feature:4 b/ 5 = source document pickle source_b document_b pickle_b definition run matched_case case_b start:a1:c1:0 step:a1:t1 end:a1:t1:PASSED done:a1:false start:b1:c2:0 step:b1:t1 end:b1:t1:PASSED done:b1:false well
good sources=1 pickles=1 cases=1 attempts=1/release retried=0 skipped=1 unrun=0/ 0 = source document pickle run unmatched_case start:a1:c1:0 step:a1:t1 end:a1:t1:SKIPPED done:a1:false well";

const PENDING: &str =
    "good sources=1 pickles=1 cases=1 attempts=1/stop Undefined/UNDEFINED a.feature:3 s step a.feature:4 a/ 5 = source document pickle run unmatched_case start:a1:c1:0 step:a1:t1 end:a1:t1:PENDING done:a1:false well";

#[test]
fn runs_with_a_step_that_no_definition_matches(rt: HostRuntime) -> Result<(), Fail> {
    expect_rows(&rt, rt.alloc(), &["gate", "--no-undefined"], UNDEFINED)?;
    let words = ["gate", "--no-undefined", "--pending-passes"];
    expect_rows(&rt, rt.alloc(), &words, PENDING)
}

// Of two reasons the first is told: each two that hold together, and no third. A run without a test case has no attempt.
const TWO_REASONS: &str =
    "good sources=0 pickles=0 cases=0 attempts=0/stop NotSuccessful/RUNHOOK FAILED hook h/ 5 = hook run hook_start hook_failed unwell
good sources=2 pickles=2 cases=1 attempts=1 unrun=1/stop NotSuccessful/FAILED a.feature:3 s step a.feature:4 a/ 5 = source document pickle source_b document_b pickle_b run case:c1:t1 start:a1:c1:0 step:a1:t1 end:a1:t1:FAILED done:a1:false unwell
good sources=1 pickles=1 cases=1 attempts=2/stop NotSuccessful/FAILED a.feature:3 s step a.feature:4 a/ 5 = source document pickle run case:c1:t1 start:a1:c1:0 step:a1:t1 end:a1:t1:FAILED done:a1:true start:a2:c1:1 step:a2:t1 end:a2:t1:FAILED done:a2:false unwell
good sources=1 pickles=1 cases=1 attempts=1/stop NotSuccessful/FAILED a.feature:3 s hook h/ 5 = source document pickle definition hook run hooked_case start:a1:c1:0 step:a1:h1 end:a1:h1:FAILED step:a1:t1 end:a1:t1:SKIPPED done:a1:false unwell
good sources=1 pickles=1 cases=1 attempts=1/stop NotSuccessful/FAILED r.feature:5 s hook h/ 5 = stepless stepless_document stepless_pickle hook run hooked_stepless_case start:a1:c1:0 step:a1:h1 end:a1:h1:FAILED done:a1:false unwell
good sources=1 pickles=1 cases=1 attempts=1/stop NotSuccessful/RUNHOOK FAILED hook h/ 5 = source document pickle hook run hook_start hook_failed unmatched_case start:a1:c1:0 step:a1:t1 end:a1:t1:PASSED done:a1:false unwell
good sources=1 pickles=1 cases=0 attempts=0 unrun=1/stop Empty/ 5 = source document pickle run well
good sources=2 pickles=2 cases=1 attempts=2 unrun=1/stop Unrun/UNRUN b.feature:3 t/ 5 = source document pickle source_b document_b pickle_b definition run matched_case start:a1:c1:0 step:a1:t1 end:a1:t1:FAILED done:a1:true start:a2:c1:1 step:a2:t1 end:a2:t1:PASSED done:a2:false well
good sources=2 pickles=2 cases=1 attempts=1 unrun=1/stop Unrun/UNRUN b.feature:3 t/ 5 = source document pickle source_b document_b pickle_b run case:c1:t1 start:a1:c1:0 step:a1:t1 end:a1:t1:SKIPPED done:a1:false well
good sources=2 pickles=2 cases=1 attempts=1 unrun=1/stop Unrun/UNRUN b.feature:3 t/ 5 = stepless stepless_document stepless_pickle source_b document_b pickle_b run stepless_case start:a1:c1:0 done:a1:false well
good sources=2 pickles=2 cases=1 attempts=1 unrun=1/stop Unrun/UNRUN b.feature:3 t/ 5 = source document pickle source_b document_b pickle_b run unmatched_case start:a1:c1:0 step:a1:t1 end:a1:t1:PASSED done:a1:false well
good sources=1 pickles=1 cases=1 attempts=2/stop Retried/RETRIED a.feature:3 s/ 5 = source document pickle run case:c1:t1 start:a1:c1:0 step:a1:t1 end:a1:t1:FAILED done:a1:true start:a2:c1:1 step:a2:t1 end:a2:t1:SKIPPED done:a2:false well
good sources=1 pickles=1 cases=1 attempts=2/stop Retried/RETRIED r.feature:5 s/ 5 = stepless stepless_document stepless_pickle run stepless_case start:a1:c1:0 done:a1:true start:a2:c1:1 done:a2:false well
good sources=1 pickles=1 cases=1 attempts=2/stop Retried/RETRIED a.feature:3 s/ 5 = source document pickle run unmatched_case start:a1:c1:0 step:a1:t1 end:a1:t1:FAILED done:a1:true start:a2:c1:1 step:a2:t1 end:a2:t1:PASSED done:a2:false well
good sources=1 pickles=1 cases=1 attempts=1/stop Skipped/SKIPPED r.feature:5 s/ 5 = stepless stepless_document stepless_pickle hook run hooked_stepless_case start:a1:c1:0 step:a1:h1 end:a1:h1:SKIPPED done:a1:false well
good sources=2 pickles=2 cases=2 attempts=2/stop Skipped/SKIPPED b.feature:3 t/ 5 = source document pickle source_b document_b pickle_b run unmatched_case case_b start:a1:c1:0 step:a1:t1 end:a1:t1:PASSED done:a1:false start:b1:c2:0 step:b1:t1 end:b1:t1:SKIPPED done:b1:false well
good sources=2 pickles=2 cases=2 attempts=2/stop Stepless/STEPLESS r.feature:5 s/ 5 = stepless stepless_document stepless_pickle source_b document_b pickle_b run stepless_case case_b start:a1:c1:0 done:a1:false start:b1:c2:0 step:b1:t1 end:b1:t1:PASSED done:b1:false well";

#[test]
fn the_first_reason_is_told(rt: HostRuntime) -> Result<(), Fail> {
    let alloc = rt.alloc();
    expect_rows(&rt, alloc, &["gate", "--strict"], TWO_REASONS)?;
    let all = [
        "gate",
        "--no-undefined",
        "--no-stepless",
        "--no-skips",
        "--no-retries",
    ];
    expect_rows(&rt, alloc, &all, TWO_REASONS)?;
    expect_rows(&rt, alloc, &["gate", "--strict", "--no-skips"], TWO_REASONS)
}

// A run that meets every condition.
const STRICT: &str =
    "good sources=1 pickles=1 cases=1 attempts=1/release retried=0 skipped=0 unrun=0/ 0 = source document pickle definition hook run hooked_case start:a1:c1:0 step:a1:h1 end:a1:h1:PASSED step:a1:t1 end:a1:t1:PASSED done:a1:false well";

#[test]
fn a_run_that_meets_all(rt: HostRuntime) -> Result<(), Fail> {
    expect_rows(&rt, rt.alloc(), &["gate", "--strict"], STRICT)
}
