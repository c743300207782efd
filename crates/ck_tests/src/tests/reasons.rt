//! What stands below the answer of the gate: what was due, what is open, what failed, and where.
use crate::tests::lines::expect_rows;
use std::test::Fail;

const REFUSED: &str =
    "bad line 2: 7 DocumentOfRefusedSource/refused b.feature:1:1 1 Unexpected/ 1 = refused refused_document
bad line 3: 7 DocumentOfRefusedSource/refused c.feature:4:3 1 Unexpected/ 1 = refused refused_background refused_background_document";

#[test]
fn documents_of_refused_sources(rt: HostRuntime) -> Result<(), Fail> {
    expect_rows(&rt, rt.alloc(), &["gate"], REFUSED)
}

const NUMBERS: &str =
    "bad line 6: 12 AttemptNumber/case a.feature:3 s/attempt 1/due 0/ 1 = source document pickle run case:c1:t1 start:a1:c1:1
bad line 10: 12 AttemptNumber/case a.feature:3 s/attempt 2/due 1/ 1 = source document pickle run case:c1:t1 start:a1:c1:0 step:a1:t1 end:a1:t1:FAILED done:a1:true start:a2:c1:2
bad line 10: 12 AttemptNumber/case a.feature:3 s/attempt 0/due 1/ 1 = source document pickle run case:c1:t1 start:a1:c1:0 step:a1:t1 end:a1:t1:FAILED done:a1:true start:a2:c1:0
bad line 12: 12 AttemptNumber/case b.feature:3 t/attempt 1/due 0/ 1 = source document pickle source_b document_b pickle_b run case:c1:t1 case_b start:a1:c1:0 step:a1:t1 start:b1:c2:1
bad line 7: 12 AttemptNumber/case o.feature:7 s/attempt 1/due 0/ 1 = outline outline_document first_row second_row run second_row_case start:a1:c1:1";

const NUMBERS_FROM_ONE: &str =
    "bad line 6: 12 AttemptNumber/case a.feature:3 s/attempt 0/due 1/ 1 = source document pickle run case:c1:t1 start_without_number
bad line 10: 12 AttemptNumber/case a.feature:3 s/attempt 1/due 2/ 1 = source document pickle run case:c1:t1 start:a1:c1:1 step:a1:t1 end:a1:t1:FAILED done:a1:true start:a2:c1:1";

#[test]
fn numbers_that_are_due(rt: HostRuntime) -> Result<(), Fail> {
    expect_rows(&rt, rt.alloc(), &["gate"], NUMBERS)?;
    let words = ["gate", "--attempts-from", "1"];
    expect_rows(&rt, rt.alloc(), &words, NUMBERS_FROM_ONE)
}

// A step that is due and another that comes: of a scenario, a background, an outline, a hook, and of a second attempt.
const STEPS: &str =
    "bad line 7: 14 StepOrder/case a.feature:3 s/attempt 0/due start a.feature:4 a/found finish a.feature:4 a/ 1 = source document pickle run case:c1:t1 start:a1:c1:0 end:a1:t1:PASSED
bad line 8: 14 StepOrder/case a.feature:3 s/attempt 0/due finish a.feature:4 a/found start a.feature:4 a/ 1 = source document pickle run case:c1:t1 start:a1:c1:0 step:a1:t1 step:a1:t1
bad line 7: 14 StepOrder/case k.feature:4 s/attempt 0/due start k.feature:3 b/found start k.feature:5 a/ 1 = background background_document background_pickle run background_case start:a1:c1:0 step:a1:t2
bad line 8: 14 StepOrder/case k.feature:4 s/attempt 0/due finish k.feature:3 b/found finish k.feature:5 a/ 1 = background background_document background_pickle run background_case start:a1:c1:0 step:a1:t1 end:a1:t2:PASSED
bad line 9: 14 StepOrder/case k.feature:4 s/attempt 0/due start k.feature:5 a/found start k.feature:3 b/ 1 = background background_document background_pickle run background_case start:a1:c1:0 step:a1:t1 end:a1:t1:PASSED step:a1:t1
bad line 8: 14 StepOrder/case o.feature:7 s/attempt 0/due start o.feature:3 x/found finish o.feature:3 x/ 1 = outline outline_document first_row second_row run second_row_case start:a1:c1:0 end:a1:t1:PASSED
bad line 9: 14 StepOrder/case a.feature:3 s/attempt 0/due start hook h/found start a.feature:4 a/ 1 = source document pickle definition hook run hooked_case start:a1:c1:0 step:a1:t1
bad line 12: 14 StepOrder/case a.feature:3 s/attempt 0/due finish a.feature:4 a/found finish hook h/ 1 = source document pickle definition hook run hooked_case start:a1:c1:0 step:a1:h1 end:a1:h1:PASSED step:a1:t1 end:a1:h1:PASSED
bad line 11: 14 StepOrder/case a.feature:3 s/attempt 1/due start a.feature:4 a/found finish a.feature:4 a/ 1 = source document pickle run case:c1:t1 start:a1:c1:0 step:a1:t1 end:a1:t1:FAILED done:a1:true start:a2:c1:1 end:a2:t1:PASSED
bad line 12: 14 StepOrder/case b.feature:3 t/attempt 0/due start b.feature:4 b/found finish b.feature:4 b/ 1 = source document pickle source_b document_b pickle_b run case:c1:t1 case_b start:a1:c1:0 start:b1:c2:0 end:b1:t1:PASSED";

// No step is due: the attempt is finished, or all its steps are. An end of an attempt finds no step either.
const NO_STEP_DUE: &str =
    "bad line 10: 14 StepOrder/case a.feature:3 s/attempt 0/found start a.feature:4 a/ 1 = source document pickle run case:c1:t1 start:a1:c1:0 step:a1:t1 end:a1:t1:FAILED done:a1:true step:a1:t1
bad line 9: 14 StepOrder/case a.feature:3 s/attempt 0/found start a.feature:4 a/ 1 = source document pickle run case:c1:t1 start:a1:c1:0 step:a1:t1 end:a1:t1:PASSED step:a1:t1
bad line 10: 14 StepOrder/case a.feature:3 s/attempt 0/ 1 = source document pickle run case:c1:t1 start:a1:c1:0 step:a1:t1 end:a1:t1:FAILED done:a1:true done:a1:true
bad line 13: 14 StepOrder/case a.feature:3 s/attempt 0/ 1 = source document pickle run case:c1:t1 start:a1:c1:0 step:a1:t1 end:a1:t1:FAILED done:a1:true start:a2:c1:1 step:a2:t1 end:a2:t1:PASSED done:a1:false";

#[test]
fn steps_that_are_due_and_found(rt: HostRuntime) -> Result<(), Fail> {
    expect_rows(&rt, rt.alloc(), &["gate"], STEPS)?;
    expect_rows(&rt, rt.alloc(), &["gate"], NO_STEP_DUE)
}

const FINISHED_EARLY: &str =
    "bad line 7: 15 FinishedEarly/case a.feature:3 s/attempt 0/due start a.feature:4 a/ 1 = source document pickle run case:c1:t1 start:a1:c1:0 done:a1:false
bad line 8: 15 FinishedEarly/case a.feature:3 s/attempt 0/due finish a.feature:4 a/ 1 = source document pickle run case:c1:t1 start:a1:c1:0 step:a1:t1 done:a1:false
bad line 9: 15 FinishedEarly/case k.feature:4 s/attempt 0/due start k.feature:5 a/ 1 = background background_document background_pickle run background_case start:a1:c1:0 step:a1:t1 end:a1:t1:PASSED done:a1:false
bad line 9: 15 FinishedEarly/case a.feature:3 s/attempt 0/due start hook h/ 1 = source document pickle definition hook run hooked_case start:a1:c1:0 done:a1:true";

#[test]
fn attempts_that_finish_early(rt: HostRuntime) -> Result<(), Fail> {
    expect_rows(&rt, rt.alloc(), &["gate"], FINISHED_EARLY)
}

// The cases stand in the order of their declaration, whichever started first.
const OPEN: &str =
    "bad line 12: 19 AttemptOpen/case a.feature:3 s/case b.feature:3 t/ 1 = source document pickle source_b document_b pickle_b run case:c1:t1 case_b start:b1:c2:0 start:a1:c1:0 well
bad line 15: 19 AttemptOpen/case b.feature:3 t/ 1 = source document pickle source_b document_b pickle_b run case:c1:t1 case_b start:a1:c1:0 start:b1:c2:0 step:a1:t1 end:a1:t1:PASSED done:a1:false well
bad line 11: 19 AttemptOpen/case a.feature:3 s/ 1 = source document pickle run case:c1:t1 start:a1:c1:0 step:a1:t1 end:a1:t1:FAILED done:a1:true start:a2:c1:1 unwell
bad line 3: 22 NoRunFinished/refused b.feature:1:1 1 Unexpected/ 1 = refused refused_error
bad line 8: 22 NoRunFinished/case a.feature:3 s/ 1 = source document pickle run case:c1:t1 start:a1:c1:0 step:a1:t1
bad line 16: 22 NoRunFinished/refused c.feature:4:3 1 Unexpected/refused b.feature:1:1 1 Unexpected/case a.feature:3 s/case o.feature:8 s/ 1 = refused_background refused source document pickle outline outline_document first_row second_row third_row run case:c1:t1 third_row_case start:b1:c2:0 start:a1:c1:0
bad line 2: 22 NoRunFinished/ 1 = run
bad line 6: 23 RunHookOpen/hook h/hook g/ 1 = hook hook_g run hook_start hook_g_start well
bad line 7: 23 RunHookOpen/hook g/ 1 = hook hook_g run hook_start hook_g_start hook_passed well
bad line 5: 24 RunHookTwice/hook h/ 1 = hook run hook_start hook_passed hook_failed";

#[test]
fn what_is_open_at_the_end(rt: HostRuntime) -> Result<(), Fail> {
    expect_rows(&rt, rt.alloc(), &["gate"], OPEN)
}

const UNKNOWN: &str =
    "unsupported line 8: 3 UnknownStatus/case a.feature:3 s/attempt 0/step a.feature:4 a/ 4 = source document pickle run case:c1:t1 start:a1:c1:0 step:a1:t1 end:a1:t1:UNKNOWN
unsupported line 12: 3 UnknownStatus/case a.feature:3 s/attempt 1/step a.feature:4 a/ 4 = source document pickle run case:c1:t1 start:a1:c1:0 step:a1:t1 end:a1:t1:FAILED done:a1:true start:a2:c1:1 step:a2:t1 end:a2:t1:UNKNOWN
unsupported line 10: 3 UnknownStatus/case a.feature:3 s/attempt 0/hook h/ 4 = source document pickle definition hook run hooked_case start:a1:c1:0 step:a1:h1 end:a1:h1:UNKNOWN
unsupported line 4: 3 UnknownStatus/hook h/ 4 = hook run hook_start hook_unknown";

#[test]
fn statuses_that_are_unknown(rt: HostRuntime) -> Result<(), Fail> {
    expect_rows(&rt, rt.alloc(), &["gate"], UNKNOWN)
}

// Success that isn't what happened: each kind of cause alone, all of them, and none.
const SUCCESS: &str =
    "bad line 10: 21 SuccessDiffers/FAILED a.feature:3 s step a.feature:4 a/ 1 = source document pickle run case:c1:t1 start:a1:c1:0 step:a1:t1 end:a1:t1:FAILED done:a1:false well
bad line 10: 21 SuccessDiffers/PENDING a.feature:3 s step a.feature:4 a/ 1 = source document pickle run case:c1:t1 start:a1:c1:0 step:a1:t1 end:a1:t1:PENDING done:a1:false well
bad line 10: 21 SuccessDiffers/AMBIGUOUS a.feature:3 s step a.feature:4 a/ 1 = source document pickle run case:c1:t1 start:a1:c1:0 step:a1:t1 end:a1:t1:AMBIGUOUS done:a1:false well
bad line 6: 21 SuccessDiffers/NONE a.feature:3 s/ 1 = source document pickle run case:c1:t1 well
bad line 10: 21 SuccessDiffers/NONE a.feature:3 s/ 1 = source document pickle run case:c1:t1 start:a1:c1:0 step:a1:t1 end:a1:t1:FAILED done:a1:true well
bad line 5: 21 SuccessDiffers/RUNHOOK FAILED hook h/ 1 = hook run hook_start hook_failed well
bad line 4: 21 SuccessDiffers/refused b.feature:1:1 1 Unexpected/ 1 = refused refused_error run well
bad line 2: 21 SuccessDiffers/exception/ 1 = run exception
bad line 10: 21 SuccessDiffers/nothing failed/ 1 = source document pickle run case:c1:t1 start:a1:c1:0 step:a1:t1 end:a1:t1:PASSED done:a1:false unwell
bad line 10: 21 SuccessDiffers/nothing failed/ 1 = source document pickle run case:c1:t1 start:a1:c1:0 step:a1:t1 end:a1:t1:SKIPPED done:a1:false unwell
bad line 14: 21 SuccessDiffers/nothing failed/ 1 = source document pickle run case:c1:t1 start:a1:c1:0 step:a1:t1 end:a1:t1:FAILED done:a1:true start:a2:c1:1 step:a2:t1 end:a2:t1:PASSED done:a2:false unwell
bad line 2: 21 SuccessDiffers/nothing failed/ 1 = run unwell
bad line 24: 21 SuccessDiffers/FAILED a.feature:3 s step a.feature:4 a/NONE o.feature:8 s/RUNHOOK FAILED hook h/RUNHOOK UNDEFINED hook g/refused c.feature:4:3 1 Unexpected/refused b.feature:1:1 1 Unexpected/exception/ 1 = refused_background source document pickle outline outline_document first_row second_row third_row refused hook hook_g run hook_start hook_g_start hook_g_undefined hook_failed case:c1:t1 third_row_case start:a1:c1:0 step:a1:t1 end:a1:t1:FAILED done:a1:false exception";

// The step that is told is the first of the final attempt with its worst status.
const STEPS_OF_CAUSES: &str =
    "bad line 12: 21 SuccessDiffers/FAILED k.feature:4 s step k.feature:5 a/ 1 = background background_document background_pickle run background_case start:a1:c1:0 step:a1:t1 end:a1:t1:PENDING step:a1:t2 end:a1:t2:FAILED done:a1:false well
bad line 12: 21 SuccessDiffers/FAILED k.feature:4 s step k.feature:3 b/ 1 = background background_document background_pickle run background_case start:a1:c1:0 step:a1:t1 end:a1:t1:FAILED step:a1:t2 end:a1:t2:FAILED done:a1:false well
bad line 12: 21 SuccessDiffers/UNDEFINED k.feature:4 s step k.feature:3 b/ 1 = background background_document background_pickle run background_case start:a1:c1:0 step:a1:t1 end:a1:t1:UNDEFINED step:a1:t2 end:a1:t2:SKIPPED done:a1:false well
bad line 18: 21 SuccessDiffers/UNDEFINED k.feature:4 s step k.feature:5 a/ 1 = background background_document background_pickle run background_case start:a1:c1:0 step:a1:t1 end:a1:t1:FAILED step:a1:t2 end:a1:t2:SKIPPED done:a1:true start:a2:c1:1 step:a2:t1 end:a2:t1:PASSED step:a2:t2 end:a2:t2:UNDEFINED done:a2:false well
bad line 12: 21 SuccessDiffers/UNDEFINED o.feature:7 s step o.feature:3 x/ 1 = outline outline_document first_row second_row third_row run second_row_case start:a1:c1:0 step:a1:t1 end:a1:t1:UNDEFINED done:a1:false well
bad line 14: 21 SuccessDiffers/FAILED a.feature:3 s hook h/ 1 = source document pickle definition hook run hooked_case start:a1:c1:0 step:a1:h1 end:a1:h1:FAILED step:a1:t1 end:a1:t1:SKIPPED done:a1:false well
bad line 10: 21 SuccessDiffers/FAILED z.feature:2 s step z.feature:3 a\\u202eb\\\\c/ 1 = turned turned_document turned_pickle run turned_case start:a1:c1:0 step:a1:t1 end:a1:t1:FAILED done:a1:false well";

// A case that was retried and passed is no cause.
const RETRIED: &str =
    "bad line 18: 21 SuccessDiffers/RUNHOOK FAILED hook h/ 1 = source document pickle hook run hook_start hook_failed case:c1:t1 start:a1:c1:0 step:a1:t1 end:a1:t1:FAILED done:a1:true start:a2:c1:1 step:a2:t1 end:a2:t1:PASSED done:a2:false - well";

#[test]
fn success_that_did_not_happen(rt: HostRuntime) -> Result<(), Fail> {
    expect_rows(&rt, rt.alloc(), &["gate"], SUCCESS)?;
    expect_rows(&rt, rt.alloc(), &["gate"], STEPS_OF_CAUSES)?;
    expect_rows(&rt, rt.alloc(), &["gate"], RETRIED)
}

// A run that says no success, and why.
const CAUSES: &str =
    "good sources=1 pickles=1 cases=1 attempts=1/stop NotSuccessful/FAILED a.feature:3 s step a.feature:4 a/ 5 = source document pickle run case:c1:t1 start:a1:c1:0 step:a1:t1 end:a1:t1:FAILED done:a1:false unwell
good sources=1 pickles=1 cases=1 attempts=1/stop NotSuccessful/NONE a.feature:3 s/ 5 = source document pickle run case:c1:t1 start:a1:c1:0 step:a1:t1 end:a1:t1:PASSED done:a1:true unwell
good sources=0 pickles=0 cases=0 attempts=0/stop NotSuccessful/RUNHOOK UNDEFINED hook g/ 5 = hook hook_g run hook_start hook_g_start hook_g_undefined hook_passed unwell
good sources=2 pickles=0 cases=0 attempts=0/stop NotSuccessful/refused b.feature:1:1 1 Unexpected/refused c.feature:4:3 1 Unexpected/ 5 = refused refused_background run unwell
good sources=0 pickles=0 cases=0 attempts=0/stop NotSuccessful/exception/ 5 = run unwell_exception
good sources=1 pickles=1 cases=1 attempts=2/stop NotSuccessful/exception/ 5 = source document pickle run case:c1:t1 start:a1:c1:0 step:a1:t1 end:a1:t1:FAILED done:a1:true start:a2:c1:1 step:a2:t1 end:a2:t1:PASSED done:a2:false unwell_exception
good sources=1 pickles=3 cases=2 attempts=2 unrun=1/stop NotSuccessful/FAILED o.feature:7 s step o.feature:3 x/FAILED o.feature:8 s step o.feature:3 y/ 5 = outline outline_document first_row second_row third_row run second_row_case third_row_case start:b1:c2:0 step:b1:t1 end:b1:t1:FAILED done:b1:false start:a1:c1:0 step:a1:t1 end:a1:t1:FAILED done:a1:false unwell
good sources=1 pickles=1 cases=1 attempts=1/stop NotSuccessful/PENDING a.feature:3 s step a.feature:4 a/ 5 = source document pickle run case:c1:t1 start:a1:c1:0 step:a1:t1 end:a1:t1:PENDING done:a1:false unwell";

// Where PENDING passes, it is no cause.
const CAUSES_BUT_PENDING: &str =
    "good sources=1 pickles=1 cases=1 attempts=1/stop NotSuccessful/FAILED k.feature:4 s step k.feature:5 a/ 5 = background background_document background_pickle run background_case start:a1:c1:0 step:a1:t1 end:a1:t1:PENDING step:a1:t2 end:a1:t2:FAILED done:a1:false unwell
bad line 14: 21 SuccessDiffers/nothing failed/ 1 = source document pickle definition hook run hooked_case start:a1:c1:0 step:a1:h1 end:a1:h1:PENDING step:a1:t1 end:a1:t1:SKIPPED done:a1:false unwell";

#[test]
fn runs_without_success(rt: HostRuntime) -> Result<(), Fail> {
    expect_rows(&rt, rt.alloc(), &["gate"], CAUSES)?;
    let words = ["gate", "--pending-passes"];
    expect_rows(&rt, rt.alloc(), &words, CAUSES_BUT_PENDING)
}
