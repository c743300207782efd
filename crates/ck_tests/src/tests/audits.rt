//! Verdicts on streams.
use crate::tests::lines::expect_rows;
use crate::tests::running::expect_told;
use devices::Pieces;
use std::test::Fail;

const SOURCES: &str =
    "good sources=1 pickles=1 cases=0 attempts=0 unrun=1/ 0 = source document pickle run well
good sources=1 pickles=1 cases=0 attempts=0 unrun=1/ 0 = source document_named pickle_named run well
good sources=1 pickles=3 cases=0 attempts=0 unrun=3/ 0 = outline outline_document first_row second_row third_row run well
bad line 6: 20 SourceIncomplete/ 1 = outline outline_document first_row second_row run well
bad line 6: 9 PickleDiffers/ 1 = outline outline_document first_row second_row third_row third_row_again run well
bad line 3: 9 PickleDiffers/ 1 = outline outline_document second_row first_row third_row run well
bad line 7: 20 SourceIncomplete/ 1 = source document pickle source_b document_b run well
bad line 5: 9 PickleDiffers/ 1 = source document source_b document_b pickle_c
good sources=1 pickles=0 cases=0 attempts=0/ 0 = refused refused_error run unwell
bad line 4: 21 SuccessDiffers/ 1 = refused refused_error run well
unsupported line 1: 1 Language/ 4 = french
unsupported line 1: 2 MediaType/ 4 = markdown
bad line 2: 5 DuplicateUri/ 1 = source source
bad line 4: 10 ParseErrorOfGoodSource/ 1 = source document pickle error
bad line 2: 8 TreeDiffers/ 1 = source document_moved
bad line 2: 7 DocumentOfRefusedSource/ 1 = refused refused_document";

#[test]
fn verdicts_on_sources(rt: HostRuntime) -> Result<(), Fail> {
    expect_rows(&rt, rt.alloc(), &["audit"], SOURCES)
}

const ATTEMPTS: &str =
    "good sources=1 pickles=1 cases=1 attempts=2/ 0 = source document pickle run case:c1:t1 start:a1:c1:0 step:a1:t1 end:a1:t1:FAILED done:a1:true start:a2:c1:1 step:a2:t1 end:a2:t1:PASSED done:a2:false well
bad line 14: 21 SuccessDiffers/ 1 = source document pickle run case:c1:t1 start:a1:c1:0 step:a1:t1 end:a1:t1:PENDING done:a1:true start:a2:c1:1 step:a2:t1 end:a2:t1:FAILED done:a2:false well
good sources=1 pickles=1 cases=1 attempts=2/ 0 = source document pickle run case:c1:t1 start:a1:c1:0 step:a1:t1 end:a1:t1:PENDING done:a1:true start:a2:c1:1 step:a2:t1 end:a2:t1:FAILED done:a2:false unwell
good sources=1 pickles=1 cases=2 attempts=2/ 0 = source document pickle run case:c1:t1 case:c2:t1 start:a1:c1:0 start:b1:c2:0 step:a1:t1 step:b1:t1 end:a1:t1:PASSED end:b1:t1:SKIPPED done:b1:false done:a1:false well
good sources=2 pickles=2 cases=2 attempts=3/ 0 = source document pickle source_b document_b pickle_b run case:c1:t1 case_b start:a1:c1:0 start:b1:c2:0 step:b1:t1 step:a1:t1 end:b1:t1:FAILED end:a1:t1:PASSED done:b1:true start:b2:c2:1 done:a1:false step:b2:t1 end:b2:t1:PASSED done:b2:false well
good sources=2 pickles=2 cases=2 attempts=2/ 0 = source source_b document_b document pickle_b pickle case_b case:c1:t1 run start:a1:c1:0 start:b1:c2:0 step:a1:t1 step:b1:t1 end:a1:t1:PASSED end:b1:t1:FAILED done:b1:false done:a1:false unwell
bad line 15: 14 StepOrder/ 1 = source document pickle source_b document_b pickle_b run case:c1:t1 case_b start:a1:c1:0 start:b1:c2:0 step:a1:t1 end:a1:t1:PASSED done:a1:false end:b1:t1:PASSED
bad line 3: 6 UnknownReference/ 1 = source document case:c1:t1 pickle run unwell
bad line 14: 22 NoRunFinished/ 1 = source document pickle run case:c1:t1 start:a1:c1:0 step:a1:t1 end:a1:t1:FAILED done:a1:true start:a2:c1:1 step:a2:t1 end:a2:t1:PASSED done:a2:false
good sources=1 pickles=1 cases=1 attempts=0/ 0 = source document pickle run case:c1:t1 unwell
bad line 6: 21 SuccessDiffers/ 1 = source document pickle run case:c1:t1 well
good sources=1 pickles=1 cases=1 attempts=1/ 0 = stepless stepless_document stepless_pickle run stepless_case start:a1:c1:0 done:a1:false well
bad line 9: 19 AttemptOpen/ 1 = source document pickle run case:c1:t1 start:a1:c1:0 step:a1:t1 end:a1:t1:FAILED unwell start:a2:c1:1 step:a2:t1 end:a2:t1:PASSED done:a2:false well
bad line 9: 19 AttemptOpen/ 1 = source document pickle run case:c1:t1 start:a1:c1:0 step:a1:t1 end:a1:t1:FAILED unwell done:a1:true start:a2:c1:1 step:a2:t1 end:a2:t1:PASSED done:a2:false well
unsupported line 8: 3 UnknownStatus/ 4 = source document pickle run case:c1:t1 start:a1:c1:0 step:a1:t1 end:a1:t1:UNKNOWN done:a1:true start:a2:c1:1 step:a2:t1 end:a2:t1:PASSED done:a2:false well
bad line 5: 11 CaseStepsDiffer/ 1 = source document pickle run case_without_steps
bad line 10: 21 SuccessDiffers/ 1 = source document pickle run case:c1:t1 start:a1:c1:0 step:a1:t1 end:a1:t1:PENDING done:a1:false well
good sources=1 pickles=1 cases=1 attempts=1/ 0 = source document pickle run case:c1:t1 start:a1:c1:0 step:a1:t1 end:a1:t1:PENDING done:a1:false unwell
bad line 10: 21 SuccessDiffers/ 1 = source document pickle run case:c1:t1 start:a1:c1:0 step:a1:t1 end:a1:t1:UNDEFINED done:a1:false well";

#[test]
fn verdicts_on_attempts(rt: HostRuntime) -> Result<(), Fail> {
    expect_rows(&rt, rt.alloc(), &["audit"], ATTEMPTS)
}

const RUNS: &str = "good sources=0 pickles=0 cases=0 attempts=0/ 0 = - run well
bad line 2: 16 SecondRunStarted/ 1 = run run array
bad line 1: 17 OutsideRun/ 1 = well
bad line 6: 18 AfterRunFinished/ 1 = source document pickle run well hook
bad line 5: 21 SuccessDiffers/ 1 = source document pickle run exception
bad line 2: 4 DuplicateId/ 1 = null_source null_source";

#[test]
fn verdicts_on_runs(rt: HostRuntime) -> Result<(), Fail> {
    expect_rows(&rt, rt.alloc(), &["audit"], RUNS)
}

const RUN_HOOKS: &str =
    "good sources=1 pickles=1 cases=0 attempts=0 unrun=1/ 0 = source document pickle hook run hook_start hook_passed well
bad line 8: 21 SuccessDiffers/ 1 = source document pickle hook run hook_start hook_failed well
good sources=1 pickles=1 cases=0 attempts=0 unrun=1/ 0 = source document pickle hook run hook_start hook_failed unwell
bad line 8: 21 SuccessDiffers/ 1 = source document pickle hook run hook_start hook_pending well
bad line 5: 6 UnknownReference/ 1 = source document pickle run hook_start hook_passed well
bad line 5: 17 OutsideRun/ 1 = source document pickle hook hook_start run hook_passed well
bad line 7: 4 DuplicateId/ 1 = source document pickle hook run hook_start hook_start hook_passed well
bad line 8: 24 RunHookTwice/ 1 = source document pickle hook run hook_start hook_passed hook_passed well
bad line 7: 23 RunHookOpen/ 1 = source document pickle hook run hook_start well
unsupported line 7: 3 UnknownStatus/ 4 = source document pickle hook run hook_start hook_unknown well
bad line 6: 23 RunHookOpen/ 1 = source document hook run hook_start well
bad line 9: 19 AttemptOpen/ 1 = source document pickle run hook hook_start case:c1:t1 start:a1:c1:0 well
bad line 9: 18 AfterRunFinished/ 1 = source document pickle hook run hook_start hook_passed well hook_start";

#[test]
fn verdicts_on_run_hooks(rt: HostRuntime) -> Result<(), Fail> {
    expect_rows(&rt, rt.alloc(), &["audit"], RUN_HOOKS)
}

const PENDING: &str =
    "good sources=1 pickles=1 cases=1 attempts=1/ 0 = source document pickle run case:c1:t1 start:a1:c1:0 step:a1:t1 end:a1:t1:PENDING done:a1:false well
bad line 10: 21 SuccessDiffers/ 1 = source document pickle run case:c1:t1 start:a1:c1:0 step:a1:t1 end:a1:t1:PENDING done:a1:false unwell
bad line 10: 21 SuccessDiffers/ 1 = source document pickle run case:c1:t1 start:a1:c1:0 step:a1:t1 end:a1:t1:UNDEFINED done:a1:false well
good sources=1 pickles=1 cases=0 attempts=0 unrun=1/ 0 = source document pickle hook run hook_start hook_pending well
bad line 14: 21 SuccessDiffers/ 1 = source document pickle run case:c1:t1 start:a1:c1:0 step:a1:t1 end:a1:t1:PENDING done:a1:true start:a2:c1:1 step:a2:t1 end:a2:t1:FAILED done:a2:false well";

#[test]
fn verdicts_where_pending_passes(rt: HostRuntime) -> Result<(), Fail> {
    expect_rows(&rt, rt.alloc(), &["audit", "--pending-passes"], PENDING)
}

// `audit` and `results` say the same of these.
const LINES: &str = "bad line 1: 2 Shape/ 1 = array
bad line 1: 3 Field pickle.id/ 1 = empty_pickle
bad line 1: 1 NotJson/ 1 = brackets:200
bad line 1: 2 Shape/ 1 = brackets:100";

#[test]
fn lines_that_are_no_envelopes(rt: HostRuntime) -> Result<(), Fail> {
    expect_rows(&rt, rt.alloc(), &["audit"], LINES)?;
    expect_rows(&rt, rt.alloc(), &["results"], LINES)?;
    let told = "bad line 1: 1 NotJson\n";
    expect_told(&rt, rt.alloc(), "audit", Pieces::whole(b"\xff\n"), told, 1);
    Ok(())
}
