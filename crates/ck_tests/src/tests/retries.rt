//! Results of streams of attempts, and their faults, which `audit` reports too.
use crate::tests::lines::{expect_rows, stream_of};
use crate::tests::running::expect_results;
use std::alloc::Global;
use std::process::Abort;
use std::test::Fail;

const TABLES: &str =
    "c1 PASSED/c2 SKIPPED/ 0 = case:c1:t1 case:c2:t1 start:a1:c1:0 start:b1:c2:0 step:a1:t1 step:b1:t1 end:a1:t1:PASSED end:b1:t1:SKIPPED done:b1:false done:a1:false
c1 PASSED/ 0 = source document pickle run case:c1:t1 start:a1:c1:0 step:a1:t1 end:a1:t1:FAILED done:a1:true start:a2:c1:1 step:a2:t1 end:a2:t1:PASSED done:a2:false well
c1 FAILED/ 0 = source document pickle run case:c1:t1 start:a1:c1:0 step:a1:t1 end:a1:t1:PENDING done:a1:true start:a2:c1:1 step:a2:t1 end:a2:t1:FAILED done:a2:false well
c1 FAILED/ 0 = source document pickle run case:c1:t1 start:a1:c1:0 step:a1:t1 end:a1:t1:PENDING done:a1:true start:a2:c1:1 step:a2:t1 end:a2:t1:FAILED done:a2:false unwell
c1 UNKNOWN/ 0 = source document pickle run case:c1:t1 start:a1:c1:0 step:a1:t1 end:a1:t1:FAILED done:a1:true start:a2:c1:1 step:a2:t1 end:a2:t1:UNKNOWN done:a2:false well
c1 NONE/ 0 = case:c1:t1 start:a1:c1:0 step:a1:t1 end:a1:t1:PASSED done:a1:true
c1 NONE/ 0 = case:c1:t1 start:a1:c1:0 step:a1:t1 end:a1:t1:PASSED
c1 NONE/ 0 = case:c1:t1 hook_start hook_passed hook_passed";

#[test]
fn tables_of_retried_and_interleaved_attempts(rt: HostRuntime) -> Result<(), Fail> {
    expect_rows(&rt, rt.alloc(), &["results"], TABLES)
}

const FAULTS: &str =
    "bad line 10: 12 AttemptNumber/ 1 = source document pickle run case:c1:t1 start:a1:c1:0 step:a1:t1 end:a1:t1:FAILED done:a1:true start:a2:c1:2 step:a2:t1 end:a2:t1:PASSED done:a2:false well
bad line 7: 13 AttemptOverlap/ 1 = source document pickle run case:c1:t1 start:a1:c1:0 start:a2:c1:1 step:a1:t1 end:a1:t1:FAILED done:a1:true start:a2:c1:1 step:a2:t1 end:a2:t1:PASSED done:a2:false well
bad line 14: 13 AttemptOverlap/ 1 = source document pickle run case:c1:t1 start:a1:c1:0 step:a1:t1 end:a1:t1:FAILED done:a1:true start:a2:c1:1 step:a2:t1 end:a2:t1:PASSED done:a2:false start:a3:c1:2
bad line 14: 13 AttemptOverlap/ 1 = source document pickle run case:c1:t1 start:a1:c1:0 step:a1:t1 end:a1:t1:FAILED done:a1:true start:a2:c1:1 step:a2:t1 end:a2:t1:PASSED done:a2:false start:a3:c1:2 well
bad line 7: 14 StepOrder/ 1 = source document pickle run case:c1:t1 start:a1:c1:0 end:a1:t1:FAILED done:a1:true start:a2:c1:1 step:a2:t1 end:a2:t1:PASSED done:a2:false well
bad line 9: 14 StepOrder/ 1 = source document pickle run case:c1:t1 start:a1:c1:0 step:a1:t1 end:a1:t1:FAILED end:a1:t1:FAILED done:a1:true start:a2:c1:1 step:a2:t1 end:a2:t1:PASSED done:a2:false well
bad line 8: 14 StepOrder/ 1 = source document pickle run case:c1:t1 start:a1:c1:0 step:a1:t1 step:a1:t1
bad line 7: 15 FinishedEarly/ 1 = source document pickle run case:c1:t1 start:a1:c1:0 done:a1:false end:a1:t1:FAILED done:a1:true start:a2:c1:1 step:a2:t1 end:a2:t1:PASSED done:a2:false well
bad line 7: 15 FinishedEarly/ 1 = source document pickle run case:c1:t1 start:a1:c1:0 done:a1:false step:a1:t1 end:a1:t1:FAILED done:a1:true start:a2:c1:1 step:a2:t1 end:a2:t1:PASSED done:a2:false well
bad line 7: 6 UnknownReference/ 1 = source document pickle run case:c1:t1 start:a1:c1:0 step:a1:t9 end:a1:t1:FAILED done:a1:true start:a2:c1:1 step:a2:t1 end:a2:t1:PASSED done:a2:false well
bad line 6: 3 Field testCaseStarted.attempt/ 1 = source document pickle run case:c1:t1 start:a1:c1:-1 step:a1:t1 end:a1:t1:FAILED done:a1:true start:a2:c1:1 step:a2:t1 end:a2:t1:PASSED done:a2:false well
bad line 6: 3 Field testCaseStarted.attempt/ 1 = source document pickle run case:c1:t1 start:a1:c1:\"0\" step:a1:t1 end:a1:t1:FAILED done:a1:true start:a2:c1:1 step:a2:t1 end:a2:t1:PASSED done:a2:false well
bad line 6: 12 AttemptNumber/ 1 = source document pickle run case:c1:t1 start:a1:c1:18446744073709551615 step:a1:t1 end:a1:t1:FAILED done:a1:true start:a2:c1:1 step:a2:t1 end:a2:t1:PASSED done:a2:false well";

#[test]
fn attempts_that_come_otherwise(rt: HostRuntime) -> Result<(), Fail> {
    expect_rows(&rt, rt.alloc(), &["audit"], FAULTS)?;
    expect_rows(&rt, rt.alloc(), &["results"], FAULTS)
}

const STATUSES: &str = "UNKNOWN PASSED SKIPPED PENDING UNDEFINED AMBIGUOUS FAILED";

// The stream of an attempt whose two steps end with these statuses.
fn stream_of_two(alloc: Global, first: &str, second: &str) -> Result<String, Fail> {
    let words = format!(in alloc;
        "case:c1:t+u start:a:c1:0 step:a:t end:a:t:{first} step:a:u end:a:u:{second} done:a:false"
    )?;
    stream_of(alloc, words.as_str())
}

// An attempt whose two steps end with these statuses is reported by the worse of them.
fn expect_worse(
    rt: &impl Abort,
    alloc: Global,
    statuses: (&str, &str),
    worse: &str,
) -> Result<(), Fail> {
    let stream = stream_of_two(alloc, statuses.0, statuses.1)?;
    let table = format!(in alloc; "c1 {worse}\n")?;
    expect_results(rt, alloc, stream.as_bytes(), table.as_str(), 0);
    Ok(())
}

// The least bad first: of two statuses the later one in this order is reported.
#[test]
fn statuses_in_every_order(rt: HostRuntime) -> Result<(), Fail> {
    let alloc = rt.alloc();
    for (place, better) in STATUSES.split(' ').enumerate() {
        for worse in STATUSES.split(' ').skip(place) {
            expect_worse(&rt, alloc, (better, worse), worse)?;
            expect_worse(&rt, alloc, (worse, better), worse)?;
        }
    }
    Ok(())
}
