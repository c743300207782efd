//! Streams that declare hooks and step definitions again, as a producer does that emits its hooks for every scenario.
use crate::tests::lines::expect_rows;
use std::alloc::Global;
use std::process::Abort;
use std::test::Fail;

// A hook and a definition come again before the run, beside a step, and at the end. What else is in such a line isn't read.
const AGAIN: &str =
    "source document pickle hook definition run hook hooked_case definition start:a1:c1:0 step:a1:h1 hook_with_more end:a1:h1:PASSED step:a1:t1 definition end:a1:t1:PASSED done:a1:false hook well";

// What a command prints of it.
fn expect_again(rt: &impl Abort, alloc: Global, words: &[&str], told: &str) -> Result<(), Fail> {
    let row = format!(in alloc; "{told} = {AGAIN}")?;
    expect_rows(rt, alloc, words, row.as_str())
}

#[test]
fn not_without_the_option(rt: HostRuntime) -> Result<(), Fail> {
    let alloc = rt.alloc();
    for command in ["audit", "cases"] {
        expect_again(&rt, alloc, &[command], "bad line 7: 4 DuplicateId/ 1")?;
    }
    expect_again(&rt, alloc, &["gate"], "bad line 7: 4 DuplicateId/id h/ 1")
}

#[test]
fn passed_over_by_each_command(rt: HostRuntime) -> Result<(), Fail> {
    let alloc = rt.alloc();
    let good = "good sources=1 pickles=1 cases=1 attempts=1/";
    let audit = format!(in alloc; "{good} 0")?;
    let words = ["audit", "--allow-redeclared"];
    expect_again(&rt, alloc, &words, audit.as_str())?;
    let gate = format!(in alloc; "{good}release retried=0 skipped=0 unrun=0/ 0")?;
    let words = ["gate", "--allow-redeclared"];
    expect_again(&rt, alloc, &words, gate.as_str())?;
    let words = ["gate", "--strict", "--allow-redeclared"];
    expect_again(&rt, alloc, &words, gate.as_str())?;
    let words = ["cases", "--allow-redeclared"];
    expect_again(&rt, alloc, &words, "PASSED a.feature:3 s/ 0")
}

// What the option doesn't allow. A hook and a definition of one id are of two kinds, so neither is declared again.
const STILL: &str =
    "good sources=1 pickles=1 cases=1 attempts=1/ 0 = source document pickle definition hook_named_d run case_hooked_by_d start:a1:c1:0 step:a1:h1 end:a1:h1:PASSED step:a1:t1 end:a1:t1:PASSED done:a1:false well
bad line 6: 6 UnknownReference/ 1 = source document pickle definition run case_hooked_by_d start:a1:c1:0 well
bad line 6: 6 UnknownReference/ 1 = source document pickle hook run hooked_case start:a1:c1:0 well
bad line 6: 4 DuplicateId/ 1 = source document pickle run case:c1:t1 case:c1:t1 well
bad line 7: 4 DuplicateId/ 1 = source document pickle run case:c1:t1 start:a1:c1:0 start:a1:c1:1 well
bad line 7: 4 DuplicateId/ 1 = source document pickle hook run hook_start hook_start well
bad line 4: 9 PickleDiffers/ 1 = source document pickle pickle well
bad line 2: 5 DuplicateUri/ 1 = source source well
bad line 5: 3 Field hook.id/ 1 = source document pickle hook hook_without_id well
bad line 5: 3 Field stepDefinition.id/ 1 = source document pickle definition definition_without_id well
bad line 7: 18 AfterRunFinished/ 1 = source document pickle hook run well hook
bad line 7: 18 AfterRunFinished/ 1 = source document pickle definition run well definition";

#[test]
fn what_may_not_come_again(rt: HostRuntime) -> Result<(), Fail> {
    let alloc = rt.alloc();
    expect_rows(&rt, alloc, &["audit", "--allow-redeclared"], STILL)
}
