//! The lines that say why a stream isn't released.
use crate::tests::stream::whole_trail;
use cm_attempt::Policy;
use cm_reasons::{
    AddLine, CaseStep, Trail, add_hook_causes, add_limited, add_more, add_open_hooks, add_refused,
    add_refused_of, add_run_hook, retried_text, skipped_text, stepless_text, undefined_text,
    unrun_text,
};
use seeds::fixed_seed;
use std::alloc::{AllocError, Global};
use std::hash::RandomState;
use std::test::Fail;

/// Lines of scenarios and steps.
#[derive(Clone, Copy)]
enum Lines {
    Unrun,
    Retried,
    Skipped,
    Stepless,
    Undefined,
}

const STEP: CaseStep<'static> = CaseStep {
    case: "c1",
    step: "t1",
};

fn lines_in(
    alloc: Global,
    seed: RandomState,
    trail: &Trail,
    lines: Lines,
) -> Result<String, AllocError> {
    match lines {
        Lines::Unrun => unrun_text(alloc, seed, trail, &["p2"]),
        Lines::Retried => retried_text(alloc, seed, trail, &["p1", "p2"]),
        Lines::Skipped => skipped_text(alloc, seed, trail, &["c1"]),
        Lines::Stepless => stepless_text(alloc, seed, trail, &["c1"]),
        Lines::Undefined => undefined_text(alloc, seed, trail, &[STEP]),
    }
}

/// These lines of the whole stream.
fn lines_of(alloc: Global, lines: Lines) -> Result<String, Fail> {
    let seed = fixed_seed()?;
    let trail = whole_trail(alloc)?;
    let text = lines_in(alloc, seed, &trail, lines);
    drop(trail);
    Ok(text?)
}

fn are_lines(alloc: Global, lines: Lines, wanted: &str) -> Result<bool, Fail> {
    let text = lines_of(alloc, lines)?;
    Ok(text.as_str() == wanted)
}

#[test]
fn lines_of_pickles(rt: HostRuntime) -> Result<(), Fail> {
    let alloc = rt.alloc();
    assert!(rt; are_lines(alloc, Lines::Unrun, "UNRUN a.feature:4 two\n")?);
    let retried = "RETRIED a.feature:2 one\nRETRIED a.feature:4 two\n";
    assert!(rt; are_lines(alloc, Lines::Retried, retried)?);
    Ok(())
}

#[test]
fn lines_of_test_cases_and_of_a_step(rt: HostRuntime) -> Result<(), Fail> {
    let alloc = rt.alloc();
    assert!(rt; are_lines(alloc, Lines::Skipped, "SKIPPED a.feature:2 one\n")?);
    assert!(rt; are_lines(alloc, Lines::Stepless, "STEPLESS a.feature:2 one\n")?);
    let undefined = "UNDEFINED a.feature:2 one step a.feature:3 x\n";
    assert!(rt; are_lines(alloc, Lines::Undefined, undefined)?);
    Ok(())
}

/// Lines that are added to a text.
#[derive(Clone, Copy)]
enum Added<'a> {
    Refused,
    RefusedOf(&'a str),
    OpenHooks,
    RunHook(&'a str),
    HookCauses,
}

fn add(
    alloc: Global,
    seed: RandomState,
    text: &mut String,
    trail: &Trail,
    added: Added<'_>,
) -> Result<(), AllocError> {
    match added {
        Added::Refused => add_refused(alloc, text, trail),
        Added::RefusedOf(uri) => add_refused_of(alloc, text, trail, uri),
        Added::OpenHooks => add_open_hooks(alloc, seed, text, trail),
        Added::RunHook(id) => add_run_hook(text, trail, id),
        Added::HookCauses => add_hook_causes(alloc, seed, text, trail, Policy::Strict),
    }
}

fn added_in(
    alloc: Global,
    seed: RandomState,
    trail: &Trail,
    added: Added<'_>,
) -> Result<String, AllocError> {
    let mut text = String::new(alloc);
    add(alloc, seed, &mut text, trail, added)?;
    Ok(text)
}

/// What is added of the whole stream.
fn added_of(alloc: Global, added: Added<'_>) -> Result<String, Fail> {
    let seed = fixed_seed()?;
    let trail = whole_trail(alloc)?;
    let text = added_in(alloc, seed, &trail, added);
    drop(trail);
    Ok(text?)
}

fn is_added(alloc: Global, added: Added<'_>, wanted: &str) -> Result<bool, Fail> {
    let text = added_of(alloc, added)?;
    Ok(text.as_str() == wanted)
}

#[test]
fn lines_of_refused_sources(rt: HostRuntime) -> Result<(), Fail> {
    let alloc = rt.alloc();
    let line = "refused b.feature:1:1 1 Unexpected\n";
    assert!(rt; is_added(alloc, Added::Refused, line)?);
    assert!(rt; is_added(alloc, Added::RefusedOf("b.feature"), line)?);
    assert!(rt; is_added(alloc, Added::RefusedOf("a.feature"), "")?);
    Ok(())
}

#[test]
fn lines_of_run_hooks(rt: HostRuntime) -> Result<(), Fail> {
    let alloc = rt.alloc();
    assert!(rt; is_added(alloc, Added::OpenHooks, "hook late\n")?);
    assert!(rt; is_added(alloc, Added::RunHook("k1"), "hook early\n")?);
    assert!(rt; is_added(alloc, Added::RunHook("k9"), "")?);
    assert!(rt; is_added(alloc, Added::HookCauses, "RUNHOOK FAILED hook early\n")?);
    Ok(())
}

// Lines that are texts.
#[derive(Drop)]
struct TextLines;

impl<'a> AddLine<&'a str> for TextLines {
    ghost use Rattle.std.specs.Prelude.{⊤};

    ghost of = { λ _ _. ⊤ };

    ghost line = { λ _ _ text. text.now };

    fn add(&self, text: &mut String, item: &&'a str) -> Result<(), AllocError> {
        text.push_str(item)
    }
}

#[test]
fn a_hundred_lines_and_how_many_more(rt: HostRuntime) -> Result<(), Fail> {
    let mut text = String::new(rt.alloc());
    add_limited(&mut text, &TextLines, &["x"; 102])?;
    let lines = text.as_str();
    assert!(rt; lines.lines().count() == 101 && lines.lines().take(100).all(|line| line == "x"));
    assert!(rt; lines.ends_with("\nand 2 more\n"));
    Ok(())
}

#[test]
fn how_many_more(rt: HostRuntime) -> Result<(), Fail> {
    let mut more = String::new(rt.alloc());
    add_more(&mut more, 7)?;
    assert!(rt; more.as_str() == "and 7 more\n");
    Ok(())
}
