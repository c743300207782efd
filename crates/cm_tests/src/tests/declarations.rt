//! Declarations: the answers to what a stream declares, and to what it names.
use crate::tests::words::{cut, texts};
use cm_refs::{Declared, RefFault, StepIds, distinct_texts};
use seeds::fixed_seed;
use std::alloc::{AllocError, Global};
use std::process::Abort;
use std::test::Fail;

// A line with no kind gives `Memory`, which no table wants.
fn declare(declared: &mut Declared, kind: &str, name: &str) -> Result<(), RefFault> {
    match kind {
        "source" => declared.declare_source(name),
        "document" => declared.declare_document(name),
        "definition" => declared.declare_definition(name),
        "hook" => declared.declare_hook(name),
        "run_hook" => declared.start_run_hook(name),
        _ => Err(RefFault::Memory),
    }
}

fn has(declared: &Declared, kind: &str, name: &str) -> bool {
    match kind {
        "source" => declared.has_source(name),
        "document" => declared.has_document(name),
        "definition" => declared.has_definition(name),
        "run_hook" => declared.has_run_hook(name),
        _ => declared.has_hook(name),
    }
}

fn answer_name(answer: Result<(), RefFault>) -> &'static str {
    match answer {
        Ok(()) => "ok",
        Err(RefFault::DuplicateId) => "DuplicateId",
        Err(RefFault::DuplicateUri) => "DuplicateUri",
        Err(RefFault::UnknownRunHook) => "UnknownRunHook",
        Err(RefFault::RunHookTwice) => "RunHookTwice",
        Err(RefFault::Memory) => "Memory",
    }
}

// Each line: the answer that is wanted, a kind and a name.
const KINDS: &str = "ok hook h
DuplicateId hook h
ok source u
DuplicateUri source u
ok document u
DuplicateUri document u
ok definition d
DuplicateId definition d
ok run_hook r
DuplicateId run_hook r";

fn expect_declared(rt: &impl Abort, declared: &mut Declared, wanted: &str, kind: &str, name: &str) {
    let is_new = !has(declared, kind, name);
    assert!(rt; is_new == (wanted == "ok"));
    assert!(rt; answer_name(declare(declared, kind, name)) == wanted);
    assert!(rt; has(declared, kind, name));
}

fn expect_kinds(rt: &impl Abort, declared: &mut Declared, table: &str) {
    for told in table.lines() {
        let (wanted, rest) = cut(told);
        let (kind, name) = cut(rest);
        expect_declared(rt, declared, wanted, kind, name);
    }
}

#[test]
fn a_kind_has_each_name_once(rt: HostRuntime) {
    let seed = fixed_seed().expect(&rt, "a seed");
    let mut declared = Declared::new(rt.alloc(), seed);
    expect_kinds(&rt, &mut declared, KINDS);
    drop(declared);
}

fn expect_run_hook(rt: &impl Abort, declared: &mut Declared) {
    assert!(rt; declared.start_run_hook("r") == Ok(()));
    assert!(rt; declared.open_run_hooks() == 1);
    assert!(rt; declared.start_run_hook("r") == Err(RefFault::DuplicateId));
    assert!(rt; declared.finish_run_hook("x") == Err(RefFault::UnknownRunHook));
    assert!(rt; declared.finish_run_hook("r") == Ok(()));
    assert!(rt; declared.finish_run_hook("r") == Err(RefFault::RunHookTwice));
    assert!(rt; declared.open_run_hooks() == 0);
    assert!(rt; declared.has_run_hook("r"));
}

#[test]
fn a_run_hook_finishes_once(rt: HostRuntime) {
    let seed = fixed_seed().expect(&rt, "a seed");
    let mut declared = Declared::new(rt.alloc(), seed);
    expect_run_hook(&rt, &mut declared);
    drop(declared);
}

fn declare_pickle(
    declared: &mut Declared,
    alloc: Global,
    id: &str,
    steps: &str,
) -> Result<(), RefFault> {
    let steps = texts(alloc, steps)?;
    declared.declare_pickle(String::from_str(alloc, id)?, steps)
}

// The texts in order, with `+` between two of them.
fn joined(alloc: Global, ids: &StepIds) -> Result<String, AllocError> {
    let mut all = String::new(alloc);
    for place in 0..ids.len() {
        if place > 0 {
            all.push('+')?;
        }
        all.push_str(ids.get(place).unwrap_or("?"))?;
    }
    Ok(all)
}

// The texts are those that are listed, or `-` where there are none.
fn expect_texts(
    rt: &impl Abort,
    alloc: Global,
    found: Option<&StepIds>,
    told: &str,
) -> Result<(), AllocError> {
    match found {
        Some(ids) => assert!(rt; joined(alloc, ids)?.as_str() == told),
        None => assert!(rt; told == "-"),
    }
    Ok(())
}

// Each line: the answer that is wanted, the steps that are then known, a pickle and its steps.
const PICKLES: &str = "ok s p s
DuplicateId - q s s
DuplicateId s p t
ok b+a+c r b a c";

fn expect_pickles(
    rt: &impl Abort,
    declared: &mut Declared,
    alloc: Global,
    table: &str,
) -> Result<(), AllocError> {
    for told in table.lines() {
        let (wanted, rest) = cut(told);
        let (known, rest) = cut(rest);
        let (id, steps) = cut(rest);
        assert!(rt; answer_name(declare_pickle(declared, alloc, id, steps)) == wanted);
        expect_texts(rt, alloc, declared.pickle(id), known)?;
    }
    Ok(())
}

fn expect_steps(rt: &impl Abort, declared: &Declared) {
    assert!(rt; declared.has_step("p", "s"));
    assert!(rt; !declared.has_step("p", "t"));
    assert!(rt; !declared.has_step("q", "s"));
}

fn expect_distinct_steps(
    rt: &impl Abort,
    declared: &mut Declared,
    alloc: Global,
) -> Result<(), AllocError> {
    expect_pickles(rt, declared, alloc, PICKLES)?;
    expect_steps(rt, declared);
    Ok(())
}

#[test]
fn a_pickle_has_distinct_steps(rt: HostRuntime) -> Result<(), Fail> {
    let seed = fixed_seed().expect(&rt, "a seed");
    let mut declared = Declared::new(rt.alloc(), seed);
    let done = expect_distinct_steps(&rt, &mut declared, rt.alloc());
    drop(declared);
    Ok(done?)
}

// The set of the words, or `-` where two of them are equal.
fn expect_set(rt: &impl Abort, alloc: Global, words: &str, told: &str) -> Result<(), AllocError> {
    let seed = fixed_seed().expect(rt, "a seed");
    let words = texts(alloc, words)?;
    match distinct_texts(alloc, seed, words)? {
        Some(ids) => expect_texts(rt, alloc, Some(&ids), told),
        None => expect_texts(rt, alloc, None, told),
    }
}

#[test]
fn distinct_texts_keep_their_order(rt: HostRuntime) -> Result<(), Fail> {
    expect_set(&rt, rt.alloc(), "b a c", "b+a+c")?;
    expect_set(&rt, rt.alloc(), "b a b", "-")?;
    // One more than are looked through one after another.
    let many = "q p o n m l k j i h g f e d c b a";
    expect_set(&rt, rt.alloc(), many, "q+p+o+n+m+l+k+j+i+h+g+f+e+d+c+b+a")?;
    expect_set(&rt, rt.alloc(), "q p o n m l k j i h g f e d c b q", "-")?;
    Ok(())
}
