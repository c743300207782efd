//! Declarations in want of memory.
use crate::tests::owned_texts::texts;
use cm_refs::{Declared, RefFault};
use scarce::{Shortage, check};
use seeds::fixed_seed;
use std::alloc::Global;
use std::test::Fail;

#[derive(Clone, Copy, PartialEq, Eq)]
enum Kind {
    Source,
    Document,
    Definition,
    Hook,
    RunHook,
}

const KINDS: [Kind; 5] = [
    Kind::Source,
    Kind::Document,
    Kind::Definition,
    Kind::Hook,
    Kind::RunHook,
];

// What the call that is met declares. It is too long to lie in a map itself.
const NEW: &str = "an id of more than thirty-six bytes, in a piece of memory";

// What is declared before the call, and what it declares.
const NAMES: [&str; 10] = ["a", "b", "c", "d", "e", "f", "g", "h", "i", NEW];

fn declare(declared: &mut Declared, kind: Kind, name: &str) -> Result<(), RefFault> {
    match kind {
        Kind::Source => declared.declare_source(name),
        Kind::Document => declared.declare_document(name),
        Kind::Definition => declared.declare_definition(name),
        Kind::Hook => declared.declare_hook(name),
        Kind::RunHook => declared.start_run_hook(name),
    }
}

fn has(declared: &Declared, kind: Kind, name: &str) -> bool {
    match kind {
        Kind::Source => declared.has_source(name),
        Kind::Document => declared.has_document(name),
        Kind::Definition => declared.has_definition(name),
        Kind::Hook => declared.has_hook(name),
        Kind::RunHook => declared.has_run_hook(name),
    }
}

fn taken(kind: Kind) -> RefFault {
    match kind {
        Kind::Source | Kind::Document => RefFault::DuplicateUri,
        Kind::Definition | Kind::Hook | Kind::RunHook => RefFault::DuplicateId,
    }
}

// The answers of all look-ups, each a bit: for each kind and name, and for each pickle.
#[derive(Clone, Copy, PartialEq, Eq)]
struct LookUps {
    names: u64,
    pickles: u64,
    open_run_hooks: u64,
}

fn with_bit(bits: u64, bit: bool) -> u64 {
    (bits << 1) | (bit as u64)
}

// A pickle is known by its one step, which has the pickle's own id.
fn has_pickle(declared: &Declared, id: &str) -> bool {
    match declared.pickle(id) {
        Some(steps) => steps.len() == 1 && steps.get(0) == Some(id) && declared.has_step(id, id),
        None => false,
    }
}

fn look_ups(declared: &Declared) -> LookUps {
    let (mut names, mut pickles) = (0, 0);
    for name in NAMES {
        for kind in KINDS {
            names = with_bit(names, has(declared, kind, name));
        }
        pickles = with_bit(pickles, has_pickle(declared, name));
    }
    LookUps {
        names,
        pickles,
        open_run_hooks: declared.open_run_hooks(),
    }
}

// Declares the name for each kind.
fn declare_kinds(declared: &mut Declared, name: &str) -> Result<(), RefFault> {
    for kind in KINDS {
        declare(declared, kind, name)?;
    }
    Ok(())
}

// Declares a pickle whose one step has the pickle's own id.
fn declare_pickle(declared: &mut Declared, alloc: Global, name: &str) -> Result<(), Fail> {
    let id = String::from_str(alloc, name)?;
    let steps = texts(alloc, &[name])?;
    declared.declare_pickle(id, steps)?;
    Ok(())
}

// Declares the first names for each kind, and as pickles.
fn declare_names(declared: &mut Declared, alloc: Global, count: usize) -> Result<(), Fail> {
    for name in NAMES.iter().take(count) {
        declare_kinds(declared, name)?;
        declare_pickle(declared, alloc, name)?;
    }
    Ok(())
}

// What came of a call that was met: its answer, and the look-ups before and after it.
#[derive(Clone, Copy)]
struct Met {
    answer: Result<(), RefFault>,
    before: LookUps,
    after: LookUps,
}

// Whether the call was refused memory. Each look-up answers as before where the declaration isn't taken, and only there.
fn is_refused(met: Met, wanted: Result<(), RefFault>) -> Result<bool, Fail> {
    let is_refused = met.answer == Err(RefFault::Memory);
    check(is_refused || met.answer == wanted, "another fault")?;
    check(
        met.answer.is_err() == (met.after == met.before),
        "a look-up is wrong",
    )?;
    Ok(is_refused)
}

// Declares a new name with this room.
fn name_with_room(
    declared: &mut Declared,
    alloc: Global,
    shortage: &mut Shortage,
    room: usize,
    kind: Kind,
) -> Result<Met, Fail> {
    let before = look_ups(declared);
    shortage.leave(alloc, room)?;
    let answer = declare(declared, kind, NEW);
    let after = look_ups(declared);
    shortage.relax(alloc);
    Ok(Met {
        answer,
        before,
        after,
    })
}

// Declares a new name with ever more room, until it is declared.
fn meet_name(
    declared: &mut Declared,
    alloc: Global,
    shortage: &mut Shortage,
    kind: Kind,
) -> Result<(), Fail> {
    let first = name_with_room(declared, alloc, shortage, 0, kind)?;
    check(is_refused(first, Ok(()))?, "never refused")?;
    for step in 1..512usize {
        let met = name_with_room(declared, alloc, shortage, 16 * step, kind)?;
        if !is_refused(met, Ok(()))? {
            check(has(declared, kind, NEW), "the name is lost")?;
            return check(
                declare(declared, kind, NEW) == Err(taken(kind)),
                "declared twice",
            );
        }
    }
    check(false, "never answered")
}

// Declares a new name for each kind, with as many names declared before.
fn meet_kinds(
    declared: &mut Declared,
    alloc: Global,
    shortage: &mut Shortage,
    count: usize,
) -> Result<(), Fail> {
    declare_names(declared, alloc, count)?;
    for kind in KINDS {
        meet_name(declared, alloc, shortage, kind)?;
    }
    Ok(())
}

fn meet_names(alloc: Global, shortage: &mut Shortage, count: usize) -> Result<(), Fail> {
    let seed = fixed_seed()?;
    let mut declared = Declared::new(alloc, seed);
    let met = meet_kinds(&mut declared, alloc, shortage, count);
    drop(declared);
    met
}

#[test]
fn new_names(rt: HostRuntime) -> Result<(), Fail> {
    let alloc = rt.alloc();
    let mut shortage = Shortage::new(alloc)?;
    for count in 0..9usize {
        meet_names(alloc, &mut shortage, count)?;
    }
    drop(shortage);
    Ok(())
}

// Declares a pickle of these steps with this room, beside its id and its steps.
fn pickle_with_room(
    declared: &mut Declared,
    alloc: Global,
    shortage: &mut Shortage,
    room: usize,
    steps: &[&str],
) -> Result<Met, Fail> {
    let before = look_ups(declared);
    let id = String::from_str(alloc, NEW)?;
    let steps = texts(alloc, steps)?;
    shortage.leave(alloc, room)?;
    let answer = declared.declare_pickle(id, steps);
    let after = look_ups(declared);
    shortage.relax(alloc);
    Ok(Met {
        answer,
        before,
        after,
    })
}

// Declares a pickle with ever more room, until it gives this answer.
fn meet_pickle(
    declared: &mut Declared,
    alloc: Global,
    shortage: &mut Shortage,
    steps: &[&str],
    wanted: Result<(), RefFault>,
) -> Result<(), Fail> {
    let first = pickle_with_room(declared, alloc, shortage, 0, steps)?;
    check(is_refused(first, wanted)?, "never refused")?;
    for step in 1..512usize {
        let met = pickle_with_room(declared, alloc, shortage, 16 * step, steps)?;
        if !is_refused(met, wanted)? {
            return Ok(());
        }
    }
    check(false, "never answered")
}

// A pickle with equal steps.
fn meet_equal_steps(
    declared: &mut Declared,
    alloc: Global,
    shortage: &mut Shortage,
) -> Result<(), Fail> {
    let fault = Err(RefFault::DuplicateId);
    meet_pickle(declared, alloc, shortage, &["s", "s"], fault)
}

// A pickle, which is then there.
fn meet_new_pickle(
    declared: &mut Declared,
    alloc: Global,
    shortage: &mut Shortage,
) -> Result<(), Fail> {
    meet_pickle(declared, alloc, shortage, &[NEW], Ok(()))?;
    let again = declared.declare_pickle(String::from_str(alloc, NEW)?, texts(alloc, &[NEW])?);
    check(again == Err(RefFault::DuplicateId), "declared twice")
}

// Declares pickles, with as many names declared before.
fn meet_both(
    declared: &mut Declared,
    alloc: Global,
    shortage: &mut Shortage,
    count: usize,
) -> Result<(), Fail> {
    declare_names(declared, alloc, count)?;
    meet_equal_steps(declared, alloc, shortage)?;
    meet_new_pickle(declared, alloc, shortage)
}

fn meet_pickles(alloc: Global, shortage: &mut Shortage, count: usize) -> Result<(), Fail> {
    let seed = fixed_seed()?;
    let mut declared = Declared::new(alloc, seed);
    let met = meet_both(&mut declared, alloc, shortage, count);
    drop(declared);
    met
}

#[test]
fn new_pickles(rt: HostRuntime) -> Result<(), Fail> {
    let alloc = rt.alloc();
    let mut shortage = Shortage::new(alloc)?;
    for count in 0..9usize {
        meet_pickles(alloc, &mut shortage, count)?;
    }
    drop(shortage);
    Ok(())
}

// What is declared already is reported without memory.
fn names_are_taken(declared: &mut Declared) -> bool {
    for kind in KINDS {
        if declare(declared, kind, "a") != Err(taken(kind)) {
            return false;
        }
    }
    true
}

const ENDS: [(&str, Result<(), RefFault>); 3] = [
    ("x", Err(RefFault::UnknownRunHook)),
    ("a", Ok(())),
    ("a", Err(RefFault::RunHookTwice)),
];

// A run hook finishes once, and without memory.
fn run_hooks_finish(declared: &mut Declared) -> bool {
    for (id, wanted) in ENDS {
        if declared.finish_run_hook(id) != wanted {
            return false;
        }
    }
    declared.open_run_hooks() == 0
}

// What is answered with no room.
#[derive(Clone, Copy)]
struct Answers {
    are_taken: bool,
    are_finished: bool,
    hook: Result<(), RefFault>,
    pickle: Result<(), RefFault>,
}

fn answers_without_room(
    declared: &mut Declared,
    alloc: Global,
    shortage: &mut Shortage,
) -> Result<Answers, Fail> {
    let id = String::from_str(alloc, "a")?;
    let steps = texts(alloc, &["s"])?;
    shortage.leave(alloc, 0)?;
    // The pickle comes last, since its id and its steps leave room.
    let answers = Answers {
        are_taken: names_are_taken(declared),
        are_finished: run_hooks_finish(declared),
        hook: declare(declared, Kind::Hook, NEW),
        pickle: declared.declare_pickle(id, steps),
    };
    shortage.relax(alloc);
    Ok(answers)
}

fn check_answers(answers: Answers) -> Result<(), Fail> {
    check(answers.are_taken, "a name is declared twice")?;
    check(
        answers.pickle == Err(RefFault::DuplicateId),
        "a pickle is declared twice",
    )?;
    check(answers.are_finished, "a run hook isn't finished once")?;
    check(answers.hook == Err(RefFault::Memory), "memory was there")
}

fn meet_without_room(declared: &mut Declared, alloc: Global) -> Result<Answers, Fail> {
    declare_names(declared, alloc, 1)?;
    let mut shortage = Shortage::new(alloc)?;
    let answers = answers_without_room(declared, alloc, &mut shortage);
    drop(shortage);
    answers
}

#[test]
fn refusals_without_room(rt: HostRuntime) -> Result<(), Fail> {
    let seed = fixed_seed().expect(&rt, "a seed");
    let alloc = rt.alloc();
    let mut declared = Declared::new(alloc, seed);
    let answers = meet_without_room(&mut declared, alloc);
    drop(declared);
    check_answers(answers?)
}
