//! Help, and mistakes in the words.
use crate::tests::running::expect_run;
use ck_commands::run;
use devices::{Pieces, Store};
use seeds::fixed_seed;
use std::alloc::Global;
use std::process::Abort;
use std::test::Fail;

// The status, the words, and what the text has for the user.
const TEXTS: &str = "0 --help = Usage: parse compile audit gate results cases
0 help = Usage: parse compile audit gate results cases
0 -h = Usage: parse compile audit gate results cases
0 parse --help = Usage: parse
0 compile --help = Usage: compile --uri
0 audit --help = Usage: audit --pending-passes --attempts-from
0 gate --help = Usage: gate --features --allow-unrun --allow-unrun-tagged --strict --no-retries --no-skips --no-stepless --no-undefined --pending-passes --attempts-from stop release
0 help gate = Usage: gate --allow-unrun --pending-passes --attempts-from stop
0 results -h = Usage: results --attempts-from
0 cases --help = Usage: cases --json --pending-passes --attempts-from UNRUN
2 = Usage: parse compile audit gate results cases
2 help x = Usage:
2 parse x = Usage: parse
2 parse --attempts-from 1 = Usage: parse
2 compile = Usage: compile --uri
2 compile --uri = --uri
2 compile --uri -x = Usage: compile --uri
2 compile --uri u --uri v = Usage: compile --uri
2 compile --uri u --attempts-from 1 = Usage: compile --uri
2 audit x = Usage: audit
2 audit --pending-passes --pending-passes = Usage: audit --pending-passes
2 audit --allow-unrun = Usage: audit
2 audit --version = Usage: audit
2 gate - - = Usage: gate
2 gate -strict = Usage: gate
2 gate -x = Usage: gate
2 gate --features = required --features
2 gate --features f --allow-unrun = --allow-unrun --features
2 gate --allow-unrun --features=f = --allow-unrun --features
2 gate --features f - - = Usage: gate
2 audit --features f = Usage: audit
2 gate --uri u = Usage: gate
2 gate --allow-unrun --allow-unrun = Usage: gate --allow-unrun
2 gate --allow-unrun=true = Usage: gate
2 gate --strict --strict = Usage: gate --strict
2 gate --no-retries --no-retries = Usage: gate --no-retries
2 gate --no-skips=true = Usage: gate
2 gate --allow-unrun-tagged = required --allow-unrun-tagged
2 gate --allow-unrun-tagged wip = --allow-unrun-tagged @
2 gate --allow-unrun --allow-unrun-tagged @wip = --allow-unrun --allow-unrun-tagged
2 gate --allow-unrun-tagged @wip --allow-unrun = --allow-unrun --allow-unrun-tagged
2 audit --strict = Usage: audit
2 cases --no-skips = Usage: cases
2 results --allow-unrun-tagged @wip = Usage: results
2 gate -V = Usage: gate
2 --allow-unrun gate = Usage:
2 --attempts-from 1 audit = Usage:
2 results x = Usage: results
2 cases x = Usage: cases
2 cases --allow-unrun = Usage: cases
2 cases --json --json = Usage: cases --json
2 cases --json=true = Usage: cases
2 cases --json x = Usage: cases
2 gate --json = Usage: gate
2 audit --json = Usage: audit
2 --json cases = Usage:
2 differs = error: Usage:
2 differs --help = error: Usage:
2 help differs = Usage:
2 results --json = Usage: results
2 parse --json = Usage: parse
2 compile --json --uri u = Usage: compile
2 results --pending-passes = Usage: results --pending-passes
2 results --allow-unrun = Usage: results";

// What comes after a command that takes `--attempts-from`, where that is a mistake.
const WRONG_ATTEMPTS: &str = "--attempts-from 2
--attempts-from -1
--attempts-from 01
--attempts-from +1
--attempts-from x
--attempts-from 18446744073709551616
--attempts-from=
--attempts-from
--attempts-from 1 --attempts-from 1
--attempts-from=0 --attempts-from 1";

// The text has each of the wanted words.
fn expect_parts(rt: &impl Abort, bytes: &[u8], wanted: &str) -> Result<(), Fail> {
    let text = std::str::from_utf8(bytes)?;
    for word in wanted.split(' ') {
        assert!(rt; text.contains(word), "{word} in {text}");
    }
    Ok(())
}

// Nothing is read, and the text that is printed has each of the wanted words.
fn expect_text(
    rt: &impl Abort,
    alloc: Global,
    words: &[&str],
    status: u8,
    wanted: &str,
) -> Result<(), Fail> {
    let seed = fixed_seed().expect(rt, "a seed");
    let mut source = Pieces::whole(b"[]");
    let mut sink = Store::new(alloc, 7);
    assert_eq!(rt; run(alloc, seed, words, &mut source, &mut sink), status);
    assert_eq!(rt; source.reads(), 0);
    expect_parts(rt, sink.bytes(), wanted)
}

// A row has the status, the words that are given, ` = ` and the words that are wanted.
fn expect_told_row(rt: &impl Abort, alloc: Global, row: &str) -> Result<(), Fail> {
    let (given, wanted) = row.split_once(" = ").ok_or("no text")?;
    let (status, words) = given.split_once(' ').unwrap_or((given, ""));
    let status: u8 = status.parse().map_err(|_| "no status")?;
    let words: Vec<&str> = words.split_whitespace().collect(alloc)?;
    expect_text(rt, alloc, words.as_slice(), status, wanted)
}

#[test]
fn texts_that_ask_for_other_words(rt: HostRuntime) -> Result<(), Fail> {
    for row in TEXTS.lines() {
        expect_told_row(&rt, rt.alloc(), row)?;
    }
    Ok(())
}

fn expect_wrong(rt: &impl Abort, alloc: Global, command: &str, row: &str) -> Result<(), Fail> {
    let mut words: Vec<&str> = row.split_whitespace().collect(alloc)?;
    words.insert(0, command)?;
    expect_text(rt, alloc, words.as_slice(), 2, "error:")
}

fn expect_all_wrong(rt: &impl Abort, alloc: Global, command: &str) -> Result<(), Fail> {
    for row in WRONG_ATTEMPTS.lines() {
        expect_wrong(rt, alloc, command, row)?;
    }
    let words = [command, "--attempts-from", ""];
    expect_text(rt, alloc, &words, 2, "error:")
}

#[test]
fn first_numbers_that_are_neither_0_nor_1(rt: HostRuntime) -> Result<(), Fail> {
    for command in ["audit", "gate", "results", "cases"] {
        expect_all_wrong(&rt, rt.alloc(), command)?;
    }
    Ok(())
}

#[test]
fn the_version(rt: HostRuntime) {
    for word in ["--version", "-V"] {
        let mut source = Pieces::whole(b"[]");
        let mut sink = Store::new(rt.alloc(), 7);
        let told = "cukecheck 0.1.0\n";
        expect_run(&rt, rt.alloc(), &[word], &mut source, &mut sink, told, 0);
        assert_eq!(rt; source.reads(), 0);
    }
}
