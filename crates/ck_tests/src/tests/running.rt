//! Runs over devices in memory.
use ck_commands::run;
use devices::{Pieces, Store};
use seeds::fixed_seed;
use std::alloc::Global;
use std::hash::RandomState;
use std::process::Abort;

/// What runs words over devices in memory, and gives the status.
pub(crate) trait Runner {
    fn run(&self, alloc: Global, words: &[&str], source: &mut Pieces<'_>, sink: &mut Store) -> u8;
}

/// Runs them where there are no files.
#[derive(Clone, Copy)]
pub(crate) struct WithoutFiles {
    pub(crate) seed: RandomState,
}

impl Runner for WithoutFiles {
    fn run(&self, alloc: Global, words: &[&str], source: &mut Pieces<'_>, sink: &mut Store) -> u8 {
        run(alloc, self.seed, words, source, sink)
    }
}

// A run by this runner ends with this status, and the sink has taken this text.
pub(crate) fn expect_run_by<R: Runner>(
    rt: &impl Abort,
    alloc: Global,
    runner: &R,
    words: &[&str],
    source: &mut Pieces<'_>,
    sink: &mut Store,
    text: &str,
    status: u8,
) {
    assert_eq!(rt; runner.run(alloc, words, source, sink), status);
    assert_eq!(rt; sink.bytes(), text.as_bytes());
}

// A run ends with this status, and the sink has taken this text.
pub(crate) fn expect_run(
    rt: &impl Abort,
    alloc: Global,
    words: &[&str],
    source: &mut Pieces<'_>,
    sink: &mut Store,
    text: &str,
    status: u8,
) {
    let seed = fixed_seed().expect(rt, "a seed");
    let runner = WithoutFiles { seed };
    expect_run_by(rt, alloc, &runner, words, source, sink, text, status);
}

pub(crate) fn expect_words(
    rt: &impl Abort,
    alloc: Global,
    words: &[&str],
    source: Pieces<'_>,
    text: &str,
    status: u8,
) {
    let mut source = source;
    let mut sink = Store::new(alloc, 7);
    expect_run(rt, alloc, words, &mut source, &mut sink, text, status);
}

pub(crate) fn expect_told(
    rt: &impl Abort,
    alloc: Global,
    word: &str,
    source: Pieces<'_>,
    text: &str,
    status: u8,
) {
    expect_words(rt, alloc, &[word], source, text, status);
}

pub(crate) fn expect_results(rt: &impl Abort, alloc: Global, bytes: &[u8], text: &str, status: u8) {
    expect_told(rt, alloc, "results", Pieces::whole(bytes), text, status);
}
