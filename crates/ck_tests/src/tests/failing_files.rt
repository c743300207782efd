//! The gate over files of which a read fails, and over sound ones whose report can't be written.
use crate::tests::compiled::TEXT;
use crate::tests::failures::{Case, expect_failures};
use crate::tests::lines::stream_of;
use crate::tests::memory_files::{A_RUN, B_RUN};
use crate::tests::running::{Runner, expect_run_by};
use ck_commands::run_with;
use cm_envelope::{ByteSource, DeviceFailed};
use devices::{Failing, Pieces, Store};
use files::{Look, OpenedFiles, Opener};
use seeds::fixed_seed;
use std::alloc::{AllocError, Global};
use std::cell::Cell;
use std::hash::RandomState;
use std::io;
use std::process::Abort;
use std::test::Fail;

// The most bytes of a read.
const READ: usize = 40;

/// What is asked of files: how often one is opened, and the reads of broken ones and of sound ones.
#[derive(Drop)]
struct Counts {
    openings: Cell<u64>,
    broken_reads: Cell<u64>,
    sound_reads: Cell<u64>,
}

impl Counts {
    fn none() -> Counts {
        Counts {
            openings: Cell::new(0),
            broken_reads: Cell::new(0),
            sound_reads: Cell::new(0),
        }
    }
}

fn count_one(count: &Cell<u64>) {
    count.set(count.get().saturating_add(1));
}

/// A file in memory. A read after one that fails gives what that one would have given.
#[derive(Drop)]
struct CountedFile<'a> {
    pieces: Pieces<'a>,
    reads: &'a Cell<u64>,
}

impl io::Read for CountedFile<'_> {
    fn read(&mut self, piece: &mut [u8]) -> io::Result<usize> {
        count_one(self.reads);
        match self.pieces.read_some(piece) {
            Ok(count) => Ok(count),
            Err(DeviceFailed) => Err(io::Error::from(io::ErrorKind::Interrupted)),
        }
    }
}

/// Runs and a feature file in memory. Those whose names begin with `broken` have the same bytes, but these reads of each fail.
#[derive(Clone, Copy, Drop)]
struct BrokenFiles<'a> {
    a_run: &'a [u8],
    b_run: &'a [u8],
    failing_reads: Failing,
    counts: &'a Counts,
    seed: RandomState,
}

impl<'a> BrokenFiles<'a> {
    fn sound(&self, bytes: &'a [u8]) -> CountedFile<'a> {
        let counts = self.counts;
        CountedFile {
            pieces: Pieces::new(bytes, READ),
            reads: &counts.sound_reads,
        }
    }

    fn broken(&self, bytes: &'a [u8], most: usize) -> CountedFile<'a> {
        let counts = self.counts;
        CountedFile {
            pieces: Pieces::new(bytes, most).failing_reads(self.failing_reads),
            reads: &counts.broken_reads,
        }
    }
}

impl<'a> Opener for BrokenFiles<'a> {
    type File = CountedFile<'a>;

    fn open_file(&self, name: &str) -> Option<CountedFile<'a>> {
        count_one(&self.counts.openings);
        match name {
            "a" => Some(self.sound(self.a_run)),
            "b" => Some(self.sound(self.b_run)),
            "a.feature" => Some(self.sound(TEXT.as_bytes())),
            "broken" => Some(self.broken(self.a_run, READ)),
            "broken.feature" => Some(self.broken(TEXT.as_bytes(), 5)),
            _ => None,
        }
    }

    fn look_at(&self, _alloc: Global, _path: &str) -> Result<Look, AllocError> {
        Ok(Look::File)
    }
}

impl Runner for BrokenFiles<'_> {
    fn run(&self, alloc: Global, words: &[&str], source: &mut Pieces<'_>, sink: &mut Store) -> u8 {
        let mut files = OpenedFiles::new(alloc, *self);
        run_with(alloc, self.seed, words, &mut files, source, sink)
    }
}

/// What was asked of files.
#[derive(Clone, Copy, PartialEq, Eq, Debug)]
struct Seen {
    openings: u64,
    broken_reads: u64,
    sound_reads: u64,
}

impl Seen {
    fn of(counts: &Counts) -> Seen {
        Seen {
            openings: counts.openings.get(),
            broken_reads: counts.broken_reads.get(),
            sound_reads: counts.sound_reads.get(),
        }
    }
}

// The gate of these words prints this text where these reads of a broken file fail, and leaves standard input alone. Gives what
// was asked of the files.
fn seen_of(
    rt: &impl Abort,
    alloc: Global,
    words: &[&str],
    failing_reads: Failing,
    text: &str,
    status: u8,
) -> Result<Seen, Fail> {
    let a_run = stream_of(alloc, A_RUN)?;
    let counts = Counts::none();
    let files = BrokenFiles {
        a_run: a_run.as_bytes(),
        b_run: b"",
        failing_reads,
        counts: &counts,
        seed: fixed_seed().expect(rt, "a seed"),
    };
    let mut source = Pieces::whole(b"");
    let mut sink = Store::new(alloc, 7);
    expect_run_by(
        rt,
        alloc,
        &files,
        words,
        &mut source,
        &mut sink,
        text,
        status,
    );
    assert_eq!(rt; source.reads(), 0);
    Ok(Seen::of(&counts))
}

#[test]
fn a_failed_read_is_told_of_its_run_alone(rt: HostRuntime) -> Result<(), Fail> {
    let whole = "a: good sources=1 pickles=1 cases=1 attempts=1
a: release retried=0 skipped=0 unrun=0
broken: good sources=1 pickles=1 cases=1 attempts=1
broken: release retried=0 skipped=0 unrun=0
a: good sources=1 pickles=1 cases=1 attempts=1
a: release retried=0 skipped=0 unrun=0
";
    let text = "a: good sources=1 pickles=1 cases=1 attempts=1
a: release retried=0 skipped=0 unrun=0
broken: trouble ReadFailed
a: good sources=1 pickles=1 cases=1 attempts=1
a: release retried=0 skipped=0 unrun=0
";
    let words = ["gate", "a", "broken", "a"];
    let all = seen_of(&rt, rt.alloc(), &words, Failing::Never, whole, 0)?;
    assert!(rt; all.broken_reads > 2);
    for number in 1..=all.broken_reads {
        let seen = seen_of(&rt, rt.alloc(), &words, Failing::Once(number), text, 3)?;
        let wanted = Seen {
            openings: 3,
            broken_reads: number,
            sound_reads: all.sound_reads,
        };
        assert_eq!(rt; seen, wanted);
    }
    Ok(())
}

#[test]
fn no_run_is_opened_after_a_failed_read_of_a_feature_file(rt: HostRuntime) -> Result<(), Fail> {
    let whole = "a: good sources=1 pickles=1 cases=1 attempts=1
release files=1 scenarios=1 retried=0 skipped=0 unrun=0
";
    let text = "trouble ReadFailed broken.feature\n";
    let words = ["gate", "--features", "broken.feature", "a"];
    let all = seen_of(&rt, rt.alloc(), &words, Failing::Never, whole, 0)?;
    assert!(rt; all.broken_reads > 2);
    for number in 1..=all.broken_reads {
        let seen = seen_of(&rt, rt.alloc(), &words, Failing::Once(number), text, 3)?;
        let wanted = Seen {
            openings: 1,
            broken_reads: number,
            sound_reads: 0,
        };
        assert_eq!(rt; seen, wanted);
    }
    Ok(())
}

// Runs of which no read fails.
fn sound_runs<'a>(
    seed: RandomState,
    a_run: &'a str,
    b_run: &'a str,
    counts: &'a Counts,
) -> BrokenFiles<'a> {
    BrokenFiles {
        a_run: a_run.as_bytes(),
        b_run: b_run.as_bytes(),
        failing_reads: Failing::Never,
        counts,
        seed,
    }
}

// Each read of standard input, each write and the flush fails in turn.
#[test]
fn failures_of_a_gate_over_runs(rt: HostRuntime) -> Result<(), Fail> {
    let seed = fixed_seed()?;
    let a_run = stream_of(rt.alloc(), A_RUN)?;
    let b_run = stream_of(rt.alloc(), B_RUN)?;
    let counts = Counts::none();
    let case = Case {
        runner: sound_runs(seed, a_run.as_str(), b_run.as_str(), &counts),
        words: &["gate", "a", "b"],
        input: a_run.as_str(),
        text: "a: good sources=1 pickles=1 cases=1 attempts=1
a: release retried=0 skipped=0 unrun=0
b: good sources=1 pickles=1 cases=1 attempts=1
b: release retried=0 skipped=0 unrun=0
",
        status: 0,
    };
    expect_failures(&rt, rt.alloc(), &case);
    Ok(())
}

#[test]
fn failures_of_a_gate_over_feature_files(rt: HostRuntime) -> Result<(), Fail> {
    let seed = fixed_seed()?;
    let a_run = stream_of(rt.alloc(), A_RUN)?;
    let counts = Counts::none();
    let case = Case {
        runner: sound_runs(seed, a_run.as_str(), "", &counts),
        words: &["gate", "--features", "a.feature", "a"],
        input: a_run.as_str(),
        text: "a: good sources=1 pickles=1 cases=1 attempts=1
release files=1 scenarios=1 retried=0 skipped=0 unrun=0
",
        status: 0,
    };
    expect_failures(&rt, rt.alloc(), &case);
    Ok(())
}

#[test]
fn failures_of_a_gate_over_feature_files_and_standard_input(rt: HostRuntime) -> Result<(), Fail> {
    let seed = fixed_seed()?;
    let a_run = stream_of(rt.alloc(), A_RUN)?;
    let counts = Counts::none();
    let case = Case {
        runner: sound_runs(seed, "", "", &counts),
        words: &["gate", "--features", "a.feature"],
        input: a_run.as_str(),
        text: "good sources=1 pickles=1 cases=1 attempts=1
release files=1 scenarios=1 retried=0 skipped=0 unrun=0
",
        status: 0,
    };
    expect_failures(&rt, rt.alloc(), &case);
    Ok(())
}
