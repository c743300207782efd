//! The gate over files, in want of memory.
use crate::tests::commands::NO_MEMORY;
use crate::tests::meeting::{Came, RUNS, Rooms, meet_alone, meet_greatest};
use crate::tests::streams::{INTERLEAVED, PLAIN_TEXT};
use ck_commands::{ExitStatus, run_with};
use cm_envelope::{ByteSink, DeviceFailed};
use devices::{Compared, Pieces};
use files::{Look, OpenedFiles, Opener};
use seeds::fixed_seed;
use std::alloc::{AllocError, Global};
use std::io;
use std::io::Read;
use std::test::Fail;

/// A file of blanks, and of these bytes after them. The blanks belong to its first line.
#[derive(Drop)]
struct PaddedFile {
    blanks: usize,
    bytes: &'static [u8],
}

impl PaddedFile {
    fn new(blanks: usize, text: &'static str) -> PaddedFile {
        PaddedFile {
            blanks,
            bytes: text.as_bytes(),
        }
    }
}

impl io::Read for PaddedFile {
    fn read(&mut self, piece: &mut [u8]) -> io::Result<usize> {
        if self.blanks == 0 {
            return self.bytes.read(piece);
        }
        let count = self.blanks.min(piece.len());
        piece[..count].fill(b' ');
        self.blanks -= count;
        Ok(count)
    }
}

/// Runs, one of them with a long line, and a feature file. To look at one and to open it takes no memory.
#[derive(Drop)]
struct PlainFiles;

impl Opener for PlainFiles {
    type File = PaddedFile;

    fn open_file(&self, name: &str) -> Option<PaddedFile> {
        match name {
            "a" | "b" => Some(PaddedFile::new(0, INTERLEAVED)),
            "long" => Some(PaddedFile::new(100_000, INTERLEAVED)),
            "a.feature" => Some(PaddedFile::new(0, PLAIN_TEXT)),
            _ => None,
        }
    }

    fn look_at(&self, _alloc: Global, _path: &str) -> Result<Look, AllocError> {
        Ok(Look::File)
    }
}

/// A sink, and another that takes the same bytes beside it.
#[derive(Drop)]
struct Beside<A, B> {
    first: A,
    second: B,
}

impl<A: ByteSink, B: ByteSink> ByteSink for Beside<A, B> {
    ghost output = { λ b. A.output b.first };

    fn write_some(&mut self, bytes: &[u8]) -> Result<usize, DeviceFailed> {
        let _ = self.second.write_some(bytes).is_ok();
        self.first.write_some(bytes)
    }

    fn flush(&mut self) -> Result<(), DeviceFailed> {
        self.first.flush()
    }
}

// What a gate may print: all of it, or what is left where runs are refused memory.
#[derive(Clone, Copy)]
struct Told<'a> {
    whole: &'a str,
    first_refused: &'a str,
    second_refused: &'a str,
    both_refused: &'a str,
}

// What a gate printed.
#[derive(Clone, Copy, PartialEq, Eq)]
enum Printed {
    Whole,
    SecondRefused,
    // One of the others, or that there is no memory.
    Refused,
    // Anything else, or with another status.
    Other,
}

fn printed_by_gate(alloc: Global, words: &[&str], told: Told<'_>) -> Printed {
    let Ok(seed) = fixed_seed() else {
        return Printed::Other;
    };
    let mut sink = Beside {
        first: Compared::new(told.whole, NO_MEMORY),
        second: Beside {
            first: Compared::new(told.second_refused, told.first_refused),
            second: Compared::new(told.both_refused, NO_MEMORY),
        },
    };
    let mut files = OpenedFiles::new(alloc, PlainFiles);
    let mut source = Pieces::whole(b"");
    let status = run_with(alloc, seed, words, &mut files, &mut source, &mut sink);
    drop(files);
    let (all, one, both) = (&sink.first, &sink.second.first, &sink.second.second);
    let is_done = status == ExitStatus::Done.code();
    let is_trouble = status == ExitStatus::Trouble.code();
    if is_done && all.has_wanted() {
        Printed::Whole
    } else if is_trouble && one.has_wanted() {
        Printed::SecondRefused
    } else if is_trouble && (all.has_other() || one.has_other() || both.has_wanted()) {
        Printed::Refused
    } else {
        Printed::Other
    }
}

// What came of a gate that is to print this.
fn came_of_gate(printed: Printed, wanted: Printed) -> Came {
    if printed == wanted {
        Came::Right
    } else if printed == Printed::Other {
        Came::Wrong
    } else {
        Came::Refused
    }
}

fn gate_runs(alloc: Global) -> Came {
    let told = Told {
        whole: "a: good sources=1 pickles=1 cases=2 attempts=2
a: release retried=1 skipped=1 unrun=0
b: good sources=1 pickles=1 cases=2 attempts=2
b: release retried=1 skipped=1 unrun=0
",
        first_refused: "a: trouble Memory
b: good sources=1 pickles=1 cases=2 attempts=2
b: release retried=1 skipped=1 unrun=0
",
        second_refused: "a: good sources=1 pickles=1 cases=2 attempts=2
a: release retried=1 skipped=1 unrun=0
b: trouble Memory
",
        both_refused: "a: trouble Memory\nb: trouble Memory\n",
    };
    let words = ["gate", "a", "b"];
    came_of_gate(printed_by_gate(alloc, &words, told), Printed::Whole)
}

// The second run takes more memory than the first: there are rooms in which it is refused alone.
fn gate_long_run(alloc: Global) -> Came {
    let told = Told {
        whole: "a: good sources=1 pickles=1 cases=2 attempts=2
a: release retried=1 skipped=1 unrun=0
long: good sources=1 pickles=1 cases=2 attempts=2
long: release retried=1 skipped=1 unrun=0
",
        first_refused: "a: trouble Memory
long: good sources=1 pickles=1 cases=2 attempts=2
long: release retried=1 skipped=1 unrun=0
",
        second_refused: "a: good sources=1 pickles=1 cases=2 attempts=2
a: release retried=1 skipped=1 unrun=0
long: trouble Memory
",
        both_refused: "a: trouble Memory\nlong: trouble Memory\n",
    };
    let words = ["gate", "a", "long"];
    came_of_gate(printed_by_gate(alloc, &words, told), Printed::SecondRefused)
}

fn gate_features(alloc: Global) -> Came {
    let refused = "a: trouble Memory\n";
    let told = Told {
        whole: "a: good sources=1 pickles=1 cases=2 attempts=2
release files=1 scenarios=1 retried=1 skipped=1 unrun=0
",
        first_refused: refused,
        second_refused: refused,
        both_refused: refused,
    };
    let words = ["gate", "--features", "a.feature", "a"];
    came_of_gate(printed_by_gate(alloc, &words, told), Printed::Whole)
}

#[test]
fn gates_over_runs(rt: HostRuntime) -> Result<(), Fail> {
    meet_alone(rt.alloc(), RUNS, gate_runs)?;
    meet_greatest(rt.alloc(), gate_runs)
}

// As far as those of runs, in greater steps.
const COARSE: Rooms = Rooms {
    first: 0,
    count: 2048,
    step: 256,
};

#[test]
fn gates_that_refuse_a_long_run_alone(rt: HostRuntime) -> Result<(), Fail> {
    meet_alone(rt.alloc(), COARSE, gate_long_run)
}

#[test]
fn gates_over_feature_files(rt: HostRuntime) -> Result<(), Fail> {
    meet_alone(rt.alloc(), RUNS, gate_features)?;
    meet_greatest(rt.alloc(), gate_features)
}
