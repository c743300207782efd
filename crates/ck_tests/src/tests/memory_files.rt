//! Files in memory for a gate: runs by their names, and feature files and folders beside them.
use crate::tests::lines::{RETRIED, stream_of};
use ck_commands::run_with;
use devices::{Pieces, Store};
use files::{Entry, EntryKind, Look, OpenedFiles, Opener};
use seeds::fixed_seed;
use std::alloc::{AllocError, Global};
use std::process::Abort;
use std::test::Fail;

const A_FEATURE: &str = "Feature: f\n\n  Scenario: s\n    Given a\n";

const B_FEATURE: &str = "Feature: g\n\n  Scenario: t\n    Given b\n";

const OUTLINE: &str =
    "Feature: f\n  Scenario: s\n    Given <a>\n    Examples:\n      | a |\n      | x |\n      | x |\n      | y |\n";

const TAGGED: &str = "@slow\nFeature: f\n  @wip\n  Scenario: s\n    Given a\n";

pub(crate) const A_RUN: &str =
    "source document pickle run case:c1:t1 start:a1:c1:0 step:a1:t1 end:a1:t1:PASSED done:a1:false well";

pub(crate) const B_RUN: &str =
    "source_b document_b pickle_b run case_b start:a1:c2:0 step:a1:t1 end:a1:t1:PASSED done:a1:false well";

const FAILED_RUN: &str =
    "source document pickle run case:c1:t1 start:a1:c1:0 step:a1:t1 end:a1:t1:FAILED done:a1:false unwell";

const ROWS_RUN: &str =
    "outline outline_document first_row second_row third_row run second_row_case third_row_case start:a1:c1:0 step:a1:t1 end:a1:t1:PASSED done:a1:false start:a2:c2:0 step:a2:t1 end:a2:t1:SKIPPED done:a2:false well";

pub(crate) const EMPTY_RUN: &str = "run well";

pub(crate) const BAD_RUN: &str = "run run";

/// Runs in memory, and feature files that stand beside them.
#[derive(Drop)]
struct MemoryFiles<'a> {
    a_run: &'a [u8],
    b_run: &'a [u8],
    failed_run: &'a [u8],
    bad_run: &'a [u8],
    rows_run: &'a [u8],
    retried_run: &'a [u8],
}

impl<'a> Opener for MemoryFiles<'a> {
    type File = &'a [u8];

    fn open_file(&self, name: &str) -> Option<&'a [u8]> {
        match name {
            "a" | "a\nb\u{202e}" => Some(self.a_run),
            "b" => Some(self.b_run),
            "failed" => Some(self.failed_run),
            "bad" => Some(self.bad_run),
            "rows" => Some(self.rows_run),
            "retried" => Some(self.retried_run),
            "a.feature" | "f/a.feature" | "f/g/a.feature" => Some(A_FEATURE.as_bytes()),
            "b.feature" | "f/b.feature" => Some(B_FEATURE.as_bytes()),
            "older.feature" => Some(b"Feature: f\n\n  Scenario: s\n    Given a"),
            "outline.feature" => Some(OUTLINE.as_bytes()),
            "tagged.feature" => Some(TAGGED.as_bytes()),
            "refused.feature" => Some(b"Given x"),
            "x\n\u{202e}.feature" => Some(B_FEATURE.as_bytes()),
            "broken.feature" => Some(b"Feature: \xff\n"),
            _ => None,
        }
    }

    fn look_at(&self, alloc: Global, path: &str) -> Result<Look, AllocError> {
        match path {
            "f" => folder(
                alloc,
                &[
                    ("b.feature", EntryKind::File),
                    ("g", EntryKind::Folder),
                    ("a.feature", EntryKind::File),
                    ("notes.txt", EntryKind::File),
                ],
            ),
            "f/g" => folder(alloc, &[("a.feature", EntryKind::File)]),
            "empty" => folder(alloc, &[("notes.txt", EntryKind::File)]),
            "linked" => folder(alloc, &[("away", EntryKind::LinkedFolder)]),
            "broken" => Ok(Look::NotUtf8),
            "nowhere" => Ok(Look::Unreadable),
            _ => Ok(Look::File),
        }
    }
}

// A folder with these entries.
fn folder(alloc: Global, entries: &[(&str, EntryKind)]) -> Result<Look, AllocError> {
    let mut all = Vec::new(alloc);
    for (name, kind) in entries {
        all.push(Entry {
            name: String::from_str(alloc, name)?,
            kind: *kind,
        })?;
    }
    Ok(Look::Folder(all))
}

// The gate over these words, with the files and standard input of this stream.
pub(crate) fn expect_gate(
    rt: &impl Abort,
    alloc: Global,
    words: &[&str],
    input: &str,
    text: &str,
    status: u8,
) -> Result<(), Fail> {
    let seed = fixed_seed().expect(rt, "a seed");
    let a_run = stream_of(alloc, A_RUN)?;
    let b_run = stream_of(alloc, B_RUN)?;
    let failed_run = stream_of(alloc, FAILED_RUN)?;
    let bad_run = stream_of(alloc, BAD_RUN)?;
    let rows_run = stream_of(alloc, ROWS_RUN)?;
    let retried_run = stream_of(alloc, RETRIED)?;
    let standard = stream_of(alloc, input)?;
    let opener = MemoryFiles {
        a_run: a_run.as_bytes(),
        b_run: b_run.as_bytes(),
        failed_run: failed_run.as_bytes(),
        bad_run: bad_run.as_bytes(),
        rows_run: rows_run.as_bytes(),
        retried_run: retried_run.as_bytes(),
    };
    let mut files = OpenedFiles::new(alloc, opener);
    let mut source = Pieces::new(standard.as_bytes(), 5);
    let mut sink = Store::new(alloc, 7);
    let code = run_with(alloc, seed, words, &mut files, &mut source, &mut sink);
    assert_eq!(rt; sink.bytes(), text.as_bytes());
    assert_eq!(rt; code, status);
    Ok(())
}
