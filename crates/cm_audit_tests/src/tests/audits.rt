//! Audits, each by its own call.
use crate::tests::stream::{
    ATTEMPT, END_OF_ATTEMPT, FEATURE, FIRST_PICKLE, SECOND_PICKLE, UNSUCCESSFUL, joined,
};
use cm_attempt::{Policy, Settings};
use cm_audit::{
    Audited, Counts, StreamFault, TakeLines, Verdict, audit_run, audit_with, take_lines,
};
use cm_audit_cases::{AuditedCases, audit_cases};
use cm_envelope::Trouble;
use cm_judge::Stop;
use devices::Pieces;
use seeds::fixed_seed;
use std::alloc::{AllocError, Global};
use std::hash::RandomState;
use std::test::Fail;

// A run without test cases that says no success.
fn idle_run(alloc: Global) -> Result<String, Fail> {
    let start = "{\"testRunStarted\":{}}\n";
    joined(
        alloc,
        &[FEATURE, FIRST_PICKLE, SECOND_PICKLE, start, UNSUCCESSFUL],
    )
}

// It should have said success: nothing failed.
const HIDES_SUCCESS: Verdict = Verdict::Bad {
    line: 6,
    fault: StreamFault::SuccessDiffers,
};

/// Whether the run is answered so, and whether its verdict alone is.
fn both_hide_success(alloc: Global, seed: RandomState, bytes: &[u8]) -> (bool, bool) {
    let settings = Settings::from(Policy::PendingPasses);
    let run = audit_run(alloc, seed, &mut Pieces::whole(bytes), settings);
    let wanted = Audited {
        verdict: HIDES_SUCCESS,
        success: false,
    };
    let verdict = audit_with(
        alloc,
        seed,
        &mut Pieces::whole(bytes),
        Policy::PendingPasses,
    );
    (
        matches!(run, Ok(audited) if audited == wanted),
        matches!(verdict, Ok(verdict) if verdict == HIDES_SUCCESS),
    )
}

#[test]
fn a_run_and_its_verdict_alone(rt: HostRuntime) -> Result<(), Fail> {
    let seed = fixed_seed()?;
    let stream = idle_run(rt.alloc())?;
    let (run, verdict) = both_hide_success(rt.alloc(), seed, stream.as_bytes());
    drop(stream);
    assert!(rt; run && verdict);
    Ok(())
}

const ONE_CASE: Counts = Counts {
    sources: 1,
    pickles: 2,
    cases: 1,
    attempts: 1,
    unrun: 1,
};

fn names_one_pickle(alloc: Global, cases: &AuditedCases) -> Result<bool, AllocError> {
    let named = cases.listing.named_pickles(alloc)?;
    Ok(named.as_slice() == ["p1"].as_slice())
}

/// Whether the stream has one case, which failed.
fn has_one_case(alloc: Global, cases: &AuditedCases) -> Result<bool, AllocError> {
    let is_named = names_one_pickle(alloc, cases)?;
    let results = cases.attempts.results()?.len();
    let is_good = cases.audited.verdict == Verdict::Good(ONE_CASE) && !cases.audited.success;
    Ok(is_good && is_named && results == 1)
}

fn are_cases(alloc: Global, seed: RandomState, bytes: &[u8]) -> Result<bool, AllocError> {
    let settings = Settings::from(Policy::Strict);
    let Ok(cases) = audit_cases(alloc, seed, &mut Pieces::whole(bytes), settings) else {
        return Ok(false);
    };
    let has_one = has_one_case(alloc, &cases);
    drop(cases);
    has_one
}

#[test]
fn the_cases_of_a_good_stream(rt: HostRuntime) -> Result<(), Fail> {
    let seed = fixed_seed()?;
    let parts = [
        FEATURE,
        FIRST_PICKLE,
        SECOND_PICKLE,
        "{\"testRunStarted\":{}}\n",
        ATTEMPT,
        END_OF_ATTEMPT,
        UNSUCCESSFUL,
    ];
    let stream = joined(rt.alloc(), &parts)?;
    let are_cases = are_cases(rt.alloc(), seed, stream.as_bytes());
    drop(stream);
    assert!(rt; are_cases?);
    Ok(())
}

// Counts the bytes of lines, up to a line that is empty.
#[derive(Drop)]
struct UpToAnEmptyLine {
    bytes: usize,
}

impl TakeLines for UpToAnEmptyLine {
    ghost use Rattle.std.specs.Prelude.{⊤};

    ghost takes = { λ _ _ _ _. ⊤ };

    fn take_line(&mut self, _alloc: Global, line: &[u8]) -> Result<(), Stop> {
        if line.is_empty() {
            return Err(Stop::Bad(StreamFault::AttemptOpen));
        }
        self.bytes = self.bytes.saturating_add(line.len());
        Ok(())
    }
}

// How many lines were taken, and bytes of them.
fn taken(alloc: Global, bytes: &[u8]) -> (Result<u64, Result<Audited, Trouble>>, usize) {
    let mut taker = UpToAnEmptyLine { bytes: 0 };
    let lines = take_lines(alloc, &mut taker, &mut Pieces::new(bytes, 2));
    (lines, taker.bytes)
}

#[test]
fn lines_are_taken_up_to_the_one_that_stops(rt: HostRuntime) -> Result<(), Fail> {
    let (lines, bytes) = taken(rt.alloc(), b"ab\ncde\nf");
    assert!(rt; matches!(lines, Ok(3)) && bytes == 6);
    let (stopped, bytes) = taken(rt.alloc(), b"ab\n\nf\n");
    let wanted = Audited {
        verdict: Verdict::Bad {
            line: 2,
            fault: StreamFault::AttemptOpen,
        },
        success: false,
    };
    assert!(rt; matches!(stopped, Err(Ok(audited)) if audited == wanted) && bytes == 2);
    Ok(())
}
