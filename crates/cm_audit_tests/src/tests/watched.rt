//! What an audit keeps for who watches it, and what is told of the line that decides.
use crate::tests::stream::{FEATURE, FIRST_PICKLE, SECOND_PICKLE, envelope_of, joined};
use cm_attempt::{Policy, Settings};
use cm_audit::{StreamFault, Verdict, Watch, WatchedAudit, audit_watched};
use cm_envelope::Envelope;
use cm_fault_reasons::verdict_told;
use cm_judge::{KeptSource, State};
use cm_reasons::Trail;
use cm_source_reasons::add_source_reasons;
use devices::Pieces;
use seeds::fixed_seed;
use std::alloc::{AllocError, Global};
use std::hash::RandomState;
use std::test::Fail;

// Keeps what the lines of reasons name.
#[derive(Drop)]
struct Follower {
    trail: Trail,
}

impl Watch for Follower {
    ghost use Rattle.std.specs.Prelude.{⊤, true};

    ghost follows = { λ _ _. ⊤ };

    ghost rereads = { true };

    fn note(&mut self, alloc: Global, envelope: &Envelope) -> Result<(), AllocError> {
        self.trail.note(alloc, envelope)
    }

    fn wants_last(&self) -> bool {
        true
    }
}

fn watched_bytes(alloc: Global, bytes: &[u8]) -> Result<WatchedAudit<Follower>, Fail> {
    let seed = fixed_seed()?;
    let settings = Settings::from(Policy::Strict);
    let watch = Follower {
        trail: Trail::new(alloc),
    };
    match audit_watched(alloc, seed, &mut Pieces::whole(bytes), settings, watch) {
        Ok(watched) => Ok(watched),
        Err(_) => Err(Fail::from("a trouble")),
    }
}

/// The audit of a stream of these parts.
fn watched(alloc: Global, parts: &[&str]) -> Result<WatchedAudit<Follower>, Fail> {
    let stream = joined(alloc, parts)?;
    let watched = watched_bytes(alloc, stream.as_bytes());
    drop(stream);
    watched
}

// A run in which the second pickle is missing.
const RUN: &str = "{\"testRunStarted\":{}}\n{\"testRunFinished\":{\"success\":true}}\n";

/// Whether the next of the pickles that didn't come is named so, and it is the only one.
fn is_only_due(
    alloc: Global,
    seed: RandomState,
    kept: &KeptSource,
    name: &str,
) -> Result<bool, AllocError> {
    let mut due = kept.due();
    let is_named = match due.next(alloc, seed)? {
        Some(pickle) => pickle.name.as_str() == name,
        None => false,
    };
    let is_last = due.next(alloc, seed)?.is_none();
    Ok(is_named && is_last)
}

/// Whether the envelope is the pickle that is due.
fn is_due(
    alloc: Global,
    seed: RandomState,
    kept: &KeptSource,
    envelope: &Envelope,
) -> Result<bool, AllocError> {
    match envelope {
        Envelope::Pickle(pickle) => kept.is_next(alloc, seed, pickle),
        _ => Ok(false),
    }
}

fn line_is_due(alloc: Global, kept: &KeptSource, line: &str) -> Result<bool, Fail> {
    let seed = fixed_seed()?;
    let envelope = envelope_of(alloc, line)?;
    let is_due = is_due(alloc, seed, kept, &envelope);
    drop(envelope);
    Ok(is_due?)
}

/// Whether the second pickle is the only one that is due, and the next one.
fn lacks_second(alloc: Global, state: &State) -> Result<bool, Fail> {
    let Some(kept) = state.find_source("a.feature") else {
        return Ok(false);
    };
    let is_only = is_only_due(alloc, fixed_seed()?, kept, "two")?;
    let is_next = line_is_due(alloc, kept, SECOND_PICKLE)?;
    Ok(is_only && is_next && !line_is_due(alloc, kept, FIRST_PICKLE)?)
}

#[test]
fn the_pickle_that_is_due(rt: HostRuntime) -> Result<(), Fail> {
    let watched = watched(rt.alloc(), &[FEATURE, FIRST_PICKLE, RUN])?;
    let lacks_second = lacks_second(rt.alloc(), &watched.state);
    drop(watched);
    assert!(rt; lacks_second?);
    Ok(())
}

/// What is told under the verdict.
fn told(
    alloc: Global,
    seed: RandomState,
    watched: &WatchedAudit<Follower>,
) -> Result<String, AllocError> {
    verdict_told(
        alloc,
        seed,
        Settings::from(Policy::Strict),
        &watched.state,
        &watched.watch.trail,
        &watched.last,
        watched.audited.verdict,
    )
}

fn told_of(alloc: Global, parts: &[&str], verdict: Verdict) -> Result<String, Fail> {
    let seed = fixed_seed()?;
    let watched = watched(alloc, parts)?;
    let is_wanted = watched.audited.verdict == verdict && watched.last.is_some();
    let text = told(alloc, seed, &watched);
    drop(watched);
    if !is_wanted {
        return Err(Fail::from("another verdict, or no last envelope"));
    }
    Ok(text?)
}

const SOURCE_INCOMPLETE: Verdict = Verdict::Bad {
    line: 5,
    fault: StreamFault::SourceIncomplete,
};

#[test]
fn a_pickle_is_missing(rt: HostRuntime) -> Result<(), Fail> {
    let text = told_of(rt.alloc(), &[FEATURE, FIRST_PICKLE, RUN], SOURCE_INCOMPLETE)?;
    assert!(rt; text.as_str() == "uri a.feature\nmissing a.feature:4 two\n");
    Ok(())
}

fn reasons(
    alloc: Global,
    seed: RandomState,
    watched: &WatchedAudit<Follower>,
    envelope: &Envelope,
) -> Result<String, AllocError> {
    let mut text = String::new(alloc);
    let (state, trail) = (&watched.state, &watched.watch.trail);
    let fault = StreamFault::PickleDiffers;
    add_source_reasons(alloc, seed, &mut text, state, trail, envelope, fault)?;
    Ok(text)
}

fn last_reasons(
    alloc: Global,
    seed: RandomState,
    watched: &WatchedAudit<Follower>,
) -> Result<String, AllocError> {
    match &watched.last {
        Some(envelope) => reasons(alloc, seed, watched, envelope),
        None => Err(AllocError),
    }
}

/// What is told where the second pickle comes in place of the first.
fn reasons_of_second(alloc: Global) -> Result<String, Fail> {
    let seed = fixed_seed()?;
    let watched = watched(alloc, &[FEATURE, SECOND_PICKLE])?;
    let text = last_reasons(alloc, seed, &watched);
    drop(watched);
    Ok(text?)
}

#[test]
fn another_pickle_is_due(rt: HostRuntime) -> Result<(), Fail> {
    let text = reasons_of_second(rt.alloc())?;
    let mut lines = text.as_str().lines();
    assert!(rt; lines.next() == Some("due a.feature:2 one"));
    assert!(rt;
        lines
            .next()
            .is_some_and(|line| line.starts_with("expected {"))
    );
    assert!(rt; lines.next().is_some_and(|line| line.starts_with("found {")));
    assert!(rt; lines.next().is_none());
    Ok(())
}
