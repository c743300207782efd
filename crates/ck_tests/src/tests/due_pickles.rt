//! The pickles of a source that didn't come, told by their titles and passed.
use crate::tests::lines::stream_of;
use cm_attempt::{Policy, Settings};
use cm_audit::{Watch, audit_watched};
use cm_envelope::Envelope;
use cm_judge::KeptSource;
use devices::Pieces;
use seeds::fixed_seed;
use std::alloc::{AllocError, Global};
use std::hash::RandomState;
use std::test::Fail;

// Nothing is kept of the envelopes.
#[derive(Drop)]
struct Nobody;

impl Watch for Nobody {
    ghost use Rattle.std.specs.Prelude.{⊤, false};

    ghost follows = { λ _ _. ⊤ };

    ghost rereads = { false };

    fn note(&mut self, _alloc: Global, _envelope: &Envelope) -> Result<(), AllocError> {
        Ok(())
    }

    fn wants_last(&self) -> bool {
        false
    }
}

// Whether one is told, one is passed, and none is left.
fn are_two(alloc: Global, seed: RandomState, kept: &KeptSource) -> Result<bool, AllocError> {
    let mut due = kept.due();
    let is_told = due.next_title(alloc, seed)?.is_some();
    let is_passed = due.pass();
    let is_at_end = !due.pass();
    let is_none_told = due.next_title(alloc, seed)?.is_none();
    Ok(is_told && is_passed && is_at_end && is_none_told)
}

fn lacks_two(alloc: Global, bytes: &[u8]) -> Result<bool, Fail> {
    let seed = fixed_seed()?;
    let settings = Settings::from(Policy::Strict);
    let watched = audit_watched(alloc, seed, &mut Pieces::whole(bytes), settings, Nobody);
    match &watched {
        Ok(watched) => match watched.state.find_source("o.feature") {
            Some(kept) => Ok(are_two(alloc, seed, kept)?),
            None => Ok(false),
        },
        Err(_) => Ok(false),
    }
}

#[test]
fn two_due_pickles_are_told_and_passed(rt: HostRuntime) -> Result<(), Fail> {
    let words = "outline outline_document first_row run well";
    let stream = stream_of(rt.alloc(), words)?;
    let lacks = lacks_two(rt.alloc(), stream.as_bytes());
    drop(stream);
    assert!(rt; lacks?);
    Ok(())
}
