//! What is counted of a stream for its release, called by itself.
use crate::tests::lines::stream_of;
use cm_attempt::{Policy, Settings};
use cm_audit::{Counts, StreamFault, Verdict};
use cm_audit_release::{AuditedRelease, audit_release};
use cm_envelope::Trouble;
use cm_stream::{Conditions, ReleaseCounts};
use devices::Pieces;
use seeds::fixed_seed;
use std::alloc::Global;
use std::test::Fail;

// A pickle that didn't run, a retry, a skipped step, a pickle without steps and a step without definition.
const ONE_OF_EACH: &str =
    "source document pickle source_b document_b pickle_b tagged tagged_document tagged_pickle stepless stepless_document stepless_pickle run stepless_case case_b case:c3:t1 start:s1:c1:0 done:s1:false start:b1:c2:0 step:b1:t1 end:b1:t1:PASSED done:b1:false start:a1:c3:0 step:a1:t1 end:a1:t1:FAILED done:a1:true start:a2:c3:1 step:a2:t1 end:a2:t1:SKIPPED done:a2:false well";

// Each pickle has to run, but for those with the tag.
fn conditions_with<'a>(alloc: Global, tag: &'a str) -> Result<Conditions<'a>, Fail> {
    let mut allowed_tags = Vec::new(alloc);
    allowed_tags.push(tag)?;
    Ok(Conditions {
        is_part: false,
        allows_unrun: false,
        allowed_tags,
        no_retries: false,
        no_skips: false,
        no_stepless: false,
        no_undefined: false,
    })
}

fn release_of(alloc: Global, words: &str, tag: &str) -> Result<AuditedRelease, Fail> {
    let seed = fixed_seed()?;
    let stream = stream_of(alloc, words)?;
    let mut source = Pieces::whole(stream.as_bytes());
    let conditions = conditions_with(alloc, tag)?;
    match audit_release(
        alloc,
        seed,
        &mut source,
        Settings::from(Policy::Strict),
        &conditions,
    ) {
        Ok(released) => Ok(released),
        Err(_) => Err(Fail::from("a trouble")),
    }
}

#[test]
fn one_of_each_is_counted(rt: HostRuntime) -> Result<(), Fail> {
    let missed = release_of(rt.alloc(), ONE_OF_EACH, "@other")?;
    let good = Verdict::Good(Counts {
        sources: 4,
        pickles: 4,
        cases: 3,
        attempts: 4,
        unrun: 1,
    });
    assert!(rt; missed.audited.verdict == good && missed.audited.success);
    let one_of_each = ReleaseCounts {
        missed: 1,
        retried: 1,
        skipped: 1,
        stepless: 1,
        undefined: 1,
    };
    assert!(rt; missed.found == one_of_each);
    let allowed = release_of(rt.alloc(), ONE_OF_EACH, "@slow")?;
    assert!(rt;
        allowed.found
            == ReleaseCounts {
                missed: 0,
                ..one_of_each
            }
    );
    Ok(())
}

#[test]
fn a_stream_that_is_not_good(rt: HostRuntime) -> Result<(), Fail> {
    let bad = release_of(rt.alloc(), "source document pickle pickle well", "@wip")?;
    let verdict = Verdict::Bad {
        line: 4,
        fault: StreamFault::PickleDiffers,
    };
    assert!(rt; bad.audited.verdict == verdict);
    Ok(())
}

#[test]
fn a_failed_read(rt: HostRuntime) -> Result<(), Fail> {
    let seed = fixed_seed().expect(&rt, "a seed");
    let conditions = conditions_with(rt.alloc(), "@wip")?;
    let settings = Settings::from(Policy::Strict);
    let mut source = Pieces::whole(b"").failing_at_end();
    match audit_release(rt.alloc(), seed, &mut source, settings, &conditions) {
        Err(Trouble::ReadFailed) => Ok(()),
        _ => Err(Fail::from("no failed read")),
    }
}
