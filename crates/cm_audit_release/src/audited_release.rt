//! The audit of a stream, with what is said of its run for a release.
ghost use Rattle.std.specs.Prelude.{◌≡◌, IfOk, Ok, string_bytes, true};
ghost use Rattle.cm_envelope.specs.Device.{CountsFailure, OfReads};
ghost use Rattle.cm_envelope.specs.Feeds.{is_failed_read};
ghost use Rattle.cm_audit.specs.Audit.{GoodAtEnd};
ghost use Rattle.cm_judge.specs.State.{summary_of};
ghost use Rattle.cm_fault_reasons.specs.AtLine.{TellsWith};
ghost use Rattle.cm_ran.specs.Marks.{marked_texts};
ghost use Rattle.cm_stream.specs.Release.{conditions_of};
ghost use Rattle.cm_audit_release.specs.PartAudit.{IsPartAuditOf, MarksJudged, is_released};
ghost use Rattle.cm_audit_release.specs.ReleaseAudit.{CountsWatched, IsReleaseAuditOf, JudgesGood, JudgesVerdict, audited_in, release_in};
ghost use Rattle.cm_audit_release.specs.ReleaseAudit.{with_tally};
ghost use Rattle.cm_audit_release.specs.Watched.{Follows};

use cm_attempt::Settings;
use cm_audit::{Watch, WatchedAudit, audit_watched};
use cm_envelope::{ByteSource, Envelope, Trouble};
use cm_fault_reasons::verdict_told;
use cm_judge::State;
use cm_ran::Marks;
use cm_release::{Judgement, Tally};
use cm_stream::{Audited, Conditions, Counts, Hold, ReleaseCounts, Verdict};
use std::alloc::{AllocError, Global};
use std::hash::RandomState;

/// An audit; of a good stream what is counted of it for a release, why its run isn't to be released, and the lines below that; of
/// another stream the lines that tell what is wrong with the one that decides, where something is told of it.
#[derive(Drop)]
pub struct AuditedRelease {
    /// What `audit_run` answers.
    pub audited: Audited,
    pub found: ReleaseCounts,
    pub hold: Option<Hold>,
    pub reasons: String,
}

impl AuditedRelease {
    /// Whether the stream is good and its run isn't held.
    pub fn is_released(&self) -> bool
        ensures { result ≡ is_released self.now }
    {
        match self.audited.verdict {
            Verdict::Good(_) => self.hold.is_none(),
            Verdict::Bad { .. } | Verdict::Unsupported { .. } => false,
        }
    }
}

/// What is said of a run, with what was kept along with its audit.
#[derive(Drop)]
struct JudgedAudit {
    release: AuditedRelease,
    tally: Tally,
}

/// What is said of a good run for a release. Of what the audit keeps the record of attempts is held alone.
fn good_judgement(
    alloc: Global,
    seed: RandomState,
    conditions: &Conditions<'_>,
    settings: Settings,
    tally: &Tally,
    state: State,
    success: bool,
    counts: Counts,
) -> Result<Judgement, AllocError>
    ensures { IfOk result (λ judgement. JudgesGood settings (conditions_of conditions.now) tally.now
        (summary_of state).table success counts judgement.found judgement.hold
        (string_bytes judgement.reasons)) }
{
    let track = state.into_track();
    let judgement = Judgement::of(
        alloc, seed, conditions, settings, tally, &track, success, counts,
    );
    drop(track);
    judgement
}

/// The lines that tell what is wrong with the line that decides.
fn told_judgement(
    alloc: Global,
    seed: RandomState,
    settings: Settings,
    tally: &Tally,
    state: &State,
    last: &Option<Envelope>,
    verdict: Verdict,
) -> Result<Judgement, AllocError>
    ensures { IfOk result (λ judgement. TellsWith settings (summary_of state.now) tally.now.trail
        last.now verdict (string_bytes judgement.reasons)) }
{
    let reasons = verdict_told(alloc, seed, settings, state, tally.trail(), last, verdict)?;
    Ok(Judgement::told(reasons))
}

/// What is said of a good run for a release, or of the line that decides against the stream.
fn judgement_of(
    alloc: Global,
    seed: RandomState,
    conditions: &Conditions<'_>,
    settings: Settings,
    audited: Audited,
    tally: &Tally,
    last: Option<Envelope>,
    state: State,
) -> Result<Judgement, AllocError>
    ensures { IfOk result (λ judgement. JudgesVerdict settings (conditions_of conditions.now)
        tally.now last state audited.success judgement.found judgement.hold
        (string_bytes judgement.reasons) audited.verdict) }
{
    match audited.verdict {
        Verdict::Good(counts) => {
            drop(last);
            let success = audited.success;
            good_judgement(
                alloc, seed, conditions, settings, tally, state, success, counts,
            )
        }
        verdict => {
            let told = told_judgement(alloc, seed, settings, tally, &state, &last, verdict);
            drop(last);
            drop(state);
            told
        }
    }
}

/// An audit with what is said of it, where there was memory for that, and with what was kept along with it.
fn with_tally(
    audited: Audited,
    judgement: Result<Judgement, AllocError>,
    tally: Tally,
) -> Result<JudgedAudit, Trouble>
    ensures { result ≡ with_tally audited judgement tally }
{
    match judgement {
        Ok(
            Judgement {
                found,
                hold,
                reasons,
            },
        ) => {
            let release = AuditedRelease {
                audited,
                found,
                hold,
                reasons,
            };
            Ok(JudgedAudit { release, tally })
        }
        Err(_) => {
            drop(tally);
            Err(Trouble::Memory)
        }
    }
}

/// An audit that was watched, with what is said of it.
fn judged(
    alloc: Global,
    seed: RandomState,
    conditions: &Conditions<'_>,
    settings: Settings,
    watched: WatchedAudit<ReleaseWatch>,
) -> Result<JudgedAudit, Trouble>
    ensures { CountsWatched settings (conditions_of conditions.now) (Ok watched) result }
{
    let WatchedAudit {
        audited,
        watch,
        last,
        state,
    } = watched;
    let tally = watch.tally;
    let judgement = judgement_of(
        alloc, seed, conditions, settings, audited, &tally, last, state,
    );
    with_tally(audited, judgement, tally)
}

/// That, where the stream was read.
fn with_judgement(
    alloc: Global,
    seed: RandomState,
    conditions: &Conditions<'_>,
    settings: Settings,
    watched: Result<WatchedAudit<ReleaseWatch>, Trouble>,
) -> Result<JudgedAudit, Trouble>
    ensures { CountsWatched settings (conditions_of conditions.now) watched result }
{
    match watched {
        Ok(watched) => judged(alloc, seed, conditions, settings, watched),
        Err(trouble) => Err(trouble),
    }
}

/// What is said alone.
fn release_in(judged: Result<JudgedAudit, Trouble>) -> Result<AuditedRelease, Trouble>
    ensures { result ≡ release_in judged }
{
    match judged {
        Ok(JudgedAudit { release, tally }) => {
            drop(tally);
            Ok(release)
        }
        Err(trouble) => Err(trouble),
    }
}

/// Audits a stream by the settings, as `audit_run` does, counts what a release may be refused for, and says why a good run
/// isn't to be released under these conditions.
///
/// # Errors
/// As those of `audit_run`, and want of memory for the lists and the maps by which they are counted, and for the lines.
pub fn audit_release<R: ByteSource>(
    alloc: Global,
    seed: RandomState,
    source: &mut R,
    settings: Settings,
    conditions: &Conditions<'_>,
) -> Result<AuditedRelease, Trouble>
    // The audit, and what is said of the stream's envelopes, or of the line that decides, all of the same bytes.
    ensures same_bytes { OfReads (R.input source.old) (R.input source.new)
        (IsReleaseAuditOf settings (conditions_of conditions.now) result) }
    ensures at_end { GoodAtEnd (R.input source.new) (audited_in result) }
    ensures failures { CountsFailure (is_failed_read result) (R.input source.old).failed_calls
        (R.input source.new).failed_calls }
{
    let watch = ReleaseWatch {
        tally: Tally::new(alloc, seed),
    };
    let watched = audit_watched(alloc, seed, source, settings, watch);
    release_in(with_judgement(alloc, seed, conditions, settings, watched))
}

/// What is said of a run, with the marks of what ran where it is released; want of memory where there is none for them.
fn with_marks(
    alloc: Global,
    seed: RandomState,
    marks: &mut Marks<'_>,
    judged: Result<JudgedAudit, Trouble>,
) -> Result<AuditedRelease, Trouble>
    ensures texts { marked_texts marks.new ≡ marked_texts marks.old }
    ensures marked { MarksJudged judged marks.old marks.new result }
{
    let JudgedAudit { release, tally } = judged?;
    if !release.is_released() {
        drop(tally);
        return Ok(release);
    }
    let marked = marks.mark(alloc, seed, tally.trail());
    drop(tally);
    match marked {
        Ok(()) => Ok(release),
        Err(_) => Err(Trouble::Memory),
    }
}

/// Audits a stream as `audit_release` does, and where its run is good and not held, marks the scenarios that ran.
///
/// # Errors
/// As those of `audit_release`, and want of memory for the marks.
pub fn audit_part<R: ByteSource>(
    alloc: Global,
    seed: RandomState,
    source: &mut R,
    settings: Settings,
    conditions: &Conditions<'_>,
    marks: &mut Marks<'_>,
) -> Result<AuditedRelease, Trouble>
    // The audit, what is said of it, and what is marked, all of the same bytes.
    ensures same_bytes { OfReads (R.input source.old) (R.input source.new)
        (IsPartAuditOf settings (conditions_of conditions.now) marks.old marks.new result) }
    // Whatever is marked, the texts stay.
    ensures texts { marked_texts marks.new ≡ marked_texts marks.old }
    ensures at_end { GoodAtEnd (R.input source.new) (audited_in result) }
    ensures failures { CountsFailure (is_failed_read result) (R.input source.old).failed_calls
        (R.input source.new).failed_calls }
{
    let watch = ReleaseWatch {
        tally: Tally::new(alloc, seed),
    };
    let watched = audit_watched(alloc, seed, source, settings, watch);
    let judged = with_judgement(alloc, seed, conditions, settings, watched);
    with_marks(alloc, seed, marks, judged)
}

/// What a release is judged by of the envelopes so far.
#[derive(Drop)]
pub(crate) struct ReleaseWatch {
    pub(crate) tally: Tally,
}

impl Watch for ReleaseWatch {
    ghost follows = { λ watch es. Follows watch es };

    ghost rereads = { true };

    fn note(&mut self, alloc: Global, envelope: &Envelope) -> Result<(), AllocError> {
        self.tally.note(alloc, envelope)
    }

    fn wants_last(&self) -> bool {
        true
    }
}
