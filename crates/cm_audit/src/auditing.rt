//! The audit of a stream: the loop over its lines, and who watches it.
ghost use Rattle.std.specs.Prelude.{◌≡◌, ◌+◌, ◌++◌, ◌∷◌, [], List, Ok, Err, ◌≤◌, OnOk, IfOk, Bool, false, true, ⊤};
ghost use Rattle.cm_envelope.specs.Device.{CountsFailure, OfInput, OfReads};
ghost use Rattle.cm_envelope.specs.declared.envelope.Envelope.{Envelope as SomeEnvelope};
ghost use Rattle.cm_envelope.specs.declared.feed.Trouble.TheVariants.{ReadFailed};
ghost use Rattle.cm_attempt.specs.Settings.{settings_of};
ghost use Rattle.cm_stream.specs.Stream.{NoneIsGood, verdict_in};
ghost use Rattle.cm_audit.specs.Audit.{AnswersTold, Audits, DecidesGood, GoodAtEnd, GoodHeard, IsVerdictOf, ReadsUpTo, ShowNoFault};
ghost use Rattle.cm_audit.specs.Audit.{ShowsUnsupported, TakesLine, judged_line, audited_at, unsuccessful};
ghost use Rattle.cm_envelope.specs.Feeds.{is_failed_read};
ghost use Rattle.cm_audit.specs.Judging.{JudgesLine, JudgesWith, RereadsLine, UnlessNoMemory};
ghost use Rattle.cm_judge.specs.Deciding.{HasLast, envelope_in};
ghost use Rattle.cm_audit.specs.Watched.{IsWatchedAuditOf, audit_in, with_watch};
ghost use Rattle.cm_judge.specs.State.{Takes, summary_of};
ghost use Rattle.cm_state.specs.Summary.{empty_summary};
ghost use Rattle.cm_envelope.specs.Lines.{max_stream_bytes};
ghost use Rattle.cm_audit.specs.Taking.{Taking, TakesStream, is_failed_taking};

use cm_attempt::{Policy, Settings};
use cm_envelope::{ByteSource, Envelope, EnvelopeFault, Feed, Trouble, is_blank_line};
use cm_judge::{State, Stop, judge, judged_as};
use cm_reading::read_envelope;
use cm_stream::{Audited, StreamFault, Verdict};
use std::alloc::{AllocError, Global};
use std::hash::RandomState;
use std::mem::replace;

/// Tells of an envelope and judges it, and takes it where it has no fault.
fn take_envelope<W: Watch>(
    alloc: Global,
    state: &mut State,
    watch: &mut W,
    envelope: Envelope,
    settings: Settings,
) -> Result<(), Stop>
    ensures taken { Takes settings state.old state.new envelope result }
    ensures followed { UnlessNoMemory result ((es : List SomeEnvelope) → W.follows watch.old es
        → W.follows watch.new (es ++ envelope ∷ [])) }
{
    match watch.note(alloc, &envelope) {
        Ok(()) => judge(state, envelope, settings),
        Err(error) => {
            drop(envelope);
            Err(Stop::from(error))
        }
    }
}

/// Judges a line, and takes it where it has no fault.
fn take_line<W: Watch>(
    alloc: Global,
    state: &mut State,
    watch: &mut W,
    line: &[u8],
    settings: Settings,
) -> Result<(), Stop>
    ensures taken { TakesLine settings state.old state.new
        (judged_line settings state.old line.now) result }
    ensures followed { UnlessNoMemory result ((es : List SomeEnvelope) → W.follows watch.old es
        → W.follows watch.new (es ++ envelope_in (judged_line settings state.old line.now))) }
{
    if is_blank_line(line) {
        return Ok(());
    }
    match read_envelope(alloc, line) {
        Ok(envelope) => {
            let envelope = judged_as(state, envelope, settings);
            take_envelope(alloc, state, watch, envelope, settings)
        }
        Err(fault) => Err(Stop::from(fault)),
    }
}

/// The envelope of a line that stops the audit, read once more where that is wanted, and where the line has one.
///
/// # Errors
/// Where there is no memory for it.
fn read_last(alloc: Global, is_wanted: bool, line: &[u8]) -> Result<Option<Envelope>, AllocError>
    ensures { IfOk result (λ last. RereadsLine is_wanted last line.now) }
{
    if !is_wanted {
        return Ok(None);
    }
    match read_envelope(alloc, line) {
        Ok(envelope) => Ok(Some(envelope)),
        Err(EnvelopeFault::Line(_)) => Ok(None),
        Err(EnvelopeFault::Memory) => Err(AllocError),
    }
}

/// An audit that is under way.
#[derive(Drop)]
struct Judging<W> {
    state: State,
    watch: W,
    /// Whether the watch wants the envelope of the line that stops it.
    wants_last: bool,
    /// That envelope, where it is wanted and the line has one.
    last: Option<Envelope>,
    settings: Settings,
}

impl<W: Watch> TakeLines for Judging<W> {
    ghost takes = { λ old line result new. JudgesLine W.follows old line result new };

    fn take_line(&mut self, alloc: Global, line: &[u8]) -> Result<(), Stop> {
        let taken = take_line(alloc, &mut self.state, &mut self.watch, line, self.settings);
        if taken.is_err() {
            let last = read_last(alloc, self.wants_last, line)?;
            drop(replace(&mut self.last, last));
        }
        taken
    }
}

/// Judges a stream line by line, from its start.
fn audit_lines<R: ByteSource, W: Watch>(
    alloc: Global,
    judging: &mut Judging<W>,
    source: &mut R,
) -> Result<Audited, Trouble>
    requires nothing { summary_of judging.old.state
        ≡ empty_summary judging.old.settings.first_attempt }
    requires starts { W.follows judging.old.watch [] }
    ensures judged { OfReads (R.input source.old) (R.input source.new)
        (JudgesWith judging.old.settings (W.follows judging.new.watch) judging.new.last
        (summary_of judging.new.state) result) }
    ensures wanted { judging.old.wants_last ≡ true
        → IfOk result (λ audited. HasLast judging.new.last audited.verdict) }
    ensures at_end { GoodAtEnd (R.input source.new) result }
    ensures failures { CountsFailure (is_failed_read result) (R.input source.old).failed_calls
        (R.input source.new).failed_calls }
{
    match take_lines(alloc, judging, source) {
        Ok(_) if judging.state.is_finished() => Ok(Audited {
            verdict: Verdict::Good(judging.state.counts()),
            success: judging.state.says_success(),
        }),
        Ok(lines) => Ok(unsuccessful(Verdict::Bad {
            line: lines + 1,
            fault: StreamFault::NoRunFinished,
        })),
        Err(answer) => answer,
    }
}

/// An audit, with what went along with it and what it keeps.
#[derive(Drop)]
pub struct WatchedAudit<W> {
    /// What `audit_run` answers.
    pub audited: Audited,
    pub watch: W,
    /// The envelope of the line that decided, where the watch wants it and the line has one.
    pub last: Option<Envelope>,
    /// What is kept of all lines of a good stream, or of the lines before the one that has a fault.
    pub state: State,
}

/// The audit with its watch and what it keeps, where the stream was read.
fn with_watch<W: Drop>(
    audited: Result<Audited, Trouble>,
    watch: W,
    last: Option<Envelope>,
    state: State,
) -> Result<WatchedAudit<W>, Trouble>
    ensures { result ≡ with_watch watch last state audited }
{
    match audited {
        Ok(audited) => Ok(WatchedAudit {
            audited,
            watch,
            last,
            state,
        }),
        Err(trouble) => {
            drop(watch);
            drop(last);
            drop(state);
            Err(trouble)
        }
    }
}

/// Audits a stream by the settings, as `audit_run` does, and tells the watch of each envelope before it is judged. What the
/// watch is then: what it has to be after all envelopes of the stream, or after those up to the line that decides.
///
/// # Errors
/// As those of `audit_run`, and want of memory for the watch, or to read the line that decides once more for it.
pub fn audit_watched<R: ByteSource, W: Watch + Drop>(
    alloc: Global,
    seed: RandomState,
    source: &mut R,
    settings: Settings,
    watch: W,
) -> Result<WatchedAudit<W>, Trouble>
    requires starts { W.follows watch [] }
    // The audit, what the watch is, and for Good the results of the stream's cases, all of the same bytes.
    ensures same_bytes { OfReads (R.input source.old) (R.input source.new)
        (IsWatchedAuditOf settings W.follows result) }
    ensures wanted { W.rereads ≡ true
        → IfOk result (λ watched. HasLast watched.last watched.audited.verdict) }
    ensures at_end { GoodAtEnd (R.input source.new) (audit_in result) }
    ensures failures { CountsFailure (is_failed_read result) (R.input source.old).failed_calls
        (R.input source.new).failed_calls }
{
    let wants_last = watch.wants_last();
    let mut judging = Judging {
        state: State::new(alloc, seed, settings.first_attempt),
        watch,
        wants_last,
        last: None,
        settings,
    };
    let audited = audit_lines(alloc, &mut judging, source);
    with_watch(audited, judging.watch, judging.last, judging.state)
}

/// The audit alone.
fn audit_in<W: Drop>(watched: Result<WatchedAudit<W>, Trouble>) -> Result<Audited, Trouble>
    ensures { result ≡ audit_in watched }
{
    match watched {
        Ok(watched) => {
            let audited = watched.audited;
            drop(watched);
            Ok(audited)
        }
        Err(trouble) => Err(trouble),
    }
}

/// Audits a stream by the settings: whether its pickles are exactly those that its sources compile to, every reference names
/// an earlier declaration, every attempt started and finished each step of its test case once, in order, and success is
/// reported exactly if every test case's final attempt is at worst of a good status and nothing outside the attempts failed: no
/// source is refused, each run hook is at worst of a good status, and there is no exception. The settings say which statuses
/// are good, from which number the attempts of a test case are counted, and whether a hook or a step definition that is declared
/// again is passed over.
///
/// The verdict is Good with the stream's counts, or the first line that has a fault, or that shows why the stream is not
/// judged. Lines count from 1, with the blank ones; a fault at the end has the line after the last one. Judging stops at
/// that line: no more than 65,536 bytes after it are read. Each envelope is dropped once it is judged. With a Good verdict
/// comes whether the run says success.
///
/// # Errors
/// Why no further line could be read, where no line before has a fault. No read is repeated.
pub fn audit_run<R: ByteSource>(
    alloc: Global,
    seed: RandomState,
    source: &mut R,
    settings: Settings,
) -> Result<Audited, Trouble>
    // Of the bytes heard in this call, whatever comes after them; all of these at once:
    ensures all { Audits settings result (R.input source.old) (R.input source.new) }

    // Good only at the source's end, where the bytes heard are a good stream, and with its counts and what it says of success:
    // references, sources, cases, attempts, their numbers, retries, success and the rest.
    ensures good { GoodHeard settings (R.input source.old) (R.input source.new) result }
    // Bad only where no good stream has these first lines.
    ensures bad { OfInput (R.input source.old) (R.input source.new)
        (λ bytes. NoneIsGood settings bytes (verdict_in result)) }
    // The verdict is that of the first line that has a fault.
    ensures told { OfInput (R.input source.old) (R.input source.new)
        (λ bytes. AnswersTold settings bytes result) }
    // A good stream is answered Good, unless a read failed or memory was refused.
    ensures decided { OfInput (R.input source.old) (R.input source.new)
        (λ bytes. DecidesGood settings bytes result) }
    // Unsupported only at a line that shows the reason.
    ensures unsupported { OfInput (R.input source.old) (R.input source.new)
        (λ bytes. ShowsUnsupported bytes (verdict_in result)) }

    // A failed read is reported, and only where the lines before it show no fault.
    ensures failures { CountsFailure (is_failed_read result) (R.input source.old).failed_calls
        (R.input source.new).failed_calls }
    ensures read_failed { result ≡ Err ReadFailed
        → OfReads (R.input source.old) (R.input source.new) (ShowNoFault settings) }

    ensures ahead { OfReads (R.input source.old) (R.input source.new)
        (ReadsUpTo (verdict_in result)) }
{
    let watched = audit_watched(alloc, seed, source, settings, Unwatched);
    audit_in(watched)
}

/// The verdict alone.
fn verdict_of(audited: Result<Audited, Trouble>) -> Result<Verdict, Trouble>
    ensures { result ≡ verdict_in audited }
{
    match audited {
        Ok(audited) => Ok(audited.verdict),
        Err(trouble) => Err(trouble),
    }
}

/// Audits a stream by a policy of good statuses, with attempts counted from 0, as `audit_run` does under
/// `Settings::from(policy)`, and gives the verdict alone.
///
/// # Errors
/// As those of `audit_run`.
pub fn audit_with<R: ByteSource>(
    alloc: Global,
    seed: RandomState,
    source: &mut R,
    policy: Policy,
) -> Result<Verdict, Trouble>
    ensures { IsVerdictOf (settings_of policy) result (R.input source.old) (R.input source.new) }
{
    verdict_of(audit_run(alloc, seed, source, Settings::from(policy)))
}

/// Audits a stream by the strict policy, `audit_with` under `Policy::Strict`: the good statuses are `Passed` and `Skipped`.
///
/// # Errors
/// As those of `audit_run`.
pub fn audit<R: ByteSource>(
    alloc: Global,
    seed: RandomState,
    source: &mut R,
) -> Result<Verdict, Trouble>
    ensures { IsVerdictOf (settings_of Policy.Strict) result (R.input source.old)
        (R.input source.new) }
{
    audit_with(alloc, seed, source, Policy::Strict)
}

/// What takes the lines of a stream, one after another, until one of them stops it.
pub trait TakeLines {
    /// What it makes of a line: from what it was, by this line, with this result, to what it is.
    ghost takes: { Taking Self };

    /// Takes one line more, without its line feed.
    ///
    /// # Errors
    /// Why the reading ends at this line.
    fn take_line(&mut self, alloc: Global, line: &[u8]) -> Result<(), Stop>
        ensures { takes self.old line.now result self.new };
}

/// Lets `taker` take the lines of a stream, from its start, and gives how many there were.
///
/// # Errors
/// The answer at the first line that stops it, or why no further line could be read. No read is repeated, and no more than
/// 65,536 bytes after that line are read.
pub fn take_lines<T: TakeLines, R: ByteSource>(
    alloc: Global,
    taker: &mut T,
    source: &mut R,
) -> Result<u64, Result<Audited, Trouble>>
    // Of the bytes heard in this call, whatever comes after them: which of their lines were taken, and how that ended.
    ensures taken { OfReads (R.input source.old) (R.input source.new)
        (TakesStream T.takes taker.old taker.new result) }
    ensures few { IfOk result (λ lines. lines ≤ max_stream_bytes) }
    ensures at_end { OnOk result ((R.input source.new).is_over ≡ true) }
    ensures failures { CountsFailure (is_failed_taking result) (R.input source.old).failed_calls
        (R.input source.new).failed_calls }
{
    let mut feed = Feed::new(alloc);
    let mut number: u64 = 0;
    'lines: loop {
        match feed.next_line(source) {
            Ok(Some(line)) => {
                number += 1;
                match taker.take_line(alloc, line) {
                    Ok(()) => {}
                    Err(stop) => return Err(audited_at(stop, number)),
                }
            }
            Ok(None) => return Ok(number),
            Err(trouble) => return Err(Err(trouble)),
        }
    }
}

/// What is told of each envelope of a stream, in order, before the envelope is judged. `audit_watched` says by `follows` what it is
/// then, after all envelopes or after those up to the line that decides.
pub trait Watch {
    /// What it is after these envelopes.
    ghost follows: { Self → List SomeEnvelope → Type 0 };

    /// Whether the line that decides is read once more for it.
    ghost rereads: { Bool };

    /// One envelope more.
    ///
    /// # Errors
    /// Only where there is no memory for it.
    fn note(&mut self, alloc: Global, envelope: &Envelope) -> Result<(), AllocError>
        ensures { OnOk result ((es : List SomeEnvelope) → follows self.old es
            → follows self.new (es ++ envelope.now ∷ [])) };

    /// Whether it wants the envelope of the line that decides, which is then read once more.
    fn wants_last(&self) -> bool
        ensures { result ≡ rereads };
}

/// Nothing is kept of the envelopes.
#[derive(Drop)]
pub(crate) struct Unwatched;

impl Watch for Unwatched {
    ghost follows = { λ _ _. ⊤ };

    ghost rereads = { false };

    fn note(&mut self, _alloc: Global, _envelope: &Envelope) -> Result<(), AllocError> {
        Ok(())
    }

    fn wants_last(&self) -> bool {
        false
    }
}

/// The verdict on a stream that isn't good: of its run no success is known.
fn unsuccessful(verdict: Verdict) -> Audited
    ensures { result ≡ unsuccessful verdict }
{
    Audited {
        verdict,
        success: false,
    }
}

/// The answer where the reading ends at the line of this number, counted from 1.
fn audited_at(stop: Stop, line: u64) -> Result<Audited, Trouble>
    ensures { result ≡ audited_at line stop }
{
    match stop {
        Stop::Bad(fault) => Ok(unsuccessful(Verdict::Bad { line, fault })),
        Stop::Unsupported(reason) => Ok(unsuccessful(Verdict::Unsupported { line, reason })),
        Stop::Memory => Err(Trouble::Memory),
    }
}
