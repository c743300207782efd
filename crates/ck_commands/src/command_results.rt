//! The command `results`: what each attempt of a stream came to.
ghost use Rattle.std.specs.Prelude.{◌≡◌, IfOk, Ok, string_bytes, true, Err};
ghost use Rattle.cm_envelope.specs.Device.{OfInput, OfReads, CountsFailure};
ghost use Rattle.ck_command_line.specs.CommandLine.{ask_results};
ghost use Rattle.ck_commands.specs.Run.{Runs};
ghost use Rattle.std.specs.List.{flat_map};
ghost use Rattle.cm_attempt.specs.Results.{case_results};
ghost use Rattle.ck_commands.specs.Reading.{report_of_read, HasOutcome, LeavesTable, after_line, is_failed_attempts_read};
ghost use Rattle.ck_commands.specs.Results.{result_text, ResultsShowNoFault};
ghost use Rattle.cm_envelope.specs.declared.feed.Trouble.TheVariants.{ReadFailed};
ghost use Rattle.cm_stream.specs.Results.{first_results_fault};
ghost use Rattle.ck_commands.specs.declared.report.ExitStatus.TheVariants.{Done};

use crate::report::{ExitStatus, Report, reported_status, write_report};
use crate::verdict_report::verdict_report;
use cm_attempt::Track;
use cm_audit::{TakeLines, take_lines};
use cm_envelope::{ByteSink, ByteSource, Trouble, is_blank_line};
use cm_judge::{Stop, track};
use cm_reading::read_envelope;
use cm_stream::Audited;
use std::alloc::{AllocError, Global};
use std::hash::RandomState;

/// One line for each case, in order of declaration.
fn results_text(alloc: Global, attempts: &Track) -> Result<String, AllocError>
    ensures { IfOk result
        (λ text. string_bytes text ≡ flat_map result_text (case_results attempts.now)) }
{
    let results = attempts.results()?;
    let mut text = String::new(alloc);
    for case in &results {
        text.push_str(case.id)?;
        text.push_str(" ")?;
        text.push_str(reported_status(case.status))?;
        text.push_str("\n")?;
    }
    Ok(text)
}

/// The report of a stream that was read.
fn results_report(
    alloc: Global,
    read: &Result<Track, Result<Audited, Trouble>>,
) -> Result<Report, AllocError>
    ensures text { IfOk result
        (λ report. string_bytes report.text ≡ (report_of_read read.now).text) }
    ensures status { IfOk result (λ report. report.status ≡ (report_of_read read.now).status) }
{
    match read {
        Ok(attempts) => Ok(Report {
            text: results_text(alloc, attempts)?,
            status: ExitStatus::Done,
        }),
        Err(answer) => verdict_report(alloc, answer),
    }
}

/// Prints the results of the source's test cases, of each of which the first attempt has the number `first_attempt`, and gives
/// the exit code.
pub(crate) fn print_results<R: ByteSource, W: ByteSink>(
    alloc: Global,
    seed: RandomState,
    first_attempt: u64,
    source: &mut R,
    sink: &mut W,
) -> u8
    ensures { Runs (ask_results first_attempt) result (R.input source.old) (R.input source.new)
        (W.output sink.old) (W.output sink.new) }
{
    let read = read_results_attempts(alloc, seed, first_attempt, source);
    let report = results_report(alloc, &read);
    drop(read);
    write_report(sink, report)
}

/// The record of the attempts so far.
#[derive(Drop)]
struct Attempts {
    track: Track,
}

impl TakeLines for Attempts {
    ghost takes = { λ old line result new. LeavesTable (after_line old.track line) new.track
        result };

    /// The call of the record that the line's envelope makes, if it makes one.
    fn take_line(&mut self, alloc: Global, line: &[u8]) -> Result<(), Stop> {
        if is_blank_line(line) {
            return Ok(());
        }
        match read_envelope(alloc, line) {
            Ok(envelope) => match track(alloc, &mut self.track, envelope) {
                Ok(()) => Ok(()),
                Err(refusal) => Err(Stop::from(refusal)),
            },
            Err(fault) => Err(Stop::from(fault)),
        }
    }
}

/// Reads all lines of a stream, in which the first attempt of each test case has the number `first_attempt`.
///
/// # Errors
/// What an audit answers at the first line without an envelope or with a call that is refused, or why no further line could be
/// read. No read is repeated.
fn read_results_attempts<S: ByteSource>(
    alloc: Global,
    seed: RandomState,
    first_attempt: u64,
    source: &mut S,
) -> Result<Track, Result<Audited, Trouble>>
    ensures outcome { OfInput (S.input source.old) (S.input source.new)
        (λ bytes. HasOutcome (first_results_fault first_attempt bytes) result) }
    ensures whole { (report_of_read result).status ≡ Done → (S.input source.new).is_over ≡ true }
    ensures failures { CountsFailure (is_failed_attempts_read result)
        (S.input source.old).failed_calls (S.input source.new).failed_calls }
    ensures no_fault { result ≡ Err (Err ReadFailed)
        → OfReads (S.input source.old) (S.input source.new)
        (ResultsShowNoFault first_attempt) }
{
    let mut attempts = Attempts {
        track: Track::counting_from(alloc, seed, first_attempt),
    };
    match take_lines(alloc, &mut attempts, source) {
        Ok(_) => Ok(attempts.track),
        Err(answer) => Err(answer),
    }
}
