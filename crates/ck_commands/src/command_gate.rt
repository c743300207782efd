//! The command `gate`: whether a run is to be released.
ghost use Rattle.std.specs.Prelude.{◌≡◌, ◌++◌, IfOk, Ok, string_bytes, OnOk, map, List, true, [], if◌then◌else◌};
ghost use Rattle.cm_stream.specs.Release.{conditions_of};
ghost use Rattle.cm_stream.specs.Stream.{answer_of_audit};
ghost use Rattle.ck_command_line.specs.CommandLine.{ask_gate};
ghost use Rattle.ck_commands.specs.Output.{IsReport, report_made, trouble_report};
ghost use Rattle.ck_commands.specs.Gate.{ReportsRelease, held_report, hold_name, release_text, held_status, second_line};
ghost use Rattle.ck_commands.specs.Run.{IsReportOf, Runs};
ghost use Rattle.ck_commands.specs.Verdicts.{verdict_report};
ghost use Rattle.ck_commands.specs.Judged.{JudgesRuns, counts_made, run_report, JudgesRun, JudgesStream, added_counts};
ghost use Rattle.ck_commands.specs.Judged.{counted_in, no_counts};
ghost use Rattle.ck_commands.specs.Runs.{GatesRuns, named_text, status_after, NotesReading, Reading, ReadsRun, lines_after};
ghost use Rattle.ck_commands.specs.Runs.{name_front};
ghost use Rattle.files.specs.Openings.{Opening};
ghost use Rattle.std.specs.Char.{encode_utf8};
ghost use Rattle.std.specs.Str.{chars};

use crate::report::{ExitStatus, Report, trouble_text, write_report};
use crate::verdict_report::{good_text, verdict_report};
use cm_attempt::Settings;
use cm_audit_release::{AuditedRelease, audit_part, audit_release};
use cm_cases::add_shown;
use cm_envelope::{ByteSink, ByteSource, Trouble};
use cm_ran::Marks;
use cm_stream::{Conditions, Counts, Hold, ReleaseCounts, Verdict};
use files::{FileTrouble, Files};
use std::alloc::{AllocError, Global};
use std::hash::RandomState;

/// The name of a hold, after the word `stop`.
fn gate_hold_name(hold: Hold) -> &'static str
    ensures { result.now ≡ hold_name hold }
{
    match hold {
        Hold::NotSuccessful => "stop NotSuccessful",
        Hold::Empty => "stop Empty",
        Hold::Unrun => "stop Unrun",
        Hold::Retried => "stop Retried",
        Hold::Skipped => "stop Skipped",
        Hold::Stepless => "stop Stepless",
        Hold::Undefined => "stop Undefined",
    }
}

/// The line of a released run, with what was let pass.
fn release_text(alloc: Global, counts: Counts, found: ReleaseCounts) -> Result<String, AllocError>
    ensures { IfOk result (λ text. string_bytes text ≡ release_text counts found) }
{
    let retried = found.retried;
    let skipped = found.skipped;
    let unrun = counts.unrun;
    let text = format!(in alloc; "release retried={retried} skipped={skipped} unrun={unrun}\n")?;
    Ok(text)
}

/// Adds the line of why the run isn't to be released and the reasons below it, or the line of what was let pass; of a part that is
/// released nothing.
fn add_gate_line(
    alloc: Global,
    text: &mut String,
    is_part: bool,
    counts: Counts,
    release: &AuditedRelease,
) -> Result<(), AllocError>
    ensures { IfOk result (λ done. string_bytes text.new ≡ string_bytes text.old
        ++ second_line is_part release.now.hold counts release.now.found
        (string_bytes release.now.reasons)) }
{
    match release.hold {
        Some(hold) => {
            text.push_str(gate_hold_name(hold))?;
            text.push_str("\n")?;
            text.push_str(release.reasons.as_str())
        }
        None if is_part => Ok(()),
        None => text.push_str(release_text(alloc, counts, release.found)?.as_str()),
    }
}

/// The status of a good run.
fn gate_status(hold: Option<Hold>) -> ExitStatus
    ensures { result ≡ held_status hold }
{
    match hold {
        Some(_) => ExitStatus::Held,
        None => ExitStatus::Done,
    }
}

/// The report of a good stream.
fn good_gate_report(
    alloc: Global,
    is_part: bool,
    counts: Counts,
    release: &AuditedRelease,
) -> Result<Report, AllocError>
    ensures { IfOk result (IsReport (held_report is_part release.now.hold counts
        release.now.found (string_bytes release.now.reasons))) }
{
    let mut text = good_text(alloc, counts)?;
    add_gate_line(alloc, &mut text, is_part, counts, release)?;
    Ok(Report {
        text,
        status: gate_status(release.hold),
    })
}

/// The report of an audit, with what is told of the line that decides below it.
fn told_gate_report(alloc: Global, release: &AuditedRelease) -> Result<Report, AllocError>
    ensures text { IfOk result (λ report. string_bytes report.text
        ≡ (verdict_report (answer_of_audit (Ok release.now.audited))).text
        ++ string_bytes release.now.reasons) }
    ensures status { IfOk result (λ report. report.status
        ≡ (verdict_report (answer_of_audit (Ok release.now.audited))).status) }
{
    let Report { mut text, status } = verdict_report(alloc, &Ok(release.audited))?;
    text.push_str(release.reasons.as_str())?;
    Ok(Report { text, status })
}

/// The report of a stream that was audited.
fn gate_report_of(
    alloc: Global,
    is_part: bool,
    answer: &Result<AuditedRelease, Trouble>,
) -> Result<Report, AllocError>
    ensures { IfOk result (ReportsRelease is_part answer.now) }
{
    match answer {
        Ok(release) => match release.audited.verdict {
            Verdict::Good(counts) => good_gate_report(alloc, is_part, counts, release),
            Verdict::Bad { .. } | Verdict::Unsupported { .. } => told_gate_report(alloc, release),
        },
        Err(trouble) => verdict_report(alloc, &Err(*trouble)),
    }
}

/// Audits the source by the settings. The report has the verdict and, of a good stream, why its run isn't to be released under these
/// conditions, with its reasons, or what was let pass; of another what is told of the line that decides.
fn gate_report<R: ByteSource>(
    alloc: Global,
    seed: RandomState,
    settings: Settings,
    conditions: &Conditions<'_>,
    source: &mut R,
) -> Result<Report, AllocError>
    ensures { IsReportOf (ask_gate settings (conditions_of conditions.now)) (report_made result)
        (R.input source.old) (R.input source.new) }
{
    let answer = audit_release(alloc, seed, source, settings, conditions);
    let report = gate_report_of(alloc, conditions.is_part, &answer);
    drop(answer);
    report
}

/// Prints that report, and gives the exit code.
pub(crate) fn print_gate<R: ByteSource, W: ByteSink>(
    alloc: Global,
    seed: RandomState,
    settings: Settings,
    conditions: &Conditions<'_>,
    source: &mut R,
    sink: &mut W,
) -> u8
    ensures { Runs (ask_gate settings (conditions_of conditions.now)) result
        (R.input source.old) (R.input source.new) (W.output sink.old) (W.output sink.new) }
{
    let report = gate_report(alloc, seed, settings, conditions, source);
    write_report(sink, report)
}

/// The first of the two that isn't that of what was done.
fn gate_status_of_runs(first: ExitStatus, next: ExitStatus) -> ExitStatus
    ensures { result ≡ status_after first next }
{
    match first {
        ExitStatus::Done => next,
        other => other,
    }
}

/// Adds the lines of a run's report, or that there was no memory for it, each after the run's name.
fn add_gate_run(
    alloc: Global,
    text: &mut String,
    name: &str,
    run: &Result<JudgedRun, AllocError>,
) -> Result<(), AllocError>
    ensures { OnOk result (string_bytes text.new ≡ string_bytes text.old
        ++ named_text name.now (run_report run.now).text) }
{
    match run {
        Ok(run) => add_named(alloc, text, name, run.report.text.as_str()),
        Err(_) => add_named(alloc, text, name, "trouble Memory\n"),
    }
}

/// The status of a run's report, or that of trouble where there was no memory for it.
fn gate_status_of_run(run: &Result<JudgedRun, AllocError>) -> ExitStatus
    ensures { result ≡ (run_report run.now).status }
{
    match run {
        Ok(run) => run.report.status,
        Err(_) => ExitStatus::Trouble,
    }
}

/// What is counted of a run.
fn gate_counts_of_run(run: &Result<JudgedRun, AllocError>) -> GateCounts
    ensures { result ≡ counts_made run.now }
{
    match run {
        Ok(run) => run.counts,
        Err(_) => GateCounts::none(),
    }
}

/// Judges all runs, each in its turn, whatever the ones before gave. The report has all lines, each after the name of its run.
pub(crate) fn judge_runs<F: Files, R: ByteSource>(
    alloc: Global,
    seed: RandomState,
    settings: Settings,
    conditions: &Conditions<'_>,
    runs: &[&str],
    files: &mut F,
    source: &mut R,
    marks: &mut Marks<'_>,
) -> Result<JudgedRun, AllocError>
    ensures judged { IfOk result (λ all. JudgesRuns (record {
      settings = settings;
      asked = conditions_of conditions.now;
      runs = map (λ run. run.now) runs.now;
    }) (F.openings files.old) (F.openings files.new) (R.input source.old)
        (R.input source.new) marks.old marks.new (report_made (Ok all.report)) all.counts) }
    ensures looks { F.looks files.new ≡ F.looks files.old }
{
    let mut text = String::new(alloc);
    let mut status = ExitStatus::Done;
    let mut counts = GateCounts::none();
    for run in runs {
        let judged = judge_run(alloc, seed, settings, conditions, files, source, run, marks);
        add_gate_run(alloc, &mut text, run, &judged)?;
        status = gate_status_of_runs(status, gate_status_of_run(&judged));
        counts = counts.with(gate_counts_of_run(&judged));
        drop(judged);
    }
    let report = Report { text, status };
    Ok(JudgedRun { report, counts })
}

/// Prints the report of all runs, and gives the exit code: that of the first run that isn't to be released, if any.
pub(crate) fn print_gate_runs<F: Files, R: ByteSource, W: ByteSink>(
    alloc: Global,
    seed: RandomState,
    settings: Settings,
    conditions: &Conditions<'_>,
    runs: &[&str],
    files: &mut F,
    source: &mut R,
    sink: &mut W,
) -> u8
    ensures gate { GatesRuns (record {
      settings = settings;
      asked = conditions_of conditions.now;
      runs = map (λ run. run.now) runs.now;
    }) result (F.openings files.old) (F.openings files.new) (R.input source.old)
        (R.input source.new) (W.output sink.old) (W.output sink.new) }
    ensures looks { F.looks files.new ≡ F.looks files.old }
{
    let mut marks = Marks::new(alloc, seed);
    let judged = judge_runs(
        alloc, seed, settings, conditions, runs, files, source, &mut marks,
    );
    drop(marks);
    match judged {
        Ok(judged) => write_report(sink, Ok(judged.report)),
        Err(refused) => write_report(sink, Err(refused)),
    }
}

/// What was judged of a run, or of several: the report, and what is counted of those that are released.
#[derive(Drop)]
pub(crate) struct JudgedRun {
    pub(crate) report: Report,
    pub(crate) counts: GateCounts,
}

/// Judges the run whose stream the source gives. Where it is released, what ran of the marked texts is marked.
pub(crate) fn judge_opened_run<R: ByteSource>(
    alloc: Global,
    seed: RandomState,
    settings: Settings,
    conditions: &Conditions<'_>,
    source: &mut R,
    marks: &mut Marks<'_>,
) -> Result<JudgedRun, AllocError>
    ensures { JudgesStream settings (conditions_of conditions.now) (R.input source.old)
        (R.input source.new) marks.old marks.new (run_report result) (counts_made result) }
{
    let answer = audit_part(alloc, seed, source, settings, conditions, marks);
    let counts = gate_counts_of(&answer);
    let report = gate_report_of(alloc, conditions.is_part, &answer);
    drop(answer);
    with_gate_counts(report, counts)
}

/// The report of a file that can't be opened.
fn unopened_run(alloc: Global) -> Result<JudgedRun, AllocError>
    ensures { IfOk result (λ run. run_report (Ok run) ≡ trouble_report Trouble.ReadFailed) }
{
    let report = Report {
        text: trouble_text(alloc, Trouble::ReadFailed)?,
        status: ExitStatus::Trouble,
    };
    Ok(JudgedRun {
        report,
        counts: GateCounts::none(),
    })
}

/// Judges the run whose stream is the file of this name.
fn judge_run_file<F: Files>(
    alloc: Global,
    seed: RandomState,
    settings: Settings,
    conditions: &Conditions<'_>,
    files: &mut F,
    name: &str,
    marks: &mut Marks<'_>,
) -> Result<JudgedRun, AllocError>
    ensures judged { (noted : List Opening) × (reading : Reading)
        × (F.openings files.new ≡ F.openings files.old ++ noted)
        × NotesReading name.now noted reading
        × JudgesRun settings (conditions_of conditions.now) reading marks.old marks.new
        (run_report result) (counts_made result) }
    ensures looks { F.looks files.new ≡ F.looks files.old }
{
    match files.open(name) {
        Ok(mut file) => {
            let run = judge_opened_run(alloc, seed, settings, conditions, &mut file.source, marks);
            match files.close(file) {
                Ok(()) => run,
                Err(refused) => {
                    drop(run);
                    Err(refused)
                }
            }
        }
        Err(FileTrouble::ReadFailed) => unopened_run(alloc),
        Err(FileTrouble::Memory) => Err(AllocError),
    }
}

/// Judges the run of this name: standard input, or else a file.
fn judge_run<F: Files, R: ByteSource>(
    alloc: Global,
    seed: RandomState,
    settings: Settings,
    conditions: &Conditions<'_>,
    files: &mut F,
    source: &mut R,
    name: &str,
    marks: &mut Marks<'_>,
) -> Result<JudgedRun, AllocError>
    ensures judged { (noted : List Opening) × (reading : Reading)
        × (F.openings files.new ≡ F.openings files.old ++ noted)
        × ReadsRun name.now noted (R.input source.old) (R.input source.new) reading
        × JudgesRun settings (conditions_of conditions.now) reading marks.old marks.new
        (run_report result) (counts_made result) }
    ensures looks { F.looks files.new ≡ F.looks files.old }
{
    if name == "-" {
        judge_opened_run(alloc, seed, settings, conditions, source, marks)
    } else {
        judge_run_file(alloc, seed, settings, conditions, files, name, marks)
    }
}

/// What is counted of released runs.
#[derive(Clone, Copy, Drop)]
pub(crate) struct GateCounts {
    /// Test cases.
    pub(crate) cases: u64,
    /// Pickles with more than one attempt.
    pub(crate) retried: u64,
    /// Test cases whose last attempt has a skipped step.
    pub(crate) skipped: u64,
}

impl GateCounts {
    /// Those of no run.
    pub(crate) fn none() -> GateCounts
        ensures { result ≡ no_counts }
    {
        GateCounts {
            cases: 0,
            retried: 0,
            skipped: 0,
        }
    }

    /// Those of these runs and of one more.
    pub(crate) fn with(self, more: GateCounts) -> GateCounts
        ensures { result ≡ added_counts self more }
    {
        GateCounts {
            cases: self.cases.saturating_add(more.cases),
            retried: self.retried.saturating_add(more.retried),
            skipped: self.skipped.saturating_add(more.skipped),
        }
    }
}

/// What is counted of a run that was audited; of one that isn't good nothing.
fn gate_counts_of(answer: &Result<AuditedRelease, Trouble>) -> GateCounts
    ensures { result ≡ counted_in answer.now }
{
    let Ok(release) = answer else {
        return GateCounts::none();
    };
    match release.audited.verdict {
        Verdict::Good(counts) => GateCounts {
            cases: counts.cases,
            retried: release.found.retried,
            skipped: release.found.skipped,
        },
        Verdict::Bad { .. } | Verdict::Unsupported { .. } => GateCounts::none(),
    }
}

/// The report with the counts.
fn with_gate_counts(
    report: Result<Report, AllocError>,
    counts: GateCounts,
) -> Result<JudgedRun, AllocError>
    ensures report { run_report result ≡ report_made report }
    ensures counts { IfOk result (λ run. run.counts ≡ counts) }
{
    Ok(JudgedRun {
        report: report?,
        counts,
    })
}

/// What stands before each line: the name, as it is shown within a line, and `: `.
fn name_front(alloc: Global, name: &str) -> Result<String, AllocError>
    ensures { IfOk result (λ front. string_bytes front ≡ name_front name.now) }
{
    let mut front = String::new(alloc);
    add_shown(&mut front, name)?;
    front.push_str(": ")?;
    Ok(front)
}

/// Adds a character, after the front where it begins a line.
fn add_named_char(text: &mut String, front: &str, begins: bool, c: char) -> Result<(), AllocError>
    ensures { OnOk result (string_bytes text.new ≡ string_bytes text.old
        ++ ((if begins then front.now else []) ++ encode_utf8 c)) }
{
    if begins {
        text.push_str(front)?;
    }
    text.push(c)
}

/// Adds the lines, each after the front.
fn add_named_lines(text: &mut String, front: &str, lines: &str) -> Result<(), AllocError>
    ensures { OnOk result (string_bytes text.new ≡ string_bytes text.old
        ++ lines_after front.now true (chars lines.now)) }
{
    let mut begins = true;
    for c in lines.chars() {
        add_named_char(text, front, begins, c)?;
        begins = c == '\n';
    }
    Ok(())
}

/// Adds the lines, each after the name, as it is shown within a line, and `: `.
fn add_named(alloc: Global, text: &mut String, name: &str, lines: &str) -> Result<(), AllocError>
    ensures { OnOk result (string_bytes text.new ≡ string_bytes text.old
        ++ named_text name.now lines.now) }
{
    let front = name_front(alloc, name)?;
    add_named_lines(text, front.as_str(), lines)
}
