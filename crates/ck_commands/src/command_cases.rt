//! The command `cases`: the status, the place and the name of each test case of a good stream, and the pickles that no
//! test case names, in lines or as JSON.
ghost use Rattle.std.specs.Prelude.{◌≡◌, ◌++◌, List, IfOk, map, string_bytes};
ghost use Rattle.std.specs.List.{flat_map};
ghost use Rattle.cm_attempt.specs.Results.{result_view};
ghost use Rattle.cm_cases.specs.Listed.{listing_of};
ghost use Rattle.cm_cases.specs.JsonLines.{unrun_json};
ghost use Rattle.cm_cases.specs.Places.{unrun_lines};
ghost use Rattle.cm_envelope.specs.declared.envelope.Envelope.{Envelope};
ghost use Rattle.ck_command_line.specs.CommandLine.{ask_cases};
ghost use Rattle.ck_commands.specs.Cases.{IsCasesText, ReportsCases, case_object, case_text};
ghost use Rattle.ck_commands.specs.Run.{Runs};

use crate::report::{ExitStatus, Report, reported_status, write_report};
use crate::verdict_report::verdict_report;
use ck_command_line::CaseForm;
use cm_attempt::{CaseResult, Settings, Track};
use cm_audit_cases::{AuditedCases, audit_cases};
use cm_cases::{JsonLines, Listing, Places};
use cm_envelope::{ByteSink, ByteSource, Trouble};
use cm_stream::Verdict;
use std::alloc::{AllocError, Global};
use std::hash::RandomState;

/// One line for each of these cases, and then one for each pickle that no case names.
fn case_lines_of(
    alloc: Global,
    places: &Places<'_>,
    results: &[CaseResult<'_>],
) -> Result<String, AllocError>
    ensures { IfOk result (λ text. (es : List Envelope) → places.now ≡ listing_of es
        → string_bytes text
        ≡ flat_map (case_text es) (map result_view results.now) ++ unrun_lines es) }
{
    let mut text = String::new(alloc);
    for case in results {
        text.push_str(reported_status(case.status))?;
        places.add_case(&mut text, case.id)?;
    }
    places.add_unrun(&mut text)?;
    Ok(text)
}

/// The same lines as JSON.
fn case_json_of(
    alloc: Global,
    lines: &JsonLines<'_>,
    results: &[CaseResult<'_>],
) -> Result<String, AllocError>
    ensures { IfOk result (λ text. (es : List Envelope) → lines.now ≡ listing_of es
        → string_bytes text
        ≡ flat_map (case_object es) (map result_view results.now) ++ unrun_json es) }
{
    let mut text = String::new(alloc);
    for case in results {
        lines.add_case(alloc, &mut text, case.id, reported_status(case.status))?;
    }
    lines.add_unrun(alloc, &mut text)?;
    Ok(text)
}

/// One line for each case, in order of declaration, and then one for each pickle that no case names.
fn cases_text(
    alloc: Global,
    seed: RandomState,
    listing: &Listing,
    attempts: &Track,
) -> Result<String, AllocError>
    ensures { IfOk result
        (λ text. IsCasesText CaseForm.Plain listing.now attempts.now (string_bytes text)) }
{
    let results = attempts.results()?;
    let places = Places::of(alloc, seed, listing)?;
    let text = case_lines_of(alloc, &places, results.as_slice());
    drop(places);
    text
}

/// The same as JSON.
fn cases_json(
    alloc: Global,
    seed: RandomState,
    listing: &Listing,
    attempts: &Track,
) -> Result<String, AllocError>
    ensures { IfOk result
        (λ text. IsCasesText CaseForm.Json listing.now attempts.now (string_bytes text)) }
{
    let results = attempts.results()?;
    let lines = JsonLines::of(alloc, seed, listing)?;
    let text = case_json_of(alloc, &lines, results.as_slice());
    drop(lines);
    text
}

/// The lines in this form.
fn case_lines_in(
    alloc: Global,
    seed: RandomState,
    form: CaseForm,
    listing: &Listing,
    attempts: &Track,
) -> Result<String, AllocError>
    ensures { IfOk result (λ text. IsCasesText form listing.now attempts.now (string_bytes text)) }
{
    match form {
        CaseForm::Plain => cases_text(alloc, seed, listing, attempts),
        CaseForm::Json => cases_json(alloc, seed, listing, attempts),
    }
}

/// The report of a stream that was audited.
fn cases_report(
    alloc: Global,
    seed: RandomState,
    form: CaseForm,
    answer: &Result<AuditedCases, Trouble>,
) -> Result<Report, AllocError>
    ensures { IfOk result (λ report. ReportsCases form answer.now report) }
{
    match answer {
        Ok(cases) => match cases.audited.verdict {
            Verdict::Good(_) => Ok(Report {
                text: case_lines_in(alloc, seed, form, &cases.listing, &cases.attempts)?,
                status: ExitStatus::Done,
            }),
            Verdict::Bad { .. } | Verdict::Unsupported { .. } => {
                verdict_report(alloc, &Ok(cases.audited))
            }
        },
        Err(trouble) => verdict_report(alloc, &Err(*trouble)),
    }
}

/// Audits the source by the settings, prints the lines of a good stream's cases and of its pickles that no case names in the
/// form, or else the verdict, and gives the exit code.
pub(crate) fn print_cases<R: ByteSource, W: ByteSink>(
    alloc: Global,
    seed: RandomState,
    settings: Settings,
    form: CaseForm,
    source: &mut R,
    sink: &mut W,
) -> u8
    ensures { Runs (ask_cases settings form) result (R.input source.old) (R.input source.new)
        (W.output sink.old) (W.output sink.new) }
{
    let answer = audit_cases(alloc, seed, source, settings);
    let report = cases_report(alloc, seed, form, &answer);
    drop(answer);
    write_report(sink, report)
}
