//! The lines of a verdict on a stream.
ghost use Rattle.std.specs.Prelude.{◌≡◌, IfOk, string_bytes};
ghost use Rattle.cm_envelope.specs.Reading.{fault_named, field};
ghost use Rattle.cm_stream.specs.Findings.{IsBad, IsUnsupported, stream_fault_named};
ghost use Rattle.cm_stream.specs.Stream.{answer_of_audit};
ghost use Rattle.ck_commands.specs.Verdicts.{counts_text, fault_label, finding_text, line_label, plain_counts_text, reason_label};
ghost use Rattle.ck_commands.specs.Verdicts.{unrun_count_text, verdict_report};

use crate::report::{ExitStatus, Report, trouble_text};
use cm_envelope::{LineFault, Trouble};
use cm_stream::{Audited, Counts, Reason, StreamFault, Verdict};
use std::alloc::{AllocError, Global};

/// The label of a bad member, of this kind of envelope.
fn fault_field_text(alloc: Global, kind: &str, member: &str) -> Result<String, AllocError>
    ensures { IfOk result (λ text. string_bytes text ≡ line_label (field kind.now member.now)) }
{
    let text = format!(in alloc; "3 Field {kind}.{member}")?;
    Ok(text)
}

/// The number and the name of what is wrong with a line, and for a bad member its kind of envelope and its name.
fn verdict_fault_line(alloc: Global, fault: LineFault) -> Result<String, AllocError>
    ensures { IfOk result (λ text. string_bytes text ≡ line_label (fault_named fault)) }
{
    match fault {
        LineFault::NotJson => String::from_str(alloc, "1 NotJson"),
        LineFault::Shape => String::from_str(alloc, "2 Shape"),
        LineFault::Field(kind, member) => fault_field_text(alloc, kind, member),
    }
}

/// The number and the name of a fault.
fn verdict_fault_text(alloc: Global, fault: StreamFault) -> Result<String, AllocError>
    ensures { IfOk result (λ text. string_bytes text ≡ fault_label (stream_fault_named fault)) }
{
    let label = match fault {
        StreamFault::NoEnvelope(fault) => return verdict_fault_line(alloc, fault),
        StreamFault::DuplicateId => "4 DuplicateId",
        StreamFault::DuplicateUri => "5 DuplicateUri",
        StreamFault::UnknownReference => "6 UnknownReference",
        StreamFault::DocumentOfRefusedSource => "7 DocumentOfRefusedSource",
        StreamFault::TreeDiffers => "8 TreeDiffers",
        StreamFault::PickleDiffers => "9 PickleDiffers",
        StreamFault::ParseErrorOfGoodSource => "10 ParseErrorOfGoodSource",
        StreamFault::CaseStepsDiffer => "11 CaseStepsDiffer",
        StreamFault::AttemptNumber => "12 AttemptNumber",
        StreamFault::AttemptOverlap => "13 AttemptOverlap",
        StreamFault::StepOrder => "14 StepOrder",
        StreamFault::FinishedEarly => "15 FinishedEarly",
        StreamFault::SecondRunStarted => "16 SecondRunStarted",
        StreamFault::OutsideRun => "17 OutsideRun",
        StreamFault::AfterRunFinished => "18 AfterRunFinished",
        StreamFault::AttemptOpen => "19 AttemptOpen",
        StreamFault::SourceIncomplete => "20 SourceIncomplete",
        StreamFault::SuccessDiffers => "21 SuccessDiffers",
        StreamFault::NoRunFinished => "22 NoRunFinished",
        StreamFault::RunHookOpen => "23 RunHookOpen",
        StreamFault::RunHookTwice => "24 RunHookTwice",
    };
    Ok(String::from_str(alloc, label)?)
}

/// The number and the name of why a stream isn't judged.
fn verdict_reason_name(reason: Reason) -> &'static str
    ensures { result.now ≡ reason_label reason }
{
    match reason {
        Reason::Language => "1 Language",
        Reason::MediaType => "2 MediaType",
        Reason::UnknownStatus => "3 UnknownStatus",
        Reason::SourceTooLong => "5 SourceTooLong",
    }
}

/// The counts of a good stream, but for the pickles that no case names.
fn good_counts_text(alloc: Global, counts: Counts) -> Result<String, AllocError>
    ensures { IfOk result (λ text. string_bytes text ≡ plain_counts_text counts) }
{
    let Counts {
        sources,
        pickles,
        cases,
        attempts,
        ..
    } = counts;
    let text = format!(in alloc;
        "good sources={sources} pickles={pickles} cases={cases} attempts={attempts}"
    )?;
    Ok(text)
}

/// The pickles that no case names, where there are any.
fn good_unrun_text(alloc: Global, unrun: u64) -> Result<String, AllocError>
    ensures { IfOk result (λ text. string_bytes text ≡ unrun_count_text unrun) }
{
    if unrun == 0 {
        return Ok(String::new(alloc));
    }
    let text = format!(in alloc; " unrun={unrun}")?;
    Ok(text)
}

/// The line of a good stream.
pub(crate) fn good_text(alloc: Global, counts: Counts) -> Result<String, AllocError>
    ensures { IfOk result (λ text. string_bytes text ≡ counts_text counts) }
{
    let mut text = good_counts_text(alloc, counts)?;
    text.push_str(good_unrun_text(alloc, counts.unrun)?.as_str())?;
    text.push_str("\n")?;
    Ok(text)
}

/// The line of a stream that is bad at a line.
fn bad_text(alloc: Global, line: u64, fault: StreamFault) -> Result<String, AllocError>
    ensures { IfOk result (λ text. string_bytes text
        ≡ finding_text line (IsBad (stream_fault_named fault))) }
{
    let label = verdict_fault_text(alloc, fault)?;
    let text = format!(in alloc; "bad line {line}: {label}\n")?;
    Ok(text)
}

/// The line of a stream that isn't judged from a line on.
fn unsupported_text(alloc: Global, line: u64, reason: Reason) -> Result<String, AllocError>
    ensures { IfOk result
        (λ text. string_bytes text ≡ finding_text line (IsUnsupported reason)) }
{
    let label = verdict_reason_name(reason);
    let text = format!(in alloc; "unsupported line {line}: {label}\n")?;
    Ok(text)
}

/// The text of what an audit answered.
fn verdict_text(alloc: Global, answer: &Result<Audited, Trouble>) -> Result<String, AllocError>
    ensures { IfOk result (λ text. string_bytes text
        ≡ (verdict_report (answer_of_audit answer.now)).text) }
{
    match answer {
        Ok(audited) => match audited.verdict {
            Verdict::Good(counts) => good_text(alloc, counts),
            Verdict::Bad { line, fault } => bad_text(alloc, line, fault),
            Verdict::Unsupported { line, reason } => unsupported_text(alloc, line, reason),
        },
        Err(trouble) => trouble_text(alloc, *trouble),
    }
}

/// The status of what an audit answered.
fn verdict_status(answer: &Result<Audited, Trouble>) -> ExitStatus
    ensures { result ≡ (verdict_report (answer_of_audit answer.now)).status }
{
    match answer {
        Ok(audited) => match audited.verdict {
            Verdict::Good(_) => ExitStatus::Done,
            Verdict::Bad { .. } => ExitStatus::Refused,
            Verdict::Unsupported { .. } => ExitStatus::Unsupported,
        },
        Err(_) => ExitStatus::Trouble,
    }
}

/// The report of what an audit answered.
pub(crate) fn verdict_report(
    alloc: Global,
    answer: &Result<Audited, Trouble>,
) -> Result<Report, AllocError>
    ensures text { IfOk result (λ report. string_bytes report.text
        ≡ (verdict_report (answer_of_audit answer.now)).text) }
    ensures status { IfOk result (λ report. report.status
        ≡ (verdict_report (answer_of_audit answer.now)).status) }
{
    let status = verdict_status(answer);
    let text = verdict_text(alloc, answer)?;
    Ok(Report { text, status })
}
