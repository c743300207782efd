//! The commands `parse` and `compile`, over one feature file.
ghost use Rattle.std.specs.Prelude.{◌≡◌, IfOk, string_bytes, ℕ, List, true, OnOk, false};
ghost use Rattle.ck_command_line.specs.CommandLine.{ask_parse, ask_compile};
ghost use Rattle.ck_commands.specs.Output.{DeliversOne};
ghost use Rattle.ck_commands.specs.Run.{Runs, ReportsCompiled};
ghost use Rattle.ck_commands.specs.Features.{document_text, parse_report, fault_report, refused_text, IsFeatureOf};
ghost use Rattle.ck_commands.specs.Features.{is_failed_feature_read};
ghost use Rattle.cm_envelope.specs.Device.{CountsFailure, Hears, OfInput};

use crate::report::{ExitStatus, Report, flush_text, trouble_text, write_report, write_trouble};
use crate::text_input::{TextFault, read_text};
use cm_compile::{CompileFault, write_compiled};
use cm_envelope::{ByteSink, ByteSource, Trouble};
use cm_reasons::kind_label;
use gk_document::Document;
use gk_grammar::FaultKind;
use gk_tree::{ParseFault, parse};
use std::alloc::{AllocError, Global};
use std::hash::RandomState;

/// Why a source gives no document.
#[derive(Clone, Copy)]
pub(crate) enum FeatureFault {
    /// The text is no feature file.
    Refused(ParseFault),
    /// A read failed.
    ReadFailed,
    /// The bytes are no UTF-8.
    NotUtf8,
    /// There was no memory.
    Memory,
}

impl From<TextFault> for FeatureFault {
    ghost use Rattle.ck_commands.specs.Features.{feature_fault_of_text};

    ghost from_gives = { λ f e. e ≡ feature_fault_of_text f };

    fn from(fault: TextFault) -> FeatureFault {
        match fault {
            TextFault::ReadFailed => FeatureFault::ReadFailed,
            TextFault::TooLong => FeatureFault::Refused(ParseFault {
                kind: FaultKind::TooLong,
                line: 0,
                column: 0,
            }),
            TextFault::NotUtf8 => FeatureFault::NotUtf8,
            TextFault::Memory => FeatureFault::Memory,
        }
    }
}

impl From<ParseFault> for FeatureFault {
    ghost use Rattle.ck_commands.specs.Features.{feature_fault_of_parse};

    ghost from_gives = { λ f e. e ≡ feature_fault_of_parse f };

    fn from(fault: ParseFault) -> FeatureFault {
        match fault.kind {
            FaultKind::Memory => FeatureFault::Memory,
            _ => FeatureFault::Refused(fault),
        }
    }
}

/// Reads a source to its end and parses it.
///
/// # Errors
/// Why there is no document.
fn read_document<R: ByteSource>(alloc: Global, source: &mut R) -> Result<Document, FeatureFault>
    ensures feature { is_failed_feature_read result ≡ false
        → OfInput (R.input source.old) (R.input source.new) (λ bytes. IsFeatureOf bytes result) }
    ensures whole { OnOk result ((R.input source.new).is_over ≡ true) }
    ensures heard { (read : List ℕ) × Hears (R.input source.old) (R.input source.new) read }
    ensures failures { CountsFailure (is_failed_feature_read result)
        (R.input source.old).failed_calls (R.input source.new).failed_calls }
{
    let text = read_text(alloc, source)?;
    let document = parse(alloc, text.as_str())?;
    Ok(document)
}

/// The counts of a document's nodes and comments.
fn parsed_document_text(alloc: Global, document: &Document) -> Result<String, AllocError>
    ensures { IfOk result (λ text. string_bytes text ≡ document_text document.now) }
{
    let nodes = document.nodes;
    let comments = document.comments.len();
    let text = format!(in alloc; "ok nodes={nodes} comments={comments}\n")?;
    Ok(text)
}

/// The report of a feature file that was read.
fn parse_report(alloc: Global, read: &Result<Document, FeatureFault>) -> Result<Report, AllocError>
    ensures text { IfOk result
        (λ report. string_bytes report.text ≡ (parse_report read.now).text) }
    ensures status { IfOk result (λ report. report.status ≡ (parse_report read.now).status) }
{
    match read {
        Ok(document) => Ok(Report {
            text: parsed_document_text(alloc, document)?,
            status: ExitStatus::Done,
        }),
        Err(fault) => feature_fault_report(alloc, *fault),
    }
}

/// Prints what the source's feature file has, or why it gives no document, and gives the exit code.
pub(crate) fn print_feature<R: ByteSource, W: ByteSink>(
    alloc: Global,
    source: &mut R,
    sink: &mut W,
) -> u8
    ensures { Runs (ask_parse) result (R.input source.old) (R.input source.new)
        (W.output sink.old) (W.output sink.new) }
{
    let read = read_document(alloc, source);
    let report = parse_report(alloc, &read);
    drop(read);
    write_report(sink, report)
}

/// Writes the lines of a text and flushes them, or prints why there are none, and gives the exit code.
fn compile_text<W: ByteSink>(
    alloc: Global,
    seed: RandomState,
    uri: &str,
    text: &str,
    sink: &mut W,
) -> u8
    ensures { DeliversOne (ReportsCompiled uri.now text.now) result (W.output sink.old)
        (W.output sink.new) }
{
    match write_compiled(alloc, seed, uri, text, sink) {
        Ok(()) => flush_text(sink, ExitStatus::Done),
        Err(CompileFault::Parse(fault)) => print_feature_fault(
            alloc,
            FeatureFault::Refused(fault),
            sink,
        ),
        Err(CompileFault::Memory) => print_feature_fault(alloc, FeatureFault::Memory, sink),
        Err(CompileFault::WriteFailed) => write_trouble(sink),
    }
}

/// Writes the lines that the source's feature file compiles to under the uri, or why there are none, and gives the exit code.
pub(crate) fn print_compiled<R: ByteSource, W: ByteSink>(
    alloc: Global,
    seed: RandomState,
    uri: &str,
    source: &mut R,
    sink: &mut W,
) -> u8
    ensures { Runs (ask_compile uri.now) result (R.input source.old) (R.input source.new)
        (W.output sink.old) (W.output sink.new) }
{
    match read_text(alloc, source) {
        Ok(text) => compile_text(alloc, seed, uri, text.as_str(), sink),
        Err(fault) => print_feature_fault(alloc, FeatureFault::from(fault), sink),
    }
}

/// The line of a refused feature file: where its fault is, and which.
fn refused_feature_text(alloc: Global, fault: ParseFault) -> Result<String, AllocError>
    ensures { IfOk result (λ text. string_bytes text ≡ refused_text fault) }
{
    let ParseFault { kind, line, column } = fault;
    let label = kind_label(kind);
    let text = format!(in alloc; "refused {line}:{column} {label}\n")?;
    Ok(text)
}

/// The report of a feature file that gave no document.
fn feature_fault_report(alloc: Global, fault: FeatureFault) -> Result<Report, AllocError>
    ensures text { IfOk result (λ report. string_bytes report.text ≡ (fault_report fault).text) }
    ensures status { IfOk result (λ report. report.status ≡ (fault_report fault).status) }
{
    let text = match fault {
        FeatureFault::Refused(refused) => {
            return Ok(Report {
                text: refused_feature_text(alloc, refused)?,
                status: ExitStatus::Refused,
            });
        }
        FeatureFault::ReadFailed => trouble_text(alloc, Trouble::ReadFailed)?,
        FeatureFault::NotUtf8 => String::from_str(alloc, "trouble NotUtf8\n")?,
        FeatureFault::Memory => trouble_text(alloc, Trouble::Memory)?,
    };
    Ok(Report {
        text,
        status: ExitStatus::Trouble,
    })
}

/// Prints why a feature file gives no document, and gives the exit code.
fn print_feature_fault<W: ByteSink>(alloc: Global, fault: FeatureFault, sink: &mut W) -> u8
    ensures { DeliversOne (λ report. report ≡ fault_report fault) result (W.output sink.old)
        (W.output sink.new) }
{
    write_report(sink, feature_fault_report(alloc, fault))
}
