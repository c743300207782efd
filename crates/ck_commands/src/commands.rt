//! The program with its words: which command they choose, and `audit`.
ghost use Rattle.std.specs.Prelude.{◌≡◌, ◌≢◌, ◌∷◌, IfOk, List, codes, map, Ok};
ghost use Rattle.cm_envelope.specs.Device.{OfInput, OfReads};
ghost use Rattle.ck_command_line.specs.CommandLine.{Request, Asks, AsksFeatures, AsksNothing, AsksRuns, Command, FeaturesGate, RunsGate};
ghost use Rattle.ck_command_line.specs.CommandLine.{asked_of_choice, CallsForHelp, ask_gate, ask_audit};
ghost use Rattle.files.specs.Openings.{Opening};
ghost use Rattle.ck_commands.specs.Asked.{AsksFor, EachReleased, Leaves, LeavesAlone, ReleasesEach, ReleasesFeatures};
ghost use Rattle.ck_commands.specs.Output.{DeliversOne, NoneFailed, code_of, Delivers, report_made};
ghost use Rattle.ck_commands.specs.Run.{IsRefusal, IsRight, Reports, ShowsNone, TellsFailedRead, report_of_refusal, Runs};
ghost use Rattle.cm_attempt.specs.declared.status.Settings.{Settings as SomeSettings};
ghost use Rattle.cm_stream.specs.Release.{Conditions};
ghost use Rattle.ck_commands.specs.Standard.{GaveFeatures, GaveReleased, GaveReleasedEach};
ghost use Rattle.ck_commands.specs.declared.report.ExitStatus.TheVariants.{Done};

use crate::command_cases::print_cases;
use crate::command_feature::{print_compiled, print_feature};
use crate::command_gate::{print_gate, print_gate_runs};
use crate::command_gate_features::print_features;
use crate::command_results::print_results;
use crate::report::{ExitStatus, write_no_memory, write_report, write_text};
use crate::verdict_report::verdict_report;
use ck_command_line::{Choice, Refusal, choose};
use cm_attempt::Settings;
use cm_audit::audit_run;
use cm_envelope::{ByteSink, ByteSource, Reader, Writer};
use files::{Files, NoOpener, OpenedFiles};
use std::alloc::{AllocError, Global};
use std::hash::RandomState;
use std::io::{Read, Write};

/// The words with the program's name before them.
fn with_program_name<'a>(alloc: Global, words: &[&'a str]) -> Result<Vec<&'a str>, AllocError>
    ensures { IfOk result (λ all. map (λ w. w.now) all.items
        ≡ codes "cukecheck" ∷ map (λ w. w.now) words.now) }
{
    let mut all = Vec::new(alloc);
    all.push("cukecheck")?;
    all.extend_from_slice(words)?;
    Ok(all)
}

/// Runs what the words chose, and gives its exit code.
fn run_choice<F: Files, R: ByteSource, W: ByteSink>(
    alloc: Global,
    seed: RandomState,
    choice: Choice<'_>,
    files: &mut F,
    source: &mut R,
    sink: &mut W,
) -> u8
    ensures { Leaves (asked_of_choice choice.entry) result (F.openings files.old)
        (F.openings files.new) (F.looks files.old) (F.looks files.new)
        (R.input source.old) (R.input source.new) (W.output sink.old) (W.output sink.new) }
{
    match choice {
        Choice::Parse => print_feature(alloc, source, sink),
        Choice::Compile(uri) => print_compiled(alloc, seed, uri, source, sink),
        Choice::Audit(settings) => print_audit(alloc, seed, settings, source, sink),
        Choice::Gate(settings, conditions) => {
            print_gate(alloc, seed, settings, &conditions, source, sink)
        }
        Choice::GateRuns(settings, conditions, runs) => {
            let runs = runs.as_slice();
            print_gate_runs(
                alloc,
                seed,
                settings,
                &conditions,
                runs,
                files,
                source,
                sink,
            )
        }
        Choice::GateFeatures(settings, conditions, features, runs) => {
            let features = features.as_slice();
            let runs = runs.as_slice();
            print_features(
                alloc,
                seed,
                settings,
                &conditions,
                features,
                runs,
                files,
                source,
                sink,
            )
        }
        Choice::Results(first_attempt) => print_results(alloc, seed, first_attempt, source, sink),
        Choice::Cases(settings, form) => print_cases(alloc, seed, settings, form, source, sink),
    }
}

/// Runs what the words after the program's name ask for, and gives the code of its `ExitStatus`. The output is built whole, then
/// written, then flushed, and no read and no write is repeated. Each file is opened once, and closed before the next is opened.
pub fn run_with<F: Files, R: ByteSource, W: ByteSink>(
    alloc: Global,
    seed: RandomState,
    words: &[&str],
    files: &mut F,
    source: &mut R,
    sink: &mut W,
) -> u8
    // Of a command over standard input all that `run` says; of a gate over runs the report of each.
    ensures asked { (a : Request) → AsksFor words.now a
        → Leaves a result (F.openings files.old) (F.openings files.new)
        (F.looks files.old) (F.looks files.new)
        (R.input source.old) (R.input source.new) (W.output sink.old) (W.output sink.new) }

    // Words that ask for nothing are told the usage; help, and status 0, only where they call for help or for the version.
    ensures nothing { AsksNothing words.now
        → LeavesAlone words.now result (F.openings files.old) (F.openings files.new)
        (F.looks files.old) (F.looks files.new)
        (R.input source.old) (R.input source.new) (W.output sink.old) (W.output sink.new) }
    ensures refused { AsksNothing words.now → source.new ≡ source.old }

    // With status 0 of a gate over runs each of them was read to its end, and gave a released stream.
    ensures released { (g : RunsGate) → AsksRuns words.now g → result ≡ code_of ExitStatus.Done
        → ReleasesEach g (F.openings files.old) (F.openings files.new)
        (R.input source.old) (R.input source.new) }

    // With status 0 of a gate over feature files each of their scenarios ran in one of the runs, or may be left out by a tag.
    ensures features_released { (g : FeaturesGate) → AsksFeatures words.now g
        → result ≡ code_of ExitStatus.Done
        → ReleasesFeatures g (F.openings files.old) (F.openings files.new)
        (F.looks files.old) (F.looks files.new) (R.input source.old) (R.input source.new) }

    // A failed write or flush is seen in the status, and so is a failed read.
    ensures unwritten { (W.output sink.new).failed_calls ≢ (W.output sink.old).failed_calls
        → result ≡ code_of ExitStatus.Trouble }
    ensures unread { result ≡ code_of ExitStatus.Done
        → (R.input source.new).failed_calls ≡ (R.input source.old).failed_calls }
{
    let Ok(all) = with_program_name(alloc, words) else {
        return write_no_memory(sink);
    };
    match choose(alloc, all.as_slice()) {
        Ok(choice) => run_choice(alloc, seed, choice, files, source, sink),
        Err(refusal) => print_refusal(refusal, sink),
    }
}

/// Runs what the words ask for, as `run_with` does, where there are no files: none can be opened.
pub fn run<R: ByteSource, W: ByteSink>(
    alloc: Global,
    seed: RandomState,
    words: &[&str],
    source: &mut R,
    sink: &mut W,
) -> u8
    // Where no read fails, the command's report on the bytes heard, whatever comes after them, is printed with its status, or
    // that of no memory; where a write or the flush fails, a front of it and of `trouble WriteFailed`, with that of trouble.
    ensures answer { (c : Command) → Asks words.now c
        → NoneFailed (R.input source.old).failed_calls (R.input source.new).failed_calls
        → OfInput (R.input source.old) (R.input source.new)
        (λ bytes. DeliversOne (Reports c bytes) result (W.output sink.old) (W.output sink.new)) }

    // What the status says of the bytes heard, whatever fails. 0 is given only at the source's end: by `gate` only where the
    // bytes heard are a released stream, and so on for each command.
    ensures status { (c : Command) → Asks words.now c
        → IsRight c result (R.input source.old) (R.input source.new)
        (W.output sink.old) (W.output sink.new) }

    // After a failed read that is printed, and the lines before it show no fault.
    ensures no_fault { (c : Command) → Asks words.now c
        → (R.input source.new).failed_calls ≢ (R.input source.old).failed_calls
        → OfReads (R.input source.old) (R.input source.new) (ShowsNone c) }
    ensures read_failed { (c : Command) → Asks words.now c
        → (R.input source.new).failed_calls ≢ (R.input source.old).failed_calls
        → TellsFailedRead result (W.output sink.old) (W.output sink.new) }

    // Words that ask for nothing leave the source alone. They are told the usage; help, and status 0, only where they call
    // for help or for the version.
    ensures refused { AsksNothing words.now → source.new ≡ source.old }
    ensures usage { AsksNothing words.now
        → DeliversOne (IsRefusal words.now) result (W.output sink.old) (W.output sink.new) }

    // With status 0 of a gate over runs each of them was read to its end, and gave a released stream.
    ensures released { (g : RunsGate) → AsksRuns words.now g → result ≡ code_of ExitStatus.Done
        → (noted : List Opening) × EachReleased g.settings g.asked g.runs noted
        (R.input source.old) (R.input source.new) }

    // A failed write or flush is seen in the status, and so is a failed read.
    ensures unwritten { (W.output sink.new).failed_calls ≢ (W.output sink.old).failed_calls
        → result ≡ code_of ExitStatus.Trouble }
    ensures unread { result ≡ code_of ExitStatus.Done
        → (R.input source.new).failed_calls ≡ (R.input source.old).failed_calls }
{
    let mut files = OpenedFiles::new(alloc, NoOpener);
    let code = run_with(alloc, seed, words, &mut files, source, sink);
    drop(files);
    code
}

/// A run that ended: its exit code, its files, and its devices, whose histories clauses can name.
#[derive(Drop)]
pub struct Ended<F, R, W> {
    /// The code of the run's `ExitStatus`.
    pub code: u8,
    /// What opened files.
    pub files: F,
    /// What was read from.
    pub source: Reader<R>,
    /// What was written to.
    pub sink: Writer<W>,
}

/// Runs what the words after the program's name ask for, as `run_with` does, over files, a reader and a writer. The clauses ask
/// nothing of the reader: they hold of standard input, which shows no byte that is to come.
pub fn run_over<F: Files, R: Read, W: Write>(
    alloc: Global,
    seed: RandomState,
    words: &[&str],
    files: F,
    reader: R,
    writer: W,
) -> Ended<F, R, W>
    // With status 0 of a gate the bytes that the reader gave, up to its end, are a released stream.
    ensures released { (settings : SomeSettings) (asked : Conditions)
        → Asks words.now (ask_gate settings asked)
        → result.code ≡ code_of ExitStatus.Done
        → GaveReleased settings asked (⟦<Reader<R> as ByteSource>⟧.input result.source) }
    // With status 0 of a gate over runs each of them gave a released stream, up to its end.
    ensures each_released { (g : RunsGate) → AsksRuns words.now g
        → result.code ≡ code_of ExitStatus.Done
        → GaveReleasedEach g (F.openings files) (F.openings result.files)
        (⟦<Reader<R> as ByteSource>⟧.input result.source) }
    // With status 0 of a gate over feature files each of their scenarios ran in one of the runs, or may be left out by a tag.
    ensures features_released { (g : FeaturesGate) → AsksFeatures words.now g
        → result.code ≡ code_of ExitStatus.Done
        → GaveFeatures g (F.openings files) (F.openings result.files) (F.looks files)
        (F.looks result.files) (⟦<Reader<R> as ByteSource>⟧.input result.source) }
    // Words that ask for nothing end with status 0 only where they call for help or for the version.
    ensures usage { result.code ≡ code_of ExitStatus.Done → AsksNothing words.now
        → CallsForHelp words.now }
{
    let mut files = files;
    let mut source = Reader::new(reader);
    let mut sink = Writer::new(writer);
    let code = run_with(alloc, seed, words, &mut files, &mut source, &mut sink);
    Ended {
        code,
        files,
        source,
        sink,
    }
}

/// Prints what is said of words that ask for no command, and gives the exit code.
fn print_refusal<W: ByteSink>(refusal: Refusal, sink: &mut W) -> u8
    ensures { Delivers (report_of_refusal refusal) result (W.output sink.old)
        (W.output sink.new) }
{
    match refusal {
        Refusal::Usage(text) => write_text(sink, text.as_str(), ExitStatus::Usage),
        Refusal::Help(text) => write_text(sink, text.as_str(), ExitStatus::Done),
        Refusal::Memory => write_no_memory(sink),
    }
}

/// Audits the source by the settings, prints the verdict, and gives the exit code.
fn print_audit<R: ByteSource, W: ByteSink>(
    alloc: Global,
    seed: RandomState,
    settings: Settings,
    source: &mut R,
    sink: &mut W,
) -> u8
    ensures { Runs (ask_audit settings) result (R.input source.old) (R.input source.new)
        (W.output sink.old) (W.output sink.new) }
{
    let answer = audit_run(alloc, seed, source, settings);
    write_report(sink, verdict_report(alloc, &answer))
}
