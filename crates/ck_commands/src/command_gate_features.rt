//! The command `gate` over feature files: whether each of their scenarios ran in one of the runs.
ghost use Rattle.std.specs.Prelude.{◌≡◌, ◌++◌, IfOk, Ok, string_bytes, OnOk, map, List, ◌∷◌, [], IfErr, option_map};
ghost use Rattle.cm_stream.specs.Release.{conditions_of, Conditions as SomeConditions};
ghost use Rattle.ck_commands.specs.Output.{report_made};
ghost use Rattle.std.specs.List.{list_all};
ghost use Rattle.cm_missing.specs.Missing.{AskedFile, IsMissingOf};
ghost use Rattle.cm_ran.specs.Marks.{HasWholeRows, marked_texts};
ghost use Rattle.feature_paths.specs.Shown.{faulty};
ghost use Rattle.ck_commands.specs.FeatureFiles.{asked_once, fault_name, faulty_report, ReadsFiles};
ghost use Rattle.ck_commands.specs.FilesAsked.{GatesFeatures, IsFeaturesReport, files_text};
ghost use Rattle.ck_commands.specs.FilesKept.{AddsLast, JudgesParts, ReportsAsked, all_ran, asked_by, file_of, AsFileText, FailsFor};
ghost use Rattle.ck_commands.specs.FilesKept.{GivesFeatures, HasTexts, IsUnmarked, ReadsText, TellsFeatures, TellsFile, path_trouble};
ghost use Rattle.ck_commands.specs.FilesKept.{row_of};

use crate::command_gate::{GateCounts, JudgedRun, judge_opened_run, judge_runs};
use crate::report::{ExitStatus, Report, write_report};
use crate::text_input::{TextFault, read_text};
use cm_attempt::Settings;
use cm_cases::add_shown;
use cm_envelope::{ByteSink, ByteSource};
use cm_missing::Missing;
use cm_ran::Marks;
use cm_stream::Conditions;
use feature_paths::{Fault, FaultyPath, PathTrouble, feature_paths};
use files::{FileTrouble, Files};
use std::alloc::{AllocError, Global};
use std::hash::RandomState;

/// Judges the runs that are named, or where none is, the one that the source gives.
fn judge_runs_for_features<F: Files, R: ByteSource>(
    alloc: Global,
    seed: RandomState,
    settings: Settings,
    conditions: &Conditions<'_>,
    runs: &[&str],
    files: &mut F,
    source: &mut R,
    marks: &mut Marks<'_>,
) -> Result<JudgedRun, AllocError>
    ensures judged { IfOk result (λ all. JudgesParts settings (conditions_of conditions.now)
        (map (λ run. run.now) runs.now) (F.openings files.old) (F.openings files.new)
        (R.input source.old) (R.input source.new) marks.old marks.new
        (report_made (Ok all.report)) all.counts) }
    ensures looks { F.looks files.new ≡ F.looks files.old }
{
    if !runs.is_empty() {
        return judge_runs(
            alloc, seed, settings, conditions, runs, files, source, marks,
        );
    }
    let JudgedRun { report, counts } = judge_opened_run(
        alloc, seed, settings, conditions, source, marks,
    )?;
    let counts = GateCounts::none().with(counts);
    Ok(JudgedRun { report, counts })
}

/// Whether all flags are set.
fn feature_scenarios_ran(flags: &[bool]) -> bool
    ensures { result ≡ list_all (λ flag. flag) flags.now }
{
    flags.iter().all(|flag| *flag)
}

/// Whether there are flags, and all are set.
fn feature_ran(flags: &[bool]) -> bool
    ensures { result ≡ all_ran flags.now }
{
    !flags.is_empty() && feature_scenarios_ran(flags)
}

/// Adds a file to what is missing. Where each of its scenarios ran, its text isn't parsed again.
fn add_feature(
    alloc: Global,
    seed: RandomState,
    conditions: &Conditions<'_>,
    file: &FeatureFile,
    marks: &Marks<'_>,
    missing: &mut Missing,
) -> Result<(), AllocError>
    ensures { OnOk result ((files : List AskedFile) → HasWholeRows marks.now
        → IsMissingOf (conditions_of conditions.now) files missing.old
        → IsMissingOf (conditions_of conditions.now)
        (files ++ asked_by marks.now (file_of file.now) ∷ []) missing.new) }
{
    let flags = feature_flags_of(marks, file);
    if feature_ran(flags) {
        return missing.add_whole(flags.len());
    }
    let path = file.path.as_str();
    missing.add_file(alloc, seed, path, file.text(), conditions, flags)
}

/// What is missing of the files.
fn missing_features(
    alloc: Global,
    seed: RandomState,
    conditions: &Conditions<'_>,
    asked: &[&FeatureFile],
    marks: &Marks<'_>,
) -> Result<Missing, AllocError>
    ensures { IfOk result (λ missing. HasWholeRows marks.now
        → IsMissingOf (conditions_of conditions.now)
        (map (λ f. asked_by marks.now (file_of f.now)) asked.now) missing) }
{
    let mut missing = Missing::new(alloc);
    for file in asked {
        add_feature(alloc, seed, conditions, file, marks, &mut missing)?;
    }
    Ok(missing)
}

/// The line of a release of all files.
fn features_text(
    alloc: Global,
    files: usize,
    scenarios: u64,
    unrun: u64,
    counts: GateCounts,
) -> Result<String, AllocError>
    ensures { IfOk result (λ text. string_bytes text ≡ files_text files scenarios unrun counts) }
{
    let retried = counts.retried;
    let skipped = counts.skipped;
    let text = format!(in alloc;
        "release files={files} scenarios={scenarios} retried={retried} skipped={skipped} unrun={unrun}\n"
    )?;
    Ok(text)
}

/// Adds what is told last, and gives its status: what is missing; else that nothing ran, or that all is well.
fn add_features_end(
    alloc: Global,
    text: &mut String,
    files: usize,
    counts: GateCounts,
    missing: &Missing,
) -> Result<ExitStatus, AllocError>
    ensures { IfOk result (λ status. (asked : SomeConditions) (fs : List AskedFile)
        → IsMissingOf asked fs missing.now
        → AddsLast asked fs files counts (string_bytes text.old) (string_bytes text.new) status) }
{
    if !missing.is_none() {
        text.push_str("stop Missing\n")?;
        missing.add_lines(text)?;
        return Ok(ExitStatus::Held);
    }
    if counts.cases == 0 {
        text.push_str("stop Empty\n")?;
        return Ok(ExitStatus::Held);
    }
    let line = features_text(alloc, files, missing.scenarios(), missing.unrun(), counts)?;
    text.push_str(line.as_str())?;
    Ok(ExitStatus::Done)
}

/// The report of released runs, with what is told of the files below it.
fn told_features_report(
    alloc: Global,
    files: usize,
    parts: JudgedRun,
    missing: &Missing,
) -> Result<Report, AllocError>
    ensures { IfOk result (λ report. (asked : SomeConditions) (fs : List AskedFile)
        → IsMissingOf asked fs missing.now
        → AddsLast asked fs files parts.counts (string_bytes parts.report.text)
        (string_bytes report.text) report.status) }
{
    let mut text = parts.report.text;
    let status = add_features_end(alloc, &mut text, files, parts.counts, missing)?;
    Ok(Report { text, status })
}

/// Judges the runs, and where all are released, asks whether each scenario of the files ran in one of them.
fn asked_features_report<F: Files, R: ByteSource>(
    alloc: Global,
    seed: RandomState,
    settings: Settings,
    conditions: &Conditions<'_>,
    found: &[FeatureFile],
    runs: &[&str],
    files: &mut F,
    source: &mut R,
) -> Result<Report, AllocError>
    ensures report { IfOk result (λ report. ReportsAsked settings (conditions_of conditions.now)
        (map file_of found.now) (map (λ run. run.now) runs.now) (F.openings files.old)
        (F.openings files.new) (R.input source.old) (R.input source.new)
        (report_made (Ok report))) }
    ensures looks { F.looks files.new ≡ F.looks files.old }
{
    let mut marks = Marks::new(alloc, seed);
    let asked = asked_feature_files(alloc, found, &mut marks)?;
    let parts = judge_runs_for_features(
        alloc, seed, settings, conditions, runs, files, source, &mut marks,
    )?;
    match parts.report.status {
        ExitStatus::Done => {
            let missing = missing_features(alloc, seed, conditions, asked.as_slice(), &marks)?;
            told_features_report(alloc, found.len(), parts, &missing)
        }
        _ => Ok(parts.report),
    }
}

/// The report of a gate over feature files, which are found and read before any run.
fn features_report<F: Files, R: ByteSource>(
    alloc: Global,
    seed: RandomState,
    settings: Settings,
    conditions: &Conditions<'_>,
    features: &[&str],
    runs: &[&str],
    files: &mut F,
    source: &mut R,
) -> Result<Report, AllocError>
    ensures { IfOk result (λ report. IsFeaturesReport (record {
      settings = settings;
      asked = conditions_of conditions.now;
      features = map (λ path. path.now) features.now;
      runs = map (λ run. run.now) runs.now;
    }) (F.openings files.old) (F.openings files.new) (F.looks files.old) (F.looks files.new)
        (R.input source.old) (R.input source.new) (report_made (Ok report))) }
{
    match read_features(alloc, seed, files, features) {
        Ok(found) => {
            let found = found.as_slice();
            asked_features_report(
                alloc, seed, settings, conditions, found, runs, files, source,
            )
        }
        Err(PathTrouble::Faulty(wrong)) => faulty_features_report(alloc, &wrong),
        Err(PathTrouble::Memory) => Err(AllocError),
    }
}

/// Prints that report, and gives the exit code.
pub(crate) fn print_features<F: Files, R: ByteSource, W: ByteSink>(
    alloc: Global,
    seed: RandomState,
    settings: Settings,
    conditions: &Conditions<'_>,
    features: &[&str],
    runs: &[&str],
    files: &mut F,
    source: &mut R,
    sink: &mut W,
) -> u8
    ensures { GatesFeatures (record {
      settings = settings;
      asked = conditions_of conditions.now;
      features = map (λ path. path.now) features.now;
      runs = map (λ run. run.now) runs.now;
    }) result (F.openings files.old) (F.openings files.new) (F.looks files.old)
        (F.looks files.new) (R.input source.old) (R.input source.new) (W.output sink.old)
        (W.output sink.new) }
{
    let report = features_report(
        alloc, seed, settings, conditions, features, runs, files, source,
    );
    write_report(sink, report)
}

/// A feature file that was read. Its text is None where it is longer than a feature file may be.
#[derive(Drop)]
struct FeatureFile {
    pub(crate) path: String,
    pub(crate) text: Option<String>,
}

impl FeatureFile {
    /// Its text, if it isn't too long.
    pub(crate) fn text(&self) -> Option<&str>
        ensures { option_map (λ text. text.now) result ≡ option_map string_bytes self.now.text }
    {
        match &self.text {
            Some(text) => Some(text.as_str()),
            None => None,
        }
    }
}

/// Why a file can't be read.
#[derive(Clone, Copy, Drop)]
enum FileFault {
    /// It can't be opened, or a read fails.
    ReadFailed,
    /// Its bytes are no UTF-8.
    NotUtf8,
    /// There is no memory.
    Memory,
}

/// What was read of a file, as its text.
fn feature_text_of(read: Result<String, TextFault>) -> Result<Option<String>, FileFault>
    ensures { AsFileText read result }
{
    match read {
        Ok(text) => Ok(Some(text)),
        Err(TextFault::TooLong) => Ok(None),
        Err(TextFault::ReadFailed) => Err(FileFault::ReadFailed),
        Err(TextFault::NotUtf8) => Err(FileFault::NotUtf8),
        Err(TextFault::Memory) => Err(FileFault::Memory),
    }
}

/// Reads the file of a path.
fn read_feature_file<F: Files>(
    alloc: Global,
    files: &mut F,
    path: &str,
) -> Result<Option<String>, FileFault>
    ensures text { IfOk result (λ text. ReadsText path.now (F.openings files.old)
        (F.openings files.new) (option_map string_bytes text)) }
    ensures fault { IfErr result
        (FailsFor path.now (F.openings files.old) (F.openings files.new)) }
    ensures looks { F.looks files.new ≡ F.looks files.old }
{
    match files.open(path) {
        Ok(mut file) => {
            let read = read_text(alloc, &mut file.source);
            match files.close(file) {
                Ok(()) => feature_text_of(read),
                Err(AllocError) => {
                    drop(read);
                    Err(FileFault::Memory)
                }
            }
        }
        Err(FileTrouble::ReadFailed) => Err(FileFault::ReadFailed),
        Err(FileTrouble::Memory) => Err(FileFault::Memory),
    }
}

/// The trouble of a file that can't be read.
fn feature_path_trouble(path: String, fault: FileFault) -> PathTrouble
    ensures { result ≡ path_trouble path fault }
{
    let fault = match fault {
        FileFault::ReadFailed => Fault::ReadFailed,
        FileFault::NotUtf8 => Fault::NotUtf8,
        FileFault::Memory => return PathTrouble::Memory,
    };
    PathTrouble::Faulty(FaultyPath { path, fault })
}

/// Reads the files of the paths, in order.
fn read_feature_files<F: Files>(
    alloc: Global,
    files: &mut F,
    paths: &[String],
) -> Result<Vec<FeatureFile>, PathTrouble>
    ensures files { IfOk result (λ found. ReadsFiles (map string_bytes paths.now)
        (F.openings files.old) (F.openings files.new) (map file_of found.items)) }
    ensures trouble { IfErr result (TellsFile (map string_bytes paths.now)
        (F.openings files.old) (F.openings files.new)) }
    ensures looks { F.looks files.new ≡ F.looks files.old }
{
    let mut found = Vec::new(alloc);
    for path in paths {
        let path = String::from_str(alloc, path.as_str())?;
        match read_feature_file(alloc, files, path.as_str()) {
            Ok(text) => found.push(FeatureFile { path, text })?,
            Err(fault) => return Err(feature_path_trouble(path, fault)),
        }
    }
    Ok(found)
}

/// Finds the feature files of the paths, and reads them.
fn read_features<F: Files>(
    alloc: Global,
    seed: RandomState,
    files: &mut F,
    features: &[&str],
) -> Result<Vec<FeatureFile>, PathTrouble>
    ensures files { IfOk result (λ found. GivesFeatures (map (λ path. path.now) features.now)
        (F.openings files.old) (F.openings files.new) (F.looks files.old) (F.looks files.new)
        (map file_of found.items)) }
    ensures trouble { IfErr result (TellsFeatures (map (λ path. path.now) features.now)
        (F.openings files.old) (F.openings files.new) (F.looks files.old)
        (F.looks files.new)) }
{
    let paths = feature_paths(alloc, seed, files, features)?;
    read_feature_files(alloc, files, paths.as_slice())
}

/// The files that are asked: of those with one text the first, and each that is too long. Their texts are put among the marks,
/// which have none before.
fn asked_feature_files<'a>(
    alloc: Global,
    files: &'a [FeatureFile],
    marks: &mut Marks<'a>,
) -> Result<Vec<&'a FeatureFile>, AllocError>
    requires none { marked_texts marks.old ≡ [] }
    requires unmarked { IsUnmarked marks.old }
    requires rows { HasWholeRows marks.old }
    ensures files { IfOk result (λ asked. map (λ f. file_of f.now) asked.items
        ≡ asked_once (map file_of files.now)) }
    ensures texts { IfOk result (λ asked. HasTexts marks.new
        (asked_once (map file_of files.now))) }
    ensures unmarked { IsUnmarked marks.new }
    ensures rows { HasWholeRows marks.new }
{
    let mut asked = Vec::new(alloc);
    for file in files {
        if let Some(text) = file.text() {
            if marks.has_text(text) {
                continue;
            }
            marks.add(alloc, text)?;
        }
        asked.push(file)?;
    }
    Ok(asked)
}

/// The flags of a file's text: which of its scenarios ran, by their places.
fn feature_flags_of<'m>(marks: &'m Marks<'_>, file: &FeatureFile) -> &'m [bool]
    ensures { result.now ≡ row_of marks.now (option_map string_bytes file.now.text) }
{
    match file.text() {
        Some(text) => marks.row(text),
        None => &[],
    }
}

/// The name of what is wrong with a path.
fn feature_path_fault(fault: Fault) -> &'static str
    ensures { result.now ≡ fault_name fault }
{
    match fault {
        Fault::LinkedFolder => "LinkedFolder",
        Fault::NoFeatures => "NoFeatures",
        Fault::NotUtf8 => "NotUtf8",
        Fault::ReadFailed => "ReadFailed",
    }
}

/// The report of a path with which something is wrong.
fn faulty_features_report(alloc: Global, wrong: &FaultyPath) -> Result<Report, AllocError>
    ensures { IfOk result (λ report. report_made (Ok report) ≡ faulty_report (faulty wrong.now)) }
{
    let mut text = String::from_str(alloc, "trouble ")?;
    text.push_str(feature_path_fault(wrong.fault))?;
    text.push_str(" ")?;
    add_shown(&mut text, wrong.path.as_str())?;
    text.push_str("\n")?;
    Ok(Report {
        text,
        status: ExitStatus::Trouble,
    })
}
