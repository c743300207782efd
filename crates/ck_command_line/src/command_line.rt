//! The command line: what the words after the program's name ask for.
ghost use Rattle.std.specs.List.{All, list_all};
ghost use Rattle.std.specs.Prelude.{◌≡◌, IfOk, IsOkAnd, codes, false, map, option_map};
ghost use Rattle.clap.specs.Words.{all_of, app_of, first_of, found_of, kind_of, new_app, rows_of, rule_of, subcommand_rows_of, with_subcommand};
ghost use Rattle.clap.specs.declared.builder.command.Command.TheViews.{out-Command as fields_of};
ghost use Rattle.ck_command_line.specs.CommandLine.{HelpsByKind, HelpsOnCall, IsNoHelp};
ghost use Rattle.ck_command_line.specs.CommandLine.{Chooses, as_part, asked_of, asked_of_choice, attempts_rule, audit_command, bare_app, cases_command};
ghost use Rattle.ck_command_line.specs.CommandLine.{cases_asked, form_in, gate_asked, gate_over, has_two_inputs, json_rule};
ghost use Rattle.ck_command_line.specs.CommandLine.{command_app, command_named, compile_command, features_in, features_rule};
ghost use Rattle.ck_command_line.specs.CommandLine.{Shows, conditions_in, first_attempt_in, is_input, is_tag, tagged_rule, tags_allowed};
ghost use Rattle.ck_command_line.specs.CommandLine.{flag_rule, gate_command, gate_rules, is_given, subcommand_named, parse_command, policy_in, results_command};
ghost use Rattle.ck_command_line.specs.CommandLine.{run_rule, runs_in, runs_named, settings_in, settings_rules, uri_rule, with_rules};
ghost use Rattle.cm_stream.specs.Release.{conditions_of};

use crate::help;
use clap::error::ErrorKind;
use clap::{Arg, ArgAction, ArgMatches, Command, Error};
use cm_attempt::{Policy, Settings};
use cm_stream::Conditions;
use std::alloc::{AllocError, Global};

/// How the lines of test cases are written.
#[derive(Clone, Copy, Debug, PartialEq, Eq)]
pub enum CaseForm {
    /// `STATUS URI:LINE NAME`.
    Plain,
    /// A JSON object.
    Json,
}

/// What the words ask for.
#[derive(Drop)]
pub enum Choice<'a> {
    /// What a feature file is.
    Parse,
    /// The message lines of a feature file, with its uri.
    Compile(&'a str),
    /// The verdict on a stream, by these settings.
    Audit(Settings),
    /// The verdict on a stream, and whether its run is to be released, which is asked by these conditions.
    Gate(Settings, Conditions<'a>),
    /// The same of each of these runs, of which there is at least one: the file of a stream, or `-` for standard input,
    /// which stands there at most once.
    GateRuns(Settings, Conditions<'a>, Vec<&'a str>),
    /// Whether each scenario of the feature files ran: the paths of feature files or of folders, at least one, and the runs, of
    /// which each is a part; where none is named, standard input is the one run.
    GateFeatures(Settings, Conditions<'a>, Vec<&'a str>, Vec<&'a str>),
    /// The table of the test cases of a stream, with the number of each test case's first attempt.
    Results(u64),
    /// The lines of the test cases of a good stream, by these settings, in this form.
    Cases(Settings, CaseForm),
}

/// Why the words give no choice.
#[derive(Drop)]
pub enum Refusal {
    /// A mistake in the words, with the text for the user.
    Usage(String),
    /// A call for help or for the version, with its text.
    Help(String),
    /// There was no memory.
    Memory,
}

/// Why the values after a command ask for nothing.
#[derive(Clone, Copy, Debug, Drop, PartialEq, Eq)]
enum NoChoice {
    /// There is no such command, or its uri isn't there.
    NoCommand,
    /// The number of the first attempt is neither 0 nor 1.
    WrongAttempts,
    /// A tag has no `@`.
    WrongTag,
    /// `--allow-unrun` stands beside `--allow-unrun-tagged`.
    BothUnrun,
    /// `--allow-unrun` stands beside `--features`.
    UnrunWithFeatures,
    /// `-` stands twice among the runs.
    TwoInputs,
    /// There was no memory.
    Memory,
}

/// The argument, of whose value the help says its name and what it is.
fn explained<'a>(arg: Arg<'a>, value: &'a str, text: &'a str) -> Arg<'a>
    ensures rule { rule_of result ≡ record (rule_of arg.entry) { value_names = 1 } }
    ensures local { result.global ≡ arg.entry.global }
{
    arg.help(text).value_name(value)
}

/// The argument `--uri URI`, which must be given.
fn uri_argument<'a>(alloc: Global) -> Arg<'a>
    ensures rule { rule_of result ≡ uri_rule }
    ensures local { result.global ≡ false }
{
    let uri = Arg::new(alloc, "uri")
        .long("uri")
        .required(true)
        .action(ArgAction::Set);
    explained(uri, "URI", help::URI)
}

/// The argument `--attempts-from N`.
fn attempts_argument<'a>(alloc: Global) -> Arg<'a>
    ensures rule { rule_of result ≡ attempts_rule }
    ensures local { result.global ≡ false }
{
    let attempts_from = Arg::new(alloc, "attempts-from")
        .long("attempts-from")
        .action(ArgAction::Set);
    explained(attempts_from, "N", help::ATTEMPTS_FROM)
}

/// The argument `--allow-unrun-tagged TAG`, which may be given several times.
fn tagged_argument<'a>(alloc: Global) -> Arg<'a>
    ensures rule { rule_of result ≡ tagged_rule }
    ensures local { result.global ≡ false }
{
    let tagged = Arg::new(alloc, "allow-unrun-tagged")
        .long("allow-unrun-tagged")
        .action(ArgAction::Append);
    explained(tagged, "TAG", help::ALLOW_UNRUN_TAGGED)
}

/// The argument `--features PATH`, which may be given several times.
fn features_argument<'a>(alloc: Global) -> Arg<'a>
    ensures rule { rule_of result ≡ features_rule }
    ensures local { result.global ≡ false }
{
    let features = Arg::new(alloc, "features")
        .long("features")
        .action(ArgAction::Append);
    explained(features, "PATH", help::FEATURES)
}

/// The argument `RUN`, which may be given several times.
fn run_argument<'a>(alloc: Global) -> Arg<'a>
    ensures rule { rule_of result ≡ run_rule }
    ensures local { result.global ≡ false }
{
    let run = Arg::new(alloc, "run").action(ArgAction::Append);
    explained(run, "RUN", help::RUN)
}

/// A flag, with what its help says.
fn flag<'a>(alloc: Global, name: &'a str, text: &'a str) -> Arg<'a>
    ensures rule { rule_of result ≡ flag_rule name.entry.now }
    ensures local { result.global ≡ false }
{
    Arg::new(alloc, name)
        .long(name)
        .action(ArgAction::SetTrue)
        .help(text)
}

/// A command with no argument so far. Its help says what it is about, how it is used, and more after its options.
fn new_command<'a>(
    alloc: Global,
    name: &'a str,
    about: &'a str,
    usage: &'a str,
    more: &'a str,
) -> Command<'a>
    ensures app { app_of result ≡ new_app name.entry.now }
    ensures local { (fields_of result).has_globals ≡ false }
{
    Command::new(alloc, name)
        .about(about)
        .override_usage(usage)
        .after_help(more)
}

/// The command with the options that say by which settings a stream is judged: `[--pending-passes] [--attempts-from N]
/// [--allow-redeclared]`.
fn with_settings<'a>(alloc: Global, command: Command<'a>) -> Result<Command<'a>, AllocError>
    requires local { (fields_of command).has_globals ≡ false }
    ensures app { IfOk result (λ c. app_of c ≡ with_rules (app_of command.entry) settings_rules) }
    ensures local { IfOk result (λ c. (fields_of c).has_globals ≡ false) }
{
    command
        .arg(flag(alloc, "pending-passes", help::PENDING_PASSES))?
        .arg(attempts_argument(alloc))?
        .arg(flag(alloc, "allow-redeclared", help::ALLOW_REDECLARED))
}

/// The runs of `gate` and what a release asks of them.
fn gate_arguments<'a>(alloc: Global) -> Result<Vec<Arg<'a>>, AllocError>
    ensures rules { IfOk result (λ arguments. map rule_of arguments.items ≡ gate_rules) }
    ensures local { IfOk result (λ arguments. All (λ a. a.global ≡ false) arguments.items) }
{
    Ok(vec![in alloc;
        run_argument(alloc),
        features_argument(alloc),
        flag(alloc, "allow-unrun", help::ALLOW_UNRUN),
        tagged_argument(alloc),
        flag(alloc, "no-retries", help::NO_RETRIES),
        flag(alloc, "no-skips", help::NO_SKIPS),
        flag(alloc, "no-stepless", help::NO_STEPLESS),
        flag(alloc, "no-undefined", help::NO_UNDEFINED),
        flag(alloc, "strict", help::STRICT),
    ]?)
}

/// `gate [--features PATH].. [--allow-unrun] [--allow-unrun-tagged TAG].. [--no-retries] [--no-skips] [--no-stepless]
/// [--no-undefined] [--strict] [--pending-passes] [--attempts-from N] [--allow-redeclared] [RUN]..`.
fn gate_command<'a>(alloc: Global) -> Result<Command<'a>, AllocError>
    ensures app { IfOk result (λ c. app_of c ≡ gate_command) }
    ensures local { IfOk result (λ c. (fields_of c).has_globals ≡ false) }
{
    let arguments = gate_arguments(alloc)?;
    let bare = new_command(
        alloc,
        "gate",
        help::GATE,
        help::GATE_USAGE,
        help::AFTER_GATE,
    );
    let command = bare.args(arguments)?;
    with_settings(alloc, command)
}

/// `audit [--pending-passes] [--attempts-from N] [--allow-redeclared]`.
fn audit_command<'a>(alloc: Global) -> Result<Command<'a>, AllocError>
    ensures app { IfOk result (λ c. app_of c ≡ audit_command) }
    ensures local { IfOk result (λ c. (fields_of c).has_globals ≡ false) }
{
    let command = new_command(
        alloc,
        "audit",
        help::AUDIT,
        help::AUDIT_USAGE,
        help::AFTER_AUDIT,
    );
    with_settings(alloc, command)
}

/// `cases [--json] [--pending-passes] [--attempts-from N] [--allow-redeclared]`.
fn cases_command<'a>(alloc: Global) -> Result<Command<'a>, AllocError>
    ensures app { IfOk result (λ c. app_of c ≡ cases_command) }
    ensures local { IfOk result (λ c. (fields_of c).has_globals ≡ false) }
{
    let bare = new_command(
        alloc,
        "cases",
        help::CASES,
        help::CASES_USAGE,
        help::AFTER_CASES,
    );
    let command = bare.arg(flag(alloc, "json", help::JSON))?;
    with_settings(alloc, command)
}

/// `results [--attempts-from N]`.
fn results_command<'a>(alloc: Global) -> Result<Command<'a>, AllocError>
    ensures app { IfOk result (λ c. app_of c ≡ results_command) }
    ensures local { IfOk result (λ c. (fields_of c).has_globals ≡ false) }
{
    new_command(
        alloc,
        "results",
        help::RESULTS,
        help::RESULTS_USAGE,
        help::AFTER_RESULTS,
    )
    .arg(attempts_argument(alloc))
}

/// `parse`.
fn parse_command<'a>(alloc: Global) -> Command<'a>
    ensures app { app_of result ≡ parse_command }
    ensures local { (fields_of result).has_globals ≡ false }
{
    new_command(
        alloc,
        "parse",
        help::PARSE,
        help::PARSE_USAGE,
        help::AFTER_PARSE,
    )
}

/// `compile --uri URI`.
fn compile_command<'a>(alloc: Global) -> Result<Command<'a>, AllocError>
    ensures app { IfOk result (λ c. app_of c ≡ compile_command) }
    ensures local { IfOk result (λ c. (fields_of c).has_globals ≡ false) }
{
    new_command(
        alloc,
        "compile",
        help::COMPILE,
        help::COMPILE_USAGE,
        help::AFTER_COMPILE,
    )
    .arg(uri_argument(alloc))
}

/// The program with no command so far.
fn bare_command<'a>(alloc: Global) -> Command<'a>
    ensures { app_of result ≡ bare_app }
{
    new_command(
        alloc,
        "cukecheck",
        help::PROGRAM,
        help::PROGRAM_USAGE,
        help::AFTER_PROGRAM,
    )
    .version(help::VERSION)
    .subcommand_required(true)
}

/// The program with one command more, where memory sufficed for that one.
fn with_command<'a>(
    program: Command<'a>,
    command: Result<Command<'a>, AllocError>,
) -> Result<Command<'a>, AllocError>
    ensures { IfOk result (λ new. IsOkAnd command.entry (λ c. (fields_of c).has_globals ≡ false
        → app_of new ≡ with_subcommand (app_of program.entry) (app_of c).top)) }
{
    match command {
        Ok(command) => program.subcommand(command),
        Err(trouble) => {
            drop(program);
            Err(trouble)
        }
    }
}

/// The command line: one of the commands is required. `--help` lists them in this order.
fn command<'a>(alloc: Global) -> Result<Command<'a>, AllocError>
    ensures { IfOk result (λ c. app_of c ≡ command_app) }
{
    let bare = bare_command(alloc);
    let with_gate = with_command(bare, gate_command(alloc))?;
    let with_audit = with_command(with_gate, audit_command(alloc))?;
    let with_cases = with_command(with_audit, cases_command(alloc))?;
    let with_results = with_command(with_cases, results_command(alloc))?;
    let with_parse = with_command(with_results, Ok(parse_command(alloc)))?;
    with_command(with_parse, compile_command(alloc))
}

/// What the user is told of the error.
fn refusal_of(alloc: Global, error: &Error) -> Refusal
    ensures memory { kind_of error.now ≡ ErrorKind.OutOfMemory → result ≡ Refusal.Memory }
    ensures help { HelpsByKind (kind_of error.now) result }
{
    if error.kind() == ErrorKind::OutOfMemory {
        return Refusal::Memory;
    }
    match error.to_string(alloc) {
        Ok(text) => if error.exit_code() == 0 {
            Refusal::Help(text)
        } else {
            Refusal::Usage(text)
        },
        Err(_) => Refusal::Memory,
    }
}

/// The text after an option or a flag.
fn text_of<'a>(values: &ArgMatches<'a>, name: &str) -> Option<&'a str>
    ensures { option_map (λ s. s.now) result
        ≡ first_of name.now (rows_of (found_of values.now)) }
{
    values.get_str(name)
}

/// Whether the flag of this name is given.
fn has_flag<'a>(values: &ArgMatches<'a>, name: &str) -> bool
    ensures { result ≡ is_given (first_of name.now (rows_of (found_of values.now))) }
{
    match text_of(values, name) {
        Some(text) => text == "true",
        None => false,
    }
}

/// The policy that the values after a command ask for.
fn policy_in<'a>(values: &ArgMatches<'a>) -> Policy
    ensures { result ≡ policy_in (rows_of (found_of values.now)) }
{
    if has_flag(values, "pending-passes") {
        Policy::PendingPasses
    } else {
        Policy::Strict
    }
}

/// The number of each test case's first attempt: 0 where the option isn't given.
fn first_attempt_in<'a>(values: &ArgMatches<'a>) -> Result<u64, NoChoice>
    ensures { Shows (λ number. number) (first_attempt_in (rows_of (found_of values.now))) result }
{
    match text_of(values, "attempts-from") {
        None => Ok(0),
        Some(text) => if text == "0" {
            Ok(0)
        } else if text == "1" {
            Ok(1)
        } else {
            Err(NoChoice::WrongAttempts)
        },
    }
}

/// The settings that the values after a command ask for.
fn settings_in<'a>(values: &ArgMatches<'a>) -> Result<Settings, NoChoice>
    ensures { Shows (λ settings. settings) (settings_in (rows_of (found_of values.now))) result }
{
    let first_attempt = first_attempt_in(values)?;
    Ok(Settings {
        policy: policy_in(values),
        first_attempt,
        allows_redeclared: has_flag(values, "allow-redeclared"),
    })
}

/// The form of the lines that the values after `cases` ask for.
fn form_in<'a>(values: &ArgMatches<'a>) -> CaseForm
    ensures { result ≡ form_in (rows_of (found_of values.now)) }
{
    if has_flag(values, "json") {
        CaseForm::Json
    } else {
        CaseForm::Plain
    }
}

/// The text is a tag: it begins with `@`.
fn is_tag(text: &str) -> bool
    ensures { result ≡ is_tag text.now }
{
    text.starts_with('@')
}

/// Each of the texts is a tag.
fn are_tags(texts: &[&str]) -> bool
    ensures { result ≡ list_all (λ text. is_tag text.now) texts.now }
{
    texts.iter().all(|text| is_tag(text))
}

/// The texts of an argument that may be given several times, in their order.
fn texts_of<'v, 'a>(values: &'v ArgMatches<'a>, name: &str) -> Option<&'v [&'a str]>
    ensures { option_map (λ texts. map (λ text. text.now) texts.now) result
        ≡ all_of name.now (rows_of (found_of values.now)) }
{
    values.get_raw(name)
}

/// The tags of the pickles that may be without a test case, in their order. Where each pickle may, none is to be given.
fn tags_in<'a>(
    alloc: Global,
    values: &ArgMatches<'a>,
    allows_unrun: bool,
) -> Result<Vec<&'a str>, NoChoice>
    ensures { Shows (λ tags. map (λ t. t.now) tags.items) (tags_allowed allows_unrun
        (all_of (codes "allow-unrun-tagged") (rows_of (found_of values.now)))) result }
{
    let mut allowed = Vec::new(alloc);
    let Some(tags) = texts_of(values, "allow-unrun-tagged") else {
        return Ok(allowed);
    };
    if allows_unrun {
        return Err(NoChoice::BothUnrun);
    }
    if !are_tags(tags) {
        return Err(NoChoice::WrongTag);
    }
    match allowed.extend_from_slice(tags) {
        Ok(()) => Ok(allowed),
        Err(AllocError) => Err(NoChoice::Memory),
    }
}

/// What the values after `gate` ask of a run.
fn conditions_in<'a>(alloc: Global, values: &ArgMatches<'a>) -> Result<Conditions<'a>, NoChoice>
    ensures { Shows conditions_of (conditions_in (rows_of (found_of values.now))) result }
{
    let allows_unrun = has_flag(values, "allow-unrun");
    let allowed_tags = tags_in(alloc, values, allows_unrun)?;
    let strict = has_flag(values, "strict");
    Ok(Conditions {
        is_part: false,
        allows_unrun,
        allowed_tags,
        no_retries: strict || has_flag(values, "no-retries"),
        no_skips: strict || has_flag(values, "no-skips"),
        no_stepless: strict || has_flag(values, "no-stepless"),
        no_undefined: strict || has_flag(values, "no-undefined"),
    })
}

/// The text stands for standard input.
fn is_input(text: &str) -> bool
    ensures { result ≡ is_input text.now }
{
    text == "-"
}

/// Standard input stands there more than once.
fn has_two_inputs(runs: &[&str]) -> bool
    ensures { result ≡ has_two_inputs (map (λ run. run.now) runs.now) }
{
    runs.iter().filter(|run| is_input(run)).count() > 1
}

/// The runs that are named, in their order.
fn runs_in<'a>(alloc: Global, values: &ArgMatches<'a>) -> Result<Vec<&'a str>, NoChoice>
    ensures { Shows (λ runs. map (λ run. run.now) runs.items)
        (runs_in (rows_of (found_of values.now))) result }
{
    let mut runs = Vec::new(alloc);
    let Some(texts) = texts_of(values, "run") else {
        return Ok(runs);
    };
    if has_two_inputs(texts) {
        return Err(NoChoice::TwoInputs);
    }
    match runs.extend_from_slice(texts) {
        Ok(()) => Ok(runs),
        Err(AllocError) => Err(NoChoice::Memory),
    }
}

/// The paths of feature files and of folders that are given, in their order. Where each pickle may be without a test case, none
/// is to be given.
fn features_in<'a>(alloc: Global, values: &ArgMatches<'a>) -> Result<Vec<&'a str>, NoChoice>
    ensures { Shows (λ paths. map (λ path. path.now) paths.items)
        (features_in (rows_of (found_of values.now))) result }
{
    let mut features = Vec::new(alloc);
    let Some(paths) = texts_of(values, "features") else {
        return Ok(features);
    };
    if has_flag(values, "allow-unrun") {
        return Err(NoChoice::UnrunWithFeatures);
    }
    match features.extend_from_slice(paths) {
        Ok(()) => Ok(features),
        Err(AllocError) => Err(NoChoice::Memory),
    }
}

/// The same, asked of a run that is a part of what is asked.
fn as_part<'a>(conditions: Conditions<'a>) -> Conditions<'a>
    ensures { conditions_of result ≡ as_part (conditions_of conditions.entry) }
{
    Conditions {
        is_part: true,
        ..conditions
    }
}

/// A gate over these runs, or over standard input where there is none; or over feature files and these runs, of which each is a
/// part then.
fn gate_over<'a>(
    settings: Settings,
    conditions: Conditions<'a>,
    runs: Vec<&'a str>,
    features: Vec<&'a str>,
) -> Choice<'a>
    ensures { asked_of_choice result ≡ gate_over settings (conditions_of conditions.entry)
        (map (λ run. run.now) runs.entry.items) (map (λ path. path.now) features.entry.items) }
{
    if !features.is_empty() {
        return Choice::GateFeatures(settings, as_part(conditions), features, runs);
    }
    if runs.is_empty() {
        Choice::Gate(settings, conditions)
    } else {
        Choice::GateRuns(settings, conditions, runs)
    }
}

/// What the values after `gate` ask for.
fn gate_in<'a>(alloc: Global, values: &ArgMatches<'a>) -> Result<Choice<'a>, NoChoice>
    ensures { Shows asked_of_choice (gate_asked (settings_in (rows_of (found_of values.now)))
        (conditions_in (rows_of (found_of values.now)))
        (runs_in (rows_of (found_of values.now)))
        (features_in (rows_of (found_of values.now)))) result }
{
    let settings = settings_in(values)?;
    let conditions = conditions_in(alloc, values)?;
    let runs = runs_in(alloc, values)?;
    let features = features_in(alloc, values)?;
    Ok(gate_over(settings, conditions, runs, features))
}

/// The command of this name, with the values that come after it.
fn choice_named<'a>(
    alloc: Global,
    name: &str,
    values: &ArgMatches<'a>,
) -> Result<Choice<'a>, NoChoice>
    ensures { Shows asked_of_choice
        (command_named name.now (rows_of (found_of values.now))) result }
{
    match name {
        "parse" => Ok(Choice::Parse),
        "compile" => Ok(Choice::Compile(text_of(values, "uri").ok_or(NoChoice::NoCommand)?)),
        "audit" => Ok(Choice::Audit(settings_in(values)?)),
        "gate" => gate_in(alloc, values),
        "results" => Ok(Choice::Results(first_attempt_in(values)?)),
        "cases" => Ok(Choice::Cases(settings_in(values)?, form_in(values))),
        _ => Err(NoChoice::NoCommand),
    }
}

/// What the command in the matches asks for.
fn chosen<'a>(alloc: Global, matches: &ArgMatches<'a>) -> Result<Choice<'a>, NoChoice>
    ensures { Shows asked_of_choice (subcommand_named (subcommand_rows_of matches.now)) result }
{
    match matches.subcommand() {
        Some((name, values)) => choice_named(alloc, name, values),
        None => Err(NoChoice::NoCommand),
    }
}

/// The words are a command's, but for the values of its options.
fn wrong_values(alloc: Global, why: NoChoice) -> Refusal
    ensures memory { why ≡ NoChoice.Memory → result ≡ Refusal.Memory }
    ensures no_help { IsNoHelp result }
{
    let text = match why {
        NoChoice::NoCommand => help::NO_COMMAND,
        NoChoice::WrongAttempts => help::WRONG_ATTEMPTS,
        NoChoice::WrongTag => help::WRONG_TAG,
        NoChoice::BothUnrun => help::BOTH_UNRUN,
        NoChoice::UnrunWithFeatures => help::UNRUN_WITH_FEATURES,
        NoChoice::TwoInputs => help::TWO_INPUTS,
        NoChoice::Memory => return Refusal::Memory,
    };
    match String::from_str(alloc, text) {
        Ok(text) => Refusal::Usage(text),
        Err(AllocError) => Refusal::Memory,
    }
}

/// Reads the words, of which the first is the program's name.
///
/// # Errors
/// The text for the user where the words ask for nothing: of a mistake, or the help or the version that they call for.
pub fn choose<'a>(alloc: Global, words: &'a [&'a str]) -> Result<Choice<'a>, Refusal>
    ensures chosen { Chooses (asked_of (map (λ w. w.now) words.entry.now)) result }
    ensures help { HelpsOnCall (map (λ w. w.now) words.entry.now) result }
{
    let Ok(command) = command(alloc) else {
        return Err(Refusal::Memory);
    };
    match command.try_get_matches_from(words) {
        Ok(matches) => match chosen(alloc, &matches) {
            Ok(choice) => Ok(choice),
            Err(why) => Err(wrong_values(alloc, why)),
        },
        Err(error) => Err(refusal_of(alloc, &error)),
    }
}
