//! What is missing of feature files.
ghost use Rattle.std.specs.Prelude.{◌≡◌, ◌≢◌, ◌↔◌, ◌+◌, ◌++◌, ◌∷◌, [], List, ℕ, true, IfOk, OnErr, OnOk, length, option_map, string_bytes};
ghost use Rattle.std.specs.Prelude.{drop};
ghost use Rattle.cm_reasons.specs.Lines.{limited_text, more_text};
ghost use Rattle.cm_stream.specs.Release.{Conditions as SomeConditions, conditions_of};
ghost use Rattle.gk_pickle.specs.Scenarios.{pickles_of_one};
ghost use Rattle.gk_tree.specs.Views.{too_long};
ghost use Rattle.cm_missing.specs.Missing.{AllScenariosRan, AreMissingLines, AskedFile, IsFileReading, IsMissingOf, IsScenarioCount};
ghost use Rattle.cm_missing.specs.Missing.{IsUnrunCount, asked_from, asked_pickles, flag_at};
ghost use Rattle.cm_missing.specs.PickleLines.{lines_of_one, outline_lines, row_lines};
ghost use Rattle.cm_missing.specs.Findings.{finding_line};
ghost use Rattle.cm_missing.specs.Told.{KeepsMore, line_told, pickles_told, reading_of};
ghost use Rattle.std.specs.List.{list_any};
ghost use Rattle.std.specs.Str.{bytes_eq};
ghost use Rattle.cm_stream.specs.ReleasedRuns.{may_be_left_out};
ghost use Rattle.gk_pickle.specs.Counts.{body_rows};

use cm_cases::add_shown;
use cm_reasons::{MOST_LINES, add_more, kind_label};
use cm_stream::Conditions;
use gk_document::{Document, Examples, Scenario};
use gk_grammar::FaultKind;
use gk_pickle::{Pickle, PickleTag, ScenarioInFeature, compile_scenario, scenarios};
use gk_tree::{ParseFault, parse};
use std::alloc::{AllocError, Global};
use std::hash::RandomState;

/// What one line tells of a file.
#[derive(Drop)]
enum Finding<'a> {
    /// It is refused for this fault.
    Refused(ParseFault),
    /// The pickle of this line and this name is missing.
    Missing(u32, &'a str),
}

/// Adds the line of a finding in the file of this path, without its end.
fn add_finding(text: &mut String, path: &str, finding: Finding<'_>) -> Result<(), AllocError>
    ensures { OnOk result
        (string_bytes text.new ≡ string_bytes text.old ++ finding_line path.now finding.entry) }
{
    match finding {
        Finding::Refused(ParseFault { kind, line, column }) => {
            text.push_str("REFUSED ")?;
            add_shown(text, path)?;
            let label = kind_label(kind);
            write!(text, ":{line}:{column} {label}")
        }
        Finding::Missing(line, name) => {
            text.push_str("MISSING ")?;
            add_shown(text, path)?;
            write!(text, ":{line} ")?;
            add_shown(text, name)
        }
    }
}

/// The sum, where 64 bits hold it. One that they don't hold is told as a want of memory.
fn sum_of(count: u64, more: u64) -> Result<u64, AllocError>
    ensures { IfOk result (λ sum. sum ≡ count + more) }
{
    count.checked_add(more).ok_or(AllocError)
}

/// The fault of a file that is longer than a feature file may be.
fn too_long() -> ParseFault
    ensures { result ≡ too_long }
{
    ParseFault {
        kind: FaultKind::TooLong,
        line: 0,
        column: 0,
    }
}

/// The document of a file's text, or the fault for which it is refused.
fn read_file(alloc: Global, text: Option<&str>) -> Result<Result<Document, ParseFault>, AllocError>
    ensures { IfOk result
        (λ read. IsFileReading (option_map (λ t. t.now) text.entry) (reading_of read)) }
{
    let Some(text) = text else {
        return Ok(Err(too_long()));
    };
    match parse(alloc, text) {
        Ok(document) => Ok(Ok(document)),
        Err(fault) => match fault.kind {
            FaultKind::Memory => Err(AllocError),
            _ => Ok(Err(fault)),
        },
    }
}

/// What is missing of the files so far: the lines of the first hundred findings, how many there are, how many pickles the texts
/// compile to, and how many of these did not run and may be left out.
#[derive(Drop)]
pub struct Missing {
    text: String,
    count: u64,
    scenarios: u64,
    unrun: u64,
}

impl Missing {
    /// Of no file.
    pub fn new(alloc: Global) -> Missing
        ensures { (asked : SomeConditions) → IsMissingOf asked [] result }
    {
        Missing {
            text: String::new(alloc),
            count: 0,
            scenarios: 0,
            unrun: 0,
        }
    }

    /// Adds a finding. Its line is written where it is one of the first hundred.
    fn add_line(&mut self, path: &str, finding: Finding<'_>) -> Result<(), AllocError>
        ensures { OnOk result
            (KeepsMore self.old self.new (line_told (finding_line path.now finding.entry))) }
    {
        self.count = sum_of(self.count, 1)?;
        if self.count <= MOST_LINES {
            add_finding(&mut self.text, path, finding)?;
            self.text.push_str("\n")?;
        }
        Ok(())
    }

    /// Adds a pickle, which stands in this line.
    fn add_pickle(
        &mut self,
        path: &str,
        conditions: &Conditions<'_>,
        pickle: &Pickle,
        line: u32,
        has_run: bool,
    ) -> Result<(), AllocError>
        ensures { OnOk result (KeepsMore self.old self.new
            (pickles_told (conditions_of conditions.now) path.now
            (record { due = pickle.now; line = line; has_run = has_run } ∷ []))) }
    {
        self.scenarios = sum_of(self.scenarios, 1)?;
        if has_run {
            return Ok(());
        }
        if may_be_left_out(conditions, pickle) {
            self.unrun = sum_of(self.unrun, 1)?;
            return Ok(());
        }
        self.add_line(path, Finding::Missing(line, pickle.name.as_str()))
    }

    /// Adds pickles, which stand in these lines; the flags are theirs and those of the pickles after them.
    fn add_pickles(
        &mut self,
        path: &str,
        conditions: &Conditions<'_>,
        pickles: &[Pickle],
        lines: &[u32],
        flags: &[bool],
    ) -> Result<(), AllocError>
        requires { length lines.now ≡ length pickles.now }
        ensures { OnOk result (KeepsMore self.old self.new
            (pickles_told (conditions_of conditions.now) path.now
            (asked_from flags.now 0 pickles.now lines.now))) }
    {
        for (place, pickle) in pickles.iter().enumerate() {
            let has_run = flag_at(flags, place);
            self.add_pickle(path, conditions, pickle, lines[place], has_run)?;
        }
        Ok(())
    }

    /// Adds the pickles of a scenario, and says how many they are; the flags are theirs and those of the pickles after them.
    fn add_scenario(
        &mut self,
        alloc: Global,
        seed: RandomState,
        path: &str,
        conditions: &Conditions<'_>,
        scenario: &ScenarioInFeature<'_>,
        flags: &[bool],
    ) -> Result<usize, AllocError>
        ensures count { IfOk result (λ count. count ≡ length (pickles_of_one scenario.now)) }
        ensures told { OnOk result (KeepsMore self.old self.new
            (pickles_told (conditions_of conditions.now) path.now
            (asked_from flags.now 0 (pickles_of_one scenario.now) (lines_of_one scenario.now)))) }
    {
        let pickles = compile_scenario(alloc, seed, scenario)?;
        let lines = lines_of_pickles(alloc, scenario)?;
        self.add_pickles(
            path,
            conditions,
            pickles.as_slice(),
            lines.as_slice(),
            flags,
        )?;
        Ok(pickles.len())
    }

    /// Adds the pickles of a document. Those of one scenario are held until they are added.
    fn add_document(
        &mut self,
        alloc: Global,
        seed: RandomState,
        path: &str,
        conditions: &Conditions<'_>,
        document: &Document,
        flags: &[bool],
    ) -> Result<(), AllocError>
        ensures { OnOk result (KeepsMore self.old self.new
            (pickles_told (conditions_of conditions.now) path.now
            (asked_pickles flags.now document.now))) }
    {
        let scenarios = scenarios(alloc, document)?;
        let mut later = flags;
        for scenario in scenarios.as_slice() {
            let count = self.add_scenario(alloc, seed, path, conditions, scenario, later)?;
            later = flags_after(later, count);
        }
        Ok(())
    }

    /// Adds a feature file: its path, its text, none where it is longer than a feature file may be, and of the pickles that the
    /// text compiles to, by their places, which ran.
    ///
    /// # Errors
    /// Only where there is no memory, or where 64 bits don't hold one of the counts. Then nothing is promised of what is kept.
    pub fn add_file(
        &mut self,
        alloc: Global,
        seed: RandomState,
        path: &str,
        text: Option<&str>,
        conditions: &Conditions<'_>,
        flags: &[bool],
    ) -> Result<(), AllocError>
        ensures { OnOk result ((files : List AskedFile)
            → IsMissingOf (conditions_of conditions.now) files self.old
            → IsMissingOf (conditions_of conditions.now) (files ++ record {
              path = path.now;
              text = option_map (λ t. t.now) text.entry;
              flags = flags.now;
            } ∷ []) self.new) }
    {
        match read_file(alloc, text)? {
            Ok(document) => self.add_document(alloc, seed, path, conditions, &document, flags),
            Err(fault) => self.add_line(path, Finding::Refused(fault)),
        }
    }

    /// Adds a feature file whose text compiles to so many pickles, all of which ran. Its text isn't read for it.
    ///
    /// # Errors
    /// Only where 64 bits don't hold the count of pickles; then all is as it was.
    pub fn add_whole(&mut self, scenarios: usize) -> Result<(), AllocError>
        ensures ok { OnOk result ((asked : SomeConditions) (files : List AskedFile)
            (file : AskedFile) → AllScenariosRan file scenarios
            → IsMissingOf asked files self.old → IsMissingOf asked (files ++ file ∷ []) self.new) }
        ensures err { OnErr result (self.new ≡ self.old) }
    {
        self.scenarios = sum_of(self.scenarios, scenarios as u64)?;
        Ok(())
    }

    /// Whether nothing is missing: there is no line.
    pub fn is_none(&self) -> bool
        ensures { (asked : SomeConditions) (files : List AskedFile)
            → IsMissingOf asked files self.now
            → (result ≡ true) ↔ AreMissingLines asked files [] }
    {
        self.count == 0
    }

    /// How many pickles the texts of the files compile to.
    pub fn scenarios(&self) -> u64
        ensures { (asked : SomeConditions) (files : List AskedFile)
            → IsMissingOf asked files self.now → IsScenarioCount files result }
    {
        self.scenarios
    }

    /// How many of them did not run, and may be left out.
    pub fn unrun(&self) -> u64
        ensures { (asked : SomeConditions) (files : List AskedFile)
            → IsMissingOf asked files self.now → IsUnrunCount asked files result }
    {
        self.unrun
    }

    /// Adds the lines, a hundred at most, and how many more there are.
    ///
    /// # Errors
    /// Only where there is no memory for them.
    pub fn add_lines(&self, text: &mut String) -> Result<(), AllocError>
        ensures { OnOk result ((asked : SomeConditions) (files : List AskedFile)
            → IsMissingOf asked files self.now
            → (lines : List (List ℕ)) × AreMissingLines asked files lines
            × (string_bytes text.new ≡ string_bytes text.old ++ limited_text lines)) }
    {
        text.push_str(self.text.as_str())?;
        if self.count > MOST_LINES {
            add_more(text, self.count - MOST_LINES)?;
        }
        Ok(())
    }
}

/// Whether the pickle at this place ran, by the flags.
fn flag_at(flags: &[bool], place: usize) -> bool
    ensures { result ≡ flag_at flags.now place }
{
    match flags.get(place) {
        Some(has_run) => *has_run,
        None => false,
    }
}

/// The flags after the first ones.
fn flags_after(flags: &[bool], count: usize) -> &[bool]
    ensures { result.now ≡ drop count flags.now }
{
    if count <= flags.len() {
        &flags[count..]
    } else {
        &[]
    }
}

/// Whether one of the tags has this name.
fn has_tag(tags: &[PickleTag], name: &str) -> bool
    ensures { result ≡ list_any (λ t. bytes_eq name.now t.name) tags.now }
{
    tags.iter().any(|tag| name == tag.name.as_str())
}

/// Whether one of the tags has one of these names.
fn has_one(tags: &[PickleTag], names: &[&str]) -> bool
    ensures { result ≡ list_any (λ name. list_any (λ t. bytes_eq name.now t.name) tags.now)
        names.now }
{
    names.iter().any(|name| has_tag(tags, name))
}

/// Whether the pickle may be left out.
fn may_be_left_out(conditions: &Conditions<'_>, pickle: &Pickle) -> bool
    ensures { result ≡ may_be_left_out (conditions_of conditions.now) pickle.now }
{
    conditions.allows_unrun || has_one(pickle.tags.as_slice(), conditions.allowed_tags.as_slice())
}

/// Adds the lines of a block's rows below its header.
fn add_rows(block: &Examples, lines: &mut Vec<u32>) -> Result<(), AllocError>
    ensures { OnOk result
        (lines.new.items ≡ lines.old.items ++ row_lines (body_rows block.now)) }
{
    if let Some(table) = &block.table {
        for row in table.body.as_slice() {
            lines.push(row.location.line)?;
        }
    }
    Ok(())
}

/// Adds the lines of a scenario's pickles.
fn add_outline(scenario: &Scenario, lines: &mut Vec<u32>) -> Result<(), AllocError>
    ensures { OnOk result (lines.new.items
        ≡ lines.old.items ++ outline_lines scenario.now scenario.now.examples) }
{
    let examples = scenario.examples.as_slice();
    if examples.is_empty() {
        lines.push(scenario.location.line)?;
        return Ok(());
    }
    for block in examples {
        add_rows(block, lines)?;
    }
    Ok(())
}

/// The lines of the pickles of one scenario, in their order: of an outline's pickle that of its row.
#[tactic(auto, unfolding(crate::specs::PickleLines::lines_of_one))]
fn lines_of_pickles(alloc: Global, scenario: &ScenarioInFeature<'_>) -> Result<Vec<u32>, AllocError>
    ensures { IfOk result (λ lines. lines.items ≡ lines_of_one scenario.now) }
{
    let mut lines = Vec::new(alloc);
    add_outline(scenario.scenario, &mut lines)?;
    Ok(lines)
}
