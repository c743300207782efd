//! The record of test cases and attempts: its rows, what is checked before a call, what a call changes.
ghost use Rattle.std.specs.Prelude.{◌≡◌, ◌+◌, IfOk, IfSome, OnErr, OnOk, is_some, length, map, option_map, ◌<◌, [], ℕ, List, Some};
ghost use Rattle.std.specs.Prelude.{count_by, false, find, slice_get, ◌≤◌, ◌++◌, ◌∷◌, All, None, Option, if◌then◌else◌};
ghost use Rattle.std.specs.List.{list_all};
ghost use Rattle.std.specs.String.{string_bytes};
ghost use Rattle.cm_refs.specs.Due.{RefusesExactly, RefusesExactlyUnless, RefusesUnless};
ghost use Rattle.cm_attempt.specs.Results.{case_results, result_view};
ghost use Rattle.cm_attempt.specs.Table.{HasDistinctIds, add_case_fault, change_attempt, empty_table, table_from, find_attempt as row_of};
ghost use Rattle.cm_attempt.specs.Table.{find_case as case_of, finish_fault, with_finished_attempt, has_step, is_good_case, open_count};
ghost use Rattle.cm_attempt.specs.Table.{reported_status, with_running_step, start_fault, with_attempt, with_finished_step};
ghost use Rattle.cm_attempt.specs.Table.{step_finish_fault, step_start_fault, with_case, has_text, is_good_case as is_good, is_good_status};
ghost use Rattle.cm_attempt.specs.Table.{outcome as specs_outcome, status_of_last, steps_of as steps_in, Utf8, cursor_after_step};
ghost use Rattle.cm_attempt.specs.Table.{change_first, ended_attempt, with_open_attempt, running_cursor, with_last, new_attempt as new_row};
ghost use Rattle.cm_attempt.specs.Table.{new_case, step_fault_at, step_fault_of, finish_fault_at, is_closed_to_new as closed_to_new};
ghost use Rattle.cm_attempt.specs.Table.{is_next as next_step, may_finish as ends_in_order, may_start as starts_in_order};
ghost use Rattle.cm_attempt.specs.Due.{due_step, due_view, due_at, due_of};
ghost use Rattle.std.specs.Option.{option_map_or};
ghost use Rattle.std.specs.Str.{bytes_eq};
ghost use Rattle.indexmap.specs.IndexMap.{index_map_len, values};
ghost use Rattle.cm_refs.specs.StepIds.{ids_in};
ghost use Rattle.cm_attempt.specs.Rows.{attempt_row, attempt_rows, case_row, case_rows, place_of, table_of};
ghost use Rattle.kept_texts.specs.Kept.{bytes_of};

use crate::fault::TrackFault;
use crate::status::{Policy, Status, worst_with};
use cm_refs::{StepIds, distinct_texts};
use indexmap::IndexMap;
use kept_texts::KeptText;
use std::alloc::{AllocError, Global};
use std::hash::RandomState;
use std::marker::Model;

/// The result of a case: the worst status of its final attempt, which is one that ended and is not retried, and none where
/// there is no such attempt.
#[derive(Clone, Copy)]
pub struct CaseResult<'a> {
    pub id: &'a str,
    pub status: Option<Status>,
}

/// The next step of an attempt, and whether it is running.
#[derive(Clone, Copy)]
pub struct DueStep<'a> {
    pub step: &'a str,
    pub is_running: bool,
}

/// The test cases of a run and their attempts, as the Messages' `testCase`, `testCaseStarted`,
/// `testStepStarted`, `testStepFinished` and `testCaseFinished` report them. A refused call leaves
/// it as it was.
#[derive(Drop)]
pub struct Track {
    first: u64,
    cases: Cases,
    attempts: Attempts,
    alloc: Global,
    seed: RandomState,
}

impl Model for Track {
    ghost use Rattle.std.specs.Prelude.{◌≤◌, All};
    ghost use Rattle.indexmap.specs.IndexMap.{index_map_len, values};
    ghost use Rattle.cm_attempt.specs.Table.{HasDistinctIds, Table};

    ghost Value = { Table };

    ghost use Rattle.cm_attempt.specs.Rows.{table_of};

    ghost view = { λ t. table_of t.first t.cases.entries t.attempts.entries };

    ghost invariant = { λ t. All (λ c. c.attempts ≤ index_map_len t.attempts) (values t.cases)
        × HasDistinctIds (table_of t.first t.cases.entries t.attempts.entries) };
}

impl Track {
    /// A track with no case, which counts the attempts of a case from 0. It takes no memory.
    pub fn new(alloc: Global, seed: RandomState) -> Track
        ensures { result ≡ empty_table }
    {
        Track::counting_from(alloc, seed, 0)
    }

    /// A track with no case. The first attempt of each case has the number `first`, and the next ones
    /// the numbers after it. It takes no memory.
    pub fn counting_from(alloc: Global, seed: RandomState, first: u64) -> Track
        ensures { result ≡ table_from first }
    {
        Track {
            first,
            cases: IndexMap::with_hasher(alloc, seed),
            attempts: IndexMap::with_hasher(alloc, seed),
            alloc,
            seed,
        }
    }

    /// Adds a case with the ids of its steps, in their order.
    ///
    /// # Errors
    /// `DuplicateId` where the id is that of a case or two steps are equal, `Memory` where a
    /// growth is refused.
    pub fn add_case(&mut self, id: String, steps: Vec<String>) -> Result<(), TrackFault>
        // Equal steps are found with memory, so want of it may be reported in their place.
        ensures repeated_id { IfSome (case_of self.old (string_bytes id))
            (λ _. result ≡ Err TrackFault.DuplicateId) }
        ensures answer { RefusesUnless
            (add_case_fault self.old (string_bytes id) (map string_bytes steps.items))
            result TrackFault.Memory }
        ensures ok { OnOk result
            (self.new ≡ with_case (string_bytes id) (map string_bytes steps.items) self.old) }
        ensures err { OnErr result (self.new ≡ self.old) }
        ensures open_count { open_count self.new ≡ open_count self.old }
    {
        if find_case(&self.cases, id.as_str()).is_some() {
            return Err(TrackFault::DuplicateId);
        }
        let Some(steps) = distinct_texts(self.alloc, self.seed, steps)? else {
            return Err(TrackFault::DuplicateId);
        };
        let most = self.attempts.len() as u64;
        add_case(&mut self.cases, self.alloc, id.as_str(), steps, most)?;
        Ok(())
    }

    /// Starts an attempt of a case, with its number: for the first, that from which the track counts.
    ///
    /// # Errors
    /// In this order: `UnknownCase`; `DuplicateId` where the id is that of an attempt;
    /// `AttemptNumber` where the number is not that of the case's next attempt;
    /// `AttemptOverlap` where an attempt of the case is open or its last one is not retried;
    /// `Memory` where a growth is refused.
    pub fn start(&mut self, id: &str, case: &str, attempt: u64) -> Result<(), TrackFault>
        ensures answer { RefusesExactlyUnless
            (start_fault self.old id.now case.now attempt) result TrackFault.Memory }
        ensures ok { OnOk result (self.new ≡ with_attempt id.now case.now self.old) }
        ensures err { OnErr result (self.new ≡ self.old) }
        ensures opens { OnOk result (open_count self.new ≡ open_count self.old + 1) }
        ensures open_count_err { OnErr result (open_count self.new ≡ open_count self.old) }
    {
        let place = check_new(&self.cases, &self.attempts, self.first, id, case, attempt)?;
        add_attempt(&mut self.attempts, self.alloc, id, case)?;
        let most = self.attempts.len() as u64;
        open_case(&mut self.cases, place, most);
        Ok(())
    }

    /// A step of an attempt starts. It takes no memory.
    ///
    /// # Errors
    /// In this order: `UnknownAttempt`, `UnknownStep`, and `StepOrder` where the attempt has
    /// ended, a step runs or the step is not the next of its case.
    pub fn step_started(&mut self, attempt: &str, step: &str) -> Result<(), TrackFault>
        ensures answer { RefusesExactly (step_start_fault self.old attempt.now step.now) result }
        ensures ok { OnOk result
            (self.new ≡ change_attempt attempt.now with_running_step self.old) }
        ensures err { OnErr result (self.new ≡ self.old) }
        ensures open_count { open_count self.new ≡ open_count self.old }
    {
        let Some((place, found)) = find_attempt(&self.attempts, attempt) else {
            return Err(TrackFault::UnknownAttempt);
        };
        check_start(&self.cases, found, step)?;
        set_running(&mut self.attempts, place);
        Ok(())
    }

    /// A step of an attempt finishes with a status. It takes no memory.
    ///
    /// # Errors
    /// In this order: `UnknownAttempt`, `UnknownStep`, and `StepOrder` where the step is not the
    /// one that runs.
    pub fn step_finished(
        &mut self,
        attempt: &str,
        step: &str,
        status: Status,
    ) -> Result<(), TrackFault>
        ensures answer { RefusesExactly (step_finish_fault self.old attempt.now step.now) result }
        ensures ok { OnOk result
            (self.new ≡ change_attempt attempt.now (with_finished_step status) self.old) }
        ensures err { OnErr result (self.new ≡ self.old) }
        ensures open_count { open_count self.new ≡ open_count self.old }
    {
        let Some((place, found)) = find_attempt(&self.attempts, attempt) else {
            return Err(TrackFault::UnknownAttempt);
        };
        let next = check_finish(&self.cases, found, step)?;
        note_status(&mut self.attempts, place, next, status);
        Ok(())
    }

    /// An attempt ends. `will_be_retried` says whether another of its case follows. It takes no
    /// memory.
    ///
    /// # Errors
    /// In this order: `UnknownAttempt`, `StepOrder` where the attempt has ended already, and
    /// `FinishedEarly` where it has a step that is not finished.
    pub fn finish(&mut self, attempt: &str, will_be_retried: bool) -> Result<(), TrackFault>
        ensures answer { RefusesExactly (finish_fault self.old attempt.now) result }
        ensures ok { OnOk result
            (self.new ≡ with_finished_attempt attempt.now will_be_retried self.old) }
        ensures err { OnErr result (self.new ≡ self.old) }
        ensures closes { OnOk result (open_count self.new + 1 ≡ open_count self.old) }
        ensures open_count_err { OnErr result (open_count self.new ≡ open_count self.old) }
    {
        let Some((place, found)) = find_attempt(&self.attempts, attempt) else {
            return Err(TrackFault::UnknownAttempt);
        };
        let case = check_end(&self.cases, found)?;
        let last = outcome(found, will_be_retried);
        let most = self.attempts.len() as u64;
        close_case(&mut self.cases, case, last, most);
        set_ended(&mut self.attempts, place);
        Ok(())
    }

    /// The worst status of the case's final attempt, which is one that ended and is not retried.
    /// None where there is no such attempt or no such case.
    pub fn reported(&self, case: &str) -> Option<Status>
        ensures value { result ≡ reported_status self.now case.now }
        ensures distinct { HasDistinctIds self.now }
    {
        let (_, found) = find_case(&self.cases, case)?;
        final_status(found.last)
    }

    /// Each case in order of declaration, with its status as `reported` gives it.
    ///
    /// # Errors
    /// Only where there is no memory for the list.
    pub fn results(&self) -> Result<Vec<CaseResult<'_>>, AllocError>
        ensures { IfOk result (λ all. map result_view all.items ≡ case_results self.now) }
    {
        let mut results = Vec::new(self.alloc);
        for id in self.cases.keys() {
            let id = id.as_str();
            let status = self.reported(id);
            results.push(CaseResult { id, status })?;
        }
        Ok(results)
    }

    /// How many cases were added.
    pub fn case_count(&self) -> u64
        ensures { result ≡ length self.now.cases }
    {
        self.cases.len() as u64
    }

    /// How many attempts were started.
    pub fn attempt_count(&self) -> u64
        ensures { result ≡ length self.now.attempts }
    {
        self.attempts.len() as u64
    }

    /// How many attempts have not ended.
    pub fn open_attempts(&self) -> u64
        ensures { result ≡ open_count self.now }
    {
        count_open(&self.attempts)
    }

    /// Whether the case was added.
    pub fn has_case(&self, id: &str) -> bool
        ensures { result ≡ is_some (case_of self.now id.now) }
    {
        find_case(&self.cases, id).is_some()
    }

    /// The step that the attempt has to go through next. There is none where the attempt wasn't started, has ended, or went
    /// through all steps of its case.
    pub fn due_step(&self, attempt: &str) -> Option<DueStep<'_>>
        ensures { option_map due_view result ≡ due_step self.now attempt.now }
    {
        let (_, found) = find_attempt(&self.attempts, attempt)?;
        due_at(&self.cases, found)
    }

    /// Whether the attempt was started.
    pub fn has_attempt(&self, id: &str) -> bool
        ensures value { result ≡ is_some (row_of self.now id.now) }
        ensures distinct { HasDistinctIds self.now }
    {
        find_attempt(&self.attempts, id).is_some()
    }

    /// Whether the attempt was started and its case has the step.
    pub fn has_step(&self, attempt: &str, step: &str) -> bool
        ensures { result ≡ has_step self.now attempt.now step.now }
    {
        attempt_has_step(&self.cases, &self.attempts, attempt, step)
    }

    /// Whether each case has a final attempt whose status is good by the policy.
    pub fn all_good_with(&self, policy: Policy) -> bool
        ensures { result ≡ list_all (is_good_case policy) self.now.cases }
    {
        are_good(&self.cases, policy)
    }

    /// Whether each case has a final attempt that passed or was skipped.
    pub fn all_good(&self) -> bool
        ensures { result ≡ list_all (is_good_case Policy.Strict) self.now.cases }
    {
        self.all_good_with(Policy::Strict)
    }
}

/// The state of the last attempt of a case.
#[derive(Clone, Copy)]
pub enum Last {
    NotStarted,
    Open,
    Retried(Status),
    Final(Status),
}

/// How far an open attempt has come: the number of its finished steps, and whether the next one
/// is running.
#[derive(Clone, Copy)]
pub struct Cursor {
    pub finished: usize,
    pub is_running: bool,
}

#[derive(Drop)]
pub(crate) struct Case {
    pub(crate) steps: StepIds,
    pub(crate) attempts: u64,
    pub(crate) last: Last,
}

/// An attempt. It has no cursor once it has ended.
#[derive(Drop)]
pub(crate) struct Attempt {
    pub(crate) case_id: KeptText,
    pub(crate) cursor: Option<Cursor>,
    pub(crate) worst: Option<Status>,
}

pub(crate) type Cases = IndexMap<KeptText, Case, RandomState>;

pub(crate) type Attempts = IndexMap<KeptText, Attempt, RandomState>;

/// The case, and its place among the cases.
fn find_case<'a>(cases: &'a Cases, id: &str) -> Option<(usize, &'a Case)>
    ensures row { option_map (λ found. case_row id.now found.1.now) result
        ≡ find (λ c. bytes_eq id.now c.id) (case_rows cases.now.entries) }
    ensures place { option_map (λ found. found.0) result ≡ place_of id.now cases.now.entries }
    ensures within { IfSome result (λ found. found.0 < index_map_len cases.now) }
{
    let (place, _, case) = cases.get_full(id)?;
    Some((place, case))
}

/// The attempt, and its place among the attempts.
fn find_attempt<'a>(attempts: &'a Attempts, id: &str) -> Option<(usize, &'a Attempt)>
    ensures row { option_map (λ found. attempt_row id.now found.1.now) result
        ≡ find (λ a. bytes_eq id.now a.id) (attempt_rows attempts.now.entries) }
    ensures place { option_map (λ found. found.0) result ≡ place_of id.now attempts.now.entries }
    ensures value { IfSome result
        (λ found. slice_get (values attempts.now) found.0 ≡ Some found.1.now) }
    ensures within { IfSome result (λ found. found.0 < index_map_len attempts.now) }
{
    let (place, _, attempt) = attempts.get_full(id)?;
    Some((place, attempt))
}

/// Whether the case has the step.
fn case_has_step(cases: &Cases, id: &str, step: &str) -> bool
    ensures { result ≡ has_text step.now (steps_in (table_of 0 cases.now.entries []) id.now) }
{
    match find_case(cases, id) {
        Some((_, case)) => case.steps.contains(step),
        None => false,
    }
}

/// The status of a final attempt.
fn final_status(last: Last) -> Option<Status>
    ensures { result ≡ status_of_last last }
{
    match last {
        Last::Final(status) => Some(status),
        _ => None,
    }
}

/// Whether the last attempt is a final one whose status is good.
fn is_good_last(last: Last, policy: Policy) -> bool
    ensures { result ≡ option_map_or (is_good_status policy) (status_of_last last) false }
{
    match last {
        Last::Final(status) => policy.is_good(status),
        _ => false,
    }
}

/// How the attempt leaves its case.
fn outcome(attempt: &Attempt, will_be_retried: bool) -> Last
    ensures { (id : List ℕ)
        → result ≡ specs_outcome (attempt_row id attempt.now) will_be_retried }
{
    let status = attempt.worst.unwrap_or(Status::Passed);
    if will_be_retried {
        Last::Retried(status)
    } else {
        Last::Final(status)
    }
}

/// Whether each case has a final attempt whose status is good.
fn are_good(cases: &Cases, policy: Policy) -> bool
    ensures { result ≡ list_all (λ c. is_good policy (case_row [] c)) (values cases.now) }
{
    cases.values().all(|case| is_good_last(case.last, policy))
}

/// How many attempts have not ended.
fn count_open(attempts: &Attempts) -> u64
    ensures { result ≡ count_by (λ a. is_some (attempt_row [] a).cursor) (values attempts.now) }
{
    attempts
        .values()
        .filter(|attempt| attempt.cursor.is_some())
        .count() as u64
}

/// The step of the case that an attempt with this cursor has to go through next.
fn due_of<'a>(cursor: Cursor, steps: &'a StepIds) -> Option<DueStep<'a>>
    ensures { option_map due_view result
        ≡ due_of cursor (ids_in steps.now) }
{
    let step = steps.get(cursor.finished)?;
    Some(DueStep {
        step,
        is_running: cursor.is_running,
    })
}

/// The step that the attempt has to go through next.
fn due_at<'a>(cases: &'a Cases, attempt: &Attempt) -> Option<DueStep<'a>>
    ensures { option_map due_view result
        ≡ due_at (table_of 0 cases.now.entries []) (attempt_row [] attempt.now) }
{
    let Some(cursor) = attempt.cursor else {
        return None;
    };
    match find_case(cases, attempt.case_id.as_str()) {
        Some((_, case)) => due_of(cursor, &case.steps),
        None => None,
    }
}

/// Whether there is such an attempt and its case has the step.
fn attempt_has_step(cases: &Cases, attempts: &Attempts, id: &str, step: &str) -> bool
    ensures { result
        ≡ has_step (table_of 0 cases.now.entries attempts.now.entries) id.now step.now }
{
    match find_attempt(attempts, id) {
        Some((_, attempt)) => case_has_step(cases, attempt.case_id.as_str(), step),
        None => false,
    }
}

/// Adds a case with its steps. The id is new.
pub(crate) fn add_case(
    cases: &mut Cases,
    alloc: Global,
    id: &str,
    steps: StepIds,
    most: u64,
) -> Result<(), AllocError>
    requires new { find (λ c. bytes_eq id.now c.id) (case_rows cases.old.entries) ≡ None }
    requires few { All (λ c. c.attempts ≤ most) (values cases.old) }
    ensures ok { OnOk result (case_rows cases.new.entries
        ≡ case_rows cases.old.entries ++ new_case id.now (ids_in steps) ∷ []) }
    ensures err { OnErr result (case_rows cases.new.entries ≡ case_rows cases.old.entries) }
    ensures few { All (λ c. c.attempts ≤ most) (values cases.new) }
{
    let id = KeptText::copy_of(alloc, id)?;
    let case = Case {
        steps,
        attempts: 0,
        last: Last::NotStarted,
    };
    cases.insert(id, case)?;
    Ok(())
}

/// Adds an attempt of a case. The id is new.
fn add_attempt(
    attempts: &mut Attempts,
    alloc: Global,
    id: &str,
    case_id: &str,
) -> Result<(), AllocError>
    requires { find (λ a. bytes_eq id.now a.id) (attempt_rows attempts.old.entries) ≡ None }
    ensures ok { OnOk result (attempt_rows attempts.new.entries
        ≡ attempt_rows attempts.old.entries ++ new_row id.now case_id.now ∷ []) }
    ensures err { OnErr result
        (attempt_rows attempts.new.entries ≡ attempt_rows attempts.old.entries) }
    ensures len { OnOk result (index_map_len attempts.new ≡ index_map_len attempts.old + 1) }
    ensures len_err { OnErr result (index_map_len attempts.new ≡ index_map_len attempts.old) }
{
    let id = KeptText::copy_of(alloc, id)?;
    let case_id = KeptText::copy_of(alloc, case_id)?;
    let attempt = Attempt {
        case_id,
        cursor: Some(Cursor {
            finished: 0,
            is_running: false,
        }),
        worst: None,
    };
    attempts.insert(id, attempt)?;
    Ok(())
}

/// Opens the last attempt of the case at a place. Each case has fewer attempts than `most`.
fn open_case(cases: &mut Cases, place: usize, most: u64)
    requires few { All (λ c. c.attempts < most) (values cases.old) }
    requires within { place < index_map_len cases.old }
    ensures rows { (id : Utf8) → place_of id cases.old.entries ≡ Some place
        → case_rows cases.new.entries
        ≡ change_first (λ c. bytes_eq id c.id) with_open_attempt (case_rows cases.old.entries) }
    ensures few { All (λ c. c.attempts ≤ most) (values cases.new) }
{
    let case = &mut cases[place];
    case.attempts += 1;
    case.last = Last::Open;
}

/// Sets the state of the last attempt of the case at a place, where there is one.
fn close_case(cases: &mut Cases, place: Option<usize>, last: Last, most: u64)
    requires few { All (λ c. c.attempts ≤ most) (values cases.old) }
    requires within { IfSome place (λ at. at < index_map_len cases.old) }
    ensures rows { (id : Utf8) → place_of id cases.old.entries ≡ place
        → case_rows cases.new.entries
        ≡ change_first (λ c. bytes_eq id c.id) (with_last last) (case_rows cases.old.entries) }
    ensures few { All (λ c. c.attempts ≤ most) (values cases.new) }
{
    if let Some(at) = place {
        let case = &mut cases[at];
        case.last = last;
    }
}

/// The cursor once the next step runs.
fn started(cursor: Option<Cursor>) -> Option<Cursor>
    ensures { result ≡ option_map running_cursor cursor }
{
    cursor.map(|at| Cursor {
        finished: at.finished,
        is_running: true,
    })
}

/// Sets the next step of the attempt at a place running.
fn set_running(attempts: &mut Attempts, place: usize)
    requires { place < index_map_len attempts.old }
    ensures rows { (id : Utf8) → place_of id attempts.old.entries ≡ Some place
        → attempt_rows attempts.new.entries
        ≡ change_first (λ a. bytes_eq id a.id) with_running_step
        (attempt_rows attempts.old.entries) }
    ensures len { index_map_len attempts.new ≡ index_map_len attempts.old }
{
    let running = &mut attempts[place];
    running.cursor = started(running.cursor);
}

/// Ends the attempt at a place.
fn set_ended(attempts: &mut Attempts, place: usize)
    requires { place < index_map_len attempts.old }
    ensures rows { (id : Utf8) → place_of id attempts.old.entries ≡ Some place
        → attempt_rows attempts.new.entries
        ≡ change_first (λ a. bytes_eq id a.id) ended_attempt (attempt_rows attempts.old.entries) }
    ensures len { index_map_len attempts.new ≡ index_map_len attempts.old }
{
    let ending = &mut attempts[place];
    ending.cursor = None;
}

/// Counts the running step of the attempt at a place as finished, with its status. `next` is the
/// cursor after it.
fn note_status(attempts: &mut Attempts, place: usize, next: Cursor, status: Status)
    requires within { place < index_map_len attempts.old }
    requires next { IfSome (slice_get (values attempts.old) place)
        (λ a. option_map cursor_after_step a.cursor ≡ Some next) }
    ensures rows { (id : Utf8) → place_of id attempts.old.entries ≡ Some place
        → attempt_rows attempts.new.entries ≡ change_first (λ a. bytes_eq id a.id)
        (with_finished_step status) (attempt_rows attempts.old.entries) }
    ensures len { index_map_len attempts.new ≡ index_map_len attempts.old }
{
    let attempt = &mut attempts[place];
    attempt.cursor = Some(next);
    attempt.worst = Some(worst_with(attempt.worst, status));
}

/// Whether no new attempt may start beside or after the last one.
fn is_closed_to_new(last: Last) -> bool
    ensures { result ≡ closed_to_new last }
{
    matches!(last, Last::Open | Last::Final(_))
}

/// Whether the step is the one after those that are finished.
fn is_next(cursor: Cursor, steps: &StepIds, step: &str) -> bool
    ensures { result ≡ next_step cursor (ids_in steps.now) step.now }
{
    match steps.get(cursor.finished) {
        Some(next) => step == next,
        None => false,
    }
}

/// Whether the step may start: the attempt is under way, no step of it runs, and the step is the next one.
fn may_start(cursor: Option<Cursor>, steps: &StepIds, step: &str) -> bool
    ensures { result ≡ starts_in_order step.now cursor (ids_in steps.now) }
{
    match cursor {
        Some(cursor) => !cursor.is_running && is_next(cursor, steps, step),
        None => false,
    }
}

/// The cursor after one more finished step, of so many.
fn following(cursor: Cursor, steps: usize) -> Cursor
    requires { cursor.finished < steps }
    ensures { result ≡ cursor_after_step cursor }
{
    Cursor {
        finished: cursor.finished + 1,
        is_running: false,
    }
}

/// The cursor after the step's finish, where it may finish.
fn finished_in_order(cursor: Option<Cursor>, steps: &StepIds, step: &str) -> Option<Cursor>
    ensures { result ≡ (if ends_in_order step.now cursor (ids_in steps.now)
        then option_map cursor_after_step cursor else None) }
{
    let cursor = cursor?;
    if cursor.is_running && is_next(cursor, steps, step) {
        Some(following(cursor, steps.len()))
    } else {
        None
    }
}

/// Why a step that is out of order is refused.
fn step_fault(steps: &StepIds, step: &str) -> TrackFault
    ensures { step_fault_of (has_text step.now (ids_in steps.now)) false
        ≡ Some result }
{
    if steps.contains(step) {
        TrackFault::StepOrder
    } else {
        TrackFault::UnknownStep
    }
}

/// Whether the attempt may start, and the place of its case. The first attempt of each case has the
/// number `first`.
fn check_new(
    cases: &Cases,
    attempts: &Attempts,
    first: u64,
    id: &str,
    case: &str,
    number: u64,
) -> Result<usize, TrackFault>
    ensures answer { RefusesExactly
        (start_fault (table_of first cases.now.entries attempts.now.entries) id.now case.now number)
        result }
    ensures place { IfOk result (λ place. place_of case.now cases.now.entries ≡ Some place) }
    ensures within { IfOk result (λ place. place < index_map_len cases.now) }
{
    let Some((place, found)) = find_case(cases, case) else {
        return Err(TrackFault::UnknownCase);
    };
    if find_attempt(attempts, id).is_some() {
        return Err(TrackFault::DuplicateId);
    }
    if number.checked_sub(first) != Some(found.attempts) {
        return Err(TrackFault::AttemptNumber);
    }
    if is_closed_to_new(found.last) {
        return Err(TrackFault::AttemptOverlap);
    }
    Ok(place)
}

/// Whether the step of the attempt may start.
fn check_start(cases: &Cases, attempt: &Attempt, step: &str) -> Result<(), TrackFault>
    ensures { RefusesExactly
        (step_fault_at (table_of 0 cases.now.entries []) step.now
        (starts_in_order step.now) (Some (attempt_row [] attempt.now))) result }
{
    let Some((_, case)) = find_case(cases, attempt.case_id.as_str()) else {
        return Err(TrackFault::UnknownStep);
    };
    if may_start(attempt.cursor, &case.steps, step) {
        Ok(())
    } else {
        Err(step_fault(&case.steps, step))
    }
}

/// Whether the step of the attempt may finish, and the attempt's cursor after it.
fn check_finish(cases: &Cases, attempt: &Attempt, step: &str) -> Result<Cursor, TrackFault>
    ensures answer { RefusesExactly
        (step_fault_at (table_of 0 cases.now.entries []) step.now
        (ends_in_order step.now) (Some (attempt_row [] attempt.now))) result }
    ensures next { IfOk result
        (λ next. option_map cursor_after_step attempt.now.cursor ≡ Some next) }
{
    let Some((_, case)) = find_case(cases, attempt.case_id.as_str()) else {
        return Err(TrackFault::UnknownStep);
    };
    match finished_in_order(attempt.cursor, &case.steps, step) {
        Some(next) => Ok(next),
        None => Err(step_fault(&case.steps, step)),
    }
}

/// Whether the attempt may end, and the place of its case.
fn check_end(cases: &Cases, attempt: &Attempt) -> Result<Option<usize>, TrackFault>
    ensures answer { RefusesExactly
        (finish_fault_at (table_of 0 cases.now.entries []) (Some (attempt_row [] attempt.now)))
        result }
    ensures place { IfOk result
        (λ place. place_of (bytes_of attempt.now.case_id) cases.now.entries ≡ place) }
    ensures within { IfOk result
        (λ place. IfSome place (λ at. at < index_map_len cases.now)) }
{
    let Some(cursor) = attempt.cursor else {
        return Err(TrackFault::StepOrder);
    };
    let (place, steps) = match find_case(cases, attempt.case_id.as_str()) {
        Some((place, case)) => (Some(place), case.steps.len()),
        None => (None, 0),
    };
    if cursor.finished == steps {
        Ok(place)
    } else {
        Err(TrackFault::FinishedEarly)
    }
}
