//! The lines of run hooks: those that did not end, and those that ended badly.
ghost use Rattle.std.specs.Prelude.{◌≡◌, ◌++◌, IfOk, List, OnOk, map, ℕ, find, option_map, string_bytes};
ghost use Rattle.cm_envelope.specs.declared.envelope.Envelope.{Envelope as SomeEnvelope};
ghost use Rattle.cm_reasons.specs.Trail.{trail_of};
ghost use Rattle.cm_reasons.specs.Lines.{text_of_lines, limited_text};
ghost use Rattle.std.specs.Str.{bytes_eq};
ghost use Rattle.cm_cases.specs.Firsts.{value_at};
ghost use Rattle.cm_reasons.specs.RunKept.{bad_end_in, bad_entry_lines, bad_line, entry_line, open_entries};
ghost use Rattle.cm_reasons.specs.RunReasons.{hook_causes, open_hook_lines, run_hook_lines};
ghost use Rattle.cm_reasons.specs.Words.{status_word};

use crate::reasons::{AddLine, add_limited, status_word};
use crate::run_listing::{RunHookEnd, RunHookEntry, RunListing};
use crate::trail::Trail;
use cm_attempt::{Policy, Status};
use cm_cases::{ByText, Key, add_first, add_shown, firsts_of};
use indexmap::IndexMap;
use std::alloc::{AllocError, Global};
use std::hash::RandomState;

/// The run hook that an end names.
struct EndedHook;

impl Key<RunHookEnd> for EndedHook {
    ghost text = { λ e. e.run_hook };

    fn of(item: &RunHookEnd) -> &str {
        item.run_hook.as_str()
    }
}

/// Adds the hook that runs.
fn add_hook(text: &mut String, hook: &RunHookEntry) -> Result<(), AllocError>
    ensures { OnOk result
        (string_bytes text.new ≡ string_bytes text.old ++ entry_line hook.now) }
{
    text.push_str("hook ")?;
    add_shown(text, hook.hook_id.as_str())
}

/// Lines of run hooks.
#[derive(Drop)]
struct HookLines;

impl<'a> AddLine<&'a RunHookEntry> for HookLines {
    ghost of = { λ s es. Unit {0} };

    ghost line = { λ s es hook. entry_line hook.now };

    fn add(&self, text: &mut String, item: &&'a RunHookEntry) -> Result<(), AllocError> {
        add_hook(text, item)
    }
}

/// The run hooks that aren't finished, in the order of their starts.
fn open_hooks<'a>(
    alloc: Global,
    seed: RandomState,
    run: &'a RunListing,
) -> Result<Vec<&'a RunHookEntry>, AllocError>
    ensures { IfOk result (λ found. map (λ h. h.now) found.items ≡ open_entries run.now) }
{
    let finished = firsts_of::<EndedHook, RunHookEnd>(alloc, seed, run.ends.as_slice())?;
    let mut unfinished = Vec::new(alloc);
    for hook in run.hooks.as_slice() {
        if !finished.contains_key(hook.id.as_str()) {
            unfinished.push(hook)?;
        }
    }
    Ok(unfinished)
}

/// Adds a line for each run hook that isn't finished, a hundred at most.
///
/// # Errors
/// Only where there is no memory.
pub fn add_open_hooks(
    alloc: Global,
    seed: RandomState,
    text: &mut String,
    trail: &Trail,
) -> Result<(), AllocError>
    ensures { OnOk result ((es : List SomeEnvelope) → trail.now ≡ trail_of es
        → string_bytes text.new ≡ string_bytes text.old ++ limited_text (open_hook_lines es)) }
{
    let unfinished = open_hooks(alloc, seed, &trail.run)?;
    add_limited(text, &HookLines, unfinished.as_slice())
}

/// The first run hook with the id.
fn find_hook<'a>(hooks: &'a [RunHookEntry], id: &str) -> Option<&'a RunHookEntry>
    ensures { option_map (λ h. h.now) result ≡ find (λ h. bytes_eq id.now h.id) hooks.now }
{
    hooks.iter().find(|hook| id == hook.id.as_str())
}

/// Adds the line of the first run hook with an id, if there is one.
///
/// # Errors
/// Only where there is no memory.
pub fn add_run_hook(text: &mut String, trail: &Trail, run_hook: &str) -> Result<(), AllocError>
    ensures { OnOk result ((es : List SomeEnvelope) → trail.now ≡ trail_of es
        → string_bytes text.new
        ≡ string_bytes text.old ++ text_of_lines (run_hook_lines run_hook.now es)) }
{
    let Some(hook) = find_hook(trail.run.hooks.as_slice(), run_hook) else {
        return Ok(());
    };
    add_hook(text, hook)?;
    text.push_str("\n")
}

/// A run hook that ended with a status that isn't good.
#[derive(Drop)]
struct BadHook<'a> {
    hook: &'a RunHookEntry,
    status: Status,
}

/// Lines of such run hooks.
#[derive(Drop)]
struct BadHookLines;

impl<'a> AddLine<BadHook<'a>> for BadHookLines {
    ghost of = { λ s es. Unit {0} };

    ghost line = { λ s es bad. bad_line bad };

    fn add(&self, text: &mut String, item: &BadHook<'a>) -> Result<(), AllocError> {
        text.push_str("RUNHOOK ")?;
        text.push_str(status_word(item.status))?;
        text.push_str(" ")?;
        add_hook(text, item.hook)
    }
}

/// The first status that isn't good of each run hook that ended with one.
fn bad_ends<'a>(
    alloc: Global,
    seed: RandomState,
    ends: &'a [RunHookEnd],
    policy: Policy,
) -> Result<ByText<'a, Status>, AllocError>
    ensures { IfOk result
        (λ bad. (id : List ℕ) → value_at bad id ≡ bad_end_in policy ends.now id) }
{
    let mut bad = IndexMap::with_hasher(alloc, seed);
    for end in ends {
        if !policy.is_good(end.status) {
            add_first(&mut bad, end.run_hook.as_str(), end.status)?;
        }
    }
    Ok(bad)
}

/// The run hooks that ended with a status that isn't good, in the order of their starts.
fn bad_hooks<'a>(
    alloc: Global,
    seed: RandomState,
    run: &'a RunListing,
    policy: Policy,
) -> Result<Vec<BadHook<'a>>, AllocError>
    ensures { IfOk result (λ bad. map bad_line bad.items
        ≡ bad_entry_lines policy run.now.ends run.now.hooks) }
{
    let ends = bad_ends(alloc, seed, run.ends.as_slice(), policy)?;
    let mut bad = Vec::new(alloc);
    for hook in run.hooks.as_slice() {
        if let Some(status) = ends.get(hook.id.as_str()) {
            let status = *status;
            bad.push(BadHook { hook, status })?;
        }
    }
    Ok(bad)
}

/// Adds a line for each run hook that ended with a status that isn't good by the policy, a hundred at most.
///
/// # Errors
/// Only where there is no memory.
pub fn add_hook_causes(
    alloc: Global,
    seed: RandomState,
    text: &mut String,
    trail: &Trail,
    policy: Policy,
) -> Result<(), AllocError>
    ensures { OnOk result ((es : List SomeEnvelope) → trail.now ≡ trail_of es
        → string_bytes text.new ≡ string_bytes text.old ++ limited_text (hook_causes policy es)) }
{
    let bad = bad_hooks(alloc, seed, &trail.run, policy)?;
    add_limited(text, &BadHookLines, bad.as_slice())
}
