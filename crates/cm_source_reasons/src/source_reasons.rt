//! What is told at a fault against a source.
ghost use Rattle.std.specs.Prelude.{◌≡◌, ◌++◌, List, ℕ, OnOk, string_bytes, [], IfOk, Some, None, drop, find, if◌then◌else◌, length, map};
ghost use Rattle.std.specs.Prelude.{option_map, take, slice_get, ◌∷◌, unwrap_or};
ghost use Rattle.cm_attempt.specs.declared.status.Settings.{Settings};
ghost use Rattle.cm_envelope.specs.declared.envelope.Envelope.{Envelope as SomeEnvelope};
ghost use Rattle.cm_reasons.specs.Trail.{trail_of};
ghost use Rattle.cm_stream.specs.Findings.{IsBad, stream_fault_named};
ghost use Rattle.cm_judge.specs.State.{summary_of};
ghost use Rattle.cm_source_reasons.specs.Deciding.{IsDeciding};
ghost use Rattle.cm_source_reasons.specs.SourceKept.{TellsAtTree, TellsKept, lack_lines_by, lines_at_pickle, pickle_reason_text_by};
ghost use Rattle.cm_source_reasons.specs.SourceKept.{lack_lines, difference_lines, DiffersInTree, OfFound, TellsTree};
ghost use Rattle.cm_source_reasons.specs.SourceReasons.{IsSourceReason, missing_document, missing_pickles, difference_text, side_text};
ghost use Rattle.cm_source_reasons.specs.SourceReasons.{sides_text, uri_line, pickle_reason_text, due_line};
ghost use Rattle.gk_pickle.specs.Rest.{title_of};
ghost use Rattle.cm_cases.specs.Listed.{listing_of};
ghost use Rattle.cm_reasons.specs.Lines.{text_of_lines, most_lines};
ghost use Rattle.cm_state.specs.StateChecks.{lacks_by, find_source};
ghost use Rattle.cm_judge.specs.Kept.{kept_row};
ghost use Rattle.cm_source_reasons.specs.DueLines.{missing_line, scenario_of};
ghost use Rattle.cm_attempt.specs.Calls.{last_of};
ghost use Rattle.cm_stream.specs.Sources.{ids_at};

use cm_cases::{Places, add_shown, add_shown_json};
use cm_differs::{Difference, pickle_difference, tree_difference};
use cm_envelope::{Envelope, GherkinDocument, NodeId, Pickle, id_of};
use cm_judge::{DuePickles, KeptSource, Sources, State};
use cm_reasons::{MOST_LINES, Trail, add_more};
use cm_stream::StreamFault;
use gk_document::Text;
use gk_pickle::{Pickle as DuePickle, PickleTitle};
use kept_texts::KeptText;
use std::alloc::{AllocError, Global};
use std::hash::RandomState;

/// Adds what is told of an envelope, where it is a document.
fn add_at_tree(
    alloc: Global,
    text: &mut String,
    state: &State,
    envelope: &Envelope,
) -> Result<(), AllocError>
    ensures { OnOk result ((lines : List ℕ)
        × TellsAtTree (summary_of state.now) envelope.now lines
        × (string_bytes text.new ≡ string_bytes text.old ++ lines)) }
{
    match envelope {
        Envelope::GherkinDocument(document) => add_of_document(alloc, text, state, document),
        _ => Ok(()),
    }
}

/// Adds what is told of a pickle.
fn add_pickle(
    alloc: Global,
    seed: RandomState,
    text: &mut String,
    state: &State,
    trail: &Trail,
    pickle: &Pickle,
) -> Result<(), AllocError>
    ensures { OnOk result ((es : List SomeEnvelope) → trail.now ≡ trail_of es
        → string_bytes text.new ≡ string_bytes text.old
        ++ pickle_reason_text_by (summary_of state.now) es pickle.now) }
{
    let places = trail.places(alloc, seed)?;
    let added = add_of_pickle(alloc, seed, text, state, &places, pickle);
    drop(places);
    added
}

/// Adds what is told of an envelope, where it is a pickle.
fn add_at_pickle(
    alloc: Global,
    seed: RandomState,
    text: &mut String,
    state: &State,
    trail: &Trail,
    envelope: &Envelope,
) -> Result<(), AllocError>
    ensures { OnOk result ((es : List SomeEnvelope) → trail.now ≡ trail_of es
        → string_bytes text.new ≡ string_bytes text.old
        ++ lines_at_pickle (summary_of state.now) es envelope.now) }
{
    match envelope {
        Envelope::Pickle(pickle) => add_pickle(alloc, seed, text, state, trail, pickle),
        _ => Ok(()),
    }
}

/// Adds what is told at the end of the run.
fn add_at_end(
    alloc: Global,
    seed: RandomState,
    text: &mut String,
    state: &State,
    trail: &Trail,
) -> Result<(), AllocError>
    ensures { OnOk result ((es : List SomeEnvelope) → trail.now ≡ trail_of es
        → string_bytes text.new
        ≡ string_bytes text.old ++ lack_lines_by (summary_of state.now) es) }
{
    let places = trail.places(alloc, seed)?;
    let added = add_first_lack(alloc, seed, text, state, &places);
    drop(places);
    added
}

/// Adds what is told, by what is kept.
fn add_kept(
    alloc: Global,
    seed: RandomState,
    text: &mut String,
    state: &State,
    trail: &Trail,
    envelope: &Envelope,
    fault: StreamFault,
) -> Result<(), AllocError>
    ensures { OnOk result ((es : List SomeEnvelope) → trail.now ≡ trail_of es
        → (lines : List ℕ) × TellsKept (summary_of state.now) es envelope.now fault lines
        × (string_bytes text.new ≡ string_bytes text.old ++ lines)) }
{
    match fault {
        StreamFault::TreeDiffers => add_at_tree(alloc, text, state, envelope),
        StreamFault::PickleDiffers => add_at_pickle(alloc, seed, text, state, trail, envelope),
        StreamFault::SourceIncomplete => add_at_end(alloc, seed, text, state, trail),
        _ => Ok(()),
    }
}

/// Adds what is told of an envelope that has a fault against a source, line by line, by what an audit keeps of the lines before
/// it and by the trail of these and of it. At `TreeDiffers` that is the feature file and in which part the document differs
/// first; at `PickleDiffers` the pickle that is due, or the feature file where none is, what it is as JSON, and what the stream
/// has in its place; at `SourceIncomplete` the first feature file that lacks something, and its document or the pickles that
/// didn't come. At any other fault nothing is added.
///
/// # Errors
/// Only where there is no memory for it.
pub fn add_source_reasons(
    alloc: Global,
    seed: RandomState,
    text: &mut String,
    state: &State,
    trail: &Trail,
    envelope: &Envelope,
    fault: StreamFault,
) -> Result<(), AllocError>
    ensures { OnOk result ((settings : Settings) (before : List SomeEnvelope)
        (d : IsDeciding settings (summary_of state.now) trail.now before envelope.now
        (IsBad (stream_fault_named fault)))
        → (lines : List ℕ) × IsSourceReason d.read before envelope.now fault lines
        × (string_bytes text.new ≡ string_bytes text.old ++ lines)) }
{
    add_kept(alloc, seed, text, state, trail, envelope, fault)
}

/// Adds the lines of the first hundred of those that are due, which are then passed. Their steps aren't made.
fn add_first(
    alloc: Global,
    seed: RandomState,
    text: &mut String,
    lines: &DueLines<'_, '_>,
    due: &mut DuePickles<'_>,
) -> Result<(), AllocError>
    ensures left { OnOk result (map title_of due.new ≡ drop most_lines (map title_of due.old)) }
    ensures lines { OnOk result ((es : List SomeEnvelope) → lines.now.places.now ≡ listing_of es
        → string_bytes text.new ≡ string_bytes text.old
        ++ text_of_lines (take most_lines
        (map (missing_line es lines.now.uri.now lines.now.ids.now) (map title_of due.old)))) }
{
    for _shown in 0..MOST_LINES {
        match due.next_title(alloc, seed)? {
            Some(title) => lines.add_missing(text, &title)?,
            None => return Ok(()),
        }
    }
    Ok(())
}

/// How many pickles are due. They aren't made.
///
/// # Errors
/// Only where they are more than a `u64` can count, and no memory holds the rows of so many.
fn count_of(mut due: DuePickles<'_>) -> Result<u64, AllocError>
    ensures { IfOk result (λ count. count ≡ length due.entry) }
{
    let mut count: u64 = 0;
    while due.pass() {
        count = count.checked_add(1).ok_or(AllocError)?;
    }
    Ok(count)
}

/// Adds the pickles of a source that didn't come.
fn add_pickles(
    alloc: Global,
    seed: RandomState,
    text: &mut String,
    places: &Places<'_>,
    uri: &str,
    source: &KeptSource,
) -> Result<(), AllocError>
    ensures { OnOk result ((es : List SomeEnvelope) → places.now ≡ listing_of es
        → string_bytes text.new ≡ string_bytes text.old
        ++ missing_pickles es uri.now (kept_row [] source.now).ids (kept_row [] source.now).due) }
{
    let lines = DueLines {
        uri,
        ids: source.ids(),
        places,
    };
    let mut due = source.due();
    add_first(alloc, seed, text, &lines, &mut due)?;
    match count_of(due)? {
        0 => Ok(()),
        more => add_more(text, more),
    }
}

/// Adds that a document didn't come.
fn add_document(text: &mut String) -> Result<(), AllocError>
    ensures { OnOk result (string_bytes text.new ≡ string_bytes text.old ++ missing_document) }
{
    text.push_str("missing document\n")
}

/// Adds a source and what of it didn't come: its document, or else pickles.
fn add_lack(
    alloc: Global,
    seed: RandomState,
    text: &mut String,
    places: &Places<'_>,
    uri: &str,
    source: &KeptSource,
) -> Result<(), AllocError>
    ensures { OnOk result ((es : List SomeEnvelope) → places.now ≡ listing_of es
        → string_bytes text.new
        ≡ string_bytes text.old ++ lack_lines es (kept_row uri.now source.now)) }
{
    add_uri(text, uri)?;
    match source.awaited() {
        Some(_) => add_document(text),
        None => add_pickles(alloc, seed, text, places, uri, source),
    }
}

/// The source with its uri, where something of it is missing.
fn if_incomplete<'a>(
    uri: &'a KeptText,
    source: &'a KeptSource,
) -> Option<(&'a KeptText, &'a KeptSource)>
    ensures { result
        ≡ (if lacks_by (kept_row [] source.now) then Some (uri.entry, source.entry) else None) }
{
    if source.lacks_some() {
        Some((uri, source))
    } else {
        None
    }
}

/// The first source of which something is missing, with its uri.
fn first_incomplete(sources: &Sources) -> Option<(&KeptText, &KeptSource)>
    ensures { option_map (λ e. (e.0.now, e.1.now)) result
        ≡ find (λ e. lacks_by (kept_row [] e.1)) sources.now.entries }
{
    let mut found = None;
    for (uri, source) in sources.iter() {
        found = found.or(if_incomplete(uri, source));
    }
    found
}

/// Adds the first source of which something is missing, and what of it is.
///
/// # Errors
/// Only where there is no memory for it.
fn add_first_lack(
    alloc: Global,
    seed: RandomState,
    text: &mut String,
    state: &State,
    places: &Places<'_>,
) -> Result<(), AllocError>
    ensures { OnOk result ((es : List SomeEnvelope) → places.now ≡ listing_of es
        → string_bytes text.new
        ≡ string_bytes text.old ++ lack_lines_by (summary_of state.now) es) }
{
    match first_incomplete(state.sources()) {
        Some((uri, source)) => add_lack(alloc, seed, text, places, uri.as_str(), source),
        None => Ok(()),
    }
}

/// Adds one side of a difference.
fn add_side(text: &mut String, name: &str, json: &Option<Text>) -> Result<(), AllocError>
    ensures { OnOk result
        (string_bytes text.new ≡ string_bytes text.old ++ side_text name.now json.now) }
{
    text.push_str(name)?;
    text.push_str(" ")?;
    match json {
        Some(json) => add_shown_json(text, json.as_str())?,
        None => text.push_str("nothing")?,
    }
    text.push_str("\n")
}

/// Adds what is due and what is found.
fn add_sides(text: &mut String, difference: &Difference) -> Result<(), AllocError>
    ensures { OnOk result
        (string_bytes text.new ≡ string_bytes text.old ++ sides_text difference.now) }
{
    add_side(text, "expected", &difference.expected)?;
    add_side(text, "found", &difference.found)
}

/// Adds the line of a feature file.
fn add_uri(text: &mut String, uri: &str) -> Result<(), AllocError>
    ensures { OnOk result
        (string_bytes text.new ≡ string_bytes text.old ++ uri_line uri.now) }
{
    text.push_str("uri ")?;
    add_shown(text, uri)?;
    text.push_str("\n")
}

/// Adds the feature file of a difference and both sides.
fn add_some(text: &mut String, difference: &Difference) -> Result<(), AllocError>
    ensures { OnOk result
        (string_bytes text.new ≡ string_bytes text.old ++ difference_text difference.now) }
{
    add_uri(text, difference.uri.as_str())?;
    add_sides(text, difference)
}

/// Adds the lines of a difference, where there is one.
fn add_difference(text: &mut String, difference: &Option<Difference>) -> Result<(), AllocError>
    ensures { OnOk result
        (string_bytes text.new ≡ string_bytes text.old ++ difference_lines difference.now) }
{
    match difference {
        Some(difference) => add_some(text, difference),
        None => Ok(()),
    }
}

/// The difference of a document of the stream from the one that is awaited.
fn awaited_difference(
    alloc: Global,
    source: &KeptSource,
    document: &GherkinDocument,
) -> Result<Option<Difference>, AllocError>
    ensures { IfOk result (DiffersInTree (kept_row [] source.now) document.now) }
{
    match source.awaited() {
        Some(due) => tree_difference(alloc, document.uri.as_str(), due, &document.document),
        None => Ok(None),
    }
}

/// The difference of a document of the stream from that of its source.
fn document_difference(
    alloc: Global,
    state: &State,
    document: &GherkinDocument,
) -> Result<Option<Difference>, AllocError>
    ensures { IfOk result (λ o. OfFound (find_source (summary_of state.now) document.now.uri)
        (λ r. DiffersInTree r document.now o)) }
{
    match state.find_source(document.uri.as_str()) {
        Some(source) => awaited_difference(alloc, source, document),
        None => Ok(None),
    }
}

/// Adds the lines of that difference.
fn add_of_document(
    alloc: Global,
    text: &mut String,
    state: &State,
    document: &GherkinDocument,
) -> Result<(), AllocError>
    ensures { OnOk result ((lines : List ℕ)
        × TellsTree (summary_of state.now) document.now lines
        × (string_bytes text.new ≡ string_bytes text.old ++ lines)) }
{
    let difference = document_difference(alloc, state, document)?;
    add_difference(text, &difference)
}

/// Adds the next pickle of a source, and how the stream's pickle differs from it.
fn add_next(
    alloc: Global,
    seed: RandomState,
    text: &mut String,
    places: &Places<'_>,
    source: &KeptSource,
    pickle: &Pickle,
) -> Result<(), AllocError>
    ensures { OnOk result ((es : List SomeEnvelope) → places.now ≡ listing_of es
        → string_bytes text.new ≡ string_bytes text.old
        ++ pickle_reason_text es (kept_row [] source.now).ids
        (slice_get (kept_row [] source.now).due 0) pickle.now) }
{
    let due = source.due().next(alloc, seed)?;
    let lines = DueLines {
        uri: pickle.uri.as_str(),
        ids: source.ids(),
        places,
    };
    lines.add_due(text, due.as_ref())?;
    let difference = pickle_difference(alloc, lines.ids, due.as_ref(), pickle)?;
    add_sides(text, &difference)?;
    Ok(())
}

/// Adds the next pickle of the stream's pickle's source, and how that differs from it.
///
/// # Errors
/// Only where there is no memory for it.
fn add_of_pickle(
    alloc: Global,
    seed: RandomState,
    text: &mut String,
    state: &State,
    places: &Places<'_>,
    pickle: &Pickle,
) -> Result<(), AllocError>
    ensures { OnOk result ((es : List SomeEnvelope) → places.now ≡ listing_of es
        → string_bytes text.new ≡ string_bytes text.old
        ++ pickle_reason_text_by (summary_of state.now) es pickle.now) }
{
    match state.find_source(pickle.uri.as_str()) {
        Some(source) => add_next(alloc, seed, text, places, source, pickle),
        None => Ok(()),
    }
}

/// The id of the last of some nodes.
fn last_node<'a>(ids: &'a [NodeId], nodes: &[u64]) -> &'a str
    ensures { result.now ≡ unwrap_or (last_of (ids_at ids.now nodes.now)) [] }
{
    match nodes.last() {
        Some(node) => id_of(ids, *node),
        None => "",
    }
}

/// What such lines are made of: the source's uri, the ids that the stream's document gives its nodes, by their numbers, and
/// where those stand.
#[derive(Drop)]
pub(crate) struct DueLines<'a, 'p> {
    pub uri: &'a str,
    pub ids: &'a [NodeId],
    pub places: &'a Places<'p>,
}

impl DueLines<'_, '_> {
    /// Adds where the scenario of a pickle of these nodes stands, and its name.
    fn add_scenario(&self, text: &mut String, name: &str, nodes: &[u64]) -> Result<(), AllocError>
        ensures { OnOk result ((es : List SomeEnvelope) → self.now.places.now ≡ listing_of es
            → string_bytes text.new ≡ string_bytes text.old
            ++ scenario_of es self.now.uri.now self.now.ids.now name.now nodes.now) }
    {
        let node = last_node(self.ids, nodes);
        self.places.add_place(text, self.uri, name, node)
    }

    /// Adds the line of a pickle that didn't come.
    ///
    /// # Errors
    /// Only where there is no memory for it.
    fn add_missing(&self, text: &mut String, due: &PickleTitle) -> Result<(), AllocError>
        ensures { OnOk result ((es : List SomeEnvelope) → self.now.places.now ≡ listing_of es
            → string_bytes text.new ≡ string_bytes text.old
            ++ text_of_lines (missing_line es self.now.uri.now self.now.ids.now due.now ∷ [])) }
    {
        text.push_str("missing")?;
        self.add_scenario(text, due.name.as_str(), due.nodes.as_slice())?;
        text.push_str("\n")?;
        Ok(())
    }

    /// Adds the line of the next pickle.
    fn add_next(&self, text: &mut String, due: &DuePickle) -> Result<(), AllocError>
        ensures { OnOk result ((es : List SomeEnvelope) → self.now.places.now ≡ listing_of es
            → string_bytes text.new ≡ string_bytes text.old
            ++ due_line es self.now.uri.now self.now.ids.now (Some due.now)) }
    {
        text.push_str("due")?;
        self.add_scenario(text, due.name.as_str(), due.nodes.as_slice())?;
        text.push_str("\n")?;
        Ok(())
    }

    /// Adds the line of the next pickle, or of the feature file where none is due.
    ///
    /// # Errors
    /// Only where there is no memory for it.
    fn add_due(&self, text: &mut String, due: Option<&DuePickle>) -> Result<(), AllocError>
        ensures { OnOk result ((es : List SomeEnvelope) → self.now.places.now ≡ listing_of es
            → string_bytes text.new ≡ string_bytes text.old
            ++ due_line es self.now.uri.now self.now.ids.now (option_map (λ d. d.now) due.entry)) }
    {
        match due {
            Some(due) => self.add_next(text, due),
            None => add_uri(text, self.uri),
        }
    }
}
