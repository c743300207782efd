//! What is kept of sources and run hooks for the lines of reasons.
ghost use Rattle.std.specs.Prelude.{◌≡◌, ◌++◌, ◌∷◌, [], IfOk, List, OnOk, map, OnErr};
ghost use Rattle.cm_cases.specs.Listed.{both_texts};
ghost use Rattle.cm_stream.specs.References.{sources};
ghost use Rattle.cm_envelope.specs.declared.envelope.Envelope.{Envelope as SomeEnvelope};
ghost use Rattle.cm_reasons.specs.Run.{uri_and_text, run_hook_end, run_hook_entry, run_listing_of, source_entry};

use cm_attempt::Status;
use cm_envelope::{Envelope, Source, TestRunHookFinished, TestRunHookStarted};
use cm_stream::kept_status;
use gk_document::{Sequence, Text};
use std::alloc::{AllocError, Global};

/// A source, by its uri and its text.
#[derive(Drop)]
pub(crate) struct SourceEntry {
    pub(crate) uri: Text,
    pub(crate) content: Text,
}

/// The start of a run hook, with the id of the hook that runs.
#[derive(Drop)]
pub(crate) struct RunHookEntry {
    pub(crate) id: Text,
    pub(crate) hook_id: Text,
}

/// The end of a run hook, by the id that its start has.
#[derive(Drop)]
pub(crate) struct RunHookEnd {
    pub(crate) run_hook: Text,
    pub(crate) status: Status,
}

/// What the lines of a stream's sources and run hooks name, kept envelope by envelope.
#[derive(Drop)]
pub struct RunListing {
    pub(crate) sources: Sequence<SourceEntry>,
    pub(crate) hooks: Sequence<RunHookEntry>,
    pub(crate) ends: Sequence<RunHookEnd>,
}

/// What is kept of a source.
fn source_entry(alloc: Global, source: &Source) -> Result<SourceEntry, AllocError>
    ensures { IfOk result (λ entry. entry ≡ source_entry source.now) }
{
    Ok(SourceEntry {
        uri: Text::copy_of(alloc, source.uri.as_str())?,
        content: Text::copy_of(alloc, source.content.as_str())?,
    })
}

/// What is kept of the start of a run hook.
fn run_hook_entry(alloc: Global, start: &TestRunHookStarted) -> Result<RunHookEntry, AllocError>
    ensures { IfOk result (λ entry. entry ≡ run_hook_entry start.now) }
{
    Ok(RunHookEntry {
        id: Text::copy_of(alloc, start.id.as_str())?,
        hook_id: Text::copy_of(alloc, start.hook_id.as_str())?,
    })
}

/// What is kept of the end of a run hook.
fn run_hook_end(alloc: Global, end: &TestRunHookFinished) -> Result<RunHookEnd, AllocError>
    ensures { IfOk result (λ entry. entry ≡ run_hook_end end.now) }
{
    Ok(RunHookEnd {
        run_hook: Text::copy_of(alloc, end.test_run_hook_started_id.as_str())?,
        status: kept_status(end.result.status),
    })
}

impl RunListing {
    /// That of no envelope. It takes no memory.
    pub fn new(alloc: Global) -> RunListing
        ensures { result ≡ run_listing_of [] }
    {
        RunListing {
            sources: Sequence::new(alloc),
            hooks: Sequence::new(alloc),
            ends: Sequence::new(alloc),
        }
    }

    /// Keeps what the lines name of one envelope more.
    ///
    /// # Errors
    /// Only where there is no memory for it; then the listing is as it was.
    pub fn note(&mut self, alloc: Global, envelope: &Envelope) -> Result<(), AllocError>
        ensures ok { OnOk result ((es : List SomeEnvelope) → self.old ≡ run_listing_of es
            → self.new ≡ run_listing_of (es ++ envelope.now ∷ [])) }
        ensures err { OnErr result (self.new ≡ self.old) }
    {
        match envelope {
            Envelope::Source(source) => self.sources.push(source_entry(alloc, source)?),
            Envelope::TestRunHookStarted(start) => self.hooks.push(run_hook_entry(alloc, start)?),
            Envelope::TestRunHookFinished(end) => self.ends.push(run_hook_end(alloc, end)?),
            _ => Ok(()),
        }
    }

    /// The uri and the text of each of its sources.
    ///
    /// # Errors
    /// Only where there is no memory for the list.
    pub(crate) fn source_texts(&self, alloc: Global) -> Result<Vec<(&str, &str)>, AllocError>
        ensures { IfOk result (λ found. (es : List SomeEnvelope) → self.now ≡ run_listing_of es
            → map both_texts found.items ≡ map uri_and_text (sources es)) }
    {
        let mut found = Vec::new(alloc);
        for source in self.sources.as_slice() {
            found.push((source.uri.as_str(), source.content.as_str()))?;
        }
        Ok(found)
    }
}
