//! What an audit keeps of the sources: the document of each, the ids that stand for its nodes, and which of its pickles is next.
ghost use Rattle.std.specs.Prelude.{◌≡◌, option_map, ℕ, List, [], IfOk, true, find};
ghost use Rattle.cm_state.specs.StateChecks.{find_source, is_awaited_of, is_next_of, lacks_by};
ghost use Rattle.cm_state.specs.Summary.{new_row, one_more, with_ids, change_source};
ghost use Rattle.cm_judge.specs.Kept.{kept_row, kept_rows, ReadsAs, accepted_row, IsAcceptedAt};
ghost use Rattle.cm_stream.specs.Readings.{Accepted as accepted_text};
ghost use Rattle.cm_stream.specs.OnePass.{reads};
ghost use Rattle.std.specs.List.{list_all, list_any};
ghost use Rattle.indexmap.specs.IndexMap.{values};
ghost use Rattle.std.specs.Str.{bytes_eq};

use crate::due::{DuePickles, is_due_pickle};
use crate::stop::Stop;
use cm_envelope::{NodeId, Pickle};
use cm_stream::Reason;
use gk_document::{Document, Sequence, same_skeleton};
use gk_grammar::FaultKind;
use gk_pickle::{PicklePlace, pass_pickle};
use gk_tree::parse;
use indexmap::IndexMap;
use kept_texts::KeptText;
use std::alloc::{AllocError, Global};
use std::hash::RandomState;

/// The sources by their uris, in the order of the stream.
pub type Sources = IndexMap<KeptText, KeptSource, RandomState>;

/// A source whose text is of the grammar: its document, until the stream's one and all its pickles came; whether the stream's
/// one is awaited; the ids of that one, once it came; and how far its pickles came.
#[derive(Drop)]
pub struct AcceptedSource {
    document: Option<Document>,
    awaits_document: bool,
    ids: Sequence<NodeId>,
    place: PicklePlace,
}

impl AcceptedSource {
    /// A source of which nothing came yet. It takes no memory.
    fn new(alloc: Global, document: Document) -> AcceptedSource
        ensures { accepted_row [] result ≡ new_row [] (accepted_text document) }
    {
        AcceptedSource {
            document: Some(document),
            awaits_document: true,
            ids: Sequence::new(alloc),
            place: PicklePlace::first(),
        }
    }

    /// The document that the stream's is compared with, while that is awaited.
    fn awaited(&self) -> Option<&Document>
        ensures { option_map (λ d. d.now) result ≡ (accepted_row [] self.now).awaited }
    {
        if self.awaits_document {
            self.document.as_ref()
        } else {
            None
        }
    }

    /// The pickles that didn't come.
    fn due(&self) -> DuePickles<'_>
        ensures { result ≡ (accepted_row [] self.now).due }
    {
        DuePickles {
            document: self.document.as_ref(),
            place: self.place,
        }
    }

    /// Whether the stream's document has the skeleton of the one that is awaited.
    pub(crate) fn is_awaited(&self, document: &Document) -> bool
        ensures { result ≡ is_awaited_of document.now (accepted_row [] self.now) }
    {
        match self.awaited() {
            Some(awaited) => same_skeleton(document, awaited),
            None => false,
        }
    }

    /// The document isn't kept any longer, once nothing of the stream is compared with it.
    fn forget(&mut self)
        ensures { (uri : List ℕ) → accepted_row uri self.new ≡ accepted_row uri self.old }
    {
        if !self.awaits_document && !self.due().has_some() {
            drop(self.document.take());
        }
    }

    /// The stream's document came, with these ids.
    pub(crate) fn set_ids(&mut self, ids: Sequence<NodeId>)
        ensures { (uri : List ℕ)
            → accepted_row uri self.new ≡ with_ids ids (accepted_row uri self.old) }
    {
        self.awaits_document = false;
        self.ids = ids;
        self.forget();
    }

    /// Whether the pickle is the next one of the source, which is made for it.
    ///
    /// # Errors
    /// Only where there is no memory for the pickle that is due.
    pub(crate) fn is_next(
        &self,
        alloc: Global,
        seed: RandomState,
        pickle: &Pickle,
    ) -> Result<bool, AllocError>
        ensures { IfOk result (λ is. is ≡ is_next_of pickle.now (accepted_row [] self.now)) }
    {
        match self.due().next(alloc, seed)? {
            Some(due) => Ok(is_due_pickle(pickle, self.ids.as_slice(), &due)),
            None => Ok(false),
        }
    }

    /// The place is behind the next pickle.
    fn pass(&mut self)
        ensures { (uri : List ℕ)
            → accepted_row uri self.new ≡ one_more (accepted_row uri self.old) }
    {
        if let Some(document) = &self.document {
            let _ = pass_pickle(document, &mut self.place);
        }
    }

    /// The next pickle came.
    pub(crate) fn count_pickle(&mut self)
        ensures { (uri : List ℕ)
            → accepted_row uri self.new ≡ one_more (accepted_row uri self.old) }
    {
        self.pass();
        self.forget();
    }

    /// Whether its document or one of its pickles is lacking.
    fn lacks_some(&self) -> bool
        ensures { result ≡ lacks_by (accepted_row [] self.now) }
    {
        self.awaited().is_some() || self.due().has_some()
    }
}

/// What is kept of a source, by what its text is read as.
#[derive(Drop)]
pub enum KeptSource {
    /// Its text isn't of the grammar. Nothing comes of it.
    Refused,
    /// Its text is of the grammar.
    Accepted(AcceptedSource),
}

impl KeptSource {
    /// The document that its text is read as, until the stream's document came.
    pub fn awaited(&self) -> Option<&Document>
        ensures { option_map (λ d. d.now) result ≡ (kept_row [] self.now).awaited }
    {
        match self {
            KeptSource::Refused => None,
            KeptSource::Accepted(accepted) => accepted.awaited(),
        }
    }

    /// The ids of the stream's document, once it came.
    pub fn ids(&self) -> &[NodeId]
        ensures { result.now ≡ (kept_row [] self.now).ids }
    {
        match self {
            KeptSource::Refused => &[],
            KeptSource::Accepted(accepted) => accepted.ids.as_slice(),
        }
    }

    /// The pickles that its text compiles to and that didn't come, in order.
    pub fn due(&self) -> DuePickles<'_>
        ensures { result ≡ (kept_row [] self.now).due }
    {
        match self {
            KeptSource::Refused => DuePickles {
                document: None,
                place: PicklePlace::first(),
            },
            KeptSource::Accepted(accepted) => accepted.due(),
        }
    }

    /// Whether its document or one of its pickles is lacking.
    pub fn lacks_some(&self) -> bool
        ensures { result ≡ lacks_by (kept_row [] self.now) }
    {
        match self {
            KeptSource::Refused => false,
            KeptSource::Accepted(accepted) => accepted.lacks_some(),
        }
    }

    /// Whether the pickle is the next one of the source, which is made for it.
    ///
    /// # Errors
    /// Only where there is no memory for the pickle that is due.
    pub fn is_next(
        &self,
        alloc: Global,
        seed: RandomState,
        pickle: &Pickle,
    ) -> Result<bool, AllocError>
        ensures { IfOk result (λ is. is ≡ is_next_of pickle.now (kept_row [] self.now)) }
    {
        match self {
            KeptSource::Refused => Ok(false),
            KeptSource::Accepted(accepted) => accepted.is_next(alloc, seed, pickle),
        }
    }

    /// The stream's document of an accepted source came, with these ids.
    pub(crate) fn set_ids(&mut self, ids: Sequence<NodeId>)
        requires { (kept_row [] self.old).is_accepted ≡ true }
        ensures { (uri : List ℕ)
            → kept_row uri self.new ≡ with_ids ids (kept_row uri self.old) }
    {
        if let KeptSource::Accepted(accepted) = self {
            accepted.set_ids(ids);
        }
    }

    /// The next pickle of the source came.
    pub(crate) fn count_pickle(&mut self)
        ensures { (uri : List ℕ) → kept_row uri self.new ≡ one_more (kept_row uri self.old) }
    {
        if let KeptSource::Accepted(accepted) = self {
            accepted.count_pickle();
        }
    }
}

/// Reads the text of a source.
pub(crate) fn kept_source(alloc: Global, text: &str) -> Result<KeptSource, Stop>
    ensures { ReadsAs (reads text.now) result }
{
    match parse(alloc, text) {
        Ok(document) => Ok(KeptSource::Accepted(AcceptedSource::new(alloc, document))),
        Err(fault) => match fault.kind {
            FaultKind::TooLong => Err(Stop::Unsupported(Reason::SourceTooLong)),
            FaultKind::UnsupportedLanguage => Err(Stop::Unsupported(Reason::Language)),
            FaultKind::Memory => Err(Stop::Memory),
            _ => Ok(KeptSource::Refused),
        },
    }
}

/// The stream's document of an accepted source came, with these ids.
pub(crate) fn set_ids(sources: &mut Sources, uri: &str, ids: Sequence<NodeId>)
    requires { IsAcceptedAt uri.now (kept_rows sources.old.entries) }
    ensures { kept_rows sources.new.entries ≡ change_source uri.now (with_ids ids)
        (kept_rows sources.old.entries) }
{
    if let Some(at) = sources.get_index_of(uri) {
        let kept = &mut sources[at];
        kept.set_ids(ids);
    }
}

/// The next pickle of a source came.
pub(crate) fn count_pickle(sources: &mut Sources, uri: &str)
    ensures { kept_rows sources.new.entries ≡ change_source uri.now one_more
        (kept_rows sources.old.entries) }
{
    if let Some(at) = sources.get_index_of(uri) {
        let kept = &mut sources[at];
        kept.count_pickle();
    }
}

/// Whether one of the sources lacks its document or one of its pickles.
pub(crate) fn lack_some(sources: &Sources) -> bool
    ensures { result ≡ list_any (λ k. lacks_by (kept_row [] k)) (values sources.now) }
{
    sources.values().any(|kept| kept.lacks_some())
}

/// Whether no source is refused.
pub(crate) fn are_accepted(sources: &Sources) -> bool
    ensures { result ≡ list_all (λ k. (kept_row [] k).is_accepted) (values sources.now) }
{
    sources
        .values()
        .all(|kept| matches!(kept, KeptSource::Accepted(_)))
}

/// What is kept of a source.
pub(crate) fn find_source<'a>(sources: &'a Sources, uri: &str) -> Option<&'a KeptSource>
    ensures { option_map (λ k. kept_row uri.now k.now) result
        ≡ find (λ r. bytes_eq uri.now r.uri) (kept_rows sources.now.entries) }
{
    sources.get(uri)
}
