//! The pickles of a source that are due, one by one.
ghost use Rattle.std.specs.Prelude.{◌≡◌, IfOk, drop, length, map, nat_eq, not, ◌&&◌, ℕ, List, Bool, bytes_eq};
ghost use Rattle.gk_pickle.specs.Rest.{IsNext, title_of};
ghost use Rattle.cm_stream.specs.Texts.{same_list, same_option, same_texts};
ghost use Rattle.cm_stream.specs.Sources.{fits_type, has_cells, ids_at, is_argument, is_due, is_due_step, is_due_tag};
ghost use Rattle.cm_judge.specs.Matching.{has_value, is_id};

use cm_envelope::{
    NodeId, Pickle, PickleArgument, PickleCell, PickleDocString, PickleRow, PickleStep, PickleTag,
    StepKind, id_of,
};
use gk_document::{Document, Sequence, Text};
use gk_pickle::{
    Pickle as DuePickle, PickleArgument as DueArgument, PickleDocString as DueDocString,
    PicklePlace, PickleStep as DueStep, PickleTag as DueTag, PickleTitle, StepType, next_pickle,
    next_title, pass_pickle,
};
use std::alloc::{AllocError, Global};
use std::hash::RandomState;
use std::marker::Model;

/// The pickles that a source's text compiles to and that didn't come, in order: each is made when it is asked for.
#[derive(Drop)]
pub struct DuePickles<'a> {
    pub(crate) document: Option<&'a Document>,
    pub(crate) place: PicklePlace,
}

impl<'a> Model for DuePickles<'a> {
    ghost use Rattle.std.specs.Prelude.{List, option_map};
    ghost use Rattle.gk_pickle.specs.declared.pickles.Pickle.{Pickle as DuePickle};
    ghost use Rattle.cm_judge.specs.Due.{left_of};

    ghost Value = { List DuePickle };

    ghost view = { λ d. left_of (option_map (λ document. document.now) d.document) d.place };
}

impl DuePickles<'_> {
    /// The next of them, if there is one; it isn't among them any longer.
    ///
    /// # Errors
    /// Only where there is no memory for the pickle.
    pub fn next(
        &mut self,
        alloc: Global,
        seed: RandomState,
    ) -> Result<Option<DuePickle>, AllocError>
        ensures { IfOk result (IsNext self.old self.new) }
    {
        match self.document {
            Some(document) => next_pickle(alloc, seed, document, &mut self.place),
            None => Ok(None),
        }
    }

    /// What the next of them is called, and its nodes, if there is one; it isn't among them any longer. Its steps and tags aren't
    /// made.
    ///
    /// # Errors
    /// Only where there is no memory for it.
    pub fn next_title(
        &mut self,
        alloc: Global,
        seed: RandomState,
    ) -> Result<Option<PickleTitle>, AllocError>
        ensures { IfOk result (IsNext (map title_of self.old) (map title_of self.new)) }
    {
        match self.document {
            Some(document) => next_title(alloc, seed, document, &mut self.place),
            None => Ok(None),
        }
    }

    /// Passes the next of them, and whether there was one. It takes no memory.
    pub fn pass(&mut self) -> bool
        ensures left { self.new ≡ drop 1 self.old }
        ensures passed { result ≡ not (nat_eq (length self.old) 0) }
    {
        match self.document {
            Some(document) => pass_pickle(document, &mut self.place),
            None => false,
        }
    }

    /// Whether there is one. It takes no memory.
    pub(crate) fn has_some(&self) -> bool
        ensures { result ≡ not (nat_eq (length self.now) 0) }
    {
        let mut rest = DuePickles {
            document: self.document,
            place: self.place,
        };
        rest.pass()
    }
}

/// The language of all pickles.
const ENGLISH: &str = "en";

/// What a part of a stream's pickle is compared with, where the document's nodes have these ids.
trait Fits<Due> {
    // the part is the one that is due
    ghost is_due: { List (List ℕ) → Self → Due → Bool };

    /// Whether the part is the one that is due, its nodes named by these ids.
    fn fits(&self, ids: &[NodeId], due: &Due) -> bool
        ensures { result ≡ is_due ids.now self.now due.now };
}

/// Whether each part is the one that is due, and there are no more of either.
fn all_fit<Part: Fits<Due>, Due>(ids: &[NodeId], parts: &[Part], due: &[Due]) -> bool
    ensures { result ≡ same_list (Part.is_due ids.now) parts.now due.now }
{
    if parts.len() != due.len() {
        return false;
    }
    for (i, part) in parts.iter().enumerate() {
        if !part.fits(ids, &due[i]) {
            return false;
        }
    }
    true
}

impl Fits<u64> for Text {
    ghost is_due = { is_id };

    fn fits(&self, ids: &[NodeId], due: &u64) -> bool {
        self.as_str() == id_of(ids, *due)
    }
}

/// Whether the texts are the ids of the nodes.
#[tactic(auto, using(crate::proofs::SameLists::same_ids))]
fn are_ids(ids: &[NodeId], texts: &[Text], nodes: &[u64]) -> bool
    ensures { result ≡ same_texts texts.now (ids_at ids.now nodes.now) }
{
    all_fit(ids, texts, nodes)
}

impl Fits<Text> for PickleCell {
    ghost is_due = { has_value };

    fn fits(&self, _ids: &[NodeId], due: &Text) -> bool {
        self.value == *due
    }
}

impl Fits<Sequence<Text>> for PickleRow {
    ghost is_due = { λ ids. has_cells };

    fn fits(&self, ids: &[NodeId], due: &Sequence<Text>) -> bool {
        all_fit(ids, self.cells.as_slice(), due.as_slice())
    }
}

/// Whether a doc string has the media type and the content of the one that is due.
fn same_doc_string(text: &PickleDocString, due: &DueDocString) -> bool
    ensures { result ≡ (same_option bytes_eq text.now.media_type due.now.media
        && bytes_eq text.now.content due.now.content) }
{
    text.media_type == due.media && text.content == due.content
}

impl Fits<DueArgument> for PickleArgument {
    ghost is_due = { λ ids. is_argument };

    fn fits(&self, ids: &[NodeId], due: &DueArgument) -> bool {
        match (self, due) {
            (PickleArgument::Table(table), DueArgument::Table(rows)) => {
                all_fit(ids, table.rows.as_slice(), rows.as_slice())
            }
            (PickleArgument::Text(text), DueArgument::Text(due)) => same_doc_string(text, due),
            _ => false,
        }
    }
}

/// Whether a step's type is the one that is due. An absent one isn't compared.
fn same_type(kind: Option<StepKind>, due: StepType) -> bool
    ensures { result ≡ fits_type kind due }
{
    match (kind, due) {
        (None, _)
        | (Some(StepKind::Unknown), StepType::Unknown)
        | (Some(StepKind::Context), StepType::Context)
        | (Some(StepKind::Action), StepType::Action)
        | (Some(StepKind::Outcome), StepType::Outcome) => true,
        _ => false,
    }
}

/// Whether a step has the argument that is due, or none where none is.
fn same_argument(
    ids: &[NodeId],
    argument: &Option<PickleArgument>,
    due: &Option<DueArgument>,
) -> bool
    ensures { result ≡ same_option is_argument argument.now due.now }
{
    match (argument, due) {
        (Some(argument), Some(due)) => argument.fits(ids, due),
        (None, None) => true,
        _ => false,
    }
}

impl Fits<DueStep> for PickleStep {
    ghost is_due = { is_due_step };

    fn fits(&self, ids: &[NodeId], due: &DueStep) -> bool {
        self.text == due.text
            && same_type(self.kind, due.kind)
            && are_ids(ids, self.ast_node_ids.as_slice(), due.nodes.as_slice())
            && same_argument(ids, &self.argument, &due.argument)
    }
}

impl Fits<DueTag> for PickleTag {
    ghost is_due = { is_due_tag };

    fn fits(&self, ids: &[NodeId], due: &DueTag) -> bool {
        self.name == due.name && self.ast_node_id.fits(ids, &due.node)
    }
}

impl Fits<DuePickle> for Pickle {
    ghost is_due = { is_due };

    fn fits(&self, ids: &[NodeId], due: &DuePickle) -> bool {
        self.language.as_str() == ENGLISH
            && self.name == due.name
            && are_ids(ids, self.ast_node_ids.as_slice(), due.nodes.as_slice())
            && all_fit(ids, self.tags.as_slice(), due.tags.as_slice())
            && all_fit(ids, self.steps.as_slice(), due.steps.as_slice())
    }
}

/// Whether the pickle is the one that is due, where the document's nodes have these ids. The pickle's own id and those of
/// its steps are free.
pub(crate) fn is_due_pickle(pickle: &Pickle, ids: &[NodeId], due: &DuePickle) -> bool
    ensures { result ≡ is_due ids.now pickle.now due.now }
{
    pickle.fits(ids, due)
}
