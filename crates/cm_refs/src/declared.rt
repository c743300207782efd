//! The declarations of a stream.
ghost use Rattle.std.specs.Prelude.{◌≡◌, IfSome, OnErr, OnOk, is_some, length, map, option_map, ◌++◌, ◌∷◌, [], IfOk, false, is_none, None};
ghost use Rattle.std.specs.Prelude.{find, slice_get, count_by, not};
ghost use Rattle.std.specs.String.{string_bytes};
ghost use Rattle.cm_refs.specs.Declarations.{find_pickle, find_run_hook, finish_fault, has_text, name_fault, no_declarations, pickle_fault};
ghost use Rattle.cm_refs.specs.Declarations.{steps_of as steps_in, open_count, run_hook_fault, with_definition, with_document};
ghost use Rattle.cm_refs.specs.Declarations.{with_finished_run_hook, with_hook, with_pickle, with_run_hook, with_source, has_repeat};
ghost use Rattle.cm_refs.specs.Declarations.{change_first, finished_run_hook, new_run_hook};
ghost use Rattle.cm_refs.specs.StepIds.{ids_in};
ghost use Rattle.cm_refs.specs.Due.{RefusesExactly, RefusesExactlyUnless, RefusesUnless};
ghost use Rattle.kept_texts.specs.Kept.{bytes_of};
ghost use Rattle.std.specs.Option.{option_map_or};
ghost use Rattle.std.specs.Str.{bytes_eq};
ghost use Rattle.cm_refs.specs.Rows.{pickle_row, pickle_rows, run_hook_row, run_hook_rows};
ghost use Rattle.indexmap.specs.IndexMap.{values};

use crate::fault::RefFault;
use indexmap::{IndexMap, IndexSet};
use kept_texts::KeptText;
use std::alloc::{AllocError, Global};
use std::hash::RandomState;
use std::marker::Model;
use text_rows::Texts;

/// What a stream has declared so far, in the order of declaration: one list of each kind.
///
/// Sources and documents go by their uri, all other declarations by their id. Ids of one kind are
/// distinct, and so are uris of one kind; one text may be declared for several kinds.
#[derive(Drop)]
pub struct Declared {
    sources: Names,
    documents: Names,
    pickles: Pickles,
    definitions: Names,
    hooks: Names,
    run_hooks: RunHooks,
    alloc: Global,
    seed: RandomState,
}

impl Model for Declared {
    ghost use Rattle.std.specs.Prelude.{map};
    ghost use Rattle.kept_texts.specs.Kept.{bytes_of};
    ghost use Rattle.cm_refs.specs.Declarations.{Declarations};
    ghost use Rattle.cm_refs.specs.Rows.{pickle_rows, run_hook_rows};

    ghost Value = { Declarations };

    ghost view = { λ d. record {
      sources = map bytes_of d.sources.keys;
      documents = map bytes_of d.documents.keys;
      pickles = pickle_rows d.pickles.entries;
      definitions = map bytes_of d.definitions.keys;
      hooks = map bytes_of d.hooks.keys;
      run_hooks = run_hook_rows d.run_hooks.entries;
    } };
}

impl Declared {
    /// Nothing declared yet. It takes no memory.
    pub fn new(alloc: Global, seed: RandomState) -> Declared
        ensures { result ≡ no_declarations }
    {
        Declared {
            sources: IndexSet::with_hasher(alloc, seed),
            documents: IndexSet::with_hasher(alloc, seed),
            pickles: IndexMap::with_hasher(alloc, seed),
            definitions: IndexSet::with_hasher(alloc, seed),
            hooks: IndexSet::with_hasher(alloc, seed),
            run_hooks: IndexMap::with_hasher(alloc, seed),
            alloc,
            seed,
        }
    }

    /// Declares the source of a uri.
    ///
    /// # Errors
    /// `DuplicateUri` where the uri has a source, `Memory` where a growth is refused.
    pub fn declare_source(&mut self, uri: &str) -> Result<(), RefFault>
        ensures answer { RefusesExactlyUnless
            (name_fault RefFault.DuplicateUri uri.now self.old.sources) result RefFault.Memory }
        ensures ok { OnOk result (self.new ≡ with_source uri.now self.old) }
        ensures err { OnErr result (self.new ≡ self.old) }
    {
        declare(&mut self.sources, self.alloc, uri, RefFault::DuplicateUri)
    }

    /// Declares the document of a uri.
    ///
    /// # Errors
    /// `DuplicateUri` where the uri has a document, `Memory` where a growth is refused.
    pub fn declare_document(&mut self, uri: &str) -> Result<(), RefFault>
        ensures answer { RefusesExactlyUnless
            (name_fault RefFault.DuplicateUri uri.now self.old.documents) result RefFault.Memory }
        ensures ok { OnOk result (self.new ≡ with_document uri.now self.old) }
        ensures err { OnErr result (self.new ≡ self.old) }
    {
        declare(&mut self.documents, self.alloc, uri, RefFault::DuplicateUri)
    }

    /// Declares a pickle with the ids of its steps.
    ///
    /// # Errors
    /// `DuplicateId` where the id is that of a pickle or two of the step ids are equal, `Memory`
    /// where a growth is refused.
    pub fn declare_pickle(&mut self, id: String, steps: Vec<String>) -> Result<(), RefFault>
        // Equal steps are found with memory, so want of it may be reported in their place.
        ensures repeated_id { IfSome (find_pickle self.old (string_bytes id))
            (λ _. result ≡ Err RefFault.DuplicateId) }
        ensures answer { RefusesUnless
            (pickle_fault self.old (string_bytes id) (map string_bytes steps.items))
            result RefFault.Memory }
        ensures ok { OnOk result
            (self.new ≡ with_pickle (string_bytes id) (map string_bytes steps.items) self.old) }
        ensures err { OnErr result (self.new ≡ self.old) }
    {
        if steps_of(&self.pickles, id.as_str()).is_some() {
            return Err(RefFault::DuplicateId);
        }
        let Some(steps) = distinct_texts(self.alloc, self.seed, steps)? else {
            return Err(RefFault::DuplicateId);
        };
        append_pickle(&mut self.pickles, self.alloc, id.as_str(), steps)?;
        Ok(())
    }

    /// Declares a step definition.
    ///
    /// # Errors
    /// `DuplicateId` where the id is that of a step definition, `Memory` where a growth is refused.
    pub fn declare_definition(&mut self, id: &str) -> Result<(), RefFault>
        ensures answer { RefusesExactlyUnless
            (name_fault RefFault.DuplicateId id.now self.old.definitions) result RefFault.Memory }
        ensures ok { OnOk result (self.new ≡ with_definition id.now self.old) }
        ensures err { OnErr result (self.new ≡ self.old) }
    {
        declare(&mut self.definitions, self.alloc, id, RefFault::DuplicateId)
    }

    /// Declares a hook.
    ///
    /// # Errors
    /// `DuplicateId` where the id is that of a hook, `Memory` where a growth is refused.
    pub fn declare_hook(&mut self, id: &str) -> Result<(), RefFault>
        ensures answer { RefusesExactlyUnless
            (name_fault RefFault.DuplicateId id.now self.old.hooks) result RefFault.Memory }
        ensures ok { OnOk result (self.new ≡ with_hook id.now self.old) }
        ensures err { OnErr result (self.new ≡ self.old) }
    {
        declare(&mut self.hooks, self.alloc, id, RefFault::DuplicateId)
    }

    /// Declares a run hook that starts.
    ///
    /// # Errors
    /// `DuplicateId` where the id is that of a run hook, `Memory` where a growth is refused.
    pub fn start_run_hook(&mut self, id: &str) -> Result<(), RefFault>
        ensures answer { RefusesExactlyUnless
            (run_hook_fault self.old id.now) result RefFault.Memory }
        ensures ok { OnOk result (self.new ≡ with_run_hook id.now self.old) }
        ensures err { OnErr result (self.new ≡ self.old) }
    {
        if finish_of(&self.run_hooks, id).is_some() {
            return Err(RefFault::DuplicateId);
        }
        append_run_hook(&mut self.run_hooks, self.alloc, id)?;
        Ok(())
    }

    /// Marks a run hook as finished. It takes no memory.
    ///
    /// # Errors
    /// `UnknownRunHook` where no run hook of the id was started, `RunHookTwice` where it is finished already.
    pub fn finish_run_hook(&mut self, id: &str) -> Result<(), RefFault>
        ensures answer { RefusesExactly (finish_fault self.old id.now) result }
        ensures ok { OnOk result (self.new ≡ with_finished_run_hook id.now self.old) }
        ensures err { OnErr result (self.new ≡ self.old) }
    {
        let Some(is_finished) = finish_of(&self.run_hooks, id) else {
            return Err(RefFault::UnknownRunHook);
        };
        if *is_finished {
            return Err(RefFault::RunHookTwice);
        }
        set_finished(&mut self.run_hooks, id);
        Ok(())
    }

    /// Whether the source of the uri is declared.
    pub fn has_source(&self, uri: &str) -> bool
        ensures { result ≡ has_text uri.now self.now.sources }
    {
        contains(&self.sources, uri)
    }

    /// Whether the document of the uri is declared.
    pub fn has_document(&self, uri: &str) -> bool
        ensures { result ≡ has_text uri.now self.now.documents }
    {
        contains(&self.documents, uri)
    }

    /// Whether the step definition is declared.
    pub fn has_definition(&self, id: &str) -> bool
        ensures { result ≡ has_text id.now self.now.definitions }
    {
        contains(&self.definitions, id)
    }

    /// Whether the hook is declared.
    pub fn has_hook(&self, id: &str) -> bool
        ensures { result ≡ has_text id.now self.now.hooks }
    {
        contains(&self.hooks, id)
    }

    /// Whether the run hook was started, finished or not.
    pub fn has_run_hook(&self, id: &str) -> bool
        ensures { result ≡ is_some (find_run_hook self.now id.now) }
    {
        finish_of(&self.run_hooks, id).is_some()
    }

    /// How many run hooks were started and aren't finished.
    pub fn open_run_hooks(&self) -> u64
        ensures { result ≡ open_count self.now }
    {
        count_open(&self.run_hooks)
    }

    /// How many pickles are declared.
    pub fn pickle_count(&self) -> u64
        ensures { result ≡ length self.now.pickles }
    {
        self.pickles.len() as u64
    }

    /// The step ids of a declared pickle, in their order.
    pub fn pickle(&self, id: &str) -> Option<&StepIds>
        ensures { option_map (λ steps. ids_in steps.now) result
            ≡ option_map (λ p. p.steps) (find_pickle self.now id.now) }
    {
        steps_of(&self.pickles, id)
    }

    /// Whether the pickle is declared and has the step.
    pub fn has_step(&self, pickle: &str, step: &str) -> bool
        ensures { result ≡ has_text step.now (steps_in self.now pickle.now) }
    {
        has_step(&self.pickles, pickle, step)
    }
}

pub type Names = IndexSet<KeptText, RandomState>;

/// Whether the name is one of them.
fn contains(names: &Names, name: &str) -> bool
    ensures { result ≡ has_text name.now (map bytes_of names.now.keys) }
{
    names.contains(name)
}

/// Appends a name that is new.
fn append_name(names: &mut Names, alloc: Global, name: &str) -> Result<(), AllocError>
    requires { has_text name.now (map bytes_of names.old.keys) ≡ false }
    ensures ok { OnOk result (map bytes_of names.new.keys
        ≡ map bytes_of names.old.keys ++ name.now ∷ []) }
    ensures err { OnErr result
        (map bytes_of names.new.keys ≡ map bytes_of names.old.keys) }
{
    let owned = KeptText::copy_of(alloc, name)?;
    names.insert(owned)?;
    Ok(())
}

/// Appends a name, or refuses one that is there by the fault `taken`.
fn declare(names: &mut Names, alloc: Global, name: &str, taken: RefFault) -> Result<(), RefFault>
    ensures answer { RefusesExactlyUnless
        (name_fault taken name.now (map bytes_of names.old.keys)) result RefFault.Memory }
    ensures ok { OnOk result (map bytes_of names.new.keys
        ≡ map bytes_of names.old.keys ++ name.now ∷ []) }
    ensures err { OnErr result
        (map bytes_of names.new.keys ≡ map bytes_of names.old.keys) }
{
    if contains(names, name) {
        return Err(taken);
    }
    append_name(names, alloc, name)?;
    Ok(())
}

/// How many texts are looked through one after another in place of a set of them.
const MOST_FEW: usize = 16;

/// Few texts in one buffer, and none where two of them are equal.
fn distinct_few(alloc: Global, texts: Vec<String>) -> Result<Option<Texts>, AllocError>
    ensures repeated { IfOk result
        (λ few. is_none few ≡ has_repeat (map string_bytes texts.items)) }
    ensures same { IfOk result (λ few. IfSome few (λ t. t ≡ map string_bytes texts.items)) }
{
    let mut few = Texts::new(alloc);
    for text in texts {
        if few.contains(text.as_str()) {
            return Ok(None);
        }
        few.add(text.as_str())?;
    }
    Ok(Some(few))
}

/// The texts as a set in their order, and none where two of them are equal.
fn distinct_many(
    alloc: Global,
    seed: RandomState,
    texts: Vec<String>,
) -> Result<Option<Names>, AllocError>
    ensures repeated { IfOk result
        (λ set. is_none set ≡ has_repeat (map string_bytes texts.items)) }
    ensures same { IfOk result (λ set. IfSome set
        (λ s. map bytes_of s.keys ≡ map string_bytes texts.items)) }
{
    let mut set = IndexSet::with_capacity_and_hasher(alloc, texts.len(), seed)?;
    for text in texts {
        if contains(&set, text.as_str()) {
            return Ok(None);
        }
        append_name(&mut set, alloc, text.as_str())?;
    }
    Ok(Some(set))
}

/// The texts in their order, and none where two of them are equal: what Cucumber Messages ask of the step ids of a `pickle`
/// and of a `testCase`.
///
/// # Errors
/// Only where there is no memory for them.
pub fn distinct_texts(
    alloc: Global,
    seed: RandomState,
    texts: Vec<String>,
) -> Result<Option<StepIds>, AllocError>
    ensures repeated { IfOk result
        (λ ids. is_none ids ≡ has_repeat (map string_bytes texts.items)) }
    ensures same { IfOk result (λ ids. IfSome ids
        (λ i. ids_in i ≡ map string_bytes texts.items)) }
{
    if texts.len() <= MOST_FEW {
        return match distinct_few(alloc, texts)? {
            Some(few) => Ok(Some(StepIds::Few(few))),
            None => Ok(None),
        };
    }
    match distinct_many(alloc, seed, texts)? {
        Some(many) => Ok(Some(StepIds::Many(many))),
        None => Ok(None),
    }
}

pub(crate) type Pickles = IndexMap<KeptText, StepIds, RandomState>;

/// The step ids of the pickle.
fn steps_of<'a>(pickles: &'a Pickles, id: &str) -> Option<&'a StepIds>
    ensures { option_map (λ steps. pickle_row id.now steps.now) result
        ≡ find (λ p. bytes_eq id.now p.id) (pickle_rows pickles.now.entries) }
{
    pickles.get(id)
}

/// Whether there is such a pickle and it has the step.
pub(crate) fn has_step(pickles: &Pickles, id: &str, step: &str) -> bool
    ensures { result ≡ has_text step.now
        (option_map_or (λ p. p.steps)
        (find (λ p. bytes_eq id.now p.id) (pickle_rows pickles.now.entries)) []) }
{
    match steps_of(pickles, id) {
        Some(steps) => steps.contains(step),
        None => false,
    }
}

/// Appends a pickle whose id is new.
fn append_pickle(
    pickles: &mut Pickles,
    alloc: Global,
    id: &str,
    steps: StepIds,
) -> Result<(), AllocError>
    requires { find (λ p. bytes_eq id.now p.id) (pickle_rows pickles.old.entries) ≡ None }
    ensures ok { OnOk result (pickle_rows pickles.new.entries
        ≡ pickle_rows pickles.old.entries ++ pickle_row id.now steps ∷ []) }
    ensures err { OnErr result
        (pickle_rows pickles.new.entries ≡ pickle_rows pickles.old.entries) }
{
    let id = KeptText::copy_of(alloc, id)?;
    pickles.insert(id, steps)?;
    Ok(())
}

/// Texts that are all different, in order: few of them in one buffer, many as a set.
#[derive(Drop)]
pub enum StepIds {
    Few(Texts),
    Many(Names),
}

impl StepIds {
    /// Whether the text is one of them.
    pub fn contains(&self, id: &str) -> bool
        ensures { result ≡ has_text id.now (ids_in self.now) }
    {
        match self {
            StepIds::Few(texts) => texts.contains(id),
            StepIds::Many(names) => contains(names, id),
        }
    }

    /// The text at a place, from 0.
    pub fn get(&self, place: usize) -> Option<&str>
        ensures { option_map (λ t. t.now) result ≡ slice_get (ids_in self.now) place }
    {
        match self {
            StepIds::Few(texts) => texts.get(place),
            StepIds::Many(names) => match names.as_slice().get(place) {
                Some(name) => Some(name.as_str()),
                None => None,
            },
        }
    }

    /// How many there are.
    pub fn len(&self) -> usize
        ensures { result ≡ length (ids_in self.now) }
    {
        match self {
            StepIds::Few(texts) => texts.len(),
            StepIds::Many(names) => names.len(),
        }
    }
}

pub(crate) type RunHooks = IndexMap<KeptText, bool, RandomState>;

/// Whether the run hook is finished.
fn finish_of<'a>(run_hooks: &'a RunHooks, id: &str) -> Option<&'a bool>
    ensures { option_map (λ is_finished. run_hook_row id.now is_finished.now) result
        ≡ find (λ r. bytes_eq id.now r.id) (run_hook_rows run_hooks.now.entries) }
{
    run_hooks.get(id)
}

/// Appends a run hook whose id is new.
fn append_run_hook(run_hooks: &mut RunHooks, alloc: Global, id: &str) -> Result<(), AllocError>
    requires { find (λ r. bytes_eq id.now r.id) (run_hook_rows run_hooks.old.entries) ≡ None }
    ensures ok { OnOk result (run_hook_rows run_hooks.new.entries
        ≡ run_hook_rows run_hooks.old.entries ++ new_run_hook id.now ∷ []) }
    ensures err { OnErr result
        (run_hook_rows run_hooks.new.entries ≡ run_hook_rows run_hooks.old.entries) }
{
    let id = KeptText::copy_of(alloc, id)?;
    run_hooks.insert(id, false)?;
    Ok(())
}

/// Marks a run hook as finished.
fn set_finished(run_hooks: &mut RunHooks, id: &str)
    ensures { run_hook_rows run_hooks.new.entries
        ≡ change_first (λ r. bytes_eq id.now r.id) finished_run_hook
        (run_hook_rows run_hooks.old.entries) }
{
    if let Some(at) = run_hooks.get_index_of(id) {
        let is_finished = &mut run_hooks[at];
        *is_finished = true;
    }
}

/// How many run hooks are started and not finished.
fn count_open(run_hooks: &RunHooks) -> u64
    ensures { result ≡ count_by (λ is_finished. not is_finished) (values run_hooks.now) }
{
    run_hooks
        .values()
        .filter(|is_finished| !**is_finished)
        .count() as u64
}
