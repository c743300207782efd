//! Which scenarios of some texts ran.
ghost use Rattle.std.specs.Prelude.{◌≡◌, ◌||◌, ◌&&◌, [], ℕ, List, false, OnErr, OnOk, length, map, slice_index_or, IfOk, max, ◌++◌, ◌∷◌};
ghost use Rattle.std.specs.Prelude.{if◌then◌else◌};
ghost use Rattle.std.specs.Str.{bytes_eq};
ghost use Rattle.cm_cases.specs.Listed.{both_texts};
ghost use Rattle.cm_envelope.specs.declared.envelope.Envelope.{Envelope as SomeEnvelope};
ghost use Rattle.cm_reasons.specs.Trail.{trail_of};
ghost use Rattle.cm_ran.specs.Marks.{AlsoRan, CompilesTo, HasSameFlags, HasWholeRows, MarksWhatRan, marked_texts, has_run, with_text};
ghost use Rattle.cm_attempt.specs.Table.{has_text};
ghost use Rattle.cm_ran.specs.Compiled.{HasCompiled};
ghost use Rattle.cm_ran.specs.Rows.{flag_at, is_set_at, row_at, flags_in};

use cm_cases::{ByText, Whole, firsts_of};
use cm_reasons::Trail;
use indexmap::IndexMap;
use std::alloc::{AllocError, Global};
use std::hash::RandomState;

/// Texts, no two the same, and of each by place which of its scenarios ran.
#[derive(Drop)]
pub struct Marks<'a> {
    pub(crate) rows: Rows<'a>,
}

impl<'a> Marks<'a> {
    /// No texts. It takes no memory.
    pub fn new(alloc: Global, seed: RandomState) -> Marks<'a>
        ensures texts { marked_texts result ≡ [] }
        ensures unmarked { (text : List ℕ) (place : ℕ) → has_run result text place ≡ false }
        ensures rows { HasWholeRows result }
    {
        Marks {
            rows: IndexMap::with_hasher(alloc, seed),
        }
    }

    /// Adds a text, of which no scenario ran yet. One that is there stays as it is.
    ///
    /// # Errors
    /// Only where there is no memory for it; then all is as it was.
    pub fn add(&mut self, alloc: Global, text: &'a str) -> Result<(), AllocError>
        ensures ok { OnOk result
            (marked_texts self.new ≡ with_text text.now (marked_texts self.old)) }
        ensures err { OnErr result (marked_texts self.new ≡ marked_texts self.old) }
        ensures flags { HasSameFlags self.old self.new }
        ensures rows { HasWholeRows self.old → HasWholeRows self.new }
    {
        if self.rows.contains_key(text) {
            return Ok(());
        }
        self.rows.insert(text, Vec::new(alloc))?;
        Ok(())
    }

    /// Whether the text is there.
    pub fn has_text(&self, text: &str) -> bool
        ensures { result ≡ has_text text.now (marked_texts self.now) }
    {
        self.rows.contains_key(text)
    }

    /// The flags of a text, by the places of its scenarios: none, or one for each; of a text that isn't there none.
    pub fn row(&self, text: &str) -> &[bool]
        ensures { result.now ≡ row_at self.now.rows text.now }
    {
        match self.rows.get(text) {
            Some(row) => row.as_slice(),
            None => &[],
        }
    }

    /// Whether the scenario at the place of the text ran, from 0; of a text that isn't there none did.
    pub fn has_run(&self, text: &str, place: usize) -> bool
        ensures { result ≡ has_run self.now text.now place }
    {
        match self.rows.get(text) {
            Some(row) => is_set(row.as_slice(), place),
            None => false,
        }
    }

    /// Sets the flags of a text, if it is there, that are set in the row.
    fn mark_text(&mut self, alloc: Global, text: &str, row: &[bool]) -> Result<(), AllocError>
        ensures texts { marked_texts self.new ≡ marked_texts self.old }
        ensures ok { OnOk result (AlsoRan self.old self.new
            (λ other place. bytes_eq other text.now && slice_index_or row.now place false)) }
        ensures rows { OnOk result (CompilesTo text.now (length row.now)
            → HasWholeRows self.old → HasWholeRows self.new) }
    {
        if let Some(marked) = self.rows.get_mut(text) {
            *marked = either(alloc, marked.as_slice(), row)?;
        }
        Ok(())
    }

    /// The same by the row of a uri.
    fn mark_source(
        &mut self,
        alloc: Global,
        uri: &str,
        text: &str,
        rows: &Rows<'_>,
    ) -> Result<(), AllocError>
        ensures texts { marked_texts self.new ≡ marked_texts self.old }
        ensures ok { OnOk result (AlsoRan self.old self.new
            (λ other place. bytes_eq other text.now && flag_at rows.now uri.now place)) }
        ensures rows { OnOk result (CompilesTo text.now (length (row_at rows.now uri.now))
            → HasWholeRows self.old → HasWholeRows self.new) }
    {
        match rows.get(uri) {
            Some(row) => self.mark_text(alloc, text, row.as_slice()),
            None => Ok(()),
        }
    }

    /// The same of each source, which is given by its uri and its text.
    fn mark_sources(
        &mut self,
        alloc: Global,
        sources: &[(&str, &str)],
        rows: &Rows<'_>,
    ) -> Result<(), AllocError>
        ensures texts { marked_texts self.new ≡ marked_texts self.old }
        ensures ok { OnOk result (AlsoRan self.old self.new
            (is_set_at rows.now (map both_texts sources.now))) }
        ensures rows { OnOk result (HasCompiled rows.now (map both_texts sources.now)
            → HasWholeRows self.old → HasWholeRows self.new) }
    {
        for source in sources {
            self.mark_source(alloc, source.0, source.1, rows)?;
        }
        Ok(())
    }

    /// Marks what ran in the stream that the trail is of.
    ///
    /// # Errors
    /// Only where there is no memory for it; then some of it may be marked.
    pub fn mark(
        &mut self,
        alloc: Global,
        seed: RandomState,
        trail: &Trail,
    ) -> Result<(), AllocError>
        ensures texts { marked_texts self.new ≡ marked_texts self.old }
        ensures ok { OnOk result ((es : List SomeEnvelope) → trail.now ≡ trail_of es
            → MarksWhatRan es self.old self.new) }
    {
        let pickles = trail.pickle_uris(alloc)?;
        let named = trail.named_pickles(alloc)?;
        let sources = trail.source_texts(alloc)?;
        let rows = rows_of(alloc, seed, pickles.as_slice(), named.as_slice())?;
        self.mark_sources(alloc, sources.as_slice(), &rows)
    }
}

/// Whether the flag of the place is set; past the row none is.
fn is_set(row: &[bool], place: usize) -> bool
    ensures { result ≡ slice_index_or row.now place false }
{
    match row.get(place) {
        Some(flag) => *flag,
        None => false,
    }
}

/// The flags that are set in one of the rows, or in both, as many as the longer one has.
fn either(alloc: Global, first: &[bool], second: &[bool]) -> Result<Vec<bool>, AllocError>
    ensures flags { IfOk result (λ row. (place : ℕ) → slice_index_or row.items place false
        ≡ (slice_index_or first.now place false || slice_index_or second.now place false)) }
    ensures long { IfOk result (λ row. length row.items
        ≡ max (length first.now) (length second.now)) }
{
    let mut row = Vec::new(alloc);
    for place in 0..first.len().max(second.len()) {
        let flag = is_set(first, place) || is_set(second, place);
        row.push(flag)?;
    }
    Ok(row)
}

/// Of each text a row of flags.
pub(crate) type Rows<'a> = ByText<'a, Vec<bool>>;

/// Adds a flag after the others of the text.
fn add_flag<'a>(
    alloc: Global,
    rows: &mut Rows<'a>,
    text: &'a str,
    flag: bool,
) -> Result<(), AllocError>
    ensures { OnOk result ((other : List ℕ) → row_at rows.new other
        ≡ row_at rows.old other ++ (if bytes_eq other text.now then flag ∷ [] else [])) }
{
    let mut row = rows.swap_remove(text).unwrap_or(Vec::new(alloc));
    row.push(flag)?;
    rows.insert(text, row)?;
    Ok(())
}

/// Of each uri, for each of its pickles in order whether its id is among those that are named. The pickles are given by their
/// ids and uris.
fn rows_of<'a>(
    alloc: Global,
    seed: RandomState,
    pickles: &[(&'a str, &'a str)],
    named: &[&'a str],
) -> Result<Rows<'a>, AllocError>
    ensures { IfOk result (λ rows. (uri : List ℕ) → row_at rows uri
        ≡ flags_in (map (λ id. id.now) named.now) (map both_texts pickles.now) uri) }
{
    let among = firsts_of::<Whole, &str>(alloc, seed, named)?;
    let mut rows = IndexMap::with_hasher(alloc, seed);
    for pickle in pickles {
        let flag = among.contains_key(pickle.0);
        add_flag(alloc, &mut rows, pickle.1, flag)?;
    }
    Ok(rows)
}
