//! Where cases and pickles stand, and the lines that say it.
ghost use Rattle.std.specs.Prelude.{◌≡◌, ◌++◌, ◌∷◌, List, [], IfOk, OnOk, find, option_map, string_bytes, map, None, Some};
ghost use Rattle.std.specs.Prelude.{◌+◌, Ok, ℕ, if◌then◌else◌};
ghost use Rattle.std.specs.Option.{option_map_or};
ghost use Rattle.std.specs.Str.{bytes_eq};
ghost use Rattle.cm_envelope.specs.declared.envelope.Envelope.{Envelope as SomeEnvelope};
ghost use Rattle.cm_cases.specs.Firsts.{HasFirsts, entry_of, entry_scenario, entry_text, is_named, line_at_in, line_in};
ghost use Rattle.cm_cases.specs.Firsts.{scenario_in, or_else, value_at};
ghost use Rattle.cm_cases.specs.Listed.{listing_of};
ghost use Rattle.cm_cases.specs.declared.listing.DocumentEntry.{DocumentEntry as SomeDocument};
ghost use Rattle.cm_cases.specs.Places.{case_place, case_scenario, pickle_scenario, scenario_at, unrun_lines};

use crate::listing::{CaseEntry, DocumentEntry, Listing, PickleEntry, Place};
use crate::shown::add_shown;
use gk_document::Text;
use indexmap::IndexMap;
use std::alloc::{AllocError, Global};
use std::hash::RandomState;
use std::marker::Model;

/// The places of a document by their ids.
#[derive(Drop)]
pub(crate) struct Lines<'a> {
    places: &'a [Place],
    by_id: ByText<'a, &'a Place>,
}

impl<'a> Model for Lines<'a> {
    ghost use Rattle.std.specs.Prelude.{List};
    ghost use Rattle.cm_cases.specs.Firsts.{HasFirsts};
    ghost use Rattle.cm_cases.specs.declared.listing.Place.{Place as SomePlace};

    ghost Value = { List SomePlace };

    ghost view = { λ l. l.places.now };

    ghost invariant = { λ l. HasFirsts (λ x. x.now) (λ x. x) (λ x. x.id) l.places.now l.by_id };
}

impl<'a> Lines<'a> {
    /// The places by the ids of their nodes.
    fn of(alloc: Global, seed: RandomState, places: &'a [Place]) -> Result<Lines<'a>, AllocError>
        ensures { IfOk result (λ lines. lines ≡ places.now) }
    {
        let by_id = firsts_of::<PlaceId, Place>(alloc, seed, places)?;
        Ok(Lines { places, by_id })
    }

    /// The line of the node, and 0 where it is none of the places.
    fn line(&self, node: &str) -> u32
        ensures { result ≡ option_map_or (λ x. x.line)
            (find (λ x. bytes_eq node.now x.id) self.now) 0 }
    {
        match self.by_id.get(node) {
            Some(place) => place.line,
            None => 0,
        }
    }
}

/// Adds the places of a document, if its uri has none yet.
fn add_document_places<'a>(
    alloc: Global,
    seed: RandomState,
    map: &mut ByText<'a, Lines<'a>>,
    entry: &'a DocumentEntry,
) -> Result<(), AllocError>
    ensures { OnOk result ((before : List SomeDocument)
        → HasFirsts (λ l. l) (λ d. d.places) (λ d. d.uri) before map.old
        → HasFirsts (λ l. l) (λ d. d.places) (λ d. d.uri) (before ++ entry.now ∷ []) map.new) }
{
    let lines = Lines::of(alloc, seed, entry.places.as_slice())?;
    add_first(map, entry.uri.as_str(), lines)
}

/// The documents by their uris.
fn places_by_uri<'a>(
    alloc: Global,
    seed: RandomState,
    entries: &'a [DocumentEntry],
) -> Result<ByText<'a, Lines<'a>>, AllocError>
    ensures { IfOk result (λ m. HasFirsts (λ l. l) (λ d. d.places) (λ d. d.uri) entries.now m) }
{
    let mut map = IndexMap::with_hasher(alloc, seed);
    for entry in entries {
        add_document_places(alloc, seed, &mut map, entry)?;
    }
    Ok(map)
}

/// What a listing keeps, by its ids and uris.
#[derive(Drop)]
pub struct Places<'a> {
    listing: &'a Listing,
    cases: ByText<'a, &'a CaseEntry>,
    named: ByText<'a, &'a CaseEntry>,
    pickles: ByText<'a, &'a PickleEntry>,
    documents: ByText<'a, Lines<'a>>,
}

impl<'a> Model for Places<'a> {
    ghost use Rattle.cm_cases.specs.Firsts.{HasFirsts};
    ghost use Rattle.cm_cases.specs.declared.listing.Listing.{Listing as SomeListing};

    ghost Value = { SomeListing };

    ghost view = { λ p. p.listing.now };

    ghost invariant = { λ p.
        HasFirsts (λ x. x.now) (λ x. x) (λ c. c.id) p.listing.now.cases p.cases
        × HasFirsts (λ x. x.now) (λ x. x) (λ c. c.pickle_id) p.listing.now.cases p.named
        × HasFirsts (λ x. x.now) (λ x. x) (λ q. q.id) p.listing.now.pickles p.pickles
        × HasFirsts (λ l. l) (λ d. d.places) (λ d. d.uri) p.listing.now.documents p.documents };
}

impl<'a> Places<'a> {
    /// Of a listing.
    ///
    /// # Errors
    /// Only where there is no memory.
    pub fn of(
        alloc: Global,
        seed: RandomState,
        listing: &'a Listing,
    ) -> Result<Places<'a>, AllocError>
        ensures { IfOk result (λ places. places ≡ listing.now) }
    {
        let cases = firsts_of::<CaseId, CaseEntry>(alloc, seed, listing.cases.as_slice());
        let named = firsts_of::<CasePickle, CaseEntry>(alloc, seed, listing.cases.as_slice());
        let pickles = firsts_of::<PickleId, PickleEntry>(alloc, seed, listing.pickles.as_slice());
        let documents = places_by_uri(alloc, seed, listing.documents.as_slice());
        let ((cases, named), (pickles, documents)) = both(
            both(cases, named),
            both(pickles, documents),
        )?;
        Ok(Places {
            listing,
            cases,
            named,
            pickles,
            documents,
        })
    }

    /// The line of the scenario or row of this id in the document of the uri, and 0 where it has none.
    fn line_at(&self, uri: &str, node: &str) -> u32
        ensures { result ≡ line_at_in self.now uri.now node.now }
    {
        match self.documents.get(uri) {
            Some(lines) => lines.line(node),
            None => 0,
        }
    }

    /// The line of the pickle's scenario or row, and 0 where no document has it.
    pub(crate) fn line(&self, pickle: &PickleEntry) -> u32
        ensures { result ≡ line_in self.now pickle.now }
    {
        self.line_at(pickle.uri.as_str(), pickle.node.as_str())
    }

    /// The pickle of a case.
    pub(crate) fn pickle(&self, case: &str) -> Option<&PickleEntry>
        ensures { option_map (λ p. p.now) result ≡ entry_of self.now case.now }
    {
        let case = self.cases.get(case)?;
        let pickle = self.pickles.get(case.pickle_id.as_str())?;
        Some(*pickle)
    }

    /// Whether a case names the pickle.
    pub(crate) fn is_named(&self, pickle: &PickleEntry) -> bool
        ensures { result ≡ is_named self.now pickle.now }
    {
        self.named.contains_key(pickle.id.as_str())
    }

    /// Adds the uri, the line of the node and the name, each after a space.
    fn add_at(&self, text: &mut String, uri: &str, name: &str, node: &str) -> Result<(), AllocError>
        ensures { OnOk result (string_bytes text.new
            ≡ string_bytes text.old ++ scenario_in self.now uri.now name.now node.now) }
    {
        text.push_str(" ")?;
        add_shown(text, uri)?;
        text.push_str(":")?;
        write!(text, "{}", self.line_at(uri, node))?;
        text.push_str(" ")?;
        add_shown(text, name)
    }

    /// Adds where a pickle's scenario stands, and its name.
    fn add_scenario(&self, text: &mut String, pickle: &PickleEntry) -> Result<(), AllocError>
        ensures { OnOk result (string_bytes text.new
            ≡ string_bytes text.old ++ entry_scenario self.now pickle.now) }
    {
        self.add_at(
            text,
            pickle.uri.as_str(),
            pickle.name.as_str(),
            pickle.node.as_str(),
        )
    }

    /// Adds where a pickle's scenario stands, its name and a line feed.
    fn add_entry(&self, text: &mut String, pickle: &PickleEntry) -> Result<(), AllocError>
        ensures { OnOk result (string_bytes text.new
            ≡ string_bytes text.old ++ entry_text self.now pickle.now) }
    {
        self.add_scenario(text, pickle)?;
        text.push_str("\n")
    }

    /// Adds where a scenario or a row of examples stands, by the uri and the id of its node, and the name that is given.
    ///
    /// # Errors
    /// Only where there is no memory.
    pub fn add_place(
        &self,
        text: &mut String,
        uri: &str,
        name: &str,
        node: &str,
    ) -> Result<(), AllocError>
        ensures { OnOk result ((es : List SomeEnvelope) → self.now ≡ listing_of es
            → string_bytes text.new
            ≡ string_bytes text.old ++ scenario_at es uri.now name.now node.now) }
    {
        self.add_at(text, uri, name, node)
    }

    /// Adds where the scenario of a pickle stands, and its name.
    ///
    /// # Errors
    /// Only where there is no memory.
    pub fn add_pickle_scenario(&self, text: &mut String, id: &str) -> Result<(), AllocError>
        ensures { OnOk result ((es : List SomeEnvelope) → self.now ≡ listing_of es
            → string_bytes text.new ≡ string_bytes text.old ++ pickle_scenario es id.now) }
    {
        match self.pickles.get(id) {
            Some(pickle) => self.add_scenario(text, pickle),
            None => Ok(()),
        }
    }

    /// Adds where the scenario of a case stands, and its name.
    ///
    /// # Errors
    /// Only where there is no memory.
    pub fn add_case_scenario(&self, text: &mut String, case: &str) -> Result<(), AllocError>
        ensures { OnOk result ((es : List SomeEnvelope) → self.now ≡ listing_of es
            → string_bytes text.new ≡ string_bytes text.old ++ case_scenario es case.now) }
    {
        match self.pickle(case) {
            Some(pickle) => self.add_scenario(text, pickle),
            None => Ok(()),
        }
    }

    /// Adds where the pickle of a case stands, to the end of its line.
    ///
    /// # Errors
    /// Only where there is no memory.
    pub fn add_case(&self, text: &mut String, case: &str) -> Result<(), AllocError>
        ensures { OnOk result ((es : List SomeEnvelope) → self.now ≡ listing_of es
            → string_bytes text.new ≡ string_bytes text.old ++ case_place es case.now) }
    {
        match self.pickle(case) {
            Some(pickle) => self.add_entry(text, pickle),
            None => Ok(()),
        }
    }

    /// Adds a line for each pickle that no case names.
    ///
    /// # Errors
    /// Only where there is no memory.
    pub fn add_unrun(&self, text: &mut String) -> Result<(), AllocError>
        ensures { OnOk result ((es : List SomeEnvelope) → self.now ≡ listing_of es
            → string_bytes text.new ≡ string_bytes text.old ++ unrun_lines es) }
    {
        for pickle in self.listing.pickles.as_slice() {
            if !self.is_named(pickle) {
                text.push_str("UNRUN")?;
                self.add_entry(text, pickle)?;
            }
        }
        Ok(())
    }
}

/// A value for each text.
pub type ByText<'a, V> = IndexMap<&'a str, V, RandomState>;

/// A text by which values are found.
pub trait Key<T> {
    ghost text: { T → List ℕ };

    /// The text of the value.
    fn of(item: &T) -> &str
        ensures { result.now ≡ text item.now };
}

/// The id of a case.
pub struct CaseId;

impl Key<CaseEntry> for CaseId {
    ghost text = { λ c. c.id };

    fn of(item: &CaseEntry) -> &str {
        item.id.as_str()
    }
}

/// The pickle that a case names.
pub struct CasePickle;

impl Key<CaseEntry> for CasePickle {
    ghost text = { λ c. c.pickle_id };

    fn of(item: &CaseEntry) -> &str {
        item.pickle_id.as_str()
    }
}

/// The id of a pickle.
pub struct PickleId;

impl Key<PickleEntry> for PickleId {
    ghost text = { λ p. p.id };

    fn of(item: &PickleEntry) -> &str {
        item.id.as_str()
    }
}

/// The id of a scenario or of a row.
pub(crate) struct PlaceId;

impl Key<Place> for PlaceId {
    ghost text = { λ x. x.id };

    fn of(item: &Place) -> &str {
        item.id.as_str()
    }
}

/// A text itself.
pub struct Whole;

impl Key<Text> for Whole {
    ghost text = { λ t. t };

    fn of(item: &Text) -> &str {
        item.as_str()
    }
}

impl<'a> Key<&'a str> for Whole {
    ghost text = { λ t. t.now };

    fn of<'b>(item: &'b &'a str) -> &'b str {
        item
    }
}

/// Adds a value for a text that has none yet.
///
/// # Errors
/// Only where there is no memory for it.
pub fn add_first<'a, V: Drop>(
    map: &mut ByText<'a, V>,
    text: &'a str,
    value: V,
) -> Result<(), AllocError>
    ensures { OnOk result ((other : List ℕ) → value_at map.new other
        ≡ or_else (value_at map.old other) (if bytes_eq other text.now then Some value else None)) }
{
    if map.contains_key(text) {
        drop(value);
        return Ok(());
    }
    map.insert(text, value)?;
    Ok(())
}

/// The first of the items with each text.
///
/// # Errors
/// Only where there is no memory for the map.
pub fn firsts_of<'a, K: Key<T>, T>(
    alloc: Global,
    seed: RandomState,
    items: &'a [T],
) -> Result<ByText<'a, &'a T>, AllocError>
    ensures { IfOk result (λ m. HasFirsts (λ x. x.now) (λ x. x) K.text items.now m) }
{
    let mut map = IndexMap::with_hasher(alloc, seed);
    for item in items {
        add_first(&mut map, K::of(item), item)?;
    }
    Ok(map)
}

/// Both values, where there was memory for each.
///
/// # Errors
/// Only where there was no memory for one of them.
pub(crate) fn both<A: Drop, B: Drop>(
    first: Result<A, AllocError>,
    second: Result<B, AllocError>,
) -> Result<(A, B), AllocError>
    ensures { IfOk result (λ pair. (first ≡ Ok pair.0) × (second ≡ Ok pair.1)) }
{
    match (first, second) {
        (Ok(first), Ok(second)) => Ok((first, second)),
        _ => Err(AllocError),
    }
}
