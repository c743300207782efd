//! What is kept of a stream for the places of its scenarios: its documents, pickles and test cases.
ghost use Rattle.std.specs.Prelude.{◌≡◌, ◌++◌, ◌∷◌, List, [], IfOk, OnOk, map, OnErr, ◌+◌};
ghost use Rattle.cm_envelope.specs.declared.envelope.Envelope.{Envelope as SomeEnvelope};
ghost use Rattle.cm_cases.specs.Listed.{listing_of, both_texts, case_entry, document_entry, id_and_uri, pickle_entry};
ghost use Rattle.cm_cases.specs.Places.{last_node, example_rows, place, places_of, scenario_places};
ghost use Rattle.cm_stream.specs.References.{cases, pickles};
ghost use Rattle.std.specs.List.{flat_map};

use cm_envelope::{Envelope, GherkinDocument, NodeId, Pickle, PickleTag, TestCase, id_of};
use gk_document::{Examples, Location, Row, Rule, Scenario, Sequence, Text};
use std::alloc::{AllocError, Global};

/// A test case, by the pickle that it names.
#[derive(Drop)]
pub(crate) struct CaseEntry {
    pub(crate) id: Text,
    pub(crate) pickle_id: Text,
}

/// A pickle, with the last of the nodes that it is made of, and the names of its tags.
#[derive(Drop)]
pub(crate) struct PickleEntry {
    pub(crate) id: Text,
    pub(crate) uri: Text,
    pub(crate) name: Text,
    pub(crate) node: Text,
    pub(crate) tags: Sequence<Text>,
}

/// A scenario or a row of examples.
#[derive(Drop)]
pub(crate) struct Place {
    pub(crate) id: Text,
    pub(crate) line: u32,
}

/// A document, by its scenarios and rows of examples.
#[derive(Drop)]
pub(crate) struct DocumentEntry {
    pub(crate) uri: Text,
    pub(crate) places: Sequence<Place>,
}

/// What the lines of a stream's cases name, kept envelope by envelope. `starts` are the cases of the attempts.
#[derive(Drop)]
pub struct Listing {
    pub(crate) cases: Sequence<CaseEntry>,
    pub(crate) pickles: Sequence<PickleEntry>,
    pub(crate) documents: Sequence<DocumentEntry>,
    pub(crate) starts: Sequence<Text>,
}

/// What is kept of a test case.
fn case_entry(alloc: Global, case: &TestCase) -> Result<CaseEntry, AllocError>
    ensures { IfOk result (λ entry. entry ≡ case_entry case.now) }
{
    Ok(CaseEntry {
        id: Text::copy_of(alloc, case.id.as_str())?,
        pickle_id: Text::copy_of(alloc, case.pickle_id.as_str())?,
    })
}

/// The last of the texts, and an empty one where there is none.
fn last_text(texts: &[Text]) -> &str
    ensures { (p : Pickle) → texts.now ≡ p.ast_node_ids → result.now ≡ last_node p }
{
    match texts.last() {
        Some(text) => text.as_str(),
        None => "",
    }
}

/// The names of the tags.
pub fn tag_names(alloc: Global, tags: &[PickleTag]) -> Result<Sequence<Text>, AllocError>
    ensures { IfOk result (λ names. names ≡ map (λ t. t.name) tags.now) }
{
    let mut names = Sequence::new(alloc);
    for tag in tags {
        names.push(Text::copy_of(alloc, tag.name.as_str())?)?;
    }
    Ok(names)
}

/// What is kept of a pickle.
fn pickle_entry(alloc: Global, pickle: &Pickle) -> Result<PickleEntry, AllocError>
    ensures { IfOk result (λ entry. entry ≡ pickle_entry pickle.now) }
{
    Ok(PickleEntry {
        id: Text::copy_of(alloc, pickle.id.as_str())?,
        uri: Text::copy_of(alloc, pickle.uri.as_str())?,
        name: Text::copy_of(alloc, pickle.name.as_str())?,
        node: Text::copy_of(alloc, last_text(pickle.ast_node_ids.as_slice()))?,
        tags: tag_names(alloc, pickle.tags.as_slice())?,
    })
}

/// The place of a node, by its id.
fn place_of(alloc: Global, ids: &[NodeId], node: u64, at: Location) -> Result<Place, AllocError>
    ensures { IfOk result (λ p. p ≡ place ids.now node at) }
{
    let id = Text::copy_of(alloc, id_of(ids, node))?;
    Ok(Place { id, line: at.line })
}

/// Adds the places of rows of examples.
fn add_row_places(
    alloc: Global,
    places: &mut Sequence<Place>,
    ids: &[NodeId],
    rows: &[Row],
) -> Result<(), AllocError>
    ensures { OnOk result (places.new
        ≡ places.old ++ map (λ r. place ids.now r.node r.location) rows.now) }
{
    for row in rows {
        places.push(place_of(alloc, ids, row.node, row.location)?)?;
    }
    Ok(())
}

/// Adds the places of the rows of examples blocks.
fn add_example_places(
    alloc: Global,
    places: &mut Sequence<Place>,
    ids: &[NodeId],
    examples: &[Examples],
) -> Result<(), AllocError>
    ensures { OnOk result (places.new ≡ places.old
        ++ map (λ r. place ids.now r.node r.location)
        (flat_map (λ x. example_rows x.table) examples.now)) }
{
    for block in examples {
        if let Some(table) = &block.table {
            add_row_places(alloc, places, ids, table.body.as_slice())?;
        }
    }
    Ok(())
}

/// Adds the places of scenarios, each before those of its rows.
fn add_scenario_places(
    alloc: Global,
    places: &mut Sequence<Place>,
    ids: &[NodeId],
    scenarios: &[Scenario],
) -> Result<(), AllocError>
    ensures { OnOk result (places.new
        ≡ places.old ++ flat_map (scenario_places ids.now) scenarios.now) }
{
    for scenario in scenarios {
        places.push(place_of(alloc, ids, scenario.node, scenario.location)?)?;
        add_example_places(alloc, places, ids, scenario.examples.as_slice())?;
    }
    Ok(())
}

/// Adds the places of the scenarios of rules.
fn add_rule_places(
    alloc: Global,
    places: &mut Sequence<Place>,
    ids: &[NodeId],
    rules: &[Rule],
) -> Result<(), AllocError>
    ensures { OnOk result (places.new ≡ places.old
        ++ flat_map (scenario_places ids.now) (flat_map (λ r. r.scenarios) rules.now)) }
{
    for rule in rules {
        add_scenario_places(alloc, places, ids, rule.scenarios.as_slice())?;
    }
    Ok(())
}

/// The places of a document.
fn places_of(alloc: Global, document: &GherkinDocument) -> Result<Sequence<Place>, AllocError>
    ensures { IfOk result (λ places. places ≡ places_of document.now) }
{
    let mut places = Sequence::new(alloc);
    let Some(feature) = &document.document.feature else {
        return Ok(places);
    };
    let ids = document.ids.as_slice();
    add_scenario_places(alloc, &mut places, ids, feature.scenarios.as_slice())?;
    add_rule_places(alloc, &mut places, ids, feature.rules.as_slice())?;
    Ok(places)
}

/// What is kept of a document.
fn document_entry(alloc: Global, document: &GherkinDocument) -> Result<DocumentEntry, AllocError>
    ensures { IfOk result (λ entry. entry ≡ document_entry document.now) }
{
    Ok(DocumentEntry {
        uri: Text::copy_of(alloc, document.uri.as_str())?,
        places: places_of(alloc, document)?,
    })
}

impl Listing {
    /// That of no envelope. It takes no memory.
    pub fn new(alloc: Global) -> Listing
        ensures { result ≡ listing_of [] }
    {
        Listing {
            cases: Sequence::new(alloc),
            pickles: Sequence::new(alloc),
            documents: Sequence::new(alloc),
            starts: Sequence::new(alloc),
        }
    }

    /// Keeps what the lines name of one envelope more.
    ///
    /// # Errors
    /// Only where there is no memory for it; then the listing is as it was.
    pub fn note(&mut self, alloc: Global, envelope: &Envelope) -> Result<(), AllocError>
        ensures ok { OnOk result ((es : List SomeEnvelope) → self.old ≡ listing_of es
            → self.new ≡ listing_of (es ++ envelope.now ∷ [])) }
        ensures err { OnErr result (self.new ≡ self.old) }
    {
        match envelope {
            Envelope::TestCase(case) => self.cases.push(case_entry(alloc, case)?),
            Envelope::Pickle(pickle) => self.pickles.push(pickle_entry(alloc, pickle)?),
            Envelope::GherkinDocument(document) => {
                self.documents.push(document_entry(alloc, document)?)
            }
            Envelope::TestCaseStarted(start) => self
                .starts
                .push(Text::copy_of(alloc, start.test_case_id.as_str())?),
            _ => Ok(()),
        }
    }

    /// The id and the uri of each of its pickles.
    ///
    /// # Errors
    /// Only where there is no memory for the list.
    pub fn pickle_uris(&self, alloc: Global) -> Result<Vec<(&str, &str)>, AllocError>
        ensures { IfOk result (λ found. (es : List SomeEnvelope) → self.now ≡ listing_of es
            → map both_texts found.items ≡ map id_and_uri (pickles es)) }
    {
        let mut found = Vec::new(alloc);
        for pickle in self.pickles.as_slice() {
            found.push((pickle.id.as_str(), pickle.uri.as_str()))?;
        }
        Ok(found)
    }

    /// The id of the pickle that each of its test cases names.
    ///
    /// # Errors
    /// Only where there is no memory for the list.
    pub fn named_pickles(&self, alloc: Global) -> Result<Vec<&str>, AllocError>
        ensures { IfOk result (λ found. (es : List SomeEnvelope) → self.now ≡ listing_of es
            → map (λ id. id.now) found.items ≡ map (λ c. c.pickle_id) (cases es)) }
    {
        let mut found = Vec::new(alloc);
        for case in self.cases.as_slice() {
            found.push(case.pickle_id.as_str())?;
        }
        Ok(found)
    }
}
