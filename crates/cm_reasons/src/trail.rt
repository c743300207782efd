//! What is kept of a stream for the lines that say why it is not released.
ghost use Rattle.std.specs.Prelude.{◌≡◌, ◌++◌, ◌∷◌, [], IfOk, List, OnOk, map};
ghost use Rattle.cm_cases.specs.Listed.{both_texts, id_and_uri, listing_of};
ghost use Rattle.cm_stream.specs.References.{cases, pickles, sources};
ghost use Rattle.cm_envelope.specs.declared.envelope.Envelope.{Envelope as SomeEnvelope};
ghost use Rattle.cm_reasons.specs.Run.{uri_and_text};
ghost use Rattle.cm_reasons.specs.Trail.{ends_with_exception, has_exception, trail_of};

use crate::run_listing::RunListing;
use cm_cases::{Listing, Places};
use cm_envelope::Envelope;
use cm_steps::StepListing;
use std::alloc::{AllocError, Global};
use std::hash::RandomState;

/// What the reasons of a stream name, kept envelope by envelope.
#[derive(Drop)]
pub struct Trail {
    pub(crate) listing: Listing,
    pub(crate) steps: StepListing,
    pub(crate) run: RunListing,
    pub(crate) has_exception: bool,
}

/// Whether the run ends with an exception.
fn ends_with_exception(envelope: &Envelope) -> bool
    ensures { result ≡ ends_with_exception envelope.now }
{
    match envelope {
        Envelope::TestRunFinished(end) => end.has_exception,
        _ => false,
    }
}

/// Whether a run that ended with an exception, or not, does so with one envelope more.
fn noted_exception(before: bool, envelope: &Envelope) -> bool
    ensures { (es : List SomeEnvelope) → before ≡ has_exception es
        → result ≡ has_exception (es ++ envelope.now ∷ []) }
{
    if before {
        return true;
    }
    ends_with_exception(envelope)
}

impl Trail {
    /// That of no envelope. It takes no memory.
    pub fn new(alloc: Global) -> Trail
        ensures { result ≡ trail_of [] }
    {
        Trail {
            listing: Listing::new(alloc),
            steps: StepListing::new(alloc),
            run: RunListing::new(alloc),
            has_exception: false,
        }
    }

    /// Keeps what the reasons name of one envelope more.
    ///
    /// # Errors
    /// Only where there is no memory for it.
    pub fn note(&mut self, alloc: Global, envelope: &Envelope) -> Result<(), AllocError>
        ensures { OnOk result ((es : List SomeEnvelope) → self.old ≡ trail_of es
            → self.new ≡ trail_of (es ++ envelope.now ∷ [])) }
    {
        self.listing.note(alloc, envelope)?;
        self.steps.note(alloc, envelope)?;
        self.run.note(alloc, envelope)?;
        self.has_exception = noted_exception(self.has_exception, envelope);
        Ok(())
    }

    /// What is kept of the steps and attempts.
    pub fn steps(&self) -> &StepListing
        ensures { result.now ≡ self.now.steps }
    {
        &self.steps
    }

    /// Whether the run ended with an exception.
    pub fn has_exception(&self) -> bool
        ensures { (es : List SomeEnvelope) → self.now ≡ trail_of es → result ≡ has_exception es }
    {
        self.has_exception
    }

    /// The places of its pickles and test cases.
    ///
    /// # Errors
    /// Only where there is no memory for them.
    pub fn places(&self, alloc: Global, seed: RandomState) -> Result<Places<'_>, AllocError>
        ensures { IfOk result (λ places. (es : List SomeEnvelope) → self.now ≡ trail_of es
            → places ≡ listing_of es) }
    {
        Places::of(alloc, seed, &self.listing)
    }

    /// The uri and the text of each source.
    ///
    /// # Errors
    /// Only where there is no memory for the list.
    pub fn source_texts(&self, alloc: Global) -> Result<Vec<(&str, &str)>, AllocError>
        ensures { IfOk result (λ found. (es : List SomeEnvelope) → self.now ≡ trail_of es
            → map both_texts found.items ≡ map uri_and_text (sources es)) }
    {
        self.run.source_texts(alloc)
    }

    /// The id and the uri of each pickle.
    ///
    /// # Errors
    /// Only where there is no memory for the list.
    pub fn pickle_uris(&self, alloc: Global) -> Result<Vec<(&str, &str)>, AllocError>
        ensures { IfOk result (λ found. (es : List SomeEnvelope) → self.now ≡ trail_of es
            → map both_texts found.items ≡ map id_and_uri (pickles es)) }
    {
        self.listing.pickle_uris(alloc)
    }

    /// The id of the pickle that each test case names.
    ///
    /// # Errors
    /// Only where there is no memory for the list.
    pub fn named_pickles(&self, alloc: Global) -> Result<Vec<&str>, AllocError>
        ensures { IfOk result (λ found. (es : List SomeEnvelope) → self.now ≡ trail_of es
            → map (λ id. id.now) found.items ≡ map (λ c. c.pickle_id) (cases es)) }
    {
        self.listing.named_pickles(alloc)
    }
}
