//! The lines of cases and pickles as JSON.
ghost use Rattle.std.specs.Prelude.{◌≡◌, ◌++◌, ℕ, List, IfOk, OnOk, codes, string_bytes, ◌+◌, ◌<◌};
ghost use Rattle.std.specs.Prelude.{if◌then◌else◌, ◌^◌};
ghost use Rattle.serde_json.specs.Data.{number, string, unsigned};
ghost use Rattle.serde_json.specs.Written.{compact_text};
ghost use Rattle.cm_envelope.specs.declared.envelope.Envelope.{Envelope};
ghost use Rattle.cm_messages.specs.Sending.{SendsMember};
ghost use Rattle.cm_cases.specs.Firsts.{count_at, entry_values, times_in, values_in};
ghost use Rattle.cm_cases.specs.JsonLines.{case_data, case_json, json_line, unrun_json};
ghost use Rattle.cm_cases.specs.Listed.{listing_of};
ghost use Rattle.std.specs.Str.{bytes_eq};

use crate::listing::{Listing, PickleEntry};
use crate::places::{ByText, Places, both};
use crate::shown::add_shown_json;
use cm_messages::{SendJson, json_text, send_list_member, send_number, send_str, send_text};
use gk_document::Text;
use indexmap::IndexMap;
use serde::Serializer;
use std::alloc::{AllocError, Global};
use std::hash::RandomState;
use std::marker::Model;

// ---- one line

/// The layout of a line.
#[derive(Clone, Copy)]
struct LineLayout;

impl SendJson<LineLayout> for Text {
    ghost json = { string };

    fn send<S: Serializer>(&self, out: &mut S) -> Result<(), S::Error> {
        out.str(self.as_str())
    }
}

/// What a line says.
#[derive(Clone, Copy)]
struct CaseJson<'a> {
    attempts: u64,
    line: u32,
    status: &'a str,
    pickle: &'a PickleEntry,
}

/// Sends the member `attempts`.
fn send_attempts<S: Serializer>(attempts: u64, out: &mut S) -> Result<(), S::Error>
    ensures { OnOk result (SendsMember (codes "attempts") (number (unsigned attempts))
        (S.written out.old) (S.written out.new)) }
{
    out.key("attempts")?;
    out.u64(attempts)
}

impl SendJson<LineLayout> for CaseJson<'_> {
    ghost json = { λ c. case_data (values_in c) };

    fn send<S: Serializer>(&self, out: &mut S) -> Result<(), S::Error> {
        out.begin_map(Some(6))?;
        send_attempts(self.attempts, out)?;
        send_number("line", self.line, out)?;
        send_text("name", &self.pickle.name, out)?;
        send_str("status", self.status, out)?;
        send_list_member::<LineLayout, _, _>("tags", &self.pickle.tags, out)?;
        send_text("uri", &self.pickle.uri, out)?;
        out.end_map()
    }
}

/// What is said, as compact JSON. Its bytes are checked, since no clause says that they are UTF-8.
fn case_json_text(alloc: Global, case: &CaseJson<'_>) -> Result<String, AllocError>
    ensures { IfOk result (λ text. string_bytes text
        ≡ compact_text (case_data (values_in case.now))) }
{
    let bytes = json_text(alloc, case)?;
    match String::from_utf8(bytes) {
        Ok(text) => Ok(text),
        Err(_) => Err(AllocError),
    }
}

/// Adds the line.
fn add_json_line(alloc: Global, text: &mut String, case: &CaseJson<'_>) -> Result<(), AllocError>
    ensures { OnOk result (string_bytes text.new
        ≡ string_bytes text.old ++ json_line (values_in case.now)) }
{
    let json = case_json_text(alloc, case)?;
    add_shown_json(text, json.as_str())?;
    text.push_str("\n")
}

// ---- all lines

/// What a listing keeps, for its lines as JSON.
#[derive(Drop)]
pub struct JsonLines<'a> {
    listing: &'a Listing,
    places: Places<'a>,
    attempts: ByText<'a, u64>,
}

impl<'a> Model for JsonLines<'a> {
    ghost use Rattle.std.specs.Prelude.{◌≡◌, ℕ, List};
    ghost use Rattle.cm_cases.specs.Firsts.{count_at, times_in};
    ghost use Rattle.cm_cases.specs.declared.listing.Listing.{Listing as SomeListing};

    ghost Value = { SomeListing };

    ghost view = { λ l. l.listing.now };

    ghost invariant = { λ l. (l.places ≡ l.listing.now)
        × ((id : List ℕ) → count_at l.attempts id ≡ times_in l.listing.now.starts id) };
}

impl<'a> JsonLines<'a> {
    /// Of a listing.
    ///
    /// # Errors
    /// Only where there is no memory.
    pub fn of(
        alloc: Global,
        seed: RandomState,
        listing: &'a Listing,
    ) -> Result<JsonLines<'a>, AllocError>
        ensures { IfOk result (λ lines. lines ≡ listing.now) }
    {
        let places = Places::of(alloc, seed, listing);
        let attempts = counts_of(alloc, seed, listing.starts.as_slice());
        let (places, attempts) = both(places, attempts)?;
        Ok(JsonLines {
            listing,
            places,
            attempts,
        })
    }

    /// Adds the line of a pickle.
    fn add_entry(
        &self,
        alloc: Global,
        text: &mut String,
        pickle: &PickleEntry,
        status: &str,
        attempts: u64,
    ) -> Result<(), AllocError>
        ensures { OnOk result (string_bytes text.new ≡ string_bytes text.old
            ++ json_line (entry_values self.now attempts status.now pickle.now)) }
    {
        let case = CaseJson {
            attempts,
            line: self.places.line(pickle),
            status,
            pickle,
        };
        add_json_line(alloc, text, &case)
    }

    /// Adds the line of a case with this status.
    ///
    /// # Errors
    /// Only where there is no memory.
    pub fn add_case(
        &self,
        alloc: Global,
        text: &mut String,
        case: &str,
        status: &str,
    ) -> Result<(), AllocError>
        ensures { OnOk result ((es : List Envelope) → self.now ≡ listing_of es
            → string_bytes text.new ≡ string_bytes text.old ++ case_json es case.now status.now) }
    {
        match self.places.pickle(case) {
            Some(pickle) => {
                let attempts = count_of(&self.attempts, case);
                self.add_entry(alloc, text, pickle, status, attempts)
            }
            None => Ok(()),
        }
    }

    /// Adds a line for each pickle that no case names.
    ///
    /// # Errors
    /// Only where there is no memory.
    pub fn add_unrun(&self, alloc: Global, text: &mut String) -> Result<(), AllocError>
        ensures { OnOk result ((es : List Envelope) → self.now ≡ listing_of es
            → string_bytes text.new ≡ string_bytes text.old ++ unrun_json es) }
    {
        for pickle in self.listing.pickles.as_slice() {
            if !self.places.is_named(pickle) {
                self.add_entry(alloc, text, pickle, "UNRUN", 0)?;
            }
        }
        Ok(())
    }
}

/// How often a text was counted.
fn count_of(counts: &ByText<'_, u64>, text: &str) -> u64
    ensures { result ≡ count_at counts.now text.now }
{
    match counts.get(text) {
        Some(count) => *count,
        None => 0,
    }
}

/// Counts a text.
fn count_one<'a>(counts: &mut ByText<'a, u64>, text: &'a str) -> Result<(), AllocError>
    requires few { count_at counts.old text.now + 1 < 2 ^ 64 }
    ensures { OnOk result ((other : List ℕ) → count_at counts.new other
        ≡ count_at counts.old other + (if bytes_eq other text.now then 1 else 0)) }
{
    let count = count_of(counts, text) + 1;
    counts.insert(text, count)?;
    Ok(())
}

/// How often each text is among these.
fn counts_of<'a>(
    alloc: Global,
    seed: RandomState,
    texts: &'a [Text],
) -> Result<ByText<'a, u64>, AllocError>
    ensures { IfOk result
        (λ counts. (text : List ℕ) → count_at counts text ≡ times_in texts.now text) }
{
    let mut counts = IndexMap::with_hasher(alloc, seed);
    for text in texts {
        count_one(&mut counts, text.as_str())?;
    }
    Ok(counts)
}
