//! The lines of sources that the grammar refuses.
ghost use Rattle.std.specs.Prelude.{◌≡◌, ◌++◌, IfOk, List, OnOk, map, ℕ, find, option_map, string_bytes};
ghost use Rattle.cm_stream.specs.References.{sources};
ghost use Rattle.cm_envelope.specs.declared.envelope.Envelope.{Envelope as SomeEnvelope};
ghost use Rattle.cm_reasons.specs.Trail.{trail_of};
ghost use Rattle.cm_reasons.specs.Lines.{text_of_lines, limited_text};
ghost use Rattle.std.specs.Str.{bytes_eq};
ghost use Rattle.cm_reasons.specs.RunKept.{AreEntryLines, IsRefusalOf};
ghost use Rattle.cm_reasons.specs.RunKept.{fault_line, refused_source_line};
ghost use Rattle.cm_reasons.specs.RunReasons.{AreRefusedLines, first_source};

use crate::reasons::{AddLine, add_limited, kind_label};
use crate::run_listing::SourceEntry;
use crate::trail::Trail;
use cm_cases::add_shown;
use gk_grammar::FaultKind;
use gk_tree::{ParseFault, parse};
use std::alloc::{AllocError, Global};

/// A source whose text is refused, and the fault of its text.
#[derive(Drop)]
struct RefusedSource<'a> {
    uri: &'a str,
    fault: ParseFault,
}

/// Adds the line of a source with this fault, without its end.
fn add_fault(text: &mut String, uri: &str, fault: ParseFault) -> Result<(), AllocError>
    ensures { OnOk result
        (string_bytes text.new ≡ string_bytes text.old ++ fault_line uri.now fault) }
{
    let ParseFault { kind, line, column } = fault;
    let label = kind_label(kind);
    text.push_str("refused ")?;
    add_shown(text, uri)?;
    write!(text, ":{line}:{column} {label}")
}

/// Lines of sources that are refused.
#[derive(Drop)]
struct RefusedLines;

impl<'a> AddLine<RefusedSource<'a>> for RefusedLines {
    ghost of = { λ s es. Unit {0} };

    ghost line = { λ s es refused. refused_source_line refused };

    fn add(&self, text: &mut String, item: &RefusedSource<'a>) -> Result<(), AllocError> {
        add_fault(text, item.uri, item.fault)
    }
}

/// The fault for which a text is refused, if it is.
fn refusal(alloc: Global, text: &str) -> Result<Option<ParseFault>, AllocError>
    ensures { IfOk result (λ found. IsRefusalOf text.now found) }
{
    match parse(alloc, text) {
        Ok(document) => {
            drop(document);
            Ok(None)
        }
        Err(fault) => match fault.kind {
            FaultKind::Memory => Err(AllocError),
            FaultKind::TooLong => Ok(None),
            FaultKind::UnsupportedLanguage => Ok(None),
            _ => Ok(Some(fault)),
        },
    }
}

/// The sources that are refused, in order.
fn refused_sources<'a>(
    alloc: Global,
    sources: &'a [SourceEntry],
) -> Result<Vec<RefusedSource<'a>>, AllocError>
    ensures { IfOk result
        (λ refused. AreEntryLines sources.now (map refused_source_line refused.items)) }
{
    let mut refused = Vec::new(alloc);
    for source in sources {
        if let Some(fault) = refusal(alloc, source.content.as_str())? {
            let uri = source.uri.as_str();
            refused.push(RefusedSource { uri, fault })?;
        }
    }
    Ok(refused)
}

/// Adds a line for each source that is refused, a hundred at most.
///
/// # Errors
/// Only where there is no memory.
pub fn add_refused(alloc: Global, text: &mut String, trail: &Trail) -> Result<(), AllocError>
    ensures { OnOk result ((es : List SomeEnvelope) → trail.now ≡ trail_of es
        → (lines : List (List ℕ)) × AreRefusedLines (sources es) lines
        × (string_bytes text.new ≡ string_bytes text.old ++ limited_text lines)) }
{
    let refused = refused_sources(alloc, trail.run.sources.as_slice())?;
    add_limited(text, &RefusedLines, refused.as_slice())
}

/// The first source of the uri.
fn find_source<'a>(sources: &'a [SourceEntry], uri: &str) -> Option<&'a SourceEntry>
    ensures { option_map (λ s. s.now) result
        ≡ find (λ s. bytes_eq uri.now s.uri) sources.now }
{
    sources.iter().find(|source| uri == source.uri.as_str())
}

/// Adds the line of the first source of a uri, where it is refused.
///
/// # Errors
/// Only where there is no memory.
pub fn add_refused_of(
    alloc: Global,
    text: &mut String,
    trail: &Trail,
    uri: &str,
) -> Result<(), AllocError>
    ensures { OnOk result ((es : List SomeEnvelope) → trail.now ≡ trail_of es
        → (lines : List (List ℕ)) × AreRefusedLines (first_source uri.now es) lines
        × (string_bytes text.new ≡ string_bytes text.old ++ text_of_lines lines)) }
{
    let Some(source) = find_source(trail.run.sources.as_slice(), uri) else {
        return Ok(());
    };
    let Some(fault) = refusal(alloc, source.content.as_str())? else {
        return Ok(());
    };
    add_fault(text, source.uri.as_str(), fault)?;
    text.push_str("\n")
}
