//! The lines of a feature file.
ghost use Rattle.std.specs.Prelude.{◌≡◌, ◌≢◌, ◌+◌, ◌<◌, ◌^◌, ◌++◌, ◌↔◌, ℕ, List, Err, IfOk, OnOk, IfErr, sum_by, codes};
ghost use Rattle.std.specs.List.{concat};
ghost use Rattle.gk_grammar.specs.Documents.{IsTooLong};
ghost use Rattle.gk_tree.specs.declared.fault.ParseFault.{ParseFault};
ghost use Rattle.gk_tree.specs.Views.{too_long};
ghost use Rattle.gk_pickle.specs.Pickles.{pickles};
ghost use Rattle.gk_pickle.specs.Scenarios.{pickles_of_one};
ghost use Rattle.cm_messages.specs.SourceLayout.{source_data};
ghost use Rattle.cm_messages.specs.DocumentLayout.{document_data};
ghost use Rattle.cm_envelope.specs.Device.{Writes, count_up};
ghost use Rattle.cm_compile.specs.declared.fault.CompileFault.TheVariants.{Parse, WriteFailed};
ghost use Rattle.cm_compile.specs.Compiled.{data_line, id_count, compiled_pickle_lines, compiled_lines, IsCompiledOf};
ghost use Rattle.cm_compile.specs.Faults.{IsRefusedWith};
ghost use Rattle.cm_envelope.specs.Writing.{WritesFront};

use crate::fault::CompileFault;
use cm_envelope::{ByteSink, write_all};
use cm_messages::{document_text, pickle_text, source_text};
use gk_document::Document;
use gk_pickle::{Pickle, ScenarioInFeature, compile_scenario, scenarios};
use gk_tree::parse;
use std::alloc::{AllocError, Global};
use std::hash::RandomState;

/// Adds a text as a line of its own.
fn add_line(lines: &mut Vec<u8>, text: &[u8]) -> Result<(), AllocError>
    ensures { OnOk result (lines.new.items ≡ lines.old.items ++ (text.now ++ codes "\n")) }
{
    lines.extend_from_slice(text)?;
    lines.push(b'\n')?;
    Ok(())
}

/// Adds the lines of pickles, whose ids go on from the first one, and gives the id after theirs.
fn add_pickle_lines(
    alloc: Global,
    uri: &str,
    pickles: &[Pickle],
    first_id: u64,
    lines: &mut Vec<u8>,
) -> Result<u64, AllocError>
    requires { first_id + sum_by id_count pickles.now < 2 ^ 64 }
    ensures added { OnOk result (lines.new.items ≡ lines.old.items
        ++ concat (compiled_pickle_lines uri.now first_id pickles.now)) }
    ensures next { IfOk result (λ id. id ≡ first_id + sum_by id_count pickles.now) }
{
    let mut id = first_id;
    'pickles: for pickle in pickles {
        let text = pickle_text(alloc, uri, pickle, id)?;
        add_line(lines, text.as_slice())?;
        id += pickle.steps.len() as u64 + 1;
    }
    Ok(id)
}

/// Adds the lines of a scenario's pickles, whose ids go on from the first one, and gives the id after theirs.
/// The pickles are held until their lines are made.
fn add_scenario_lines(
    alloc: Global,
    seed: RandomState,
    uri: &str,
    scenario: &ScenarioInFeature<'_>,
    first_id: u64,
    lines: &mut Vec<u8>,
) -> Result<u64, AllocError>
    requires { first_id + sum_by id_count (pickles_of_one scenario.now) < 2 ^ 64 }
    ensures added { OnOk result (lines.new.items ≡ lines.old.items
        ++ concat (compiled_pickle_lines uri.now first_id (pickles_of_one scenario.now))) }
    ensures next { IfOk result
        (λ id. id ≡ first_id + sum_by id_count (pickles_of_one scenario.now)) }
{
    let pickles = compile_scenario(alloc, seed, scenario)?;
    add_pickle_lines(alloc, uri, pickles.as_slice(), first_id, lines)
}

/// The line of a source, and that of its document.
fn lines_of_tree(
    alloc: Global,
    uri: &str,
    text: &str,
    document: &Document,
) -> Result<Vec<u8>, AllocError>
    ensures { IfOk result (λ lines. lines.items ≡ data_line (source_data uri.now text.now)
        ++ data_line (document_data uri.now document.now)) }
{
    let mut lines = source_text(alloc, uri, text)?;
    lines.push(b'\n')?;
    let document = document_text(alloc, uri, document)?;
    add_line(&mut lines, document.as_slice())?;
    Ok(lines)
}

/// All lines of a feature file whose document is read.
fn lines_of_document(
    alloc: Global,
    seed: RandomState,
    uri: &str,
    text: &str,
    document: &Document,
) -> Result<Vec<u8>, AllocError>
    requires { document.now.nodes + sum_by id_count (pickles document.now) < 2 ^ 64 }
    ensures { IfOk result (λ lines.
        lines.items ≡ concat (compiled_lines uri.now text.now document.now)) }
{
    let mut lines = lines_of_tree(alloc, uri, text, document)?;
    let scenarios = scenarios(alloc, document)?;
    let mut id = document.nodes;
    for scenario in scenarios.as_slice() {
        id = add_scenario_lines(alloc, seed, uri, scenario, id, &mut lines)?;
    }
    Ok(lines)
}

/// All lines of a feature file.
fn lines_of(
    alloc: Global,
    seed: RandomState,
    uri: &str,
    text: &str,
) -> Result<Vec<u8>, CompileFault>
    ensures ok { IfOk result (λ lines. IsCompiledOf uri.now text.now lines.items) }
    ensures refused { (f : ParseFault) → result ≡ Err (Parse f) → IsRefusedWith text.now f }
    ensures too_long { (result ≡ Err (Parse too_long)) ↔ IsTooLong text.now }
    ensures nothing_written { result ≢ Err WriteFailed }
{
    let document = parse(alloc, text)?;
    let lines = lines_of_document(alloc, seed, uri, text, &document);
    drop(document);
    Ok(lines?)
}

/// Writes the lines of a feature file as Cucumber Messages: its source, its document and its pickles in order, each
/// compact JSON ended by a line feed. Nodes have their numbers as ids; the ids go on from there, for each pickle its steps
/// in order and then the pickle. All lines are made before the first byte is written. No write is repeated, and nothing is
/// flushed.
///
/// # Errors
/// `Parse` where the text is no feature file, and `Memory` where there is no memory for the lines: then the sink is as it
/// was. `WriteFailed` where a write failed or took nothing: then the sink has taken the bytes before it.
pub fn write_compiled<W: ByteSink>(
    alloc: Global,
    seed: RandomState,
    uri: &str,
    text: &str,
    sink: &mut W,
) -> Result<(), CompileFault>
    ensures written { OnOk result ((bytes : List ℕ) × IsCompiledOf uri.now text.now bytes
        × Writes (W.output sink.old) (W.output sink.new) bytes) }
    ensures none_failed { OnOk result
        ((W.output sink.new).failed_calls ≡ (W.output sink.old).failed_calls) }

    // Where a write failed, only the first of the bytes were taken.
    ensures front { result ≡ Err WriteFailed →
        (bytes : List ℕ) × IsCompiledOf uri.now text.now bytes
        × WritesFront (W.output sink.old) (W.output sink.new) bytes }
    ensures failed { result ≡ Err WriteFailed →
        (W.output sink.new).failed_calls ≡ count_up (W.output sink.old).failed_calls }

    // With any other fault the sink is as it was.
    ensures refused { (f : ParseFault) → result ≡ Err (Parse f) → IsRefusedWith text.now f }
    ensures too_long { (result ≡ Err (Parse too_long)) ↔ IsTooLong text.now }
    ensures untouched { IfErr result (λ e. e ≢ WriteFailed → sink.new ≡ sink.old) }
{
    let lines = lines_of(alloc, seed, uri, text)?;
    Ok(write_all(sink, lines.as_slice())?)
}
