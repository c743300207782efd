//! Rows: those of an examples table, and those of a step.
ghost use Rattle.std.specs.Prelude.{◌≡◌, ◌∷◌, map, IfOk, ◌≤◌, ◌<◌, ◌+◌, ◌^◌, [], length, codes, IsTrue};
ghost use Rattle.gk_tree.specs.Views.{flat_block_of, state_in, Gives, state_so_far, line_at};
ghost use Rattle.gk_line.specs.Views.{line_chars};
ghost use Rattle.gk_grammar.specs.Machine as machine;
ghost use Rattle.gk_grammar.specs.Token as read;
ghost use Rattle.gk_tree.specs.Rows.{rows_with, row_after};
ghost use Rattle.gk_line.specs.declared.limit.TheConstants.{FEATURE_LIMIT};
ghost use Rattle.gk_line.specs.Tokens.{begins_by};
ghost use Rattle.gk_grammar.specs.Token.{step_token as stepped, cell};
ghost use Rattle.gk_line.specs.Cells.{cells_of};
ghost use Rattle.gk_grammar.specs.Grammar as grammar;

use crate::blocks::{Body, FlatBlock, close_block};
use crate::comments::keep_comment_and_stay;
use crate::fault::{ParseFault, fault};
use crate::parser::{Phase, Progress};
use crate::steps::BlockWithSteps;
use crate::token::{IndentedLine, Token, location};
use gk_document::{Argument, Cell, Row, Sequence, Step};
use gk_grammar::FaultKind;
use gk_line::{Line, cells};
use std::alloc::{AllocError, Global};

/// The cells of a row.
pub(crate) fn row_cells(alloc: Global, line: Line<'_>) -> Result<Sequence<Cell>, AllocError>
    requires row { IsTrue (begins_by (codes "|") (line_chars line)) }
    requires short { length line.text.now ≤ FEATURE_LIMIT }
    ensures { IfOk result (λ found. found ≡ map cell (cells_of (line_chars line.entry))) }
{
    let cells = cells(alloc, line)?;
    Ok(Sequence::from(cells))
}

/// The row that the line is.
fn row_at(node: u64, at: IndentedLine<'_>, cells: Sequence<Cell>) -> Row
    ensures { result ≡ record {
      node = node;
      location = grammar.at at.entry.line.number
          (at.entry.indent + 1);
      cells = cells;
    } }
{
    Row {
        node,
        location: location(at),
        cells,
    }
}

/// The first row of a table.
fn single_row(alloc: Global, row: Row) -> Result<Sequence<Row>, AllocError>
    ensures { IfOk result (λ rows. rows ≡ row ∷ []) }
{
    let mut rows = Sequence::new(alloc);
    rows.push(row)?;
    Ok(rows)
}

/// How many cells the first row has.
fn cell_count(rows: &[Row]) -> usize
    ensures { result ≡ machine.count_of rows.now }
{
    match rows {
        [] => 0,
        [first, ..] => first.cells.len(),
    }
}

/// Adds a row to a table.
fn add_row(rows: &mut Sequence<Row>, row: Row) -> Result<(), ParseFault>
    ensures { Gives (λ _. rows.new) result (rows_with rows.old row) }
{
    if row.cells.len() != cell_count(rows.as_slice()) {
        return Err(fault(FaultKind::CellCount, row.location));
    }
    rows.push(row)?;
    Ok(())
}

/// The first row of an examples table.
pub(crate) fn first_row<'a>(
    alloc: Global,
    progress: &mut Progress,
    flat_block: Box<FlatBlock>,
    at: IndentedLine<'a>,
    cells: Sequence<Cell>,
) -> Result<Phase<'a>, ParseFault>
    requires room { progress.old.nodes < 2 ^ 63 }
    ensures { Gives (state_in progress.new) result
        (machine.after_description (state_so_far progress.old) (flat_block_of flat_block.value)
        (read.line at.entry.line.number (line_chars at.entry.line) at.entry.indent
        (read.Row cells))) }
{
    let rows = single_row(alloc, row_at(progress.nodes, at, cells))?;
    progress.nodes += 1;
    Ok(Phase::InExamplesTable(flat_block, rows))
}

/// A line after rows of an examples table.
pub(crate) fn after_rows<'a>(
    alloc: Global,
    progress: &mut Progress,
    flat_block: Box<FlatBlock>,
    mut rows: Sequence<Row>,
    at: IndentedLine<'a>,
    token: Token<'a>,
) -> Result<Phase<'a>, ParseFault>
    requires room { progress.old.nodes < 2 ^ 63 }
    ensures { Gives (state_in progress.new) result
        (machine.in_examples_table (state_so_far progress.old) (flat_block_of flat_block.value) rows
        (line_at at.entry token.entry)) }
{
    match token {
        Token::Row(cells) => {
            add_row(&mut rows, row_at(progress.nodes, at, cells))?;
            progress.nodes += 1;
            Ok(Phase::InExamplesTable(flat_block, rows))
        }
        Token::Blank => Ok(Phase::InExamplesTable(flat_block, rows)),
        Token::Comment | Token::Language(_) => {
            keep_comment_and_stay(
                alloc,
                progress,
                Phase::InExamplesTable(flat_block, rows),
                at,
            )
        }
        token => {
            let flat_block = with_rows(Box::into_inner(flat_block), rows);
            close_block(alloc, progress, flat_block, at, token)
        }
    }
}

/// The block with these rows below it.
pub(crate) fn with_rows(mut flat_block: FlatBlock, rows: Sequence<Row>) -> FlatBlock
    ensures { flat_block_of result ≡ machine.with_rows (flat_block_of flat_block) rows }
{
    flat_block.body = Body::Rows(rows);
    flat_block
}

/// A row line after steps.
pub(crate) fn row_line<'a>(
    alloc: Global,
    progress: &mut Progress,
    mut stepped: Box<BlockWithSteps>,
    at: IndentedLine<'a>,
    cells: Sequence<Cell>,
) -> Result<Phase<'a>, ParseFault>
    requires room { progress.old.nodes < 2 ^ 63 }
    ensures { Gives (state_in progress.new) result
        (machine.after_step (state_so_far progress.old)
        (flat_block_of stepped.value.flat_block) stepped.value.before stepped.value.last
        (read.line at.entry.line.number (line_chars at.entry.line) at.entry.indent
        (read.Row cells))) }
{
    let row = row_at(progress.nodes, at, cells);
    add_step_row(alloc, &mut stepped.last, row)?;
    progress.nodes += 1;
    Ok(Phase::AfterStep(stepped))
}

/// Adds a row to the table of a step, which may be its first row.
fn add_step_row(alloc: Global, step: &mut Step, row: Row) -> Result<(), ParseFault>
    ensures { Gives (λ _. step.new) result (row_after step.old step.old.argument row) }
{
    let rows = match step.argument.take() {
        None => single_row(alloc, row)?,
        Some(Argument::Table(mut rows)) => {
            add_row(&mut rows, row)?;
            rows
        }
        Some(Argument::Text(_)) => return Err(fault(FaultKind::Unexpected, row.location)),
    };
    step.argument = Some(Argument::Table(rows));
    Ok(())
}
