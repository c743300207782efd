//! Filling placeholders from a row of examples.
ghost use Rattle.std.specs.Prelude.{◌≡◌, ◌<◌, ◌++◌, List, ℕ, length, IfOk, IfSome, IfNone, string_bytes, map, option_and_then, ◌∷◌};
ghost use Rattle.std.specs.Prelude.{reverse, true, OnOk, option_map, ◌↔◌, [], IsTrue, find, nat_le, if◌then◌else◌};
ghost use Rattle.std.specs.Bool.{OnTrue};
ghost use Rattle.gk_document.specs.declared.tree.Cell.{Cell};
ghost use Rattle.gk_pickle.specs.Fill.{placeholder, replaced_text, filled_text};
ghost use Rattle.gk_document.specs.MediaType.{unless_empty};
ghost use Rattle.gk_pickle.specs.Steps.{filled_by, filled_row, filled_argument};
ghost use Rattle.gk_pickle.specs.SinglePass.{AreWithin, HasNoBracket, HaveNoBracket, with_bytes, closed_placeholder, is_bracket};
ghost use Rattle.gk_pickle.specs.SinglePass.{nothing_read, with_open, raised_opens, read_parts, work, columns_named, replacement};
ghost use Rattle.std.specs.List.Sorted.{IsNonDecreasing};
ghost use Rattle.std.specs.Str.{bytes_eq};
ghost use Rattle.gk_pickle.specs.Columns.{columns_at};
ghost use Rattle.gk_pickle.specs.Inheritance.{no_filling};

use crate::pickles::{Inheritance, PickleArgument, PickleDocString};
use gk_document::{Argument, Cell, DocString, Row, Sequence, Text, media_type};
use indexmap::IndexMap;
use memchr::memmem::Finder;
use memchr::{memchr, memchr2};
use std::alloc::{AllocError, Global};
use std::hash::RandomState;
use std::marker::Model;

/// What is before and after the first `<name>` of a text.
fn cut_at_first<'t>(finder: &Finder<'_>, name: &str, text: &'t str) -> Option<(&'t str, &'t str)>
    requires { finder.now ≡ placeholder name.now }
    ensures none { IfNone result
        ((cell : List ℕ) → replaced_text (placeholder name.now) cell text.now ≡ text.now) }
    ensures some { IfSome result
        (λ parts. (cell : List ℕ) → replaced_text (placeholder name.now) cell text.now
        ≡ parts.0.now ++ (cell ++ replaced_text (placeholder name.now) cell parts.1.now)) }
    ensures shorter { IfSome result (λ parts. length parts.1.now < length text.now) }
{
    let start = finder.find(text.as_bytes())?;
    let end = start + name.len() + 2;
    Some((&text[..start], &text[end..]))
}

/// The text with each `<name>` replaced by a cell.
fn replace(alloc: Global, text: &str, name: &str, cell: &str) -> Result<String, AllocError>
    ensures { IfOk result
        (λ s. string_bytes s ≡ replaced_text (placeholder name.now) cell.now text.now) }
{
    let pattern = format!(in alloc; "<{name}>")?;
    let finder = Finder::new(pattern.as_bytes());
    let mut filled = String::new(alloc);
    let mut rest = text;
    while let Some((before, after)) = cut_at_first(&finder, name, rest) {
        filled.push_str(before)?;
        filled.push_str(cell)?;
        rest = after;
    }
    filled.push_str(rest)?;
    Ok(filled)
}

/// Whether the text has no `<`, and so nothing to fill.
fn has_no_placeholder(text: &str) -> bool
    ensures { OnTrue result
        ((header row : List Cell) → filled_text text.now header row ≡ text.now) }
{
    memchr(b'<', text.as_bytes()).is_none()
}

/// The text filled column by column.
fn fill_columns(
    alloc: Global,
    text: &str,
    header: &[Cell],
    row: &[Cell],
) -> Result<String, AllocError>
    ensures { IfOk result (λ s. string_bytes s ≡ filled_text text.now header.now row.now) }
{
    let mut filled = String::from_str(alloc, text)?;
    for (name, cell) in header.iter().zip(row) {
        if has_no_placeholder(filled.as_str()) {
            return Ok(filled);
        }
        filled = replace(
            alloc,
            filled.as_str(),
            name.value.as_str(),
            cell.value.as_str(),
        )?;
    }
    Ok(filled)
}

/// The text, filled from a row under its header's columns.
pub(crate) fn fill_from(
    alloc: Global,
    text: &str,
    columns: &Columns<'_>,
    row: &[Cell],
) -> Result<String, AllocError>
    ensures { IfOk result (λ s. string_bytes s ≡ filled_text text.now columns.now row.now) }
{
    if has_no_placeholder(text) {
        return Ok(String::from_str(alloc, text)?);
    }
    if columns.has_no_bracket() {
        return fill_in_one_pass(alloc, text, columns, row);
    }
    fill_columns(alloc, text, columns.header(), row)
}

/// The text with its placeholders filled, column by column: for each name of the header in order, every `<name>` in the
/// text so far, leftmost and without overlap, is replaced by the row's cell of that column. So a cell may bring in
/// placeholders of the columns after it, and each such column may double the text. A column that only the header or only
/// the row has fills nothing.
///
/// Where no name has a `<` or `>`, the text is read once, whatever the columns, and what cells bring likewise; else the
/// text is read once for each column.
///
/// Source: Cucumber's Gherkin reference, "Scenario Outline".
///
/// # Errors
/// Only where there is no memory for the text.
pub fn fill(
    alloc: Global,
    seed: RandomState,
    text: &str,
    header: &[Cell],
    row: &[Cell],
) -> Result<String, AllocError>
    ensures { IfOk result (λ s. string_bytes s ≡ filled_text text.now header.now row.now) }
{
    let columns = Columns::of(alloc, seed, header)?;
    fill_from(alloc, text, &columns, row)
}

/// The values of a row's cells, filled.
fn filled_cells(
    alloc: Global,
    filling: &Filling<'_, '_, '_>,
    row: &Row,
) -> Result<Sequence<Text>, AllocError>
    ensures { IfOk result (λ texts. texts ≡ filled_row filling.now row.now) }
{
    let mut texts = Vec::new(alloc);
    for cell in row.cells.as_slice() {
        let text = filling.text(alloc, cell.value.as_str())?;
        texts.push(text)?;
    }
    Ok(Sequence::from(texts))
}

/// The rows of a table, filled.
pub(crate) fn filled_rows(
    alloc: Global,
    filling: &Filling<'_, '_, '_>,
    rows: &[Row],
) -> Result<Sequence<Sequence<Text>>, AllocError>
    ensures { IfOk result (λ table. table ≡ map (filled_row filling.now) rows.now) }
{
    let mut table = Vec::new(alloc);
    for row in rows {
        let cells = filled_cells(alloc, filling, row)?;
        table.push(cells)?;
    }
    Ok(Sequence::from(table))
}

/// A media type, filled, where one is left.
fn filled_media(
    alloc: Global,
    filling: &Filling<'_, '_, '_>,
    media: &Option<Text>,
) -> Result<Option<Text>, AllocError>
    ensures { IfOk result
        (λ o. o ≡ option_and_then (λ m. unless_empty (filled_by filling.now m)) media.now) }
{
    match media {
        Some(media) => {
            let media = filling.text(alloc, media.as_str())?;
            Ok(media_type(media))
        }
        None => Ok(None),
    }
}

/// A doc string, filled.
pub(crate) fn filled_doc_string(
    alloc: Global,
    filling: &Filling<'_, '_, '_>,
    doc_string: &DocString,
) -> Result<PickleArgument, AllocError>
    ensures { IfOk result (λ a. a ≡ filled_argument filling.now (Argument.Text doc_string.now)) }
{
    let media = filled_media(alloc, filling, &doc_string.media)?;
    let content = filling.text(alloc, doc_string.content.as_str())?;
    Ok(PickleArgument::Text(PickleDocString { media, content }))
}

/// What fills a text: a row under its header, and the row's node.
#[derive(Drop)]
pub(crate) struct Filling<'c, 'h, 'r> {
    row: Option<(&'c Columns<'h>, &'r [Cell])>,
    node: Option<u64>,
}

/// A `<` of a text that may open a placeholder.
#[derive(Clone, Copy)]
pub(crate) struct Open {
    /// The bytes before it.
    pub start: usize,
    /// As many columns are done in what comes after it.
    pub done: usize,
}

/// A text that is still to be read.
#[derive(Clone, Copy)]
pub(crate) struct Part<'t> {
    pub text: &'t str,
    /// As many columns are done in it.
    pub done: usize,
}

/// What is written so far, and each `<` in it that may open a placeholder, the innermost last.
#[derive(Drop)]
struct Reading {
    out: String,
    opens: Vec<Open>,
}

impl Model for Reading {
    ghost use Rattle.std.specs.Prelude.{reverse, string_bytes};
    ghost use Rattle.gk_pickle.specs.SinglePass.{Reading as Read, AreOpenIn};

    ghost Value = { Read };

    ghost view = { λ r. record { out = string_bytes r.out; opens = reverse r.opens.items } };

    ghost invariant = { λ r. AreOpenIn (string_bytes r.out) (reverse r.opens.items) };
}

/// Around a placeholder that is filled, the columns before `done` are done.
fn raise_placeholder(opens: &mut Vec<Open>, done: usize)
    ensures { reverse opens.new.items ≡ raised_opens done (reverse opens.old.items) }
{
    if let Some(around) = opens.last_mut() {
        around.done = around.done.max(done);
    }
}

impl Reading {
    /// Nothing is read yet.
    fn new(alloc: Global) -> Reading
        ensures { result ≡ nothing_read }
    {
        Reading {
            out: String::new(alloc),
            opens: Vec::new(alloc),
        }
    }

    /// Adds a text without brackets.
    fn add(&mut self, text: &str) -> Result<(), AllocError>
        ensures { OnOk result (self.new ≡ with_bytes text.now self.old) }
    {
        self.out.push_str(text)?;
        Ok(())
    }

    /// Adds a `<`, in whose place `done` columns are done.
    fn open(&mut self, done: usize) -> Result<(), AllocError>
        ensures { OnOk result (self.new ≡ with_open done self.old) }
    {
        let start = self.out.len();
        self.out.push_str("<")?;
        self.opens.push(Open { start, done })?;
        Ok(())
    }

    /// Takes off the placeholder that a `>` closes and gives its column and cell, or adds the `>`.
    fn close<'r>(
        &mut self,
        columns: &Columns<'_>,
        row: &'r [Cell],
        done: usize,
    ) -> Result<Option<(usize, &'r str)>, AllocError>
        ensures found { IfOk result
            (λ found. option_map (λ f. (f.0, f.1.now)) found
            ≡ (closed_placeholder columns.now row.now done self.old).0) }
        ensures left { IfOk result
            (λ _. self.new ≡ (closed_placeholder columns.now row.now done self.old).1) }
        ensures within { IfOk result (λ found. IfSome found (λ f. f.0 < length row.now)) }
    {
        if let Some(open) = self.opens.pop() {
            let name = &self.out.as_str()[open.start + 1..];
            if let Some((column, cell)) = columns.replacement(row, open.done.max(done), name) {
                self.out.truncate(open.start);
                raise_placeholder(&mut self.opens, column + 1);
                return Ok(Some((column, cell)));
            }
            self.opens.clear();
        }
        self.out.push_str(">")?;
        Ok(None)
    }

    /// Reads a part up to its first bracket. What is left of it, and what a cell brings, are further parts.
    fn read_part<'t>(
        &mut self,
        part: Part<'t>,
        parts: &mut Vec<Part<'t>>,
        columns: &Columns<'_>,
        row: &'t [Cell],
    ) -> Result<(), AllocError>
        requires { AreWithin row.now (part ∷ parts.old.items) }
        ensures read { OnOk result
            (read_parts columns.now row.now (reverse parts.new.items) self.new
            ≡ read_parts columns.now row.now (part.entry ∷ reverse parts.old.items) self.old) }
        ensures within { OnOk result (AreWithin row.now parts.new.items) }
        ensures less { OnOk result
            (work row.now parts.new.items < work row.now (part.entry ∷ parts.old.items)) }
    {
        let Some((before, bracket, after)) = cut_at_bracket(part.text) else {
            return self.add(part.text);
        };
        self.add(before)?;
        parts.push(Part {
            text: after,
            done: part.done,
        })?;
        if bracket == b'<' {
            return self.open(part.done);
        }
        if let Some((column, text)) = self.close(columns, row, part.done)? {
            parts.push(Part {
                text,
                done: column + 1,
            })?;
        }
        Ok(())
    }
}

/// What is before and after the first bracket, and the bracket.
fn cut_at_bracket(text: &str) -> Option<(&str, u8, &str)>
    ensures none { IfNone result (HasNoBracket text.now) }
    ensures some { IfSome result (λ parts. text.now ≡ parts.0.now ++ parts.1 ∷ parts.2.now) }
    ensures bracket { IfSome result (λ parts. is_bracket parts.1 ≡ true) }
    ensures plain { IfSome result (λ parts. HasNoBracket parts.0.now) }
{
    let at = memchr2(b'<', b'>', text.as_bytes())?;
    Some((&text[..at], text.as_bytes()[at], &text[at + 1..]))
}

/// The text, filled in one pass from a row under a header whose names have no bracket.
fn fill_in_one_pass<'t>(
    alloc: Global,
    text: &'t str,
    columns: &Columns<'_>,
    row: &'t [Cell],
) -> Result<String, AllocError>
    requires { HaveNoBracket columns.now }
    ensures { IfOk result (λ s. string_bytes s ≡ filled_text text.now columns.now row.now) }
{
    let mut parts = vec![in alloc; Part { text, done: 0 }]?;
    let mut reading = Reading::new(alloc);
    while let Some(part) = parts.pop() {
        reading.read_part(part, &mut parts, columns, row)?;
    }
    Ok(reading.out)
}

/// Each name with its columns, from 0.
type Named<'a> = IndexMap<&'a str, Vec<usize>, RandomState>;

/// Adds a column after the others that have its name.
fn add_column<'a>(
    alloc: Global,
    named: &mut Named<'a>,
    name: &'a str,
    column: usize,
) -> Result<(), AllocError>
    ensures { OnOk result ((other : List ℕ) → columns_at named.new other
        ≡ columns_at named.old other ++ (if bytes_eq other name.now then column ∷ [] else [])) }
{
    let mut columns = named.swap_remove(name).unwrap_or(Vec::new(alloc));
    columns.push(column)?;
    named.insert(name, columns)?;
    Ok(())
}

/// The columns of a header, by their names.
fn named<'a>(alloc: Global, seed: RandomState, header: &'a [Cell]) -> Result<Named<'a>, AllocError>
    ensures { IfOk result
        (λ named. (name : List ℕ) → columns_at named name ≡ columns_named name header.now) }
{
    let mut named = IndexMap::with_hasher(alloc, seed);
    for (column, cell) in header.iter().enumerate() {
        add_column(alloc, &mut named, cell.value.as_str(), column)?;
    }
    Ok(named)
}

/// The first of the columns that isn't before `done`.
fn first_from(columns: &[usize], done: usize) -> Option<usize>
    requires { IsNonDecreasing columns.now }
    ensures { result ≡ find (λ column. nat_le done column) columns.now }
{
    let before = columns.partition_point(|column| *column < done);
    columns.get(before).copied()
}

/// Whether no cell has a bracket.
fn have_no_bracket(cells: &[Cell]) -> bool
    ensures { IsTrue result ↔ HaveNoBracket cells.now }
{
    for cell in cells {
        if memchr2(b'<', b'>', cell.value.as_str().as_bytes()).is_some() {
            return false;
        }
    }
    true
}

/// The columns of a header by their names.
#[derive(Drop)]
pub(crate) struct Columns<'a> {
    header: &'a [Cell],
    named: Named<'a>,
    has_no_bracket: bool,
}

impl<'a> Model for Columns<'a> {
    ghost use Rattle.std.specs.Prelude.{◌≡◌, ◌↔◌, ℕ, List, IsTrue};
    ghost use Rattle.gk_document.specs.declared.tree.Cell.{Cell as HeaderCell};
    ghost use Rattle.gk_pickle.specs.SinglePass.{HaveNoBracket, columns_named};
    ghost use Rattle.gk_pickle.specs.Columns.{columns_at};

    ghost Value = { List HeaderCell };

    ghost view = { λ c. c.header.now };

    ghost invariant = { λ c.
        ((name : List ℕ) → columns_at c.named name ≡ columns_named name c.header.now)
        × (IsTrue c.has_no_bracket ↔ HaveNoBracket c.header.now) };
}

impl<'a> Columns<'a> {
    /// Of a header.
    pub(crate) fn of(
        alloc: Global,
        seed: RandomState,
        header: &'a [Cell],
    ) -> Result<Columns<'a>, AllocError>
        ensures { IfOk result (λ columns. columns ≡ header.now) }
    {
        let named = named(alloc, seed, header)?;
        let has_no_bracket = have_no_bracket(header);
        Ok(Columns {
            header,
            named,
            has_no_bracket,
        })
    }

    /// The header whose columns these are.
    pub(crate) fn header(&self) -> &'a [Cell]
        ensures { result.now ≡ self.now }
    {
        self.header
    }

    /// Whether no name has a bracket.
    pub(crate) fn has_no_bracket(&self) -> bool
        ensures { IsTrue result ↔ HaveNoBracket self.now }
    {
        self.has_no_bracket
    }

    /// The first column from `done` on that has the name, with its cell, where the row has one.
    pub(crate) fn replacement<'r>(
        &self,
        row: &'r [Cell],
        done: usize,
        name: &str,
    ) -> Option<(usize, &'r str)>
        ensures found { option_map (λ found. (found.0, found.1.now)) result
            ≡ replacement self.now row.now done name.now }
        ensures within { IfSome result (λ found. found.0 < length row.now) }
    {
        let columns = self.named.get(name)?;
        let column = first_from(columns.as_slice(), done)?;
        let cell = row.get(column)?;
        Some((column, cell.value.as_str()))
    }
}

impl<'c, 'h, 'r> Model for Filling<'c, 'h, 'r> {
    ghost use Rattle.std.specs.Prelude.{[]};
    ghost use Rattle.std.specs.Option.{option_map_or, option_to_list};
    ghost use Rattle.gk_pickle.specs.Inheritance.{Filling as Filled};

    ghost Value = { Filled };

    ghost view = { λ f. record {
      header = option_map_or (λ r. r.0.now) f.row [];
      cells = option_map_or (λ r. r.1.now) f.row [];
      rows = option_to_list f.node;
    } };
}

impl<'c, 'h, 'r> Filling<'c, 'h, 'r> {
    /// Where there are no examples.
    pub(crate) fn none() -> Filling<'static, 'static, 'static>
        ensures { result ≡ no_filling }
    {
        Filling {
            row: None,
            node: None,
        }
    }

    /// Of one body row under its header's columns.
    pub(crate) fn of_row(columns: &'c Columns<'h>, row: &'r Row) -> Filling<'c, 'h, 'r>
        ensures { result
            ≡ record { header = columns.now; cells = row.now.cells; rows = row.now.node ∷ [] } }
    {
        Filling {
            row: Some((columns, row.cells.as_slice())),
            node: Some(row.node),
        }
    }

    /// The text, filled.
    pub(crate) fn text(&self, alloc: Global, text: &str) -> Result<Text, AllocError>
        ensures { IfOk result (λ t. t ≡ filled_by self.now text.now) }
    {
        match &self.row {
            Some((columns, row)) => Ok(Text::from(fill_from(alloc, text, columns, row)?)),
            None => Ok(Text::copy_of(alloc, text)?),
        }
    }

    /// A node, and the row's where there is one.
    pub(crate) fn nodes(&self, alloc: Global, node: u64) -> Result<Sequence<u64>, AllocError>
        ensures { IfOk result (λ nodes. nodes ≡ node ∷ self.now.rows) }
    {
        let mut nodes = Sequence::new(alloc);
        nodes.push(node)?;
        if let Some(row) = self.node {
            nodes.push(row)?;
        }
        Ok(nodes)
    }
}
