//! What holds of every list of lines and its document, and of the places of faults.
ghost use Rattle.gk_laws.specs.Comments.{CommentsAreOutside};
ghost use Rattle.gk_laws.specs.Marks.{PartsComeInOrder, PartsStandAtTheirPlaces};
ghost use Rattle.gk_laws.specs.Documents.{TextsAreLines, OneDocumentOfLines, DocumentOrFaultOfLines, NoDocumentWithFaultOfLines};
ghost use Rattle.gk_laws.specs.Documents.{OneFaultOfLines, FrontsAreShown, FaultsStay};
ghost use Rattle.gk_laws.specs.Fences.{DocLinesAreRead, FencesCutTexts, IndentIsLost};
ghost use Rattle.gk_laws.specs.KeywordLines.{FencesAreMarked, StepsAreMarked, TitlesAreMarked};
ghost use Rattle.gk_laws.specs.LanguageLines.{LanguageLinesHaveParts};
ghost use Rattle.gk_laws.specs.Rows.{CellsAreCut, CellsAreTrimmed, RowCutIsOne, RowsAreCut, UnitsWriteTexts};
ghost use Rattle.gk_laws.specs.TagLines.{CommentsAreCut, PiecesAreCut};
ghost use Rattle.gk_laws.specs.TokenKinds.{OthersAreOfNone, TokensAreOfKinds, TokensAreRead};
ghost use Rattle.gk_laws.specs.Pickles.{PicklesAreMade, PicklesNameRows};
ghost use Rattle.gk_laws.specs.TextAnswers.{EachTextHasOneAnswer};

/// The lines of a text are lines of characters, numbered from 1, of which the other laws speak.
pub fn texts_are_lines()
    ensures { TextsAreLines }
{}

/// Lines have one document at most.
pub fn one_document_of_lines()
    ensures { OneDocumentOfLines }
{}

/// Lines have a document, or a fault.
pub fn document_or_fault_of_lines()
    ensures { DocumentOrFaultOfLines }
{}

/// Lines that have a document have no fault.
pub fn no_document_with_fault_of_lines()
    ensures { NoDocumentWithFaultOfLines }
{}

/// Lines have one fault at most: one kind, at one line and column.
pub fn one_fault_of_lines()
    ensures { OneFaultOfLines }
{}

/// The first lines of a text of the grammar are a front, by one of the five completions.
pub fn fronts_are_shown()
    ensures { FrontsAreShown }
{}

/// Where lines have a fault, nothing that comes after the line of the fault makes them a text of the grammar.
pub fn faults_stay()
    ensures { FaultsStay }
{}

/// Each part of a document stands in its text where it says: in the line of its location, at its column, is a block's or a
/// step's keyword, a row's bar, a doc string's fence, or a tag's `@`, followed by the tag's word; white space may be between.
pub fn parts_stand_at_their_places()
    ensures { PartsStandAtTheirPlaces }
{}

/// The parts of a document come in the order of the file: each is before all that come after it in the tree, by line and column.
pub fn parts_come_in_order()
    ensures { PartsComeInOrder }
{}

/// The comments of a document are the comment lines of its text outside its doc strings, but the language line that counts.
pub fn comments_stand_outside_doc_strings()
    ensures { CommentsAreOutside }
{}

/// The units of a row are the one list of pairs and of characters by themselves that writes it, where no backslash by
/// itself comes before a bar, a backslash or an `n`. A pair is a backslash with one of these.
///
/// Source: Gherkin reference, "Table Cell Escaping".
pub fn units_write_rows()
    ensures { UnitsWriteTexts }
{}

/// A line is a row exactly where it is white space, a bar, cells with a bar after each, and a rest without a bar. It is
/// cut so in one way only, and its cells are those. Each says what its units mean without white space at both ends, and
/// has the column where that begins; an empty one has that of the bar after it. An escaped bar cuts nothing.
///
/// Source: Gherkin reference, "Data Tables" and "Table Cell Escaping"; `gherkin.berp`, `TableRow`.
pub fn bars_cut_rows()
    ensures exist { RowsAreCut }
    ensures unique { RowCutIsOne }
    ensures cells { CellsAreCut }
    ensures trimmed { CellsAreTrimmed }
{}

/// A line inside a doc string loses white space at its start, as much as the indent of the opening line or all there is.
/// What is left is cut at the leftmost escaped fences that don't overlap, and joined by the fence. Each has one outcome
/// only.
///
/// Source: Gherkin reference, "Doc Strings".
pub fn escaped_fences_cut_lines()
    ensures fences { FencesCutTexts }
    ensures indent { IndentIsLost }
    ensures line { DocLinesAreRead }
{}

/// A line reads as a title, a step or a fence exactly where it is white space, a keyword with its colon or space, or the
/// fence, and a text with white space around it: a name, a text or a media type. The column is that of the keyword or
/// fence.
///
/// Source: Gherkin reference, "Keywords", "Steps" and "Doc Strings"; `gherkin.berp`, from `FeatureLine` to
/// `DocStringSeparator`.
pub fn keyword_lines_have_parts()
    ensures titles { TitlesAreMarked }
    ensures steps { StepsAreMarked }
    ensures fences { FencesAreMarked }
{}

/// A line names a language exactly where it is `#`, `language`, `:` and a word of ASCII letters, `-` and `_`, with any
/// white space before, between and after them; and then it names that word.
///
/// Source: Gherkin reference, "Spoken Languages"; `gherkin.berp`, `Language`.
pub fn language_lines_have_parts()
    ensures { LanguageLinesHaveParts }
{}

/// The pieces of a tag line are what `@` cuts of it, up to the first white space that `#` follows. Each has the column of
/// its `@`.
///
/// Source: Gherkin reference, "Tags"; the cut and the column are this profile's.
pub fn marks_cut_tag_lines()
    ensures comment { CommentsAreCut }
    ensures pieces { PiecesAreCut }
{}

/// What the grammar reads of a line is of a kind exactly where the line is of that kind, so no line is of two, and it is
/// text exactly where the line is of none. It is the one token that the line reads as, whichever kind is tried first.
///
/// Source: `gherkin.berp`, the tokens from `Empty` to `Other`.
pub fn tokens_read_lines()
    ensures kinds { TokensAreOfKinds }
    ensures others { OthersAreOfNone }
    ensures one { TokensAreRead }
{}

/// Each pickle is of a scenario and its row. Its name is the scenario's, filled; its tags are those of the feature, the rule,
/// the scenario and the examples. Its steps are made one by one, in the document's order, of the backgrounds' steps as they
/// are and of the scenario's own steps filled: text, type and argument.
pub fn pickles_are_made()
    ensures { PicklesAreMade }
{}

/// The pickles of a document name its scenarios without examples, and the rows of the others, one by one and in its order.
pub fn pickles_name_rows()
    ensures { PicklesNameRows }
{}

/// Each text has exactly one of a document and a fault. Of a text within the limits `parse` gives it, unless memory is refused.
pub fn each_text_has_one_answer()
    ensures { EachTextHasOneAnswer }
{}
