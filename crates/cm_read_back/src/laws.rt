//! Writing and reading agree.
ghost use Rattle.cm_read_back.specs.Laws.{DocumentIsReadBack, ParsedAreReadable, ParsedHaveSkeletons, PickleIsReadBack, PlainHaveLines, SourceIsReadBack};

/// What is written of a source is read as that source: as a value of JSON, as a line, and as its text.
pub fn source_is_read_back()
    ensures { SourceIsReadBack }
{}

/// What is written of a pickle is read as that pickle: as a value of JSON, as a line, and as its text.
pub fn pickle_is_read_back()
    ensures { PickleIsReadBack }
{}

/// What is written of a document is read as that document without what no envelope keeps: as a value of JSON, as a line, and as
/// its text. Its nodes have to be numbered in the order of the tree, and its lines to be numbers of 32 bits from 1, as they are
/// in the document of each text that isn't too long.
pub fn document_is_read_back()
    ensures read { DocumentIsReadBack }
    ensures parsed { ParsedAreReadable }
    ensures skeleton { ParsedHaveSkeletons }
{}

/// The text without spaces of a value of JSON is a line of it, where the texts in it are UTF-8, its numbers whole and of 64
/// bits, and its members in the order of their names.
pub fn plain_values_have_lines()
    ensures { PlainHaveLines }
{}
