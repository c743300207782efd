//! Laws of lines and tokens, for the crates that read whole texts.
ghost use Rattle.gk_line.specs.Columns.{CellColumnsRise, TagColumnsRise};
ghost use Rattle.gk_line.specs.Kinds.{KindsExclude, LanguageIsComment};
ghost use Rattle.gk_line.specs.LineEnds.{CutIsOne, LinesAreCut};

/// No line is of two kinds, except that a language line is also a comment.
pub fn kinds_exclude()
    ensures one { KindsExclude }
    ensures language { LanguageIsComment }
{}

/// The lines of a text are what lies between its line ends.
pub fn lines_are_cut()
    ensures exist { LinesAreCut }
    ensures unique { CutIsOne }
{}

/// The columns of a line's tags, and those of its cells, rise strictly and lie within the line.
pub fn columns_rise()
    ensures tags { TagColumnsRise }
    ensures cells { CellColumnsRise }
{}
