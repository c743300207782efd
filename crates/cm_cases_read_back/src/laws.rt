//! Showing and reading agree.
ghost use Rattle.cm_cases_read_back.specs.Laws.{CasesAreReadBack, ShownHaveLines};

/// What is shown of a value of JSON is a line of it, as its text without spaces is: where the texts in it are UTF-8, its
/// numbers whole and of 64 bits, and its members in the order of their names.
pub fn shown_values_have_lines()
    ensures { ShownHaveLines }
{}

/// The object of a case's line is read as its six values.
pub fn cases_are_read_back()
    ensures { CasesAreReadBack }
{}
