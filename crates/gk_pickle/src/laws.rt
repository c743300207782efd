//! What the definitions come to.
ghost use Rattle.gk_pickle.specs.Alike.{RowsCompileAlike};
ghost use Rattle.gk_pickle.specs.Characters.{FillsCharacters};
ghost use Rattle.gk_pickle.specs.Counts.{OneWithoutExamples, OneForEachRow, RowsInOrder};
ghost use Rattle.gk_pickle.specs.Cut.{ReplacedIsJoined, JoinedIsReplaced};
ghost use Rattle.gk_pickle.specs.Order.{StepsInDocumentOrder};
ghost use Rattle.gk_pickle.specs.Scenarios.{PicklesScenarioByScenario};

/// Replacing cuts a text at the leftmost occurrences of a pattern that don't overlap, and joins the parts by the cell.
pub fn replacing_law()
    ensures cut { ReplacedIsJoined }
    ensures each { JoinedIsReplaced }
{}

/// Filling the bytes of a text fills its characters.
pub fn characters_law()
    ensures { FillsCharacters }
{}

/// A scenario without examples blocks gives one pickle, any other one for each body row, in order.
pub fn counting_law()
    ensures one { OneWithoutExamples }
    ensures each_row { OneForEachRow }
    ensures in_order { RowsInOrder }
{}

/// The steps of each pickle are steps of the document, in its order.
pub fn order_law()
    ensures { StepsInDocumentOrder }
{}

/// A scenario that has no placeholder of the header compiles alike for each row.
pub fn alike_law()
    ensures { RowsCompileAlike }
{}

/// The pickles of a document are those of one scenario after another.
pub fn scenarios_law()
    ensures { PicklesScenarioByScenario }
{}
