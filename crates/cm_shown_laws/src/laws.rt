//! Laws of what is shown: of texts, of where scenarios stand, of what is expected and what is found.
ghost use Rattle.cm_shown_laws.specs.Differences.{AcceptedArePlain, CompiledArePlain, PicklesAreToldApart, ReadArePlain, TreesAreToldApart};
ghost use Rattle.cm_shown_laws.specs.Differences.{UnlikePartsAreShownUnlike, UnlikePicklesAreShownUnlike, UnlikeValuesAreShownUnlike};
ghost use Rattle.cm_shown_laws.specs.Scenarios.{ScenariosAreFound};
ghost use Rattle.cm_shown_laws.specs.Texts.{ShownJsonIsPlain, ShownTextsArePlain, UnlikeTextsAreShownUnlike};

/// Values of JSON that are shown alike are the same value.
pub fn unlike_values_are_shown_unlike()
    ensures { UnlikeValuesAreShownUnlike }
{}

/// Parts of documents that are shown alike are the same part, without the parts inside it.
pub fn unlike_parts_are_shown_unlike()
    ensures { UnlikePartsAreShownUnlike }
{}

/// Pickles that are shown alike are the same pickle, but for its id and those of its steps.
pub fn unlike_pickles_are_shown_unlike()
    ensures { UnlikePicklesAreShownUnlike }
{}

/// What is read is plain, so these laws hold of it: each part of a document that a line is read as, and each pickle; each part of
/// the document of a text within the limits, and each pickle that it compiles to.
pub fn what_is_read_is_plain()
    ensures lines { ReadArePlain }
    ensures documents { AcceptedArePlain }
    ensures pickles { CompiledArePlain }
{}

/// Where the document of a stream isn't the one that its source's text has, `gate` prints as expected another text than as found.
pub fn trees_are_told_apart()
    ensures { TreesAreToldApart }
{}

/// Where a pickle of a stream isn't the one that is due there, `gate` prints as expected another text than as found.
pub fn pickles_are_told_apart()
    ensures { PicklesAreToldApart }
{}

/// In a good stream each pickle is found at a place of the document of its uri: the scenario, or the row of examples, that its
/// last node is. Each test case has its pickle, so where its scenario is shown there stand a uri, a line and a name.
pub fn scenarios_are_found()
    ensures { ScenariosAreFound }
{}

/// No character of a shown text breaks, turns or hides a line: each control character, each separator and each turn of
/// direction has a letter or its number.
pub fn shown_texts_are_plain()
    ensures { ShownTextsArePlain }
{}

/// Nor does any character of JSON that is shown, and no white space in it looks like a space without being one.
pub fn shown_json_is_plain()
    ensures { ShownJsonIsPlain }
{}

/// Texts that are shown alike are the same text.
pub fn unlike_texts_are_shown_unlike()
    ensures { UnlikeTextsAreShownUnlike }
{}
