//! What holds of every text and its document, whatever reads it.
ghost use Rattle.gk_grammar.specs.Laws.{OneDocument, DocumentOrFault, NoDocumentWithFault, OneFault, NumberedInOrder, NoMoreNodesThanBytes};

/// A text has one document at most.
pub fn one_document()
    ensures { OneDocument }
{}

/// A text has a document, or a fault.
pub fn document_or_fault()
    ensures { DocumentOrFault }
{}

/// A text that has a document has no fault.
pub fn no_document_with_fault()
    ensures { NoDocumentWithFault }
{}

/// A text has one fault at most: one kind, at one line and column.
pub fn one_fault()
    ensures { OneFault }
{}

/// In the order of the tree the nodes of a document have the numbers 0, 1, ..
pub fn nodes_are_numbered_in_order()
    ensures { NumberedInOrder }
{}

/// A document has as many nodes as its text has bytes, at most.
pub fn no_more_nodes_than_bytes()
    ensures { NoMoreNodesThanBytes }
{}
