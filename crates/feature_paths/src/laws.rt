//! Laws of the definitions. Each function's contract says a law, and it does nothing.
ghost use Rattle.feature_paths.specs.Laws.{EachIsThereOnce, FirstFaultIsFirst, NoFaultIsPassedOver};

/// The first fault is one of the faults, and none has a path before its path.
pub fn the_first_fault_is_first()
    ensures { FirstFaultIsFirst }
{}

/// Where nothing is told to be wrong below a path, there is no fault, and there is a file.
pub fn no_fault_is_passed_over()
    ensures { NoFaultIsPassedOver }
{}

/// Each text is there once, and no other is there.
pub fn each_text_is_there_once()
    ensures { EachIsThereOnce }
{}
