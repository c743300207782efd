//! Laws of the definitions.
ghost use Rattle.cm_reasons.specs.Laws.{NoHookCauses, NoneRefused, OneRefusedList, UndefinedStepsAreTold};

/// Some step is told as undefined exactly where one is counted.
pub fn undefined_steps_are_told()
    ensures { UndefinedStepsAreTold }
{}

/// Sources have one list of lines of those that are refused, which is empty exactly where none is.
pub fn refused_lines_are_determined()
    ensures one { OneRefusedList }
    ensures none { NoneRefused }
{}

/// No run hook is a cause exactly where none ended with a status that isn't good.
pub fn hook_causes_are_of_bad_hooks()
    ensures { NoHookCauses }
{}
