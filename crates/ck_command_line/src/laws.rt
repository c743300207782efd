//! What the words after the program's name ask for, on the definition of the command line.
ghost use Rattle.std.specs.List.{AllByRecursion};
ghost use Rattle.ck_command_line.specs.Asked.{ExamplesAreAsked, FeaturesAreAsked, FeaturesAreNamed};
ghost use Rattle.ck_command_line.specs.Asked.{GateAsksForGates, NothingIsAsked};
ghost use Rattle.ck_command_line.specs.Asked.{OnlyGateAsksForGates, RefusesFiles};
ghost use Rattle.ck_command_line.specs.Asked.{RefusesOtherOptions, RunsAreNamed, RunsAreWhole};
ghost use Rattle.ck_command_line.specs.Asked.{TakesItsOptions};
ghost use Rattle.ck_command_line.specs.Asked.{named_options, named_options_over_input, usages};

/// Which words ask for which command, and which for none.
pub fn words_ask_for_their_command()
    // A command takes any list of its own options, in any order and none twice but for `--features` and
    // `--allow-unrun-tagged`, and `gate` takes runs among them.
    ensures options { AllByRecursion TakesItsOptions usages }
    ensures runs { RunsAreNamed }
    // `gate` asks for gates, and no other word does.
    ensures gates { GateAsksForGates }
    ensures only_gate { OnlyGateAsksForGates }
    // With feature files each run is a part, and without them none is.
    ensures features_named { FeaturesAreNamed }
    ensures whole { RunsAreWhole }
    // The other commands refuse the name of a file, and each refuses an option that it hasn't.
    ensures files { AllByRecursion RefusesFiles named_options_over_input }
    ensures other_options { AllByRecursion RefusesOtherOptions named_options }
    ensures features { FeaturesAreAsked }
    ensures nothing { NothingIsAsked }
    ensures examples { ExamplesAreAsked }
{}
