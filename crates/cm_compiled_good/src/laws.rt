//! Compiling and judging agree.
ghost use Rattle.cm_compiled_good.specs.Law.{CompiledAreGood};

/// The bytes that a text compiles to, with the lines of a run that does nothing after them, are a good stream.
pub fn compiled_streams_are_good()
    ensures { CompiledAreGood }
{}
