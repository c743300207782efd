//! The lines of test cases with an attempt that isn't finished.
ghost use Rattle.std.specs.Prelude.{◌≡◌, List, OnOk, string_bytes, ◌++◌, codes};
ghost use Rattle.cm_envelope.specs.declared.envelope.Envelope.{Envelope as SomeEnvelope};
ghost use Rattle.cm_reasons.specs.Trail.{trail_of};
ghost use Rattle.cm_fault_reasons.specs.RunLines.{open_case_lines};
ghost use Rattle.cm_cases.specs.Listed.{listing_of};
ghost use Rattle.cm_cases.specs.Places.{case_scenario};

use cm_cases::Places;
use cm_reasons::{AddLine, Trail, add_limited};
use std::alloc::{AllocError, Global};
use std::hash::RandomState;

/// Lines of test cases with an open attempt.
#[derive(Drop)]
struct OpenCaseLines<'a, 'p> {
    places: &'a Places<'p>,
}

impl<'a, 'b, 'p> AddLine<&'b str> for OpenCaseLines<'a, 'p> {
    ghost of = { λ s es. s.places.now ≡ listing_of es };

    ghost line = { λ s es id. codes "case" ++ case_scenario es id.now };

    fn add(&self, text: &mut String, item: &&'b str) -> Result<(), AllocError> {
        text.push_str("case")?;
        self.places.add_case_scenario(text, item)
    }
}

/// Adds a line for each test case with an attempt that isn't finished, a hundred at most.
///
/// # Errors
/// Only where there is no memory for them.
pub(crate) fn add_open_cases(
    alloc: Global,
    seed: RandomState,
    text: &mut String,
    trail: &Trail,
) -> Result<(), AllocError>
    ensures { OnOk result ((es : List SomeEnvelope) → trail.now ≡ trail_of es
        → string_bytes text.new ≡ string_bytes text.old ++ open_case_lines es) }
{
    let cases = trail.steps().open_cases(alloc, seed)?;
    let places = trail.places(alloc, seed)?;
    let lines = OpenCaseLines { places: &places };
    add_limited(text, &lines, cases.as_slice())
}
