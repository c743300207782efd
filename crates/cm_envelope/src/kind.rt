//! The judged kinds of envelope, and the names of their members.

/// The judged kinds of envelope.
#[derive(Clone, Copy)]
pub enum Kind {
    Source,
    GherkinDocument,
    ParseError,
    Pickle,
    StepDefinition,
    Hook,
    TestCase,
    TestRunStarted,
    TestCaseStarted,
    TestStepStarted,
    TestStepFinished,
    TestCaseFinished,
    TestRunFinished,
    Attachment,
    TestRunHookStarted,
    TestRunHookFinished,
}

impl Kind {
    ghost use Rattle.std.specs.Prelude.{◌≡◌};
    ghost use Rattle.cm_envelope.specs.Reading.{kind_name, kind_named};

    /// The kind whose member in an envelope has this name.
    pub fn named(name: &str) -> Option<Kind>
        ensures { result ≡ kind_named name.now }
    {
        match name {
            "source" => Some(Kind::Source),
            "gherkinDocument" => Some(Kind::GherkinDocument),
            "parseError" => Some(Kind::ParseError),
            "pickle" => Some(Kind::Pickle),
            "stepDefinition" => Some(Kind::StepDefinition),
            "hook" => Some(Kind::Hook),
            "testCase" => Some(Kind::TestCase),
            "testRunStarted" => Some(Kind::TestRunStarted),
            "testCaseStarted" => Some(Kind::TestCaseStarted),
            "testStepStarted" => Some(Kind::TestStepStarted),
            "testStepFinished" => Some(Kind::TestStepFinished),
            "testCaseFinished" => Some(Kind::TestCaseFinished),
            "testRunFinished" => Some(Kind::TestRunFinished),
            "attachment" => Some(Kind::Attachment),
            "testRunHookStarted" => Some(Kind::TestRunHookStarted),
            "testRunHookFinished" => Some(Kind::TestRunHookFinished),
            _ => None,
        }
    }

    /// The name of the kind's member in an envelope.
    pub fn name(self) -> &'static str
        ensures { result.now ≡ kind_name self }
    {
        match self {
            Kind::Source => "source",
            Kind::GherkinDocument => "gherkinDocument",
            Kind::ParseError => "parseError",
            Kind::Pickle => "pickle",
            Kind::StepDefinition => "stepDefinition",
            Kind::Hook => "hook",
            Kind::TestCase => "testCase",
            Kind::TestRunStarted => "testRunStarted",
            Kind::TestCaseStarted => "testCaseStarted",
            Kind::TestStepStarted => "testStepStarted",
            Kind::TestStepFinished => "testStepFinished",
            Kind::TestCaseFinished => "testCaseFinished",
            Kind::TestRunFinished => "testRunFinished",
            Kind::Attachment => "attachment",
            Kind::TestRunHookStarted => "testRunHookStarted",
            Kind::TestRunHookFinished => "testRunHookFinished",
        }
    }
}
