//! Statuses of steps, which of them are good, and the settings of an audit.
ghost use Rattle.std.specs.Prelude.{◌≡◌, ◌<◌, ◌≤◌, [], All, Contains, Some, length};
ghost use Rattle.cm_attempt.specs.Worst.{rank, with_status, worst_of, worst_so_far};
ghost use Rattle.cm_attempt.specs.Table.{is_good_status};
ghost use Rattle.cm_attempt.specs.Settings.{settings_of};

/// How a step ended, as the Messages' `testStepResult.status` has it, in the order of badness.
#[derive(Clone, Copy, Debug, PartialEq, Eq)]
pub enum Status {
    Unknown,
    Passed,
    Skipped,
    Pending,
    Undefined,
    Ambiguous,
    Failed,
}

/// The later of the two in the order of the statuses.
fn later(a: Status, b: Status) -> Status
    ensures { Some result ≡ with_status (Some a) b }
{
    if (a as u8) < (b as u8) { b } else { a }
}

/// The worst status so far, after one more.
pub fn worst_with(so_far: Option<Status>, next: Status) -> Status
    ensures { Some result ≡ with_status so_far next }
{
    match so_far {
        Some(status) => later(status, next),
        None => next,
    }
}

/// The worst so far of a list, and none while the list is empty.
fn worst_so_far(statuses: &[Status]) -> Option<Status>
    ensures { result ≡ worst_so_far statuses.now }
{
    let mut so_far = None;
    for status in statuses {
        so_far = Some(worst_with(so_far, *status));
    }
    so_far
}

/// The status that comes last in the order of the statuses, and `Passed` of none.
pub fn worst(statuses: &[Status]) -> Status
    ensures value { result ≡ worst_of statuses.now }
    ensures none { statuses.now ≡ [] → result ≡ Status.Passed }
    ensures member { 0 < length statuses.now → Contains statuses.now result }
    ensures bound { All (λ status. rank status ≤ rank result) statuses.now }
{
    worst_so_far(statuses).unwrap_or(Status::Passed)
}

/// Which statuses an attempt or a run hook may have where all is well: `Passed` and `Skipped`, and by the second policy
/// `Pending` too.
#[derive(Clone, Copy, Debug, PartialEq, Eq)]
pub enum Policy {
    Strict,
    PendingPasses,
}

impl Policy {
    /// Whether the status is good by the policy.
    pub fn is_good(self, status: Status) -> bool
        ensures { result ≡ is_good_status self status }
    {
        match status {
            Status::Passed | Status::Skipped => true,
            Status::Pending => self == Policy::PendingPasses,
            _ => false,
        }
    }
}

/// By what a stream is judged: which statuses are good, the number of each test case's first attempt, which is 0 by the schema
/// of the Messages, and whether hooks and step definitions may be declared again, by the id that they have.
#[derive(Clone, Copy, Drop)]
pub struct Settings {
    pub policy: Policy,
    pub first_attempt: u64,
    pub allows_redeclared: bool,
}

impl From<Policy> for Settings {
    ghost from_gives = { λ policy settings. settings ≡ settings_of policy };

    /// The policy, attempts counted from 0, and nothing declared again.
    fn from(policy: Policy) -> Settings {
        Settings {
            policy,
            first_attempt: 0,
            allows_redeclared: false,
        }
    }
}
