//! The texts by which what a tally keeps is found.

use crate::tally::{CaseEntry, PickleEntry, StartEntry};
use cm_cases::{CaseId, CasePickle, Key, PickleId};

impl Key<PickleEntry> for PickleId {
    ghost text = { λ p. p.id };

    fn of(item: &PickleEntry) -> &str {
        item.id.as_str()
    }
}

impl Key<CaseEntry> for CaseId {
    ghost text = { λ c. c.id };

    fn of(item: &CaseEntry) -> &str {
        item.id.as_str()
    }
}

impl Key<CaseEntry> for CasePickle {
    ghost text = { λ c. c.pickle_id };

    fn of(item: &CaseEntry) -> &str {
        item.pickle_id.as_str()
    }
}

/// The id of an attempt.
pub(crate) struct StartId;

impl Key<StartEntry> for StartId {
    ghost text = { λ s. s.id };

    fn of(item: &StartEntry) -> &str {
        item.id.as_str()
    }
}
