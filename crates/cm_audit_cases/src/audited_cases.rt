//! The audit of a stream, with what its cases say.
ghost use Rattle.std.specs.Prelude.{◌≡◌, false};
ghost use Rattle.cm_envelope.specs.Device.{CountsFailure, OfReads};
ghost use Rattle.cm_audit.specs.Audit.{GoodAtEnd};
ghost use Rattle.cm_envelope.specs.Feeds.{is_failed_read};
ghost use Rattle.cm_audit_cases.specs.CasesAudit.{IsCasesAuditOf, audited_in, with_cases};
ghost use Rattle.cm_cases.specs.Listed.{listing_of};

use cm_attempt::{Settings, Track};
use cm_audit::{Watch, WatchedAudit, audit_watched};
use cm_cases::Listing;
use cm_envelope::{ByteSource, Envelope, Trouble};
use cm_stream::Audited;
use std::alloc::{AllocError, Global};
use std::hash::RandomState;

/// An audit; and of a good stream, what the lines of its cases name, and the record of their attempts.
#[derive(Drop)]
pub struct AuditedCases {
    /// What `audit_run` answers.
    pub audited: Audited,
    pub listing: Listing,
    pub attempts: Track,
}

/// The audit with its listing and its attempts, where the stream was read.
fn with_cases(watched: Result<WatchedAudit<CaseWatch>, Trouble>) -> Result<AuditedCases, Trouble>
    ensures { result ≡ with_cases watched }
{
    match watched {
        Ok(watched) => {
            let WatchedAudit {
                audited,
                watch,
                last,
                state,
            } = watched;
            drop(last);
            Ok(AuditedCases {
                audited,
                listing: watch.listing,
                attempts: state.into_track(),
            })
        }
        Err(trouble) => Err(trouble),
    }
}

/// Audits a stream by the settings, as `audit_run` does, and keeps what its cases say. Of a stream that isn't good the
/// listing and the attempts say nothing.
///
/// # Errors
/// As those of `audit_run`.
pub fn audit_cases<R: ByteSource>(
    alloc: Global,
    seed: RandomState,
    source: &mut R,
    settings: Settings,
) -> Result<AuditedCases, Trouble>
    // The audit, and for Good the listing of the stream's envelopes and the results of its cases, all of the same bytes.
    ensures same_bytes { OfReads (R.input source.old) (R.input source.new)
        (IsCasesAuditOf settings result) }
    ensures at_end { GoodAtEnd (R.input source.new) (audited_in result) }
    ensures failures { CountsFailure (is_failed_read result) (R.input source.old).failed_calls
        (R.input source.new).failed_calls }
{
    let watch = CaseWatch {
        listing: Listing::new(alloc),
    };
    with_cases(audit_watched(alloc, seed, source, settings, watch))
}

/// The listing of the envelopes so far.
#[derive(Drop)]
pub(crate) struct CaseWatch {
    pub(crate) listing: Listing,
}

impl Watch for CaseWatch {
    ghost follows = { λ watch es. watch.listing ≡ listing_of es };

    ghost rereads = { false };

    fn note(&mut self, alloc: Global, envelope: &Envelope) -> Result<(), AllocError> {
        self.listing.note(alloc, envelope)
    }

    fn wants_last(&self) -> bool {
        false
    }
}
