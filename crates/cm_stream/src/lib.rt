//! Good streams of Cucumber Messages, the first fault of a stream, and the laws of both.
//!
//! The crate gives definitions, and no judge: good lists of envelopes (`specs/Good`), the checks of each line in order
//! (`specs/Checks`), what is reported of a stream's bytes (`specs/Stream`), why a stream isn't judged (`specs/Unsupported`),
//! which good runs are released (`specs/Release`) and what they say (`specs/ReleasedRuns`), and a stream's results
//! (`specs/Results`). What they say of a source's text
//! is said by the grammar; `specs/ByOnePass` has the same where texts are read in one pass, for proofs and private functions.
//! Each public function but `kept_status` is a law: its contract says the law, and it does nothing. `kept_status` gives the status
//! that a record of attempts keeps of a line's. The types are what an audit answers.
//!
//! A judge's contract cites the definitions:
//!
//! ```text
//! ghost use Rattle.cm_stream.specs.Stream.{FirstFault, IsFirstFault, answer_for, answer_of_audit};
//!
//! /// Audits the stream of these bytes.
//! pub fn audit(bytes: &[u8], settings: Settings) -> Result<Audited, Trouble>
//!     ensures { (first : FirstFault) × IsFirstFault settings bytes.now first
//!         × (answered result ≡ answer_for first) }
//! ```
//!
//! By the law `answers_are_right` its answer is then right: it is `Good`, with the counts of the stream and with what its run
//! says of success, exactly for good streams, and where it is `Bad` at a line no good stream has the lines up to that one.
#![tactic(auto)]

mod laws;

pub use laws::{
    Audited, Conditions, Counts, Hold, Reason, ReleaseCounts, StreamFault, Verdict,
    answers_are_right, call_faults_are_told, each_stream_has_one_first_fault,
    each_text_has_one_reading, faults_are_exact, found_is_not_good, fronts_are_well_ordered,
    good_is_no_fault, good_streams_have_no_fault, kept_status, lines_are_refused_for_faults,
    no_fault_is_good, none_begins_so, nothing_is_passed_over, reasons_are_shown,
    references_are_declared, released_cases_meet_conditions, released_exactly,
    released_is_not_held, released_scenarios_ran, results_faults_are_first,
    results_troubles_are_last, results_without_fault_are_exact, streams_without_fault_are_good,
    table_steps, tables_agree, tables_change, tables_have_results, well_ordered_are_accepted,
};
