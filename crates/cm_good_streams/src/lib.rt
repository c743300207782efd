//! Good streams exist: three of them, as lists of envelopes and as lines of JSON. Two of these are
//! released, and one is held.
//!
//! Each public function is a law: its contract says the law, and it does nothing.
//!
//! ```
//! ghost use Rattle.cm_good_streams.specs.Laws.{RetriedAreGood};
//!
//! use cm_good_streams::some_streams_are_good;
//!
//! /// A stream may be good though one of its attempts failed.
//! pub fn failures_may_be_retried()
//!     ensures { RetriedAreGood }
//! {
//!     some_streams_are_good()
//! }
//! ```
#![tactic(auto)]

mod laws;

pub use laws::{some_bytes_are_good, some_streams_are_good, some_streams_are_released};
