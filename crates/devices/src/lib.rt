//! Devices for tests: sources and sinks in memory, of which calls fail where a test says so.
//!
//! ```
//! use cm_envelope::{Feed, Trouble};
//! use devices::{Failing, Pieces};
//! use std::alloc::Global;
//!
//! fn trouble(alloc: Global) -> Option<Trouble> {
//!     let mut source = Pieces::new(b"ab\ncd\n", 3).failing_reads(Failing::Once(2));
//!     let mut feed = Feed::new(alloc);
//!     let first = feed.next_line(&mut source).is_ok();
//!     if first { feed.next_line(&mut source).err() } else { None }
//! }
//! ```
//!
//! `Pieces` and `Repeating` are sources, `Store` and `Compared` are sinks. No crate of the product uses them.
#![tactic(auto)]

mod compared;
mod failing;
mod pieces;
mod repeating;
mod store;

pub use compared::Compared;
pub use failing::{FailedWrite, Failing};
pub use pieces::Pieces;
pub use repeating::Repeating;
pub use store::Store;
