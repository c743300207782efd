//! Streams of Cucumber Messages: the devices that they are read from and written to, their lines, and the envelopes that
//! lines may have.
//!
//! ```
//! use cm_envelope::{ByteSource, Feed, Trouble, is_blank_line};
//! use std::alloc::Global;
//!
//! fn begins_blank<S: ByteSource>(alloc: Global, source: &mut S) -> Result<bool, Trouble> {
//!     let mut feed = Feed::new(alloc);
//!     match feed.next_line(source)? {
//!         Some(line) => Ok(is_blank_line(line)),
//!         None => Ok(false),
//!     }
//! }
//! ```
//!
//! `Reader` and `Writer` make a device of a reader and a writer of std, `Feed` cuts the bytes into lines within limits,
//! `is_blank_line` finds the lines that have no envelope, and `write_all` writes. `Heard` and
//! `Taken` are what a device of your own remembers for the clauses, `Reads` what one over a reader does. The envelope of a line is
//! defined here, and read by `cm_reading`; `Kind` and the parts of trees and pickles are what it is read by.
#![tactic(auto)]

mod device;
mod envelope;
mod fault;
mod feed;
mod kind;
mod node_id;
mod parts;
mod pickle;
mod record;
mod window;

pub use device::{
    ByteSink, ByteSource, DeviceFailed, PIECE_LIMIT, Reader, Reads, Writer, write_all,
};
pub use envelope::{
    Attachment, Envelope, GherkinDocument, Hook, ParseError, Source, SourceReference, Status,
    StepDefinition, TestCase, TestCaseFinished, TestCaseStarted, TestRunFinished,
    TestRunHookFinished, TestRunHookStarted, TestRunStarted, TestStep, TestStepFinished,
    TestStepResult, TestStepStarted,
};
pub use fault::{EnvelopeFault, LineFault};
pub use feed::{Feed, LINE_LIMIT, STREAM_LIMIT, Trouble, is_blank_line};
pub use kind::Kind;
pub use node_id::{NodeId, id_of};
pub use parts::{
    Body, DataTable, FeatureBody, FeatureHeading, Heading, Mark, PickleLists, PickleTexts,
    TaggedHeading, Title,
};
pub use pickle::{
    Pickle, PickleArgument, PickleCell, PickleDocString, PickleRow, PickleStep, PickleTable,
    PickleTag, StepKind,
};
pub use record::{Heard, Taken};
