//! The files of a program, which remember what they gave.
//!
//! ```
//! use files::Files;
//!
//! /// Whether there is a file of this name that may be read.
//! fn is_there<F: Files>(files: &mut F, name: &str) -> bool {
//!     match files.open(name) {
//!         Ok(file) => files.close(file).is_ok(),
//!         Err(_) => false,
//!     }
//! }
//! ```
//!
//! `OpenedFiles` are files over an `Opener`: `SystemOpener` opens those of the system, `NoOpener` none. Contracts see each opening,
//! with the bytes that were read of the file until it was closed (`specs/Openings`), and each look at a path, with what stood there
//! (`specs/Looks`).
#![tactic(auto)]

mod files;

pub use files::{
    Entry, EntryKind, FileSource, FileTrouble, Files, Look, NoOpener, OpenFile, OpenedFiles,
    Opener, SystemOpener,
};
