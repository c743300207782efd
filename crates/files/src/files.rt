//! Files by their names, and what stands under a path.
ghost use Rattle.std.specs.Prelude.{◌≡◌, List, IfOk, string_bytes, [], None};
ghost use Rattle.files.specs.Looks.{PathLook, NotesLook};
ghost use Rattle.files.specs.Openings.{IsFresh, NotesClosing, NotesOpening, Opening, trouble_in};
ghost use Rattle.cm_envelope.specs.Reads.{input_with};
ghost use Rattle.files.specs.Kept.{looks_of, openings_of};

use cm_envelope::{ByteSource, DeviceFailed, Reads};
use std::alloc::{Alloc, AllocError, Global};
use std::fs::{DirEntry, File};
use std::io::Read;
use std::path::Path;
use std::snapshot::Snapshot;
use std::{fs, io, rt};
use thiserror::Error;

/// Why a file isn't opened.
#[derive(Clone, Copy, PartialEq, Eq, Debug, Drop, Error)]
pub enum FileTrouble {
    /// There is none of that name, or it may not be read.
    #[error("the file can't be opened")]
    ReadFailed,
    /// There is no memory for its name.
    #[error("there is no memory")]
    Memory,
}

/// A file that is open, with the name by which it was opened.
#[derive(Drop)]
pub struct OpenFile<S> {
    pub name: String,
    /// What its bytes are read from.
    pub source: S,
}

/// The files that a program may read. Contracts see what was opened and looked at so far, in order.
pub trait Files {
    /// What the bytes of a file are read from.
    type Source: ByteSource + Drop;

    /// What was opened so far.
    ghost openings: { Self → List Opening };

    /// What was looked at so far.
    ghost looks: { Self → List PathLook };

    /// Opens the file of this name, of which nothing was read yet.
    ///
    /// # Errors
    /// Where it can't be opened to be read, or there is no memory for its name.
    fn open(&mut self, name: &str) -> Result<OpenFile<Self::Source>, FileTrouble>
        ensures name { IfOk result (λ f. string_bytes f.name ≡ name.now) }
        ensures fresh { IfOk result (λ f. IsFresh (Self.Source.input f.source)) }
        ensures noted { NotesOpening (openings self.old) (openings self.new) name.now
            (trouble_in result) }
        ensures looks { looks self.new ≡ looks self.old };

    /// Closes a file.
    ///
    /// # Errors
    /// Only where there is no memory to note it. It is closed all the same.
    fn close(&mut self, file: OpenFile<Self::Source>) -> Result<(), AllocError>
        ensures noted { NotesClosing (openings self.old) (openings self.new)
            (string_bytes file.name) (Self.Source.input file.source) result }
        ensures looks { looks self.new ≡ looks self.old };

    /// What stands under a path.
    ///
    /// # Errors
    /// Only where there is no memory.
    fn look(&mut self, path: &str) -> Result<Look, AllocError>
        ensures noted { NotesLook (looks self.old) (looks self.new) path.now result }
        ensures openings { openings self.new ≡ openings self.old };
}

/// What stands under a name in a folder.
#[derive(Clone, Copy, PartialEq, Eq, Debug)]
pub enum EntryKind {
    /// A file, a link to one, or whatever else is no folder.
    File,
    Folder,
    /// A link to a folder.
    LinkedFolder,
    /// A link that leads nowhere, or something of which it isn't known what it is.
    Unknown,
}

/// A name in a folder, and what stands under it.
#[derive(Drop)]
pub struct Entry {
    pub name: String,
    pub kind: EntryKind,
}

/// What stands under a path. A link stands for what it leads to.
#[derive(Drop)]
pub enum Look {
    /// A file, or whatever else is no folder.
    File,
    /// A folder, with all that is in it.
    Folder(Vec<Entry>),
    /// A folder in which a name isn't UTF-8.
    NotUtf8,
    /// Nothing, or a folder that can't be listed.
    Unreadable,
}

/// A folder of a system.
fn list<R: rt::Files + Alloc + Clone + Drop>(
    alloc: Global,
    system: &R,
    path: &str,
) -> Result<Look, AllocError> {
    let Ok(listing) = fs::read_dir(system, path) else {
        return Ok(Look::Unreadable);
    };
    let mut entries = Vec::new(alloc);
    for entry in listing {
        match entry {
            Ok(entry) => entries.push(Entry {
                name: String::from_str(alloc, entry.file_name())?,
                kind: entry_kind(system, &entry),
            })?,
            Err(error) => return unlisted(error),
        }
    }
    Ok(Look::Folder(entries))
}

/// What a folder is whose listing fails at an entry.
fn unlisted(error: io::Error) -> Result<Look, AllocError> {
    match error.kind() {
        io::ErrorKind::OutOfMemory => Err(AllocError),
        io::ErrorKind::InvalidFilename => Ok(Look::NotUtf8),
        _ => Ok(Look::Unreadable),
    }
}

/// What an entry of a folder is. Of a link the system is asked what it leads to.
fn entry_kind<R: rt::Files + Alloc>(system: &R, entry: &DirEntry<R, R::A>) -> EntryKind {
    match entry.file_type() {
        Ok(found) if found.is_dir() => EntryKind::Folder,
        Ok(found) if found.is_symlink() => linked_kind(system, entry.path()),
        Ok(_) => EntryKind::File,
        Err(_) => EntryKind::Unknown,
    }
}

/// What the target of a link is.
fn linked_kind<R: rt::Files>(system: &R, path: Path<'_>) -> EntryKind {
    match fs::metadata(system, path) {
        Ok(found) if found.is_dir() => EntryKind::LinkedFolder,
        Ok(_) => EntryKind::File,
        Err(_) => EntryKind::Unknown,
    }
}

/// The bytes of a file. Each error of a read is a failed call; no read is repeated.
#[derive(Drop)]
pub struct FileSource<F> {
    inner: F,
    reads: Reads,
}

impl<F: Read> FileSource<F> {
    /// Those of a file of which nothing was read yet.
    fn new(inner: F) -> FileSource<F>
        ensures { IsFresh (⟦<FileSource<F> as ByteSource>⟧.input result) }
    {
        FileSource {
            inner,
            reads: Reads::new(),
        }
    }
}

impl<F: Read> ByteSource for FileSource<F> {
    ghost input = { λ f. input_with None f.reads };

    fn read_some(&mut self, piece: &mut [u8]) -> Result<usize, DeviceFailed> {
        self.reads.read(&mut self.inner, piece)
    }
}

/// An opening of a file, and what was read of it where it could be opened.
#[derive(Drop)]
pub(crate) struct Opened {
    pub(crate) name: String,
    pub(crate) reads: Option<Reads>,
}

/// A path that was looked at. What stood there is for clauses alone: it takes no memory.
#[derive(Drop)]
pub(crate) struct LookedAt {
    pub(crate) path: String,
    pub(crate) look: Snapshot<Look>,
}

/// The files of an opener, with what was opened and looked at so far.
#[derive(Drop)]
pub struct OpenedFiles<O> {
    opener: O,
    opened: Vec<Opened>,
    looked: Vec<LookedAt>,
    alloc: Global,
}

impl<O: Opener> OpenedFiles<O> {
    /// Those of this one, of which none was opened or looked at yet. It takes no memory.
    pub fn new(alloc: Global, opener: O) -> OpenedFiles<O>
        ensures unopened { ⟦<OpenedFiles<O> as Files>⟧.openings result ≡ [] }
        ensures unseen { ⟦<OpenedFiles<O> as Files>⟧.looks result ≡ [] }
    {
        OpenedFiles {
            opener,
            opened: Vec::new(alloc),
            looked: Vec::new(alloc),
            alloc,
        }
    }
}

impl<O: Opener> Files for OpenedFiles<O> {
    type Source = FileSource<O::File>;

    ghost openings = { λ f. openings_of f.opened.items };

    ghost looks = { λ f. looks_of f.looked.items };

    fn open(&mut self, name: &str) -> Result<OpenFile<FileSource<O::File>>, FileTrouble>
        ensures name { IfOk result (λ f. string_bytes f.name ≡ name.now) }
        ensures fresh { IfOk result
            (λ f. IsFresh (⟦<FileSource<O::File> as ByteSource>⟧.input f.source)) }
        ensures noted { NotesOpening (openings_of self.old.opened.items)
            (openings_of self.new.opened.items) name.now (trouble_in result) }
        ensures looks { looks_of self.new.looked.items ≡ looks_of self.old.looked.items }
    {
        let Ok(owned) = String::from_str(self.alloc, name) else {
            return Err(FileTrouble::Memory);
        };
        if let Some(file) = self.opener.open_file(name) {
            return Ok(OpenFile {
                name: owned,
                source: FileSource::new(file),
            });
        }
        match self.opened.push(Opened {
            name: owned,
            reads: None,
        }) {
            Ok(()) => Err(FileTrouble::ReadFailed),
            Err(_) => Err(FileTrouble::Memory),
        }
    }

    fn close(&mut self, file: OpenFile<FileSource<O::File>>) -> Result<(), AllocError>
        ensures noted { NotesClosing (openings_of self.old.opened.items)
            (openings_of self.new.opened.items) (string_bytes file.name)
            (⟦<FileSource<O::File> as ByteSource>⟧.input file.source) result }
        ensures looks { looks_of self.new.looked.items ≡ looks_of self.old.looked.items }
    {
        let OpenFile { name, source } = file;
        let FileSource { inner, reads } = source;
        drop(inner);
        let reads = Some(reads);
        Ok(self.opened.push(Opened { name, reads })?)
    }

    fn look(&mut self, path: &str) -> Result<Look, AllocError>
        ensures noted { NotesLook (looks_of self.old.looked.items) (looks_of self.new.looked.items)
            path.now result }
        ensures openings { openings_of self.new.opened.items ≡ openings_of self.old.opened.items }
    {
        let path = String::from_str(self.alloc, path)?;
        let found = self.opener.look_at(self.alloc, path.as_str())?;
        let look = Snapshot::of(&found);
        self.looked.push(LookedAt { path, look })?;
        Ok(found)
    }
}

/// Opens files by their names.
pub trait Opener {
    type File: io::Read + Drop;

    /// The file of this name, and None where it can't be opened to be read.
    fn open_file(&self, name: &str) -> Option<Self::File>;

    /// What stands under a path. An opener that leaves this out shows nothing.
    ///
    /// # Errors
    /// Only where there is no memory.
    fn look_at(&self, _alloc: Global, _path: &str) -> Result<Look, AllocError> {
        Ok(Look::Unreadable)
    }
}

/// Opens the files of a system.
#[derive(Drop)]
pub struct SystemOpener<R> {
    system: R,
}

impl<R: rt::Files> SystemOpener<R> {
    /// Opens those of this one.
    pub fn new(system: R) -> SystemOpener<R> {
        SystemOpener { system }
    }
}

impl<R: rt::Files + Alloc + Clone + Drop> Opener for SystemOpener<R> {
    type File = R::File;

    fn open_file(&self, name: &str) -> Option<R::File> {
        File::open(&self.system, name).ok()
    }

    fn look_at(&self, alloc: Global, path: &str) -> Result<Look, AllocError> {
        match fs::metadata(&self.system, path) {
            Ok(found) if found.is_dir() => list(alloc, &self.system, path),
            Ok(_) => Ok(Look::File),
            Err(_) => Ok(Look::Unreadable),
        }
    }
}

/// Opens no file.
#[derive(Clone, Copy, Drop)]
pub struct NoOpener;

impl Opener for NoOpener {
    type File = io::Empty;

    fn open_file(&self, _name: &str) -> Option<io::Empty> {
        None
    }
}
