//! The feature files below some paths, in order, or what is wrong with a path.
ghost use Rattle.std.specs.Prelude.{◌≡◌, [], IfErr, IfOk, map, string_bytes, ◌∷◌, ◌++◌, OnOk, option_map};
ghost use Rattle.std.specs.Cmp.Lexicographic.{slice_cmp};
ghost use Rattle.std.specs.List.Sorted.{IsPermutation, IsSortedByKey};
ghost use Rattle.std.specs.Ordering.{nat_cmp};
ghost use Rattle.feature_paths.specs.FeaturePaths.{TellsFault, WalksFiles, FindsFiles, TellsTrouble};
ghost use Rattle.feature_paths.specs.Shown.{faulty, faults_shown, fault_in, file_in, files_shown, folder_in, folders_shown, first_fault};
ghost use Rattle.feature_paths.specs.Shown.{sooner};
ghost use Rattle.feature_paths.specs.Walking.{Sees};
ghost use Rattle.feature_paths.specs.FeaturePaths as all;
ghost use Rattle.std.specs.List.{flat_map};
ghost use Rattle.feature_paths.specs.Shown as shown;

use files::{Entry, EntryKind, Files, Look};
use indexmap::IndexSet;
use std::alloc::{AllocError, AllocFailed, Global};
use std::collections::VecDeque;
use std::hash::RandomState;
use thiserror::Error;

/// Looks at a path, and then at each folder that was shown, in that order.
fn walk<F: Files>(alloc: Global, files: &mut F, path: &str) -> Result<Found, AllocError>
    ensures seen { IfOk result (λ found. Sees path.now (F.looks files.old) (F.looks files.new)
        (map string_bytes found.files.items) (map faulty found.faults.items) []) }
    ensures openings { F.openings files.new ≡ F.openings files.old }
{
    let mut found = Found::at(alloc, path)?;
    'walk: for _ in 0..u64::MAX {
        let Some(folder) = found.folders.pop_front() else {
            return Ok(found);
        };
        let folder = folder.as_str();
        let look = files.look(folder)?;
        found.take_look(alloc, folder, &look)?;
    }
    Err(AllocError)
}

/// The paths in the order of their bytes.
fn in_order(mut paths: Vec<String>) -> Vec<String>
    ensures same { IsPermutation paths.items result.items }
    ensures in_order { IsSortedByKey string_bytes (slice_cmp nat_cmp) result.items }
{
    paths.sort_unstable();
    paths
}

/// The feature files of a path, in the order of their bytes.
fn files_under<F: Files>(
    alloc: Global,
    files: &mut F,
    path: &str,
) -> Result<Vec<String>, PathTrouble>
    ensures files { IfOk result (λ found. WalksFiles path.now (F.looks files.old)
        (F.looks files.new) (map string_bytes found.items)) }
    ensures trouble { IfErr result
        (TellsFault path.now (F.looks files.old) (F.looks files.new)) }
    ensures openings { F.openings files.new ≡ F.openings files.old }
{
    let Found {
        files: found,
        faults,
        folders: _,
    } = walk(alloc, files, path)?;
    if let Some(first) = first_of(faults) {
        return Err(PathTrouble::Faulty(first));
    }
    if found.is_empty() {
        return Err(PathTrouble::Faulty(FaultyPath {
            path: String::from_str(alloc, path)?,
            fault: Fault::NoFeatures,
        }));
    }
    Ok(in_order(found))
}

/// The texts as a set.
fn set_of(
    alloc: Global,
    seed: RandomState,
    texts: Vec<String>,
) -> Result<IndexSet<String, RandomState>, AllocError>
    ensures { IfOk result (λ set. map string_bytes set.keys
        ≡ all.each_once (map string_bytes texts.items)) }
{
    let mut set = IndexSet::with_hasher(alloc, seed);
    for text in texts {
        set.insert(text)?;
    }
    Ok(set)
}

/// The texts of a set, in their order.
fn list_of(alloc: Global, set: IndexSet<String, RandomState>) -> Result<Vec<String>, AllocError>
    ensures { IfOk result (λ texts. texts.items ≡ set.keys) }
{
    set.into_iter().collect(alloc)
}

/// The texts, each once, where it first stands.
fn each_once(
    alloc: Global,
    seed: RandomState,
    texts: Vec<String>,
) -> Result<Vec<String>, AllocError>
    ensures { IfOk result (λ once. map string_bytes once.items
        ≡ all.each_once (map string_bytes texts.items)) }
{
    list_of(alloc, set_of(alloc, seed, texts)?)
}

/// The feature files of the paths, each once: of one path after another, in the order of their bytes.
///
/// # Errors
/// Where something is wrong with a path, the first one: by the order of the paths, and below a path by the bytes. And where there
/// is no memory.
pub fn feature_paths<F: Files>(
    alloc: Global,
    seed: RandomState,
    files: &mut F,
    paths: &[&str],
) -> Result<Vec<String>, PathTrouble>
    ensures found { IfOk result (λ found. FindsFiles (map (λ path. path.now) paths.now)
        (F.looks files.old) (F.looks files.new) (map string_bytes found.items)) }
    ensures trouble { IfErr result (TellsTrouble (map (λ path. path.now) paths.now)
        (F.looks files.old) (F.looks files.new)) }
    ensures openings { F.openings files.new ≡ F.openings files.old }
{
    let mut found = Vec::new(alloc);
    for path in paths {
        let mut below = files_under(alloc, files, path)?;
        found.append(&mut below)?;
    }
    Ok(each_once(alloc, seed, found)?)
}

/// What was found below a path so far.
#[derive(Drop)]
pub(crate) struct Found {
    pub(crate) files: Vec<String>,
    pub(crate) faults: Vec<FaultyPath>,
    /// The paths that are still to be looked at.
    pub(crate) folders: VecDeque<String>,
}

impl Found {
    /// Nothing is found yet, and this path is to be looked at.
    pub(crate) fn at(alloc: Global, path: &str) -> Result<Found, AllocError>
        ensures files { IfOk result (λ found. found.files.items ≡ []) }
        ensures faults { IfOk result (λ found. found.faults.items ≡ []) }
        ensures folders { IfOk result
            (λ found. map string_bytes found.folders.items ≡ path.now ∷ []) }
    {
        let mut folders = VecDeque::new(alloc);
        folders.push_back(String::from_str(alloc, path)?)?;
        Ok(Found {
            files: Vec::new(alloc),
            faults: Vec::new(alloc),
            folders,
        })
    }

    /// A path more for which there is no answer, and why.
    fn take_fault(&mut self, path: String, fault: Fault) -> Result<(), AllocError>
        ensures files { self.new.files ≡ self.old.files }
        ensures faults { OnOk result (self.new.faults.items
            ≡ self.old.faults.items ++ record { path = path; fault = fault } ∷ []) }
        ensures folders { self.new.folders ≡ self.old.folders }
    {
        Ok(self.faults.push(FaultyPath { path, fault })?)
    }

    /// An entry of a folder.
    fn take_entry(&mut self, alloc: Global, folder: &str, entry: &Entry) -> Result<(), AllocError>
        ensures files { OnOk result (map string_bytes self.new.files.items
            ≡ map string_bytes self.old.files.items ++ file_in folder.now entry.now) }
        ensures faults { OnOk result (map faulty self.new.faults.items
            ≡ map faulty self.old.faults.items ++ fault_in folder.now entry.now) }
        ensures folders { OnOk result (map string_bytes self.new.folders.items
            ≡ map string_bytes self.old.folders.items ++ folder_in folder.now entry.now) }
    {
        let name = entry.name.as_str();
        match entry.kind {
            EntryKind::File => {
                if is_feature_name(name) {
                    self.files.push(path_in(alloc, folder, name)?)?;
                }
                Ok(())
            }
            EntryKind::Folder => Ok(self.folders.push_back(path_in(alloc, folder, name)?)?),
            EntryKind::LinkedFolder => {
                self.take_fault(path_in(alloc, folder, name)?, Fault::LinkedFolder)
            }
            EntryKind::Unknown => {
                self.take_fault(path_in(alloc, folder, name)?, Fault::ReadFailed)
            }
        }
    }

    /// The entries of a folder.
    fn take_entries(
        &mut self,
        alloc: Global,
        folder: &str,
        entries: &[Entry],
    ) -> Result<(), AllocError>
        ensures files { OnOk result (map string_bytes self.new.files.items
            ≡ map string_bytes self.old.files.items
            ++ flat_map (file_in folder.now) entries.now) }
        ensures faults { OnOk result (map faulty self.new.faults.items
            ≡ map faulty self.old.faults.items ++ flat_map (fault_in folder.now) entries.now) }
        ensures folders { OnOk result (map string_bytes self.new.folders.items
            ≡ map string_bytes self.old.folders.items
            ++ flat_map (folder_in folder.now) entries.now) }
    {
        for entry in entries {
            self.take_entry(alloc, folder, entry)?;
        }
        Ok(())
    }

    /// What a look at a path showed.
    fn take_look(&mut self, alloc: Global, path: &str, look: &Look) -> Result<(), AllocError>
        ensures files { OnOk result (map string_bytes self.new.files.items
            ≡ map string_bytes self.old.files.items ++ files_shown path.now look.now) }
        ensures faults { OnOk result (map faulty self.new.faults.items
            ≡ map faulty self.old.faults.items ++ faults_shown path.now look.now) }
        ensures folders { OnOk result (map string_bytes self.new.folders.items
            ≡ map string_bytes self.old.folders.items ++ folders_shown path.now look.now) }
    {
        match look {
            Look::File => Ok(self.files.push(String::from_str(alloc, path)?)?),
            Look::Folder(entries) => self.take_entries(alloc, path, entries.as_slice()),
            Look::NotUtf8 => self.take_fault(String::from_str(alloc, path)?, Fault::NotUtf8),
            Look::Unreadable => self.take_fault(String::from_str(alloc, path)?, Fault::ReadFailed),
        }
    }
}

/// Whether a file of this name is a feature file.
fn is_feature_name(name: &str) -> bool
    ensures { result ≡ shown.is_feature_name name.now }
{
    name.as_bytes().ends_with(b".feature")
}

/// The path of what stands in a folder under a name.
fn path_in(alloc: Global, folder: &str, name: &str) -> Result<String, AllocError>
    ensures { IfOk result (λ path. string_bytes path ≡ shown.path_in folder.now name.now) }
{
    let mut path = String::from_str(alloc, folder)?;
    if !folder.as_bytes().ends_with(b"/") {
        path.push_str("/")?;
    }
    path.push_str(name)?;
    Ok(path)
}

/// What is wrong with a path.
#[derive(Clone, Copy, PartialEq, Eq, Debug, Error)]
pub enum Fault {
    /// Nothing stands there, or it is a folder that can't be listed, or a link that leads nowhere.
    #[error("can't be read")]
    ReadFailed,
    /// It is a folder in which a name isn't UTF-8.
    #[error("has a name that isn't UTF-8")]
    NotUtf8,
    /// It is a folder without a feature file.
    #[error("has no feature file")]
    NoFeatures,
    /// It is a link to a folder.
    #[error("is a link to a folder")]
    LinkedFolder,
}

/// A path with which something is wrong.
#[derive(Drop, Debug, Error)]
#[error("{path}: {fault}")]
pub struct FaultyPath {
    pub path: String,
    pub fault: Fault,
}

/// Why feature files aren't found.
#[derive(Drop, Debug, Error)]
pub enum PathTrouble {
    /// The first path with which something is wrong.
    #[error("{0}")]
    Faulty(FaultyPath),
    /// There is no memory.
    #[error("out of memory")]
    Memory,
}

impl From<AllocError> for PathTrouble {
    ghost use Rattle.feature_paths.specs.declared.paths.PathTrouble.TheVariants.{Memory};

    ghost from_gives = { λ _ e. e ≡ Memory };

    fn from(_refused: AllocError) -> PathTrouble {
        PathTrouble::Memory
    }
}

impl<T: Drop> From<AllocFailed<T>> for PathTrouble {
    ghost use Rattle.feature_paths.specs.declared.paths.PathTrouble.TheVariants.{Memory};

    ghost from_gives = { λ _ e. e ≡ Memory };

    fn from(_refused: AllocFailed<T>) -> PathTrouble {
        PathTrouble::Memory
    }
}

/// The one whose path is the lesser by its bytes, and of two at one path the first.
fn sooner_of(first: Option<FaultyPath>, next: FaultyPath) -> FaultyPath
    ensures { faulty result ≡ sooner (option_map faulty first) (faulty next) }
{
    let Some(first) = first else {
        return next;
    };
    if next.path < first.path { next } else { first }
}

/// The first one by the bytes of the paths.
fn first_of(faults: Vec<FaultyPath>) -> Option<FaultyPath>
    ensures { option_map faulty result ≡ first_fault (map faulty faults.items) }
{
    let mut first = None;
    for next in faults {
        first = Some(sooner_of(first, next));
    }
    first
}
