//! The feature files of paths in a tree of folders in memory.
use feature_paths::feature_paths;
use files::{Entry, EntryKind, Look, OpenedFiles, Opener};
use seeds::fixed_seed;
use std::alloc::{AllocError, Global};
use std::io;
use std::process::Abort;
use std::test::Fail;

/// Folders in memory: the path of each, and its names. A name that ends in a slash is a folder's, in `@` that of a link to a
/// folder, in `?` that of a link that leads nowhere, and `!` stands for one that isn't UTF-8. Each other path is that of a file,
/// unless it begins with `no`.
#[derive(Drop)]
struct Tree;

const FOLDERS: [(&str, &str); 9] = [
    ("a", "z.feature b.feature c/ .feature notes.txt c.feature"),
    ("a/c", "d.feature deep/ x.feature.bak"),
    ("a/c/deep", "e.feature"),
    ("a/", "z.feature"),
    ("empty", "in/ readme.md"),
    ("empty/in", ""),
    ("links", "b/ z? y@ a.feature"),
    ("links/b", "!"),
    ("more", "z? b@ c@"),
];

fn entry_of(alloc: Global, word: &str) -> Result<Entry, AllocError> {
    let kinds = [
        ('/', EntryKind::Folder),
        ('@', EntryKind::LinkedFolder),
        ('?', EntryKind::Unknown),
    ];
    for (mark, kind) in kinds {
        if let Some(name) = word.strip_suffix(mark) {
            let name = String::from_str(alloc, name)?;
            return Ok(Entry { name, kind });
        }
    }
    let name = String::from_str(alloc, word)?;
    Ok(Entry {
        name,
        kind: EntryKind::File,
    })
}

fn folder_of(alloc: Global, names: &str) -> Result<Look, AllocError> {
    let mut entries = Vec::new(alloc);
    for word in names.split_whitespace() {
        if word == "!" {
            return Ok(Look::NotUtf8);
        }
        entries.push(entry_of(alloc, word)?)?;
    }
    Ok(Look::Folder(entries))
}

impl Opener for Tree {
    type File = io::Empty;

    fn open_file(&self, _name: &str) -> Option<io::Empty> {
        None
    }

    fn look_at(&self, alloc: Global, path: &str) -> Result<Look, AllocError> {
        for (folder, names) in FOLDERS {
            if path == folder {
                return folder_of(alloc, names);
            }
        }
        Ok(if path.starts_with("no") {
            Look::Unreadable
        } else {
            Look::File
        })
    }
}

// The files of these paths are these, or this is wrong.
fn expect(rt: &impl Abort, alloc: Global, paths: &[&str], wanted: &str) -> Result<(), Fail> {
    let mut files = OpenedFiles::new(alloc, Tree);
    let mut text = String::new(alloc);
    match feature_paths(alloc, fixed_seed()?, &mut files, paths) {
        Ok(found) => {
            for path in &found {
                text.push_str(path.as_str())?;
                text.push('\n')?;
            }
        }
        Err(trouble) => text = format!(in alloc; "{trouble}")?,
    }
    assert_eq!(rt; text.as_str(), wanted);
    Ok(())
}

#[test]
fn files_below_a_folder_stand_in_the_order_of_their_bytes(rt: HostRuntime) -> Result<(), Fail> {
    let wanted = "a/.feature
a/b.feature
a/c.feature
a/c/d.feature
a/c/deep/e.feature
a/z.feature
";
    expect(&rt, rt.alloc(), &["a"], wanted)
}

#[test]
fn paths_stand_in_the_order_given_and_each_once(rt: HostRuntime) -> Result<(), Fail> {
    let wanted = "y
a/c/d.feature
a/c/deep/e.feature
a/z.feature
a/.feature
a/b.feature
a/c.feature
";
    let paths = ["y", "a/c", "a/", "y", "a", "a/c/deep"];
    expect(&rt, rt.alloc(), &paths, wanted)
}

#[test]
fn the_first_thing_that_is_wrong_is_told(rt: HostRuntime) -> Result<(), Fail> {
    let alloc = rt.alloc();
    expect(
        &rt,
        alloc,
        &["a", "nothing", "empty"],
        "nothing: can't be read",
    )?;
    expect(
        &rt,
        alloc,
        &["empty", "nothing"],
        "empty: has no feature file",
    )?;
    expect(
        &rt,
        alloc,
        &["links"],
        "links/b: has a name that isn't UTF-8",
    )?;
    expect(&rt, alloc, &["y", "more"], "more/b: is a link to a folder")
}
