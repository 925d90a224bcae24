ghost use Rattle.std.specs.Prelude.{◌≡◌, IfOk};
ghost use Rattle.std.specs.Str.{IsUtf8};
ghost use Rattle.oi_net.specs.Paths.{ArePaths};

use crate::paths::{DRAFT, is_name};
use oi_base::{Label, Series};
use std::alloc::Global;
use std::collections::BTreeSet;
use std::fs::{File, FileType, Files, OpenFile};
use std::io::{ErrorKind, Write};
use std::path::{Path, PathBuf};
use std::{fs, io};

/// Files below a folder, by their paths from it. No link below the folder is followed. The paths of files that are
/// given are those of records.
#[derive(Drop)]
pub(crate) struct Folder<R: Files + AllocGlobal + Clone + Drop> {
    rt: R,
    root: PathBuf,
}

impl<R: Files + AllocGlobal + Clone + Drop> Folder<R> {
    pub(crate) fn new(rt: R, root: PathBuf) -> Folder<R>
        ensures { result ≡ record { rt = rt; root = root } }
    {
        Folder { rt, root }
    }

    /// The paths of all files that can be records. A folder that is not there has none.
    pub(crate) fn list(&self) -> io::Result<Series<Label>>
        ensures { IfOk result ArePaths }
    {
        let mut found = BTreeSet::new(self.rt.alloc());
        let mut folders = Vec::new(self.rt.alloc());
        folders.push(String::new(self.rt.alloc()))?;
        for _ in 0..u64::MAX {
            let Some(folder) = folders.pop() else {
                break;
            };
            self.look_into(folder.as_str(), &mut found, &mut folders)?;
        }
        paths_of(self.rt.alloc(), &found)
    }

    /// The text of the file, if it is there.
    pub(crate) fn read(&self, path: &str) -> io::Result<Option<Vec<u8>>> {
        if !self.has_file(path)? {
            return Ok(None);
        }
        match fs::read(&self.rt, self.place(path)?) {
            Ok(text) => Ok(Some(text)),
            Err(e) if is_absence(e.kind()) => Ok(None),
            Err(e) => Err(e),
        }
    }

    /// Writes the text beside the records, and then gives it its place by a rename: at no moment does the file have a
    /// part of it. Makes the folders on the way.
    pub(crate) fn write_whole(&self, path: &str, text: &[u8]) -> io::Result<()> {
        let place = self.place(path)?;
        if let Some(above) = place.parent() {
            fs::create_dir_all(&self.rt, above)?;
        }
        if !self.is_reached(path)? {
            return Err(io::Error::from(ErrorKind::NotADirectory));
        }
        let (mut file, draft) = self.new_draft()?;
        let written = match write_down(&mut file, text) {
            Ok(()) => fs::rename(&self.rt, draft.as_path(), place.as_path()),
            Err(e) => Err(e),
        };
        if written.is_err() {
            let _left_behind = fs::remove_file(&self.rt, draft.as_path());
        }
        written
    }

    /// Removes the file, and the folders on the way that have nothing else. Answers whether it was there.
    pub(crate) fn remove(&self, path: &str) -> io::Result<bool> {
        if !self.has_file(path)? {
            return Ok(false);
        }
        match fs::remove_file(&self.rt, self.place(path)?) {
            Ok(()) => {}
            Err(e) if is_absence(e.kind()) => return Ok(false),
            Err(e) => return Err(e),
        }
        for folder in Path::new(path).ancestors().skip(1) {
            if folder.as_str().is_empty() || !self.removes_folder(folder.as_str()) {
                break;
            }
        }
        Ok(true)
    }

    // The system removes a folder only where it is empty.
    fn removes_folder(&self, path: &str) -> bool {
        match self.place(path) {
            Ok(place) => fs::remove_dir(&self.rt, place).is_ok(),
            Err(_) => false,
        }
    }

    fn place(&self, path: &str) -> io::Result<PathBuf> {
        Ok(self.root.as_path().join(self.rt.alloc(), path)?)
    }

    // What stands at the path.
    fn kind_at(&self, path: &str) -> io::Result<Option<FileType>> {
        match fs::symlink_metadata(&self.rt, self.place(path)?) {
            Ok(metadata) => Ok(Some(metadata.file_type())),
            Err(e) if is_absence(e.kind()) => Ok(None),
            Err(e) => Err(e),
        }
    }

    fn is_reached(&self, path: &str) -> io::Result<bool> {
        for folder in Path::new(path).ancestors().skip(1) {
            match self.kind_at(folder.as_str())? {
                Some(kind) if kind.is_dir() => {}
                _ => return Ok(false),
            }
        }
        Ok(true)
    }

    fn has_file(&self, path: &str) -> io::Result<bool> {
        if !self.is_reached(path)? {
            return Ok(false);
        }
        match self.kind_at(path)? {
            Some(kind) => Ok(kind.is_file()),
            None => Ok(false),
        }
    }

    // A new file, whose name no other call takes and no record has.
    fn new_draft(&self) -> io::Result<(R::File, PathBuf)> {
        for number in 0..u64::MAX {
            let name = format!(in self.rt.alloc(); "{DRAFT}{number}")?;
            let draft = self.place(name.as_str())?;
            match File::create_new(&self.rt, draft.as_path()) {
                Ok(file) => return Ok((file, draft)),
                Err(e) if e.kind() == ErrorKind::AlreadyExists => {}
                Err(e) => return Err(e),
            }
        }
        Err(io::Error::from(ErrorKind::AlreadyExists))
    }

    // Adds the files of one folder to those found, and its folders to those that wait.
    fn look_into(
        &self,
        folder: &str,
        found: &mut BTreeSet<String>,
        folders: &mut Vec<String>,
    ) -> io::Result<()> {
        let entries = match fs::read_dir(&self.rt, self.place(folder)?) {
            Ok(entries) => entries,
            Err(e) if is_absence(e.kind()) => return Ok(()),
            Err(e) => return Err(e),
        };
        for entry in entries {
            let entry = entry?;
            if !is_name(entry.file_name()) {
                continue;
            }
            let path = below(self.rt.alloc(), folder, entry.file_name())?;
            match self.kind_at(path.as_str())? {
                Some(kind) if kind.is_dir() => folders.push(path)?,
                Some(kind) if kind.is_file() => {
                    found.insert(path)?;
                }
                _ => {}
            }
        }
        Ok(())
    }
}

// Nothing is there, nor can be.
fn is_absence(kind: ErrorKind) -> bool {
    matches!(
        kind,
        ErrorKind::NotFound | ErrorKind::NotADirectory | ErrorKind::InvalidFilename
    )
}

fn write_down<F: Write + OpenFile>(file: &mut F, text: &[u8]) -> io::Result<()> {
    file.write_all(text)?;
    file.sync_all()
}

fn below(alloc: Global, folder: &str, name: &str) -> io::Result<String> {
    let mut path = String::from_str(alloc, folder)?;
    if !folder.is_empty() {
        path.push('/')?;
    }
    path.push_str(name)?;
    Ok(path)
}

fn paths_of(alloc: Global, found: &BTreeSet<String>) -> io::Result<Series<Label>>
    ensures { IfOk result ArePaths }
{
    let mut paths = Vec::with_capacity(alloc, found.len())?;
    for path in found.iter() {
        paths.push(label_of(alloc, path.as_str())?)?;
    }
    Ok(Series::from_vec(paths))
}

fn label_of(alloc: Global, text: &str) -> io::Result<Label>
    ensures label { IfOk result (λ label. label ≡ text.now) }
    ensures text { IfOk result (λ label. IsUtf8 label) }
{
    Ok(Label::from_vec(Vec::from_slice(alloc, text.as_bytes())?))
}
