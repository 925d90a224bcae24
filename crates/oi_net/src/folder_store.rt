use crate::folder::Folder;
use crate::paths::names_record;
use oi_base::{Blob, Label, Series};
use oi_outside::{RecordStore, StoreError};
use std::fs::Files;
use std::io;
use std::io::ErrorKind;
use std::path::PathBuf;

/// Records as files below a folder: the path of a record is that of its file from the folder, and no link on it is
/// followed. It does not tell its records.
///
/// Several programs may have one folder. A write that was cut off leaves a file whose name begins with `~`, of which
/// no call takes notice.
#[derive(Drop)]
pub struct FolderStore<R: Files + AllocGlobal + Clone + Drop> {
    folder: Folder<R>,
    faults: u64,
}

impl<R: Files + AllocGlobal + Clone + Drop> FolderStore<R> {
    ghost use Rattle.std.specs.Prelude.{◌≡◌, IfOk, Ok};
    ghost use Rattle.oi_base.specs.Counts.{Rose};
    ghost use Rattle.oi_net.specs.Faults.{PassesOn};
    ghost use Rattle.oi_outside.specs.Stores.{IsTallied};
    ghost use Rattle.oi_outside.specs.declared.store_error.StoreError.TheVariants.{Failed};

    /// The records in this folder. The folder is not looked at before the first call, and need not be there: it then
    /// has no records, and the first write makes it.
    pub fn at(rt: R, root: PathBuf) -> FolderStore<R>
        ensures folder { (result.folder.rt ≡ rt) × (result.folder.root ≡ root) }
        ensures count { result.faults ≡ 0 }
    {
        FolderStore {
            folder: Folder::new(rt, root),
            faults: 0,
        }
    }

    fn fail(&mut self) -> StoreError
        ensures failed { result ≡ Failed }
        ensures count { Rose self.old.faults self.new.faults }
        ensures folder { self.new.folder ≡ self.old.folder }
    {
        self.faults = self.faults.saturating_add(1);
        StoreError::Failed
    }

    // Want of memory is no fault of the folder.
    fn tally<T: Drop>(&mut self, answer: io::Result<T>) -> Result<T, StoreError>
        ensures count { IsTallied result self.old.faults self.new.faults }
        ensures answer { PassesOn answer result }
        ensures value { IfOk result (λ x. answer ≡ Ok x) }
        ensures folder { self.new.folder ≡ self.old.folder }
    {
        match answer {
            Ok(x) => Ok(x),
            Err(e) if e.kind() == ErrorKind::OutOfMemory => Err(StoreError::Memory),
            Err(_) => Err(self.fail()),
        }
    }
}

impl<R: Files + AllocGlobal + Clone + Drop> RecordStore for FolderStore<R> {
    ghost use Rattle.std.specs.Prelude.{◌≡◌, false, None, Ok, Err};
    ghost use Rattle.oi_net.specs.Paths.{names_record};
    ghost use Rattle.oi_outside.specs.Stores.{Finds, IsTallied, Lists, Puts, Removes};
    ghost use Rattle.oi_outside.specs.declared.store_error.StoreError.TheVariants.{Failed};

    ghost records = { λ _. None };

    ghost faults = { λ s. s.faults };

    fn list(&mut self) -> Result<Series<Label>, StoreError>
        ensures lists { Lists result None None }
        ensures count { IsTallied result self.old.faults self.new.faults }
        ensures folder { self.new.folder ≡ self.old.folder }
    {
        let answer = self.folder.list();
        self.tally(answer)
    }

    fn read(&mut self, path: &str) -> Result<Option<Blob>, StoreError>
        ensures finds { Finds result path.now None None }
        ensures count { IsTallied result self.old.faults self.new.faults }
        ensures folder { self.new.folder ≡ self.old.folder }
        ensures nameless { names_record path.now ≡ false → result ≡ Ok None }
    {
        if !names_record(path) {
            return Ok(None);
        }
        let answer = self.folder.read(path);
        match self.tally(answer)? {
            Some(text) => Ok(Some(Blob::from_vec(text))),
            None => Ok(None),
        }
    }

    fn write_whole(&mut self, path: &str, bytes: &[u8]) -> Result<(), StoreError>
        ensures puts { Puts result path.now bytes.now None None }
        ensures count { IsTallied result self.old.faults self.new.faults }
        ensures folder { self.new.folder ≡ self.old.folder }
        ensures nameless { names_record path.now ≡ false → result ≡ Err Failed }
    {
        if !names_record(path) {
            return Err(self.fail());
        }
        let answer = self.folder.write_whole(path, bytes);
        self.tally(answer)
    }

    fn remove(&mut self, path: &str) -> Result<bool, StoreError>
        ensures removes { Removes result path.now None None }
        ensures count { IsTallied result self.old.faults self.new.faults }
        ensures folder { self.new.folder ≡ self.old.folder }
        ensures nameless { names_record path.now ≡ false → result ≡ Ok false }
    {
        if !names_record(path) {
            return Ok(false);
        }
        let answer = self.folder.remove(path);
        self.tally(answer)
    }
}
