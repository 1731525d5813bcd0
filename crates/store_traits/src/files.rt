//! A store that is a file of the system.

ghost use Rattle.std.specs.Prelude.{◌≡◌, [], None, IfOk};
ghost use Rattle.edge_traits.specs.Faults.{count_after, one_more};

use crate::fault::StoreFault;
use crate::store::Store;
use edge_traits::Failed;
use std::alloc::Global;
use std::fs::{self, File, OpenOptions, TryLockError};
use std::io::{self, ErrorKind, Read, Seek, SeekFrom, Write};
use std::os::unix::fs::FileExt;
use std::rt::Files;

/// Why a file can't be opened as a store.
#[derive(Debug, Drop)]
pub enum OpenFault {
    /// The system says so.
    Io(io::Error),
    /// Another program has it open as a store.
    InUse,
}

impl From<io::Error> for OpenFault {
    fn from(error: io::Error) -> OpenFault {
        OpenFault::Io(error)
    }
}

impl From<TryLockError> for OpenFault {
    fn from(error: TryLockError) -> OpenFault {
        match error {
            TryLockError::WouldBlock => OpenFault::InUse,
            TryLockError::Error(error) => OpenFault::Io(error),
        }
    }
}

/// A file of the system, which is locked as long as it is open. A new file is made at another path of the
/// same folder and takes the file's name. It tells no octets, and counts a fault at each call that failed.
#[derive(Drop)]
pub struct FileStore<'a, R> {
    files: &'a R,
    path: &'a str,
    /// The path of the new file.
    beside: &'a str,
    /// The folder of both.
    folder: &'a str,
    file: File,
    draft: Option<File>,
    faults: u64,
}

impl<'a, R: Files<File = File>> FileStore<'a, R> {
    /// Opens the file at a path, which is made where it isn't there, and locks it. From here on its octets
    /// are those on the disk: the file and its folder are synced.
    pub fn open(
        files: &'a R,
        path: &'a str,
        beside: &'a str,
        folder: &'a str,
    ) -> Result<FileStore<'a, R>, OpenFault>
        ensures faults { IfOk result (λ f. ⟦<FileStore<'a, R> as Store>⟧.faults f ≡ 0) }
    {
        let file = options().open(files, path)?;
        file.try_lock()?;
        file.sync_all()?;
        sync_folder(files, folder)?;
        Ok(FileStore {
            files,
            path,
            beside,
            folder,
            file,
            draft: None,
            faults: 0,
        })
    }

    /// Counts a fault.
    fn fail(&mut self) -> Failed
        ensures { self.new.faults ≡ one_more self.old.faults }
    {
        self.faults = self.faults.saturating_add(1);
        Failed
    }

    /// Answers a call, and counts a fault where it failed.
    fn counted(&mut self, answer: io::Result<()>) -> Result<(), Failed>
        ensures { self.new.faults ≡ count_after self.old.faults result }
    {
        match answer {
            Ok(()) => Ok(()),
            Err(_) => Err(self.fail()),
        }
    }
}

/// How the file is opened.
fn options() -> OpenOptions {
    let mut options = OpenOptions::new();
    options.read(true).write(true).create(true);
    options
}

/// Syncs a folder, so that the names in it are on the disk.
fn sync_folder<R: Files<File = File>>(files: &R, folder: &str) -> io::Result<()> {
    fs::open(files, folder)?.sync_all()
}

/// Makes an empty file and locks it.
fn make<R: Files<File = File>>(files: &R, path: &str) -> io::Result<File> {
    let file = fs::create(files, path)?;
    match file.try_lock() {
        Ok(()) => Ok(file),
        Err(_) => Err(ErrorKind::WouldBlock.into()),
    }
}

/// All octets of a file.
fn read_whole(alloc: Global, file: &File) -> io::Result<Vec<u8>> {
    let mut octets = Vec::new(alloc);
    let mut reader = file;
    reader.seek(SeekFrom::Start(0))?;
    reader.read_to_end(&mut octets)?;
    Ok(octets)
}

impl<'a, R: Files<File = File>> Store for FileStore<'a, R> {
    ghost seen = { λ _. None };

    ghost may_leave = { λ _ _. ⊥ };

    ghost moment = { λ _. 0 };

    ghost left_since = { λ _ _ _. ⊥ };

    ghost draft = { λ _. [] };

    ghost draft_may_leave = { λ _ _. ⊥ };

    ghost faults = { λ f. f.faults };

    ghost counts_now = { λ f t c le now. now };

    ghost only_now = { λ f c left. left };

    fn read(&mut self, alloc: Global) -> Result<Vec<u8>, StoreFault> {
        match read_whole(alloc, &self.file) {
            Ok(octets) => Ok(octets),
            Err(e) if e.kind() == ErrorKind::OutOfMemory => Err(StoreFault::Memory),
            Err(_) => {
                self.fail();
                Err(StoreFault::Failed)
            }
        }
    }

    fn write_at(&mut self, at: usize, octets: &[u8]) -> Result<(), Failed> {
        let result = self.file.write_all_at(octets, at as u64);
        self.counted(result)
    }

    /// Syncs the file. Its name is on the disk already, since [`FileStore::open`] and `install` sync the
    /// folder.
    fn sync(&mut self) -> Result<(), Failed> {
        let result = self.file.sync_all();
        self.counted(result)
    }

    fn start_new(&mut self) -> Result<(), Failed> {
        match make(self.files, self.beside) {
            Ok(file) => {
                self.draft = Some(file);
                Ok(())
            }
            Err(e) => self.counted(Err(e)),
        }
    }

    fn add(&mut self, octets: &[u8]) -> Result<(), Failed> {
        let result = match &self.draft {
            Some(file) => {
                let mut writer = file;
                writer.write_all(octets)
            }
            None => Err(ErrorKind::NotFound.into()),
        };
        self.counted(result)
    }

    fn sync_new(&mut self) -> Result<(), Failed> {
        let result = match &self.draft {
            Some(file) => file.sync_all(),
            None => Err(ErrorKind::NotFound.into()),
        };
        self.counted(result)
    }

    fn install(&mut self) -> Result<(), Failed> {
        match self.draft.take() {
            Some(file) => {
                let result = rename(self.files, self.beside, self.path, self.folder);
                self.file = file;
                self.counted(result)
            }
            None => self.counted(Err(ErrorKind::NotFound.into())),
        }
    }
}

/// Gives a file another name in its folder, which is on the disk after it.
fn rename<R: Files<File = File>>(files: &R, from: &str, to: &str, folder: &str) -> io::Result<()> {
    fs::rename(files, from, to)?;
    sync_folder(files, folder)
}
