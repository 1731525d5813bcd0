//! The journal of `gate FILE`: it is opened and locked, what earlier runs kept in it is read, and what is
//! said where that can't be.

ghost use Rattle.std.specs.Prelude.{IfOk, IfSome};
ghost use Rattle.journal_file.specs.Legal.{IsLegal};
ghost use Rattle.journal_file.specs.Ties.{kept_of};

use gate_cases::Face;
use gate_journal::{Journal, RecoverFault, recover};
use journal_file::{JournalCause, Kept};
use std::alloc::Global;
use std::fs::File;
use std::io;
use std::process::ExitCode;
use std::rt::Files;
use store_traits::{FileStore, OpenFault};

/// The status of a call whose journal can't be kept.
const UNKEPT: u8 = 8;

/// Why a journal can't be kept.
#[derive(Debug, Drop)]
pub enum Unkept {
    /// Another program has it open.
    InUse,
    /// It can't be opened.
    Unopened(io::Error),
    /// It can't be read.
    Unread,
    /// The octets before a place are as they should be, and the field that begins there isn't.
    Damaged { at: usize, cause: JournalCause },
    /// A write, a sync or the change to a new file failed.
    Unwritten,
    /// Earlier runs have used all session numbers of a face.
    UsedUp(Face),
    /// Memory ran out.
    NoMemory,
}

impl From<OpenFault> for Unkept {
    fn from(fault: OpenFault) -> Unkept {
        match fault {
            OpenFault::Io(error) => Unkept::Unopened(error),
            OpenFault::InUse => Unkept::InUse,
        }
    }
}

impl From<RecoverFault> for Unkept {
    fn from(fault: RecoverFault) -> Unkept {
        match fault {
            RecoverFault::Damaged { at, cause } => Unkept::Damaged { at, cause },
            RecoverFault::Failed => Unkept::Unread,
            RecoverFault::Memory => Unkept::NoMemory,
        }
    }
}

/// A journal that is open, and what earlier runs kept in it.
#[derive(Drop)]
pub struct Opened<'a, R: Files<File = File>> {
    pub journal: Journal<FileStore<'a, R>>,
    pub kept: Kept,
}

/// Opens the journal at a path, which is made where it isn't there, and reads it. Its file is made anew at
/// another path of the same folder.
pub fn open<'a, R: Files<File = File>>(
    alloc: Global,
    files: &'a R,
    path: &'a str,
    beside: &'a str,
) -> Result<Opened<'a, R>, Unkept>
    ensures { IfOk result (λ opened. IsLegal (kept_of opened.kept)) }
{
    let mut store = FileStore::open(files, path, beside, folder_of(path))?;
    let kept = recover(alloc, &mut store)?;
    // The gate's place is known once the file is made anew.
    let journal = Journal { store, gate: 0 };
    Ok(Opened { journal, kept })
}

/// The folder of a file.
fn folder_of(path: &str) -> &str {
    match path.rsplit_once('/') {
        Some(("", _)) => "/",
        Some((folder, _)) => folder,
        None => ".",
    }
}

/// Ends a call whose journal can't be kept, and says why; for want of memory nothing is said here.
pub fn end_unkept<R: Eprint>(rt: &R, why: Unkept) -> ExitCode {
    let _ = match why {
        Unkept::InUse => eprintln!(rt; "fimdahol: the journal is in use"),
        Unkept::Unopened(error) => eprintln!(rt; "fimdahol: the journal can't be opened: {error}"),
        Unkept::Unread => eprintln!(rt; "fimdahol: the journal can't be read"),
        Unkept::Damaged { at, cause } => {
            let cause = cause.word();
            eprintln!(rt; "fimdahol: the journal is damaged: {at} {cause}")
        }
        Unkept::Unwritten => eprintln!(rt; "fimdahol: the journal can't be written"),
        Unkept::UsedUp(Face::Old) => {
            eprintln!(rt; "fimdahol: the session numbers of old are used up")
        }
        Unkept::UsedUp(Face::New) => {
            eprintln!(rt; "fimdahol: the session numbers of new are used up")
        }
        Unkept::NoMemory => Ok(()),
    };
    ExitCode::from(UNKEPT)
}
