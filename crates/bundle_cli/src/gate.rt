//! The commands `gate FILE` and `gate check FILE`: the file is opened, and how the run, or the check,
//! ended is said.

ghost use Rattle.std.specs.Prelude.{IfOk, IfSome};
ghost use Rattle.journal_file.specs.Legal.{IsLegal};
ghost use Rattle.journal_file.specs.Ties.{kept_of};
ghost use Rattle.peer_half.specs.Setup.{IsRunnable};

use crate::journal::{Opened, Unkept, end_unkept, open};
use crate::serving::{unusable, unwatched};
use crate::sockets::{sides_in, text_in};
use console::end;
use edge_traits::{ReadRefused, Reading, Status, Writing, read_all};
use endpoint::Octets;
use gate_check::{Checked, check};
use gate_config::{ConfigFault, GateFile, MOST_OCTETS, Refusal, read};
use gate_edges::{FileBoard, SystemClocks};
use gate_run::laws::what_is_read_is_runnable;
use gate_run::{GateStatus, gate};
use gate_sockets::{SocketOutside, Sockets};
use gateway_run::{Ended, Word};
use std::alloc::{AllocError, Global};
use std::fs;
use std::io::{self, Read};
use std::process::ExitCode;
use std::rt::Files;
use std::time::Clock as Timer;

/// What stands after a path's name in that of the file beside it: of the metrics, and of the journal.
const BESIDE_METRICS: &str = ".tmp";

const BESIDE_JOURNAL: &str = ".new";

/// Runs the gateway that a file configures, until a line can't be written, memory runs out, or its journal
/// can't be kept.
pub fn run_file(rt: &HostRuntime, words: &[Word], name: &str) -> ExitCode {
    match file_at(rt, words, name) {
        Ok(file) => run(rt, words, &file),
        Err(code) => code,
    }
}

/// What a file means; or how the call ends where it can't be read, or is refused, which is said.
fn file_at<R: Files + Eprint + AllocGlobal>(
    rt: &R,
    words: &[Word],
    name: &str,
) -> Result<GateFile, ExitCode>
    ensures { IfOk result IsRunnable }
{
    let mut file = match fs::open(rt, name) {
        Ok(file) => Watched {
            reader: file,
            failed: None,
        },
        Err(error) => return Err(unreadable(rt, name, Some(error))),
    };
    let octets = match read_all(rt.alloc(), &mut Reading::new(&mut file), MOST_OCTETS) {
        Ok(octets) => octets,
        Err(ReadRefused::Fault) => return Err(unreadable(rt, name, file.failed)),
        Err(ReadRefused::NoMemory) => return Err(ended(rt, words, Status::Memory, false)),
    };
    what_is_read_is_runnable();
    match read(rt.alloc(), &octets) {
        Ok(file) => Ok(file),
        Err(ConfigFault::Refused(refusal)) => Err(refused(rt, words, name, &refusal)),
        Err(ConfigFault::Memory) => Err(ended(rt, words, Status::Memory, false)),
    }
}

/// Runs the gateway of a file over its sockets, with the files beside its journal and its metrics.
fn run(rt: &HostRuntime, words: &[Word], file: &GateFile) -> ExitCode
    requires { IsRunnable file.now }
{
    let (old, new) = match sides_in(rt, file) {
        Ok(sides) => sides,
        Err(address) => return unusable(rt, address),
    };
    let sockets = match Sockets::new(rt.alloc(), rt, old, new, rt) {
        Ok(sockets) => sockets,
        Err(error) => return unwatched(rt, error),
    };
    let journal = path_in(&file.gateway.journal);
    let Ok(journal) = beside(rt.alloc(), journal, BESIDE_JOURNAL) else {
        return ended(rt, words, Status::Memory, false);
    };
    let metrics = path_in(&file.gateway.metrics);
    let Ok(metrics) = beside(rt.alloc(), metrics, BESIDE_METRICS) else {
        return ended(rt, words, Status::Memory, false);
    };
    run_over(rt, words, file, sockets, journal.as_str(), metrics.as_str())
}

/// Runs the gateway of a file over these sockets, with its journal and its board; their files are made anew at
/// these paths. What the journal and the board lend has one lifetime.
fn run_over<'a, T: Timer + Drop>(
    rt: &'a HostRuntime,
    words: &[Word],
    file: &'a GateFile,
    sockets: Sockets<T>,
    beside_journal: &'a str,
    beside_metrics: &'a str,
) -> ExitCode
    requires { IsRunnable file.now }
{
    let journal = path_in(&file.gateway.journal);
    let (journal, kept) = match journal_at(rt, journal, beside_journal) {
        Ok(None) => (None, None),
        Ok(Some(Opened { journal, kept })) => (Some(journal), Some(kept)),
        Err(Unkept::NoMemory) => return ended(rt, words, Status::Memory, false),
        Err(why) => return end_unkept(rt, why),
    };
    let board = board_at(rt, path_in(&file.gateway.metrics), beside_metrics);
    let sink = Writing::new(io::writer(rt));
    let clocks = SystemClocks::new(rt);
    let mut outside = SocketOutside::new(rt.alloc(), clocks, sockets, sink, board, journal);
    let status = gate(rt.alloc(), file, kept, u64::MAX, &mut outside);
    ends(rt, words, status, outside.sink().is_reader_gone())
}

/// Ends as a run did.
fn ends<R: Eprint + AllocGlobal>(
    rt: &R,
    words: &[Word],
    status: GateStatus,
    reader_gone: bool,
) -> ExitCode {
    match status {
        GateStatus::Done => ended(rt, words, Status::Done, reader_gone),
        GateStatus::WriteFault => ended(rt, words, Status::WriteFault, reader_gone),
        GateStatus::Memory => ended(rt, words, Status::Memory, reader_gone),
        GateStatus::Journal => end_unkept(rt, Unkept::Unwritten),
        GateStatus::SessionsUsed { face } => end_unkept(rt, Unkept::UsedUp(face)),
    }
}

/// A path of a file, where there is one; no path is empty.
fn path_in(path: &Option<Octets>) -> &str {
    match path {
        Some(path) => text_in(path),
        None => "",
    }
}

/// The journal at a path, where there is one.
fn journal_at<'a>(
    rt: &'a HostRuntime,
    path: &'a str,
    beside: &'a str,
) -> Result<Option<Opened<'a, HostRuntime>>, Unkept>
    ensures { IfOk result (λ opened. IfSome opened (λ o. IsLegal (kept_of o.kept))) }
{
    if path.is_empty() {
        return Ok(None);
    }
    let opened = open(rt.alloc(), rt, path, beside)?;
    Ok(Some(opened))
}

/// Where the metrics are put: at a path, with another beside it. No path is empty, so there is no board at
/// that one.
fn board_at<'a>(
    rt: &'a HostRuntime,
    path: &'a str,
    beside: &'a str,
) -> Option<FileBoard<'a, HostRuntime>> {
    if path.is_empty() {
        return None;
    }
    Some(FileBoard::new(rt, path, beside))
}

/// The path of the file beside another, whose name goes on so.
fn beside(alloc: Global, path: &str, more: &str) -> Result<String, AllocError> {
    let mut beside = String::new(alloc);
    beside.push_str(path)?;
    beside.push_str(more)?;
    Ok(beside)
}

/// Writes what a file means as the gateway's configuration, or says why that can't be.
pub fn check_file<R: Files + Print + Eprint + AllocGlobal>(
    rt: &R,
    words: &[Word],
    name: &str,
) -> ExitCode {
    let mut file = match fs::open(rt, name) {
        Ok(file) => Watched {
            reader: file,
            failed: None,
        },
        Err(error) => return unreadable(rt, name, Some(error)),
    };
    let mut sink = Writing::new(io::writer(rt));
    let checked = check(rt.alloc(), &mut Reading::new(&mut file), &mut sink);
    match checked {
        Checked::Done => ended(rt, words, Status::Done, false),
        Checked::Refused(refusal) => refused(rt, words, name, &refusal),
        Checked::ReadFault => unreadable(rt, name, file.failed),
        Checked::WriteFault => ended(rt, words, Status::WriteFault, sink.is_reader_gone()),
        Checked::Memory => ended(rt, words, Status::Memory, false),
    }
}

/// Ends so, and says why where the output doesn't.
fn ended<R: Eprint + AllocGlobal>(
    rt: &R,
    words: &[Word],
    status: Status,
    reader_gone: bool,
) -> ExitCode {
    let ended = Ended {
        status,
        passed: None,
    };
    end(rt, words, ended, reader_gone, None)
}

/// Ends a check of a file that is refused: says where, and what is wanted there.
fn refused<R: Eprint + AllocGlobal>(
    rt: &R,
    words: &[Word],
    name: &str,
    refusal: &Refusal,
) -> ExitCode {
    let Ok(text) = refusal.text(rt.alloc()) else {
        return ended(rt, words, Status::Memory, false);
    };
    // The text is UTF-8, since its keys are parts of a text.
    if let Ok(text) = std::str::from_utf8(text.as_slice()) {
        let _ = eprintln!(rt; "fimdahol: {name}: {text}");
    }
    ExitCode::from(Status::Refused.code())
}

/// Ends a call with a file that can't be opened or read, and says why where the system said it.
fn unreadable<R: Eprint>(rt: &R, name: &str, error: Option<io::Error>) -> ExitCode {
    let _ = match error {
        Some(error) => eprintln!(rt; "fimdahol: {name} can't be read: {error}"),
        None => eprintln!(rt; "fimdahol: {name} can't be read"),
    };
    ExitCode::from(Status::ReadFault.code())
}

/// A reader that keeps the error of the read that failed last.
#[derive(Drop)]
struct Watched<R: Drop> {
    reader: R,
    failed: Option<io::Error>,
}

impl<R: Read + Drop> Read for Watched<R> {
    ghost remaining = { λ w. R.remaining w.reader };

    fn read(&mut self, buf: &mut [u8]) -> io::Result<usize> {
        match self.reader.read(buf) {
            Ok(n) => Ok(n),
            Err(error) => {
                let kind = error.kind();
                self.failed = Some(error);
                Err(io::Error::from(kind))
            }
        }
    }
}
