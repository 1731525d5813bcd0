//! Where the metrics are put.

ghost use Rattle.std.specs.Prelude.{◌≡◌, ℕ, List, [], Bool, Option, None, Some, is_err, IfOk};
ghost use Rattle.edge_traits.specs.Datagrams.{SendGains};
ghost use Rattle.edge_traits.specs.Faults.{count_after, FailsAsTold, fails_next};
ghost use Rattle.edge_traits.specs.InMemory.{MemLinkNow, after_send};

use edge_traits::{Failed, Link, MemLink};
use std::alloc::{AllocError, Global};
use std::fs;
use std::marker::Model;
use std::rt::Files;

/// Where a text is put so that it takes the place of the one before.
pub trait Board {
    // The texts put in place so far, where they are told.
    ghost shown: { Self → Option (List (List ℕ)) };

    // Which of the calls to come are to fail, where it is told.
    ghost failing: { Self → Option (List Bool) };

    // How many faults there were, up to the greatest number that 64 bits show.
    ghost faults: { Self → ℕ };

    /// Puts a text in the place of the one before. `Failed` leaves that as it was.
    fn show(&mut self, text: &[u8]) -> Result<(), Failed>
        ensures text { SendGains (shown self.old) (shown self.new) result text.now }
        ensures count { faults self.new ≡ count_after (faults self.old) result }
        ensures told { FailsAsTold (failing self.old) (failing self.new) result };
}

/// A board in memory: the texts are kept as far as there is room.
#[derive(Drop)]
pub struct MemBoard {
    texts: MemLink,
}

impl Model for MemBoard {
    ghost Value = { MemLinkNow };

    ghost view = { λ b. b.texts };
}

impl MemBoard {
    /// A board with room for so many octets in so many texts, whose call i fails if and only if place
    /// i of `failing` is true.
    pub fn new(alloc: Global, room: usize, failing: &[bool]) -> Result<MemBoard, AllocError>
        ensures shown { IfOk result (λ b. ⟦<MemBoard as Board>⟧.shown b ≡ Some []) }
        ensures failing { IfOk result (λ b. ⟦<MemBoard as Board>⟧.failing b ≡ Some failing.now) }
        ensures faults { IfOk result (λ b. ⟦<MemBoard as Board>⟧.faults b ≡ 0) }
        ensures room { IfOk result (λ b. b.room ≡ room) }
    {
        let texts = MemLink::new(alloc, room, failing)?;
        Ok(MemBoard { texts })
    }

    /// The texts that were kept, end to end.
    pub fn octets(&self) -> &[u8] {
        self.texts.octets()
    }

    /// How many octets each text has that was kept.
    pub fn lengths(&self) -> &[usize] {
        self.texts.lengths()
    }
}

impl Board for MemBoard {
    ghost shown = { λ b. b.gone };

    ghost failing = { λ b. Some b.failing };

    ghost faults = { λ b. b.faults };

    /// Keeps the text as far as there is room, or nothing where this call is to fail.
    fn show(&mut self, text: &[u8]) -> Result<(), Failed>
        ensures answer { is_err result ≡ fails_next self.old.failing }
        ensures now { self.new ≡ after_send self.old text.now }
    {
        self.texts.send(text)
    }
}

/// A board that is a file: a text is written to another file beside it, which then takes its name. So a
/// reader of the file never sees a part of a text. It tells no content, and counts a fault at each call
/// that failed.
#[derive(Drop)]
pub struct FileBoard<'a, R> {
    files: &'a R,
    path: &'a str,
    /// The path of the other file.
    beside: &'a str,
    faults: u64,
}

impl<'a, R: Files> FileBoard<'a, R> {
    /// A board that is the file at a path, with another path beside it; no fault yet.
    pub fn new(files: &'a R, path: &'a str, beside: &'a str) -> FileBoard<'a, R>
        ensures { ⟦<FileBoard<'a, R> as Board>⟧.faults result ≡ 0 }
    {
        FileBoard {
            files,
            path,
            beside,
            faults: 0,
        }
    }
}

impl<'a, R: Files> Board for FileBoard<'a, R> {
    ghost shown = { λ _. None };

    ghost failing = { λ _. None };

    ghost faults = { λ b. b.faults };

    fn show(&mut self, text: &[u8]) -> Result<(), Failed> {
        if fs::write(self.files, self.beside, text).is_err()
            || fs::rename(self.files, self.beside, self.path).is_err()
        {
            self.faults = self.faults.saturating_add(1);
            return Err(Failed);
        }
        Ok(())
    }
}
