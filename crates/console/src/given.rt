//! What is remembered of an input and of an output.
ghost use Rattle.std.specs.Prelude.{◌≡◌, ◌+◌, ◌<◌, ◌≤◌, ◌++◌, [], take, length};
ghost use Rattle.console.specs.Remembered.{last_octets};

use std::marker::Model;

/// How many octets are remembered of an input's beginning.
const HEAD: usize = 64;

/// How many octets are remembered of the piece that was read last: as many as a read asks for.
const PIECE: usize = 8192;

/// How many octets are remembered of what was written last: the line of a refusal is shorter.
const TAIL: usize = 128;

/// How an input begins, in up to 64 octets.
#[derive(Drop)]
pub struct Head {
    octets: [u8; HEAD],
    size: usize,
}

impl Model for Head {
    ghost use Rattle.std.specs.Prelude.{◌≤◌, ℕ, List, take};

    ghost Value = { List ℕ };

    ghost view = { λ head. take head.size head.octets };

    ghost invariant = { λ head. head.size ≤ 64 };
}

impl Head {
    /// Nothing came.
    fn new() -> Head
        ensures { result ≡ [] }
    {
        Head {
            octets: [0; HEAD],
            size: 0,
        }
    }

    /// More octets come.
    fn add(&mut self, more: &[u8])
        ensures { self.new ≡ take 64 (self.old ++ more.now) }
    {
        let n = (HEAD - self.size).min(more.len());
        self.fill(&more[..n]);
    }

    /// These octets more have room.
    fn fill(&mut self, front: &[u8])
        requires { length self.old + length front.now ≤ 64 }
        ensures { self.new ≡ self.old ++ front.now }
    {
        let end = self.size + front.len();
        self.octets[self.size..end].copy_from_slice(front);
        self.size = end;
    }

    /// The octets.
    pub fn octets(&self) -> &[u8]
        ensures { result.now ≡ self.now }
    {
        &self.octets[..self.size]
    }
}

/// The piece of an input that was read last, up to 8,192 octets of it.
#[derive(Drop)]
pub struct Piece {
    octets: [u8; PIECE],
    size: usize,
}

impl Model for Piece {
    ghost use Rattle.std.specs.Prelude.{◌≤◌, ℕ, List, take};

    ghost Value = { List ℕ };

    ghost view = { λ piece. take piece.size piece.octets };

    ghost invariant = { λ piece. piece.size ≤ 8192 };
}

impl Piece {
    /// None was read.
    fn new() -> Piece
        ensures { result ≡ [] }
    {
        Piece {
            octets: [0; PIECE],
            size: 0,
        }
    }

    /// This one was read.
    fn set(&mut self, octets: &[u8])
        ensures { self.new ≡ take 8192 octets.now }
    {
        let n = PIECE.min(octets.len());
        self.fill(&octets[..n]);
    }

    /// The same, where it has room.
    fn fill(&mut self, front: &[u8])
        requires { length front.now ≤ 8192 }
        ensures { self.new ≡ front.now }
    {
        self.octets[..front.len()].copy_from_slice(front);
        self.size = front.len();
    }

    /// The octets.
    fn octets(&self) -> &[u8]
        ensures { result.now ≡ self.now }
    {
        &self.octets[..self.size]
    }
}

/// The end of what was written last, up to 128 octets of it.
#[derive(Drop)]
pub struct Tail {
    octets: [u8; TAIL],
    size: usize,
}

impl Model for Tail {
    ghost use Rattle.std.specs.Prelude.{◌≤◌, ℕ, List, take};

    ghost Value = { List ℕ };

    ghost view = { λ tail. take tail.size tail.octets };

    ghost invariant = { λ tail. tail.size ≤ 128 };
}

impl Tail {
    /// Nothing was written.
    pub fn new() -> Tail
        ensures { result ≡ [] }
    {
        Tail {
            octets: [0; TAIL],
            size: 0,
        }
    }

    /// These octets were written.
    pub fn set(&mut self, octets: &[u8])
        ensures { self.new ≡ last_octets 128 octets.now }
    {
        let from = octets.len().saturating_sub(TAIL);
        let end = &octets[from..];
        self.octets[..end.len()].copy_from_slice(end);
        self.size = end.len();
    }

    /// The octets.
    fn octets(&self) -> &[u8]
        ensures { result.now ≡ self.now }
    {
        &self.octets[..self.size]
    }

    /// The last line, without its line feed, as far as it is remembered.
    pub fn last_line(&self) -> &[u8] {
        let tail = self.octets();
        let Some(end) = tail.len().checked_sub(1) else {
            return tail;
        };
        let lines = &tail[..end];
        match lines.iter().rposition(|octet| *octet == b'\n') {
            Some(at) => &lines[at + 1..],
            None => lines,
        }
    }
}

/// What is remembered of an input.
#[derive(Drop)]
pub struct Given {
    head: Head,
    piece: Piece,
    /// How many octets, and how many line feeds, stand before the piece.
    before: u64,
    lines: u64,
    is_lines: bool,
    /// The piece begins a line.
    begins_line: bool,
}

impl Given {
    /// Nothing came yet.
    pub fn new(is_lines: bool) -> Given
        ensures head { result.head ≡ [] }
        ensures piece { result.piece ≡ [] }
    {
        Given {
            head: Head::new(),
            piece: Piece::new(),
            before: 0,
            lines: 0,
            is_lines,
            begins_line: true,
        }
    }

    /// A piece comes. The end of the input is none.
    pub fn take(&mut self, octets: &[u8])
        ensures head { self.new.head ≡ take 64 (self.old.head ++ octets.now) }
        ensures piece { 0 < length octets.now → self.new.piece ≡ take 8192 octets.now }
    {
        self.head.add(octets);
        if !octets.is_empty() {
            self.leave();
            self.piece.set(octets);
        }
    }

    /// The piece becomes one that stands before.
    fn leave(&mut self)
        ensures head { self.new.head ≡ self.old.head }
        ensures piece { self.new.piece ≡ self.old.piece }
    {
        let piece = self.piece.octets();
        if piece.is_empty() {
            return;
        }
        self.before = self.before.saturating_add(piece.len() as u64);
        if self.is_lines {
            self.lines = self.lines.saturating_add(line_feeds(piece));
            self.begins_line = ends_line(piece);
        }
    }

    /// How it begins, in up to 64 octets.
    pub fn head(&self) -> &[u8]
        ensures { result.now ≡ self.now.head }
    {
        self.head.octets()
    }

    /// A line, counted from 1, where it is remembered: one that begins in the piece.
    pub fn line(&self, number: u64) -> Option<&[u8]> {
        let skipped = number.checked_sub(1)?.checked_sub(self.lines)?;
        if skipped == 0 && !self.begins_line {
            return None;
        }
        line_in(self.piece.octets(), skipped)
    }

    /// The octets from a place on, as far as they are remembered.
    pub fn from(&self, place: u64) -> Option<&[u8]> {
        match place.checked_sub(self.before) {
            Some(at) => self.piece.octets().get(at as usize..),
            None => self.head().get(place as usize..),
        }
    }
}

/// How many line feeds there are.
fn line_feeds(octets: &[u8]) -> u64 {
    let mut feeds: u64 = 0;
    for octet in octets {
        if *octet == b'\n' {
            feeds = feeds.saturating_add(1);
        }
    }
    feeds
}

/// Whether a line feed stands at the end.
fn ends_line(octets: &[u8]) -> bool {
    match octets.last() {
        Some(octet) => *octet == b'\n',
        None => true,
    }
}

/// The line after so many line feeds, without its own.
fn line_in(octets: &[u8], skipped: u64) -> Option<&[u8]> {
    let mut rest = octets;
    for _ in 0..skipped {
        let at = rest.iter().position(|octet| *octet == b'\n')?;
        rest = &rest[at + 1..];
    }
    match rest.iter().position(|octet| *octet == b'\n') {
        Some(at) => Some(&rest[..at]),
        None => Some(rest),
    }
}
