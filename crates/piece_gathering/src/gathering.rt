//! Pieces that wait until they go together.

ghost use Rattle.std.specs.Prelude.{◌≡◌, ◌+◌, ◌^◌, ◌<◌, ◌≤◌, [], ◌∷◌, ◌++◌, min, ◌-◌, length, take, drop, if◌then◌else◌, OnOk, OnErr, IfOk};
ghost use Rattle.std.specs.VecDeque.{deque_len};
ghost use Rattle.std.specs.Vec.{vec_len, vec_capacity};
ghost use Rattle.std.specs.List.{All};
ghost use Rattle.piece_gathering.specs.Gathered.{GatheringValue, Front as Fronts, with_piece, is_apart, front_of, front_in, is_complete, is_late, ready, nothing_waits, added_to, going, gone_from, octets_waiting};
ghost use Rattle.piece_gathering.specs.Fronts.{front_value, front_after, AreWithin};

use crate::piece::{BLOCK_MAX, Piece};
use std::alloc::{AllocError, Global};
use std::collections::VecDeque;
use std::marker::Model;

/// The pieces in front that go together: how many, and their sizes together.
#[derive(Clone, Copy, Debug)]
pub(crate) struct Front {
    pub count: usize,
    pub size: u64,
}

/// Pieces that wait at a face, in order.
#[derive(Debug, Drop)]
pub struct Gathering {
    wanted: u64,
    wait_ms: u64,
    waiting: VecDeque<Piece>,
    front: Front,
}

impl Model for Gathering {
    ghost use Rattle.piece_gathering.specs.Gathered.{GatheringValue, front_of};
    ghost use Rattle.piece_gathering.specs.Fronts.{front_value, AreWithin};
    ghost use Rattle.std.specs.Prelude.{◌≡◌};

    ghost Value = { GatheringValue };

    ghost view = { λ g. record { wanted = g.wanted; wait_ms = g.wait_ms; waiting = g.waiting.items } };

    ghost invariant = { λ g. (front_value g.front ≡ front_of g.wanted g.waiting.items) × AreWithin g.waiting.items };
}

impl Gathering {
    /// No piece waits. A block is to have so many octets, and a piece waits at most so many milliseconds.
    /// It takes no memory.
    pub fn new(alloc: Global, wanted: u64, wait_ms: u64) -> Gathering
        ensures { result ≡ nothing_waits wanted wait_ms }
    {
        Gathering {
            wanted,
            wait_ms,
            waiting: VecDeque::new(alloc),
            front: Front { count: 0, size: 0 },
        }
    }

    /// How many pieces wait.
    pub fn len(&self) -> usize
        ensures { result ≡ length self.now.waiting }
    {
        self.waiting.len()
    }

    /// How many octets the pieces have that wait, up to the greatest number that 64 bits show.
    pub fn octets(&self) -> u64
        ensures { result ≡ min (octets_waiting self.now.waiting) (2 ^ 64 - 1) }
    {
        let mut octets = 0u64;
        'pieces: for piece in &self.waiting {
            octets = octets.saturating_add(piece.octets.len() as u64);
        }
        octets
    }

    /// A piece waits after the others. Memory may be wanted; where it is, nothing changes.
    pub fn add(&mut self, piece: Piece) -> Result<(), AllocError>
        requires { piece.size ≤ BLOCK_MAX }
        ensures ok { OnOk result (self.new ≡ added_to self.old piece) }
        ensures err { OnErr result (self.new ≡ self.old) }
    {
        let front = front_with(self.wanted, self.front, self.waiting.len(), piece.size);
        self.waiting.push_back(piece)?;
        self.front = front;
        Ok(())
    }

    /// How many pieces are ready to go together at this moment of the face; none where nothing is to go yet.
    /// A caller takes them once a session is free.
    #[tactic(auto, unfolding(crate::specs::Gathered::ready))]
    pub fn ready(&self, now: u64) -> usize
        ensures exact { result ≡ ready self.now now }
        ensures within { result ≤ length self.now.waiting }
    {
        if self.is_complete() || self.is_late(now) {
            self.front.count
        } else {
            0
        }
    }

    /// The pieces that are ready, in order: one block. The others wait on. Memory may be wanted; where it
    /// is, nothing changes.
    pub fn take(&mut self, alloc: Global, now: u64) -> Result<Vec<Piece>, AllocError>
        ensures taken { IfOk result (λ pieces. pieces.items ≡ going self.old now) }
        ensures left { OnOk result (self.new ≡ gone_from self.old now) }
        ensures err { OnErr result (self.new ≡ self.old) }
    {
        let count = self.ready(now);
        let mut pieces = Vec::with_capacity(alloc, count)?;
        move_front(&mut self.waiting, count, &mut pieces);
        self.front = front_of(self.wanted, &self.waiting);
        Ok(pieces)
    }

    /// Whether as many octets wait in front as are wanted, or the next piece doesn't go with them.
    fn is_complete(&self) -> bool
        ensures { result ≡ is_complete self.now }
    {
        self.wanted <= self.front.size || self.front.count < self.waiting.len()
    }

    /// Whether the first piece has waited as long as it may.
    fn is_late(&self, now: u64) -> bool
        ensures { result ≡ is_late self.now.wait_ms now self.now.waiting }
    {
        match self.waiting.front() {
            None => false,
            Some(piece) => self.wait_ms <= now.saturating_sub(piece.added),
        }
    }
}

/// Whether a piece of so many octets doesn't go in one block with so many in front of it: those are as many
/// as are wanted, or the block would be longer than a session carries.
pub fn is_apart(wanted: u64, size: u64, more: u64) -> bool
    requires { more ≤ BLOCK_MAX }
    ensures { result ≡ is_apart wanted size more }
{
    wanted <= size || BLOCK_MAX - more < size
}

/// The pieces in front once a piece of so many octets waits after so many others, of which these are in
/// front.
fn front_with(wanted: u64, front: Front, waiting: usize, size: u64) -> Front
    requires within { size ≤ BLOCK_MAX }
    requires counted { front.count ≤ waiting }
    requires summed { front.size ≤ BLOCK_MAX }
    requires room { waiting < 2 ^ 63 }
    ensures { front_value result ≡ front_after wanted (front_value front) waiting size }
{
    if waiting == 0 || front.count == waiting && !is_apart(wanted, front.size, size) {
        Front {
            count: front.count + 1,
            size: front.size + size,
        }
    } else {
        front
    }
}

/// The pieces in front of those that wait.
fn front_of(wanted: u64, waiting: &VecDeque<Piece>) -> Front
    requires { AreWithin waiting.now.items }
    ensures { front_value result ≡ front_of wanted waiting.now.items }
{
    let Some(first) = waiting.front() else {
        return Front { count: 0, size: 0 };
    };
    let mut front = Front {
        count: 1,
        size: first.size,
    };
    'joining: while let Some(piece) = waiting.get(front.count) {
        if is_apart(wanted, front.size, piece.size) {
            return front;
        }
        front = Front {
            count: front.count + 1,
            size: front.size + piece.size,
        };
    }
    front
}

/// Moves so many pieces from the front to the end of others.
fn move_front(waiting: &mut VecDeque<Piece>, count: usize, pieces: &mut Vec<Piece>)
    requires within { count ≤ length waiting.old.items }
    requires room { vec_len pieces.old + count ≤ vec_capacity pieces.old }
    ensures moved { pieces.new.items ≡ pieces.old.items ++ take count waiting.old.items }
    ensures left { waiting.new.items ≡ drop count waiting.old.items }
{
    'moving: for _ in 0..count {
        move_one(waiting, pieces);
    }
}

/// Moves the first piece, if there is one, to the end of others.
fn move_one(waiting: &mut VecDeque<Piece>, pieces: &mut Vec<Piece>)
    requires { vec_len pieces.old < vec_capacity pieces.old }
    ensures moved { pieces.new.items ≡ pieces.old.items ++ take 1 waiting.old.items }
    ensures left { waiting.new.items ≡ drop 1 waiting.old.items }
    ensures room { vec_capacity pieces.new ≡ vec_capacity pieces.old }
    ensures more { vec_len pieces.new ≤ vec_len pieces.old + 1 }
{
    if let Some(piece) = waiting.pop_front() {
        pieces.push_reserved(piece);
    }
}
