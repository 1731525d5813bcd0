//! What is kept of the sessions of `receive`.

use crate::part::OpenPart;
use std::collections::BTreeMap;

/// How a session stands of which a piece came.
#[derive(Drop)]
pub enum Standing {
    /// Its red part isn't whole.
    Open(Box<OpenPart>),
    /// Its red part was handed up.
    HandedUp,
}

/// How a session is found in the table.
#[derive(Clone, Copy, Debug, PartialEq, Eq, Drop)]
pub enum Found {
    /// No piece of it came.
    Fresh,
    /// Its red part isn't whole: the place after the last octet that came, and the length, once an
    /// end of it came.
    Open(u64, Option<u64>),
    /// Its red part was handed up.
    HandedUp,
}

/// The sessions of which a piece came, by originator and number.
#[derive(Drop)]
pub struct Sessions {
    /// How each stands.
    pub table: BTreeMap<(u64, u64), Standing>,
    /// How many of them are open.
    pub unfinished: usize,
}

/// Octets of a red part, lent by the piece that is all of it, or put together.
#[derive(Drop)]
pub enum Whole<'a> {
    /// Of one piece.
    Lent(&'a [u8]),
    /// Of several.
    Built(Vec<u8>),
}

/// What a piece brings about.
#[derive(Drop)]
pub enum Reply<'a> {
    /// Nothing yet.
    Nothing,
    /// Its session's red part, now whole, is handed up.
    Up(Whole<'a>),
    /// A note: it is out of bounds.
    Note,
    /// It is skipped: the red part was handed up before.
    Skip,
}
