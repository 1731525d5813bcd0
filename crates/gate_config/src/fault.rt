//! Why a file is refused.

ghost use Rattle.std.specs.Prelude.{◌≡◌};

use crate::keys::{Key, Section};
use endpoint::Octets;

/// The table in which a key stands.
#[derive(Clone, Copy, Debug, PartialEq, Eq)]
pub enum Within {
    /// The file itself.
    File,
    /// One of its three tables.
    Table(Section),
    /// A contact of a face, counted from 0.
    Contact {
        /// The face.
        face: Section,
        /// The contact's place in the list.
        index: usize,
    },
}

/// What is wanted at a key.
#[derive(Clone, Copy, Debug, PartialEq, Eq)]
pub enum Wanted {
    /// A table.
    Table,
    /// An endpoint other than the null endpoint.
    Endpoint,
    /// An address of 1 to 64 octets.
    Address,
    /// A path of 1 to 4,096 octets.
    Path,
    /// The word `address` or the word `port`.
    Accept,
    /// The word `raise` or the word `keep`.
    Age,
    /// The word `wrap` or the word `drop`.
    ForeignBlocks,
    /// A whole number in a range.
    Whole {
        /// The least that is taken.
        low: u64,
        /// The greatest that is taken.
        high: u64,
    },
    /// A list of 1 to 4,096 tables.
    Tables,
    /// A date and time with seconds and offset, in whole milliseconds, of the years 2000 to 9999.
    Moment,
    /// A greatest timeout that isn't below the first.
    NotBelowTimeout,
    /// An end of a contact after its beginning.
    AfterFrom,
    /// A beginning that isn't before the end of the contact before.
    NotBeforeEnd,
    /// A peer whose engine number isn't the gateway's own.
    OtherNumber,
    /// A type of residues that isn't the one which wraps have where no key says another.
    NotWrap,
    /// A type of wraps that is neither the one which residues have where no key says another, nor the
    /// one that they have here.
    NotResidue,
    /// A path that isn't the journal's.
    OtherPath,
}

/// Why a file is refused: the first of the reasons that hold, in the order of the variants, where
/// those of keys go table by table.
#[derive(Debug, Drop)]
pub enum Refusal {
    /// The file has more octets than are taken.
    Size,
    /// The octets are no UTF-8.
    Utf8,
    /// The text is no TOML.
    Toml {
        /// The line, from 1, at which the reader of TOML stopped.
        line: usize,
    },
    /// There is a key that no such table has: the first by its octets.
    NoKey {
        /// The table.
        within: Within,
        /// The key.
        key: Octets,
    },
    /// What stands at a key isn't what is wanted there, or nothing stands there.
    Wrong {
        /// The table.
        within: Within,
        /// The key.
        key: Key,
        /// What is wanted.
        wanted: Wanted,
    },
}

/// Why a file wasn't read.
#[derive(Debug, Drop)]
pub enum ConfigFault {
    /// The file is refused.
    Refused(Refusal),
    /// Memory ran out; this says nothing of the file.
    Memory,
}

/// A refusal of a table's keys, whose key is lent.
#[derive(Clone, Copy)]
pub(crate) enum Flaw<'a> {
    NoKey {
        within: Within,
        key: &'a str,
    },
    Wrong {
        within: Within,
        key: Key,
        wanted: Wanted,
    },
}
