//! What a file means, defaults filled in.

use endpoint::{Endpoint, Octets};
use std::alloc::Global;
use std::marker::Model;

/// What a configuration file means.
#[derive(Debug, Drop)]
pub struct GateFile {
    /// The gateway.
    pub gateway: GatewayConfig,
    /// The face towards the nodes of version 6.
    pub old: FaceConfig,
    /// The face towards the nodes of version 7.
    pub new: FaceConfig,
    /// What stands at that face for what version 7 has no field for.
    pub blocks: BlocksConfig,
}

/// What holds for the gateway as a whole.
#[derive(Debug, Drop)]
pub struct GatewayConfig {
    /// Its own endpoint, which is never the null endpoint.
    pub endpoint: Endpoint,
    /// The most octets of a piece's payload: 1 to 4,000,000.
    pub cut: u64,
    /// What becomes of the age of a bundle while it stays.
    pub age: Age,
    /// The path of the journal, if there is one.
    pub journal: Option<Octets>,
    /// The path of the file of metrics, if there is one. It isn't the journal's.
    pub metrics: Option<Octets>,
}

/// What holds for one face.
#[derive(Debug, Drop)]
pub struct FaceConfig {
    /// The address that the face listens at, of 1 to 64 octets.
    pub bind: Octets,
    /// The address that it sends to, of 1 to 64 octets.
    pub peer: Octets,
    /// The gateway's engine number at the face: 1 to 2^32 - 1.
    pub engine: u64,
    /// The peer's engine number: 1 to 2^32 - 1, and not the gateway's.
    pub peer_engine: u64,
    /// The most octets of a block in one segment: 512 to 8,192.
    pub segment: u64,
    /// Milliseconds until a segment that waits for an answer is sent again: 1 to 3,600,000.
    pub timeout_ms: u64,
    /// How often such a segment is sent: 1 to 100.
    pub limit: u64,
    /// The greatest such wait in milliseconds: `timeout_ms` to 3,600,000.
    pub cap_ms: u64,
    /// The number of the first session, 1 to 2^32 - 1, where the file says it.
    pub first_session: Option<u64>,
    /// The most octets a second, 1 to 10^10, where the file says it.
    pub rate: Option<u64>,
    /// The most octets of datagrams that wait: 65,507 to 2^32 - 1.
    pub outbox: u64,
    /// From where its datagrams are taken.
    pub accept: Accept,
    /// The most sessions that are sent, and that are received: 1 to 1,024.
    pub sessions: u64,
    /// The octets that it may keep, half of them for each way: 33,554,432 to 2^40.
    pub memory: u64,
    /// How many octets are gathered into a block: 0 to 4,194,304. With 0 or 1 each piece has its own.
    pub aggregate: u64,
    /// The milliseconds for which a piece waits for others: 1 to 60,000.
    pub aggregate_ms: u64,
    /// How many runs of consecutive session numbers are remembered: 4,096 to 16,777,216.
    pub remember: u64,
    /// The milliseconds for which a session that is over is remembered: 1,000 to 604,800,000.
    pub remember_ms: u64,
    /// When the link is open. Without a contact it is open always.
    pub contacts: Contacts,
}

/// How a version 7 bundle says what version 7 has no field for.
#[derive(Clone, Copy, Debug, PartialEq, Eq)]
pub struct BlocksConfig {
    /// The type of the block that holds a residue: 192 to 255, and not 193.
    pub residue_block: u64,
    /// The type of the block that holds a wrap: 193 to 255, and not `residue_block`.
    pub wrap_block: u64,
    /// Whether there are such blocks.
    pub foreign_blocks: ForeignBlocks,
}

/// What becomes of the age of a bundle while it stays.
#[derive(Clone, Copy, Debug, PartialEq, Eq)]
pub enum Age {
    /// It is raised by the stay.
    Raise,
    /// It goes on as it came.
    Keep,
}

impl Age {
    ghost use Rattle.std.specs.Prelude.{◌≡◌};
    ghost use Rattle.gate_config.specs.Shown.{age_word};

    /// The word that says it in a file.
    pub fn word(self) -> &'static str
        ensures { result.now ≡ age_word self }
    {
        match self {
            Age::Raise => "raise",
            Age::Keep => "keep",
        }
    }
}

/// What becomes of what version 7 has no field for.
#[derive(Clone, Copy, Debug, PartialEq, Eq)]
pub enum ForeignBlocks {
    /// It stands in blocks of the gateway's own.
    Wrap,
    /// It is left out.
    Drop,
}

impl ForeignBlocks {
    ghost use Rattle.std.specs.Prelude.{◌≡◌};
    ghost use Rattle.gate_config.specs.Shown.{foreign_word};

    /// The word that says it in a file.
    pub fn word(self) -> &'static str
        ensures { result.now ≡ foreign_word self }
    {
        match self {
            ForeignBlocks::Wrap => "wrap",
            ForeignBlocks::Drop => "drop",
        }
    }
}

/// From where a face's datagrams are taken.
#[derive(Clone, Copy, Debug, PartialEq, Eq)]
pub enum Accept {
    /// From any port of the peer's address: many nodes send from a port that the system chose.
    Address,
    /// From the peer's address and port alone.
    Port,
}

impl Accept {
    ghost use Rattle.std.specs.Prelude.{◌≡◌};
    ghost use Rattle.gate_config.specs.Shown.{accept_word};

    /// The word that says it in a file.
    pub fn word(self) -> &'static str
        ensures { result.now ≡ accept_word self }
    {
        match self {
            Accept::Address => "address",
            Accept::Port => "port",
        }
    }
}

/// A time in which a face's link is open.
#[derive(Clone, Copy, Debug, PartialEq, Eq)]
pub struct Contact {
    /// The first moment at which it is open, in milliseconds since the year 2000.
    pub from: u64,
    /// The first moment at which it is closed again, after `from`.
    pub to: u64,
    /// The most octets a second in this contact, where the file says it; else the face's.
    pub rate: Option<u64>,
}

/// The contacts of a face, in order. Each begins at or after the end of the one before.
#[derive(Debug, Drop)]
pub struct Contacts {
    items: Vec<Contact>,
}

impl Model for Contacts {
    ghost use Rattle.std.specs.Prelude.{List};
    ghost use Rattle.gate_config.specs.declared.file.Contact.{Contact};

    ghost Value = { List Contact };

    ghost view = { λ contacts. contacts.items.items };
}

impl Contacts {
    ghost use Rattle.std.specs.Prelude.{◌≡◌, []};

    /// No contacts: a link that is always open. It takes no memory.
    pub fn new(alloc: Global) -> Contacts
        ensures { result ≡ [] }
    {
        Contacts {
            items: Vec::new(alloc),
        }
    }

    /// These contacts, moved and not copied.
    pub fn from_vec(items: Vec<Contact>) -> Contacts
        ensures { result ≡ items.items }
    {
        Contacts { items }
    }

    /// The contacts, lent.
    pub fn as_slice(&self) -> &[Contact]
        ensures { result.now ≡ self.now }
    {
        self.items.as_slice()
    }
}
