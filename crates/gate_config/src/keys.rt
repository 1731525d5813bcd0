//! The keys of a configuration file: one table of names, one of kinds and ranges, one of defaults.

ghost use Rattle.std.specs.Prelude.{◌≡◌};
ghost use Rattle.gate_config.specs.Keys as spec;

/// The three tables of a file.
#[derive(Clone, Copy, Debug, PartialEq, Eq)]
pub enum Section {
    /// The gateway itself.
    Gateway,
    /// The face towards the nodes of version 6.
    Old,
    /// The face towards the nodes of version 7.
    New,
}

/// A key that a file may have.
#[derive(Clone, Copy, Debug, PartialEq, Eq)]
pub enum Key {
    /// The table of the gateway.
    Gateway,
    /// The table of the face towards version 6.
    Old,
    /// The table of the face towards version 7.
    New,
    /// The gateway's own endpoint.
    Endpoint,
    /// The most octets of a bundle that isn't cut into pieces.
    Cut,
    /// Whether the age of a bundle is raised by its stay.
    Age,
    /// The path of the journal.
    Journal,
    /// The path of the file of metrics.
    Metrics,
    /// The address that a face listens at.
    Bind,
    /// The address that a face sends to.
    Peer,
    /// The gateway's engine number at a face.
    Engine,
    /// The peer's engine number.
    PeerEngine,
    /// The most octets of a block in one segment.
    Segment,
    /// The milliseconds until a segment that waits for an answer is sent again.
    TimeoutMs,
    /// How often such a segment is sent.
    Limit,
    /// The greatest timeout, since each repeat waits longer.
    CapMs,
    /// The number of the first session.
    FirstSession,
    /// Octets a second.
    Rate,
    /// The octets of datagrams that may wait at a face.
    Outbox,
    /// From where a face's datagrams are taken.
    Accept,
    /// The most sessions of a face each way.
    Sessions,
    /// The octets that a face may keep.
    Memory,
    /// The octets that are gathered into one block.
    Aggregate,
    /// The milliseconds for which they are gathered.
    AggregateMs,
    /// The runs of session numbers that are remembered.
    Remember,
    /// The milliseconds for which they are remembered.
    RememberMs,
    /// The type that residues have in version 7.
    ResidueBlock,
    /// The type that wraps have in version 7.
    WrapBlock,
    /// What becomes of what version 7 has no field for.
    ForeignBlocks,
    /// The contacts of a face.
    Contact,
    /// The first moment of a contact.
    From,
    /// The first moment after a contact.
    To,
}

/// What may stand at a key.
#[derive(Clone, Copy, Debug, PartialEq, Eq)]
pub enum Kind {
    /// A table. It has to be there.
    Table,
    /// The text of an endpoint other than the null endpoint. It has to be there.
    Endpoint,
    /// A text of 1 to 64 octets, none of them zero. It has to be there.
    Address,
    /// A text of 1 to 4,096 octets, none of them zero.
    Path,
    /// The word `address` or the word `port`.
    Accept,
    /// The word `raise` or the word `keep`.
    Age,
    /// The word `wrap` or the word `drop`.
    ForeignBlocks,
    /// A whole number.
    Whole {
        /// The least that is taken.
        low: u64,
        /// The greatest that is taken.
        high: u64,
    },
    /// A list of 1 to 4,096 tables.
    Contacts,
    /// A date and time with seconds and offset. It has to be there.
    Moment,
}

/// The keys at the top of a file.
pub(crate) const FILE_KEYS: [Key; 3] = [Key::Gateway, Key::Old, Key::New];

/// The keys of the gateway's table.
pub(crate) const GATEWAY_KEYS: [Key; 5] = [
    Key::Endpoint,
    Key::Cut,
    Key::Age,
    Key::Journal,
    Key::Metrics,
];

/// The keys of the table of the face towards version 6, in the order in which they are looked at.
const OLD_KEYS: [Key; 19] = [
    Key::Bind,
    Key::Peer,
    Key::Engine,
    Key::PeerEngine,
    Key::Segment,
    Key::TimeoutMs,
    Key::Limit,
    Key::CapMs,
    Key::FirstSession,
    Key::Rate,
    Key::Outbox,
    Key::Accept,
    Key::Sessions,
    Key::Memory,
    Key::Aggregate,
    Key::AggregateMs,
    Key::Remember,
    Key::RememberMs,
    Key::Contact,
];

/// The keys of the table of the face towards version 7.
const NEW_KEYS: [Key; 22] = [
    Key::Bind,
    Key::Peer,
    Key::Engine,
    Key::PeerEngine,
    Key::Segment,
    Key::TimeoutMs,
    Key::Limit,
    Key::CapMs,
    Key::FirstSession,
    Key::Rate,
    Key::Outbox,
    Key::Accept,
    Key::Sessions,
    Key::Memory,
    Key::Aggregate,
    Key::AggregateMs,
    Key::Remember,
    Key::RememberMs,
    Key::ResidueBlock,
    Key::WrapBlock,
    Key::ForeignBlocks,
    Key::Contact,
];

/// The keys of a contact.
pub(crate) const CONTACT_KEYS: [Key; 3] = [Key::From, Key::To, Key::Rate];

/// The greatest engine or session number that LTP's numbers here have.
const GREATEST: u64 = 4_294_967_295;

impl Section {
    /// The key at which the section's table stands.
    pub fn key(self) -> Key
        ensures { result ≡ spec.key_of self }
    {
        match self {
            Section::Gateway => Key::Gateway,
            Section::Old => Key::Old,
            Section::New => Key::New,
        }
    }

    /// The keys of its table, in the order in which they are looked at.
    pub(crate) fn keys(self) -> &'static [Key]
        ensures { result.now ≡ spec.keys_of self }
    {
        match self {
            Section::Gateway => &GATEWAY_KEYS,
            Section::Old => &OLD_KEYS,
            Section::New => &NEW_KEYS,
        }
    }
}

impl Key {
    /// The key as a file has it.
    pub fn name(self) -> &'static str
        ensures { result.now ≡ spec.name_of self }
    {
        match self {
            Key::Gateway => "gateway",
            Key::Old => "old",
            Key::New => "new",
            Key::Endpoint => "endpoint",
            Key::Cut => "cut",
            Key::Age => "age",
            Key::Journal => "journal",
            Key::Metrics => "metrics",
            Key::Bind => "bind",
            Key::Peer => "peer",
            Key::Engine => "engine",
            Key::PeerEngine => "peer_engine",
            Key::Segment => "segment",
            Key::TimeoutMs => "timeout_ms",
            Key::Limit => "limit",
            Key::CapMs => "cap_ms",
            Key::FirstSession => "first_session",
            Key::Rate => "rate",
            Key::Outbox => "outbox",
            Key::Accept => "accept",
            Key::Sessions => "sessions",
            Key::Memory => "memory",
            Key::Aggregate => "aggregate",
            Key::AggregateMs => "aggregate_ms",
            Key::Remember => "remember",
            Key::RememberMs => "remember_ms",
            Key::ResidueBlock => "residue_block",
            Key::WrapBlock => "wrap_block",
            Key::ForeignBlocks => "foreign_blocks",
            Key::Contact => "contact",
            Key::From => "from",
            Key::To => "to",
        }
    }

    /// What may stand at the key.
    pub fn kind(self) -> Kind
        ensures { result ≡ spec.kind_of self }
    {
        let (low, high) = match self {
            Key::Gateway | Key::Old | Key::New => return Kind::Table,
            Key::Endpoint => return Kind::Endpoint,
            Key::Journal | Key::Metrics => return Kind::Path,
            Key::Bind | Key::Peer => return Kind::Address,
            Key::Accept => return Kind::Accept,
            Key::Age => return Kind::Age,
            Key::ForeignBlocks => return Kind::ForeignBlocks,
            Key::Contact => return Kind::Contacts,
            Key::From | Key::To => return Kind::Moment,
            Key::Cut => (1, 4_000_000),
            Key::Engine | Key::PeerEngine | Key::FirstSession => (1, GREATEST),
            Key::Segment => (512, 8192),
            Key::TimeoutMs | Key::CapMs => (1, 3_600_000),
            Key::Limit => (1, 100),
            Key::Rate => (1, 10_000_000_000),
            Key::Outbox => (65_507, GREATEST),
            Key::Sessions => (1, 1024),
            Key::Memory => (33_554_432, 1_099_511_627_776),
            Key::Aggregate => (0, 4_194_304),
            Key::AggregateMs => (1, 60_000),
            Key::Remember => (4096, 16_777_216),
            Key::RememberMs => (1000, 604_800_000),
            Key::ResidueBlock | Key::WrapBlock => (192, 255),
        };
        Kind::Whole { low, high }
    }

    /// The number at the key where it is left out, of a key that has one.
    pub fn default_in(self, section: Section) -> u64
        ensures { result ≡ spec.default_of section self }
    {
        match (self, section) {
            (Key::Cut, _) => 65_536,
            (Key::Engine, Section::Old) => 2,
            (Key::PeerEngine, Section::Old) => 1,
            (Key::Engine, Section::New) => 3,
            (Key::PeerEngine, Section::New) => 4,
            (Key::Segment, _) => 1024,
            (Key::TimeoutMs, _) => 10_000,
            (Key::Limit, _) => 10,
            (Key::CapMs, _) => 160_000,
            (Key::Outbox, _) => 536_870_912,
            (Key::Sessions, _) => 64,
            (Key::Memory, _) => 268_435_456,
            (Key::AggregateMs, _) => 1000,
            (Key::Remember, _) => 1_048_576,
            (Key::RememberMs, _) => 3_600_000,
            (Key::ResidueBlock, _) => 192,
            (Key::WrapBlock, _) => 193,
            _ => 0,
        }
    }
}
