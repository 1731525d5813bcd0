//! What is counted.

ghost use Rattle.std.specs.Prelude.{◌≡◌};
ghost use Rattle.gate_metrics.specs.Counting.{no_blocks, no_ends, none_at, none_counted};
ghost use Rattle.gate_metrics.specs.Counting.{more, block_after, end_after, counters_after, counted_at};

use gate_cases::{Face, GateCase};

/// What happened at a face, as far as it is counted.
#[derive(Clone, Copy, Debug, PartialEq, Eq)]
pub enum Counted {
    /// A block came whole.
    Block {
        /// What became of it.
        case: GateCase,
    },
    /// A datagram came.
    Received {
        /// How many octets it has.
        octets: u64,
    },
    /// A datagram went.
    Sent {
        /// How many octets it has.
        octets: u64,
    },
    /// Datagrams found no room in the outbox.
    Dropped {
        /// How many.
        datagrams: u64,
    },
    /// Sending sessions began.
    Begun {
        /// How many.
        sessions: u64,
    },
    /// A sending session ended.
    Ended {
        /// How.
        how: Ended,
    },
    /// A poll of the link failed.
    PollFailed,
    /// A send failed.
    SendFailed,
    /// Datagrams came from elsewhere than the face's peer, and were dropped.
    Foreign {
        /// How many.
        datagrams: u64,
    },
    /// Green data came.
    Green {
        /// How many octets it has.
        octets: u64,
    },
}

/// How a sending session ended.
#[derive(Clone, Copy, Debug, PartialEq, Eq)]
pub enum Ended {
    /// Its block was sent, and all of it was claimed.
    Sent,
    /// It was given up.
    Failed,
    /// The peer cancelled it.
    Cancelled,
}

/// How many blocks came whole at a face, by their cases.
#[derive(Clone, Copy, Debug, PartialEq, Eq)]
pub struct BlockCounters {
    pub(crate) passed: u64,
    pub(crate) bad_bundle: u64,
    pub(crate) untranslated: u64,
    pub(crate) expired: u64,
    pub(crate) hop_limit: u64,
    pub(crate) storage: u64,
}

/// How many sending sessions ended at a face, by how they did.
#[derive(Clone, Copy, Debug, PartialEq, Eq)]
pub struct EndCounters {
    pub(crate) sent: u64,
    pub(crate) failed: u64,
    pub(crate) cancelled: u64,
}

/// What was counted at a face.
#[derive(Clone, Copy, Debug, PartialEq, Eq)]
pub struct FaceCounters {
    pub(crate) blocks: BlockCounters,
    pub(crate) datagrams_received: u64,
    pub(crate) octets_received: u64,
    pub(crate) datagrams_sent: u64,
    pub(crate) octets_sent: u64,
    pub(crate) datagrams_dropped: u64,
    pub(crate) sessions_begun: u64,
    pub(crate) sessions_ended: EndCounters,
    pub(crate) polls_failed: u64,
    pub(crate) sends_failed: u64,
    pub(crate) foreign_datagrams: u64,
    pub(crate) green_octets: u64,
}

/// What was counted at both faces.
#[derive(Clone, Copy, Debug, PartialEq, Eq)]
pub struct Counters {
    pub(crate) old: FaceCounters,
    pub(crate) new: FaceCounters,
}

impl Counters {
    /// Nothing happened yet.
    pub fn new() -> Counters
        ensures { result ≡ none_counted }
    {
        Counters {
            old: FaceCounters::new(),
            new: FaceCounters::new(),
        }
    }

    /// Counts what happened at a face.
    pub fn count(&mut self, face: Face, what: Counted)
        ensures { self.exit.now ≡ counted_at face what self.entry.now }
    {
        match face {
            Face::Old => self.old.count(what),
            Face::New => self.new.count(what),
        }
    }
}

impl FaceCounters {
    /// Nothing happened yet.
    fn new() -> FaceCounters
        ensures { result ≡ none_at }
    {
        FaceCounters {
            blocks: BlockCounters::new(),
            datagrams_received: 0,
            octets_received: 0,
            datagrams_sent: 0,
            octets_sent: 0,
            datagrams_dropped: 0,
            sessions_begun: 0,
            sessions_ended: EndCounters::new(),
            polls_failed: 0,
            sends_failed: 0,
            foreign_datagrams: 0,
            green_octets: 0,
        }
    }

    /// Counts what happened.
    fn count(&mut self, what: Counted)
        ensures { self.new ≡ counters_after what self.old }
    {
        match what {
            Counted::Block { case } => self.blocks.count(case),
            Counted::Received { octets } => {
                add(&mut self.datagrams_received, 1);
                add(&mut self.octets_received, octets);
            }
            Counted::Sent { octets } => {
                add(&mut self.datagrams_sent, 1);
                add(&mut self.octets_sent, octets);
            }
            Counted::Dropped { datagrams } => add(&mut self.datagrams_dropped, datagrams),
            Counted::Begun { sessions } => add(&mut self.sessions_begun, sessions),
            Counted::Ended { how } => self.sessions_ended.count(how),
            Counted::PollFailed => add(&mut self.polls_failed, 1),
            Counted::SendFailed => add(&mut self.sends_failed, 1),
            Counted::Foreign { datagrams } => add(&mut self.foreign_datagrams, datagrams),
            Counted::Green { octets } => add(&mut self.green_octets, octets),
        }
    }
}

impl BlockCounters {
    /// No block came yet.
    fn new() -> BlockCounters
        ensures { result ≡ no_blocks }
    {
        BlockCounters {
            passed: 0,
            bad_bundle: 0,
            untranslated: 0,
            expired: 0,
            hop_limit: 0,
            storage: 0,
        }
    }

    /// Counts a block.
    fn count(&mut self, case: GateCase)
        ensures { self.new ≡ block_after case self.old }
    {
        match case {
            GateCase::Passed => add(&mut self.passed, 1),
            GateCase::BadBundle { .. } => add(&mut self.bad_bundle, 1),
            GateCase::Untranslated { .. } => add(&mut self.untranslated, 1),
            GateCase::Expired => add(&mut self.expired, 1),
            GateCase::HopLimit => add(&mut self.hop_limit, 1),
            GateCase::Storage => add(&mut self.storage, 1),
        }
    }
}

impl EndCounters {
    /// No session ended yet.
    fn new() -> EndCounters
        ensures { result ≡ no_ends }
    {
        EndCounters {
            sent: 0,
            failed: 0,
            cancelled: 0,
        }
    }

    /// Counts a session's end.
    fn count(&mut self, how: Ended)
        ensures { self.new ≡ end_after how self.old }
    {
        match how {
            Ended::Sent => add(&mut self.sent, 1),
            Ended::Failed => add(&mut self.failed, 1),
            Ended::Cancelled => add(&mut self.cancelled, 1),
        }
    }
}

/// Adds to a counter, which stays at the greatest number that it can hold.
fn add(count: &mut u64, number: u64)
    ensures { count.new ≡ more count.old number }
{
    *count = count.saturating_add(number);
}
