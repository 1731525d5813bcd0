//! The bounds of a face.

ghost use Rattle.std.specs.Prelude.{◌≡◌, ◌+◌, ◌*◌, ◌<◌, ◌≤◌, true};
ghost use Rattle.face_room.specs.Bounds.{AreBounds, half, for_pieces, need};
ghost use Rattle.face_room.specs.Queues.{may_wait};

/// The most octets of a block that a session carries: 4 MiB. Own rule.
pub const BLOCK_MAX: u64 = 4_194_304;

/// All session numbers are below this one.
pub const NUMBERS: u64 = 4_294_967_296;

/// The most octets of a datagram before the data in it (RFC 5326, section 3.2): the types, 2; the engine's
/// number, 10; the session's, 5; the client service, 1; offset and length, 6; and the serial numbers of a
/// checkpoint and a report, 10.
pub const HEADER_MAX: u64 = 34;

/// What a face may keep, and how it sends.
#[derive(Clone, Copy, Debug, PartialEq, Eq)]
pub struct Bounds {
    /// The most sessions that it sends at once.
    pub sessions: u64,
    /// The most octets that it keeps: half of them for what it sends, half for what it receives.
    pub memory: u64,
    /// How many octets are wanted in a block; with 0 or 1 each piece goes alone.
    pub wanted: u64,
    /// The most octets of data in a segment.
    pub segment: u64,
    /// The most octets that wait in its outbox.
    pub outbox: u64,
}

impl Bounds {
    /// The octets for what the face sends, and those for what it receives.
    pub fn half(self) -> u64
        ensures { result ≡ half self }
    {
        self.memory / 2
    }

    /// The octets that new pieces may fill. A sixteenth of the half is left for signals, and for what is
    /// sent again.
    pub fn for_pieces(self) -> u64
        requires { AreBounds self }
        ensures { result ≡ for_pieces self }
    {
        self.half() * 15 / 16
    }

    /// Whether a datagram of so many octets may wait in its outbox after so many that wait there, while it
    /// keeps so many besides. It takes no memory.
    pub fn may_wait(self, kept: u64, queued: u64, octets: u64) -> bool
        ensures exact { result ≡ may_wait self kept (queued + octets) }
        ensures small { result ≡ true → queued + octets ≤ self.outbox }
    {
        let half = self.half();
        queued <= self.outbox
            && octets <= self.outbox - queued
            && kept <= half
            && queued <= half - kept
            && octets <= half - kept - queued
    }
}

#[tactic(auto, using(crate::proofs::NeedLemmas::ceil_few))]
/// How many octets a face keeps at most for a block of so many: the block, and its datagrams while they wait.
pub fn need(segment: u64, octets: u64) -> u64
    requires some { 0 < segment }
    requires within { octets ≤ BLOCK_MAX }
    ensures exact { result ≡ need segment octets }
    ensures small { result ≤ 36 * BLOCK_MAX }
{
    2 * octets + HEADER_MAX * octets.div_ceil(segment)
}
