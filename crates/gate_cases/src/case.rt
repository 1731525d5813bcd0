//! The seven cases of a block, and the room at the other face.

ghost use Rattle.std.specs.Prelude.{◌≡◌};
ghost use Rattle.gate_cases.specs.Reports.{reason_of};

use crate::cause::BadCause;
use translate::Refused;

/// The most octets of a block that a session carries: 4 MiB. Own rule.
pub const BLOCK_MAX: usize = 4_194_304;

/// The most sending sessions that are open at a face at once. Own rule.
pub const SENDING_MAX: usize = 64;

/// All session numbers are below this one.
pub const NUMBERS: u64 = 4_294_967_296;

/// The numbers that `BLOCK_MAX`, `SENDING_MAX` and `NUMBERS` name.
pub fn sending_limits()
    ensures block { BLOCK_MAX ≡ 4194304 }
    ensures sending { SENDING_MAX ≡ 64 }
    ensures numbers { NUMBERS ≡ 4294967296 }
{}

/// What room there is for new sending sessions at a face.
#[derive(Clone, Copy, Debug, PartialEq, Eq)]
pub struct Room {
    /// How many sending sessions are open there.
    pub sending: usize,
    /// The number of the next session.
    pub next_session: u64,
}

/// What becomes of a block, in the order in which the cases are tested.
#[derive(Clone, Copy, Debug, PartialEq, Eq)]
pub enum GateCase {
    /// The block isn't exactly one bundle of the face's version.
    BadBundle {
        /// The place of the first field that isn't there as it should be, or of the octets after the
        /// bundle.
        at: usize,
        /// What is wrong there.
        cause: BadCause,
    },
    /// The bundle isn't translated, or would have too many blocks on the other face.
    Untranslated {
        /// Why not. It is never want of memory.
        cause: Refused,
    },
    /// The bundle has expired.
    Expired,
    /// The bundle made as many hops as it may.
    HopLimit,
    /// There is no room for its pieces at the other face.
    Storage,
    /// The bundle goes on.
    Passed,
}

impl GateCase {
    /// The reason code that a status report gives for the case (RFC 9171, section 6.1.1): 1 lifetime
    /// expired, 4 depleted storage, 9 hop limit exceeded, and else 0, no additional information.
    pub fn reason(&self) -> u8
        ensures { result ≡ reason_of self.now }
    {
        match self {
            GateCase::Expired => 1,
            GateCase::Storage => 4,
            GateCase::HopLimit => 9,
            GateCase::BadBundle { .. } | GateCase::Untranslated { .. } | GateCase::Passed => 0,
        }
    }
}
