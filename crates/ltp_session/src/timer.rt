//! Segments that wait for an answer.

ghost use Rattle.std.specs.Prelude.{◌≡◌, ℕ, ◌^◌, ◌<◌, true};
ghost use Rattle.ltp_segment.specs.PolicyViews.{policy_value};
ghost use Rattle.ltp_session.specs.Timer.{first_timer, next_timer, is_due, may_repeat, first_serial, FirstSerialsAreShort};

use ltp_segment::Policy;

/// The first moment that no clock shows, in milliseconds.
pub const NO_MOMENT: u64 = 1 << 62;

/// No serial number is this large.
pub const SERIALS: u64 = 1 << 32;

/// How often a segment that waits for an answer was sent, and until when it waits (RFC 5326,
/// sections 6.2, 6.3 and 6.15).
#[derive(Clone, Copy, Debug, PartialEq, Eq)]
pub struct Timer {
    /// How often the segment was sent.
    pub times: u32,

    /// From this moment on it is due, in milliseconds.
    pub deadline: u64,
}

impl Timer {
    /// The timer of a segment that is sent for the first time at this moment.
    pub fn first(policy: &Policy, now: u64) -> Timer
        requires { now < 2 ^ 62 }
        ensures { result ≡ first_timer (policy_value policy.now) now }
    {
        Timer {
            times: 1,
            deadline: now + policy.wait(1),
        }
    }

    /// The timer of a segment that is sent once more at this moment.
    pub fn next(&self, policy: &Policy, now: u64) -> Timer
        requires moment { now < 2 ^ 62 }
        requires allowed { may_repeat (policy_value policy.now) self.now ≡ true }
        ensures { result ≡ next_timer (policy_value policy.now) self.now now }
    {
        let times = self.times + 1;
        Timer {
            times,
            deadline: now + policy.wait(times),
        }
    }

    /// Whether the segment waited long enough.
    pub fn is_due(&self, now: u64) -> bool
        ensures { result ≡ is_due self.now now }
    {
        self.deadline <= now
    }

    /// Whether the segment may be sent once more.
    pub fn may_repeat(&self, policy: &Policy) -> bool
        ensures { result ≡ may_repeat (policy_value policy.now) self.now }
    {
        self.times < policy.limit
    }
}

/// The serial number of a session's first checkpoint and of its first report, by the session's
/// number.
pub fn first_serial(session: u64) -> u64
    ensures { result ≡ first_serial session }
{
    1 + session % 16383
}

/// No session's first serial number is 0, and each is written in one octet or two.
pub fn first_serials_are_short()
    ensures { FirstSerialsAreShort }
{}
