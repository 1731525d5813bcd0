//! How segments are cut, and how long answers to them are waited for.

ghost use Rattle.std.specs.Prelude.{◌≡◌, ◌≤◌};
ghost use Rattle.ltp_segment.specs.Policy.{policy_of, default_policy, wait_after, policy_word};

use thiserror::Error;

/// How segments are cut, and how long answers to them are waited for. Times are milliseconds.
///
/// The wait after a sending is twice the one before it, up to the cap. Once a segment was sent as
/// often as the limit says and its last wait is over, its session is given up.
#[derive(Clone, Copy, Debug, PartialEq, Eq)]
pub struct Policy {
    /// The most octets of data in a segment, 512 to 8,192.
    pub segment: u32,
    /// The wait after the first sending, 1 to 3,600,000.
    pub timeout: u64,
    /// How often one checkpoint, report or cancel is sent at most, 1 to 100.
    pub limit: u32,
    /// The longest wait, from the timeout to 3,600,000.
    pub cap: u64,
    ghost segment_least: { 512 ≤ segment },
    ghost segment_most: { segment ≤ 8192 },
    ghost timeout_least: { 1 ≤ timeout },
    ghost limit_least: { 1 ≤ limit },
    ghost limit_most: { limit ≤ 100 },
    ghost cap_least: { timeout ≤ cap },
    ghost cap_most: { cap ≤ 3600000 },
}

impl Policy {
    ghost use Rattle.ltp_segment.specs.PolicyViews.{policy_value, made};

    /// The policy of these values, or the first of them that is out of its range.
    pub fn new(segment: u32, timeout: u64, limit: u32, cap: u64) -> Result<Policy, PolicyFault>
        ensures { made result ≡ policy_of segment timeout limit cap }
    {
        if !(512..=8192).contains(&segment) {
            return Err(PolicyFault::Segment);
        }
        if !(1..=3_600_000).contains(&timeout) {
            return Err(PolicyFault::Timeout);
        }
        if !(1..=100).contains(&limit) {
            return Err(PolicyFault::Limit);
        }
        if !(timeout..=3_600_000).contains(&cap) {
            return Err(PolicyFault::Cap);
        }
        Ok(Policy {
            segment,
            timeout,
            limit,
            cap,
        })
    }

    /// How long an answer is waited for after a sending, which is counted from 1.
    pub fn wait(&self, sending: u32) -> u64
        requires { 1 ≤ sending }
        ensures { result ≡ wait_after (policy_value self.now) sending }
    {
        let doublings = sending - 1;
        if doublings >= TOO_MANY {
            return self.cap;
        }
        (self.timeout * 2_u64.pow(doublings)).min(self.cap)
    }
}

/// After so many doublings the least timeout is above the greatest cap.
const TOO_MANY: u32 = 22;

impl Default for Policy {
    ghost use Rattle.ltp_segment.specs.PolicyViews.{policy_value};

    ghost is_default = { λ p. policy_value p ≡ default_policy };

    /// 1,024 octets, 10 seconds, 10 times, 160 seconds.
    fn default() -> Policy {
        Policy {
            segment: 1024,
            timeout: 10_000,
            limit: 10,
            cap: 160_000,
        }
    }
}

/// The first of a policy's values that is out of its range.
#[derive(Clone, Copy, Debug, PartialEq, Eq, Error)]
pub enum PolicyFault {
    /// The data of a segment isn't 512 to 8,192 octets.
    #[error("Segment")]
    Segment,
    /// The first wait isn't 1 to 3,600,000 ms.
    #[error("Timeout")]
    Timeout,
    /// Nothing is sent 1 to 100 times.
    #[error("Limit")]
    Limit,
    /// The longest wait is shorter than the first, or longer than 3,600,000 ms.
    #[error("Cap")]
    Cap,
}

impl PolicyFault {
    /// The fault's name.
    pub fn word(&self) -> &'static str
        ensures { result.now ≡ policy_word self.now }
    {
        match self {
            PolicyFault::Segment => "Segment",
            PolicyFault::Timeout => "Timeout",
            PolicyFault::Limit => "Limit",
            PolicyFault::Cap => "Cap",
        }
    }
}
