//! When a bundle was made, and which of the bundles of that time it is.

ghost use Rattle.std.specs.Prelude.{◌≡◌, ◌↔◌, ℕ, ◌^◌, ◌≤◌, ◌<◌, IfOk, IsErr};
ghost use Rattle.bundle_meaning.specs.Creation.{id7_of, id6_of, HaveOneId};

/// The creation timestamp of a version 6 bundle (RFC 5050, section 4.5).
#[derive(Clone, Copy, Debug, PartialEq, Eq)]
pub struct Id6 {
    /// When the bundle was made, in seconds since the start of the year 2000 UTC.
    pub seconds: u64,
    /// Which of the bundles of that second it is.
    pub sequence: u64,
}

/// The creation timestamp of a version 7 bundle (RFC 9171, section 4.2.7).
#[derive(Clone, Copy, Debug, PartialEq, Eq)]
pub struct Id7 {
    /// When the bundle was made, in milliseconds since the start of the year 2000 UTC.
    pub millis: u64,
    /// Which of the bundles of that millisecond it is.
    pub sequence: u64,
}

/// The version 7 counterpart of a timestamp would have 2^64 milliseconds or more.
#[derive(Clone, Copy, Debug, PartialEq, Eq)]
pub struct TimeTooLarge;

/// The version 6 counterpart of a timestamp would have 2^64 as its sequence number, or more.
#[derive(Clone, Copy, Debug, PartialEq, Eq)]
pub struct SequenceTooLarge;

/// The version 7 counterpart of a version 6 creation timestamp. Own rule: the sequence number's last
/// three digits become milliseconds, so that no two timestamps become one. Seconds 1000 and sequence
/// 5 become 1,000,005 milliseconds and sequence 0.
pub fn id_to_new(seconds: u64, sequence: u64) -> Result<Id7, TimeTooLarge>
    ensures paired { IfOk result (λ id. id ≡ id7_of seconds sequence) }
    ensures refused { IsErr result ↔ (2 ^ 64 ≤ (id7_of seconds sequence).millis) }
{
    let whole = seconds.checked_mul(1000).ok_or(TimeTooLarge)?;
    let millis = whole.checked_add(sequence % 1000).ok_or(TimeTooLarge)?;
    Ok(Id7 {
        millis,
        sequence: sequence / 1000,
    })
}

/// The version 6 counterpart of a version 7 creation timestamp: the inverse of `id_to_new`.
pub fn id_to_old(millis: u64, sequence: u64) -> Result<Id6, SequenceTooLarge>
    ensures paired { IfOk result (λ id. id ≡ id6_of millis sequence) }
    ensures refused { IsErr result ↔ (2 ^ 64 ≤ (id6_of millis sequence).sequence) }
{
    let whole = sequence.checked_mul(1000).ok_or(SequenceTooLarge)?;
    let sequence = whole.checked_add(millis % 1000).ok_or(SequenceTooLarge)?;
    Ok(Id6 {
        seconds: millis / 1000,
        sequence,
    })
}

/// The pairing is one to one: each of the two calls undoes the other, so no two timestamps have the
/// same counterpart.
pub fn ids_pair_off()
    ensures { HaveOneId }
{}
