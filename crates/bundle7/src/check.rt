//! The check of a block (RFC 9171, section 4.2.1).

ghost use Rattle.std.specs.Prelude.{◌≡◌, ◌≤◌, ◌==◌, ℕ, List, length, false, IfOk, IsOk};
ghost use Rattle.wire_fields.specs.Reading.{read};
ghost use Rattle.wire_fields.specs.Gives.{Gives, IsOn};
ghost use Rattle.bundle7.specs.Cause.{refused};
ghost use Rattle.bundle7.specs.Check.{check16, check32, exact_octets, crc_field};
ghost use Rattle.bundle7.specs.Passing.{between, Sums};
ghost use Rattle.bundle7.specs.Known.{Knows};

use crate::fault::{Cause7, Refused7};
use crate::fields::{exactly, octets};
use crc_fields::{Register16, Register32};
use wire_fields::BYTE_STRING;

/// What is known of the checks in some octets before they are read.
#[derive(Clone, Copy)]
pub(crate) enum Checks {
    /// Nothing: each is computed and compared.
    Untested,
    /// That they are right, since the octets were judged: none is computed again.
    Right,
}

/// The check of this type at the end of the block that begins at `start`; nothing for type 0.
#[tactic(auto, unfolding(crate::specs::Check::crc_field))]
pub(crate) fn crc_at(
    text: &[u8],
    at: usize,
    crc: u8,
    start: usize,
    checks: Checks,
) -> Result<((), usize), Refused7>
    requires place { at ≤ length text.now }
    requires order { start ≤ at }
    requires knows { Knows checks (read (crc_field crc start) text.now at) }
    ensures within { IfOk result (λ x. IsOn at text.now x.1) }
    ensures exact { Gives (λ _. tt) refused result (read (crc_field crc start) text.now at) }
{
    if crc == 0 {
        return Ok(((), at));
    }
    match checks {
        Checks::Untested => {
            let sum = Sum::new(crc, start).up_to(text, at);
            check_at(text, sum)
        }
        Checks::Right => right_at(text, at, crc, start),
    }
}

/// The same of a check that is known to be right: its octets are passed over.
#[tactic(auto, unfolding(crate::specs::Check::crc_field))]
fn right_at(text: &[u8], at: usize, crc: u8, start: usize) -> Result<((), usize), Refused7>
    requires place { at ≤ length text.now }
    requires right { IsOk (read (crc_field crc start) text.now at) }
    ensures within { IfOk result (λ x. IsOn at text.now x.1) }
    ensures exact { Gives (λ _. tt) refused result (read (crc_field crc start) text.now at) }
{
    match crc {
        0 => Ok(((), at)),
        1 => {
            let (_, at) = exactly(text, at, BYTE_STRING, 2, Cause7::Crc)?;
            let (_, at) = octets(text, at, 2, Cause7::Crc)?;
            Ok(((), at))
        }
        _ => {
            let (_, at) = exactly(text, at, BYTE_STRING, 4, Cause7::Crc)?;
            let (_, at) = octets(text, at, 4, Cause7::Crc)?;
            Ok(((), at))
        }
    }
}

/// The octets of a check, which are these.
fn matches_at(text: &[u8], at: usize, check: &[u8]) -> Result<((), usize), Refused7>
    requires { at ≤ length text.now }
    ensures within { IfOk result (λ x. IsOn at text.now x.1) }
    ensures exact { Gives (λ _. check.now) refused result
        (read (exact_octets (length check.now) check.now) text.now at) }
{
    let (found, after) = octets(text, at, check.len() as u64, Cause7::Crc)?;
    if found != check {
        return Err(Cause7::Crc.at(at));
    }
    Ok(((), after))
}

/// The CRC-16 of a block, whose own two octets stand after these and are taken as zero.
pub(crate) fn sixteen(block: &[u8]) -> [u8; 2]
    ensures { result ≡ check16 block.now }
{
    Register16::new()
        .update(block)
        .update(&[0; 2])
        .finish()
        .to_be_bytes()
}

/// The CRC-32C of a block, whose own four octets stand after these and are taken as zero.
pub(crate) fn thirty_two(block: &[u8]) -> [u8; 4]
    ensures { result ≡ check32 block.now }
{
    Register32::new()
        .update(block)
        .update(&[0; 4])
        .finish()
        .to_be_bytes()
}

/// The octets of a block as far as they have come, summed for a check of its type.
#[derive(Clone, Copy)]
pub(crate) struct Sum {
    /// The type of the check.
    pub(crate) crc: u8,
    /// Where the block begins.
    pub(crate) from: usize,
    /// Up to where its octets are summed.
    pub(crate) to: usize,
    short: Register16,
    long: Register32,
}

impl Sum {
    /// The sum of no octets of a block that begins at a place.
    pub(crate) fn new(crc: u8, from: usize) -> Sum
        ensures sums { (text : List ℕ) → from ≤ length text → Sums text result }
        ensures crc { result.crc ≡ crc }
        ensures from { result.from ≡ from }
        ensures to { result.to ≡ from }
    {
        Sum {
            crc,
            from,
            to: from,
            short: Register16::new(),
            long: Register32::new(),
        }
    }

    /// The sum up to a later place.
    pub(crate) fn up_to(self, text: &[u8], to: usize) -> Sum
        requires sums { Sums text.now self }
        requires later { self.to ≤ to }
        requires within { to ≤ length text.now }
        ensures sums { Sums text.now result }
        ensures crc { result.crc ≡ self.crc }
        ensures from { result.from ≡ self.from }
        ensures to { result.to ≡ to }
    {
        let octets = &text[self.to..to];
        let crc = self.crc;
        if crc == 0 {
            return Sum { to, ..self };
        }
        if crc == 1 {
            Sum {
                to,
                short: self.short.update(octets),
                ..self
            }
        } else {
            Sum {
                to,
                long: self.long.update(octets),
                ..self
            }
        }
    }

    /// The CRC-16 of the block up to a later place.
    fn sixteen(self, text: &[u8], to: usize) -> [u8; 2]
        requires sums { Sums text.now self }
        requires later { self.to ≤ to }
        requires within { to ≤ length text.now }
        requires crc { self.crc ≡ 1 }
        ensures { result ≡ check16 (between self.from to text.now) }
    {
        self.short
            .update(&text[self.to..to])
            .update(&[0; 2])
            .finish()
            .to_be_bytes()
    }

    /// The CRC-32C of the block up to a later place.
    fn thirty_two(self, text: &[u8], to: usize) -> [u8; 4]
        requires sums { Sums text.now self }
        requires later { self.to ≤ to }
        requires within { to ≤ length text.now }
        requires zero { (self.crc == 0) ≡ false }
        requires one { (self.crc == 1) ≡ false }
        ensures { result ≡ check32 (between self.from to text.now) }
    {
        self.long
            .update(&text[self.to..to])
            .update(&[0; 4])
            .finish()
            .to_be_bytes()
    }
}

/// The check of a block that is summed up to it; nothing for type 0.
#[tactic(auto, unfolding(crate::specs::Check::crc_field))]
pub(crate) fn check_at(text: &[u8], sum: Sum) -> Result<((), usize), Refused7>
    requires { Sums text.now sum }
    ensures within { IfOk result (λ x. IsOn sum.to text.now x.1) }
    ensures exact { Gives (λ _. tt) refused result (read (crc_field sum.crc sum.from) text.now sum.to) }
{
    let at = sum.to;
    match sum.crc {
        0 => Ok(((), at)),
        1 => {
            let (_, at) = exactly(text, at, BYTE_STRING, 2, Cause7::Crc)?;
            let check = sum.sixteen(text, at);
            matches_at(text, at, &check)
        }
        _ => {
            let (_, at) = exactly(text, at, BYTE_STRING, 4, Cause7::Crc)?;
            let check = sum.thirty_two(text, at);
            matches_at(text, at, &check)
        }
    }
}
