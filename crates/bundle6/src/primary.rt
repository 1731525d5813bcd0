//! The primary block.

ghost use Rattle.std.specs.Prelude.{◌≡◌, ◌-◌, ◌==◌, ◌≤◌, length, true, false, OnOk, IfOk, IfErr};
ghost use Rattle.wire_fields.specs.Refusal.{because};
ghost use Rattle.wire_fields.specs.Reading.{read};
ghost use Rattle.wire_fields.specs.Words.{test, optional, exact_octet};
ghost use Rattle.wire_fields.specs.Gives.{Gives, IsOn};
ghost use Rattle.bundle6.specs.Bits.{has_bit};
ghost use Rattle.bundle6.specs.Cause.{refusal, refused, refused_at};
ghost use Rattle.bundle6.specs.Table.{fragment, primary};

use crate::fault::{Cause6, Fail6, Refused6};
use crate::fields::{number, octet};
use crate::flags::{FRAGMENT, has_bit};
use crate::names::{Named, dictionary_at, four_names_at};
use endpoint::{Endpoint, Fragment};
use std::alloc::Global;

/// The primary block's values (RFC 5050, section 4.5). Checksums have none.
#[derive(Debug, Drop, PartialEq, Eq)]
pub struct Primary6 {
    /// The bundle's flags, by bit: 0 fragment, 1 administrative, 2 must not be fragmented, 3 custody
    /// asked, 4 singleton destination, 5 acknowledgement asked, 7 and 8 priority, 14 to 18 reports on
    /// reception, custody, forwarding, delivery and deletion. Others are kept as they are.
    pub flags: u64,
    /// Whom the bundle is for.
    pub destination: Endpoint,
    /// Who sent it.
    pub source: Endpoint,
    /// Who gets reports on it.
    pub report_to: Endpoint,
    /// Who has its custody.
    pub custodian: Endpoint,
    /// When it was made, in seconds since the start of the year 2000 UTC.
    pub seconds: u64,
    /// Which of the bundles of that second it is.
    pub sequence: u64,
    /// For how many seconds it lives.
    pub lifetime: u64,
    /// Where its payload lies in the whole, if and only if flag bit 0 is set.
    pub fragment: Option<Fragment>,
}

/// The version's octet.
#[inline(always)]
pub(crate) fn version_at(text: &[u8], at: usize) -> Result<(u8, usize), Refused6>
    requires { at ≤ length text.now }
    ensures within { IfOk result (λ x. IsOn at text.now x.1) }
    ensures exact { Gives (λ version. version) refused_at result
        (read (exact_octet 6 Cause6.Version) text.now at) }
{
    let (version, after) = octet(text, at, Cause6::Version)?;
    if version != 6 {
        return Err(Cause6::Version.at(at));
    }
    Ok((version, after))
}

/// Offset and total of a fragment, where the flags say that the bundle is one.
#[inline(always)]
#[tactic(auto, unfolding(crate::specs::Table::fragment))]
pub(crate) fn fragment_at(
    text: &[u8],
    at: usize,
    flags: u64,
) -> Result<(Option<Fragment>, usize), Refused6>
    requires { at ≤ length text.now }
    ensures within { IfOk result (λ x. IsOn at text.now x.1) }
    ensures exact { Gives (λ part. part) refused_at result
        (read (optional (has_bit 0 flags) fragment) text.now at) }
{
    if !has_bit(flags, FRAGMENT) {
        return Ok((None, at));
    }
    let (offset, at) = number(text, at)?;
    let (total, at) = number(text, at)?;
    Ok((Some(Fragment { offset, total }), at))
}

/// The end of the primary block: so many octets stand after the start of what its length counts.
#[inline(always)]
pub(crate) fn end_at(start: usize, at: usize, size: u64) -> Result<(), Refused6>
    requires { start ≤ at }
    ensures here { OnOk result ((at - start == size) ≡ true) }
    ensures elsewhere { IfErr result (λ fail.
        ((at - start == size) ≡ false) × (fail ≡ refused at Cause6.PrimaryEnd)) }
{
    if (at - start) as u64 != size {
        return Err(Cause6::PrimaryEnd.at(at));
    }
    Ok(())
}

/// The primary block, and the dictionary.
#[tactic(auto, unfolding(crate::specs::Table::primary))]
pub(crate) fn primary_at(
    alloc: Global,
    text: &[u8],
    at: usize,
) -> Result<((Primary6, &[u8]), usize), Fail6>
    requires { at ≤ length text.now }
    ensures within { IfOk result (λ x. IsOn at text.now x.1) }
    ensures exact { Gives (λ found. (found.0, found.1.now)) refusal result
        (read primary text.now at) }
{
    let (_, at) = version_at(text, at)?;
    let (flags, at) = number(text, at)?;
    let (size, start) = number(text, at)?;
    let (pairs, at) = four_names_at(text, start)?;
    let (seconds, at) = number(text, at)?;
    let (sequence, at) = number(text, at)?;
    let (lifetime, at) = number(text, at)?;
    let ((names, dictionary), at) = dictionary_at(alloc, text, at, pairs)?;
    let (fragment, at) = fragment_at(text, at, flags)?;
    end_at(start, at, size)?;
    let Named {
        destination,
        source,
        report_to,
        custodian,
    } = names;
    let primary = Primary6 {
        flags,
        destination,
        source,
        report_to,
        custodian,
        seconds,
        sequence,
        lifetime,
        fragment,
    };
    Ok(((primary, dictionary), at))
}
