//! The primary block.

ghost use Rattle.std.specs.Prelude.{◌≡◌, ◌≤◌, ◌+◌, length, IfOk};
ghost use Rattle.wire_fields.specs.Reading.{read};
ghost use Rattle.wire_fields.specs.Words.{optional};
ghost use Rattle.wire_fields.specs.Gives.{Gives, IsOn};
ghost use Rattle.bundle7.specs.Cause.{refused};
ghost use Rattle.bundle7.specs.Table.{is_fragment, main_items, crc_type_field, opening, names, creation, fragment, primary};
ghost use Rattle.bundle7.specs.Lent.{names_of, primary_of};
ghost use Rattle.bundle7.specs.Known.{Knows};

use crate::check::{Checks, crc_at};
use crate::eid::{LentEndpoint, eid_at};
use crate::fault::{Cause7, Refused7};
use crate::fields::{exactly, item, unsigned};
use endpoint::{Endpoint, Fragment};
use std::alloc::{AllocError, Global};
use wire_fields::{ARRAY, UNSIGNED};

/// The primary block's values (RFC 9171, section 4.3.1).
#[derive(Debug, Drop, PartialEq, Eq)]
pub struct Primary7 {
    /// The bundle's flags, by bit: 0 fragment, 1 administrative, 2 must not be fragmented, 5
    /// acknowledgement asked, 6 status time wanted, 14, 16, 17 and 18 reports on reception,
    /// forwarding, delivery and deletion. Others are kept as they are.
    pub flags: u64,
    /// The check of the block: 0 none, 1 CRC-16 X-25, 2 CRC-32C.
    pub crc: u8,
    /// Whom the bundle is for.
    pub destination: Endpoint,
    /// Who sent it.
    pub source: Endpoint,
    /// Who gets reports on it.
    pub report_to: Endpoint,
    /// When it was made, in milliseconds since the start of the year 2000 UTC.
    pub millis: u64,
    /// Which of the bundles of that millisecond it is.
    pub sequence: u64,
    /// For how many milliseconds it lives.
    pub lifetime: u64,
    /// Where its payload lies in the whole, if and only if flag bit 0 is set.
    pub fragment: Option<Fragment>,
}

/// What the primary block begins with.
#[derive(Clone, Copy)]
pub(crate) struct Opening {
    pub(crate) flags: u64,
    pub(crate) crc: u8,
}

/// The three endpoints of the primary block, lent out of the octets.
#[derive(Clone, Copy)]
pub(crate) struct LentNames<'a> {
    pub(crate) destination: LentEndpoint<'a>,
    pub(crate) source: LentEndpoint<'a>,
    pub(crate) report_to: LentEndpoint<'a>,
}

/// The creation timestamp.
#[derive(Clone, Copy)]
pub(crate) struct Creation {
    pub(crate) millis: u64,
    pub(crate) sequence: u64,
}

/// The primary block, lent out of the octets.
#[derive(Clone, Copy)]
pub(crate) struct LentPrimary<'a> {
    pub(crate) opening: Opening,
    pub(crate) names: LentNames<'a>,
    pub(crate) creation: Creation,
    pub(crate) lifetime: u64,
    pub(crate) fragment: Option<Fragment>,
}

impl LentPrimary<'_> {
    /// The primary block, with octets of its own.
    pub(crate) fn owned(self, alloc: Global) -> Result<Primary7, AllocError>
        ensures { IfOk result (λ p. p ≡ primary_of self.entry) }
    {
        let LentPrimary {
            opening,
            names,
            creation,
            lifetime,
            fragment,
        } = self;
        Ok(Primary7 {
            flags: opening.flags,
            crc: opening.crc,
            destination: names.destination.owned(alloc)?,
            source: names.source.owned(alloc)?,
            report_to: names.report_to.owned(alloc)?,
            millis: creation.millis,
            sequence: creation.sequence,
            lifetime,
            fragment,
        })
    }
}

/// The primary block.
#[inline(always)]
#[tactic(auto, unfolding(crate::specs::Table::primary))]
pub(crate) fn primary_at(
    text: &[u8],
    at: usize,
    checks: Checks,
) -> Result<(LentPrimary<'_>, usize), Refused7>
    requires place { at ≤ length text.now }
    requires knows { Knows checks (read primary text.now at) }
    ensures within { IfOk result (λ x. IsOn at text.now x.1) }
    ensures exact { Gives primary_of refused result (read primary text.now at) }
{
    let start = at;
    let (opening, at) = opening_at(text, at)?;
    let (names, at) = names_at(text, at)?;
    let (creation, at) = creation_at(text, at)?;
    let (lifetime, at) = unsigned(text, at, Cause7::Number)?;
    let (fragment, at) = optional_fragment_at(text, at, opening.flags)?;
    let (_, at) = crc_at(text, at, opening.crc, start, checks)?;
    let primary = LentPrimary {
        opening,
        names,
        creation,
        lifetime,
        fragment,
    };
    Ok((primary, at))
}

/// The array's head, the version, the flags and the type of the check.
#[inline(always)]
#[tactic(auto, unfolding(crate::specs::Table::opening))]
fn opening_at(text: &[u8], at: usize) -> Result<(Opening, usize), Refused7>
    requires { at ≤ length text.now }
    ensures within { IfOk result (λ x. IsOn at text.now x.1) }
    ensures exact { Gives (λ o. o) refused result (read opening text.now at) }
{
    let (items, at) = main_items_at(text, at)?;
    let (_, at) = exactly(text, at, UNSIGNED, 7, Cause7::Version)?;
    let (flags, at) = unsigned(text, at, Cause7::Number)?;
    let bare = if flags % 2 == 1 { 10 } else { 8 };
    let (crc, at) = crc_type_at(text, at, items, bare)?;
    Ok((Opening { flags, crc }, at))
}

/// The head of an array of 8 to 11 items.
#[inline(always)]
fn main_items_at(text: &[u8], at: usize) -> Result<(u64, usize), Refused7>
    requires { at ≤ length text.now }
    ensures within { IfOk result (λ x. IsOn at text.now x.1) }
    ensures exact { Gives (λ n. n) refused result (read main_items text.now at) }
{
    let (items, after) = item(text, at, ARRAY, Cause7::Head)?;
    if items < 8 || 11 < items {
        return Err(Cause7::Head.at(at));
    }
    Ok((items, after))
}

/// The type of a check, in an array of so many items that has so many without the check.
#[inline(always)]
pub(crate) fn crc_type_at(
    text: &[u8],
    at: usize,
    items: u64,
    bare: u64,
) -> Result<(u8, usize), Refused7>
    requires place { at ≤ length text.now }
    requires few { bare ≤ 10 }
    ensures within { IfOk result (λ x. IsOn at text.now x.1) }
    ensures exact { Gives (λ n. n) refused result (read (crc_type_field items bare) text.now at) }
{
    let (crc, after) = unsigned(text, at, Cause7::CrcType)?;
    if crc >= 3 {
        return Err(Cause7::CrcType.at(at));
    }
    let check = if crc == 0 { 0 } else { 1 };
    if items != bare + check {
        return Err(Cause7::ItemCount.at(at));
    }
    Ok((crc as u8, after))
}

/// Destination, source and report-to.
#[inline(always)]
#[tactic(auto, unfolding(crate::specs::Table::names))]
fn names_at(text: &[u8], at: usize) -> Result<(LentNames<'_>, usize), Refused7>
    requires { at ≤ length text.now }
    ensures within { IfOk result (λ x. IsOn at text.now x.1) }
    ensures exact { Gives names_of refused result (read names text.now at) }
{
    let (destination, at) = eid_at(text, at)?;
    let (source, at) = eid_at(text, at)?;
    let (report_to, at) = eid_at(text, at)?;
    let names = LentNames {
        destination,
        source,
        report_to,
    };
    Ok((names, at))
}

/// The creation timestamp.
#[inline(always)]
#[tactic(auto, unfolding(crate::specs::Table::creation))]
fn creation_at(text: &[u8], at: usize) -> Result<(Creation, usize), Refused7>
    requires { at ≤ length text.now }
    ensures within { IfOk result (λ x. IsOn at text.now x.1) }
    ensures exact { Gives (λ c. c) refused result (read creation text.now at) }
{
    let (_, at) = exactly(text, at, ARRAY, 2, Cause7::Timestamp)?;
    let (millis, at) = unsigned(text, at, Cause7::Number)?;
    let (sequence, at) = unsigned(text, at, Cause7::Number)?;
    Ok((Creation { millis, sequence }, at))
}

/// Where a fragment lies.
#[tactic(auto, unfolding(crate::specs::Table::fragment))]
fn fragment_at(text: &[u8], at: usize) -> Result<(Fragment, usize), Refused7>
    requires { at ≤ length text.now }
    ensures within { IfOk result (λ x. IsOn at text.now x.1) }
    ensures exact { Gives (λ f. f) refused result (read fragment text.now at) }
{
    let (offset, at) = unsigned(text, at, Cause7::Number)?;
    let (total, at) = unsigned(text, at, Cause7::Number)?;
    Ok((Fragment { offset, total }, at))
}

/// The same, where the flags say that the bundle is one.
#[inline(always)]
fn optional_fragment_at(
    text: &[u8],
    at: usize,
    flags: u64,
) -> Result<(Option<Fragment>, usize), Refused7>
    requires { at ≤ length text.now }
    ensures within { IfOk result (λ x. IsOn at text.now x.1) }
    ensures exact { Gives (λ f. f) refused result (read (optional (is_fragment flags) fragment) text.now at) }
{
    if flags % 2 == 1 {
        let (fragment, at) = fragment_at(text, at)?;
        Ok((Some(fragment), at))
    } else {
        Ok((None, at))
    }
}
