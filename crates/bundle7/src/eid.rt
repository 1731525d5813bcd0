//! Endpoints as a bundle spells them (RFC 9171, section 4.2.5).

ghost use Rattle.std.specs.Prelude.{◌≡◌, ◌≤◌, ◌++◌, [], ℕ, length, take, true, IfOk, OnOk, OnErr, Ok, Err};
ghost use Rattle.endpoint.specs.declared.name.Endpoint.{Endpoint};
ghost use Rattle.wire_fields.specs.Format.{Spells};
ghost use Rattle.wire_fields.specs.Refusal.{Begins};
ghost use Rattle.wire_fields.specs.Reading.{read};
ghost use Rattle.wire_fields.specs.Whole.{read_whole};
ghost use Rattle.wire_fields.specs.Gives.{Gives, IsOn};
ghost use Rattle.bundle7.specs.Cause.{refused};
ghost use Rattle.bundle7.specs.Eid.{may_lead, dtn_lead, ssp, dtn_rest, dtn_name, ipn_name, scheme, eid};
ghost use Rattle.bundle7.specs.Spelling.{eid_octets};
ghost use Rattle.bundle7.specs.Calls.{GivesEid, IsShortIpn};
ghost use Rattle.bundle7.specs.Lent.{endpoint_of};

use crate::fault::{Cause7, EidFault, Refused7};
use crate::fields::{exactly, octets, unsigned};
use cbor_lite::{write_array, write_text, write_uint};
use endpoint::{Endpoint, Octets, is_ssp};
use std::alloc::{AllocError, Global};
use wire_fields::{ARRAY, UnsignedOrText, unsigned_or_text_at};

/// Reads the endpoint at the front, and how many octets it took. More may follow.
pub fn read_eid(alloc: Global, bytes: &[u8]) -> Result<(Endpoint, usize), EidFault>
    // What is read is spelled so.
    ensures found { IfOk result (λ x. Begins eid bytes.now x.1 x.0) }
    // What is spelled so is read, unless memory runs out.
    ensures only { (e : Endpoint) (k : ℕ) → Begins eid bytes.now k e
        → GivesEid result (Ok (e, k)) }
    // What is refused isn't spelled, whatever follows.
    ensures refused { result ≡ Err EidFault.Eid
        → (e : Endpoint) (k : ℕ) → Begins eid bytes.now k e → ⊥ }
    // Memory is wanted only for an endpoint that is spelled.
    ensures memory { result ≡ Err EidFault.Memory
        → (e : Endpoint) × (k : ℕ) × Begins eid bytes.now k e }
{
    front_eid(alloc, bytes)
}

/// The endpoint at the front.
fn front_eid(alloc: Global, bytes: &[u8]) -> Result<(Endpoint, usize), EidFault>
    ensures { GivesEid result (read eid bytes.now 0) }
{
    match eid_at(bytes, 0) {
        Ok((lent, after)) => Ok((lent.owned(alloc)?, after)),
        Err(_) => Err(EidFault::Eid),
    }
}

/// The endpoint that a previous node block's body is: exactly one, and nothing follows it.
pub fn previous_of(alloc: Global, body: &[u8]) -> Result<Endpoint, EidFault>
    // What is read is spelled so.
    ensures found { IfOk result (λ e. Spells eid [] body.now e) }
    // What is spelled so is read, unless memory runs out.
    ensures only { (e : Endpoint) → Spells eid [] body.now e → GivesEid result (Ok e) }
    // What is refused isn't spelled.
    ensures refused { result ≡ Err EidFault.Eid → (e : Endpoint) → Spells eid [] body.now e → ⊥ }
    // Memory is wanted only for an endpoint that is spelled.
    ensures memory { result ≡ Err EidFault.Memory → (e : Endpoint) × Spells eid [] body.now e }
{
    whole_eid(alloc, body)
}

/// The endpoint that the octets are, and nothing more.
fn whole_eid(alloc: Global, body: &[u8]) -> Result<Endpoint, EidFault>
    ensures { GivesEid result (read_whole eid Cause7.Eid body.now) }
{
    match eid_at(body, 0) {
        Ok((lent, end)) if end == body.len() => Ok(lent.owned(alloc)?),
        _ => Err(EidFault::Eid),
    }
}

/// Appends an endpoint. Where memory runs out, what was written stays as it was.
pub fn write_eid(endpoint: &Endpoint, out: &mut Vec<u8>) -> Result<(), AllocError>
    ensures written { OnOk result (out.new.items ≡ out.old.items ++ eid_octets endpoint.now) }
    ensures kept { OnErr result (out.new.items ≡ out.old.items) }
{
    let before = out.len();
    let written = append_eid(endpoint, out);
    if written.is_err() {
        out.truncate(before);
    }
    written
}

/// The same; where memory runs out, a front of the endpoint may be written.
pub(crate) fn append_eid(endpoint: &Endpoint, out: &mut Vec<u8>) -> Result<(), AllocError>
    ensures written { OnOk result (out.new.items ≡ out.old.items ++ eid_octets endpoint.now) }
    ensures kept { OnErr result (take (length out.old.items) out.new.items ≡ out.old.items) }
{
    write_array(2, out)?;
    match endpoint {
        Endpoint::Null => {
            write_uint(1, out)?;
            write_uint(0, out)?;
        }
        Endpoint::Ipn { node, service } => {
            write_uint(2, out)?;
            write_array(2, out)?;
            write_uint(*node, out)?;
            write_uint(*service, out)?;
        }
        Endpoint::Dtn(ssp) => {
            write_uint(1, out)?;
            write_text(ssp.as_slice(), out)?;
        }
    }
    Ok(())
}

/// An endpoint whose text is lent out of the octets.
#[derive(Clone, Copy)]
pub(crate) enum LentEndpoint<'a> {
    Null,
    Ipn { node: u64, service: u64 },
    Dtn(&'a [u8]),
}

impl LentEndpoint<'_> {
    /// The endpoint, with octets of its own.
    pub(crate) fn owned(self, alloc: Global) -> Result<Endpoint, AllocError>
        ensures { IfOk result (λ e. e ≡ endpoint_of self.entry) }
    {
        Ok(match self {
            LentEndpoint::Null => Endpoint::Null,
            LentEndpoint::Ipn { node, service } => Endpoint::Ipn { node, service },
            LentEndpoint::Dtn(ssp) => Endpoint::Dtn(Octets::from_slice(alloc, ssp)?),
        })
    }
}

/// An endpoint. Most have the scheme ipn and numbers of one octet each, and are told by their five octets.
#[inline(always)]
pub(crate) fn eid_at(text: &[u8], at: usize) -> Result<(LentEndpoint<'_>, usize), Refused7>
    requires { at ≤ length text.now }
    ensures within { IfOk result (λ x. IsOn at text.now x.1) }
    ensures exact { Gives endpoint_of refused result (read eid text.now at) }
{
    if is_short_ipn(text, at) {
        let node = u64::from(text[at + 3]);
        let service = u64::from(text[at + 4]);
        return Ok((LentEndpoint::Ipn { node, service }, at + 5));
    }
    any_eid_at(text, at)
}

/// Whether five octets at a place are an endpoint of the scheme ipn whose numbers have one octet each.
#[inline(always)]
fn is_short_ipn(text: &[u8], at: usize) -> bool
    requires { at ≤ length text.now }
    ensures { result ≡ true → IsShortIpn text.now at }
{
    text.len() - at >= 5
        && text[at] == 0x82
        && text[at + 1] == 2
        && text[at + 2] == 0x82
        && text[at + 3] < 24
        && text[at + 4] < 24
}

/// An endpoint, however it is spelled.
#[tactic(auto, unfolding(crate::specs::Eid::eid))]
fn any_eid_at(text: &[u8], at: usize) -> Result<(LentEndpoint<'_>, usize), Refused7>
    requires { at ≤ length text.now }
    ensures within { IfOk result (λ x. IsOn at text.now x.1) }
    ensures exact { Gives endpoint_of refused result (read eid text.now at) }
{
    let (_, at) = exactly(text, at, ARRAY, 2, Cause7::Eid)?;
    let (number, at) = scheme_at(text, at)?;
    match number {
        1 => dtn_name_at(text, at),
        _ => ipn_name_at(text, at),
    }
}

/// The number of a scheme: 1 for dtn, 2 for ipn.
#[inline(always)]
fn scheme_at(text: &[u8], at: usize) -> Result<(u64, usize), Refused7>
    requires { at ≤ length text.now }
    ensures within { IfOk result (λ x. IsOn at text.now x.1) }
    ensures exact { Gives (λ n. n) refused result (read scheme text.now at) }
{
    let (number, after) = unsigned(text, at, Cause7::Eid)?;
    if number != 1 && number != 2 {
        return Err(Cause7::Eid.at(at));
    }
    Ok((number, after))
}

/// What the scheme dtn has: 0 for nobody, or a text.
#[inline(always)]
#[tactic(auto, unfolding(crate::specs::Eid::dtn_name))]
fn dtn_name_at(text: &[u8], at: usize) -> Result<(LentEndpoint<'_>, usize), Refused7>
    requires { at ≤ length text.now }
    ensures within { IfOk result (λ x. IsOn at text.now x.1) }
    ensures exact { Gives endpoint_of refused result (read dtn_name text.now at) }
{
    let (lead, at) = dtn_lead_at(text, at)?;
    match lead {
        UnsignedOrText::Unsigned(_) => Ok((LentEndpoint::Null, at)),
        UnsignedOrText::Text(count) => {
            let (ssp, at) = ssp_at(text, at, count)?;
            Ok((LentEndpoint::Dtn(ssp), at))
        }
    }
}

/// The number 0, or the head of a text.
#[inline(always)]
fn dtn_lead_at(text: &[u8], at: usize) -> Result<(UnsignedOrText, usize), Refused7>
    requires { at ≤ length text.now }
    ensures within { IfOk result (λ x. IsOn at text.now x.1) }
    ensures exact { Gives (λ lead. lead) refused result (read dtn_lead text.now at) }
{
    match unsigned_or_text_at(text, at) {
        Ok((UnsignedOrText::Unsigned(0), after)) => Ok((UnsignedOrText::Unsigned(0), after)),
        Ok((UnsignedOrText::Text(count), after)) => Ok((UnsignedOrText::Text(count), after)),
        Ok(_) => Err(Cause7::Eid.at(at)),
        Err(miss) => Err(Cause7::Eid.missed(at, miss)),
    }
}

/// A scheme-specific part of so many octets.
fn ssp_at(text: &[u8], at: usize, count: u64) -> Result<(&[u8], usize), Refused7>
    requires { at ≤ length text.now }
    ensures within { IfOk result (λ x. IsOn at text.now x.1) }
    ensures exact { Gives (λ lent. lent.now) refused result (read (ssp count) text.now at) }
{
    let (ssp, after) = octets(text, at, count, Cause7::Eid)?;
    if !is_ssp(ssp) {
        return Err(Cause7::Eid.at(at));
    }
    Ok((ssp, after))
}

/// What the scheme ipn has: the numbers of node and service.
#[inline(always)]
#[tactic(auto, unfolding(crate::specs::Eid::ipn_name))]
fn ipn_name_at(text: &[u8], at: usize) -> Result<(LentEndpoint<'_>, usize), Refused7>
    requires { at ≤ length text.now }
    ensures within { IfOk result (λ x. IsOn at text.now x.1) }
    ensures exact { Gives endpoint_of refused result (read ipn_name text.now at) }
{
    let (_, at) = exactly(text, at, ARRAY, 2, Cause7::Eid)?;
    let (node, at) = unsigned(text, at, Cause7::Eid)?;
    let (service, at) = unsigned(text, at, Cause7::Eid)?;
    Ok((LentEndpoint::Ipn { node, service }, at))
}
