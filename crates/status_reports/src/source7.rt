//! Who sent the subject, as a report of version 7 spells it (RFC 9171, section 4.2.5).

ghost use Rattle.std.specs.Prelude.{◌≡◌, ◌≤◌, length, IfOk};
ghost use Rattle.wire_fields.specs.Reading.{read};
ghost use Rattle.wire_fields.specs.Gives.{Gives, IsOn};
ghost use Rattle.bundle7.specs.Eid.{dtn_lead, ssp, dtn_name, ipn_name, scheme};
ghost use Rattle.status_reports.specs.Causes.{with_cause};
ghost use Rattle.status_reports.specs.Fields.{refusal, source7};
ghost use Rattle.status_reports.specs.Views.{endpoint_of};

use crate::fault::AdminFault;
use crate::field::{Unfit, absent, exactly, octets, unsigned};
use crate::lent::LentEndpoint;
use endpoint::is_ssp;
use wire_fields::{ARRAY, UnsignedOrText, unsigned_or_text_at};

/// The endpoint: the number of its scheme, and what the scheme has.
#[tactic(auto, unfolding(bundle7::specs::Eid::eid))]
pub(crate) fn source7_at(text: &[u8], at: usize) -> Result<(LentEndpoint<'_>, usize), Unfit>
    requires { at ≤ length text.now }
    ensures within { IfOk result (λ x. IsOn at text.now x.1) }
    ensures exact { Gives endpoint_of refusal result (read source7 text.now at) }
{
    let (_, at) = exactly(text, at, ARRAY, 2)?;
    let (number, at) = scheme_at(text, at)?;
    match number {
        1 => dtn_at(text, at),
        _ => ipn_at(text, at),
    }
}

/// The number of a scheme: 1 for dtn, 2 for ipn.
fn scheme_at(text: &[u8], at: usize) -> Result<(u64, usize), Unfit>
    requires { at ≤ length text.now }
    ensures within { IfOk result (λ x. IsOn at text.now x.1) }
    ensures exact { Gives (λ n. n) refusal result
        (read (with_cause AdminFault.BadAdmin scheme) text.now at) }
{
    let (number, after) = unsigned(text, at)?;
    if number != 1 && number != 2 {
        return Err(absent(at));
    }
    Ok((number, after))
}

/// What the scheme dtn has: 0 for nobody, or a text.
#[tactic(auto, unfolding(bundle7::specs::Eid::dtn_name))]
fn dtn_at(text: &[u8], at: usize) -> Result<(LentEndpoint<'_>, usize), Unfit>
    requires { at ≤ length text.now }
    ensures within { IfOk result (λ x. IsOn at text.now x.1) }
    ensures exact { Gives endpoint_of refusal result
        (read (with_cause AdminFault.BadAdmin dtn_name) text.now at) }
{
    let (lead, at) = dtn_lead_at(text, at)?;
    match lead {
        UnsignedOrText::Unsigned(_) => Ok((LentEndpoint::Null, at)),
        UnsignedOrText::Text(count) => {
            let (ssp, at) = ssp_at(text, at, count)?;
            Ok((LentEndpoint::Dtn(ssp), at))
        }
    }
}

/// The number 0, or the head of a text.
fn dtn_lead_at(text: &[u8], at: usize) -> Result<(UnsignedOrText, usize), Unfit>
    requires { at ≤ length text.now }
    ensures within { IfOk result (λ x. IsOn at text.now x.1) }
    ensures exact { Gives (λ lead. lead) refusal result
        (read (with_cause AdminFault.BadAdmin dtn_lead) text.now at) }
{
    match unsigned_or_text_at(text, at) {
        Ok((UnsignedOrText::Unsigned(0), after)) => Ok((UnsignedOrText::Unsigned(0), after)),
        Ok((UnsignedOrText::Text(count), after)) => Ok((UnsignedOrText::Text(count), after)),
        Ok(_) => Err(absent(at)),
        Err(miss) => Err(Unfit { at, miss }),
    }
}

/// A scheme-specific part of so many octets.
fn ssp_at(text: &[u8], at: usize, count: u64) -> Result<(&[u8], usize), Unfit>
    requires { at ≤ length text.now }
    ensures within { IfOk result (λ x. IsOn at text.now x.1) }
    ensures exact { Gives (λ lent. lent.now) refusal result
        (read (with_cause AdminFault.BadAdmin (ssp count)) text.now at) }
{
    let (ssp, after) = octets(text, at, count)?;
    if !is_ssp(ssp) {
        return Err(absent(at));
    }
    Ok((ssp, after))
}

/// What the scheme ipn has: the numbers of node and service.
#[tactic(auto, unfolding(bundle7::specs::Eid::ipn_name))]
fn ipn_at(text: &[u8], at: usize) -> Result<(LentEndpoint<'_>, usize), Unfit>
    requires { at ≤ length text.now }
    ensures within { IfOk result (λ x. IsOn at text.now x.1) }
    ensures exact { Gives endpoint_of refusal result
        (read (with_cause AdminFault.BadAdmin ipn_name) text.now at) }
{
    let (_, at) = exactly(text, at, ARRAY, 2)?;
    let (node, at) = unsigned(text, at)?;
    let (service, at) = unsigned(text, at)?;
    Ok((LentEndpoint::Ipn { node, service }, at))
}
