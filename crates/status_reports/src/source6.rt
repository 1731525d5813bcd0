//! Who sent the subject, as a report of version 6 spells it: the length of a text, and the text.

ghost use Rattle.std.specs.Prelude.{◌≡◌, ◌≤◌, length, IfOk, option_map};
ghost use Rattle.std.specs.Result.{result_ok};
ghost use Rattle.endpoint.specs.Reading.{read_text, dtn_named, ipn_named};
ghost use Rattle.wire_fields.specs.Format.{give, and_then};
ghost use Rattle.wire_fields.specs.Reading.{read};
ghost use Rattle.wire_fields.specs.Gives.{Gives, IsOn};
ghost use Rattle.bundle_meaning.specs.Body.{name_text, name_of};
ghost use Rattle.status_reports.specs.Causes.{with_cause};
ghost use Rattle.status_reports.specs.Fields.{refusal, source6};
ghost use Rattle.status_reports.specs.Views.{endpoint_of};

use crate::fault::AdminFault;
use crate::field::{Unfit, absent, number, octets};
use crate::lent::LentEndpoint;
use endpoint::{Endpoint, ipn_named, is_ssp};

/// The endpoint of the scheme dtn with this scheme-specific part.
fn dtn_source(ssp: &[u8]) -> Option<LentEndpoint<'_>>
    ensures { option_map endpoint_of result ≡ dtn_named ssp.now }
{
    if ssp == b"none".as_slice() {
        return Some(LentEndpoint::Null);
    }
    if !is_ssp(ssp) {
        return None;
    }
    Some(LentEndpoint::Dtn(ssp))
}

/// The endpoint of the scheme ipn with this scheme-specific part.
fn ipn_source(ssp: &[u8]) -> Option<LentEndpoint<'_>>
    ensures { option_map endpoint_of result ≡ ipn_named ssp.now }
{
    match ipn_named(ssp) {
        Some(Endpoint::Ipn { node, service }) => Some(LentEndpoint::Ipn { node, service }),
        _ => None,
    }
}

/// The endpoint that a text names. No memory is taken.
#[tactic(auto, unfolding(endpoint::specs::Reading::read_text))]
fn named(text: &[u8]) -> Option<LentEndpoint<'_>>
    ensures { option_map endpoint_of result ≡ result_ok (read_text text.now) }
{
    if let Some(ssp) = text.strip_prefix(b"dtn:".as_slice()) {
        return dtn_source(ssp);
    }
    if let Some(ssp) = text.strip_prefix(b"ipn:".as_slice()) {
        return ipn_source(ssp);
    }
    None
}

/// The endpoint that a text of so many octets names.
fn text_at(text: &[u8], at: usize, size: u64) -> Result<(LentEndpoint<'_>, usize), Unfit>
    requires { at ≤ length text.now }
    ensures within { IfOk result (λ x. IsOn at text.now x.1) }
    ensures exact { Gives endpoint_of refusal result
        (read (with_cause AdminFault.BadAdmin
        (and_then (name_text size) (λ found. give (name_of found)))) text.now at) }
{
    let (found, behind) = octets(text, at, size)?;
    match named(found) {
        Some(source) => Ok((source, behind)),
        None => Err(absent(at)),
    }
}

/// The endpoint: the length of its text, and the text.
#[tactic(auto, unfolding(bundle_meaning::specs::Body::name))]
pub(crate) fn source6_at(text: &[u8], at: usize) -> Result<(LentEndpoint<'_>, usize), Unfit>
    requires { at ≤ length text.now }
    ensures within { IfOk result (λ x. IsOn at text.now x.1) }
    ensures exact { Gives endpoint_of refusal result (read source6 text.now at) }
{
    let (size, behind) = number(text, at)?;
    text_at(text, behind, size)
}
