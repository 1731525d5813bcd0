//! The bodies of the extension blocks that are known here (RFC 9171, section 4.4).

ghost use Rattle.std.specs.Prelude.{◌≡◌, ◌≤◌, [], ℕ, length, Some, IfOk, IfSome};
ghost use Rattle.std.specs.Result.{result_ok};
ghost use Rattle.wire_fields.specs.Format.{Spells};
ghost use Rattle.wire_fields.specs.Reading.{read};
ghost use Rattle.wire_fields.specs.Whole.{read_whole};
ghost use Rattle.wire_fields.specs.Gives.{Gives, IsOn};
ghost use Rattle.bundle7.specs.declared.body.Hop.{Hop};
ghost use Rattle.bundle7.specs.Cause.{refused};
ghost use Rattle.bundle7.specs.Eid.{eid};
ghost use Rattle.bundle7.specs.Body.{age, hop_limit, hop, is_whole, is_body};

use crate::eid::eid_at;
use crate::fault::{Cause7, Refused7};
use crate::fields::{exactly, unsigned};
use wire_fields::ARRAY;

/// The block type of a previous node.
pub(crate) const PREVIOUS_NODE: u64 = 6;
/// The block type of a bundle age.
pub(crate) const BUNDLE_AGE: u64 = 7;
/// The block type of a hop count.
pub(crate) const HOP_COUNT: u64 = 10;

/// The body of a hop count block.
#[derive(Clone, Copy, Debug, PartialEq, Eq)]
pub struct Hop {
    /// The most hops, 1 to 255.
    pub limit: u64,
    /// How many there were.
    pub count: u64,
}

/// The hop count that the octets of a body are, if they are exactly that.
pub fn hop_of(body: &[u8]) -> Option<Hop>
    ensures found { IfSome result (λ h. Spells hop [] body.now h) }
    ensures only { (h : Hop) → Spells hop [] body.now h → result ≡ Some h }
{
    whole_hop(body)
}

/// The bundle age in milliseconds that the octets of a body are, if they are exactly that.
pub fn age_of(body: &[u8]) -> Option<u64>
    ensures found { IfSome result (λ n. Spells age [] body.now n) }
    ensures only { (n : ℕ) → Spells age [] body.now n → result ≡ Some n }
{
    whole_age(body)
}

/// Whether the octets are a body that a block of this type may have.
pub fn is_body(kind: u64, body: &[u8]) -> bool
    ensures { result ≡ is_body kind body.now }
{
    match kind {
        PREVIOUS_NODE => is_eid(body),
        BUNDLE_AGE => whole_age(body).is_some(),
        HOP_COUNT => whole_hop(body).is_some(),
        _ => true,
    }
}

/// Whether the octets are exactly one endpoint.
fn is_eid(body: &[u8]) -> bool
    ensures { result ≡ is_whole eid body.now }
{
    match eid_at(body, 0) {
        Ok((_, end)) => end == body.len(),
        Err(_) => false,
    }
}

/// The age, where the octets are exactly that.
fn whole_age(body: &[u8]) -> Option<u64>
    ensures { result ≡ result_ok (read_whole age Cause7.ExtensionBody body.now) }
{
    match unsigned(body, 0, Cause7::ExtensionBody) {
        Ok((age, end)) if end == body.len() => Some(age),
        _ => None,
    }
}

/// The hop count, where the octets are exactly that.
fn whole_hop(body: &[u8]) -> Option<Hop>
    ensures { result ≡ result_ok (read_whole hop Cause7.ExtensionBody body.now) }
{
    match hop_at(body, 0) {
        Ok((hop, end)) if end == body.len() => Some(hop),
        _ => None,
    }
}

/// A hop count.
#[tactic(auto, unfolding(crate::specs::Body::hop))]
fn hop_at(text: &[u8], at: usize) -> Result<(Hop, usize), Refused7>
    requires { at ≤ length text.now }
    ensures within { IfOk result (λ x. IsOn at text.now x.1) }
    ensures exact { Gives (λ h. h) refused result (read hop text.now at) }
{
    let (_, at) = exactly(text, at, ARRAY, 2, Cause7::ExtensionBody)?;
    let (limit, at) = hop_limit_at(text, at)?;
    let (count, at) = unsigned(text, at, Cause7::ExtensionBody)?;
    Ok((Hop { limit, count }, at))
}

/// The most hops, 1 to 255.
fn hop_limit_at(text: &[u8], at: usize) -> Result<(u64, usize), Refused7>
    requires { at ≤ length text.now }
    ensures within { IfOk result (λ x. IsOn at text.now x.1) }
    ensures exact { Gives (λ n. n) refused result (read hop_limit text.now at) }
{
    let (limit, after) = unsigned(text, at, Cause7::ExtensionBody)?;
    if limit < 1 || 255 < limit {
        return Err(Cause7::ExtensionBody.at(at));
    }
    Ok((limit, after))
}
