//! The bundles that are sent.

ghost use Rattle.std.specs.Prelude.{◌≡◌, ◌<◌, ◌^◌, IfOk};
ghost use Rattle.bundle6.specs.Spelling.{canon6};
ghost use Rattle.bundle7.specs.Spelling.{octets7};
ghost use Rattle.make_run.specs.Bundles.{payload_of, old_bundle, new_bundle, sender_of, bundle_octets};

use bundle6::{Block6, Blocks6, Bundle6, Primary6, encode6};
use bundle7::{Block7, Blocks7, Bundle7, Primary7, encode7};
use endpoint::{Endpoint, Octets, Refs};
use path_laws::PathEnd;
use std::alloc::{AllocError, Global};

/// The endpoint of the old node, or of the new one.
fn endpoint_of(node: u64) -> Endpoint
    ensures { result ≡ Endpoint.Ipn node 1 }
{
    Endpoint::Ipn { node, service: 1 }
}

/// The payload of the i-th bundle.
fn payload_of(alloc: Global, i: u64, size: usize) -> Result<Octets, AllocError>
    ensures { IfOk result (λ body. body ≡ payload_of i size) }
{
    let octet = (i % 256) as u8;
    Ok(Octets::from_vec(vec![in alloc; octet; size]?))
}

/// The i-th bundle, where the old node sends it.
#[tactic(auto, unfolding(crate::specs::Bundles::old_bundle))]
fn old_bundle(alloc: Global, i: u64, size: usize) -> Result<Bundle6, AllocError>
    ensures { IfOk result (λ bundle. bundle ≡ old_bundle i size) }
{
    let mut blocks = Blocks6::new(alloc);
    blocks.push(Block6 {
        kind: 1,
        flags: 0,
        refs: Refs::new(alloc),
        body: payload_of(alloc, i, size)?,
    })?;
    let primary = Primary6 {
        flags: 0x90,
        destination: endpoint_of(2),
        source: endpoint_of(1),
        report_to: Endpoint::Null,
        custodian: Endpoint::Null,
        seconds: 1_000,
        sequence: i,
        lifetime: 1_000_000,
        fragment: None,
    };
    Ok(Bundle6 { primary, blocks })
}

/// The i-th bundle, where the new node sends it.
#[tactic(auto, unfolding(crate::specs::Bundles::new_bundle))]
fn new_bundle(alloc: Global, i: u64, size: usize) -> Result<Bundle7, AllocError>
    requires { i < 2 ^ 32 }
    ensures { IfOk result (λ bundle. bundle ≡ new_bundle i size) }
{
    let payload = Block7 {
        kind: 1,
        number: 1,
        flags: 0,
        crc: 0,
        body: payload_of(alloc, i, size)?,
    };
    let primary = Primary7 {
        flags: 0,
        crc: 1,
        destination: endpoint_of(1),
        source: endpoint_of(2),
        report_to: Endpoint::Null,
        millis: 1_000_000 + i,
        sequence: 0,
        lifetime: 1_000_000_000,
        fragment: None,
    };
    Ok(Bundle7 {
        primary,
        exts: Blocks7::new(alloc),
        payload,
    })
}

/// The octets of the i-th bundle, where the old node sends it.
fn old_octets(alloc: Global, i: u64, size: usize) -> Result<Octets, AllocError>
    ensures { IfOk result (λ octets. octets ≡ canon6 (old_bundle i size)) }
{
    let bundle = old_bundle(alloc, i, size)?;
    encode6(alloc, &bundle)
}

/// The octets of the i-th bundle, where the new node sends it.
fn new_octets(alloc: Global, i: u64, size: usize) -> Result<Octets, AllocError>
    requires { i < 2 ^ 32 }
    ensures { IfOk result (λ octets. octets ≡ octets7 (new_bundle i size)) }
{
    let bundle = new_bundle(alloc, i, size)?;
    encode7(alloc, &bundle)
}

/// The end that sends the i-th bundle.
pub(crate) fn sender_of(i: u64) -> PathEnd
    ensures { result ≡ sender_of i }
{
    if i % 2 == 0 {
        PathEnd::Old
    } else {
        PathEnd::New
    }
}

/// The octets of the i-th bundle.
#[tactic(auto, unfolding(crate::specs::Bundles::bundle_octets))]
pub(crate) fn bundle_octets(alloc: Global, i: u64, size: usize) -> Result<Octets, AllocError>
    requires { i < 2 ^ 32 }
    ensures { IfOk result (λ octets. octets ≡ bundle_octets i size) }
{
    match sender_of(i) {
        PathEnd::Old => old_octets(alloc, i, size),
        PathEnd::New => new_octets(alloc, i, size),
    }
}
