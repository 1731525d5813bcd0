//! A gateway at which blocks come, time passes, and a piece of an earlier run is added.

ghost use Rattle.std.specs.Prelude.{◌≡◌, ◌≢◌, false, IfOk, OnOk};
ghost use Rattle.peer_gateway.specs.Views.{AreFaceKeys, AreMoments, IsConfig};

use crate::face::octets;
use block_types::BlockTypes;
use endpoint::{Endpoint, Octets};
use face_room::Bounds;
use gate_cases::{Face, GateCase};
use ltp_segment::Policy;
use peer_cases::PeerSettings;
use peer_gateway::{FaceMoments, Moments, PeerAnswer, PeerConfig, PeerGateway, Remark};
use peer_sessions::Keys;
use std::alloc::{AllocError, Global};
use std::test::Fail;

/// The keys of a face.
fn keys(own: u64, peer: u64, wanted: u64, policy: Policy) -> Keys
    requires { own ≢ peer }
    ensures { AreFaceKeys result }
{
    Keys {
        own,
        peer,
        first_session: 1,
        policy,
        bounds: Bounds {
            sessions: 64,
            memory: 33_554_432,
            wanted,
            segment: policy.segment as u64,
            outbox: 65_507,
        },
        wait_ms: 1_000,
        remember: 4_096,
        remember_ms: 3_600_000,
    }
}

/// Gateway ipn:9.0, engine 2 of peer 1 and engine 3 of peer 4, where so many octets are wanted in a block of
/// the old face, and of the new one.
fn config(old: u64, new: u64) -> Result<PeerConfig, Fail>
    ensures { IfOk result IsConfig }
{
    let Ok(policy) = Policy::new(1024, 10_000, 10, 10_000) else {
        return Err(Fail::new("there is no such policy"));
    };
    let Some(types) = BlockTypes::new(192, 193) else {
        return Err(Fail::new("there are no such types"));
    };
    Ok(PeerConfig {
        settings: PeerSettings {
            types,
            bare: false,
            raises: true,
        },
        gate: Endpoint::Ipn {
            node: 9,
            service: 0,
        },
        cut: 65_536,
        old: keys(2, 1, old, policy),
        new: keys(3, 4, new, policy),
    })
}

/// So many milliseconds after the first moment, while the old link is closed for so many more.
fn at(after: u32, closed: u32) -> Moments
    ensures { AreMoments result }
{
    let now = 1_010_000 + after as u64;
    Moments {
        wall: now,
        old: FaceMoments {
            at: now,
            leaves: now + closed as u64,
        },
        new: FaceMoments {
            at: now,
            leaves: now,
        },
    }
}

/// What is told, in a word.
fn word_of(remark: &Remark) -> &'static str {
    match remark {
        Remark::Engine { note } => note.name(),
        Remark::Began { .. } => "Began",
        Remark::Bundle { subject: Some(_) } => "Bundle",
        Remark::Case {
            case: GateCase::Passed,
            ..
        } => "Passed",
        _ => "other",
    }
}

/// Appends a line for each datagram that goes, with its face, and one for each thing that is told.
fn write_answer(alloc: Global, text: &mut String, answer: &PeerAnswer) -> Result<(), AllocError> {
    for outgoing in answer.out() {
        let digits = hex::encode(alloc, outgoing.datagram.as_slice())?;
        text.push_str(if outgoing.face == Face::Old {
            "o "
        } else {
            "n "
        })?;
        text.push_str(digits.as_str())?;
        text.push_str("\n")?;
    }
    for told in answer.told() {
        text.push_str(word_of(&told.remark))?;
        text.push_str("\n")?;
    }
    Ok(())
}

/// The lines of a gateway's beginning.
fn begun(alloc: Global, first: &PeerAnswer) -> Result<String, Fail> {
    let mut text = String::new(alloc);
    write_answer(alloc, &mut text, first)?;
    Ok(text)
}

/// A datagram comes at a moment: appends the lines.
fn comes(
    alloc: Global,
    gateway: &mut PeerGateway,
    face: Face,
    digits: &str,
    moments: Moments,
    text: &mut String,
) -> Result<(), Fail>
    requires whole { gateway.old.spent ≡ false }
    requires moments { AreMoments moments }
    ensures { OnOk result (gateway.new.spent ≡ false) }
{
    let datagram = octets(alloc, digits)?;
    let answer = gateway.arrive(face, &datagram, moments, (0, 0))?;
    Ok(write_answer(alloc, text, &answer)?)
}

/// Time has passed: appends the lines.
fn ticks(
    alloc: Global,
    gateway: &mut PeerGateway,
    moments: Moments,
    text: &mut String,
) -> Result<(), Fail>
    requires whole { gateway.old.spent ≡ false }
    requires moments { AreMoments moments }
    ensures { OnOk result (gateway.new.spent ≡ false) }
{
    let answer = gateway.tick(moments, (0, 0))?;
    Ok(write_answer(alloc, text, &answer)?)
}

/// A kept piece is added at the new face: appends the lines.
fn adds(
    alloc: Global,
    gateway: &mut PeerGateway,
    digits: &str,
    moments: Moments,
    text: &mut String,
) -> Result<(), Fail>
    requires whole { gateway.old.spent ≡ false }
    requires moments { AreMoments moments }
    ensures { OnOk result (gateway.new.spent ≡ false) }
{
    let piece = octets(alloc, digits)?;
    if piece.is_empty() {
        return Err(Fail::new("a piece is empty"));
    }
    let answer = gateway.add_kept(Face::New, Octets::from_vec(piece), None, moments, (0, 0))?;
    Ok(write_answer(alloc, text, &answer)?)
}

/// Two blocks make one at the other face, which is claimed; and a kept piece goes once it has waited.
fn gathers(alloc: Global, gateway: &mut PeerGateway, first: &PeerAnswer) -> Result<String, Fail>
    requires { gateway.old.spent ≡ false }
{
    let mut text = begun(alloc, first)?;
    let (first, second) = (
        "0301070001001701000681100d02010101000000008768053c00010803616263",
        "0301080001001701000681100d02010101000000008768063c00010803616263",
    );
    comes(alloc, gateway, Face::Old, first, at(0, 0), &mut text)?;
    comes(alloc, gateway, Face::Old, second, at(5, 0), &mut text)?;
    let report = "0803010002025200010052";
    comes(alloc, gateway, Face::New, report, at(6, 0), &mut text)?;
    let kept = "9f8907000182028202018202820101820100821a000f42450019ea5b425a46850101000043616263ff";
    adds(alloc, gateway, kept, at(7, 0), &mut text)?;
    ticks(alloc, gateway, at(1_006, 0), &mut text)?;
    ticks(alloc, gateway, at(1_007, 0), &mut text)?;
    Ok(text)
}

/// A bundle with an age waits at the old face for a second, and another at the new face for two.
fn ages(alloc: Global, gateway: &mut PeerGateway, first: &PeerAnswer) -> Result<String, Fail>
    requires { gateway.old.spent ≡ false }
{
    let mut text = begun(alloc, first)?;
    let new =
        "0304070001003201009f8907000182028202018202820101820100821a000f42450019ea5b425a46850702000043191388850101000043616263ff";
    comes(alloc, gateway, Face::New, new, at(0, 0), &mut text)?;
    ticks(alloc, gateway, at(1_000, 0), &mut text)?;
    let old =
        "0301070001002501000681100d02010101000000008768053c00c1000b4236374707020000191770010803616263";
    comes(alloc, gateway, Face::Old, old, at(1_000, 0), &mut text)?;
    ticks(alloc, gateway, at(3_000, 0), &mut text)?;
    Ok(text)
}

/// A bundle with an age goes at the old face, and waits for the link.
fn closed(alloc: Global, gateway: &mut PeerGateway, first: &PeerAnswer) -> Result<String, Fail>
    requires { gateway.old.spent ≡ false }
{
    let mut text = begun(alloc, first)?;
    let new =
        "0304070001003201009f8907000182028202018202820101820100821a000f42450019ea5b425a46850702000043191388850101000043616263ff";
    comes(alloc, gateway, Face::New, new, at(0, 30_000), &mut text)?;
    Ok(text)
}

/// The lines of a gateway at whose new face 60 octets are wanted. Sessions 5 and 6 of the old peer were
/// acknowledged in an earlier run.
fn gathered(alloc: Global) -> Result<String, Fail> {
    let config = config(0, 60)?;
    let (mut gateway, first) = PeerGateway::new(alloc, config, &[5, 6], &[], at(0, 0))?;
    gathers(alloc, &mut gateway, &first)
}

/// Those of one at which pieces with an age wait at both faces.
fn aged(alloc: Global) -> Result<String, Fail> {
    let config = config(1_000, 1_000)?;
    let (mut gateway, first) = PeerGateway::new(alloc, config, &[5, 6], &[], at(0, 0))?;
    ages(alloc, &mut gateway, &first)
}

/// Those of one whose old link is closed.
fn late(alloc: Global) -> Result<String, Fail> {
    let config = config(0, 0)?;
    let (mut gateway, first) = PeerGateway::new(alloc, config, &[5, 6], &[], at(0, 0))?;
    closed(alloc, &mut gateway, &first)
}

/// Each session that was acknowledged is cancelled; both bundles go in one block; and the kept one goes alone.
const GATHERED: &str =
    "o 0e01050004\no 0e01060004\no 0801070008011700010017\nBundle\nPassed\no 0801080009011700010017\nn 0303010001005202009f8907000182028202018202820101820100821a000f42450019ea5b425a46850101000043616263ff9f8907000182028202018202820101820100821a000f42460019ea5a42cc2d850101000043616263ff\nBundle\nBegan\nPassed\nn 0903010002\nSent\nn 0303020001002903009f8907000182028202018202820101820100821a000f42450019ea5b425a46850101000043616263ff\nBegan\n";

/// A second is added to an age of 5,000, and two seconds to one of 6,000.
const AGED: &str =
    "o 0e01050004\no 0e01060004\nn 0804070008013200010032\nBundle\nPassed\no 0302010001002502000681100d02010101000000008768053c00c1000b4236374707020000191770010803616263\nBegan\no 0801070008012500010025\nBundle\nPassed\nn 0303010001003202009f8907000182028202018202820101820100821a000f42450019ea5b425a46850702000043191f40850101000043616263ff\nBegan\n";

/// Thirty seconds are added to it.
const LATE: &str =
    "o 0e01050004\no 0e01060004\nn 0804070008013200010032\no 0302010001002502000681100d02010101000000008768053c00c1000b42363747070200001988b8010803616263\nBundle\nPassed\n";

#[test]
fn stories_of_a_gateway(rt: HostRuntime) -> Result<(), Fail> {
    let alloc = rt.alloc();
    assert!(rt; gathered(alloc)?.as_str() == GATHERED);
    assert!(rt; aged(alloc)?.as_str() == AGED);
    assert!(rt; late(alloc)?.as_str() == LATE);
    Ok(())
}
