//! Numbers of sessions that are remembered and forgotten, and sessions that are closed for want of memory.

ghost use Rattle.std.specs.Prelude.{◌≡◌, false, OnOk};

use crate::face::{SET, Set, comes, segment_of, ticks, write_told};
use crate::stories::{Story, told};
use peer_sessions::PeerSessions;
use std::alloc::{AllocError, Global};
use std::fmt::Write;
use std::test::Fail;

/// The last fields of a block of three octets that comes in one datagram (RFC 5326, section 3.2).
const BLOCK: &[u8] = &[1, 0, 3, 1, 0, 0x61, 0x62, 0x63];

/// The acknowledgement of the first report of a session.
fn ack_of(alloc: Global, session: u64) -> Result<Vec<u8>, AllocError> {
    let mut serial = Vec::new(alloc);
    sdnv::write(1 + session % 16_383, &mut serial)?;
    segment_of(alloc, 9, session, &serial)
}

/// A block comes in one datagram, and then the acknowledgement of its report: appends the lines of both.
fn block_comes(
    alloc: Global,
    face: &mut PeerSessions,
    session: u64,
    now: u64,
    text: &mut String,
) -> Result<(), Fail>
    requires { face.old.spent ≡ false }
    ensures { OnOk result (face.new.spent ≡ false) }
{
    let told = comes(face, &segment_of(alloc, 3, session, BLOCK)?, now)?;
    write_told(alloc, text, &told)?;
    let told = comes(face, &ack_of(alloc, session)?, now)?;
    Ok(write_told(alloc, text, &told)?)
}

/// Time passes up to a moment, and is told after each step from another on: appends the lines of what
/// happens.
fn time_passes(
    alloc: Global,
    face: &mut PeerSessions,
    step: u64,
    from: u64,
    to: u64,
    text: &mut String,
) -> Result<(), Fail>
    requires { face.old.spent ≡ false }
    ensures { OnOk result (face.new.spent ≡ false) }
{
    let steps = to.saturating_sub(from) / step.max(1);
    for k in 0..steps.saturating_add(1) {
        let told = ticks(face, from.saturating_add(k.saturating_mul(step)))?;
        write_told(alloc, text, &told)?;
    }
    Ok(())
}

/// The block of session 7 comes at these moments, and time is told each second: the lines of all, after the
/// moments.
pub(crate) fn visits(
    alloc: Global,
    face: &mut PeerSessions,
    moments: &[u64],
) -> Result<String, Fail>
    requires { face.old.spent ≡ false }
{
    let mut text = String::new(alloc);
    let mut at = 0;
    for &now in moments {
        time_passes(alloc, face, 1_000, at, now, &mut text)?;
        write!(text, "at {now}\n")?;
        block_comes(alloc, face, 7, now, &mut text)?;
        at = now.div_ceil(1_000).saturating_mul(1_000);
    }
    Ok(text)
}

/// Moments at which the block of session 7 comes, and the lines. Numbers are remembered for an hour at least,
/// and until the second hour's end at most.
const VISITS: &[(&[u64], &str)] = &[
    // what comes of it renews that it is remembered
    (
        &[0, 7_199_999, 7_200_000, 14_400_000],
        "at 0\nup 7 616263\nat 7199999\nclosed 7\nat 7200000\nclosed 7\nat 14400000\nup 7 616263\n",
    ),
    // and without that it is forgotten
    (
        &[0, 7_200_000],
        "at 0\nup 7 616263\nat 7200000\nup 7 616263\n",
    ),
];

#[test]
fn a_number_is_remembered_for_a_time(rt: HostRuntime) -> Result<(), Fail> {
    let alloc = rt.alloc();
    for &(moments, lines) in VISITS {
        let story = Story::Visits(moments);
        assert_eq!(rt; told(alloc, SET, story)?.as_str(), lines);
    }
    Ok(())
}

/// Blocks of so many sessions come, of each second number from 1 on, all at one moment: the lines of the last
/// one.
fn odd_sessions(alloc: Global, face: &mut PeerSessions, count: u64) -> Result<String, Fail>
    requires { face.old.spent ≡ false }
    ensures { OnOk result (face.new.spent ≡ false) }
{
    let mut text = String::new(alloc);
    for k in 0..count {
        text.clear();
        block_comes(
            alloc,
            face,
            k.saturating_mul(2).saturating_add(1),
            0,
            &mut text,
        )?;
    }
    Ok(text)
}

/// Blocks of so many sessions come, and then those of these sessions: the lines of the last one, and of these.
pub(crate) fn odd_and_then(
    alloc: Global,
    face: &mut PeerSessions,
    count: u64,
    then: &[u64],
) -> Result<String, Fail>
    requires { face.old.spent ≡ false }
{
    let mut text = odd_sessions(alloc, face, count)?;
    for &session in then {
        block_comes(alloc, face, session, 0, &mut text)?;
    }
    Ok(text)
}

#[test]
fn no_peer_uses_up_the_memory_for_numbers(rt: HostRuntime) -> Result<(), Fail> {
    let alloc = rt.alloc();
    let story = Story::Odd(65_537, &[]);
    assert_eq!(rt; told(alloc, SET, story)?.as_str(), "up 131073 616263\n");
    Ok(())
}

/// What the 4,097th session tells where 4,096 places are; and then what the 4,097th tells again, which is
/// remembered; the second, which isn't; and the 2,049th.
const OLDER_HALF: &str = "forgotten 2048\nup 8193 616263\nclosed 8193\nup 3 616263\nclosed 4097\n";

#[test]
fn the_older_half_is_forgotten_for_want_of_places(rt: HostRuntime) -> Result<(), Fail> {
    let alloc = rt.alloc();
    let few = Set {
        remember: 4_096,
        ..SET
    };
    let story = Story::Odd(4_097, &[8_193, 3, 4_097]);
    assert_eq!(rt; told(alloc, few, story)?.as_str(), OLDER_HALF);
    Ok(())
}

/// A block of session 7 comes at these moments and its report is never acknowledged; time is told each ten
/// seconds: the lines of all, after the moments.
pub(crate) fn unanswered(
    alloc: Global,
    face: &mut PeerSessions,
    moments: &[u64],
) -> Result<String, Fail>
    requires { face.old.spent ≡ false }
{
    let mut text = String::new(alloc);
    let block = segment_of(alloc, 3, 7, BLOCK)?;
    let mut at = 0;
    for &now in moments {
        time_passes(alloc, face, 10_000, at, now, &mut text)?;
        write!(text, "at {now}\n")?;
        let told = comes(face, &block, now)?;
        write_told(alloc, &mut text, &told)?;
        at = now;
    }
    Ok(text)
}

/// The lines of a session whose report is never acknowledged, where it is sent once.
const GIVEN_UP: &str = "at 0\nup 7 616263\nat 10000\nclosed 7\nat 7210000\nup 7 616263\n";

#[test]
fn a_session_that_was_given_up_is_remembered(rt: HostRuntime) -> Result<(), Fail> {
    let alloc = rt.alloc();
    let story = Story::Unanswered(&[0, 10_000, 7_210_000]);
    assert_eq!(rt;
        told(alloc, Set { limit: 1, ..SET }, story)?.as_str(),
        GIVEN_UP
    );
    Ok(())
}

/// So many red pieces of 60,000 octets come of a session, one after the other: appends the lines.
fn large_pieces(
    alloc: Global,
    face: &mut PeerSessions,
    session: u64,
    count: u64,
    text: &mut String,
) -> Result<(), Fail>
    requires { face.old.spent ≡ false }
    ensures { OnOk result (face.new.spent ≡ false) }
{
    for k in 0..count {
        let mut rest = Vec::new(alloc);
        rest.push(1)?;
        sdnv::write(k.saturating_mul(60_000), &mut rest)?;
        sdnv::write(60_000, &mut rest)?;
        rest.extend_from_slice(&[0; 60_000])?;
        let told = comes(face, &segment_of(alloc, 0, session, &rest)?, 0)?;
        write_told(alloc, text, &told)?;
    }
    Ok(())
}

/// 65 pieces of each of four sessions, 15,600,000 octets, and so many of a fifth: appends the lines.
pub(crate) fn five_large(alloc: Global, face: &mut PeerSessions, last: u64) -> Result<String, Fail>
    requires { face.old.spent ≡ false }
{
    let mut text = String::new(alloc);
    for session in 1..5 {
        large_pieces(alloc, face, session, 65, &mut text)?;
    }
    large_pieces(alloc, face, 5, last, &mut text)?;
    Ok(text)
}

#[test]
fn the_longest_untouched_is_closed_for_want_of_memory(rt: HostRuntime) -> Result<(), Fail> {
    let alloc = rt.alloc();
    let small = Set {
        memory: 33_554_432,
        ..SET
    };
    // the 20th piece passes 16,777,216 octets
    assert_eq!(rt; told(alloc, small, Story::Large(19))?.as_str(), "");
    assert_eq!(rt;
        told(alloc, small, Story::Large(20))?.as_str(),
        "evicted 1\n"
    );
    Ok(())
}
