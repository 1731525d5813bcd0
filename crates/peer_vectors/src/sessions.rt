//! Sessions of a face: how many there are at once, green data, cancels, and blocks that are refused.

ghost use Rattle.std.specs.Prelude.{◌≡◌, ◌<◌, ◌≤◌, false, length, OnOk};

use crate::face::{SET, Set, comes, octets, segment_of, write_outs, write_told};
use crate::stories::{Story, told};
use peer_sessions::PeerSessions;
use std::alloc::Global;
use std::test::Fail;

/// A red octet of each of the sessions from 1 to 65 comes, and the blocks go on: the lines.
pub(crate) fn of_65_sessions(alloc: Global, face: &mut PeerSessions) -> Result<String, Fail>
    requires { face.old.spent ≡ false }
{
    let mut text = String::new(alloc);
    for session in 1..=65 {
        let told = comes(face, &segment_of(alloc, 0, session, &[1, 0, 1, 0x61])?, 0)?;
        write_told(alloc, &mut text, &told)?;
    }
    Ok(text)
}

#[test]
fn the_longest_untouched_makes_room_for_another(rt: HostRuntime) -> Result<(), Fail> {
    let alloc = rt.alloc();
    let wide = Set {
        sessions: 128,
        ..SET
    };
    assert_eq!(rt; told(alloc, SET, Story::Of65)?.as_str(), "evicted 1\n");
    assert_eq!(rt; told(alloc, wide, Story::Of65)?.as_str(), "");
    Ok(())
}

/// A datagram that comes, and the lines of what is told and sent.
const DATAGRAMS: &[(&str, &str)] = &[
    // the last octet of a block, green
    ("0701090001000161", "green 9 0 true 61\n"),
    // a cancel of a session that never was
    ("0c01090000", "> 9 cancel ack\n"),
    // a block of another client service
    ("030107000200030100616263", "refused 7 2\n> 7 cancel 1\n"),
    // a red octet past the greatest block
    ("0001080001828080000161", "bad_bounds 8\n"),
];

/// A datagram comes: appends the lines of what is told, and of what is sent.
pub(crate) fn write_answer(
    alloc: Global,
    face: &mut PeerSessions,
    datagram: &str,
    text: &mut String,
) -> Result<(), Fail>
    requires { face.old.spent ≡ false }
    ensures { OnOk result (face.new.spent ≡ false) }
{
    let told = comes(face, &octets(alloc, datagram)?, 0)?;
    write_told(alloc, text, &told)?;
    write_outs(text, &told.effects.out)
}

#[test]
fn single_datagrams(rt: HostRuntime) -> Result<(), Fail> {
    let alloc = rt.alloc();
    for &(datagram, lines) in DATAGRAMS {
        let story = Story::Datagram(datagram);
        assert_eq!(rt; told(alloc, SET, story)?.as_str(), lines, "{datagram}");
    }
    Ok(())
}

/// A block begins at a face with so many sessions.
fn begins(face: &mut PeerSessions, sessions: u64, block: &[u8]) -> Result<(), Fail>
    requires whole { face.old.spent ≡ false }
    requires sessions { face.old.keys.bounds.sessions ≡ sessions }
    ensures { OnOk result (face.new.spent ≡ false) }
{
    let is_fit = !block.is_empty() && block.len() <= 4_194_304;
    if !is_fit || face.sending() >= sessions || face.next_session() >= 1 << 32 {
        return Err(Fail::new("no block begins"));
    }
    face.submit(block, 0)?;
    Ok(())
}

/// A block of 1,436 octets begins, and then these reports come: the lines of what goes in answer.
pub(crate) fn reported(
    alloc: Global,
    face: &mut PeerSessions,
    sessions: u64,
    reports: &[&str],
) -> Result<String, Fail>
    requires whole { face.old.spent ≡ false }
    requires sessions { face.old.keys.bounds.sessions ≡ sessions }
{
    begins(face, sessions, &[0; 1_436])?;
    let mut text = String::new(alloc);
    for report in reports {
        write_answer(alloc, face, report, &mut text)?;
    }
    Ok(text)
}

/// Two reports on one checkpoint: the first claims all octets up to 512, the second those from 1,024 to 1,436
/// of those from 512 on.
const REPORTS: &[&str] = &[
    "08070100090284000001008400",
    "080701000a028b1c8400018400831c",
];

/// What goes in answer, in segments of 512 octets: the first report has all sent again that isn't claimed.
const RESENT: &str = "> 1 ack 9\n> 1 red 512 from 512\n> 1 red 412 from 1024\n> 1 ack 10\n";

#[test]
fn several_reports_on_one_checkpoint(rt: HostRuntime) -> Result<(), Fail> {
    let alloc = rt.alloc();
    let short = Set {
        segment: 512,
        ..SET
    };
    assert_eq!(rt;
        told(alloc, short, Story::Reported(REPORTS))?.as_str(),
        RESENT
    );
    Ok(())
}
