//! Whole runs, each as long as it is and cut off after each of its turns: so it is seen with which half
//! each act came.

ghost use Rattle.std.specs.Prelude.{◌<◌, ◌^◌, All, IfOk};
ghost use Rattle.peer_half.specs.Setup.{IsRunnable};

use crate::table::{self, Run};
use edge_traits::LONGEST_DATAGRAM;
use endpoint::Octets;
use gate_cases::Face;
use gate_config::{GateFile, read};
use gate_edges::{MemAct, MemFace, MemOutside};
use gate_run::laws::what_is_read_is_runnable;
use gate_run::{GateStatus, gate};
use outbox::Reading;
use std::alloc::{AllocError, Global};
use std::test::Fail;

/// The greatest moment that a clock of a row shows.
const LAST: u64 = (1 << 62) - 1;

/// What clocks show that show these moments.
fn readings(alloc: Global, moments: &[u64]) -> Result<Vec<Reading>, AllocError>
    ensures { IfOk result (λ readings. All (λ reading. reading.wall < 2 ^ 62) readings.items) }
{
    let mut readings = Vec::new(alloc);
    for moment in moments {
        readings.push(Reading {
            wall: (*moment).min(LAST),
            monotonic: *moment,
        })?;
    }
    Ok(readings)
}

/// A face's link, of which each poll gives what a row says.
fn link(alloc: Global, gives: &[&str], failing: &[bool]) -> Result<MemFace, Fail> {
    let mut link = MemFace::new(alloc, failing)?;
    for given in gives {
        let rest = given.trim_start_matches('+');
        let foreign = given.len().saturating_sub(rest.len()) as u64;
        if rest == "-" {
            link.put_foreign(foreign)?;
        } else {
            put(alloc, &mut link, foreign, rest)?;
        }
    }
    Ok(link)
}

/// Has a datagram come on a link, after so many from elsewhere.
fn put(alloc: Global, link: &mut MemFace, foreign: u64, hex: &str) -> Result<(), Fail> {
    let Ok(datagram) = hex::decode(alloc, hex.as_bytes()) else {
        return Err(Fail::new("a row isn't hex"));
    };
    if datagram.len() > LONGEST_DATAGRAM {
        return Err(Fail::new("a row is no datagram"));
    }
    link.put_after(foreign, &datagram)?;
    Ok(())
}

/// Appends a line on a datagram.
fn tell_datagram(
    alloc: Global,
    text: &mut Vec<u8>,
    how: &str,
    face: Face,
    datagram: &Octets,
) -> Result<(), Fail> {
    text.extend_from_slice(how.as_bytes())?;
    text.extend_from_slice(match face {
        Face::Old => b" old ",
        Face::New => b" new ",
    })?;
    let Ok(digits) = hex::encode(alloc, datagram.as_slice()) else {
        return Err(Fail::from(AllocError));
    };
    text.extend_from_slice(digits.as_bytes())?;
    text.extend_from_slice(b"\n")?;
    Ok(())
}

/// What was made, as a text: a line for each datagram, the lines as they were written, and the metrics
/// after a line of their own.
fn told(alloc: Global, acts: &[MemAct]) -> Result<Vec<u8>, Fail> {
    let mut text = Vec::new(alloc);
    for act in acts {
        match act {
            MemAct::Sent(face, datagram) => tell_datagram(
                alloc, &mut text, "sent", *face, datagram,
            )?,
            MemAct::Lost(face, datagram) => tell_datagram(
                alloc, &mut text, "lost", *face, datagram,
            )?,
            MemAct::Wrote(lines) => text.extend_from_slice(lines.as_slice())?,
            MemAct::Shown(metrics) => {
                text.extend_from_slice(b"shown\n")?;
                text.extend_from_slice(metrics.as_slice())?;
            }
            MemAct::Committed(_) | MemAct::Installed(_) => {
                return Err(Fail::new("a run without a journal keeps something"));
            }
        }
    }
    Ok(text)
}

/// What a gateway's file means.
fn file(alloc: Global, text: &str) -> Result<GateFile, Fail>
    ensures { IfOk result IsRunnable }
{
    what_is_read_is_runnable();
    match read(alloc, text.as_bytes()) {
        Ok(file) => Ok(file),
        Err(_) => Err(Fail::new("a row's file is refused")),
    }
}

/// Whether a run of so many turns makes exactly this.
fn makes(alloc: Global, run: &Run, turns: u64, wanted: &[u8]) -> Result<bool, Fail> {
    let readings = readings(alloc, run.readings)?;
    let old = link(alloc, run.gives[0], run.failing[0])?;
    let new = link(alloc, run.gives[1], run.failing[1])?;
    let mut outside = MemOutside::new(alloc, &readings, old, new, &[], run.showing, &[])?;
    let status = gate(alloc, &file(alloc, run.file)?, None, turns, &mut outside);
    Ok(status == GateStatus::Done && told(alloc, outside.acts())?.as_slice() == wanted)
}

/// The first of these runs that doesn't go so, with the turn after which it is cut off.
fn first_wrong(alloc: Global, runs: &[Run]) -> Result<Option<(usize, u64)>, Fail> {
    let mut number: usize = 0;
    'runs: for run in runs {
        if let Some(turn) = wrong_turn(alloc, run)? {
            return Ok(Some((number, turn)));
        }
        number = number.saturating_add(1);
    }
    Ok(None)
}

/// The first turn after which not exactly what is wanted was made.
fn wrong_turn(alloc: Global, run: &Run) -> Result<Option<u64>, Fail> {
    let made = run.made.as_bytes();
    let mut turn: u64 = 0;
    'turns: for end in run.ends {
        turn = turn.saturating_add(1);
        match made.get(..*end) {
            Some(wanted) if makes(alloc, run, turn, wanted)? => {}
            _ => return Ok(Some(turn)),
        }
    }
    if run.ends.last() == Some(&made.len()) {
        Ok(None)
    } else {
        Ok(Some(turn))
    }
}

#[test]
fn first_runs_go_so(rt: HostRuntime) -> Result<(), Fail> {
    assert_eq!(rt; first_wrong(rt.alloc(), table::FIRST)?, None);
    Ok(())
}

#[test]
fn second_runs_go_so(rt: HostRuntime) -> Result<(), Fail> {
    assert_eq!(rt; first_wrong(rt.alloc(), table::SECOND)?, None);
    Ok(())
}

#[test]
fn third_runs_go_so(rt: HostRuntime) -> Result<(), Fail> {
    assert_eq!(rt; first_wrong(rt.alloc(), table::THIRD)?, None);
    Ok(())
}

#[test]
fn fourth_runs_go_so(rt: HostRuntime) -> Result<(), Fail> {
    assert_eq!(rt; first_wrong(rt.alloc(), table::FOURTH)?, None);
    Ok(())
}

#[test]
fn fifth_runs_go_so(rt: HostRuntime) -> Result<(), Fail> {
    assert_eq!(rt; first_wrong(rt.alloc(), table::FIFTH)?, None);
    Ok(())
}

#[test]
fn sixth_runs_go_so(rt: HostRuntime) -> Result<(), Fail> {
    assert_eq!(rt; first_wrong(rt.alloc(), table::SIXTH)?, None);
    Ok(())
}

#[test]
fn seventh_runs_go_so(rt: HostRuntime) -> Result<(), Fail> {
    assert_eq!(rt; first_wrong(rt.alloc(), table::SEVENTH)?, None);
    Ok(())
}

#[test]
fn eighth_runs_go_so(rt: HostRuntime) -> Result<(), Fail> {
    assert_eq!(rt; first_wrong(rt.alloc(), table::EIGHTH)?, None);
    Ok(())
}

#[test]
fn ninth_runs_go_so(rt: HostRuntime) -> Result<(), Fail> {
    assert_eq!(rt; first_wrong(rt.alloc(), table::NINTH)?, None);
    Ok(())
}

#[test]
fn tenth_runs_go_so(rt: HostRuntime) -> Result<(), Fail> {
    assert_eq!(rt; first_wrong(rt.alloc(), table::TENTH)?, None);
    Ok(())
}

#[test]
fn eleventh_runs_go_so(rt: HostRuntime) -> Result<(), Fail> {
    assert_eq!(rt; first_wrong(rt.alloc(), table::ELEVENTH)?, None);
    Ok(())
}
