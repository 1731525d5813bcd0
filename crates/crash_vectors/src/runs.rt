//! Runs with a journal, each cut off after each of its turns: so it is seen with which turn each act came,
//! and what stands in the file then.

use crate::outside::{Comes, Over, octets, run, told};
use crate::rows::{self, Row};
use gate_cases::Face;
use gate_run::GateStatus;
use journal_file::{Kept, Record, write_file};
use std::alloc::Global;
use std::test::Fail;

/// Whether a run of so many turns makes exactly this, and leaves this file.
fn makes(alloc: Global, row: &Row, turns: u64, wanted: &str, left: &str) -> Result<bool, Fail> {
    let before = octets(alloc, row.before)?;
    let comes = Comes {
        file: row.file,
        readings: row.readings,
        gives: row.gives,
    };
    let (status, over) = run(alloc, &comes, turns, &before, None)?;
    Ok(status == GateStatus::Done && is_so(alloc, &over, wanted, left)?)
}

/// Whether a run made exactly this, and left this file.
fn is_so(alloc: Global, over: &Over, wanted: &str, left: &str) -> Result<bool, Fail> {
    let made = told(alloc, over.outside.acts())?;
    Ok(made.as_str() == wanted && is_left(alloc, over, left)?)
}

/// Whether a run left this file.
fn is_left(alloc: Global, over: &Over, left: &str) -> Result<bool, Fail> {
    let left = octets(alloc, left)?;
    Ok(over.journal.store.octets() == left.as_slice())
}

/// The first turn of a run after which not exactly what is wanted was made, or stands in the file.
fn wrong_turn(alloc: Global, row: &Row) -> Result<Option<u64>, Fail> {
    let mut turn: u64 = 0;
    'turns: for (end, left) in row.ends.iter().zip(row.files) {
        turn = turn.saturating_add(1);
        match row.made.get(..*end) {
            Some(wanted) if makes(alloc, row, turn, wanted, left)? => {}
            _ => return Ok(Some(turn)),
        }
    }
    if row.ends.last() == Some(&row.made.len()) && row.files.len() == row.ends.len() {
        Ok(None)
    } else {
        Ok(Some(0))
    }
}

/// The first of these runs that doesn't go so, with the turn after which it doesn't.
fn first_wrong(alloc: Global, rows: &[Row]) -> Result<Option<(usize, u64)>, Fail> {
    let mut number: usize = 0;
    'rows: for row in rows {
        if let Some(turn) = wrong_turn(alloc, row)? {
            return Ok(Some((number, turn)));
        }
        number = number.saturating_add(1);
    }
    Ok(None)
}

#[test]
fn what_passed_is_resumed(rt: HostRuntime) -> Result<(), Fail> {
    let rows = [
        rows::a_block_that_passed(),
        rows::a_block_that_is_resumed(),
        rows::a_dated_block_that_is_resumed(),
        rows::a_record_behind_a_closed_gate(),
        rows::a_gate_that_is_neither(),
    ];
    assert_eq!(rt; first_wrong(rt.alloc(), &rows)?, None);
    Ok(())
}

#[test]
fn claimed_sessions_are_marked(rt: HostRuntime) -> Result<(), Fail> {
    let rows = [
        rows::a_mark_until_it_is_whole(),
        rows::a_marked_session(),
        rows::a_cancel_of_a_marked_session(),
        rows::a_cancel_of_an_unfinished_one(),
    ];
    assert_eq!(rt; first_wrong(rt.alloc(), &rows)?, None);
    Ok(())
}

#[test]
fn marks_and_blocks_of_both_faces_go_on(rt: HostRuntime) -> Result<(), Fail> {
    let rows = [
        rows::a_mark_of_thirty_days(),
        rows::a_younger_mark(),
        rows::what_is_kept_of_both_faces(),
        rows::octets_that_are_no_bundle(),
    ];
    assert_eq!(rt; first_wrong(rt.alloc(), &rows)?, None);
    Ok(())
}

#[test]
fn numbers_end_and_sessions_fail(rt: HostRuntime) -> Result<(), Fail> {
    let rows = [
        rows::the_last_numbers(),
        rows::numbers_that_end(),
        rows::pieces_that_failed(),
    ];
    assert_eq!(rt; first_wrong(rt.alloc(), &rows)?, None);
    Ok(())
}

/// Has a block be pending under so many ids at the new face.
fn begin_many(alloc: Global, kept: &mut Kept, block: &[u8], many: u64) -> Result<(), Fail> {
    'ids: for before in 0..many {
        let said = Record::Begun {
            id: before.saturating_add(1),
            face: Face::New,
            came: None,
            block,
        };
        kept.take(alloc, &said)?;
    }
    Ok(())
}

/// What is kept where a block is pending under so many ids.
fn kept_of_many(alloc: Global, many: u64) -> Result<Kept, Fail> {
    let block = octets(alloc, rows::a_block())?;
    let mut kept = Kept::new(alloc);
    begin_many(alloc, &mut kept, &block, many)?;
    Ok(kept)
}

/// A file that says so.
fn file_of_many(alloc: Global, many: u64) -> Result<Vec<u8>, Fail> {
    let kept = kept_of_many(alloc, many)?;
    let mut file = Vec::new(alloc);
    write_file(alloc, &kept, &mut file)?;
    Ok(file)
}

/// What is made of 65 blocks that wait, in so many turns. In the second one the second of them is sent.
fn made_of_many(alloc: Global, turns: u64) -> Result<String, Fail> {
    let file = file_of_many(alloc, 65)?;
    let comes = Comes {
        file: rows::plain_file(),
        readings: &[1015000, 1015000, 1015100, 1015100],
        gives: [&["-", "-"], &["-", "0803020002032900010029", "-"]],
    };
    let (_, over) = run(alloc, &comes, turns, &file, None)?;
    told(alloc, over.outside.acts())
}

/// Whether it is said of a session in so many turns that its block is resumed.
fn is_resumed(alloc: Global, turns: u64, session: u64) -> Result<bool, Fail> {
    let made = made_of_many(alloc, turns)?;
    let line = format!(in alloc; "\"event\":\"resumed\",\"face\":\"new\",\"session\":{session},")?;
    Ok(made.contains(line.as_str()))
}

/// Whether a block went in a session of the new face in so many turns.
fn has_gone(alloc: Global, turns: u64, session: &str) -> Result<bool, Fail> {
    let made = made_of_many(alloc, turns)?;
    let datagram = format!(in alloc; "sent new 0303{session}")?;
    Ok(made.contains(datagram.as_str()))
}

/// All are resumed in the first half: 64 of them go, and the last one waits until a session has ended.
#[test]
fn more_wait_than_there_are_sessions(rt: HostRuntime) -> Result<(), Fail> {
    let alloc = rt.alloc();
    for session in [1, 64, 65] {
        assert_eq!(rt; is_resumed(alloc, 1, session)?, true, "{session}");
    }
    for (turns, session, wanted) in [(1, "40", true), (1, "41", false), (2, "41", true)] {
        assert_eq!(rt;
            has_gone(alloc, turns, session)?,
            wanted,
            "{turns} {session}"
        );
    }
    Ok(())
}
