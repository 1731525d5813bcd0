//! A crash at each call of a run on its store, recovered and run on, and once more.

use crate::left::{leaves_one_of_two, said};
use crate::outside::{Comes, Over, run, told};
use crate::script::{self, CANCELLED, IN_PART, MARKED, REPORTED};
use gate_run::GateStatus;
use std::alloc::{AllocError, Global};
use std::test::Fail;

/// More calls on a store than a run of the script makes.
const MOST_CALLS: usize = 64;

/// Where a run stopped.
#[derive(Drop)]
struct Stop {
    /// All turns were made, and no call failed.
    done: bool,
    /// What is kept is as it should be.
    right: bool,
    /// What was made by then, in this run and before, as a text.
    made: String,
    /// The file that a crash leaves with nothing of the last change.
    file: Vec<u8>,
    /// What that says is kept, as a text.
    kept: String,
}

/// Whether what was claimed and hasn't been sent is pending, nothing is that was sent, and the session that
/// was claimed in part is marked until its block is pending.
fn is_kept(made: &str, kept: &str) -> bool {
    'bundles: for bundle in script::bundles() {
        let sent = made.contains(bundle.sent);
        let pending = kept.contains(bundle.block);
        if sent == pending && (sent || made.contains(bundle.claimed)) {
            return false;
        }
    }
    let third = script::third_bundle();
    !made.contains(IN_PART)
        || kept.contains(MARKED)
        || kept.contains(third.block)
        || made.contains(third.sent)
}

/// Whether what was claimed and hasn't been sent goes out again in a later run.
fn goes_again(made: &str, again: &str) -> bool {
    'bundles: for bundle in script::bundles() {
        if made.contains(bundle.claimed)
            && !made.contains(bundle.sent)
            && !again.contains(bundle.block)
        {
            return false;
        }
    }
    true
}

/// Whether no report goes out in a run about a session that was marked when it began, and a cancel does
/// where all turns were made.
fn is_closed(kept: &str, made: &str, done: bool) -> bool {
    !kept.contains(MARKED) || (!made.contains(REPORTED) && (!done || made.contains(CANCELLED)))
}

/// What an earlier run left: what was made by then, as a text, and the file.
#[derive(Clone, Copy)]
struct Before<'a> {
    made: &'a str,
    file: &'a [u8],
}

/// Before the first run nothing was made, and there is no file.
const NOTHING: Before<'static> = Before {
    made: "",
    file: &[],
};

/// A crash at this call of a run. Where it is asked for, each octet of a write is torn.
#[derive(Clone, Copy)]
struct Crash {
    call: usize,
    each: bool,
}

/// A run of so many turns that goes on from what an earlier one left, with a crash.
fn stopped(
    alloc: Global,
    comes: &Comes,
    turns: u64,
    before: Before,
    crash: Crash,
) -> Result<Stop, Fail> {
    let (status, over) = run(alloc, comes, turns, before.file, Some(crash.call))?;
    stop_of(alloc, status, &over, before, crash)
}

/// Where a run stopped that ended so.
fn stop_of(
    alloc: Global,
    status: GateStatus,
    over: &Over,
    before: Before,
    crash: Crash,
) -> Result<Stop, Fail> {
    let store = &over.journal.store;
    let done = status == GateStatus::Done;
    let file = store.left(alloc, store.moment(), &[])?;
    let kept = said(alloc, &file)?;
    let made = made_by(alloc, over, before.made)?;
    let right = (done || status == GateStatus::Journal)
        && done == (store.calls().len() <= crash.call)
        && is_kept(made.as_str(), kept.as_str())
        && goes_well(alloc, over, before.file, crash.each, done)?;
    Ok(Stop {
        done,
        right,
        made,
        file,
        kept,
    })
}

/// Whether a run that began with this file leaves files of which each says one of two things, and closes
/// the session that was marked then.
fn goes_well(
    alloc: Global,
    over: &Over,
    file: &[u8],
    each: bool,
    done: bool,
) -> Result<bool, Fail> {
    Ok(leaves_one_of_two(alloc, over, each)? && closes(alloc, over, file, done)?)
}

/// What was made by the end of a run, where this was made before it.
fn made_by(alloc: Global, over: &Over, earlier: &str) -> Result<String, Fail> {
    let now = told(alloc, over.outside.acts())?;
    Ok(joined(alloc, earlier, now.as_str())?)
}

/// A text after another.
fn joined(alloc: Global, first: &str, second: &str) -> Result<String, AllocError> {
    let mut text = String::new(alloc);
    text.push_str(first)?;
    text.push_str(second)?;
    Ok(text)
}

/// Whether a run that began with this file closes the session that was marked then.
fn closes(alloc: Global, over: &Over, file: &[u8], done: bool) -> Result<bool, Fail> {
    let kept = said(alloc, file)?;
    let now = told(alloc, over.outside.acts())?;
    Ok(is_closed(kept.as_str(), now.as_str(), done))
}

/// Whether a third run that goes on from what the second one left sends what is to be sent.
fn ends_well(alloc: Global, before: Before) -> Result<bool, Fail> {
    let (status, over) = run(alloc, &script::third(), 1, before.file, None)?;
    Ok(status == GateStatus::Done && sends_again(alloc, &over, before.made)?)
}

/// Whether a run sends what was claimed and hasn't been sent by then.
fn sends_again(alloc: Global, over: &Over, made: &str) -> Result<bool, Fail> {
    let again = told(alloc, over.outside.acts())?;
    Ok(goes_again(made, again.as_str()))
}

/// How it is after a run that stopped.
#[derive(Clone, Copy)]
enum After {
    /// It is as it should be, and further calls may fail.
    Right,
    /// It is as it should be, and the run was done: no further call is made.
    Done,
    /// It isn't as it should be.
    Wrong,
}

/// How it is after a second run with a crash at this call: whether a third one goes on well is tried where
/// something else is kept than at the call before.
fn after_second(
    alloc: Global,
    before: Before,
    call: usize,
    tried: &mut String,
) -> Result<After, Fail> {
    let crash = Crash { call, each: false };
    let stop = stopped(alloc, &script::second(), 2, before, crash)?;
    if !stop.right || (is_new(tried, stop.kept.as_str())? && !ends_well(alloc, left_by(&stop))?) {
        return Ok(After::Wrong);
    }
    Ok(end_of(&stop))
}

/// What a run leaves that stopped.
fn left_by(stop: &Stop) -> Before<'_> {
    Before {
        made: stop.made.as_str(),
        file: &stop.file,
    }
}

/// How it is after a run that stopped and left what is right.
fn end_of(stop: &Stop) -> After {
    if stop.done { After::Done } else { After::Right }
}

/// Whether a text is another one than the one before, in the place of which it is put.
fn is_new(before: &mut String, text: &str) -> Result<bool, AllocError> {
    if before.as_str() == text {
        return Ok(false);
    }
    before.clear();
    before.push_str(text)?;
    Ok(true)
}

/// The first call of a second run, which goes on from what the first one left, at which a crash leaves
/// something wrong, or something from which a third run doesn't go on well.
fn wrong_second(alloc: Global, before: Before) -> Result<Option<usize>, Fail> {
    let mut tried = String::new(alloc);
    'calls: for call in 1..MOST_CALLS {
        match after_second(alloc, before, call, &mut tried)? {
            After::Right => {}
            After::Done => return Ok(None),
            After::Wrong => return Ok(Some(call)),
        }
    }
    Ok(Some(0))
}

/// How it is after the first run with a crash at this call.
fn after_first(alloc: Global, call: usize) -> Result<After, Fail> {
    let crash = Crash { call, each: true };
    let stop = stopped(alloc, &script::first(), 6, NOTHING, crash)?;
    if !stop.right {
        return Ok(After::Wrong);
    }
    Ok(end_of(&stop))
}

/// The first call of the first run at which a crash leaves something wrong.
fn wrong_first(alloc: Global) -> Result<Option<usize>, Fail> {
    'calls: for call in 1..MOST_CALLS {
        match after_first(alloc, call)? {
            After::Right => {}
            After::Done => return Ok(None),
            After::Wrong => return Ok(Some(call)),
        }
    }
    Ok(Some(0))
}

/// How the first run goes on after a crash at this call: the call of the second run after which it is
/// wrong, where there is one, and whether the first run was done. Where the same is kept as at the call
/// before, no second run is made.
fn both_wrong(
    alloc: Global,
    call: usize,
    tried: &mut String,
) -> Result<(Option<usize>, bool), Fail> {
    let crash = Crash { call, each: false };
    let stop = stopped(alloc, &script::first(), 6, NOTHING, crash)?;
    if is_new(tried, stop.kept.as_str())? {
        return Ok((wrong_second(alloc, left_by(&stop))?, stop.done));
    }
    Ok((None, stop.done))
}

/// The first crash of the first run, at one of these calls, after which a second run goes wrong, by the
/// calls of both.
fn wrong_on(alloc: Global, from: usize, to: usize) -> Result<Option<(usize, usize)>, Fail> {
    let mut tried = String::new(alloc);
    'calls: for call in from..to {
        match both_wrong(alloc, call, &mut tried)? {
            (Some(later), _) => return Ok(Some((call, later))),
            (None, true) => return Ok(None),
            (None, false) => {}
        }
    }
    Ok(Some((0, 0)))
}

/// At whatever call of a run a crash comes, and whatever comes to the disk of the last change, what is kept
/// is what was kept before it or after it; and what was claimed is there.
#[test]
fn a_crash_at_each_call_leaves_what_was_claimed(rt: HostRuntime) -> Result<(), Fail> {
    assert_eq!(rt; wrong_first(rt.alloc())?, None);
    Ok(())
}

/// So it is at each call of a second run after the first crash, and a third run sends what was claimed in
/// either. The first crash comes at one of the first 20 calls, before the run's end.
#[test]
fn a_second_crash_leaves_it_too(rt: HostRuntime) -> Result<(), Fail> {
    assert_eq!(rt; wrong_on(rt.alloc(), 1, 21)?, Some((0, 0)));
    Ok(())
}

/// The same where the first crash comes later, or not at all.
#[test]
fn a_second_crash_after_a_later_one_leaves_it_too(rt: HostRuntime) -> Result<(), Fail> {
    assert_eq!(rt; wrong_on(rt.alloc(), 21, MOST_CALLS)?, None);
    Ok(())
}
