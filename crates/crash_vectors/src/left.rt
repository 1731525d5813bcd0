//! What a crash leaves of a journal's file, and what is kept by that.

use crate::outside::{Over, named};
use journal_file::{JournalFault, Kept, Pending, read_kept};
use std::alloc::{AllocError, Global};
use std::test::Fail;
use store_traits::{Tear, TornStore};

/// The octet of a gate that is open.
const OPEN: &[u8] = &[1];

/// What a file says is kept, as a text; or where and why it is damaged.
pub(crate) fn said(alloc: Global, file: &[u8]) -> Result<String, Fail> {
    match read_kept(alloc, file) {
        Ok(kept) => shown(alloc, &kept),
        Err(JournalFault::Damaged { at, cause }) => {
            let word = cause.word();
            Ok(format!(in alloc; "damaged at {at}: {word}\n")?)
        }
        Err(JournalFault::Memory) => Err(Fail::new("no memory")),
    }
}

/// What is kept, as a text: a line for each block, for each mark, and for the numbers.
fn shown(alloc: Global, kept: &Kept) -> Result<String, Fail> {
    let mut text = String::new(alloc);
    for one in kept.pending.as_slice() {
        show_pending(alloc, &mut text, one)?;
    }
    for mark in kept.marks.as_slice() {
        let (face, session) = (named(mark.face), mark.session);
        write!(text, "mark {face} {session}\n")?;
    }
    let (old, new) = (kept.old_reserved, kept.new_reserved);
    write!(text, "reserved {old} {new}\n")?;
    Ok(text)
}

/// Adds the line of a block.
fn show_pending(alloc: Global, text: &mut String, one: &Pending) -> Result<(), Fail> {
    let digits = hex::encode(alloc, one.block.as_slice())?;
    let (id, face) = (one.id, named(one.face));
    write!(text, "pending {id} {face} {digits}\n")?;
    Ok(())
}

/// What comes to the disk of a change.
fn tear(octets: &[u8], replaced: bool) -> Tear<'_> {
    Tear { octets, replaced }
}

/// A choice for the last of some changes, and one for all before it.
fn tears<'a>(
    alloc: Global,
    changes: usize,
    early: Tear<'a>,
    last: Tear<'a>,
) -> Result<Vec<Tear<'a>>, AllocError> {
    let mut tears = Vec::new(alloc);
    'early: for _ in 1..changes {
        tears.push(early)?;
    }
    tears.push(last)?;
    Ok(tears)
}

/// The two things that may be kept after a crash, as texts.
#[derive(Clone, Copy)]
struct Either<'a> {
    before: &'a str,
    after: &'a str,
}

/// Whether what a crash leaves by these choices says one of the two.
fn says_either(
    alloc: Global,
    store: &TornStore,
    early: Tear,
    last: Tear,
    either: Either,
) -> Result<bool, Fail> {
    let file = left_by(alloc, store, early, last)?;
    let said = said(alloc, &file)?;
    Ok(said.as_str() == either.before || said.as_str() == either.after)
}

/// What a crash leaves by these choices.
fn left_by(
    alloc: Global,
    store: &TornStore,
    early: Tear,
    last: Tear,
) -> Result<Vec<u8>, AllocError> {
    let tears = tears(alloc, store.moment(), early, last)?;
    store.left(alloc, store.moment(), &tears)
}

/// Whether it is so with each front of these octets, where nothing of the changes before comes to the disk.
fn fronts_say_either(
    alloc: Global,
    store: &TornStore,
    octets: &[u8],
    either: Either,
) -> Result<bool, Fail> {
    'fronts: for length in 0..octets.len() {
        let front = match octets.get(..length) {
            Some(front) => front,
            None => octets,
        };
        if !says_either(alloc, store, tear(&[], false), tear(front, false), either)? {
            return Ok(false);
        }
    }
    Ok(true)
}

/// Whether it is so with nothing of the last change, all of it, an open gate or other octets, where of the
/// changes before nothing or all comes to the disk.
fn wholes_say_either(
    alloc: Global,
    store: &TornStore,
    written: &[u8],
    others: &[u8],
    either: Either,
) -> Result<bool, Fail> {
    let (nothing, whole) = (tear(&[], false), tear(written, true));
    'early: for early in [nothing, whole] {
        'last: for last in [nothing, whole, tear(OPEN, true), tear(others, false)] {
            if !says_either(alloc, store, early, last, either)? {
                return Ok(false);
            }
        }
    }
    Ok(true)
}

/// Whether each file that a crash may leave at this moment says what was kept before the last change of
/// the file, or what is kept after it: whatever comes to the disk of that change, each front of its octets
/// where that is asked for, and whether what wasn't synced before it comes or not.
pub(crate) fn leaves_one_of_two(alloc: Global, over: &Over, each: bool) -> Result<bool, Fail> {
    let store = &over.journal.store;
    let file = store.octets();
    let written = match file.get(over.journal.gate.saturating_add(1)..) {
        Some(written) => written,
        None => &[],
    };
    let others = match file.get(..written.len()) {
        Some(others) => others,
        None => file,
    };
    let before = said_before(alloc, store)?;
    let after = said(alloc, file)?;
    let either = Either {
        before: before.as_str(),
        after: after.as_str(),
    };
    all_say_either(alloc, store, written, others, either, each)
}

/// What is said by the file that a crash leaves with nothing of the last change.
fn said_before(alloc: Global, store: &TornStore) -> Result<String, Fail> {
    let file = store.left(alloc, store.moment(), &[])?;
    said(alloc, &file)
}

/// Whether it is so with all of these, and where it is asked for with each front of what was written.
fn all_say_either(
    alloc: Global,
    store: &TornStore,
    written: &[u8],
    others: &[u8],
    either: Either,
    each: bool,
) -> Result<bool, Fail> {
    Ok(
        wholes_say_either(alloc, store, written, others, either)?
            && (!each || fronts_say_either(alloc, store, written, either)?),
    )
}
