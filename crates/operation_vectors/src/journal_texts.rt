//! What the tables of the journal share: what is kept as a text, and files and records.

use gate_cases::Face;
use journal_file::{How, JournalFault, Kept, Mark, Pending, Record, read_kept};
use std::alloc::{AllocError, Global};
use std::test::Fail;

/// Both faces have reserved 4,097, and nothing else is kept. The gate is at 26.
pub(crate) const RESERVED: &str = "66696d6a726e6c31010500a00198234a74010501a0013d62d80a00";

/// The same, and a bundle of version 7 is begun at the new face under the id 1.
pub(crate) const BEGUN: &str =
    "66696d6a726e6c31010500a00198234a74010501a0013d62d80a01010101299f890700018202\
8202018202820101820100821a000f42450019ea5b425a46850101000043616263ff56f4406a00";

/// The same, and its session has sent it.
pub(crate) const DONE: &str =
    "66696d6a726e6c31010500a00198234a74010501a0013d62d80a01010101299f890700018202\
8202018202820101820100821a000f42450019ea5b425a46850101000043616263ff56f4406a01020101cec2ea0300";

/// Both numbers are reserved, and that bundle is begun with the moment 1010000, at which it came.
pub(crate) const DATED: &str =
    "66696d6a726e6c31010500a00198234a74010501a0013d62d80a01060101bdd250299f890700\
0182028202018202820101820100821a000f42450019ea5b425a46850101000043616263ffac\
5eef5700";

/// The same, and its session has sent it.
pub(crate) const DATED_DONE: &str =
    "66696d6a726e6c31010500a00198234a74010501a0013d62d80a01060101bdd250299f890700\
0182028202018202820101820100821a000f42450019ea5b425a46850101000043616263ffac\
5eef5701020101cec2ea0300";

/// The block of those files.
pub(crate) const BLOCK: &str =
    "9f8907000182028202018202820101820100821a000f42450019ea5b425a46850101000043616263ff";

/// The block is begun, with the moment at which it came or without one.
pub(crate) fn begun(came: Option<u64>, block: &[u8]) -> Record {
    Record::Begun {
        id: 1,
        face: Face::New,
        came,
        block,
    }
}

/// Its session has sent it.
pub(crate) const SENT: Record = Record::Done {
    id: 1,
    how: How::Sent,
};

/// A report goes out about session 7 of the old face at the moment 1010000.
pub(crate) const MARKED: Record = Record::Marked(Mark {
    face: Face::Old,
    session: 7,
    when: 1_010_000,
});

/// That session was handed up.
pub(crate) const CLEAR: Record = Record::Clear {
    face: Face::Old,
    session: 7,
};

/// Appends words and numbers, one after the other, each with a blank after it.
fn write_part(text: &mut String, words: &[&str], numbers: &[u64]) -> Result<(), AllocError> {
    for word in words {
        write!(text, "{word} ")?;
    }
    for number in numbers {
        write!(text, "{number} ")?;
    }
    Ok(())
}

/// Appends a pending block.
fn write_begun(text: &mut String, begun: &Pending) -> Result<(), AllocError> {
    write_part(text, &["begun"], &[begun.id])?;
    write_part(text, &[named(begun.face)], &[begun.block.len() as u64])?;
    match begun.came {
        Some(came) => write_part(text, &["came"], &[came]),
        None => Ok(()),
    }
}

/// Appends what is kept.
fn write_kept(text: &mut String, kept: &Kept) -> Result<(), AllocError> {
    for begun in kept.pending.as_slice() {
        write_begun(text, begun)?;
    }
    for mark in kept.marks.as_slice() {
        let words = ["mark", named(mark.face)];
        write_part(text, &words, &[mark.session, mark.when])?;
    }
    write_part(text, &["reserved"], &[kept.old_reserved, kept.new_reserved])?;
    let greatest = kept.greatest;
    write!(text, "greatest {greatest}")
}

/// What is kept, as a text.
pub(crate) fn shown(alloc: Global, kept: &Kept) -> Result<String, AllocError> {
    let mut text = String::new(alloc);
    write_kept(&mut text, kept)?;
    Ok(text)
}

/// The place of a damage and its cause, as a text.
pub(crate) fn told(alloc: Global, at: usize, word: &str) -> Result<String, Fail> {
    Ok(format!(in alloc; "{at} {word}")?)
}

/// What a file says is kept, as a text, or where and why it is damaged.
pub(crate) fn said(alloc: Global, file: &[u8]) -> Result<String, Fail> {
    match read_kept(alloc, file) {
        Ok(kept) => Ok(shown(alloc, &kept)?),
        Err(JournalFault::Damaged { at, cause }) => told(alloc, at, cause.word()),
        Err(JournalFault::Memory) => Err("no memory".into()),
    }
}

/// Whether a file in hex says this.
pub(crate) fn says(alloc: Global, text: &str, wanted: &str) -> Result<bool, Fail> {
    let file = hex::decode(alloc, text)?;
    Ok(said(alloc, &file)?.as_str() == wanted)
}

/// Whether a file in hex is damaged at a place for this cause.
pub(crate) fn is_damaged(alloc: Global, text: &str, at: usize, word: &str) -> Result<bool, Fail> {
    let wanted = told(alloc, at, word)?;
    says(alloc, text, wanted.as_str())
}

fn named(face: Face) -> &'static str {
    match face {
        Face::Old => "old",
        Face::New => "new",
    }
}
