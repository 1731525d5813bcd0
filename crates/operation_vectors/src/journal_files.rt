//! Files as a journal makes them, octet by octet, and the calls on its store.

use crate::journal_texts::{
    BEGUN, BLOCK, CLEAR, DATED, DATED_DONE, DONE, MARKED, RESERVED, SENT, begun, said, told,
};
use gate_cases::Face;
use gate_journal::{Journal, RecoverFault, recover};
use journal_file::{Kept, Record, read_kept, write_record};
use std::alloc::Global;
use std::test::Fail;
use store_traits::{Call, MemStore};

/// Records and their octets.
const RECORDS: &[(Record, &str)] = &[
    (SENT, "020101cec2ea03"),
    (MARKED, "030007bdd2502ee8d1a7"),
    (CLEAR, "0400072a70638b"),
    (LATEST, "06010181ffffffffffffffff7f03616263b938fd65"),
];

/// A block came at the last moment that a record can have.
const LATEST: Record = Record::Begun {
    id: 1,
    face: Face::New,
    came: Some(u64::MAX),
    block: b"abc",
};

/// The octets of a record, in hex.
fn octets_of(alloc: Global, record: &Record) -> Result<String, Fail> {
    let mut octets = Vec::new(alloc);
    write_record(alloc, record, &mut octets)?;
    Ok(hex::encode(alloc, octets.as_slice())?)
}

#[test]
fn a_record_is_written_so(rt: HostRuntime) -> Result<(), Fail> {
    for (record, wanted) in RECORDS {
        assert!(rt;
            octets_of(rt.alloc(), record)?.as_str() == *wanted,
            "{wanted}"
        );
    }
    Ok(())
}

/// A journal's file, and the place of its gate.
#[derive(Clone, Copy)]
struct Stands {
    file: &'static str,
    gate: usize,
}

const AT_RESERVED: Stands = Stands {
    file: RESERVED,
    gate: 26,
};

const AT_BEGUN: Stands = Stands {
    file: BEGUN,
    gate: 76,
};

const AT_DONE: Stands = Stands {
    file: DONE,
    gate: 84,
};

const AT_DATED: Stands = Stands {
    file: DATED,
    gate: 79,
};

const AT_DATED_DONE: Stands = Stands {
    file: DATED_DONE,
    gate: 87,
};

/// The calls by which a file is made anew.
const ANEW: &[Call] = &[
    Call::StartNew,
    Call::Add,
    Call::SyncNew,
    Call::Install,
    Call::Sync,
];

/// The calls by which records are committed.
const COMMITTED: &[Call] = &[Call::Write, Call::Sync, Call::Write, Call::Sync];

/// A journal in memory that stands so.
fn journal(alloc: Global, stands: Stands) -> Result<Journal<MemStore>, Fail> {
    let octets = hex::decode(alloc, stands.file)?;
    let store = MemStore::new(alloc, &octets, None)?;
    Ok(Journal {
        store,
        gate: stands.gate,
    })
}

/// How a journal stands, as a text.
fn shown(alloc: Global, journal: &Journal<MemStore>) -> Result<String, Fail> {
    let (gate, file) = (journal.gate, hex::encode(alloc, journal.store.octets())?);
    Ok(format!(in alloc; "{gate} {file}")?)
}

/// Whether a text says that a journal stands so.
fn says(alloc: Global, text: &str, stands: Stands) -> Result<bool, Fail> {
    let (gate, file) = (stands.gate, stands.file);
    let wanted = format!(in alloc; "{gate} {file}")?;
    Ok(text == wanted.as_str())
}

/// How a journal stands, where it doesn't stand so after these calls.
fn otherwise(
    alloc: Global,
    journal: &Journal<MemStore>,
    stands: Stands,
    calls: &[Call],
) -> Result<Option<String>, Fail> {
    let text = shown(alloc, journal)?;
    if says(alloc, text.as_str(), stands)? && journal.store.calls() == calls {
        return Ok(None);
    }
    Ok(Some(text))
}

/// What a file says is kept.
fn kept(alloc: Global, text: &str) -> Result<Kept, Fail> {
    let octets = hex::decode(alloc, text)?;
    match read_kept(alloc, &octets) {
        Ok(kept) => Ok(kept),
        Err(_) => Err("the file is refused".into()),
    }
}

/// How a journal stands whose file had one block, and that is made anew of what a file says is kept: where
/// it doesn't stand so.
fn wrong_anew(alloc: Global, text: &str, after: Stands) -> Result<Option<String>, Fail> {
    let kept = kept(alloc, text)?;
    let mut journal = journal(alloc, AT_DONE)?;
    made_wrong(alloc, &mut journal, &kept, after)
}

/// The same of this journal.
fn made_wrong(
    alloc: Global,
    journal: &mut Journal<MemStore>,
    kept: &Kept,
    after: Stands,
) -> Result<Option<String>, Fail> {
    if journal.install(alloc, kept) != Ok(after.gate) {
        return Err("the gate isn't there".into());
    }
    otherwise(alloc, journal, after, ANEW)
}

#[test]
fn a_file_is_made_anew(rt: HostRuntime) -> Result<(), Fail> {
    let wrong = wrong_anew(rt.alloc(), RESERVED, AT_RESERVED)?;
    assert!(rt; wrong.is_none(), "{wrong:?}");
    Ok(())
}

#[test]
fn a_new_file_has_no_ended_block(rt: HostRuntime) -> Result<(), Fail> {
    for text in [DONE, DATED_DONE] {
        let wrong = wrong_anew(rt.alloc(), text, AT_RESERVED)?;
        assert!(rt; wrong.is_none(), "{wrong:?}");
    }
    Ok(())
}

/// A block that has a moment has it in a new file too.
#[test]
fn a_new_file_has_a_blocks_moment(rt: HostRuntime) -> Result<(), Fail> {
    let wrong = wrong_anew(rt.alloc(), DATED, AT_DATED)?;
    assert!(rt; wrong.is_none(), "{wrong:?}");
    Ok(())
}

/// How a journal stands that stood so, and to which records are committed: where its gate doesn't move so
/// far, to stand so.
fn wrong_commit(
    alloc: Global,
    before: Stands,
    records: &[Record],
    after: Stands,
) -> Result<Option<String>, Fail> {
    let mut journal = journal(alloc, before)?;
    committed_wrong(alloc, &mut journal, records, after)
}

/// The same of this journal.
fn committed_wrong(
    alloc: Global,
    journal: &mut Journal<MemStore>,
    records: &[Record],
    after: Stands,
) -> Result<Option<String>, Fail> {
    let before = journal.gate;
    match journal.commit(alloc, records) {
        Ok(moved) if before.checked_add(moved) == Some(after.gate) => {}
        _ => return Err("the gate doesn't move so".into()),
    }
    let calls: &[Call] = if records.is_empty() { &[] } else { COMMITTED };
    otherwise(alloc, journal, after, calls)
}

/// The moment at which a block came.
const CAME: Option<u64> = Some(1_010_000);

/// Whether the gate moves so, and the journal stands so, where a block is begun, and ends then where there are
/// two records.
fn is_committed(
    alloc: Global,
    came: Option<u64>,
    count: usize,
    after: Stands,
) -> Result<bool, Fail> {
    let block = hex::decode(alloc, BLOCK)?;
    let records = [begun(came, &block), SENT];
    let Some(records) = records.get(..count) else {
        return Ok(false);
    };
    Ok(wrong_commit(alloc, AT_RESERVED, records, after)?.is_none())
}

#[test]
fn a_block_goes_behind_the_gate(rt: HostRuntime) -> Result<(), Fail> {
    assert!(rt; is_committed(rt.alloc(), None, 1, AT_BEGUN)?);
    Ok(())
}

#[test]
fn an_end_goes_behind_the_gate(rt: HostRuntime) -> Result<(), Fail> {
    let wrong = wrong_commit(rt.alloc(), AT_BEGUN, &[SENT], AT_DONE)?;
    assert!(rt; wrong.is_none(), "{wrong:?}");
    Ok(())
}

/// So does a block with a moment, and its end.
#[test]
fn a_dated_block_goes_behind_the_gate(rt: HostRuntime) -> Result<(), Fail> {
    assert!(rt; is_committed(rt.alloc(), CAME, 1, AT_DATED)?);
    let wrong = wrong_commit(rt.alloc(), AT_DATED, &[SENT], AT_DATED_DONE)?;
    assert!(rt; wrong.is_none(), "{wrong:?}");
    assert!(rt; is_committed(rt.alloc(), CAME, 2, AT_DATED_DONE)?);
    Ok(())
}

#[test]
fn no_records_make_no_call(rt: HostRuntime) -> Result<(), Fail> {
    let wrong = wrong_commit(rt.alloc(), AT_BEGUN, &[], AT_BEGUN)?;
    assert!(rt; wrong.is_none(), "{wrong:?}");
    Ok(())
}

/// Several records are committed at once as they are one after another.
#[test]
fn records_go_at_once(rt: HostRuntime) -> Result<(), Fail> {
    assert!(rt; is_committed(rt.alloc(), None, 2, AT_DONE)?);
    Ok(())
}

/// Whether a file says this, and the same with octets after its closed gate.
fn says_alike(alloc: Global, text: &str, after: &[u8], wanted: &str) -> Result<bool, Fail> {
    let mut file = hex::decode(alloc, text)?;
    let before = said(alloc, &file)?.as_str() == wanted;
    file.extend_from_slice(after)?;
    Ok(before && said(alloc, &file)?.as_str() == wanted)
}

/// What stands behind a closed gate counts for nothing, a whole record too.
#[test]
fn what_stands_behind_is_no_record(rt: HostRuntime) -> Result<(), Fail> {
    let done = hex::decode(rt.alloc(), "020101cec2ea03")?;
    let wanted = "begun 1 new 41 reserved 4097 4097 greatest 1";
    assert!(rt; says_alike(rt.alloc(), BEGUN, &done, wanted)?);
    Ok(())
}

/// Where and why a file is refused, as a text, where it stays as it is.
fn refused(alloc: Global, file: &[u8]) -> Result<String, Fail> {
    let mut store = MemStore::new(alloc, file, None)?;
    match recover(alloc, &mut store) {
        Err(RecoverFault::Damaged { at, cause }) if store.octets() == file => {
            told(alloc, at, cause.word())
        }
        _ => Err("it isn't refused, or doesn't stay".into()),
    }
}

/// Whether a file is refused so, and stays, with the octet at a place changed to another.
fn is_refused(
    alloc: Global,
    text: &str,
    place: usize,
    octet: u8,
    wanted: &str,
) -> Result<bool, Fail> {
    let mut file = hex::decode(alloc, text)?;
    if let Some(changed) = file.get_mut(place) {
        *changed = octet;
    }
    Ok(refused(alloc, &file)?.as_str() == wanted)
}

#[test]
fn a_damaged_file_stays(rt: HostRuntime) -> Result<(), Fail> {
    assert!(rt; is_refused(rt.alloc(), BEGUN, 40, 0, "72 Crc")?);
    assert!(rt; is_refused(rt.alloc(), DATED, 30, 0x80, "30 Number")?);
    assert!(rt; refused(rt.alloc(), b"hello")?.as_str() == "0 Start");
    Ok(())
}
