//! Turns of `serve` over links and a clock in memory: a bundle that passes, one that has expired, octets
//! that are no bundle, a report, calls on links that fail, and one session more than a gateway keeps.

use edge_traits::{LONGEST_DATAGRAM, MemClock, MemLink, Status, SureSink};
use endpoint::Endpoint;
use serve_run::serve;
use std::alloc::{AllocError, Global};
use std::test::Fail;

/// Room for what a row writes and sends.
pub(crate) const ROOM: usize = 8192;

/// A bundle of version 6 that expires after the moment 1,060,000, in session 1 of the old node.
pub(crate) const COMES: &str = "0301010001001702000681100d02010101000000008768053c00010803616263";

/// The gateway's report on it.
const REPORT: &str = "0801010002021700010017";

/// The same bundle in version 7, in the gateway's first session to the new node.
const PASSES: &str =
    "0303010001002902009f8907000182028202018202820101820100821a000f42450019ea5b425a46850101000043616263ff";

/// What comes on the old link, the moment that the clock shows, how many turns are made, and which
/// calls on the old and on the new link fail; and then what is written, and what goes on each of the
/// two links.
struct Row {
    coming: &'static str,
    moment: u32,
    turns: u64,
    failing: [&'static [bool]; 2],
    text: &'static str,
    gone: [&'static [&'static str]; 2],
}

const ROWS: &[Row] = &[
    // A bundle passes.
    Row {
        coming: COMES,
        moment: 1_010_000,
        turns: 1,
        failing: [&[], &[]],
        text: "up g.o 1 0681100d02010101000000008768053c00010803616263\nnote g.o Passed 1 1\n",
        gone: [&[REPORT], &[PASSES]],
    },
    // At its last moment, and after it.
    Row {
        coming: COMES,
        moment: 1_060_000,
        turns: 1,
        failing: [&[], &[]],
        text: "up g.o 1 0681100d02010101000000008768053c00010803616263\nnote g.o Passed 1 1\n",
        gone: [&[REPORT], &[PASSES]],
    },
    Row {
        coming: COMES,
        moment: 1_060_001,
        turns: 1,
        failing: [&[], &[]],
        text: "up g.o 1 0681100d02010101000000008768053c00010803616263\nnote g.o Expired 1\n",
        gone: [&[REPORT], &[]],
    },
    // Octets that are no bundle.
    Row {
        coming: "030101000100030200616263",
        moment: 1_010_000,
        turns: 1,
        failing: [&[], &[]],
        text: "up g.o 1 616263\nnote g.o BadBundle 1 0 Version\n",
        gone: [&["0801010002020300010003"], &[]],
    },
    // A bundle that asks for custody is reported on.
    Row {
        coming: "030101000100180200069081180d02010101010100008768053c00010803616263",
        moment: 1_010_000,
        turns: 1,
        failing: [&[], &[]],
        text: "up g.o 1 069081180d02010101010100008768053c00010803616263\nnote g.o Untranslated 1 CustodyAsked\nnote g.o Reported 1\n",
        gone: [
            &[
                "0801010002021800010018",
                "0302010001002702000681120f010109000000000087720085a300000108111010008772008768050769706e3a312e31",
            ],
            &[],
        ],
    },
    // A poll of the old link fails, and the bundle is there in the next turn.
    Row {
        coming: COMES,
        moment: 1_010_000,
        turns: 2,
        failing: [&[true], &[]],
        text: "note old Poll\nup g.o 1 0681100d02010101000000008768053c00010803616263\nnote g.o Passed 1 1\n",
        gone: [&[REPORT], &[PASSES]],
    },
    // A send on the old link fails.
    Row {
        coming: COMES,
        moment: 1_010_000,
        turns: 1,
        failing: [&[false, true], &[]],
        text: "note old Send\nup g.o 1 0681100d02010101000000008768053c00010803616263\nnote g.o Passed 1 1\n",
        gone: [&[], &[PASSES]],
    },
    // On the new link a send fails, and then a poll.
    Row {
        coming: COMES,
        moment: 1_010_000,
        turns: 2,
        failing: [&[], &[true, true]],
        text: "note new Send\nup g.o 1 0681100d02010101000000008768053c00010803616263\nnote g.o Passed 1 1\nnote new Poll\n",
        gone: [&[REPORT], &[]],
    },
];

/// The octets that a row writes in hex.
pub(crate) fn octets(alloc: Global, text: &str) -> Result<Vec<u8>, Fail> {
    match hex::decode(alloc, text.as_bytes()) {
        Ok(octets) => Ok(octets),
        Err(_) => Err(Fail::new("a row isn't hex")),
    }
}

/// Has a datagram come on a link.
pub(crate) fn put(link: &mut MemLink, datagram: &[u8]) -> Result<(), Fail> {
    if datagram.len() > LONGEST_DATAGRAM {
        return Err(Fail::new("a row is no datagram"));
    }
    link.put(datagram)?;
    Ok(())
}

/// Whether exactly these datagrams went on a link.
fn went(alloc: Global, link: &MemLink, wanted: &[&str]) -> Result<bool, Fail> {
    let mut all = Vec::new(alloc);
    let mut lengths = Vec::new(alloc);
    for text in wanted {
        let datagram = octets(alloc, text)?;
        all.extend_from_slice(&datagram)?;
        lengths.push(datagram.len())?;
    }
    Ok(link.octets() == all.as_slice() && link.lengths() == lengths.as_slice())
}

/// Makes so many turns of the gateway ipn:9.0, all at this moment, and answers how they end.
fn served(
    alloc: Global,
    turns: u64,
    moment: u32,
    sink: &mut SureSink,
    old: &mut MemLink,
    new: &mut MemLink,
) -> Result<Status, AllocError> {
    let mut clock = MemClock::new(alloc, &[u64::from(moment)])?;
    let gate = Endpoint::Ipn {
        node: 9,
        service: 0,
    };
    Ok(serve(alloc, gate, turns, sink, old, new, &mut clock))
}

/// Whether a row goes so.
fn goes_so(alloc: Global, row: &Row) -> Result<bool, Fail> {
    let mut old = MemLink::new(alloc, ROOM, row.failing[0])?;
    let mut new = MemLink::new(alloc, ROOM, row.failing[1])?;
    put(&mut old, &octets(alloc, row.coming)?)?;
    let mut sink = SureSink::new(alloc, ROOM)?;
    let status = served(alloc, row.turns, row.moment, &mut sink, &mut old, &mut new)?;
    Ok(
        status == Status::Done
            && sink.octets() == row.text.as_bytes()
            && went(alloc, &old, row.gone[0])?
            && went(alloc, &new, row.gone[1])?,
    )
}

#[test]
fn turns_are_made(rt: HostRuntime) -> Result<(), Fail> {
    for row in ROWS {
        assert!(rt; goes_so(rt.alloc(), row)?, "{}", row.text);
    }
    Ok(())
}

/// The bundle of the rows alone.
const BUNDLE: &str = "0681100d02010101000000008768053c00010803616263";

/// What is written in the last of 65 turns in which it comes, each time in a session of its own.
const LAST: &str =
    "\nup g.o 65 0681100d02010101000000008768053c00010803616263\nnote g.o Evicted 1\nnote g.o Storage 65\n";

/// Has the bundle come in so many sessions of the old node, from the first on.
fn put_sessions(alloc: Global, link: &mut MemLink, count: u8) -> Result<(), Fail> {
    let bundle = octets(alloc, BUNDLE)?;
    for session in 1..=count {
        let mut datagram = Vec::new(alloc);
        datagram.extend_from_slice(&[3, 1, session, 0, 1, 0, 23, session.wrapping_add(1), 0])?;
        datagram.extend_from_slice(&bundle)?;
        put(link, &datagram)?;
    }
    Ok(())
}

/// Whether the last of 65 bundles, which nobody acknowledges, evicts the first session and isn't sent.
fn evicts(alloc: Global) -> Result<bool, Fail> {
    let mut old = MemLink::new(alloc, ROOM, &[])?;
    let mut new = MemLink::new(alloc, ROOM, &[])?;
    put_sessions(alloc, &mut old, 65)?;
    let mut sink = SureSink::new(alloc, ROOM)?;
    let status = served(alloc, 65, 1_010_000, &mut sink, &mut old, &mut new)?;
    Ok(
        status == Status::Done
            && sink.octets().ends_with(LAST.as_bytes())
            && old.lengths().len() == 65
            && new.lengths().len() == 64,
    )
}

#[test]
fn a_65th_session_evicts_the_first(rt: HostRuntime) -> Result<(), Fail> {
    assert!(rt; evicts(rt.alloc())?);
    Ok(())
}
