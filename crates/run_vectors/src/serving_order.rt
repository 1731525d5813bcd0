//! What turns of `serve` do outside, in order, over links, a clock and a sink that are one thing in
//! memory.

use crate::serving::{COMES, ROOM, octets, put};
use edge_traits::{MemClock, MemLink, MemSink, Status};
use endpoint::Endpoint;
use gate_cases::Face;
use serve_run::{MemDeed, MemEdges, serve_over};
use std::alloc::Global;
use std::test::Fail;

/// A bundle comes on the old link. Which calls fail on the old link, on the new one, and at the sink;
/// how two turns end, and what was done in them.
struct Row {
    failing: [&'static [bool]; 3],
    status: Status,
    deeds: &'static str,
}

const ROWS: &[Row] = &[
    // The report goes on the old link and the bundle on the new one; then the lines are written, and then
    // the other link has its half.
    Row {
        failing: [&[], &[], &[]],
        status: Status::Done,
        deeds: "read, gave old, sent old, sent new, wrote, \
                read, nothing new, read, nothing old, read, nothing new",
    },
    // A poll that fails is noted at once; a send that fails with the lines of its step, after the others.
    Row {
        failing: [&[true, true], &[], &[]],
        status: Status::Done,
        deeds: "read, failed old, wrote, read, nothing new, \
                read, failed old, wrote, read, nothing new",
    },
    Row {
        failing: [&[false, true], &[], &[]],
        status: Status::Done,
        deeds: "read, gave old, lost old, sent new, wrote, \
                read, nothing new, read, nothing old, read, nothing new",
    },
    // After a write that fails nothing is done; what its step sends went before.
    Row {
        failing: [&[], &[], &[true]],
        status: Status::WriteFault,
        deeds: "read, gave old, sent old, sent new, failed write",
    },
    Row {
        failing: [&[true], &[], &[true]],
        status: Status::WriteFault,
        deeds: "read, failed old, failed write",
    },
];

/// The word of the face.
fn at(face: Face, old: &'static str, new: &'static str) -> &'static str {
    match face {
        Face::Old => old,
        Face::New => new,
    }
}

/// What a row says of a deed; nothing of a text without an octet.
fn word_of(deed: &MemDeed) -> Option<&'static str> {
    match deed {
        MemDeed::Read(_) => Some("read"),
        MemDeed::PollFailed(face) => Some(at(*face, "failed old", "failed new")),
        MemDeed::PolledEmpty(face) => Some(at(*face, "nothing old", "nothing new")),
        MemDeed::Polled(face, _) => Some(at(*face, "gave old", "gave new")),
        MemDeed::Sent(face, _) => Some(at(*face, "sent old", "sent new")),
        MemDeed::Lost(face, _) => Some(at(*face, "lost old", "lost new")),
        MemDeed::Wrote(text) if text.len() == 0 => None,
        MemDeed::Wrote(_) => Some("wrote"),
        MemDeed::WriteFailed => Some("failed write"),
    }
}

/// Makes two turns of the gateway ipn:9.0 at one moment.
fn served(alloc: Global, edges: &mut MemEdges) -> Status {
    let gate = Endpoint::Ipn {
        node: 9,
        service: 0,
    };
    serve_over(alloc, gate, 2, edges)
}

/// The outside of a row.
fn edges_of(alloc: Global, row: &Row) -> Result<MemEdges, Fail> {
    let mut old = MemLink::new(alloc, ROOM, row.failing[0])?;
    put(&mut old, &octets(alloc, COMES)?)?;
    let new = MemLink::new(alloc, ROOM, row.failing[1])?;
    let sink = MemSink::new(alloc, ROOM, row.failing[2])?;
    let clock = MemClock::new(alloc, &[1_010_000])?;
    Ok(MemEdges::new(alloc, old, new, clock, sink))
}

/// What was done, in order.
fn told(alloc: Global, deeds: &[MemDeed]) -> Result<String, Fail> {
    let mut text = String::new(alloc);
    for deed in deeds {
        if let Some(word) = word_of(deed) {
            if text.len() != 0 {
                text.push_str(", ")?;
            }
            text.push_str(word)?;
        }
    }
    Ok(text)
}

/// Whether a row goes so.
fn goes_so(alloc: Global, row: &Row) -> Result<bool, Fail> {
    let mut edges = edges_of(alloc, row)?;
    let status = served(alloc, &mut edges);
    let told = told(alloc, edges.deeds())?;
    Ok(status == row.status && told.as_str() == row.deeds)
}

#[test]
fn turns_are_made_in_order(rt: HostRuntime) -> Result<(), Fail> {
    for (number, row) in ROWS.iter().enumerate() {
        assert!(rt; goes_so(rt.alloc(), row)?, "{number}");
    }
    Ok(())
}
