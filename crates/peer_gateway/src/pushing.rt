//! What a step does, pushed after what was done before it.

ghost use Rattle.std.specs.Prelude.{◌≡◌, ◌++◌, map, OnOk};
ghost use Rattle.gateway_core.specs.Effects.{datagram_at};
ghost use Rattle.peer_sessions.specs.Sessions.{evictions};
ghost use Rattle.peer_gateway.specs.Gate.{told_engine, told_green};
ghost use Rattle.peer_gateway.specs.Steps.{told_at};
ghost use Rattle.peer_gateway.specs.Queue.{puts_by, queue_after};
ghost use Rattle.peer_gateway.specs.Answers.{routed_seen, put_seen, told_seen};

use crate::queue::Queue;
use crate::told::{Outgoing, Remark, RemarkAt};
use gate_cases::Face;
use ltp_engine::{Greens, Notes};
use ltp_segment::{Note, Outs};
use std::alloc::AllocError;

/// Datagrams of a face after others: each is put into its outbox, where it may wait there, or dropped.
pub(crate) fn push_datagrams(
    out: &mut Vec<Outgoing>,
    face: Face,
    queue: &mut Queue,
    datagrams: Outs,
) -> Result<(), AllocError>
    ensures out { OnOk result (map routed_seen out.new.items
        ≡ map routed_seen out.old.items ++ map (datagram_at face) datagrams) }
    ensures puts { OnOk result (map put_seen out.new.items
        ≡ map put_seen out.old.items ++ puts_by queue.old datagrams) }
    ensures queue { OnOk result (queue.new ≡ queue_after queue.old datagrams) }
{
    'each: for datagram in datagrams.into_vec() {
        let is_put = queue.put(datagram.len() as u64);
        out.push(Outgoing {
            face,
            datagram,
            is_put,
        })?;
    }
    Ok(())
}

/// Sessions of a face that were closed, after other remarks.
pub(crate) fn push_gone(
    told: &mut Vec<RemarkAt>,
    face: Face,
    gone: &[u64],
) -> Result<(), AllocError>
    ensures { OnOk result (map told_seen told.new.items
        ≡ map told_seen told.old.items ++ map (told_at face) (map told_engine (evictions gone.now))) }
{
    'each: for session in gone {
        let note = Note::Evicted { session: *session };
        let remark = Remark::Engine { note };
        told.push(RemarkAt { face, remark })?;
    }
    Ok(())
}

/// Notes of a face's engine, after other remarks.
pub(crate) fn push_notes(
    told: &mut Vec<RemarkAt>,
    face: Face,
    notes: Notes,
) -> Result<(), AllocError>
    ensures { OnOk result (map told_seen told.new.items
        ≡ map told_seen told.old.items ++ map (told_at face) (map told_engine notes)) }
{
    'each: for note in notes.into_vec()? {
        let remark = Remark::Engine { note };
        told.push(RemarkAt { face, remark })?;
    }
    Ok(())
}

/// Green pieces of a face, after other remarks.
pub(crate) fn push_greens(
    told: &mut Vec<RemarkAt>,
    face: Face,
    greens: Greens,
) -> Result<(), AllocError>
    ensures { OnOk result (map told_seen told.new.items
        ≡ map told_seen told.old.items ++ map (told_at face) (map told_green greens)) }
{
    'each: for green in greens.into_vec() {
        let remark = Remark::Green { green };
        told.push(RemarkAt { face, remark })?;
    }
    Ok(())
}
