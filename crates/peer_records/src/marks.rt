//! Marks: which are due, and which are cleared.

ghost use Rattle.std.specs.Prelude.{◌≡◌, ◌^◌, ◌<◌, ◌∷◌, ◌++◌, [], IfOk, IfSome, OnOk, OnErr, map};
ghost use Rattle.journal_file.specs.Keeping.{is_about};
ghost use Rattle.gate_records.specs.Happened.{Happened, reports_on};
ghost use Rattle.gate_records.specs.Records.{is_marked, due_mark, clear_records};
ghost use Rattle.gate_records.specs.Ties.{clear_of};
ghost use Rattle.peer_records.specs.Happened.{marking};
ghost use Rattle.peer_records.specs.Said.{happened_by};

use crate::step::{StepDone, reports_on};
use gate_cases::Face;
use gate_records::GateSessions;
use journal_file::Mark;
use peer_gateway::Outgoing;
use std::alloc::{AllocError, Global};

/// The mark that is due for a datagram: it reports on a session of the peer that isn't handed up, and
/// isn't marked.
pub(crate) fn due_mark<G: GateSessions>(
    gate: &G,
    wall: u64,
    outgoing: &Outgoing,
    marks: &[Mark],
) -> Option<Mark>
    ensures due { (h : Happened) → h.wall ≡ wall → h.is_handed_up ≡ G.handed_up gate.now
        → result ≡ due_mark h (outgoing.now).face (reports_on (outgoing.now).datagram) marks.now }
    ensures small { IfSome (reports_on (outgoing.now).datagram) (λ session. session < 2 ^ 64) }
{
    let session = reports_on(outgoing.datagram.as_slice())?;
    if gate.is_handed_up(outgoing.face, session) || is_marked(marks, outgoing.face, session) {
        return None;
    }
    Some(Mark {
        face: outgoing.face,
        session,
        when: wall,
    })
}

/// Whether a session is marked.
fn is_marked(marks: &[Mark], face: Face, session: u64) -> bool
    ensures { result ≡ is_marked face session marks.now }
{
    marks.iter().any(|mark| is_about(*mark, face, session))
}

/// Whether a mark is about this session.
fn is_about(mark: Mark, face: Face, session: u64) -> bool
    ensures { result ≡ is_about face session mark }
{
    mark.face == face && mark.session == session
}

/// The marks that are cleared with a step. Memory is wanted only where there are some.
pub(crate) fn over_marks<G: GateSessions>(
    alloc: Global,
    step: &StepDone<'_>,
    gate: &G,
    marks: &[Mark],
) -> Result<Vec<Mark>, AllocError>
    ensures over { IfOk result (λ over. map clear_of over.items ≡ clear_records
        (marking (happened_by step.now (G.opened gate.now) (G.handed_up gate.now))) marks.now) }
    ensures wanted { OnErr result (clear_records
        (marking (happened_by step.now (G.opened gate.now) (G.handed_up gate.now))) marks.now ≡ [] → ⊥) }
{
    if step.may_be_over() {
        return all_over(alloc, step, gate, marks);
    }
    Ok(Vec::new(alloc))
}

/// The same, by a walk through the marks.
fn all_over<G: GateSessions>(
    alloc: Global,
    step: &StepDone<'_>,
    gate: &G,
    marks: &[Mark],
) -> Result<Vec<Mark>, AllocError>
    ensures over { IfOk result (λ over. map clear_of over.items ≡ clear_records
        (marking (happened_by step.now (G.opened gate.now) (G.handed_up gate.now))) marks.now) }
    ensures wanted { OnErr result (clear_records
        (marking (happened_by step.now (G.opened gate.now) (G.handed_up gate.now))) marks.now ≡ [] → ⊥) }
{
    let mut over = Vec::new(alloc);
    'marks: for mark in marks {
        add_over(step, gate, *mark, &mut over)?;
    }
    Ok(over)
}

/// Adds a mark that is cleared.
#[tactic(auto, unfolding(gate_records::specs::Records::clear_records))]
fn add_over<G: GateSessions>(
    step: &StepDone<'_>,
    gate: &G,
    mark: Mark,
    over: &mut Vec<Mark>,
) -> Result<(), AllocError>
    ensures over { OnOk result (map clear_of over.new.items ≡ map clear_of over.old.items ++ clear_records
        (marking (happened_by step.now (G.opened gate.now) (G.handed_up gate.now))) (mark ∷ [])) }
    ensures wanted { OnErr result (clear_records
        (marking (happened_by step.now (G.opened gate.now) (G.handed_up gate.now))) (mark ∷ []) ≡ [] → ⊥) }
{
    if !step.is_over(gate, mark.face, mark.session) {
        return Ok(());
    }
    over.push(mark)?;
    Ok(())
}
