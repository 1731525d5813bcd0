//! What is done once it is decided about a bundle.

ghost use Rattle.std.specs.Prelude.{◌≡◌, ◌<◌, ◌^◌, false, length, IfOk, OnOk};
ghost use Rattle.std.specs.List.{All};
ghost use Rattle.gate_cases.specs.Faces.{other_of};
ghost use Rattle.peer_gateway.specs.Steps.{adds_all, next_if, reports, answers, decides};
ghost use Rattle.peer_gateway.specs.Answers.{with_told, left_told};

use crate::answer::PeerAnswer;
use crate::moments::Moments;
use crate::parts::Parts;
use crate::told::Remark;
use crate::waits::plus;
use block_types::LeftOut;
use endpoint::Octets;
use gate_cases::{AskedReport, Face, NUMBERS};
use peer_cases::{Decision, SizedPieces, is_unreported};
use piece_gathering::Piece;
use std::alloc::AllocError;

impl Parts {
    ghost use Rattle.peer_gateway.specs.Views.{AreMoments, moments_of};
    ghost use Rattle.peer_gateway.specs.Ties.{IsWhole, Did, gate_of, setup_in, CanBeAdded, IsReport};

    /// Once it is decided: the pieces are added at the other face; the case is told, and what they lack; and
    /// the report that is asked for is added at this one.
    pub fn carry_out(
        &mut self,
        face: Face,
        session: u64,
        index: Option<usize>,
        decision: Decision,
        moments: Moments,
        answer: &mut PeerAnswer,
    ) -> Result<(), AllocError>
        requires whole { IsWhole self.old }
        requires moments { AreMoments moments }
        requires pieces { All (CanBeAdded self.old.settings (other_of face)) decision.pieces }
        requires report { IsReport face decision.report }
        ensures { OnOk result (Did self.old self.new answer.old answer.new
            (decides (setup_in self.old) face (moments_of moments) index session decision (gate_of self.old))) }
    {
        let Decision {
            case,
            pieces,
            report,
            left,
        } = decision;
        let count = pieces.len();
        let to = face.other();
        let first = self.next_if(to)?;
        self.add_all(to, pieces, moments, answer)?;
        answer.tell(
            face,
            Remark::Case {
                index,
                session,
                case,
                pieces: count,
                first,
            },
        )?;
        tell_left(face, session, index, left, answer)?;
        self.answer(face, session, index, report, moments, answer)
    }

    /// Pieces are added at a face, in order.
    fn add_all(
        &mut self,
        face: Face,
        pieces: SizedPieces,
        moments: Moments,
        answer: &mut PeerAnswer,
    ) -> Result<(), AllocError>
        requires whole { IsWhole self.old }
        requires moments { AreMoments moments }
        requires pieces { All (CanBeAdded self.old.settings face) pieces }
        ensures { OnOk result (Did self.old self.new answer.old answer.new
            (adds_all (setup_in self.old) face (moments_of moments) pieces (gate_of self.old))) }
    {
        let added = moments.of(face).at;
        'adding: for sized in pieces.into_vec() {
            let piece = Piece {
                octets: sized.octets,
                size: sized.size,
                came: moments.wall,
                added,
                is_dated: sized.is_dated,
            };
            self.add(face, moments, false, piece, answer)?;
        }
        Ok(())
    }

    /// The session that the piece will have which is added next at a face, where each has one of its own.
    fn next_if(&self, face: Face) -> Result<Option<u64>, AllocError>
        requires { IsWhole self.now }
        ensures { IfOk result (λ next. next ≡ next_if (setup_in self.now) face (gate_of self.now)) }
    {
        let there = self.face(face);
        if there.gathers() {
            return Ok(None);
        }
        let next = plus(there.sessions.next_session(), there.gathering.len() as u64)?;
        Ok(Some(next))
    }

    // ---- a report

    /// A report that is asked for is sent, or it is told that it isn't.
    fn answer(
        &mut self,
        face: Face,
        session: u64,
        index: Option<usize>,
        report: Option<AskedReport>,
        moments: Moments,
        answer: &mut PeerAnswer,
    ) -> Result<(), AllocError>
        requires whole { IsWhole self.old }
        requires moments { AreMoments moments }
        requires report { IsReport face report }
        ensures { OnOk result (Did self.old self.new answer.old answer.new
            (answers (setup_in self.old) face (moments_of moments) index session report (gate_of self.old))) }
    {
        let Some(asked) = report else {
            return Ok(());
        };
        if self.counter >= NUMBERS {
            return answer.tell(face, Remark::Unreported { index, session });
        }
        let octets = asked.spell(self.alloc, &self.gate, self.counter, moments.wall)?;
        let room = self.face(face).room()?;
        if is_unreported(room, octets.len() as u64, moments.wall, self.counter) {
            return answer.tell(face, Remark::Unreported { index, session });
        }
        self.report(face, session, index, octets, moments, answer)
    }

    /// A report is added at a face, and the counter rises.
    fn report(
        &mut self,
        face: Face,
        session: u64,
        index: Option<usize>,
        octets: Octets,
        moments: Moments,
        answer: &mut PeerAnswer,
    ) -> Result<(), AllocError>
        requires whole { IsWhole self.old }
        requires moments { AreMoments moments }
        requires sized { CanBeAdded self.old.settings face (record { octets = octets; size = length octets; is_dated = false }) }
        requires counter { self.old.counter < 2 ^ 32 }
        ensures { OnOk result (Did self.old self.new answer.old answer.new (reports (setup_in self.old) face
            (moments_of moments) index session (record { octets = octets; size = length octets; is_dated = false }) (gate_of self.old))) }
    {
        let report = self.next_if(face)?;
        let piece = Piece {
            size: octets.len() as u64,
            octets,
            came: moments.wall,
            added: moments.of(face).at,
            is_dated: false,
        };
        self.counter += 1;
        self.add(face, moments, true, piece, answer)?;
        answer.tell(
            face,
            Remark::Reported {
                index,
                session,
                report,
            },
        )
    }
}

/// What the pieces of a bundle lack is told, where they lack something.
fn tell_left(
    face: Face,
    session: u64,
    index: Option<usize>,
    left: Option<LeftOut>,
    answer: &mut PeerAnswer,
) -> Result<(), AllocError>
    ensures { OnOk result (answer.new ≡ with_told answer.old (left_told face index session left)) }
{
    match left {
        None => Ok(()),
        Some(left) => answer.tell(
            face,
            Remark::Left {
                index,
                session,
                left,
            },
        ),
    }
}
