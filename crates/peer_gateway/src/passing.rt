//! A datagram comes at a face, and the blocks that are handed up go on.

ghost use Rattle.std.specs.Prelude.{◌≡◌, IfOk, OnOk};
ghost use Rattle.ltp_segment.specs.Reading.{segment_of};
ghost use Rattle.bundle_rows.specs.Standing.{IsBundle};
ghost use Rattle.gateway_core.specs.Ties.{up_values};
ghost use Rattle.peer_cases.specs.Items.{item_seen, IsItem};
ghost use Rattle.peer_cases.specs.Rows.{came_in};
ghost use Rattle.peer_gateway.specs.Gate.{in_turn};
ghost use Rattle.peer_gateway.specs.Steps.{hears_at, passes_came, passes_item, passes, due_if, arrives_peer};

use crate::answer::PeerAnswer;
use crate::faces::Heard;
use crate::moments::Moments;
use crate::parts::Parts;
use crate::staying::are_octets;
use crate::told::Remark;
use gate_cases::Face;
use gate_log::subject_of;
use ltp_engine::Up;
use peer_cases::{Item, Items, decide};
use std::alloc::AllocError;

impl Parts {
    ghost use Rattle.peer_gateway.specs.Views.{AreMoments, moments_of};
    ghost use Rattle.peer_gateway.specs.Ties.{IsWhole, Did, HeardAt, gate_of, setup_in};

    /// A datagram comes at a face: what its sessions do; then each block that they hand up; and what is ready
    /// goes, where a session ended.
    pub fn arrive(
        &mut self,
        face: Face,
        datagram: &[u8],
        moments: Moments,
        answer: &mut PeerAnswer,
    ) -> Result<(), AllocError>
        requires whole { IsWhole self.old }
        requires moments { AreMoments moments }
        ensures { OnOk result (Did self.old self.new answer.old answer.new
            (arrives_peer (setup_in self.old) face (segment_of datagram.now) (moments_of moments) (gate_of self.old))) }
    {
        let heard = self.hear(face, datagram, moments, answer)?;
        self.pass_all(face, heard.ups.as_slice(), moments, answer)?;
        self.due_if(heard.has_ended, face, moments, answer)
    }

    /// A face's sessions hear a datagram.
    fn hear(
        &mut self,
        face: Face,
        datagram: &[u8],
        moments: Moments,
        answer: &mut PeerAnswer,
    ) -> Result<Heard, AllocError>
        requires whole { IsWhole self.old }
        requires moments { AreMoments moments }
        ensures { IfOk result (HeardAt self.old self.new answer.old answer.new face
            (hears_at (setup_in self.old) face (gate_of self.old) (segment_of datagram.now) ((moments_of moments).at face))) }
    {
        match face {
            Face::Old => self.old_face.hear(datagram, moments.old.at, answer),
            Face::New => self.new_face.hear(datagram, moments.new.at, answer),
        }
    }

    /// Where a session ended, what is ready goes.
    fn due_if(
        &mut self,
        has_ended: bool,
        face: Face,
        moments: Moments,
        answer: &mut PeerAnswer,
    ) -> Result<(), AllocError>
        requires whole { IsWhole self.old }
        requires moments { AreMoments moments }
        ensures { OnOk result (Did self.old self.new answer.old answer.new
            (due_if has_ended (setup_in self.old) (moments_of moments) face (gate_of self.old))) }
    {
        if has_ended {
            self.due(face, moments, answer)
        } else {
            Ok(())
        }
    }

    // ---- blocks that came whole

    /// They go on, or not, one after the other.
    fn pass_all(
        &mut self,
        face: Face,
        ups: &[Up],
        moments: Moments,
        answer: &mut PeerAnswer,
    ) -> Result<(), AllocError>
        requires whole { IsWhole self.old }
        requires moments { AreMoments moments }
        ensures { OnOk result (Did self.old self.new answer.old answer.new
            (in_turn (passes (setup_in self.old) face (moments_of moments)) (up_values ups.now) (gate_of self.old))) }
    {
        'passing: for up in ups {
            self.pass(face, up.session, up.body.as_slice(), moments, answer)?;
        }
        Ok(())
    }

    /// All that stands in a block, one after the other.
    fn pass(
        &mut self,
        face: Face,
        session: u64,
        block: &[u8],
        moments: Moments,
        answer: &mut PeerAnswer,
    ) -> Result<(), AllocError>
        requires whole { IsWhole self.old }
        requires moments { AreMoments moments }
        ensures { OnOk result (Did self.old self.new answer.old answer.new
            (passes (setup_in self.old) face (moments_of moments) (record { session = session; body = block.now }) (gate_of self.old))) }
    {
        let mut items = Items::new(face, block);
        'passing: while let Some(item) = items.next_item() {
            self.pass_item(face, session, item, moments, answer)?;
        }
        Ok(())
    }

    /// A bundle of a row, or the end.
    fn pass_item(
        &mut self,
        face: Face,
        session: u64,
        item: Item<'_>,
        moments: Moments,
        answer: &mut PeerAnswer,
    ) -> Result<(), AllocError>
        requires whole { IsWhole self.old }
        requires moments { AreMoments moments }
        requires item { IsItem face item }
        ensures { OnOk result (Did self.old self.new answer.old answer.new
            (passes_item (setup_in self.old) face (moments_of moments) session (item_seen item.entry) (gate_of self.old))) }
    {
        match item {
            Item::Bundle { index, octets } => {
                let subject = subject_of(self.alloc, octets)?;
                answer.tell(face, Remark::Bundle { subject })?;
                self.pass_bundle(face, session, index, octets, moments, answer)
            }
            Item::End { index, end } => answer.tell(
                face,
                Remark::End {
                    index,
                    session,
                    end,
                },
            ),
        }
    }

    // ---- a bundle

    /// It is decided about a bundle by the room at the other face as it is now.
    fn pass_bundle(
        &mut self,
        face: Face,
        session: u64,
        index: Option<usize>,
        octets: &[u8],
        moments: Moments,
        answer: &mut PeerAnswer,
    ) -> Result<(), AllocError>
        requires whole { IsWhole self.old }
        requires moments { AreMoments moments }
        requires bundle { IsBundle face octets.now }
        ensures { OnOk result (Did self.old self.new answer.old answer.new (passes_came (setup_in self.old) face
            (moments_of moments) index session (came_in (setup_in self.old).settings face octets.now) (gate_of self.old))) }
    {
        are_octets(octets);
        let to = face.other();
        let room = self.face(to).room()?;
        let decision = decide(
            self.alloc,
            self.settings,
            face,
            octets,
            moments.wall,
            self.cut,
            room,
        )?;
        self.carry_out(face, session, index, decision, moments, answer)
    }
}
