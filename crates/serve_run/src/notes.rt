//! What is said of a link whose call failed. The lines are constant, so that they want no memory.
ghost use Rattle.std.specs.Prelude.{◌≡◌, length};
ghost use Rattle.serve_run.specs.Deeds.{link_line};

use gate_cases::Face;

/// How many octets such a line has.
pub const NOTE_LENGTH: usize = 14;

/// The line that says of the face's link that a call failed: a send, or else a poll.
#[tactic(auto, unfolding(crate::specs::Deeds::link_line))]
pub fn link_line(face: Face, send: bool) -> &'static str
    ensures line { result.now ≡ link_line face send }
    ensures long { length result.now ≡ 14 }
{
    match (face, send) {
        (Face::Old, true) => "note old Send\n",
        (Face::Old, false) => "note old Poll\n",
        (Face::New, true) => "note new Send\n",
        (Face::New, false) => "note new Poll\n",
    }
}
