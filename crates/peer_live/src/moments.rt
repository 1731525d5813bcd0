//! The moments of a half.

ghost use Rattle.std.specs.Prelude.{◌≡◌, ◌<◌, ◌^◌, None};
ghost use Rattle.contact_plan.specs.Windows.{next_from};
ghost use Rattle.gate_face.specs.Contacts.{told_at};
ghost use Rattle.gate_face.specs.Halves.{after_clocks};
ghost use Rattle.outbox.specs.Outbox.{contact_of};
ghost use Rattle.peer_gateway.specs.Views.{AreMoments, moments_of};
ghost use Rattle.peer_half.specs.Moments as spec;

use gate_face::FaceRun;
use gate_log::LinkEvent;
use outbox::{Outbox, Reading};
use peer_gateway::{FaceMoments, Moments};

/// Before the first half, where the wall clock shows this at its reading.
pub(crate) fn same(wall: u64) -> Moments
    requires { wall < 2 ^ 62 }
    ensures moments { moments_of result ≡ spec.same wall }
    ensures legal { AreMoments result }
{
    let face = FaceMoments {
        at: wall,
        leaves: wall,
    };
    Moments {
        wall,
        old: face,
        new: face,
    }
}

/// A half begins at a face: the clocks are read there. Answers the face's moments, and what there is to
/// tell of its contacts. It takes no memory.
pub(crate) fn read_face(face: &mut FaceRun, reading: Reading) -> (FaceMoments, Option<LinkEvent>)
    requires { reading.wall < 2 ^ 62 }
    ensures moments { result.0 ≡ spec.face_moments reading face.old }
    ensures small { (result.0).at < 2 ^ 62 }
    ensures told { result.1 ≡ told_at (face.old).outbox reading }
    ensures after { face.new ≡ after_clocks reading face.old }
{
    let (at, told) = face.read(reading);
    let leaves = leaves(face.outbox(), reading.wall);
    (FaceMoments { at, leaves }, told)
}

/// Until when, by the wall clock, what goes at a face waits for its link: now, where that is open, or no
/// contact comes any more; else until the next contact begins.
fn leaves(outbox: &Outbox, wall: u64) -> u64
    ensures { result ≡ spec.leaves_by (contact_of outbox.now)
        (next_from ((outbox.now).schedule).windows wall) wall }
{
    match outbox.contact() {
        Some(_) => wall,
        None => begins_or(outbox.schedule().next(wall), wall),
    }
}

/// When the next contact begins, or now.
fn begins_or(begins: Option<u64>, wall: u64) -> u64
    ensures { result ≡ spec.leaves_by None begins wall }
{
    match begins {
        Some(begins) => begins,
        None => wall,
    }
}
