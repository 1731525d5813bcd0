//! Sending what may go.

ghost use Rattle.std.specs.Prelude.{◌≡◌};
ghost use Rattle.std.specs.Option.{is_some};
ghost use Rattle.gate_run.specs.Course.{Point};
ghost use Rattle.gate_run.specs.Stages.{IsAt, Leads, next_at, sends_one, sends_over, sends_both};

use gate_cases::Face;
use gate_edges::Outside;
use peer_parts::HalfParts;

/// Sends the datagram that may go next at a face, if one may. Whether one went.
fn send_one<T: HalfParts, O: Outside>(parts: &mut T, face: Face, outside: &mut O) -> bool
    ensures leads { (p : Point) → IsAt (T.Shows parts.old) (O.ahead outside.old) p
        → Leads (T.Shows parts.new) (sends_one face p) (O.ahead outside.new)
        (O.made outside.old) (O.made outside.new) }
    ensures went { (p : Point) → IsAt (T.Shows parts.old) (O.ahead outside.old) p
        → result ≡ is_some (next_at face p) }
    ensures writes { O.writes outside.new ≡ O.writes outside.old }
    ensures stores { O.stores outside.new ≡ O.stores outside.old }
{
    let Some(datagram) = parts.next(face) else {
        return false;
    };
    let failed = outside.send(face, datagram.as_slice()).is_err();
    parts.gone(face, &datagram, failed);
    true
}

/// Sends at a face all that may go now.
fn send_at<T: HalfParts, O: Outside>(parts: &mut T, face: Face, outside: &mut O)
    ensures leads { (p : Point) → IsAt (T.Shows parts.old) (O.ahead outside.old) p
        → Leads (T.Shows parts.new) (sends_over face p) (O.ahead outside.new)
        (O.made outside.old) (O.made outside.new) }
    ensures writes { O.writes outside.new ≡ O.writes outside.old }
    ensures stores { O.stores outside.new ≡ O.stores outside.old }
{
    let mut left = parts.waiting(face);
    'sending: while left > 0 {
        if !send_one(parts, face, outside) {
            return;
        }
        left -= 1;
    }
}

/// Sends all that may go now: the old face first, and then the new one.
pub fn send_both<T: HalfParts, O: Outside>(parts: &mut T, outside: &mut O)
    ensures leads { (p : Point) → IsAt (T.Shows parts.old) (O.ahead outside.old) p
        → Leads (T.Shows parts.new) (sends_both p) (O.ahead outside.new)
        (O.made outside.old) (O.made outside.new) }
    ensures writes { O.writes outside.new ≡ O.writes outside.old }
    ensures stores { O.stores outside.new ≡ O.stores outside.old }
{
    send_at(parts, Face::Old, outside);
    send_at(parts, Face::New, outside);
}
