//! The text of two numbers that name an endpoint, spelled without memory.
ghost use Rattle.std.specs.Prelude.{◌≡◌, ◌<◌, ◌≤◌, ◌+◌, ◌∷◌, OnOk, drop, length};
ghost use Rattle.serde.specs.Event.{Logs, text};
ghost use Rattle.bundle_json.specs.Frames.{ipn_text};
ghost use Rattle.bundle_json.specs.declared.ipn.TheConstants.{MOST};

use serde::Serializer;
use std::str;

/// The most octets of a text: the scheme, twice twenty digits, and what stands between them.
const MOST: usize = 45;

/// Sends the text.
pub(crate) fn send_ipn<S: Serializer>(out: &mut S, node: u64, service: u64) -> Result<(), S::Error>
    ensures { OnOk result (Logs (S.written out.old) (S.written out.new) (text (ipn_text node service))) }
{
    let mut room = [0u8; MOST];
    let at = write_ipn(&mut room, node, service);
    out.str(str::from_utf8(&room[at..]).unwrap())
}

/// Writes the text at the end of the room. The result is where it begins.
fn write_ipn(room: &mut [u8], node: u64, service: u64) -> usize
    requires { length room.old ≡ MOST }
    ensures inside { result ≤ length room.new }
    ensures text { drop result room.new ≡ ipn_text node service }
{
    let end = room.len();
    let point = itoa::write_digits(service, room, end) - 1;
    put(room, point, b'.');
    let at = itoa::write_digits(node, room, point);
    put(room, at - 1, b':');
    put(room, at - 2, b'n');
    put(room, at - 3, b'p');
    put(room, at - 4, b'i');
    at - 4
}

/// Writes an octet before what was written.
fn put(room: &mut [u8], at: usize, octet: u8)
    requires { at < length room.old }
    ensures text { drop at room.new ≡ octet ∷ drop (at + 1) room.old }
    ensures long { length room.new ≡ length room.old }
{
    room[at] = octet;
}
