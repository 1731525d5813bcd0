//! What may be put into a face's outbox.

ghost use Rattle.std.specs.Prelude.{◌≡◌, ◌+◌};
ghost use Rattle.face_room.specs.Queues.{queued_with};
ghost use Rattle.peer_gateway.specs.Queue.{may_of};

use face_room::Bounds;

/// What a face keeps while it makes datagrams, of which each is put into its outbox or dropped.
#[derive(Clone, Copy, Debug)]
pub(crate) struct Queue {
    pub bounds: Bounds,
    /// How many octets the face keeps besides its outbox, up to the greatest number that 64 bits show.
    pub kept: u64,
    /// How many octets wait in its outbox.
    pub queued: u64,
}

impl Queue {
    /// A datagram of so many octets was made. Whether it is put: then it waits.
    pub fn put(&mut self, octets: u64) -> bool
        ensures is_put { result ≡ may_of self.old (self.old.queued + octets) }
        ensures after { self.new
            ≡ record self.old { queued = queued_with (may_of self.old) self.old.queued octets } }
    {
        let is_put = self.bounds.may_wait(self.kept, self.queued, octets);
        if is_put {
            self.queued += octets;
        }
        is_put
    }
}
