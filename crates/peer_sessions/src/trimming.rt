//! Sessions that are closed for want of memory.

ghost use Rattle.std.specs.Prelude.{◌≡◌, true, nat_le, IfSome, IfOk, OnOk};
ghost use Rattle.face_room.specs.Bounds.{half};
ghost use Rattle.ltp_engine.specs.Sessions.{is_receiving};
ghost use Rattle.ltp_engine.specs.Shows.{AreDistinct};
ghost use Rattle.peer_sessions.specs.Sessions.{closes, to_trim};
ghost use Rattle.peer_sessions.specs.Hearing.{first_of};

use crate::parts::Parts;
use std::alloc::AllocError;

impl Parts {
    ghost use Rattle.peer_sessions.specs.Ties.{state_of, keys_in, IsWhole, AreAfter};

    /// Where all receiving sessions together have too many octets, those are closed that are longest
    /// untouched. It answers which.
    pub fn trim(&mut self) -> Result<Vec<u64>, AllocError>
        requires { IsWhole self.old }
        ensures gone { IfOk result (λ gone. gone.items ≡ to_trim (keys_in self.old) (state_of self.old)) }
        ensures after { OnOk result (AreAfter self.old self.new
            (closes (to_trim (keys_in self.old) (state_of self.old)) (state_of self.old))) }
    {
        let mut gone = Vec::new(self.alloc);
        'trimming: while let Some(n) = self.first_to_trim() {
            gone.push(n)?;
            self.let_go(n)?;
        }
        Ok(gone)
    }

    /// The session that is closed next, where there are too many octets. They are counted only where there
    /// may be too many.
    fn first_to_trim(&mut self) -> Option<u64>
        requires { IsWhole self.old }
        ensures first { result ≡ first_of (to_trim (keys_in self.old) (state_of self.old)) }
        ensures kept { IfSome result (λ n. is_receiving n self.old.engine.inbound.receivers ≡ true) }
        ensures once { IfSome result (λ n. AreDistinct self.old.engine.inbound.touched) }
        ensures same { AreAfter self.old self.new (state_of self.old) }
    {
        if self.is_within() {
            return None;
        }
        self.at_most = self.engine.octets();
        if self.is_within() {
            return None;
        }
        self.engine.longest_untouched()
    }

    /// Whether they are surely not too many.
    fn is_within(&self) -> bool
        ensures { result ≡ nat_le self.now.at_most (half self.now.keys.bounds) }
    {
        self.at_most <= self.keys.bounds.half()
    }
}
