//! A judge of a stream of bundles of version 7.

ghost use Rattle.std.specs.Prelude.{ℕ, ◌≡◌, ◌+◌, ◌<◌, ◌≤◌, ◌^◌, [], length, Some, None, true, false, IfOk, IfSome, Err};
ghost use Rattle.bundle7.specs.Streaming.{Stream, Finishes};
ghost use Rattle.bundle_judges.specs.Judging7.{HasTaken, IsTaking, taken_by, JudgesOn, Remembers, RemembersFail, AnswersAgain};

use crate::stand7::Stand;
use bundle7::{Fail7, Judged7, LONGEST, Refused7};
use std::alloc::Global;
use std::marker::Model;

/// A judge of a stream of bundles, which keeps of the bundle that is under way the octets of its primary
/// block as long as that doesn't end, at most 1,050 octets of another field, and the types and numbers
/// of its extension blocks.
///
/// It tells what [`bundle7::Reader7::judge`] tells: how the stream is cut into pieces makes no
/// difference, and a piece costs what its octets cost. Places count from the first octet that was taken.
#[derive(Drop)]
pub struct Judge7 {
    stand: Stand,
    refused: Option<Refused7>,
    spent: bool,
}

impl Model for Judge7 {
    ghost use Rattle.bundle_judges.specs.Judging7.{Judging};

    ghost Value = { Judging };

    ghost view = { λ j. record { stand = j.stand; refused = j.refused; spent = j.spent } };
}

impl Judge7 {
    /// A judge that has taken nothing. It takes no memory.
    pub fn new(alloc: Global) -> Judge7
        ensures taken { HasTaken 67108864 (record { before = 0; kept = [] }) result.stand }
        ensures fresh { result.refused ≡ None }
        ensures whole { result.spent ≡ false }
    {
        Judge7 {
            stand: Stand::new(alloc),
            refused: None,
            spent: false,
        }
    }

    /// Lets go of the stream that was taken so far, and keeps its room for another: places count anew. It
    /// takes no memory.
    pub fn restart(&mut self)
        requires whole { self.old.spent ≡ false }
        requires taken { IsTaking self.old.stand }
        requires fresh { self.old.refused ≡ None }
        ensures taken { HasTaken 67108864 (record { before = 0; kept = [] }) self.new.stand }
        ensures fresh { self.new.refused ≡ None }
        ensures whole { self.new.spent ≡ false }
    {
        self.stand.restart();
    }

    /// Takes a piece of the stream that was taken so far, up to the end of the first bundle that it
    /// completes, or all of it.
    ///
    /// A refusal comes with the octets that settle it, and each later call answers it again. After want
    /// of memory the judge may only be dropped.
    pub fn feed(&mut self, piece: &[u8]) -> Result<Judged7, Fail7>
        requires whole { self.old.spent ≡ false }
        requires taken { self.old.refused ≡ None → IsTaking self.old.stand }
        requires counted { taken_by self.old.stand + length piece.now < 2 ^ 64 }

        // Whatever it took, the piece gives what it gives after that.
        ensures feeds { self.old.refused ≡ None
            → (stream : Stream) → HasTaken 67108864 stream self.old.stand
            → JudgesOn 67108864 stream piece.now result self.new.stand }

        // It may go on, and has taken so many octets more.
        ensures goes_on { IfOk result (λ judged. IsTaking self.new.stand
            × (taken_by self.new.stand ≡ taken_by self.old.stand + judged.used)) }
        ensures again { IfSome self.old.refused (λ refused.
            AnswersAgain refused self.old result self.new) }
        ensures remembers { Remembers result self.new }
    {
        if let Some(refused) = self.refused {
            return Err(refused.into());
        }
        let result = self.stand.feed(piece, LONGEST);
        match &result {
            Ok(_) => {}
            Err(fail) => self.remember(*fail),
        }
        result
    }

    /// Ends the stream. It is refused if and only if a bundle has begun and isn't complete.
    pub fn finish(&mut self) -> Result<(), Fail7>
        requires whole { self.old.spent ≡ false }
        requires taken { self.old.refused ≡ None → IsTaking self.old.stand }
        requires counted { taken_by self.old.stand < 2 ^ 64 }
        ensures finishes { self.old.refused ≡ None
            → (stream : Stream) → HasTaken 67108864 stream self.old.stand → Finishes stream result }
        ensures again { IfSome self.old.refused (λ refused.
            AnswersAgain refused self.old result self.new) }
        ensures stand { self.new.stand ≡ self.old.stand }
        ensures remembers { Remembers result self.new }
    {
        if let Some(refused) = self.refused {
            return Err(refused.into());
        }
        match self.stand.finish() {
            None => Ok(()),
            Some(refused) => {
                self.refused = Some(refused);
                Err(refused.into())
            }
        }
    }

    /// Keeps a failure, so that each later call knows of it.
    fn remember(&mut self, fail: Fail7)
        requires fresh { self.old.refused ≡ None }
        requires whole { self.old.spent ≡ false }
        ensures stand { self.new.stand ≡ self.old.stand }
        ensures remembers { RemembersFail fail self.new }
    {
        match fail {
            Fail7::Refused { at, cause } => self.refused = Some(Refused7 { at, cause }),
            Fail7::Memory => self.spent = true,
        }
    }
}
