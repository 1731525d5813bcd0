//! A judge of version 7 takes pieces of its stream.

ghost use Rattle.std.specs.Prelude.{ℕ, ◌≡◌, ◌+◌, ◌<◌, ◌^◌, List, [], length, true, false, Err};
ghost use Rattle.wire_fields.specs.Reading.{read};
ghost use Rattle.wire_fields.specs.Refusal.{truncated};
ghost use Rattle.bundle7.specs.Table.{bundle};
ghost use Rattle.bundle7.specs.Streaming.{Stream};
ghost use Rattle.bundle7.specs.Holding.{Ends};
ghost use Rattle.bundle_judges.specs.Judging7.{HasTaken, JudgesOn};
ghost use Rattle.bundle_judges.specs.Stand7.{HasCome, TookSo, JudgesPart};

use crate::few::Few;
use crate::stand7::{Stage, Stand};
use bundle7::{Cause7, Fail7, Judged7, Refused7, Seen, judge7, start_judged};
use std::alloc::Global;

impl Stand {
    /// Nothing came.
    pub(crate) fn new(alloc: Global) -> Stand
        ensures come { HasCome [] result }
        ensures before { result.before ≡ 0 }
    {
        Stand {
            before: 0,
            came: 0,
            at: 0,
            stage: Stage::Primary,
            seen: Seen::none(),
            part: None,
            main: Vec::new(alloc),
            head: Few::none(),
        }
    }

    /// A bundle of so many octets ended.
    fn close(&mut self, end: usize)
        requires { self.old.before + end < 2 ^ 64 }
        ensures come { HasCome [] self.new }
        ensures before { self.new.before ≡ self.old.before + end }
    {
        self.before += end;
        self.came = 0;
        self.at = 0;
        self.stage = Stage::Primary;
        self.seen.clear();
        self.part = None;
        self.main.clear();
        self.head.clear();
    }

    /// Nothing came, of another stream.
    pub(crate) fn restart(&mut self)
        requires { (stream : Stream) × TookSo stream self.old }
        ensures come { HasCome [] self.new }
        ensures before { self.new.before ≡ 0 }
    {
        self.before = 0;
        // After whole bundles there is nothing to let go of.
        if self.came > 0 {
            self.close(0);
        }
    }

    /// Takes a piece; with it the bundle under way may have so many octets.
    pub(crate) fn feed(&mut self, piece: &[u8], longest: usize) -> Result<Judged7, Fail7>
        requires taken { (stream : Stream) × HasTaken longest stream self.old }
        requires counted { self.old.before + self.old.came + length piece.now < 2 ^ 64 }
        ensures { (stream : Stream) → HasTaken longest stream self.old
            → JudgesOn longest stream piece.now result self.new }
    {
        let room = longest - self.came;
        let near = &piece[..piece.len().min(room)];
        let cut = near.len() < piece.len();
        if cut && self.came == 0 {
            self.look(near)
        } else {
            self.go_on(near, cut)
        }
    }

    /// Takes a part of a piece after whole bundles, after which no more may follow: it is judged where
    /// it lies.
    fn look(&mut self, part: &[u8]) -> Result<Judged7, Fail7>
        requires came { (stream : Stream) × TookSo stream self.old }
        requires counted { self.old.before + self.old.came + length part.now < 2 ^ 64 }
        requires empty { self.old.came ≡ 0 }
        ensures { (stream : Stream) → TookSo stream self.old
            → JudgesPart stream part.now true result self.new }
    {
        match judge7(part) {
            Ok(end) => {
                self.before += end;
                Ok(Judged7 {
                    used: end,
                    whole: Some(end),
                })
            }
            Err(refused) => match refused.cause {
                Cause7::Truncated => Err(Fail7::Refused {
                    at: self.before,
                    cause: Cause7::TooLong,
                }),
                _ => Err(refused.after(self.before).into()),
            },
        }
    }

    /// Takes a part of a piece.
    fn go_on(&mut self, part: &[u8], cut: bool) -> Result<Judged7, Fail7>
        requires came { (stream : Stream) × TookSo stream self.old }
        requires counted { self.old.before + self.old.came + length part.now < 2 ^ 64 }
        requires begun { self.old.came ≡ 0 → cut ≡ false }
        ensures { (stream : Stream) → TookSo stream self.old
            → JudgesPart stream part.now cut result self.new }
    {
        let held = self.came;
        let before = self.before;
        match self.run(part) {
            Ok(Some(end)) => {
                self.close(end);
                Ok(Judged7 {
                    used: end - held,
                    whole: Some(end),
                })
            }
            Ok(None) if cut => Err(Fail7::Refused {
                at: before,
                cause: Cause7::TooLong,
            }),
            Ok(None) => Ok(Judged7 {
                used: part.len(),
                whole: None,
            }),
            Err(Fail7::Refused { at, cause }) => Err(Fail7::Refused {
                at: before + at,
                cause,
            }),
            Err(Fail7::Memory) => Err(Fail7::Memory),
        }
    }

    /// The end of the stream as a refusal, where a bundle has begun.
    pub(crate) fn finish(&self) -> Option<Refused7>
        requires came { (stream : Stream) × TookSo stream self.now }
        requires counted { self.now.before + self.now.came < 2 ^ 64 }
        ensures { (stream : Stream) → TookSo stream self.now → Ends stream result }
    {
        if self.came == 0 {
            return None;
        }
        Some(Refused7 {
            at: self.before + self.cut(),
            cause: Cause7::Truncated,
        })
    }

    /// The place of the field in which the octets end.
    fn cut(&self) -> usize
        requires come { (text : List ℕ) × HasCome text self.now }
        requires counted { self.now.came < 2 ^ 64 }
        ensures { (text : List ℕ) → HasCome text self.now
            → read (bundle 64) text 0 ≡ Err (result, truncated) }
    {
        match self.stage {
            Stage::Primary => match start_judged(self.main.as_slice(), 0) {
                Ok(_) => 0,
                Err(refused) => refused.at,
            },
            Stage::Field(small) => match self.field(&small) {
                Ok(_) => 0,
                Err(refused) => self.at + refused.at,
            },
            Stage::Body { .. } => self.at,
        }
    }
}
