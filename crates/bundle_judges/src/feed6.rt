//! A judge of version 6 takes pieces of its stream.

ghost use Rattle.std.specs.Prelude.{ℕ, ◌≡◌, ◌+◌, ◌<◌, ◌^◌, List, [], length, false, Err};
ghost use Rattle.wire_fields.specs.Reading.{read};
ghost use Rattle.wire_fields.specs.Refusal.{truncated};
ghost use Rattle.bundle6.specs.Table.{bundle};
ghost use Rattle.bundle6.specs.Streaming.{Stream, IsOpen};
ghost use Rattle.bundle6.specs.Holding.{Ends};
ghost use Rattle.bundle_judges.specs.Judging6.{HasTaken, JudgesOn};
ghost use Rattle.bundle_judges.specs.Stand6.{HasCome, TookSo, Looks, JudgesPart};

use crate::few::Few;
use crate::stand6::{Stage, Stand};
use bundle6::{Cause6, Fail6, Judged6, Refused6, Seen, Texts, judge6, primary_judged};
use std::alloc::Global;

impl Stand {
    /// Nothing came.
    pub(crate) fn new(alloc: Global) -> Stand
        ensures come { HasCome [] result }
        ensures before { result.before ≡ 0 }
    {
        Stand {
            before: 0,
            came: 0,
            at: 0,
            stage: Stage::Primary,
            seen: Seen::NONE,
            part: None,
            main: Vec::new(alloc),
            texts: Texts { from: 0, to: 0 },
            head: Few::none(),
        }
    }

    /// A bundle of so many octets ended.
    fn close(&mut self, end: usize)
        requires { self.old.before + end < 2 ^ 64 }
        ensures come { HasCome [] self.new }
        ensures before { self.new.before ≡ self.old.before + end }
    {
        self.before += end;
        self.came = 0;
        self.at = 0;
        self.stage = Stage::Primary;
        self.seen = Seen::NONE;
        self.part = None;
        self.main.clear();
        self.texts = Texts { from: 0, to: 0 };
        self.head.clear();
    }

    /// Takes a piece; with it the bundle under way may have so many octets.
    pub(crate) fn feed(&mut self, piece: &[u8], longest: usize) -> Result<Judged6, Fail6>
        requires taken { (stream : Stream) × HasTaken longest stream self.old }
        requires counted { self.old.before + self.old.came + length piece.now < 2 ^ 64 }
        ensures { (stream : Stream) → HasTaken longest stream self.old
            → JudgesOn longest stream piece.now result self.new }
    {
        let room = longest - self.came;
        let near = &piece[..piece.len().min(room)];
        let cut = near.len() < piece.len();
        if self.came == 0 {
            self.begin(near, cut)
        } else {
            self.go_on(near, cut)
        }
    }

    /// Takes a part of a piece after whole bundles. A bundle that ends in it is judged where it lies.
    fn begin(&mut self, part: &[u8], cut: bool) -> Result<Judged6, Fail6>
        requires came { (stream : Stream) × TookSo stream self.old }
        requires counted { self.old.before + self.old.came + length part.now < 2 ^ 64 }
        requires empty { self.old.came ≡ 0 }
        ensures { (stream : Stream) → TookSo stream self.old
            → JudgesPart stream part.now cut result self.new }
    {
        match look(part, cut) {
            Ok(Some(end)) => {
                self.before += end;
                Ok(Judged6 {
                    used: end,
                    whole: Some(end),
                })
            }
            Ok(None) => self.go_on(part, cut),
            Err(refused) => Err(refused.after(self.before).into()),
        }
    }

    /// Takes a part of a piece.
    fn go_on(&mut self, part: &[u8], cut: bool) -> Result<Judged6, Fail6>
        requires came { (stream : Stream) × TookSo stream self.old }
        requires counted { self.old.before + self.old.came + length part.now < 2 ^ 64 }
        requires begun { self.old.came ≡ 0 → (cut ≡ false) × IsOpen part.now }
        ensures { (stream : Stream) → TookSo stream self.old
            → JudgesPart stream part.now cut result self.new }
    {
        let held = self.came;
        let before = self.before;
        match self.run(part) {
            Ok(Some(end)) => {
                self.close(end);
                Ok(Judged6 {
                    used: end - held,
                    whole: Some(end),
                })
            }
            Ok(None) if cut => Err(Fail6::Refused {
                at: before,
                cause: Cause6::TooLong,
            }),
            Ok(None) => Ok(Judged6 {
                used: part.len(),
                whole: None,
            }),
            Err(Fail6::Refused { at, cause }) => Err(Fail6::Refused {
                at: before + at,
                cause,
            }),
            Err(Fail6::Memory) => Err(Fail6::Memory),
        }
    }

    /// The end of the stream as a refusal, where a bundle has begun.
    pub(crate) fn finish(&self) -> Option<Refused6>
        requires came { (stream : Stream) × TookSo stream self.now }
        requires counted { self.now.before + self.now.came < 2 ^ 64 }
        ensures { (stream : Stream) → TookSo stream self.now → Ends stream result }
    {
        if self.came == 0 {
            return None;
        }
        Some(Refused6 {
            at: self.before + self.cut(),
            cause: Cause6::Truncated,
        })
    }

    /// The place of the field in which the octets end.
    fn cut(&self) -> usize
        requires come { (text : List ℕ) × HasCome text self.now }
        requires counted { self.now.came < 2 ^ 64 }
        ensures { (text : List ℕ) → HasCome text self.now
            → read (bundle 64) text 0 ≡ Err (result, truncated) }
    {
        match self.stage {
            Stage::Primary => match primary_judged(self.main.as_slice(), 0) {
                Ok(_) => 0,
                Err(refused) => refused.at,
            },
            Stage::Field(small) => match self.field(small, self.head.as_slice()) {
                Ok(_) => 0,
                Err(refused) => self.at + refused.at,
            },
            Stage::Body { .. } => self.at,
        }
    }
}

/// Whether octets begin with a bundle, and with it end; where they are cut no more may follow them.
fn look(part: &[u8], cut: bool) -> Result<Option<usize>, Refused6>
    ensures { Looks part.now cut result }
{
    match judge6(part) {
        Ok(end) => Ok(Some(end)),
        Err(refused) => match refused.cause {
            Cause6::Truncated if cut => Err(Refused6 {
                at: 0,
                cause: Cause6::TooLong,
            }),
            Cause6::Truncated => Ok(None),
            _ => Err(refused),
        },
    }
}
