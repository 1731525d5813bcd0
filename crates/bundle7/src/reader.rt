//! Reading a stream of bundles, in whatever pieces it comes.

ghost use Rattle.std.specs.Prelude.{ℕ, ◌≡◌, ◌+◌, ◌<◌, ◌≤◌, ◌^◌, ◌++◌, List, [], length, Some, None, true, false, IfOk, IfSome, OnErr, Err};
ghost use Rattle.wire_fields.specs.Reading.{read};
ghost use Rattle.bundle7.specs.Passing.{Fits, Stands, IsFresh};
ghost use Rattle.bundle7.specs.Streaming.{near, Feeds, JudgesPiece, Finishes, Remembers, RemembersFail, AnswersAgain};
ghost use Rattle.bundle7.specs.Holding.{IsHeld, stream_of, text_of, Gains, PassesOver, Ends};

use crate::bundle::Bundle7;
use crate::check::Checks;
use crate::fault::{Cause7, Fail7, Refused7};
use crate::pass::Pass;
use crate::reading::bundle_at;
use crate::seen::MOST_EXTENSIONS;
use std::alloc::{AllocError, Global};
use std::marker::Model;

/// The most octets of a bundle of a stream. Own rule.
pub const LONGEST: usize = 67_108_864;

/// The most octets for which a reader that is restarted keeps room.
const MOST_ROOM: usize = 1 << 20;

/// What a piece gave.
#[derive(Debug, Drop)]
pub struct Fed7 {
    /// How many octets of the piece were taken. The rest is to be fed again.
    pub used: usize,
    /// The bundle that they completed, or none where they are all of the piece and complete none.
    pub bundle: Option<Bundle7>,
}

/// What a piece gave where no bundle is wanted.
#[derive(Clone, Copy, Debug, PartialEq, Eq)]
pub struct Judged7 {
    /// How many octets of the piece were taken. The rest is to be fed again.
    pub used: usize,
    /// How many octets the bundle has that they completed, those of earlier pieces too, or none where
    /// they are all of the piece and complete none.
    pub whole: Option<usize>,
}

/// The octets of the unfinished bundle, and how far they are judged.
#[derive(Drop)]
pub(crate) struct Held {
    /// How many octets the bundles before it took.
    pub(crate) before: usize,
    pub(crate) kept: Vec<u8>,
    pub(crate) pass: Pass,
}

/// A reader of a stream of bundles, which keeps the octets of at most one unfinished bundle.
///
/// How the stream is cut into pieces makes no difference, and judging a piece costs what its octets
/// cost: no body is looked at before it is whole, none is looked at twice, and a block after the primary
/// block is summed for its check once, as its octets come. The primary block is read from its start with
/// each piece until it is whole, and summed again where the end of a piece cuts its check.
/// [`Reader7::feed`] besides builds a bundle when it is whole, and sums none of its blocks again. Places
/// count from the first octet that was taken, or that was taken after [`Reader7::restart`].
#[derive(Drop)]
pub struct Reader7 {
    held: Held,
    refused: Option<Refused7>,
    spent: bool,
    alloc: Global,
}

impl Model for Reader7 {
    ghost use Rattle.std.specs.Prelude.{◌≤◌, length};
    ghost use Rattle.bundle7.specs.Streaming.{Reading};
    ghost use Rattle.bundle7.specs.Holding.{IsHeld, stream_of};

    ghost Value = { Reading };

    ghost view = { λ r.
        record { stream = stream_of r.held; refused = r.refused; spent = r.spent } };

    ghost invariant = { λ r. IsHeld r.held × (length r.held.kept.items ≤ 67108864) };
}

impl Reader7 {
    /// A reader that has taken nothing. It takes no memory.
    pub fn new(alloc: Global) -> Reader7
        ensures stream { result.stream ≡ record { before = 0; kept = [] } }
        ensures fresh { result.refused ≡ None }
        ensures whole { result.spent ≡ false }
    {
        Reader7 {
            held: Held::new(alloc),
            refused: None,
            spent: false,
            alloc,
        }
    }

    /// Lets go of the stream that was taken so far, and keeps its room for another, but of more than a
    /// mebibyte: places count anew, and an earlier refusal or want of memory is forgotten. It takes no
    /// memory.
    pub fn restart(&mut self)
        ensures stream { self.new.stream ≡ record { before = 0; kept = [] } }
        ensures fresh { self.new.refused ≡ None }
        ensures whole { self.new.spent ≡ false }
    {
        self.held.restart(self.alloc);
        self.refused = None;
        self.spent = false;
    }

    /// Takes a piece of the stream, up to the end of the first bundle that it completes, or all of it.
    ///
    /// A refusal comes with the octets that settle it, and each later call answers it again. After want
    /// of memory the reader may only be dropped or restarted.
    pub fn feed(&mut self, piece: &[u8]) -> Result<Fed7, Fail7>
        requires whole { self.old.spent ≡ false }
        requires counted { self.old.stream.before + length self.old.stream.kept + length piece.now
            < 2 ^ 64 }
        ensures feeds { self.old.refused ≡ None
            → Feeds 67108864 self.old.stream piece.now result self.new.stream }
        ensures again { IfSome self.old.refused (λ refused.
            AnswersAgain refused self.old result self.new) }
        ensures kept { OnErr result (self.new.stream ≡ self.old.stream) }
        ensures remembers { Remembers result self.new }
        ensures bounded { length self.new.stream.kept ≤ 67108864 }
    {
        if let Some(refused) = self.refused {
            return Err(refused.into());
        }
        let result = self.held.feed(self.alloc, piece, LONGEST);
        match &result {
            Ok(_) => {}
            Err(fail) => self.remember(*fail),
        }
        result
    }

    /// Takes a piece as [`Reader7::feed`] does, for a caller who wants no bundle: it tells how many
    /// octets a bundle has that is whole. Both calls read one stream, each from where the other left it.
    ///
    /// No bundle is built, so memory is wanted for octets that are kept alone: none where a piece begins
    /// with a bundle and ends it, or refuses it.
    pub fn judge(&mut self, piece: &[u8]) -> Result<Judged7, Fail7>
        requires whole { self.old.spent ≡ false }
        requires counted { self.old.stream.before + length self.old.stream.kept + length piece.now
            < 2 ^ 64 }
        ensures feeds { self.old.refused ≡ None
            → JudgesPiece 67108864 self.old.stream piece.now result self.new.stream }
        ensures again { IfSome self.old.refused (λ refused.
            AnswersAgain refused self.old result self.new) }
        ensures kept { OnErr result (self.new.stream ≡ self.old.stream) }
        ensures remembers { Remembers result self.new }
        ensures bounded { length self.new.stream.kept ≤ 67108864 }
    {
        if let Some(refused) = self.refused {
            return Err(refused.into());
        }
        let result = self.held.judge(piece, LONGEST);
        match &result {
            Ok(_) => {}
            Err(fail) => self.remember(*fail),
        }
        result
    }

    /// Ends the stream. It is refused if and only if a bundle has begun and isn't complete.
    pub fn finish(&mut self) -> Result<(), Fail7>
        requires { self.old.spent ≡ false }
        ensures finishes { self.old.refused ≡ None → Finishes self.old.stream result }
        ensures again { IfSome self.old.refused (λ refused.
            AnswersAgain refused self.old result self.new) }
        ensures kept { self.new.stream ≡ self.old.stream }
        ensures remembers { Remembers result self.new }
    {
        if let Some(refused) = self.refused {
            return Err(refused.into());
        }
        match self.held.finish() {
            None => Ok(()),
            Some(refused) => {
                self.refused = Some(refused);
                Err(refused.into())
            }
        }
    }

    /// Keeps a failure, so that each later call knows of it.
    fn remember(&mut self, fail: Fail7)
        requires fresh { self.old.refused ≡ None }
        requires whole { self.old.spent ≡ false }
        ensures stream { self.new.stream ≡ self.old.stream }
        ensures remembers { RemembersFail fail self.new }
    {
        match fail {
            Fail7::Refused { at, cause } => self.refused = Some(cause.at(at)),
            Fail7::Memory => self.spent = true,
        }
    }
}

impl Held {
    /// Nothing is kept.
    fn new(alloc: Global) -> Held
        ensures held { IsHeld result }
        ensures empty { stream_of result ≡ record { before = 0; kept = [] } }
    {
        Held {
            before: 0,
            kept: Vec::new(alloc),
            pass: Pass::new(),
        }
    }

    /// Takes a piece; with it the unfinished bundle may have so many octets. A bundle is judged as its
    /// octets come, and built once it is whole.
    fn feed(&mut self, alloc: Global, piece: &[u8], longest: usize) -> Result<Fed7, Fail7>
        requires held { IsHeld self.old }
        requires small { length self.old.kept.items ≤ longest }
        requires counted { self.old.before + length self.old.kept.items + length piece.now
            < 2 ^ 64 }
        ensures held { IsHeld self.new }
        ensures small { length self.new.kept.items ≤ longest }
        ensures feeds { Feeds longest (stream_of self.old) piece.now result (stream_of self.new) }
        ensures kept { OnErr result (stream_of self.new ≡ stream_of self.old) }
    {
        let held = self.kept.as_slice().len();
        let near = self.near(piece, longest);
        let Some(end) = self.pass_over(near, near.len() < piece.len())? else {
            return Ok(Fed7 {
                used: near.len(),
                bundle: None,
            });
        };
        match bundle_at(alloc, self.text(near), 0, MOST_EXTENSIONS, Checks::Right) {
            Ok((bundle, _)) => {
                self.close(end);
                Ok(Fed7 {
                    used: end - held,
                    bundle: Some(bundle),
                })
            }
            Err(fail) => {
                self.kept.truncate(held);
                Err(fail)
            }
        }
    }

    /// The same of a piece of which no bundle is wanted.
    fn judge(&mut self, piece: &[u8], longest: usize) -> Result<Judged7, Fail7>
        requires held { IsHeld self.old }
        requires small { length self.old.kept.items ≤ longest }
        requires counted { self.old.before + length self.old.kept.items + length piece.now
            < 2 ^ 64 }
        ensures held { IsHeld self.new }
        ensures small { length self.new.kept.items ≤ longest }
        ensures feeds { JudgesPiece longest (stream_of self.old) piece.now result
            (stream_of self.new) }
        ensures kept { OnErr result (stream_of self.new ≡ stream_of self.old) }
    {
        let held = self.kept.as_slice().len();
        let near = self.near(piece, longest);
        let Some(end) = self.pass_over(near, near.len() < piece.len())? else {
            return Ok(Judged7 {
                used: near.len(),
                whole: None,
            });
        };
        self.close(end);
        Ok(Judged7 {
            used: end - held,
            whole: Some(end),
        })
    }

    /// The octets of a piece with which the unfinished bundle has no more than so many.
    fn near<'a>(&self, piece: &'a [u8], longest: usize) -> &'a [u8]
        requires { length self.now.kept.items ≤ longest }
        ensures { result.now ≡ near longest (stream_of self.now) piece.now }
    {
        let room = longest - self.kept.as_slice().len();
        &piece[..piece.len().min(room)]
    }

    /// Passes over a piece, after which no more may follow where it is cut: the end of the bundle, whose
    /// octets stay until it is closed, or none where it is open.
    fn pass_over(&mut self, piece: &[u8], cut: bool) -> Result<Option<usize>, Fail7>
        requires held { IsHeld self.old }
        requires counted { self.old.before + length self.old.kept.items + length piece.now
            < 2 ^ 64 }
        ensures { PassesOver self.old piece.now cut result self.new }
    {
        if self.kept.is_empty() {
            self.begin(piece, cut)
        } else {
            self.go_on(piece, cut)
        }
    }

    /// Passes over a piece after whole bundles. It is kept only where it leaves a bundle open.
    fn begin(&mut self, piece: &[u8], cut: bool) -> Result<Option<usize>, Fail7>
        requires held { IsHeld self.old }
        requires counted { self.old.before + length self.old.kept.items + length piece.now
            < 2 ^ 64 }
        requires empty { self.old.kept.items ≡ [] }
        ensures { PassesOver self.old piece.now cut result self.new }
    {
        match look(&mut self.pass, piece, cut) {
            Ok(Some(end)) => Ok(Some(end)),
            Ok(None) => {
                if let Err(fail) = self.kept.extend_from_slice(piece) {
                    self.pass.restart();
                    return Err(fail.into());
                }
                Ok(None)
            }
            Err(refused) => Err(refused.after(self.before).into()),
        }
    }

    /// Passes over a piece after the beginning of a bundle.
    fn go_on(&mut self, piece: &[u8], cut: bool) -> Result<Option<usize>, Fail7>
        requires held { IsHeld self.old }
        requires counted { self.old.before + length self.old.kept.items + length piece.now
            < 2 ^ 64 }
        requires some { self.old.kept.items ≡ [] → ⊥ }
        ensures { PassesOver self.old piece.now cut result self.new }
    {
        let held = self.kept.as_slice().len();
        self.kept.extend_from_slice(piece)?;
        match look(&mut self.pass, self.kept.as_slice(), cut) {
            Ok(end) => Ok(end),
            Err(refused) => {
                self.kept.truncate(held);
                Err(refused.after(self.before).into())
            }
        }
    }

    /// The octets kept, or where none are those of a piece.
    fn text<'a>(&'a self, piece: &'a [u8]) -> &'a [u8]
        ensures { result.now ≡ text_of self.now.kept.items piece.now }
    {
        if self.kept.is_empty() {
            piece
        } else {
            self.kept.as_slice()
        }
    }

    /// Lets go of a whole bundle of so many octets.
    fn close(&mut self, end: usize)
        requires { self.old.before + end < 2 ^ 64 }
        ensures held { IsHeld self.new }
        ensures closed { stream_of self.new
            ≡ record { before = self.old.before + end; kept = [] } }
    {
        self.before += end;
        self.kept.clear();
        self.pass.restart();
    }

    /// Lets go of the stream.
    fn restart(&mut self, alloc: Global)
        ensures held { IsHeld self.new }
        ensures empty { stream_of self.new ≡ record { before = 0; kept = [] } }
    {
        self.before = 0;
        empty(&mut self.kept, alloc);
        self.pass.restart();
    }

    /// The refusal of the end of the stream, where a bundle has begun.
    fn finish(&mut self) -> Option<Refused7>
        requires { IsHeld self.old }
        ensures ends { Ends (stream_of self.old) result }
        ensures held { IsHeld self.new }
        ensures kept { stream_of self.new ≡ stream_of self.old }
    {
        if self.kept.is_empty() {
            return None;
        }
        match self.pass.run(self.kept.as_slice(), MOST_EXTENSIONS) {
            None => None,
            Some(refused) => Some(refused.after(self.before)),
        }
    }
}

/// Takes out all octets, and gives back room for more than [`MOST_ROOM`].
fn empty(kept: &mut Vec<u8>, alloc: Global)
    ensures { kept.new.items ≡ [] }
{
    kept.clear();
    if kept.capacity() > MOST_ROOM {
        *kept = Vec::new(alloc);
    }
}

/// What some octets give, over which a pass has come so far: the end of a bundle, or none where it is
/// open. Where they are cut no more may follow them.
fn look(pass: &mut Pass, text: &[u8], cut: bool) -> Result<Option<usize>, Refused7>
    requires fits { Fits 64 text.now pass.old }
    requires stands { Stands 64 text.now pass.old }
    ensures { Gains text.now cut result pass.new }
{
    match pass.run(text, MOST_EXTENSIONS) {
        None => {
            let end = pass.at;
            pass.restart();
            Ok(Some(end))
        }
        Some(refused) => match refused.cause {
            Cause7::Truncated if cut => {
                pass.restart();
                Err(Cause7::TooLong.at(0))
            }
            Cause7::Truncated => {
                pass.sum(text, MOST_EXTENSIONS);
                Ok(None)
            }
            _ => {
                pass.restart();
                Err(refused)
            }
        },
    }
}
