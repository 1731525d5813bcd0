//! A pass over the octets of a bundle. It takes no memory, and goes on where it stood once more octets
//! have come.

ghost use Rattle.std.specs.Prelude.{◌≡◌, ◌≢◌, ◌-◌, ◌≤◌, ◌<◌, ◌||◌, ◌==◌, [], length, IfOk, OnOk};
ghost use Rattle.wire_fields.specs.Reading.{read};
ghost use Rattle.wire_fields.specs.Gives.{Gives, IsOn};
ghost use Rattle.bundle7.specs.Cause.{refused};
ghost use Rattle.bundle7.specs.Judging.{judged_start, judged_front};
ghost use Rattle.bundle7.specs.Passing.{IsFresh, Fits, Stands, Steps, Comes, steps_left};

use crate::block::{Lead, PAYLOAD, body_at, lead_at, size_at};
use crate::check::{Checks, Sum, check_at};
use crate::fault::{Cause7, Refused7};
use crate::fields::mark;
use crate::primary::primary_at;
use crate::reading::{BREAK, OPEN};
use crate::seen::Seen;
use endpoint::Fragment;

/// What a block has before the octets of its body.
#[derive(Clone, Copy)]
pub struct Front {
    /// What stands before the length of the body.
    pub lead: Lead,
    /// How many octets the body has.
    pub size: u64,
}

/// What stands next.
#[derive(Clone, Copy)]
pub(crate) enum Stage {
    /// The mark that opens the bundle, and the primary block.
    Primary,
    /// What a block has before the octets of its body.
    Block,
    /// The body of a block, whose octets are summed as far as they have come.
    Body { front: Front, sum: Sum },
    /// The check of a block.
    Check { lead: Lead, sum: Sum },
    /// The mark that ends the bundle.
    Break,
    /// Nothing: the bundle ended.
    Ended,
}

/// How far a pass has come.
#[derive(Drop)]
pub(crate) struct Pass {
    /// The place of the next field.
    pub(crate) at: usize,
    /// What stands there.
    pub(crate) stage: Stage,
    /// The extension blocks so far.
    pub(crate) seen: Seen,
    /// Where the payload lies in the whole.
    pub(crate) part: Option<Fragment>,
}

impl Pass {
    /// A pass that has yet to begin.
    pub(crate) fn new() -> Pass
        ensures { IsFresh result }
    {
        Pass {
            at: 0,
            stage: Stage::Primary,
            seen: Seen::none(),
            part: None,
        }
    }

    /// Begins anew.
    pub(crate) fn restart(&mut self)
        ensures { IsFresh self.new }
    {
        self.at = 0;
        self.stage = Stage::Primary;
        self.seen.clear();
    }

    /// As far as the octets go: to the end of the bundle, or to the field that isn't there and the
    /// refusal, which may be that the octets end.
    pub(crate) fn run(&mut self, text: &[u8], most: u64) -> Option<Refused7>
        requires fits { Fits most text.now self.old }
        requires few { most ≤ 64 }
        requires stands { Stands most text.now self.old }
        ensures fits { Fits most text.now self.new }
        ensures stands { Stands most text.now self.new }
        ensures comes { Comes most text.now self.new result }
    {
        'stepping: loop {
            if let Stage::Ended = self.stage {
                return None;
            }
            if let Err(refused) = self.step(text, most) {
                return Some(refused);
            }
        }
    }

    /// One field or group more.
    fn step(&mut self, text: &[u8], most: u64) -> Result<(), Refused7>
        requires fits { Fits most text.now self.old }
        requires few { most ≤ 64 }
        ensures fits { Fits most text.now self.new }
        ensures smaller { OnOk result (self.old.stage ≢ Stage.Ended
            → steps_left most self.new < steps_left most self.old) }
        ensures exact { Steps most text.now self.old result self.new }
    {
        match self.stage {
            Stage::Primary => self.primary(text, most),
            Stage::Block => self.front(text, most),
            Stage::Body { front, sum } => self.body(text, most, front, sum),
            Stage::Check { lead, sum } => self.check(text, most, lead, sum),
            Stage::Break => self.end(text, most),
            Stage::Ended => Ok(()),
        }
    }

    /// The mark and the primary block.
    fn primary(&mut self, text: &[u8], most: u64) -> Result<(), Refused7>
        requires fits { Fits most text.now self.old }
        requires stage { self.old.stage ≡ Stage.Primary }
        ensures fits { Fits most text.now self.new }
        ensures smaller { OnOk result (steps_left most self.new < steps_left most self.old) }
        ensures exact { Steps most text.now self.old result self.new }
    {
        let (part, at) = start_judged(text, self.at)?;
        self.at = at;
        self.stage = Stage::Block;
        self.seen.clear();
        self.part = part;
        Ok(())
    }

    /// What a block has before the octets of its body.
    fn front(&mut self, text: &[u8], most: u64) -> Result<(), Refused7>
        requires fits { Fits most text.now self.old }
        requires few { most ≤ 64 }
        requires stage { self.old.stage ≡ Stage.Block }
        ensures fits { Fits most text.now self.new }
        ensures smaller { OnOk result (steps_left most self.new < steps_left most self.old) }
        ensures exact { Steps most text.now self.old result self.new }
    {
        let left = most - self.seen.count();
        let (front, at) = front_judged(text, self.at, self.part, left, &self.seen)?;
        let sum = Sum::new(front.lead.crc, self.at).up_to(text, at);
        self.at = at;
        self.stage = Stage::Body { front, sum };
        Ok(())
    }

    /// The body of a block.
    fn body(&mut self, text: &[u8], most: u64, front: Front, sum: Sum) -> Result<(), Refused7>
        requires fits { Fits most text.now self.old }
        requires stage { self.old.stage ≡ Stage.Body front sum }
        ensures fits { Fits most text.now self.new }
        ensures smaller { OnOk result (steps_left most self.new < steps_left most self.old) }
        ensures exact { Steps most text.now self.old result self.new }
    {
        let lead = front.lead;
        let (_, at) = body_at(text, self.at, lead.kind, front.size)?;
        let sum = sum.up_to(text, at);
        self.at = at;
        self.stage = Stage::Check { lead, sum };
        Ok(())
    }

    /// The check of a block.
    fn check(&mut self, text: &[u8], most: u64, lead: Lead, sum: Sum) -> Result<(), Refused7>
        requires fits { Fits most text.now self.old }
        requires few { most ≤ 64 }
        requires stage { self.old.stage ≡ Stage.Check lead sum }
        ensures fits { Fits most text.now self.new }
        ensures smaller { OnOk result (steps_left most self.new < steps_left most self.old) }
        ensures exact { Steps most text.now self.old result self.new }
    {
        let (_, at) = check_at(text, sum)?;
        self.at = at;
        if is_last(lead.kind, self.seen.count(), most) {
            self.stage = Stage::Break;
        } else {
            self.stage = Stage::Block;
            self.seen.push(lead.kind, lead.number);
        }
        Ok(())
    }

    /// The mark that ends the bundle.
    fn end(&mut self, text: &[u8], most: u64) -> Result<(), Refused7>
        requires fits { Fits most text.now self.old }
        requires stage { self.old.stage ≡ Stage.Break }
        ensures fits { Fits most text.now self.new }
        ensures smaller { OnOk result (steps_left most self.new < steps_left most self.old) }
        ensures exact { Steps most text.now self.old result self.new }
    {
        let (_, at) = mark(text, self.at, BREAK, Cause7::Break)?;
        self.at = at;
        self.stage = Stage::Ended;
        Ok(())
    }

    /// Sums what has come of a body that isn't there as a whole.
    pub(crate) fn sum(&mut self, text: &[u8], most: u64)
        requires fits { Fits most text.now self.old }
        requires stands { Stands most text.now self.old }
        ensures fits { Fits most text.now self.new }
        ensures stands { Stands most text.now self.new }
    {
        if let Stage::Body { front, sum } = self.stage {
            if (text.len() - self.at) as u64 <= front.size {
                let sum = sum.up_to(text, text.len());
                self.stage = Stage::Body { front, sum };
            }
        }
    }
}

/// Whether no block follows one of this type: it is the payload, or as many extension blocks as may
/// stand are before it.
fn is_last(kind: u64, count: u64, most: u64) -> bool
    ensures { result ≡ (kind == 1 || count == most) }
{
    kind == PAYLOAD || count == most
}

/// The mark and the primary block: where the payload lies in the whole.
#[tactic(auto, unfolding(crate::specs::Judging::judged_start))]
pub fn start_judged(text: &[u8], at: usize) -> Result<(Option<Fragment>, usize), Refused7>
    requires { at ≤ length text.now }
    ensures within { IfOk result (λ x. IsOn at text.now x.1) }
    ensures exact { Gives (λ part. part) refused result (read judged_start text.now at) }
{
    let (_, at) = mark(text, at, OPEN, Cause7::Start)?;
    let (primary, at) = primary_at(text, at, Checks::Untested)?;
    Ok((primary.fragment, at))
}

/// What a block has before the octets of its body.
#[tactic(auto, unfolding(crate::specs::Judging::judged_front))]
pub fn front_judged(
    text: &[u8],
    at: usize,
    part: Option<Fragment>,
    left: u64,
    earlier: &Seen,
) -> Result<(Front, usize), Refused7>
    requires { at ≤ length text.now }
    ensures within { IfOk result (λ x. IsOn at text.now x.1) }
    ensures exact { Gives (λ front. front) refused result
        (read (judged_front part left earlier.now) text.now at) }
{
    let (lead, at) = lead_at(text, at, left, earlier)?;
    let (size, at) = size_at(text, at, part, lead.kind)?;
    Ok((Front { lead, size }, at))
}
