//! Where a judge of version 7 stands in the bundle that is under way.

ghost use Rattle.std.specs.Prelude.{ℕ, ◌≡◌, ◌+◌, ◌-◌, ◌<◌, ◌≤◌, ◌^◌, ◌==◌, ◌||◌, List, [], length, Some, None, IfOk, Ok};
ghost use Rattle.wire_fields.specs.Reading.{read};
ghost use Rattle.wire_fields.specs.Words.{exact_octet};
ghost use Rattle.wire_fields.specs.Gives.{Gives};
ghost use Rattle.bundle7.specs.declared.fault.Cause7.TheVariants.{Break};
ghost use Rattle.bundle7.specs.Cause.{refused};
ghost use Rattle.bundle_judges.specs.Field7.{small_field, most_octets, is_kept, body_stage};
ghost use Rattle.bundle_judges.specs.Stand7.{entered, IsThere, waiting, waited, Fitting, Passes, Checks, Starts, Steps, StepsOn, RunsOn};

use crate::few::{Few, MOST};
use crate::here7::{block_here, item_of};
use crate::sum7::{Sum, absent, missed};
use bundle7::{
    Cause7, Fail7, Front, Lead, MOST_EXTENSIONS, Refused7, Seen, front_judged, is_single,
    start_judged,
};
use endpoint::Fragment;
use std::alloc::AllocError;
use wire_fields::octet_at;

/// How many octets of a primary block are kept at once, before they are looked at.
const CHUNK: usize = 4_096;

/// A field of few octets.
#[derive(Clone, Copy)]
pub(crate) enum Small {
    /// What a block has before the octets of its body.
    Block,
    /// A body that is one item, and is looked at as a whole.
    Item { front: Front, sum: Sum },
    /// The head of a check.
    Check { lead: Lead, sum: Sum },
    /// The octets of a check.
    Octets { lead: Lead, sum: Sum },
    /// The mark that ends the bundle.
    End,
}

/// What stands next.
#[derive(Clone, Copy)]
pub(crate) enum Stage {
    /// The mark that opens the bundle, and the primary block.
    Primary,
    /// A field of few octets.
    Field(Small),
    /// A body, whose octets are summed as they come.
    Body { front: Front, sum: Sum },
}

/// What a step gave.
#[derive(Clone, Copy)]
pub(crate) enum Step {
    /// So many octets were taken.
    After(usize),
    /// All octets that are there were taken, and more are awaited.
    Waits,
    /// The bundle ended at this place of it.
    Ended(usize),
}

/// Where a judge stands.
#[derive(Drop)]
pub(crate) struct Stand {
    /// How many octets the bundles before this one took.
    pub(crate) before: usize,
    /// How many octets of it came.
    pub(crate) came: usize,
    /// The place of the field that is under way.
    pub(crate) at: usize,
    /// What that is.
    pub(crate) stage: Stage,
    /// The extension blocks so far.
    pub(crate) seen: Seen,
    /// Where the payload lies in the whole.
    pub(crate) part: Option<Fragment>,
    /// The octets of the primary block that came, as long as it doesn't end.
    pub(crate) main: Vec<u8>,
    /// The octets of a field of few that came.
    pub(crate) head: Few,
}

impl Stand {
    /// One step into octets that are there.
    fn step(&mut self, rest: &[u8]) -> Result<Step, Fail7>
        requires there { IsThere self.old rest.now }
        requires counted { self.old.came + length rest.now < 2 ^ 64 }
        ensures { StepsOn self.old rest.now result self.new }
    {
        match self.stage {
            Stage::Primary => {
                if self.came == 0 {
                    self.start(rest)
                } else {
                    self.start_on(rest)
                }
            }
            Stage::Field(Small::Block) => self.block(rest),
            Stage::Field(Small::End) => self.end(rest),
            Stage::Field(small) => self.short(rest, &small),
            Stage::Body { front, sum } => self.body(rest, front, sum),
        }
    }

    /// The mark and the primary block where they lie. What doesn't end is kept.
    fn start(&mut self, rest: &[u8]) -> Result<Step, Fail7>
        requires there { IsThere self.old rest.now }
        requires counted { self.old.came + length rest.now < 2 ^ 64 }
        requires stage { self.old.stage ≡ Stage.Primary }
        requires fresh { self.old.came ≡ 0 }
        ensures { StepsOn self.old rest.now result self.new }
    {
        match start_judged(rest, 0) {
            Ok((part, end)) => Ok(self.started_here(part, rest, end)),
            Err(refused) => match refused.cause {
                Cause7::Truncated => {
                    self.main.extend_from_slice(rest)?;
                    self.came += rest.len();
                    Ok(Step::Waits)
                }
                _ => Err(refused.into()),
            },
        }
    }

    /// The same with octets that came before, of which some more are kept.
    fn start_on(&mut self, rest: &[u8]) -> Result<Step, Fail7>
        requires there { IsThere self.old rest.now }
        requires counted { self.old.came + length rest.now < 2 ^ 64 }
        requires stage { self.old.stage ≡ Stage.Primary }
        requires begun { 0 < self.old.came }
        ensures { StepsOn self.old rest.now result self.new }
    {
        let chunk = &rest[..rest.len().min(CHUNK)];
        self.main.extend_from_slice(chunk)?;
        match start_judged(self.main.as_slice(), 0) {
            Ok((part, end)) => {
                self.main.clear();
                Ok(self.started(part, end - self.came))
            }
            Err(refused) => match refused.cause {
                Cause7::Truncated => Ok(self.wait(rest, chunk.len())),
                _ => Err(refused.into()),
            },
        }
    }

    /// So many octets of those that are there were kept, and don't end the primary block.
    fn wait(&mut self, rest: &[u8], more: usize) -> Step
        requires { self.old.came + more < 2 ^ 64 }
        ensures stand { self.new ≡ waiting self.old (self.old.came + more) }
        ensures step { result ≡ waited more (length rest.now) }
    {
        self.came += more;
        if more < rest.len() {
            Step::After(more)
        } else {
            Step::Waits
        }
    }

    /// The primary block ended after so many octets more.
    fn started(&mut self, part: Option<Fragment>, more: usize) -> Step
        requires { self.old.came + more < 2 ^ 64 }
        ensures { (text : List ℕ) → Starts text self.old part more
            → Steps text self.old (Ok result) self.new }
    {
        self.part = part;
        self.seen.clear();
        self.go(Stage::Field(Small::Block), more)
    }

    /// A block: one that is there as a whole is judged where it lies, and its octets are summed at once.
    #[inline(never)]
    fn block(&mut self, rest: &[u8]) -> Result<Step, Fail7>
        requires there { IsThere self.old rest.now }
        requires counted { self.old.came + length rest.now < 2 ^ 64 }
        requires stage { self.old.stage ≡ Stage.Field Small.Block }
        ensures { StepsOn self.old rest.now result self.new }
    {
        if self.head.is_empty() {
            if let Some((lead, end)) = block_here(rest, self.part, &self.seen) {
                return Ok(self.checked(lead, end));
            }
        }
        self.short(rest, &Small::Block)
    }

    /// The mark that ends the bundle.
    fn end(&mut self, rest: &[u8]) -> Result<Step, Fail7>
        requires there { IsThere self.old rest.now }
        requires counted { self.old.came + length rest.now < 2 ^ 64 }
        requires stage { self.old.stage ≡ Stage.Field Small.End }
        ensures { StepsOn self.old rest.now result self.new }
    {
        if self.head.is_empty() {
            if let Ok((_, end)) = end_of(rest) {
                return Ok(Step::Ended(self.came + end));
            }
        }
        self.short(rest, &Small::End)
    }

    /// A field of few octets, with those that came of it before.
    fn short(&mut self, rest: &[u8], small: &Small) -> Result<Step, Fail7>
        requires there { IsThere self.old rest.now }
        requires counted { self.old.came + length rest.now < 2 ^ 64 }
        requires stage { self.old.stage ≡ Stage.Field small.now }
        ensures { StepsOn self.old rest.now result self.new }
    {
        let held = self.head.len();
        let room = most_octets(small) - held;
        let taken = &rest[..rest.len().min(room)];
        self.head.fill(taken);
        match self.field(small) {
            Ok((Some(front), end)) => Ok(self.fronted(front, end, end - held)),
            Ok((None, end)) => Ok(self.passed(small, end, end - held)),
            Err(refused) => match refused.cause {
                Cause7::Truncated => {
                    self.came += taken.len();
                    Ok(Step::Waits)
                }
                _ => Err(refused.after(self.at).into()),
            },
        }
    }

    /// The field of few octets of which these came.
    #[tactic(auto, unfolding(crate::specs::Field7::small_field))]
    pub(crate) fn field(&self, small: &Small) -> Result<(Option<Front>, usize), Refused7>
        requires { length self.now.seen.kinds ≤ 64 }
        ensures within { IfOk result (λ x. x.1 ≤ length self.now.head) }
        ensures exact { Gives (λ front. front) refused result
            (read (small_field self.now.part self.now.seen small.now) self.now.head 0) }
        ensures fitting { IfOk result (λ x. Fitting small.now x.0) }
    {
        let text = self.head.as_slice();
        match *small {
            Small::Block => {
                let left = MOST_EXTENSIONS - self.seen.count();
                let (front, end) = front_judged(text, 0, self.part, left, &self.seen)?;
                Ok((Some(front), end))
            }
            Small::Item { front, .. } => {
                let (_, end) = item_of(text, front)?;
                Ok((None, end))
            }
            Small::Check { sum, .. } => {
                let (_, end) = sum.head(text)?;
                Ok((None, end))
            }
            Small::Octets { sum, .. } => {
                let (_, end) = sum.octets(text)?;
                Ok((None, end))
            }
            Small::End => {
                let (_, end) = end_of(text)?;
                Ok((None, end))
            }
        }
    }

    /// What a block has before its body ended: so many octets, of which so many more came.
    fn fronted(&mut self, front: Front, end: usize, more: usize) -> Step
        requires counted { self.old.came + more < 2 ^ 64 }
        requires there { end ≤ length self.old.head }
        ensures { (text : List ℕ) (small : Small)
            → Passes text self.old small (Some front) end more
            → Steps text self.old (Ok result) self.new }
    {
        let octets = &self.head.as_slice()[..end];
        let sum = Sum::new(front.lead.crc).with(octets);
        self.go(body_stage(front, sum), more)
    }

    /// Another field of few octets ended, which has so many octets, of which so many more came.
    fn passed(&mut self, small: &Small, end: usize, more: usize) -> Step
        requires counted { self.old.came + more < 2 ^ 64 }
        requires passes { (text : List ℕ) × Passes text self.old small.now None end more }
        ensures { (text : List ℕ) → Passes text self.old small.now None end more
            → Steps text self.old (Ok result) self.new }
    {
        let octets = &self.head.as_slice()[..end];
        match *small {
            Small::Block => Step::Waits,
            Small::Item { front, sum } => {
                let lead = front.lead;
                let sum = sum.with(octets);
                self.go(Stage::Field(Small::Check { lead, sum }), more)
            }
            Small::Check { lead, sum } => {
                let sum = sum.with(octets);
                self.go(Stage::Field(Small::Octets { lead, sum }), more)
            }
            Small::Octets { lead, .. } => self.checked(lead, more),
            Small::End => Step::Ended(self.came + more),
        }
    }

    /// A block ended after so many octets more.
    fn checked(&mut self, lead: Lead, more: usize) -> Step
        requires counted { self.old.came + more < 2 ^ 64 }
        requires checks { (text : List ℕ) × Checks text self.old lead more }
        ensures { (text : List ℕ) → Checks text self.old lead more
            → Steps text self.old (Ok result) self.new }
    {
        if is_last(lead.kind, self.seen.count()) {
            return self.go(Stage::Field(Small::End), more);
        }
        self.seen.push(lead.kind, lead.number);
        self.go(Stage::Field(Small::Block), more)
    }

    /// The octets of a body, as far as they are there.
    fn body(&mut self, rest: &[u8], front: Front, sum: Sum) -> Result<Step, Fail7>
        requires there { IsThere self.old rest.now }
        requires counted { self.old.came + length rest.now < 2 ^ 64 }
        requires stage { self.old.stage ≡ Stage.Body front sum }
        ensures { StepsOn self.old rest.now result self.new }
    {
        let left = front.size - (self.came - self.at) as u64;
        if (rest.len() as u64) < left {
            self.came += rest.len();
            let sum = sum.with(rest);
            self.stage = Stage::Body { front, sum };
            return Ok(Step::Waits);
        }
        if is_single(front.lead.kind) {
            return Err(Fail7::Refused {
                at: self.at,
                cause: Cause7::ExtensionBody,
            });
        }
        let more = left as usize;
        let lead = front.lead;
        let sum = sum.with(&rest[..more]);
        Ok(self.go(Stage::Field(Small::Check { lead, sum }), more))
    }

    /// After so many octets more this stands next.
    pub(crate) fn go(&mut self, stage: Stage, more: usize) -> Step
        requires { self.old.came + more < 2 ^ 64 }
        ensures stand { self.new ≡ entered self.old stage (self.old.came + more) }
        ensures step { result ≡ Step.After more }
    {
        self.came += more;
        self.at = self.came;
        self.stage = stage;
        self.head.clear();
        Step::After(more)
    }

    /// All octets that are there, or as many as end the bundle: at which place of it.
    pub(crate) fn run(&mut self, near: &[u8]) -> Result<Option<usize>, Fail7>
        requires there { IsThere self.old near.now }
        requires counted { self.old.came + length near.now < 2 ^ 64 }
        ensures { RunsOn self.old near.now result self.new }
    {
        let mut rest = near;
        'steps: loop {
            match self.step(rest)? {
                Step::After(more) => rest = &rest[more..],
                Step::Waits => return Ok(None),
                Step::Ended(end) => return Ok(Some(end)),
            }
        }
    }
}

/// How many octets a field of few has at most.
fn most_octets(small: &Small) -> usize
    requires { most_octets small.now ≤ 1050 }
    ensures { result ≡ most_octets small.now }
{
    match *small {
        Small::Block => 54,
        Small::Item { front, .. } => front.size as usize,
        Small::Check { .. } => 9,
        Small::Octets { .. } => 4,
        Small::End => 1,
    }
}

/// The body that stands next.
fn body_stage(front: Front, sum: Sum) -> Stage
    ensures { result ≡ body_stage front sum }
{
    if is_kept(front) {
        Stage::Field(Small::Item { front, sum })
    } else {
        Stage::Body { front, sum }
    }
}

/// Whether a body is kept until it is there: it is to be one item, and not longer than one can be.
fn is_kept(front: Front) -> bool
    ensures { result ≡ is_kept front }
{
    is_single(front.lead.kind) && front.size <= MOST as u64
}

/// Whether no block follows one of this type after so many extension blocks.
pub(crate) fn is_last(kind: u64, count: u64) -> bool
    ensures { result ≡ (kind == 1 || count == 64) }
{
    kind == 1 || count == MOST_EXTENSIONS
}

/// The mark that ends a bundle.
pub(crate) fn end_of(text: &[u8]) -> Result<(u8, usize), Refused7>
    ensures within { IfOk result (λ x. x.1 ≤ length text.now) }
    ensures exact { Gives (λ b. b) refused result (read (exact_octet 0xFF Break) text.now 0) }
{
    match octet_at(text, 0) {
        Ok((found, end)) if found == 0xFF => Ok((found, end)),
        Ok(_) => Err(absent(Cause7::Break)),
        Err(miss) => Err(missed(miss, Cause7::Break)),
    }
}
