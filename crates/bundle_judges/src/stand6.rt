//! Where a judge of version 6 stands in the bundle that is under way.

ghost use Rattle.std.specs.Prelude.{ℕ, ◌≡◌, ◌≢◌, ◌+◌, ◌-◌, ◌<◌, ◌≤◌, ◌^◌, ◌++◌, List, ◌∷◌, length, drop, IfOk, Ok, Err};
ghost use Rattle.wire_fields.specs.Reading.{read};
ghost use Rattle.wire_fields.specs.Gives.{Gives};
ghost use Rattle.bundle6.specs.Cause.{refused_at};
ghost use Rattle.bundle_judges.specs.Field6.{small_field, Counts};
ghost use Rattle.bundle_judges.specs.Stand6.{dictionary_of, entered, IsLater, IsThere, Enters, Leaves, Fills, Steps, StepsOn, RunsOn};

use crate::few::Few;
use bundle6::{
    Cause6, Fail6, MOST_OTHERS, Refused6, Seen, Texts, head_judged, name_judged, primary_judged,
    size_at,
};
use endpoint::Fragment;
use std::alloc::AllocError;

/// How many octets of a primary block are kept at once, before they are looked at.
const CHUNK: usize = 4_096;

/// A field of few octets.
#[derive(Clone, Copy)]
pub(crate) enum Small {
    /// The head of a block.
    Block,
    /// One of so many references of a block, or where none is left the length of its octets.
    References {
        left: u64,
        payload: bool,
        last: bool,
    },
}

/// What stands next.
#[derive(Clone, Copy)]
pub(crate) enum Stage {
    /// The primary block.
    Primary,
    /// A field of few octets.
    Field(Small),
    /// So many octets of a block.
    Body { size: u64, last: bool },
}

/// What a step gave.
#[derive(Clone, Copy)]
pub(crate) enum Step {
    /// So many octets were taken.
    After(usize),
    /// The bundle ended at this place of it.
    Ended(usize),
}

/// Where a judge stands.
#[derive(Drop)]
pub(crate) struct Stand {
    /// How many octets the bundles before this one took.
    pub(crate) before: usize,
    /// How many octets of it came.
    pub(crate) came: usize,
    /// The place of the field that is under way.
    pub(crate) at: usize,
    /// What that is.
    pub(crate) stage: Stage,
    /// The blocks so far.
    pub(crate) seen: Seen,
    /// Where the payload lies in the whole.
    pub(crate) part: Option<Fragment>,
    /// The octets of the primary block that came.
    pub(crate) main: Vec<u8>,
    /// Where in them the dictionary lies.
    pub(crate) texts: Texts,
    /// The octets of a field of few that came.
    pub(crate) head: Few,
}

impl Stand {
    /// The fields of few octets: what came of it, or what is to come.
    #[tactic(auto, unfolding(crate::specs::Field6::small_field))]
    pub(crate) fn field(
        &self,
        small: Small,
        text: &[u8],
    ) -> Result<((Seen, Stage), usize), Refused6>
        requires few { self.now.seen.others ≤ 64 }
        requires order { self.now.texts.from ≤ self.now.texts.to }
        requires inside { self.now.texts.to ≤ length self.now.main.items }
        ensures exact { Gives (λ x. x) refused_at result
            (read (small_field self.now.part (dictionary_of self.now) self.now.seen small) text.now 0) }
        ensures counts { IfOk result (λ x. Counts small self.now.seen x.0.0) }
        ensures later { IfOk result (λ x. IsLater x.0.1) }
    {
        match small {
            Small::Block => {
                let (head, end) = head_judged(text, 0, MOST_OTHERS, self.seen)?;
                let stage = Stage::Field(Small::References {
                    left: head.count,
                    payload: head.payload,
                    last: head.last,
                });
                Ok(((head.seen, stage), end))
            }
            Small::References {
                left: 0,
                payload,
                last,
            } => {
                let (size, end) = size_at(text, 0, self.part, payload)?;
                Ok(((self.seen, Stage::Body { size, last }), end))
            }
            Small::References {
                left,
                payload,
                last,
            } => {
                let dictionary = &self.main.as_slice()[self.texts.from..self.texts.to];
                let (_, end) = name_judged(text, 0, dictionary)?;
                let stage = Stage::Field(Small::References {
                    left: left - 1,
                    payload,
                    last,
                });
                Ok(((self.seen, stage), end))
            }
        }
    }

    /// One step into octets that are there.
    fn step(&mut self, rest: &[u8]) -> Result<Step, Fail6>
        requires there { IsThere self.old rest.now }
        requires some { 0 < length rest.now }
        requires counted { self.old.came + length rest.now < 2 ^ 64 }
        ensures { StepsOn self.old rest.now result self.new }
    {
        match self.stage {
            Stage::Primary => self.primary(rest),
            Stage::Field(small) => self.short(rest, small),
            Stage::Body { size, last } => Ok(self.body(rest, size, last)),
        }
    }

    /// The primary block, of which some octets more are kept.
    fn primary(&mut self, rest: &[u8]) -> Result<Step, Fail6>
        requires there { IsThere self.old rest.now }
        requires some { 0 < length rest.now }
        requires counted { self.old.came + length rest.now < 2 ^ 64 }
        requires stage { self.old.stage ≡ Stage.Primary }
        ensures { StepsOn self.old rest.now result self.new }
    {
        let chunk = &rest[..rest.len().min(CHUNK)];
        self.main.extend_from_slice(chunk)?;
        match primary_judged(self.main.as_slice(), 0) {
            Ok((_, end)) => {
                let more = end - self.came;
                self.main.truncate(end);
                self.fill(more)
            }
            Err(refused) => match refused.cause {
                Cause6::Truncated => {
                    self.came += chunk.len();
                    Ok(Step::After(chunk.len()))
                }
                _ => Err(refused.into()),
            },
        }
    }

    /// The primary block, which is kept, ended after so many octets more.
    fn fill(&mut self, more: usize) -> Result<Step, Fail6>
        requires fills { (text : List ℕ) × Fills text self.old more }
        requires counted { self.old.came + more < 2 ^ 64 }
        ensures { (text : List ℕ) → Fills text self.old more
            → Steps text self.old result self.new }
    {
        let ((part, texts), _) = primary_judged(self.main.as_slice(), 0)?;
        self.part = part;
        self.texts = texts;
        self.enter(Seen::NONE, Stage::Field(Small::Block), more);
        Ok(Step::After(more))
    }

    /// A field of few octets, where they lie or with those that came before.
    fn short(&mut self, rest: &[u8], small: Small) -> Result<Step, Fail6>
        requires there { IsThere self.old rest.now }
        requires some { 0 < length rest.now }
        requires counted { self.old.came + length rest.now < 2 ^ 64 }
        requires stage { self.old.stage ≡ Stage.Field small }
        ensures { StepsOn self.old rest.now result self.new }
    {
        if self.head.len() == 0 {
            match self.field(small, rest) {
                Ok(((seen, stage), end)) => return Ok(self.next(seen, stage, end)),
                Err(refused) => match refused.cause {
                    Cause6::Truncated => {}
                    _ => return Err(refused.after(self.at).into()),
                },
            }
        }
        self.more(rest, small)
    }

    /// A field of few octets, of which one more is there.
    fn more(&mut self, rest: &[u8], small: Small) -> Result<Step, Fail6>
        requires there { IsThere self.old rest.now }
        requires some { 0 < length rest.now }
        requires counted { self.old.came + length rest.now < 2 ^ 64 }
        requires stage { self.old.stage ≡ Stage.Field small }
        ensures { StepsOn self.old rest.now result self.new }
    {
        self.head.push(rest[0]);
        match self.field(small, self.head.as_slice()) {
            Ok(((seen, stage), _)) => {
                self.head.clear();
                Ok(self.next(seen, stage, 1))
            }
            Err(refused) => match refused.cause {
                Cause6::Truncated => {
                    self.came += 1;
                    Ok(Step::After(1))
                }
                _ => Err(refused.after(self.at).into()),
            },
        }
    }

    /// Octets of a block, which aren't looked at.
    fn body(&mut self, rest: &[u8], size: u64, last: bool) -> Step
        requires there { IsThere self.old rest.now }
        requires some { 0 < length rest.now }
        requires counted { self.old.came + length rest.now < 2 ^ 64 }
        requires stage { self.old.stage ≡ Stage.Body size last }
        ensures { StepsOn self.old rest.now (Ok result) self.new }
    {
        let left = size - (self.came - self.at) as u64;
        if (rest.len() as u64) < left {
            self.came += rest.len();
            return Step::After(rest.len());
        }
        self.leave(last, left as usize)
    }

    /// A field of few octets ended after so many more: octets of a block follow, or another one.
    fn next(&mut self, seen: Seen, stage: Stage, more: usize) -> Step
        requires enters { (text : List ℕ) × Enters text self.old seen stage more }
        requires counted { self.old.came + more < 2 ^ 64 }
        ensures { (text : List ℕ) → Enters text self.old seen stage more
            → Steps text self.old (Ok result) self.new }
    {
        match stage {
            Stage::Body { size, last } => {
                if size == 0 {
                    self.seen = seen;
                    return self.leave(last, more);
                }
                self.enter(seen, stage, more);
                Step::After(more)
            }
            _ => {
                self.enter(seen, stage, more);
                Step::After(more)
            }
        }
    }

    /// After so many octets more this stands next.
    fn enter(&mut self, seen: Seen, stage: Stage, more: usize)
        requires { self.old.came + more < 2 ^ 64 }
        ensures { self.new ≡ entered self.old seen stage (self.old.came + more) }
    {
        self.came += more;
        self.at = self.came;
        self.seen = seen;
        self.stage = stage;
    }

    /// The octets of a block ended after so many more, and the bundle with the last.
    fn leave(&mut self, last: bool, more: usize) -> Step
        requires { self.old.came + more < 2 ^ 64 }
        ensures { (text : List ℕ) → Leaves text self.old last more
            → Steps text self.old (Ok result) self.new }
    {
        if last {
            return Step::Ended(self.came + more);
        }
        self.enter(self.seen, Stage::Field(Small::Block), more);
        Step::After(more)
    }

    /// All octets that are there, or as many as end the bundle: at which place of it.
    pub(crate) fn run(&mut self, near: &[u8]) -> Result<Option<usize>, Fail6>
        requires there { IsThere self.old near.now }
        requires counted { self.old.came + length near.now < 2 ^ 64 }
        ensures { RunsOn self.old near.now result self.new }
    {
        let mut rest = near;
        'steps: while !rest.is_empty() {
            match self.step(rest)? {
                Step::After(more) => rest = &rest[more..],
                Step::Ended(end) => return Ok(Some(end)),
            }
        }
        Ok(None)
    }
}
