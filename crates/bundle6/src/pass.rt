//! A pass over the octets of a bundle. It takes no memory, and goes on where it stood once more octets
//! have come.

ghost use Rattle.std.specs.Prelude.{◌≡◌, ◌≢◌, ◌-◌, ◌≤◌, ◌<◌, ◌^◌, ◌==◌, [], length, false, IfOk};
ghost use Rattle.wire_fields.specs.Reading.{read};
ghost use Rattle.wire_fields.specs.Gives.{Gives, IsOn};
ghost use Rattle.bundle6.specs.Cause.{refused_at};
ghost use Rattle.bundle6.specs.Names.{resolves, all_resolve};
ghost use Rattle.bundle6.specs.Seen.{seen_with, Follows};
ghost use Rattle.bundle6.specs.Judging.{is_named, judged_dictionary, judged_primary, judged_name, judged_head, judged_body};
ghost use Rattle.bundle6.specs.Passing.{texts_in, next_stage, Fits, Stands, Steps, Comes, steps_left};

use crate::block::{PAYLOAD, Seen, count_at, flags_at, kind_at, size_at};
use crate::fault::{Cause6, Refused6};
use crate::fields::{number, octets};
use crate::flags::{LAST, REFS, has_bit};
use crate::names::{Offsets, Pairs, four_names_at, is_ssp, text_in};
use crate::primary::{end_at, fragment_at, version_at};
use endpoint::{Fragment, ipn_named};

/// Where the dictionary lies.
#[derive(Clone, Copy)]
pub struct Texts {
    /// Its first octet.
    pub from: usize,
    /// The first octet after it.
    pub to: usize,
}

/// The head of a block, as far as later fields look at it.
#[derive(Clone, Copy)]
pub struct Head {
    /// The blocks so far, with this one.
    pub seen: Seen,
    /// Whether it is the payload.
    pub payload: bool,
    /// Whether it is marked as the last.
    pub last: bool,
    /// How many references follow.
    pub count: u64,
}

/// What stands next.
#[derive(Clone, Copy)]
pub(crate) enum Stage {
    /// The primary block.
    Primary,
    /// A block.
    Block,
    /// So many references of a block, and its octets.
    References {
        left: u64,
        payload: bool,
        last: bool,
    },
    /// Nothing: the bundle ended.
    Ended,
}

impl Stage {
    /// What stands after a block.
    fn after_block(last: bool) -> Stage
        ensures { result ≡ next_stage last }
    {
        if last { Stage::Ended } else { Stage::Block }
    }
}

/// How far a pass has come.
#[derive(Clone, Copy)]
pub(crate) struct Pass {
    /// The place of the next field.
    pub(crate) at: usize,
    /// What stands there.
    pub(crate) stage: Stage,
    /// The blocks so far.
    pub(crate) seen: Seen,
    /// Where the payload lies in the whole.
    pub(crate) part: Option<Fragment>,
    /// Where the dictionary lies.
    pub(crate) texts: Texts,
}

impl Pass {
    /// A pass that has yet to begin.
    pub(crate) const START: Pass = Pass {
        at: 0,
        stage: Stage::Primary,
        seen: Seen::NONE,
        part: None,
        texts: Texts { from: 0, to: 0 },
    };

    /// As far as the octets go: to the end of the bundle, or to the field that isn't there and the
    /// refusal, which may be that the octets end.
    pub(crate) fn run(self, text: &[u8], most: u64) -> (Pass, Option<Refused6>)
        requires fits { Fits most text.now self }
        requires few { most < 2 ^ 64 - 1 }
        requires stands { Stands most text.now self }
        ensures fits { Fits most text.now result.0 }
        ensures stands { Stands most text.now result.0 }
        ensures comes { Comes most text.now result.0 result.1 }
    {
        let mut pass = self;
        'stepping: loop {
            if let Stage::Ended = pass.stage {
                return (pass, None);
            }
            match pass.step(text, most) {
                Ok(next) => pass = next,
                Err(refused) => return (pass, Some(refused)),
            }
        }
    }

    /// One field or group more.
    fn step(self, text: &[u8], most: u64) -> Result<Pass, Refused6>
        requires fits { Fits most text.now self }
        requires few { most < 2 ^ 64 - 1 }
        ensures fits { IfOk result (Fits most text.now) }
        ensures smaller { IfOk result (λ next. self.stage ≢ Stage.Ended
            → steps_left most next.seen next.stage < steps_left most self.seen self.stage) }
        ensures exact { Steps most text.now self self.stage result }
    {
        match self.stage {
            Stage::Primary => self.primary(text, most),
            Stage::Block => self.head(text, most),
            Stage::References {
                left,
                payload,
                last,
            } => self.reference(text, most, left, payload, last),
            Stage::Ended => Ok(self),
        }
    }

    /// The primary block.
    fn primary(self, text: &[u8], most: u64) -> Result<Pass, Refused6>
        requires fits { Fits most text.now self }
        ensures fits { IfOk result (Fits most text.now) }
        ensures smaller { IfOk result (λ next.
            steps_left most next.seen next.stage < steps_left most self.seen Stage.Primary) }
        ensures exact { Steps most text.now self Stage.Primary result }
    {
        let ((part, texts), at) = primary_judged(text, self.at)?;
        Ok(Pass {
            at,
            stage: Stage::Block,
            seen: Seen::NONE,
            part,
            texts,
        })
    }

    /// The head of a block.
    fn head(self, text: &[u8], most: u64) -> Result<Pass, Refused6>
        requires fits { Fits most text.now self }
        requires few { most < 2 ^ 64 - 1 }
        ensures fits { IfOk result (Fits most text.now) }
        ensures smaller { IfOk result (λ next.
            steps_left most next.seen next.stage < steps_left most self.seen Stage.Block) }
        ensures exact { Steps most text.now self Stage.Block result }
    {
        let (head, at) = head_judged(text, self.at, most, self.seen)?;
        let stage = Stage::References {
            left: head.count,
            payload: head.payload,
            last: head.last,
        };
        Ok(Pass {
            at,
            stage,
            seen: head.seen,
            ..self
        })
    }

    /// A reference of a block, or where none is left its octets.
    fn reference(
        self,
        text: &[u8],
        most: u64,
        left: u64,
        payload: bool,
        last: bool,
    ) -> Result<Pass, Refused6>
        requires fits { Fits most text.now self }
        ensures fits { IfOk result (Fits most text.now) }
        ensures smaller { IfOk result (λ next. steps_left most next.seen next.stage
            < steps_left most self.seen (Stage.References left payload last)) }
        ensures exact { Steps most text.now self (Stage.References left payload last) result }
    {
        if left == 0 {
            return self.body(text, most, payload, last);
        }
        let dictionary = &text[self.texts.from..self.texts.to];
        let (_, at) = name_judged(text, self.at, dictionary)?;
        let stage = Stage::References {
            left: left - 1,
            payload,
            last,
        };
        Ok(Pass { at, stage, ..self })
    }

    /// The octets of a block.
    fn body(self, text: &[u8], most: u64, payload: bool, last: bool) -> Result<Pass, Refused6>
        requires fits { Fits most text.now self }
        ensures fits { IfOk result (Fits most text.now) }
        ensures smaller { IfOk result (λ next. steps_left most next.seen next.stage
            < steps_left most self.seen (Stage.References 0 payload last)) }
        ensures exact { Steps most text.now self (Stage.References 0 payload last) result }
    {
        let (_, at) = body_judged(text, self.at, self.part, payload)?;
        let stage = Stage::after_block(last);
        Ok(Pass { at, stage, ..self })
    }
}

/// The primary block: where the payload lies in the whole, and where the dictionary lies.
#[inline(always)]
#[tactic(auto, unfolding(crate::specs::Judging::judged_primary))]
pub fn primary_judged(
    text: &[u8],
    at: usize,
) -> Result<((Option<Fragment>, Texts), usize), Refused6>
    requires { at ≤ length text.now }
    ensures within { IfOk result (λ x. IsOn at text.now x.1) }
    ensures order { IfOk result (λ x. x.0.1.from ≤ x.0.1.to) }
    ensures inside { IfOk result (λ x. x.0.1.to ≤ length text.now) }
    ensures exact { Gives (λ kept. (kept.0, texts_in kept.1 text.now)) refused_at result
        (read judged_primary text.now at) }
{
    let (_, at) = version_at(text, at)?;
    let (flags, at) = number(text, at)?;
    let (size, start) = number(text, at)?;
    let (pairs, at) = four_names_at(text, start)?;
    let (_, at) = number(text, at)?;
    let (_, at) = number(text, at)?;
    let (_, at) = number(text, at)?;
    let (texts, at) = dictionary_judged(text, at, pairs)?;
    let (part, at) = fragment_at(text, at, flags)?;
    end_at(start, at, size)?;
    Ok(((part, texts), at))
}

/// The dictionary, in which the four names resolve.
#[inline(always)]
#[tactic(auto, unfolding(crate::specs::Judging::judged_dictionary))]
fn dictionary_judged(text: &[u8], at: usize, pairs: Pairs) -> Result<(Texts, usize), Refused6>
    requires { at ≤ length text.now }
    ensures within { IfOk result (λ x. IsOn at text.now x.1) }
    ensures order { IfOk result (λ x. x.0.from ≤ x.0.to) }
    ensures inside { IfOk result (λ x. x.0.to ≤ length text.now) }
    ensures exact { Gives (λ texts. texts_in texts text.now) refused_at result
        (read (judged_dictionary pairs) text.now at) }
{
    let (size, from) = number(text, at)?;
    let (dictionary, to) = octets(text, from, size)?;
    if !all_resolve(dictionary, pairs) {
        return Err(Cause6::Names.at(from));
    }
    Ok((Texts { from, to }, to))
}

/// The head of a block: its type, flags and how many references follow.
#[inline(always)]
#[tactic(auto, unfolding(crate::specs::Judging::judged_head))]
pub fn head_judged(text: &[u8], at: usize, most: u64, seen: Seen) -> Result<(Head, usize), Refused6>
    requires place { at ≤ length text.now }
    requires few { seen.others ≤ most }
    requires small { most < 2 ^ 64 - 1 }
    ensures within { IfOk result (λ x. IsOn at text.now x.1) }
    ensures exact { Gives (λ head. head) refused_at result
        (read (judged_head most seen) text.now at) }
    ensures follows { IfOk result (λ x. Follows most seen x.0.seen) }
{
    let (kind, at) = kind_at(text, at, most, seen)?;
    let payload = kind == PAYLOAD;
    let (flags, at) = flags_at(text, at, payload || seen.paid)?;
    let (count, at) = count_at(text, at, has_bit(flags, REFS))?;
    let head = Head {
        seen: seen.with(kind),
        payload,
        last: has_bit(flags, LAST),
        count,
    };
    Ok((head, at))
}

/// The octets of a block, and before them how many there are.
#[inline(always)]
#[tactic(auto, unfolding(crate::specs::Judging::judged_body))]
fn body_judged(
    text: &[u8],
    at: usize,
    part: Option<Fragment>,
    payload: bool,
) -> Result<((), usize), Refused6>
    requires { at ≤ length text.now }
    ensures within { IfOk result (λ x. IsOn at text.now x.1) }
    ensures exact { Gives (λ _. tt) refused_at result
        (read (judged_body part payload) text.now at) }
{
    let (size, at) = size_at(text, at, part, payload)?;
    let (_, at) = octets(text, at, size)?;
    Ok(((), at))
}

/// A reference, which resolves.
#[tactic(auto, unfolding(crate::specs::Judging::judged_name))]
pub fn name_judged(text: &[u8], at: usize, dictionary: &[u8]) -> Result<((), usize), Refused6>
    requires { at ≤ length text.now }
    ensures within { IfOk result (λ x. IsOn at text.now x.1) }
    ensures exact { Gives (λ _. tt) refused_at result
        (read (judged_name dictionary.now) text.now at) }
{
    let (scheme, at) = number(text, at)?;
    let (ssp, after) = number(text, at)?;
    if !resolves(dictionary, Offsets { scheme, ssp }) {
        return Err(Cause6::BlockRefs.at(at));
    }
    Ok(((), after))
}

/// Whether each of the four names resolves.
#[inline(always)]
fn all_resolve(dictionary: &[u8], pairs: Pairs) -> bool
    ensures { result ≡ all_resolve dictionary.now pairs }
{
    resolves(dictionary, pairs.destination)
        && resolves(dictionary, pairs.source)
        && resolves(dictionary, pairs.report_to)
        && resolves(dictionary, pairs.custodian)
}

/// Whether two numbers name an endpoint. Where there is no dictionary they do, and no call says so.
#[inline(always)]
#[tactic(auto, unfolding(crate::specs::Names::resolve))]
fn resolves(dictionary: &[u8], pair: Offsets) -> bool
    ensures { result ≡ resolves dictionary.now pair }
{
    dictionary.is_empty() || finds(dictionary, pair)
}

/// The same in a dictionary that isn't empty.
#[inline(never)]
#[tactic(auto, unfolding(crate::specs::Names::resolve))]
fn finds(dictionary: &[u8], pair: Offsets) -> bool
    requires { (length dictionary.now == 0) ≡ false }
    ensures { result ≡ resolves dictionary.now pair }
{
    let Some(scheme) = text_in(dictionary, pair.scheme) else {
        return false;
    };
    let Some(ssp) = text_in(dictionary, pair.ssp) else {
        return false;
    };
    is_named(scheme, ssp)
}

/// Whether two texts name an endpoint.
#[tactic(auto, unfolding(endpoint::specs::Reading::named))]
fn is_named(scheme: &[u8], ssp: &[u8]) -> bool
    ensures { result ≡ is_named scheme.now ssp.now }
{
    if scheme == b"dtn".as_slice() {
        ssp == b"none".as_slice() || is_ssp(ssp)
    } else if scheme == b"ipn".as_slice() {
        ipn_named(ssp).is_some()
    } else {
        false
    }
}
