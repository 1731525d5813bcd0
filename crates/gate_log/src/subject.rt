//! Which bundle a line is about.

ghost use Rattle.std.specs.Prelude.{◌≡◌, ◌≢◌, length, None, IfOk, IfSome, OnErr};
ghost use Rattle.translate.specs.Reading6.{payload_in};
ghost use Rattle.gate_log.specs.Subjects as spec;

use bundle_meaning::{Id6, Id7};
use bundle6::{Block6, Bundle6, Fail6, decode6};
use bundle7::{Bundle7, Fail7, decode7};
use endpoint::{Endpoint, Fragment};
use gate_cases::Creation;
use std::alloc::{AllocError, Global};

/// The type of the payload block.
const PAYLOAD: u8 = 1;

/// Which bundle a line is about, as its own version names it.
#[derive(Debug, Drop)]
pub struct Subject {
    /// When it was made; it says which version the bundle has.
    pub creation: Creation,
    /// Whom it is for.
    pub destination: Endpoint,
    /// Where its payload lies in the whole, where it is a fragment.
    pub fragment: Option<Fragment>,
    /// How many octets its payload has.
    pub payload: u64,
    /// Who sent it.
    pub source: Endpoint,
}

impl Subject {
    /// The same again, for another line.
    pub fn copy(&self, alloc: Global) -> Result<Subject, AllocError>
        ensures { IfOk result (λ copied. copied ≡ self.now) }
    {
        Ok(Subject {
            creation: self.creation,
            destination: self.destination.copy(alloc)?,
            fragment: self.fragment,
            payload: self.payload,
            source: self.source.copy(alloc)?,
        })
    }
}

/// The bundle that is the front of a block, of the version that the block's first octet names; none
/// where there is none.
#[tactic(auto, unfolding(crate::specs::Subjects::subject_of))]
pub fn subject_of(alloc: Global, block: &[u8]) -> Result<Option<Subject>, AllocError>
    ensures exact { IfOk result (λ subject. subject ≡ spec.subject_of block.now) }
    // Its names have texts.
    ensures legal { IfOk result (λ subject. IfSome subject spec.IsSubject) }
    // Memory is wanted only where there is one.
    ensures memory { OnErr result (spec.subject_of block.now ≢ None) }
{
    if first_octet(block) == 6 {
        subject_in6(alloc, block)
    } else {
        subject_in7(alloc, block)
    }
}

/// 0 where there is none, which names no version.
fn first_octet(block: &[u8]) -> u8
    ensures { result ≡ spec.first_octet block.now }
{
    match block.first() {
        Some(octet) => *octet,
        None => 0,
    }
}

/// The bundle of version 6 at the front.
fn subject_in6(alloc: Global, block: &[u8]) -> Result<Option<Subject>, AllocError>
    ensures exact { IfOk result (λ subject. subject ≡ spec.front6 block.now) }
    ensures legal { IfOk result (λ subject. IfSome subject spec.IsSubject) }
    ensures memory { OnErr result (spec.front6 block.now ≢ None) }
{
    match decode6(alloc, block) {
        Ok((bundle, _)) => Ok(Some(subject6(bundle))),
        Err(Fail6::Refused { .. }) => Ok(None),
        Err(Fail6::Memory) => Err(AllocError),
    }
}

/// The bundle of version 7 at the front.
fn subject_in7(alloc: Global, block: &[u8]) -> Result<Option<Subject>, AllocError>
    ensures exact { IfOk result (λ subject. subject ≡ spec.front7 block.now) }
    ensures legal { IfOk result (λ subject. IfSome subject spec.IsSubject) }
    ensures memory { OnErr result (spec.front7 block.now ≢ None) }
{
    match decode7(alloc, block) {
        Ok((bundle, _)) => Ok(Some(subject7(bundle))),
        Err(Fail7::Refused { .. }) => Ok(None),
        Err(Fail7::Memory) => Err(AllocError),
    }
}

fn subject6(bundle: Bundle6) -> Subject
    ensures { result ≡ spec.subject6 bundle }
{
    let payload = payload_len(bundle.blocks.as_slice());
    let primary = bundle.primary;
    Subject {
        creation: Creation::Six(Id6 {
            seconds: primary.seconds,
            sequence: primary.sequence,
        }),
        destination: primary.destination,
        fragment: primary.fragment,
        payload,
        source: primary.source,
    }
}

fn subject7(bundle: Bundle7) -> Subject
    ensures { result ≡ spec.subject7 bundle }
{
    let payload = bundle.payload.body.len() as u64;
    let primary = bundle.primary;
    Subject {
        creation: Creation::Seven(Id7 {
            millis: primary.millis,
            sequence: primary.sequence,
        }),
        destination: primary.destination,
        fragment: primary.fragment,
        payload,
        source: primary.source,
    }
}

/// How many octets the payload has.
#[tactic(auto, unfolding(translate::specs::Reading6::payload_in))]
fn payload_len(blocks: &[Block6]) -> u64
    ensures { result ≡ length (payload_in blocks.now).body }
{
    'looking: for block in blocks {
        if block.kind == PAYLOAD {
            return block.body.len() as u64;
        }
    }
    0
}
