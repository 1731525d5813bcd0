//! The bundle that has begun, of which only the version is wanted.
ghost use Rattle.std.specs.Prelude.{◌≡◌, ◌+◌, ◌<◌, ◌≤◌, length, slice_index, false, IfOk};
ghost use Rattle.bundle6.specs.Streaming.{Reading as Reading6};
ghost use Rattle.bundle7.specs.Streaming.{Reading as Reading7};
ghost use Rattle.bundle_runs.specs.declared.unfinished.Unfinished.{Unfinished};
ghost use Rattle.bundle_runs.specs.declared.unfinished.Unfinished.TheVariants as bundles;
ghost use Rattle.bundle_runs.specs.Front.{front6};
ghost use Rattle.bundle_runs.specs.Taking.{HasBegunWith, IsReady, IsCut, IsCutAt};
ghost use Rattle.bundle_runs.specs.Checking.{StandsFor, MayTake, IfOn, MayRestart, JudgesMore};

use crate::front::Cause;
use crate::given::Given;
use bundle_judges::{Judge6, Judge7};
use bundle6::{Fail6, Judged6};
use bundle7::{Fail7, Judged7};
use std::alloc::{AllocError, Global};

/// The judge of the bundle that has begun.
#[derive(Drop)]
pub enum Begun {
    /// Of version 6.
    Six(Judge6),
    /// Of version 7.
    Seven(Judge7),
}

impl Begun {
    /// Takes a piece, up to the end of the bundle where it has that.
    pub fn judge(&mut self, piece: &[u8]) -> Result<Given<u8>, AllocError>
        requires { (bundle : Unfinished) × MayTake self.old piece.now bundle }
        ensures { (bundle : Unfinished) → MayTake self.old piece.now bundle
            → IfOk result (JudgesMore bundle piece.now self.new) }
    {
        match self {
            Begun::Six(judge) => judge6(judge, piece),
            Begun::Seven(judge) => judge7(judge, piece),
        }
    }

    /// The place of the field in which the octets end, where there are any.
    pub fn finish(&mut self) -> Option<usize>
        requires { (bundle : Unfinished) × StandsFor self.old bundle × IsReady bundle }
        ensures { (bundle : Unfinished) → StandsFor self.old bundle → IsReady bundle
            → IsCutAt bundle result }
    {
        match self {
            Begun::Six(judge) => match judge.finish() {
                Ok(()) => None,
                Err(Fail6::Refused { at, .. }) => Some(at),
                Err(Fail6::Memory) => None,
            },
            Begun::Seven(judge) => match judge.finish() {
                Ok(()) => None,
                Err(Fail7::Refused { at, .. }) => Some(at),
                Err(Fail7::Memory) => None,
            },
        }
    }
}

/// The judge of the bundle of version 6 that some octets begin and don't end.
#[tactic(auto, unfolding(crate::specs::Front::front_of))]
pub fn begin6(alloc: Global, octets: &[u8]) -> Result<Judge6, AllocError>
    requires some { 0 < length octets.now }
    requires few { length octets.now ≤ 67108864 }
    requires first { slice_index octets.now 0 ≡ 0x06 }
    requires cut { IsCut (front6 octets.now) }
    ensures { IfOk result (λ judge. (bundle : Unfinished)
        × StandsFor (Begun.Six judge) bundle × HasBegunWith octets.now bundle) }
{
    let mut judge = Judge6::new(alloc);
    match judge.feed(octets) {
        Ok(_) => Ok(judge),
        Err(_) => Err(AllocError),
    }
}

/// Takes a piece of a bundle of version 6, up to its end where it has that.
pub fn judge6(judge: &mut Judge6, piece: &[u8]) -> Result<Given<u8>, AllocError>
    requires { (reader : Reading6) × MayTake (Begun.Six judge.old) piece.now (bundles.Six reader) }
    ensures { (reader : Reading6) → MayTake (Begun.Six judge.old) piece.now (bundles.Six reader)
        → IfOk result (JudgesMore (bundles.Six reader) piece.now (Begun.Six judge.new)) }
{
    match judge.feed(piece) {
        Ok(
            Judged6 {
                used,
                whole: Some(_size),
            },
        ) => Ok(Given::Whole(6, used)),
        Ok(Judged6 { whole: None, .. }) => Ok(Given::Part),
        Err(Fail6::Refused { at, cause }) => Ok(Given::Refused(at, Cause::Six(cause))),
        Err(Fail6::Memory) => Err(AllocError),
    }
}

/// Takes a piece of a bundle of version 7, up to its end where it has that.
pub fn judge7(judge: &mut Judge7, piece: &[u8]) -> Result<Given<u8>, AllocError>
    requires { (reader : Reading7) × MayTake (Begun.Seven judge.old) piece.now (bundles.Seven reader) }
    ensures judges { (reader : Reading7) → MayTake (Begun.Seven judge.old) piece.now (bundles.Seven reader)
        → IfOk result (JudgesMore (bundles.Seven reader) piece.now (Begun.Seven judge.new)) }
    ensures goes_on { IfOk result (λ given. IfOn given (MayRestart judge.new)) }
{
    match judge.feed(piece) {
        Ok(
            Judged7 {
                used,
                whole: Some(_size),
            },
        ) => Ok(Given::Whole(7, used)),
        Ok(Judged7 { whole: None, .. }) => Ok(Given::Part),
        Err(Fail7::Refused { at, cause }) => Ok(Given::Refused(at, Cause::Seven(cause))),
        Err(Fail7::Memory) => Err(AllocError),
    }
}
