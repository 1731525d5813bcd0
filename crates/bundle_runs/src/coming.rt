//! The bundle that has begun, and is to be shown.
ghost use Rattle.std.specs.Prelude.{◌≡◌, ◌+◌, ◌<◌, ◌≤◌, None, Some, length, slice_index, IfOk, OnOk, IsSomeAnd};
ghost use Rattle.bundle_runs.specs.declared.unfinished.Unfinished.{Unfinished};
ghost use Rattle.bundle_runs.specs.declared.bundle_reader.Standing.{Standing};
ghost use Rattle.bundle_runs.specs.Front.{front6};
ghost use Rattle.bundle_runs.specs.Taking.{kept_of, IsReady, IsCut, IsSound, IsCutAt};
ghost use Rattle.bundle_runs.specs.Coming.{TookNone, ComesFor, ComesForAny, BeginsSix, MayCome, ReadsOn, ComesMore, JudgedSo, shown6, shown7};

use crate::begun::{begin6, judge6};
use crate::front::{Bundle, Cause};
use crate::given::{Given, SEVEN, SIX, judged6};
use crate::unfinished::feed7;
use bundle_judges::Judge6;
use bundle6::Fail6;
use bundle7::{Fail7, Reader7};
use std::alloc::{AllocError, Global};

/// What takes the bundle that has begun.
#[derive(Drop)]
pub enum Coming {
    /// The judge of one of version 6, which is told out of its octets.
    Six(Judge6),
    /// The reader of those of version 7.
    Seven,
}

impl Coming {
    /// Takes a piece, up to the end of the bundle where it has that. One of version 7 is built then.
    pub fn feed(
        &mut self,
        reader: &mut Reader7,
        piece: &[u8],
    ) -> Result<Given<Option<Bundle>>, AllocError>
        requires { (bundle : Unfinished) × MayCome self.old reader.old piece.now bundle }
        ensures { (bundle : Unfinished) → MayCome self.old reader.old piece.now bundle
            → IfOk result (ComesMore bundle piece.now self.new reader.new) }
    {
        match self {
            Coming::Six(judge) => {
                let given = judge6(judge, piece)?;
                Ok(shown6(given))
            }
            Coming::Seven => {
                let given = feed_seven(reader, piece)?;
                Ok(shown7(given))
            }
        }
    }

    /// The place of the field in which the octets end, where there are any. The reader lets go of them.
    pub fn finish(&mut self, reader: &mut Reader7) -> Option<usize>
        requires { (bundle : Unfinished) × ComesFor self.old reader.old bundle × IsReady bundle }
        ensures cut { (bundle : Unfinished) → ComesFor self.old reader.old bundle → IsReady bundle
            → IsCutAt bundle result }
        ensures rests { TookNone reader.new }
    {
        match self {
            Coming::Six(judge) => match judge.finish() {
                Ok(()) => None,
                Err(Fail6::Refused { at, .. }) => Some(at),
                Err(Fail6::Memory) => None,
            },
            Coming::Seven => finish_seven(reader),
        }
    }
}

/// Takes a piece of a bundle of version 7, up to its end where it has that: then the reader lets go of it.
fn feed_seven(reader: &mut Reader7, piece: &[u8]) -> Result<Given<Bundle>, AllocError>
    requires ready { IsReady (Unfinished.Seven reader.old) }
    requires few { length (kept_of (Unfinished.Seven reader.old)) + length piece.now ≤ 67108864 }
    ensures { IfOk result (ReadsOn reader.old piece.now reader.new) }
{
    let given = feed7(reader, piece)?;
    match &given {
        Given::Whole(..) => reader.restart(),
        Given::Part => {}
        Given::Refused(..) => {}
    }
    Ok(given)
}

/// The place of the field of a bundle of version 7 in which the octets end, where there are any.
fn finish_seven(reader: &mut Reader7) -> Option<usize>
    requires { IsReady (Unfinished.Seven reader.old) }
    ensures cut { IsCutAt (Unfinished.Seven reader.old) result }
    ensures rests { TookNone reader.new }
{
    let ends = reader.finish();
    reader.restart();
    match ends {
        Err(Fail7::Refused { at, .. }) => Some(at),
        _ => None,
    }
}

/// Takes octets of one bundle, which has begun or begins with them. The reader is that of bundles of
/// version 7.
pub fn come(
    coming: &mut Option<Coming>,
    reader: &mut Reader7,
    alloc: Global,
    left: &[u8],
) -> Result<Given<Option<Bundle>>, AllocError>
    requires some { 0 < length left.now }
    requires sound { (old : Standing) × ComesForAny coming.old reader.old old.unfinished × IsSound old
        × (old.at + old.taken + length left.now ≤ 67108864) }
    ensures { (old : Standing) → ComesForAny coming.old reader.old old.unfinished → IsSound old
        → old.at + old.taken + length left.now ≤ 67108864
        → IfOk result (JudgedSo old left.now coming.new reader.new) }
{
    match coming {
        Some(bundle) => bundle.feed(reader, left),
        None => begin(coming, reader, alloc, left),
    }
}

/// The same, where none has begun. One of version 6 that the octets end is judged where it lies.
fn begin(
    coming: &mut Option<Coming>,
    reader: &mut Reader7,
    alloc: Global,
    left: &[u8],
) -> Result<Given<Option<Bundle>>, AllocError>
    requires none { coming.old ≡ None }
    requires rests { TookNone reader.old }
    requires some { 0 < length left.now }
    requires few { length left.now ≤ 67108864 }
    ensures { (old : Standing) → old.unfinished ≡ None
        → IfOk result (JudgedSo old left.now coming.new reader.new) }
{
    match left[0] {
        SIX => match judged6(left) {
            Given::Part => {
                begin_six(coming, alloc, left)?;
                Ok(Given::Part)
            }
            given => Ok(shown6(given)),
        },
        SEVEN => {
            let given = feed_seven(reader, left)?;
            match &given {
                Given::Part => begin_seven(coming),
                _ => {}
            }
            Ok(shown7(given))
        }
        _ => Ok(Given::Refused(0, Cause::Version)),
    }
}

// A judge has much room. What makes, writes or drops one is in functions that aren't put in line: else
// the room is cleared for every bundle, also for one that lies in a piece as a whole.

/// Keeps the judge of the bundle of version 6 that some octets begin and don't end.
#[cold]
#[inline(never)]
fn begin_six(coming: &mut Option<Coming>, alloc: Global, octets: &[u8]) -> Result<(), AllocError>
    requires some { 0 < length octets.now }
    requires few { length octets.now ≤ 67108864 }
    requires first { slice_index octets.now 0 ≡ 0x06 }
    requires cut { IsCut (front6 octets.now) }
    ensures { OnOk result (IsSomeAnd coming.new (BeginsSix octets.now)) }
{
    *coming = Some(Coming::Six(begin6(alloc, octets)?));
    Ok(())
}

/// The reader has begun a bundle.
#[cold]
#[inline(never)]
fn begin_seven(coming: &mut Option<Coming>)
    ensures { coming.new ≡ Some Coming.Seven }
{
    *coming = Some(Coming::Seven);
}

/// The bundle has ended.
#[cold]
#[inline(never)]
pub fn end(coming: &mut Option<Coming>)
    ensures { coming.new ≡ None }
{
    *coming = None;
}

/// Of a bundle of version 6 nothing but its end is wanted.
fn shown6(given: Given<u8>) -> Given<Option<Bundle>>
    ensures { result ≡ shown6 given }
{
    match given {
        Given::Whole(_, used) => Given::Whole(None, used),
        Given::Part => Given::Part,
        Given::Refused(at, cause) => Given::Refused(at, cause),
    }
}

/// Of a bundle of version 7 all is wanted.
fn shown7(given: Given<Bundle>) -> Given<Option<Bundle>>
    ensures { result ≡ shown7 given }
{
    match given {
        Given::Whole(bundle, used) => Given::Whole(Some(bundle), used),
        Given::Part => Given::Part,
        Given::Refused(at, cause) => Given::Refused(at, cause),
    }
}
