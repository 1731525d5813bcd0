//! A bundle in the other version, and the normal form of a bundle.

ghost use Rattle.std.specs.Prelude.{◌≡◌, ◌<◌, ◌^◌, length, None, IfOk};
ghost use Rattle.std.specs.List.{All};
ghost use Rattle.bundle6.specs.Legal.{IsLegal};
ghost use Rattle.bundle7.specs.Legal.{IsLegal7};
ghost use Rattle.bundle_meaning.specs.Valid.{IsValid};
ghost use Rattle.translate.specs.View6.{view6_of};
ghost use Rattle.translate.specs.View7.{view7_of};
ghost use Rattle.translate.specs.Legal.{IsSized6, IsSized7, AreSized7};
ghost use Rattle.translate.specs.Answers.{Translates};
ghost use Rattle.translate.specs.Translation.{HoldsOctets6, HoldsOctets7, there6, there7, norm6_of, norm7_of, to_new_refusal, to_old_refusal, norm6_refusal, norm7_refusal};

use crate::fitting::{fits_new, fits_old};
use crate::reading6::{full6, refusal6};
use crate::reading7::{full7, refusal7};
use crate::refused::Refused;
use crate::writing6::bundle6_of;
use crate::writing7::bundle7_of;
use bundle_meaning::Full;
use bundle6::{Block6, Bundle6};
use bundle7::{Block7, Bundle7};
use std::alloc::{AllocError, Global};

/// The version 7 bundle that a version 6 one becomes. Memory is wanted only where nothing is refused.
pub fn to_new(alloc: Global, bundle: &Bundle6) -> Result<Bundle7, Refused>
    requires { IsLegal bundle.now }
    ensures exact { Translates (to_new_refusal bundle.now) (there6 bundle.now) result }
    ensures legal { IfOk result IsLegal7 }
{
    match refusal_new(alloc, bundle) {
        Some(cause) => Err(cause),
        None => Ok(made7(alloc, &full6(alloc, bundle)?)?),
    }
}

/// The version 6 bundle that a version 7 one becomes. Memory is wanted only where nothing is refused.
pub fn to_old(alloc: Global, bundle: &Bundle7) -> Result<Bundle6, Refused>
    requires { IsLegal7 bundle.now }
    ensures exact { Translates (to_old_refusal bundle.now) (there7 bundle.now) result }
    ensures legal { IfOk result IsLegal }
{
    match refusal_old(bundle) {
        Some(cause) => Err(cause),
        None => Ok(made6(alloc, &full7(alloc, bundle)?)?),
    }
}

/// The normal form of a version 6 bundle: what it says, as a translation back would say it. It has no
/// more extension blocks than the bundle.
pub fn norm6(alloc: Global, bundle: &Bundle6) -> Result<Bundle6, Refused>
    requires { IsLegal bundle.now }
    ensures exact { Translates (norm6_refusal bundle.now) (norm6_of bundle.now) result }
    ensures legal { IfOk result IsLegal }
{
    match refusal_own6(alloc, bundle) {
        Some(cause) => Err(cause),
        None => Ok(made6(alloc, &full6(alloc, bundle)?)?),
    }
}

/// The normal form of a version 7 bundle. It has no more extension blocks than the bundle.
pub fn norm7(alloc: Global, bundle: &Bundle7) -> Result<Bundle7, Refused>
    requires { IsLegal7 bundle.now }
    ensures exact { Translates (norm7_refusal bundle.now) (norm7_of bundle.now) result }
    ensures legal { IfOk result IsLegal7 }
{
    match refusal_own7(bundle) {
        Some(cause) => Err(cause),
        None => Ok(made7(alloc, &full7(alloc, bundle)?)?),
    }
}

/// The first cause that refuses a translation to version 7. Want of memory hides none.
fn refusal_new(alloc: Global, bundle: &Bundle6) -> Option<Refused>
    ensures exact { result ≡ to_new_refusal bundle.now }
    ensures octets { result ≡ None → HoldsOctets6 bundle.now }
{
    match refusal6(alloc, bundle) {
        Some(cause) => Some(cause),
        None if fits_new(bundle) => None,
        None => Some(Refused::TooManyBlocks),
    }
}

/// The first cause that refuses a translation to version 6. No memory is taken.
fn refusal_old(bundle: &Bundle7) -> Option<Refused>
    ensures exact { result ≡ to_old_refusal bundle.now }
    ensures octets { result ≡ None → HoldsOctets7 bundle.now }
{
    match refusal7(bundle) {
        Some(cause) => Some(cause),
        None if fits_old(bundle) => None,
        None => Some(Refused::TooManyBlocks),
    }
}

/// The first cause that a version 6 bundle has no normal form. There is always room for its blocks.
fn refusal_own6(alloc: Global, bundle: &Bundle6) -> Option<Refused>
    requires { IsLegal bundle.now }
    ensures exact { result ≡ norm6_refusal bundle.now }
    ensures octets { result ≡ None → HoldsOctets6 bundle.now }
{
    refusal6(alloc, bundle)
}

/// The first cause that a version 7 bundle has no normal form. There is always room for its blocks.
fn refusal_own7(bundle: &Bundle7) -> Option<Refused>
    requires { IsLegal7 bundle.now }
    ensures exact { result ≡ norm7_refusal bundle.now }
    ensures octets { result ≡ None → HoldsOctets7 bundle.now }
{
    refusal7(bundle)
}

/// The version 6 bundle that stands for a record, however many blocks it has.
fn made6(alloc: Global, full: &Full) -> Result<Bundle6, AllocError>
    requires { IsValid full.now }
    ensures view { IfOk result (λ bundle. bundle ≡ view6_of full.now) }
    ensures sized { IfOk result (λ bundle. All IsSized6 bundle.blocks) }
{
    let bundle = bundle6_of(alloc, full)?;
    sized6(bundle.blocks.as_slice());
    Ok(bundle)
}

/// The version 7 bundle that stands for a record, however many blocks it has.
fn made7(alloc: Global, full: &Full) -> Result<Bundle7, AllocError>
    requires { IsValid full.now }
    ensures view { IfOk result (λ bundle. bundle ≡ view7_of full.now) }
    ensures sized { IfOk result AreSized7 }
{
    let bundle = bundle7_of(alloc, full)?;
    sized7(bundle.exts.as_slice());
    sized(bundle.payload.body.as_slice());
    Ok(bundle)
}

/// Says of each block that a number counts its octets, as one counts those of every slice.
pub fn sized6(blocks: &[Block6])
    ensures { All IsSized6 blocks.now }
{
    'telling: for block in blocks {
        sized(block.body.as_slice());
    }
}

/// Says of each block that a number counts its octets.
fn sized7(blocks: &[Block7])
    ensures { All IsSized7 blocks.now }
{
    'telling: for block in blocks {
        sized(block.body.as_slice());
    }
}

/// Says that a number counts the octets.
pub fn sized(octets: &[u8])
    ensures { length octets.now < 2 ^ 64 }
{}
