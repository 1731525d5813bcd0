//! The octets of the bundle of the other version.
ghost use Rattle.std.specs.Prelude.{◌≡◌, None, IfOk, OnErr};
ghost use Rattle.bundle6.specs.Legal.{IsLegal as IsLegal6};
ghost use Rattle.bundle7.specs.Legal.{IsLegal7};
ghost use Rattle.translate.specs.Translation.{to_new_refusal, to_old_refusal};
ghost use Rattle.fragment_lines.specs.Lines.{Owes};
ghost use Rattle.bundle_runs.specs.Legal.{IsLegal};
ghost use Rattle.bundle_runs.specs.Convert.{converted, converted6, converted7, said_octets};

use crate::front::Bundle;
use bundle6::{Bundle6, encode6};
use bundle7::{Bundle7, encode7};
use endpoint::Octets;
use fragment_lines::{Telling, TurnedDown, spelled_new, spelled_old};
use std::alloc::{AllocError, Global};
use translate::{Refused, from6, from7, to_new, to_old};

/// The line of a bundle, or why it becomes none of the other version. The bundle is let go once its record
/// is read, the record once there is the other bundle, and that one once there are its octets.
pub fn convert(alloc: Global, bundle: Bundle) -> Result<Result<Telling, TurnedDown>, AllocError>
    requires { IsLegal bundle }
    ensures { IfOk result (Owes (converted bundle) tt) }
{
    match bundle {
        Bundle::Six(bundle) => convert_to_new(alloc, bundle),
        Bundle::Seven(bundle) => convert_to_old(alloc, bundle),
    }
}

/// The line of a version 6 bundle, or why it becomes none of version 7. Memory is wanted only where
/// nothing is refused.
fn convert_to_new(alloc: Global, bundle: Bundle6) -> Result<Result<Telling, TurnedDown>, AllocError>
    requires { IsLegal6 bundle }
    ensures said { IfOk result (Owes (converted6 bundle) tt) }
    ensures memory { OnErr result (to_new_refusal bundle ≡ None) }
{
    match from6(alloc, &bundle) {
        Ok(full) => {
            drop(bundle);
            Ok(line_of(spelled_new(alloc, full)?))
        }
        Err(refused) => match refused {
            // The bundle may have too many blocks, which is told without memory.
            Refused::Memory => translate_to_new(alloc, &bundle),
            cause => Ok(Err(TurnedDown::Untranslated(cause))),
        },
    }
}

/// The same, where the bundle and the other one are there at once.
fn translate_to_new(
    alloc: Global,
    bundle: &Bundle6,
) -> Result<Result<Telling, TurnedDown>, AllocError>
    requires { IsLegal6 bundle.now }
    ensures said { IfOk result (Owes (converted6 bundle.now) tt) }
    ensures memory { OnErr result (to_new_refusal bundle.now ≡ None) }
{
    match to_new(alloc, bundle) {
        Ok(there) => Ok(Ok(Telling::line(encode7(alloc, &there)?))),
        Err(refused) => match refused {
            Refused::Memory => Err(AllocError),
            cause => Ok(Err(TurnedDown::Untranslated(cause))),
        },
    }
}

/// The line of a version 7 bundle, or why it becomes none of version 6. Memory is wanted only where
/// nothing is refused.
fn convert_to_old(alloc: Global, bundle: Bundle7) -> Result<Result<Telling, TurnedDown>, AllocError>
    requires { IsLegal7 bundle }
    ensures said { IfOk result (Owes (converted7 bundle) tt) }
    ensures memory { OnErr result (to_old_refusal bundle ≡ None) }
{
    match from7(alloc, &bundle) {
        Ok(full) => {
            drop(bundle);
            Ok(line_of(spelled_old(alloc, full)?))
        }
        Err(refused) => match refused {
            // The bundle may have too many blocks, which is told without memory.
            Refused::Memory => translate_to_old(alloc, &bundle),
            cause => Ok(Err(TurnedDown::Untranslated(cause))),
        },
    }
}

/// The same, where the bundle and the other one are there at once.
fn translate_to_old(
    alloc: Global,
    bundle: &Bundle7,
) -> Result<Result<Telling, TurnedDown>, AllocError>
    requires { IsLegal7 bundle.now }
    ensures said { IfOk result (Owes (converted7 bundle.now) tt) }
    ensures memory { OnErr result (to_old_refusal bundle.now ≡ None) }
{
    match to_old(alloc, bundle) {
        Ok(there) => Ok(Ok(Telling::line(encode6(alloc, &there)?))),
        Err(refused) => match refused {
            Refused::Memory => Err(AllocError),
            cause => Ok(Err(TurnedDown::Untranslated(cause))),
        },
    }
}

/// The line of a bundle with these octets, or there is no room for its blocks.
fn line_of(octets: Option<Octets>) -> Result<Telling, TurnedDown>
    ensures { Owes (said_octets octets) tt result }
{
    match octets {
        Some(octets) => Ok(Telling::line(octets)),
        None => Err(TurnedDown::Untranslated(Refused::TooManyBlocks)),
    }
}
