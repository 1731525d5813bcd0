//! The octets of the bundle that stands for a record.

ghost use Rattle.std.specs.Prelude.{◌≡◌, ◌<◌, ◌^◌, length, true, IfOk, OnErr};
ghost use Rattle.translate.specs.Sound.{IsSound};
ghost use Rattle.translate.specs.View6.{fits6};
ghost use Rattle.translate.specs.View7.{fits7};
ghost use Rattle.fragment_lines.specs.Lines.{spelled_old, spelled_new};

use bundle_meaning::Full;
use bundle6::encode6;
use bundle7::encode7;
use endpoint::Octets;
use std::alloc::{AllocError, Global};
use translate::{ViewRefused, sized6, view6, view6_is_legal, view7};

/// The octets of the version 6 bundle that stands for a record, where there is room for its blocks. The
/// record is let go before they are written.
pub fn spelled_old(alloc: Global, full: Full) -> Result<Option<Octets>, AllocError>
    requires { IsSound full }
    ensures exact { IfOk result (λ octets. octets ≡ spelled_old full) }

    // Memory is wanted only where there is room.
    ensures memory { OnErr result (fits6 full ≡ true) }
{
    match view6(alloc, &full) {
        Ok(bundle) => {
            drop(full);
            sized6(bundle.blocks.as_slice());
            view6_is_legal();
            Ok(Some(encode6(alloc, &bundle)?))
        }
        Err(ViewRefused::TooManyBlocks) => Ok(None),
        Err(ViewRefused::Memory) => Err(AllocError),
    }
}

/// The octets of the version 7 bundle that stands for a record, in the same way.
pub fn spelled_new(alloc: Global, full: Full) -> Result<Option<Octets>, AllocError>
    requires { IsSound full }
    ensures exact { IfOk result (λ octets. octets ≡ spelled_new full) }

    // Memory is wanted only where there is room.
    ensures memory { OnErr result (fits7 full ≡ true) }
{
    match view7(alloc, &full) {
        Ok(bundle) => {
            drop(full);
            Ok(Some(encode7(alloc, &bundle)?))
        }
        Err(ViewRefused::TooManyBlocks) => Ok(None),
        Err(ViewRefused::Memory) => Err(AllocError),
    }
}
