//! `cut` and `join` of a bundle of either version.
ghost use Rattle.std.specs.Prelude.{◌≡◌, ◌<◌, false, IfOk, OnOk};
ghost use Rattle.std.specs.String.{string_bytes};
ghost use Rattle.fragment_lines.specs.Lines.{Owes, Writes};
ghost use Rattle.bundle_runs.specs.Fragments.{piece_size, pieces_said, join_said, joins_left};
ghost use Rattle.bundle_runs.specs.Legal.{IsLegal};

use crate::front::Bundle;
use fragment_lines::{BundleJoiner, Telling, TurnedDown, cut6, cut7};
use std::alloc::{AllocError, Global};

/// The lines of the pieces of a bundle with so many octets of its payload, or why it is turned down.
pub fn cut(
    alloc: Global,
    bundle: Bundle,
    size: u64,
) -> Result<Result<Telling, TurnedDown>, AllocError>
    requires { IsLegal bundle }
    ensures { IfOk result (Owes (pieces_said size bundle) tt) }
{
    match bundle {
        Bundle::Six(bundle) => cut6(alloc, bundle, piece_size(size)),
        Bundle::Seven(bundle) => cut7(alloc, bundle, piece_size(size)),
    }
}

/// A piece has an octet at least.
fn piece_size(size: u64) -> u64
    ensures some { 0 < result }
    ensures is { result ≡ piece_size size }
{
    match size {
        0 => 1,
        _ => size,
    }
}

/// Writes what comes of a bundle beside the fragments that came before, of which the octets of a whole are
/// left to be told; or says why it is turned down.
pub fn join(
    joiner: &mut BundleJoiner,
    text: &mut String,
    bundle: Bundle,
) -> Result<Result<Telling, TurnedDown>, AllocError>
    requires legal { IsLegal bundle }
    requires memory { joiner.old.spent ≡ false }
    ensures said { IfOk result (Writes (join_said joiner.old.joins bundle)
        (string_bytes text.old) (string_bytes text.new) joiner.new.joins) }

    // Also where the bundle is turned down.
    ensures left { OnOk result (joiner.new.joins ≡ joins_left joiner.old.joins bundle) }
    ensures memory { OnOk result (joiner.new.spent ≡ false) }
{
    match bundle {
        Bundle::Six(bundle) => joiner.join6(text, bundle),
        Bundle::Seven(bundle) => joiner.join7(text, bundle),
    }
}
