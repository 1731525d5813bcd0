//! The record that is to go on where a bundle came, and what it lacks.

ghost use Rattle.std.specs.Prelude.{◌≡◌, None, if◌then◌else◌, IfOk};
ghost use Rattle.translate.specs.Sound.{IsSound};
ghost use Rattle.block_types.specs.Bare.{bare_of};
ghost use Rattle.peer_cases.specs.Arrivals.{loses};

use block_types::{LeftOut, bare, left_out};
use bundle_meaning::Full;
use std::alloc::{AllocError, Global};

/// A record that is to go on.
#[derive(Debug, Drop)]
pub(crate) struct Onward {
    pub full: Full,
    /// What it lacks of the bundle that came, if it lacks something.
    pub left: Option<LeftOut>,
}

/// The record that goes on of one that came in version 6: bare, where blocks of the gateway's own are left
/// out, and else the same. Memory is wanted only for the types of what is left out.
pub(crate) fn goes_on(alloc: Global, is_bare: bool, full: Full) -> Result<Onward, AllocError>
    ensures full { IfOk result (λ onward. onward.full ≡ (if is_bare then bare_of full else full)) }
    ensures left { IfOk result (λ onward. onward.left ≡ (if is_bare then loses full else None)) }
    ensures sound { IsSound full → IfOk result (λ onward. IsSound onward.full) }
{
    if !is_bare {
        return Ok(Onward { full, left: None });
    }
    let left = lost(alloc, &full)?;
    Ok(Onward {
        full: bare(full),
        left,
    })
}

/// What a record loses where it is made bare, if that is anything.
fn lost(alloc: Global, full: &Full) -> Result<Option<LeftOut>, AllocError>
    ensures { IfOk result (λ left. left ≡ loses full.now) }
{
    let left = left_out(alloc, full)?;
    if left.kinds.len() > 0 || left.residue {
        Ok(Some(left))
    } else {
        Ok(None)
    }
}
