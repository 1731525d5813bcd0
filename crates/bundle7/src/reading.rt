//! Reading bundles.

ghost use Rattle.std.specs.Prelude.{◌≡◌, ◌≤◌, ◌++◌, [], ℕ, List, length, take, Some, IfOk, IfErr, IfSome, IsErrAnd, Ok, Err};
ghost use Rattle.wire_fields.specs.Refusal.{Stop};
ghost use Rattle.wire_fields.specs.Reading.{read, IsSettled};
ghost use Rattle.wire_fields.specs.Gives.{Gives, IsOn, WantsOnlySpelled};
ghost use Rattle.bundle7.specs.declared.fault.Cause7.{Cause7};
ghost use Rattle.bundle7.specs.declared.bundle.Bundle7.{Bundle7};
ghost use Rattle.bundle7.specs.Cause.{refusal};
ghost use Rattle.bundle7.specs.Table.{blocks, bundle};
ghost use Rattle.bundle7.specs.Legal.{IsLegal7, Spells7, Refusal7};
ghost use Rattle.bundle7.specs.Known.{Knows};

use crate::block::{Block7, Blocks7, PAYLOAD, block_at};
use crate::bundle::Bundle7;
use crate::check::Checks;
use crate::fault::{Cause7, Fail7};
use crate::fields::mark;
use crate::judging::bundle_judged;
use crate::primary::primary_at;
use crate::seen::{MOST_EXTENSIONS, Seen};
use endpoint::Fragment;
use std::alloc::Global;

/// The octet that opens an array without a length.
pub(crate) const OPEN: u8 = 0x9F;
/// The octet that ends it.
pub(crate) const BREAK: u8 = 0xFF;

/// The bundle at the front of some octets, and how many of them it takes. More may follow.
///
/// A refusal names the first octet of the first field that isn't there as it should be, and the cause.
pub fn decode7(alloc: Global, bytes: &[u8]) -> Result<(Bundle7, usize), Fail7>
    // What is read is spelled so.
    ensures found { IfOk result (λ x. (x.1 ≤ length bytes.now) × Spells7 x.0 (take x.1 bytes.now)) }

    // What is read is legal.
    ensures legal { IfOk result (λ x. IsLegal7 x.0) }

    // What is spelled so is read, unless memory runs out.
    ensures only { (b : Bundle7) (k : ℕ) → k ≤ length bytes.now → Spells7 b (take k bytes.now)
        → Gives (λ b. b) refusal result (Ok (b, k)) }

    // What is refused has this refusal.
    ensures refused { IfErr result (λ e. IfSome (refusal e) (λ s. Refusal7 bytes.now s.0 s.1)) }

    // What has a refusal is refused with it.
    ensures refuses { (at : ℕ) (reason : Stop Cause7) → Refusal7 bytes.now at reason
        → IsErrAnd result (λ e. refusal e ≡ Some (at, reason)) }

    // Memory is wanted only where a bundle is spelled.
    ensures memory { result ≡ Err Fail7.Memory
        → (b : Bundle7) × (k : ℕ) × (k ≤ length bytes.now) × Spells7 b (take k bytes.now) }

    // A bundle, or a refusal other than the end of the octets, stays however they go on.
    ensures stays { (more : List ℕ) → IsSettled (read (bundle 64) bytes.now 0)
        → Gives (λ b. b) refusal result (read (bundle 64) (bytes.now ++ more) 0) }

    // All but memory is one function of the octets.
    ensures exact { Gives (λ b. b) refusal result (read (bundle 64) bytes.now 0) }
{
    decoded(alloc, bytes, 0, MOST_EXTENSIONS)
}

/// The bundle at a place, which is judged where memory ran out.
fn decoded(alloc: Global, text: &[u8], at: usize, most: u64) -> Result<(Bundle7, usize), Fail7>
    requires place { at ≤ length text.now }
    requires few { most ≤ 64 }
    ensures exact { Gives (λ b. b) refusal result (read (bundle most) text.now at) }
    ensures wants { WantsOnlySpelled refusal result (read (bundle most) text.now at) }
{
    match bundle_at(alloc, text, at, most, Checks::Untested) {
        Err(Fail7::Memory) => {
            bundle_judged(text, at, most)?;
            Err(Fail7::Memory)
        }
        told => told,
    }
}

/// The bundle at a place, with at most so many extension blocks.
#[tactic(auto, unfolding(crate::specs::Table::bundle))]
pub(crate) fn bundle_at(
    alloc: Global,
    text: &[u8],
    at: usize,
    most: u64,
    checks: Checks,
) -> Result<(Bundle7, usize), Fail7>
    requires place { at ≤ length text.now }
    requires few { most ≤ 64 }
    requires knows { Knows checks (read (bundle most) text.now at) }
    ensures within { IfOk result (λ x. IsOn at text.now x.1) }
    ensures exact { Gives (λ b. b) refusal result (read (bundle most) text.now at) }
{
    let (_, at) = mark(text, at, OPEN, Cause7::Start)?;
    let (primary, at) = primary_at(text, at, checks)?;
    let ((exts, payload), at) = blocks_at(alloc, text, at, primary.fragment, most, checks)?;
    let (_, at) = mark(text, at, BREAK, Cause7::Break)?;
    let bundle = Bundle7 {
        primary: primary.owned(alloc)?,
        exts: Blocks7::from_vec(exts),
        payload,
    };
    Ok((bundle, at))
}

/// Extension blocks, of which at most so many may stand here, and the payload block after them.
fn blocks_at(
    alloc: Global,
    text: &[u8],
    at: usize,
    fragment: Option<Fragment>,
    most: u64,
    checks: Checks,
) -> Result<((Vec<Block7>, Block7), usize), Fail7>
    requires place { at ≤ length text.now }
    requires few { most ≤ 64 }
    requires knows { Knows checks (read (blocks fragment most []) text.now at) }
    ensures within { IfOk result (λ x. IsOn at text.now x.1) }
    ensures exact { Gives (λ b. (b.0.items, b.1)) refusal result (read (blocks fragment most []) text.now at) }
{
    let mut exts = Vec::new(alloc);
    let mut seen = Seen::none();
    let mut next = at;
    'extensions: for i in 0..most {
        let (lent, after) = block_at(text, next, fragment, most - i, &seen, checks)?;
        let block = lent.owned(alloc)?;
        next = after;
        if block.kind == PAYLOAD {
            return Ok(((exts, block), next));
        }
        seen.push(block.kind, block.number);
        exts.push(block)?;
    }
    let (lent, end) = block_at(text, next, fragment, 0, &seen, checks)?;
    Ok(((exts, lent.owned(alloc)?), end))
}
