//! Reading a bundle.

ghost use Rattle.std.specs.Prelude.{ℕ, ◌≡◌, ◌+◌, ◌-◌, ◌^◌, ◌<◌, ◌≤◌, List, [], ◌++◌, length, take, Some, Ok, Err, IfOk, IfErr, IfSome, IsErrAnd};
ghost use Rattle.wire_fields.specs.Reading.{read, IsSettled};
ghost use Rattle.wire_fields.specs.Refusal.{Stop};
ghost use Rattle.wire_fields.specs.Words.{until};
ghost use Rattle.wire_fields.specs.Gives.{Gives, IsOn, WantsOnlySpelled};
ghost use Rattle.bundle6.specs.declared.bundle.Bundle6.{Bundle6};
ghost use Rattle.bundle6.specs.Cause.{refusal};
ghost use Rattle.bundle6.specs.Table.{next_block, bundle};
ghost use Rattle.bundle6.specs.Legal.{Spells6, Refusal6};

use crate::block::{Blocks6, Seen, block_at};
use crate::bundle::Bundle6;
use crate::fault::{Cause6, Fail6};
use crate::judging::end_judged;
use crate::primary::primary_at;
use endpoint::{Fragment, Octets, Texts};
use std::alloc::Global;

/// The most blocks of another type than the payload. Own rule.
pub const MOST_OTHERS: u64 = 64;

/// The bundle at the front of some octets, and how many of them it takes. More may follow.
///
/// A refusal names the first octet of the first field that isn't there as it should be, and the cause.
/// Want of memory is answered only where a bundle is spelled: octets that spell none are refused
/// whatever memory there is, as [`crate::judge6`] refuses them.
pub fn decode6(alloc: Global, bytes: &[u8]) -> Result<(Bundle6, usize), Fail6>
    // What is read is a legal bundle, spelled so.
    ensures found { IfOk result (λ x. (x.1 ≤ length bytes.now) × Spells6 x.0 (take x.1 bytes.now)) }

    // What is spelled so is read, unless memory runs out.
    ensures only { (b : Bundle6) (k : ℕ) → k ≤ length bytes.now → Spells6 b (take k bytes.now)
        → Gives (λ bundle. bundle) refusal result (Ok (b, k)) }

    // What is refused has this refusal.
    ensures refused { IfErr result (λ e. IfSome (refusal e) (λ s. Refusal6 bytes.now s.0 s.1)) }

    // What has a refusal is refused with it.
    ensures refuses { (at : ℕ) (reason : Stop Cause6) → Refusal6 bytes.now at reason
        → IsErrAnd result (λ e. refusal e ≡ Some (at, reason)) }

    // Memory is wanted only where a bundle is spelled.
    ensures memory { result ≡ Err Fail6.Memory
        → (b : Bundle6) × (k : ℕ) × (k ≤ length bytes.now) × Spells6 b (take k bytes.now) }

    // A bundle, or a refusal other than the end of the input, stays however the octets go on.
    ensures stays { (more : List ℕ) → IsSettled (read (bundle 64) bytes.now 0)
        → Gives (λ bundle. bundle) refusal result (read (bundle 64) (bytes.now ++ more) 0) }
    ensures exact { Gives (λ bundle. bundle) refusal result (read (bundle 64) bytes.now 0) }
{
    decoded(alloc, bytes, MOST_OTHERS)
}

/// The bundle at the front. The octets are judged only where memory ran out, so that this costs
/// nothing where it doesn't.
fn decoded(alloc: Global, text: &[u8], most: u64) -> Result<(Bundle6, usize), Fail6>
    requires { most < 2 ^ 64 - 1 }
    ensures exact { Gives (λ bundle. bundle) refusal result (read (bundle most) text.now 0) }
    ensures wants { WantsOnlySpelled refusal result (read (bundle most) text.now 0) }
{
    match bundle_at(alloc, text, 0, most) {
        Err(Fail6::Memory) => {
            end_judged(text, most)?;
            Err(Fail6::Memory)
        }
        found => found,
    }
}

/// The bundle at a place, with at most so many blocks of another type than the payload.
#[tactic(auto, unfolding(crate::specs::Table::bundle))]
pub(crate) fn bundle_at(
    alloc: Global,
    text: &[u8],
    at: usize,
    most: u64,
) -> Result<(Bundle6, usize), Fail6>
    requires place { at ≤ length text.now }
    requires few { most < 2 ^ 64 - 1 }
    ensures within { IfOk result (λ x. IsOn at text.now x.1) }
    ensures exact { Gives (λ bundle. bundle) refusal result (read (bundle most) text.now at) }
{
    let ((primary, dictionary), at) = primary_at(alloc, text, at)?;
    let texts = Texts::new(alloc, Octets::from_slice(alloc, dictionary)?)?;
    let (blocks, at) = blocks_at(alloc, text, at, most, primary.fragment, &texts)?;
    Ok((Bundle6 { primary, blocks }, at))
}

/// The blocks up to the one that is marked as the last.
fn blocks_at(
    alloc: Global,
    text: &[u8],
    at: usize,
    most: u64,
    part: Option<Fragment>,
    dictionary: &Texts,
) -> Result<(Blocks6, usize), Fail6>
    requires place { at ≤ length text.now }
    requires few { most < 2 ^ 64 - 1 }
    ensures within { IfOk result (λ x. IsOn at text.now x.1) }
    ensures exact { Gives (λ blocks. blocks) refusal result
        (read (until (most + 1) (next_block most part dictionary.now) []) text.now at) }
{
    let mut found = Blocks6::new(alloc);
    let mut seen = Seen::NONE;
    let mut after = at;
    'reading: loop {
        let ((block, last), next) = block_at(alloc, text, after, most, part, dictionary, seen)?;
        seen = seen.with(block.kind);
        found.push(block)?;
        after = next;
        if last {
            return Ok((found, after));
        }
    }
}
