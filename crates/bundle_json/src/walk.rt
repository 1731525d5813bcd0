//! The octets of a valid bundle of version 6, walked over where they lie: nothing of them is kept, and
//! nothing is refused. Of octets that spell none no contract here says anything: a field that isn't there
//! has no octets.
ghost use Rattle.std.specs.Prelude.{◌≡◌, ◌+◌, ◌<◌, ◌≤◌, ◌++◌, ℕ, List, [], length};
ghost use Rattle.endpoint.specs.declared.name.Endpoint.{Endpoint};
ghost use Rattle.wire_fields.specs.Words.{any_octet, any_number};
ghost use Rattle.bundle6.specs.declared.fault.Cause6.{Cause6};
ghost use Rattle.bundle6.specs.declared.primary.Primary6.{Primary6};
ghost use Rattle.bundle6.specs.declared.block.Block6.{Block6};
ghost use Rattle.bundle6.specs.Bits.{has_bit, without};
ghost use Rattle.bundle6.specs.Table.{offsets, four_names, dictionary, count_field, fragment, primary};
ghost use Rattle.wire_fields.specs.Words.{optional};
ghost use Rattle.wire_fields.specs.Format.{Spells};
ghost use Rattle.bundle_json.specs.Laid.{Walks, Same, IsPair, AreFour, LiesAt, AreRefs, ShowsPrimary, ShowsBlock, SpellsBlock, ShowsTexts, ValueOf, texts_in};

use bundle6::{has_bit, without};
use endpoint::Fragment;
use wire_fields::{number_at, octet_at};

/// The bit of a bundle's flags that says it is a fragment.
const FRAGMENT: u32 = 0;
/// The bit of a block's flags that marks the last block.
const LAST: u32 = 3;
/// The bit of a block's flags that says it has references.
const REFS: u32 = 6;

/// Two numbers that name an endpoint.
#[derive(Clone, Copy)]
pub(crate) struct Pair {
    pub(crate) scheme: u64,
    pub(crate) ssp: u64,
}

/// The four names of a primary block.
#[derive(Clone, Copy)]
pub(crate) struct Four {
    pub(crate) destination: Pair,
    pub(crate) source: Pair,
    pub(crate) report_to: Pair,
    pub(crate) custodian: Pair,
}

/// A primary block: its numbers, and where its dictionary lies.
#[derive(Clone, Copy)]
pub(crate) struct PrimaryView {
    pub(crate) flags: u64,
    pub(crate) names: Four,
    pub(crate) seconds: u64,
    pub(crate) sequence: u64,
    pub(crate) lifetime: u64,
    pub(crate) fragment: Option<Fragment>,
    pub(crate) texts: Texts,
}

/// Where the dictionary lies.
#[derive(Clone, Copy)]
pub(crate) struct Texts {
    pub(crate) from: usize,
    pub(crate) to: usize,
}

impl Texts {
    /// The dictionary, lent out of the octets; none of other octets.
    pub(crate) fn lent<'a>(&self, octets: &'a [u8]) -> &'a [u8]
        ensures { self.now.from ≤ self.now.to → self.now.to ≤ length octets.now
            → result.now ≡ texts_in octets.now self.now }
    {
        if self.from > self.to || self.to > octets.len() {
            return &octets[..0];
        }
        &octets[self.from..self.to]
    }
}

/// A block: its numbers, and where its references, its octets and the octets after it lie.
#[derive(Clone, Copy)]
pub(crate) struct BlockView {
    pub(crate) kind: u8,
    pub(crate) flags: u64,
    pub(crate) count: u64,
    pub(crate) refs: usize,
    pub(crate) body: usize,
    pub(crate) after: usize,
}

/// One octet.
fn octet(octets: &[u8], at: usize) -> (u8, usize)
    ensures { (cause : Cause6) → Walks (any_octet cause) Same octets.now at result }
{
    if at > octets.len() {
        return (0, at);
    }
    match octet_at(octets, at) {
        Ok(found) => found,
        Err(_) => (0, at),
    }
}

/// A number.
fn number(octets: &[u8], at: usize) -> (u64, usize)
    ensures { (cause : Cause6) → Walks (any_number cause) Same octets.now at result }
{
    if at > octets.len() {
        return (0, at);
    }
    match number_at(octets, at) {
        Ok(found) => found,
        Err(_) => (0, at),
    }
}

/// Two numbers.
pub(crate) fn pair_at(octets: &[u8], at: usize) -> (Pair, usize)
    ensures { Walks offsets IsPair octets.now at result }
{
    let (scheme, at) = number(octets, at);
    let (ssp, at) = number(octets, at);
    (Pair { scheme, ssp }, at)
}

/// Destination, source, report-to and custodian.
fn four_at(octets: &[u8], at: usize) -> (Four, usize)
    ensures { Walks four_names AreFour octets.now at result }
{
    let (destination, at) = pair_at(octets, at);
    let (source, at) = pair_at(octets, at);
    let (report_to, at) = pair_at(octets, at);
    let (custodian, at) = pair_at(octets, at);
    let names = Four {
        destination,
        source,
        report_to,
        custodian,
    };
    (names, at)
}

/// Offset and total of a fragment, where the flags say that the bundle is one.
fn part(octets: &[u8], at: usize, flags: u64) -> (Option<Fragment>, usize)
    ensures { Walks (optional (has_bit 0 flags) fragment) (λ found value. found ≡ value) octets.now at result }
{
    if !has_bit(flags, FRAGMENT) {
        return (None, at);
    }
    let (offset, at) = number(octets, at);
    let (total, at) = number(octets, at);
    (Some(Fragment { offset, total }), at)
}

/// The primary block.
pub(crate) fn primary(octets: &[u8]) -> (PrimaryView, usize)
    ensures { (dictionary front rest : List ℕ) (value : Primary6) → octets.now ≡ front ++ rest
        → Spells primary [] front (value, dictionary)
        → (texts_in octets.now result.0.texts ≡ dictionary)
        × ShowsPrimary octets.now result.0 value × LiesAt octets.now result.1 rest }
{
    let (_, at) = octet(octets, 0);
    let (flags, at) = number(octets, at);
    let (_, at) = number(octets, at);
    let (names, at) = four_at(octets, at);
    let (seconds, at) = number(octets, at);
    let (sequence, at) = number(octets, at);
    let (lifetime, at) = number(octets, at);
    let (texts, at) = dictionary(octets, at);
    let (fragment, at) = part(octets, at, flags);
    let view = PrimaryView {
        flags,
        names,
        seconds,
        sequence,
        lifetime,
        fragment,
        texts,
    };
    (view, at)
}

/// Where the dictionary lies.
fn dictionary(octets: &[u8], at: usize) -> (Texts, usize)
    ensures { (pairs : ValueOf four_names) → Walks (dictionary pairs) (ShowsTexts octets.now pairs) octets.now at result }
{
    let (size, from) = number(octets, at);
    let to = skip(octets, from, size);
    (Texts { from, to }, to)
}

/// So many octets, lent.
pub(crate) fn part_of(octets: &[u8], at: usize, size: usize) -> &[u8]
    ensures { (text rest : List ℕ) → length text ≡ size → LiesAt octets.now at (text ++ rest)
        → result.now ≡ text }
{
    if at > octets.len() || size > octets.len() - at {
        return &octets[..0];
    }
    &octets[at..at + size]
}

/// The place after so many octets.
fn skip(octets: &[u8], at: usize, size: u64) -> usize
    ensures { (text rest : List ℕ) → length text ≡ size → LiesAt octets.now at (text ++ rest)
        → (result ≡ at + size) × LiesAt octets.now result rest }
{
    if at > octets.len() || size > (octets.len() - at) as u64 {
        return at;
    }
    at + size as usize
}

/// The place after so many references.
fn skip_refs(octets: &[u8], at: usize, count: u64) -> usize
    ensures { (dictionary text rest : List ℕ) (refs : List Endpoint) → AreRefs dictionary text refs
        → count ≡ length refs → LiesAt octets.now at (text ++ rest)
        → (at + count ≤ result) × LiesAt octets.now result rest }
{
    // None are there that have no octets.
    if count > octets.len() as u64 {
        return at;
    }
    let mut after = at;
    'references: for _ in 0..count {
        let (_, next) = pair_at(octets, after);
        after = next;
    }
    after
}

/// How many references there are: none where the flags don't say that there are some.
fn count(octets: &[u8], at: usize, present: bool) -> (u64, usize)
    ensures { Walks (count_field present) Same octets.now at result }
{
    if present { number(octets, at) } else { (0, at) }
}

/// A block.
pub(crate) fn block(octets: &[u8], at: usize) -> BlockView
    ensures { (dictionary own rest : List ℕ) (value : Block6) → SpellsBlock dictionary own value
        → LiesAt octets.now at (own ++ rest)
        → ShowsBlock octets.now dictionary at result value × LiesAt octets.now result.after rest }
{
    let (kind, at) = octet(octets, at);
    let (flags, at) = number(octets, at);
    let (count, refs) = count(octets, at, has_bit(flags, REFS));
    let at = skip_refs(octets, refs, count);
    let (size, body) = number(octets, at);
    let after = skip(octets, body, size);
    BlockView {
        kind,
        flags: without(without(flags, REFS), LAST),
        count,
        refs,
        body,
        after,
    }
}
