//! Reading a waybill, a function for each field that has a condition and for each group.

ghost use Rattle.std.specs.Prelude.{◌≡◌, ◌≤◌, ◌<◌, ◌+◌, ◌==◌, ℕ, List, [], ◌∷◌, ◌++◌, length, IfOk, IfErr, IfSome, Ok, Err, slice_range, option_map, option_copied};
ghost use Rattle.wire_fields.specs.Format.{Spells};
ghost use Rattle.wire_fields.specs.Refusal.{Stop, because, Refusal, Begins};
ghost use Rattle.wire_fields.specs.Whole.{WholeRefusal, read_whole};
ghost use Rattle.wire_fields.specs.Reading.{read, IsSettled};
ghost use Rattle.wire_fields.specs.Words.{exact_octet, optional, test};
ghost use Rattle.wire_fields.specs.Gives.{Gives, GivesWhole, IsOn};
ghost use Rattle.waybill.specs.Cause.{refusal};
ghost use Rattle.waybill.specs.Table.{Bill, last_of, sum_of, sender_lead, sender, name, total, part, seal_count, front, item_kind, item_number, item, check, seal, seals_listed, items_listed, waybill, front_of, bill_of, has_goods, has_number, is_part, kind_needs};

use crate::fault::{Cause, Fail};
use crate::fields::{read_number, read_octet, read_octets};
use crate::waybill::{Front, Item, Part, Waybill};
use std::alloc::Global;
use wire_fields::{UnsignedOrText, unsigned_or_text_at};

/// The first octet of each waybill.
const MARK: u8 = 0x57;

/// How many items may stand before the last.
const MOST: u64 = 3;

/// Reads the waybill at the front, and how many octets it has. More may follow.
pub fn decode<'a>(alloc: Global, bytes: &'a [u8]) -> Result<(Waybill<'a>, usize), Fail>
    // What is read is spelled so.
    ensures found { IfOk result (λ x. Begins (waybill 3) bytes.now x.1 (bill_of x.0)) }
    // What is spelled so is read, unless memory runs out.
    ensures only { (b : Bill) (k : ℕ) → Begins (waybill 3) bytes.now k b → Gives bill_of refusal result (Ok (b, k)) }
    // What is refused has this refusal.
    ensures refused { IfErr result (λ e. IfSome (refusal e) (λ s. Refusal (waybill 3) [] bytes.now s.0 s.1)) }
    // What has a refusal is refused with it, unless memory runs out.
    ensures refuses { (at : ℕ) (s : Stop Cause) → Refusal (waybill 3) [] bytes.now at s → Gives bill_of refusal result (Err (at, s)) }
    // A waybill, or a refusal other than the end of the input, stays however the octets go on.
    ensures stays { (more : List ℕ) → IsSettled (read (waybill 3) bytes.now 0) → Gives bill_of refusal result (read (waybill 3) (bytes.now ++ more) 0) }
{
    read_waybill(alloc, bytes, 0, MOST)
}

/// Reads a waybill after which nothing follows.
pub fn decode_whole<'a>(alloc: Global, bytes: &'a [u8]) -> Result<Waybill<'a>, Fail>
    // What is read is spelled so.
    ensures found { IfOk result (λ w. Spells (waybill 3) [] bytes.now (bill_of w)) }
    // What is spelled so is read, unless memory runs out.
    ensures only { (b : Bill) → Spells (waybill 3) [] bytes.now b → GivesWhole bill_of refusal result (Ok b) }
    // What is refused has this refusal.
    ensures refused { IfErr result (λ e. IfSome (refusal e) (λ s. WholeRefusal (waybill 3) Cause.Trailing bytes.now s.0 s.1)) }
    // What has a refusal is refused with it, unless memory runs out.
    ensures refuses { (at : ℕ) (s : Stop Cause) → WholeRefusal (waybill 3) Cause.Trailing bytes.now at s → GivesWhole bill_of refusal result (Err (at, s)) }
{
    read_all(alloc, bytes)
}

fn read_all<'a>(alloc: Global, bytes: &'a [u8]) -> Result<Waybill<'a>, Fail>
    ensures { GivesWhole bill_of refusal result (read_whole (waybill 3) Cause.Trailing bytes.now) }
{
    let (bill, end) = read_waybill(alloc, bytes, 0, MOST)?;
    if end != bytes.len() {
        return Err(Cause::Trailing.at(end));
    }
    Ok(bill)
}

#[tactic(auto, unfolding(crate::specs::Table::waybill))]
fn read_waybill<'a>(
    alloc: Global,
    text: &'a [u8],
    at: usize,
    most: u64,
) -> Result<(Waybill<'a>, usize), Fail>
    requires { at ≤ length text.now }
    ensures within { IfOk result (λ x. IsOn at text.now x.1) }
    ensures exact { Gives bill_of refusal result (read (waybill most) text.now at) }
{
    let (front, after_front) = read_front(text, at)?;
    let (items, after_items) = read_items(alloc, text, after_front, most)?;
    let (_, after_check) = read_check(text, after_items, at)?;
    let (seals, end) = read_seals(alloc, text, after_check, front.seals)?;
    Ok((
        Waybill {
            front,
            items,
            seals,
        },
        end,
    ))
}

// ---- the front

fn read_mark(text: &[u8], at: usize) -> Result<(u8, usize), Fail>
    requires { at ≤ length text.now }
    ensures within { IfOk result (λ x. IsOn at text.now x.1) }
    ensures exact { Gives (λ b. b) refusal result (read (exact_octet 0x57 Cause.Mark) text.now at) }
{
    let (octet, after) = read_octet(text, at, Cause::Mark)?;
    if octet != MARK {
        return Err(Cause::Mark.at(at));
    }
    Ok((octet, after))
}

fn read_seal_count(text: &[u8], at: usize) -> Result<(u8, usize), Fail>
    requires { at ≤ length text.now }
    ensures within { IfOk result (λ x. IsOn at text.now x.1) }
    ensures exact { Gives (λ n. n) refusal result (read seal_count text.now at) }
{
    let (count, after) = read_octet(text, at, Cause::Count)?;
    if count >= 16 {
        return Err(Cause::Count.at(at));
    }
    Ok((count, after))
}

fn read_sender_lead(text: &[u8], at: usize) -> Result<(UnsignedOrText, usize), Fail>
    requires { at ≤ length text.now }
    ensures within { IfOk result (λ x. IsOn at text.now x.1) }
    ensures exact { Gives (λ lead. lead) refusal result (read sender_lead text.now at) }
{
    match unsigned_or_text_at(text, at) {
        Ok((UnsignedOrText::Unsigned(0), after)) => Ok((UnsignedOrText::Unsigned(0), after)),
        Ok((UnsignedOrText::Text(count), after)) if 0 < count && count < 9 => {
            Ok((UnsignedOrText::Text(count), after))
        }
        Ok(_) => Err(Cause::Sender.at(at)),
        Err(miss) => Err(Cause::Sender.missed(at, miss)),
    }
}

#[tactic(auto, unfolding(crate::specs::Table::sender))]
fn read_sender(text: &[u8], at: usize) -> Result<(Option<&[u8]>, usize), Fail>
    requires { at ≤ length text.now }
    ensures within { IfOk result (λ x. IsOn at text.now x.1) }
    ensures exact { Gives option_copied refusal result (read sender text.now at) }
{
    let (lead, at) = read_sender_lead(text, at)?;
    match lead {
        UnsignedOrText::Unsigned(_) => Ok((None, at)),
        UnsignedOrText::Text(count) => {
            let (octets, at) = read_octets(text, at, count, Cause::Sender)?;
            Ok((Some(octets), at))
        }
    }
}

fn read_total(text: &[u8], at: usize, offset: u64) -> Result<(u64, usize), Fail>
    requires { at ≤ length text.now }
    ensures within { IfOk result (λ x. IsOn at text.now x.1) }
    ensures exact { Gives (λ n. n) refusal result (read (total offset) text.now at) }
{
    let (total, after) = read_number(text, at)?;
    if offset >= total {
        return Err(Cause::Range.at(at));
    }
    Ok((total, after))
}

#[tactic(auto, unfolding(crate::specs::Table::part))]
fn read_part(text: &[u8], at: usize) -> Result<(Part, usize), Fail>
    requires { at ≤ length text.now }
    ensures within { IfOk result (λ x. IsOn at text.now x.1) }
    ensures exact { Gives (λ p. p) refusal result (read part text.now at) }
{
    let (offset, at) = read_number(text, at)?;
    let (total, at) = read_total(text, at, offset)?;
    Ok((Part { offset, total }, at))
}

/// A part stands there only where the flags say so.
fn read_optional_part(text: &[u8], at: usize, flags: u64) -> Result<(Option<Part>, usize), Fail>
    requires { at ≤ length text.now }
    ensures within { IfOk result (λ x. IsOn at text.now x.1) }
    ensures exact { Gives (λ p. p) refusal result (read (optional (is_part flags) part) text.now at) }
{
    if flags % 2 == 1 {
        let (part, after) = read_part(text, at)?;
        Ok((Some(part), after))
    } else {
        Ok((None, at))
    }
}

/// The octets since a place are as many as were announced. A field of 0 octets.
fn read_front_end(text: &[u8], at: usize, start: usize, size: u64) -> Result<((), usize), Fail>
    requires place { at ≤ length text.now }
    requires order { start ≤ at }
    ensures within { IfOk result (λ x. IsOn at text.now x.1) }
    ensures exact { Gives (λ _. tt) refusal result (read (test (at == start + size) Cause.FrontEnd) text.now at) }
{
    if (at - start) as u64 != size {
        return Err(Cause::FrontEnd.at(at));
    }
    Ok(((), at))
}

#[tactic(auto, unfolding(crate::specs::Table::front))]
fn read_front(text: &[u8], at: usize) -> Result<(Front<'_>, usize), Fail>
    requires { at ≤ length text.now }
    ensures within { IfOk result (λ x. IsOn at text.now x.1) }
    ensures exact { Gives front_of refusal result (read front text.now at) }
{
    let (_, at) = read_mark(text, at)?;
    let (seals, at) = read_seal_count(text, at)?;
    let (flags, at) = read_number(text, at)?;
    let (size, start) = read_number(text, at)?;
    let (sender, at) = read_sender(text, start)?;
    let (part, at) = read_optional_part(text, at, flags)?;
    let (_, at) = read_front_end(text, at, start, size)?;
    Ok((
        Front {
            seals,
            flags,
            sender,
            part,
        },
        at,
    ))
}

// ---- items

fn has_goods_among(items: &[Item]) -> bool
    ensures { result ≡ has_goods items.now }
{
    items.iter().any(|item| item.kind % 2 == 1)
}

fn has_number_among(number: u64, items: &[Item]) -> bool
    ensures { result ≡ has_number number items.now }
{
    items.iter().any(|item| item.number == number)
}

/// The first condition on the kind of an item that fails.
fn fault_of_kind(kind: u8, left: u64, earlier: &[Item]) -> Option<Cause>
    ensures { result ≡ kind_needs left earlier.now kind }
{
    if kind >= 4 {
        Some(Cause::Kind)
    } else if kind % 2 == 1 && has_goods_among(earlier) {
        Some(Cause::SecondGoods)
    } else if kind < 2 && left == 0 {
        Some(Cause::TooManyItems)
    } else {
        None
    }
}

fn read_item_kind(text: &[u8], at: usize, left: u64, earlier: &[Item]) -> Result<(u8, usize), Fail>
    requires { at ≤ length text.now }
    ensures within { IfOk result (λ x. IsOn at text.now x.1) }
    ensures exact { Gives (λ k. k) refusal result (read (item_kind left earlier.now) text.now at) }
{
    let (kind, after) = read_octet(text, at, Cause::Kind)?;
    match fault_of_kind(kind, left, earlier) {
        Some(cause) => Err(cause.at(at)),
        None => Ok((kind, after)),
    }
}

fn read_item_number(text: &[u8], at: usize, earlier: &[Item]) -> Result<(u64, usize), Fail>
    requires { at ≤ length text.now }
    ensures within { IfOk result (λ x. IsOn at text.now x.1) }
    ensures exact { Gives (λ n. n) refusal result (read (item_number earlier.now) text.now at) }
{
    let (number, after) = read_number(text, at)?;
    if has_number_among(number, earlier) {
        return Err(Cause::Repeated.at(at));
    }
    Ok((number, after))
}

#[tactic(auto, unfolding(crate::specs::Table::item))]
fn read_item(text: &[u8], at: usize, left: u64, earlier: &[Item]) -> Result<(Item, usize), Fail>
    requires { at ≤ length text.now }
    ensures within { IfOk result (λ x. IsOn at text.now x.1) }
    ensures exact { Gives (λ i. i) refusal result (read (item left earlier.now) text.now at) }
{
    let (kind, at) = read_item_kind(text, at, left, earlier)?;
    let (number, at) = read_item_number(text, at, earlier)?;
    let (size, at) = read_number(text, at)?;
    let (_, at) = read_octets(text, at, size, Cause::Number)?;
    Ok((Item { kind, number }, at))
}

/// All items up to the last, before which at most so many may stand.
fn read_items(alloc: Global, text: &[u8], at: usize, most: u64) -> Result<(Vec<Item>, usize), Fail>
    requires { at ≤ length text.now }
    ensures within { IfOk result (λ x. IsOn at text.now x.1) }
    ensures exact { Gives (λ v. v.items) refusal result (read (items_listed most) text.now at) }
{
    let mut items = Vec::new(alloc);
    let mut after = at;
    'items: for i in 0..most {
        let (item, next) = read_item(text, after, most - i, &items)?;
        items.push(item)?;
        after = next;
        if item.kind >= 2 {
            return Ok((items, after));
        }
    }
    let (item, end) = read_item(text, after, 0, &items)?;
    items.push(item)?;
    Ok((items, end))
}

// ---- the end

fn sum(octets: &[u8]) -> u8
    ensures { result ≡ sum_of octets.now }
{
    octets.iter().fold(0, |sum, octet| sum ^ *octet)
}

fn read_check(text: &[u8], at: usize, start: usize) -> Result<(u8, usize), Fail>
    requires place { at ≤ length text.now }
    requires order { start ≤ at }
    ensures within { IfOk result (λ x. IsOn at text.now x.1) }
    ensures exact { Gives (λ b. b) refusal result (read (check start) text.now at) }
{
    let (octet, after) = read_octet(text, at, Cause::Check)?;
    if octet != sum(&text[start..at]) {
        return Err(Cause::Check.at(at));
    }
    Ok((octet, after))
}

/// One seal more. Of the earlier ones only the last counts.
fn read_seal(text: &[u8], at: usize, least: u64) -> Result<(u64, usize), Fail>
    requires { at ≤ length text.now }
    ensures within { IfOk result (λ x. IsOn at text.now x.1) }
    ensures exact { (earlier : List ℕ) → last_of 0 earlier ≡ least → Gives (λ n. n) refusal result (read (seal earlier) text.now at) }
{
    let (number, after) = read_number(text, at)?;
    if number < least {
        return Err(Cause::Order.at(at));
    }
    Ok((number, after))
}

fn read_seals(alloc: Global, text: &[u8], at: usize, count: u8) -> Result<(Vec<u64>, usize), Fail>
    requires { at ≤ length text.now }
    ensures within { IfOk result (λ x. IsOn at text.now x.1) }
    ensures exact { Gives (λ v. v.items) refusal result (read (seals_listed count) text.now at) }
{
    let mut seals = Vec::new(alloc);
    let mut least = 0;
    let mut after = at;
    'seals: for _ in 0..count {
        let (seal, next) = read_seal(text, after, least)?;
        seals.push(seal)?;
        least = seal;
        after = next;
    }
    Ok((seals, after))
}
