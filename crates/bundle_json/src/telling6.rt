//! Telling a bundle of version 6 part by part, out of its octets.
ghost use Rattle.std.specs.Prelude.{◌≡◌, ◌++◌, ◌<◌, ◌≤◌, ℕ, List, [], length, codes, if◌then◌else◌, IfOk, OnOk, true, false};
ghost use Rattle.std.specs.String.{string_bytes};
ghost use Rattle.serde_json.specs.Written.{compact_text};
ghost use Rattle.bundle6.specs.declared.bundle.Bundle6.{Bundle6};
ghost use Rattle.bundle6.specs.declared.primary.Primary6.{Primary6};
ghost use Rattle.bundle6.specs.Legal.{Spells6};
ghost use Rattle.bundle_json.specs.Json.{bundle6};
ghost use Rattle.bundle_json.specs.Frames.{head6, last_block};
ghost use Rattle.bundle_json.specs.Telling.{Left, Tells, steps_left, closing_text, head_text, primary_text};
ghost use Rattle.bundle_json.specs.Laid.{ShowsPrimary};

use crate::cut::{BLOCKS, BODY, LAST, REFS_END, write_between};
use crate::name::named;
use crate::shown::{Frame6, Head6, Rest, Two, write_name};
use crate::walk::{BlockView, PrimaryView, block, pair_at, part_of, primary};
use hex_text::write_hex;
use std::alloc::{AllocError, Global};

/// How many octets of a block are told at a time.
const PIECE: usize = 4096;

/// After how many octets of text a part ends, or after how many steps.
const PART: usize = 32_768;

/// What is told next.
#[derive(Clone, Copy)]
pub(crate) enum Stage {
    /// The beginning.
    Open,
    /// A block, and whether one stands before it; or after the last the primary block.
    Block {
        later: bool,
    },
    /// Octets of a block.
    Body {
        view: BlockView,
    },
    /// So many references of a block, whether one stands before them, and the place after the block.
    Refs {
        left: u64,
        later: bool,
        after: usize,
    },
    /// Nothing.
    Over,
}

/// Where the telling of a bundle stands. Its octets are handed in at each call, and are the same.
#[derive(Clone, Copy)]
pub struct Telling6 {
    pub(crate) primary: PrimaryView,
    pub(crate) at: usize,
    pub(crate) stage: Stage,
}

impl Telling6 {
    /// The telling of the bundle that these octets spell: its JSON text is left.
    pub fn new(octets: &[u8]) -> Telling6
        ensures left { (bundle : Bundle6) → Spells6 bundle octets.now
            → Left octets.now result (compact_text (bundle6 bundle)) }
        ensures some { 0 < steps_left octets.now result }
    {
        let (primary, at) = primary(octets);
        Telling6 {
            primary,
            at,
            stage: Stage::Open,
        }
    }

    /// Whether all was told.
    pub fn is_over(&self) -> bool
        ensures over { (octets rest : List ℕ) → Left octets self.now rest → result ≡ true → rest ≡ [] }
        ensures some { (octets : List ℕ) → result ≡ false → 0 < steps_left octets self.now }
    {
        match self.stage {
            Stage::Over => true,
            _ => false,
        }
    }

    /// Appends the next part of the text.
    pub fn tell(&mut self, octets: &[u8], text: &mut String) -> Result<(), AllocError>
        requires { 0 < steps_left octets.now self.old }
        ensures { (rest : List ℕ) → Left octets.now self.old rest → OnOk result
            (Tells octets.now self.old self.new (string_bytes text.old) (string_bytes text.new) rest) }
    {
        self.step(octets, text)?;
        'steps: for _ in 0..PART {
            if text.len() >= PART || self.is_over() {
                return Ok(());
            }
            self.step(octets, text)?;
        }
        Ok(())
    }

    /// A few octets of text more.
    fn step(&mut self, octets: &[u8], text: &mut String) -> Result<(), AllocError>
        requires { 0 < steps_left octets.now self.old }
        ensures { (rest : List ℕ) → Left octets.now self.old rest → OnOk result
            (Tells octets.now self.old self.new (string_bytes text.old) (string_bytes text.new) rest) }
    {
        match self.stage {
            Stage::Open => self.open(text),
            Stage::Block { later } => self.block(octets, later, text),
            Stage::Body { view } => self.body(octets, view, text),
            Stage::Refs { left, later, after } => self.refs(octets, left, later, after, text),
            Stage::Over => Ok(()),
        }
    }

    /// The beginning.
    fn open(&mut self, text: &mut String) -> Result<(), AllocError>
        requires { self.old.stage ≡ Stage.Open }
        ensures { (octets rest : List ℕ) → Left octets self.old rest → OnOk result
            (Tells octets self.old self.new (string_bytes text.old) (string_bytes text.new) rest) }
    {
        text.push_str(BLOCKS)?;
        self.stage = Stage::Block { later: false };
        Ok(())
    }

    /// The beginning of a block, or after the last the primary block.
    fn block(&mut self, octets: &[u8], later: bool, text: &mut String) -> Result<(), AllocError>
        requires { self.old.stage ≡ Stage.Block later }
        ensures { (rest : List ℕ) → Left octets.now self.old rest → OnOk result
            (Tells octets.now self.old self.new (string_bytes text.old) (string_bytes text.new) rest) }
    {
        if self.at >= octets.len() {
            write_primary(octets, &self.primary, text)?;
            self.stage = Stage::Over;
            return Ok(());
        }
        let view = block(octets, self.at);
        text.push_str(opening(later))?;
        self.at = view.body;
        self.stage = Stage::Body { view };
        Ok(())
    }

    /// Octets of a block in hex, or after them what stands before its references.
    fn body(&mut self, octets: &[u8], view: BlockView, text: &mut String) -> Result<(), AllocError>
        requires { self.old.stage ≡ Stage.Body view }
        ensures { (rest : List ℕ) → Left octets.now self.old rest → OnOk result
            (Tells octets.now self.old self.new (string_bytes text.old) (string_bytes text.new) rest) }
    {
        if self.at < view.after {
            let size = PIECE.min(view.after - self.at);
            write_hex(text, part_of(octets, self.at, size))?;
            self.at += size;
            return Ok(());
        }
        if view.count == 0 && view.after >= octets.len() {
            return self.close(octets, view, text);
        }
        write_head(text, view.flags, view.kind)?;
        self.at = view.refs;
        self.stage = Stage::Refs {
            left: view.count,
            later: false,
            after: view.after,
        };
        Ok(())
    }

    /// What stands after the octets of the last block, where it has no references.
    fn close(&mut self, octets: &[u8], view: BlockView, text: &mut String) -> Result<(), AllocError>
        requires stage { self.old.stage ≡ Stage.Body view }
        requires told { view.after ≤ self.old.at }
        requires last { (view.count ≡ 0) × (length octets.now ≤ view.after) }
        ensures { (rest : List ℕ) → Left octets.now self.old rest → OnOk result
            (Tells octets.now self.old self.new (string_bytes text.old) (string_bytes text.new) rest) }
    {
        let last = Frame6 {
            flags: view.flags,
            kind: view.kind,
        };
        write_closing(octets, &self.primary, last, text)?;
        self.at = view.after;
        self.stage = Stage::Over;
        Ok(())
    }

    /// A reference of a block, or after the last the end of the block.
    fn refs(
        &mut self,
        octets: &[u8],
        left: u64,
        later: bool,
        after: usize,
        text: &mut String,
    ) -> Result<(), AllocError>
        requires { self.old.stage ≡ Stage.Refs left later after }
        ensures { (rest : List ℕ) → Left octets.now self.old rest → OnOk result
            (Tells octets.now self.old self.new (string_bytes text.old) (string_bytes text.new) rest) }
    {
        if left == 0 {
            text.push_str(REFS_END)?;
            self.at = after;
            self.stage = Stage::Block { later: true };
            return Ok(());
        }
        let (pair, at) = pair_at(octets, self.at);
        text.push_str(comma(later))?;
        let name = named(*text.allocator(), self.primary.texts.lent(octets), pair)?;
        write_name(text, &name)?;
        self.at = at;
        self.stage = Stage::Refs {
            left: left - 1,
            later: true,
            after,
        };
        Ok(())
    }
}

/// What a block begins with.
fn opening(later: bool) -> &'static str
    ensures { result.now ≡ if later then codes ",{\"body\":\"" else codes "{\"body\":\"" }
{
    if later {
        r#",{"body":""#
    } else {
        r#"{"body":""#
    }
}

/// What stands before a reference.
fn comma(later: bool) -> &'static str
    ensures { result.now ≡ if later then codes "," else [] }
{
    if later { "," } else { "" }
}

/// What stands between the octets of a block and its references.
fn write_head(text: &mut String, flags: u64, kind: u8) -> Result<(), AllocError>
    ensures { OnOk result (string_bytes text.new ≡ string_bytes text.old ++ head_text flags kind) }
{
    let frame = Frame6 { flags, kind };
    let frame_text = frame.text(*text.allocator())?;
    write_between(text, frame_text.as_str(), BODY, REFS_END)
}

/// What stands after the blocks.
fn write_primary(octets: &[u8], view: &PrimaryView, text: &mut String) -> Result<(), AllocError>
    ensures { (primary : Primary6) → ShowsPrimary octets.now view.now primary
        → OnOk result (string_bytes text.new ≡ string_bytes text.old ++ primary_text primary) }
{
    let head_text = head(*text.allocator(), octets, view, None)?;
    write_between(text, head_text.as_str(), BLOCKS, "")
}

/// What stands after the octets of a last block without references.
fn write_closing(
    octets: &[u8],
    view: &PrimaryView,
    last: Frame6,
    text: &mut String,
) -> Result<(), AllocError>
    ensures { (primary : Primary6) → ShowsPrimary octets.now view.now primary
        → OnOk result (string_bytes text.new ≡ string_bytes text.old ++ closing_text last.flags last.kind primary) }
{
    let head_text = head(*text.allocator(), octets, view, Some(last))?;
    write_between(text, head_text.as_str(), LAST, "")
}

/// The text with the last block alone, without its octets, or with no block.
fn head(
    alloc: Global,
    octets: &[u8],
    view: &PrimaryView,
    last: Option<Frame6>,
) -> Result<String, AllocError>
    ensures { (primary : Primary6) → ShowsPrimary octets.now view.now primary
        → IfOk result (λ text. string_bytes text ≡ compact_text (head6 (last_block last) primary)) }
{
    let dictionary = view.texts.lent(octets);
    let head = Head6 {
        last,
        creation: Two(view.seconds, view.sequence),
        custodian: named(alloc, dictionary, view.names.custodian)?,
        rest: Rest {
            destination: named(alloc, dictionary, view.names.destination)?,
            flags: view.flags,
            fragment: view.fragment,
            lifetime: view.lifetime,
            report_to: named(alloc, dictionary, view.names.report_to)?,
            source: named(alloc, dictionary, view.names.source)?,
            version: 6,
        },
    };
    head.text(alloc)
}
