//! What is said of a refused file.

ghost use Rattle.std.specs.Prelude.{◌≡◌, ◌++◌, IfOk, OnOk};
ghost use Rattle.std.specs.List.{list_all};
ghost use Rattle.toml_parser.specs.Lexical as lexical;
ghost use Rattle.gate_config.specs.Lines as spec;

use crate::fault::{Refusal, Wanted, Within};
use crate::keys::Key;
use crate::output::{push_number, push_string};
use endpoint::Octets;
use std::alloc::{AllocError, Global};
use toml_parser::bytes::is_bare;

impl Refusal {
    /// The reason as a text: the place in the file, a colon and a space, and what is wanted there.
    /// Memory is wanted for the text.
    pub fn text(&self, alloc: Global) -> Result<Octets, AllocError>
        ensures { IfOk result (λ text. text ≡ spec.refusal_text self.now) }
    {
        let mut text = Vec::new(alloc);
        push_refusal(&mut text, self)?;
        Ok(Octets::from_vec(text))
    }
}

#[tactic(auto, unfolding(crate::specs::Lines::refusal_text))]
fn push_refusal(text: &mut Vec<u8>, refusal: &Refusal) -> Result<(), AllocError>
    ensures { OnOk result (text.new.items ≡ text.old.items ++ spec.refusal_text refusal.now) }
{
    match refusal {
        Refusal::Size => text.extend_from_slice(b"at most 1048576 octets are wanted"),
        Refusal::Utf8 => text.extend_from_slice(b"UTF-8 is wanted"),
        Refusal::Toml { line } => push_line(text, *line as u64),
        Refusal::NoKey { within, key } => push_unknown(text, *within, key.as_slice()),
        Refusal::Wrong {
            within,
            key,
            wanted,
        } => push_wrong(text, *within, *key, *wanted),
    }
}

#[tactic(auto, unfolding(crate::specs::Lines::line_text))]
fn push_line(text: &mut Vec<u8>, line: u64) -> Result<(), AllocError>
    ensures { OnOk result (text.new.items ≡ text.old.items ++ spec.line_text line) }
{
    text.extend_from_slice(b"line ")?;
    push_number(text, line)?;
    text.extend_from_slice(b": TOML is wanted")?;
    Ok(())
}

#[tactic(auto, unfolding(crate::specs::Lines::unknown_text))]
fn push_unknown(text: &mut Vec<u8>, within: Within, key: &[u8]) -> Result<(), AllocError>
    ensures { OnOk result (text.new.items ≡ text.old.items ++ spec.unknown_text within key.now) }
{
    push_within(text, within)?;
    push_key(text, key)?;
    text.extend_from_slice(b": there is no such key")
}

#[tactic(auto, unfolding(crate::specs::Lines::wrong_text))]
fn push_wrong(
    text: &mut Vec<u8>,
    within: Within,
    key: Key,
    wanted: Wanted,
) -> Result<(), AllocError>
    ensures { OnOk result (text.new.items ≡ text.old.items ++ spec.wrong_text within key wanted) }
{
    push_within(text, within)?;
    text.extend_from_slice(key.name().as_bytes())?;
    text.extend_from_slice(b": ")?;
    push_wanted(text, wanted)
}

#[tactic(auto, unfolding(crate::specs::Lines::within_text))]
fn push_within(text: &mut Vec<u8>, within: Within) -> Result<(), AllocError>
    ensures { OnOk result (text.new.items ≡ text.old.items ++ spec.within_text within) }
{
    match within {
        Within::File => Ok(()),
        Within::Table(section) => {
            text.extend_from_slice(section.key().name().as_bytes())?;
            text.extend_from_slice(b".")
        }
        Within::Contact { face, index } => {
            text.extend_from_slice(face.key().name().as_bytes())?;
            text.extend_from_slice(b".contact[")?;
            push_number(text, index as u64)?;
            text.extend_from_slice(b"].")
        }
    }
}

#[tactic(auto, unfolding(crate::specs::Lines::key_text))]
fn push_key(text: &mut Vec<u8>, key: &[u8]) -> Result<(), AllocError>
    ensures { OnOk result (text.new.items ≡ text.old.items ++ spec.key_text key.now) }
{
    if 0 < key.len() && are_bare(key) {
        text.extend_from_slice(key)
    } else {
        push_string(text, key)
    }
}

fn are_bare(key: &[u8]) -> bool
    ensures { result ≡ list_all lexical.is_bare key.now }
{
    key.iter().all(|octet| is_bare(*octet))
}

#[tactic(auto, unfolding(crate::specs::Lines::wanted_text))]
fn push_wanted(text: &mut Vec<u8>, wanted: Wanted) -> Result<(), AllocError>
    ensures { OnOk result (text.new.items ≡ text.old.items ++ spec.wanted_text wanted) }
{
    match wanted {
        Wanted::Whole { low, high } => push_range(text, low, high),
        other => text.extend_from_slice(other.words().as_bytes()),
    }
}

fn push_range(text: &mut Vec<u8>, low: u64, high: u64) -> Result<(), AllocError>
    ensures { OnOk result (text.new.items
        ≡ text.old.items ++ (spec.low_text low ++ spec.high_text high)) }
{
    push_low(text, low)?;
    push_high(text, high)
}

#[tactic(auto, unfolding(crate::specs::Lines::low_text))]
fn push_low(text: &mut Vec<u8>, low: u64) -> Result<(), AllocError>
    ensures { OnOk result (text.new.items ≡ text.old.items ++ spec.low_text low) }
{
    text.extend_from_slice(b"a whole number from ")?;
    push_number(text, low)
}

#[tactic(auto, unfolding(crate::specs::Lines::high_text))]
fn push_high(text: &mut Vec<u8>, high: u64) -> Result<(), AllocError>
    ensures { OnOk result (text.new.items ≡ text.old.items ++ spec.high_text high) }
{
    text.extend_from_slice(b" to ")?;
    push_number(text, high)?;
    text.extend_from_slice(b" is wanted")
}

impl Wanted {
    /// What is wanted, in words. Those of a range of numbers are `push_range`'s.
    #[tactic(auto, unfolding(crate::specs::Lines::fixed_text))]
    fn words(self) -> &'static str
        ensures { result.now ≡ spec.fixed_text self }
    {
        match self {
            Wanted::Table => "a table is wanted",
            Wanted::Endpoint => "an endpoint other than dtn:none is wanted",
            Wanted::Address => "an address of 1 to 64 octets is wanted",
            Wanted::Path => "a path of 1 to 4096 octets is wanted",
            Wanted::Accept => "address or port is wanted",
            Wanted::Age => "raise or keep is wanted",
            Wanted::ForeignBlocks => "wrap or drop is wanted",
            Wanted::Whole { .. } => "",
            Wanted::Tables => "1 to 4096 tables are wanted",
            Wanted::Moment => {
                "a date and time with seconds and offset, in whole ms, of the years 2000 to 9999 is wanted"
            }
            Wanted::NotBelowTimeout => "a whole number that isn't below timeout_ms is wanted",
            Wanted::AfterFrom => "a moment after from is wanted",
            Wanted::NotBeforeEnd => {
                "a moment that isn't before the end of the contact before is wanted"
            }
            Wanted::OtherNumber => "another number than engine is wanted",
            Wanted::NotWrap => "another number than 193 is wanted",
            Wanted::NotResidue => "another number than 192 and residue_block is wanted",
            Wanted::OtherPath => "another path than journal is wanted",
        }
    }
}
