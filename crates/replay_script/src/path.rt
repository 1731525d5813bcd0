//! The line `path`.

ghost use Rattle.std.specs.Prelude.{◌≡◌, is_some};
ghost use Rattle.std.specs.Option.{option_map};
ghost use Rattle.replay_script.specs.Events.{path_words, path_numbers, gate_of};
ghost use Rattle.replay_script.specs.Ties.{path_value, is_gate_text};

use crate::numeral::{number, number_in};
use crate::words::Words;
use endpoint::{ipn_named, is_ssp};

/// The words of a line `path` after the first. One that gives no cap has the timeout for it.
#[derive(Clone, Copy, Debug)]
pub(crate) struct PathTexts<'a> {
    pub gate: &'a [u8],
    pub segment: &'a [u8],
    pub timeout: &'a [u8],
    pub limit: &'a [u8],
    pub cut: &'a [u8],
    pub start: &'a [u8],
    pub cap: &'a [u8],
}

/// The numbers of a line `path`.
#[derive(Clone, Copy, Debug)]
pub(crate) struct PathNumbers {
    pub segment: u64,
    pub timeout: u64,
    pub limit: u64,
    pub cut: u64,
    pub start: u64,
    pub cap: u64,
}

/// The fewest octets of a segment's data.
pub(crate) const LEAST_SEGMENT: u64 = 512;
/// The most.
pub(crate) const MOST_SEGMENT: u64 = 8_192;
/// The longest wait in ms.
pub(crate) const WAIT: u64 = 3_600_000;
/// The most times that a segment may be sent.
pub(crate) const LIMIT: u64 = 100;
/// The most octets of a payload that a gate may leave uncut.
const CUT: u64 = 4_000_000;

impl<'a> PathTexts<'a> {
    /// The words of a line after the first, where they are as many as `path` has.
    pub fn of(words: Words<'a>) -> Option<PathTexts<'a>>
        ensures { option_map path_value result ≡ path_words words.entry }
    {
        let mut words = words;
        let gate = words.next()?;
        let segment = words.next()?;
        let timeout = words.next()?;
        let limit = words.next()?;
        let cut = words.next()?;
        let start = words.next()?;
        let without_cap = PathTexts {
            gate,
            segment,
            timeout,
            limit,
            cut,
            start,
            cap: timeout,
        };
        let Some(cap) = words.next() else {
            return Some(without_cap);
        };
        if words.next().is_some() {
            return None;
        }
        Some(PathTexts { cap, ..without_cap })
    }

    /// The numbers, where all are such and in their ranges.
    #[tactic(auto, unfolding(crate::specs::Events::path_numbers))]
    pub fn numbers(&self) -> Option<PathNumbers>
        ensures { result ≡ path_numbers (path_value self.now) }
    {
        let segment = number_in(LEAST_SEGMENT, MOST_SEGMENT, self.segment)?;
        let timeout = number_in(1, WAIT, self.timeout)?;
        let limit = number_in(1, LIMIT, self.limit)?;
        let cut = number_in(1, CUT, self.cut)?;
        let start = number(self.start)?;
        let cap = number_in(timeout, WAIT, self.cap)?;
        Some(PathNumbers {
            segment,
            timeout,
            limit,
            cut,
            start,
            cap,
        })
    }
}

/// Whether a text names an endpoint, and not the null one. It takes no memory.
pub fn is_gate(text: &[u8]) -> bool
    ensures { result ≡ is_some (gate_of text.now) }
{
    is_gate_text(text)
}

/// The same, by the scheme.
#[tactic(auto, unfolding(crate::specs::Ties::is_gate_text))]
fn is_gate_text(text: &[u8]) -> bool
    ensures { result ≡ is_gate_text text.now }
{
    if let Some(ssp) = text.strip_prefix(b"dtn:".as_slice()) {
        return is_ssp(ssp);
    }
    if let Some(ssp) = text.strip_prefix(b"ipn:".as_slice()) {
        return ipn_named(ssp).is_some();
    }
    false
}
