//! What a file means, from its octets.

ghost use Rattle.std.specs.Prelude.{◌≡◌, ◌⊎◌, ◌==◌, IfOk, IfErr, Some, Ok, Err};
ghost use Rattle.toml.specs.View.{view};
ghost use Rattle.gate_config.specs.declared.fault.ConfigFault.TheVariants as faults;
ghost use Rattle.gate_config.specs.declared.file.GateFile.{GateFile};
ghost use Rattle.gate_config.specs.Lent.{refusal_for};
ghost use Rattle.gate_config.specs.Meaning.{file_of};
ghost use Rattle.gate_config.specs.Reading.{Means, Fails, HaveOneMeaning, MeansText};
ghost use Rattle.gate_config.specs.Reading.{FailsText, AnswersDocument};
ghost use Rattle.gate_config.specs.Reading.{IsOwned, line_of};

use crate::building::build;
use crate::fault::{ConfigFault, Flaw, Refusal};
use crate::file::GateFile;
use crate::judging::judge;
use endpoint::Octets;
use std::alloc::{AllocError, Global};
use toml::Value;

/// The most octets of a file.
pub const MOST_OCTETS: usize = 1_048_576;

/// What a file means, with its defaults filled in; or why it is refused, the first reason in the
/// order of the file's octets, its tables and their keys.
///
/// Memory may be wanted only for a file that isn't too long, is UTF-8 and has more than white space
/// and comments, since the reader of TOML takes memory for its values. Of a text that is TOML the
/// refusal is found without memory, and memory is taken after that: for the values, or for the
/// octets of a key that isn't known.
pub fn read(alloc: Global, text: &[u8]) -> Result<GateFile, ConfigFault>
    // What is read is what the file means.
    ensures means { IfOk result (Means text.now) }
    // A refusal is the first that holds, and memory is wanted only by a text that is written.
    ensures fails { IfErr result (Fails text.now) }
    // A file that means something isn't refused.
    ensures only { (file : GateFile) → Means text.now file
        → (result ≡ Ok file) ⊎ (result ≡ Err ConfigFault.Memory) }
{
    read_octets(alloc, text)
}

fn read_octets(alloc: Global, text: &[u8]) -> Result<GateFile, ConfigFault>
    ensures means { IfOk result (Means text.now) }
    ensures fails { IfErr result (Fails text.now) }
{
    if text.len() > MOST_OCTETS {
        return Err(ConfigFault::Refused(Refusal::Size));
    }
    match std::str::from_utf8(text) {
        Ok(text) => read_text(alloc, text),
        Err(_) => Err(ConfigFault::Refused(Refusal::Utf8)),
    }
}

/// No octets mean two things.
pub fn has_one_meaning()
    ensures { HaveOneMeaning }
{}

fn read_text(alloc: Global, text: &str) -> Result<GateFile, ConfigFault>
    ensures means { IfOk result (MeansText text.now) }
    ensures fails { IfErr result (FailsText text.now) }
{
    match toml::table_from_str(alloc, text) {
        Ok(table) => read_document(alloc, &Value::Table(table)),
        Err(error) => Err(match error.span() {
            Some(span) => ConfigFault::Refused(Refusal::Toml {
                line: line_after(&text.as_bytes()[..span.start]),
            }),
            None => ConfigFault::Memory,
        }),
    }
}

/// What a document means. Memory is wanted only by what isn't refused, and for the octets of a key
/// that isn't known.
fn read_document(alloc: Global, document: &Value) -> Result<GateFile, ConfigFault>
    ensures { AnswersDocument (view document.now) result }
{
    match judge(document) {
        Ok(()) => built(alloc, document),
        Err(flaw) => Err(flaw.owned(alloc)),
    }
}

fn built(alloc: Global, document: &Value) -> Result<GateFile, ConfigFault>
    ensures built { IfOk result (λ file. file ≡ file_of (Some (view document.now))) }
    ensures memory { IfErr result (λ fault. fault ≡ faults.Memory) }
{
    match build(alloc, document) {
        Ok(file) => Ok(file),
        Err(AllocError) => Err(ConfigFault::Memory),
    }
}

impl Flaw<'_> {
    /// The refusal, with octets of its own. Only a key that isn't known takes memory.
    fn owned(self, alloc: Global) -> ConfigFault
        ensures { IsOwned (refusal_for self.entry) result }
    {
        match self {
            Flaw::NoKey { within, key } => match Octets::from_slice(alloc, key.as_bytes()) {
                Ok(key) => ConfigFault::Refused(Refusal::NoKey { within, key }),
                Err(AllocError) => ConfigFault::Memory,
            },
            Flaw::Wrong {
                within,
                key,
                wanted,
            } => ConfigFault::Refused(Refusal::Wrong {
                within,
                key,
                wanted,
            }),
        }
    }
}

/// The line, from 1, in which the place after these octets lies.
fn line_after(before: &[u8]) -> usize
    ensures { result ≡ line_of before.now }
{
    let mut line = 1usize;
    'octets: for octet in before {
        if is_line_feed(*octet) {
            line += 1;
        }
    }
    line
}

fn is_line_feed(octet: u8) -> bool
    ensures { result ≡ (octet == 10) }
{
    octet == b'\n'
}
