//! What `serde_json` writes of a bundle: the object with its last block alone or with none, a block without
//! its octets and references, and a name. What stays out goes in where the texts are cut.
ghost use Rattle.std.specs.Prelude.{◌≡◌, ◌++◌, [], Some, IfOk, OnOk};
ghost use Rattle.std.specs.String.{string_bytes};
ghost use Rattle.serde.specs.Event.{Log, Logs, field_key};
ghost use Rattle.serde.specs.declared.name.Case.TheVariants.{AsIs};
ghost use Rattle.serde_json.specs.Data.{string};
ghost use Rattle.serde_json.specs.Events.{SendsValue, SendsMembers};
ghost use Rattle.serde_json.specs.Sent.{IsTextOf};
ghost use Rattle.serde_json.specs.Written.{compact_text};
ghost use Rattle.bundle_json.specs.Json.{two, part};
ghost use Rattle.bundle_json.specs.Frames.{empty, one, last_block, said, rest_members, head6_shown, head7_shown, frame6, frame7};

use crate::ipn::send_ipn;
use crate::name::Spelled;
use endpoint::Fragment;
use serde::{Described, Serialize, Serializer};
use std::alloc::{AllocError, Global};

/// Two numbers, as an array.
#[derive(Clone, Copy, Drop)]
pub(crate) struct Two(pub(crate) u64, pub(crate) u64);

/// An array without items.
#[derive(Clone, Copy, Drop)]
struct Empty;

/// The last block of version 6, or none, as an array.
#[derive(Clone, Copy, Drop)]
struct Last6(Option<Frame6>);

/// The last block of version 7, as an array.
#[derive(Clone, Copy, Drop)]
struct Last7(Frame7);

/// A fragment: its offset and the total, or `null` where there is none.
#[derive(Clone, Copy, Drop)]
struct Part(Option<Fragment>);

/// What an object ends with in both versions: its members from the destination on.
#[derive(Drop)]
pub(crate) struct Rest {
    pub(crate) destination: Spelled,
    pub(crate) flags: u64,
    pub(crate) fragment: Option<Fragment>,
    pub(crate) lifetime: u64,
    pub(crate) report_to: Spelled,
    pub(crate) source: Spelled,
    pub(crate) version: u8,
}

/// A bundle of version 6 without its blocks, or with the last of them alone.
#[derive(Drop)]
pub(crate) struct Head6 {
    pub(crate) last: Option<Frame6>,
    pub(crate) creation: Two,
    pub(crate) custodian: Spelled,
    pub(crate) rest: Rest,
}

/// A bundle of version 7 with the last of its blocks alone.
#[derive(Drop)]
pub(crate) struct Head7 {
    pub(crate) last: Frame7,
    pub(crate) crc: u8,
    pub(crate) creation: Two,
    pub(crate) rest: Rest,
}

/// A block of version 6 without its octets and references.
#[derive(Clone, Copy, Drop)]
pub(crate) struct Frame6 {
    pub(crate) flags: u64,
    pub(crate) kind: u8,
}

/// A block of version 7 without its octets.
#[derive(Clone, Copy, Drop)]
pub(crate) struct Frame7 {
    pub(crate) crc: u8,
    pub(crate) flags: u64,
    pub(crate) kind: u64,
    pub(crate) number: u64,
}

// ---- their texts

impl Head6 {
    /// Its text.
    pub(crate) fn text(&self, alloc: Global) -> Result<String, AllocError>
        ensures { IfOk result (λ text. string_bytes text ≡ compact_text (head6_shown self.now)) }
    {
        json_text(alloc, self)
    }
}

impl Head7 {
    /// Its text.
    pub(crate) fn text(&self, alloc: Global) -> Result<String, AllocError>
        ensures { IfOk result (λ text. string_bytes text ≡ compact_text (head7_shown self.now)) }
    {
        json_text(alloc, self)
    }
}

impl Frame6 {
    /// Its text.
    pub(crate) fn text(&self, alloc: Global) -> Result<String, AllocError>
        ensures { IfOk result (λ text. string_bytes text ≡ compact_text (frame6 self.now.flags self.now.kind)) }
    {
        json_text(alloc, self)
    }
}

impl Frame7 {
    /// Its text.
    pub(crate) fn text(&self, alloc: Global) -> Result<String, AllocError>
        ensures { IfOk result (λ text. string_bytes text
            ≡ compact_text (frame7 self.now.crc self.now.flags self.now.kind self.now.number)) }
    {
        json_text(alloc, self)
    }
}

/// Writes a name, in quotes and with its escapes.
pub(crate) fn write_name(text: &mut String, name: &Spelled) -> Result<(), AllocError>
    ensures { OnOk result (string_bytes text.new ≡ string_bytes text.old ++ compact_text (string (said name.now))) }
{
    let written = name_text(*text.allocator(), name)?;
    text.push_str(written.as_str())
}

/// The text of a name.
fn name_text(alloc: Global, name: &Spelled) -> Result<String, AllocError>
    ensures { IfOk result (λ text. string_bytes text ≡ compact_text (string (said name.now))) }
{
    json_text(alloc, name)
}

/// The JSON text of a value. Nothing but want of memory refuses one.
fn json_text<T: Serialize>(alloc: Global, value: &T) -> Result<String, AllocError>
    ensures { IfOk result (λ text. (log : Log) × T.writes value.now (Some []) log × IsTextOf log (string_bytes text)) }
{
    match serde_json::to_string(alloc, value) {
        Ok(text) => Ok(text),
        Err(_) => Err(AllocError),
    }
}

// ---- what is sent

/// Sends a member of an object.
fn send<S: Serializer, T: Serialize>(out: &mut S, key: &str, value: &T) -> Result<(), S::Error>
    ensures { OnOk result ((named : Log) × Logs (S.written out.old) named (field_key key.now AsIs)
        × T.writes value.now named (S.written out.new)) }
{
    out.key(key)?;
    value.serialize(out)
}

impl Described for Spelled {
    ghost writes = { λ name. SendsValue (string (said name)) };
}

impl Serialize for Spelled {
    fn serialize<S: Serializer>(&self, out: &mut S) -> Result<(), S::Error> {
        match self {
            Spelled::Null => out.str("dtn:none"),
            Spelled::Ipn { node, service } => send_ipn(out, *node, *service),
            Spelled::Text(text) => out.str(text.as_str()),
        }
    }
}

impl Described for Two {
    ghost writes = { λ pair. SendsValue (two pair.0 pair.1) };
}

impl Serialize for Two {
    fn serialize<S: Serializer>(&self, out: &mut S) -> Result<(), S::Error> {
        out.begin_seq(Some(2))?;
        out.u64(self.0)?;
        out.u64(self.1)?;
        out.end_seq()
    }
}

impl Described for Empty {
    ghost writes = { λ _. SendsValue empty };
}

impl Serialize for Empty {
    fn serialize<S: Serializer>(&self, out: &mut S) -> Result<(), S::Error> {
        out.begin_seq(Some(0))?;
        out.end_seq()
    }
}

impl Described for Last6 {
    ghost writes = { λ last. SendsValue (last_block last.0) };
}

impl Serialize for Last6 {
    fn serialize<S: Serializer>(&self, out: &mut S) -> Result<(), S::Error> {
        match &self.0 {
            None => Empty.serialize(out),
            Some(frame) => {
                out.begin_seq(Some(1))?;
                frame.serialize(out)?;
                out.end_seq()
            }
        }
    }
}

impl Described for Last7 {
    ghost writes = { λ last. SendsValue (one (frame7 last.0.crc last.0.flags last.0.kind last.0.number)) };
}

impl Serialize for Last7 {
    fn serialize<S: Serializer>(&self, out: &mut S) -> Result<(), S::Error> {
        out.begin_seq(Some(1))?;
        self.0.serialize(out)?;
        out.end_seq()
    }
}

impl Described for Part {
    ghost writes = { λ p. SendsValue (part p.0) };
}

impl Serialize for Part {
    fn serialize<S: Serializer>(&self, out: &mut S) -> Result<(), S::Error> {
        match self.0 {
            None => out.unit(),
            Some(fragment) => Two(fragment.offset, fragment.total).serialize(out),
        }
    }
}

impl Rest {
    /// Sends its members, and the end of the object.
    fn send<S: Serializer>(&self, out: &mut S) -> Result<(), S::Error>
        ensures { OnOk result (SendsMembers (rest_members self.now) (S.written out.old) (S.written out.new)) }
    {
        send(out, "destination", &self.destination)?;
        send(out, "flags", &self.flags)?;
        send(out, "fragment", &Part(self.fragment))?;
        send(out, "lifetime", &self.lifetime)?;
        send(out, "report_to", &self.report_to)?;
        send(out, "source", &self.source)?;
        send(out, "version", &self.version)?;
        out.end_map()
    }
}

impl Described for Head6 {
    ghost writes = { λ head. SendsValue (head6_shown head) };
}

impl Serialize for Head6 {
    fn serialize<S: Serializer>(&self, out: &mut S) -> Result<(), S::Error> {
        out.begin_map(Some(10))?;
        send(out, "blocks", &Last6(self.last))?;
        send(out, "creation", &self.creation)?;
        send(out, "custodian", &self.custodian)?;
        self.rest.send(out)
    }
}

impl Described for Head7 {
    ghost writes = { λ head. SendsValue (head7_shown head) };
}

impl Serialize for Head7 {
    fn serialize<S: Serializer>(&self, out: &mut S) -> Result<(), S::Error> {
        out.begin_map(Some(10))?;
        send(out, "blocks", &Last7(self.last))?;
        send(out, "crc", &self.crc)?;
        send(out, "creation", &self.creation)?;
        self.rest.send(out)
    }
}

impl Described for Frame6 {
    ghost writes = { λ frame. SendsValue (frame6 frame.flags frame.kind) };
}

impl Serialize for Frame6 {
    fn serialize<S: Serializer>(&self, out: &mut S) -> Result<(), S::Error> {
        out.begin_map(Some(4))?;
        send(out, "body", &"")?;
        send(out, "flags", &self.flags)?;
        send(out, "kind", &self.kind)?;
        send(out, "refs", &Empty)?;
        out.end_map()
    }
}

impl Described for Frame7 {
    ghost writes = { λ frame. SendsValue (frame7 frame.crc frame.flags frame.kind frame.number) };
}

impl Serialize for Frame7 {
    fn serialize<S: Serializer>(&self, out: &mut S) -> Result<(), S::Error> {
        out.begin_map(Some(5))?;
        send(out, "body", &"")?;
        send(out, "crc", &self.crc)?;
        send(out, "flags", &self.flags)?;
        send(out, "kind", &self.kind)?;
        send(out, "number", &self.number)?;
        out.end_map()
    }
}
