//! Names, and other texts that may need escapes.

ghost use Rattle.std.specs.Prelude.{◌≡◌, ◌++◌, [], true, Some, codes, IfOk, OnOk};
ghost use Rattle.std.specs.String.{string_bytes};
ghost use Rattle.serde.specs.Event.{Log};
ghost use Rattle.serde_json.specs.Data.{string};
ghost use Rattle.serde_json.specs.Sent.{IsTextOf};
ghost use Rattle.serde_json.specs.Written.{compact_text};
ghost use Rattle.endpoint.specs.Endpoints.{IsEndpoint, is_ssp};
ghost use Rattle.gate_log.specs.Values.{name};
ghost use Rattle.gate_log.specs.Written.{AreLow, IsPlain, later_text, in_quotes, ipn_text};

use endpoint::{Endpoint, Octets};
use serde::Serialize;
use std::alloc::{AllocError, Global};
use std::str;

/// An endpoint under a key.
#[tactic(auto, unfolding(crate::specs::Written::later_text))]
pub(crate) fn push_name(text: &mut String, key: &str, endpoint: &Endpoint) -> Result<(), AllocError>
    requires key { IsPlain key.now }
    requires legal { IsEndpoint endpoint.now }
    ensures { OnOk result (string_bytes text.new
        ≡ string_bytes text.old ++ later_text (key.now, name endpoint.now)) }
{
    write!(text, ",\"{key}\":")?;
    push_endpoint(text, endpoint)
}

/// An endpoint. Only a dtn name may need escapes.
#[tactic(auto, unfolding(json::specs::Print::escape_byte))]
fn push_endpoint(text: &mut String, endpoint: &Endpoint) -> Result<(), AllocError>
    requires { IsEndpoint endpoint.now }
    ensures { OnOk result (string_bytes text.new
        ≡ string_bytes text.old ++ compact_text (name endpoint.now)) }
{
    match endpoint {
        Endpoint::Null => text.push_str("\"dtn:none\""),
        Endpoint::Ipn { node, service } => push_ipn(text, *node, *service),
        Endpoint::Dtn(ssp) => push_dtn(text, ssp),
    }
}

fn push_ipn(text: &mut String, node: u64, service: u64) -> Result<(), AllocError>
    ensures { OnOk result (string_bytes text.new
        ≡ string_bytes text.old ++ in_quotes (ipn_text node service)) }
{
    write!(text, "\"ipn:{node}.{service}\"")
}

fn push_dtn(text: &mut String, ssp: &Octets) -> Result<(), AllocError>
    requires { is_ssp ssp.now ≡ true }
    ensures { OnOk result (string_bytes text.new
        ≡ string_bytes text.old ++ compact_text (string (codes "dtn:" ++ ssp.now))) }
{
    push_named(text, text_in(ssp.as_slice()))
}

fn push_named(text: &mut String, ssp: &str) -> Result<(), AllocError>
    ensures { OnOk result (string_bytes text.new
        ≡ string_bytes text.old ++ compact_text (string (codes "dtn:" ++ ssp.now))) }
{
    let name = format!(in *text.allocator(); "dtn:{ssp}")?;
    push_string(text, name.as_str())
}

/// A text, in quotes and with its escapes.
pub(crate) fn push_string(text: &mut String, octets: &str) -> Result<(), AllocError>
    ensures { OnOk result (string_bytes text.new
        ≡ string_bytes text.old ++ compact_text (string octets.now)) }
{
    let written = string_text(*text.allocator(), octets)?;
    text.push_str(written.as_str())
}

/// The JSON text of a text.
fn string_text(alloc: Global, octets: &str) -> Result<String, AllocError>
    ensures { IfOk result (λ text. string_bytes text ≡ compact_text (string octets.now)) }
{
    json_text(alloc, &octets)
}

/// The JSON text of a value. Nothing but want of memory refuses one.
fn json_text<T: Serialize>(alloc: Global, value: &T) -> Result<String, AllocError>
    ensures { IfOk result (λ text. (log : Log) × T.writes value.now (Some []) log × IsTextOf log (string_bytes text)) }
{
    match serde_json::to_string(alloc, value) {
        Ok(text) => Ok(text),
        Err(_) => Err(AllocError),
    }
}

/// Octets below 128 as text.
pub(crate) fn text_in(octets: &[u8]) -> &str
    ensures { AreLow octets.now → result.now ≡ octets.now }
{
    match str::from_utf8(octets) {
        Ok(text) => text,
        Err(_) => "",
    }
}
