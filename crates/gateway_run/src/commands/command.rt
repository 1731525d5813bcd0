//! The commands: which of them the words name, and the run of each.
ghost use Rattle.std.specs.Prelude.{◌≡◌, Some, IfSome};
ghost use Rattle.gateway_run.specs.Edge.{edge_of};
ghost use Rattle.gateway_run.specs.Runs.{RanNamed, NamesBy};
ghost use Rattle.gateway_run.specs.Commands.{command_of, one_word, two_words, three_words, keeping_of, cut_of, keep_cutting_of, node_of, record_of, audit_of, make_of, serve_of, is_address, rules_of, limits_of, decoding_of, IsSound};

use crate::commands::decoding::{Decoding, decode};
use crate::commands::gate_name::GateName;
use crate::commands::lines::{run_lines, run_part_lines};
use crate::commands::passed::{Ended, Passed, ended_with};
use crate::commands::serve::run_serve;
use crate::commands::word::Word;
use audit_run::AuditLines;
use edge_traits::{Clock, Link, Sink, Source};
use make_run::make;
use node_run::Node;
use record_run::RecordLines;
use replay_script::number_in;
use std::alloc::Global;
use world_run::World;

/// A command of the program.
#[derive(Debug, Drop)]
pub enum Command<'w> {
    /// `receive`, `check`, `show`, `convert`, `cut SIZE` and `join`: what is said of recorded datagrams or bundles.
    Decodes(Decoding),
    /// `node OWN PEER`: one end of a link, by the numbers of its engine and of its peer's.
    Node { own: u64, peer: u64 },
    /// `record OWN PEER`: one end of a link, whose exchange is recorded.
    Record { own: u64, peer: u64 },
    /// `audit OWN PEER`: a recorded exchange of an engine with its peer, judged by rules.
    Audit { own: u64, peer: u64 },
    /// `link`: a script on one link, which may be open at times alone.
    Link,
    /// `world`: a script on a whole path, from an old node over the gate to a new one.
    World,
    /// `make SEED COUNT`: a script of so many bundles that is drawn, and played.
    Make { seed: u64, count: u64 },
    /// `serve GATE OLD_BIND OLD_PEER NEW_BIND NEW_PEER TURNS`: a gateway of this name between two
    /// links, for so many turns. Its addresses are those of the links that a run is given.
    Serve { gate: GateName<'w>, count: u64 },
}

impl Command<'_> {
    /// What it decodes, where it is one of those that decode.
    pub fn decoding(&self) -> Option<Decoding>
        ensures { result ≡ decoding_of self.now }
    {
        match self {
            Command::Decodes(decoding) => Some(*decoding),
            Command::Node { .. }
            | Command::Record { .. }
            | Command::Audit { .. }
            | Command::Link
            | Command::World
            | Command::Make { .. }
            | Command::Serve { .. } => None,
        }
    }
}

/// The most octets of a piece that words name.
const MOST_SIZE: u64 = 4_194_304;

/// The greatest number of an engine that words name.
const MOST_NUMBER: u64 = 4_294_967_295;

/// The most bundles that words name.
const MOST_SENDS: u64 = 1_000;

/// The most turns that words name.
const MOST_TURNS: u64 = 1_000_000_000;

/// The most octets of an address.
const MOST_ADDRESS: usize = 64;

/// The command that the words name. It takes no memory.
pub fn command_named(words: &[Word]) -> Option<Command<'_>>
    ensures exact { result ≡ command_of words.now }
    ensures sound { IfSome result IsSound }
{
    match words {
        [word] => one_word(word.octets()),
        [word, second] => two_words(word.octets(), second.octets()),
        [word, a, b] => three_words(word.octets(), a.octets(), b.octets()),
        [word, gate, old_bind, old_peer, new_bind, new_peer, count]
            if word.octets() == b"serve".as_slice() => serve_named(
            gate.octets(),
            old_bind.octets(),
            old_peer.octets(),
            new_bind.octets(),
            new_peer.octets(),
            count.octets(),
        ),
        _ => None,
    }
}

/// Runs a command: an arm for each.
pub fn run_command<S: Source, K: Sink, L: Link, C: Clock>(
    alloc: Global,
    command: &Command<'_>,
    source: &mut S,
    sink: &mut K,
    old_link: &mut L,
    new_link: &mut L,
    clock: &mut C,
) -> Ended
    requires { IsSound command.now }
    ensures ran { RanNamed (Some command.now) result.status
        (edge_of S.Source K.Sink L.Link C.Clock source.old sink.old old_link.old new_link.old clock.old)
        (edge_of S.Source K.Sink L.Link C.Clock source.new sink.new old_link.new new_link.new clock.new) }
    ensures names { NamesBy (rules_of command.now) (limits_of command.now) (S.left source.old) result.status result.passed }
{
    match command {
        Command::Decodes(decoding) => decode(alloc, *decoding, source, sink),
        Command::Node { own, peer } => {
            run_lines(alloc, Node::new(alloc, *own, *peer), source, sink)
        }
        Command::Record { own, peer } => {
            run_lines(alloc, RecordLines::new(alloc, *own, *peer), source, sink)
        }
        Command::Audit { own, peer } => {
            run_lines(alloc, AuditLines::new(alloc, *own, *peer), source, sink)
        }
        Command::Link => run_lines(alloc, link_run::Link::new(alloc), source, sink),
        Command::World => run_part_lines(alloc, World::new(alloc), source, sink),
        Command::Make { seed, count } => {
            ended_with(make(alloc, *seed, *count, sink), Passed::Script)
        }
        Command::Serve { gate, count } => {
            run_serve(alloc, gate, *count, sink, old_link, new_link, clock)
        }
    }
}

/// The command of a single word.
fn one_word<'w>(word: &[u8]) -> Option<Command<'w>>
    ensures exact { result ≡ one_word word.now }
    ensures sound { IfSome result IsSound }
{
    match word {
        _ if word == b"receive".as_slice() => Some(Command::Decodes(Decoding::Receive)),
        _ if word == b"check".as_slice() => Some(Command::Decodes(Decoding::Bundles(
            bundle_runs::Command::Check,
        ))),
        _ if word == b"show".as_slice() => Some(Command::Decodes(Decoding::Bundles(
            bundle_runs::Command::Show,
        ))),
        _ if word == b"convert".as_slice() => Some(Command::Decodes(Decoding::Bundles(
            bundle_runs::Command::Convert,
        ))),
        _ if word == b"join".as_slice() => Some(Command::Decodes(Decoding::Bundles(
            bundle_runs::Command::Join,
        ))),
        _ if word == b"link".as_slice() => Some(Command::Link),
        _ if word == b"world".as_slice() => Some(Command::World),
        _ => None,
    }
}

/// The command of two words.
fn two_words<'w>(word: &[u8], second: &[u8]) -> Option<Command<'w>>
    ensures exact { result ≡ two_words word.now second.now }
    ensures sound { IfSome result IsSound }
{
    match word {
        _ if second == b"--keep-going".as_slice() => keeping_named(word),
        _ if word == b"cut".as_slice() => cut_named(second),
        _ => None,
    }
}

/// The command that keeps going. `show` refuses no bundle.
fn keeping_named<'w>(word: &[u8]) -> Option<Command<'w>>
    ensures exact { result ≡ keeping_of word.now }
    ensures sound { IfSome result IsSound }
{
    match word {
        _ if word == b"receive".as_slice() => Some(Command::Decodes(Decoding::KeepReceiving)),
        _ if word == b"show".as_slice() => Some(Command::Decodes(Decoding::Bundles(
            bundle_runs::Command::Show,
        ))),
        _ if word == b"convert".as_slice() => Some(Command::Decodes(Decoding::Bundles(
            bundle_runs::Command::KeepConverting,
        ))),
        _ if word == b"join".as_slice() => Some(Command::Decodes(Decoding::Bundles(
            bundle_runs::Command::KeepJoining,
        ))),
        _ => None,
    }
}

/// The command of three words.
fn three_words<'w>(word: &[u8], a: &[u8], b: &[u8]) -> Option<Command<'w>>
    ensures exact { result ≡ three_words word.now a.now b.now }
    ensures sound { IfSome result IsSound }
{
    match word {
        _ if word == b"cut".as_slice() => keep_cutting_named(a, b),
        _ if word == b"node".as_slice() => node_named(a, b),
        _ if word == b"record".as_slice() => record_named(a, b),
        _ if word == b"audit".as_slice() => audit_named(a, b),
        _ if word == b"make".as_slice() => make_named(a, b),
        _ => None,
    }
}

/// The pieces of this size.
fn cut_named<'w>(size: &[u8]) -> Option<Command<'w>>
    ensures exact { result ≡ cut_of size.now }
    ensures sound { IfSome result IsSound }
{
    let size = number_in(1, MOST_SIZE, size)?;
    Some(Command::Decodes(Decoding::Bundles(bundle_runs::Command::Cut(size))))
}

/// The pieces of this size, where the last word is that the run keeps going.
fn keep_cutting_named<'w>(size: &[u8], last: &[u8]) -> Option<Command<'w>>
    ensures exact { result ≡ keep_cutting_of size.now last.now }
    ensures sound { IfSome result IsSound }
{
    if last != b"--keep-going".as_slice() {
        return None;
    }
    let size = number_in(1, MOST_SIZE, size)?;
    Some(Command::Decodes(Decoding::Bundles(bundle_runs::Command::KeepCutting(size))))
}

/// The end of a link that has these numbers: they are different.
fn node_named<'w>(own: &[u8], peer: &[u8]) -> Option<Command<'w>>
    ensures exact { result ≡ node_of own.now peer.now }
    ensures sound { IfSome result IsSound }
{
    let own = number_in(1, MOST_NUMBER, own)?;
    let peer = number_in(1, MOST_NUMBER, peer)?;
    if own == peer {
        return None;
    }
    Some(Command::Node { own, peer })
}

/// The end of a link, recorded, that has these numbers: they are different.
fn record_named<'w>(own: &[u8], peer: &[u8]) -> Option<Command<'w>>
    ensures exact { result ≡ record_of own.now peer.now }
    ensures sound { IfSome result IsSound }
{
    let own = number_in(1, MOST_NUMBER, own)?;
    let peer = number_in(1, MOST_NUMBER, peer)?;
    if own == peer {
        return None;
    }
    Some(Command::Record { own, peer })
}

/// The exchange of an engine of the first number with one of the second: they are different.
fn audit_named<'w>(own: &[u8], peer: &[u8]) -> Option<Command<'w>>
    ensures exact { result ≡ audit_of own.now peer.now }
    ensures sound { IfSome result IsSound }
{
    let own = number_in(1, MOST_NUMBER, own)?;
    let peer = number_in(1, MOST_NUMBER, peer)?;
    if own == peer {
        return None;
    }
    Some(Command::Audit { own, peer })
}

/// The script of this seed, and of so many bundles.
fn make_named<'w>(seed: &[u8], count: &[u8]) -> Option<Command<'w>>
    ensures exact { result ≡ make_of seed.now count.now }
    ensures sound { IfSome result IsSound }
{
    let seed = number_in(0, u64::MAX, seed)?;
    let count = number_in(1, MOST_SENDS, count)?;
    Some(Command::Make { seed, count })
}

/// The gateway of this name, between links of these addresses, for so many turns.
fn serve_named<'w>(
    gate: &'w [u8],
    old_bind: &[u8],
    old_peer: &[u8],
    new_bind: &[u8],
    new_peer: &[u8],
    count: &[u8],
) -> Option<Command<'w>>
    ensures exact { result ≡ serve_of gate.now old_bind.now old_peer.now new_bind.now new_peer.now count.now }
    ensures sound { IfSome result IsSound }
{
    if !(is_address(old_bind)
        && is_address(old_peer)
        && is_address(new_bind)
        && is_address(new_peer))
    {
        return None;
    }
    let gate = GateName::of(gate)?;
    let count = number_in(1, MOST_TURNS, count)?;
    Some(Command::Serve { gate, count })
}

/// Whether a word may be an address.
fn is_address(word: &[u8]) -> bool
    ensures { result ≡ is_address word.now }
{
    !word.is_empty() && word.len() <= MOST_ADDRESS
}
