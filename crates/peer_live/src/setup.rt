//! How the gateway is set up by a file.

ghost use Rattle.std.specs.Prelude.{◌≡◌, None, IfOk, IfSome, option_map, ◌<◌, ◌≤◌, ◌^◌};
ghost use Rattle.block_types.specs.Pair.{IsPair};
ghost use Rattle.journal_file.specs.Ties.{kept_of};
ghost use Rattle.ltp_segment.specs.PolicyViews.{policy_value};
ghost use Rattle.peer_half.specs.Journals.{starts_journal};
ghost use Rattle.peer_half.specs.Setup as spec;
ghost use Rattle.peer_gateway.specs.Views.{AreFaceKeys, IsConfig, setup_with};
ghost use Rattle.peer_sessions.specs.Views.{face_keys};

use crate::journal::Journal;
use block_types::BlockTypes;
use face_room::Bounds;
use gate_cases::Face;
use gate_config::{Age, BlocksConfig, FaceConfig, ForeignBlocks, GateFile};
use gate_records::{first_of, recovered};
use journal_file::Kept;
use ltp_segment::Policy;
use peer_cases::PeerSettings;
use peer_gateway::PeerConfig;
use peer_sessions::Keys;
use std::alloc::{AllocError, Global};

/// How the gateway is set up, where the wall clock shows this at first, and earlier runs kept this, if a
/// journal is kept.
pub(crate) fn config_of(
    alloc: Global,
    file: &GateFile,
    kept: &Option<Kept>,
    wall: u64,
) -> Result<PeerConfig, AllocError>
    requires runnable { spec.IsRunnable file.now }
    requires left { spec.used_up file.now (option_map kept_of kept.now) wall ≡ None }
    ensures config { IfOk result IsConfig }
    ensures setup { IfOk result (λ config. setup_with config
        ≡ spec.setup_in file.now (option_map kept_of kept.now) wall) }
{
    let old = keys_in(&file.old, old_reserved(kept), wall);
    let new = keys_in(&file.new, new_reserved(kept), wall);
    Ok(PeerConfig {
        settings: settings_in(file),
        gate: file.gateway.endpoint.copy(alloc)?,
        cut: file.gateway.cut,
        old,
        new,
    })
}

/// At which face earlier runs have used all session numbers, the old one first: no run can begin then.
pub fn used_up(file: &GateFile, kept: &Option<Kept>, wall: u64) -> Option<Face>
    requires { spec.IsRunnable file.now }
    ensures { result ≡ spec.used_up file.now (option_map kept_of kept.now) wall }
{
    if first_in(&file.old, old_reserved(kept), wall) >= NUMBERS {
        return Some(Face::Old);
    }
    if first_in(&file.new, new_reserved(kept), wall) >= NUMBERS {
        return Some(Face::New);
    }
    None
}

/// The journal at the beginning, where one is kept.
pub(crate) fn journal_of(
    alloc: Global,
    file: &GateFile,
    kept: Option<Kept>,
    wall: u64,
) -> Result<Option<Journal>, AllocError>
    requires { spec.IsRunnable file.now }
    ensures { IfOk result (λ journal.
        journal ≡ starts_journal file.now wall (option_map kept_of kept)) }
{
    let Some(kept) = kept else {
        return Ok(None);
    };
    let old = first_session(file.old.first_session, wall);
    let new = first_session(file.new.first_session, wall);
    Ok(Some(Journal::new(alloc, recovered(kept, wall, old, new))?))
}

// ---- a face

/// Who is at a face, and what it may keep, where earlier runs reserved the numbers below one, if a journal
/// is kept.
fn keys_in(config: &FaceConfig, reserved: Option<u64>, wall: u64) -> Keys
    requires face { spec.IsFace config.now }
    requires left { spec.first_in config.now reserved wall < 2 ^ 32 }
    ensures value { face_keys result ≡ spec.keys_in config.now reserved wall }
    ensures keys { AreFaceKeys result }
{
    Keys {
        own: config.engine,
        peer: config.peer_engine,
        first_session: first_in(config, reserved, wall),
        policy: policy_in(config),
        bounds: bounds_in(config),
        wait_ms: config.aggregate_ms,
        remember: config.remember,
        remember_ms: config.remember_ms,
    }
}

/// How many sessions there are at a face each way, and how many octets there, and in its outbox.
fn bounds_in(config: &FaceConfig) -> Bounds
    ensures { result ≡ spec.bounds_in config.now }
{
    Bounds {
        sessions: config.sessions,
        memory: config.memory,
        wanted: config.aggregate,
        segment: config.segment,
        outbox: config.outbox,
    }
}

/// How a face's engine sends.
fn policy_in(config: &FaceConfig) -> Policy
    requires { spec.IsFace config.now }
    ensures { policy_value result ≡ spec.policy_in config.now }
{
    Policy {
        segment: config.segment as u32,
        timeout: config.timeout_ms,
        limit: config.limit as u32,
        cap: config.cap_ms,
    }
}

/// The number of a face's first session. Where earlier runs used all, it is none that a session has.
fn first_in(config: &FaceConfig, reserved: Option<u64>, wall: u64) -> u64
    requires { spec.IsFace config.now }
    ensures number { result ≡ spec.first_in config.now reserved wall }
    ensures least { 1 ≤ result }
{
    let set = first_session(config.first_session, wall);
    match reserved {
        Some(reserved) => first_of(set, reserved),
        None => set,
    }
}

/// The number of a face's first session, but for those that earlier runs reserved.
fn first_session(number: Option<u64>, wall: u64) -> u64
    requires { IfSome number (λ number. (1 ≤ number) × (number < 2 ^ 32)) }
    ensures number { result ≡ spec.first_session number wall }
    ensures least { 1 ≤ result }
    ensures most { result < 2 ^ 32 }
{
    match number {
        Some(number) => number,
        None => wall / 1000 % SECONDS + 1,
    }
}

/// The numbers of the old face that earlier runs reserved.
fn old_reserved(kept: &Option<Kept>) -> Option<u64>
    ensures { result ≡ spec.old_reserved (option_map kept_of kept.now) }
{
    match kept {
        Some(kept) => Some(kept.old_reserved),
        None => None,
    }
}

/// The same of the new face.
fn new_reserved(kept: &Option<Kept>) -> Option<u64>
    ensures { result ≡ spec.new_reserved (option_map kept_of kept.now) }
{
    match kept {
        Some(kept) => Some(kept.new_reserved),
        None => None,
    }
}

/// Session numbers are below this one.
const NUMBERS: u64 = 1 << 32;

/// The seconds of the wall clock are taken modulo this.
const SECONDS: u64 = 1 << 31;

// ---- bundles

/// What is done with bundles.
fn settings_in(file: &GateFile) -> PeerSettings
    requires { spec.IsRunnable file.now }
    ensures { result ≡ spec.settings_in file.now }
{
    PeerSettings {
        types: types_in(file.blocks),
        bare: leaves_out(file.blocks.foreign_blocks),
        raises: raises_age(file.gateway.age),
    }
}

/// The types of residues and wraps on the wires.
fn types_in(blocks: BlocksConfig) -> BlockTypes
    requires { IsPair blocks.residue_block blocks.wrap_block }
    ensures { result ≡ spec.types_in blocks }
{
    match BlockTypes::new(blocks.residue_block, blocks.wrap_block) {
        Some(types) => types,
        None => unreachable!(),
    }
}

/// Whether what only version 6 says is left out.
fn leaves_out(blocks: ForeignBlocks) -> bool
    ensures { result ≡ spec.leaves_out blocks }
{
    match blocks {
        ForeignBlocks::Wrap => false,
        ForeignBlocks::Drop => true,
    }
}

/// Whether the age of a bundle is raised by its stay.
fn raises_age(age: Age) -> bool
    ensures { result ≡ spec.raises_age age }
{
    match age {
        Age::Raise => true,
        Age::Keep => false,
    }
}
