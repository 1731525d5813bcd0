//! Each cause's word, and that its message is the same.

use bundle_meaning::BlockFault;
use bundle6::Cause6;
use bundle7::{Cause7, EidFault};
use status_reports::{AdminFault, PairFault};
use std::alloc::{AllocError, Global};
use std::fmt::Display;
use std::test::Fail;

/// Whether a cause's word and its message are this name.
fn is_named<C: Display + Drop>(
    alloc: Global,
    cause: C,
    word: &str,
    name: &str,
) -> Result<bool, AllocError> {
    let message = format!(in alloc; "{cause}")?;
    Ok(word == name && message.as_str() == name)
}

/// Why octets are no bundle of version 6.
const OLD_BUNDLES: &[(Cause6, &str)] = &[
    (Cause6::Version, "Version"),
    (Cause6::Number, "Number"),
    (Cause6::Names, "Names"),
    (Cause6::PrimaryEnd, "PrimaryEnd"),
    (Cause6::SecondPayload, "SecondPayload"),
    (Cause6::TooManyBlocks, "TooManyBlocks"),
    (Cause6::NoPayload, "NoPayload"),
    (Cause6::BlockRefs, "BlockRefs"),
    (Cause6::FragmentRange, "FragmentRange"),
    (Cause6::Truncated, "Truncated"),
    (Cause6::TooLong, "TooLong"),
];

#[test]
fn words_of_old_bundles(rt: HostRuntime) -> Result<(), Fail> {
    for &(cause, name) in OLD_BUNDLES {
        assert!(rt; is_named(rt.alloc(), cause, cause.word(), name)?, "{name}");
    }
    Ok(())
}

/// Why octets are no bundle of version 7.
const NEW_BUNDLES: &[(Cause7, &str)] = &[
    (Cause7::Start, "Start"),
    (Cause7::Head, "Head"),
    (Cause7::Version, "Version"),
    (Cause7::Number, "Number"),
    (Cause7::CrcType, "CrcType"),
    (Cause7::ItemCount, "ItemCount"),
    (Cause7::Eid, "Eid"),
    (Cause7::Timestamp, "Timestamp"),
    (Cause7::Crc, "Crc"),
    (Cause7::BlockHead, "BlockHead"),
    (Cause7::TooManyBlocks, "TooManyBlocks"),
    (Cause7::Repeated, "Repeated"),
    (Cause7::BlockNumber, "BlockNumber"),
    (Cause7::Body, "Body"),
    (Cause7::FragmentRange, "FragmentRange"),
    (Cause7::ExtensionBody, "ExtensionBody"),
    (Cause7::Break, "Break"),
    (Cause7::Truncated, "Truncated"),
    (Cause7::TooLong, "TooLong"),
];

#[test]
fn words_of_new_bundles(rt: HostRuntime) -> Result<(), Fail> {
    for &(cause, name) in NEW_BUNDLES {
        assert!(rt; is_named(rt.alloc(), cause, cause.word(), name)?, "{name}");
    }
    Ok(())
}

#[test]
fn words_of_eids(rt: HostRuntime) -> Result<(), Fail> {
    for (cause, name) in [(EidFault::Eid, "Eid"), (EidFault::Memory, "Memory")] {
        assert!(rt; is_named(rt.alloc(), cause, cause.word(), name)?, "{name}");
    }
    Ok(())
}

#[test]
fn words_of_private_blocks(rt: HostRuntime) -> Result<(), Fail> {
    for (cause, name) in [(BlockFault::Bad, "Bad"), (BlockFault::Memory, "Memory")] {
        assert!(rt; is_named(rt.alloc(), cause, cause.word(), name)?, "{name}");
    }
    Ok(())
}

/// Why the body of an administrative record is no status report.
const REPORTS: &[(AdminFault, &str)] = &[
    (AdminFault::CustodySignal, "CustodySignal"),
    (AdminFault::AdminUnknown, "AdminUnknown"),
    (AdminFault::CustodyReport, "CustodyReport"),
    (AdminFault::BadAdmin, "BadAdmin"),
    (AdminFault::Memory, "Memory"),
];

#[test]
fn words_of_reports(rt: HostRuntime) -> Result<(), Fail> {
    for &(cause, name) in REPORTS {
        assert!(rt; is_named(rt.alloc(), cause, cause.word(), name)?, "{name}");
    }
    for (cause, name) in [
        (PairFault::NoCounterpart, "NoCounterpart"),
        (PairFault::Memory, "Memory"),
    ] {
        assert!(rt; is_named(rt.alloc(), cause, cause.word(), name)?, "{name}");
    }
    Ok(())
}
