//! Each cause's word, and that its message is the same.

use cbor_lite::CborFault;
use endpoint::EndpointFault;
use ltp_segment::{PolicyFault, SegmentCause};
use sdnv::SdnvFault;
use std::alloc::{AllocError, Global};
use std::fmt::Display;
use std::test::Fail;
use wire_fields::Miss;

/// Whether a cause's word and its message are this name.
fn is_named<C: Display + Drop>(
    alloc: Global,
    cause: C,
    word: &str,
    name: &str,
) -> Result<bool, AllocError> {
    let message = format!(in alloc; "{cause}")?;
    Ok(word == name && message.as_str() == name)
}

/// Why a text is no number.
const NUMBERS: &[(SdnvFault, &str)] = &[
    (SdnvFault::Short, "Short"),
    (SdnvFault::TooLong, "TooLong"),
    (SdnvFault::TooLarge, "TooLarge"),
];

#[test]
fn words_of_numbers(rt: HostRuntime) -> Result<(), Fail> {
    for &(cause, name) in NUMBERS {
        assert!(rt; is_named(rt.alloc(), cause, cause.word(), name)?, "{name}");
    }
    Ok(())
}

/// Why octets are no CBOR item.
const ITEMS: &[(CborFault, &str)] = &[
    (CborFault::Kind, "Kind"),
    (CborFault::Short, "Short"),
    (CborFault::NotShortest, "NotShortest"),
];

#[test]
fn words_of_items(rt: HostRuntime) -> Result<(), Fail> {
    for &(cause, name) in ITEMS {
        assert!(rt; is_named(rt.alloc(), cause, cause.word(), name)?, "{name}");
    }
    Ok(())
}

/// Why a text is no endpoint.
const ENDPOINTS: &[(EndpointFault, &str)] = &[
    (EndpointFault::Scheme, "Scheme"),
    (EndpointFault::Ssp, "Ssp"),
    (EndpointFault::Number, "Number"),
    (EndpointFault::Memory, "Memory"),
];

#[test]
fn words_of_endpoints(rt: HostRuntime) -> Result<(), Fail> {
    for &(cause, name) in ENDPOINTS {
        assert!(rt; is_named(rt.alloc(), cause, cause.word(), name)?, "{name}");
    }
    Ok(())
}

#[test]
fn words_of_fields(rt: HostRuntime) -> Result<(), Fail> {
    for (cause, name) in [(Miss::Truncated, "Truncated"), (Miss::Absent, "Absent")] {
        assert!(rt; is_named(rt.alloc(), cause, cause.word(), name)?, "{name}");
    }
    Ok(())
}

/// Why octets are no waybill.
const WAYBILLS: &[(waybill::Cause, &str)] = &[
    (waybill::Cause::Truncated, "Truncated"),
    (waybill::Cause::Mark, "Mark"),
    (waybill::Cause::Count, "Count"),
    (waybill::Cause::Number, "Number"),
    (waybill::Cause::Sender, "Sender"),
    (waybill::Cause::Range, "Range"),
    (waybill::Cause::FrontEnd, "FrontEnd"),
    (waybill::Cause::Kind, "Kind"),
    (waybill::Cause::SecondGoods, "SecondGoods"),
    (waybill::Cause::TooManyItems, "TooManyItems"),
    (waybill::Cause::Repeated, "Repeated"),
    (waybill::Cause::Check, "Check"),
    (waybill::Cause::Order, "Order"),
    (waybill::Cause::Trailing, "Trailing"),
];

#[test]
fn words_of_waybills(rt: HostRuntime) -> Result<(), Fail> {
    for &(cause, name) in WAYBILLS {
        assert!(rt; is_named(rt.alloc(), cause, cause.word(), name)?, "{name}");
    }
    Ok(())
}

/// Why a datagram is no segment.
const SEGMENTS: &[(SegmentCause, &str)] = &[
    (SegmentCause::Version, "Version"),
    (SegmentCause::Kind, "Kind"),
    (SegmentCause::Number, "Number"),
    (SegmentCause::Range, "Range"),
    (SegmentCause::Serial, "Serial"),
    (SegmentCause::Bounds, "Bounds"),
    (SegmentCause::Claim, "Claim"),
    (SegmentCause::Trailing, "Trailing"),
    (SegmentCause::Truncated, "Truncated"),
];

#[test]
fn words_of_segments(rt: HostRuntime) -> Result<(), Fail> {
    for &(cause, name) in SEGMENTS {
        assert!(rt; is_named(rt.alloc(), cause, cause.word(), name)?, "{name}");
    }
    Ok(())
}

/// Why values are no policy.
const POLICIES: &[(PolicyFault, &str)] = &[
    (PolicyFault::Segment, "Segment"),
    (PolicyFault::Timeout, "Timeout"),
    (PolicyFault::Limit, "Limit"),
    (PolicyFault::Cap, "Cap"),
];

#[test]
fn words_of_policies(rt: HostRuntime) -> Result<(), Fail> {
    for &(cause, name) in POLICIES {
        assert!(rt; is_named(rt.alloc(), cause, cause.word(), name)?, "{name}");
    }
    Ok(())
}
