//! Endpoints and their texts.

use endpoint::{Endpoint, EndpointFault, Listing, Octets, Refs, ipn_named, is_ssp, named};
use std::alloc::{AllocError, Global};
use std::test::Fail;

/// Texts that are read, and whether they name one endpoint.
const TEXTS: &[(&str, bool)] = &[
    ("dtn:none", false),
    ("dtn://a/x", true),
    ("dtn://a/~all", false),
    ("dtn://a/x/~", false),
    ("dtn://a~b/x", true),
    ("dtn:!~", true),
    ("dtn:nonE", true),
    ("ipn:0.0", true),
    ("ipn:1.1", true),
    ("ipn:10.20", true),
    ("ipn:18446744073709551615.1", true),
];

/// Whether a text is read, written again from a copy, and names one endpoint or more.
fn is_text_of_one(alloc: Global, text: &str, single: bool) -> Result<bool, Fail> {
    let endpoint = Endpoint::from_text(alloc, text.as_bytes())?;
    let again = endpoint.copy(alloc)?.to_text(alloc)?;
    Ok(again.as_slice() == text.as_bytes() && endpoint.is_singleton() == single)
}

#[test]
fn texts_are_read_both_ways(rt: HostRuntime) -> Result<(), Fail> {
    for &(text, single) in TEXTS {
        assert!(rt; is_text_of_one(rt.alloc(), text, single)?, "{text}");
    }
    Ok(())
}

/// Texts that are none.
const REFUSED: &[(&str, EndpointFault)] = &[
    ("", EndpointFault::Scheme),
    ("dtn", EndpointFault::Scheme),
    ("ipn", EndpointFault::Scheme),
    ("DTN://a/x", EndpointFault::Scheme),
    ("http://a/x", EndpointFault::Scheme),
    (" dtn:none", EndpointFault::Scheme),
    ("dtn:", EndpointFault::Ssp),
    ("dtn:a b", EndpointFault::Ssp),
    ("dtn:a\u{7f}", EndpointFault::Ssp),
    ("dtn:\u{e9}", EndpointFault::Ssp),
    ("ipn:", EndpointFault::Number),
    ("ipn:1", EndpointFault::Number),
    ("ipn:1.", EndpointFault::Number),
    ("ipn:.1", EndpointFault::Number),
    ("ipn:01.1", EndpointFault::Number),
    ("ipn:1.00", EndpointFault::Number),
    ("ipn:1.+1", EndpointFault::Number),
    ("ipn:1.2.3", EndpointFault::Number),
    ("ipn:18446744073709551616.1", EndpointFault::Number),
    ("ipn:1.18446744073709551616", EndpointFault::Number),
];

/// Whether a text is refused for this.
fn is_refused(alloc: Global, text: &[u8], fault: EndpointFault) -> bool {
    Endpoint::from_text(alloc, text).err() == Some(fault)
}

#[test]
fn other_texts_are_refused(rt: HostRuntime) {
    for &(text, fault) in REFUSED {
        assert!(rt; is_refused(rt.alloc(), text.as_bytes(), fault), "{text}");
    }
}

#[test]
fn an_ssp_has_1023_octets_at_most(rt: HostRuntime) -> Result<(), Fail> {
    let alloc = rt.alloc();
    let ssp = vec![in alloc; b'a'; 1023]?;
    let mut text = b"dtn:".as_slice().to_vec(alloc)?;
    text.extend_from_slice(&ssp)?;
    assert!(rt; is_ssp(&ssp) && Endpoint::from_text(alloc, &text)?.ssp(alloc)?.len() == 1023);
    text.push(b'a')?;
    assert!(rt; is_refused(alloc, &text, EndpointFault::Ssp));
    Ok(())
}

/// Whether an endpoint's two parts name it again.
fn parts_name_it(alloc: Global, text: &str) -> Result<bool, Fail> {
    let endpoint = Endpoint::from_text(alloc, text.as_bytes())?;
    let ssp = endpoint.ssp(alloc)?;
    let again = named(alloc, endpoint.scheme(), ssp.as_slice())?;
    let ipn = ipn_named(ssp.as_slice());
    Ok(again == Some(endpoint) && ipn.is_some() == text.starts_with("ipn"))
}

#[test]
fn parts_name_what_the_text_names(rt: HostRuntime) -> Result<(), Fail> {
    for text in ["dtn:none", "dtn://b/y", "ipn:3.4"] {
        assert!(rt; parts_name_it(rt.alloc(), text)?, "{text}");
    }
    Ok(())
}

/// Whether octets are the same, copied, taken out and put in again.
fn octets_stay(alloc: Global, text: &[u8]) -> Result<bool, AllocError> {
    let octets = Octets::from_slice(alloc, text)?.copy(alloc)?;
    Ok(Octets::from_vec(octets.into_vec()).as_slice() == text)
}

/// Appends the endpoint of a text.
fn list(alloc: Global, listing: &mut Listing, text: &str) -> Result<(), Fail> {
    let endpoint = Endpoint::from_text(alloc, text.as_bytes())?;
    Ok(listing.push(endpoint.lent())?)
}

/// The endpoints of texts, in a list that was copied.
fn copied(alloc: Global, texts: &[&str]) -> Result<Refs, Fail> {
    let mut listing = Listing::new(alloc);
    for text in texts {
        list(alloc, &mut listing, text)?;
    }
    Ok(listing.into_refs(alloc)?.copy(alloc)?)
}

/// Whether an endpoint stands at a place of a list.
fn stands(alloc: Global, refs: &Refs, at: usize, text: &str) -> Result<bool, AllocError> {
    let name = refs.get(at).owned(alloc)?;
    Ok(name.to_text(alloc)?.as_slice() == text.as_bytes())
}

/// Whether a list has these endpoints and no other.
fn has(alloc: Global, refs: &Refs, texts: &[&str]) -> Result<bool, AllocError> {
    for (at, text) in texts.iter().enumerate() {
        if !stands(alloc, refs, at, text)? {
            return Ok(false);
        }
    }
    Ok(refs.len() == texts.len() && refs.get(refs.len()).owned(alloc)? == Endpoint::Null)
}

#[test]
fn lists_are_made_and_copied(rt: HostRuntime) -> Result<(), Fail> {
    assert!(rt; octets_stay(rt.alloc(), b"abc")?);
    let names = ["dtn://b/y", "dtn:none", "ipn:1.2", "dtn://b/y/z"];
    assert!(rt; has(rt.alloc(), &copied(rt.alloc(), &names)?, &names)?);
    Ok(())
}
