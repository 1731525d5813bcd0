//! Each call once. The octets and the texts are from a script over the standards' tables and its own
//! language's JSON.

use crate::rows::{octets, seven, six};
use bundle_json::{Telling6, write6, write7};
use std::alloc::Global;
use std::test::Fail;

/// A fragment whose payload has 67 octets. A name has a quote and a backslash; a legal name has no control
/// character.
const SIX: &str = "\
    0681112900040c10001400048768053c1964746e002f2f6122625c630069706e00312e32006e6f6e6500038148\
    c8410200040c10020fa0c90000010843c8cfd6dde4ebf2f900070e151c232a31383f464d545b626970777e858c\
    939aa1a8afb6bdc4cbd2d9e0e7eef5fc030a11181f262d343b424950575e656c737a81888f96";

const SIX_TEXT: &str = "\
    {\"blocks\":[{\"body\":\"0fa0\",\"flags\":1,\"kind\":200,\"refs\":[\"dtn://a\\\"b\\\\c\",\
    \"ipn:1.2\"]},{\"body\":\"\",\"flags\":0,\"kind\":201,\"refs\":[]},{\"body\":\"c8cfd6dde4e\
    bf2f900070e151c232a31383f464d545b626970777e858c939aa1a8afb6bdc4cbd2d9e0e7eef5fc030a11181f2\
    62d343b424950575e656c737a81888f96\",\"flags\":0,\"kind\":1,\"refs\":[]}],\"creation\":[100\
    0,5],\"custodian\":\"dtn://a\\\"b\\\\c\",\"destination\":\"dtn://a\\\"b\\\\c\",\"flags\":1\
    45,\"fragment\":[3,200],\"lifetime\":60,\"report_to\":\"dtn:none\",\"source\":\"ipn:1.2\",\
    \"version\":6}";

/// The same name and payload, and the greatest number.
const SEVEN: &str = "\
    9f890700028201672f2f6122625c63820282011bffffffffffffffff820100821a000f42450019ea5b44a8953f\
    878618c002010142ff00423e328518c10300004085010100005843c8cfd6dde4ebf2f900070e151c232a31383f\
    464d545b626970777e858c939aa1a8afb6bdc4cbd2d9e0e7eef5fc030a11181f262d343b424950575e656c737a\
    81888f96ff";

const SEVEN_TEXT: &str = "\
    {\"blocks\":[{\"body\":\"ff00\",\"crc\":1,\"flags\":1,\"kind\":192,\"number\":2},{\"body\"\
    :\"\",\"crc\":0,\"flags\":0,\"kind\":193,\"number\":3},{\"body\":\"c8cfd6dde4ebf2f900070e1\
    51c232a31383f464d545b626970777e858c939aa1a8afb6bdc4cbd2d9e0e7eef5fc030a11181f262d343b42495\
    0575e656c737a81888f96\",\"crc\":0,\"flags\":0,\"kind\":1,\"number\":1}],\"crc\":2,\"creati\
    on\":[1000005,0],\"destination\":\"dtn://a\\\"b\\\\c\",\"flags\":0,\"fragment\":null,\"lif\
    etime\":59995,\"report_to\":\"dtn:none\",\"source\":\"ipn:1.18446744073709551615\",\"versi\
    on\":7}";

/// Appends the text of the bundle of version 6.
fn write_six(alloc: Global, text: &mut String) -> Result<(), Fail> {
    let bundle = six(alloc, SIX)?;
    Ok(write6(text, &bundle)?)
}

/// Appends the text of the bundle of version 7.
fn write_seven(alloc: Global, text: &mut String) -> Result<(), Fail> {
    let bundle = seven(alloc, SEVEN)?;
    Ok(write7(text, &bundle)?)
}

#[test]
fn bundles_have_their_texts(rt: HostRuntime) -> Result<(), Fail> {
    let mut text = String::from_str(rt.alloc(), "before ")?;
    write_six(rt.alloc(), &mut text)?;
    assert!(rt; text.as_str().strip_prefix("before ") == Some(SIX_TEXT));
    text.clear();
    write_seven(rt.alloc(), &mut text)?;
    assert!(rt; text.as_str() == SEVEN_TEXT);
    Ok(())
}

/// Appends the text of a bundle out of its octets, where it has fewer than a hundred parts.
fn tell(octets: &[u8], text: &mut String) -> Result<(), Fail> {
    let mut telling = Telling6::new(octets);
    for _ in 0..100 {
        if telling.is_over() {
            break;
        }
        telling.tell(octets, text)?;
    }
    Ok(())
}

/// The same text as of the values, out of the octets.
#[test]
fn a_telling_is_the_text(rt: HostRuntime) -> Result<(), Fail> {
    let octets = octets(rt.alloc(), SIX)?;
    let mut text = String::new(rt.alloc());
    tell(&octets, &mut text)?;
    assert!(rt; text.as_str() == SIX_TEXT);
    Ok(())
}
