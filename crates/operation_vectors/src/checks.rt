//! Checks of a configuration over an outside in memory. What files mean and why they are refused is
//! told by the rows of `gate check`, which run the whole program.

use edge_traits::{MemSink, MemSource, Sink, Source};
use gate_check::{Checked, check};
use std::alloc::Global;
use std::test::Fail;

/// The least file.
const LEAST: &str = "[gateway]\nendpoint = \"ipn:9.0\"\n[old]\nbind = \"a\"\npeer = \"b\"\n\
[new]\nbind = \"c\"\npeer = \"d\"\n";

/// The beginning of what it means.
const FRONT: &str = "[gateway]\nendpoint = \"ipn:9.0\"\ncut = 65536\nage = \"raise\"\n\n[old]\n";

/// A file, a read of which fails or not, and a sink, whose first write fails or not.
fn outside(alloc: Global, text: &str, fails: (bool, bool)) -> Result<(MemSource, MemSink), Fail> {
    let source = MemSource::new(alloc, text.as_bytes(), &[false, fails.0])?;
    let sink = MemSink::new(alloc, 1_000, &[fails.1])?;
    Ok((source, sink))
}

#[test]
fn what_a_file_means_is_written(rt: HostRuntime) -> Result<(), Fail> {
    let alloc = rt.alloc();
    let (mut file, mut sink) = outside(alloc, LEAST, (false, false))?;
    assert!(rt; matches!(check(alloc, &mut file, &mut sink), Checked::Done));
    assert!(rt; sink.octets().starts_with(FRONT.as_bytes()));
    assert!(rt; sink.octets().len() == 644);
    Ok(())
}

/// Whether a file is refused with this text.
fn is_refused(alloc: Global, checked: &Checked, text: &[u8]) -> Result<bool, Fail> {
    match checked {
        Checked::Refused(refusal) => Ok(refusal.text(alloc)?.as_slice() == text),
        _ => Ok(false),
    }
}

#[test]
fn a_refused_file_writes_nothing(rt: HostRuntime) -> Result<(), Fail> {
    let (mut file, mut sink) = outside(rt.alloc(), "[x]\ny = 1\n", (false, false))?;
    let checked = check(rt.alloc(), &mut file, &mut sink);
    assert!(rt; is_refused(rt.alloc(), &checked, b"x: there is no such key")?);
    assert!(rt; sink.octets().is_empty());
    Ok(())
}

/// How a check ends of which a read or a write fails, where it writes nothing.
fn failed(alloc: Global, fails: (bool, bool)) -> Result<Option<Checked>, Fail> {
    let (mut file, mut sink) = outside(alloc, LEAST, fails)?;
    let checked = check(alloc, &mut file, &mut sink);
    Ok(if sink.octets().is_empty() {
        Some(checked)
    } else {
        None
    })
}

#[test]
fn a_failed_call_is_told(rt: HostRuntime) -> Result<(), Fail> {
    assert!(rt; matches!(failed(rt.alloc(), (true, false))?, Some(Checked::ReadFault)));
    assert!(rt;
        matches!(
            failed(rt.alloc(), (false, true))?,
            Some(Checked::WriteFault)
        )
    );
    Ok(())
}
