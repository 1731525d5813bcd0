//! A script that ends with a drain.

use command_frame::{PartLineReader, drive_parts};
use edge_traits::{Status, SureSink, SureSource};
use std::alloc::{AllocError, Global};
use std::test::Fail;
use world_run::World;

/// The datagram that is sent is lost, and the drain sends it again once its timer is due.
const SCRIPT: &str = "path ipn:9.0 1024 10000 10 65536 1010000\n\
    send old 0681100d02010101000000008768053c00010803616263\n\
    send new\n\
    deliver 9\n\
    drain";

/// What is written of the script.
const WRITTEN: &str = "\
    sent 0 o>g 0301010001001702000681100d02010101000000008768053c00010803616263\n\
    refused n Empty\n\
    refused deliver\n\
    sent 1 o>g 0301010001001702000681100d02010101000000008768053c00010803616263\n\
    sent 2 g>o 0801010002021700010017\n\
    sent 3 g>n 0303010001002902009f8907000182028202018202820101820100821a000f42450019ea5b425a46850101000043616263ff\n\
    up g.o 1 0681100d02010101000000008768053c00010803616263\n\
    note g.o Passed 1 1\n\
    sent 4 o>g 0901010002\n\
    note o Sent 1\n\
    sent 5 n>g 0803010002022900010029\n\
    up n 1 9f8907000182028202018202820101820100821a000f42450019ea5b425a46850101000043616263ff\n\
    sent 6 g>n 0903010002\n\
    note g.n Sent 1\n\
    end 7\n";

/// What follows the script, how the run ends then, and what is written after the drain.
const ENDINGS: &[(&str, Status, &str)] = &[
    ("", Status::Done, ""),
    ("\n", Status::Done, ""),
    ("\ndrain", Status::Refused, "refused line 6 AfterDrain\n"),
];

/// How the script runs that ends so.
fn run(alloc: Global, ending: &str, sink: &mut SureSink) -> Result<Status, AllocError> {
    let mut script = String::new(alloc);
    script.push_str(SCRIPT)?;
    script.push_str(ending)?;
    let mut source = SureSource::new(alloc, script.as_bytes())?;
    let mut reader = PartLineReader::new(alloc, World::new(alloc));
    Ok(drive_parts(alloc, &mut reader, &mut source, sink))
}

#[test]
fn a_drain_is_the_last_line_that_is_answered(rt: HostRuntime) -> Result<(), Fail> {
    for &(ending, ends, output) in ENDINGS {
        let mut sink = SureSink::new(rt.alloc(), 4096)?;
        let status = run(rt.alloc(), ending, &mut sink)?;
        let mut written = String::new(rt.alloc());
        written.push_str(WRITTEN)?;
        written.push_str(output)?;
        assert_eq!(rt; sink.octets(), written.as_bytes(), "{ending}");
        assert!(rt; status == ends, "{ending}");
    }
    Ok(())
}
