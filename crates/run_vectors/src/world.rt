//! Scripts of `world`, what they give, and lines that end one.

use crate::runs::{surely, with_faults};
use edge_traits::Status;
use std::alloc::{AllocError, Global};
use std::test::Fail;

/// Scripts that are answered to their end, and what is written. In the first a bundle of version 6
/// comes over the gate to the new node as one of version 7, and its last datagram comes again.
const ANSWERED: &[(&str, &str)] = &[
    (
        "path ipn:9.0 1024 10000 10 65536 1010000\n\
         send old 0681100d02010101000000008768053c00010803616263\n\
         deliver 0\ndeliver 2\ndeliver 2\n",
        "sent 0 o>g 0301010001001702000681100d02010101000000008768053c00010803616263\n\
         sent 1 g>o 0801010002021700010017\n\
         sent 2 g>n 0303010001002902009f8907000182028202018202820101820100821a000f42450019ea5b425a46850101000043616263ff\n\
         up g.o 1 0681100d02010101000000008768053c00010803616263\n\
         note g.o Passed 1 1\n\
         sent 3 n>g 0803010002022900010029\n\
         up n 1 9f8907000182028202018202820101820100821a000f42450019ea5b425a46850101000043616263ff\n\
         sent 4 n>g 0803010003022900010029\n",
    ),
    // What isn't done has a line, and the run goes on; a clock that would go back stays.
    (
        "path ipn:9.0 1024 10000 10 65536 1010000\nsend new\ndeliver 9\nclock 5\nsend old\n",
        "refused n Empty\nrefused deliver\nrefused o Empty\n",
    ),
];

#[test]
fn a_path_answers(rt: HostRuntime) -> Result<(), Fail> {
    for &(input, output) in ANSWERED {
        assert!(rt;
            surely(
                rt.alloc(),
                &["world"],
                input.as_bytes(),
                output,
                Status::Done
            )?,
            "{input}"
        );
    }
    Ok(())
}

/// Inputs of which a line, or the end, ends the run, what is written, and how it ends.
const ENDED: &[(&str, &str, Status)] = &[
    ("", "refused line 1 Word\n", Status::Refused),
    ("\n", "refused line 1 Word\n", Status::Refused),
    ("send old zz\n", "refused line 1 Word\n", Status::Refused),
    (
        "path dtn:none 1024 10000 10 65536 zz\n",
        "refused line 1 Name\n",
        Status::Refused,
    ),
    (
        "path ipn:9.0 1024 10000 10 65536 1010000\ndeliver 0\npath ipn:9.0 x\n",
        "refused deliver\nrefused line 3 Word\n",
        Status::Refused,
    ),
    (
        "path ipn:9.0 1024 10000 10 65536 4611686018427387904\n",
        "",
        Status::Limit,
    ),
    (
        "path ipn:9.0 1024 10000 10 65536 0\ndeliver 0\nclock 4611686018427387904\n",
        "refused deliver\n",
        Status::Limit,
    ),
];

#[test]
fn a_line_or_the_end_ends_a_script(rt: HostRuntime) -> Result<(), Fail> {
    for &(input, output, status) in ENDED {
        assert!(rt;
            surely(rt.alloc(), &["world"], input.as_bytes(), output, status)?,
            "{input}"
        );
    }
    Ok(())
}

/// Whether the second read fails, so that the run ends with it, and the line that ended was answered.
fn second_read_fails(alloc: Global) -> Result<bool, AllocError> {
    with_faults(
        alloc,
        &["world"],
        b"path ipn:9.0 1024 10000 10 65536 0\nsend new\nsend ",
        (&[false, true], &[]),
        "refused n Empty\n",
        Status::ReadFault,
    )
}

#[test]
fn a_script_is_answered_line_by_line(rt: HostRuntime) -> Result<(), Fail> {
    assert!(rt; second_read_fails(rt.alloc())?);
    Ok(())
}
