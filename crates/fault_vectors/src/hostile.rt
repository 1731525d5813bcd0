//! Inputs that were made to harm, and an outside that fails once in the midst of a run.

use crate::runs::{COMES, Form, PASSES, SERVE, links_with, octets, run_over, went};
use edge_traits::{MemSource, Status, Writing};
use std::alloc::Global;
use std::test::Fail;

/// Words and an input, which reads and which calls of the old link fail, what is written, how the run
/// ends, and what goes on the new link. On the old link a bundle comes. The writer has room for what
/// is to be written, and for no octet more.
struct Case {
    words: &'static [&'static str],
    form: Form,
    input: &'static str,
    reads: &'static [bool],
    calls: &'static [bool],
    text: &'static str,
    status: Status,
    gone: &'static [&'static str],
}

const CASES: &[Case] = &[
    // The second read fails, after the line that completes the red part.
    Case {
        words: &["receive"],
        form: Form::Text,
        input: "030107000103030800646566\n00010700010003616263\n",
        reads: &[false, true],
        calls: &[],
        text: "up 1 7 616263646566\n",
        status: Status::ReadFault,
        gone: &[],
    },
    // The writer takes nothing: it has room for what is wanted, and that is nothing.
    Case {
        words: &["receive"],
        form: Form::Text,
        input: "030107000100030800616263\n",
        reads: &[],
        calls: &[],
        text: "",
        status: Status::WriteFault,
        gone: &[],
    },
    // Each front of a red part in one piece.
    Case {
        words: &["receive"],
        form: Form::Text,
        input: "03\n",
        reads: &[],
        calls: &[],
        text: "refused line 1 1 Truncated\n",
        status: Status::Refused,
        gone: &[],
    },
    Case {
        words: &["receive"],
        form: Form::Text,
        input: "0301\n",
        reads: &[],
        calls: &[],
        text: "refused line 1 2 Truncated\n",
        status: Status::Refused,
        gone: &[],
    },
    Case {
        words: &["receive"],
        form: Form::Text,
        input: "030107\n",
        reads: &[],
        calls: &[],
        text: "refused line 1 3 Truncated\n",
        status: Status::Refused,
        gone: &[],
    },
    Case {
        words: &["receive"],
        form: Form::Text,
        input: "03010700\n",
        reads: &[],
        calls: &[],
        text: "refused line 1 4 Truncated\n",
        status: Status::Refused,
        gone: &[],
    },
    Case {
        words: &["receive"],
        form: Form::Text,
        input: "0301070001\n",
        reads: &[],
        calls: &[],
        text: "refused line 1 5 Truncated\n",
        status: Status::Refused,
        gone: &[],
    },
    Case {
        words: &["receive"],
        form: Form::Text,
        input: "030107000100\n",
        reads: &[],
        calls: &[],
        text: "refused line 1 6 Truncated\n",
        status: Status::Refused,
        gone: &[],
    },
    Case {
        words: &["receive"],
        form: Form::Text,
        input: "03010700010003\n",
        reads: &[],
        calls: &[],
        text: "refused line 1 7 Truncated\n",
        status: Status::Refused,
        gone: &[],
    },
    Case {
        words: &["receive"],
        form: Form::Text,
        input: "0301070001000308\n",
        reads: &[],
        calls: &[],
        text: "refused line 1 8 Truncated\n",
        status: Status::Refused,
        gone: &[],
    },
    Case {
        words: &["receive"],
        form: Form::Text,
        input: "030107000100030800\n",
        reads: &[],
        calls: &[],
        text: "refused line 1 9 Truncated\n",
        status: Status::Refused,
        gone: &[],
    },
    Case {
        words: &["receive"],
        form: Form::Text,
        input: "03010700010003080061\n",
        reads: &[],
        calls: &[],
        text: "refused line 1 9 Truncated\n",
        status: Status::Refused,
        gone: &[],
    },
    Case {
        words: &["receive"],
        form: Form::Text,
        input: "0301070001000308006162\n",
        reads: &[],
        calls: &[],
        text: "refused line 1 9 Truncated\n",
        status: Status::Refused,
        gone: &[],
    },
    // And one octet more than there is of it.
    Case {
        words: &["receive"],
        form: Form::Text,
        input: "03010700010003080061626300\n",
        reads: &[],
        calls: &[],
        text: "refused line 1 12 Trailing\n",
        status: Status::Refused,
        gone: &[],
    },
    // The first poll fails, and the bundle is there in the next turn.
    Case {
        words: SERVE,
        form: Form::Text,
        input: "",
        reads: &[],
        calls: &[true],
        text: "note old Poll\nup g.o 1 0681100d02010101000000008768053c00010803616263\nnote g.o Passed 1 1\n",
        status: Status::Done,
        gone: &[PASSES],
    },
    // The first send fails.
    Case {
        words: SERVE,
        form: Form::Text,
        input: "",
        reads: &[],
        calls: &[false, true],
        text: "note old Send\nup g.o 1 0681100d02010101000000008768053c00010803616263\nnote g.o Passed 1 1\n",
        status: Status::Done,
        gone: &[PASSES],
    },
    // Green octets of a red session, and red ones before them.
    Case {
        words: &["node", "2", "1"],
        form: Form::Text,
        input: "in 00010700010003616263\nin 0401070001060164\nin 000107000103056465666768\n",
        reads: &[],
        calls: &[],
        text: "green 7 6 0 64\nout 0e01070003\nnote Failed 7 3\n",
        status: Status::Done,
        gone: &[],
    },
    // A residue that says a slack of 1,000 ms.
    Case {
        words: &["convert"],
        form: Form::Hex,
        input: "0681100d02010101000000008768053c00c0010b4236374787680001000000010803616263",
        reads: &[],
        calls: &[],
        text: "refused 1 ResidueBad\n",
        status: Status::Refused,
        gone: &[],
    },
    // A residue with an octet too many.
    Case {
        words: &["convert"],
        form: Form::Hex,
        input: "0681100d02010101000000008768053c00c0010b4236374700000100000000010803616263",
        reads: &[],
        calls: &[],
        text: "refused 1 ResidueBad\n",
        status: Status::Refused,
        gone: &[],
    },
    // A wrapped block that is marked itself.
    Case {
        words: &["convert"],
        form: Form::Hex,
        input: "0681100d02010101000000008768053c00c1000d42363747814002000042363747010803616263",
        reads: &[],
        calls: &[],
        text: "refused 1 WrapBad\n",
        status: Status::Refused,
        gone: &[],
    },
    // A wrapped hop count that isn't legal.
    Case {
        words: &["convert"],
        form: Form::Hex,
        input: "0681100d02010101000000008768053c00c10009423637470a020000ff010803616263",
        reads: &[],
        calls: &[],
        text: "refused 1 WrapBad\n",
        status: Status::Refused,
        gone: &[],
    },
];

/// Runs a case into a writer with this room, and answers how it ends, and whether what is wanted went
/// on the new link.
fn ran(alloc: Global, case: &Case, room: &mut [u8]) -> Result<(Status, bool), Fail> {
    let input = octets(alloc, case.form, case.input)?;
    let mut source = MemSource::new(alloc, &input, case.reads)?;
    let mut links = links_with(alloc, [&[COMES], &[]], [case.calls, &[]])?;
    let mut sink = Writing::new(room);
    let status = run_over(alloc, case.words, &mut source, &mut sink, &mut links)?;
    Ok((status, went(alloc, &links.new, case.gone)?))
}

/// Whether a case goes so.
fn goes_so(alloc: Global, case: &Case) -> Result<bool, Fail> {
    let mut room = vec![in alloc; 0u8; case.text.len()]?;
    let (status, went) = ran(alloc, case, &mut room)?;
    Ok(status == case.status && went && room.as_slice() == case.text.as_bytes())
}

#[test]
fn each_case_has_its_answer(rt: HostRuntime) -> Result<(), Fail> {
    for case in CASES {
        assert!(rt; goes_so(rt.alloc(), case)?, "{} {}", case.input, case.text);
    }
    Ok(())
}
