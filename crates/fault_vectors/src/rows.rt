//! The runs whose every read and write fails: a run of each command that reads.

use crate::runs::Form;
use edge_traits::Status;

/// A run: its words, what each of its reads gives and what is written of it before the next, and how
/// it ends. No octets are the end of the input.
pub(crate) struct Row {
    pub(crate) words: &'static [&'static str],
    pub(crate) form: Form,
    pub(crate) reads: &'static [(&'static str, &'static str)],
    pub(crate) status: Status,
}

pub(crate) const ROWS: &[Row] = &[
    // The last line isn't whole, and is settled by the end.
    Row {
        words: &["receive"],
        form: Form::Text,
        reads: &[
            ("030107000103030800646566\n0001070001", ""),
            ("0003616263\n", "up 1 7 616263646566\n"),
            ("030107000103030800646566\n0001070001", "skip 3\n"),
            ("", "refused line 4 5 Truncated\n"),
        ],
        status: Status::Refused,
    },
    Row {
        words: &["receive", "--keep-going"],
        form: Form::Text,
        reads: &[
            ("zz\n0301", "refused line 1 Hex\n"),
            ("07000100030800616263\n", "up 1 7 616263\n"),
            ("", ""),
        ],
        status: Status::Refused,
    },
    // The last bundle isn't whole.
    Row {
        words: &["check"],
        form: Form::Hex,
        reads: &[
            ("0681100d0201010100000000876805", ""),
            ("3c000108036162639f89070001", "6 23\n"),
            (
                "82028202018202820101820100821a000f42450019ea5b425a46850101000043616263ff068110",
                "7 41\n",
            ),
            ("", "refused 3 67 Truncated\n"),
        ],
        status: Status::Refused,
    },
    Row {
        words: &["show"],
        form: Form::Hex,
        reads: &[
            ("0681100d02010101000000008768053c000108036162", ""),
            (
                "639f8907000182028202018202820101820100821a000f42450019ea5b425a46850101000043616263",
                "{\"blocks\":[{\"body\":\"616263\",\"flags\":0,\"kind\":1,\"refs\":[]}],\"creation\":[1000,5],\"custodian\":\"dtn:none\",\"destination\":\"ipn:2.1\",\"flags\":144,\"fragment\":null,\"lifetime\":60,\"report_to\":\"dtn:none\",\"source\":\"ipn:1.1\",\"version\":6}\n",
            ),
            (
                "ff",
                "{\"blocks\":[{\"body\":\"616263\",\"crc\":0,\"flags\":0,\"kind\":1,\"number\":1}],\"crc\":1,\"creation\":[1000005,0],\"destination\":\"ipn:2.1\",\"flags\":0,\"fragment\":null,\"lifetime\":59995,\"report_to\":\"dtn:none\",\"source\":\"ipn:1.1\",\"version\":7}\n",
            ),
            ("", ""),
        ],
        status: Status::Done,
    },
    // The first octet of the second bundle is of no version.
    Row {
        words: &["show", "--keep-going"],
        form: Form::Hex,
        reads: &[
            (
                "0681100d02010101000000008768053c00010803616263",
                "{\"blocks\":[{\"body\":\"616263\",\"flags\":0,\"kind\":1,\"refs\":[]}],\"creation\":[1000,5],\"custodian\":\"dtn:none\",\"destination\":\"ipn:2.1\",\"flags\":144,\"fragment\":null,\"lifetime\":60,\"report_to\":\"dtn:none\",\"source\":\"ipn:1.1\",\"version\":6}\n",
            ),
            ("07", "refused 2 23 Version\n"),
        ],
        status: Status::Refused,
    },
    Row {
        words: &["convert"],
        form: Form::Hex,
        reads: &[
            ("0681100d020101010000", ""),
            (
                "00008768053c000108036162639f8907000182028202018202820101820100821a000f42450019ea5b425a46850101000043616263ff",
                "9f8907000182028202018202820101820100821a000f42450019ea5b425a46850101000043616263ff\n\
                0681100d02010101000000008768053c00010803616263\n",
            ),
            (
                "0681180d02010101000000008768053c00010803616263",
                "refused 3 CustodyAsked\n",
            ),
        ],
        status: Status::Refused,
    },
    Row {
        words: &["convert", "--keep-going"],
        form: Form::Hex,
        reads: &[
            (
                "0681180d02010101000000008768053c000108036162630681",
                "refused 1 CustodyAsked\n",
            ),
            (
                "100d02010101000000008768053c00010803616263",
                "9f8907000182028202018202820101820100821a000f42450019ea5b425a46850101000043616263ff\n",
            ),
            ("", ""),
        ],
        status: Status::Refused,
    },
    Row {
        words: &["cut", "2"],
        form: Form::Hex,
        reads: &[
            ("0681100d02010101000000008768053c00010803", ""),
            (
                "616263",
                "0681110f02010101000000008768053c0000030108026162\n\
                0681110f02010101000000008768053c00020301080163\n",
            ),
            (
                "0681140d02010101000000008768053c00010803616263",
                "refused 2 MustNot\n",
            ),
        ],
        status: Status::Refused,
    },
    Row {
        words: &["cut", "2", "--keep-going"],
        form: Form::Hex,
        reads: &[
            (
                "0681140d02010101000000008768053c00010803616263",
                "refused 1 MustNot\n",
            ),
            (
                "0681100d02010101000000008768053c00010803616263",
                "0681110f02010101000000008768053c0000030108026162\n\
                0681110f02010101000000008768053c00020301080163\n",
            ),
            ("", ""),
        ],
        status: Status::Refused,
    },
    Row {
        words: &["join"],
        form: Form::Hex,
        reads: &[
            (
                "0681110f02010101000000008768053c000203010801630681110f020101010000",
                "Waiting\n",
            ),
            (
                "00008768053c00000301080261620681100d02010101000000008768053c00010803616263",
                "Whole 0681100d02010101000000008768053c00010803616263\nNotFragment\n",
            ),
            (
                "0681110f02010101000000008768053c00000301080261620681110f02010101000000008768053c0000030108026162",
                "Waiting\nRepeat\n",
            ),
            ("", ""),
        ],
        status: Status::Done,
    },
    Row {
        words: &["join", "--keep-going"],
        form: Form::Hex,
        reads: &[
            (
                "0681110f02010101000000008768053c00000301080261620681190f02010101000000008768053c0000030108026162",
                "Waiting\nrefused 2 CustodyAsked\n",
            ),
            (
                "0681110f02010101000000008768053c00020301080163",
                "Whole 0681100d02010101000000008768053c00010803616263\n",
            ),
            ("", ""),
        ],
        status: Status::Refused,
    },
    // The last line has half an octet too much.
    Row {
        words: &["node", "2", "1"],
        form: Form::Text,
        reads: &[
            (
                "in 030107000100030800616263\nclock 100",
                "out 0801070008080300010003\nup 7 616263\n",
            ),
            ("00\nin 0901070008\n", "out 0801070008080300010003\n"),
            (
                "in 030107000100030800616263\nsend\nin 0",
                "note Closed 7\nrefused Empty\n",
            ),
            ("", "refused line 6 Hex\n"),
        ],
        status: Status::Refused,
    },
    // The last line has no line feed.
    Row {
        words: &["record", "2", "1"],
        form: Form::Text,
        reads: &[
            (
                "in 030107000100030800616263\nclo",
                "in 030107000100030800616263\nout 0801070008080300010003\n",
            ),
            (
                "ck 10000\nin 0901070008\n",
                "out 0801070008080300010003\nin 0901070008\n",
            ),
            ("send 616263", ""),
            ("", "out 030201000100030200616263\n"),
        ],
        status: Status::Done,
    },
    // How many entries there are is settled by the end.
    Row {
        words: &["audit", "2", "1"],
        form: Form::Text,
        reads: &[
            ("in 030107000100030800616263\nout 08010700", ""),
            ("08080300010003\nin 0901070008\n", ""),
            ("", "ok 3\n"),
        ],
        status: Status::Done,
    },
    // An entry breaks a rule.
    Row {
        words: &["audit", "2", "1"],
        form: Form::Text,
        reads: &[
            ("in 030107000100030800616263\nout 08010700", ""),
            (
                "08080300010003\nin 0901070009\n",
                "refused line 3 AckUnseen\n",
            ),
        ],
        status: Status::Refused,
    },
    // A drain is settled by the end, where it has no line feed.
    Row {
        words: &["link"],
        form: Form::Text,
        reads: &[
            ("link 1024 10000 10 40000 0\nwindow 0 5000\nwin", ""),
            (
                "dow 100000 200000\nsend first 616263\nclock 6000\n",
                "sent 0 f>s 030101000100030200616263\n",
            ),
            ("deliver 0\ndrain", "refused closed\n"),
            (
                "",
                "at 105000\n\
                sent 1 f>s 030101000100030200616263\n\
                sent 2 s>f 0801010002020300010003\n\
                up s 1 616263\n\
                sent 3 f>s 0901010002\n\
                note f Sent 1\n\
                end 4\n",
            ),
        ],
        status: Status::Done,
    },
    Row {
        words: &["world"],
        form: Form::Text,
        reads: &[
            ("path ipn:9.0 1024 10000 10 65536 1010000\nsend o", ""),
            (
                "ld 0681100d02010101000000008768053c00010803616263\n\
                send new\n\
                deliver 9\n",
                "sent 0 o>g 0301010001001702000681100d02010101000000008768053c00010803616263\n\
                refused n Empty\n\
                refused deliver\n",
            ),
            ("drain", ""),
            (
                "",
                "sent 1 o>g 0301010001001702000681100d02010101000000008768053c00010803616263\n\
                sent 2 g>o 0801010002021700010017\n\
                sent 3 g>n 0303010001002902009f8907000182028202018202820101820100821a000f42450019ea5b425a46850101000043616263ff\n\
                up g.o 1 0681100d02010101000000008768053c00010803616263\n\
                note g.o Passed 1 1\n\
                sent 4 o>g 0901010002\n\
                note o Sent 1\n\
                sent 5 n>g 0803010002022900010029\n\
                up n 1 9f8907000182028202018202820101820100821a000f42450019ea5b425a46850101000043616263ff\n\
                sent 6 g>n 0903010002\n\
                note g.n Sent 1\n\
                end 7\n",
            ),
        ],
        status: Status::Done,
    },
];

/// A run of the command that reads nothing, and what it writes.
pub(crate) const MADE: &[Row] = &[Row {
    words: &["make", "7", "12"],
    form: Form::Text,
    reads: &[("", "made 12 sent 524 up 14 events 168 sum 3945896668\n")],
    status: Status::Done,
}];
