//! Three runs, one after another, and what is seen of each bundle in them.

use crate::outside::Comes;
use crate::rows::plain_file;

/// The first run has six turns. Five bundles come from the old node, the third in two parts of which the
/// later one comes first, and one from the new node. The nodes report on three of the blocks that go on.
pub(crate) fn first() -> Comes {
    Comes {
        file: plain_file(),
        readings: &[
            1010000, 1010000, 1011000, 1011000, 1012000, 1012000, 1013000, 1013000, 1014000,
            1014000, 1015000, 1015000,
        ],
        gives: [
            &[
                "0301010001001702000681100d02010101000000008768053c00010803616263",
                "-",
                "0301020001001702000681100d02010101000000008768063c00010803676869",
                "-",
                "03010300010a0d020000008768083c000108036a6b6c",
                "-",
                "0001030001000a0681100d020101010000",
                "03010300010a0d020000008768083c000108036a6b6c",
                "-",
                "0802010002021700010017",
                "-",
                "0301040001001702000681100d02010101000000008768093c000108036d6e6f",
                "0301050001001702000681100d020101010000000087680a3c00010803707172",
                "-",
            ],
            &[
                "-",
                "0803010002022900010029",
                "-",
                "0304010001002902009f8907000182028201018202820201820100821a000f42470019ea5942fb2d85\
0101000043646566ff",
                "-",
                "-",
                "-",
                "0803030002042900010029",
                "-",
            ],
        ],
    }
}

/// In the second one, of two turns, one more bundle comes, and again the later part of the third one and
/// the fourth one.
pub(crate) fn second() -> Comes {
    Comes {
        file: plain_file(),
        readings: &[1030000, 1030000, 1031000, 1031000],
        gives: [
            &[
                "0301150001001702000681100d02010101000000008768143c00010803737475",
                "03010300010a0d020000008768083c000108036a6b6c",
                "-",
                "0301040001001702000681100d02010101000000008768093c000108036d6e6f",
                "-",
            ],
            &["-", "-"],
        ],
    }
}

/// In the third one, of one turn, nothing comes.
pub(crate) fn third() -> Comes {
    Comes {
        file: plain_file(),
        readings: &[1050000, 1050000],
        gives: [&["-"], &["-"]],
    }
}

/// What is seen of a bundle.
#[derive(Clone, Copy)]
pub(crate) struct Bundle {
    /// In what was made: a report says that its block came whole.
    pub(crate) claimed: &'static str,
    /// The block as which it goes on, in hex.
    pub(crate) block: &'static str,
    /// In what was made: a report on that block is acknowledged.
    pub(crate) sent: &'static str,
}

/// The bundles, in the order in which they come.
pub(crate) fn bundles() -> [Bundle; 7] {
    [
        Bundle {
            claimed: "sent old 08010100",
            block: "9f8907000182028202018202820101820100821a000f42450019ea5b425a46850101000043616263ff",
            sent: "sent new 09030100",
        },
        Bundle {
            claimed: "sent old 08010200",
            block: "9f8907000182028202018202820101820100821a000f42460019ea5a42cc2d850101000043676869ff",
            sent: "sent new 09030200",
        },
        third_bundle(),
        Bundle {
            claimed: "sent new 08040100",
            block: "0681100d01010201000000008768073c00010803646566",
            sent: "sent old 09020100",
        },
        Bundle {
            claimed: "sent old 08010400",
            block: "9f8907000182028202018202820101820100821a000f42490019ea5742f6108501010000436d6e6fff",
            sent: "sent new 09030400",
        },
        Bundle {
            claimed: "sent old 08010500",
            block: "9f8907000182028202018202820101820100821a000f424a0019ea5642607b850101000043707172ff",
            sent: "sent new 09030500",
        },
        Bundle {
            claimed: "sent old 08011500",
            block: "9f8907000182028202018202820101820100821a000f42540019ea4c421401850101000043737475ff",
            sent: "sent new 09031500",
        },
    ]
}

/// In what was made: a report on a part of the third bundle's block.
pub(crate) const IN_PART: &str = "021700010a0d\n";

/// In what was made: any report on it.
pub(crate) const REPORTED: &str = "sent old 08010300";

/// In what was made: its session is cancelled.
pub(crate) const CANCELLED: &str = "sent old 0e01030004\n";

/// In what is kept: its session is marked.
pub(crate) const MARKED: &str = "mark old 3\n";

/// The bundle whose later part comes first.
pub(crate) fn third_bundle() -> Bundle {
    Bundle {
        claimed: "sent old 0801030005021700010017",
        block: "9f8907000182028202018202820101820100821a000f42480019ea5842c5568501010000436a6b6cff",
        sent: "sent new 09030300",
    }
}
