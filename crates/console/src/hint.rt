//! What a command was given in place of what it reads, and what to call.
ghost use Rattle.std.specs.Prelude.{◌≡◌};
ghost use Rattle.console.specs.Hints.{line_of};

/// What a command was given in place of what it reads.
#[derive(Clone, Copy, Debug, PartialEq, Eq, Drop)]
pub enum Hint {
    /// No octet came.
    Empty,
    /// A capture: pcap or pcapng.
    Capture,
    /// Compressed by gzip, xz or zstd.
    Compressed,
    /// A byte order mark.
    Marked,
    /// JSON, as `show` writes it.
    Json,
    /// Hex in place of octets.
    HexFile,
    /// Hex with 0x before it in place of octets.
    HexFilePrefix,
    /// A line's end after the last bundle.
    LineEnd,
    /// Text in place of octets.
    Text,
    /// A line that ends with CR LF.
    CrLf,
    /// A line without content.
    BlankLine,
    /// A comment.
    Comment,
    /// Octets that are no text.
    Binary,
    /// A tab between words.
    Tab,
    /// A space too many.
    EmptyWord,
    /// A word in upper case.
    UpperCase,
    /// 0x before hex.
    Prefix,
    /// Hex with something between the digits.
    Spaced,
    /// An odd number of digits.
    Odd,
    /// Other digits.
    Digits,
    /// A line of a script, where a datagram is wanted.
    ScriptLine,
    /// A bundle in hex, where a datagram is wanted.
    BundleLine,
    /// A datagram without its word.
    BareHex,
    /// A line of `world`.
    WorldLine,
    /// A line that `node` writes.
    NodeSaid,
    /// A clock that is no number.
    NodeClock,
    /// No line of `node`.
    NodeWords,
    /// Another first line.
    NoPath,
    /// A second path.
    SecondPath,
    /// Other words of a path.
    PathWords,
    /// No endpoint.
    Gate,
    /// Another segment.
    Segment,
    /// Another timeout.
    Timeout,
    /// Another limit.
    Limit,
    /// Another cut.
    Cut,
    /// Another start.
    Start,
    /// Another cap.
    Cap,
    /// A send of no end.
    SendSide,
    /// A line of `node`.
    NodeLine,
    /// A line that `world` writes.
    WorldSaid,
    /// A line after drain.
    AfterDrain,
    /// No number.
    WorldNumber,
    /// No line of `world`.
    WorldWords,
    /// A script's hex with something between the digits.
    SpacedWord,
    /// No line of `audit`.
    ExchangeWords,
    /// Another first line of `link`.
    NoLink,
    /// A number of a link that is out of its range.
    LinkStart,
    /// Windows that are no plan.
    LinkWindow,
    /// No number, in a line of `link`.
    LinkNumber,
    /// No line of `link`.
    LinkWords,
}

impl Hint {
    /// Its line for standard error: what the input looks like, and what to call.
    pub fn line(&self) -> &'static str
        ensures { result.now ≡ line_of self.now }
    {
        match self {
            Hint::Empty => {
                "fimdahol: the input is empty; 'fimdahol --help' says what each command reads\n"
            }
            Hint::Capture => {
                "fimdahol: the input is a capture; what its datagrams carry comes by: tshark -r FILE -T fields -e udp.payload 'udp.dstport == 1113' | fimdahol receive\n"
            }
            Hint::Compressed => {
                "fimdahol: the input is compressed; unpack it first, as by gunzip, unxz or unzstd\n"
            }
            Hint::Marked => {
                "fimdahol: the input begins with a byte order mark, which no command reads; of UTF-8 it is three octets: tail -c +4 FILE; UTF-16 is made UTF-8 by: iconv -f UTF-16 -t UTF-8 FILE\n"
            }
            Hint::Json => "fimdahol: this is JSON, as show writes it, which no command reads\n",
            Hint::HexFile => {
                "fimdahol: this is hex, and octets are wanted: xxd -r -p FILE | fimdahol check\n"
            }
            Hint::HexFilePrefix => {
                "fimdahol: this is hex after 0x, and octets are wanted: sed 's/0[xX]//g' FILE | xxd -r -p | fimdahol check\n"
            }
            Hint::LineEnd => {
                "fimdahol: a line's end follows the last bundle; printf writes none, where echo does: head -c -1 FILE leaves the last octet out\n"
            }
            Hint::Text => {
                "fimdahol: this is text, and octets of bundles are wanted; those of base64 come by: base64 -d FILE | fimdahol check\n"
            }
            Hint::CrLf => {
                "fimdahol: the line ends with CR LF, and LF is wanted: tr -d '\\r' < FILE leaves the CR out\n"
            }
            Hint::BlankLine => {
                "fimdahol: the line is empty, which says nothing; grep . FILE leaves such lines out\n"
            }
            Hint::Comment => {
                "fimdahol: the line is a comment, which no command reads; grep -v '^#' FILE leaves such lines out\n"
            }
            Hint::Binary => {
                "fimdahol: the line is no text; octets are written in hex, a line of them by: xxd -p FILE | tr -d '\\n'\n"
            }
            Hint::Tab => "fimdahol: the line has a tab; words are separated by single spaces\n",
            Hint::EmptyWord => {
                "fimdahol: the line has a space too many; words are separated by single spaces, and none stands at the end\n"
            }
            Hint::UpperCase => {
                "fimdahol: the line begins in upper case; the words of a script are in lower case\n"
            }
            Hint::Prefix => {
                "fimdahol: the hex has 0x before it, and is wanted without: sed 's/0[xX]//g' FILE\n"
            }
            Hint::Spaced => {
                "fimdahol: the hex has spaces, tabs, colons or minuses in it, and is wanted without: tr -d ' \\t:-' < FILE\n"
            }
            Hint::Odd => "fimdahol: the hex has an odd number of digits, and an octet is two\n",
            Hint::Digits => "fimdahol: octets are written in hex: digits 0 to 9 and a to f\n",
            Hint::ScriptLine => {
                "fimdahol: the line is one of a script; in, send and clock are of: fimdahol node OWN PEER; the others of: fimdahol world\n"
            }
            Hint::BundleLine => {
                "fimdahol: the line is a bundle in hex, and a datagram of LTP is wanted; of bundles: xxd -r -p FILE | fimdahol check\n"
            }
            Hint::BareHex => {
                "fimdahol: the line is hex alone; a datagram that comes is said by: in HEX\n"
            }
            Hint::WorldLine => "fimdahol: the line is one of: fimdahol world\n",
            Hint::NodeSaid => {
                "fimdahol: the line is one that node writes; what one end says by out comes to the other by: in HEX\n"
            }
            Hint::NodeClock => {
                "fimdahol: a clock is in whole milliseconds since the beginning, in decimal: clock MS\n"
            }
            Hint::NodeWords => "fimdahol: a line is one of: in HEX, send HEX, clock MS\n",
            Hint::NoPath => {
                "fimdahol: the first line is to be: path GATE SEGMENT TIMEOUT LIMIT CUT START [CAP]\n"
            }
            Hint::SecondPath => "fimdahol: path is the first line of a script, and no other\n",
            Hint::PathWords => {
                "fimdahol: a path has six or seven words: path GATE SEGMENT TIMEOUT LIMIT CUT START [CAP]\n"
            }
            Hint::Gate => {
                "fimdahol: GATE, the first word after path, is to be an endpoint other than dtn:none, such as ipn:9.0\n"
            }
            Hint::Segment => {
                "fimdahol: SEGMENT, the second word after path, is to be 512 to 8192, in octets\n"
            }
            Hint::Timeout => {
                "fimdahol: TIMEOUT, the third word after path, is to be 1 to 3600000, in ms\n"
            }
            Hint::Limit => "fimdahol: LIMIT, the fourth word after path, is to be 1 to 100\n",
            Hint::Cut => {
                "fimdahol: CUT, the fifth word after path, is to be 1 to 4000000, in octets\n"
            }
            Hint::Start => {
                "fimdahol: START, the sixth word after path, is to be a whole number of ms since the beginning of 2000\n"
            }
            Hint::Cap => {
                "fimdahol: CAP, the seventh word after path, is to be TIMEOUT to 3600000, in ms\n"
            }
            Hint::SendSide => "fimdahol: a send says of which end: send old HEX, send new HEX\n",
            Hint::NodeLine => {
                "fimdahol: the line is one of: fimdahol node OWN PEER; on a path a datagram comes by: deliver K\n"
            }
            Hint::WorldSaid => {
                "fimdahol: the line is one that world writes, and none of a script\n"
            }
            Hint::AfterDrain => "fimdahol: drain is the last line of a script\n",
            Hint::WorldNumber => {
                "fimdahol: K and MS are whole numbers in decimal, without zeros in front: deliver K, clock MS\n"
            }
            Hint::WorldWords => {
                "fimdahol: a line is one of: send old HEX, send new HEX, deliver K, clock MS, drain\n"
            }
            Hint::SpacedWord => {
                "fimdahol: the hex of a line is one word, without spaces, tabs, colons or minuses in it\n"
            }
            Hint::ExchangeWords => { "fimdahol: a line is one of: in HEX, out HEX\n" }
            Hint::NoLink => {
                "fimdahol: the first line is to be: link SEGMENT TIMEOUT LIMIT CAP START\n"
            }
            Hint::LinkStart => {
                "fimdahol: SEGMENT is 512 to 8192, in octets; TIMEOUT is 1 to 3600000, CAP from TIMEOUT on to 3600000, and START any, in whole ms; LIMIT is 1 to 100\n"
            }
            Hint::LinkWindow => {
                "fimdahol: a window ends after it begins, by 4611686018427387904 at the latest, and begins at or after the end of the one before it; there are at most 4096\n"
            }
            Hint::LinkNumber => {
                "fimdahol: FROM, TO, K and MS are whole numbers in decimal, without zeros in front: window FROM TO, deliver K, clock MS\n"
            }
            Hint::LinkWords => {
                "fimdahol: a line is one of: window FROM TO, before all others; send first HEX, send second HEX, deliver K, clock MS, drain\n"
            }
        }
    }
}
