//! What the program says of each command: one table, from which the help, the lines about wrong
//! words and those about a limit are made. The script `fimdahol` and `.ci/checks` read it as text:
//! a field that is a block begins after `NAME: "\` with a line that has no blank before it, and
//! ends before `",`.

/// What is said of a command.
#[derive(Clone, Copy, Debug)]
pub struct CommandText {
    /// Its word.
    pub word: &'static str,
    /// How it is called, and what it does: a block.
    pub usage: &'static str,
    /// What it writes: a block, which may be that of several commands and stands at the first.
    pub writes: &'static str,
    /// Its limits besides the one on the size of an input: a block, or nothing.
    pub limits: &'static str,
    /// What it asks of its words, for a call with others.
    pub wants: &'static str,
    /// What a line does, or the command's own script, that passes a limit of the command's own.
    pub passes: &'static str,
}

/// The commands, in the order of the help.
pub const COMMANDS: &[CommandText] = &[
    CommandText {
        word: "receive",
        usage: "\
fimdahol receive [--keep-going] < DATAGRAMS
                                    hands up the red parts of recorded LTP datagrams
",
        writes: "\
receive reads one datagram in hex a line and writes
  up ORIGINATOR SESSION HEX      where a red part has become whole
  note LINE BadBounds            where a piece can't be one of its red part
  skip LINE                      where a segment is no red piece of service 1, or comes after
                                 its red part was handed up
  refused line LINE Hex          last, where a line is no hex
  refused line LINE AT CAUSE     last, where a datagram is no segment, and where; with
                                 --keep-going the next line is read, and the status is 1 at
                                 the end
",
        limits: "\
receive  1000000 lines, 9000000 octets a line, 64 unfinished sessions
",
        wants: "receive reads standard input: fimdahol receive [--keep-going] < FILE",
        passes: "leaves more than 64 sessions unfinished",
    },
    CommandText {
        word: "check",
        usage: "\
fimdahol check < BUNDLES          says the version and the size of each recorded bundle
",
        writes: "\
check, show, convert, cut and join read the octets of bundles of both versions, end to end,
and write
  VERSION SIZE                   by check, of each bundle
  {..}                           by show, of each bundle: its values
  HEX                            by convert, of each bundle: its octets in the other version
  HEX                            by cut, of each piece: its octets, at most SIZE of its payload
  Waiting, Repeat, Whole HEX     by join, of each piece: something is missing, it brought nothing
                                 new, or the bundle is whole: its octets
  NotFragment, TooLarge, TotalDiffers, Full    by join, of a bundle that isn't joined
  refused BUNDLE AT CAUSE        last, where a bundle isn't one, and where in the input
  refused BUNDLE CAUSE           last, by convert, cut and join, where a bundle can't be
                                 translated, or by cut must not be cut; with --keep-going
                                 the next bundle is answered, and the status is 1 at the end
",
        limits: "",
        wants: "check reads standard input: fimdahol check < FILE",
        passes: "passes a limit",
    },
    CommandText {
        word: "show",
        usage: "\
fimdahol show [--keep-going] < BUNDLES
                                    shows the values of each recorded bundle as JSON
",
        writes: "",
        limits: "",
        wants: "show reads standard input: fimdahol show [--keep-going] < FILE",
        passes: "passes a limit",
    },
    CommandText {
        word: "convert",
        usage: "\
fimdahol convert [--keep-going] < BUNDLES
                                    writes each recorded bundle in the other version
",
        writes: "",
        limits: "",
        wants: "convert reads standard input: fimdahol convert [--keep-going] < FILE",
        passes: "passes a limit",
    },
    CommandText {
        word: "cut",
        usage: "\
fimdahol cut SIZE [--keep-going] < BUNDLES
                                    cuts each recorded bundle into pieces
",
        writes: "",
        limits: "",
        wants: "cut wants one number, from 1 to 4194304: fimdahol cut SIZE [--keep-going] < FILE",
        passes: "passes a limit",
    },
    CommandText {
        word: "join",
        usage: "\
fimdahol join [--keep-going] < BUNDLES
                                    puts recorded pieces together
",
        writes: "",
        limits: "",
        wants: "join reads standard input: fimdahol join [--keep-going] < FILE",
        passes: "passes a limit",
    },
    CommandText {
        word: "node",
        usage: "\
fimdahol node OWN PEER < EVENTS   is one end of an LTP link, by the numbers of two engines
",
        writes: "\
node reads one event a line, in HEX (a datagram comes), send HEX (a block is to be sent) or
clock MS (time passes), and writes what the engine does
  out HEX                        a datagram is sent
  up SESSION HEX                 a red part is handed up
  green SESSION OFFSET LAST HEX  a piece of a green part is handed up; LAST is 1 where the
                                 block ends with it, else 0
  note NAME ..                   what an operator may want to know
  refused CAUSE                  a block isn't sent
  refused line LINE CAUSE        last, where a line is no event
",
        limits: "\
node     1000000 lines, 9000000 octets a line, a clock of 4611686018427387903 ms
",
        wants: "node wants two different numbers, from 1 to 4294967295: \
            fimdahol node OWN PEER < EVENTS",
        passes: "sets the clock past 4611686018427387903",
    },
    CommandText {
        word: "record",
        usage: "\
fimdahol record OWN PEER < EVENTS
                                    is the same end, and writes its exchange for audit
",
        writes: "\
record reads what node reads, and writes what comes and what the engine sends:
  in HEX                         a datagram came
  out HEX                        a datagram is sent
  refused line LINE CAUSE        last, where a line is no event
",
        limits: "\
record   1000000 lines, 9000000 octets a line, a clock of 4611686018427387903 ms
",
        wants: "record wants two different numbers, from 1 to 4294967295: \
            fimdahol record OWN PEER < EVENTS",
        passes: "sets the clock past 4611686018427387903",
    },
    CommandText {
        word: "audit",
        usage: "\
fimdahol audit OWN PEER < EXCHANGE  judges what came to an engine and left it
",
        writes: "\
audit reads one datagram a line, in HEX (it came to the engine OWN) or out HEX (it left), and writes
  ok LINES                       last, where no rule of an exchange is broken
  refused line LINE AT CAUSE     last, where a datagram is no segment, and where
  refused line LINE RULE         last, where one breaks a rule: Side, ClaimUnseen,
                                 CheckpointUnseen, AckUnseen, OctetsDiffer or CancelUnseen
  refused line LINE CAUSE        last, where a line is no datagram: Word or Hex
",
        limits: "\
audit    1000000 lines, 9000000 octets a line
",
        wants: "audit wants two different numbers, from 1 to 4294967295: \
            fimdahol audit OWN PEER < EXCHANGE",
        passes: "passes a limit",
    },
    CommandText {
        word: "link",
        usage: "\
fimdahol link < SCRIPT            replays a script on one link, which may be open only at times
",
        writes: "\
link reads a script of one LTP link between a first engine and a second, and writes what happens
there, at f and s. Its first line is link SEGMENT TIMEOUT LIMIT CAP START; lines window FROM TO may
follow, in which alone the link is open; then send first HEX or send second HEX (an end sends a
block), deliver K or clock MS; and as the last one, where there is one, drain. Timers stand still
while the link is closed. Without windows drain may have picks of what comes next: f or s, the
oldest new datagram of an end; oK, datagram K once more
  sent K ROUTE HEX               datagram K was sent: f>s or s>f
  up PLACE SESSION HEX           a block came whole, in this session
  note PLACE NAME ..             as of node
  refused PLACE CAUSE, refused deliver, refused closed         nothing is sent, or delivered
  at MS                          the drain is at this moment, where there are windows
  end EVENTS                     the drain is over, after so many deliveries and clocks
  stop EVENTS                    the last window ended before it was over
  refused line LINE CAUSE        last, where a line is no event, or a window is out of order: Window
",
        limits: "\
link     1000000 lines, 9000000 octets a line, a clock of 4611686018427387903 ms,
           268435456 octets of datagrams, 4096 windows, 100000 picks
",
        wants: "link reads standard input: fimdahol link < FILE",
        passes: "sets the clock past 4611686018427387903, \
            or leaves more than 268435456 octets of datagrams",
    },
    CommandText {
        word: "world",
        usage: "\
fimdahol world < SCRIPT           replays a script on an old node, the gateway and a new node
",
        writes: "\
world reads a script of a path between an old node and a new one, and writes what happens there,
at o, g.o, g.n and n: the old node, the gateway's two sides, and the new node. Its first line is
path GATE SEGMENT TIMEOUT LIMIT CUT START [CAP]; then send old HEX or send new HEX (a node sends a
bundle), deliver K (datagram K comes to where it was sent, again or at last) or clock MS; and as
the last one, where there is one, drain: from there on nothing is lost, until nothing is left to do
  sent K ROUTE HEX               datagram K was sent: o>g, g>o, g>n or n>g
  up PLACE SESSION HEX           a block came whole, in this session
  join PLACE WORD, join PLACE Whole HEX        a node has a piece more, or the whole
  note PLACE NAME ..             as of serve and node
  refused PLACE CAUSE, refused deliver         nothing is sent, or there is no such datagram
  end EVENTS                     the drain is over, after so many deliveries and clocks
  refused line LINE CAUSE        last, where a line is no event
",
        limits: "\
world    1000000 lines, 9000000 octets a line, a clock of 4611686018427387903 ms,
           268435456 octets of datagrams
",
        wants: "world reads standard input: fimdahol world < FILE",
        passes: "sets the clock past 4611686018427387903, \
            or leaves more than 268435456 octets of datagrams",
    },
    CommandText {
        word: "make",
        usage: "\
fimdahol make SEED COUNT          makes such a script, replays it, and sums what is written
",
        writes: "\
make reads nothing. It makes a script of COUNT bundles, 1 to 1000, out of SEED, with a drain at its
end, and writes
  made COUNT sent DATAGRAMS up BLOCKS events EVENTS sum SUM      the blocks that came whole at the
                                 two nodes, the events of the drain, and the transcript's sum
",
        limits: "\
make     a clock of 4611686018427387903 ms, 268435456 octets of datagrams
",
        wants: "make wants a seed below 18446744073709551616 and a count from 1 to 1000: \
            fimdahol make SEED COUNT",
        passes: "sets the clock past 4611686018427387903, \
            or leaves more than 268435456 octets of datagrams",
    },
    CommandText {
        word: "serve",
        usage: "\
fimdahol serve GATE OLD_BIND OLD_PEER NEW_BIND NEW_PEER TURNS
                                    is a gateway between two UDP sockets
",
        writes: "\
serve stands between a node of BPv6, at the old link, and one of BPv7, at the new link; GATE is its
own endpoint, for example ipn:9.0. Each link is a UDP socket at an address of its own (BIND) with
one peer; an address is an IP address or a host's name, and a port: 127.0.0.1:1113, [::1]:1113.
TURNS says how often both links are polled, up to 1000000000. It writes, at g.o of the old link and
at g.n of the new
  up PLACE SESSION HEX           a block came whole: a bundle
  note PLACE Passed SESSION PIECES             it went on
  note PLACE BadBundle SESSION AT CAUSE        it is no bundle, and where
  note PLACE Untranslated SESSION CAUSE        it can't be translated
  note PLACE Expired|HopLimit|Storage SESSION  it has expired, made too many hops, finds no room
  note PLACE Reported|Unreported SESSION       the report that it asks for was sent, or wasn't
  note PLACE NAME ..             what an engine notes
  note old Poll, note new Poll   a datagram couldn't be taken from a link
  note old Send, note new Send   a datagram couldn't be sent on a link, and is lost
",
        limits: "",
        wants: "serve wants a name, four addresses and 1 to 1000000000 turns: \
            fimdahol serve GATE OLD_BIND OLD_PEER NEW_BIND NEW_PEER TURNS",
        passes: "passes a limit",
    },
    CommandText {
        word: "gate",
        usage: "\
fimdahol gate FILE                runs the gateway that FILE configures
fimdahol gate check FILE          shows what a gateway's configuration means
",
        writes: "\
gate FILE is the gateway for operators: between the two links that FILE names, with its engine
numbers, timers, contacts and rates, until it is stopped. It writes a JSON object on a line for each
thing that an operator must know, as that it started, that a bundle passed, or that a contact opened;
and its metrics where FILE says so.

gate check reads FILE, which is TOML, and writes what it means as a file that says all of it, with its
defaults. Where FILE is refused, nothing is written, and standard error says where and what is wanted:
FILE: WHERE: WANTED
",
        limits: "",
        wants: "gate wants a file's name, or the word check and one: fimdahol gate FILE",
        passes: "passes a limit",
    },
];
