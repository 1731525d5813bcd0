//! What happened, as the lines of a transcript have it.

ghost use Rattle.std.specs.Prelude.{◌≡◌, IfSome, IfNone, IsSomeAnd, option_map};
ghost use Rattle.replay_script.specs.Lines.{route_word, site_word, octets_of};

use endpoint::Octets;

/// Which way a datagram went.
#[derive(Clone, Copy, Debug, PartialEq, Eq)]
pub enum Route {
    /// From the old node to the gate.
    OldGate,
    /// From the gate to the old node.
    GateOld,
    /// From the gate to the new node.
    GateNew,
    /// From the new node to the gate.
    NewGate,
    /// From the first end of a link to the second.
    FirstSecond,
    /// From the second end of a link to the first.
    SecondFirst,
}

/// Which engine something happened at.
#[derive(Clone, Copy, Debug, PartialEq, Eq)]
pub enum Site {
    /// The old node's.
    OldNode,
    /// The gate's on its old side.
    GateOld,
    /// The gate's on its new side.
    GateNew,
    /// The new node's.
    NewNode,
    /// The first one of a link.
    First,
    /// The second one of a link.
    Second,
}

/// A line of a transcript. Where a site may be left out, the line is one of a single engine.
#[derive(Debug, Drop, PartialEq, Eq)]
pub enum Line {
    /// A datagram was sent, which has this number among all that were.
    Sent {
        k: u64,
        route: Route,
        datagram: Octets,
    },
    /// A red part was handed up.
    Up {
        site: Option<Site>,
        session: u64,
        body: Octets,
    },
    /// An end took a fragment and has no whole bundle yet, or never will by it.
    Join {
        site: Site,
        word: &'static str,
    },
    /// An end joined fragments to a whole bundle.
    JoinWhole {
        site: Site,
        body: Octets,
    },
    /// A note of an engine or of the gate. Its numbers stand before its word, and the second only
    /// with the first.
    Note {
        site: Option<Site>,
        name: &'static str,
        first: Option<u64>,
        second: Option<u64>,
        word: Option<&'static str>,
    },
    /// What was to be sent wasn't, for this cause.
    RefusedSend {
        site: Option<Site>,
        cause: &'static str,
    },
    /// There is no datagram that has the number of a delivery.
    RefusedDeliver,
    /// Nothing is delivered while a link is closed.
    RefusedClosed,
    /// What follows happens at this moment, at which a link is open.
    At {
        now: u64,
    },
    /// A drain ended after so many events.
    End {
        events: u64,
    },
    /// The plan of a link's windows ended a drain after so many events.
    Stop {
        events: u64,
    },
    /// A single engine sends a datagram.
    Out {
        datagram: Octets,
    },
    /// Green data was handed up. The block ends with it, or it doesn't.
    Green {
        session: u64,
        offset: u64,
        last: bool,
        body: Octets,
    },
    /// A call on a link of the gate failed: a send, or else a poll.
    LinkNote {
        old: bool,
        send: bool,
    },
    /// A line of the input is refused, at this place where it has one.
    RefusedLine {
        line: u64,
        at: Option<u64>,
        cause: &'static str,
    },
}

impl Route {
    /// How a line names it.
    pub fn word(&self) -> &'static str
        ensures { result.now ≡ route_word self.now }
    {
        match self {
            Route::OldGate => "o>g",
            Route::GateOld => "g>o",
            Route::GateNew => "g>n",
            Route::NewGate => "n>g",
            Route::FirstSecond => "f>s",
            Route::SecondFirst => "s>f",
        }
    }
}

impl Site {
    /// How a line names it.
    pub fn word(&self) -> &'static str
        ensures { result.now ≡ site_word self.now }
    {
        match self {
            Site::OldNode => "o",
            Site::GateOld => "g.o",
            Site::GateNew => "g.n",
            Site::NewNode => "n",
            Site::First => "f",
            Site::Second => "s",
        }
    }
}

impl Line {
    /// The octets of a line, where it has such.
    pub(crate) fn octets(&self) -> Option<&[u8]>
        ensures { option_map (λ octets. octets.now) result ≡ octets_of self.now }
    {
        match self {
            Line::Sent { datagram, .. } | Line::Out { datagram } => Some(datagram.as_slice()),
            Line::Up { body, .. } | Line::JoinWhole { body, .. } | Line::Green { body, .. } => {
                Some(body.as_slice())
            }
            _ => None,
        }
    }
}
