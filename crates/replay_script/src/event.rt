//! What the lines of a script make happen.

use endpoint::{Endpoint, Octets};

/// A line of a script for two engines and the gate between them.
#[derive(Debug, Drop, PartialEq, Eq)]
pub enum Event {
    /// `path`: what the run stands on. Its line is the first one.
    Path {
        /// The gate's name, which isn't the null endpoint.
        gate: Endpoint,
        /// The octets of a segment's data, from 512 to 8,192.
        segment: u64,
        /// The first wait for an answer in ms, from 1 to 3,600,000.
        timeout: u64,
        /// The most times that a segment is sent which waits for an answer, from 1 to 100.
        limit: u64,
        /// The octets of a bundle's payload above which the gate cuts it, from 1 to 4,000,000.
        cut: u64,
        /// The moment at which the clock begins, in ms.
        start: u64,
        /// The longest wait in ms, from the timeout to 3,600,000. It is the timeout where the line
        /// doesn't give it.
        cap: u64,
    },

    /// `send`: a node sends these octets to the gate.
    Send {
        /// Whether the node is the old one.
        old: bool,
        /// What it sends.
        body: Octets,
    },

    /// `deliver`: a datagram comes to where it was sent, at the first time or again.
    Deliver {
        /// The datagram's number among all that were sent.
        k: u64,
    },

    /// `clock`: time passes.
    Clock {
        /// The moment in ms.
        now: u64,
    },

    /// `drain`: all that is under way arrives, until nothing is. Its line is the last one.
    Drain,
}

/// A line of a script for one engine.
#[derive(Debug, Drop, PartialEq, Eq)]
pub enum NodeEvent {
    /// `in`: a datagram comes.
    In {
        /// The datagram, which may be empty.
        datagram: Octets,
    },

    /// `send`: a block is sent, all of it red.
    Send {
        /// The block, which may be empty.
        body: Octets,
    },

    /// `clock`: time passes.
    Clock {
        /// The moment in ms.
        now: u64,
    },
}
