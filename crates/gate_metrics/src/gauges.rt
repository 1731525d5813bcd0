//! How things stand.

/// When a link is open.
#[derive(Clone, Copy, Debug, PartialEq, Eq)]
pub enum LinkGauge {
    /// It is open.
    Open,
    /// It is closed, and opens.
    Opens {
        /// In how many milliseconds.
        after: u64,
    },
    /// It is closed for good.
    Closed,
}

/// How things stand at a face.
#[derive(Clone, Copy, Debug, PartialEq, Eq)]
pub struct FaceGauges {
    /// How many sending sessions are kept.
    pub sending_sessions: u64,
    /// How many receiving sessions are kept.
    pub receiving_sessions: u64,
    /// How many datagrams wait.
    pub outbox_datagrams: u64,
    /// How many octets they have.
    pub outbox_octets: u64,
    /// When the link is open.
    pub link: LinkGauge,
}

/// How things stand at a moment.
#[derive(Clone, Copy, Debug, PartialEq, Eq)]
pub struct Gauges {
    /// At the old face.
    pub old: FaceGauges,
    /// At the new face.
    pub new: FaceGauges,
    /// How many pieces in the journal haven't ended.
    pub pending_pieces: u64,
}
