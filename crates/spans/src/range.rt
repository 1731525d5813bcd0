//! A maximal covered range.

/// The places from `from` to before `to`.
#[derive(Clone, Copy, Debug, PartialEq, Eq)]
pub struct Run {
    /// The first place of the range.
    pub from: u64,

    /// The first place after it.
    pub to: u64,
}
