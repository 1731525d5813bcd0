//! A contact window.

/// The moments from `from` to before `to`, in milliseconds, at which a link is open.
#[derive(Clone, Copy, Debug, PartialEq, Eq)]
pub struct Window {
    /// The first moment at which it is open.
    pub from: u64,
    /// The first moment at which it is closed again.
    pub to: u64,
}
