//! When the timers of sessions are due.

ghost use Rattle.std.specs.Prelude.{◌≡◌};
ghost use Rattle.ltp_session.specs.Engine.{earlier};

/// The earlier of two moments, where there are any.
pub(crate) fn earlier(first: Option<u64>, second: Option<u64>) -> Option<u64>
    ensures { result ≡ earlier first second }
{
    match (first, second) {
        (None, _) => second,
        (Some(first), None) => Some(first),
        (Some(first), Some(second)) => Some(first.min(second)),
    }
}
