//! The receiving sessions in the order in which they were touched.

ghost use Rattle.std.specs.Prelude.{◌≡◌};
ghost use Rattle.ltp_engine.specs.Inbound.{with_touched};

use crate::held::Held;
use indexmap::IndexMap;

/// Receiving sessions by their numbers, from the longest untouched to the last touched. None of
/// them is over.
pub(crate) type Receivers = IndexMap<u64, Held>;

/// A session was touched: it is the last one now, where it is kept. It takes no memory.
pub(crate) fn touch(receivers: &mut Receivers, n: u64)
    ensures { receivers.new.entries ≡ with_touched n receivers.old.entries }
{
    if let Some(at) = receivers.get_index_of(&n) {
        let last = receivers.len() - 1;
        receivers.move_index(at, last);
    }
}
