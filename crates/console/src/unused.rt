//! A link and a clock for runs that use none: only `serve` does.
ghost use Rattle.std.specs.Prelude.{[], None, Some};

use edge_traits::{Clock, Failed, Link};

/// A link to which nothing comes, and which drops what is sent; or a clock that stands at 0.
#[derive(Clone, Copy, Debug, Drop)]
pub struct Unused;

impl Link for Unused {
    ghost coming = { λ _. Some [] };

    ghost gone = { λ _. None };

    ghost failing = { λ _. Some [] };

    ghost faults = { λ _. 0 };

    fn poll(&mut self, _buf: &mut [u8]) -> Result<Option<usize>, Failed> {
        Ok(None)
    }

    fn send(&mut self, _datagram: &[u8]) -> Result<(), Failed> {
        Ok(())
    }
}

impl Clock for Unused {
    ghost readings = { λ _. None };

    ghost shown = { λ _. 0 };

    fn now(&mut self) -> u64 {
        0
    }
}
