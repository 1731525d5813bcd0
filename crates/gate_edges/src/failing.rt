//! Which calls are to fail.

ghost use Rattle.std.specs.Prelude.{◌≡◌, IfOk};
ghost use Rattle.edge_traits.specs.Faults.{fails_next, after_next};

use std::alloc::{AllocError, Global};
use std::marker::Model;

/// Which of the calls to come are to fail: one truth value a call, and false past their end.
#[derive(Drop)]
pub struct Failing {
    calls: Vec<bool>,
    at: usize,
}

impl Model for Failing {
    ghost use Rattle.std.specs.Prelude.{List, Bool, drop};

    ghost Value = { List Bool };

    ghost view = { λ f. drop f.at f.calls.items };
}

impl Failing {
    /// The calls as they are listed.
    pub fn new(alloc: Global, calls: &[bool]) -> Result<Failing, AllocError>
        ensures { IfOk result (λ f. f ≡ calls.now) }
    {
        let calls = Vec::from_slice(alloc, calls)?;
        Ok(Failing { calls, at: 0 })
    }

    /// Whether this call is to fail; the next answer is for the next call.
    pub fn fails(&mut self) -> bool
        ensures answer { result ≡ fails_next self.old }
        ensures later { self.new ≡ after_next self.old }
    {
        if self.at < self.calls.len() {
            let fails = self.calls[self.at];
            self.at += 1;
            return fails;
        }
        false
    }
}
