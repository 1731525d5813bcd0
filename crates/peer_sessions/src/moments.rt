//! When each receiving session was last touched.

ghost use Rattle.std.specs.Prelude.{◌≡◌, ◌++◌, ◌∷◌, ◌==◌, ◌-◌, [], false, not, nat_le, IfOk, OnOk};
ghost use Rattle.ltp_session.specs.Table.{without};
ghost use Rattle.ltp_engine.specs.Sessions.{is_receiving};
ghost use Rattle.peer_sessions.specs.Sessions.{still_kept};
ghost use Rattle.peer_sessions.specs.Moments.{stale_in, added_if, moments_if};

use ltp_engine::Engine;
use std::alloc::{AllocError, Global};
use std::marker::Model;

/// The moment at which each receiving session was last touched, after its number; the longest untouched
/// first.
#[derive(Debug, Drop)]
pub(crate) struct Moments {
    touches: Vec<(u64, u64)>,
}

impl Model for Moments {
    ghost use Rattle.std.specs.Prelude.{List, ℕ};

    ghost Value = { List (ℕ × ℕ) };

    ghost view = { λ moments. moments.touches.items };
}

impl Moments {
    /// No session was touched. It takes no memory.
    pub fn new(alloc: Global) -> Moments
        ensures { result ≡ [] }
    {
        Moments {
            touches: Vec::new(alloc),
        }
    }

    /// A session was touched, if it was.
    pub fn touch_if(&mut self, n: u64, now: u64, touched: bool) -> Result<(), AllocError>
        ensures { OnOk result (self.new ≡ moments_if n now touched self.old) }
    {
        if touched {
            self.touch(n, now)?;
        }
        Ok(())
    }

    /// A session was touched: it is the last one now.
    fn touch(&mut self, n: u64, now: u64) -> Result<(), AllocError>
        ensures { OnOk result (self.new ≡ without n self.old ++ (n, now) ∷ []) }
    {
        self.touches.retain(|touch| is_other(n, touch));
        self.touches.push((n, now))?;
        Ok(())
    }

    /// Those of sessions that the engine keeps, and no others.
    pub fn keep_received(&mut self, engine: &Engine)
        requires { engine.now.spent ≡ false }
        ensures { self.new ≡ still_kept engine.now.inbound.receivers self.old }
    {
        self.touches.retain(|touch| is_received(engine, touch));
    }

    /// The sessions that nothing touched for as long as a number is remembered.
    pub fn stale(&self, alloc: Global, keep_ms: u64, now: u64) -> Result<Vec<u64>, AllocError>
        ensures { IfOk result (λ numbers. numbers.items ≡ stale_in keep_ms now self.now) }
    {
        let mut numbers = Vec::new(alloc);
        'touches: for (n, at) in self.touches.iter() {
            add_if(&mut numbers, *n, now.saturating_sub(*at) >= keep_ms)?;
        }
        Ok(numbers)
    }
}

/// Whether a touch is that of another session.
fn is_other(n: u64, touch: &(u64, u64)) -> bool
    ensures { result ≡ not (touch.now.0 == n) }
{
    touch.0 != n
}

/// Whether a touch is that of a session that the engine keeps.
fn is_received(engine: &Engine, touch: &(u64, u64)) -> bool
    requires { engine.now.spent ≡ false }
    ensures { result ≡ is_receiving touch.now.0 engine.now.inbound.receivers }
{
    engine.is_receiving(touch.0)
}

/// Adds a number, where it is to be added.
fn add_if(numbers: &mut Vec<u64>, n: u64, adds: bool) -> Result<(), AllocError>
    ensures { OnOk result (numbers.new.items ≡ numbers.old.items ++ added_if n adds) }
{
    if adds {
        numbers.push(n)?;
    }
    Ok(())
}
