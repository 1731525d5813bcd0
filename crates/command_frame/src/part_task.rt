//! A command that hands on in parts the text that its octets settle.
ghost use Rattle.std.specs.Prelude.{◌≡◌, ℕ, ◌<◌, List, [], Option, None, IfOk, OnErr};
ghost use Rattle.std.specs.String.{string_bytes};
ghost use Rattle.edge_traits.specs.Outcome.{IsAnswer};
ghost use Rattle.command_frame.specs.Task.{Settling, Finishes};
ghost use Rattle.edge_traits.specs.Settled.{at_end};
ghost use Rattle.command_frame.specs.declared.line_passed.LinePassed.{LinePassed};
ghost use Rattle.command_frame.specs.Limits.{Limiting};
ghost use Rattle.command_frame.specs.PartTask.{FeedsPart, LeavesDue, TellsPart, LeavesFewer, TakesLast, LeavesTurn, BeganBefore, TakesWithin, LastWithin};

use crate::turned::Turned;
use edge_traits::Status;
use std::alloc::AllocError;

/// What was taken of a piece.
#[derive(Clone, Copy, Debug, PartialEq, Eq, Drop)]
pub enum Taken {
    /// All of it, and no text is due.
    All,
    /// So many octets, and text is due that they settle.
    Due(usize),
    /// As many as settle how the run ends: with `Refused` or `Limit`.
    Ends(Status),
}

/// A command whose octets may settle a text that is too long to be kept whole. It takes octets up to
/// where such a text is due, and hands that on part by part before it takes more; how long a part is, no
/// clause says. After want of memory,
/// and once it answered how the run ends, it is told nothing more.
pub trait PartTask {
    // This text is due, and after it the octets still to come settle that.
    ghost Stands: { Self → List ℕ → Settling → Type 0 };

    // Its end may want memory: of a task that was told no octets that is so only where there is
    // something to write.
    ghost Began: { Self → Type 0 };

    // How many parts there can be of the text that is due.
    ghost parts: { Self → ℕ };

    // This text is due, and the octets still to come pass these limits on lines. Of a task that has
    // no such limits nothing is said.
    ghost Awaits: { Self → List ℕ → Limiting → Type 0 } = { λ t due limits. ⊥ };

    // The limit on lines that ended the run.
    ghost passed: { Self → Option LinePassed } = { λ t. None };

    /// Takes the next octets, where no text is due, and appends text that they settle.
    fn take(&mut self, piece: &[u8], text: &mut String) -> Result<Taken, AllocError>
        requires { parts self.old ≡ 0 }
        ensures fed { (settles : Settling) → Stands self.old [] settles → IfOk result
            (FeedsPart (Stands self.new) settles piece.now (string_bytes text.old) (string_bytes text.new)) }
        ensures leaves { IfOk result (LeavesDue piece.now (parts self.new)) }
        ensures within { (limits : Limiting) → Awaits self.old [] limits → IfOk result
            (TakesWithin (Awaits self.new) (passed self.new) limits piece.now) };

    /// Appends the next part of the text that is due, and answers whether more of it is.
    fn tell(&mut self, text: &mut String) -> Result<bool, AllocError>
        requires { 0 < parts self.old }
        ensures told { (due : List ℕ) (settles : Settling) → Stands self.old due settles → IfOk result
            (TellsPart (Stands self.new) settles due (string_bytes text.old) (string_bytes text.new)) }
        ensures leaves { IfOk result (LeavesFewer (parts self.old) (parts self.new)) }
        ensures within { (due : List ℕ) (limits : Limiting) → Awaits self.old due limits → IfOk result
            (TellsPart (Awaits self.new) limits due (string_bytes text.old) (string_bytes text.new)) }
        ensures kept { passed self.new ≡ passed self.old };

    /// The input ended, and no text is due: takes octets that are kept, where their text may be too long to be
    /// kept whole. A task that keeps no such octets does nothing here.
    fn last(&mut self, text: &mut String) -> Result<Turned, AllocError>
        requires { parts self.old ≡ 0 }
        ensures ended { (settles : Settling) → Stands self.old [] settles → IfOk result
            (TakesLast (Stands self.new) settles (string_bytes text.old) (string_bytes text.new)) }
        ensures leaves { IfOk result (LeavesTurn (parts self.new)) }
        ensures began { IfOk result (BeganBefore (Began self.old) (Began self.new)) }
        ensures memory { OnErr result (Began self.old) }
        ensures within { (limits : Limiting) → Awaits self.old [] limits → IfOk result
            (LastWithin (Awaits self.new) (passed self.new) limits) }
    {
        Ok(Turned::Passes)
    }

    /// The input ended, and no text is due: appends the text that this settles, and answers how the run
    /// ends.
    fn end(&mut self, text: &mut String) -> Result<Status, AllocError>
        requires { parts self.old ≡ 0 }
        ensures finished { (settles : Settling) → Stands self.old [] settles → IfOk result
            (Finishes settles (string_bytes text.old) (string_bytes text.new)) }
        ensures status { IfOk result IsAnswer }
        ensures memory { OnErr result (Began self.old) }
        ensures within { (limits : Limiting) → Awaits self.old [] limits → IfOk result
            (λ status. limits at_end [] ≡ passed self.new) };
}
