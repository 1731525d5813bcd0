//! A command that is answered as its input comes.
ghost use Rattle.std.specs.Prelude.{IfOk, OnErr};
ghost use Rattle.std.specs.String.{string_bytes};
ghost use Rattle.edge_traits.specs.Outcome.{IsAnswer};
ghost use Rattle.command_frame.specs.Task.{Settling, Feeds, Finishes};

use edge_traits::Status;
use std::alloc::AllocError;

/// A command that is told the octets of its input as they come. After want of memory, and once it
/// answered how the run ends, it is told nothing more.
pub trait Task {
    // The octets still to come settle this.
    ghost Stands: { Self → Settling → Type 0 };

    // Its end may want memory: of a task that was told no octets that is so only where there is
    // something to write.
    ghost Began: { Self → Type 0 };

    /// Takes the next octets and appends the text that they settle: the status, `Refused` or
    /// `Limit`, where they settle how the run ends.
    fn feed(&mut self, piece: &[u8], text: &mut String) -> Result<Option<Status>, AllocError>
        ensures fed { (settles : Settling) → Stands self.old settles → IfOk result
            (Feeds (Stands self.new) settles piece.now (string_bytes text.old) (string_bytes text.new)) };

    /// The input ended: appends the text that this settles, and answers how the run ends.
    fn finish(&mut self, text: &mut String) -> Result<Status, AllocError>
        ensures finished { (settles : Settling) → Stands self.old settles → IfOk result
            (Finishes settles (string_bytes text.old) (string_bytes text.new)) }
        ensures status { IfOk result IsAnswer }
        ensures memory { OnErr result (Began self.old) };
}
