//! One line of a command that answers line by line, and hands on a long text in parts.
ghost use Rattle.std.specs.Prelude.{◌≡◌, ℕ, List, [], IfOk, OnErr};
ghost use Rattle.std.specs.String.{string_bytes};
ghost use Rattle.edge_traits.specs.Outcome.{IsAnswer};
ghost use Rattle.command_frame.specs.Lines.{LineRules, EndsAs};
ghost use Rattle.command_frame.specs.PartTask.{TellsPart, LeavesTurn};
ghost use Rattle.command_frame.specs.PartLines.{TurnsPart, LeavesLess};

use crate::turned::Turned;
use edge_traits::Status;
use std::alloc::AllocError;

/// What a command keeps from line to line, and what it does about each. The text of a line that the run
/// doesn't end with may be too long to be kept whole: that is told part by part before the next line.
pub trait PartLineStep {
    // What its definitions keep from line to line.
    ghost State: { Type 0 };

    // This text is due, and the kept values stand for the state after it.
    ghost Shows: { Self → List ℕ → State → Type 0 };

    // Its limits on lines, what a line brings about, and how the run ends after the last.
    ghost rules: { LineRules State };

    // Its end may want memory, also where the last line has ended. Before the first line that is so
    // only where there is something to write.
    ghost Began: { Self → Type 0 };

    // How many parts there can be of the text that is due.
    ghost parts: { Self → ℕ };

    /// The most lines of an input.
    fn most_lines(&self) -> u32
        ensures { result ≡ rules.lines };

    /// The most octets of a line, its line feed not counted.
    fn most_octets(&self) -> u32
        ensures { result ≡ rules.octets };

    /// Answers line `number`, which is within the limits on lines, where no text is due.
    fn line(&mut self, number: u64, line: &[u8], text: &mut String) -> Result<Turned, AllocError>
        ensures turn { (state : State) → Shows self.old [] state → IfOk result
            (TurnsPart (Shows self.new) (rules.step number state line.now) (string_bytes text.old) (string_bytes text.new)) }
        ensures leaves { IfOk result (LeavesTurn (parts self.new)) };

    /// Appends the next part of the text that is due, if any is, and answers whether more of it is.
    fn tell(&mut self, text: &mut String) -> Result<bool, AllocError>
        ensures told { (due : List ℕ) (state : State) → Shows self.old due state → IfOk result
            (TellsPart (Shows self.new) state due (string_bytes text.old) (string_bytes text.new)) }
        ensures leaves { IfOk result (LeavesLess (parts self.old) (parts self.new)) };

    /// The input ended after these lines, and no text is due: how the run ends.
    fn finish(&mut self, text: &mut String) -> Result<Status, AllocError>
        ensures finished { (state : State) → Shows self.old [] state → IfOk result
            (EndsAs (rules.finish state) (string_bytes text.old) (string_bytes text.new)) }
        ensures status { IfOk result IsAnswer }
        ensures memory { OnErr result (Began self.old) };
}
