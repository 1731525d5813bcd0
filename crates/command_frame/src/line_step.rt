//! One line of a command that answers line by line.
ghost use Rattle.std.specs.Prelude.{◌≡◌, ℕ, IfOk, IfSome, OnErr};
ghost use Rattle.std.specs.String.{string_bytes};
ghost use Rattle.edge_traits.specs.Outcome.{IsAnswer};
ghost use Rattle.command_frame.specs.Stops.{IsStop};
ghost use Rattle.command_frame.specs.Lines.{LineRules, TurnsAs, EndsAs};

use edge_traits::Status;
use std::alloc::AllocError;

/// What a command keeps from line to line, and what it does about each.
pub trait LineStep {
    // What its definitions keep from line to line.
    ghost State: { Type 0 };

    // The state that the kept values stand for.
    ghost Shows: { Self → State → Type 0 };

    // Its limits on lines, what a line brings about, and how the run ends after the last.
    ghost rules: { LineRules State };

    // Its end may want memory, also where the last line has ended. Before the first line that is so
    // only where there is something to write.
    ghost Began: { Self → Type 0 };

    /// The most lines of an input.
    fn most_lines(&self) -> u32
        ensures { result ≡ rules.lines };

    /// The most octets of a line, its line feed not counted.
    fn most_octets(&self) -> u32
        ensures { result ≡ rules.octets };

    /// Answers line `number`, which is within the limits on lines: the status, `Refused` or
    /// `Limit`, where the run ends with it.
    fn line(
        &mut self,
        number: u64,
        line: &[u8],
        text: &mut String,
    ) -> Result<Option<Status>, AllocError>
        ensures turn { (state : State) → Shows self.old state → IfOk result
            (TurnsAs (Shows self.new) (rules.step number state line.now) (string_bytes text.old) (string_bytes text.new)) }
        ensures stops { IfOk result (λ ends. IfSome ends IsStop) };

    /// The input ended after these lines: how the run ends.
    fn finish(&mut self, text: &mut String) -> Result<Status, AllocError>
        ensures finished { (state : State) → Shows self.old state → IfOk result
            (EndsAs (rules.finish state) (string_bytes text.old) (string_bytes text.new)) }
        ensures status { IfOk result IsAnswer }
        ensures memory { OnErr result (Began self.old) };
}
