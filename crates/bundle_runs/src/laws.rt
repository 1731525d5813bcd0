//! The answer, in the words of the two formats.
ghost use Rattle.bundle_runs.specs.Answering.{settles};
ghost use Rattle.bundle_runs.specs.Laws.{TakesBundle6, TakesBundle7, StopsAt6, StopsAt7, EndsInside6, EndsInside7, StopsAtVersion, EndsAfterLast, EarliestOctetDecides};
ghost use Rattle.bundle_runs.specs.Keeping.{SameWithoutRefusals, WritesMore, DoneOnlyTogether};
ghost use Rattle.bundle_runs.specs.ThereAndBack.{ThereAndBack6, ThereAndBack7, LateStaysThere, RunsThereAndBack6, RunsThereAndBack7};
ghost use Rattle.bundle_runs.specs.declared.commands.command.Command.{Command};

/// Where a bundle stands at the front of the octets that are left, the answer to them is what the
/// command says of it and then the answer to the octets after it; where the command refuses it, the
/// line that says so and the run's end, or where the command keeps going the answer to the octets after
/// it, by a run that isn't done at its end. Octets that are refused for a cause end the run by such a
/// line too, and so does a first octet that names no version, at its own place. Where they end inside
/// a bundle they settle nothing while the input goes on, and at its end the bundle is refused as
/// truncated. Where none are left the run is done with the input.
pub fn answers_bundle_by_bundle()
    ensures six { TakesBundle6 }
    ensures seven { TakesBundle7 }
    ensures refused6 { StopsAt6 }
    ensures refused7 { StopsAt7 }
    ensures unfinished6 { EndsInside6 }
    ensures unfinished7 { EndsInside7 }
    ensures version { StopsAtVersion }
    ensures none_left { EndsAfterLast }
{}

/// What octets settle while the input goes on is a front of what they settle with others after them,
/// and once they settle how the run ends, nothing that follows changes it.
pub fn earliest_place_decides()
    ensures { (command : Command) → EarliestOctetDecides (settles command) }
{}

/// A command that keeps going writes first what the same command writes whose run the first refusal ends.
/// Where no bundle is refused both answers are the same, and only then may it be done.
pub fn keeps_going_after_refusals()
    ensures same { SameWithoutRefusals }
    ensures more { WritesMore }
    ensures done { DoneOnlyTogether }
{}

/// What `convert` writes of a bundle's octets is one whole bundle of the other version, of which it writes
/// the octets of the first one's normal form, and of these what it wrote first. A bundle of version 7
/// without blocks of the gateway's own comes back octet for octet. A lifetime of version 7 that reaches
/// 2^64 once it is lengthened to whole seconds goes there and is refused on the way back.
pub fn converts_there_and_back()
    ensures six { ThereAndBack6 }
    ensures seven { ThereAndBack7 }
    ensures late { LateStaysThere }
{}

/// The same of whole runs: one over exactly a bundle's octets, one over exactly the octets that the first
/// wrote, and one over those that the second wrote are done, and the third writes what the first did.
pub fn runs_there_and_back()
    ensures six { RunsThereAndBack6 }
    ensures seven { RunsThereAndBack7 }
{}
