//! What `world` writes of every script. The law is the contract of a function that does nothing but
//! cite those of a path.

ghost use Rattle.world_run.specs.Headline.{WorldsKeepHeadline};
ghost use Rattle.world_run.specs.World.{Sends256MiB};

/// Whatever the input: what is written are the answers to the events that its first lines say, in their
/// order, then those to the events of a drain, where a line says one, with their number; and after them
/// at most the line of a refusal, which the next line has. No line that is answered or refused passes a
/// limit, and at a limit the next one does. The `up` lines of the text are blocks that came whole, as
/// they were sent, and once; so what either end receives is a piece of what becomes of one bundle that
/// the other end sent, or a report on one that it sent itself. Each piece of a bundle that the gate
/// notes as passed begins a session at the other face with that event. From where the path is hopeful
/// and has room a drain completes every session, in no more events than they cost, and each piece of a
/// bundle that passes in it arrives at the other end.
pub fn worlds_keep_headline()
    ensures { WorldsKeepHeadline }
{
    path_laws::laws::received_as_sent();
    path_drain::completion::paths_are_fit();
    path_drain::ends::paths_are_timed();
    path_drain::ends::drains_are_made();
    path_drain::whole_runs::decisions_are_carried_out();
    path_drain::whole_runs::begun_are_decided();
    path_drain::whole_runs::whole_runs_complete();
    path_drain::whole_runs::what_passes_arrives();
}

/// The number that limits the octets of a path's datagrams is 256 MiB.
pub fn worlds_send_256_mib()
    ensures { Sends256MiB }
{}
