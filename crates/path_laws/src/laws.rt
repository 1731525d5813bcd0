//! What holds of every path.

ghost use Rattle.path_laws.specs.Laws.{LinksRun, ReceivedAsSent};

/// Each link of a path runs as two engines on a link do, so that the laws of links hold of both.
pub fn links_run()
    ensures { LinksRun }
{}

/// What is handed up on a path is what was sent, once; and what an end receives is a piece of what
/// becomes of one bundle that the other end sent, or a report on one that it sent itself.
pub fn received_as_sent()
    ensures { ReceivedAsSent }
{}
