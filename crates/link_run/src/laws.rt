//! What `link` writes of every script, and what a drain with picks is. Each law is the contract of a
//! function that does nothing.

ghost use Rattle.link_run.specs.Law.{LinksKeepLaw};
ghost use Rattle.link_run.specs.Link.{MomentsAreOpen};
ghost use Rattle.link_run.specs.Picks.{TurnsAreMade, TurnsAreOne};

/// The moment that a drain tells of an event is the one open moment at its contact time.
pub fn moments_are_open()
    ensures { MomentsAreOpen }
{}

/// After the picks of a drain turns lead to where no other can follow, or where a clock would be set
/// to any moment that one likes, or to a later one. `turns_after` computes them: its counts are enough.
pub fn turns_are_made()
    ensures { TurnsAreMade }
{}

/// Whoever makes turns until then makes these.
pub fn turns_are_one()
    ensures { TurnsAreOne }
{}

/// Whatever the input: the `up` lines of what is written are red parts that were handed up, each whole
/// and as a line `send` has it, and once; the notes are those of the engines. From where the link is
/// hopeful and has room a drain has no more events than the sessions cost, however many gaps lie
/// between, and completes them unless the plan ends first. With picks it completes them too where
/// these are of new datagrams alone, or where nobody is turned away; then it has three events more at
/// most for each old datagram that comes once more.
pub fn links_keep_law()
    ensures { LinksKeepLaw }
{}
