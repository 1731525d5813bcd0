//! What `record` writes, whoever is at the other end. The law is the contract of a function that
//! does nothing.

ghost use Rattle.record_run.specs.Exchange.{WritesExchanges};

/// Whatever the input: what is written are the lines of a recording in which no entry that went out
/// breaks a rule of an exchange, and after them at most the line of a refusal.
pub fn writes_exchanges()
    ensures { WritesExchanges }
{}
