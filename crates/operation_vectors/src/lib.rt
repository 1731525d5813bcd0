//! The project's tables of tests over the operation of the gateway: its configuration, moments as
//! texts, what a face sends, and when, the lines of the log, the metrics, and the journal's file: what it
//! says, octet by octet, as it is made anew and as records are committed, and with one octet changed.
//!
//! What is wanted comes from outside, never from what the program printed; docs/vectors.md says for
//! each table where its values come from. Nothing is offered to other crates.
#![tactic(auto)]

#[cfg(test)]
mod checks;
#[cfg(test)]
mod journal_damage;
#[cfg(test)]
mod journal_files;
#[cfg(test)]
mod journal_texts;
#[cfg(test)]
mod journals;
#[cfg(test)]
mod lines;
#[cfg(test)]
mod metrics;
#[cfg(test)]
mod moments;
#[cfg(test)]
mod outboxes;
#[cfg(test)]
mod subjects;
