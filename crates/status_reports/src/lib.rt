//! Status reports of both versions (RFC 5050, section 6.1; RFC 9171, section 6.1).
//!
//! [`read6`] and [`read7`] read the body of an administrative record, [`lend6`] and [`lend7`]
//! judge it without memory, and [`write6`] and [`write7`] write it. What isn't exactly the one
//! spelling of a status report is refused by [`AdminFault`], custody signals and reports on custody
//! by name. The two layouts are tables of fields, and the order of the refusals is said in
//! `specs/Order.antt`.
//!
//! [`shared_from6`], [`shared_from7`], [`view6`] and [`view7`] pair the reports of both versions
//! with the one that a record has. What one version has no place for is kept beside it: which
//! statuses have no time, and the parts of times below one millisecond. With these the way there
//! and back gives the same report; [`one_spelling`] and [`reports_pair_off`] are the laws.
//!
//! Custody transfer and all other administrative records are left out.
#![tactic(auto)]

mod fault;
mod field;
mod laws;
mod lent;
mod pair_fault;
mod pairing6;
mod pairing7;
mod report6;
mod report7;
mod source6;
mod source7;
mod writing6;
mod writing7;

pub use fault::AdminFault;
pub use laws::{one_spelling, reports_pair_off};
pub use lent::LentEndpoint;
pub use pair_fault::PairFault;
pub use pairing6::{shared_from6, view6};
pub use pairing7::{shared_from7, shared_with_rests, view7};
pub use report6::{LentReport6, Report6, Time6, lend6, read6};
pub use report7::{LentReport7, Report7, lend7, read7};
pub use writing6::write6;
pub use writing7::write7;
