//! What a bundle means, whichever version it was read from (RFC 5050, RFC 9171).
//!
//! [`Full`] is the record: [`Shared`] is what both versions say, [`Extra6`] and [`Extra7`] what one of
//! them says alone, and [`Exts`] the extension blocks of either. [`id_to_new`] and [`id_to_old`] pair
//! the creation timestamps of the versions one to one, and [`expiry_ms`], [`lifetime6`] and [`slack`]
//! say when a bundle expires, to the millisecond.
//!
//! What one version has no field for is carried in the gateway's private blocks: a residue, with what
//! the other version says alone, and a wrap, with one extension block of the other version. Their
//! bodies are formats of our own. Each writer's octets are read back as what was written, and each
//! reader refuses everything else as `Bad`.
//!
//! How a record is had from a bundle, and a bundle from a record, is a layer above.
#![tactic(auto)]

mod bits;
mod blocks;
mod creation;
mod expiry;
mod extra;
mod fault;
mod field;
mod full;
mod report;
mod residue;
mod residue_new;
mod shared;
mod wrap_new;
mod wrap_old;
mod writing;

pub use blocks::{Block6Like, Block7Like, Ext, Exts, is_single};
pub use creation::{Id6, Id7, SequenceTooLarge, TimeTooLarge, id_to_new, id_to_old, ids_pair_off};
pub use expiry::{expiry_ms, lifetime6, slack};
pub use extra::{Extra6, Extra7, default6, default7};
pub use fault::BlockFault;
pub use full::{Full, copy};
pub use report::{Part, Report, Stamp};
pub use residue::{ResidueOld, no_time, read_residue_old, write_residue_old};
pub use residue_new::{
    LentResidue, ResidueNew, lend_residue_new, read_residue_new, write_residue_new,
};
pub use shared::{Content, Shared};
pub use wrap_new::{LentBlock6, Names, lend_wrap_new, read_wrap_new, write_wrap_new};
pub use wrap_old::{LentBlock7, lend_wrap_old, read_wrap_old, write_wrap_old};
