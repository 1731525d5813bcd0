//! The file in which something is kept over a stop, as the code above sees it: a disk with a clock.
//!
//! A [`Store`] says what a read of its file gives, and what a crash may leave of it: at this moment, and
//! at each moment since an earlier one. A write may be torn until a sync. A new file is made beside the
//! old one, and takes its place by a call of its own.
//!
//! [`MemStore`] is a store in memory, which tells. [`TornStore`] is one whose writes a crash tears in each
//! way that the trait allows; [`TornStore::left`] makes the file that a crash leaves, by a choice, and
//! [`laws`] states that each file that may be left is left by some choice. [`FileStore`] is a file of the system, and tells
//! nothing: of what a disk does no clause can speak.
#![tactic(auto)]

mod fault;
mod files;
pub mod laws;
mod memory;
mod store;
mod torn;

pub use fault::StoreFault;
pub use files::{FileStore, OpenFault};
pub use memory::{Call, MemStore};
pub use store::Store;
pub use torn::{Tear, TornStore};
