//! Judging streams of bundles, without the bodies of the bundle that is under way.
//!
//! [`Judge6`] and [`Judge7`] tell of a stream what [`bundle6::Reader6::judge`] and
//! [`bundle7::Reader7::judge`] tell, piece by piece: the end of each bundle, and the refusal at its
//! place. A body passes through, and only how many of its octets are still to come is kept.
//!
//! A judge of version 6 keeps the primary block, whose dictionary the references are looked up in, and
//! the first octets of another field that is under way, of which there are fewer than 21. A judge of
//! version 7 keeps the octets of the primary block as long as they don't end it, at most 1,050 of
//! another field, the types and numbers of the extension blocks, and the register of the check that has
//! run over the block so far. So many octets only a body has that is one item: an endpoint.
//!
//! A block of version 7 is summed once, as its octets come. One that lies in a piece as a whole is judged
//! there. Only a primary block whose check is cut by the end of a piece is summed again with the next.
#![tactic(auto)]

mod feed6;
mod feed7;
mod few;
mod here7;
mod judge6;
mod judge7;
mod stand6;
mod stand7;
mod straight7;
mod sum7;

pub use judge6::Judge6;
pub use judge7::Judge7;
