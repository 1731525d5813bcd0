//! Fields, places and refusals: the one notion on which the decoders of all our formats stand.
//!
//! A format is data. It is the table of its fields, each of a basic kind (octets, numbers of RFC
//! 5050, section 4.1, heads of CBOR items) and with conditions that speak of it and of earlier
//! fields, written down in the words of `specs/Words.antt`. What octets spell it, where and why a
//! text is refused, and what reading gives are three definitions over all formats, and their laws
//! are proved once, for every table that will ever be written.
//!
//! The functions here read one field of each kind at a place of a text. They lend octets out of
//! the text and take no memory. A decoder is made of them, a function for each field with a
//! condition and for each group.
//!
//! [`laws`] states what holds of every table: what is read is spelled so ([`laws::found`]), what is
//! spelled so is read ([`laws::only`]), what is refused has this refusal ([`laws::refused`]), what
//! has a refusal is refused with it ([`laws::refuses`]), of each text exactly one of both holds
//! ([`laws::exactly_one`], [`laws::exactly_one_whole`]), and an answer that is settled stays
//! ([`laws::stays`]). The crate `waybill` has them at a small table, with all that a decoder can
//! promise; `docs/formats.md` explains the notion by it.
//!
//! What a stream of a format's values gives in pieces is defined and proved for every format too, for
//! the readers of streams in the crates above: what a reader answers to a piece, that this is one
//! answer, and that cuts make no difference (`specs/Streaming.antt`, `specs/Cutting.antt`).
//!
//! Left out: writers, which need `Spells` alone, and what a field means to its format.
#![tactic(auto)]

mod field;
pub mod laws;
mod lead;
mod miss;

pub use field::{
    ARRAY, BYTE_STRING, TEXT_STRING, UNSIGNED, head_at, number_at, octet_at, octets_at,
    unsigned_or_text_at,
};
pub use lead::UnsignedOrText;
pub use miss::Miss;
