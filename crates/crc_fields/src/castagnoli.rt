//! CRC-32C (Castagnoli), the check of CRC type 2.
ghost use Rattle.std.specs.Prelude.{◌≡◌, ◌<◌, ◌≤◌, ◌+◌, ◌*◌, ℕ, bit_xor, length};
ghost use Rattle.crc_fields.specs.Crc.{take_text, crc32c_of, zeroed};
ghost use Rattle.crc_fields.specs.Tables.{after_zeros};

use crate::tables::CRC32C;
use std::marker::Model;

/// The CRC-32C of a text: reflected polynomial 0x82F63B78, start 0xFFFFFFFF, result inverted.
pub fn crc32c(bytes: &[u8]) -> u32
    ensures { result ≡ crc32c_of bytes.now }
{
    Register32::new().update(bytes).finish()
}

/// The same of a text in which the four octets from `at` on are taken as zero, as where the check
/// itself is to stand. They lie inside.
pub fn crc32c_zeroed(bytes: &[u8], at: usize) -> u32
    requires { at + 4 ≤ length bytes.now }
    ensures { result ≡ crc32c_of (zeroed at 4 bytes.now) }
{
    Register32::new()
        .update(&bytes[..at])
        .update(&[0; 4])
        .update(&bytes[at + 4..])
        .finish()
}

/// A check that goes on: texts are taken one after another, and their check is that of the texts
/// joined. Contracts see the register.
#[derive(Clone, Copy, Debug, PartialEq, Eq, Drop)]
pub struct Register32 {
    register: u32,
}

impl Model for Register32 {
    ghost Value = { ℕ };

    ghost view = { λ c. c.register };

    ghost inverse = { λ n. record { register = n } };
}

impl Register32 {
    /// The register before any octet: all ones.
    pub fn new() -> Register32
        ensures { result ≡ 0xFFFFFFFF }
    {
        Register32 { register: u32::MAX }
    }

    /// Takes a text.
    pub fn update(self, bytes: &[u8]) -> Register32
        ensures { result ≡ take_text 0x82F63B78 self bytes.now }
    {
        let (register, rest) = take_quads(self.register, bytes);
        let (register, rest) = take_words(register, rest);
        Register32 {
            register: take_octets(register, rest),
        }
    }

    /// The check of the texts that were taken: the register, inverted.
    pub fn finish(self) -> u32
        ensures { result ≡ bit_xor self 0xFFFFFFFF }
    {
        self.register ^ u32::MAX
    }
}

/// Takes four words at a time, as long as there are four, and gives the octets that are left.
fn take_quads(start: u32, bytes: &[u8]) -> (u32, &[u8])
    ensures { take_text 0x82F63B78 result.0 result.1.now ≡ take_text 0x82F63B78 start bytes.now }
{
    let mut register = start;
    let mut rest = bytes;
    'quads: while let Some((quad, after)) = rest.split_first_chunk::<16>() {
        register = take_quad(register, quad);
        rest = after;
    }
    (register, rest)
}

/// Takes a word of four octets at a time, as long as there is one, and gives the octets that are
/// left.
fn take_words(start: u32, bytes: &[u8]) -> (u32, &[u8])
    ensures { take_text 0x82F63B78 result.0 result.1.now ≡ take_text 0x82F63B78 start bytes.now }
{
    let mut register = start;
    let mut rest = bytes;
    'words: while let Some((word, after)) = rest.split_first_chunk::<4>() {
        register = take_word(register, word);
        rest = after;
    }
    (register, rest)
}

/// Takes octets one by one.
fn take_octets(start: u32, bytes: &[u8]) -> u32
    ensures { result ≡ take_text 0x82F63B78 start bytes.now }
{
    let mut register = start;
    'octets: for octet in bytes {
        register = take_octet(register, *octet);
    }
    register
}

/// Takes sixteen octets at once: the register meets the first of them, and then each acts by the
/// row of the table that has as many zeros as octets follow it.
fn take_quad(register: u32, quad: &[u8; 16]) -> u32
    ensures { result ≡ take_text 0x82F63B78 register quad.now }
{
    // As a number the octets take two loads, and one by one as many as the tables do.
    let met = u128::from_le_bytes(*quad) ^ u128::from(register);
    let [a, b, c, d, e, f, g, h, i, j, k, l, m, n, o, p] = met.to_le_bytes();
    // The first come last, since they alone wait for the register.
    entry(11, e)
        ^ entry(10, f)
        ^ entry(9, g)
        ^ entry(8, h)
        ^ entry(7, i)
        ^ entry(6, j)
        ^ entry(5, k)
        ^ entry(4, l)
        ^ entry(3, m)
        ^ entry(2, n)
        ^ entry(1, o)
        ^ entry(0, p)
        ^ entry(15, a)
        ^ entry(14, b)
        ^ entry(13, c)
        ^ entry(12, d)
}

/// The same of four octets.
fn take_word(register: u32, word: &[u8; 4]) -> u32
    ensures { result ≡ take_text 0x82F63B78 register word.now }
{
    let met = u32::from_le_bytes(*word) ^ register;
    let [a, b, c, d] = met.to_le_bytes();
    entry(3, a) ^ entry(2, b) ^ entry(1, c) ^ entry(0, d)
}

/// Takes one octet.
fn take_octet(register: u32, octet: u8) -> u32
    ensures { result ≡ after_zeros 0x82F63B78 8 (bit_xor register octet) }
{
    entry(0, (register % 256) as u8 ^ octet) ^ (register / 256)
}

/// The register after an octet that met it empty, and k octets of zeros.
fn entry(k: usize, octet: u8) -> u32
    requires { k < 16 }
    ensures { result ≡ after_zeros 0x82F63B78 (8 * (k + 1)) octet }
{
    CRC32C[k][octet as usize]
}
