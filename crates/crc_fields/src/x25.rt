//! CRC-16 X-25, the check of CRC type 1.
ghost use Rattle.std.specs.Prelude.{◌≡◌, ◌<◌, ◌≤◌, ◌+◌, ◌*◌, ℕ, bit_xor, length};
ghost use Rattle.crc_fields.specs.Crc.{take_text, crc16_of, zeroed};
ghost use Rattle.crc_fields.specs.Tables.{after_zeros};

use crate::tables::CRC16;
use std::marker::Model;

/// The CRC-16 X-25 of a text: reflected polynomial 0x8408, start 0xFFFF, result inverted.
pub fn crc16(bytes: &[u8]) -> u16
    ensures { result ≡ crc16_of bytes.now }
{
    Register16::new().update(bytes).finish()
}

/// The same of a text in which the two octets from `at` on are taken as zero, as where the check
/// itself is to stand. They lie inside.
pub fn crc16_zeroed(bytes: &[u8], at: usize) -> u16
    requires { at + 2 ≤ length bytes.now }
    ensures { result ≡ crc16_of (zeroed at 2 bytes.now) }
{
    Register16::new()
        .update(&bytes[..at])
        .update(&[0; 2])
        .update(&bytes[at + 2..])
        .finish()
}

/// A check that goes on: texts are taken one after another, and their check is that of the texts
/// joined. Contracts see the register.
#[derive(Clone, Copy, Debug, PartialEq, Eq, Drop)]
pub struct Register16 {
    register: u16,
}

impl Model for Register16 {
    ghost Value = { ℕ };

    ghost view = { λ c. c.register };

    ghost inverse = { λ n. record { register = n } };
}

impl Register16 {
    /// The register before any octet: all ones.
    pub fn new() -> Register16
        ensures { result ≡ 0xFFFF }
    {
        Register16 { register: u16::MAX }
    }

    /// Takes a text.
    pub fn update(self, bytes: &[u8]) -> Register16
        ensures { result ≡ take_text 0x8408 self bytes.now }
    {
        let (register, rest) = take_quads(self.register, bytes);
        let (register, rest) = take_words(register, rest);
        Register16 {
            register: take_octets(register, rest),
        }
    }

    /// The check of the texts that were taken: the register, inverted.
    pub fn finish(self) -> u16
        ensures { result ≡ bit_xor self 0xFFFF }
    {
        self.register ^ u16::MAX
    }
}

/// Takes four words at a time, as long as there are four, and gives the octets that are left.
fn take_quads(start: u16, bytes: &[u8]) -> (u16, &[u8])
    ensures { take_text 0x8408 result.0 result.1.now ≡ take_text 0x8408 start bytes.now }
{
    let mut register = start;
    let mut rest = bytes;
    'quads: while let Some((quad, after)) = rest.split_first_chunk::<16>() {
        register = take_quad(register, quad);
        rest = after;
    }
    (register, rest)
}

/// Takes a word of four octets at a time, as long as there is one, and gives the octets that are
/// left.
fn take_words(start: u16, bytes: &[u8]) -> (u16, &[u8])
    ensures { take_text 0x8408 result.0 result.1.now ≡ take_text 0x8408 start bytes.now }
{
    let mut register = start;
    let mut rest = bytes;
    'words: while let Some((word, after)) = rest.split_first_chunk::<4>() {
        register = take_word(register, word);
        rest = after;
    }
    (register, rest)
}

/// Takes octets one by one.
fn take_octets(start: u16, bytes: &[u8]) -> u16
    ensures { result ≡ take_text 0x8408 start bytes.now }
{
    let mut register = start;
    'octets: for octet in bytes {
        register = take_octet(register, *octet);
    }
    register
}

/// Takes sixteen octets at once: the register meets the first of them, and then each acts by the
/// row of the table that has as many zeros as octets follow it.
fn take_quad(register: u16, quad: &[u8; 16]) -> u16
    ensures { result ≡ take_text 0x8408 register quad.now }
{
    // As a number the octets take two loads, and one by one as many as the tables do.
    let met = u128::from_le_bytes(*quad) ^ u128::from(register);
    let [a, b, c, d, e, f, g, h, i, j, k, l, m, n, o, p] = met.to_le_bytes();
    // The first come last, since they alone wait for the register.
    entry(11, e)
        ^ entry(10, f)
        ^ entry(9, g)
        ^ entry(8, h)
        ^ entry(7, i)
        ^ entry(6, j)
        ^ entry(5, k)
        ^ entry(4, l)
        ^ entry(3, m)
        ^ entry(2, n)
        ^ entry(1, o)
        ^ entry(0, p)
        ^ entry(15, a)
        ^ entry(14, b)
        ^ entry(13, c)
        ^ entry(12, d)
}

/// The same of four octets.
fn take_word(register: u16, word: &[u8; 4]) -> u16
    ensures { result ≡ take_text 0x8408 register word.now }
{
    let met = u32::from_le_bytes(*word) ^ u32::from(register);
    let [a, b, c, d] = met.to_le_bytes();
    entry(3, a) ^ entry(2, b) ^ entry(1, c) ^ entry(0, d)
}

/// Takes one octet.
fn take_octet(register: u16, octet: u8) -> u16
    ensures { result ≡ after_zeros 0x8408 8 (bit_xor register octet) }
{
    entry(0, (register % 256) as u8 ^ octet) ^ (register / 256)
}

/// The register after an octet that met it empty, and k octets of zeros.
fn entry(k: usize, octet: u8) -> u16
    requires { k < 16 }
    ensures { result ≡ after_zeros 0x8408 (8 * (k + 1)) octet }
{
    CRC16[k][octet as usize]
}
