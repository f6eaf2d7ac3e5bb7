// Bytes, coded bytes and little-endian numbers.
ghost use Rattle.std.specs.Prelude.{◌≡◌, ◌+◌, ◌^◌, ◌≤◌, ◌<◌, length, drop};
ghost use Rattle.image.specs.Codes.{number, body_refusal};
ghost use Rattle.image.specs.Parse.{byte_at, code_at, number_at, little_endian};
ghost use Rattle.image.specs.Reads.{read_of, skip};

use crate::Read;
use crate::refusals::Refusal;

// A byte of a body.
#[tactic(auto, using(crate::proofs::Laws::Numbers::told))]
pub fn read_byte(s: &[u8], at: usize) -> Read
    ensures { read_of result ≡ skip (byte_at (number body_refusal) s.now at) }
{
    if s.len() <= at {
        return Err(Refusal::Body);
    }
    Ok(at + 1)
}

// A coded byte from lo to hi.
#[tactic(auto, using(crate::proofs::Laws::Numbers::told))]
pub(crate) fn read_code(s: &[u8], at: usize, lo: u8, hi: u8) -> Read
    ensures { read_of result ≡ skip (code_at lo hi s.now at) }
{
    if s.len() <= at {
        return Err(Refusal::Body);
    }
    let b = s[at];
    if b < lo {
        return Err(Refusal::Code);
    }
    if hi < b {
        return Err(Refusal::Code);
    }
    Ok(at + 1)
}

// The bytes of a number, w of them.
#[tactic(auto, using(crate::proofs::Laws::Numbers::told))]
pub(crate) fn read_number(s: &[u8], at: usize, w: usize) -> Read
    ensures { read_of result ≡ skip (number_at w s.now at) }
{
    if s.len() < at {
        return Err(Refusal::Body);
    }
    if s.len() - at < w {
        return Err(Refusal::Body);
    }
    Ok(at + w)
}

// The number of w bytes that are there, the lowest first.
pub fn number(s: &[u8], at: usize, w: usize) -> u64
    requires { (w ≤ 8) × (at + w ≤ length s.now) }
    ensures { (result ≡ little_endian w (drop at s.now)) × (result < 256 ^ w) }
{
    let mut i = at + w;
    let mut value: u64 = 0;
    while at < i {
        i -= 1;
        value = value * 256 + s[i] as u64;
    }
    value
}

// That of two, without a loop.
#[tactic(auto, using(crate::proofs::Laws::Numbers::lowest_first))]
pub fn u16_at(s: &[u8], at: usize) -> usize
    requires { at + 2 ≤ length s.now }
    ensures { (result ≡ little_endian 2 (drop at s.now)) × (result < 65536) }
{
    u16::from_le_bytes([s[at], s[at + 1]]) as usize
}

// Of four.
#[tactic(auto, using(crate::proofs::Laws::Numbers::lowest_first))]
pub fn u32_at(s: &[u8], at: usize) -> u32
    requires { at + 4 ≤ length s.now }
    ensures { result ≡ little_endian 4 (drop at s.now) }
{
    u32::from_le_bytes([s[at], s[at + 1], s[at + 2], s[at + 3]])
}

// And of eight.
#[tactic(auto, using(crate::proofs::Laws::Numbers::lowest_first))]
pub fn u64_at(s: &[u8], at: usize) -> u64
    requires { at + 8 ≤ length s.now }
    ensures { result ≡ little_endian 8 (drop at s.now) }
{
    u64::from_le_bytes([
        s[at],
        s[at + 1],
        s[at + 2],
        s[at + 3],
        s[at + 4],
        s[at + 5],
        s[at + 6],
        s[at + 7],
    ])
}
