// Bytes in lent slices: what a function that writes into lent room promises, numbers of several bytes, lowest byte first,
// copies, and filling. It knows no tag. Room is lent by the caller, and what writes into it returns how many bytes it wrote: nothing here has a heap.
#![tactic(auto)]

ghost use Rattle.std.specs.Prelude.{◌≡◌, ◌+◌, ◌*◌, ◌≤◌, ◌<◌, length, get_or, take, drop, replicate};
ghost use Rattle.put.specs.Put.{Put};
ghost use Rattle.put.specs.Number.{number_at, bytes_of};

use std::array;

// The byte at a place, 0 past the end.
pub fn byte_at(s: &[u8], at: usize) -> u8
    ensures { result ≡ get_or s.now at 0 }
{
    s.get(at).copied().unwrap_or(0)
}

// The byte at a place that is there, by the word that definitions have for it.
pub fn byte_of(s: &[u8], at: usize) -> u8
    requires { at < length s.now }
    ensures { result ≡ get_or s.now at 0 }
{
    s[at]
}

// The N bytes from a place on, 0 past the end. The place has 32 bits, so that no sum of places needs a bound.
fn bytes_at<const N: usize>(s: &[u8], at: u32) -> [u8; N]
    requires { N ≤ 8 }
    ensures { number_at N result 0 ≡ number_at N s.now at }
{
    array::from_fn(|k| byte_at(s, at as usize + k))
}

// The same of places that are there, so that a compiler makes one load of them.
fn part_of<const N: usize>(s: &[u8], at: usize) -> [u8; N]
    requires { at + N ≤ length s.now }
    ensures { result ≡ take N (drop at s.now) }
{
    *s[at..].first_chunk().unwrap()
}

// The number of the two bytes from a place on. Two functions, and no generic one: a number's type cannot follow from how many bytes it has.
#[tactic(auto, unfolding(crate::specs::Number::number_at))]
pub fn number2(s: &[u8], at: u32) -> u16
    ensures { result ≡ number_at 2 s.now at }
{
    u16::from_le_bytes(bytes_at(s, at))
}

// The number of the eight bytes from a place on.
#[tactic(auto, using(crate::proofs::Numbers::eight))]
pub fn number8(s: &[u8], at: u8) -> u64
    ensures { result ≡ number_at 8 s.now at }
{
    u64::from_le_bytes(bytes_at(s, at as u32))
}

// The same of eight places that are there.
#[tactic(auto, using(crate::proofs::Numbers::eight, crate::proofs::Numbers::taken))]
pub fn eight_of(s: &[u8], at: usize) -> u64
    requires { at + 7 < length s.now }
    ensures { result ≡ number_at 8 s.now at }
{
    u64::from_le_bytes(part_of(s, at))
}

// The lowest bytes of a number, as many as the width says, go to the start of out: any width, where `to_le_bytes` has eight.
pub fn put_number(n: u64, width: usize, out: &mut [u8]) -> usize
    requires { width ≤ length out.old }
    ensures { Put (bytes_of width n) out.old out.new result }
{
    let mut rest = n;
    for byte in &mut out[..width] {
        *byte = (rest % 256) as u8;
        rest /= 256;
    }
    width
}

// All of src goes to the start of out. The library's `copy_from_slice` calls `memmove`, and a C host is promised that `memset` alone is called. One index
// serves both slices: of `zip`, which tests two ends, a compiler makes a slower loop.
#[tactic(auto, using(crate::proofs::Lists::byte_copied))]
pub fn copy(src: &[u8], out: &mut [u8]) -> usize
    requires { length src.now ≤ length out.old }
    ensures { Put src.now out.old out.new result }
{
    for (i, byte) in src.iter().enumerate() {
        out[i] = *byte;
    }
    src.len()
}

// A part of 512 bytes, in sixteens: so many turns a compiler unrolls.
fn copy_part(src: &[u8; 512], out: &mut [u8]) -> usize
    requires { 512 ≤ length out.old }
    ensures { Put src.now out.old out.new result }
{
    for j in 0..32 {
        let at = 16 * j;
        copy(&part_of::<16>(src, at), &mut out[at..]);
    }
    512
}

// The same as copy, for many bytes. A compiler cannot tell whether the slices overlap, so of a loop over bytes it makes no wide copy; sixteen
// bytes by value are one.
pub fn copy_all(src: &[u8], out: &mut [u8]) -> usize
    requires { length src.now ≤ length out.old }
    ensures { Put src.now out.old out.new result }
{
    let (parts, rest) = src.as_chunks::<512>();
    for (i, part) in parts.iter().enumerate() {
        copy_part(part, &mut out[512 * i..]);
    }
    copy(rest, &mut out[512 * parts.len()..]);
    src.len()
}

// Every byte is one value. The library's `fill` was tried: it stores the last byte apart, and its twelve instructions more miss aim (i) of speed/.
pub fn fill(out: &mut [u8], value: u8)
    ensures { out.new ≡ replicate (length out.old) value }
{
    for byte in out {
        *byte = value;
    }
}
