// The first byte of a run that passes a test. Blocks of 16, 8 or 4 bytes are looked at together, and the last block of a run may overlap the one before it.
// The two searches are the same but for their test of a block: no trait's method has a const parameter.

ghost use Rattle.std.specs.Prelude.{◌≡◌, ◌≢◌, ◌+◌, ◌<◌, ◌≤◌, ℕ, MatchOption, eqb, not, length, take, drop, slice_index_or};
ghost use Rattle.std.specs.List.{position_or_len};
ghost use Rattle.text.specs.Check.{is_plain};

use std::simd::prelude::*;

// ---- a byte

// How many bytes of a block of N stand before the first that is this one: N where none is.
#[inline(always)]
fn byte_in_block<const N: usize>(s: &[u8], at: usize, byte: u8) -> usize
    requires within { at + N ≤ length s.now }
    requires small { N ≤ 64 }
    ensures { result ≡ position_or_len (λ b. eqb b byte) (take N (drop at s.now)) }
{
    let block = Simd::<u8, N>::from_slice(&s[at..]);
    let bits = block.simd_eq(Simd::splat(byte)).to_bitmask();
    if bits == 0 {
        return N;
    }
    bits.trailing_zeros() as usize
}

// By blocks of N.
#[inline(always)]
fn byte_by_blocks<const N: usize>(s: &[u8], byte: u8) -> usize
    requires some { 0 < N }
    requires small { N ≤ 64 }
    requires block { N ≤ length s.now }
    ensures { result ≡ position_or_len (λ b. eqb b byte) s.now }
{
    let last = s.len() - N;
    let mut at: usize = 0;
    while at < last {
        let n = byte_in_block::<N>(s, at, byte);
        if n < N {
            return at + n;
        }
        at += N;
    }
    last + byte_in_block::<N>(s, last, byte)
}

// Byte by byte.
#[inline(always)]
fn byte_one_by_one(s: &[u8], byte: u8) -> usize
    ensures { result ≡ position_or_len (λ b. eqb b byte) s.now }
{
    let mut i: usize = 0;
    while i < s.len() && s[i] != byte {
        i += 1;
    }
    i
}

// How many bytes stand before the first that is this one: all where none is.
#[inline(always)]
fn byte_place(s: &[u8], byte: u8) -> usize
    ensures { result ≡ position_or_len (λ b. eqb b byte) s.now }
{
    match s.len() {
        0..=3 => byte_one_by_one(s, byte),
        4..=7 => byte_by_blocks::<4>(s, byte),
        8..=15 => byte_by_blocks::<8>(s, byte),
        _ => byte_by_blocks::<16>(s, byte),
    }
}

// The place of the first byte that is this one, as `position` finds it.
#[inline(always)]
pub fn byte_position(s: &[u8], byte: u8) -> Option<usize>
    ensures { MatchOption result ((k : ℕ) → k < length s.now → slice_index_or s.now k 0 ≢ byte)
        (λ i. (i < length s.now) × ((slice_index_or s.now i 0 ≡ byte) × ((k : ℕ) → k < i → slice_index_or s.now k 0 ≢ byte))) }
{
    let i = byte_place(s, byte);
    if i < s.len() {
        return Some(i);
    }
    None
}

// ---- a byte that is not plain

// How many bytes of a block of N stand before the first that is not plain: N where all are.
#[inline(always)]
fn plain_in_block<const N: usize>(s: &[u8], at: usize) -> usize
    requires within { at + N ≤ length s.now }
    requires small { N ≤ 64 }
    ensures { result ≡ position_or_len (λ b. not (is_plain b)) (take N (drop at s.now)) }
{
    let block = Simd::<u8, N>::from_slice(&s[at..]);
    let outside = block.simd_lt(Simd::splat(b' ')) | Simd::splat(b'~').simd_lt(block);
    let bits = (block.simd_ne(Simd::splat(b'\t')) & outside).to_bitmask();
    if bits == 0 {
        return N;
    }
    bits.trailing_zeros() as usize
}

// By blocks of N.
#[inline(always)]
fn plain_by_blocks<const N: usize>(s: &[u8]) -> usize
    requires some { 0 < N }
    requires small { N ≤ 64 }
    requires block { N ≤ length s.now }
    ensures { result ≡ position_or_len (λ b. not (is_plain b)) s.now }
{
    let last = s.len() - N;
    let mut at: usize = 0;
    while at < last {
        let n = plain_in_block::<N>(s, at);
        if n < N {
            return at + n;
        }
        at += N;
    }
    last + plain_in_block::<N>(s, last)
}

// Whether a byte is a tab or one from the blank to the tilde.
pub(crate) fn is_plain(b: u8) -> bool
    ensures { result ≡ is_plain b }
{
    (b == b'\t') | ((b' ' <= b) & (b <= b'~'))
}

// Byte by byte.
#[inline(always)]
fn plain_one_by_one(s: &[u8]) -> usize
    ensures { result ≡ position_or_len (λ b. not (is_plain b)) s.now }
{
    let mut i: usize = 0;
    while i < s.len() && is_plain(s[i]) {
        i += 1;
    }
    i
}

// How many bytes stand before the first that is neither a tab nor one from the blank to the tilde.
#[inline(always)]
pub(crate) fn plain_length(s: &[u8]) -> usize
    ensures { result ≡ position_or_len (λ b. not (is_plain b)) s.now }
{
    match s.len() {
        0..=3 => plain_one_by_one(s),
        4..=7 => plain_by_blocks::<4>(s),
        8..=15 => plain_by_blocks::<8>(s),
        _ => plain_by_blocks::<16>(s),
    }
}
