// Little-endian numbers in lent bytes, by one writer and one reader for every width.
#![tactic(auto)]

ghost use Rattle.std.specs.Prelude.{◌≡◌, ◌≤◌, ◌<◌, ◌+◌, ◌^◌, cond, leb, min, length, take, drop, None, Some};
ghost use Rattle.little.specs.Little.{le, value, value_at, over};

// Where bytes lie among others.
#[derive(Clone, Copy, PartialEq, Eq, Debug)]
pub struct Span {
    pub start: usize,
    pub len: usize,
}

// The smaller of two sizes.
pub fn lesser(a: usize, b: usize) -> usize
    ensures { result ≡ min a b }
{
    a.min(b)
}

// Whether n more from a place on lie within a length. The place is asked for first, so that no sum passes the largest number.
pub fn within(at: usize, n: usize, len: usize) -> bool
    ensures { result ≡ leb (at + n) len }
{
    at <= len && n <= len - at
}

// Where n more from a place on end, or none where they do not lie within a length.
pub fn end_within(at: usize, n: usize, len: usize) -> Option<usize>
    ensures { result ≡ cond (leb (at + n) len) (Some (at + n)) None }
{
    if within(at, n, len) {
        Some(at + n)
    } else {
        None
    }
}

// The low n bytes of a number over the start of what is lent, as far as there is room. One writer for each size: `to_le_bytes` gives an array whose size is its type's.
pub fn put_le(out: &mut [u8], n: usize, v: u64)
    ensures { out.new ≡ over out.old 0 (le n v) }
{
    let end = n.min(out.len());
    let part = &mut out[..end];
    let mut x = v;
    for b in part.iter_mut() {
        *b = (x % 256) as u8;
        x /= 256;
    }
}

// Bytes over the start of what is lent, as far as there is room.
pub fn copy_in(out: &mut [u8], s: &[u8])
    ensures { out.new ≡ over out.old 0 s.now }
{
    let end = s.len().min(out.len());
    out[..end].copy_from_slice(&s[..end]);
}

// The low n bytes of a number from a place on: the writer is lent the rest from there. A place goes along here and below, since each place of a record is a constant behind where it starts.
pub fn put_at(out: &mut [u8], at: usize, n: usize, v: u64)
    ensures { out.new ≡ over out.old at (le n v) }
{
    if at < out.len() {
        put_le(&mut out[at..], n, v);
    }
}

// Bytes from a place on.
pub fn copy_at(out: &mut [u8], at: usize, s: &[u8])
    ensures { out.new ≡ over out.old at s.now }
{
    if at < out.len() {
        copy_in(&mut out[at..], s);
    }
}

// The n bytes from a place on, of which those past the end are left out.
fn there(s: &[u8], at: usize, n: usize) -> &[u8]
    ensures { result.now ≡ take n (drop at s.now) }
{
    let rest = &s[at.min(s.len())..];
    &rest[..n.min(rest.len())]
}

// The number in at most eight bytes: from the highest byte down.
fn number(s: &[u8]) -> u64
    requires { length s.now ≤ 8 }
    ensures { result ≡ value s.now }
{
    let mut r = 0;
    for b in s.iter().rev() {
        r = r * 256 + u64::from(*b);
    }
    r
}

// The number in the n bytes from a place on, of which those past the end are left out: the push and the listing promise of any bytes what that gives, and no
// reader has an arm for an error.
fn get_le(s: &[u8], at: usize, n: usize) -> u64
    requires { n ≤ 8 }
    ensures value { result ≡ value_at n s.now at }
    ensures bound { result < 256 ^ n }
{
    number(there(s, at, n))
}

// Each width has a function of its own, since its number is a type of its own: one generic function would want a trait with these three bodies.
pub fn get_u8(s: &[u8], at: usize) -> u8
    ensures { result ≡ value_at 1 s.now at }
{
    get_le(s, at, 1) as u8
}

pub fn get_u32(s: &[u8], at: usize) -> u32
    ensures { result ≡ value_at 4 s.now at }
{
    get_le(s, at, 4) as u32
}

pub fn get_u64(s: &[u8], at: usize) -> u64
    ensures { result ≡ value_at 8 s.now at }
{
    get_le(s, at, 8)
}
