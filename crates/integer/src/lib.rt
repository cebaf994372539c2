// Integer fields, as Rust's `parse` reads an i64 or an i32: at most one sign, then one or more digits, any number of them.
#![tactic(auto)]

ghost use Rattle.std.specs.Prelude.{◌≡◌, ◌-◌, ◌^◌, ◌≤◌, ℕ, refl, length};
ghost use Rattle.std.specs.Int.{Width, w32, w64};
ghost use mir.Val.{bits, hbits};
ghost use Rattle.integer.specs.Integer.{read_of, digits};
ghost use Rattle.integer.specs.Bounded.{at_most};

// The number that at most 19 digits write, if there are digits and nothing else: it is below 2^64.
fn short(s: &[u8]) -> Option<u64>
    requires { length s.now ≤ 19 }
    ensures { result ≡ digits s.now }
{
    if s.is_empty() {
        return None;
    }
    let mut n = 0;
    for b in s {
        if !b.is_ascii_digit() {
            return None;
        }
        n = n * 10 + u64::from(*b - b'0');
    }
    Some(n)
}

// The number that any number of digits write, if there are digits and nothing else, and it is at most `most`.
fn long(s: &[u8], most: u64) -> Option<u64>
    ensures { result ≡ at_most most (digits s.now) }
{
    if s.is_empty() {
        return None;
    }
    let mut n = 0;
    for b in s {
        if !b.is_ascii_digit() {
            return None;
        }
        let d = u64::from(*b - b'0');
        if most < d || (most - d) / 10 < n {
            return None;
        }
        n = n * 10 + d;
    }
    Some(n)
}

// The number that the digits write, if there are digits and nothing else, and it is at most `most`.
fn magnitude(s: &[u8], most: u64) -> Option<u64>
    ensures { result ≡ at_most most (digits s.now) }
{
    if s.len() <= 19 {
        let n = short(s)?;
        return (n <= most).then_some(n);
    }
    long(s, most)
}

// A width that integer fields have: its largest number, and its bits all set.
pub trait FieldWidth {
    ghost width: { Width };

    ghost MOST: { ℕ };

    ghost ONES: { ℕ };

    const MOST: u64;

    const ONES: u64;

    ghost most: { MOST ≡ 2 ^ hbits width - 1 };

    ghost ones: { ONES ≡ 2 ^ bits width - 1 };
}

impl FieldWidth for i64 {
    ghost width = { w64 };

    ghost MOST = { 0x7fff_ffff_ffff_ffff };

    ghost ONES = { 0xffff_ffff_ffff_ffff };

    const MOST: u64 = 0x7fff_ffff_ffff_ffff;

    const ONES: u64 = 0xffff_ffff_ffff_ffff;

    ghost most = { refl };

    ghost ones = { refl };
}

impl FieldWidth for i32 {
    ghost width = { w32 };

    ghost MOST = { 0x7fff_ffff };

    ghost ONES = { 0xffff_ffff };

    const MOST: u64 = 0x7fff_ffff;

    const ONES: u64 = 0xffff_ffff;

    ghost most = { refl };

    ghost ones = { refl };
}

// The bits of the integer that a text writes, if its width holds it. It is no `FromStr`, since a field is bytes and its integer is held as bits.
pub fn read<W: FieldWidth>(s: &[u8]) -> Option<u64>
    ensures { result ≡ read_of W.width s.now }
{
    match s {
        [] => None,
        [b'+', rest @ ..] => magnitude(rest, W::MOST),
        [b'-', rest @ ..] => match magnitude(rest, W::MOST + 1)? {
            0 => Some(0),
            n => Some(W::ONES - (n - 1)),
        },
        _ => magnitude(s, W::MOST),
    }
}

// The number of a text of digits alone, without a sign, if it is at most `most`.
pub fn read_digits(text: &[u8], most: u64) -> Option<u64>
    ensures { result ≡ at_most most (digits text.now) }
{
    magnitude(text, most)
}
