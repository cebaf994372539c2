// Decimal numbers into lent bytes ("Numbers are decimal"): the digits of a number, and an integer with its minus sign.
#![tactic(auto)]

ghost use Rattle.std.specs.Prelude.{◌≡◌, ◌+◌, ◌≤◌, length};
ghost use Rattle.std.specs.Int.{w32, w64};
ghost use Rattle.std.proofs.Common.{to_z};
ghost use Rattle.line.specs.Decimal.{number_text, integer_text};
ghost use Rattle.little.specs.Little.{over};
ghost use Rattle.decimal.specs.Put.{put_text, signed_text};

// How many digits a number has.
pub fn number_length(v: u64) -> usize
    ensures { result ≡ length (number_text v) }
{
    match v.checked_ilog10() {
        Some(power) => power as usize + 1,
        None => 1,
    }
}

// The functions below write digits into a slice, and no type has a Display: the printer takes the room of a number, whose length it knows, before it is written.

// The last digits of a number over all of what is lent, two at a time, the last ones first. It is no `for` over
// `rchunks_mut`: the library says nothing of what the slice ends as.
fn put_digits(out: &mut [u8], v: u64)
    ensures { length out.old ≡ length (number_text v) → out.new ≡ number_text v }
{
    let mut x = v;
    let mut i = out.len();
    while 1 < i {
        let d = x % 100;
        out[i - 1] = b'0' + (d % 10) as u8;
        out[i - 2] = b'0' + (d / 10) as u8;
        x /= 100;
        i -= 2;
    }
    if i == 1 {
        out[0] = b'0' + (x % 10) as u8;
    }
}

// A number whose length is known, at the start of what is lent, where it fits.
pub fn put_measured(out: &mut [u8], n: usize, v: u64)
    ensures { n ≡ length (number_text v) → out.new ≡ (put_text out.old (number_text v)).bytes }
{
    if n <= out.len() {
        put_digits(&mut out[..n], v);
    }
}

// A number, after a minus sign where it is taken negative, at the start of what is lent, where it fits.
fn put_signed(out: &mut [u8], minus: bool, v: u64) -> Option<usize>
    ensures { record { bytes = out.new; answer = result } ≡ put_text out.old (signed_text minus v) }
{
    let n = number_length(v);
    let sign = usize::from(minus);
    if out.len() < sign + n {
        return None;
    }
    if minus {
        out[0] = b'-';
    }
    put_digits(&mut out[sign..sign + n], v);
    Some(sign + n)
}

// A number at the start of what is lent, where it fits.
pub fn put_number(out: &mut [u8], v: u64) -> Option<usize>
    ensures { record { bytes = out.new; answer = result } ≡ put_text out.old (number_text v) }
{
    put_signed(out, false, v)
}

// An integer of 64 bits, given by its bits.
pub fn put_integer(out: &mut [u8], bits: u64) -> Option<usize>
    ensures { record { bytes = out.new; answer = result } ≡ put_text out.old (integer_text (to_z w64 bits)) }
{
    let (minus, size) = signed::sign_and_size(bits);
    put_signed(out, minus, size)
}

// The same integer in 64 bits.
pub fn widened(bits: u32) -> u64
    ensures { to_z w64 result ≡ to_z w32 bits }
{
    i64::from(bits.cast_signed()).cast_unsigned()
}
